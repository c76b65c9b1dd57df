//! Two ends over their folders, and the socket between them.
ghost use Rattle.std.specs.Prelude.{◌≡◌, ◌≤◌, ◌<◌, ◌↔◌, ◌&&◌, false, IfErr, IfOk, IsSome};
ghost use Rattle.uug_session.specs.Beginnings.{IsSoundBeginning};
ghost use Rattle.uug_session.specs.NodeRuns.{HasRun};
ghost use Rattle.uug_store.specs.JobsText.{IsQueueOf};
ghost use Rattle.uug_stream.specs.Streams.{CountsFault};
ghost use Rattle.uug_transfer.specs.FaultInjection.{is_in_range};
ghost use Rattle.uug_error.specs.Failures.{fault_with};
ghost use Rattle.uug_error.specs.Faults.{IsFolderFault, IsReadingFault, IsRunFault, IsSessionFault};
ghost use Rattle.uug_pair.specs.Answers.{IsRunAnswer};
ghost use Rattle.uug_pair.specs.GoneJobs.{GoneJobsWereDone, beginnings_of, kept_by, nodes_of};
ghost use Rattle.uug_config.specs.Places.{IsPlaceInPair};
ghost use Rattle.uug_config.specs.Tasks.{beginning_of};
ghost use Rattle.uug_transfer.specs.BufferedNodes.{node_in, spool_in};
ghost use Rattle.uug_transfer.specs.Moments.{IsLed, end_now};
ghost use Rattle.uug_transfer.specs.EndOver.{IsEndFault};

use crate::promises::the_file_of_a_job_that_is_gone_was_kept;
use crate::unwatched::Unwatched;
use std::alloc::{AllocError, Allocator};
use std::fs::File;
use std::net::Net;
use std::rt::Files;
use uug_config::{EndParts, place_in_pair};
use uug_error::{EndDir, RunFault, SystemFailure};
use uug_io_disk::{
    DirLock, NoFile, OpenJobs, SystemFolder, SystemText, lock_dir, mark_done, open_jobs, read_send,
};
use uug_io_line::open_watched_wire;
use uug_session::event_laws::events_follow_events;
use uug_session::{Side, Spool, Stored};
use uug_store::FolderSpool;
use uug_stream::{Output, ToolFault};
use uug_transfer::{FaultInjector, SessionObserver, TransferEnd, pair_over};

/// The maximum number of turns of two ends.
pub const TURNS_MAX: u32 = 1_000_000;

/// The files of an end in a folder of the system.
type SystemSpool<'a, R, A> = FolderSpool<SystemFolder<'a, R, A>, A>;

/// An end over a folder of the system.
type SystemEnd<'a, R, A> = TransferEnd<SystemSpool<'a, R, A>, SystemText<'a, R, A>, NoFile, A>;

/// The parts of an end over a folder of the system.
type SystemParts<'a, R, A> = EndParts<SystemSpool<'a, R, A>, SystemText<'a, R, A>, NoFile, A>;

/// The parts of both ends. The queue of each has the jobs in the text that was read from its file.
#[derive(Drop)]
pub struct PairParts<'a, R: Files, A: Allocator + Copy> {
    /// The parts of the end that calls.
    pub caller: SystemParts<'a, R, A>,
    /// The parts of the end that is called.
    pub called: SystemParts<'a, R, A>,
    pub ghost caller_read: { IsQueueOf caller.jobs.before.items caller.queue },
    pub ghost called_read: { IsQueueOf called.jobs.before.items called.queue },
}

/// Both ends after their run, and the result of the program.
#[derive(Drop)]
pub struct FinishedPair<'a, R: Files, A: Allocator + Copy> {
    /// The end that called.
    pub caller: SystemEnd<'a, R, A>,
    /// The end that was called.
    pub called: SystemEnd<'a, R, A>,
    /// The program's status, or the first fault.
    pub answer: Result<u8, RunFault>,
}

/// A run of two ends: their socket, their folders, and the faults on the line between them.
#[derive(Clone, Copy)]
pub struct PairRun<'a> {
    /// The path at which the socket is created.
    pub socket: &'a str,
    /// The folder of the end that calls.
    pub dir_a: &'a str,
    /// The folder of the end that is called.
    pub dir_b: &'a str,
    /// N, if every Nth packet is lost.
    pub drop_every: Option<u32>,
    /// N, if every Nth packet is changed.
    pub flip_every: Option<u32>,
}

impl<'a> PairRun<'a> {
    /// Returns the folder of the end that calls.
    fn caller_dir(&self) -> EndDir<'a> {
        EndDir {
            path: self.dir_a,
            number: 0,
        }
    }

    /// Returns the folder of the end that is called.
    fn called_dir(&self) -> EndDir<'a> {
        EndDir {
            path: self.dir_b,
            number: 1,
        }
    }
}

/// The locks on the folders of both ends.
#[derive(Drop)]
struct PairLocks<A: Allocator> {
    caller: DirLock<A>,
    called: DirLock<A>,
}

/// Runs two ends as `pair_run_with_reason` does, without an observer. A fault does not say which system call failed, or
/// which folder another run holds.
pub fn pair_run<A: Allocator + Copy, R: Files<File = File> + Net + Alloc + Clone + Drop, O: Output>(
    alloc: A,
    rt: &R,
    socket: &str,
    dir_a: &str,
    dir_b: &str,
    drop_every: Option<u32>,
    flip_every: Option<u32>,
    output: &mut O,
) -> Result<u8, ToolFault>
    ensures usage { (result ≡ Err ToolFault.Usage) ↔
        ((is_in_range drop_every && is_in_range flip_every) ≡ false) }
    ensures status { IfOk result (λ status. status ≤ 1) }
    ensures write { result ≡ Err ToolFault.Write
        → CountsFault (O.fault_count output.old) (O.fault_count output.new) }
    ensures no_other { IfErr result IsRunAnswer }
{
    let run = PairRun {
        socket,
        dir_a,
        dir_b,
        drop_every,
        flip_every,
    };
    match pair_run_with_reason(alloc, rt, &run, Unwatched, output) {
        Ok(status) => Ok(status),
        Err(fault) => Err(fault.answer()),
    }
}

/// Runs the caller `a` over the folder `dir_a` and the called end `b` over `dir_b`, with a Unix socket that is created
/// at the path `socket`. If `drop_every` is N, every Nth packet is lost. If `flip_every` is N, every Nth packet is
/// changed. Packets are counted over both directions. `docs/OPERATING.md` describes the files of a folder. Both folders
/// are locked before anything in them is read. Returns the program's status. A fault says which system call failed
/// first, if one is the reason, or which folder another run holds. The observer sees what the caller writes and reads,
/// and the end of its session.
pub fn pair_run_with_reason<
    A: Allocator + Copy,
    R: Files<File = File> + Net + Alloc + Clone + Drop,
    W: SessionObserver + Drop,
    O: Output,
>(alloc: A, rt: &R, run: &PairRun<'_>, observer: W, output: &mut O) -> Result<u8, RunFault>
    ensures usage { (result ≡ Err (RunFault.Tool ToolFault.Usage)) ↔
        ((is_in_range run.now.drop_every && is_in_range run.now.flip_every) ≡ false) }
    ensures status { IfOk result (λ status. status ≤ 1) }
    ensures write { result ≡ Err (RunFault.Tool ToolFault.Write)
        → CountsFault (O.fault_count output.old) (O.fault_count output.new) }
    // A device fault always says which call it was.
    ensures no_other { IfErr result IsRunFault }
{
    let Some(injector) = FaultInjector::new(run.drop_every, run.flip_every) else {
        return Err(RunFault::Tool(ToolFault::Usage));
    };
    let locks = lock_both(alloc, rt, run)?;
    let result = run_locked(alloc, rt, run.socket, &locks, injector, observer, output);
    drop(locks);
    result
}

/// Locks the folders of both ends.
fn lock_both<A: Allocator + Copy, R: Files<File = File> + Alloc + Clone + Drop>(
    alloc: A,
    rt: &R,
    run: &PairRun<'_>,
) -> Result<PairLocks<A>, RunFault>
    ensures { IfErr result IsFolderFault }
{
    let caller = lock_dir(alloc, rt, run.caller_dir())?;
    match lock_dir(alloc, rt, run.called_dir()) {
        Ok(called) => Ok(PairLocks { caller, called }),
        Err(fault) => {
            drop(caller);
            Err(fault)
        }
    }
}

/// Runs both ends over their folders, which are locked.
fn run_locked<
    A: Allocator + Copy,
    R: Files<File = File> + Net + Alloc + Clone + Drop,
    W: SessionObserver + Drop,
    O: Output,
>(
    alloc: A,
    rt: &R,
    socket: &str,
    locks: &PairLocks<A>,
    injector: FaultInjector,
    observer: W,
    output: &mut O,
) -> Result<u8, RunFault>
    ensures status { IfOk result (λ status. status ≤ 1) }
    ensures write { result ≡ Err (RunFault.Tool ToolFault.Write)
        → CountsFault (O.fault_count output.old) (O.fault_count output.new) }
    ensures no_other { IfErr result IsSessionFault }
{
    let parts = read_both(alloc, rt, locks)?;
    let FinishedPair {
        caller,
        called,
        answer,
    } = run_both(alloc, rt, socket, parts, injector, observer, output)?;
    mark_copies(alloc, rt, locks.caller.dir(), &caller);
    mark_copies(alloc, rt, locks.called.dir(), &called);
    drop(caller);
    drop(called);
    answer
}

/// Marks the queued copies whose jobs are done. Without memory for that, they stay.
fn mark_copies<A: Allocator + Copy, R: Files>(
    alloc: A,
    rt: &R,
    dir: EndDir<'_>,
    end: &SystemEnd<'_, R, A>,
) {
    let _ = mark_done(alloc, rt, dir, end.buffered.node().queue().struck());
}

/// Begins the sessions of both ends, and runs them. Returns both ends after that: each has run the session that began
/// here, up to that point. Each job that has left an end's pending jobs without failing has its file, complete, at the
/// end to which it went. This holds unless a packet that was not sent passed its checksum.
pub fn run_both<
    'a,
    A: Allocator + Copy,
    R: Files<File = File> + Net + Alloc + Clone + Drop,
    W: SessionObserver + Drop,
    O: Output,
>(
    alloc: A,
    rt: &R,
    socket: &str,
    parts: PairParts<'a, R, A>,
    injector: FaultInjector,
    observer: W,
    output: &mut O,
) -> Result<FinishedPair<'a, R, A>, AllocError>
    requires caller_calm { parts.caller.jobs.file.faults.count ≡ 0 }
    requires called_calm { parts.called.jobs.file.faults.count ≡ 0 }
    ensures caller_ran { IfOk result (λ finished. HasRun Side.Caller
        (beginning_of ⟦<SystemSpool<'a, R, A> as Spool>⟧.holdings
        ⟦<SystemSpool<'a, R, A> as Spool>⟧.kept parts.entry.caller)
        (⟦<SystemSpool<'a, R, A> as Spool>⟧.kept (spool_in finished.caller.buffered))
        (node_in finished.caller.buffered)) }
    ensures called_ran { IfOk result (λ finished. HasRun Side.Called
        (beginning_of ⟦<SystemSpool<'a, R, A> as Spool>⟧.holdings
        ⟦<SystemSpool<'a, R, A> as Spool>⟧.kept parts.entry.called)
        (⟦<SystemSpool<'a, R, A> as Spool>⟧.kept (spool_in finished.called.buffered))
        (node_in finished.called.buffered)) }
    ensures caller_sound { IfOk result (λ _. IsSoundBeginning
        (beginning_of ⟦<SystemSpool<'a, R, A> as Spool>⟧.holdings
        ⟦<SystemSpool<'a, R, A> as Spool>⟧.kept parts.entry.caller)) }
    ensures called_sound { IfOk result (λ _. IsSoundBeginning
        (beginning_of ⟦<SystemSpool<'a, R, A> as Spool>⟧.holdings
        ⟦<SystemSpool<'a, R, A> as Spool>⟧.kept parts.entry.called)) }
    ensures gone_jobs { IfOk result (λ finished. GoneJobsWereDone
        (beginnings_of ⟦<SystemSpool<'a, R, A> as Spool>⟧.holdings
        ⟦<SystemSpool<'a, R, A> as Spool>⟧.kept parts.entry.caller parts.entry.called)
        (kept_by ⟦<SystemSpool<'a, R, A> as Spool>⟧.kept
        finished.caller.buffered finished.called.buffered)
        (nodes_of finished.caller.buffered finished.called.buffered)) }
    ensures status { IfOk result (λ finished. IfOk finished.answer (λ status. status ≤ 1)) }
    ensures write { IfOk result (λ finished. finished.answer
        ≡ Err (RunFault.Tool ToolFault.Write)
        → CountsFault (O.fault_count output.old) (O.fault_count output.new)) }
    ensures no_other { IfOk result (λ finished. IfErr finished.answer IsSessionFault) }
{
    the_file_of_a_job_that_is_gone_was_kept();
    let PairParts { caller, called } = parts;
    let mut caller = match caller.begin(alloc, Side::Caller, injector) {
        Ok(caller) => caller,
        Err(AllocError) => {
            drop(called);
            return Err(AllocError);
        }
    };
    let mut called = match called.begin(alloc, Side::Called, FaultInjector::none()) {
        Ok(called) => called,
        Err(AllocError) => {
            drop(caller);
            return Err(AllocError);
        }
    };
    let answer = run_ends(
        alloc,
        rt,
        socket,
        &mut caller,
        &mut called,
        observer,
        output,
    );
    Ok(FinishedPair {
        caller,
        called,
        answer,
    })
}

/// Connects both ends by an observed socket, and runs them.
fn run_ends<
    'a,
    A: Allocator + Copy,
    R: Files<File = File> + Net + Alloc + Clone + Drop,
    W: SessionObserver + Drop,
    O: Output,
>(
    alloc: A,
    rt: &R,
    socket: &str,
    caller: &mut SystemEnd<'a, R, A>,
    called: &mut SystemEnd<'a, R, A>,
    observer: W,
    output: &mut O,
) -> Result<u8, RunFault>
    requires caller_calm { caller.old.jobs.file.faults.count ≡ 0 }
    requires called_calm { called.old.jobs.file.faults.count ≡ 0 }
    ensures caller_led { IsLed
        (end_now ⟦<SystemSpool<'a, R, A> as Spool>⟧.holdings
        ⟦<SystemSpool<'a, R, A> as Spool>⟧.kept caller.old.buffered)
        (end_now ⟦<SystemSpool<'a, R, A> as Spool>⟧.holdings
        ⟦<SystemSpool<'a, R, A> as Spool>⟧.kept caller.new.buffered) }
    ensures called_led { IsLed
        (end_now ⟦<SystemSpool<'a, R, A> as Spool>⟧.holdings
        ⟦<SystemSpool<'a, R, A> as Spool>⟧.kept called.old.buffered)
        (end_now ⟦<SystemSpool<'a, R, A> as Spool>⟧.holdings
        ⟦<SystemSpool<'a, R, A> as Spool>⟧.kept called.new.buffered) }
    ensures status { IfOk result (λ status. status ≤ 1) }
    ensures write { result ≡ Err (RunFault.Tool ToolFault.Write)
        → CountsFault (O.fault_count output.old) (O.fault_count output.new) }
    ensures no_other { IfErr result IsSessionFault }
{
    events_follow_events();
    let mut line = open_watched_wire(rt, socket, observer)?;
    let result = pair_over(alloc, caller, called, &mut line, TURNS_MAX, output);
    let first = failure_of(caller).or(failure_of(called)).or(line.failure());
    with_cause(result, first)
}

/// Returns the answer of a run. `first`, the first failed system call, is the cause of a device fault, which always has
/// one.
fn with_cause(answer: Result<u8, ToolFault>, first: Option<SystemFailure>) -> Result<u8, RunFault>
    requires named { answer ≡ Err ToolFault.Device → IsSome first }
    requires no_other { IfErr answer IsEndFault }
    ensures ok { IfOk answer (λ status. result ≡ Ok status) }
    ensures err { IfErr answer (λ fault. result ≡ Err (fault_with fault first)) }
    ensures no_other { IfErr result IsSessionFault }
{
    match answer {
        Ok(status) => Ok(status),
        Err(fault) => Err(RunFault::with(fault, first)),
    }
}

/// Returns the first failed system call on the folder of an end: in `got`, or else on its jobs.
fn failure_of<R: Files, A: Allocator + Copy>(end: &SystemEnd<'_, R, A>) -> Option<SystemFailure>
    ensures { 0 < end.now.jobs.file.faults.count → IsSome result }
{
    let got = end.buffered.node().spool().folder();
    got.failure().or(end.jobs.file.failure())
}

/// Reads the parts of both ends from their folders.
fn read_both<'a, A: Allocator + Copy, R: Files + Alloc + Clone + Drop>(
    alloc: A,
    rt: &'a R,
    locks: &'a PairLocks<A>,
) -> Result<PairParts<'a, R, A>, RunFault>
    ensures caller_calm { IfOk result (λ parts. parts.caller.jobs.file.faults.count ≡ 0) }
    ensures called_calm { IfOk result (λ parts. parts.called.jobs.file.faults.count ≡ 0) }
    ensures caller_place { IfOk result (λ parts. IsPlaceInPair Side.Caller parts.caller.place) }
    ensures called_place { IfOk result (λ parts. IsPlaceInPair Side.Called parts.called.place) }
    ensures caller_jobs { IfOk result (λ parts.
        IsQueueOf parts.caller.jobs.before.items parts.caller.queue) }
    ensures called_jobs { IfOk result (λ parts.
        IsQueueOf parts.called.jobs.before.items parts.called.queue) }
    ensures no_other { IfErr result IsReadingFault }
{
    let jobs = open_both(alloc, rt, locks)?;
    let files = match read_sends(alloc, rt, locks) {
        Ok(files) => files,
        Err(fault) => {
            drop(jobs);
            return Err(fault);
        }
    };
    let (caller_jobs, called_jobs) = jobs;
    let (caller_files, called_files) = files;
    let (dir_a, dir_b) = (locks.caller.dir(), locks.called.dir());
    let Ok(caller) = make_parts(alloc, rt, Side::Caller, dir_a, caller_jobs, caller_files) else {
        drop(called_jobs);
        drop(called_files);
        return Err(RunFault::Tool(ToolFault::Memory));
    };
    match make_parts(alloc, rt, Side::Called, dir_b, called_jobs, called_files) {
        Ok(called) => Ok(PairParts { caller, called }),
        Err(_) => {
            drop(caller);
            Err(RunFault::Tool(ToolFault::Memory))
        }
    }
}

/// Reads the jobs of both folders.
fn open_both<'a, A: Allocator + Copy, R: Files>(
    alloc: A,
    rt: &'a R,
    locks: &'a PairLocks<A>,
) -> Result<(OpenJobs<'a, R, A>, OpenJobs<'a, R, A>), RunFault>
    ensures caller_calm { IfOk result (λ both. both.0.file.file.faults.count ≡ 0) }
    ensures called_calm { IfOk result (λ both. both.1.file.file.faults.count ≡ 0) }
    ensures no_other { IfErr result IsReadingFault }
{
    let caller = open_jobs(alloc, rt, &locks.caller, locks.caller.dir())?;
    match open_jobs(alloc, rt, &locks.called, locks.called.dir()) {
        Ok(called) => Ok((caller, called)),
        Err(fault) => {
            drop(caller);
            Err(fault)
        }
    }
}

/// Reads the files that both folders have to give.
fn read_sends<A: Allocator + Copy, R: Files + Alloc + Clone + Drop>(
    alloc: A,
    rt: &R,
    locks: &PairLocks<A>,
) -> Result<(Vec<Stored<A>, A>, Vec<Stored<A>, A>), RunFault>
    ensures { IfErr result IsReadingFault }
{
    let caller = read_send(alloc, rt, &locks.caller)?;
    match read_send(alloc, rt, &locks.called) {
        Ok(called) => Ok((caller, called)),
        Err(fault) => {
            drop(caller);
            Err(fault)
        }
    }
}

/// Makes the parts of an end over this folder, with these jobs and these files to give.
fn make_parts<'a, A: Allocator + Copy, R: Files>(
    alloc: A,
    rt: &'a R,
    side: Side,
    dir: EndDir<'a>,
    jobs: OpenJobs<'a, R, A>,
    files: Vec<Stored<A>, A>,
) -> Result<SystemParts<'a, R, A>, AllocError>
    ensures place { IfOk result (λ parts. IsPlaceInPair side parts.place) }
    ensures jobs { IfOk result (λ parts. parts.jobs ≡ jobs.entry.file) }
    ensures queue { IfOk result (λ parts. IsQueueOf parts.jobs.before.items parts.queue) }
{
    let OpenJobs { file, queue } = jobs;
    let spool = make_spool(alloc, rt, dir, files)?;
    Ok(EndParts {
        place: place_in_pair(side),
        queue,
        spool,
        jobs: file,
        number: NoFile,
    })
}

/// Returns the spool over this folder, with these files to give.
fn make_spool<'a, A: Allocator + Copy, R: Files>(
    alloc: A,
    rt: &'a R,
    dir: EndDir<'a>,
    files: Vec<Stored<A>, A>,
) -> Result<SystemSpool<'a, R, A>, AllocError> {
    let folder = SystemFolder::new(alloc, rt, dir)?;
    Ok(FolderSpool::new(alloc, files, folder))
}
