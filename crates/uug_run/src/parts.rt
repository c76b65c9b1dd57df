//! The parts of an end over a folder of the system.
ghost use Rattle.std.specs.Prelude.{◌≡◌, ◌<◌, ◌≤◌, IfErr, IfOk, IsSome, is_some, length};
ghost use Rattle.uug_conversation.specs.Jobs.{pending};
ghost use Rattle.uug_error.specs.Faults.{IsFolderFault, IsReadingFault};
ghost use Rattle.uug_store.specs.JobsText.{IsFrontOf};
ghost use Rattle.uug_config.specs.Tasks.{IsTask};

use crate::numbers::Numbers;
use crate::resumed::{partial_path, read_held};
use std::alloc::{AllocError, Allocator};
use std::fs;
use std::fs::File;
use std::rt::Files;
use uug_config::{CallTask, EndParts, System};
use uug_error::{EndText, RunFault, SystemFailure};
use uug_io_disk::{
    DirLock, Given, OpenJobs, PartialNotes, SystemFolder, SystemJobs, SystemNumber, SystemText,
    open_jobs, read_given, see_jobs,
};
use uug_observe::{log_lines, log_waiting};
use uug_session::{Job, Place, Side, Spool, Stored};
use uug_store::{FolderSpool, JobsFile, LocalNames, first_jobs};
use uug_stream::ToolFault;
use uug_talk::Name;
use uug_transfer::TransferEnd;

/// The files of an end in a folder of the system.
type SystemSpool<'a, R, A> = LocalNames<SystemFolder<'a, R, A>, PartialNotes<'a, R, A>, A>;

/// An end over a folder of the system.
pub(crate) type SystemEnd<'a, R, A> = TransferEnd<
    SystemSpool<'a, R, A>,
    SystemJobs<'a, R, A>,
    SystemNumber<'a, R, A>,
    A,
>;

/// The parts of an end over a folder of the system.
pub(crate) type SystemParts<'a, R, A> = EndParts<
    SystemSpool<'a, R, A>,
    SystemJobs<'a, R, A>,
    SystemNumber<'a, R, A>,
    A,
>;

/// Returns the first failed system call on the folder of an end: in `got`, or else on its jobs, or else on its number.
pub(crate) fn failure_of<R: Files<File = File>, A: Allocator + Copy>(
    end: &SystemEnd<'_, R, A>,
) -> Option<SystemFailure>
    ensures jobs { 0 < end.now.jobs.file.file.faults.count → IsSome result }
    ensures number { 0 < end.now.number.file.faults.count → IsSome result }
{
    let got = end.buffered.node().spool().files().folder();
    got.failure()
        .or(end.jobs.file.failure())
        .or(end.number.failure())
}

/// Reads the parts of an end over the folder of the task, as it is now.
pub(crate) fn read_parts<'a, A, R>(
    alloc: A,
    rt: &'a R,
    task: &CallTask<'a>,
    lock: &DirLock<A>,
    mut place: Place,
    numbers: Numbers,
) -> Result<SystemParts<'a, R, A>, RunFault>
where
    A: Allocator + Copy,
    R: System,
    ensures jobs_calm { IfOk result (λ parts. parts.jobs.file.file.faults.count ≡ 0) }
    ensures number_calm { IfOk result (λ parts. parts.number.file.faults.count ≡ 0) }
    ensures place { IfOk result (λ parts.
        parts.place ≡ record place { number = numbers.begins }) }
    ensures jobs { IfOk result (λ parts. IsFrontOf parts.jobs.before.items parts.queue) }
    ensures resuming { IfOk result (λ parts.
        is_some parts.spool.partials ≡ task.now.settings.is_resuming) }
    ensures no_other { IfErr result IsReadingFault }
{
    place.number = numbers.begins;
    let jobs = open_jobs(alloc, rt, lock, task.end_dir())?;
    let given = match see_given(alloc, rt, task, lock, jobs.queue.pending()) {
        Ok(given) => given,
        Err(fault) => {
            drop(jobs);
            return Err(fault);
        }
    };
    log_lines(alloc, rt, task, given.passed.as_slice());
    let waiting = jobs.queue.pending().len().saturating_sub(given.offered);
    log_waiting(alloc, rt, task, waiting);
    let partials = match read_held(alloc, rt, task) {
        Ok(partials) => partials,
        Err(AllocError) => {
            drop(jobs);
            drop(given);
            return Err(RunFault::Tool(ToolFault::Memory));
        }
    };
    let mut parts = make_parts(alloc, rt, task, place, numbers.held, jobs, given)?;
    parts.spool.set_partials(partials);
    Ok(parts)
}

/// Checks that these jobs can be removed, and returns the files that the end gives. The jobs of a called end may have
/// changed since it began to wait.
fn see_given<A: Allocator + Copy, R: Files<File = File> + Eprint + Alloc + Clone + Drop>(
    alloc: A,
    rt: &R,
    task: &CallTask<'_>,
    lock: &DirLock<A>,
    jobs: &[Job],
) -> Result<Given<A>, RunFault>
    ensures offered { IfOk result (λ given. given.offered ≤ length jobs.now) }
    ensures some { IfOk result (λ given. given.offered ≡ 0 → length jobs.now ≡ 0) }
    ensures no_other { IfErr result IsFolderFault }
{
    match see_jobs(alloc, rt, lock.dir(), jobs) {
        Ok(()) => {
            let given = read_given(alloc, rt, lock, jobs, task.limits.allowance());
            tell_unqueued(alloc, rt, task, &given);
            given
        }
        Err(fault) => Err(fault),
    }
}

/// Reports on standard error how to send files, if a calling end has files to give, but no file of jobs.
fn tell_unqueued<A: Allocator + Copy, R: Files + Eprint>(
    alloc: A,
    rt: &R,
    task: &CallTask<'_>,
    given: &Result<Given<A>, RunFault>,
) {
    if task.side == Side::Called || has_jobs(alloc, rt, task.dir) {
        return;
    }
    if let Ok(given) = given {
        if !given.files.is_empty() {
            let dir = task.dir.escape_debug();
            let _ = eprint!(rt;
                "uucpair: no job sends the files in {dir}/send (queue one: uucpair queue DIR send FILE)\n"
            );
        }
    }
}

/// Returns whether this folder has a file of jobs. Returns true if memory runs out.
fn has_jobs<A: Allocator, R: Files>(alloc: A, rt: &R, dir: &str) -> bool {
    match format!(in alloc; "{dir}/jobs") {
        Ok(path) => fs::metadata(rt, path.as_str()).is_ok(),
        Err(AllocError) => true,
    }
}

/// Creates the parts of an end over the folder of the task, with these files to give. The queue has the first of these
/// jobs.
#[tactic(auto, using(crate::proofs::FrontLemmas::first_are_front))]
fn make_parts<'a, A: Allocator + Copy, R: Files<File = File> + Alloc + Clone + Drop>(
    alloc: A,
    rt: &'a R,
    task: &CallTask<'a>,
    place: Place,
    held: Option<u32>,
    jobs: OpenJobs<'a, R, A>,
    given: Given<A>,
) -> Result<SystemParts<'a, R, A>, AllocError>
    requires some { given.offered ≡ 0 → length (pending jobs.queue) ≡ 0 }
    ensures place { IfOk result (λ parts. parts.place ≡ place) }
    ensures jobs { IfOk result (λ parts. parts.jobs.file.file ≡ jobs.entry.file.file) }
    ensures queue { IfOk result (λ parts. IsFrontOf parts.jobs.before.items parts.queue) }
    ensures lenient { IfOk result (λ parts. parts.spool.lenient ≡ task.now.settings.is_lenient) }
    ensures digests { IfOk result (λ parts. parts.spool.digests ≡ task.now.settings.tells_digests) }
    ensures limit { IfOk result (λ parts.
        IsTask task.now → parts.spool.limit.bytes ≡ task.now.limits.file_limit) }
    ensures files { IfOk result (λ parts. parts.spool.files.files ≡ given.files.items) }
    ensures delayed { IfOk result (λ parts. parts.spool.delayed ≡ given.delayed.items) }
    ensures number { IfOk result (λ parts. parts.number.file.faults.count ≡ 0) }
{
    let OpenJobs { file, queue: all } = jobs;
    let Given {
        files,
        offered,
        delayed,
        ..
    } = given;
    let queue = first_jobs(alloc, all.pending(), offered)?;
    let number = SystemText::new(alloc, rt, task.end_dir(), EndText::Number)?;
    let spool = make_spool(alloc, rt, task, files, delayed)?;
    let JobsFile { file, before } = file;
    Ok(EndParts {
        place,
        queue,
        spool,
        jobs: JobsFile {
            file: SystemJobs::new(alloc, file)?,
            before,
        },
        number: SystemNumber::new(number, held),
    })
}

/// Creates the spool over the folder of the task, with these files to give. `delayed` has the names of files that it
/// may give later.
fn make_spool<'a, A: Allocator + Copy, R: Files<File = File> + Alloc + Clone + Drop>(
    alloc: A,
    rt: &'a R,
    task: &CallTask<'a>,
    files: Vec<Stored<A>, A>,
    delayed: Vec<Name, A>,
) -> Result<SystemSpool<'a, R, A>, AllocError>
    ensures lenient { IfOk result (λ spool. spool.lenient ≡ task.now.settings.is_lenient) }
    ensures digests { IfOk result (λ spool. spool.digests ≡ task.now.settings.tells_digests) }
    ensures limit { IfOk result (λ spool.
        IsTask task.now → spool.limit.bytes ≡ task.now.limits.file_limit) }
    ensures files { IfOk result (λ spool. spool.files.files ≡ files.items) }
    ensures delayed { IfOk result (λ spool. spool.delayed ≡ delayed.items) }
{
    let folder = SystemFolder::looking(alloc, rt, task.end_dir())?;
    let path = partial_path(alloc, task.dir)?;
    let notes = PartialNotes::new(alloc, rt, path);
    let files = FolderSpool::new(alloc, files, folder);
    let mut spool = LocalNames::new(alloc, files, notes, task.limits.allowance().limit);
    spool.set_delayed(delayed);
    spool.set_lenient(task.settings.is_lenient);
    spool.set_digests(task.settings.tells_digests);
    Ok(spool)
}
