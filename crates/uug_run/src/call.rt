//! One end over a folder, and the line to the other one.
ghost use Rattle.std.specs.Prelude.{◌≡◌, ◌↔◌, Err, IfErr, IfOk};
ghost use Rattle.uug_error.specs.Faults.{IsFolderFault, IsReadingFault, IsRunFault, IsSessionFault, IsSystemFault};
ghost use Rattle.uug_taylor_run.specs.CallAnswers.{AnswersCall, status_of};
ghost use Rattle.uug_run.specs.EndAnswers.{answer_with, failure_to_tell};
ghost use Rattle.uug_observe.specs.JobRemarks.{has_failed};
ghost use Rattle.uug_run.specs.Calls.{AreTold, HasTalked};
ghost use Rattle.uug_config.specs.Tasks.{IsTask};
ghost use Rattle.uug_transfer.specs.Reported.{IsReported};

use crate::answer::answer_at;
use crate::end_run::EndRun;
use crate::folder_kind::see_no_spool;
use crate::numbers::{Numbers, meet, read_numbers};
use crate::parts::{SystemParts, failure_of, read_parts};
use crate::resumed::hold_left_in;
use crate::spool_call::{call_over_spool, talk_in_spool};
use crate::spool_lock::tell_unlocked;
use std::alloc::{AllocError, Allocator};
use std::fs::File;
use std::io;
use std::io::ErrorKind;
use std::net::Net;
use std::os::fd::AsRawFd;
use std::rt::Files;
use std::time::Duration;
use uug_config::{CallTask, FinishedEnd, System, Terms, read_terms};
use uug_error::{Cause, EndDir, Ended, Outcome, Resource, RunFault, SystemFailure};
use uug_io_disk::{
    DirLock, lock_device, lock_dir, open_jobs, see_folders, see_writable, settle_copies,
};
use uug_io_line::{
    DevicePort, PolledStream, Port, PortLine, SilentPort, StandardPort, StandardStreams,
    StreamPort, TimedStream, call_tcp, call_unix, listen_tcp, listen_unix,
};
use uug_observe::{
    failed_remark, failure_remark, large_files, log_failed, log_failure, log_fault, mark_session,
    numbers_remark, put_off_remark, tell_large_files, unmark_session,
};
use uug_observe_log::words_of;
use uug_session::{Job, Node, Side, Spool};
use uug_stream::{Output, ToolFault};
use uug_talk::Name;
use uug_transfer::{EndLine, LineName, SessionLine, SessionObserver};

/// Runs one end over its folder or spool, and its line, for one session. An end that is called at a socket may have
/// several, one after the other. `docs/OPERATING.md` describes what is in a folder.
///
/// A folder is locked before anything in it is read. If another run holds the lock, that is the fault. Before the line
/// opens, the run checks that the jobs and the number can be read, and that a session can write its files. A called end
/// releases the lock while it waits, and locks the folder again when its line is up. Then the jobs, the number and the
/// files are read for the session.
///
/// Returns the program's status, or why the run gave up. The remark says why jobs have failed or were put off, names
/// the failed system call if that is why the session is not done, and gives the conversation numbers of both ends if
/// they differ.
pub fn call_run<'a, A, R, W, O>(
    alloc: A,
    rt: &'a R,
    task: &'a CallTask<'a>,
    streams: StandardStreams,
    observer: &mut W,
    output: &mut O,
) -> Outcome<u8, A>
where
    A: Allocator + Copy,
    R: System,
    W: SessionObserver,
    O: Output,
    // A caller's report is printed, of an end that has run its session to its end, with its status. Else another run
    // talks with that system over its spool: then nothing is printed, and the status is 1. A called end prints one or
    // more such reports, one behind the other, and its status is the greatest.
    ensures answers { AnswersCall IsRunFault (HasTalked task.now.side) result.answer
        (O.written output.old) (O.written output.new)
        (O.fault_count output.old) (O.fault_count output.new) }
    ensures usage { (result.answer ≡ Err (RunFault.Tool ToolFault.Usage)) ↔ (IsTask task.now → ⊥) }
{
    let Some(Terms { line, station }) = read_terms(task) else {
        return Outcome::of(alloc, Err(RunFault::Tool(ToolFault::Usage)));
    };
    let run = EndRun {
        alloc,
        rt,
        task,
        station,
    };
    if task.is_spool {
        call_over_spool(&run, line, streams, observer, output)
    } else {
        call_over_folder(&run, line, streams, observer, output)
    }
}

/// Runs an end over its folder.
fn call_over_folder<A, R, W, O>(
    run: &EndRun<'_, A, R>,
    line: LineName<'_>,
    streams: StandardStreams,
    observer: &mut W,
    output: &mut O,
) -> Outcome<u8, A>
where
    A: Allocator + Copy,
    R: System,
    W: SessionObserver,
    O: Output,
    ensures { AnswersCall IsSessionFault (AreTold run.now.task.now.side) result.answer
        (O.written output.old) (O.written output.new)
        (O.fault_count output.old) (O.fault_count output.new) }
{
    let lock = match lock_and_look(run.alloc, run.rt, run.task) {
        Ok(lock) => lock,
        Err(fault) => {
            return Outcome::of(run.alloc, Err(fault));
        }
    };
    let held = match run.task.side {
        Side::Caller => Some(lock),
        Side::Called => {
            drop(lock);
            None
        }
    };
    talk_at(run, line, streams, held, observer, output)
}

/// Locks the end's folder, and checks that its number and its jobs can be read. Returns the lock.
fn lock_and_look<A: Allocator + Copy, R: System>(
    alloc: A,
    rt: &R,
    task: &CallTask<'_>,
) -> Result<DirLock<A>, RunFault>
    ensures { IfErr result IsReadingFault }
{
    let lock = lock_dir(alloc, rt, task.end_dir())?;
    match look(alloc, rt, task, &lock) {
        Ok(()) => Ok(lock),
        Err(fault) => {
            drop(lock);
            Err(fault)
        }
    }
}

/// Checks that the folder is not a spool, that the number and the jobs can be read, that the folders that the jobs need
/// exist, and that a session can write its files. Then reports files of jobs that are too large to be sent.
fn look<A: Allocator + Copy, R: System>(
    alloc: A,
    rt: &R,
    task: &CallTask<'_>,
    lock: &DirLock<A>,
) -> Result<(), RunFault>
    ensures { IfErr result IsReadingFault }
{
    see_no_spool(alloc, rt, lock.dir())?;
    let numbers = read_numbers(alloc, rt, &task.settings, lock)?;
    let jobs = open_jobs(alloc, rt, lock, task.end_dir())?;
    let is_numbered = numbers.begins.is_some();
    let seen = see_dir(alloc, rt, lock.dir(), jobs.queue.pending(), is_numbered);
    if seen.is_ok() {
        // If memory runs out, the rest is not reported.
        let _ = tell_large_files(alloc, rt, task, jobs.queue.pending());
    }
    drop(jobs);
    seen
}

/// Checks that the folders that these jobs need exist, and that a session can write its files.
fn see_dir<A: Allocator + Copy, R: Files<File = File>>(
    alloc: A,
    rt: &R,
    dir: EndDir<'_>,
    jobs: &[Job],
    is_numbered: bool,
) -> Result<(), RunFault>
    ensures { IfErr result IsFolderFault }
{
    match see_folders(alloc, rt, dir, jobs) {
        Ok(()) => see_writable(alloc, rt, dir, jobs, is_numbered),
        Err(fault) => Err(fault),
    }
}

/// Opens the end's line, and talks over it.
pub(crate) fn talk_at<A, R, W, O>(
    run: &EndRun<'_, A, R>,
    line: LineName<'_>,
    streams: StandardStreams,
    held: Option<DirLock<A>>,
    observer: &mut W,
    output: &mut O,
) -> Outcome<u8, A>
where
    A: Allocator + Copy,
    R: System,
    W: SessionObserver,
    O: Output,
    ensures { AnswersCall IsSessionFault (AreTold run.now.task.now.side) result.answer
        (O.written output.old) (O.written output.new)
        (O.fault_count output.old) (O.fault_count output.new) }
{
    let (alloc, rt, time) = (run.alloc, run.rt, run.station.time());
    match (line, run.task.side) {
        (LineName::Unix(path), Side::Caller) => {
            let port = stream_port(alloc, rt, call_unix(rt, path, time));
            talk_over(run, held, port, observer, output)
        }
        (LineName::Tcp(host, port), Side::Caller) => {
            let port = stream_port(alloc, rt, call_tcp(alloc, rt, host, port, time));
            talk_over(run, held, port, observer, output)
        }
        (LineName::Unix(path), Side::Called) => {
            drop(held);
            answer_at(run, listen_unix(alloc, rt, path), observer, output)
        }
        (LineName::Tcp(host, port), Side::Called) => {
            drop(held);
            answer_at(run, listen_tcp(alloc, rt, host, port), observer, output)
        }
        (LineName::Standard, _) => {
            let port = StandardPort::new(alloc, rt, streams, time).map_err(no_port);
            let outcome = talk_over(run, held, port, observer, output);
            streams.release();
            outcome
        }
        (LineName::Device(path), _) => talk_at_device(run, path, held, observer, output),
    }
}

/// Returns why the standard streams can't be a port. A file can't be polled, which the system reports as
/// `PermissionDenied`: the cause is then `NoStream`.
fn no_port(cause: Cause) -> Cause {
    match cause {
        Cause::Refused(ErrorKind::PermissionDenied, _) => Cause::NoStream,
        cause => cause,
    }
}

/// Returns the port over a stream, or why there is none.
pub(crate) fn stream_port<A, R, T>(
    alloc: A,
    rt: &R,
    stream: io::Result<T>,
) -> Result<StreamPort<PolledStream<T, A>>, Cause>
where
    A: Allocator + Copy,
    R: Net,
    T: TimedStream + AsRawFd + Drop,
{
    match polled(alloc, rt, stream) {
        Ok(stream) => Ok(StreamPort::new(stream)),
        Err(error) => Err(Cause::of(&error)),
    }
}

/// Wraps a stream so that it is polled before a read, or returns its error.
fn polled<A, R, T>(alloc: A, rt: &R, stream: io::Result<T>) -> io::Result<PolledStream<T, A>>
where
    A: Allocator + Copy,
    R: Net,
    T: TimedStream + AsRawFd + Drop,
{
    PolledStream::new(alloc, rt, stream?)
}

/// Locks the end's device, opens it, and talks over it. A device that another run holds is not opened. The lock is
/// released whatever happens.
fn talk_at_device<A, R, W, O>(
    run: &EndRun<'_, A, R>,
    path: &str,
    held: Option<DirLock<A>>,
    observer: &mut W,
    output: &mut O,
) -> Outcome<u8, A>
where
    A: Allocator + Copy,
    R: System,
    W: SessionObserver,
    O: Output,
    ensures { AnswersCall IsSessionFault (IsReported run.now.task.now.side) result.answer
        (O.written output.old) (O.written output.new)
        (O.fault_count output.old) (O.fault_count output.new) }
{
    let task = run.task;
    let lock = match lock_device(run.alloc, run.rt, task.line.locks, path) {
        Ok(lock) => lock,
        Err(fault) => {
            drop(held);
            return Outcome::of(run.alloc, Err(fault));
        }
    };
    if lock.is_none() {
        tell_unlocked(run.alloc, run.rt, task);
    }
    let port = DevicePort::open(run.alloc, run.rt, path, run.station.time());
    let outcome = talk_when_called(run, held, port, observer, output);
    if let Some(lock) = lock {
        lock.release(run.rt);
    }
    outcome
}

/// Talks over a device. An end that waits to be called sends nothing before the first byte arrives. If none arrives in
/// time, it runs a session with nobody. A calling end writes bytes that wake an end that waits.
fn talk_when_called<A, R, W, O>(
    run: &EndRun<'_, A, R>,
    held: Option<DirLock<A>>,
    port: Result<DevicePort<A>, Cause>,
    observer: &mut W,
    output: &mut O,
) -> Outcome<u8, A>
where
    A: Allocator + Copy,
    R: System,
    W: SessionObserver,
    O: Output,
    ensures { AnswersCall IsSessionFault (IsReported run.now.task.now.side) result.answer
        (O.written output.old) (O.written output.new)
        (O.fault_count output.old) (O.fault_count output.new) }
{
    let side = run.task.side;
    match called(port, run.station.wait_at_device(side)) {
        Ok(Some(mut port)) => {
            if side == Side::Caller {
                port.wake();
            }
            talk_over(run, held, Ok(port), observer, output)
        }
        Ok(None) => talk_over(run, held, Ok(SilentPort), observer, output),
        Err(cause) => {
            drop(held);
            Outcome::of(run.alloc, Err(no_line_for(cause)))
        }
    }
}

/// Returns the fault of a run without a line.
fn no_line_for(cause: Cause) -> RunFault
    ensures { IsSystemFault result }
{
    RunFault::System(SystemFailure::on(Resource::Line, cause))
}

/// Returns the port over a device, or why there is none. Returns `None` if the end waits to be called there, and nobody
/// calls in time.
fn called<A: Allocator + Copy>(
    port: Result<DevicePort<A>, Cause>,
    wait: Option<u32>,
) -> Result<Option<DevicePort<A>>, Cause> {
    let mut port = port?;
    let Some(seconds) = wait else {
        return Ok(Some(port));
    };
    if port.wait_for_call(Duration::from_secs(u64::from(seconds)))? {
        Ok(Some(port))
    } else {
        Ok(None)
    }
}

/// Talks over the end's port, if it has one, with its folder locked. Over a spool, the other system is locked instead.
pub(crate) fn talk_over<A, R, P, W, O>(
    run: &EndRun<'_, A, R>,
    held: Option<DirLock<A>>,
    port: Result<P, Cause>,
    observer: &mut W,
    output: &mut O,
) -> Outcome<u8, A>
where
    A: Allocator + Copy,
    R: System,
    P: Port + Drop,
    W: SessionObserver,
    O: Output,
    ensures { AnswersCall IsSessionFault (IsReported run.now.task.now.side) result.answer
        (O.written output.old) (O.written output.new)
        (O.fault_count output.old) (O.fault_count output.new) }
{
    let port = match port {
        Ok(port) => port,
        Err(cause) => {
            drop(held);
            return Outcome::of(run.alloc, Err(no_line_for(cause)));
        }
    };
    let line = PortLine::new(run.rt, port, run.station.pace);
    let mut line = SessionLine::new(run.alloc, line, observer);
    let ended = if run.task.is_spool {
        drop(held);
        Outcome::of(run.alloc, talk_in_spool(run, &mut line, output))
    } else {
        talk_in_folder(run, held, &mut line, output)
    };
    let failure = line.line().failure();
    drop(line);
    told(run, ended, failure)
}

/// Returns the outcome of a run after its session. If the session is not done because a system call failed, on the
/// files of the end or on its line, the log and the remark name the call.
fn told<A: Allocator + Copy, R: System>(
    run: &EndRun<'_, A, R>,
    ended: Outcome<Ended, A>,
    line: Option<SystemFailure>,
) -> Outcome<u8, A>
    ensures answer { result.answer ≡ status_of ended.answer }
{
    let Outcome { answer, remark } = ended;
    let (answer, failure) = status_and_failure(answer, line);
    let task = run.task;
    log_failure(run.alloc, run.rt, task, &failure);
    let failed = failure_remark(run.alloc, task.line.name, task.dir, failure);
    Outcome {
        answer,
        remark: with_part(remark, failed),
    }
}

/// Returns the status of a session that was not given up, or its fault. If the status is 1, also returns the failed
/// system call that is the reason, if one is: on the files of the end, or else on its line.
fn status_and_failure(
    ended: Result<Ended, RunFault>,
    line: Option<SystemFailure>,
) -> (Result<u8, RunFault>, Option<SystemFailure>)
    ensures status { result.0 ≡ status_of ended }
    ensures failure { result.1 ≡ failure_to_tell ended line }
{
    match ended {
        Ok(Ended { status: 1, failure }) => (Ok(1), failure.or(line)),
        Ok(Ended { status, .. }) => (Ok(status), None),
        Err(fault) => (Err(fault), None),
    }
}

/// Talks over the end's line with its folder locked.
fn talk_in_folder<A, R, L, W, O>(
    run: &EndRun<'_, A, R>,
    held: Option<DirLock<A>>,
    line: &mut SessionLine<L, W, A>,
    output: &mut O,
) -> Outcome<Ended, A>
where
    A: Allocator + Copy,
    R: System,
    L: EndLine,
    W: SessionObserver,
    O: Output,
    ensures { AnswersCall IsSessionFault (IsReported run.now.task.now.side)
        (status_of result.answer) (O.written output.old) (O.written output.new)
        (O.fault_count output.old) (O.fault_count output.new) }
{
    match lock_again(run.alloc, run.rt, run.task.end_dir(), held) {
        Ok(lock) => {
            mark_session(run.alloc, run.rt, run.task);
            let outcome = talk_locked(run, &lock, line, output);
            unmark_session(run.alloc, run.rt, run.task.dir);
            drop(lock);
            outcome
        }
        Err(fault) => Outcome::of(run.alloc, Err(fault)),
    }
}

/// Returns the lock on this folder of an end, and takes it again if the end released it while it waited.
fn lock_again<A: Allocator + Copy, R: Files<File = File> + Alloc + Clone + Drop>(
    alloc: A,
    rt: &R,
    dir: EndDir<'_>,
    held: Option<DirLock<A>>,
) -> Result<DirLock<A>, RunFault>
    ensures { IfErr result IsFolderFault }
{
    match held {
        Some(lock) => Ok(lock),
        None => lock_dir(alloc, rt, dir),
    }
}

/// Makes the end over its folder as it is now, and talks over its line. After the session, the copies of its jobs go
/// where these have gone.
fn talk_locked<A, R, L, W, O>(
    run: &EndRun<'_, A, R>,
    lock: &DirLock<A>,
    line: &mut SessionLine<L, W, A>,
    output: &mut O,
) -> Outcome<Ended, A>
where
    A: Allocator + Copy,
    R: System,
    L: EndLine,
    W: SessionObserver,
    O: Output,
    ensures { AnswersCall IsSessionFault (IsReported run.now.task.now.side)
        (status_of result.answer) (O.written output.old) (O.written output.new)
        (O.fault_count output.old) (O.fault_count output.new) }
{
    let (alloc, rt, task) = (run.alloc, run.rt, run.task);
    let (numbers, parts) = match read_end(run, lock, line) {
        Ok(read) => read,
        Err(fault) => return Outcome::of(alloc, Err(fault)),
    };
    let limits = run.station.limits();
    let Ok(finished) = parts.run(
        alloc,
        task.side,
        task.settings.thinning(),
        line,
        limits,
        output,
    ) else {
        return Outcome::of(alloc, Err(RunFault::Tool(ToolFault::Memory)));
    };
    let FinishedEnd { end, answer } = finished;
    let failure = failure_of(&end);
    let node = end.buffered.node();
    let failed = node.queue().failed();
    let large = large_files(alloc, rt, task, failed).unwrap_or(Vec::new(alloc));
    let remark = remark_on(run, numbers, large.as_slice(), node);
    log_failed(alloc, rt, task, large.as_slice(), node.spool(), failed);
    if let Some(partials) = node.spool().partials() {
        hold_left_in(alloc, rt, task, partials.over(), node.left());
    }
    let answer = answer_with(has_failed(task, failed), answer);
    drop(end);
    settle_copies(alloc, rt, lock);
    Outcome {
        answer: Ended::of(answer, failure),
        remark,
    }
}

/// Reads the parts of the end. A called end that keeps a number waits for the caller's number first.
fn read_end<'a, A, R, L, W>(
    run: &EndRun<'a, A, R>,
    lock: &DirLock<A>,
    line: &mut SessionLine<L, W, A>,
) -> Result<(Numbers, SystemParts<'a, R, A>), RunFault>
where
    A: Allocator + Copy,
    R: System,
    L: EndLine,
    W: SessionObserver,
    ensures jobs_calm { IfOk result (λ read. read.1.jobs.file.file.faults.count ≡ 0) }
    ensures number_calm { IfOk result (λ read. read.1.number.file.faults.count ≡ 0) }
    ensures no_other { IfErr result IsReadingFault }
{
    let (alloc, rt, task) = (run.alloc, run.rt, run.task);
    let numbers = meet(alloc, rt, task, lock, run.station, line)?;
    let parts = read_parts(alloc, rt, task, lock, run.station.place, numbers)?;
    Ok((numbers, parts))
}

/// Returns the remark on a session that is over: why jobs have failed or were put off, and the numbers of both ends if
/// they differ. Differing numbers are logged too.
fn remark_on<A: Allocator + Copy, R: System, S: Spool>(
    run: &EndRun<'_, A, R>,
    numbers: Numbers,
    large: &[Name],
    node: &Node<S, A>,
) -> String<A> {
    let (alloc, task) = (run.alloc, run.task);
    let (phase, queue) = (node.phase(), node.queue());
    let (failed, pending) = (queue.failed(), queue.pending());
    let given_up = failed_remark(alloc, task.dir, large, node.spool(), failed);
    let remark = with_part(String::new(alloc), given_up);
    let put_off = put_off_remark(alloc, phase, task.settings.tells_digests, pending);
    let remark = with_part(remark, put_off);
    let differ = numbers_remark(alloc, phase, numbers.begins, numbers.heard);
    if let Ok(line) = &differ {
        if !line.is_empty() {
            log_fault(alloc, run.rt, task, words_of(line.as_str()));
        }
    }
    with_part(remark, differ)
}

/// Returns a remark with this part appended, if there is memory for it.
fn with_part<A: Allocator>(remark: String<A>, part: Result<String<A>, AllocError>) -> String<A> {
    let mut remark = remark;
    if let Ok(part) = part {
        let _ = remark.push_str(part.as_str());
    }
    remark
}

/// Returns the answer of a session. Its status becomes 1 if the session counts as not done because of failed jobs.
fn answer_with(has_failed: bool, answer: Result<u8, ToolFault>) -> Result<u8, ToolFault>
    ensures { result ≡ answer_with has_failed answer }
{
    match answer {
        Ok(_) if has_failed => Ok(1),
        answer => answer,
    }
}

/// Returns whether a session with these failed jobs counts as not done.
fn has_failed(task: &CallTask<'_>, failed: &[Job]) -> bool
    ensures { result ≡ has_failed task.now.is_fail_status failed.now }
{
    task.is_fail_status && !failed.is_empty()
}
