//! An end that is called at a socket. It listens until its last caller has been let in.
ghost use Rattle.std.specs.Prelude.{◌≡◌, ◌≢◌, ◌≤◌, [], Err, IfErr, IfNone, IfOk, IfSome, IsErr, IsSome, Ok, OnErr, OnOk, Some, max, true};
ghost use Rattle.uug_error.specs.Faults.{IsSessionFault, IsSystemFault};
ghost use Rattle.uug_taylor_run.specs.CallAnswers.{AnswersCall};
ghost use Rattle.uug_stream.specs.Streams.{Appends};
ghost use Rattle.uug_run.specs.Calls.{AreReported};
ghost use Rattle.uug_run.specs.HubFaults.{is_in_folder, is_of_folder, is_of_session};
ghost use Rattle.uug_transfer.specs.Reported.{IsReported};

use crate::call::{stream_port, talk_over};
use crate::door_port::DoorPort;
use crate::doorkeeper::Doorkeeper;
use crate::end_run::EndRun;
use crate::held_output::HeldOutput;
use std::alloc::Allocator;
use std::io;
use std::os::fd::AsRawFd;
use std::time::{Clock, Instant};
use uug_config::{CallTask, Station, System};
use uug_error::{Cause, Outcome, Resource, RunFault, SystemFailure};
use uug_error_text::reason_line;
use uug_io_line::{
    Deadline, Listener, Listening, PolledStream, Port, SilentPort, StreamPort, TimedStream, Waiters,
};
use uug_observe::{jobs_remark_at, log_fault, silent_words};
use uug_observe_log::words_of;
use uug_stream::{Output, ToolFault, write_all};
use uug_transfer::SessionObserver;

/// The maximum number of callers that are served before one is let in.
const CALLERS_MAX: u32 = u32::MAX;

/// The outcome of a session with a caller or with nobody, or of a socket that failed.
#[derive(Drop)]
struct Served<A: Allocator> {
    outcome: Outcome<u8, A>,
    /// The report to print.
    report: HeldOutput<A>,
}

/// Waits for callers at this socket, and talks with each one that is let in, one after the other, up to the number of
/// sessions in the task. A caller whose greeting is refused or broken off is not let in: its report is dropped, and its
/// remark is printed. If nobody calls in time, runs a session with nobody, and stops waiting.
///
/// Returns the greatest status of the sessions, and the remark on the last. A fault ends the run, except a bad line of
/// jobs, or a failed system call on the files of the end, which may be mended before the next call. If the task has
/// more than one session, it is reported at once. The first failed call, or else the first bad line, is returned at the
/// end.
pub(crate) fn answer_at<A, R, T, W, O>(
    run: &EndRun<'_, A, R>,
    opened: io::Result<Listening<'_, '_, T, R, A>>,
    observer: &mut W,
    output: &mut O,
) -> Outcome<u8, A>
where
    A: Allocator + Copy,
    R: System,
    T: Listener + Drop,
    W: SessionObserver,
    O: Output,
    // The report of one session at least is printed.
    ensures { AnswersCall IsSessionFault (AreReported run.now.task.now.side) result.answer
        (O.written output.old) (O.written output.new)
        (O.fault_count output.old) (O.fault_count output.new) }
{
    match opened {
        Ok(listening) => answer_calls(run, listening, observer, output),
        Err(error) => { Outcome::of(run.alloc, Err(no_socket(&error))) }
    }
}

/// Answers the calls at a listening socket, as `answer_at` does.
fn answer_calls<A, R, T, W, O>(
    run: &EndRun<'_, A, R>,
    listening: Listening<'_, '_, T, R, A>,
    observer: &mut W,
    output: &mut O,
) -> Outcome<u8, A>
where
    A: Allocator + Copy,
    R: System,
    T: Listener + Drop,
    W: SessionObserver,
    O: Output,
    ensures { AnswersCall IsSessionFault (AreReported run.now.task.now.side) result.answer
        (O.written output.old) (O.written output.new)
        (O.fault_count output.old) (O.fault_count output.new) }
{
    let sessions = sessions_of(&run.station);
    let mut doorkeeper = Doorkeeper::new(observer, listening, sessions);
    let mut remark = String::new(run.alloc);
    let mut tally = Tally::none();
    for _past in 0..sessions {
        tell(run.rt, remark.as_str());
        let Served { outcome, report } = next_served(run, &mut doorkeeper);
        let Outcome {
            answer,
            remark: said,
        } = outcome;
        remark = said;
        let given = give(answer, report, output);
        if let Err(fault) = tally.count(run, given) {
            doorkeeper.close();
            drop(doorkeeper);
            return Outcome {
                answer: Err(fault),
                remark,
            };
        }
        if !doorkeeper.is_open() {
            break;
        }
    }
    doorkeeper.close();
    drop(doorkeeper);
    Outcome {
        answer: tally.answer(),
        remark,
    }
}

/// The result of the sessions so far: the greatest status, the first failed system call on the files of the end, and
/// the first bad line of jobs.
#[derive(Clone, Copy)]
struct Tally {
    status: u8,
    failed: Option<SystemFailure>,
    bad_line: Option<usize>,
}

impl Tally {
    /// Returns the tally of no sessions.
    fn none() -> Self
        ensures { result.status ≡ 0 }
    {
        Tally {
            status: 0,
            failed: None,
            bad_line: None,
        }
    }

    /// Counts a session with this answer. A bad line of jobs, or a failed system call on the files of the end, is
    /// counted, and reported at once. Any other fault is returned.
    fn count<A: Allocator + Copy, R: System>(
        &mut self,
        run: &EndRun<'_, A, R>,
        answer: Result<u8, RunFault>,
    ) -> Result<(), RunFault>
        ensures greatest { IfOk answer (λ status.
            self.new ≡ record self.old { status = max self.old.status status }) }
        ensures status { OnErr answer (self.new.status ≡ self.old.status) }
        ensures failed { OnErr answer (OnOk result
            (IfNone self.new.failed (IsSome self.new.bad_line))) }
        ensures err { IfErr result (λ fault. answer ≡ Err fault) }
    {
        match answer {
            Ok(status) => {
                self.status = greater(self.status, status);
                Ok(())
            }
            Err(fault) if is_of_session(&fault) => {
                self.add(&fault);
                report_fault(run, fault);
                Ok(())
            }
            Err(fault) => Err(fault),
        }
    }

    /// Adds the fault of a session, if it is the first of its kind.
    fn add(&mut self, fault: &RunFault)
        ensures status { self.new.status ≡ self.old.status }
        ensures failed { is_of_session fault.now ≡ true
            → IfNone self.new.failed (IsSome self.new.bad_line) }
    {
        match fault {
            RunFault::System(failure) => self.failed = self.failed.or(Some(*failure)),
            RunFault::Tool(ToolFault::Jobs(line)) => {
                self.bad_line = self.bad_line.or(Some(*line));
            }
            _ => (),
        }
    }

    /// Returns the result of all sessions: the first failed system call, or else the first bad line, or else the
    /// greatest status.
    fn answer(&self) -> Result<u8, RunFault>
        ensures failed { IfSome self.now.failed (λ failure. result ≡ Err (RunFault.System failure)) }
        ensures bad { IfNone self.now.failed (IfSome self.now.bad_line (λ line.
            result ≡ Err (RunFault.Tool (ToolFault.Jobs line)))) }
        ensures well { IfNone self.now.failed (IfNone self.now.bad_line
            (result ≡ Ok self.now.status)) }
        ensures status { IfOk result (λ answer. answer ≡ self.now.status) }
        ensures no_other { IfErr result IsSessionFault }
        ensures no_write { result ≢ Err (RunFault.Tool ToolFault.Write) }
    {
        match (self.failed, self.bad_line) {
            (Some(failure), _) => Err(RunFault::System(failure)),
            (None, Some(line)) => Err(RunFault::Tool(ToolFault::Jobs(line))),
            (None, None) => Ok(self.status),
        }
    }
}

/// Returns whether a fault is a bad line of jobs, or a failed system call on the files of the end. Faults of the line,
/// of outputs and of memory don't count.
fn is_of_session(fault: &RunFault) -> bool
    ensures { result ≡ is_of_session fault.now }
{
    match fault {
        RunFault::System(failure) => is_of_folder(failure),
        RunFault::Tool(ToolFault::Jobs(_)) => true,
        _ => false,
    }
}

/// Returns whether the failed system call was on the folder of the end, or below it. The folder of the locks has
/// another number.
fn is_of_folder(failure: &SystemFailure) -> bool
    ensures { result ≡ is_of_folder failure.now }
{
    is_in_folder(failure.resource) && failure.end == 0
}

/// Returns whether a resource is a folder of an end, or below it.
fn is_in_folder(resource: Resource) -> bool
    ensures { result ≡ is_in_folder resource }
{
    match resource {
        Resource::Input | Resource::Output | Resource::Line => false,
        _ => true,
    }
}

/// Reports the fault of a session at once, on standard error and in the log: the next sessions don't know it. The fault
/// of an only session is reported at the end.
fn report_fault<A: Allocator + Copy, R: System>(run: &EndRun<'_, A, R>, fault: RunFault) {
    if run.task.limits.sessions == 1 {
        return;
    }
    match fault {
        RunFault::System(failure) => report_failure(run.alloc, run.rt, run.task, failure),
        RunFault::Tool(ToolFault::Jobs(line)) => {
            report_bad_line(run.alloc, run.rt, run.task, line)
        }
        _ => (),
    }
}

/// Reports a bad line of the jobs, on standard error and in the log: it may be mended before the next session.
fn report_bad_line<A: Allocator + Copy, R: System>(
    alloc: A,
    rt: &R,
    task: &CallTask<'_>,
    line: usize,
) {
    let fault = ToolFault::Jobs(line);
    let _ = eprint!(rt; "uucpair: {fault}\n");
    if let Ok(remark) = jobs_remark_at(alloc, rt, task.dir, line) {
        let remark = remark.as_str();
        let _ = eprint!(rt; "{remark}");
        log_fault(alloc, rt, task, words_of(remark));
    }
}

/// Reports which system call has failed, and why, on standard error and in the log.
fn report_failure<A: Allocator + Copy, R: System>(
    alloc: A,
    rt: &R,
    task: &CallTask<'_>,
    failure: SystemFailure,
) {
    if let Ok(line) = reason_line(alloc, "", task.line.name, task.dir, "", failure) {
        let line = line.as_str();
        let _ = eprint!(rt; "{line}");
        log_fault(alloc, rt, task, words_of(line));
    }
}

/// Returns the maximum number of the end's sessions, at least 1.
fn sessions_of(station: &Station) -> u32
    ensures { result ≡ max 1 station.now.sessions }
{
    station.sessions.max(1)
}

/// Returns the greater of two statuses.
fn greater(first: u8, second: u8) -> u8
    ensures { result ≡ max first second }
{
    first.max(second)
}

/// Serves callers until one is let in, or a session has a fault. If no caller arrives in time, closes the socket and
/// runs a session with nobody.
fn next_served<A, R, T, W>(
    run: &EndRun<'_, A, R>,
    doorkeeper: &mut Doorkeeper<'_, '_, W, T, R, A>,
) -> Served<A>
where
    A: Allocator + Copy,
    R: System,
    T: Listener + Drop,
    W: SessionObserver,
    // What is held is in memory, which refuses no write.
    ensures { AnswersCall IsSessionFault (IsReported run.now.task.now.side)
        result.outcome.answer (Some []) (Some result.report.bytes.items) 0 0 }
{
    let station = &run.station;
    let deadline = match Deadline::after(run.rt, station.wait_at_socket()) {
        Ok(deadline) => deadline,
        Err(error) => return broken(run.alloc, &error),
    };
    doorkeeper.wait_for_next();
    for _ in 0..CALLERS_MAX {
        let stream = match doorkeeper.next_caller(&deadline, station.time()) {
            Ok(Some(stream)) => stream,
            Ok(None) => break,
            Err(error) => return broken(run.alloc, &error),
        };
        let since = Instant::now(run.rt).ok();
        let port = door_port(run, stream, doorkeeper.waiters(run.alloc));
        let served = serve(run, port, doorkeeper);
        if doorkeeper.has_let_in() || served.outcome.answer.is_err() {
            return served;
        }
        tell(run.rt, served.outcome.remark.as_str());
        if doorkeeper.was_silent() {
            tell_silent(run, since, doorkeeper.waiters(run.alloc));
        }
    }
    doorkeeper.close();
    serve(run, Ok(SilentPort), doorkeeper)
}

/// Reports, on standard error and in the log, that a caller who arrived at `since` has sent nothing, and whether others
/// wait.
fn tell_silent<A: Allocator + Copy, R: System>(
    run: &EndRun<'_, A, R>,
    since: Option<Instant>,
    waiters: Option<Waiters<A>>,
) {
    let seconds = seconds_since(run.rt, since);
    if let Ok(words) = silent_words(run.alloc, seconds, do_others_wait(waiters)) {
        let words = words.as_str();
        let _ = eprint!(run.rt; "uucpair: {words}\n");
        log_fault(run.alloc, run.rt, run.task, words);
    }
}

/// Returns the whole seconds since then, or 0 if the clock fails.
fn seconds_since<R: Clock>(rt: &R, since: Option<Instant>) -> u64 {
    let Some(since) = since else {
        return 0;
    };
    match since.elapsed(rt) {
        Ok(elapsed) => elapsed.as_secs(),
        Err(_) => 0,
    }
}

/// Returns whether others wait now.
fn do_others_wait<A: Allocator>(waiters: Option<Waiters<A>>) -> bool {
    match waiters {
        Some(mut waiters) => waiters.are_there(),
        None => false,
    }
}

/// Returns the port of a caller at the door. `waiters` watches for other callers.
fn door_port<A, R, T>(
    run: &EndRun<'_, A, R>,
    stream: T,
    waiters: Option<Waiters<A>>,
) -> Result<DoorPort<StreamPort<PolledStream<T, A>>, A>, Cause>
where
    A: Allocator + Copy,
    R: System,
    T: TimedStream + AsRawFd + Drop,
{
    match stream_port(run.alloc, run.rt, Ok(stream)) {
        Ok(port) => Ok(DoorPort::new(port, run.station.time(), waiters)),
        Err(cause) => {
            drop(waiters);
            Err(cause)
        }
    }
}

/// Runs the session at a port, and holds back its report.
fn serve<A, R, P, T, W>(
    run: &EndRun<'_, A, R>,
    port: Result<P, Cause>,
    doorkeeper: &mut Doorkeeper<'_, '_, W, T, R, A>,
) -> Served<A>
where
    A: Allocator + Copy,
    R: System,
    P: Port + Drop,
    T: Listener + Drop,
    W: SessionObserver,
    ensures { AnswersCall IsSessionFault (IsReported run.now.task.now.side)
        result.outcome.answer (Some []) (Some result.report.bytes.items) 0 0 }
{
    let mut report = HeldOutput::new(run.alloc);
    let outcome = talk_over(run, None, port, doorkeeper, &mut report);
    Served { outcome, report }
}

/// Prints the remark on a session on standard error, if there is one.
fn tell<R: Eprint>(rt: &R, remark: &str) {
    if !remark.is_empty() {
        let _ = eprint!(rt; "{remark}");
    }
}

/// Returns the outcome of a socket that failed.
fn broken<A: Allocator + Copy>(alloc: A, error: &io::Error) -> Served<A>
    ensures failed { IfErr result.outcome.answer IsSystemFault }
    ensures err { IsErr result.outcome.answer }
{
    Served {
        outcome: Outcome::of(alloc, Err(no_socket(error))),
        report: HeldOutput::new(alloc),
    }
}

/// Returns the fault of a failed system call on the line.
fn no_socket(error: &io::Error) -> RunFault
    ensures { IsSystemFault result }
{
    RunFault::System(SystemFailure::on(Resource::Line, Cause::of(error)))
}

/// Prints the report of a session, and returns its answer. If both the session and the printing have a fault, returns
/// that of the session.
fn give<A: Allocator, O: Output>(
    answer: Result<u8, RunFault>,
    report: HeldOutput<A>,
    output: &mut O,
) -> Result<u8, RunFault>
    requires status { IfOk answer (λ status. status ≤ 1) }
    requires no_other { IfErr answer IsSessionFault }
    requires no_write { answer ≢ Err (RunFault.Tool ToolFault.Write) }
    ensures answers { AnswersCall IsSessionFault (λ _. Appends report.bytes.items) result
        (O.written output.old) (O.written output.new)
        (O.fault_count output.old) (O.fault_count output.new) }
    ensures first { IfErr answer (λ fault. result ≡ Err fault) }
    ensures same { IfOk result (λ status. answer ≡ Ok status) }
    ensures calm { OnOk result (O.fault_count output.new ≡ O.fault_count output.old) }
    ensures grows { O.fault_count output.old ≤ O.fault_count output.new }
{
    let printed = write_all(output, report.bytes());
    match (answer, printed) {
        (Ok(status), Ok(())) => Ok(status),
        (Ok(_), Err(fault)) => Err(RunFault::Tool(fault)),
        (Err(fault), _) => Err(fault),
    }
}
