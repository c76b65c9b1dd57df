//! Runs one end or both, with their log and their messages in addition to the report.
ghost use Rattle.std.specs.Prelude.{◌≡◌, ◌≤◌, IfErr, IfOk};
ghost use Rattle.uug_error.specs.Faults.{IsFolderFault, IsRunFault};
ghost use Rattle.uug_taylor_run.specs.CallAnswers.{AnswersCall};
ghost use Rattle.uug_cli_stop.specs.declared.of_end.TheConstants.{LOG};
ghost use Rattle.uug_run.specs.Calls.{HasTalked};
ghost use Rattle.uucpair.specs.Performed.{PrintsReport};

use crate::bad_jobs::jobs_remark;
use crate::console::Console;
use std::alloc::{AllocError, Global};
use std::fs::File;
use std::os::unix::fs::MetadataExt;
use std::rt::{Env, Files};
use std::time::Clock;
use std::{fs, io};
use uug_cli::{PairTask, lacks_spool};
use uug_cli_stop::{LOG, REPORT, STATS, is_refused_lock};
use uug_config::{CallTask, ReportPlace, System};
use uug_conversation::Side;
use uug_error::{Cause, Outcome, Resource, RunFault, SystemFailure};
use uug_error_text::{locks_line, reason_line};
use uug_io_disk::is_named_pipe;
use uug_io_line::{ReportFile, SystemOutput};
use uug_observe::{PairObserver, SystemObserver, line_held_remark, log_fault};
use uug_observe_log::{LogFile, SessionLog, end_text, words_of};
use uug_pair::{PairRun, pair_run_with_reason};
use uug_run::call_run;
use uug_store::BadNumber;
use uug_stream::{Output, ToolFault};

/// Runs both ends over one socket, and reports their files on standard error if that is a terminal. The same folder for
/// both is bad usage.
pub fn do_pair<R, O>(
    rt: &R,
    pair: &PairTask<'_>,
    console: Console,
    output: &mut O,
) -> Outcome<u8, Global>
where
    R: System,
    O: Output,
    ensures status { IfOk result.answer (λ status. status ≤ 1) }
    ensures no_other { IfErr result.answer IsRunFault }
{
    if is_one_folder(rt, pair.dir_a, pair.dir_b) {
        return Outcome::of(rt.alloc(), Err(RunFault::Tool(ToolFault::Usage)));
    }
    let run = PairRun {
        socket: pair.socket,
        dir_a: pair.dir_a,
        dir_b: pair.dir_b,
        drop_every: pair.drop_every,
        flip_every: pair.flip_every,
    };
    let observer = PairObserver::new(
        rt.alloc(),
        rt,
        pair.dir_a,
        pair.dir_b,
        pair.is_loud,
        console.is_errors_terminal,
    );
    let answer = pair_run_with_reason(rt.alloc(), rt, &run, observer, output);
    let remark = match &answer {
        Ok(_) => None,
        Err(fault) => either_jobs_remark(rt, pair, fault),
    };
    Outcome {
        answer,
        remark: remark.unwrap_or(String::new(rt.alloc())),
    }
}

/// Returns whether two paths lead to the same folder.
fn is_one_folder<R: Files>(rt: &R, path: &str, other: &str) -> bool {
    match (fs::metadata(rt, path), fs::metadata(rt, other)) {
        (Ok(one), Ok(other)) => one.dev() == other.dev() && one.ino() == other.ino(),
        _ => false,
    }
}

/// Returns what is wrong with the jobs of either end, if a bad line of them is the fault.
fn either_jobs_remark<R: Files + AllocGlobal>(
    rt: &R,
    pair: &PairTask<'_>,
    fault: &RunFault,
) -> Option<String> {
    match jobs_remark(rt, pair.dir_a, fault) {
        Some(said) if !said.is_empty() => Some(said),
        _ => jobs_remark(rt, pair.dir_b, fault),
    }
}

/// Runs one end, and reports its state on standard error if that is asked for. Its report goes to the file that is
/// named, else to the output, or to standard error if the standard streams are its line. An option that needs a spool
/// is bad usage without one.
pub fn do_call<R, O>(
    rt: &R,
    call: &CallTask<'_>,
    console: Console,
    output: &mut O,
) -> Outcome<u8, Global>
where
    R: System,
    O: Output,
    ensures status { IfOk result.answer (λ status. status ≤ 1) }
    ensures no_other { IfErr result.answer IsRunFault }
    ensures reported { PrintsReport call.now → IfOk result.answer (λ status.
        HasTalked call.now.side status (O.written output.old) (O.written output.new)) }
{
    if lacks_spool(call) {
        return Outcome::of(rt.alloc(), Err(RunFault::Tool(ToolFault::Usage)));
    }
    if let Err(fault) = see_outputs(rt, call) {
        return Outcome::of(rt.alloc(), Err(fault));
    }
    match call.report_place() {
        ReportPlace::Output => do_call_over(rt, call, console, output),
        place => do_call_beside(rt, call, console, place),
    }
}

/// Does the same, but writes the report to this place, which is not the output.
fn do_call_beside<R>(
    rt: &R,
    call: &CallTask<'_>,
    console: Console,
    place: ReportPlace<'_>,
) -> Outcome<u8, Global>
where
    R: System,
    ensures status { IfOk result.answer (λ status. status ≤ 1) }
    ensures no_other { IfErr result.answer IsRunFault }
{
    match place {
        ReportPlace::File(path) if call.may_run() => do_call_reporting(rt, call, console, path),
        // Bad usage opens no file.
        _ => {
            let mut report = SystemOutput::new(console.streams.errors);
            do_call_over(rt, call, console, &mut report)
        }
    }
}

/// Checks that neither the report, the log nor the statistics of an end that may be run is a named pipe. A named pipe
/// is not opened, since that might wait for a reader.
fn see_outputs<R: Files + AllocGlobal>(rt: &R, call: &CallTask<'_>) -> Result<(), RunFault>
    ensures { IfErr result IsFolderFault }
{
    if !call.may_run() {
        return Ok(());
    }
    see_output(rt, call.outputs.report, REPORT)?;
    see_output(rt, call.outputs.log, LOG)?;
    see_output(rt, call.spool.stats, STATS)
}

/// Checks that the output of this number, at this path, is not a named pipe.
fn see_output<R: Files + AllocGlobal>(
    rt: &R,
    path: Option<&str>,
    number: usize,
) -> Result<(), RunFault>
    ensures number { (failure : SystemFailure) → result ≡ Err (RunFault.System failure)
        → failure.end ≡ number }
    ensures no_other { IfErr result IsFolderFault }
{
    let Some(path) = path else {
        return Ok(());
    };
    if is_named_pipe(rt.alloc(), rt, path)? {
        return Err(RunFault::System(SystemFailure {
            end: number,
            resource: Resource::Output,
            cause: Cause::NotAFile,
        }));
    }
    Ok(())
}

/// Does the same, but writes the report to the file of this path.
fn do_call_reporting<R>(
    rt: &R,
    call: &CallTask<'_>,
    console: Console,
    path: &str,
) -> Outcome<u8, Global>
where
    R: System,
    ensures status { IfOk result.answer (λ status. status ≤ 1) }
    ensures no_other { IfErr result.answer IsRunFault }
{
    let file = match ReportFile::open(rt, path) {
        Ok(file) => file,
        Err(error) => {
            let failure = SystemFailure::on(Resource::Output, Cause::of(&error));
            return Outcome::of(rt.alloc(), Err(RunFault::System(failure)));
        }
    };
    let mut report = SystemOutput::new(file);
    let Outcome { answer, remark } = do_call_over(rt, call, console, &mut report);
    let answer = match answer {
        Err(RunFault::Tool(ToolFault::Write)) => {
            Err(RunFault::with(ToolFault::Device, report.failure()))
        }
        answer => answer,
    };
    Outcome { answer, remark }
}

/// Does the same, but writes the report to this output.
fn do_call_over<'a, R, O>(
    rt: &'a R,
    call: &'a CallTask<'a>,
    console: Console,
    output: &mut O,
) -> Outcome<u8, Global>
where
    R: System,
    O: Output,
    ensures { AnswersCall IsRunFault (HasTalked call.now.side) result.answer
        (O.written output.old) (O.written output.new)
        (O.fault_count output.old) (O.fault_count output.new) }
{
    let mut observer = match observer_of(rt, call, console) {
        Ok(observer) => observer,
        Err(fault) => return Outcome::of(rt.alloc(), Err(fault)),
    };
    let Outcome { answer, mut remark } = call_run(
        rt.alloc(),
        rt,
        call,
        console.streams,
        &mut observer,
        output,
    );
    drop(observer);
    if let Err(fault) = &answer {
        let said = fault_remark(rt, call, fault).unwrap_or(String::new(rt.alloc()));
        let _ = remark.push_str(said.as_str());
        log_answer(rt, call, fault, said.as_str());
    }
    Outcome { answer, remark }
}

/// Returns what is wrong with the jobs of one end, or who holds its line, if that is the fault.
fn fault_remark<R: Files + AllocGlobal>(
    rt: &R,
    call: &CallTask<'_>,
    fault: &RunFault,
) -> Option<String> {
    match fault {
        RunFault::System(failure) if is_held_line(failure) => {
            line_held_remark(rt.alloc(), rt, &call.line).ok()
        }
        fault => jobs_remark(rt, call.dir, fault),
    }
}

/// Returns whether another run holds the line.
fn is_held_line(failure: &SystemFailure) -> bool {
    matches!(
        (failure.resource, failure.cause),
        (Resource::Line, Cause::InUse)
    )
}

/// Returns the observer of one end, with its log open if one is named.
fn observer_of<'a, R>(
    rt: &'a R,
    call: &CallTask<'a>,
    console: Console,
) -> Result<SystemObserver<'a, R, Global>, RunFault>
where
    R: Files<File = File> + Env + Eprint + Clock + AllocGlobal,
    ensures { IfErr result IsFolderFault }
{
    let log = match open_log(rt, call) {
        Ok(log) => log,
        Err(error) => return Err(RunFault::System(failure_of_log(&error))),
    };
    let at_terminal = console.is_errors_terminal;
    Ok(SystemObserver::new(rt.alloc(), rt, call, at_terminal, log)?)
}

/// Opens the log of one end, if one is named and the end may be run. The start of a caller's session is then logged. An
/// end over a spool writes its log itself, except how sessions end badly. That is left out if the log can't be opened.
fn open_log<'a, R>(rt: &'a R, call: &CallTask<'a>) -> io::Result<Option<SessionLog<'a, R, Global>>>
where
    R: Files<File = File> + Env + Clock + AllocGlobal,
{
    let Some(path) = call.outputs.log else {
        return Ok(None);
    };
    if !call.may_run() {
        return Ok(None);
    }
    let file = match LogFile::open(rt, path, call.is_spool) {
        Ok(file) => file,
        Err(_) if call.is_spool => return Ok(None),
        Err(error) => return Err(error),
    };
    let mut log = SessionLog::new(rt.alloc(), rt, file, call.side, call.peer, call.line.name);
    if call.side == Side::Caller {
        log.begin();
    }
    Ok(Some(log))
}

/// Returns the failure that the file of a log can't be opened.
fn failure_of_log(error: &io::Error) -> SystemFailure
    ensures end { result.end ≡ LOG }
    ensures resource { result.resource ≡ Resource.Output }
{
    SystemFailure {
        end: LOG,
        resource: Resource::Output,
        cause: Cause::of(error),
    }
}

/// Logs why one end gave up, with this remark on it, if there is a log. Errors in writing the log are ignored.
fn log_answer<R>(rt: &R, call: &CallTask<'_>, fault: &RunFault, said: &str)
where
    R: Files<File = File> + Env + Clock + AllocGlobal,
{
    if !call.may_run() {
        return;
    }
    if let Ok(text) = fault_text(rt.alloc(), call, fault) {
        if let Ok(text) = end_text(rt.alloc(), text.as_str(), words_of(said)) {
            log_fault(rt.alloc(), rt, call, text.as_str());
        }
    }
}

/// Returns why one end gave up, for its log.
fn fault_text(alloc: Global, call: &CallTask<'_>, fault: &RunFault) -> Result<String, AllocError> {
    let answer = match fault {
        RunFault::System(failure) => return failure_text(alloc, call, *failure),
        RunFault::Unread(_) => ToolFault::Read,
        RunFault::Tool(answer) => *answer,
    };
    format!(in alloc; "{answer}")
}

/// Returns which system call failed, on what and why, for the log of one end.
fn failure_text(
    alloc: Global,
    call: &CallTask<'_>,
    failure: SystemFailure,
) -> Result<String, AllocError> {
    let device = ToolFault::Device;
    let mut word = format!(in alloc; "{device}")?;
    if let Cause::NotANumber = failure.cause {
        word = format!(in alloc; "{}", BadNumber)?;
    }
    let reason = if is_refused_lock(&failure) {
        locks_line(alloc, call.line.locks, failure)?
    } else {
        let report = call.outputs.report.unwrap_or("");
        let line = call.line;
        reason_line(alloc, report, line.name, call.dir, line.locks, failure)?
    };
    end_text(alloc, word.as_str(), words_of(reason.as_str()))
}
