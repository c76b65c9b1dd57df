//! The end of the program after a task.
ghost use Rattle.std.specs.Prelude.{◌≡◌, IfErr, IfOk, IsErrAnd, MatchResult, [], string_bytes};
ghost use Rattle.uug_error_text.specs.Reasons.{places, reason_line};
ghost use Rattle.uug_cli_stop.specs.Stop.{EndsSo, SaysReason, SaysStream, StopsAs, status_of_stop};

use crate::of_end::{stop_of_cancel, stop_of_end, stop_of_pair, stop_of_queue};
use crate::of_input::{stop_of_file, stop_of_script, stop_of_script_file};
use crate::said::{says_fault, says_reason};
use crate::stop::Stop;
use std::alloc::Global;
use uug_cli::Task;
use uug_error::{Outcome, RunFault, SystemFailure};
use uug_error_text::reason_line;
use uug_stream::ToolFault;

/// Returns why the program ends after a task gave up.
fn stop_of(alloc: Global, task: Task<'_>, fault: RunFault, remark: String) -> Stop
    ensures { StopsAs task.entry fault (string_bytes remark) result }
{
    match task {
        Task::Scan(_) | Task::Play(_) | Task::PlaySettled(_) | Task::PlayDrawn(_) => {
            says_fault(alloc, fault.answer())
        }
        Task::ScanVerbose(Some(path)) => stop_of_file(alloc, path, fault),
        Task::PlayVerbose(None) => stop_of_script(fault, remark),
        Task::PlayVerbose(Some(path)) => stop_of_script_file(alloc, path, fault, remark),
        Task::Pair(pair) => stop_of_pair(alloc, &pair, fault, remark),
        Task::Call(call) => stop_of_end(alloc, &call, fault, remark),
        Task::Queue(queue) => stop_of_queue(alloc, queue.dir, queue.file, fault, remark),
        Task::Cancel(cancel) => stop_of_cancel(alloc, cancel.dir, fault, remark),
        Task::Status(status) => stop_of_queue(alloc, status.dir, status.log, fault, remark),
        _ => Stop::Fault(fault.answer()),
    }
}

/// Returns how the program ends after a task with this outcome.
pub fn end_of(alloc: Global, task: Task<'_>, outcome: Outcome<u8, Global>) -> Result<u8, Stop>
    ensures { EndsSo task.entry outcome.answer (string_bytes outcome.remark) result }
{
    let Outcome { answer, remark } = outcome;
    match answer {
        Ok(status) => Ok(status),
        Err(fault) => Err(stop_of(alloc, task, fault, remark)),
    }
}

/// Returns that a system call failed on the standard stream of this name, and why, if there was memory for that.
fn says_stream(alloc: Global, name: &str, failure: SystemFailure) -> Stop
    ensures { SaysReason (reason_line (places name.now [] [] []) failure) result }
{
    says_reason(reason_line(alloc, name, "", "", "", failure))
}

/// Returns the same ending, with the system call that failed on standard input or output, if it is known.
pub fn with_reason(
    alloc: Global,
    ended: Result<u8, Stop>,
    input: Option<SystemFailure>,
    output: Option<SystemFailure>,
) -> Result<u8, Stop>
    ensures ok { IfOk ended (λ status. result ≡ Ok status) }
    ensures status { IfErr ended (λ stop.
        IsErrAnd result (λ ends. status_of_stop ends ≡ status_of_stop stop)) }
    ensures said { IfErr ended (λ stop. IsErrAnd result (SaysStream stop input output)) }
{
    match (ended, input, output) {
        (Err(Stop::Fault(ToolFault::Read)), Some(failure), _) => {
            Err(says_stream(alloc, "standard input", failure))
        }
        (Err(Stop::Fault(ToolFault::Write)), _, Some(failure)) => {
            Err(says_stream(alloc, "standard output", failure))
        }
        (ended, _, _) => ended,
    }
}

/// Prints on standard error why the program ends before its task is done, and returns the program's status. Failures of
/// the printing are ignored.
pub fn end(rt: &impl Eprint, ended: Result<u8, Stop>) -> u8
    ensures { MatchResult ended
        (λ status. result ≡ status) (λ stop. result ≡ status_of_stop stop) }
{
    match ended {
        Ok(status) => status,
        Err(stop) => {
            let _ = eprint!(rt; "{stop}");
            stop.status()
        }
    }
}
