//! The reasons why one end or both gave up, and why nothing was queued or cancelled.
ghost use Rattle.std.specs.Prelude.{◌≡◌, [], string_bytes};
ghost use Rattle.uug_io_disk.specs.Queued.{word_or_empty};
ghost use Rattle.uug_error_text.specs.Reasons.{places};
ghost use Rattle.uug_cli_stop.specs.Stop.{StopsOnCancel, StopsOnCause, StopsOnEnd, StopsOnLoudPair, StopsOnPair, StopsOnPairBy, StopsOnQueue, StopsOnSystem, held_by_another, is_refused_lock, output_of};
ghost use Rattle.uug_cli_stop.specs.declared.of_end.TheConstants.{LOG};

use crate::said::{names_copied, names_folder, says_fault, says_number, says_reason, says_usage};
use crate::stop::Stop;
use std::alloc::Global;
use uug_cli::{PairTask, pair_remark, usage_remark};
use uug_config::CallTask;
use uug_error::{Cause, Resource, RunFault, SystemFailure};
use uug_error_text::{locks_line, reason_line};
use uug_stream::ToolFault;

/// The number of the report among the outputs of one end.
pub const REPORT: usize = 0;

/// The number of the log among them.
pub const LOG: usize = 1;

/// The number of the statistics among them.
pub const STATS: usize = 2;

/// Returns why two ends gave up. Bad usage is always explained, other faults only with `-v`.
pub(crate) fn stop_of_pair(
    alloc: Global,
    pair: &PairTask<'_>,
    fault: RunFault,
    remark: String,
) -> Stop
    ensures { StopsOnPair pair.now fault (string_bytes remark) result }
{
    match fault {
        RunFault::Tool(ToolFault::Usage) => {
            says_usage(pair_remark(alloc, pair.drop_every, pair.flip_every))
        }
        fault => stop_of_pair_by(alloc, pair, fault, remark),
    }
}

/// Returns why two ends with good usage gave up: only the fault without `-v`.
fn stop_of_pair_by(alloc: Global, pair: &PairTask<'_>, fault: RunFault, remark: String) -> Stop
    ensures { StopsOnPairBy pair.now.is_loud pair.now fault (string_bytes remark) result }
{
    if pair.is_loud {
        stop_of_loud_pair(alloc, pair, fault, remark)
    } else {
        says_fault(alloc, fault.answer())
    }
}

/// Returns what is wrong with a line of jobs, which system call failed, or only the fault.
fn stop_of_loud_pair(alloc: Global, pair: &PairTask<'_>, fault: RunFault, remark: String) -> Stop
    ensures { StopsOnLoudPair pair.now fault (string_bytes remark) result }
{
    match fault {
        RunFault::System(failure) => {
            let (line, first, second) = (pair.socket, pair.dir_a, pair.dir_b);
            stop_of_cause(alloc, "", line, first, second, failure, remark)
        }
        RunFault::Tool(ToolFault::Jobs(line)) => Stop::Told(ToolFault::Jobs(line), remark),
        fault => Stop::Fault(fault.answer()),
    }
}

/// Returns why the task of one end gave up. It says what is wrong with the task, and names the line or the folder if
/// another run holds it.
pub(crate) fn stop_of_end(
    alloc: Global,
    call: &CallTask<'_>,
    fault: RunFault,
    remark: String,
) -> Stop
    ensures { StopsOnEnd call.now fault (string_bytes remark) result }
{
    match fault {
        RunFault::System(failure) => stop_of_system(alloc, call, failure, remark),
        RunFault::Tool(ToolFault::Usage) => says_usage(usage_remark(alloc, call)),
        RunFault::Tool(ToolFault::Jobs(line)) => Stop::Told(ToolFault::Jobs(line), remark),
        fault => Stop::Fault(fault.answer()),
    }
}

/// Returns why one end gave up after a failed system call.
fn stop_of_system(
    alloc: Global,
    call: &CallTask<'_>,
    failure: SystemFailure,
    remark: String,
) -> Stop
    ensures { StopsOnSystem (is_refused_lock failure) call.now failure
        (string_bytes remark) result }
{
    if is_refused_lock(&failure) {
        return says_reason(locks_line(alloc, call.line.locks, failure));
    }
    let output = output_named(call, failure.end);
    let (line, locks) = (call.line.name, call.line.locks);
    stop_of_cause(alloc, output, line, call.dir, locks, failure, remark)
}

/// Returns whether the system refused to create a lock file for one end.
pub fn is_refused_lock(failure: &SystemFailure) -> bool
    ensures { result ≡ is_refused_lock failure.now }
{
    match (failure.resource, failure.cause) {
        (Resource::Dir, Cause::Refused(_, _)) => failure.end != 0,
        _ => false,
    }
}

/// Returns why one end gave up after a failed system call, on this output, line or folder. Names what another run
/// holds, with this remark, and a bad number file.
fn stop_of_cause(
    alloc: Global,
    output: &str,
    line: &str,
    first: &str,
    second: &str,
    failure: SystemFailure,
    remark: String,
) -> Stop
    ensures { StopsOnCause (places output.now line.now first.now second.now)
        failure (string_bytes remark) failure.cause result }
{
    let cause = failure.cause;
    if let Cause::InUse = cause {
        return names_folder(alloc, held_by_another(line, first, second, failure), remark);
    }
    let reason = reason_line(alloc, output, line, first, second, failure);
    match cause {
        Cause::NotANumber => says_number(reason),
        _ => says_reason(reason),
    }
}

/// Returns what another run holds: the line, or the folder of this number.
fn held_by_another<'a>(
    line: &'a str,
    first: &'a str,
    second: &'a str,
    failure: SystemFailure,
) -> &'a str
    ensures { result.now ≡ held_by_another (places [] line.now first.now second.now)
        failure.end failure.resource }
{
    match (failure.resource, failure.end) {
        (Resource::Line, _) => line,
        (_, 0) => first,
        _ => second,
    }
}

/// Returns the path of this output of one end: its report, its log, or the statistics. It is empty if none is named.
fn output_named<'a>(call: &CallTask<'a>, number: usize) -> &'a str
    ensures { result.now ≡ output_of call.now number }
{
    let path = match number {
        LOG => call.outputs.log,
        STATS => call.spool.stats,
        _ => call.outputs.report,
    };
    path.unwrap_or("")
}

/// Returns why nothing was queued or listed, or no status was shown: the file that can't be read or is over a limit,
/// what is wrong with the order or with a line of jobs, or on what a system call failed, and why, if that is known.
pub(crate) fn stop_of_queue(
    alloc: Global,
    dir: &str,
    file: Option<&str>,
    fault: RunFault,
    remark: String,
) -> Stop
    ensures { StopsOnQueue dir.now (word_or_empty file.entry) fault (string_bytes remark) result }
{
    match fault {
        RunFault::System(failure) => says_reason(reason_line(alloc, "", "", dir, dir, failure)),
        RunFault::Unread(failure) => names_copied(alloc, file.unwrap_or(""), failure),
        RunFault::Tool(ToolFault::Usage) => Stop::Remarked(ToolFault::Usage, remark),
        RunFault::Tool(ToolFault::Jobs(line)) => Stop::Told(ToolFault::Jobs(line), remark),
        RunFault::Tool(fault) => Stop::Fault(fault),
    }
}

/// Returns why no job was cancelled: what is wrong with the usage or with a line of jobs, the folder that another run
/// holds, or on what another system call failed, and why, if that is known.
pub(crate) fn stop_of_cancel(alloc: Global, dir: &str, fault: RunFault, remark: String) -> Stop
    ensures { StopsOnCancel dir.now fault (string_bytes remark) result }
{
    match fault {
        RunFault::System(failure) => stop_of_cause(alloc, "", "", dir, dir, failure, remark),
        RunFault::Tool(ToolFault::Usage) => Stop::Remarked(ToolFault::Usage, remark),
        RunFault::Tool(ToolFault::Jobs(line)) => Stop::Told(ToolFault::Jobs(line), remark),
        fault => Stop::Fault(fault.answer()),
    }
}
