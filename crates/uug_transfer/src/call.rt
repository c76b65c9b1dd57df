//! One end at its line, from its first turn to the report.
ghost use Rattle.std.specs.Prelude.{◌≡◌, IfErr, IfOk, OnErr, OnOk};
ghost use Rattle.uug_session.specs.Node.{node_of};
ghost use Rattle.uug_stream.specs.Fault.{StopsWriting};
ghost use Rattle.uug_stream.specs.Streams.{Appends, AppendsFront, CountsFault};
ghost use Rattle.uug_transfer.specs.BufferedNodes.{node_in};
ghost use Rattle.uug_transfer.specs.EndOver.{HasFault, IsEndFault, IsPrinted, fault_behind_line, files_of};
ghost use Rattle.uug_transfer.specs.Ends.{phase_of_end, report_of, status_of_phase};
ghost use Rattle.uug_transfer.specs.LineSessions.{IsCall};
ghost use Rattle.uug_transfer.specs.Moments.{disk_of, end_now, host_of, line_now, unsent};

use crate::end_line::EndLine;
use crate::end_report::report;
use crate::patience::PatienceLimits;
use crate::session::run_at_line;
use crate::session_fault::SessionFault;
use crate::transfer_end::TransferEnd;
use std::alloc::Allocator;
use uug_session::{Node, Phase, Side, Spool};
use uug_store::{JobTexts, TextFile};
use uug_stream::{Output, ToolFault, write_all};

/// Runs an end at its line until its session is over, as `run_session` does. Results go to its disk during the session,
/// before the end writes about them: a job that is done or has failed is removed from the file of jobs, a failed one
/// gets a notice, and the number goes to its own file, if the end keeps one. Then writes the report to the output, even
/// if a file has failed. Returns the program's status: 0 if the session is done, else 1.
///
/// Returns the first of several faults, except that running out of memory after a file has failed is `Memory`. No fault
/// prevents the report from being printed, except running out of memory.
pub fn call_over<S, L, J, N, O, A>(
    alloc: A,
    side: Side,
    end: &mut TransferEnd<S, J, N, A>,
    line: &mut L,
    most: u64,
    limits: PatienceLimits,
    output: &mut O,
) -> Result<u8, ToolFault>
where
    S: Spool + Drop,
    L: EndLine,
    J: JobTexts,
    N: TextFile,
    O: Output,
    A: Allocator + Copy,
    ensures session { IsCall most result
        (end_now S.holdings S.kept end.old.buffered) (end_now S.holdings S.kept end.new.buffered)
        (unsent end.old.buffered)
        (host_of (line_now L.received L.taken L.writes line.old)
        (disk_of J.text J.told J.fault_count N.text N.fault_count end.old))
        (host_of (line_now L.received L.taken L.writes line.new)
        (disk_of J.text J.told J.fault_count N.text N.fault_count end.new)) }
    ensures report { IsPrinted result (report_of side (node_in end.new.buffered))
        (O.written output.old) (O.written output.new)
        (O.fault_count output.old) (O.fault_count output.new)
        (HasFault (files_of J.text J.fault_count N.text N.fault_count end.old)
        (files_of J.text J.fault_count N.text N.fault_count end.new)) }
    ensures status { IfOk result (λ status.
        status ≡ status_of_phase (phase_of_end (node_in end.new.buffered))) }
    ensures device { result ≡ Err ToolFault.Device
        → HasFault (files_of J.text J.fault_count N.text N.fault_count end.old)
        (files_of J.text J.fault_count N.text N.fault_count end.new) }
    ensures write { result ≡ Err ToolFault.Write
        → CountsFault (O.fault_count output.old) (O.fault_count output.new) }
    ensures no_other { IfErr result IsEndFault }
{
    let session = run_at_line(
        alloc,
        &mut end.buffered,
        &mut end.jobs,
        &mut end.number,
        line,
        most,
        limits,
    );
    match session {
        Ok(()) => match print_report(alloc, side, end.buffered.node(), output) {
            Ok(()) => Ok(status(end.buffered.node().phase())),
            Err(fault) => Err(fault),
        },
        Err(SessionFault::Jobs | SessionFault::Number) => {
            let printed = print_report(alloc, side, end.buffered.node(), output);
            Err(fault_behind_line(printed))
        }
        Err(SessionFault::Memory) => Err(ToolFault::Memory),
    }
}

/// Prints the state of an end, then the jobs that it has given up.
fn print_report<S: Spool, O: Output, A: Allocator + Copy>(
    alloc: A,
    side: Side,
    end: &Node<S, A>,
    output: &mut O,
) -> Result<(), ToolFault>
    ensures appends { OnOk result (Appends (report_of side (node_of end.now))
        (O.written output.old) (O.written output.new)) }
    ensures begins { OnErr result (AppendsFront (report_of side (node_of end.now))
        (O.written output.old) (O.written output.new)) }
    ensures fault { IfErr result
        (StopsWriting (O.fault_count output.old) (O.fault_count output.new)) }
{
    let report = report(alloc, side, end)?;
    write_all(output, report.as_bytes())
}

/// Returns the fault to report after a device has failed, given the result of the remaining work: the device's fault,
/// which came first, unless memory ran out.
pub(crate) fn fault_behind_line(left: Result<(), ToolFault>) -> ToolFault
    ensures { result ≡ fault_behind_line left }
{
    match left {
        Err(ToolFault::Memory) => ToolFault::Memory,
        _ => ToolFault::Device,
    }
}

/// Returns 0 if the session is done, else 1.
fn status(phase: Phase) -> u8
    ensures { result ≡ status_of_phase phase }
{
    if phase.is_done() { 0 } else { 1 }
}
