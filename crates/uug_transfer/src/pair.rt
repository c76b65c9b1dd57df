//! Two ends over a line, from their first turn to the report.
ghost use Rattle.std.specs.Prelude.{◌≡◌, ◌≤◌, ◌⊎◌, IfErr, IfOk, OnOk};
ghost use Rattle.uug_session.specs.Engine.{HasFailed, IsEnded};
ghost use Rattle.uug_stream.specs.Streams.{CountsFault};
ghost use Rattle.uug_store.specs.JobsFile.{IsSettled, settled};
ghost use Rattle.uug_transfer.specs.BufferedNodes.{node_in};
ghost use Rattle.uug_transfer.specs.EndOver.{HasFault, IfWritten, IsEndFault, IsPrinted, LeaveBoth, UnlessDevice, files_of};
ghost use Rattle.uug_transfer.specs.Ends.{jobs_of_end, phase_of_end, report_of_both, status_of_phases};
ghost use Rattle.uug_transfer.specs.Moments.{IsLed, end_now};
ghost use Rattle.uug_transfer.specs.Turns.{HasRoom};

use crate::call::fault_behind_line;
use crate::line::Line;
use crate::pair_plan::PairPlan;
use crate::transfer_end::TransferEnd;
use crate::turn_fault::TurnFault;
use crate::turns::run_turns;
use std::alloc::Allocator;
use uug_session::{Phase, Spool};
use uug_store::TextFile;
use uug_stream::{Output, ToolFault};

/// Runs two ends for at most `limit` turns at a line. Then reads each file of jobs again and writes what stays of it:
/// the pending jobs, and the lines that were added meanwhile. Writes the number of each end that keeps one to its own
/// file, and the report to the output, even if the line has failed. Returns the program's status: 0 if both sessions
/// are done, else 1.
///
/// Returns the first of several faults, except that running out of memory after the line has failed is `Memory`. No
/// fault prevents the steps after it, except running out of memory before the first write.
pub fn pair_over<S, L, J, N, O, A>(
    alloc: A,
    caller: &mut TransferEnd<S, J, N, A>,
    called: &mut TransferEnd<S, J, N, A>,
    line: &mut L,
    limit: u32,
    output: &mut O,
) -> Result<u8, ToolFault>
where
    S: Spool + Drop,
    L: Line,
    J: TextFile,
    N: TextFile,
    O: Output,
    A: Allocator + Copy,
    requires { HasRoom (L.unread line.old) }
    ensures caller_led { IsLed (end_now S.holdings S.kept caller.old.buffered)
        (end_now S.holdings S.kept caller.new.buffered) }
    ensures called_led { IsLed (end_now S.holdings S.kept called.old.buffered)
        (end_now S.holdings S.kept called.new.buffered) }
    ensures caller_over { IsEnded (node_in caller.new.buffered).engine.stage }
    ensures called_over { IsEnded (node_in called.new.buffered).engine.stage }
    // A file of jobs is as before, or has what stays of it.
    ensures caller_jobs { IsSettled caller.old.jobs.before.items
        (jobs_of_end (node_in caller.new.buffered))
        (J.text caller.old.jobs.file) (J.text caller.new.jobs.file) }
    ensures called_jobs { IsSettled called.old.jobs.before.items
        (jobs_of_end (node_in called.new.buffered))
        (J.text called.old.jobs.file) (J.text called.new.jobs.file) }
    ensures caller_ok { OnOk result (J.text caller.new.jobs.file
        ≡ settled caller.old.jobs.before.items
        (jobs_of_end (node_in caller.new.buffered)) (J.text caller.old.jobs.file)) }
    ensures called_ok { OnOk result (J.text called.new.jobs.file
        ≡ settled called.old.jobs.before.items
        (jobs_of_end (node_in called.new.buffered)) (J.text called.old.jobs.file)) }
    // Whatever the result, each file is written unless its device fails, or none is, because memory ran out.
    ensures files { LeaveBoth result caller.old.jobs.before.items called.old.jobs.before.items
        (node_in caller.new.buffered) (node_in called.new.buffered)
        (files_of J.text J.fault_count N.text N.fault_count caller.old)
        (files_of J.text J.fault_count N.text N.fault_count caller.new)
        (files_of J.text J.fault_count N.text N.fault_count called.old)
        (files_of J.text J.fault_count N.text N.fault_count called.new) }
    ensures report { IsPrinted result
        (report_of_both (node_in caller.new.buffered) (node_in called.new.buffered))
        (O.written output.old) (O.written output.new)
        (O.fault_count output.old) (O.fault_count output.new)
        (HasFault (files_of J.text J.fault_count N.text N.fault_count caller.old)
        (files_of J.text J.fault_count N.text N.fault_count caller.new)
        ⊎ HasFault (files_of J.text J.fault_count N.text N.fault_count called.old)
        (files_of J.text J.fault_count N.text N.fault_count called.new)) }
    ensures status { IfOk result (λ status. status
        ≡ status_of_phases (phase_of_end (node_in caller.new.buffered))
        (phase_of_end (node_in called.new.buffered))) }
    // If the line or a file of jobs has failed, that is the fault returned, unless memory ran out after the line
    // failed.
    ensures line_calm { IfWritten result (L.fault_count line.new ≡ L.fault_count line.old) }
    ensures caller_calm { UnlessDevice result (J.fault_count caller.new.jobs.file
        ≡ J.fault_count caller.old.jobs.file) }
    ensures called_calm { UnlessDevice result (J.fault_count called.new.jobs.file
        ≡ J.fault_count called.old.jobs.file) }
    ensures device { result ≡ Err ToolFault.Device
        → HasFailed u64.MAX (L.fault_count line.old) (L.fault_count line.new)
        ⊎ (HasFault (files_of J.text J.fault_count N.text N.fault_count caller.old)
        (files_of J.text J.fault_count N.text N.fault_count caller.new)
        ⊎ HasFault (files_of J.text J.fault_count N.text N.fault_count called.old)
        (files_of J.text J.fault_count N.text N.fault_count called.new)) }
    ensures write { result ≡ Err ToolFault.Write
        → CountsFault (O.fault_count output.old) (O.fault_count output.new) }
    ensures no_other { IfErr result IsEndFault }
{
    match run_turns(&mut caller.buffered, &mut called.buffered, line, limit) {
        Ok(()) => match leave(alloc, caller, called, output) {
            Ok(()) => Ok(status(
                caller.buffered.node().phase(),
                called.buffered.node().phase(),
            )),
            Err(fault) => Err(fault),
        },
        Err(TurnFault::Line) => {
            let left = leave(alloc, caller, called, output);
            Err(fault_behind_line(left))
        }
        Err(TurnFault::Memory) => Err(ToolFault::Memory),
    }
}

/// Writes what stays of each end's jobs to its file of jobs, its number to the number's file if it keeps one, and the
/// report to the output.
fn leave<S, J, N, O, A>(
    alloc: A,
    caller: &mut TransferEnd<S, J, N, A>,
    called: &mut TransferEnd<S, J, N, A>,
    output: &mut O,
) -> Result<(), ToolFault>
where
    S: Spool + Drop,
    J: TextFile,
    N: TextFile,
    O: Output,
    A: Allocator + Copy,
    ensures caller { caller.new.buffered ≡ caller.old.buffered }
    ensures called { called.new.buffered ≡ called.old.buffered }
    // A file of jobs is as before, or has what stays of it.
    ensures caller_jobs { IsSettled caller.old.jobs.before.items
        (jobs_of_end (node_in caller.old.buffered))
        (J.text caller.old.jobs.file) (J.text caller.new.jobs.file) }
    ensures called_jobs { IsSettled called.old.jobs.before.items
        (jobs_of_end (node_in called.old.buffered))
        (J.text called.old.jobs.file) (J.text called.new.jobs.file) }
    ensures caller_ok { OnOk result (J.text caller.new.jobs.file
        ≡ settled caller.old.jobs.before.items
        (jobs_of_end (node_in caller.old.buffered)) (J.text caller.old.jobs.file)) }
    ensures called_ok { OnOk result (J.text called.new.jobs.file
        ≡ settled called.old.jobs.before.items
        (jobs_of_end (node_in called.old.buffered)) (J.text called.old.jobs.file)) }
    // Whatever the result, each file is written unless its device fails, or none is, because memory ran out.
    ensures files { LeaveBoth result caller.old.jobs.before.items called.old.jobs.before.items
        (node_in caller.old.buffered) (node_in called.old.buffered)
        (files_of J.text J.fault_count N.text N.fault_count caller.old)
        (files_of J.text J.fault_count N.text N.fault_count caller.new)
        (files_of J.text J.fault_count N.text N.fault_count called.old)
        (files_of J.text J.fault_count N.text N.fault_count called.new) }
    ensures report { IsPrinted result
        (report_of_both (node_in caller.old.buffered) (node_in called.old.buffered))
        (O.written output.old) (O.written output.new)
        (O.fault_count output.old) (O.fault_count output.new)
        (HasFault (files_of J.text J.fault_count N.text N.fault_count caller.old)
        (files_of J.text J.fault_count N.text N.fault_count caller.new)
        ⊎ HasFault (files_of J.text J.fault_count N.text N.fault_count called.old)
        (files_of J.text J.fault_count N.text N.fault_count called.new)) }
    ensures caller_calm { UnlessDevice result (J.fault_count caller.new.jobs.file
        ≡ J.fault_count caller.old.jobs.file) }
    ensures called_calm { UnlessDevice result (J.fault_count called.new.jobs.file
        ≡ J.fault_count called.old.jobs.file) }
    ensures device { result ≡ Err ToolFault.Device
        → (HasFault (files_of J.text J.fault_count N.text N.fault_count caller.old)
        (files_of J.text J.fault_count N.text N.fault_count caller.new)
        ⊎ HasFault (files_of J.text J.fault_count N.text N.fault_count called.old)
        (files_of J.text J.fault_count N.text N.fault_count called.new)) }
    ensures write { result ≡ Err ToolFault.Write
        → CountsFault (O.fault_count output.old) (O.fault_count output.new) }
    ensures no_other { IfErr result IsEndFault }
{
    match PairPlan::new(alloc, caller, called) {
        Ok(plan) => plan.write(caller, called, output),
        Err(fault) => Err(fault),
    }
}

/// Returns 0 if both sessions are done, else 1.
fn status(caller: Phase, called: Phase) -> u8
    ensures { result ≡ status_of_phases caller called }
{
    if caller.is_done() && called.is_done() {
        0
    } else {
        1
    }
}
