//! The plan for the files of two ends, and for their report, when their turns are over.
ghost use Rattle.std.specs.Prelude.{◌≡◌, ◌≤◌, ◌⊎◌, IfErr, IfOk, OnErr, OnOk, string_bytes};
ghost use Rattle.uug_session.specs.Engine.{HasFailed};
ghost use Rattle.uug_stream.specs.Fault.{StopsWriting};
ghost use Rattle.uug_stream.specs.Streams.{Appends, AppendsFront, CountsFault};
ghost use Rattle.uug_store.specs.JobsFile.{settled};
ghost use Rattle.uug_store.specs.JobsPlan.{HasFailedIn, HoldsPlanned, IsCarried, IsCarriedOut, IsFeasible, IsPlanned, carried};
ghost use Rattle.uug_store.specs.NumberText.{holding_number};
ghost use Rattle.uug_transfer.specs.BufferedNodes.{node_in};
ghost use Rattle.uug_transfer.specs.EndOver.{IsEndFault, IsPlanFaultOfBoth, IsPrinted, UnlessDevice, first_fault};
ghost use Rattle.uug_transfer.specs.Ends.{jobs_of_end, number_of_end, report_of_both};

use crate::end_plan::EndPlan;
use crate::end_report::report_of_both;
use crate::transfer_end::TransferEnd;
use std::alloc::Allocator;
use uug_session::Spool;
use uug_store::{FolderFailed, TextFile};
use uug_stream::{Output, ToolFault, write_all};

/// The plans for the files of both ends, and the report.
#[derive(Drop)]
pub(crate) struct PairPlan<A: Allocator> {
    pub(crate) caller: EndPlan<A>,
    pub(crate) called: EndPlan<A>,
    pub(crate) report: String<A>,
}

impl<A: Allocator + Copy> PairPlan<A> {
    /// Plans what to write for these two ends. All memory is allocated here.
    pub(crate) fn new<S: Spool + Drop, J: TextFile, N: TextFile>(
        alloc: A,
        caller: &mut TransferEnd<S, J, N, A>,
        called: &mut TransferEnd<S, J, N, A>,
    ) -> Result<Self, ToolFault>
        ensures caller_stays { caller.new.buffered ≡ caller.old.buffered }
        ensures caller_number { caller.new.number ≡ caller.old.number }
        ensures caller_text { J.text caller.new.jobs.file ≡ J.text caller.old.jobs.file }
        ensures caller { IfOk result (λ plan. IsPlanned plan.caller.jobs
            (settled caller.old.jobs.before.items (jobs_of_end (node_in caller.old.buffered))
            (J.text caller.old.jobs.file)) (J.text caller.old.jobs.file)
            (J.fault_count caller.old.jobs.file) (J.fault_count caller.new.jobs.file)) }
        ensures caller_keeps { IfOk result (λ plan.
            plan.caller.number ≡ number_of_end (node_in caller.old.buffered)) }
        ensures called_stays { called.new.buffered ≡ called.old.buffered }
        ensures called_number { called.new.number ≡ called.old.number }
        ensures called_text { J.text called.new.jobs.file ≡ J.text called.old.jobs.file }
        ensures called { IfOk result (λ plan. IsPlanned plan.called.jobs
            (settled called.old.jobs.before.items (jobs_of_end (node_in called.old.buffered))
            (J.text called.old.jobs.file)) (J.text called.old.jobs.file)
            (J.fault_count called.old.jobs.file) (J.fault_count called.new.jobs.file)) }
        ensures called_keeps { IfOk result (λ plan.
            plan.called.number ≡ number_of_end (node_in called.old.buffered)) }
        ensures report { IfOk result (λ plan. string_bytes plan.report
            ≡ report_of_both (node_in caller.old.buffered) (node_in called.old.buffered)) }
        ensures fault { IfErr result (λ fault. IsPlanFaultOfBoth fault
            (J.fault_count caller.old.jobs.file) (J.fault_count caller.new.jobs.file)
            (J.fault_count called.old.jobs.file) (J.fault_count called.new.jobs.file)) }
    {
        let caller_plan = EndPlan::new(alloc, caller)?;
        let Ok(called_plan) = EndPlan::new(alloc, called) else {
            return Err(caller_plan.fault_without_memory());
        };
        let Ok(report) = report_of_both(alloc, caller.buffered.node(), called.buffered.node())
        else {
            return Err(first_fault(&caller_plan, &called_plan));
        };
        Ok(PairPlan {
            caller: caller_plan,
            called: called_plan,
            report,
        })
    }
}

impl<A: Allocator> PairPlan<A> {
    /// Writes the files of both ends, the caller's first, and then prints the report. A failure of one does not prevent
    /// the others. Returns the first fault.
    pub(crate) fn write<S: Spool + Drop, J: TextFile, N: TextFile, O: Output>(
        &self,
        caller: &mut TransferEnd<S, J, N, A>,
        called: &mut TransferEnd<S, J, N, A>,
        output: &mut O,
    ) -> Result<(), ToolFault>
        ensures caller_stays { caller.new.buffered ≡ caller.old.buffered }
        ensures caller { IsCarriedOut self.now.caller.jobs (J.text caller.old.jobs.file) (J.text caller.new.jobs.file)
            (J.fault_count caller.old.jobs.file) (J.fault_count caller.new.jobs.file) }
        ensures caller_whole { IsCarried self.now.caller.jobs
            (J.text caller.old.jobs.file) (J.text caller.new.jobs.file) }
        ensures caller_ok { OnOk result (J.text caller.new.jobs.file
            ≡ carried self.now.caller.jobs (J.text caller.old.jobs.file)) }
        ensures caller_feasible { UnlessDevice result (IsFeasible self.now.caller.jobs) }
        ensures caller_calm { UnlessDevice result
            (J.fault_count caller.new.jobs.file ≡ J.fault_count caller.old.jobs.file) }
        ensures caller_grows { J.fault_count caller.old.jobs.file ≤ J.fault_count caller.new.jobs.file }
        ensures caller_number { (N.text caller.new.number
            ≡ holding_number self.now.caller.number (N.text caller.old.number))
            ⊎ HasFailed u64.MAX (N.fault_count caller.old.number) (N.fault_count caller.new.number) }
        ensures called_stays { called.new.buffered ≡ called.old.buffered }
        ensures called { IsCarriedOut self.now.called.jobs (J.text called.old.jobs.file) (J.text called.new.jobs.file)
            (J.fault_count called.old.jobs.file) (J.fault_count called.new.jobs.file) }
        ensures called_whole { IsCarried self.now.called.jobs
            (J.text called.old.jobs.file) (J.text called.new.jobs.file) }
        ensures called_ok { OnOk result (J.text called.new.jobs.file
            ≡ carried self.now.called.jobs (J.text called.old.jobs.file)) }
        ensures called_feasible { UnlessDevice result (IsFeasible self.now.called.jobs) }
        ensures called_calm { UnlessDevice result
            (J.fault_count called.new.jobs.file ≡ J.fault_count called.old.jobs.file) }
        ensures called_grows { J.fault_count called.old.jobs.file ≤ J.fault_count called.new.jobs.file }
        ensures called_number { (N.text called.new.number
            ≡ holding_number self.now.called.number (N.text called.old.number))
            ⊎ HasFailed u64.MAX (N.fault_count called.old.number) (N.fault_count called.new.number) }
        ensures report { IsPrinted result (string_bytes self.now.report)
            (O.written output.old) (O.written output.new)
            (O.fault_count output.old) (O.fault_count output.new)
            ((HasFailedIn self.now.caller.jobs (J.fault_count caller.old.jobs.file) (J.fault_count caller.new.jobs.file)
            ⊎ HasFailed u64.MAX (N.fault_count caller.old.number) (N.fault_count caller.new.number))
            ⊎ (HasFailedIn self.now.called.jobs (J.fault_count called.old.jobs.file) (J.fault_count called.new.jobs.file)
            ⊎ HasFailed u64.MAX (N.fault_count called.old.number) (N.fault_count called.new.number))) }
        ensures device { result ≡ Err ToolFault.Device
            → (HasFailedIn self.now.caller.jobs (J.fault_count caller.old.jobs.file) (J.fault_count caller.new.jobs.file)
            ⊎ HasFailed u64.MAX (N.fault_count caller.old.number) (N.fault_count caller.new.number))
            ⊎ (HasFailedIn self.now.called.jobs (J.fault_count called.old.jobs.file) (J.fault_count called.new.jobs.file)
            ⊎ HasFailed u64.MAX (N.fault_count called.old.number) (N.fault_count called.new.number)) }
        ensures write { result ≡ Err ToolFault.Write
            → CountsFault (O.fault_count output.old) (O.fault_count output.new) }
        ensures no_other { IfErr result IsEndFault }
    {
        let caller_written = self
            .caller
            .carry_out(&mut caller.jobs.file, &mut caller.number);
        let called_written = self
            .called
            .carry_out(&mut called.jobs.file, &mut called.number);
        let caller_file = &caller.jobs.file;
        let called_file = &called.jobs.file;
        let printed = self.print(
            caller_file,
            caller_written,
            called_file,
            called_written,
            output,
        );
        caller_written?;
        called_written?;
        printed
    }

    /// Prints the report. Each file of jobs must be as planned, unless writing the files of its end has failed.
    fn print<J: TextFile, O: Output>(
        &self,
        _caller: &J,
        _caller_written: Result<(), FolderFailed>,
        _called: &J,
        _called_written: Result<(), FolderFailed>,
        output: &mut O,
    ) -> Result<(), ToolFault>
        requires caller { OnOk _caller_written (HoldsPlanned self.now.caller.jobs (J.text _caller.now)) }
        requires called { OnOk _called_written (HoldsPlanned self.now.called.jobs (J.text _called.now)) }
        ensures appends { OnOk result (Appends (string_bytes self.now.report)
            (O.written output.old) (O.written output.new)) }
        ensures begins { OnErr result (AppendsFront (string_bytes self.now.report)
            (O.written output.old) (O.written output.new)) }
        ensures fault { IfErr result
            (StopsWriting (O.fault_count output.old) (O.fault_count output.new)) }
    {
        write_all(output, self.report.as_bytes())
    }
}

/// Returns the fault to report if memory runs out after both plans: the device's fault, if it came before.
fn first_fault<A: Allocator>(caller: &EndPlan<A>, called: &EndPlan<A>) -> ToolFault
    ensures { result ≡ first_fault caller.now.jobs called.now.jobs }
{
    match caller.fault_without_memory() {
        ToolFault::Device => ToolFault::Device,
        _ => called.fault_without_memory(),
    }
}
