//! The plan for the files of an end when its session is over.
ghost use Rattle.std.specs.Prelude.{◌≡◌, ◌≤◌, ◌⊎◌, IfOk, OnErr, OnOk};
ghost use Rattle.uug_session.specs.Engine.{HasFailed};
ghost use Rattle.uug_store.specs.JobsFile.{settled};
ghost use Rattle.uug_store.specs.JobsPlan.{HasFailedIn, HoldsPlanned, IsCarried, IsCarriedOut, IsFeasible, IsPlanned, carried, fault_without_memory};
ghost use Rattle.uug_store.specs.NumberText.{HoldsNumber, IsNumberKept, holding_number};
ghost use Rattle.uug_transfer.specs.BufferedNodes.{node_in};
ghost use Rattle.uug_transfer.specs.Ends.{jobs_of_end, number_of_end};

use crate::transfer_end::TransferEnd;
use std::alloc::{AllocError, Allocator};
use uug_session::Spool;
use uug_store::{FolderFailed, JobsPlan, TextFile, number_line};
use uug_stream::ToolFault;

/// The plan for the file of an end's jobs, and the number that it keeps.
#[derive(Drop)]
pub(crate) struct EndPlan<A: Allocator> {
    pub(crate) jobs: JobsPlan<A>,
    pub(crate) number: Option<u32>,
}

impl<A: Allocator + Copy> EndPlan<A> {
    /// Reads the file of jobs again, and plans what to write for this end.
    pub(crate) fn new<S: Spool + Drop, J: TextFile, N: TextFile>(
        alloc: A,
        end: &mut TransferEnd<S, J, N, A>,
    ) -> Result<Self, AllocError>
        ensures buffered { end.new.buffered ≡ end.old.buffered }
        ensures before { end.new.jobs.before ≡ end.old.jobs.before }
        ensures number_stays { end.new.number ≡ end.old.number }
        ensures text { J.text end.new.jobs.file ≡ J.text end.old.jobs.file }
        ensures jobs { IfOk result (λ plan. IsPlanned plan.jobs
            (settled end.old.jobs.before.items (jobs_of_end (node_in end.old.buffered))
            (J.text end.old.jobs.file)) (J.text end.old.jobs.file)
            (J.fault_count end.old.jobs.file) (J.fault_count end.new.jobs.file)) }
        ensures number { IfOk result (λ plan.
            plan.number ≡ number_of_end (node_in end.old.buffered)) }
        ensures err { OnErr result
            (J.fault_count end.new.jobs.file ≡ J.fault_count end.old.jobs.file) }
    {
        let jobs = JobsPlan::new(alloc, &mut end.jobs, end.buffered.node().queue())?;
        Ok(EndPlan {
            jobs,
            number: end.buffered.node().number(),
        })
    }
}

impl<A: Allocator> EndPlan<A> {
    /// Writes the file of jobs and the number's file. A failure of one does not prevent the other.
    pub(crate) fn carry_out<J: TextFile, N: TextFile>(
        &self,
        jobs: &mut J,
        number: &mut N,
    ) -> Result<(), FolderFailed>
        ensures jobs { IsCarriedOut self.now.jobs (J.text jobs.old) (J.text jobs.new)
            (J.fault_count jobs.old) (J.fault_count jobs.new) }
        ensures jobs_whole { IsCarried self.now.jobs (J.text jobs.old) (J.text jobs.new) }
        ensures jobs_ok { OnOk result (J.text jobs.new ≡ carried self.now.jobs (J.text jobs.old)) }
        ensures feasible { OnOk result (IsFeasible self.now.jobs) }
        ensures jobs_calm { OnOk result (J.fault_count jobs.new ≡ J.fault_count jobs.old) }
        ensures jobs_hold { OnOk result (HoldsPlanned self.now.jobs (J.text jobs.new)) }
        ensures jobs_grow { J.fault_count jobs.old ≤ J.fault_count jobs.new }
        ensures number { (N.text number.new ≡ holding_number self.now.number (N.text number.old))
            ⊎ HasFailed u64.MAX (N.fault_count number.old) (N.fault_count number.new) }
        ensures number_whole { IsNumberKept self.now.number (N.text number.old) (N.text number.new) }
        ensures number_ok { OnOk result
            (N.text number.new ≡ holding_number self.now.number (N.text number.old)) }
        ensures number_calm { OnOk result (N.fault_count number.new ≡ N.fault_count number.old) }
        ensures number_holds { OnOk result (HoldsNumber self.now.number (N.text number.new)) }
        ensures fault { OnErr result (HasFailedIn self.now.jobs
            (J.fault_count jobs.old) (J.fault_count jobs.new)
            ⊎ HasFailed u64.MAX (N.fault_count number.old) (N.fault_count number.new)) }
    {
        let jobs_written = self.jobs.carry_out(jobs);
        let number_written = keep_number(self.number, number);
        jobs_written?;
        number_written
    }

    /// Returns the fault to report if memory runs out before anything was written: the device's fault, if it came
    /// before.
    pub(crate) fn fault_without_memory(&self) -> ToolFault
        ensures { result ≡ fault_without_memory self.now.jobs }
    {
        self.jobs.fault_without_memory()
    }
}

/// Writes the number to its file, if the end keeps one.
fn keep_number<N: TextFile>(number: Option<u32>, file: &mut N) -> Result<(), FolderFailed>
    ensures ok { OnOk result (N.text file.new ≡ holding_number number (N.text file.old)) }
    ensures holds { OnOk result (HoldsNumber number (N.text file.new)) }
    ensures stands { OnOk result (N.fault_count file.new ≡ N.fault_count file.old) }
    ensures err { OnErr result (IsNumberKept number (N.text file.old) (N.text file.new)) }
    ensures fault { OnErr result
        (HasFailed u64.MAX (N.fault_count file.old) (N.fault_count file.new)) }
{
    match number {
        Some(number) => file.replace(&number_line(number)),
        None => Ok(()),
    }
}
