//! The plan for a file of jobs after its text was read again.
ghost use Rattle.std.specs.Prelude.{◌≡◌, ◌≤◌, IfErr, IfOk, OnErr, OnOk};
ghost use Rattle.uug_store.specs.TextFiles.{holding, IsReadFault};
ghost use Rattle.uug_store.specs.JobsFile.{settled};
ghost use Rattle.uug_store.specs.JobsPlan.{HasFailedIn, HoldsPlanned, IsCarried, IsFeasible, IsPlanned, carried, fault_without_memory};

use crate::folder::FolderFailed;
use crate::jobs_file::JobsFile;
use crate::meanwhile::jobs_after;
use crate::text_file::TextFile;
use std::alloc::{AllocError, Allocator};
use uug_session::Queue;
use uug_stream::ToolFault;

/// The plan for a file of jobs.
#[derive(Drop)]
pub enum JobsPlan<A: Allocator> {
    /// The file gets this text.
    Write(Vec<u8, A>),
    /// The file stays as it is, because its text could not be read.
    Failed,
}

impl<A: Allocator + Copy> JobsPlan<A> {
    /// Reads the text of a file again, and plans the text that stays of it, by the pending, struck and failed jobs of
    /// the queue.
    pub fn new<J: TextFile, B: Allocator, C: Allocator>(
        alloc: A,
        jobs: &mut JobsFile<J, B>,
        queue: &Queue<C>,
    ) -> Result<Self, AllocError>
        ensures before { jobs.new.before ≡ jobs.old.before }
        ensures text { J.text jobs.new.file ≡ J.text jobs.old.file }
        ensures ok { IfOk result (λ plan. IsPlanned plan
            (settled jobs.old.before.items queue.now (J.text jobs.old.file))
            (J.text jobs.old.file) (J.fault_count jobs.old.file) (J.fault_count jobs.new.file)) }
        ensures err { OnErr result (J.fault_count jobs.new.file ≡ J.fault_count jobs.old.file) }
    {
        match settled_text(alloc, &mut jobs.file, jobs.before.as_slice(), queue) {
            Ok(text) => Ok(JobsPlan::Write(text)),
            Err(ToolFault::Memory) => Err(AllocError),
            Err(_) => Ok(JobsPlan::Failed),
        }
    }
}

impl<A: Allocator> JobsPlan<A> {
    /// Carries out the plan on the file.
    pub fn carry_out<J: TextFile>(&self, file: &mut J) -> Result<(), FolderFailed>
        ensures ok { OnOk result (J.text file.new ≡ carried self.now (J.text file.old)) }
        ensures feasible { OnOk result (IsFeasible self.now) }
        ensures stands { OnOk result (J.fault_count file.new ≡ J.fault_count file.old) }
        ensures holds { OnOk result (HoldsPlanned self.now (J.text file.new)) }
        ensures err { OnErr result (IsCarried self.now (J.text file.old) (J.text file.new)) }
        ensures fault { OnErr result
            (HasFailedIn self.now (J.fault_count file.old) (J.fault_count file.new)) }
        ensures grows { J.fault_count file.old ≤ J.fault_count file.new }
    {
        match self {
            JobsPlan::Write(text) => file.replace(text.as_slice()),
            JobsPlan::Failed => Err(FolderFailed),
        }
    }

    /// Returns the fault to report if memory runs out before anything was written: the device's fault, if it came
    /// before.
    pub fn fault_without_memory(&self) -> ToolFault
        ensures { result ≡ fault_without_memory self.now }
    {
        match self {
            JobsPlan::Failed => ToolFault::Device,
            _ => ToolFault::Memory,
        }
    }
}

/// Returns the text that stays in a file of jobs.
fn settled_text<J: TextFile, A: Allocator + Copy, B: Allocator>(
    alloc: A,
    file: &mut J,
    before: &[u8],
    queue: &Queue<B>,
) -> Result<Vec<u8, A>, ToolFault>
    ensures text { J.text file.new ≡ J.text file.old }
    ensures ok { IfOk result (λ text. holding text.items (J.text file.old)
        ≡ settled before.now queue.now (J.text file.old)) }
    ensures stands { OnOk result (J.fault_count file.new ≡ J.fault_count file.old) }
    ensures fault { IfErr result (λ fault.
        IsReadFault fault (J.fault_count file.old) (J.fault_count file.new)) }
{
    let now = file.read(alloc)?;
    let text = jobs_after(alloc, before, now.as_slice(), queue)?;
    Ok(text)
}
