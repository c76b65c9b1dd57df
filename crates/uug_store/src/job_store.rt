ghost use Rattle.std.specs.Prelude.{◌≡◌, ℕ, ◌++◌, List, Option, IfErr, OnErr, OnOk};
ghost use Rattle.uug_conversation.specs.declared.job.Job.{Job as JobValue};
ghost use Rattle.uug_store.specs.Notices.{also_told};
ghost use Rattle.uug_store.specs.OpenJobs.{IsSettledOrNot, settled_in};
ghost use Rattle.uug_store.specs.TextFiles.{IsReadFault};

use std::alloc::Allocator;
use uug_session::Job;
use uug_stream::ToolFault;

/// The store of an end's jobs between its sessions. A job is removed as soon as it is over, so that a program that is
/// stopped leaves exactly the jobs that are not over.
pub trait JobStore {
    /// The jobs in it, if it exposes them.
    ghost open_jobs: { Self → Option (List JobValue) };

    /// The notices of failed jobs, if it exposes them.
    ghost told: { Self → Option (List ℕ) };

    /// The number of faults of its device.
    ghost fault_count: { Self → ℕ };

    /// Removes these jobs, each once: the struck ones, which are done, and the failed ones, which were given up. The
    /// notices of the failed ones are on disk before that. All else stays. After a fault the store is as before, or
    /// without these jobs.
    fn settle<B: Allocator + Copy>(
        &mut self,
        alloc: B,
        struck: &[Job],
        failed: &[Job],
        notice: &[u8],
    ) -> Result<(), ToolFault>
        ensures ok { OnOk result (open_jobs self.new
            ≡ settled_in (struck.now ++ failed.now) (open_jobs self.old)) }
        ensures told { OnOk result (told self.new ≡ also_told notice.now (told self.old)) }
        // No job is removed before all notices were appended.
        ensures err { OnErr result (IsSettledOrNot (struck.now ++ failed.now) notice.now
            (open_jobs self.old) (open_jobs self.new) (told self.old) (told self.new)) }
        ensures calm { OnOk result (fault_count self.new ≡ fault_count self.old) }
        ensures fault { IfErr result (λ fault.
            IsReadFault fault (fault_count self.old) (fault_count self.new)) };
}
