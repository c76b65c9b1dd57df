//! Removes a job from a store.
ghost use Rattle.std.specs.Prelude.{◌≡◌, IfErr, IfOk, OnErr, OnOk};
ghost use Rattle.uug_store.specs.TextFiles.{IsReadFault};
ghost use Rattle.uug_io_pending.specs.Cancelled.{IsLeftOrNot, left_of, named_job};

use crate::named_job::named_job;
use std::alloc::Allocator;
use uug_session::Job;
use uug_store::JobStore;
use uug_stream::ToolFault;

/// Removes the job that a word names from a store, if it is one of these, and returns it. All others stay, in their
/// order. After a fault the store is as before, or without that job.
pub(crate) fn cancel_in<J: JobStore, A: Allocator + Copy>(
    alloc: A,
    store: &mut J,
    jobs: &[Job],
    word: &str,
) -> Result<Option<Job>, ToolFault>
    ensures found { IfOk result (λ found. found ≡ named_job word.now jobs.now) }
    ensures ok { OnOk result (J.open_jobs store.new
        ≡ left_of (named_job word.now jobs.now) (J.open_jobs store.old)) }
    ensures err { OnErr result (IsLeftOrNot (named_job word.now jobs.now)
        (J.open_jobs store.old) (J.open_jobs store.new)) }
    // The job is not listed as failed.
    ensures untold { J.told store.new ≡ J.told store.old }
    ensures calm { OnOk result (J.fault_count store.new ≡ J.fault_count store.old) }
    ensures fault { IfErr result (λ fault.
        IsReadFault fault (J.fault_count store.old) (J.fault_count store.new)) }
{
    let named = named_job(alloc, jobs, word)?;
    take_out(alloc, store, &named)?;
    Ok(named)
}

/// Removes this job from a store, if there is one.
#[tactic(auto, using(crate::proofs::CancelLemmas::is_left))]
fn take_out<J: JobStore, A: Allocator + Copy>(
    alloc: A,
    store: &mut J,
    named: &Option<Job>,
) -> Result<(), ToolFault>
    ensures ok { OnOk result
        (J.open_jobs store.new ≡ left_of named.now (J.open_jobs store.old)) }
    ensures err { OnErr result
        (IsLeftOrNot named.now (J.open_jobs store.old) (J.open_jobs store.new)) }
    ensures untold { J.told store.new ≡ J.told store.old }
    ensures calm { OnOk result (J.fault_count store.new ≡ J.fault_count store.old) }
    ensures fault { IfErr result (λ fault.
        IsReadFault fault (J.fault_count store.old) (J.fault_count store.new)) }
{
    match named {
        Some(job) => store.settle(alloc, &[*job], &[], b""),
        None => Ok(()),
    }
}
