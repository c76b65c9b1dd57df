//! Stores an end's results on its disk.
ghost use Rattle.std.specs.Prelude.{◌≡◌, ◌≢◌, ◌≤◌, drop, length, IfErr, IfOk, OnErr, OnOk};
ghost use Rattle.uug_session.specs.Engine.{HasFailed};
ghost use Rattle.uug_store.specs.NumberText.{HoldsNumber, IsNumberKept, holding_number};
ghost use Rattle.uug_store.specs.Notices.{also_told, notices};
ghost use Rattle.uug_store.specs.OpenJobs.{IsSettledOrNot, settled_in};
ghost use Rattle.uug_session.specs.Node.{node_of};
ghost use Rattle.uug_transfer.specs.Ends.{jobs_of_end, number_of_end};
ghost use Rattle.uug_transfer.specs.Hosts.{ChangesOnlyJobs, ChangesOnlyNumber, KeepsLine};
ghost use Rattle.uug_transfer.specs.SessionFaults.{UnlessJobs, UnlessNumber, UnlessUnsettled};
ghost use Rattle.uug_transfer.specs.Settling.{AreSettled, IsSomeNumber, kept_then, unsettled};

use crate::host::Host;
use crate::session_fault::SessionFault;
use std::alloc::Allocator;
use uug_session::{Node, Queue, Spool};
use uug_store::write_notices;
use uug_stream::ToolFault;

/// The part of an end's results that is on its disk.
#[derive(Clone, Copy)]
pub(crate) struct Settled {
    /// The number of struck jobs, from the first, that are already removed from their store.
    pub(crate) struck: usize,
    /// The number of failed jobs, from the first, that are already removed from their store.
    pub(crate) failed: usize,
    /// The number in its file, if the end keeps one.
    pub(crate) number: Option<u32>,
}

impl Settled {
    /// Starts a session, with no job to remove from the store yet. Writes the end's number, if it keeps one.
    pub(crate) fn begin<H: Host, A: Allocator>(
        queue: &Queue<A>,
        number: Option<u32>,
        host: &mut H,
    ) -> Result<Self, SessionFault>
        ensures jobs { IfOk result (λ settled. AreSettled settled queue.now) }
        ensures number { IfOk result (λ settled. settled.number ≡ number) }
        ensures ok { OnOk result ((H.now host.new).disk.number
            ≡ holding_number number (H.now host.old).disk.number) }
        ensures err { OnErr result (IsNumberKept number
            (H.now host.old).disk.number (H.now host.new).disk.number) }
        ensures calm { OnOk result ((H.now host.new).disk.number_faults
            ≡ (H.now host.old).disk.number_faults) }
        ensures fault { OnErr result
            (HasFailed u64.MAX (H.now host.old).disk.number_faults (H.now host.new).disk.number_faults) }
        ensures number_fault { IfErr result (λ fault. fault ≡ SessionFault.Number) }
        ensures only { ChangesOnlyNumber (H.now host.old) (H.now host.new) }
        ensures writes { H.after_writes host.new ≡ H.after_writes host.old }
    {
        if let Some(number) = number {
            write_number(number, host)?;
        }
        Ok(Settled {
            struck: queue.struck().len(),
            failed: queue.failed().len(),
            number,
        })
    }

    /// Removes the jobs that were struck or have failed since the last call from their store. Each failed one gets a
    /// notice. Writes the end's number, if it keeps one and the number has changed.
    pub(crate) fn put_on_disk<S: Spool, H: Host, A: Allocator + Copy>(
        &mut self,
        alloc: A,
        node: &Node<S, A>,
        spool: &S,
        host: &mut H,
    ) -> Result<(), SessionFault>
        requires struck { self.old.struck ≤ length (jobs_of_end (node_of node.now)).struck }
        requires failed { self.old.failed ≤ length (jobs_of_end (node_of node.now)).failed }
        requires holds { HoldsNumber self.old.number (H.now host.old).disk.number }
        ensures ok { UnlessUnsettled result ((H.now host.new).disk.jobs
            ≡ settled_in (unsettled self.old (jobs_of_end (node_of node.now)))
            (H.now host.old).disk.jobs) }
        ensures told { UnlessUnsettled result ((H.now host.new).disk.told ≡ also_told
            (notices (S.holdings spool.now)
            (drop self.old.failed (jobs_of_end (node_of node.now)).failed))
            (H.now host.old).disk.told) }
        ensures either { IsSettledOrNot (unsettled self.old (jobs_of_end (node_of node.now)))
            (notices (S.holdings spool.now)
            (drop self.old.failed (jobs_of_end (node_of node.now)).failed))
            (H.now host.old).disk.jobs (H.now host.new).disk.jobs
            (H.now host.old).disk.told (H.now host.new).disk.told }
        ensures settled { OnOk result (AreSettled self.new (jobs_of_end (node_of node.now))) }
        ensures kept { OnOk result (self.new.number
            ≡ kept_then self.old.number (number_of_end (node_of node.now))) }
        ensures file { OnOk result ((H.now host.new).disk.number
            ≡ holding_number self.new.number (H.now host.old).disk.number) }
        ensures whole { IsSomeNumber (H.now host.old).disk.number (H.now host.new).disk.number }
        ensures jobs_calm { UnlessJobs result ((H.now host.new).disk.job_faults
            ≡ (H.now host.old).disk.job_faults) }
        ensures jobs_fault { result ≡ Err SessionFault.Jobs
            → HasFailed u64.MAX (H.now host.old).disk.job_faults (H.now host.new).disk.job_faults }
        ensures number_calm { UnlessNumber result
            ((H.now host.new).disk.number_faults ≡ (H.now host.old).disk.number_faults) }
        ensures number_fault { result ≡ Err SessionFault.Number
            → HasFailed u64.MAX (H.now host.old).disk.number_faults (H.now host.new).disk.number_faults }
        ensures line { KeepsLine (H.now host.old) (H.now host.new) }
        ensures writes { H.after_writes host.new ≡ H.after_writes host.old }
    {
        self.settle_jobs(alloc, node.queue(), spool, host)?;
        self.keep_number(node.number(), host)
    }

    /// Removes the jobs that were struck or have failed since the last call from their store. Each failed one gets a
    /// notice.
    fn settle_jobs<S: Spool, H: Host, A: Allocator + Copy, B: Allocator>(
        &mut self,
        alloc: A,
        queue: &Queue<B>,
        spool: &S,
        host: &mut H,
    ) -> Result<(), SessionFault>
        requires struck { self.old.struck ≤ length queue.now.struck }
        requires failed { self.old.failed ≤ length queue.now.failed }
        ensures ok { OnOk result ((H.now host.new).disk.jobs
            ≡ settled_in (unsettled self.old queue.now) (H.now host.old).disk.jobs) }
        ensures told { OnOk result ((H.now host.new).disk.told
            ≡ also_told (notices (S.holdings spool.now) (drop self.old.failed queue.now.failed))
            (H.now host.old).disk.told) }
        ensures err { OnErr result (IsSettledOrNot (unsettled self.old queue.now)
            (notices (S.holdings spool.now) (drop self.old.failed queue.now.failed))
            (H.now host.old).disk.jobs (H.now host.new).disk.jobs
            (H.now host.old).disk.told (H.now host.new).disk.told) }
        ensures settled { OnOk result (AreSettled self.new queue.now) }
        ensures number { self.new.number ≡ self.old.number }
        ensures calm { UnlessJobs result ((H.now host.new).disk.job_faults
            ≡ (H.now host.old).disk.job_faults) }
        ensures fault { result ≡ Err SessionFault.Jobs
            → HasFailed u64.MAX (H.now host.old).disk.job_faults (H.now host.new).disk.job_faults }
        ensures no_number { result ≢ Err SessionFault.Number }
        ensures only { ChangesOnlyJobs (H.now host.old) (H.now host.new) }
        ensures writes { H.after_writes host.new ≡ H.after_writes host.old }
    {
        let struck_len = queue.struck().len();
        let failed_len = queue.failed().len();
        if self.struck == struck_len && self.failed == failed_len {
            return Ok(());
        }
        let struck = &queue.struck()[self.struck..];
        let failed = &queue.failed()[self.failed..];
        let notices = write_notices(alloc, spool, failed)?;
        match host.settle(alloc, struck, failed, notices.as_bytes()) {
            Ok(()) => (),
            Err(ToolFault::Memory) => return Err(SessionFault::Memory),
            Err(_) => return Err(SessionFault::Jobs),
        }
        self.struck = struck_len;
        self.failed = failed_len;
        Ok(())
    }

    /// Writes an end's number, if it keeps one and the number has changed.
    fn keep_number<H: Host>(
        &mut self,
        number: Option<u32>,
        host: &mut H,
    ) -> Result<(), SessionFault>
        requires holds { HoldsNumber self.old.number (H.now host.old).disk.number }
        ensures kept { OnOk result (self.new.number ≡ kept_then self.old.number number) }
        ensures ok { OnOk result ((H.now host.new).disk.number
            ≡ holding_number (kept_then self.old.number number) (H.now host.old).disk.number) }
        ensures err { OnErr result (IsNumberKept (kept_then self.old.number number)
            (H.now host.old).disk.number (H.now host.new).disk.number) }
        ensures struck { self.new.struck ≡ self.old.struck }
        ensures failed { self.new.failed ≡ self.old.failed }
        ensures calm { OnOk result ((H.now host.new).disk.number_faults
            ≡ (H.now host.old).disk.number_faults) }
        ensures fault { OnErr result
            (HasFailed u64.MAX (H.now host.old).disk.number_faults (H.now host.new).disk.number_faults) }
        ensures number_fault { IfErr result (λ fault. fault ≡ SessionFault.Number) }
        ensures only { ChangesOnlyNumber (H.now host.old) (H.now host.new) }
        ensures writes { H.after_writes host.new ≡ H.after_writes host.old }
    {
        let (Some(kept), Some(number)) = (self.number, number) else {
            return Ok(());
        };
        if kept != number {
            write_number(number, host)?;
            self.number = Some(number);
        }
        Ok(())
    }
}

/// Writes this number to its file.
fn write_number<H: Host>(number: u32, host: &mut H) -> Result<(), SessionFault>
    ensures ok { OnOk result ((H.now host.new).disk.number
        ≡ holding_number (Some number) (H.now host.old).disk.number) }
    ensures err { OnErr result (IsNumberKept (Some number)
        (H.now host.old).disk.number (H.now host.new).disk.number) }
    ensures calm { OnOk result ((H.now host.new).disk.number_faults ≡ (H.now host.old).disk.number_faults) }
    ensures fault { OnErr result
        (HasFailed u64.MAX (H.now host.old).disk.number_faults (H.now host.new).disk.number_faults) }
    ensures number_fault { IfErr result (λ fault. fault ≡ SessionFault.Number) }
    ensures only { ChangesOnlyNumber (H.now host.old) (H.now host.new) }
    ensures writes { H.after_writes host.new ≡ H.after_writes host.old }
{
    match host.keep_number(number) {
        Ok(()) => Ok(()),
        Err(_) => Err(SessionFault::Number),
    }
}
