ghost use Rattle.std.specs.Prelude.{◌≡◌, ◌++◌, ◌<◌, ◌≤◌, List, Option, length, IfErr, OnErr, OnOk};
ghost use Rattle.uug_transfer.specs.Hosts.{FailsToNumber, FailsToSettle, also_at, having_numbered, having_read, having_settled, having_written};
ghost use Rattle.uug_transfer.specs.Moments.{HostNow};
ghost use Rattle.uug_transfer.specs.ReadOutcomes.{IsWithin};
ghost use Rattle.uug_transfer.specs.Received.{received_of};

use crate::read_outcome::ReadOutcome;
use crate::status::SessionStatus;
use std::alloc::Allocator;
use uug_session::Job;
use uug_store::FolderFailed;
use uug_stream::ToolFault;

/// All that a session touches outside of its end: the line, and the disk on which its results are kept.
pub trait Host {
    /// Its line and its disk, as far as they expose their states.
    ghost now: { Self → HostNow };

    /// The same just after each write to the line, in order, if the host exposes them.
    ghost after_writes: { Self → Option (List HostNow) };

    /// Writes the first bytes of a piece to the line, as `EndLine::write` does.
    fn write(&mut self, piece: &[u8]) -> usize
        requires some { 0 < length piece.now }
        ensures within { result ≤ length piece.now }
        ensures done { now self.new ≡ having_written result piece.now (now self.old) }
        ensures writes { after_writes self.new ≡ also_at (now self.new) (after_writes self.old) };

    /// Reads from the line into the front of `buffer`, as `EndLine::read` does.
    fn read(&mut self, buffer: &mut [u8]) -> ReadOutcome
        requires room { 0 < length buffer.old }
        ensures size { length buffer.new ≡ length buffer.old }
        ensures within { IsWithin (length buffer.old) result }
        ensures done { now self.new ≡ having_read (received_of result buffer.new) (now self.old) }
        ensures writes { after_writes self.new ≡ after_writes self.old };

    /// Removes the jobs that are over from their store, as `JobStore::settle` does.
    fn settle<B: Allocator + Copy>(
        &mut self,
        alloc: B,
        struck: &[Job],
        failed: &[Job],
        notice: &[u8],
    ) -> Result<(), ToolFault>
        ensures done { OnOk result (now self.new
            ≡ having_settled (struck.now ++ failed.now) notice.now (now self.old)) }
        ensures err { IfErr result (λ fault. FailsToSettle fault
            (struck.now ++ failed.now) notice.now (now self.old) (now self.new)) }
        ensures writes { after_writes self.new ≡ after_writes self.old };

    /// Writes the number of the end's conversations to its file.
    fn keep_number(&mut self, number: u32) -> Result<(), FolderFailed>
        ensures done { OnOk result (now self.new ≡ having_numbered number (now self.old)) }
        ensures err { OnErr result (FailsToNumber number (now self.old) (now self.new)) }
        ensures writes { after_writes self.new ≡ after_writes self.old };

    /// Passes the status of the session to the line.
    fn note(&mut self, status: SessionStatus)
        ensures done { now self.new ≡ now self.old }
        ensures writes { after_writes self.new ≡ after_writes self.old };

    /// Returns the whole seconds since the line was opened, or 0 for a line without a clock.
    fn seconds(&self) -> u64;
}
