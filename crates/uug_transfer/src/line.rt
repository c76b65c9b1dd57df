ghost use Rattle.std.specs.Prelude.{◌≡◌, ℕ, ◌+◌, ◌<◌, ◌≤◌, length, IfOk, OnErr, OnOk};
ghost use Rattle.uug_conversation.specs.Turns.{other};
ghost use Rattle.uug_conversation.specs.declared.side.Side.{Side};
ghost use Rattle.uug_session.specs.Engine.{HasFailed};

use crate::status::SessionStatus;
use thiserror::Error;
use uug_session::Side;

/// The maximum number of bytes on their way to an end.
pub const UNREAD_MAX: usize = 4096;

/// The line failed, or ended.
#[derive(Clone, Copy, Debug, PartialEq, Eq, Error)]
#[error("device fault")]
pub struct LineFailed;

/// A line between two ends, in both directions. It counts the bytes that were written for an end and not yet read
/// there. That many can be read, and up to `UNREAD_MAX` can be written, without waiting.
pub trait Line {
    /// The number of bytes on their way to the end on a side.
    ghost unread: { Self → Side → ℕ };

    /// The number of times that the line has failed.
    ghost fault_count: { Self → ℕ };

    /// Writes the first bytes of a piece, at least one, to the end on this side, and returns how many.
    fn write(&mut self, to: Side, piece: &[u8]) -> Result<usize, LineFailed>
        requires some { 0 < length piece.now }
        requires room { unread self.old to + length piece.now ≤ UNREAD_MAX }
        ensures within { IfOk result (λ n. (0 < n) × (n ≤ length piece.now)) }
        ensures count { IfOk result (λ n. unread self.new to ≡ unread self.old to + n) }
        ensures other { OnOk result (unread self.new (other to) ≡ unread self.old (other to)) }
        ensures calm { OnOk result (fault_count self.new ≡ fault_count self.old) }
        ensures fault { OnErr result
            (HasFailed u64.MAX (fault_count self.old) (fault_count self.new)) }
        ensures grows { fault_count self.old ≤ fault_count self.new };

    /// Reads bytes that are on their way to the end on this side into the front of `buffer`, at least one, and returns
    /// how many.
    fn read(&mut self, at: Side, buffer: &mut [u8]) -> Result<usize, LineFailed>
        requires some { 0 < unread self.old at }
        requires room { 0 < length buffer.old }
        ensures within { IfOk result (λ n. (0 < n) × (n ≤ length buffer.old)) }
        ensures count { IfOk result (λ n. unread self.new at + n ≡ unread self.old at) }
        ensures other { OnOk result (unread self.new (other at) ≡ unread self.old (other at)) }
        ensures calm { OnOk result (fault_count self.new ≡ fault_count self.old) }
        ensures fault { OnErr result
            (HasFailed u64.MAX (fault_count self.old) (fault_count self.new)) }
        ensures grows { fault_count self.old ≤ fault_count self.new };

    /// Receives the status of the caller's session. A line that only carries bytes ignores it.
    fn note(&mut self, _status: SessionStatus)
        ensures unread { (side : Side) → unread self.new side ≡ unread self.old side }
        ensures calm { fault_count self.new ≡ fault_count self.old }
    {}

    /// Returns the number of bytes on their way to the end on this side.
    fn unread(&self, side: Side) -> usize
        ensures { result ≡ unread self.now side };

    /// Returns the number of times that the line has failed. The count saturates.
    fn faults(&self) -> u64
        ensures { result ≡ fault_count self.now };
}
