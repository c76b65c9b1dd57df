ghost use Rattle.std.specs.Prelude.{◌≡◌, ℕ, ◌<◌, ◌≤◌, List, Option, length, take};
ghost use Rattle.uug_transfer.specs.ReadOutcomes.{IsWithin};
ghost use Rattle.uug_transfer.specs.Received.{Received, also_received, received_of};
ghost use Rattle.uug_transfer.specs.WriteSilences.{also_wrote};
ghost use Rattle.uug_transfer.specs.Writing.{also_taken};

use crate::read_outcome::ReadOutcome;
use crate::status::SessionStatus;

/// The line of one end; the other end is elsewhere. Reads and writes wait no longer than the line's timeout. A line
/// that has failed is at its end: it accepts what is written, which is lost, and its reads return `Eof`, perhaps after
/// bytes that had already arrived.
pub trait EndLine {
    /// The results of its reads, in order, if the line exposes them.
    ghost received: { Self → Option (List Received) };

    /// The bytes that it has taken, in order, if the line exposes them.
    ghost taken: { Self → Option (List ℕ) };

    /// The number of bytes that each of its writes took, in order, if the line exposes them.
    ghost writes: { Self → Option (List ℕ) };

    /// Writes the first bytes of a piece, and returns how many. 0 is a silence: nothing could be written for as long as
    /// the line waits.
    fn write(&mut self, piece: &[u8]) -> usize
        requires some { 0 < length piece.now }
        ensures within { result ≤ length piece.now }
        ensures received { received self.new ≡ received self.old }
        ensures writes { writes self.new ≡ also_wrote result (writes self.old) }
        ensures taken { taken self.new ≡ also_taken (take result piece.now) (taken self.old) };

    /// Reads into the front of `buffer`. Returns `TimedOut` if nothing came for as long as the line waits, and `Eof` at
    /// the line's end.
    fn read(&mut self, buffer: &mut [u8]) -> ReadOutcome
        requires room { 0 < length buffer.old }
        ensures size { length buffer.new ≡ length buffer.old }
        ensures within { IsWithin (length buffer.old) result }
        ensures received { received self.new
            ≡ also_received (received_of result buffer.new) (received self.old) }
        ensures taken { taken self.new ≡ taken self.old }
        ensures writes { writes self.new ≡ writes self.old };

    /// Receives the status of the session. A line that only carries bytes ignores it.
    fn note(&mut self, _status: SessionStatus)
        ensures received { received self.new ≡ received self.old }
        ensures taken { taken self.new ≡ taken self.old }
        ensures writes { writes self.new ≡ writes self.old }
    {}

    /// Returns the whole seconds since the line was opened, by the system's clock, or 0 for a line without a clock.
    fn seconds(&self) -> u64;
}
