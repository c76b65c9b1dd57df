ghost use Rattle.std.specs.Prelude.{◌≡◌, ◌<◌, ◌≤◌, length, IfOk};
ghost use Rattle.uug_transfer.specs.ReadOutcomes.{IsWithin};

use std::time::Duration;
use uug_error::Cause;
use uug_transfer::ReadOutcome;

/// Carries the bytes of a line over a socket, a terminal device, or the standard streams.
pub trait Port {
    /// Writes the first bytes of `piece`, and returns how many, or why the write failed. 0 is a stall: the write would
    /// block for longer than the port waits.
    fn write(&mut self, piece: &[u8]) -> Result<usize, Cause>
        requires some { 0 < length piece.now }
        ensures within { IfOk result (λ n. n ≤ length piece.now) };

    /// Reads into the front of `buffer`. Returns `TimedOut` if no byte arrives for as long as the port waits, `Eof` at
    /// the end of the stream, or why the read failed.
    fn read(&mut self, buffer: &mut [u8]) -> Result<ReadOutcome, Cause>
        requires room { 0 < length buffer.old }
        ensures size { length buffer.new ≡ length buffer.old }
        ensures within { IfOk result (λ outcome. IsWithin (length buffer.old) outcome) };

    /// Sets how long its calls wait from now on. If the system refuses, they wait as before.
    fn set_time(&mut self, time: Duration);
}
