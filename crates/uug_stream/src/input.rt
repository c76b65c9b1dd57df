ghost use Rattle.std.specs.Prelude.{◌≡◌, ℕ, ◌<◌, ◌≤◌, List, Option, length, IfOk, OnOk, OnErr};
ghost use Rattle.std.specs.Io.KnownBytes.{Keeps};
ghost use Rattle.uug_stream.specs.Streams.{Moves, CountsFault};

use thiserror::Error;

/// The error that an input's device refused a read.
#[derive(Clone, Copy, Debug, PartialEq, Eq, Error)]
#[error("device fault")]
pub struct ReadFailed;

/// A source of bytes.
pub trait Input {
    /// The bytes still to come, if the input gives them.
    ghost to_come: { Self → Option (List ℕ) };

    /// The number of faults its device had.
    ghost fault_count: { Self → ℕ };

    /// Moves bytes to the front of `buffer`, and returns their number. It is 0 at the end of the input.
    fn read(&mut self, buffer: &mut [u8]) -> Result<usize, ReadFailed>
        requires { 0 < length buffer.old }
        ensures within { IfOk result (λ n. n ≤ length buffer.old) }
        ensures moves { IfOk result (λ n.
            Moves n buffer.new (to_come self.old) (to_come self.new)) }
        ensures refused { OnErr result (Keeps (to_come self.old) (to_come self.new)) }
        ensures calm { OnOk result (fault_count self.new ≡ fault_count self.old) }
        ensures fault { OnErr result (CountsFault (fault_count self.old) (fault_count self.new)) }
        ensures grows { fault_count self.old ≤ fault_count self.new };

    /// Returns the number of faults the device had, up to the greatest number that fits.
    fn faults(&self) -> u64
        ensures { result ≡ fault_count self.now };
}
