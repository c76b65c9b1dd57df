ghost use Rattle.std.specs.Prelude.{◌≡◌, ℕ, ◌<◌, ◌≤◌, List, Option, length, take, IfOk, OnOk, OnErr, IfErr};
ghost use Rattle.std.specs.Io.KnownBytes.{Keeps};
ghost use Rattle.uug_stream.specs.Fault.{StopsWriting, UnlessWrite};
ghost use Rattle.uug_stream.specs.Streams.{Appends, AppendsFront, CountsFault};

use crate::fault::ToolFault;
use thiserror::Error;

/// The reason why an output refused a write.
#[derive(Clone, Copy, Debug, PartialEq, Eq, Error)]
pub enum WriteFailed {
    /// The output's device failed.
    #[error("device fault")]
    Device,
    /// Memory ran out. An output that can fail both ways checks this first.
    #[error("out of memory")]
    Memory,
}

/// A sink of bytes.
pub trait Output {
    /// The bytes appended until now, if the output gives them.
    ghost written: { Self → Option (List ℕ) };

    /// The number of faults its device had.
    ghost fault_count: { Self → ℕ };

    /// Appends the first bytes of `piece`, at least one, and returns their number.
    fn write(&mut self, piece: &[u8]) -> Result<usize, WriteFailed>
        requires { 0 < length piece.now }
        ensures within { IfOk result (λ n. (0 < n) × (n ≤ length piece.now)) }
        ensures appends { IfOk result (λ n.
            Appends (take n piece.now) (written self.old) (written self.new)) }
        ensures refused { OnErr result (Keeps (written self.old) (written self.new)) }
        ensures calm { OnOk result (fault_count self.new ≡ fault_count self.old) }
        ensures fault { result ≡ Err WriteFailed.Device
            → CountsFault (fault_count self.old) (fault_count self.new) }
        // Memory is found before the device, which has no fault then.
        ensures memory { result ≡ Err WriteFailed.Memory
            → fault_count self.new ≡ fault_count self.old }
        ensures grows { fault_count self.old ≤ fault_count self.new };

    /// Returns the number of faults the device had, up to the greatest number that fits.
    fn faults(&self) -> u64
        ensures { result ≡ fault_count self.now };
}

/// Appends the whole piece, in as many writes as it takes. If one is refused, it has appended a front of the piece.
pub fn write_all<O: Output>(output: &mut O, piece: &[u8]) -> Result<(), ToolFault>
    ensures appends { OnOk result
        (Appends piece.now (O.written output.old) (O.written output.new)) }
    ensures begins { OnErr result
        (AppendsFront piece.now (O.written output.old) (O.written output.new)) }
    ensures calm { UnlessWrite result (O.fault_count output.new ≡ O.fault_count output.old) }
    ensures fault { IfErr result
        (StopsWriting (O.fault_count output.old) (O.fault_count output.new)) }
    ensures grows { O.fault_count output.old ≤ O.fault_count output.new }
{
    let mut rest = piece;
    while !rest.is_empty() {
        let count = output.write(rest)?;
        rest = &rest[count..];
    }
    Ok(())
}
