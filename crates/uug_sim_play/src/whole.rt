//! Reads the whole of an input.
ghost use Rattle.std.specs.Prelude.{◌≡◌, ◌<◌, ◌≤◌, ◌*◌, Err, IfErr, IfOk, IfSome, length};
ghost use Rattle.uug_sim_play.specs.Whole.{BringsAll, IsReadingFault};
ghost use Rattle.uug_stream.specs.Fault.{UnlessRead};
ghost use Rattle.uug_stream.specs.Streams.{CountsFault};
ghost use Rattle.uug_stream.specs.declared.fault.ToolFault.TheVariants.{Device as device, Read as read};
ghost use Rattle.uug_scan.specs.declared.scan.TheConstants.{PIECE_SIZE};

use std::alloc::Allocator;
use uug_scan::PIECE_SIZE;
use uug_stream::{Input, ToolFault};

/// Reads an input to its end, in at most `limit` reads, including the one that finds the end. An input that takes more
/// is a device's fault.
pub fn read_whole<A: Allocator, I: Input>(
    alloc: A,
    input: &mut I,
    limit: u32,
) -> Result<Vec<u8, A>, ToolFault>
    ensures whole { IfOk result (λ bytes.
        BringsAll bytes.items (I.to_come input.old) (I.to_come input.new)) }
    ensures within { IfOk result (λ bytes. length bytes.items < limit * PIECE_SIZE) }
    ensures calm { UnlessRead result (I.fault_count input.new ≡ I.fault_count input.old) }
    ensures read { result ≡ Err read
        → CountsFault (I.fault_count input.old) (I.fault_count input.new) }
    ensures device { result ≡ Err device
        → IfSome (I.to_come input.old) (λ bytes. limit ≤ length bytes) }
    ensures no_other { IfErr result IsReadingFault }
    ensures grows { I.fault_count input.old ≤ I.fault_count input.new }
{
    let mut bytes = Vec::new(alloc);
    let mut piece = [0; PIECE_SIZE];
    for _ in 0..limit {
        let count = input.read(&mut piece)?;
        if count == 0 {
            return Ok(bytes);
        }
        bytes.extend_from_slice(&piece[..count])?;
    }
    Err(ToolFault::Device)
}
