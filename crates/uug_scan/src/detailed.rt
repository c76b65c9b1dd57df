//! The detailed listing of a whole stream.
ghost use Rattle.std.specs.Prelude.{◌≡◌, ◌+◌, ◌<◌, ◌≤◌, ◌*◌, ◌++◌, OnOk, IfErr, IfSome, drop, length, string_bytes};
ghost use Rattle.uug_packet.specs.Waits.{Waits};
ghost use Rattle.uug_scan.specs.declared.scan.TheConstants.{PIECE_SIZE};
ghost use Rattle.uug_scan.specs.Scan.{IsScanFault};
ghost use Rattle.uug_stream.specs.Fault.{UnlessRead, UnlessWrite};
ghost use Rattle.uug_stream.specs.Streams.{CountsFault, ReadsAll};
ghost use Rattle.uug_scan.specs.Detailed.{AppendsDetailed};
ghost use Rattle.uug_scan.specs.Code.Noise.{AddsParts, HasPlaces, Holds, end_of};

use crate::noise::{Noise, noise_from};
use crate::parts::{add_parts, add_rest};
use crate::scan::PIECE_SIZE;
use std::alloc::{AllocError, Allocator};
use uug_stream::{Input, Output, ToolFault, write_all};

/// Drops the first `count` bytes.
fn drop_front<A: Allocator>(held: &mut Vec<u8, A>, count: usize)
    requires { count ≤ length held.old.items }
    ensures { held.new.items ≡ drop count held.old.items }
{
    held.drain(..count);
}

/// Appends the lines for the bytes that are held, with a piece after them. Those that wait are held then.
fn list_piece<A: Allocator>(
    held: &mut Vec<u8, A>,
    noise: &mut Noise,
    piece: &[u8],
    lines: &mut String<A>,
) -> Result<(), AllocError>
    requires places { HasPlaces noise.old (length held.old.items + length piece.now) }
    requires holds { Holds noise.old }
    ensures adds { OnOk result (AddsParts (held.old.items ++ piece.now) held.new.items noise.old
        noise.new (string_bytes lines.old) (string_bytes lines.new)) }
    ensures waits { OnOk result (Waits held.new.items) }
    ensures holds { OnOk result (Holds noise.new) }
    ensures ends { OnOk result (end_of noise.new + length held.new.items
        ≡ end_of noise.old + (length held.old.items + length piece.now)) }
{
    held.extend_from_slice(piece)?;
    let passed = add_parts(lines, noise, held)?;
    drop_front(held, passed);
    Ok(())
}

/// Reads the input to its end, and writes the detailed listing of its bytes: the lines of the plain listing, each with
/// the place of its bytes, and lines for handshake texts, noise and control packets with a wrong checksum. The bytes of
/// one read are listed before the next. No more is held than one read brings, a packet that isn't complete, and the
/// front of a text. The errors are those of `scan_stream`, with this limit of reads.
pub fn scan_detailed<A: Allocator, I: Input, O: Output>(
    alloc: A,
    input: &mut I,
    output: &mut O,
    limit: u32,
) -> Result<(), ToolFault>
    ensures whole { OnOk result (ReadsAll (I.to_come input.old) (I.to_come input.new)) }
    ensures listing { OnOk result (IfSome (I.to_come input.old)
        (λ bytes. AppendsDetailed bytes (O.written output.old) (O.written output.new))) }
    ensures within { OnOk result (IfSome (I.to_come input.old)
        (λ bytes. length bytes < limit * PIECE_SIZE)) }
    ensures input_calm { UnlessRead result
        (I.fault_count input.new ≡ I.fault_count input.old) }
    ensures output_calm { UnlessWrite result
        (O.fault_count output.new ≡ O.fault_count output.old) }
    ensures read { result ≡ Err ToolFault.Read
        → CountsFault (I.fault_count input.old) (I.fault_count input.new) }
    ensures write { result ≡ Err ToolFault.Write
        → CountsFault (O.fault_count output.old) (O.fault_count output.new) }
    ensures device { result ≡ Err ToolFault.Device
        → IfSome (I.to_come input.old) (λ bytes. limit ≤ length bytes) }
    ensures no_other { IfErr result IsScanFault }
{
    let mut held = Vec::new(&alloc);
    let mut lines = String::new(&alloc);
    let mut noise = noise_from(0);
    let mut piece = [0; PIECE_SIZE];
    for _ in 0..limit {
        let count = input.read(&mut piece)?;
        if count == 0 {
            add_rest(&mut lines, &mut noise, held.len())?;
            return write_all(output, lines.as_bytes());
        }
        list_piece(&mut held, &mut noise, &piece[..count], &mut lines)?;
        write_all(output, lines.as_bytes())?;
        lines.clear();
    }
    Err(ToolFault::Device)
}
