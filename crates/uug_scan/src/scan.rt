//! The listing of a stream of bytes.
ghost use Rattle.std.specs.Prelude.{◌≡◌, ◌<◌, ◌≤◌, ◌*◌, ◌++◌, OnOk, IfErr, IfSome, length, string_bytes};
ghost use Rattle.uug_packet.specs.Waits.{Waits};
ghost use Rattle.uug_scan.specs.Scan.{AddsLines, AppendsListing, IsScanFault};
ghost use Rattle.uug_stream.specs.Fault.{UnlessRead, UnlessWrite};
ghost use Rattle.uug_stream.specs.Streams.{CountsFault, ReadsAll};

use crate::listing::{add_line, add_rest_line};
use std::alloc::{AllocError, Allocator};
use uug_reader::{READER_SIZE, Reader};
use uug_stream::{Input, Output, ToolFault, write_all};

/// The most reads of an input, including the one that finds its end.
pub const READ_LIMIT: u32 = 1_000_000_000;

/// The most bytes of one read.
pub const PIECE_SIZE: usize = 4096;

/// Appends the line of each item that the reader finds, up to where its bytes wait.
fn list_items<A: Allocator>(
    reader: &mut Reader<&A>,
    lines: &mut String<&A>,
) -> Result<(), AllocError>
    ensures waits { OnOk result (Waits reader.new.bytes) }
    ensures room { OnOk result (length reader.new.bytes < READER_SIZE) }
    ensures lists { OnOk result (AddsLines reader.old.bytes reader.new.bytes
        (string_bytes lines.old) (string_bytes lines.new)) }
{
    while let Some(found) = reader.find() {
        add_line(lines, &found)?;
        reader.drop_found();
    }
    Ok(())
}

/// Gives a whole piece to the reader, and appends the lines of what it finds then.
fn list_piece<A: Allocator>(
    reader: &mut Reader<&A>,
    piece: &[u8],
    lines: &mut String<&A>,
) -> Result<(), AllocError>
    requires waits { Waits reader.old.bytes }
    requires room { length reader.old.bytes < READER_SIZE }
    ensures waits { OnOk result (Waits reader.new.bytes) }
    ensures room { OnOk result (length reader.new.bytes < READER_SIZE) }
    ensures lists { OnOk result (AddsLines (reader.old.bytes ++ piece.now) reader.new.bytes
        (string_bytes lines.old) (string_bytes lines.new)) }
{
    let mut rest = piece;
    while !rest.is_empty() {
        let taken = reader.push(rest);
        rest = &rest[taken..];
        list_items(reader, lines)?;
    }
    Ok(())
}

/// Does the same as `scan_stream`, with this limit of reads.
pub fn scan_within<A: Allocator, I: Input, O: Output>(
    alloc: A,
    input: &mut I,
    output: &mut O,
    limit: u32,
) -> Result<(), ToolFault>
    ensures whole { OnOk result (ReadsAll (I.to_come input.old) (I.to_come input.new)) }
    ensures listing { OnOk result (IfSome (I.to_come input.old)
        (λ bytes. AppendsListing bytes (O.written output.old) (O.written output.new))) }
    ensures within { OnOk result (IfSome (I.to_come input.old)
        (λ bytes. length bytes < limit * PIECE_SIZE)) }
    ensures input_calm { UnlessRead result
        (I.fault_count input.new ≡ I.fault_count input.old) }
    ensures output_calm { UnlessWrite result
        (O.fault_count output.new ≡ O.fault_count output.old) }
    ensures read { result ≡ Err ToolFault.Read
        → CountsFault (I.fault_count input.old) (I.fault_count input.new) }
    ensures write { result ≡ Err ToolFault.Write
        → CountsFault (O.fault_count output.old) (O.fault_count output.new) }
    ensures device { result ≡ Err ToolFault.Device
        → IfSome (I.to_come input.old) (λ bytes. limit ≤ length bytes) }
    ensures no_other { IfErr result IsScanFault }
{
    let mut reader = Reader::new(&alloc)?;
    let mut lines = String::new(&alloc);
    let mut piece = [0; PIECE_SIZE];
    for _ in 0..limit {
        let count = input.read(&mut piece)?;
        if count == 0 {
            add_rest_line(&mut lines, reader.waiting())?;
            return write_all(output, lines.as_bytes());
        }
        list_piece(&mut reader, &piece[..count], &mut lines)?;
        write_all(output, lines.as_bytes())?;
        lines.clear();
    }
    Err(ToolFault::Device)
}

/// Reads the input to its end, and writes the listing of its bytes: a line for each packet, and one with the number of
/// bytes that wait at the end. The bytes of one read are listed before the next. Returns the first error; how much was
/// written before it is left open.
pub fn scan_stream<A: Allocator, I: Input, O: Output>(
    alloc: A,
    input: &mut I,
    output: &mut O,
) -> Result<(), ToolFault>
    ensures whole { OnOk result (ReadsAll (I.to_come input.old) (I.to_come input.new)) }
    ensures listing { OnOk result (IfSome (I.to_come input.old)
        (λ bytes. AppendsListing bytes (O.written output.old) (O.written output.new))) }
    ensures within { OnOk result (IfSome (I.to_come input.old)
        (λ bytes. length bytes < READ_LIMIT * PIECE_SIZE)) }
    ensures input_calm { UnlessRead result
        (I.fault_count input.new ≡ I.fault_count input.old) }
    ensures output_calm { UnlessWrite result
        (O.fault_count output.new ≡ O.fault_count output.old) }
    ensures read { result ≡ Err ToolFault.Read
        → CountsFault (I.fault_count input.old) (I.fault_count input.new) }
    ensures write { result ≡ Err ToolFault.Write
        → CountsFault (O.fault_count output.old) (O.fault_count output.new) }
    ensures device { result ≡ Err ToolFault.Device
        → IfSome (I.to_come input.old) (λ bytes. READ_LIMIT ≤ length bytes) }
    ensures no_other { IfErr result IsScanFault }
{
    scan_within(alloc, input, output, READ_LIMIT)
}
