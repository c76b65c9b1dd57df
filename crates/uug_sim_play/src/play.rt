ghost use Rattle.std.specs.Prelude.{◌≡◌, ℕ, ◌<◌, ◌≤◌, ◌*◌, IfErr, IfOk, IfSome, OnOk, length};
ghost use Rattle.std.specs.Io.KnownBytes.{Keeps};
ghost use Rattle.uug_sim_script.specs.IsScript.{IsFirstBad};
ghost use Rattle.uug_stream.specs.Fault.{UnlessRead, UnlessWrite};
ghost use Rattle.uug_stream.specs.Streams.{CountsFault, ReadsAll};
ghost use Rattle.uug_sim_play.specs.Played.{AppendsReport, BeforeReport, BeginsReport, IsPlayFault, OnceRead, RunsOut};

use crate::played::play_script;
use crate::whole::read_whole;
use std::alloc::Allocator;
use uug_scan::{PIECE_SIZE, READ_LIMIT};
use uug_stream::{Input, Output, ToolFault, write_all};

/// Does the same as `play_stream`, with this limit of reads.
pub fn play_within<A: Allocator + Copy, I: Input, O: Output>(
    alloc: A,
    input: &mut I,
    output: &mut O,
    limit: u32,
) -> Result<u8, ToolFault>
    ensures whole { OnceRead result (ReadsAll (I.to_come input.old) (I.to_come input.new)) }
    ensures report { IfOk result (λ status. IfSome (I.to_come input.old)
        (λ script. AppendsReport script status (O.written output.old) (O.written output.new))) }
    ensures within { OnOk result (IfSome (I.to_come input.old)
        (λ script. length script < limit * PIECE_SIZE)) }
    ensures script { (line : ℕ) → result ≡ Err (ToolFault.Script line)
        → IfSome (I.to_come input.old) (λ script. IsFirstBad script line) }
    ensures nothing_written { BeforeReport result
        (Keeps (O.written output.old) (O.written output.new)) }
    ensures begun { result ≡ Err ToolFault.Write → IfSome (I.to_come input.old)
        (λ script. BeginsReport script (O.written output.old) (O.written output.new)) }
    ensures memory { result ≡ Err ToolFault.Memory → RunsOut (I.to_come input.old)
        (I.to_come input.new) (O.written output.old) (O.written output.new) }
    ensures input_calm { UnlessRead result
        (I.fault_count input.new ≡ I.fault_count input.old) }
    ensures output_calm { UnlessWrite result
        (O.fault_count output.new ≡ O.fault_count output.old) }
    ensures read { result ≡ Err ToolFault.Read
        → CountsFault (I.fault_count input.old) (I.fault_count input.new) }
    ensures write { result ≡ Err ToolFault.Write
        → CountsFault (O.fault_count output.old) (O.fault_count output.new) }
    ensures device { result ≡ Err ToolFault.Device
        → IfSome (I.to_come input.old) (λ script. limit ≤ length script) }
    ensures no_other { IfErr result IsPlayFault }
{
    let script = read_whole(alloc, input, limit)?;
    let played = play_script(alloc, script.as_slice())?;
    write_all(output, played.text.as_bytes())?;
    Ok(played.status)
}

/// Reads the input to its end as a script, plays it, and writes the report. Returns the program's status: 5 if the line
/// fooled an end, otherwise 0 if the last session is done at both ends, and 1 if it is not. Nothing is written before
/// the script was played. Returns the first error. If a write failed, or memory ran out in writing, a front part of the
/// report was written.
pub fn play_stream<A: Allocator + Copy, I: Input, O: Output>(
    alloc: A,
    input: &mut I,
    output: &mut O,
) -> Result<u8, ToolFault>
    ensures whole { OnceRead result (ReadsAll (I.to_come input.old) (I.to_come input.new)) }
    ensures report { IfOk result (λ status. IfSome (I.to_come input.old)
        (λ script. AppendsReport script status (O.written output.old) (O.written output.new))) }
    ensures within { OnOk result (IfSome (I.to_come input.old)
        (λ script. length script < READ_LIMIT * PIECE_SIZE)) }
    ensures script { (line : ℕ) → result ≡ Err (ToolFault.Script line)
        → IfSome (I.to_come input.old) (λ script. IsFirstBad script line) }
    ensures nothing_written { BeforeReport result
        (Keeps (O.written output.old) (O.written output.new)) }
    ensures begun { result ≡ Err ToolFault.Write → IfSome (I.to_come input.old)
        (λ script. BeginsReport script (O.written output.old) (O.written output.new)) }
    ensures memory { result ≡ Err ToolFault.Memory → RunsOut (I.to_come input.old)
        (I.to_come input.new) (O.written output.old) (O.written output.new) }
    ensures input_calm { UnlessRead result
        (I.fault_count input.new ≡ I.fault_count input.old) }
    ensures output_calm { UnlessWrite result
        (O.fault_count output.new ≡ O.fault_count output.old) }
    ensures read { result ≡ Err ToolFault.Read
        → CountsFault (I.fault_count input.old) (I.fault_count input.new) }
    ensures write { result ≡ Err ToolFault.Write
        → CountsFault (O.fault_count output.old) (O.fault_count output.new) }
    ensures device { result ≡ Err ToolFault.Device
        → IfSome (I.to_come input.old) (λ script. READ_LIMIT ≤ length script) }
    ensures no_other { IfErr result IsPlayFault }
{
    play_within(alloc, input, output, READ_LIMIT)
}
