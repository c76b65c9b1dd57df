//! A script played, with a ladder of its sessions.
ghost use Rattle.std.specs.Prelude.{◌≡◌, ℕ, ◌<◌, ◌≤◌, ◌*◌, IfErr, IfOk, IfSome, OnOk, length, string_bytes};
ghost use Rattle.std.specs.Io.KnownBytes.{Keeps};
ghost use Rattle.uug_sim_script.specs.IsScript.{IsFirstBad};
ghost use Rattle.uug_sim_play.specs.Played.{IsPlayed, OnceRead};
ghost use Rattle.uug_stream.specs.Fault.{UnlessRead, UnlessWrite};
ghost use Rattle.uug_stream.specs.Streams.{CountsFault, ReadsAll};
ghost use Rattle.uug_sim_ladder.specs.Fronts.{IsLadderOf};
ghost use Rattle.uug_sim_ladder.specs.Played.{AppendsShown, BeforeWriting, BeginsShown, IsDrawingFault, IsShowingFault, IsShown, RunsOutShowing};
ghost use Rattle.uug_sim_ladder.specs.Rungs.{ladder_shown};

use crate::drawn_run::{DrawnRun, draw_run};
use crate::fault::LadderFault;
use crate::ladder::Ladder;
use crate::text::add_ladder;
use std::alloc::Allocator;
use uug_scan::{PIECE_SIZE, READ_LIMIT};
use uug_sim_play::{Played, read_whole, shown};
use uug_stream::{Input, Output, ToolFault, write_all};

/// A script, played and drawn.
#[derive(Drop)]
struct PlayedAndDrawn<A: Allocator> {
    played: Played<A>,
    ladder: Ladder<A>,
}

/// Plays a script, and draws its ladder.
fn play_and_draw<A: Allocator + Copy>(
    alloc: A,
    script: &[u8],
) -> Result<PlayedAndDrawn<A>, ToolFault>
    ensures played { IfOk result (λ both.
        IsPlayed script.now (string_bytes both.played.text) both.played.status) }
    ensures ladder { IfOk result (λ both. IsLadderOf script.now (ladder_shown both.ladder)) }
    ensures fault { IfErr result (IsShowingFault script.now) }
{
    let DrawnRun { ladder, report } = match draw_run(alloc, script) {
        Ok(drawn) => drawn,
        Err(LadderFault::Script(line)) => return Err(ToolFault::Script(line)),
        Err(LadderFault::Memory) => return Err(ToolFault::Memory),
    };
    let played = shown(alloc, &report);
    drop(report);
    match played {
        Ok(played) => Ok(PlayedAndDrawn { played, ladder }),
        Err(_) => Err(ToolFault::Memory),
    }
}

/// Returns the report and the text of the ladder.
fn show<A: Allocator + Copy>(alloc: A, script: &[u8]) -> Result<Played<A>, ToolFault>
    ensures shown { IfOk result (λ played.
        IsShown script.now (string_bytes played.text) played.status) }
    ensures fault { IfErr result (IsShowingFault script.now) }
{
    let PlayedAndDrawn { played, ladder } = play_and_draw(alloc, script)?;
    let Played { mut text, status } = played;
    add_ladder(alloc, &mut text, &ladder)?;
    Ok(Played { text, status })
}

/// Reads the input to its end as a script, plays it, and writes the report and then the ladder. Returns the program's
/// status, as `play_stream` does, or the first error. Nothing is written before all was played. If a write failed, or
/// memory ran out in writing, a front part of what is shown was written.
pub fn play_ladder<A: Allocator + Copy, I: Input, O: Output>(
    alloc: A,
    input: &mut I,
    output: &mut O,
) -> Result<u8, ToolFault>
    ensures whole { OnceRead result (ReadsAll (I.to_come input.old) (I.to_come input.new)) }
    ensures shown { IfOk result (λ status. IfSome (I.to_come input.old)
        (λ script. AppendsShown script status (O.written output.old) (O.written output.new))) }
    ensures within { OnOk result (IfSome (I.to_come input.old)
        (λ script. length script < READ_LIMIT * PIECE_SIZE)) }
    ensures script { (line : ℕ) → result ≡ Err (ToolFault.Script line)
        → IfSome (I.to_come input.old) (λ script. IsFirstBad script line) }
    ensures nothing_written { BeforeWriting result
        (Keeps (O.written output.old) (O.written output.new)) }
    ensures begun { result ≡ Err ToolFault.Write → IfSome (I.to_come input.old)
        (λ script. BeginsShown script (O.written output.old) (O.written output.new)) }
    ensures memory { result ≡ Err ToolFault.Memory → RunsOutShowing (I.to_come input.old)
        (I.to_come input.new) (O.written output.old) (O.written output.new) }
    ensures input_calm { UnlessRead result
        (I.fault_count input.new ≡ I.fault_count input.old) }
    ensures output_calm { UnlessWrite result
        (O.fault_count output.new ≡ O.fault_count output.old) }
    ensures read { result ≡ Err ToolFault.Read
        → CountsFault (I.fault_count input.old) (I.fault_count input.new) }
    ensures write { result ≡ Err ToolFault.Write
        → CountsFault (O.fault_count output.old) (O.fault_count output.new) }
    ensures device { result ≡ Err ToolFault.Device
        → IfSome (I.to_come input.old) (λ script. READ_LIMIT ≤ length script) }
    ensures no_other { IfErr result IsDrawingFault }
{
    let script = read_whole(alloc, input, READ_LIMIT)?;
    let played = show(alloc, script.as_slice())?;
    write_all(output, played.text.as_bytes())?;
    Ok(played.status)
}
