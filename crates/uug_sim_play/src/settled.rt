//! A script that was played, and whose run went on until it was settled.
ghost use Rattle.std.specs.Prelude.{◌≡◌, ◌++◌, ℕ, ◌<◌, ◌≤◌, ◌*◌, List, IfErr, IfOk, IfSome, OnOk, length, string_bytes};
ghost use Rattle.std.specs.Io.KnownBytes.{Keeps};
ghost use Rattle.uug_line.specs.declared.event.Event.{Event};
ghost use Rattle.uug_line.specs.Belongings.{SetupValue};
ghost use Rattle.uug_line.specs.OfSomeRun.{IsRunOf};
ghost use Rattle.uug_line.specs.Settled.{CanSettle};
ghost use Rattle.uug_sim_script.specs.IsScript.{IsFirstBad};
ghost use Rattle.uug_stream.specs.Fault.{UnlessRead, UnlessWrite};
ghost use Rattle.uug_stream.specs.Streams.{CountsFault, ReadsAll};
ghost use Rattle.uug_sim_play.specs.Played.{BeforeReport, IsPlayFault, IsScriptFault, OnceRead};
ghost use Rattle.uug_sim_play.specs.Settled.{AppendsSettled, BeginsSettled, GoesOnFrom, IsBehind, IsSettled, RunsOutSettling};

use crate::played::{Played, run_script, shown};
use crate::unsettled::{add_unsettled, why_unsettled};
use crate::whole::read_whole;
use std::alloc::{AllocError, Allocator};
use uug_line::{Report, RunFault, settle};
use uug_scan::{PIECE_SIZE, READ_LIMIT};
use uug_stream::{Input, Output, ToolFault, write_all};

/// Settles the report, and returns its text and the status.
fn settled<A: Allocator + Copy>(alloc: A, report: Report<A>) -> Result<Played<A>, RunFault>
    requires { CanSettle report }
    ensures { IfOk result (λ last. (setup : SetupValue) (events : List Event)
        → IsRunOf setup events report
        → IsBehind setup events (string_bytes last.text) last.status) }
{
    let report = settle(alloc, report)?;
    let last = shown(alloc, &report);
    drop(report);
    Ok(last?)
}

/// Returns the text of the report, and after it that of what it settles to, or the reason for which it may not.
fn shown_settled<A: Allocator + Copy>(alloc: A, report: Report<A>) -> Result<Played<A>, RunFault>
    ensures { IfOk result (λ played. GoesOnFrom report (string_bytes played.text) played.status) }
{
    if let Some(why) = why_unsettled(&report) {
        let played = shown(alloc, &report);
        drop(report);
        let Played { mut text, status } = played?;
        add_unsettled(&mut text, why)?;
        return Ok(Played { text, status });
    }
    let Ok(Played { mut text, .. }) = shown(alloc, &report) else {
        drop(report);
        return Err(RunFault::Memory);
    };
    let last = settled(alloc, report)?;
    text.push_str(&last.text)?;
    Ok(Played {
        text,
        status: last.status,
    })
}

/// Plays a script, and goes on from its report on a line on which nothing more is lost, if it may settle.
pub fn settle_script<A: Allocator + Copy>(alloc: A, text: &[u8]) -> Result<Played<A>, ToolFault>
    ensures settled { IfOk result (λ played.
        IsSettled text.now (string_bytes played.text) played.status) }
    ensures fault { IfErr result (IsScriptFault text.now) }
{
    let report = run_script(alloc, text)?;
    match shown_settled(alloc, report) {
        Ok(played) => Ok(played),
        Err(_) => Err(ToolFault::Memory),
    }
}

/// Reads the input to its end as a script, plays it, and writes the report. If the run may settle, it goes on to its
/// end on a line on which nothing more is lost; the report of that is written too, and its status is returned.
/// Otherwise a line with the condition that fails is written, and the status is that of `play_stream`. Nothing is
/// written before all was played. Returns the first error.
pub fn play_settled<A: Allocator + Copy, I: Input, O: Output>(
    alloc: A,
    input: &mut I,
    output: &mut O,
) -> Result<u8, ToolFault>
    ensures whole { OnceRead result (ReadsAll (I.to_come input.old) (I.to_come input.new)) }
    ensures report { IfOk result (λ status. IfSome (I.to_come input.old)
        (λ script. AppendsSettled script status (O.written output.old) (O.written output.new))) }
    ensures within { OnOk result (IfSome (I.to_come input.old)
        (λ script. length script < READ_LIMIT * PIECE_SIZE)) }
    ensures script { (line : ℕ) → result ≡ Err (ToolFault.Script line)
        → IfSome (I.to_come input.old) (λ script. IsFirstBad script line) }
    ensures nothing_written { BeforeReport result
        (Keeps (O.written output.old) (O.written output.new)) }
    ensures begun { result ≡ Err ToolFault.Write → IfSome (I.to_come input.old)
        (λ script. BeginsSettled script (O.written output.old) (O.written output.new)) }
    ensures memory { result ≡ Err ToolFault.Memory → RunsOutSettling (I.to_come input.old)
        (I.to_come input.new) (O.written output.old) (O.written output.new) }
    ensures input_calm { UnlessRead result
        (I.fault_count input.new ≡ I.fault_count input.old) }
    ensures output_calm { UnlessWrite result
        (O.fault_count output.new ≡ O.fault_count output.old) }
    ensures read { result ≡ Err ToolFault.Read
        → CountsFault (I.fault_count input.old) (I.fault_count input.new) }
    ensures write { result ≡ Err ToolFault.Write
        → CountsFault (O.fault_count output.old) (O.fault_count output.new) }
    ensures device { result ≡ Err ToolFault.Device
        → IfSome (I.to_come input.old) (λ script. READ_LIMIT ≤ length script) }
    ensures no_other { IfErr result IsPlayFault }
{
    let script = read_whole(alloc, input, READ_LIMIT)?;
    let played = settle_script(alloc, script.as_slice())?;
    write_all(output, played.text.as_bytes())?;
    Ok(played.status)
}
