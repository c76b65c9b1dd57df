//! Plays a script, with a remark if it is bad or has jobs that are not done.
ghost use Rattle.std.specs.Prelude.{◌≡◌, ℕ, ◌<◌, ◌≤◌, ◌*◌, IfErr, IfOk, IfSome, OnOk, length, string_bytes};
ghost use Rattle.std.specs.Io.KnownBytes.{Keeps};
ghost use Rattle.uug_sim_script.specs.IsScript.{IsFirstBad};
ghost use Rattle.uug_stream.specs.Fault.{UnlessRead, UnlessWrite};
ghost use Rattle.uug_stream.specs.Streams.{CountsFault, ReadsAll};
ghost use Rattle.uug_sim_play.specs.Played.{AppendsReport, AppendsVerbosely, BeforeReport, BeginsReport, IsPlayed, IsPlayedVerbosely, IsPlayFault, IsScriptFault, OnceRead, RunsOut};
ghost use Rattle.uug_sim_script.specs.Remarks.{remark_at};

use crate::played::{PlayedVerbosely, play_script_verbosely};
use crate::whole::read_whole;
use std::alloc::{AllocError, Allocator};
use uug_scan::{PIECE_SIZE, READ_LIMIT};
use uug_sim_script::script_remark;
use uug_stream::{Input, Output, ToolFault, write_all};

/// The outcome of a script that is played: the answer, and a remark on it.
#[derive(Drop)]
pub struct Remarked<A: Allocator> {
    /// The program's status, or the first error.
    pub answer: Result<u8, ToolFault>,
    /// A line for each job that is not done, with the reason, or if the script is bad, the error in its first bad line.
    pub remark: String<A>,
}

/// A script that was not played.
#[derive(Drop)]
struct Refused<A: Allocator> {
    fault: ToolFault,
    /// The error in its first bad line, or an empty text if none is bad.
    remark: String<A>,
}

/// Plays a script, and reports why jobs are not done. If it is bad, the error in its first bad line comes with the
/// fault.
fn play_text<A: Allocator + Copy>(alloc: A, script: &[u8]) -> Result<PlayedVerbosely<A>, Refused<A>>
    ensures verbosely { IfOk result (λ played.
        IsPlayedVerbosely script.now (string_bytes played.text) (string_bytes played.reasons) played.status) }
    ensures played { IfOk result (λ played.
        IsPlayed script.now (string_bytes played.text) played.status) }
    ensures fault { IfErr result (λ refused. IsScriptFault script.now refused.fault) }
    ensures remark { IfErr result (λ refused. (line : ℕ) → refused.fault ≡ ToolFault.Script line
        → string_bytes refused.remark ≡ remark_at line script.now) }
{
    let fault = match play_script_verbosely(alloc, script) {
        Ok(played) => return Ok(played),
        Err(fault) => fault,
    };
    let said = match fault {
        ToolFault::Script(line) => script_remark(alloc, script, line),
        _ => Ok(String::new(alloc)),
    };
    match said {
        Ok(remark) => Err(Refused { fault, remark }),
        Err(AllocError) => Err(Refused {
            fault: ToolFault::Memory,
            remark: String::new(alloc),
        }),
    }
}

/// Does the same as `play_stream`, and remarks on the jobs that are not done, or on a bad script. A remark takes memory.
/// The faults are those of `play_stream`.
pub fn play_remarked<A: Allocator + Copy, I: Input, O: Output>(
    alloc: A,
    input: &mut I,
    output: &mut O,
) -> Remarked<A>
    ensures whole { OnceRead result.answer
        (ReadsAll (I.to_come input.old) (I.to_come input.new)) }
    ensures report { IfOk result.answer (λ status. IfSome (I.to_come input.old)
        (λ script. AppendsReport script status (O.written output.old) (O.written output.new))) }
    ensures reasons { IfOk result.answer (λ status. IfSome (I.to_come input.old)
        (λ script. AppendsVerbosely script (string_bytes result.remark) status
        (O.written output.old) (O.written output.new))) }
    ensures within { OnOk result.answer (IfSome (I.to_come input.old)
        (λ script. length script < READ_LIMIT * PIECE_SIZE)) }
    ensures script { (line : ℕ) → result.answer ≡ Err (ToolFault.Script line)
        → IfSome (I.to_come input.old) (λ script. IsFirstBad script line) }
    ensures remark { (line : ℕ) → result.answer ≡ Err (ToolFault.Script line)
        → IfSome (I.to_come input.old) (λ script.
        string_bytes result.remark ≡ remark_at line script) }
    ensures nothing_written { BeforeReport result.answer
        (Keeps (O.written output.old) (O.written output.new)) }
    ensures begun { result.answer ≡ Err ToolFault.Write → IfSome (I.to_come input.old)
        (λ script. BeginsReport script (O.written output.old) (O.written output.new)) }
    ensures memory { result.answer ≡ Err ToolFault.Memory → RunsOut (I.to_come input.old)
        (I.to_come input.new) (O.written output.old) (O.written output.new) }
    ensures input_calm { UnlessRead result.answer
        (I.fault_count input.new ≡ I.fault_count input.old) }
    ensures output_calm { UnlessWrite result.answer
        (O.fault_count output.new ≡ O.fault_count output.old) }
    ensures read { result.answer ≡ Err ToolFault.Read
        → CountsFault (I.fault_count input.old) (I.fault_count input.new) }
    ensures write { result.answer ≡ Err ToolFault.Write
        → CountsFault (O.fault_count output.old) (O.fault_count output.new) }
    ensures device { result.answer ≡ Err ToolFault.Device
        → IfSome (I.to_come input.old) (λ script. READ_LIMIT ≤ length script) }
    ensures no_other { IfErr result.answer IsPlayFault }
{
    let script = match read_whole(alloc, input, READ_LIMIT) {
        Ok(script) => script,
        Err(fault) => {
            return Remarked {
                answer: Err(fault),
                remark: String::new(alloc),
            };
        }
    };
    let PlayedVerbosely {
        text,
        reasons,
        status,
    } = match play_text(alloc, script.as_slice()) {
        Ok(played) => played,
        Err(Refused { fault, remark }) => {
            return Remarked {
                answer: Err(fault),
                remark,
            };
        }
    };
    match write_all(output, text.as_bytes()) {
        Ok(()) => Remarked {
            answer: Ok(status),
            remark: reasons,
        },
        Err(fault) => Remarked {
            answer: Err(fault),
            remark: reasons,
        },
    }
}
