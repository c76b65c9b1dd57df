ghost use Rattle.std.specs.Prelude.{◌≡◌, IfOk, IfErr, Ok, Err};
ghost use Rattle.uug_sim_script.specs.IsScript.{BeginsAfresh, IsScript, IsFaultOf};
ghost use Rattle.uug_sim_script.specs.ScriptOf.{script_of, script_said, Faults};

use crate::draft::Draft;
use crate::fault::ScriptFault;
use std::alloc::Allocator;
use uug_line::{Event, Setup};
use uug_talk::split_line;

/// A script: the two ends and the events.
#[derive(Drop)]
pub struct Script<A: Allocator> {
    /// The two ends.
    pub setup: Setup<A>,
    /// The events, in order.
    pub events: Vec<Event, A>,
}

/// Reads a script. Returns the number of the first bad line as the error, or that of the line after the last one if an
/// end is not placed, or gives a file that is too large for the other.
pub fn read_script<A: Allocator + Copy>(alloc: A, text: &[u8]) -> Result<Script<A>, ScriptFault>
    // What is read is what the text says.
    ensures script { IfOk result (λ script. IsScript text.now (script_said script)) }
    // All jobs wait, and nothing is stored yet.
    ensures afresh { IfOk result (λ script. BeginsAfresh (script_said script)) }
    // A line that is answered is the first bad one.
    ensures bad { IfErr result (λ fault. IsFaultOf fault text.now) }
    // The same as a function of the text.
    ensures exact { IfOk result (λ script. script_of text.now ≡ Ok (script_said script)) }
    ensures exact_fault { IfErr result (λ fault. Faults fault (script_of text.now)) }
{
    read_lines(alloc, text)
}

fn read_lines<A: Allocator + Copy>(alloc: A, text: &[u8]) -> Result<Script<A>, ScriptFault>
    ensures script { IfOk result (λ script. script_of text.now ≡ Ok (script_said script)) }
    ensures fault { IfErr result (λ fault. Faults fault (script_of text.now)) }
{
    // Beside a text of this length there is no memory, and its lines could not all be counted.
    if text.len() == usize::MAX {
        return Err(ScriptFault::Memory);
    }
    let mut draft = Draft::new(alloc);
    let mut rest = text;
    let mut number = 1;
    while let Some((line, behind)) = split_line(rest) {
        if let Err(fault) = draft.add_text(alloc, line) {
            return Err(fault.at(number));
        }
        number += 1;
        rest = behind;
    }
    draft.complete().ok_or(ScriptFault::Bad(number))
}
