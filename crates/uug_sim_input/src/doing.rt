//! Performs tasks on an input: standard input, or a file.
ghost use Rattle.std.specs.Prelude.{◌≡◌, IfErr, IsSome, string_bytes};
ghost use Rattle.uug_scan.specs.Scan.{IsScanFault};
ghost use Rattle.uug_stream.specs.Streams.{CountsFault};
ghost use Rattle.uug_sim_input.specs.Inputs.{DoesOn, DoesOver, IsFaultOf, IsNamed, Scans, ScansVerbose, answered, streams};

use crate::input_task::InputTask;
use std::alloc::Global;
use std::fs::File;
use std::rt::Files;
use uug_error::{Cause, Outcome, Resource, RunFault, SystemFailure};
use uug_io_line::SystemInput;
use uug_scan::{READ_LIMIT, scan_detailed, scan_stream};
use uug_sim_ladder::play_ladder;
use uug_sim_play::{Remarked, play_remarked, play_settled, play_stream};
use uug_stream::{Output, ToolFault};

/// Lists the packets of the input.
fn scan<I, O>(alloc: Global, input: &mut I, output: &mut O) -> Result<u8, ToolFault>
where
    I: uug_stream::Input,
    O: Output,
    ensures scans { Scans (streams (I.to_come input.old) (I.to_come input.new)
        (O.written output.old) (O.written output.new)) result }
    ensures read { result ≡ Err ToolFault.Read
        → CountsFault (I.fault_count input.old) (I.fault_count input.new) }
    ensures no_other { IfErr result IsScanFault }
{
    scan_stream(alloc, input, output)?;
    Ok(0)
}

/// Lists the packets of the input in detail.
fn scan_verbose<I, O>(alloc: Global, input: &mut I, output: &mut O) -> Result<u8, ToolFault>
where
    I: uug_stream::Input,
    O: Output,
    ensures scans { ScansVerbose (streams (I.to_come input.old) (I.to_come input.new)
        (O.written output.old) (O.written output.new)) result }
    ensures read { result ≡ Err ToolFault.Read
        → CountsFault (I.fault_count input.old) (I.fault_count input.new) }
    ensures no_other { IfErr result IsScanFault }
{
    scan_detailed(alloc, input, output, READ_LIMIT)?;
    Ok(0)
}

/// Performs a task on an input.
fn do_over<I, O>(alloc: Global, task: InputTask, input: &mut I, output: &mut O) -> Remarked<Global>
where
    I: uug_stream::Input,
    O: Output,
    ensures does { DoesOver task (streams (I.to_come input.old) (I.to_come input.new)
        (O.written output.old) (O.written output.new)) (string_bytes result.remark) result.answer }
    ensures read { result.answer ≡ Err ToolFault.Read
        → CountsFault (I.fault_count input.old) (I.fault_count input.new) }
    ensures no_other { IfErr result.answer (IsFaultOf task) }
{
    let answer = match task {
        InputTask::Scan => scan(alloc, input, output),
        InputTask::ScanVerbose => scan_verbose(alloc, input, output),
        InputTask::Play => play_stream(alloc, input, output),
        InputTask::PlayVerbose => return play_remarked(alloc, input, output),
        InputTask::PlaySettled => play_settled(alloc, input, output),
        InputTask::PlayDrawn => play_ladder(alloc, input, output),
    };
    Remarked {
        answer,
        remark: String::new(alloc),
    }
}

/// Returns this answer. `first`, the first failed read of the input, becomes the cause if the fault is a failed read.
fn with_cause(answer: Result<u8, ToolFault>, first: Option<SystemFailure>) -> Result<u8, RunFault>
    ensures answered { answered result ≡ answer }
    ensures named { (answer ≡ Err ToolFault.Read → IsSome first) → IfErr result IsNamed }
{
    match answer {
        Ok(status) => Ok(status),
        Err(fault) => Err(RunFault::with(fault, first)),
    }
}

/// Performs a task on the file at this path, or on the input if no file is named.
pub fn do_on<R, I, O>(
    rt: &R,
    task: InputTask,
    file: Option<&str>,
    input: &mut I,
    output: &mut O,
) -> Outcome<u8, Global>
where
    R: Files + AllocGlobal,
    I: uug_stream::Input,
    O: Output,
    ensures { DoesOn task file.entry (streams (I.to_come input.old) (I.to_come input.new)
        (O.written output.old) (O.written output.new)) (string_bytes result.remark) result.answer }
{
    let Some(path) = file else {
        let Remarked { answer, remark } = do_over(rt.alloc(), task, input, output);
        return Outcome {
            answer: with_cause(answer, None),
            remark,
        };
    };
    let file = match File::open(rt, path) {
        Ok(file) => file,
        Err(error) => {
            let failure = SystemFailure::on(Resource::Input, Cause::of(&error));
            return Outcome::of(rt.alloc(), Err(RunFault::Unread(failure)));
        }
    };
    let mut opened = SystemInput::new(file);
    let Remarked { answer, remark } = do_over(rt.alloc(), task, &mut opened, output);
    Outcome {
        answer: with_cause(answer, opened.failure()),
        remark,
    }
}
