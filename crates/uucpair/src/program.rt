//! The program, from its command line to its status.
ghost use Rattle.std.specs.Prelude.{◌≡◌, ◌≤◌, IfErr, IfOk, IsErr, OnOk, map, string_bytes};
ghost use Rattle.uug_error.specs.Faults.{IsQueueFault};
ghost use Rattle.uug_sim_input.specs.Inputs.{streams};
ghost use Rattle.uug_io_pending.specs.Status.{WritesStatus};
ghost use Rattle.uug_stream.specs.Streams.{Appends};
ghost use Rattle.uucpair.specs.Performed.{Does, Performs, version_line};

use crate::bad_jobs::waiting_remark;
use crate::console::Console;
use crate::ends::{do_call, do_pair};
use std::alloc::{AllocError, Global};
use std::convert::AsStr;
use std::fs::File;
use std::net::{Net, TcpListener, TcpStream};
use std::rt::{Env, Files};
use std::time::Clock;
use std::{env, io};
use uug_cli::{
    Task, VERSION, has_no_host, has_no_port, hint_words, lacks_spool, order_remark, status_remark,
    target_remark, task_of, waiting_words,
};
use uug_cli_stop::{Stop, end_of, with_reason};
use uug_config::{CallTask, System};
use uug_conversation::Side;
use uug_error::{Outcome, RunFault};
use uug_io_disk::{QueueFault, QueueTask, queue_run};
use uug_io_line::{SystemInput, SystemOutput};
use uug_io_pending::{
    CancelFault, CancelOutcome, CancelTask, StatusTask, cancel_run, rival_remark, status_run,
};
use uug_sim_input::{InputTask, do_on};
use uug_stream::{Output, ToolFault, write_all};
use uug_talk::Name;
use uug_taylor_run::spool_status_run;

/// The remark if both an order and a job to cancel are given.
const QUEUED_OR_CANCELLED: &str = "queue a job or cancel one, not both";

/// Prints the name of the program and its version.
fn show_version<O: Output>(alloc: Global, output: &mut O) -> Result<u8, RunFault>
    ensures status { IfOk result (λ status. status ≡ 0) }
    ensures writes { OnOk result
        (Appends version_line (O.written output.old) (O.written output.new)) }
{
    let line = format!(in alloc; "uucpair {VERSION}\n")?;
    write_all(output, line.as_bytes())?;
    Ok(0)
}

/// Lists the jobs that wait, or queues one more. Remarks on a target that an end refuses, and on another job that sends
/// to the same target.
fn do_queue<R, O>(rt: &R, queue: &QueueTask<'_>, output: &mut O) -> Outcome<u8, Global>
where
    R: Files<File = File> + Env + AllocGlobal + Clone + Drop,
    O: Output,
    ensures status { IfOk result.answer (λ status. status ≡ 0) }
    ensures no_other { IfErr result.answer IsQueueFault }
{
    let alloc = rt.alloc();
    match order_remark(alloc, queue) {
        Ok(lack) if lack.is_empty() => (),
        lack => return bad_usage(alloc, lack),
    }
    match queue_run(alloc, rt, queue, output) {
        Ok(rival) => Outcome {
            answer: Ok(0),
            remark: queued_remark(alloc, queue, rival),
        },
        Err(QueueFault::Order(order)) => bad_usage(alloc, format!(in alloc; "{order}")),
        Err(QueueFault::Run(fault)) => gave_up(rt, queue.dir, fault),
    }
}

/// Returns the remarks on a job that was queued. `rival` is its target, if another job sends there. A remark for which
/// there is no memory is left out.
fn queued_remark(alloc: Global, queue: &QueueTask<'_>, rival: Option<Name>) -> String {
    let mut remark = target_remark(alloc, queue).unwrap_or(String::new(alloc));
    if let Some(target) = rival {
        if let Ok(line) = rival_remark(alloc, &target) {
            let _ = remark.push_str(line.as_str());
        }
    }
    remark
}

/// Cancels a job, and returns the program's status.
fn do_cancel<R, O>(rt: &R, cancel: &CancelTask<'_>, output: &mut O) -> Outcome<u8, Global>
where
    R: Files<File = File> + AllocGlobal + Clone + Drop,
    O: Output,
    ensures status { IfOk result.answer (λ status. status ≤ 1) }
    ensures no_other { IfErr result.answer IsQueueFault }
{
    let alloc = rt.alloc();
    match cancel_run(alloc, rt, cancel, output) {
        Ok(CancelOutcome { status, remark }) => Outcome {
            answer: Ok(status),
            remark,
        },
        Err(CancelFault::Ordered) => {
            bad_usage(alloc, String::from_str(alloc, QUEUED_OR_CANCELLED))
        }
        Err(CancelFault::Run(fault)) => gave_up(rt, cancel.dir, fault),
    }
}

/// Shows the status of a folder, or of a system's part of a spool.
fn do_status<R, O>(rt: &R, status: &StatusTask<'_>, output: &mut O) -> Outcome<u8, Global>
where
    R: Files<File = File> + Clock + Eprint + AllocGlobal + Clone + Drop,
    O: Output,
    ensures status { IfOk result.answer (λ status. status ≡ 0) }
    ensures writes { OnOk result.answer
        (WritesStatus status.now.is_json (O.written output.old) (O.written output.new)) }
    ensures no_other { IfErr result.answer IsQueueFault }
{
    let alloc = rt.alloc();
    match status_remark(alloc, status) {
        Ok(lack) if lack.is_empty() => (),
        lack => return bad_usage(alloc, lack),
    }
    match status.peer {
        Some(peer) => do_spool_status(rt, status, peer, output),
        None => do_folder_status(rt, status, output),
    }
}

/// Shows the status of a folder.
fn do_folder_status<R, O>(rt: &R, status: &StatusTask<'_>, output: &mut O) -> Outcome<u8, Global>
where
    R: Files<File = File> + Clock + AllocGlobal + Clone + Drop,
    O: Output,
    ensures status { IfOk result.answer (λ status. status ≡ 0) }
    ensures writes { OnOk result.answer
        (WritesStatus status.now.is_json (O.written output.old) (O.written output.new)) }
    ensures no_other { IfErr result.answer IsQueueFault }
{
    let alloc = rt.alloc();
    match status_run(alloc, rt, status, output) {
        Ok(()) => Outcome::of(alloc, Ok(0)),
        Err(fault) => gave_up(rt, status.dir, fault),
    }
}

/// Shows the status of this system's part of a spool.
fn do_spool_status<R, O>(
    rt: &R,
    status: &StatusTask<'_>,
    peer: &str,
    output: &mut O,
) -> Outcome<u8, Global>
where
    R: Files<File = File> + Clock + Eprint + AllocGlobal + Clone + Drop,
    O: Output,
    ensures status { IfOk result.answer (λ status. status ≡ 0) }
    ensures writes { OnOk result.answer
        (WritesStatus status.now.is_json (O.written output.old) (O.written output.new)) }
    ensures no_other { IfErr result.answer IsQueueFault }
{
    let alloc = rt.alloc();
    match spool_status_run(alloc, rt, status, peer, output) {
        Ok(()) => Outcome::of(alloc, Ok(0)),
        Err(fault) => Outcome::of(alloc, Err(fault)),
    }
}

/// Returns that the usage is bad, with this remark, or a memory fault if there was no memory for it.
fn bad_usage(alloc: Global, remark: Result<String, AllocError>) -> Outcome<u8, Global>
    ensures gives_up { IsErr result.answer }
    ensures no_other { IfErr result.answer IsQueueFault }
{
    match remark {
        Ok(remark) => Outcome {
            answer: Err(RunFault::Tool(ToolFault::Usage)),
            remark,
        },
        Err(refused) => Outcome::of(alloc, Err(RunFault::from(refused))),
    }
}

/// Returns that a run over the jobs in this folder gave up, and what is wrong with them if that is the fault.
fn gave_up<R: Files + AllocGlobal>(rt: &R, dir: &str, fault: RunFault) -> Outcome<u8, Global>
    ensures { result.answer ≡ Err fault }
{
    let remark = waiting_remark(rt, dir, &fault).unwrap_or(String::new(rt.alloc()));
    Outcome {
        answer: Err(fault),
        remark,
    }
}

/// Does a task.
fn do_task<R, I, O>(
    rt: &R,
    task: Task<'_>,
    console: Console,
    input: &mut I,
    output: &mut O,
) -> Outcome<u8, Global>
where
    R: System,
    I: uug_stream::Input,
    O: Output,
    ensures { Does task.entry (streams (I.to_come input.old) (I.to_come input.new)
        (O.written output.old) (O.written output.new)) (string_bytes result.remark) result.answer }
{
    let (over, file) = match task {
        Task::Scan(file) => (InputTask::Scan, file),
        Task::ScanVerbose(file) => (InputTask::ScanVerbose, file),
        Task::Play(file) => (InputTask::Play, file),
        Task::PlayVerbose(file) => (InputTask::PlayVerbose, file),
        Task::PlaySettled(file) => (InputTask::PlaySettled, file),
        Task::PlayDrawn(file) => (InputTask::PlayDrawn, file),
        Task::Version => return Outcome::of(rt.alloc(), show_version(rt.alloc(), output)),
        Task::Pair(pair) => return do_pair(rt, &pair, console, output),
        Task::Call(call) => return do_call(rt, &call, console, output),
        Task::Queue(queue) => return do_queue(rt, &queue, output),
        Task::Cancel(cancel) => return do_cancel(rt, &cancel, output),
        Task::Status(status) => return do_status(rt, &status, output),
    };
    do_on(rt, over, file, input, output)
}

/// Prints at which line an end waits for a call, or that standard input is read, if a person may see that on a
/// terminal. A line that only this machine can call because no host is given, or whose port no caller knows, is printed
/// anyway.
fn greet<R: Eprint + AllocGlobal>(rt: &R, task: Task<'_>, console: Console) {
    match task {
        Task::Call(call)
            if call.side == Side::Called
                && (console.is_errors_terminal
                    || has_no_host(call.line.name)
                    || has_no_port(call.line.name)) => {
            // A message for which there is no memory is left out.
            let _ = say_waiting(rt, &call);
        }
        Task::Scan(None)
        | Task::ScanVerbose(None)
        | Task::Play(None)
        | Task::PlayVerbose(None)
        | Task::PlaySettled(None)
        | Task::PlayDrawn(None)
            if console.is_input_terminal && console.is_errors_terminal => {
            let _ = eprint!(rt; "uucpair: reading standard input, until Ctrl-D\n");
        }
        _ => (),
    }
}

/// Prints at which line an end waits to be called, if it may be run and its line is not standard input and output.
fn say_waiting<R: Eprint + AllocGlobal>(rt: &R, call: &CallTask<'_>) -> Result<(), AllocError> {
    if call.line.name == "-" || !call.may_run() || lacks_spool(call) {
        return Ok(());
    }
    let line = waiting_words(rt.alloc(), call.line.name)?;
    let line = line.as_str();
    let _ = eprint!(rt; "uucpair: waiting on {line}\n");
    Ok(())
}

/// Prints what to do about the first word that is often mistaken for one of the program's.
fn say_hint<R: Eprint, S: AsStr>(rt: &R, words: &[S]) {
    let tool = match words.get(1) {
        Some(tool) => tool.as_str(),
        None => "",
    };
    for (place, word) in words.iter().enumerate() {
        let hint = hint_words(tool.as_bytes(), place == 1, word.as_str().as_bytes());
        if !hint.is_empty() {
            let _ = eprint!(rt; "uucpair: {hint}\n");
            return;
        }
    }
}

/// Prints the remark on a task that was done.
fn tell(rt: &impl Eprint, outcome: &Outcome<u8, Global>) {
    if outcome.answer.is_ok() && !outcome.remark.is_empty() {
        let remark = outcome.remark.as_str();
        let _ = eprint!(rt; "{remark}");
    }
}

/// Runs a command line, the program's name first, and returns the program's status. A person at standard input gets a
/// message when it is read.
pub fn perform<R, S, I, O>(
    rt: &R,
    words: &[S],
    console: Console,
    input: &mut I,
    output: &mut O,
) -> Result<u8, Stop>
where
    R: System,
    S: AsStr,
    I: uug_stream::Input,
    O: Output,
    ensures { Performs (map S.text words.now) (streams (I.to_come input.old) (I.to_come input.new)
        (O.written output.old) (O.written output.new)) result }
{
    let task = task_of(rt.alloc(), words)?;
    greet(rt, task, console);
    let outcome = do_task(rt, task, console, input, output);
    tell(rt, &outcome);
    end_of(rt.alloc(), task, outcome)
}

/// Runs the program's own command line, on standard input and output.
pub fn run<R>(rt: &R, console: Console) -> Result<u8, Stop>
where
    R: Env
        + Input
        + Print
        + Eprint
        + Clock
        + Files<File = File>
        + Net<Stream = TcpStream, Listener = TcpListener>
        + AllocGlobal
        + Clone
        + Drop,
{
    let words: Vec<String> = env::args(rt)
        .map_err(|error| match error.kind() {
            io::ErrorKind::OutOfMemory => ToolFault::Memory,
            _ => ToolFault::Usage,
        })?
        .collect(rt.alloc())?;
    let mut input = SystemInput::new(rt.reader());
    let mut output = SystemOutput::new(io::writer(rt));
    let ended = perform(rt, &words, console, &mut input, &mut output);
    if let Err(Stop::CommandLine(_)) = &ended {
        say_hint(rt, words.as_slice());
    }
    with_reason(rt.alloc(), ended, input.failure(), output.failure())
}
