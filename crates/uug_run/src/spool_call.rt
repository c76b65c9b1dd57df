//! An end over a spool of Taylor UUCP, and the lock of the other system.
ghost use Rattle.std.specs.Prelude.{◌≡◌, ◌≢◌, Err, IfErr, IfOk, OnErr, codes, false, string_bytes, true};
ghost use Rattle.uug_error.specs.Faults.{IsFolderFault, IsSessionFault};
ghost use Rattle.uug_taylor_text.specs.SpoolNames.{is_system_name};
ghost use Rattle.uug_taylor_run.specs.CallAnswers.{AnswersCall, status_of};
ghost use Rattle.uug_transfer.specs.Reported.{IsReported};
ghost use Rattle.uug_run.specs.Callers.{other_than};
ghost use Rattle.uug_run.specs.Calls.{HasCalled, HasTalked};
ghost use Rattle.uug_run.specs.SpoolCalls.{IsCallOf, line_fault, port_of};
ghost use Rattle.uug_run.specs.SpoolLocks.{CallsLater, Says, is_locked, lock_words};
ghost use Rattle.uug_transfer.specs.Writing.{TakesFront};

use crate::call::talk_at;
use crate::end_run::EndRun;
use crate::folder_kind::see_no_folder;
use crate::numbers::meet_caller;
use crate::spool_lock::{
    has_lock, is_held, is_in_use, is_locked, lock_system, lock_words, locked_remark, say,
};
use std::alloc::{AllocError, Allocator};
use std::fs;
use std::fs::File;
use std::rt::{Env, Files};
use std::time::Clock;
use uug_config::{ANY, CallTask, System};
use uug_error::{EndDir, Ended, Outcome, Resource, RunFault};
use uug_io_disk::DeviceLock;
use uug_io_line::{PortLine, SilentPort, StandardStreams};
use uug_observe::BROKEN_OFF;
use uug_session::{End, Phase, Side};
use uug_stream::{Output, ToolFault};
use uug_talk::Name;
use uug_taylor_run::{SpoolCall, talk_over_spool, tell_fault, tell_large, tell_no_line};
use uug_taylor_text::is_system_name;
use uug_transfer::{EndLine, LineName, SessionLine, SessionObserver, SessionStatus};

/// The words in the log if another run talks with the system.
const LOCKED: &str = "System already locked";

/// Runs an end over a spool. A calling end locks the other system first.
pub(crate) fn call_over_spool<A, R, W, O>(
    run: &EndRun<'_, A, R>,
    line: LineName<'_>,
    streams: StandardStreams,
    observer: &mut W,
    output: &mut O,
) -> Outcome<u8, A>
where
    A: Allocator + Copy,
    R: System,
    W: SessionObserver,
    O: Output,
    ensures { AnswersCall IsSessionFault (HasTalked run.now.task.now.side) result.answer
        (O.written output.old) (O.written output.new)
        (O.fault_count output.old) (O.fault_count output.new) }
{
    if let Err(fault) = see_spool(run.alloc, run.rt, run.task.end_dir()) {
        return Outcome::of(run.alloc, Err(fault));
    }
    if run.task.side == Side::Called {
        tell_large_files(run);
        return talk_at(run, line, streams, None, observer, output);
    }
    let lock = lock_telling(run.alloc, run.rt, run.task, run.task.peer);
    call_locked(run, line, streams, lock, observer, output)
}

/// Calls the other system, if the end has got its lock, and releases the lock.
fn call_locked<A, R, W, O>(
    run: &EndRun<'_, A, R>,
    line: LineName<'_>,
    streams: StandardStreams,
    lock: Result<DeviceLock<A>, RunFault>,
    observer: &mut W,
    output: &mut O,
) -> Outcome<u8, A>
where
    A: Allocator + Copy,
    R: System,
    W: SessionObserver,
    O: Output,
    requires lock { IfErr lock IsFolderFault }
    ensures answers { AnswersCall IsSessionFault (HasCalled run.now.task.now.side) result.answer
        (O.written output.old) (O.written output.new)
        (O.fault_count output.old) (O.fault_count output.new) }
    ensures calls_later { IfErr lock (λ fault. is_locked fault ≡ true
        → CallsLater run.now.task.now result.answer (string_bytes result.remark)) }
    ensures gives_up { IfErr lock (λ fault. is_locked fault ≡ false → result.answer ≡ Err fault) }
    ensures silent { OnErr lock (O.written output.new ≡ O.written output.old) }
{
    let lock = match lock {
        Ok(lock) => lock,
        Err(fault) => {
            return call_later(run, fault);
        }
    };
    tell_large_files(run);
    let outcome = talk_at(run, line, streams, None, observer, output);
    if let Some(is_in_use) = line_fault(&outcome.answer) {
        let peer = run.station.place.peer;
        tell_no_line(run.alloc, run.rt, &said_of(run.task), peer, is_in_use);
    }
    lock.release(run.rt);
    outcome
}

/// Reports the files that wait for the other system and are too large to be sent. Reports nothing if any system may
/// call: it is not known yet which files will be sent.
fn tell_large_files<A: Allocator + Copy, R: System>(run: &EndRun<'_, A, R>) {
    if run.task.peer != ANY {
        let peer = run.station.place.peer;
        tell_large(run.alloc, run.rt, &said_of(run.task), peer);
    }
}

/// Returns the outcome of a call whose system could not be locked. If another run has the lock, logs that, and returns
/// status 1: the system is to be called later.
fn call_later<A: Allocator + Copy, R: System>(
    run: &EndRun<'_, A, R>,
    fault: RunFault,
) -> Outcome<u8, A>
    requires fault { IsFolderFault fault }
    ensures no_write { result.answer ≢ Err (RunFault.Tool ToolFault.Write) }
    ensures no_other { IfErr result.answer IsSessionFault }
    ensures later { IfOk result.answer (λ status. status ≡ 1) }
    ensures calls_later { is_locked fault ≡ true
        → CallsLater run.now.task.now result.answer (string_bytes result.remark) }
    ensures gives_up { is_locked fault ≡ false → result.answer ≡ Err fault }
{
    if !is_locked(&fault) {
        return Outcome::of(run.alloc, Err(fault));
    }
    let task = run.task;
    tell_fault(
        run.alloc,
        run.rt,
        &said_of(task),
        run.station.place.peer,
        LOCKED,
    );
    match locked_remark(run.alloc, task.line.locks, task.peer) {
        Ok(remark) => Outcome {
            answer: Ok(1),
            remark,
        },
        Err(AllocError) => Outcome::of(run.alloc, Err(RunFault::Tool(ToolFault::Memory))),
    }
}

/// Returns whether another run has the line, if a call with this answer got no line. Otherwise returns `None`.
fn line_fault(answer: &Result<u8, RunFault>) -> Option<bool>
    ensures { result ≡ line_fault answer.now }
{
    match answer {
        Err(RunFault::System(failure)) => match failure.resource {
            Resource::Line => Some(is_in_use(failure.cause)),
            _ => None,
        },
        _ => None,
    }
}

/// Checks that the spool exists, and is not the folder of an end. A missing spool would otherwise be created together
/// with folders in it.
fn see_spool<A: Allocator + Copy, R: Files>(
    alloc: A,
    rt: &R,
    dir: EndDir<'_>,
) -> Result<(), RunFault>
    ensures { IfErr result IsFolderFault }
{
    match fs::metadata(rt, dir.path) {
        Ok(_) => see_no_folder(alloc, rt, dir),
        Err(error) => Err(RunFault::of(&error, dir, Resource::Dir)),
    }
}

/// Talks over the line of an end over a spool. A called end locks the other system for the session.
pub(crate) fn talk_in_spool<A, R, L, W, O>(
    run: &EndRun<'_, A, R>,
    line: &mut SessionLine<L, W, A>,
    output: &mut O,
) -> Result<Ended, RunFault>
where
    A: Allocator + Copy,
    R: System,
    L: EndLine,
    W: SessionObserver,
    O: Output,
    ensures { AnswersCall IsSessionFault (IsReported run.now.task.now.side) (status_of result)
        (O.written output.old) (O.written output.new)
        (O.fault_count output.old) (O.fault_count output.new) }
{
    if run.task.side == Side::Caller {
        return talk_with(run, line, output);
    }
    match system_at(run, line)? {
        Some(system) => {
            let run = run.with_peer(system);
            let lock = lock_caller(&run, line);
            let is_let_in = lock.is_ok();
            let ended = talk_locked(&run, lock, line, output);
            if !is_let_in {
                line.note(over_in(Phase::Hail));
            }
            ended
        }
        // A caller that has given no name is not read any more: it could give one later.
        None => {
            line.note(over_in(Phase::Ended(End::HungUp)));
            talk_to_nobody(run, output)
        }
    }
}

/// Returns the status of a session that ended in its greeting, with this phase.
fn over_in(phase: Phase) -> SessionStatus
    ensures { result ≡ record {
      phase = phase;
      pending = 0;
      struck = 0;
      failed = 0;
      unacked = 0;
      is_over = true;
    } }
{
    SessionStatus {
        phase,
        pending: 0,
        struck: 0,
        failed: 0,
        unacked: 0,
        is_over: true,
    }
}

/// Locks the other system. If that takes over the lock of a process that is gone, logs that the last session with the
/// system was broken off.
fn lock_telling<A, R>(
    alloc: A,
    rt: &R,
    task: &CallTask<'_>,
    system: &str,
) -> Result<DeviceLock<A>, RunFault>
where
    A: Allocator + Copy,
    R: Files<File = File> + Clock + Env + AllocGlobal,
    ensures { IfErr result IsFolderFault }
{
    let is_left = has_lock(alloc, rt, task.line.locks, system);
    let lock = lock_system(alloc, rt, task.line.locks, system);
    if is_left && lock.is_ok() {
        if let Ok(system) = Name::new(system.as_bytes()) {
            tell_fault(alloc, rt, &said_of(task), system, BROKEN_OFF);
        }
    }
    lock
}

/// Locks the system that has called. If another run has the lock, the caller's text is read before the caller is
/// refused: a caller whose text is not read may not read ours.
fn lock_caller<A, R, L, W>(
    run: &EndRun<'_, A, R>,
    line: &mut SessionLine<L, W, A>,
) -> Result<DeviceLock<A>, RunFault>
where
    A: Allocator + Copy,
    R: System,
    L: EndLine,
    W: SessionObserver,
    ensures { IfErr result IsFolderFault }
{
    let place = &run.station.place;
    let lock = lock_telling(run.alloc, run.rt, run.task, place.peer.as_str());
    if run.task.peer != ANY && is_held(&lock) {
        // If any system may call, the text was read already.
        let _ = meet_caller(run.alloc, place, line, run.station.limits().greeting);
    }
    lock
}

/// Talks with a system that has called, if the end has its lock. If another run has the lock, the caller is sent
/// `RLCK`, and its line is hung up; the next caller may be let in. If no lock can be created, nothing is written to the
/// line. In neither case is anything read from it.
fn talk_locked<A, R, L, O>(
    run: &EndRun<'_, A, R>,
    lock: Result<DeviceLock<A>, RunFault>,
    line: &mut L,
    output: &mut O,
) -> Result<Ended, RunFault>
where
    A: Allocator + Copy,
    R: System,
    L: EndLine,
    O: Output,
    requires lock { IfErr lock IsFolderFault }
    ensures answers { AnswersCall IsSessionFault (IsReported run.now.task.now.side)
        (status_of result) (O.written output.old) (O.written output.new)
        (O.fault_count output.old) (O.fault_count output.new) }
    ensures gives_up { IfErr lock (λ fault. is_locked fault ≡ false → result ≡ Err fault) }
    ensures silent { IfErr lock (λ fault. is_locked fault ≡ false
        → O.written output.new ≡ O.written output.old) }
    ensures unread { OnErr lock (L.received line.new ≡ L.received line.old) }
    ensures unwritten { IfErr lock (λ fault. is_locked fault ≡ false
        → L.taken line.new ≡ L.taken line.old) }
    ensures says { IfErr lock (λ fault. is_locked fault ≡ true → IfOk result (λ _.
        Says (lock_words run.now.station.place.me) (L.taken line.old) (L.taken line.new)
        (L.writes line.old) (L.writes line.new))) }
    ensures nothing_else { OnErr lock (TakesFront (lock_words run.now.station.place.me)
        (L.taken line.old) (L.taken line.new)) }
{
    match lock {
        Ok(lock) => {
            let ended = talk_with(run, line, output);
            lock.release(run.rt);
            ended
        }
        Err(fault) => talk_unlocked(run, fault, line, output),
    }
}

/// Handles a system that has called, but could not be locked. If another run has the lock, sends the words with which
/// each session begins, and then `RLCK`. A line that has sent the first words already does not send them again.
fn talk_unlocked<A, R, L, O>(
    run: &EndRun<'_, A, R>,
    fault: RunFault,
    line: &mut L,
    output: &mut O,
) -> Result<Ended, RunFault>
where
    A: Allocator + Copy,
    R: System,
    L: EndLine,
    O: Output,
    requires fault { IsFolderFault fault }
    ensures answers { AnswersCall IsSessionFault (IsReported run.now.task.now.side)
        (status_of result) (O.written output.old) (O.written output.new)
        (O.fault_count output.old) (O.fault_count output.new) }
    ensures gives_up { is_locked fault ≡ false → result ≡ Err fault }
    ensures silent { is_locked fault ≡ false → O.written output.new ≡ O.written output.old }
    ensures unread { L.received line.new ≡ L.received line.old }
    ensures unwritten { is_locked fault ≡ false → L.taken line.new ≡ L.taken line.old }
    ensures says { is_locked fault ≡ true → IfOk result (λ _.
        Says (lock_words run.now.station.place.me) (L.taken line.old) (L.taken line.new)
        (L.writes line.old) (L.writes line.new)) }
    ensures nothing_else { TakesFront (lock_words run.now.station.place.me)
        (L.taken line.old) (L.taken line.new) }
{
    if !is_locked(&fault) {
        return Err(fault);
    }
    let (alloc, rt, task, place) = (run.alloc, run.rt, run.task, run.station.place);
    tell_fault(alloc, rt, &said_of(task), place.peer, LOCKED);
    say_locked(alloc, rt, task.line.locks, place.peer);
    let words = lock_words(alloc, &place.me)?;
    let _ = say(line, words.as_slice());
    talk_to_nobody(run, output)
}

/// Reports on standard error that another run talks with this system, which has called.
fn say_locked<A: Allocator + Copy, R: Eprint>(alloc: A, rt: &R, locks: &str, system: Name) {
    if let Ok(remark) = locked_remark(alloc, locks, system.as_str()) {
        let said = remark.as_str();
        let _ = eprint!(rt; "{said}");
    }
}

/// Runs a session with nobody, for a caller that has given no name, or the name of a system with which another run
/// talks. The folders of that system are not looked at.
fn talk_to_nobody<A, R, O>(run: &EndRun<'_, A, R>, output: &mut O) -> Result<Ended, RunFault>
where
    A: Allocator + Copy,
    R: System,
    O: Output,
    ensures { AnswersCall IsSessionFault (IsReported run.now.task.now.side) (status_of result)
        (O.written output.old) (O.written output.new)
        (O.fault_count output.old) (O.fault_count output.new) }
{
    let mut line = PortLine::new(run.rt, SilentPort, run.station.pace);
    talk_with(&run.with_peer(nobody()), &mut line, output)
}

/// Runs the session of the end at its line.
fn talk_with<A, R, L, O>(
    run: &EndRun<'_, A, R>,
    line: &mut L,
    output: &mut O,
) -> Result<Ended, RunFault>
where
    A: Allocator + Copy,
    R: System,
    L: EndLine,
    O: Output,
    ensures { AnswersCall IsSessionFault (IsReported run.now.task.now.side) (status_of result)
        (O.written output.old) (O.written output.new)
        (O.fault_count output.old) (O.fault_count output.new) }
{
    let call = said_of(run.task);
    let limits = run.station.limits();
    talk_over_spool(
        run.alloc,
        run.rt,
        &call,
        run.station.place,
        limits,
        line,
        output,
    )
}

/// Returns the system that has called. If any system of the spool may call, reads the caller's text first, and returns
/// `None` if that gives no name.
fn system_at<A, R, L, W>(
    run: &EndRun<'_, A, R>,
    line: &mut SessionLine<L, W, A>,
) -> Result<Option<Name>, AllocError>
where
    A: Allocator + Copy,
    R: Files,
    L: EndLine,
    W: SessionObserver,
{
    if run.task.peer != ANY {
        return Ok(Some(run.station.place.peer));
    }
    name_of_caller(run, line)
}

/// Sends the first words of a called end, and returns the name that the caller gives. If the spool has no folder of
/// that system, returns another name, and the caller is refused. Returns `None` if the caller gives no name.
fn name_of_caller<A, R, L, W>(
    run: &EndRun<'_, A, R>,
    line: &mut SessionLine<L, W, A>,
) -> Result<Option<Name>, AllocError>
where
    A: Allocator + Copy,
    R: Files,
    L: EndLine,
    W: SessionObserver,
{
    let (alloc, station) = (run.alloc, &run.station);
    meet_caller(alloc, &station.place, line, station.limits().greeting)?;
    let Some(name) = line.caller() else {
        return Ok(None);
    };
    let is_known = has_folder(alloc, run.rt, run.task.dir, &name)?;
    Ok(Some(name_at(&name, is_known)))
}

/// Returns the name that the end expects of a caller that has given this one: the same if it is known, or else another.
fn name_at(name: &Name, is_known: bool) -> Name
    ensures known { is_known ≡ true → result ≡ name.now }
    ensures other { is_known ≡ false → result ≢ name.now }
{
    if is_known { *name } else { other_than(name) }
}

/// Returns a name of no system, other than this one.
fn other_than(name: &Name) -> Name
    ensures nobody { result ≡ other_than name.now }
    ensures other { result ≢ name.now }
{
    let (any, nobody) = (any(), nobody());
    if name.as_bytes() == any.as_bytes() {
        nobody
    } else {
        any
    }
}

/// Returns `ANY` as a name.
fn any() -> Name
    ensures { result ≡ codes "*" }
{
    let Ok(any) = Name::new(ANY.as_bytes()) else {
        unreachable!();
    };
    any
}

/// Returns a name of no system.
fn nobody() -> Name
    ensures { result ≡ codes "?" }
{
    let Ok(nobody) = Name::new(b"?") else {
        unreachable!();
    };
    nobody
}

/// Returns whether the spool has a folder of this system.
fn has_folder<A: Allocator, R: Files>(
    alloc: A,
    rt: &R,
    spool: &str,
    name: &Name,
) -> Result<bool, AllocError>
    // It has no folder of a name that leads elsewhere.
    ensures { IfOk result (λ is_known. is_known ≡ true → is_system_name name.now ≡ true) }
{
    if !is_system_name(name) {
        return Ok(false);
    }
    let name = name.as_str();
    let path = format!(in alloc; "{spool}/{name}")?;
    match fs::metadata(rt, path.as_str()) {
        Ok(metadata) => Ok(metadata.is_dir()),
        Err(_) => Ok(false),
    }
}

/// Returns the name of a line in the log: `port`, if it is given, or else the name of the line.
fn port_of<'a>(port: Option<&'a str>, line: &'a str) -> &'a str
    ensures { result ≡ port_of port.entry line.entry }
{
    match port {
        Some(port) => port,
        None => line,
    }
}

/// Returns the task of a call over a spool, from the task of its end.
fn said_of<'a>(task: &CallTask<'a>) -> SpoolCall<'a>
    ensures { IsCallOf task.now result }
{
    SpoolCall {
        side: task.side,
        dir: task.dir,
        port: port_of(task.spool.port, task.line.name),
        settings: task.settings,
        allowance: task.limits.allowance(),
        outputs: task.outputs,
        spool: task.spool,
    }
}
