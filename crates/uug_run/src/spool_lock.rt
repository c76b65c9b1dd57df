//! The lock of the other system of an end over a spool, which uucico respects too, and the reports if another run holds
//! it.
ghost use Rattle.std.specs.Prelude.{◌≡◌, ◌++◌, IfErr, IfOk, None, Ok, OnOk, Some, false, string_bytes};
ghost use Rattle.uug_error.specs.Faults.{IsFolderFault};
ghost use Rattle.uug_run.specs.SpoolLocks.{IsRefusedLock, Says, file_words, is_held, is_in_use, is_locked, lock_words, locked_by, locked_remark};
ghost use Rattle.uug_talk.specs.Texts.{written_text};

use std::alloc::{AllocError, Allocator};
use std::fs::File;
use std::io::{ErrorKind, Write};
use std::rt::Files;
use std::{fs, io};
use uug_config::{CallTask, System};
use uug_error::{Cause, EndDir, Resource, RunFault};
use uug_error_text::{add_escaped, locks_line};
use uug_io_disk::{DeviceLock, lock_device};
use uug_io_lock::lock_path;
use uug_observe::log_fault;
use uug_observe_log::words_of;
use uug_stream::ToolFault;
use uug_talk::{Name, TEXT_START};
use uug_transfer::EndLine;

/// The number of the folder of the locks among the folders of one end. The end's own folder has 0.
const LOCKS: usize = 1;

/// Locks the other system. If the path of the lock can't be examined, for example because its folder is a file, the
/// lock counts as refused, not as held by another run.
pub(crate) fn lock_system<A: Allocator + Copy, R: Files<File = File>>(
    alloc: A,
    rt: &R,
    locks: &str,
    system: &str,
) -> Result<DeviceLock<A>, RunFault>
    ensures { IfErr result IsFolderFault }
{
    let path = lock_path(alloc, locks, system)?;
    match fs::symlink_metadata(rt, path.as_str()) {
        Err(error) if error.kind() != ErrorKind::NotFound => {
            Err(refused(locks, error.kind(), error.raw_os_error()))
        }
        _ => got(alloc, rt, locks, lock_device(alloc, rt, locks, system)),
    }
}

/// Returns whether there is a lock file of this name in the folder of the locks.
pub(crate) fn has_lock<A: Allocator, R: Files>(alloc: A, rt: &R, locks: &str, name: &str) -> bool {
    match lock_path(alloc, locks, name) {
        Ok(path) => fs::symlink_metadata(rt, path.as_str()).is_ok(),
        Err(_) => false,
    }
}

/// Returns the lock, if the end has got it. It is a fault if the system creates none: another run may talk with the
/// other system.
fn got<A: Allocator + Copy, R: Files<File = File>, L>(
    alloc: A,
    rt: &R,
    locks: &str,
    answer: Result<Option<L>, RunFault>,
) -> Result<L, RunFault>
    requires fault { IfErr answer IsFolderFault }
    ensures lock { IfOk result (λ lock. answer ≡ Ok (Some lock)) }
    ensures held { IfErr answer (λ fault. result ≡ Err fault) }
    ensures refused { answer ≡ Ok None → IfErr result IsRefusedLock }
    ensures no_other { IfErr result IsFolderFault }
{
    match answer {
        Ok(Some(lock)) => Ok(lock),
        Ok(None) => Err(why_refused(alloc, rt, locks)),
        Err(fault) => Err(fault),
    }
}

/// Returns why no lock can be created in this folder, by trying to create a file there. If that succeeds, the system
/// refuses the link to the lock's name or the removal of the lock of a process that is gone, or it does not report this
/// process's number.
fn why_refused<A: Allocator + Copy, R: Files<File = File>>(
    alloc: A,
    rt: &R,
    locks: &str,
) -> RunFault
    ensures refused { IsRefusedLock result }
    ensures no_other { IsFolderFault result }
{
    match try_file(alloc, rt, locks) {
        Ok(()) => refused(locks, ErrorKind::PermissionDenied, None),
        Err(error) => refused(locks, error.kind(), error.raw_os_error()),
    }
}

/// Reports, on standard error and in the log, why no lock file can be created in the folder of the locks. Only other
/// runs of uucpair are then kept off a device.
pub(crate) fn tell_unlocked<A: Allocator + Copy, R: System>(alloc: A, rt: &R, task: &CallTask<'_>) {
    if let RunFault::System(failure) = why_refused(alloc, rt, task.line.locks) {
        if let Ok(line) = locks_line(alloc, task.line.locks, failure) {
            let line = line.as_str();
            let _ = eprint!(rt; "{line}");
            log_fault(alloc, rt, task, words_of(line));
        }
    }
}

/// Returns the fault that the system refuses to create a lock in this folder, with an error of this kind and number.
/// `OutOfMemory` without a number is this program's own fault.
fn refused(locks: &str, kind: ErrorKind, number: Option<i32>) -> RunFault
    ensures refused { IsRefusedLock result }
    ensures no_other { IsFolderFault result }
{
    if kind == ErrorKind::OutOfMemory && number.is_none() {
        return RunFault::Tool(ToolFault::Memory);
    }
    let locks = EndDir {
        path: locks,
        number: LOCKS,
    };
    RunFault::System(locks.failure(Resource::Dir, Cause::Refused(kind, number)))
}

/// Creates a file in this folder, and removes it.
fn try_file<A: Allocator, R: Files<File = File>>(alloc: A, rt: &R, folder: &str) -> io::Result<()> {
    let path = format!(in alloc; "{folder}/.part.lock")?;
    let made = match File::create_new(rt, path.as_str()) {
        Ok(mut file) => file.write_all(b"\n"),
        Err(error) if error.kind() == ErrorKind::AlreadyExists => Ok(()),
        Err(error) => return Err(error),
    };
    let _ = fs::remove_file(rt, path.as_str());
    made
}

/// Returns whether this fault means that another run has the lock.
pub(crate) fn is_locked(fault: &RunFault) -> bool
    ensures { result ≡ is_locked fault.now }
{
    match fault {
        RunFault::System(failure) => is_in_use(failure.cause),
        RunFault::Unread(_) | RunFault::Tool(_) => false,
    }
}

pub(crate) fn is_in_use(cause: Cause) -> bool
    ensures { result ≡ is_in_use cause }
{
    matches!(cause, Cause::InUse)
}

/// Returns whether another run has this lock.
pub(crate) fn is_held<L>(lock: &Result<L, RunFault>) -> bool
    ensures { result ≡ is_held lock.now }
{
    match lock {
        Ok(_) => false,
        Err(fault) => is_locked(fault),
    }
}

/// Returns the remark that this system is locked, and by which file.
pub(crate) fn locked_remark<A: Allocator + Copy>(
    alloc: A,
    locks: &str,
    system: &str,
) -> Result<String<A>, AllocError>
    ensures { IfOk result (λ remark. string_bytes remark ≡ locked_remark locks.now system.now) }
{
    let path = lock_path(alloc, locks, system)?;
    let mut remark = String::new(alloc);
    add_locked(&mut remark, system, path.as_str())?;
    Ok(remark)
}

/// Appends that this system is locked, and by which file.
fn add_locked<A: Allocator>(
    text: &mut String<A>,
    system: &str,
    path: &str,
) -> Result<(), AllocError>
    ensures { OnOk result (string_bytes text.new
        ≡ string_bytes text.old ++ locked_by system.now path.now) }
{
    text.push_str("uucpair: system ")?;
    add_escaped(text, system.as_bytes())?;
    add_file(text, path)
}

/// Appends by which file a system is locked.
fn add_file<A: Allocator>(text: &mut String<A>, path: &str) -> Result<(), AllocError>
    ensures { OnOk result (string_bytes text.new ≡ string_bytes text.old ++ file_words path.now) }
{
    text.push_str(" is locked by ")?;
    add_escaped(text, path.as_bytes())?;
    text.push_str("\n")
}

/// Returns the texts that a called end sends to a caller whose system is locked: its name, and `RLCK`.
pub(crate) fn lock_words<A: Allocator>(alloc: A, me: &Name) -> Result<Vec<u8, A>, AllocError>
    ensures { IfOk result (λ words. words.items ≡ lock_words me.now) }
{
    let mut words = Vec::new(alloc);
    add_text(&mut words, b"Shere=", me.as_bytes())?;
    add_text(&mut words, b"RLCK", b"")?;
    Ok(words)
}

/// Appends a text of a greeting, given in two parts.
fn add_text<A: Allocator>(
    words: &mut Vec<u8, A>,
    front: &[u8],
    back: &[u8],
) -> Result<(), AllocError>
    ensures { OnOk result (words.new.items
        ≡ words.old.items ++ written_text (front.now ++ back.now)) }
{
    words.push(TEXT_START)?;
    words.extend_from_slice(front)?;
    words.extend_from_slice(back)?;
    words.push(0)?;
    Ok(())
}

/// Writes these words, until a write takes none of them. Returns whether all were written.
pub(crate) fn say<L: EndLine>(line: &mut L, words: &[u8]) -> bool
    ensures says { Says words.now (L.taken line.old) (L.taken line.new)
        (L.writes line.old) (L.writes line.new) }
    ensures unread { L.received line.new ≡ L.received line.old }
{
    let mut rest = words;
    while !rest.is_empty() {
        let count = line.write(rest);
        if count == 0 {
            return false;
        }
        rest = &rest[count..];
    }
    true
}
