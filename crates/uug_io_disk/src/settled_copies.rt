//! Moves or removes the copies of queued files once their jobs are over.
ghost use Rattle.std.specs.Prelude.{IfErr};
ghost use Rattle.uug_error.specs.Faults.{IsFolderFault, IsReadingFault};

use crate::copy_place::{CopyPlace, place_of};
use crate::dir_lock::{DirLock, open_dir};
use crate::part_path::{is_part, remove_part};
use crate::queued_copy::{COPY_FRONT, Copied, FAILED_FILES, SPARE_FRONT, copied_as, marked_as};
use crate::queued_line::jobs_in;
use crate::send_folder::read_text;
use crate::system_text::lock_at;
use std::alloc::{AllocError, Allocator};
use std::fs::{DirEntry, File};
use std::io::ErrorKind;
use std::rt::Files;
use std::{fs, io};
use uug_error::{EndDir, EndText, Resource, RunFault};
use uug_session::Job;
use uug_talk::Name;

/// Puts the copies in `send` where they belong after a session. The copy of a failed job is moved to `failed.files`. The
/// copy of a job that is done is removed, if neither a pending nor a failed job sends it. If somebody queues a file at this moment, this is
/// left to that run, or to a later one. A copy that can't be moved or removed is left to the next run.
pub fn settle_copies<A: Allocator + Copy, R: Files<File = File> + Alloc + Clone + Drop>(
    alloc: A,
    rt: &R,
    lock: &DirLock<A>,
) {
    let dir = lock.dir();
    if let Ok(send) = lock_free_send(alloc, rt, dir) {
        let _ = settle_now(alloc, rt, dir);
        drop(send);
    }
}

/// Does the same while `send` is locked. Does nothing if there is no file of jobs, as while somebody replaces it, or if
/// the file of failed jobs can't be read.
pub(crate) fn settle_now<A: Allocator + Copy, R: Files<File = File> + Alloc + Clone + Drop>(
    alloc: A,
    rt: &R,
    dir: EndDir<'_>,
) -> Result<(), RunFault>
    ensures { IfErr result IsReadingFault }
{
    let lock = lock_text(alloc, rt, dir)?;
    let settled = settle_locked(alloc, rt, dir);
    drop(lock);
    settled
}

/// Does the same while the file of jobs is locked, too, if there is one.
fn settle_locked<A: Allocator + Copy, R: Files + Alloc + Clone + Drop>(
    alloc: A,
    rt: &R,
    dir: EndDir<'_>,
) -> Result<(), RunFault>
    ensures { IfErr result IsReadingFault }
{
    let Some(text) = read_text(alloc, rt, dir, EndText::Jobs)? else {
        return Ok(());
    };
    let waiting = jobs_in(alloc, text.as_slice())?;
    if let Some(failed) = failed_text(alloc, rt, dir) {
        settle_all(alloc, rt, dir, waiting.pending(), failed.as_slice())?;
    }
    Ok(())
}

/// Locks the file of jobs, as a session does to take jobs out of it. Waits for the lock. Returns `None` if there is no
/// file.
pub(crate) fn lock_text<A: Allocator + Copy, R: Files<File = File>>(
    alloc: A,
    rt: &R,
    dir: EndDir<'_>,
) -> Result<Option<File>, RunFault>
    ensures { IfErr result IsFolderFault }
{
    let front = dir.path;
    let path = format!(in alloc; "{front}/jobs")?;
    match lock_at(rt, path.as_str()) {
        Ok(lock) => Ok(lock),
        Err(error) => Err(RunFault::of(&error, dir, Resource::Text(EndText::Jobs))),
    }
}

/// Locks `send` for a run that queues a file. Waits for the lock.
pub(crate) fn lock_send<A: Allocator + Copy, R: Files<File = File>>(
    alloc: A,
    rt: &R,
    dir: EndDir<'_>,
) -> Result<File, RunFault>
    ensures { IfErr result IsFolderFault }
{
    let front = dir.path;
    let send = format!(in alloc; "{front}/send")?;
    match open_and_wait(rt, send.as_str()) {
        Ok(file) => Ok(file),
        Err(error) => Err(RunFault::of(&error, dir, Resource::Send)),
    }
}

fn open_and_wait<R: Files<File = File>>(rt: &R, send: &str) -> io::Result<File> {
    let file = open_dir(rt, send)?;
    file.lock()?;
    Ok(file)
}

/// Locks `send`, unless somebody queues a file.
fn lock_free_send<A: Allocator + Copy, R: Files<File = File>>(
    alloc: A,
    rt: &R,
    dir: EndDir<'_>,
) -> io::Result<File> {
    let front = dir.path;
    let send = format!(in alloc; "{front}/send")?;
    let file = open_dir(rt, send.as_str())?;
    match file.try_lock() {
        Ok(()) => Ok(file),
        Err(_) => Err(io::Error::from(ErrorKind::WouldBlock)),
    }
}

/// Returns the text that lists the failed jobs, or `None` if it can't be read. A missing file has an empty text.
pub(crate) fn failed_text<A: Allocator + Copy, R: Files>(
    alloc: A,
    rt: &R,
    dir: EndDir<'_>,
) -> Option<Vec<u8, A>> {
    match read_text(alloc, rt, dir, EndText::Failed) {
        Ok(Some(failed)) => Some(failed),
        Ok(None) => Some(Vec::new(alloc)),
        Err(_) => None,
    }
}

/// Puts the copies in `send` where they belong, for these pending jobs and the text that lists the failed ones. Also
/// removes incomplete copies.
fn settle_all<A: Allocator + Copy, R: Files + Alloc + Clone + Drop>(
    alloc: A,
    rt: &R,
    dir: EndDir<'_>,
    waiting: &[Job],
    failed: &[u8],
) -> Result<(), AllocError> {
    let front = dir.path;
    let send = format!(in alloc; "{front}/send")?;
    let failed_files = format!(in alloc; "{front}/{FAILED_FILES}")?;
    let Ok(entries) = fs::read_dir(rt, send.as_str()) else {
        return Ok(());
    };
    for entry in entries {
        let Ok(entry) = entry else {
            continue;
        };
        if is_part(entry.file_name()) {
            remove_part(rt, &entry);
        }
        if let Some(name) = marked_name(&entry, COPY_FRONT) {
            let copy = copied_as(alloc, dir, name)?;
            settle_copy(rt, &copy, front, failed_files.as_str(), waiting, failed);
        } else if let Some(name) = marked_name(&entry, SPARE_FRONT) {
            let copy = marked_as(alloc, dir, SPARE_FRONT, name)?;
            let unmarked = copied_as(alloc, dir, name)?;
            clear_copy(rt, &copy, &unmarked, waiting, failed);
        }
    }
    Ok(())
}

/// Puts a copy where it belongs, for these pending jobs and the text that lists the failed ones. A copy whose job is
/// missing stays, as the job may come back: somebody edits `jobs`, or has made its line a comment.
#[tactic(auto, using(crate::proofs::CopyLemmas::aside_needed))]
fn settle_copy<A: Allocator, R: Files>(
    rt: &R,
    copy: &Copied<A>,
    front: &str,
    failed_files: &str,
    waiting: &[Job],
    failed: &[u8],
) {
    match place_of(waiting, failed, &copy.name) {
        CopyPlace::InSend => (),
        CopyPlace::WithFailed => copy.set_aside(rt, front, failed_files, waiting),
        CopyPlace::Nowhere => copy.clear_mark(rt),
    }
}

/// Removes a copy whose job is done. If another job sends it, it gets its former mark again.
#[tactic(auto, using(crate::proofs::CopyLemmas::nowhere_needed))]
fn clear_copy<A: Allocator, R: Files>(
    rt: &R,
    copy: &Copied<A>,
    unmarked: &Copied<A>,
    waiting: &[Job],
    failed: &[u8],
) {
    match place_of(waiting, failed, &copy.name) {
        CopyPlace::InSend | CopyPlace::WithFailed => copy.mark_as(rt, unmarked),
        CopyPlace::Nowhere => copy.clear(rt, waiting),
    }
}

/// Returns the name of the copy whose mark, with this prefix, is an entry of `send`.
fn marked_name<R: Files, A: Allocator>(entry: &DirEntry<R, A>, front: &str) -> Option<Name> {
    let name = entry.file_name().strip_prefix(front)?;
    Name::new(name.as_bytes()).ok()
}
