//! The files that an end of `call` or `answer` gives in a session, and the number of its jobs for which there is room.
ghost use Rattle.std.specs.Prelude.{◌≡◌, ◌+◌, ◌≤◌, false, IfErr, IfOk, OnOk, length};
ghost use Rattle.uug_error.specs.Faults.{IsFolderFault};
ghost use Rattle.uug_io_disk.specs.Copies.{room_behind};
ghost use Rattle.uug_io_disk.specs.declared.given_files.TheConstants.{OTHERS_MAX};

use crate::dir_lock::DirLock;
use crate::passed_over::{Lack, PassedOver};
use crate::queued_copy::{is_copy, path_with_failed};
use crate::send_folder::{add_given, is_file, is_no_text, path_in_send};
use std::alloc::Allocator;
use std::fs;
use std::fs::{DirEntry, ReadDir};
use std::io::ErrorKind;
use std::rt::Files;
use uug_error::{EndDir, LISTINGS_MAX, Resource, RunFault, was_interrupted};
use uug_session::{Job, Stored};
use uug_store::{Allowance, local_source};
use uug_talk::Name;

/// The maximum number of files that an end gives besides those of its offered jobs.
pub const OTHERS_MAX: usize = 256;

/// The allowance for files besides those of the offered jobs.
#[derive(Clone, Copy)]
struct Others {
    /// The number of files of the offered jobs, which come first.
    before: usize,
    /// The allowance that is left.
    left: Allowance,
}

/// The files that an end gives in a session, and the number of jobs that it offers.
#[derive(Drop)]
pub struct Given<A: Allocator> {
    /// The files of the offered jobs, and others that the other end may request.
    pub files: Vec<Stored<A>, A>,
    /// The number of its jobs that are offered: the first ones.
    pub offered: usize,
    /// The names of other files that can't be given now, but may be later.
    pub delayed: Vec<Name, A>,
    /// The lines that report other files that are not given.
    pub passed: Vec<String<A>, A>,
}

/// Returns the files that an end gives. First come the files of its first jobs, as many as there is room for. Up to
/// `OTHERS_MAX` other files in the end's folder `send` follow, with as much room again; the other end may request them.
/// The remaining jobs wait for another session, and their number is reported on standard error. A job's file that isn't
/// in `send` is looked for with those of failed jobs, so a failed job can be tried again by appending its line to
/// `jobs`. A missing folder counts as empty. Skips hidden files, copies whose job is not offered, anything but a
/// regular file, and files over the limit. Other files that are not given are reported on standard error. A file that
/// can't be read is a fault only if a job sends it. Repeats a listing that a signal has ended.
pub fn read_given<A: Allocator + Copy, R: Files + Eprint + Alloc + Clone + Drop>(
    alloc: A,
    rt: &R,
    lock: &DirLock<A>,
    jobs: &[Job],
    allowance: Allowance,
) -> Result<Given<A>, RunFault>
    ensures within { IfOk result (λ given.
        length given.files.items ≤ given.offered + OTHERS_MAX) }
    ensures offered { IfOk result (λ given. given.offered ≤ length jobs.now) }
    ensures some { IfOk result (λ given. given.offered ≡ 0 → length jobs.now ≡ 0) }
    ensures no_other { IfErr result IsFolderFault }
{
    let given = list_again(alloc, rt, lock.dir(), jobs, allowance)?;
    say_passed(rt, given.passed.as_slice());
    say_waiting(rt, jobs.len() - given.offered);
    Ok(given)
}

/// Does the same, but reports nothing.
fn list_again<A: Allocator + Copy, R: Files + Alloc + Clone + Drop>(
    alloc: A,
    rt: &R,
    dir: EndDir<'_>,
    jobs: &[Job],
    allowance: Allowance,
) -> Result<Given<A>, RunFault>
    ensures within { IfOk result (λ given.
        length given.files.items ≤ given.offered + OTHERS_MAX) }
    ensures offered { IfOk result (λ given. given.offered ≤ length jobs.now) }
    ensures some { IfOk result (λ given. given.offered ≡ 0 → length jobs.now ≡ 0) }
    ensures no_other { IfErr result IsFolderFault }
{
    for _ in 0..LISTINGS_MAX {
        let given = list_given(alloc, rt, dir, jobs, allowance);
        if !was_interrupted(&given) {
            return given;
        }
        drop(given);
    }
    list_given(alloc, rt, dir, jobs, allowance)
}

/// Does the same, in one listing.
fn list_given<A: Allocator + Copy, R: Files + Alloc + Clone + Drop>(
    alloc: A,
    rt: &R,
    dir: EndDir<'_>,
    jobs: &[Job],
    allowance: Allowance,
) -> Result<Given<A>, RunFault>
    ensures within { IfOk result (λ given.
        length given.files.items ≤ given.offered + OTHERS_MAX) }
    ensures offered { IfOk result (λ given. given.offered ≤ length jobs.now) }
    ensures some { IfOk result (λ given. given.offered ≡ 0 → length jobs.now ≡ 0) }
    ensures no_other { IfErr result IsFolderFault }
{
    let mut files = Vec::new(alloc);
    let offered = add_sources(&mut files, alloc, rt, dir, jobs, allowance)?;
    let (delayed, passed) = add_others(&mut files, alloc, rt, dir, allowance)?;
    Ok(Given {
        files,
        offered,
        delayed,
        passed,
    })
}

/// Reports which files are not given.
fn say_passed<A: Allocator>(rt: &impl Eprint, lines: &[String<A>]) {
    for line in lines {
        let line = line.as_str();
        let _ = eprint!(rt; "{line}");
    }
}

/// Reports how many jobs wait for another session.
fn say_waiting(rt: &impl Eprint, count: usize) {
    if count == 1 {
        let _ = eprint!(rt; "uucpair: 1 job waits for the next session\n");
    } else if count > 1 {
        let _ = eprint!(rt; "uucpair: {count} jobs wait for the next session\n");
    }
}

/// Adds the files of the first jobs, as many as there is room for, and returns the number of these jobs. The first job
/// is always among them.
fn add_sources<A: Allocator + Copy, R: Files>(
    files: &mut Vec<Stored<A>, A>,
    alloc: A,
    rt: &R,
    dir: EndDir<'_>,
    jobs: &[Job],
    allowance: Allowance,
) -> Result<usize, RunFault>
    requires { length files.old.items ≡ 0 }
    ensures within { IfOk result (λ offered. length files.new.items ≤ offered) }
    ensures offered { IfOk result (λ offered. offered ≤ length jobs.now) }
    ensures some { IfOk result (λ offered. offered ≡ 0 → length jobs.now ≡ 0) }
    ensures no_other { IfErr result IsFolderFault }
{
    let mut left = allowance;
    for (place, job) in jobs.iter().enumerate() {
        let has_room = match source_of(job) {
            Some(name) => add_source(files, alloc, rt, dir, name, &mut left)?,
            None => true,
        };
        if !has_room && place > 0 {
            return Ok(place);
        }
    }
    Ok(jobs.len())
}

/// Returns the name in `send` of the file that a job gives.
pub(crate) fn source_of(job: &Job) -> Option<Name> {
    match job {
        Job::Send { source, .. } => local_source(source),
        Job::Request { .. } => None,
    }
}

/// Adds the file of this name, which a job sends, unless it was added before, is missing, is over the limit or does not
/// fit in the room. Takes its size from the room. Returns false if it does not fit.
fn add_source<A: Allocator + Copy, R: Files>(
    files: &mut Vec<Stored<A>, A>,
    alloc: A,
    rt: &R,
    dir: EndDir<'_>,
    name: Name,
    left: &mut Allowance,
) -> Result<bool, RunFault>
    ensures one { length files.new.items ≤ length files.old.items + 1 }
    ensures full { result ≡ Ok false → length files.new.items ≤ length files.old.items }
    ensures no_other { IfErr result IsFolderFault }
{
    if is_there(files.as_slice(), &name) {
        return Ok(true);
    }
    let path = match source_path(alloc, rt, dir, name) {
        Ok(Some(path)) => path,
        Ok(None) => return Ok(true),
        Err(fault) => return Err(fault),
    };
    let before = files.len();
    add_given(files, alloc, rt, dir, name, path.as_str(), left.limit)?;
    Ok(fits(files, before, &mut left.bytes))
}

/// Returns the path of the file of this name, which a job sends: in `send`, or else with the files of failed jobs.
pub(crate) fn source_path<A: Allocator + Copy, R: Files>(
    alloc: A,
    rt: &R,
    dir: EndDir<'_>,
    name: Name,
) -> Result<Option<String<A>>, RunFault>
    ensures { IfErr result IsFolderFault }
{
    let path = path_in_send(alloc, dir, &name)?;
    match has_file(rt, dir, name, path.as_str()) {
        Ok(true) => return Ok(Some(path)),
        Ok(false) => (),
        Err(fault) => return Err(fault),
    }
    let path = path_with_failed(alloc, dir, &name)?;
    match has_file(rt, dir, name, path.as_str()) {
        Ok(true) => Ok(Some(path)),
        Ok(false) => Ok(None),
        Err(fault) => Err(fault),
    }
}

/// Returns whether the file of this name, which a job sends, is at this path.
fn has_file<R: Files>(rt: &R, dir: EndDir<'_>, name: Name, path: &str) -> Result<bool, RunFault>
    ensures { IfErr result IsFolderFault }
{
    match is_file(rt, path) {
        Ok(is_file) => Ok(is_file),
        Err(error) => Err(RunFault::of(&error, dir, Resource::Given(name))),
    }
}

/// Returns whether the file after the first `before`, if one was added, fits in the room. Takes its size from the room.
/// The first of all files always fits. Any other that does not fit is removed from the list.
fn fits<A: Allocator>(files: &mut Vec<Stored<A>, A>, before: usize, room: &mut u64) -> bool
    ensures fewer { length files.new.items ≤ length files.old.items }
    ensures full { result ≡ false → length files.new.items ≤ before }
{
    let size = match files.get(before) {
        Some(file) => file.bytes.len() as u64,
        None => return true,
    };
    match room_behind(*room, size) {
        Some(left) => {
            *room = left;
            true
        }
        None if before == 0 => {
            *room = 0;
            true
        }
        None => {
            files.truncate(before);
            false
        }
    }
}

/// Returns the room that is left after a file of this size, if it fits.
fn room_behind(room: u64, size: u64) -> Option<u64>
    ensures { result ≡ room_behind room size }
{
    room.checked_sub(size)
}

/// Returns whether one of these files has this name.
fn is_there<A: Allocator>(files: &[Stored<A>], name: &Name) -> bool {
    files
        .iter()
        .any(|file| file.name.as_bytes() == name.as_bytes())
}

/// Adds up to `OTHERS_MAX` other files in `send`, as far as there is room. Returns the names of those that can't be
/// given now, but may be later, and the lines that report those that are not given.
fn add_others<A: Allocator + Copy, R: Files + Alloc + Clone + Drop>(
    files: &mut Vec<Stored<A>, A>,
    alloc: A,
    rt: &R,
    dir: EndDir<'_>,
    allowance: Allowance,
) -> Result<(Vec<Name, A>, Vec<String<A>, A>), RunFault>
    ensures within { OnOk result
        (length files.new.items ≤ length files.old.items + OTHERS_MAX) }
    ensures no_other { IfErr result IsFolderFault }
{
    let front = dir.path;
    let path = format!(in alloc; "{front}/send")?;
    let mut others = Others {
        before: files.len(),
        left: allowance,
    };
    let mut passed = PassedOver::none(alloc, path.as_str());
    match fs::read_dir(rt, path.as_str()) {
        Ok(entries) => add_entries(files, alloc, rt, dir, entries, &mut others, &mut passed)?,
        Err(error) if error.kind() == ErrorKind::NotFound => (),
        Err(error) => return Err(RunFault::of(&error, dir, Resource::Send)),
    }
    passed.count_rest();
    let PassedOver { lines, delayed, .. } = passed;
    Ok((delayed, lines))
}

/// Adds the files of these entries of `send`, as far as they may be given besides those of jobs.
fn add_entries<A: Allocator + Copy, R: Files + Alloc + Clone + Drop>(
    files: &mut Vec<Stored<A>, A>,
    alloc: A,
    rt: &R,
    dir: EndDir<'_>,
    entries: ReadDir<R, R::A>,
    others: &mut Others,
    passed: &mut PassedOver<'_, A>,
) -> Result<(), RunFault>
    requires { length files.old.items ≤ others.old.before + OTHERS_MAX }
    ensures within { OnOk result (length files.new.items ≤ others.new.before + OTHERS_MAX) }
    ensures before { others.new.before ≡ others.old.before }
    ensures no_other { IfErr result IsFolderFault }
{
    for entry in entries {
        match entry {
            Ok(entry) => add_entry(files, alloc, rt, dir, &entry, others, passed)?,
            Err(error) if is_no_text(&error) => passed.note_no_text(),
            Err(error) => return Err(RunFault::of(&error, dir, Resource::Send)),
        }
    }
    Ok(())
}

/// Adds the file of an entry, or notes why it is not given. Skips it without a note if it is hidden, a copy, over the
/// limit, no regular file, or added already.
fn add_entry<A: Allocator + Copy, R: Files + Alloc + Clone + Drop>(
    files: &mut Vec<Stored<A>, A>,
    alloc: A,
    rt: &R,
    dir: EndDir<'_>,
    entry: &DirEntry<R, R::A>,
    others: &mut Others,
    passed: &mut PassedOver<'_, A>,
) -> Result<(), RunFault>
    requires { length files.old.items ≤ others.old.before + OTHERS_MAX }
    ensures within { OnOk result (length files.new.items ≤ others.new.before + OTHERS_MAX) }
    ensures before { others.new.before ≡ others.old.before }
    ensures no_other { IfErr result IsFolderFault }
{
    let path = entry.path();
    if entry.file_name().starts_with('.') || !may_be_file(rt, path.as_str()) {
        return Ok(());
    }
    let Ok(name) = Name::new(entry.file_name().as_bytes()) else {
        passed.note(Lack::Name, path.as_str());
        return Ok(());
    };
    if is_there(files.as_slice(), &name) || is_copy(alloc, rt, dir, name)? {
        return Ok(());
    }
    let count = files.len();
    if count.saturating_sub(others.before) >= OTHERS_MAX {
        passed.note(Lack::Room, path.as_str());
        return Ok(());
    }
    match add_given(
        files,
        alloc,
        rt,
        dir,
        name,
        path.as_str(),
        others.left.limit,
    ) {
        Ok(()) if !fits(files, count, &mut others.left.bytes) => {
            passed.note_large(name, path.as_str())?;
            Ok(())
        }
        Err(RunFault::System(failure)) => {
            passed.note_unread(name, path.as_str(), failure.cause)?;
            Ok(())
        }
        added => added,
    }
}

/// Returns whether there may be a regular file at a path: there is one, or this can't be checked.
fn may_be_file<R: Files>(rt: &R, path: &str) -> bool {
    match is_file(rt, path) {
        Ok(is_file) => is_file,
        Err(_) => true,
    }
}
