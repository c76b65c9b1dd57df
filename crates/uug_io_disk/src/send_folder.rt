//! Reads the texts in an end's folder, and the files that an end of `pair` has to give.
ghost use Rattle.std.specs.Prelude.{◌≡◌, ◌+◌, ◌<◌, ◌≤◌, IfOk, IfErr, IfSome, OnOk, length};
ghost use Rattle.uug_error.specs.Faults.{IsFolderFault};

use crate::dir_lock::DirLock;
use crate::part_path::is_part;
use crate::queued_copy::{COPY_FRONT, SPARE_FRONT};
use std::alloc::{AllocError, Allocator};
use std::fs::{DirEntry, File, ReadDir};
use std::io::ErrorKind;
use std::rt::Files;
use std::{fs, io};
use uug_error::{
    Cause, EndDir, EndText, LISTINGS_MAX, Resource, RunFault, read_within, was_interrupted,
};
use uug_session::{FileLimit, Stored};
use uug_talk::Name;

/// The maximum number of files to give in a folder of `pair`.
pub const FILES_MAX: usize = 256;

/// The mode of each file that is given.
pub const GIVEN_MODE: u16 = 0o644;

/// The maximum number of bytes of a text in a folder, for example that of its jobs.
pub const TEXT_MAX: usize = 16_777_216;

/// Returns whether there is a regular file at a path. Follows links: one that leads nowhere has no file. Callers check
/// this before they open a file, since opening a pipe would wait for a writer.
pub(crate) fn is_file<R: Files>(rt: &R, path: &str) -> io::Result<bool> {
    match fs::metadata(rt, path) {
        Ok(metadata) => Ok(metadata.is_file()),
        Err(error) => match error.kind() {
            ErrorKind::NotFound | ErrorKind::NotADirectory | ErrorKind::FilesystemLoop => Ok(false),
            _ => Err(error),
        },
    }
}

/// Reads the regular file at a path. Returns `None` if it has more than `most` bytes.
pub(crate) fn read_file<A: Allocator, R: Files>(
    alloc: A,
    rt: &R,
    path: &str,
    most: usize,
) -> io::Result<Option<Vec<u8, A>>>
    requires { most < u64.MAX }
    ensures within { IfOk result (λ found. IfSome found (λ bytes. length bytes.items ≤ most)) }
{
    read_within(alloc, File::open(rt, path)?, most)
}

fn given<A: Allocator>(name: Name, bytes: Vec<u8, A>) -> Stored<A> {
    Stored {
        name,
        mode: GIVEN_MODE,
        bytes,
    }
}

/// Adds a file to those that are given, unless it is over the limit.
pub(crate) fn add_given<A: Allocator, R: Files>(
    files: &mut Vec<Stored<A>, A>,
    alloc: A,
    rt: &R,
    dir: EndDir<'_>,
    name: Name,
    path: &str,
    limit: FileLimit,
) -> Result<(), RunFault>
    ensures one { length files.new.items ≤ length files.old.items + 1 }
    ensures no_other { IfErr result IsFolderFault }
{
    match read_file(alloc, rt, path, limit.bytes) {
        Ok(Some(bytes)) => {
            files.reserve(1)?;
            files.push_reserved(given(name, bytes));
        }
        Ok(None) => (),
        Err(error) => return Err(RunFault::of(&error, dir, Resource::Given(name))),
    }
    Ok(())
}

/// Reads this text in the folder of an end. Returns `None` if the file is missing. Anything but a regular file is a
/// failure, and so are more than `TEXT_MAX` bytes.
pub fn read_text<A: Allocator + Copy, R: Files>(
    alloc: A,
    rt: &R,
    dir: EndDir<'_>,
    which: EndText,
) -> Result<Option<Vec<u8, A>>, RunFault>
    ensures within { IfOk result (λ found. IfSome found (λ text. length text.items ≤ TEXT_MAX)) }
    ensures no_other { IfErr result IsFolderFault }
{
    let front = dir.path;
    let name = which.name();
    let path = format!(in alloc; "{front}/{name}")?;
    read_text_at(alloc, rt, dir, which, path.as_str())
}

/// Does the same with the file at this path.
pub(crate) fn read_text_at<A: Allocator + Copy, R: Files>(
    alloc: A,
    rt: &R,
    dir: EndDir<'_>,
    which: EndText,
    path: &str,
) -> Result<Option<Vec<u8, A>>, RunFault>
    ensures within { IfOk result (λ found. IfSome found (λ text. length text.items ≤ TEXT_MAX)) }
    ensures no_other { IfErr result IsFolderFault }
{
    let resource = Resource::Text(which);
    let metadata = match fs::metadata(rt, path) {
        Ok(metadata) => metadata,
        Err(error) if error.kind() == ErrorKind::NotFound => return Ok(None),
        Err(error) => return Err(RunFault::of(&error, dir, resource)),
    };
    if !metadata.is_file() {
        return Err(RunFault::System(dir.failure(resource, Cause::NotAFile)));
    }
    match read_file(alloc, rt, path, TEXT_MAX) {
        Ok(Some(text)) => Ok(Some(text)),
        Ok(None) => Err(RunFault::System(dir.failure(resource, Cause::TooMuch))),
        Err(error) => Err(RunFault::of(&error, dir, resource)),
    }
}

/// Returns the files in the folder `send` of an end of a pair. A missing folder counts as empty. Skips incomplete
/// files, marks of copies, files whose name is text but not a `Name`, and anything but a regular file. Also skips a
/// file of more than `FILE_MAX` bytes, but counts it among the `FILES_MAX`. A name that is not text is a failure.
/// Repeats a listing that a signal has ended.
pub fn read_send<A: Allocator + Copy, R: Files + Alloc + Clone + Drop>(
    alloc: A,
    rt: &R,
    lock: &DirLock<A>,
) -> Result<Vec<Stored<A>, A>, RunFault>
    ensures within { IfOk result (λ files. length files.items ≤ FILES_MAX) }
    ensures no_other { IfErr result IsFolderFault }
{
    for _ in 0..LISTINGS_MAX {
        let files = list_send(alloc, rt, lock.dir());
        if !was_interrupted(&files) {
            return files;
        }
        drop(files);
    }
    list_send(alloc, rt, lock.dir())
}

/// Does the same, in one listing.
fn list_send<A: Allocator + Copy, R: Files + Alloc + Clone + Drop>(
    alloc: A,
    rt: &R,
    dir: EndDir<'_>,
) -> Result<Vec<Stored<A>, A>, RunFault>
    ensures within { IfOk result (λ files. length files.items ≤ FILES_MAX) }
    ensures no_other { IfErr result IsFolderFault }
{
    let mut files = Vec::new(alloc);
    add_sends(&mut files, alloc, rt, dir)?;
    Ok(files)
}

/// Adds the files in the folder `send` of an end to `files`, which is empty.
fn add_sends<A: Allocator + Copy, R: Files + Alloc + Clone + Drop>(
    files: &mut Vec<Stored<A>, A>,
    alloc: A,
    rt: &R,
    dir: EndDir<'_>,
) -> Result<(), RunFault>
    requires { length files.old.items ≡ 0 }
    ensures within { OnOk result (length files.new.items ≤ FILES_MAX) }
    ensures no_other { IfErr result IsFolderFault }
{
    let front = dir.path;
    let path = format!(in alloc; "{front}/send")?;
    match fs::read_dir(rt, path.as_str()) {
        Ok(entries) => add_entries(files, alloc, rt, dir, entries),
        Err(error) if error.kind() == ErrorKind::NotFound => Ok(()),
        Err(error) => Err(RunFault::of(&error, dir, Resource::Send)),
    }
}

/// Adds the files of these entries to `files`, which is empty.
fn add_entries<A: Allocator + Copy, R: Files + Alloc + Clone + Drop>(
    files: &mut Vec<Stored<A>, A>,
    alloc: A,
    rt: &R,
    dir: EndDir<'_>,
    entries: ReadDir<R, R::A>,
) -> Result<(), RunFault>
    requires { length files.old.items ≡ 0 }
    ensures within { OnOk result (length files.new.items ≤ FILES_MAX) }
    ensures no_other { IfErr result IsFolderFault }
{
    let mut count = 0;
    for entry in entries {
        let entry = match entry {
            Ok(entry) => entry,
            Err(error) => return Err(RunFault::of(&error, dir, Resource::Send)),
        };
        add_entry(files, alloc, rt, dir, &entry, &mut count)?;
    }
    Ok(())
}

/// Adds the file of an entry, if it may be given, and counts it. A file that is too large is only counted. More than
/// `FILES_MAX` files are a failure.
fn add_entry<A: Allocator + Copy, R: Files + Alloc + Clone + Drop>(
    files: &mut Vec<Stored<A>, A>,
    alloc: A,
    rt: &R,
    dir: EndDir<'_>,
    entry: &DirEntry<R, R::A>,
    count: &mut usize,
) -> Result<(), RunFault>
    requires counted { length files.old.items ≤ count.old }
    requires within { count.old ≤ FILES_MAX }
    ensures counted { OnOk result (length files.new.items ≤ count.new) }
    ensures within { OnOk result (count.new ≤ FILES_MAX) }
    ensures no_other { IfErr result IsFolderFault }
{
    let name = match given_name(rt, dir, entry) {
        Ok(Some(name)) => name,
        Ok(None) => return Ok(()),
        Err(fault) => return Err(fault),
    };
    if *count >= FILES_MAX {
        return Err(RunFault::System(dir.failure(Resource::Send, Cause::TooMuch)));
    }
    *count += 1;
    let path = entry.path();
    add_given(
        files,
        alloc,
        rt,
        dir,
        name,
        path.as_str(),
        FileLimit::standard(),
    )
}

/// Returns the name of an entry's file, if it may be given. An incomplete file may not, nor may the mark of a copy.
fn given_name<R: Files + Alloc + Clone + Drop>(
    rt: &R,
    dir: EndDir<'_>,
    entry: &DirEntry<R, R::A>,
) -> Result<Option<Name>, RunFault>
    ensures { IfErr result IsFolderFault }
{
    let file = entry.file_name();
    if is_part(file) || file.starts_with(COPY_FRONT) || file.starts_with(SPARE_FRONT) {
        return Ok(None);
    }
    let Ok(name) = Name::new(entry.file_name().as_bytes()) else {
        return Ok(None);
    };
    match is_file(rt, entry.path().as_str()) {
        Ok(true) => Ok(Some(name)),
        Ok(false) => Ok(None),
        Err(error) => Err(RunFault::of(&error, dir, Resource::Given(name))),
    }
}

/// Returns whether a listing has reached a name that is not text. The listing continues after that name.
pub(crate) fn is_no_text(error: &io::Error) -> bool {
    error.kind() == ErrorKind::InvalidFilename
}

/// Returns the path of a file in the folder `send` of an end.
pub(crate) fn path_in_send<A: Allocator + Copy>(
    alloc: A,
    dir: EndDir<'_>,
    name: &Name,
) -> Result<String<A>, AllocError> {
    let front = dir.path;
    let name = name.as_str();
    format!(in alloc; "{front}/send/{name}")
}
