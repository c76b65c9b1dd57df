//! The folder of an end's partial files. Each holds the first bytes of a file that was cut off.
ghost use Rattle.std.specs.Fs.{dir_entry_name};
ghost use Rattle.std.specs.Char.{is_ascii_hexdigit};
ghost use Rattle.std.specs.List.{list_all};
ghost use Rattle.std.specs.Prelude.{◌≡◌, ◌≤◌, true};
ghost use Rattle.uug_io_disk.specs.Partials.{is_partial};

use crate::held_part::HeldPart;
use crate::part_path::{is_part, remove_part};
use crate::send_folder::read_file;
use std::alloc::{AllocError, Allocator};
use std::fs::{DirEntry, File, ReadDir};
use std::io::ErrorKind;
use std::rt::Files;
use std::time::Clock;
use std::{fs, io};
use uug_error::Cause;
use uug_session::{PartialFile, Partials};
use uug_store::{Allowance, HELD_LINE_MAX, into_partial};
use uug_talk::{FILE_LIMIT_MAX, FileDigest, NamedDigest};

/// The length of a partial file's name: a digest in hexadecimal digits.
const DIGITS: usize = 64;

/// The maximum number of bytes of a partial file: a line, and the bytes of a file.
const PARTIAL_MAX: usize = HELD_LINE_MAX + FILE_LIMIT_MAX;

/// The seconds of a day.
const DAY: u64 = 86_400;

/// Returns whether a name is that of a partial file.
pub(crate) fn is_partial(name: &str) -> bool
    ensures { result ≡ is_partial name.now }
{
    name.len() == DIGITS && are_digits(name.as_bytes())
}

fn are_digits(name: &[u8]) -> bool
    ensures { result ≡ list_all is_ascii_hexdigit name.now }
{
    name.iter().all(|b| b.is_ascii_hexdigit())
}

/// Reads the partial files in the folder at `path`, as many as this allowance permits. Removes those for which there is
/// no room, those that have not grown for too many days, and incomplete files that killed runs left. Skips files that
/// can't be read. There are none if no folder is at `path`, or only a link to one.
pub fn read_partials<A: Allocator + Copy, R: Files + Clock + Alloc + Clone + Drop>(
    alloc: A,
    rt: &R,
    path: &str,
    allowance: Allowance,
) -> Result<Partials<A>, AllocError> {
    let mut held = Partials::new(alloc);
    let mut left = allowance;
    left.bytes = allowance.held();
    let Ok(entries) = entries_in(rt, path) else {
        return Ok(held);
    };
    for entry in entries {
        let Ok(entry) = entry else {
            continue;
        };
        if is_part(entry.file_name()) {
            remove_part(rt, &entry);
        }
        if let Some(file) = read_entry(alloc, rt, &entry, &mut left)? {
            held.put(file)?;
        }
    }
    Ok(held)
}

/// Returns the entries of the folder at `path`. A link to a folder is an error.
pub(crate) fn entries_in<R: Files + Alloc + Clone + Drop>(
    rt: &R,
    path: &str,
) -> io::Result<ReadDir<R, R::A>> {
    see_no_link(rt, path)?;
    fs::read_dir(rt, path)
}

/// Checks that a folder is at `path`, and not a link, which could lead to the files of others.
pub(crate) fn see_no_link<R: Files>(rt: &R, path: &str) -> io::Result<()> {
    if fs::symlink_metadata(rt, path)?.is_dir() {
        Ok(())
    } else {
        Err(io::Error::from(ErrorKind::NotADirectory))
    }
}

/// Reads an entry of that folder, if it is a partial file that is to be read. Takes its size from the room.
fn read_entry<A: Allocator + Copy, R: Files + Clock + Drop, B: Allocator>(
    alloc: A,
    rt: &R,
    entry: &DirEntry<R, B>,
    left: &mut Allowance,
) -> Result<Option<PartialFile<A>>, AllocError>
    ensures { left.new.bytes ≤ left.old.bytes }
{
    if !is_partial(entry.file_name()) || !is_of_use(rt, entry, left).unwrap_or(false) {
        return Ok(None);
    }
    match read_file(alloc, rt, entry.path().as_str(), PARTIAL_MAX) {
        Ok(Some(text)) => Ok(into_partial(text)),
        Ok(None) => Ok(None),
        Err(error) if error.kind() == ErrorKind::OutOfMemory => Err(AllocError),
        Err(_) => Ok(None),
    }
}

/// Returns whether a partial file is to be read: a regular file for which there is room, and which is not too old.
/// Removes a regular file for which there is no room, or which is too old. Takes the size of one to be read from the
/// room.
fn is_of_use<R: Files + Clock + Drop, B: Allocator>(
    rt: &R,
    entry: &DirEntry<R, B>,
    left: &mut Allowance,
) -> io::Result<bool>
    requires { is_partial (dir_entry_name entry.now) ≡ true }
    ensures { left.new.bytes ≤ left.old.bytes }
{
    let metadata = entry.metadata()?;
    if !metadata.is_file() {
        return Ok(false);
    }
    let age_max = u64::from(left.days) * DAY;
    let is_old = metadata
        .modified()?
        .elapsed(rt)
        .is_ok_and(|age| age.as_secs() > age_max);
    if is_old || metadata.len() > left.bytes {
        fs::remove_file(rt, entry.path().as_str())?;
        return Ok(false);
    }
    left.bytes -= metadata.len();
    Ok(true)
}

/// Saves the first bytes of a file that was cut off in the folder at `path`, for the next session. Bytes that are there
/// already stay, and the rest is appended and synced to disk; if more are there than these, they are replaced. Creates
/// a missing folder. After an error the next session resumes from the bytes that stayed.
pub fn hold_partial<A: Allocator + Copy, R: Files<File = File>>(
    alloc: A,
    rt: &R,
    path: &str,
    file: &PartialFile<A>,
) -> Result<(), Cause> {
    if file.bytes.is_empty() {
        return Ok(());
    }
    let named = NamedDigest {
        name: file.source,
        told: file.told,
    };
    match hold_bytes(alloc, rt, path, &named, file.bytes.as_slice()) {
        Ok(()) => Ok(()),
        Err(error) => Err(Cause::of(&error)),
    }
}

/// Saves these first bytes of a file. If that fails, leaves no partial file behind that holds nothing.
fn hold_bytes<A: Allocator + Copy, R: Files<File = File>>(
    alloc: A,
    rt: &R,
    path: &str,
    named: &NamedDigest,
    bytes: &[u8],
) -> io::Result<()> {
    let mut part = HeldPart::open(alloc, rt, path, named, bytes.len())?;
    let held = part.finish(bytes);
    if held.is_err() && part.is_empty() {
        drop_partials(alloc, rt, path, &[named.told]);
    }
    held
}

/// Removes the partial files of these digests from the folder at `path`, as they are no longer needed. Files that can't
/// be removed stay.
pub fn drop_partials<A: Allocator + Copy, R: Files>(
    alloc: A,
    rt: &R,
    path: &str,
    over: &[FileDigest],
) {
    if see_no_link(rt, path).is_err() {
        return;
    }
    for told in over {
        if let Ok(path) = path_of(alloc, path, told) {
            let _ = remove_held(rt, path.as_str());
        }
    }
}

/// Removes the regular file at this path. Anything else there is not ours.
fn remove_held<R: Files>(rt: &R, path: &str) -> io::Result<()> {
    if fs::symlink_metadata(rt, path)?.is_file() {
        fs::remove_file(rt, path)?;
    }
    Ok(())
}

/// Returns the path of the partial file of a file with this digest.
pub(crate) fn path_of<A: Allocator + Copy>(
    alloc: A,
    path: &str,
    told: &FileDigest,
) -> Result<String<A>, AllocError> {
    let name = hex::encode(alloc, told.hash)?;
    let name = name.as_str();
    format!(in alloc; "{path}/{name}")
}
