//! Replaces files on disk, as a whole or not at all, and appends to them.
ghost use Rattle.std.specs.Prelude.{◌≡◌, IfOk};
ghost use Rattle.uug_io_disk.specs.Parts.{written_bytes};

use crate::part_path::PartPath;
use crate::queued_line::is_at;
use crate::written::{Written, write_once, write_text};
use std::alloc::Allocator;
use std::fs::{File, OpenFile, OpenOptions, Permissions};
use std::io::{ErrorKind, Seek, SeekFrom};
use std::os::unix::fs::{MetadataExt, PermissionsExt, fchown};
use std::rt::Files;
use std::{fs, io};

/// The mode of a file that only its owner may read.
const PRIVATE: u32 = 0o600;

/// Writes a new file beside `path`, syncs it, and renames it to `path`, which is in the folder `dir`. Then syncs the
/// folder. If only that fails, returns the error although the file is in place.
pub(crate) fn replace_file<'b, R: Files, A: Allocator>(
    rt: &R,
    part: &mut PartPath<A>,
    dir: &str,
    path: &str,
    bytes: &'b [u8],
) -> io::Result<Written<'b>>
    ensures { IfOk result (λ written. written_bytes written ≡ bytes.now) }
{
    let file = part.create(rt)?;
    replace_with(rt, file, part.as_str(), dir, path, bytes)
}

/// Does the same as `replace_file`, with a file that only its owner may read.
pub(crate) fn replace_private<'b, R: Files<File = File>, A: Allocator>(
    rt: &R,
    part: &mut PartPath<A>,
    dir: &str,
    path: &str,
    bytes: &'b [u8],
) -> io::Result<Written<'b>>
    ensures { IfOk result (λ written. written_bytes written ≡ bytes.now) }
{
    let file = part.create(rt)?;
    file.set_permissions(Permissions::from_mode(PRIVATE))?;
    replace_with(rt, file, part.as_str(), dir, path, bytes)
}

/// Writes the new file at `part`, syncs it, renames it to `path`, and syncs the folder `dir`. Removes the file if it
/// can't be put in place.
fn replace_with<'b, R: Files>(
    rt: &R,
    mut file: R::File,
    part: &str,
    dir: &str,
    path: &str,
    bytes: &'b [u8],
) -> io::Result<Written<'b>>
    ensures { IfOk result (λ written. written_bytes written ≡ bytes.now) }
{
    match place_file(rt, &mut file, part, path, bytes) {
        Ok(written) => {
            see_folder(rt, dir)?;
            Ok(written)
        }
        Err(error) => {
            let _ = fs::remove_file(rt, part);
            Err(error)
        }
    }
}

/// Does the same as `replace_file` while other processes append to the file at `path`. Copies the bytes of the old file
/// after the first `read_len` to the end of the new one. The new file gets the old one's mode and owner, as far as the
/// system permits. The old file, which may be given open and locked, is locked meanwhile: a process that holds its lock
/// appends to a file that stays in place. A process that has opened the old file may still append to it without the lock. This run looks for those
/// bytes once the new file is in place, and again once the folder is synced, and copies them.
pub(crate) fn replace_appended<'b, R: Files<File = File>, A: Allocator>(
    rt: &R,
    part: &mut PartPath<A>,
    dir: &str,
    path: &str,
    bytes: &'b [u8],
    locked: Option<File>,
    read_len: u64,
) -> io::Result<Written<'b>>
    ensures { IfOk result (λ written. written_bytes written ≡ bytes.now) }
{
    let old = match locked {
        Some(old) => old,
        None => open_or_make(rt, path)?,
    };
    let mut file = part.create(rt)?;
    match place_appended(rt, &mut file, part.as_str(), path, bytes, old, read_len) {
        Ok((old, written)) => {
            see_folder_between(rt, old, dir, path)?;
            Ok(written)
        }
        Err(error) => {
            let _ = fs::remove_file(rt, part.as_str());
            Err(error)
        }
    }
}

/// Appends to the file at `path`, which is in the folder `dir`, and syncs both to disk. Creates a missing file. If that
/// fails, truncates the file to its old length, if possible.
pub(crate) fn append_at<'b, R: Files<File = File>>(
    rt: &R,
    dir: &str,
    path: &str,
    bytes: &'b [u8],
) -> io::Result<Written<'b>>
    ensures { IfOk result (λ written. written_bytes written ≡ bytes.now) }
{
    let file = OpenOptions::new().append(true).create(true).open(rt, path)?;
    append_whole(rt, &file, dir, bytes)
}

/// Appends bytes in one write, and syncs the file and its folder `dir`. If that fails, truncates the file to its old
/// length, if possible.
pub(crate) fn append_whole<'b, R: Files>(
    rt: &R,
    file: &File,
    dir: &str,
    bytes: &'b [u8],
) -> io::Result<Written<'b>>
    ensures { IfOk result (λ written. written_bytes written ≡ bytes.now) }
{
    let before = file.metadata()?.len();
    let appended = append_synced(rt, file, dir, bytes);
    if appended.is_err() {
        let _ = file.set_len(before);
    }
    appended
}

/// Appends bytes in one write, and syncs the file and its folder. After an error the file may have some of them.
fn append_synced<'b, R: Files>(
    rt: &R,
    file: &File,
    dir: &str,
    bytes: &'b [u8],
) -> io::Result<Written<'b>>
    ensures { IfOk result (λ written. written_bytes written ≡ bytes.now) }
{
    let mut end = file;
    let written = write_once(&mut end, bytes)?;
    file.sync_all()?;
    see_folder(rt, dir)?;
    Ok(written)
}

/// Writes all bytes to a file, and syncs it to disk.
pub(crate) fn write_synced<'b, R: Files>(
    file: &mut R::File,
    bytes: &'b [u8],
) -> io::Result<Written<'b>>
    ensures { IfOk result (λ written. written_bytes written ≡ bytes.now) }
{
    let written = write_text(file, bytes)?;
    file.sync_all()?;
    Ok(written)
}

/// Syncs a folder to disk.
pub(crate) fn see_folder<R: Files>(rt: &R, dir: &str) -> io::Result<()> {
    File::open(rt, dir)?.sync_all()
}

/// Syncs a folder to disk. Before and after that, appends to the file at `path` the bytes that the old one has got
/// late.
fn see_folder_between<R: Files>(rt: &R, mut old: R::File, dir: &str, path: &str) -> io::Result<()> {
    add_late(rt, &mut old, path)?;
    see_folder(rt, dir)?;
    add_late(rt, &mut old, path)
}

/// Appends to the file at `path` the bytes that the old one has got since it was last read. Syncs the file if there are
/// any.
fn add_late<R: Files>(rt: &R, old: &mut R::File, path: &str) -> io::Result<()> {
    let mut file = OpenOptions::new().append(true).open(rt, path)?;
    if io::copy(old, &mut file)? > 0 {
        file.sync_all()?;
    }
    Ok(())
}

/// Writes a new file at `part`, and renames it to `path` once it is on disk.
fn place_file<'b, R: Files>(
    rt: &R,
    file: &mut R::File,
    part: &str,
    path: &str,
    bytes: &'b [u8],
) -> io::Result<Written<'b>>
    ensures { IfOk result (λ written. written_bytes written ≡ bytes.now) }
{
    let written = write_synced::<R>(file, bytes)?;
    fs::rename(rt, part, path)?;
    Ok(written)
}

/// Does the same, and copies the bytes of the old file after the first `len` to the end of the new one. Returns the old
/// file, locked and read to its end. Fails if somebody else has replaced the old file.
fn place_appended<'b, R: Files<File = File>>(
    rt: &R,
    file: &mut File,
    part: &str,
    path: &str,
    bytes: &'b [u8],
    old: File,
    len: u64,
) -> io::Result<(File, Written<'b>)>
    ensures { IfOk result (λ placed. written_bytes placed.1 ≡ bytes.now) }
{
    let mut old = old;
    old.lock()?;
    if !is_at(rt, &old, path) {
        return Err(io::Error::from(ErrorKind::WouldBlock));
    }
    old.seek(SeekFrom::Start(len))?;
    let written = write_text(file, bytes)?;
    io::copy(&mut old, file)?;
    give_rights(&old, file);
    file.sync_all()?;
    fs::rename(rt, part, path)?;
    Ok((old, written))
}

/// Gives a file the owner and the mode of another, as far as the system permits.
fn give_rights(from: &File, file: &File) {
    let Ok(metadata) = from.metadata() else {
        return;
    };
    let _ = fchown(file, Some(metadata.uid()), Some(metadata.gid()));
    let _ = file.set_permissions(metadata.permissions());
}

/// Opens a file. If there is none, creates an empty one, so that nobody else creates one before it is replaced.
fn open_or_make<R: Files>(rt: &R, path: &str) -> io::Result<R::File> {
    match File::open(rt, path) {
        Err(error) if error.kind() == ErrorKind::NotFound => {
            let _ = File::create_new(rt, path);
            File::open(rt, path)
        }
        opened => opened,
    }
}
