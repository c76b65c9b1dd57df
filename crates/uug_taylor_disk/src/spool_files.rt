//! Lists and reads the files in the folders of a spool.
ghost use Rattle.std.specs.Fs.{IsSymlink, file_type};
ghost use Rattle.std.specs.IoError.{error_kind};
ghost use Rattle.std.specs.Prelude.{◌<◌, ◌≡◌, ◌≢◌, ◌≤◌, ◌↔◌, false, true, Err, IfErr, IfOk, IfSome, IsErr, IsTrue, None, Ok, Some, length};
ghost use Rattle.uug_error.specs.Faults.{IsFolderFault};
ghost use Rattle.uug_error.specs.Passing.{is_out_of_reach};
ghost use Rattle.uug_taylor_disk.specs.Read.{MayAllRead, MayAllSearch};
ghost use Rattle.uug_taylor_disk.specs.Reach.{is_no_place};

use crate::spool_paths::SpoolPaths;
use std::alloc::{AllocError, Allocator};
use std::fs::{DirEntry, File, Metadata, OpenFile, ReadDir};
use std::io::ErrorKind;
use std::os::unix::fs::MetadataExt;
use std::rt::Files;
use std::{fs, io};
use uug_error::{Cause, Resource, RunFault, is_out_of_reach, read_within};
use uug_talk::Name;
use uug_taylor_text::{Room, Spot};

/// The bit of a file's mode that is set if everybody may read the file.
const ALL_MAY_READ: u32 = 0o004;

/// The bit of a folder's mode that is set if everybody may search the folder.
const ALL_MAY_SEARCH: u32 = 0o001;

/// Returns the names in a room that are valid in a session. A missing folder has none.
pub fn list_room<A: Allocator + Copy, R: Files + Alloc + Clone + Drop>(
    alloc: A,
    rt: &R,
    paths: &SpoolPaths<A>,
    room: Room,
) -> Result<Vec<Name, A>, RunFault>
    ensures { IfErr result IsFolderFault }
{
    let mut names = Vec::new(alloc);
    add_names(&mut names, alloc, rt, paths, room)?;
    Ok(names)
}

/// Adds the names in a room that are valid in a session.
fn add_names<A: Allocator + Copy, R: Files + Alloc + Clone + Drop>(
    names: &mut Vec<Name, A>,
    alloc: A,
    rt: &R,
    paths: &SpoolPaths<A>,
    room: Room,
) -> Result<(), RunFault>
    ensures { IfErr result IsFolderFault }
{
    let path = paths.room(alloc, room)?;
    match fs::read_dir(rt, path.as_str()) {
        Ok(entries) => add_entries(names, paths, entries),
        Err(error) if error.kind() == ErrorKind::NotFound => Ok(()),
        Err(error) => Err(RunFault::of(&error, paths.end_dir(), Resource::Dir)),
    }
}

/// Adds the names of these entries. A name that is not text is skipped.
fn add_entries<A: Allocator, R: Files + Alloc + Clone + Drop>(
    names: &mut Vec<Name, A>,
    paths: &SpoolPaths<A>,
    entries: ReadDir<R, R::A>,
) -> Result<(), RunFault>
    ensures { IfErr result IsFolderFault }
{
    for entry in entries {
        match entry {
            Ok(entry) => add_entry(names, &entry)?,
            Err(error) if error.kind() == ErrorKind::InvalidFilename => (),
            Err(error) => return Err(RunFault::of(&error, paths.end_dir(), Resource::Dir)),
        }
    }
    Ok(())
}

/// Adds the name of an entry, if it is valid in a session.
fn add_entry<A: Allocator, R: Files + Alloc + Clone + Drop>(
    names: &mut Vec<Name, A>,
    entry: &DirEntry<R, R::A>,
) -> Result<(), RunFault>
    ensures { IfErr result IsFolderFault }
{
    if let Ok(name) = Name::new(entry.file_name().as_bytes()) {
        names.reserve(1)?;
        names.push_reserved(name);
    }
    Ok(())
}

/// Returns the names in a folder below the public folder, or elsewhere, that are valid in a session. A folder that can't be
/// reached, or that not everybody may search, has none. Nor has a folder below such a folder.
pub fn list_below<A: Allocator + Copy, R: Files + Alloc + Clone + Drop>(
    alloc: A,
    rt: &R,
    paths: &SpoolPaths<A>,
    folder: &Name,
) -> Result<Vec<Name, A>, RunFault>
    ensures { IfErr result IsFolderFault }
{
    let spot = Spot {
        room: Room::Public,
        name: *folder,
    };
    let path = paths.file(alloc, &spot)?;
    let mut names = Vec::new(alloc);
    match within_reach(open_below(rt, path.as_str(), folder)) {
        Ok(Some(entries)) => add_entries(&mut names, paths, entries)?,
        Ok(None) => (),
        Err(error) => return Err(RunFault::of(&error, paths.end_dir(), Resource::Dir)),
    }
    Ok(names)
}

/// Returns the entries of the folder at `path`, which ends in `folder`, if everybody may search it and each folder on its
/// way: from the public folder, or for a whole path from the root. Returns `None` for any other. A missing folder is an
/// error.
fn open_below<R: Files + Alloc + Clone + Drop>(
    rt: &R,
    path: &str,
    folder: &Name,
) -> io::Result<Option<ReadDir<R, R::A>>> {
    let mut above = path;
    for _ in 0..folders_above(folder) {
        let Some((front, _)) = above.rsplit_once('/') else {
            return Ok(None);
        };
        if !is_searchable_by_all(&fs::symlink_metadata(rt, front)?) {
            return Ok(None);
        }
        above = front;
    }
    open_to_all(rt, path)
}

/// Returns the number of folders between the public folder and this path, or for a whole path from the root.
pub(crate) fn folders_above(path: &Name) -> usize {
    let path = path.as_str();
    let path = path.strip_prefix('/').unwrap_or(path);
    path.bytes().filter(|byte| *byte == b'/').count()
}

/// Returns the entries of a folder that everybody may search. Returns `None` for any other. A missing folder is an
/// error.
fn open_to_all<R: Files + Alloc + Clone + Drop>(
    rt: &R,
    path: &str,
) -> io::Result<Option<ReadDir<R, R::A>>> {
    let seen = fs::symlink_metadata(rt, path)?;
    if !is_searchable_by_all(&seen) {
        return Ok(None);
    }
    Ok(Some(fs::read_dir(rt, path)?))
}

/// Returns whether this is a folder that everybody may search.
fn is_searchable_by_all(seen: &Metadata) -> bool
    ensures { IsTrue result ↔ MayAllSearch seen.now }
{
    seen.is_dir() && seen.mode() & ALL_MAY_SEARCH != 0
}

/// Returns whether there is a file at this spot.
pub fn is_there<A: Allocator + Copy, R: Files>(
    alloc: A,
    rt: &R,
    paths: &SpoolPaths<A>,
    spot: &Spot,
) -> Result<bool, RunFault>
    ensures { IfErr result IsFolderFault }
{
    let path = paths.file(alloc, spot)?;
    match is_found(fs::symlink_metadata(rt, path.as_str())) {
        Ok(is_there) => Ok(is_there),
        Err(error) => Err(RunFault::of(&error, paths.end_dir(), Resource::Dir)),
    }
}

/// Returns whether a path exists, from its metadata. It is missing only if the system reports `NotFound`. Other errors
/// are returned.
pub(crate) fn is_found(seen: io::Result<Metadata>) -> io::Result<bool>
    ensures found { IfOk seen (λ _. result ≡ Ok true) }
    ensures gone { IfErr seen (λ error. error_kind error ≡ ErrorKind.NotFound → result ≡ Ok false) }
    ensures failed { IfErr seen (λ error. error_kind error ≢ ErrorKind.NotFound → IsErr result) }
{
    match seen {
        Ok(_) => Ok(true),
        Err(error) if error.kind() == ErrorKind::NotFound => Ok(false),
        Err(error) => Err(error),
    }
}

/// Returns whether the spool has a folder of the system.
pub fn is_known<A: Allocator + Copy, R: Files>(
    alloc: A,
    rt: &R,
    paths: &SpoolPaths<A>,
) -> Result<bool, RunFault>
    ensures { IfErr result IsFolderFault }
{
    let spool = paths.spool();
    let system = paths.system().as_str();
    let path = format!(in alloc; "{spool}/{system}")?;
    match is_found(fs::metadata(rt, path.as_str())) {
        Ok(is_there) => Ok(is_there),
        Err(error) => Err(RunFault::of(&error, paths.end_dir(), Resource::Dir)),
    }
}

/// Reads a file of the spool. Returns `None` if there is none, or it has more than `most` bytes.
pub fn read_spot<A: Allocator + Copy, R: Files>(
    alloc: A,
    rt: &R,
    paths: &SpoolPaths<A>,
    spot: &Spot,
    most: usize,
) -> Result<Option<Vec<u8, A>>, RunFault>
    requires { most < u64.MAX }
    ensures within { IfOk result (λ found. IfSome found (λ bytes. length bytes.items ≤ most)) }
    ensures no_other { IfErr result IsFolderFault }
{
    let path = paths.file(alloc, spot)?;
    match read_file(alloc, rt, path.as_str(), most) {
        Ok(found) => Ok(found),
        Err(error) => Err(RunFault::of(&error, paths.end_dir(), Resource::Dir)),
    }
}

/// Reads a file of the spool. Returns `None` if there is none. A file of more than `most` bytes is a fault.
pub fn read_whole<A: Allocator + Copy, R: Files>(
    alloc: A,
    rt: &R,
    paths: &SpoolPaths<A>,
    spot: &Spot,
    most: usize,
) -> Result<Option<Vec<u8, A>>, RunFault>
    requires { most < u64.MAX }
    ensures within { IfOk result (λ found. IfSome found (λ bytes. length bytes.items ≤ most)) }
    ensures no_other { IfErr result IsFolderFault }
{
    let path = paths.file(alloc, spot)?;
    let read = match read_regular(alloc, rt, path.as_str(), most) {
        Ok(read) => read,
        Err(error) => return Err(RunFault::of(&error, paths.end_dir(), Resource::Dir)),
    };
    match whole_of(read) {
        Ok(found) => Ok(found),
        Err(cause) => Err(RunFault::System(paths.end_dir().failure(Resource::Dir, cause))),
    }
}

/// Returns the bytes that were read, `None` if there is no file, or an error if there are too many bytes.
fn whole_of<T>(read: Result<T, Unfit>) -> Result<Option<T>, Cause>
    ensures found { IfOk read (λ bytes. result ≡ Ok (Some bytes)) }
    ensures no_file { read ≡ Err Unfit.NoFile → result ≡ Ok None }
    ensures too_much { read ≡ Err Unfit.TooMuch → result ≡ Err Cause.TooMuch }
{
    match read {
        Ok(bytes) => Ok(Some(bytes)),
        Err(Unfit::NoFile) => Ok(None),
        Err(Unfit::TooMuch) => Err(Cause::TooMuch),
    }
}

/// Reads the file that a user named. Returns `None` if there is none that may be read, or it has more than `most`
/// bytes. Returns `None` for a relative path too, as its folder is not known.
pub fn read_source<A: Allocator + Copy, R: Files>(
    alloc: A,
    rt: &R,
    paths: &SpoolPaths<A>,
    path: &[u8],
    most: usize,
) -> Result<Option<Vec<u8, A>>, RunFault>
    requires { most < u64.MAX }
    ensures within { IfOk result (λ found. IfSome found (λ bytes. length bytes.items ≤ most)) }
    ensures no_other { IfErr result IsFolderFault }
{
    let path = match str::from_utf8(path) {
        Ok(path) if path.starts_with('/') => path,
        _ => return Ok(None),
    };
    match within_reach(read_file(alloc, rt, path, most)) {
        Ok(found) => Ok(found),
        Err(error) => Err(RunFault::of(&error, paths.end_dir(), Resource::Dir)),
    }
}

/// Returns the result of a read. It is `None` if there is no file that this program may read.
pub(crate) fn within_reach<T>(read: io::Result<Option<T>>) -> io::Result<Option<T>>
    ensures found { IfOk read (λ found. result ≡ Ok found) }
    ensures gone { IfErr read (λ error. is_out_of_reach (error_kind error) ≡ true → result ≡ Ok None) }
    ensures failed { IfErr read (λ error. is_out_of_reach (error_kind error) ≡ false → IsErr result) }
{
    match read {
        Ok(found) => Ok(found),
        Err(error) if is_out_of_reach(error.kind()) => Ok(None),
        Err(error) => Err(error),
    }
}

/// Returns whether an error of this kind means that a file can't be put at a path, whatever is tried.
pub fn is_no_place(kind: ErrorKind) -> bool
    ensures { result ≡ is_no_place kind }
{
    matches!(
        kind,
        ErrorKind::IsADirectory
            | ErrorKind::NotADirectory
            | ErrorKind::DirectoryNotEmpty
            | ErrorKind::AlreadyExists
            | ErrorKind::PermissionDenied
            | ErrorKind::ReadOnlyFilesystem
            | ErrorKind::CrossesDevices
            | ErrorKind::InvalidFilename
    )
}

/// Returns the first of the folders for markers and for files being received that is a symbolic link, and thus not the
/// spool's own.
pub fn linked_room<A: Allocator + Copy, R: Files>(
    alloc: A,
    rt: &R,
    paths: &SpoolPaths<A>,
) -> Result<Option<Room>, RunFault>
    ensures { IfErr result IsFolderFault }
{
    for room in [Room::Marked, Room::Temporary] {
        let path = paths.room(alloc, room)?;
        match is_link(fs::symlink_metadata(rt, path.as_str())) {
            Ok(true) => return Ok(Some(room)),
            Ok(false) => (),
            Err(error) => return Err(RunFault::of(&error, paths.end_dir(), Resource::Dir)),
        }
    }
    Ok(None)
}

/// Returns whether a path is a symbolic link, from its metadata. A missing path is none.
fn is_link(seen: io::Result<Metadata>) -> io::Result<bool>
    ensures seen { IfOk seen (λ seen. IfOk result (λ is_link.
        IsTrue is_link ↔ IsSymlink (file_type seen))) }
    ensures gone { IfErr seen (λ error. error_kind error ≡ ErrorKind.NotFound → result ≡ Ok false) }
    ensures failed { IfErr seen (λ error. error_kind error ≢ ErrorKind.NotFound → IsErr result) }
{
    match seen {
        Ok(seen) => Ok(seen.is_symlink()),
        Err(error) if error.kind() == ErrorKind::NotFound => Ok(false),
        Err(error) => Err(error),
    }
}

/// Reads the file of this name in the public folder. Returns `None` unless it is a regular file that everybody may
/// read, of at most `most` bytes. A symbolic link is not read: it may lead elsewhere.
pub fn read_public<A: Allocator + Copy, R: Files<File = File>>(
    alloc: A,
    rt: &R,
    paths: &SpoolPaths<A>,
    name: &Name,
    most: usize,
) -> Result<Option<Vec<u8, A>>, RunFault>
    requires { most < u64.MAX }
    ensures within { IfOk result (λ found. IfSome found (λ bytes. length bytes.items ≤ most)) }
    ensures no_other { IfErr result IsFolderFault }
{
    let spot = Spot {
        room: Room::Public,
        name: *name,
    };
    let path = paths.file(alloc, &spot)?;
    match within_reach(read_plain(alloc, rt, path.as_str(), most)) {
        Ok(found) => Ok(found),
        Err(error) => Err(RunFault::of(&error, paths.end_dir(), Resource::Dir)),
    }
}

/// Reads a regular file that everybody may read. Returns `None` for any other, or for more than `most` bytes. A missing
/// file is an error.
fn read_plain<A: Allocator, R: Files<File = File>>(
    alloc: A,
    rt: &R,
    path: &str,
    most: usize,
) -> io::Result<Option<Vec<u8, A>>>
    requires { most < u64.MAX }
    ensures within { IfOk result (λ found. IfSome found (λ bytes. length bytes.items ≤ most)) }
{
    match open_plain(rt, path)? {
        Some(file) => read_within(alloc, file, most),
        None => Ok(None),
    }
}

/// Opens a regular file that everybody may read. Returns `None` for any other. A missing file is an error.
fn open_plain<R: Files<File = File>>(rt: &R, path: &str) -> io::Result<Option<File>> {
    let seen = fs::symlink_metadata(rt, path)?;
    if is_readable_by_all(&seen) {
        open_seen(rt, path, &seen)
    } else {
        Ok(None)
    }
}

/// Returns whether this is a regular file that everybody may read.
fn is_readable_by_all(seen: &Metadata) -> bool
    ensures { IsTrue result ↔ MayAllRead seen.now }
{
    seen.is_file() && seen.mode() & ALL_MAY_READ != 0
}

/// Opens a file that everybody may read. Returns `None` if another file has replaced the one that was `seen`, for
/// example by a link.
fn open_seen<R: Files<File = File>>(rt: &R, path: &str, seen: &Metadata) -> io::Result<Option<File>>
    requires { MayAllRead seen.now }
{
    let file = File::open(rt, path)?;
    let opened = file.metadata()?;
    if opened.dev() == seen.dev() && opened.ino() == seen.ino() {
        Ok(Some(file))
    } else {
        Ok(None)
    }
}

/// Reads the regular file at a path. Returns `None` if there is none, or it has more than `most` bytes.
pub(crate) fn read_file<A: Allocator, R: Files>(
    alloc: A,
    rt: &R,
    path: &str,
    most: usize,
) -> io::Result<Option<Vec<u8, A>>>
    requires { most < u64.MAX }
    ensures within { IfOk result (λ found. IfSome found (λ bytes. length bytes.items ≤ most)) }
{
    match read_regular(alloc, rt, path, most)? {
        Ok(bytes) => Ok(Some(bytes)),
        Err(_) => Ok(None),
    }
}

/// The reason why a path has no bytes.
#[derive(Clone, Copy)]
enum Unfit {
    /// No regular file is there.
    NoFile,
    /// There are too many bytes.
    TooMuch,
}

/// Reads the regular file at a path, or returns the reason why it has no bytes. A pipe is not opened: that would wait
/// for a writer.
fn read_regular<A: Allocator, R: Files>(
    alloc: A,
    rt: &R,
    path: &str,
    most: usize,
) -> io::Result<Result<Vec<u8, A>, Unfit>>
    requires { most < u64.MAX }
    ensures within { IfOk result (λ read. IfOk read (λ bytes. length bytes.items ≤ most)) }
{
    match fs::metadata(rt, path) {
        Ok(metadata) if metadata.is_file() => (),
        Ok(_) => return Ok(Err(Unfit::NoFile)),
        Err(error) if error.kind() == ErrorKind::NotFound => return Ok(Err(Unfit::NoFile)),
        Err(error) => return Err(error),
    }
    match read_within(alloc, File::open(rt, path)?, most)? {
        Some(bytes) => Ok(Ok(bytes)),
        None => Ok(Err(Unfit::TooMuch)),
    }
}
