//! Looks at files of an end's folder while a session may run. Locks and changes nothing.
ghost use Rattle.std.specs.Prelude.{◌≡◌, ◌≤◌, IfErr, IfOk, length};
ghost use Rattle.uug_io_disk.specs.Seen.{held_by};
ghost use Rattle.uug_error.specs.Faults.{IsCopyFault, IsFolderFault};
ghost use Rattle.uug_store.specs.PartialTexts.{partial_in};

use crate::given_files::{source_of, source_path};
use crate::partial_folder::{entries_in, is_partial};
use crate::queued_copy::unread;
use crate::send_folder::TEXT_MAX;
use std::alloc::{AllocError, Allocator};
use std::cmp::Ordering;
use std::fs::{DirEntry, File, Metadata};
use std::io::{ErrorKind, Read, Seek, SeekFrom};
use std::rt::Files;
use std::time::Clock;
use std::{fs, io};
use uug_error::{EndDir, RunFault};
use uug_session::Job;
use uug_store::{HELD_LINE_MAX, into_partial};
use uug_talk::Name;

/// The size and the age of a file.
#[derive(Clone, Copy, Debug, PartialEq, Eq)]
pub struct SeenFile {
    /// The number of its bytes.
    pub size: u64,
    /// The seconds since it was last written, if they are known.
    pub age: Option<u64>,
}

/// A file that was cut off, of which an end holds the first bytes.
#[derive(Clone, Copy, Debug, PartialEq, Eq)]
pub struct HeldFile {
    /// Its name at the other end.
    pub name: Name,
    /// The size of the whole file.
    pub whole: u32,
    /// The number of bytes that are held, and the seconds since the last ones were written.
    pub held: SeenFile,
}

/// Returns the file that a job of an end sends, if there is one.
pub fn see_sent<A: Allocator + Copy, R: Files + Clock>(
    alloc: A,
    rt: &R,
    dir: EndDir<'_>,
    job: &Job,
) -> Result<Option<SeenFile>, RunFault>
    ensures { IfErr result IsFolderFault }
{
    let Some(name) = source_of(job) else {
        return Ok(None);
    };
    match source_path(alloc, rt, dir, name) {
        Ok(Some(path)) => Ok(see_file(rt, path.as_str())),
        Ok(None) => Ok(None),
        Err(fault) => Err(fault),
    }
}

/// Returns the size and the age of what is at a path, if anything is.
pub fn see_file<R: Files + Clock>(rt: &R, path: &str) -> Option<SeenFile> {
    let metadata = fs::metadata(rt, path).ok()?;
    Some(seen(rt, &metadata))
}

fn seen<R: Clock>(rt: &R, metadata: &Metadata) -> SeenFile {
    SeenFile {
        size: metadata.len(),
        age: age_of(rt, metadata).ok(),
    }
}

/// Returns the seconds since a file was written.
fn age_of<R: Clock>(rt: &R, metadata: &Metadata) -> io::Result<u64> {
    Ok(metadata.modified()?.elapsed(rt)?.as_secs())
}

/// Returns the last bytes of the file at a path, at most `TEXT_MAX`. It must be a regular one.
pub fn read_end<A: Allocator + Copy, R: Files<File = File>>(
    alloc: A,
    rt: &R,
    path: &str,
) -> Result<Vec<u8, A>, RunFault>
    ensures { IfErr result IsCopyFault }
{
    match end_of(alloc, rt, path) {
        Ok(end) => Ok(end),
        Err(error) => Err(unread(&error)),
    }
}

fn end_of<A: Allocator + Copy, R: Files<File = File>>(
    alloc: A,
    rt: &R,
    path: &str,
) -> io::Result<Vec<u8, A>> {
    let found = fs::metadata(rt, path)?;
    if !found.is_file() {
        return Err(io::Error::from(ErrorKind::InvalidInput));
    }
    let mut file = File::open(rt, path)?;
    let most = TEXT_MAX as u64;
    file.seek(SeekFrom::Start(found.len().saturating_sub(most)))?;
    let mut end = Vec::new(alloc);
    file.take(most).read_to_end(&mut end)?;
    Ok(end)
}

/// Returns the files that an end holds in the folder at `path`, sorted by name. Skips files that can't be read. There
/// are none if no folder is at `path`, or only a link to one.
pub fn see_held<A: Allocator + Copy, R: Files + Clock + Alloc + Clone + Drop>(
    alloc: A,
    rt: &R,
    path: &str,
) -> Result<Vec<HeldFile, A>, AllocError> {
    let mut held = Vec::new(alloc);
    let Ok(entries) = entries_in(rt, path) else {
        return Ok(held);
    };
    for entry in entries {
        let Ok(entry) = entry else {
            continue;
        };
        if let Some(file) = see_entry(alloc, rt, &entry)? {
            held.insert(place_of(held.as_slice(), &file), file)?;
        }
    }
    Ok(held)
}

/// Returns the file that an entry of that folder holds, if it is a partial file.
fn see_entry<A: Allocator + Copy, R: Files + Clock + Drop, B: Allocator>(
    alloc: A,
    rt: &R,
    entry: &DirEntry<R, B>,
) -> Result<Option<HeldFile>, AllocError> {
    let Ok(metadata) = entry.metadata() else {
        return Ok(None);
    };
    if !is_partial(entry.file_name()) || !metadata.is_file() {
        return Ok(None);
    }
    match front_of(alloc, rt, entry.path().as_str()) {
        Ok(front) => Ok(held_by(front, seen(rt, &metadata))),
        Err(error) if error.kind() == ErrorKind::OutOfMemory => Err(AllocError),
        Err(_) => Ok(None),
    }
}

/// Returns the first bytes of a partial file, enough for its line.
fn front_of<A: Allocator, R: Files>(alloc: A, rt: &R, path: &str) -> io::Result<Vec<u8, A>> {
    let mut front = Vec::new(alloc);
    let mut reader = File::open(rt, path)?.take(HELD_LINE_MAX as u64);
    reader.read_to_end(&mut front)?;
    Ok(front)
}

/// Returns the file that is held in a text of this size and age. `front` has the first bytes of the text.
fn held_by<A: Allocator>(front: Vec<u8, A>, text: SeenFile) -> Option<HeldFile>
    ensures { result ≡ held_by (length front.items) (partial_in front.items) text }
{
    let front_len = front.len();
    let file = into_partial(front)?;
    let line = front_len.saturating_sub(file.bytes.len()) as u64;
    Some(HeldFile {
        name: file.source,
        whole: file.told.size,
        held: SeenFile {
            size: text.size.saturating_sub(line),
            age: text.age,
        },
    })
}

/// Returns the index at which a file belongs among others, which are sorted.
fn place_of(held: &[HeldFile], file: &HeldFile) -> usize
    ensures { result ≤ length held.now }
{
    for (place, other) in held.iter().enumerate() {
        if is_before(file, other) {
            return place;
        }
    }
    held.len()
}

/// Returns whether a file is listed before another one. Files are sorted by name, and then by the number of bytes held.
fn is_before(file: &HeldFile, other: &HeldFile) -> bool {
    match file.name.as_bytes().cmp(other.name.as_bytes()) {
        Ordering::Less => true,
        Ordering::Equal => file.held.size < other.held.size,
        Ordering::Greater => false,
    }
}
