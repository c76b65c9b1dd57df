//! Pipes, which are not opened for writing: that would wait for a reader.
ghost use Rattle.std.specs.Prelude.{◌≡◌};
ghost use Rattle.uug_io_disk.specs.Pipes.{is_of_process};

use crate::system_text::folder_of;
use std::alloc::{AllocError, Allocator};
use std::fs;
use std::io::ErrorKind;
use std::os::unix::fs::FileTypeExt;
use std::rt::Files;

/// The maximum number of links in a row that are followed, as many as Linux follows.
const LINKS_MAX: u32 = 40;

/// Returns whether there is a named pipe at a path. A pipe that a process holds open, to which `/dev/stdout` and
/// `/proc/self/fd/1` may lead, does not count.
pub fn is_named_pipe<A: Allocator + Copy, R: Files>(
    alloc: A,
    rt: &R,
    path: &str,
) -> Result<bool, AllocError> {
    let mut place = String::from_str(alloc, path)?;
    for _ in 0..LINKS_MAX {
        if is_of_process(place.as_str()) {
            return Ok(false);
        }
        match end_of_link(alloc, rt, place.as_str())? {
            Some(end) => place = end,
            None => break,
        }
    }
    Ok(is_pipe(rt, place.as_str()))
}

/// Returns whether there is a pipe at a path. Follows links.
pub(crate) fn is_pipe<R: Files>(rt: &R, path: &str) -> bool {
    match fs::metadata(rt, path) {
        Ok(metadata) => metadata.file_type().is_fifo(),
        Err(_) => false,
    }
}

/// Returns whether a path is that of a file that a process holds open.
fn is_of_process(path: &str) -> bool
    ensures { result ≡ is_of_process path.now }
{
    path.starts_with("/proc/") || path.starts_with("/dev/fd/")
}

/// Returns the target of the link at a path, if there is one.
fn end_of_link<A: Allocator + Copy, R: Files>(
    alloc: A,
    rt: &R,
    path: &str,
) -> Result<Option<String<A>>, AllocError> {
    let end = match rt.read_link(alloc, path) {
        Ok(end) => end.into_string(),
        Err(error) if error.kind() == ErrorKind::OutOfMemory => return Err(AllocError),
        Err(_) => return Ok(None),
    };
    if end.as_str().starts_with('/') {
        return Ok(Some(end));
    }
    let folder = folder_of(path);
    let end = end.as_str();
    Ok(Some(format!(in alloc; "{folder}/{end}")?))
}
