//! The files about the calls with a system: its status, the log, and the statistics.

use crate::spool_files::read_file;
use crate::spool_paths::SpoolPaths;
use std::alloc::Allocator;
use std::fs::{File, OpenFile, OpenOptions};
use std::io::{ErrorKind, Write};
use std::os::unix::fs::FileTypeExt;
use std::rt::Files;
use std::{fs, io};
use uug_talk::{NUMBER_MAX, read_number};
use uug_taylor_text::{Status, read_status, status_line};

/// The maximum size of a status file that is read, in bytes.
const STATUS_MAX: usize = 4096;

/// Returns the result of the last call with the system, if its status file can be read.
pub fn read_status_file<A: Allocator + Copy, R: Files>(
    alloc: A,
    rt: &R,
    paths: &SpoolPaths<A>,
) -> Option<Status> {
    let spool = paths.spool();
    let system = paths.system().as_str();
    let path = format!(in alloc; "{spool}/.Status/{system}").ok()?;
    let text = read_file(alloc, rt, path.as_str(), STATUS_MAX).ok()??;
    read_status(text.as_slice())
}

/// Replaces the status file of the system, by renaming a new file. The file is not synced: it is written again at the
/// next call.
pub fn write_status_file<A: Allocator + Copy, R: Files>(
    alloc: A,
    rt: &R,
    paths: &SpoolPaths<A>,
    status: &Status,
) -> io::Result<()> {
    let spool = paths.spool();
    let system = paths.system().as_str();
    let text = status_line(alloc, status, paths.system())?;
    let folder = format!(in alloc; "{spool}/.Status")?;
    let part = format!(in alloc; "{spool}/.Status/.part.{system}")?;
    let path = format!(in alloc; "{spool}/.Status/{system}")?;
    fs::create_dir_all(rt, folder.as_str())?;
    let mut file = File::create(rt, part.as_str())?;
    file.write_all(text.as_slice())?;
    fs::rename(rt, part.as_str(), path.as_str())
}

/// Appends a line to the file at a path, with one write unless the system writes only a part. A named pipe is refused:
/// it may have no reader.
pub fn append_line<R: Files<File = File>>(rt: &R, path: &str, line: &[u8]) -> io::Result<()> {
    if is_named_pipe(rt, path) {
        return Err(io::Error::from(ErrorKind::Unsupported));
    }
    let mut file = OpenOptions::new().append(true).create(true).open(rt, path)?;
    file.write_all(line)
}

/// Returns whether there is a named pipe at a path, whose opening may block. A path below `/dev` or `/proc` doesn't
/// count: it may be open in this process already, such as its standard output.
pub(crate) fn is_named_pipe<R: Files>(rt: &R, path: &str) -> bool {
    if path.starts_with("/dev/") || path.starts_with("/proc/") {
        return false;
    }
    match fs::metadata(rt, path) {
        Ok(seen) => seen.file_type().is_fifo(),
        Err(_) => false,
    }
}

/// Returns the number of this process, or 0 if the system does not report it.
pub fn process_number<A: Allocator + Copy, R: Files>(alloc: A, rt: &R) -> u32 {
    let Ok(process) = rt.read_link(alloc, "/proc/self") else {
        return 0;
    };
    let process = process.into_string();
    read_number(process.as_bytes(), NUMBER_MAX).unwrap_or(0)
}
