//! A partial file: it holds the first bytes of another file, and is open for appending.

use crate::atomic_file::replace_private;
use crate::part_path::PartPath;
use crate::partial_folder::{path_of, see_no_link};
use crate::written::see_written;
use std::alloc::Allocator;
use std::fs::{File, OpenFile, OpenOptions};
use std::io::{ErrorKind, Read, Write};
use std::rt::Files;
use std::{fs, io};
use uug_error::write_again;
use uug_store::held_line;
use uug_talk::NamedDigest;

/// The minimum number of new bytes that are appended at once.
pub(crate) const STEP: usize = 16_384;

/// The minimum number of bytes that are synced to disk at once.
const SYNC_STEP: usize = 65_536;

/// The minimum part of the bytes held that is synced to disk at once, as a divisor: a sixteenth.
const SYNC_PART: usize = 16;

/// A partial file, which holds the first bytes of another file. If its end is killed, it may lack the last ones that
/// arrived.
#[derive(Drop)]
pub(crate) struct HeldPart {
    file: File,
    /// The number of bytes that it holds.
    count: usize,
    /// The number of these that have been synced, or were there when it was opened.
    synced: usize,
}

impl HeldPart {
    /// Opens this file's partial file in the folder at `path`. If there is none that can be read, or it holds more than
    /// `most` bytes, replaces it with one that holds none. Creates a missing folder.
    pub(crate) fn open<A: Allocator + Copy, R: Files<File = File>>(
        alloc: A,
        rt: &R,
        path: &str,
        named: &NamedDigest,
        most: usize,
    ) -> io::Result<Self> {
        let to = path_of(alloc, path, &named.told)?;
        let line = held_line(named);
        fs::create_dir_all(rt, path)?;
        see_no_link(rt, path)?;
        let count = match count_in(alloc, rt, to.as_str(), line.as_slice()) {
            Ok(count) if count <= most as u64 => count as usize,
            _ => {
                let mut part = PartPath::new(alloc, rt, path)?;
                let written = replace_private(rt, &mut part, path, to.as_str(), line.as_slice())?;
                see_written(written, line.as_slice());
                0
            }
        };
        let file = OpenOptions::new().append(true).open(rt, to.as_str())?;
        Ok(HeldPart {
            file,
            count,
            synced: count,
        })
    }

    /// Appends bytes that have arrived and are not held yet: `front` arrived before this session, `bytes` in it. One
    /// call may append only some of them. Fewer than `STEP` new bytes wait for the next call.
    pub(crate) fn append(&mut self, front: &[u8], bytes: &[u8]) -> io::Result<()> {
        if self.count < front.len() {
            return self.write(&front[self.count..]);
        }
        let new = rest_of(bytes, self.count - front.len());
        if new.len() < STEP {
            return Ok(());
        }
        self.write(new)?;
        let waits = self.count.saturating_sub(self.synced);
        if waits >= SYNC_STEP && waits >= self.count / SYNC_PART {
            self.file.sync_data()?;
            self.synced = self.count;
        }
        Ok(())
    }

    /// Appends all of these first bytes that are not held yet, and syncs the partial file to disk. If that fails,
    /// truncates it to its old length, if possible.
    pub(crate) fn finish(&mut self, bytes: &[u8]) -> io::Result<()> {
        let before = self.file.metadata()?.len();
        let written = self.write_rest(bytes);
        if written.is_err() {
            let _ = self.file.set_len(before);
        }
        written
    }

    fn write_rest(&mut self, bytes: &[u8]) -> io::Result<()> {
        self.file.write_all(rest_of(bytes, self.count))?;
        self.file.sync_all()
    }

    /// Returns whether it held nothing when it was opened, and `append` has added nothing.
    pub(crate) fn is_empty(&self) -> bool {
        self.count == 0
    }

    fn write(&mut self, bytes: &[u8]) -> io::Result<()> {
        let count = write_again(&mut self.file, bytes)?;
        self.count = self.count.saturating_add(count);
        Ok(())
    }
}

/// Returns the bytes after the first `count` ones.
fn rest_of(bytes: &[u8], count: usize) -> &[u8] {
    &bytes[count.min(bytes.len())..]
}

/// Returns the number of bytes that the regular file at `path` has after this line. It is an error if the file doesn't
/// begin with the line.
fn count_in<A: Allocator, R: Files>(alloc: A, rt: &R, path: &str, line: &[u8]) -> io::Result<u64> {
    let found = fs::symlink_metadata(rt, path)?;
    let Some(count) = found.len().checked_sub(line.len() as u64) else {
        return Err(io::Error::from(ErrorKind::InvalidData));
    };
    if !found.is_file() {
        return Err(io::Error::from(ErrorKind::InvalidData));
    }
    let mut front = Vec::new(alloc);
    let mut reader = File::open(rt, path)?.take(line.len() as u64);
    reader.read_to_end(&mut front)?;
    if front.as_slice() != line {
        return Err(io::Error::from(ErrorKind::InvalidData));
    }
    Ok(count)
}
