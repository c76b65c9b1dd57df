//! The file for a report.

use std::fs::{File, OpenFile, OpenOptions};
use std::io;
use std::io::Write;
use std::rt::Files;

/// A file that keeps its contents until the first write. A run that prints nothing leaves it unchanged.
#[derive(Drop)]
pub struct ReportFile {
    file: File,
    /// Set while old contents are still to be removed.
    is_kept: bool,
}

impl ReportFile {
    /// Opens the file at this path, and creates it if it is missing. Only a regular file has contents to remove.
    pub fn open<R: Files<File = File>>(rt: &R, path: &str) -> io::Result<Self> {
        let file = OpenOptions::new().write(true).create(true).open(rt, path)?;
        let is_kept = file.metadata()?.is_file();
        Ok(ReportFile { file, is_kept })
    }
}

impl Write for ReportFile {
    fn write(&mut self, piece: &[u8]) -> io::Result<usize> {
        if self.is_kept {
            self.file.set_len(0)?;
            self.is_kept = false;
        }
        self.file.write(piece)
    }

    fn flush(&mut self) -> io::Result<()> {
        self.file.flush()
    }
}
