//! The file of a log.
ghost use Rattle.std.specs.Prelude.{◌≡◌};

use crate::clock::LocalClock;
use crate::process::process_number;
use std::alloc::{AllocError, Allocator};
use std::fs::{File, OpenOptions};
use std::io;
use std::rt::{Env, Files};
use std::time::Clock;
use uug_error::write_again;
use uug_taylor_text::LogHead;

/// The name of this program in a log.
const PROGRAM: &[u8] = b"uucpair";

/// The name of the program that an end over a spool replaces.
const REPLACED: &[u8] = b"uucico";

/// A file to which log lines are appended, and the clock and the process number that they show.
#[derive(Drop)]
pub struct LogFile<'a, R> {
    rt: &'a R,
    file: File,
    clock: LocalClock,
    process: u32,
    /// Set if the end works over a spool.
    is_spool: bool,
}

impl<'a, R: Files<File = File> + Env + AllocGlobal> LogFile<'a, R> {
    /// Opens the file at this path for appending, and creates it if it is missing. `is_spool` says whether the end
    /// works over a spool or a folder.
    pub fn open(rt: &'a R, path: &str, is_spool: bool) -> io::Result<Self> {
        let file = OpenOptions::new().append(true).create(true).open(rt, path)?;
        Ok(LogFile {
            rt,
            file,
            clock: LocalClock::read(rt),
            process: process_number(rt.alloc(), rt),
            is_spool,
        })
    }
}

impl<R> LogFile<'_, R> {
    /// Returns whether its end works over a spool.
    pub fn is_spool(&self) -> bool
        ensures { result ≡ self.now.is_spool }
    {
        self.is_spool
    }

    /// Returns the name of the program that writes it.
    fn program(&self) -> &'static [u8] {
        if self.is_spool { REPLACED } else { PROGRAM }
    }
}

impl<'a, R: Clock> LogFile<'a, R> {
    /// Returns the head of a line that is written now. `system` is empty if it isn't known.
    pub fn head<'b>(&self, system: &'b [u8]) -> LogHead<'b> {
        LogHead {
            program: self.program(),
            system,
            user: b"",
            moment: self.clock.now(self.rt),
            process: self.process,
        }
    }

    /// Appends a line by one write. A line is left out if there was no memory for it, or if it can't be written.
    pub fn append<A: Allocator>(&mut self, line: Result<Vec<u8, A>, AllocError>) {
        if let Ok(line) = line {
            let _ = write_again(&mut self.file, line.as_slice());
        }
    }
}
