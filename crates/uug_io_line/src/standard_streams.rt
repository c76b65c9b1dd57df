//! The standard streams of the program, as the line of an end.

use crate::waiting::set_waiting;
use std::fs::{File, OpenOptions};
use std::io::{Stderr, Stdin, Stdout};
use std::os::fd::AsRawFd;
use std::rt::Files;

/// The file opened in place of a closed standard stream.
const NOTHING: &str = "/dev/null";

/// Standard input, standard output and standard error.
#[derive(Clone, Copy)]
pub struct StandardStreams {
    /// The stream that is read.
    pub input: Stdin,
    /// The stream that is written.
    pub output: Stdout,
    /// The stream for error messages.
    pub errors: Stderr,
}

impl StandardStreams {
    /// Makes the calls of `input` and `output` block again. Other programs that share them expect that.
    pub fn release(&self) {
        let _ = set_waiting(&self.input, true);
        let _ = set_waiting(&self.output, true);
    }
}

/// Opens `/dev/null` in place of each closed standard stream. While the returned files are open, no other file gets the
/// stream's descriptor. Reading or writing them fails as on a closed stream.
pub fn hold_descriptors<R: Files<File = File>>(rt: &R) -> [Option<File>; 3] {
    [hold_next(rt), hold_next(rt), hold_next(rt)]
}

/// Holds the lowest closed descriptor, if it is that of a standard stream.
fn hold_next<R: Files<File = File>>(rt: &R) -> Option<File> {
    let held = OpenOptions::new().write(true).open(rt, NOTHING).ok()?;
    match held.as_raw_fd() {
        0 => Some(held),
        1 | 2 => {
            drop(held);
            File::open(rt, NOTHING).ok()
        }
        _ => None,
    }
}
