//! A port over a terminal device. The system has no timeouts for its reads and writes, so the port waits before them.

use crate::in_time::{read_in_time, write_in_time};
use crate::port::Port;
use crate::waiting::Waiting;
use mio::Interest;
use std::alloc::Allocator;
use std::fs::{File, OpenOptions, TryLockError};
use std::io::ErrorKind;
use std::net::Net;
use std::rt::Files;
use std::time::Duration;
use uug_error::Cause;
use uug_transfer::ReadOutcome;

/// The byte that wakes an end that is silent until it receives one. It is not part of a text.
const WAKE: &[u8] = b"\r";

/// A port over a terminal device. It leaves the terminal settings as they are.
#[derive(Drop)]
pub struct DevicePort<A: Allocator> {
    file: File,
    waiting: Waiting<A>,
    /// Set from `wake` until bytes arrive.
    wakes: bool,
}

impl<A: Allocator + Copy> DevicePort<A> {
    /// Opens the device at this path, and locks it for this run. Its calls wait up to `time`, in whole seconds. Fails
    /// with `InUse` if another run holds the lock. Fails with `NoTerminal` if the system can't poll the file, which it
    /// reports as `PermissionDenied`: a regular file, or `/dev/null`.
    pub fn open<R: Files<File = File> + Net>(
        alloc: A,
        rt: &R,
        path: &str,
        time: Duration,
    ) -> Result<Self, Cause> {
        let file = open_alone(rt, path)?;
        match Waiting::new(alloc, rt, &file, time) {
            Ok(waiting) => Ok(DevicePort {
                file,
                waiting,
                wakes: false,
            }),
            Err(error) if error.kind() == ErrorKind::PermissionDenied => Err(Cause::NoTerminal),
            Err(error) => Err(Cause::of(&error)),
        }
    }

    /// Makes each read write a byte first, until bytes arrive. Two ends that wait for each other's greeting thus start.
    pub fn wake(&mut self) {
        self.wakes = true;
    }

    /// Waits up to `time` for the first byte. Returns whether a byte, or the end of the line, arrived. Reads nothing.
    pub fn wait_for_call(&mut self, time: Duration) -> Result<bool, Cause> {
        match self.waiting.wait_for(&self.file, Interest::READABLE, time) {
            Ok(called) => Ok(called),
            Err(error) => Err(Cause::of(&error)),
        }
    }
}

/// Opens a device and locks it. The system releases the lock when the device is closed.
fn open_alone<R: Files<File = File>>(rt: &R, path: &str) -> Result<File, Cause> {
    let file = match OpenOptions::new().read(true).write(true).open(rt, path) {
        Ok(file) => file,
        Err(error) => return Err(Cause::of(&error)),
    };
    match file.try_lock() {
        Ok(()) => Ok(file),
        Err(TryLockError::WouldBlock) => Err(Cause::InUse),
        Err(TryLockError::Error(error)) => Err(Cause::of(&error)),
    }
}

impl<A: Allocator + Copy> Port for DevicePort<A> {
    fn write(&mut self, piece: &[u8]) -> Result<usize, Cause> {
        write_in_time(&mut self.file, &mut self.waiting, piece)
    }

    fn read(&mut self, buffer: &mut [u8]) -> Result<ReadOutcome, Cause> {
        if self.wakes {
            // If the device takes nothing, the next read tries again.
            write_in_time(&mut self.file, &mut self.waiting, WAKE)?;
        }
        let outcome = read_in_time(&mut self.file, &mut self.waiting, buffer)?;
        if let ReadOutcome::Bytes(_) = outcome {
            self.wakes = false;
        }
        Ok(outcome)
    }

    fn set_time(&mut self, time: Duration) {
        self.waiting.set_time(time);
    }
}
