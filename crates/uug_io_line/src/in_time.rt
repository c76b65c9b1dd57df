//! Reads and writes of a port that does its own waiting.
ghost use Rattle.std.specs.Prelude.{◌<◌, ◌≤◌, length, IfOk};
ghost use Rattle.uug_transfer.specs.ReadOutcomes.{IsWithin};

use crate::stream_port::{read_some, write_some};
use crate::waiting::Waiting;
use mio::Interest;
use std::alloc::Allocator;
use std::io::{ErrorKind, Read, Write};
use std::os::fd::AsRawFd;
use uug_error::Cause;
use uug_transfer::ReadOutcome;

/// Waits until the file is writable, and writes some of `piece`. Returns 0 after a timeout, or if the write would still
/// block.
pub(crate) fn write_in_time<T: Write + AsRawFd, A: Allocator + Copy>(
    file: &mut T,
    waiting: &mut Waiting<A>,
    piece: &[u8],
) -> Result<usize, Cause>
    ensures { IfOk result (λ n. n ≤ length piece.now) }
{
    match waiting.wait(file, Interest::WRITABLE) {
        Ok(true) => write_some(file, piece),
        Ok(false) => Ok(0),
        Err(error) => Err(Cause::of(&error)),
    }
}

/// Writes like `write_in_time`, but fails with `BrokenPipe`, without a write, if the reader is gone. The system would
/// end the program with SIGPIPE.
pub(crate) fn write_where_read<T: Write + AsRawFd, A: Allocator + Copy>(
    file: &mut T,
    waiting: &mut Waiting<A>,
    piece: &[u8],
) -> Result<usize, Cause>
    ensures { IfOk result (λ n. n ≤ length piece.now) }
{
    match waiting.wait(file, Interest::WRITABLE) {
        Ok(true) if waiting.is_write_closed() => Err(Cause::Refused(ErrorKind::BrokenPipe, None)),
        Ok(true) => write_some(file, piece),
        Ok(false) => Ok(0),
        Err(error) => Err(Cause::of(&error)),
    }
}

/// Waits until the file is readable, and reads once. Returns `TimedOut` after a timeout, or if the read would still
/// block.
pub(crate) fn read_in_time<T: Read + AsRawFd, A: Allocator + Copy>(
    file: &mut T,
    waiting: &mut Waiting<A>,
    buffer: &mut [u8],
) -> Result<ReadOutcome, Cause>
    requires { 0 < length buffer.old }
    ensures { IfOk result (λ outcome. IsWithin (length buffer.old) outcome) }
{
    match waiting.wait(file, Interest::READABLE) {
        Ok(true) => read_some(file, buffer),
        Ok(false) => Ok(ReadOutcome::TimedOut),
        Err(error) => Err(Cause::of(&error)),
    }
}
