//! A port over a stream, such as a socket.
ghost use Rattle.std.specs.Prelude.{◌<◌, ◌≤◌, length, IfErr, IfOk};
ghost use Rattle.uug_error.specs.Failures.{IsSilence};
ghost use Rattle.uug_transfer.specs.ReadOutcomes.{IsGiven, IsWithin};

use crate::port::Port;
use crate::timed_stream::TimedStream;
use std::io::{ErrorKind, Read, Write};
use std::time::Duration;
use uug_error::{Cause, read_again, write_again};
use uug_transfer::ReadOutcome;

/// A port over a stream whose calls wait no longer than the timeout that is set.
#[derive(Drop)]
pub struct StreamPort<T> {
    stream: T,
}

impl<T: TimedStream> StreamPort<T> {
    /// Creates the port over this stream.
    pub fn new(stream: T) -> Self {
        StreamPort { stream }
    }
}

impl<T: TimedStream> Port for StreamPort<T> {
    fn write(&mut self, piece: &[u8]) -> Result<usize, Cause> {
        write_some(&mut self.stream, piece)
    }

    fn read(&mut self, buffer: &mut [u8]) -> Result<ReadOutcome, Cause> {
        read_some(&mut self.stream, buffer)
    }

    fn set_time(&mut self, time: Duration) {
        let _ = self.stream.set_time(time);
    }
}

/// Writes once. Returns 0 if the write times out, or signals end it. A write that moves no byte without an error has
/// failed.
pub(crate) fn write_some<T: Write>(stream: &mut T, piece: &[u8]) -> Result<usize, Cause>
    ensures within { IfOk result (λ n. n ≤ length piece.now) }
    ensures no_silence { IfErr result (λ cause. IsSilence cause → ⊥) }
{
    match write_again(stream, piece) {
        Ok(0) => Err(Cause::MovedNothing),
        Ok(count) => Ok(count),
        Err(error) => match error.kind() {
            ErrorKind::WouldBlock | ErrorKind::Interrupted => Ok(0),
            kind => Err(Cause::Refused(kind, error.raw_os_error())),
        },
    }
}

/// Reads once. Returns `TimedOut` if the read times out, or signals end it.
pub(crate) fn read_some<T: Read>(stream: &mut T, buffer: &mut [u8]) -> Result<ReadOutcome, Cause>
    requires room { 0 < length buffer.old }
    ensures within { IfOk result (λ outcome. IsWithin (length buffer.old) outcome) }
    ensures given { IfOk result (λ outcome.
        IsGiven (T.remaining stream.old) (T.remaining stream.new) buffer.new outcome) }
{
    match read_again(stream, buffer) {
        Ok(0) => Ok(ReadOutcome::Eof),
        Ok(count) => Ok(ReadOutcome::Bytes(count)),
        Err(error) => match error.kind() {
            ErrorKind::WouldBlock | ErrorKind::Interrupted => Ok(ReadOutcome::TimedOut),
            _ => Err(Cause::of(&error)),
        },
    }
}
