//! The port of a caller at a socket, who may be silent.
ghost use Rattle.std.specs.Prelude.{◌≡◌, ◌<◌, length, IfOk};
ghost use Rattle.uug_transfer.specs.ReadOutcomes.{IsWithin};

use std::alloc::Allocator;
use std::time::Duration;
use uug_error::Cause;
use uug_io_line::{Port, Waiters};
use uug_transfer::ReadOutcome;

/// The seconds for which a caller may be silent while others wait.
const DOOR_SECONDS: u64 = 8;

/// The port of a caller at a socket. Before the caller's first byte, a read times out after `DOOR_SECONDS` if others
/// wait, and the port is then at its end. If nobody waits, a read waits as long as at any port.
#[derive(Drop)]
pub(crate) struct DoorPort<P, A: Allocator> {
    port: P,
    /// The time for which its calls wait.
    time: Duration,
    /// The watch for other callers, if there is one.
    waiters: Option<Waiters<A>>,
    is_heard: bool,
    /// Set once the caller is given up because others wait.
    is_left: bool,
}

impl<P: Port, A: Allocator> DoorPort<P, A> {
    /// Wraps the port of a caller. Its calls wait up to `time`, and `waiters` watches for other callers.
    pub(crate) fn new(port: P, time: Duration, waiters: Option<Waiters<A>>) -> Self {
        DoorPort {
            port,
            time,
            waiters,
            is_heard: false,
            is_left: false,
        }
    }

    /// Reads while no byte has arrived yet.
    fn hear(&mut self, buffer: &mut [u8]) -> Result<ReadOutcome, Cause>
        requires room { 0 < length buffer.old }
        ensures size { length buffer.new ≡ length buffer.old }
        ensures within { IfOk result (λ outcome. IsWithin (length buffer.old) outcome) }
    {
        let first = self.time.min(Duration::from_secs(DOOR_SECONDS));
        let rest = self.time.saturating_sub(first);
        match self.hear_for(buffer, first)? {
            ReadOutcome::TimedOut if !self.is_left && !rest.is_zero() => {
                self.hear_for(buffer, rest)
            }
            outcome => Ok(outcome),
        }
    }

    /// Reads once, and waits up to `time`. After a timeout, the caller is given up if others wait.
    fn hear_for(&mut self, buffer: &mut [u8], time: Duration) -> Result<ReadOutcome, Cause>
        requires room { 0 < length buffer.old }
        ensures size { length buffer.new ≡ length buffer.old }
        ensures within { IfOk result (λ outcome. IsWithin (length buffer.old) outcome) }
    {
        self.port.set_time(time);
        let outcome = self.port.read(buffer)?;
        match outcome {
            ReadOutcome::Bytes(_) => {
                self.is_heard = true;
                self.port.set_time(self.time);
            }
            ReadOutcome::TimedOut => self.is_left = self.do_others_wait(),
            ReadOutcome::Eof => (),
        }
        Ok(outcome)
    }

    /// Returns whether others wait.
    fn do_others_wait(&mut self) -> bool {
        match &mut self.waiters {
            Some(waiters) => waiters.are_there(),
            None => false,
        }
    }
}

impl<P: Port, A: Allocator> Port for DoorPort<P, A> {
    fn write(&mut self, piece: &[u8]) -> Result<usize, Cause> {
        self.port.write(piece)
    }

    fn read(&mut self, buffer: &mut [u8]) -> Result<ReadOutcome, Cause> {
        if self.is_left {
            Ok(ReadOutcome::Eof)
        } else if self.is_heard {
            self.port.read(buffer)
        } else {
            self.hear(buffer)
        }
    }

    fn set_time(&mut self, time: Duration) {
        self.time = time;
        self.port.set_time(time);
    }
}
