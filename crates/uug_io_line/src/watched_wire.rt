//! A line over two streams, and an observer of it.
ghost use Rattle.std.specs.Prelude.{◌≡◌, ◌<◌, IfErr, IfOk, IsSome};
ghost use Rattle.uug_error.specs.Faults.{IsSystemFault};
ghost use Rattle.uug_transfer.specs.Turns.{HasRoom};

use crate::wire_line::WireLine;
use crate::wire_socket::open_wire;
use std::io::{Read, Write};
use std::net::Net;
use std::os::unix::net::UnixStream;
use std::rt::Files;
use uug_error::{RunFault, SystemFailure};
use uug_session::Side;
use uug_transfer::{Line, LineFailed, ReadOutcome, SessionObserver, SessionStatus};

/// A line over two streams, and an observer of what the caller writes and reads.
#[derive(Drop)]
pub struct WatchedWire<T, W> {
    line: WireLine<T>,
    observer: W,
}

/// Opens a line as `open_wire` does, with this observer.
pub fn open_watched_wire<R: Files + Net, W: SessionObserver + Drop>(
    rt: &R,
    socket: &str,
    observer: W,
) -> Result<WatchedWire<UnixStream, W>, RunFault>
    ensures room { IfOk result (λ watched.
        HasRoom (⟦<WatchedWire<UnixStream, W> as Line>⟧.unread watched)) }
    ensures calm { IfOk result (λ watched. watched.line.faults.count ≡ 0) }
    ensures no_other { IfErr result IsSystemFault }
{
    match open_wire(rt, socket) {
        Ok(line) => Ok(WatchedWire { line, observer }),
        Err(fault) => Err(fault),
    }
}

impl<T, W> WatchedWire<T, W> {
    /// Returns the first failure of a system call on the line, if there was one.
    pub fn failure(&self) -> Option<SystemFailure>
        ensures told { 0 < self.now.line.faults.count → IsSome result }
    {
        self.line.failure()
    }
}

impl<T: Read + Write, W: SessionObserver> Line for WatchedWire<T, W> {
    ghost unread = { λ watched. ⟦<WireLine<T> as Line>⟧.unread watched.line };

    ghost fault_count = { λ watched. ⟦<WireLine<T> as Line>⟧.fault_count watched.line };

    fn write(&mut self, to: Side, piece: &[u8]) -> Result<usize, LineFailed> {
        let count = self.line.write(to, piece)?;
        if let Side::Called = to {
            self.observer.wrote(&piece[..count]);
        }
        Ok(count)
    }

    fn read(&mut self, at: Side, buffer: &mut [u8]) -> Result<usize, LineFailed> {
        let count = self.line.read(at, buffer)?;
        if let Side::Caller = at {
            let outcome = ReadOutcome::Bytes(count);
            self.observer.read(outcome, &buffer[..count]);
        }
        Ok(count)
    }

    fn note(&mut self, status: SessionStatus) {
        self.observer.note(status);
    }

    fn unread(&self, side: Side) -> usize {
        self.line.unread(side)
    }

    fn faults(&self) -> u64 {
        self.line.faults()
    }
}
