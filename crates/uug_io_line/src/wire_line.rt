//! A line over two streams, such as the two ends of a socket.
ghost use Rattle.std.specs.Prelude.{◌≡◌, ℕ, ◌+◌, ◌^◌, ◌<◌, ◌≤◌, length, IfOk, IsSome, OnErr, OnOk};
ghost use Rattle.uug_conversation.specs.Sides.{at};
ghost use Rattle.uug_session.specs.Engine.{HasFailed};

use std::io::{Read, Write};
use uug_error::{Cause, Faults, Resource, SystemFailure, read_again, write_again};
use uug_session::Side;
use uug_transfer::{Line, LineFailed};

/// A line over two streams: what is written on one is read from the other. The end on each side writes on its own
/// stream and reads from it.
#[derive(Drop)]
pub struct WireLine<T> {
    caller: T,
    called: T,
    to_caller: usize,
    to_called: usize,
    faults: Faults,
}

impl<T: Read + Write> WireLine<T> {
    /// Creates the line over the caller's and the called end's stream, on which nothing was written yet.
    pub fn new(caller: T, called: T) -> Self
        ensures unread { (side : _) → ⟦<WireLine<T> as Line>⟧.unread result side ≡ 0 }
        ensures faults { ⟦<WireLine<T> as Line>⟧.fault_count result ≡ 0 }
    {
        WireLine {
            caller,
            called,
            to_caller: 0,
            to_called: 0,
            faults: Faults::none(),
        }
    }
}

impl<T> WireLine<T> {
    /// Returns the first failure of a system call on the line, if there was one.
    pub fn failure(&self) -> Option<SystemFailure>
        ensures told { 0 < self.now.faults.count → IsSome result }
    {
        self.faults.first()
    }
}

impl<T: Read + Write> Line for WireLine<T> {
    ghost unread = { λ line side.
        at side (record { at_caller = line.to_caller; at_called = line.to_called }) };

    ghost fault_count = { λ line. line.faults.count };

    fn write(&mut self, to: Side, piece: &[u8]) -> Result<usize, LineFailed> {
        match to {
            Side::Caller => write_some(
                &mut self.called,
                piece,
                &mut self.to_caller,
                &mut self.faults,
            ),
            Side::Called => write_some(
                &mut self.caller,
                piece,
                &mut self.to_called,
                &mut self.faults,
            ),
        }
    }

    fn read(&mut self, at: Side, buffer: &mut [u8]) -> Result<usize, LineFailed> {
        match at {
            Side::Caller => read_some(
                &mut self.caller,
                buffer,
                &mut self.to_caller,
                &mut self.faults,
            ),
            Side::Called => read_some(
                &mut self.called,
                buffer,
                &mut self.to_called,
                &mut self.faults,
            ),
        }
    }

    fn unread(&self, side: Side) -> usize {
        match side {
            Side::Caller => self.to_caller,
            Side::Called => self.to_called,
        }
    }

    fn faults(&self) -> u64 {
        self.faults.count()
    }
}

/// Writes the first bytes of `piece`. A stream that takes none of them has failed.
fn write_some<T: Write>(
    stream: &mut T,
    piece: &[u8],
    unread: &mut usize,
    faults: &mut Faults,
) -> Result<usize, LineFailed>
    requires { unread.old + length piece.now < 2 ^ 64 }
    ensures within { IfOk result (λ n. (0 < n) × (n ≤ length piece.now)) }
    ensures count { IfOk result (λ n. unread.new ≡ unread.old + n) }
    ensures calm { OnOk result (faults.new.count ≡ faults.old.count) }
    ensures fault { OnErr result (HasFailed u64.MAX faults.old.count faults.new.count) }
    ensures grows { faults.old.count ≤ faults.new.count }
{
    let cause = match write_again(stream, piece) {
        Ok(0) => Cause::MovedNothing,
        Ok(count) => {
            *unread += count;
            return Ok(count);
        }
        Err(error) => Cause::of(&error),
    };
    faults.note(SystemFailure::on(Resource::Line, cause));
    Err(LineFailed)
}

/// Reads at most the unread bytes. A stream that gives none of them has failed.
fn read_some<T: Read>(
    stream: &mut T,
    buffer: &mut [u8],
    unread: &mut usize,
    faults: &mut Faults,
) -> Result<usize, LineFailed>
    ensures within { IfOk result (λ n. (0 < n) × (n ≤ length buffer.old)) }
    ensures count { IfOk result (λ n. unread.new + n ≡ unread.old) }
    ensures calm { OnOk result (faults.new.count ≡ faults.old.count) }
    ensures fault { OnErr result (HasFailed u64.MAX faults.old.count faults.new.count) }
    ensures grows { faults.old.count ≤ faults.new.count }
{
    let most = buffer.len().min(*unread);
    let cause = match read_again(stream, &mut buffer[..most]) {
        Ok(0) => Cause::MovedNothing,
        Ok(count) => {
            *unread -= count;
            return Ok(count);
        }
        Err(error) => Cause::of(&error),
    };
    faults.note(SystemFailure::on(Resource::Line, cause));
    Err(LineFailed)
}
