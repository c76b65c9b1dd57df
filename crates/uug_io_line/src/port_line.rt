//! The line of an end over a port of the system.
ghost use Rattle.std.specs.Prelude.{◌≡◌, ◌≤◌, length, IfOk, None};
ghost use Rattle.uug_io_line.specs.LineEnds.{outcome_then, taken_then};
ghost use Rattle.uug_transfer.specs.ReadOutcomes.{IsWithin};

use crate::flight::Flight;
use crate::port::Port;
use std::time::{Clock, Instant};
use uug_error::{Cause, Resource, SystemFailure};
use uug_transfer::{EndLine, Pace, ReadOutcome, SessionStatus};

/// The line of an end over a port. Each call waits for as long as the pace gives at that time. It counts the seconds
/// since it was opened. A failed call is the end of the line. A read that fails returns `Eof`. After a write that
/// fails, reads return the bytes that have arrived, then `Eof`, and bytes that are written are lost. A session thus
/// ends in the same way whether a read or a write finds that the other end is gone.
#[derive(Drop)]
pub struct PortLine<'a, P, R> {
    port: P,
    rt: &'a R,
    /// The time at which it was opened, if the clock gives one.
    since: Option<Instant>,
    flight: Flight,
    /// The cause of the first failure.
    cause: Option<Cause>,
    /// Set once a write has failed.
    is_cut: bool,
    /// Set while the session is done: a failure then does not matter.
    is_done: bool,
}

impl<'a, P: Port, R: Clock> PortLine<'a, P, R> {
    /// Creates the line of a new session, over a port that was just opened. The port already waits for the time that
    /// `pace` gives with nothing in flight.
    pub fn new(rt: &'a R, port: P, pace: Pace) -> Self {
        PortLine {
            port,
            rt,
            since: Instant::now(rt).ok(),
            flight: Flight::new(pace),
            cause: None,
            is_cut: false,
            is_done: false,
        }
    }

    /// Returns why the line failed, or `None` if it has not failed or the session is done.
    pub fn failure(&self) -> Option<SystemFailure> {
        match self.cause {
            Some(cause) if !self.is_done => Some(SystemFailure::on(Resource::Line, cause)),
            _ => None,
        }
    }

    /// Notes the cause of a call that failed, if it is the first.
    fn note_failed<T>(&mut self, called: &Result<T, Cause>) {
        if let Err(cause) = called {
            self.cause = self.cause.or(Some(*cause));
        }
    }
}

impl<P: Port, R: Clock> EndLine for PortLine<'_, P, R> {
    ghost received = { λ _. None };

    ghost taken = { λ _. None };

    ghost writes = { λ _. None };

    fn write(&mut self, piece: &[u8]) -> usize {
        if self.is_cut {
            return piece.len();
        }
        self.flight.begin(piece);
        let written = self.port.write(piece);
        self.note_failed(&written);
        self.is_cut = written.is_err();
        let count = taken_then(written, piece);
        self.flight.note(count, piece);
        count
    }

    fn read(&mut self, buffer: &mut [u8]) -> ReadOutcome {
        let read = self.port.read(buffer);
        self.note_failed(&read);
        outcome_then(read, self.is_cut, buffer)
    }

    fn note(&mut self, status: SessionStatus) {
        if let Some(time) = self.flight.new_time(status.unacked) {
            self.port.set_time(time);
        }
        self.is_done = status.phase.is_done();
    }

    fn seconds(&self) -> u64 {
        let Some(since) = self.since else {
            return 0;
        };
        match since.elapsed(self.rt) {
            Ok(elapsed) => elapsed.as_secs(),
            Err(_) => 0,
        }
    }
}

/// Returns how many bytes of `piece` a write has consumed. A failed write consumes all: they are lost.
fn taken_then(written: Result<usize, Cause>, piece: &[u8]) -> usize
    requires { IfOk written (λ n. n ≤ length piece.now) }
    ensures taken { result ≡ taken_then (length piece.now) written }
    ensures within { result ≤ length piece.now }
{
    match written {
        Ok(count) => count,
        Err(_) => piece.len(),
    }
}

/// Returns the line's outcome of a read into this buffer. A failed read is the end of the line. After a failed write
/// nothing is waited for, so a timeout is the end too.
fn outcome_then(read: Result<ReadOutcome, Cause>, is_cut: bool, _buffer: &[u8]) -> ReadOutcome
    requires { IfOk read (λ outcome. IsWithin (length _buffer.now) outcome) }
    ensures outcome { result ≡ outcome_then is_cut read }
    ensures within { IsWithin (length _buffer.now) result }
{
    match (read, is_cut) {
        (Err(_), _) | (Ok(ReadOutcome::TimedOut), true) => ReadOutcome::Eof,
        (Ok(outcome), _) => outcome,
    }
}
