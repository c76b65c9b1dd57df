//! The observer that notices when a caller is let in, or says nothing.
ghost use Rattle.std.specs.Prelude.{◌≡◌, true, false};
ghost use Rattle.uug_run.specs.Callers.{is_silent_end, left_behind};

use std::alloc::Allocator;
use std::io;
use std::net::Net;
use std::rt::Files;
use std::time::{Clock, Duration};
use uug_io_line::{Deadline, Listener, Listening, TimedStream, Waiters};
use uug_session::{End, Phase};
use uug_transfer::{ReadOutcome, SessionObserver, SessionStatus};

/// An observer that notices when a caller is let in: its session is past the greeting. It closes the socket after the
/// last caller that may be let in. It passes all that it sees to another observer, except how the line of a silent
/// caller ended: this end may have hung up. The answering end reports that caller.
#[derive(Drop)]
pub(crate) struct Doorkeeper<'a, 'p, W, T, R, A: Allocator> {
    observer: W,
    listening: Listening<'a, 'p, T, R, A>,
    /// The number of callers that may still be let in.
    left: u32,
    /// Set once the caller at the door has been let in.
    has_let_in: bool,
    /// Set once it has sent a byte.
    has_said: bool,
    /// Set once a read has found it silent.
    has_paused: bool,
    /// Set once its line has ended after nothing but silence.
    was_silent: bool,
}

impl<'a, 'p, W, T: Drop, R: Files, A: Allocator> Doorkeeper<'a, 'p, W, T, R, A> {
    /// Creates the doorkeeper of this socket, who lets in up to `callers` callers.
    pub(crate) fn new(observer: W, listening: Listening<'a, 'p, T, R, A>, callers: u32) -> Self
        ensures left { result.left ≡ callers }
        ensures has_let_in { result.has_let_in ≡ false }
    {
        Doorkeeper {
            observer,
            listening,
            left: callers,
            has_let_in: false,
            has_said: false,
            has_paused: false,
            was_silent: false,
        }
    }

    /// Starts over for the next caller.
    pub(crate) fn wait_for_next(&mut self)
        ensures { self.new ≡ record self.old { has_let_in = false } }
    {
        self.has_let_in = false;
    }

    /// Returns whether the caller at the door has been let in.
    pub(crate) fn has_let_in(&self) -> bool
        ensures { result ≡ self.now.has_let_in }
    {
        self.has_let_in
    }

    /// Returns whether the line of the caller at the door has ended after nothing but silence.
    pub(crate) fn was_silent(&self) -> bool
        ensures { result ≡ self.now.was_silent }
    {
        self.was_silent
    }

    /// Starts over for a caller who has arrived at the door.
    fn open_door(&mut self)
        ensures { self.new ≡ record self.old {
          has_said = false;
          has_paused = false;
          was_silent = false;
        } }
    {
        self.has_said = false;
        self.has_paused = false;
        self.was_silent = false;
    }

    /// Returns whether the socket is still listening.
    pub(crate) fn is_open(&self) -> bool {
        self.listening.is_open()
    }

    /// Closes the socket.
    pub(crate) fn close(&mut self)
        ensures left { self.new.left ≡ self.old.left }
        ensures has_let_in { self.new.has_let_in ≡ self.old.has_let_in }
    {
        self.listening.close();
    }

    /// Lets in the caller at the door, counted once. Closes the socket after the last one.
    fn let_in(&mut self)
        ensures left { self.new.left ≡ left_behind self.old.left self.old.has_let_in }
        ensures has_let_in { self.new.has_let_in ≡ true }
    {
        if self.has_let_in {
            return;
        }
        self.has_let_in = true;
        self.left = self.left.saturating_sub(1);
        if self.left == 0 {
            self.close();
        }
    }
}

impl<W, T: Listener + Drop, R: Files + Net + Clock, A: Allocator + Copy> Doorkeeper<
    '_,
    '_,
    W,
    T,
    R,
    A,
> {
    /// Returns the next caller, if one arrives in time. The calls of its stream wait up to `time`.
    pub(crate) fn next_caller(
        &mut self,
        deadline: &Deadline,
        time: Duration,
    ) -> io::Result<Option<T::Stream>> {
        let Some(stream) = self.listening.next_caller(deadline)? else {
            return Ok(None);
        };
        stream.set_time(time)?;
        self.open_door();
        Ok(Some(stream))
    }

    /// Returns a watch for other callers, or `None` if the socket is closed or the watch can't be set up.
    pub(crate) fn waiters(&self, alloc: A) -> Option<Waiters<A>> {
        self.listening.waiters(alloc)
    }
}

impl<W, T, R, A> SessionObserver for Doorkeeper<'_, '_, W, T, R, A>
where
    W: SessionObserver,
    T: Listener + Drop,
    R: Files,
    A: Allocator,
{
    fn wrote(&mut self, piece: &[u8]) {
        self.observer.wrote(piece);
    }

    fn read(&mut self, outcome: ReadOutcome, piece: &[u8]) {
        match outcome {
            ReadOutcome::Bytes(_) => self.has_said = true,
            ReadOutcome::TimedOut => self.has_paused = true,
            ReadOutcome::Eof => {}
        }
        self.observer.read(outcome, piece);
    }

    fn note(&mut self, status: SessionStatus) {
        if let Phase::Starting | Phase::Talking | Phase::Closing = status.phase {
            self.let_in();
        }
        if is_silent_end(self.has_paused, self.has_said, status.phase) {
            self.was_silent = true;
            self.observer.note(in_greeting(status));
        } else {
            self.observer.note(status);
        }
    }
}

/// Returns whether a caller was silent to the end of its line: there was a timeout and no byte, and the phase says that
/// the line has ended.
fn is_silent_end(has_paused: bool, has_said: bool, phase: Phase) -> bool
    ensures { result ≡ is_silent_end has_paused has_said phase }
{
    match (has_paused, has_said, phase) {
        (true, false, Phase::Ended(End::HungUp)) => true,
        _ => false,
    }
}

/// Returns this status as that of a session in its greeting. Observers do not report how a session in its greeting
/// ended.
fn in_greeting(status: SessionStatus) -> SessionStatus
    ensures { result ≡ record status { phase = Phase.Hail } }
{
    SessionStatus {
        phase: Phase::Hail,
        pending: status.pending,
        struck: status.struck,
        failed: status.failed,
        unacked: status.unacked,
        is_over: status.is_over,
    }
}
