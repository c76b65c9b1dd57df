//! The voice and the log that report a session.

use crate::voice::Voice;
use std::alloc::{AllocError, Allocator};
use std::time::Clock;
use uug_observe_log::{Journal, News, SessionLog, words_of};
use uug_session::{End, Phase, phase_word};
use uug_talk::Name;
use uug_transfer::SessionStatus;

/// A voice on standard error, and a log, if there is one.
#[derive(Drop)]
pub(crate) struct Tellers<'a, R, A: Allocator> {
    /// Set if the voice reports everything, not only what went wrong.
    pub(crate) is_loud: bool,
    pub(crate) voice: Voice<'a, R, A>,
    pub(crate) log: Option<SessionLog<'a, R, A>>,
}

impl<R: Eprint + Clock, A: Allocator + Copy> Tellers<'_, R, A> {
    /// Logs the start of the session, once: a byte of the other end has come.
    pub(crate) fn begin(&mut self) {
        if let Some(log) = &mut self.log {
            log.begin();
        }
    }

    /// Gives the log the name of the caller.
    pub(crate) fn note_caller(&mut self, name: Name) {
        if let Some(log) = &mut self.log {
            log.set_caller(name);
        }
    }

    /// Reports the messages that were held back: the results of the jobs are on the disk.
    pub(crate) fn tell_held(&mut self) {
        self.voice.say_held();
        if let Some(log) = &mut self.log {
            log.write_held();
        }
    }

    /// Reports the state of the end.
    pub(crate) fn tell_status(&mut self, status: SessionStatus) {
        self.voice.wipe();
        if self.is_loud {
            self.voice.say_status(status);
        }
    }

    /// Prints this line about a session that ended badly, if the voice is loud.
    pub(crate) fn tell_last(&self, line: Result<String<A>, AllocError>) {
        if self.is_loud {
            self.voice.say(line);
        }
    }

    /// Logs the end of the session, and this line about it if it is not empty.
    pub(crate) fn log_end(&mut self, status: SessionStatus, line: &str) {
        if let Some(log) = &mut self.log {
            log.end(bad_word(status.phase), words_of(line), status.failed);
        }
    }
}

/// Returns the word for a session that did not end as done. In the greeting there is none: a caller whose system is
/// locked is turned away then, and that is logged where it is done.
fn bad_word(phase: Phase) -> Option<&'static str> {
    match phase {
        Phase::Ended(End::Done) | Phase::Hail => None,
        phase => Some(phase_word(phase)),
    }
}

impl<R: Eprint + Clock, A: Allocator + Copy> Journal for Tellers<'_, R, A> {
    fn note(&mut self, news: &News) {
        self.voice.follow(news);
        if self.is_loud {
            self.voice.note(news);
        }
        if let Some(log) = &mut self.log {
            log.note(news);
        }
    }
}
