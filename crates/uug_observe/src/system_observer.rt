//! The reports of a session on standard error, and in a log.
ghost use Rattle.std.specs.Prelude.{◌≡◌, IsTrue, Some};
ghost use Rattle.uug_transfer.specs.LineNames.{line_of, standard};

use crate::hearing::{Hearing, NOTHING_PASSED, passed_then};
use crate::last_text::Tail;
use crate::tellers::Tellers;
use crate::unread_remark::{last_remark, unread_remark};
use crate::voice::Voice;
use std::alloc::{AllocError, Allocator};
use std::time::Clock;
use uug_config::{ANY, CallTask};
use uug_error_text::{Heard, Passed, heard_remark, passed_remark};
use uug_observe_log::{Observer, SessionLog, Way};
use uug_session::{End, Phase, Side};
use uug_talk::{Hail, Name};
use uug_transfer::{
    LineName, ReadOutcome, SessionObserver, SessionStatus, caller_in, read_line_name,
};

/// Reports each session on standard error: its phases, the jobs of both ends, and what was lost. If there is a log,
/// logs each job, and how each session begins and ends.
#[derive(Drop)]
pub struct SystemObserver<'a, R, A: Allocator> {
    alloc: A,
    is_lenient: bool,
    /// The maximum size of a file that this end takes, in bytes.
    file_limit: u32,
    /// None if no jobs are reported or logged and no progress is shown, or without memory for it.
    observer: Option<Observer<A>>,
    tellers: Tellers<'a, R, A>,
    /// The side of this end, and the name of the other end, if it is valid.
    side: Side,
    peer: Option<Name>,
    /// Set if any system of a spool may call.
    is_hub: bool,
    seen: Seen,
    /// The bytes that came last.
    tail: Tail<A>,
}

/// The state of a session, as far as the observer has seen it.
#[derive(Drop)]
struct Seen {
    /// The phase that was noted last.
    phase: Option<Phase>,
    /// Set once the session has passed its greeting.
    has_met: bool,
    /// The numbers of bytes written and read, and of silences. They saturate.
    written: u64,
    read: u64,
    silences: u64,
    /// The bytes heard: the first text, those of the greeting, and those after it.
    hail: Hail,
    hearing: Hearing,
    passed: Passed,
}

impl Seen {
    /// Creates the state of a session that has not begun.
    fn nothing() -> Self {
        Seen {
            phase: None,
            has_met: false,
            written: 0,
            read: 0,
            silences: 0,
            hail: Hail::new(),
            hearing: Hearing::nothing(),
            passed: NOTHING_PASSED,
        }
    }
}

impl<'a, R: Eprint + Clock, A: Allocator + Copy> SystemObserver<'a, R, A> {
    /// Creates an observer of the sessions of this task. If `shows_progress` holds, it shows the progress of a long
    /// file, even if it reports nothing else. With a log it always observes.
    pub fn new(
        alloc: A,
        rt: &'a R,
        task: &CallTask<'_>,
        at_terminal: bool,
        log: Option<SessionLog<'a, R, A>>,
    ) -> Result<Self, AllocError> {
        let shows_progress = shows_progress(task, at_terminal);
        let observer = if task.outputs.is_loud || shows_progress || log.is_some() {
            Some(Observer::new(alloc, task.settings.is_lenient, task.limits.file_limit)?)
        } else {
            None
        };
        Ok(SystemObserver {
            alloc,
            is_lenient: task.settings.is_lenient,
            file_limit: task.limits.file_limit,
            observer,
            tellers: Tellers {
                is_loud: task.outputs.is_loud,
                voice: Voice::new(alloc, rt, shows_progress),
                log,
            },
            side: task.side,
            peer: Name::new(task.peer.as_bytes()).ok(),
            is_hub: task.is_spool && task.peer == ANY,
            seen: Seen::nothing(),
            tail: Tail::new(alloc),
        })
    }

    /// Starts over after a session: nothing of the next one was seen yet.
    fn begin_anew(&mut self) {
        if self.observer.is_some() {
            self.observer = Observer::new(self.alloc, self.is_lenient, self.file_limit).ok();
        }
        self.seen = Seen::nothing();
        self.tail.clear();
    }

    /// Prints the totals of both directions, if the voice is loud.
    fn say_counts(&self) {
        let Some(observer) = &self.observer else {
            return;
        };
        if !self.tellers.is_loud {
            return;
        }
        let voice = &self.tellers.voice;
        voice.say_counts("wrote", self.seen.written, observer.counts(Way::Out));
        voice.say_counts("read", self.seen.read, observer.counts(Way::In));
        voice.say_silences(self.seen.silences);
    }

    /// Returns a line with what was heard from the other end, if the session ended badly, else an empty one.
    fn heard(&self, phase: Phase) -> Result<String<A>, AllocError> {
        match (phase, &self.peer) {
            (Phase::Ended(End::BadTalk), _) => self.last(true),
            // After the greeting its texts don't say why.
            (Phase::Ended(End::GaveUp), _) if self.seen.has_met => self.passed_remark(true),
            (Phase::Ended(End::HungUp), _) if self.seen.has_met => self.passed_remark(false),
            (Phase::Ended(end), Some(peer)) => {
                let heard = self.seen.hearing.heard();
                let expected = if self.is_hub { "" } else { peer.as_str() };
                heard_remark(self.alloc, self.side, end, expected, heard)
            }
            _ => Ok(String::new(self.alloc)),
        }
    }

    /// Returns a line about the bytes that came after the greeting, for a session that ended badly, or an empty one. If
    /// the other end hung up, there is a line only if all these bytes have seven bits, or packets came damaged.
    fn passed_remark(&self, has_given_up: bool) -> Result<String<A>, AllocError> {
        let passed = self.seen.passed;
        let is_narrow = passed.count > 0 && !passed.has_high;
        if has_given_up || is_narrow || self.has_damaged() {
            passed_remark(self.alloc, passed)
        } else {
            Ok(String::new(self.alloc))
        }
    }

    /// Returns whether damaged packets came, as far as that is observed.
    fn has_damaged(&self) -> bool {
        match &self.observer {
            Some(observer) => observer.counts(Way::In).damaged > 0,
            None => false,
        }
    }

    /// Returns a line with the text that was heard last, or an empty one. `ended_for_it` says whether the session ended
    /// because of that text.
    fn last(&self, ended_for_it: bool) -> Result<String<A>, AllocError> {
        let last = self.tail.last_text()?;
        if last.is_whole() {
            return remark_of(self.alloc, last.bytes(), ended_for_it);
        }
        match self.seen.hearing.heard() {
            // A session past its greeting does not end because of a text of the greeting.
            Heard::Text(text) if !(self.seen.has_met && ended_for_it) => {
                remark_of(self.alloc, text, ended_for_it)
            }
            _ => Ok(String::new(self.alloc)),
        }
    }

    /// Reports the end of the session.
    fn tell_end(&mut self, status: SessionStatus) {
        let said = match self.heard(status.phase) {
            Ok(said) => said,
            Err(AllocError) => String::new(self.alloc),
        };
        let line = said.as_str();
        self.tellers.voice.wipe();
        self.tellers.voice.say_line(line);
        if line.is_empty() && !status.phase.is_done() {
            self.tellers.tell_last(self.last(false));
        }
        self.say_counts();
        self.tellers.log_end(status, line);
    }

    /// Hears bytes of the greeting. If any system may call, gives the log the name of the one that does.
    fn hear(&mut self, piece: &[u8]) {
        self.seen.hearing.hear(piece);
        if !self.is_hub || self.seen.hail.is_whole() {
            return;
        }
        let _ = self.seen.hail.push(piece);
        if self.seen.hail.is_whole() {
            if let Some(name) = caller_in(self.seen.hail.text()) {
                self.tellers.note_caller(name);
            }
        }
    }

    /// Observes bytes that go over the line.
    fn see(&mut self, way: Way, piece: &[u8]) {
        let Some(observer) = &mut self.observer else {
            return;
        };
        observer.see(way, piece, &mut self.tellers);
        if let Some(progress) = observer.progress() {
            self.tellers.voice.show_progress(&progress);
        }
    }
}

impl<R: Eprint + Clock, A: Allocator + Copy> SessionObserver for SystemObserver<'_, R, A> {
    fn wrote(&mut self, piece: &[u8]) {
        self.seen.written = self.seen.written.saturating_add(piece.len() as u64);
        self.see(Way::Out, piece);
    }

    fn read(&mut self, outcome: ReadOutcome, piece: &[u8]) {
        match outcome {
            ReadOutcome::Bytes(count) => {
                self.seen.read = self.seen.read.saturating_add(count as u64);
                self.tellers.begin();
            }
            ReadOutcome::TimedOut => self.seen.silences = self.seen.silences.saturating_add(1),
            ReadOutcome::Eof => {}
        }
        // Only packets come after the greeting.
        if matches!(self.seen.phase, None | Some(Phase::Hail)) {
            self.hear(piece);
        } else {
            self.seen.passed = passed_then(self.seen.passed, piece);
        }
        self.tail.hear(piece);
        self.see(Way::In, piece);
    }

    fn note(&mut self, status: SessionStatus) {
        self.tellers.tell_held();
        if self.seen.phase != Some(status.phase) {
            self.tellers.tell_status(status);
        }
        self.seen.phase = Some(status.phase);
        if let Phase::Starting | Phase::Talking | Phase::Closing = status.phase {
            self.seen.has_met = true;
        }
        if status.is_over {
            self.tell_end(status);
            self.begin_anew();
        }
    }
}

/// Returns whether an end shows the progress of its files. At a terminal it does, but only with `-v` if the terminal
/// may be its line.
fn shows_progress(task: &CallTask<'_>, at_terminal: bool) -> bool
    ensures terminal { IsTrue result → IsTrue at_terminal }
    ensures apart { line_of task.now.line.name.now ≡ Some standard → IsTrue result
        → IsTrue task.now.outputs.is_loud }
{
    match read_line_name(task.line.name) {
        Some(LineName::Standard) => at_terminal && task.outputs.is_loud,
        _ => at_terminal,
    }
}

/// Returns the line for the text that was heard last. `ended_for_it` says whether the session ended because of that
/// text.
fn remark_of<A: Allocator>(
    alloc: A,
    said: &[u8],
    ended_for_it: bool,
) -> Result<String<A>, AllocError> {
    if ended_for_it {
        unread_remark(alloc, said)
    } else {
        last_remark(alloc, said)
    }
}
