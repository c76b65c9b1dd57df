//! The line of an end as its session uses it.
ghost use Rattle.std.specs.Prelude.{◌≡◌, ◌<◌, ◌≤◌, length, None};
ghost use Rattle.uug_talk.specs.Texts.{Passing};
ghost use Rattle.uug_transfer.specs.Callers.{caller_heard, heard_then};
ghost use Rattle.uug_transfer.specs.ReadOutcomes.{IsWithin, outcome_bytes};

use crate::caller::caller_in;
use crate::end_line::EndLine;
use crate::read_outcome::ReadOutcome;
use crate::session_observer::SessionObserver;
use crate::status::SessionStatus;
use std::alloc::{AllocError, Allocator};
use uug_talk::{Hail, Name, caller_number};

/// The maximum number of reads while waiting for the caller's text.
const GREETING_READS_MAX: u32 = 1024;

/// The maximum number of silences in a row while waiting for the caller's text.
const GREETING_SILENCES_MAX: u32 = 3;

/// The line of an end in a session, with an observer of what it carries. It keeps the first text that arrives, in which
/// a caller gives its name. Before the session it may have exchanged the first words of both ends (`meet`). When the
/// end then writes its words again, they count as written; what was read is read again. The line does not expose what
/// it carries.
#[derive(Drop)]
pub struct SessionLine<L, O, A: Allocator> {
    line: L,
    observer: O,
    /// The first text that arrives.
    hail: Hail,
    /// The number of bytes already written that the end will write again.
    said: usize,
    heard: Vec<u8, A>,
    /// The number of bytes of `heard` that were read again.
    read: usize,
}

impl<L, O, A: Allocator> SessionLine<L, O, A> {
    /// Creates a line that has carried nothing yet. Allocates nothing.
    pub fn new(alloc: A, line: L, observer: O) -> Self
        ensures heard { result.hail ≡ Passing }
    {
        SessionLine {
            line,
            observer,
            hail: Hail::new(),
            said: 0,
            heard: Vec::new(alloc),
            read: 0,
        }
    }

    /// Returns the line below.
    pub fn line(&self) -> &L
        ensures { result.now ≡ self.now.line }
    {
        &self.line
    }

    /// Returns the name of the caller, once its text is complete.
    pub fn caller(&self) -> Option<Name>
        ensures { result ≡ caller_heard self.now.hail }
    {
        if self.hail.is_whole() {
            caller_in(self.hail.text())
        } else {
            None
        }
    }

    /// Adds bytes that arrived to the first text. Bytes after a complete text are ignored. Returns false if the text is
    /// too long: it then counts as none.
    fn hear(&mut self, piece: &[u8]) -> bool
        ensures heard { self.new.hail ≡ heard_then self.old.hail piece.now }
    {
        self.hail.push(piece).is_ok()
    }
}

impl<L: EndLine, O: SessionObserver, A: Allocator> SessionLine<L, O, A> {
    /// Writes the first words of the end, then waits up to `seconds` for the text that answers them. Returns the number
    /// of a conversation in it, if it has one. Whatever the line does, the session begins as if this had not happened.
    pub fn meet(&mut self, words: &[u8], seconds: u64) -> Result<Option<u32>, AllocError> {
        self.say(words);
        self.wait_for_text(seconds)?;
        if self.hail.is_whole() {
            Ok(caller_number(self.hail.text()))
        } else {
            Ok(None)
        }
    }

    /// Writes these words, until the line is silent.
    fn say(&mut self, words: &[u8]) {
        let mut rest = words;
        for _ in 0..words.len() {
            if rest.is_empty() {
                return;
            }
            let count = self.write_through(rest);
            if count == 0 {
                return;
            }
            rest = &rest[count..];
            self.said = self.said.saturating_add(count);
        }
    }

    /// Reads until a text is complete, no more will come, or a limit is reached: `GREETING_READS_MAX` reads,
    /// `GREETING_SILENCES_MAX` silent ones in a row, or `seconds`.
    fn wait_for_text(&mut self, seconds: u64) -> Result<(), AllocError> {
        let begun = self.line.seconds();
        let mut silences = 0;
        for _ in 0..GREETING_READS_MAX {
            let waited = self.line.seconds().saturating_sub(begun);
            if self.hail.is_whole() || silences >= GREETING_SILENCES_MAX || waited > seconds {
                return Ok(());
            }
            match self.hear_more()? {
                Some(true) => silences = 0,
                Some(false) => silences += 1,
                None => return Ok(()),
            }
        }
        Ok(())
    }

    /// Reads once. Returns whether bytes came, or `None` if no more will come or the text is too long.
    fn hear_more(&mut self) -> Result<Option<bool>, AllocError> {
        let mut buffer = [0; 256];
        let (outcome, is_fine) = self.read_through(&mut buffer);
        self.heard.extend_from_slice(piece_of(outcome, &buffer))?;
        match outcome {
            ReadOutcome::Bytes(_) if is_fine => Ok(Some(true)),
            ReadOutcome::TimedOut => Ok(Some(false)),
            ReadOutcome::Bytes(_) | ReadOutcome::Eof => Ok(None),
        }
    }

    /// Writes to the line below.
    fn write_through(&mut self, piece: &[u8]) -> usize
        requires some { 0 < length piece.now }
        ensures within { result ≤ length piece.now }
    {
        let count = self.line.write(piece);
        self.observer.wrote(&piece[..count]);
        count
    }

    /// Reads from the line below. Returns the outcome, and false if the first text is too long.
    fn read_through(&mut self, buffer: &mut [u8]) -> (ReadOutcome, bool)
        requires room { 0 < length buffer.old }
        ensures size { length buffer.new ≡ length buffer.old }
        ensures within { IsWithin (length buffer.old) result.0 }
    {
        let outcome = self.line.read(buffer);
        let piece = piece_of(outcome, buffer);
        let is_fine = self.hear(piece);
        self.observer.read(outcome, piece);
        (outcome, is_fine)
    }
}

impl<L: EndLine, O: SessionObserver, A: Allocator> EndLine for SessionLine<L, O, A> {
    ghost received = { λ _. None };

    ghost taken = { λ _. None };

    ghost writes = { λ _. None };

    fn write(&mut self, piece: &[u8]) -> usize {
        if self.said > 0 {
            let count = self.said.min(piece.len());
            self.said -= count;
            return count;
        }
        self.write_through(piece)
    }

    fn read(&mut self, buffer: &mut [u8]) -> ReadOutcome {
        if self.read < self.heard.len() {
            let count = copy_front(&self.heard[self.read..], buffer);
            self.read += count;
            return ReadOutcome::Bytes(count);
        }
        let (outcome, _) = self.read_through(buffer);
        outcome
    }

    fn note(&mut self, status: SessionStatus) {
        self.line.note(status);
        self.observer.note(status);
    }

    fn seconds(&self) -> u64 {
        self.line.seconds()
    }
}

/// Returns the bytes of a read.
fn piece_of(outcome: ReadOutcome, buffer: &[u8]) -> &[u8]
    requires { IsWithin (length buffer.now) outcome }
    ensures { result.now ≡ outcome_bytes outcome buffer.now }
{
    match outcome {
        ReadOutcome::Bytes(count) => &buffer[..count],
        ReadOutcome::TimedOut | ReadOutcome::Eof => &[],
    }
}

/// Copies as many of these bytes as fit to the front of the buffer, and returns how many.
fn copy_front(bytes: &[u8], buffer: &mut [u8]) -> usize
    requires some { 0 < length bytes.now }
    requires room { 0 < length buffer.old }
    ensures some { 0 < result }
    ensures within { result ≤ length buffer.old }
    ensures front { result ≤ length bytes.now }
    ensures size { length buffer.new ≡ length buffer.old }
{
    let count = bytes.len().min(buffer.len());
    buffer[..count].copy_from_slice(&bytes[..count]);
    count
}
