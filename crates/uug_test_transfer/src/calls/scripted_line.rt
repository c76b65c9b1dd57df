//! A line that behaves as a table says.
ghost use Rattle.std.specs.Prelude.{◌≤◌, length, None};

use super::{Manner, MemoryEndAtLine, Other};
use uug_transfer::{EndLine, ReadOutcome};

/// A line with its other end in memory.
#[derive(Drop)]
pub(super) struct ScriptedLine {
    other: MemoryEndAtLine,
    manner: Manner,
    /// The number of bytes that have come.
    came: usize,
    /// The number of calls that were made.
    calls: usize,
    /// Set once a call has failed.
    has_failed: bool,
}

impl ScriptedLine {
    pub(super) fn new(other: MemoryEndAtLine, manner: Manner) -> Self {
        ScriptedLine {
            other,
            manner,
            came: 0,
            calls: 0,
            has_failed: false,
        }
    }

    pub(super) fn other(&self) -> &MemoryEndAtLine {
        &self.other
    }

    /// Returns whether a call has failed: the line is at its end then.
    pub(super) fn has_failed(&self) -> bool {
        self.has_failed
    }

    /// Counts a call, and returns whether it fails.
    fn fails(&mut self) -> bool {
        self.calls = self.calls.saturating_add(1);
        self.has_failed = self.calls > self.manner.fails_at;
        self.has_failed
    }

    /// Returns how many bytes may come now.
    fn room(&self, buffer: &[u8]) -> usize {
        let left = self.manner.ends_behind.saturating_sub(self.came);
        buffer.len().min(self.manner.at_once).min(left)
    }
}

/// Puts the first bytes at the front of the buffer, at most `room` of them, and returns how many.
fn copy_front(bytes: &[u8], buffer: &mut [u8], room: usize) -> usize
    ensures given { result ≤ length bytes.now }
    ensures room { result ≤ length buffer.old }
{
    let count = bytes.len().min(room).min(buffer.len());
    buffer[..count].copy_from_slice(&bytes[..count]);
    count
}

const BABBLE: &[u8] = b"babble\0";

impl EndLine for ScriptedLine {
    ghost received = { λ _. None };

    ghost taken = { λ _. None };

    ghost writes = { λ _. None };

    fn write(&mut self, piece: &[u8]) -> usize {
        if self.fails() {
            return piece.len();
        }
        let piece = &piece[..piece.len().min(self.manner.takes.max(1))];
        if self.manner.other == Other::Speaks {
            let _ = self.other.arrive(piece);
        }
        piece.len()
    }

    fn read(&mut self, buffer: &mut [u8]) -> ReadOutcome {
        if self.fails() {
            return ReadOutcome::Eof;
        }
        let room = self.room(buffer);
        if room == 0 {
            return ReadOutcome::Eof;
        }
        let count = match self.manner.other {
            Other::Speaks => copy_front(self.other.outgoing(), buffer, room),
            Other::Babbles => copy_front(BABBLE, buffer, room),
            Other::IsMute => 0,
        };
        if self.manner.other == Other::Speaks {
            self.other.written(count);
        }
        self.came = self.came.saturating_add(count);
        if count == 0 {
            return ReadOutcome::TimedOut;
        }
        ReadOutcome::Bytes(count)
    }

    fn seconds(&self) -> u64 {
        0
    }
}
