//! A line that takes its time.
ghost use Rattle.std.specs.Prelude.{None};

use super::MemoryEndAtLine;
use super::scripted_line::ScriptedLine;
use uug_transfer::{EndLine, ReadOutcome};

/// The pace of a line.
#[derive(Clone, Copy)]
pub(super) struct Pace {
    /// The number of writes that take nothing before one does, and the seconds that each of them takes.
    pub(super) stalls: usize,
    pub(super) stall: u64,
    /// The seconds of a read that brings bytes of the other end.
    pub(super) seconds: u64,
    /// The number of bytes of the other end after which each read brings one byte of somebody else, in nine seconds.
    pub(super) drips_behind: usize,
}

/// A line of this pace, with a clock that goes on as it is read and written.
#[derive(Drop)]
pub(super) struct SlowLine {
    line: ScriptedLine,
    pace: Pace,
    /// The number of writes in a row that have taken nothing.
    stalled: usize,
    /// The number of bytes of the other end that have come.
    came: usize,
    second: u64,
}

impl SlowLine {
    pub(super) fn new(line: ScriptedLine, pace: Pace) -> Self {
        SlowLine {
            line,
            pace,
            stalled: 0,
            came: 0,
            second: 0,
        }
    }

    pub(super) fn other(&self) -> &MemoryEndAtLine {
        self.line.other()
    }

    pub(super) fn has_failed(&self) -> bool {
        self.line.has_failed()
    }

    fn pass(&mut self, seconds: u64) {
        self.second = self.second.saturating_add(seconds);
    }

    /// Notes what a read has brought, and the time that it took.
    fn note_read(&mut self, outcome: ReadOutcome) {
        match outcome {
            ReadOutcome::Bytes(count) => {
                self.came = self.came.saturating_add(count);
                self.pass(self.pace.seconds);
            }
            ReadOutcome::TimedOut => self.pass(10),
            ReadOutcome::Eof => {}
        }
    }
}

impl EndLine for SlowLine {
    ghost received = { λ _. None };

    ghost taken = { λ _. None };

    ghost writes = { λ _. None };

    fn write(&mut self, piece: &[u8]) -> usize {
        if self.stalled < self.pace.stalls {
            self.stalled += 1;
            self.pass(self.pace.stall);
            return 0;
        }
        self.stalled = 0;
        self.line.write(piece)
    }

    fn read(&mut self, buffer: &mut [u8]) -> ReadOutcome {
        if self.came >= self.pace.drips_behind {
            buffer[0] = b'x';
            self.pass(9);
            return ReadOutcome::Bytes(1);
        }
        let outcome = self.line.read(buffer);
        self.note_read(outcome);
        outcome
    }

    fn seconds(&self) -> u64 {
        self.second
    }
}
