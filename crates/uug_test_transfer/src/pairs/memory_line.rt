//! A line in memory.
ghost use Rattle.std.specs.Prelude.{◌≡◌, ◌+◌, ◌<◌, ◌≤◌, length};
ghost use Rattle.uug_conversation.specs.Sides.{at};

use crate::pairs::failing::fails;
use arrayvec::ArrayVec;
use uug_session::Side;
use uug_transfer::{Line, LineFailed, UNREAD_MAX};

/// The bytes on their way to an end.
type Unread = ArrayVec<u8, UNREAD_MAX>;

/// The bytes on their way to both ends. One read and one write may fail. A call moves at most `piece` of them.
#[derive(Drop)]
pub struct MemoryLine {
    to_caller: Unread,
    to_called: Unread,
    piece: usize,
    reads: u32,
    writes: u32,
    faults: u64,
}

impl MemoryLine {
    /// Creates an empty line, on which the read and the write of these numbers fail. A call moves at most `piece`
    /// bytes; 0 counts as 1.
    pub fn new(reads: u32, writes: u32, piece: usize) -> Self
        ensures unread { (side : _) → ⟦<MemoryLine as Line>⟧.unread result side ≡ 0 }
    {
        MemoryLine {
            to_caller: Unread::new(),
            to_called: Unread::new(),
            piece: piece.max(1),
            reads,
            writes,
            faults: 0,
        }
    }
}

impl Line for MemoryLine {
    ghost unread = { λ line side. at side (record { at_caller = length line.to_caller.items; at_called = length line.to_called.items }) };

    ghost fault_count = { λ line. line.faults };

    fn write(&mut self, to: Side, piece: &[u8]) -> Result<usize, LineFailed> {
        if fails(&mut self.writes) {
            self.faults = self.faults.saturating_add(1);
            return Err(LineFailed);
        }
        let piece = &piece[..piece.len().min(self.piece.max(1))];
        match to {
            Side::Caller => append(&mut self.to_caller, piece),
            Side::Called => append(&mut self.to_called, piece),
        }
        Ok(piece.len())
    }

    fn read(&mut self, at: Side, buffer: &mut [u8]) -> Result<usize, LineFailed> {
        if fails(&mut self.reads) {
            self.faults = self.faults.saturating_add(1);
            return Err(LineFailed);
        }
        let count = buffer.len().min(self.piece.max(1));
        let buffer = &mut buffer[..count];
        Ok(match at {
            Side::Caller => take(&mut self.to_caller, buffer),
            Side::Called => take(&mut self.to_called, buffer),
        })
    }

    fn unread(&self, side: Side) -> usize {
        match side {
            Side::Caller => self.to_caller.len(),
            Side::Called => self.to_called.len(),
        }
    }

    fn faults(&self) -> u64 {
        self.faults
    }
}

/// Appends a piece to the bytes on their way.
fn append(unread: &mut Unread, piece: &[u8])
    requires { length unread.old.items + length piece.now ≤ UNREAD_MAX }
    ensures { length unread.new.items ≡ length unread.old.items + length piece.now }
{
    let Ok(()) = unread.try_extend_from_slice(piece) else {
        unreachable!();
    };
}

/// Moves as many bytes as fit from the front of those on their way, and returns how many.
fn take(unread: &mut Unread, buffer: &mut [u8]) -> usize
    ensures count { length unread.new.items + result ≡ length unread.old.items }
    ensures within { result ≤ length buffer.old }
    ensures some { 0 < length unread.old.items → 0 < length buffer.old → 0 < result }
{
    let count = unread.len().min(buffer.len());
    buffer[..count].copy_from_slice(&unread.as_slice()[..count]);
    unread.drain(..count);
    count
}
