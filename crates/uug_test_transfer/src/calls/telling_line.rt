//! A line that exposes what it has brought and taken.
ghost use Rattle.std.specs.Prelude.{◌≡◌, ◌<◌, Some, map, take, None};
ghost use Rattle.uug_transfer.specs.Received.{piece};

use std::alloc::Global;
use uug_transfer::{EndLine, ReadOutcome};

/// A line that brings these pieces, one to a read, and keeps all that it takes. It is at its end after the last piece,
/// and at one that is empty or has no room. Without memory it takes nothing.
#[derive(Drop)]
pub(super) struct TellingLine<'a> {
    pieces: &'a [&'a [u8]],
    /// The number of pieces that were brought.
    brought: usize,
    taken: Vec<u8>,
}

impl<'a> TellingLine<'a> {
    /// Creates a line that has brought and taken nothing.
    pub(super) fn new(alloc: Global, pieces: &'a [&'a [u8]]) -> Self {
        TellingLine {
            pieces,
            brought: 0,
            taken: Vec::new(alloc),
        }
    }

    pub(super) fn brought(&self) -> usize {
        self.brought
    }

    pub(super) fn taken(&self) -> &[u8]
        ensures { result.now ≡ self.now.taken.items }
    {
        self.taken.as_slice()
    }
}

impl EndLine for TellingLine<'_> {
    ghost received = { λ line. Some (map (λ p. piece p.now) (take line.brought line.pieces.now)) };

    ghost taken = { λ line. Some line.taken.items };

    ghost writes = { λ _. None };

    fn write(&mut self, piece: &[u8]) -> usize {
        match self.taken.extend_from_slice(piece) {
            Ok(()) => piece.len(),
            Err(_) => 0,
        }
    }

    fn read(&mut self, buffer: &mut [u8]) -> ReadOutcome {
        if let Some(piece) = self.pieces.get(self.brought) {
            if !piece.is_empty() && piece.len() <= buffer.len() {
                buffer[..piece.len()].copy_from_slice(piece);
                self.brought += 1;
                return ReadOutcome::Bytes(piece.len());
            }
        }
        ReadOutcome::Eof
    }

    fn seconds(&self) -> u64 {
        0
    }
}
