//! An output that takes a few bytes at a time.
ghost use Rattle.std.specs.Prelude.{None};

use crate::pairs::failing::fails;
use arrayvec::ArrayVec;
use uug_stream::{Output, WriteFailed};

/// The maximum number of bytes of a text.
const TEXT_MAX: usize = 512;

/// The maximum number of bytes that one write takes.
const PIECE: usize = 16;

/// An output that takes a few bytes in a write, and refuses one write.
#[derive(Drop)]
pub struct ShortOutput {
    text: ArrayVec<u8, TEXT_MAX>,
    writes: u32,
    faults: u64,
}

impl ShortOutput {
    /// Creates an output that has taken nothing, and refuses the write of this number.
    pub fn new(writes: u32) -> Self {
        ShortOutput {
            text: ArrayVec::new(),
            writes,
            faults: 0,
        }
    }

    pub fn text(&self) -> &[u8] {
        self.text.as_slice()
    }
}

impl Output for ShortOutput {
    ghost written = { λ _. None };

    ghost fault_count = { λ output. output.faults };

    fn write(&mut self, piece: &[u8]) -> Result<usize, WriteFailed> {
        let piece = &piece[..piece.len().min(PIECE)];
        if fails(&mut self.writes) || self.text.try_extend_from_slice(piece).is_err() {
            self.faults = self.faults.saturating_add(1);
            return Err(WriteFailed::Device);
        }
        Ok(piece.len())
    }

    fn faults(&self) -> u64 {
        self.faults
    }
}
