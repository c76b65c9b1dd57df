//! Streams that give and take little at a time, fail once, and then work: a fault that is ignored is seen.
ghost use Rattle.std.specs.Prelude.{None};

use uug_stream::{Input, Output, ReadFailed, WriteFailed};

/// An input that gives at most `most` bytes at a time. The read after `reads` others fails, and later ones give on.
#[derive(Drop)]
pub struct SlowInput<'a> {
    pub bytes: &'a [u8],
    pub most: usize,
    pub reads: u32,
    pub faults: u64,
}

impl Input for SlowInput<'_> {
    ghost to_come = { λ _. None };

    ghost fault_count = { λ input. input.faults };

    fn read(&mut self, buffer: &mut [u8]) -> Result<usize, ReadFailed> {
        if self.reads == 0 && self.faults == 0 {
            self.faults = 1;
            return Err(ReadFailed);
        }
        self.reads = self.reads.saturating_sub(1);
        let count = self.bytes.len().min(buffer.len()).min(self.most);
        let (front, rest) = self.bytes.split_at(count);
        buffer[..count].copy_from_slice(front);
        self.bytes = rest;
        Ok(count)
    }

    fn faults(&self) -> u64 {
        self.faults
    }
}

/// An output that takes at most `most` bytes at a time. The write after `writes` others is refused, and later ones take
/// on.
#[derive(Drop)]
pub struct SlowOutput {
    pub most: usize,
    pub writes: u32,
    pub refusal: WriteFailed,
    pub refused: u64,
    pub faults: u64,
}

impl Output for SlowOutput {
    ghost written = { λ _. None };

    ghost fault_count = { λ output. output.faults };

    fn write(&mut self, piece: &[u8]) -> Result<usize, WriteFailed> {
        if self.most == 0 || (self.writes == 0 && self.refused == 0) {
            self.refused = self.refused.saturating_add(1);
            if let WriteFailed::Device = self.refusal {
                self.faults = self.faults.saturating_add(1);
            }
            return Err(self.refusal);
        }
        self.writes = self.writes.saturating_sub(1);
        Ok(piece.len().min(self.most))
    }

    fn faults(&self) -> u64 {
        self.faults
    }
}
