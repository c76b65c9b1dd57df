ghost use Rattle.std.specs.Prelude.{◌≡◌, ℕ, List, [], Some};

use crate::output::{Output, WriteFailed};
use std::alloc::Allocator;
use std::marker::Model;

/// An output to memory. It has no faults.
#[derive(Drop)]
pub struct MemoryOutput<A: Allocator> {
    written: Vec<u8, A>,
}

impl<A: Allocator> Model for MemoryOutput<A> {
    ghost Value = { List ℕ };

    ghost view = { λ output. output.written.items };
}

impl<A: Allocator> MemoryOutput<A> {
    /// Makes an output to which nothing was written. Only `write` takes memory, from `alloc`.
    pub fn new(alloc: A) -> Self
        ensures { result ≡ [] }
    {
        MemoryOutput {
            written: Vec::new(alloc),
        }
    }

    /// Returns the bytes that were written.
    pub fn bytes(&self) -> &[u8]
        ensures { result.now ≡ self.now }
    {
        &self.written
    }
}

impl<A: Allocator> Output for MemoryOutput<A> {
    ghost written = { λ output. Some output };

    ghost fault_count = { λ _. 0 };

    fn write(&mut self, piece: &[u8]) -> Result<usize, WriteFailed> {
        match self.written.extend_from_slice(piece) {
            Ok(()) => Ok(piece.len()),
            Err(_) => Err(WriteFailed::Memory),
        }
    }

    fn faults(&self) -> u64 {
        0
    }
}
