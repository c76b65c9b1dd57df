//! An output that is held back until it is known whether it is wanted.
ghost use Rattle.std.specs.Prelude.{◌≡◌, [], Some};

use std::alloc::Allocator;
use uug_stream::{Output, WriteFailed};

/// An output that holds what was written in memory.
#[derive(Drop)]
pub(crate) struct HeldOutput<A: Allocator> {
    bytes: Vec<u8, A>,
}

impl<A: Allocator> HeldOutput<A> {
    /// Creates an empty output. Allocates nothing.
    pub(crate) fn new(alloc: A) -> Self
        ensures { result.bytes.items ≡ [] }
    {
        HeldOutput {
            bytes: Vec::new(alloc),
        }
    }

    /// Returns the bytes written so far.
    pub(crate) fn bytes(&self) -> &[u8]
        ensures { result.now ≡ self.now.bytes.items }
    {
        &self.bytes
    }
}

impl<A: Allocator> Output for HeldOutput<A> {
    ghost written = { λ held. Some held.bytes.items };

    ghost fault_count = { λ _. 0 };

    fn write(&mut self, piece: &[u8]) -> Result<usize, WriteFailed> {
        match self.bytes.extend_from_slice(piece) {
            Ok(()) => Ok(piece.len()),
            Err(_) => Err(WriteFailed::Memory),
        }
    }

    fn faults(&self) -> u64 {
        0
    }
}
