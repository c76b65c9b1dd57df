ghost use Rattle.std.specs.Prelude.{◌≡◌, ℕ, List, Some};

use crate::input::{Input, ReadFailed};
use std::marker::Model;

/// An input of bytes in memory. It has no faults.
#[derive(Drop)]
pub struct MemoryInput<'a> {
    bytes: &'a [u8],
}

impl<'a> Model for MemoryInput<'a> {
    ghost Value = { List ℕ };

    ghost view = { λ input. input.bytes.now };
}

impl<'a> MemoryInput<'a> {
    /// Makes an input of these bytes.
    pub fn new(bytes: &'a [u8]) -> Self
        ensures { result ≡ bytes.now }
    {
        MemoryInput { bytes }
    }

    /// Returns the bytes still to come.
    pub fn bytes(&self) -> &'a [u8]
        ensures { result.now ≡ self.now }
    {
        self.bytes
    }
}

impl Input for MemoryInput<'_> {
    ghost to_come = { λ input. Some input };

    ghost fault_count = { λ _. 0 };

    fn read(&mut self, buffer: &mut [u8]) -> Result<usize, ReadFailed> {
        let count = self.bytes.len().min(buffer.len());
        let (front, rest) = self.bytes.split_at(count);
        buffer[..count].copy_from_slice(front);
        *self = MemoryInput::new(rest);
        Ok(count)
    }

    fn faults(&self) -> u64 {
        0
    }
}
