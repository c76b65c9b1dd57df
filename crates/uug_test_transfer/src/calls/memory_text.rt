//! A file of an end, in memory.
ghost use Rattle.std.specs.Prelude.{Some};

use arrayvec::ArrayVec;
use std::alloc::Allocator;
use uug_store::{FolderFailed, TextFile};
use uug_stream::ToolFault;

/// The maximum number of bytes of a text.
const TEXT_MAX: usize = 64;

/// A text that refuses every other one if it is to fail.
#[derive(Drop)]
pub(super) struct MemoryText {
    text: ArrayVec<u8, TEXT_MAX>,
    fails: bool,
    faults: u64,
}

impl MemoryText {
    /// Holds this text, as far as there is room.
    pub(super) fn new(text: &[u8], fails: bool) -> Self {
        let mut held = ArrayVec::new();
        let _ = held.try_extend_from_slice(text);
        MemoryText {
            text: held,
            fails,
            faults: 0,
        }
    }

    pub(super) fn text(&self) -> &[u8] {
        self.text.as_slice()
    }
}

impl TextFile for MemoryText {
    ghost text = { λ file. Some file.text.items };

    ghost fault_count = { λ file. file.faults };

    fn read<B: Allocator + Copy>(&mut self, alloc: B) -> Result<Vec<u8, B>, ToolFault> {
        let text = self.text.as_slice().to_vec(alloc)?;
        Ok(text)
    }

    fn replace(&mut self, bytes: &[u8]) -> Result<(), FolderFailed> {
        if self.fails || bytes.len() > TEXT_MAX {
            self.faults = self.faults.saturating_add(1);
            return Err(FolderFailed);
        }
        self.text.clear();
        let Ok(()) = self.text.try_extend_from_slice(bytes) else {
            unreachable!();
        };
        Ok(())
    }

    fn faults(&self) -> u64 {
        self.faults
    }
}
