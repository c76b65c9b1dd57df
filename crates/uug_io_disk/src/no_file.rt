ghost use Rattle.std.specs.Prelude.{None};

use std::alloc::Allocator;
use uug_store::{FolderFailed, TextFile};
use uug_stream::ToolFault;

/// The number file of an end that keeps no number. It is always empty.
#[derive(Drop)]
pub struct NoFile;

impl TextFile for NoFile {
    ghost text = { λ _. None };

    ghost fault_count = { λ _. 0 };

    fn read<B: Allocator + Copy>(&mut self, alloc: B) -> Result<Vec<u8, B>, ToolFault> {
        Ok(Vec::new(alloc))
    }

    fn replace(&mut self, _bytes: &[u8]) -> Result<(), FolderFailed> {
        Ok(())
    }

    fn faults(&self) -> u64 {
        0
    }
}
