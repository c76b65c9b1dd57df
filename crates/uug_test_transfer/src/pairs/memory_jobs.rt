//! A file of jobs in memory.
ghost use Rattle.std.specs.Prelude.{None};

use crate::pairs::assertions::assert_so;
use crate::pairs::failing::fails;
use arrayvec::ArrayVec;
use std::alloc::Allocator;
use std::process::Abort;
use uug_store::{FolderFailed, TextFile};
use uug_stream::ToolFault;

/// The maximum number of bytes of a text.
const TEXT_MAX: usize = 256;

/// A text that refuses a reading or a new text.
#[derive(Drop)]
pub struct MemoryJobs {
    text: ArrayVec<u8, TEXT_MAX>,
    readings: u32,
    texts: u32,
    faults: u64,
}

impl MemoryJobs {
    /// Holds this text, and refuses the reading of this number and the text of that number.
    pub fn new(rt: &impl Abort, text: &str, (readings, texts): (u32, u32)) -> Self {
        MemoryJobs {
            text: held(rt, text),
            readings,
            texts,
            faults: 0,
        }
    }

    pub fn text(&self) -> &[u8] {
        self.text.as_slice()
    }
}

fn held(rt: &impl Abort, text: &str) -> ArrayVec<u8, TEXT_MAX> {
    let mut held = ArrayVec::new();
    let is_held = held.try_extend_from_slice(text.as_bytes()).is_ok();
    assert_so(rt, is_held);
    held
}

impl TextFile for MemoryJobs {
    ghost text = { λ _. None };

    ghost fault_count = { λ jobs. jobs.faults };

    fn read<B: Allocator + Copy>(&mut self, alloc: B) -> Result<Vec<u8, B>, ToolFault> {
        if fails(&mut self.readings) {
            self.faults = self.faults.saturating_add(1);
            return Err(ToolFault::Device);
        }
        let text = self.text.as_slice().to_vec(alloc)?;
        Ok(text)
    }

    fn replace(&mut self, jobs: &[u8]) -> Result<(), FolderFailed> {
        if jobs.len() > TEXT_MAX || fails(&mut self.texts) {
            self.faults = self.faults.saturating_add(1);
            return Err(FolderFailed);
        }
        self.text.clear();
        let _ = self.text.try_extend_from_slice(jobs);
        Ok(())
    }

    fn faults(&self) -> u64 {
        self.faults
    }
}
