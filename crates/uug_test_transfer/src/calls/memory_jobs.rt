//! The files of an end's jobs, in memory.
ghost use Rattle.std.specs.Prelude.{◌≡◌, Some};

use arrayvec::ArrayVec;
use std::alloc::Allocator;
use uug_store::{FolderFailed, JobTexts};
use uug_stream::ToolFault;

/// The maximum number of bytes of a text.
const TEXT_MAX: usize = 160;

/// The text of the jobs that wait, and the notices of those that have failed. Each call that changes one of them is
/// counted, and fails from the one of this number on.
#[derive(Drop)]
pub(super) struct MemoryJobs {
    text: ArrayVec<u8, TEXT_MAX>,
    told: ArrayVec<u8, TEXT_MAX>,
    fails_at: usize,
    calls: usize,
    faults: u64,
}

impl MemoryJobs {
    /// Holds this text, as far as there is room. The call of this number fails, counted from 0, and each after it.
    pub(super) fn new(text: &[u8], fails_at: usize) -> Self {
        let mut held = ArrayVec::new();
        let _ = held.try_extend_from_slice(text);
        MemoryJobs {
            text: held,
            told: ArrayVec::new(),
            fails_at,
            calls: 0,
            faults: 0,
        }
    }

    /// Lets no call fail from now on, and forgets the faults.
    pub(super) fn mend(&mut self) {
        self.fails_at = usize::MAX;
        self.faults = 0;
    }

    pub(super) fn text(&self) -> &[u8]
        ensures { result.now ≡ self.now.text.items }
    {
        self.text.as_slice()
    }

    pub(super) fn told(&self) -> &[u8] {
        self.told.as_slice()
    }

    pub(super) fn has_failed(&self) -> bool {
        self.faults > 0
    }

    pub(super) fn faults(&self) -> u64
        ensures { result ≡ self.now.faults }
    {
        self.faults
    }

    /// Counts a call, and returns whether it fails.
    fn fails(&mut self) -> bool
        ensures text { self.new.text ≡ self.old.text }
        ensures told { self.new.told ≡ self.old.told }
        ensures faults { self.new.faults ≡ self.old.faults }
    {
        self.calls = self.calls.saturating_add(1);
        self.calls > self.fails_at
    }
}

impl JobTexts for MemoryJobs {
    ghost text = { λ jobs. Some jobs.text.items };

    ghost told = { λ jobs. Some jobs.told.items };

    ghost fault_count = { λ jobs. jobs.faults };

    fn read<B: Allocator + Copy>(&mut self, alloc: B) -> Result<Vec<u8, B>, ToolFault> {
        let text = self.text.as_slice().to_vec(alloc)?;
        Ok(text)
    }

    fn replace(&mut self, bytes: &[u8]) -> Result<(), FolderFailed> {
        if self.fails() || bytes.len() > TEXT_MAX {
            self.faults = self.faults.saturating_add(1);
            return Err(FolderFailed);
        }
        self.text.clear();
        let Ok(()) = self.text.try_extend_from_slice(bytes) else {
            unreachable!();
        };
        Ok(())
    }

    fn tell(&mut self, bytes: &[u8]) -> Result<(), FolderFailed> {
        if self.fails() || self.told.try_extend_from_slice(bytes).is_err() {
            self.faults = self.faults.saturating_add(1);
            return Err(FolderFailed);
        }
        Ok(())
    }
}
