//! A folder in memory.
ghost use Rattle.std.specs.Prelude.{None, false};

use crate::pairs::failing::fails;
use crate::pairs::tasks::{TASKS, TASKS_LEN};
use uug_session::Side;
use uug_store::{Folder, FolderFailed};
use uug_talk::Name;

/// The folder of an end. It notes which of the tasks' files it took, and refuses one file.
#[derive(Drop)]
pub struct MemoryFolder {
    side: Side,
    taken: [bool; TASKS_LEN],
    puts: u32,
    faults: u64,
}

impl MemoryFolder {
    /// Creates the empty folder of the end on this side, which refuses the file of this number.
    pub fn new(side: Side, puts: u32) -> Self {
        MemoryFolder {
            side,
            taken: [false; TASKS_LEN],
            puts,
            faults: 0,
        }
    }

    /// Returns for each task whether its file was put in here whole.
    pub fn taken(&self) -> &[bool] {
        &self.taken
    }
}

impl Folder for MemoryFolder {
    ghost placed = { λ _. None };

    ghost fault_count = { λ folder. folder.faults };

    fn put(&mut self, name: &Name, bytes: &[u8]) -> Result<(), FolderFailed> {
        if fails(&mut self.puts) {
            self.faults = self.faults.saturating_add(1);
            return Err(FolderFailed);
        }
        note(&mut self.taken, self.side, name.as_bytes(), bytes);
        Ok(())
    }

    fn faults(&self) -> u64 {
        self.faults
    }

    ghost barred = { λ _ _. false };

    fn is_barred(&self, _name: &Name) -> bool {
        false
    }
}

/// Notes for which tasks this is the file that the end on this side takes.
fn note(taken: &mut [bool], side: Side, name: &[u8], bytes: &[u8]) {
    for (is_taken, task) in taken.iter_mut().zip(TASKS.iter()) {
        if task.is_done_by(side, name, bytes) {
            *is_taken = true;
        }
    }
}
