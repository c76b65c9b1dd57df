ghost use Rattle.std.specs.Prelude.{◌≡◌, ◌<◌, IsSome, None};
ghost use Rattle.uug_io_disk.specs.Numbers.{stays_with};

use crate::system_text::SystemText;
use std::alloc::Allocator;
use std::fs::File;
use std::rt::Files;
use uug_error::SystemFailure;
use uug_store::{FolderFailed, TextFile, read_number_text};
use uug_stream::ToolFault;

/// The file of the number of an end's conversations. The number that it has is not written again. The number before
/// that is not written either: a called end may begin a session with it, but a number in the file never falls by one.
#[derive(Drop)]
pub struct SystemNumber<'a, R: Files, A: Allocator> {
    pub(crate) file: SystemText<'a, R, A>,
    /// The number in the file, if there is one.
    held: Option<u32>,
}

impl<'a, R: Files, A: Allocator> SystemNumber<'a, R, A> {
    /// Wraps this file, which has this number, or none.
    pub fn new(file: SystemText<'a, R, A>, held: Option<u32>) -> Self
        ensures { result.file ≡ file.entry }
    {
        SystemNumber { file, held }
    }

    /// Returns the first failure of a system call on the file, if there was one.
    pub fn failure(&self) -> Option<SystemFailure>
        ensures told { 0 < self.now.file.faults.count → IsSome result }
    {
        self.file.failure()
    }

    /// Returns whether the file stays as it is for this number.
    fn stays_with(&self, number: Option<u32>) -> bool
        ensures { result ≡ stays_with self.now.held number }
    {
        match (self.held, number) {
            (Some(held), Some(number)) => number == held || number.wrapping_add(1) == held,
            _ => false,
        }
    }
}

impl<R: Files<File = File>, A: Allocator> TextFile for SystemNumber<'_, R, A> {
    ghost text = { λ _. None };

    ghost fault_count = { λ number. number.file.faults.count };

    fn read<B: Allocator + Copy>(&mut self, alloc: B) -> Result<Vec<u8, B>, ToolFault> {
        self.file.read(alloc)
    }

    fn replace(&mut self, bytes: &[u8]) -> Result<(), FolderFailed> {
        let number = read_number_text(bytes);
        if self.stays_with(number) {
            return Ok(());
        }
        self.file.replace(bytes)?;
        self.held = number;
        Ok(())
    }

    fn faults(&self) -> u64 {
        self.file.faults()
    }
}
