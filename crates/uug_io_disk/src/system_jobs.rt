ghost use Rattle.std.specs.Prelude.{◌≡◌, ◌<◌, IfOk, IsSome, None};

use crate::atomic_file::append_at;
use crate::pipe::is_pipe;
use crate::queued_copy::mark_done;
use crate::system_text::SystemText;
use crate::written::see_written;
use std::alloc::{AllocError, Allocator};
use std::fs::File;
use std::rt::Files;
use uug_error::{Cause, EndText, Resource, SystemFailure};
use uug_session::Job;
use uug_store::{FolderFailed, JobTexts, TextFile};
use uug_stream::ToolFault;

/// The files of an end's jobs in its folder: `jobs` has the pending ones, and `failed` lists those that were given up.
#[derive(Drop)]
pub struct SystemJobs<'a, R: Files, A: Allocator> {
    pub(crate) file: SystemText<'a, R, A>,
    /// The path of the file that lists those that were given up.
    failed: String<A>,
}

impl<'a, R: Files, A: Allocator + Copy> SystemJobs<'a, R, A> {
    /// Returns the files of an end's jobs, given the file of the pending ones. Creates no file.
    pub fn new(alloc: A, file: SystemText<'a, R, A>) -> Result<Self, AllocError>
        ensures { IfOk result (λ jobs. jobs.file ≡ file.entry) }
    {
        let front = file.dir().path;
        let name = EndText::Failed.name();
        let failed = format!(in alloc; "{front}/{name}")?;
        Ok(SystemJobs { file, failed })
    }
}

impl<R: Files, A: Allocator> SystemJobs<'_, R, A> {
    /// Returns the first failure of a system call on one of the files, if there was one.
    pub fn failure(&self) -> Option<SystemFailure>
        ensures told { 0 < self.now.file.faults.count → IsSome result }
    {
        self.file.failure()
    }
}

impl<R: Files<File = File>, A: Allocator> JobTexts for SystemJobs<'_, R, A> {
    ghost text = { λ _. None };

    ghost told = { λ _. None };

    ghost fault_count = { λ jobs. jobs.file.faults.count };

    fn read<B: Allocator + Copy>(&mut self, alloc: B) -> Result<Vec<u8, B>, ToolFault> {
        self.file.read_locked(alloc)
    }

    fn replace(&mut self, bytes: &[u8]) -> Result<(), FolderFailed> {
        self.file.replace(bytes)
    }

    fn unlock(&mut self) {
        self.file.unlock();
    }

    fn note_done<B: Allocator + Copy>(&mut self, alloc: B, done: &[Job]) -> Result<(), AllocError> {
        mark_done(alloc, self.file.runtime(), self.file.dir(), done)
    }

    fn tell(&mut self, bytes: &[u8]) -> Result<(), FolderFailed> {
        if is_pipe(self.file.runtime(), self.failed.as_str()) {
            let resource = Resource::Text(EndText::Failed);
            self.file.note(resource, Cause::NotAFile);
            return Err(FolderFailed);
        }
        let dir = self.file.dir().path;
        match append_at(self.file.runtime(), dir, self.failed.as_str(), bytes) {
            Ok(written) => {
                see_written(written, bytes);
                Ok(())
            }
            Err(error) => {
                let resource = Resource::Text(EndText::Failed);
                self.file.note(resource, Cause::of(&error));
                Err(FolderFailed)
            }
        }
    }
}
