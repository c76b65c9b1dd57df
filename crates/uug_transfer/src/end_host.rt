ghost use Rattle.uug_transfer.specs.Moments.{disk_now, line_now};
ghost use Rattle.std.specs.Prelude.{◌≡◌, ◌∷◌, [], None};

use crate::end_line::EndLine;
use crate::host::Host;
use crate::read_outcome::ReadOutcome;
use crate::status::SessionStatus;
use std::alloc::Allocator;
use uug_session::Job;
use uug_store::{FolderFailed, JobStore, TextFile, number_line};
use uug_stream::ToolFault;

/// The host that consists of a line, a store of jobs and the file of a number.
pub(crate) struct EndHost<'a, 'b, 'c, L, J, N> {
    pub(crate) line: &'a mut L,
    pub(crate) jobs: &'b mut J,
    pub(crate) number: &'c mut N,
}

impl<L, J, N> Drop for EndHost<'_, '_, '_, L, J, N> {
    fn drop(self)
        ensures line { self.exit.0.now ≡ self.entry.line.now }
        ensures jobs { self.exit.1.0.now ≡ self.entry.jobs.now }
        ensures number { self.exit.1.1.0.now ≡ self.entry.number.now }
    {
        let Self {
            line: _,
            jobs: _,
            number: _,
        } = self;
    }
}

impl<L: EndLine, J: JobStore, N: TextFile> Host for EndHost<'_, '_, '_, L, J, N> {
    ghost now = { λ host. record {
      lent = host.line.ghost_name ∷ host.jobs.ghost_name ∷ host.number.ghost_name ∷ [];
      line = line_now L.received L.taken L.writes host.line.now;
      disk = disk_now J.open_jobs J.told J.fault_count N.text N.fault_count host.jobs.now host.number.now;
    } };

    ghost after_writes = { λ _. None };

    fn write(&mut self, piece: &[u8]) -> usize {
        self.line.write(piece)
    }

    fn read(&mut self, buffer: &mut [u8]) -> ReadOutcome {
        self.line.read(buffer)
    }

    fn settle<B: Allocator + Copy>(
        &mut self,
        alloc: B,
        struck: &[Job],
        failed: &[Job],
        notice: &[u8],
    ) -> Result<(), ToolFault> {
        self.jobs.settle(alloc, struck, failed, notice)
    }

    fn keep_number(&mut self, number: u32) -> Result<(), FolderFailed> {
        self.number.replace(&number_line(number))
    }

    fn note(&mut self, status: SessionStatus) {
        self.line.note(status);
    }

    fn seconds(&self) -> u64 {
        self.line.seconds()
    }
}
