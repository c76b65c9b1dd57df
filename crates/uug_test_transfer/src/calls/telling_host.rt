//! A host in memory that keeps what it had just after each write.
ghost use Rattle.std.specs.Prelude.{[], map, None, Some};
ghost use Rattle.uug_store.specs.OpenJobs.{open_in};

use super::memory_jobs::MemoryJobs;
use super::telling_line::TellingLine;
use std::alloc::{Allocator, Global};
use std::process::Abort;
use uug_session::Job;
use uug_store::{FolderFailed, JobStore, JobsFile};
use uug_stream::ToolFault;
use uug_transfer::{EndLine, Host, ReadOutcome, SessionStatus};

/// What the line had taken just after a write, and the jobs that waited then.
#[derive(Drop)]
struct Moment {
    taken: Vec<u8>,
    jobs: Vec<u8>,
    faults: u64,
}

/// A line and files of jobs in memory, which tell what they have, now and just after each write. It keeps no number.
#[derive(Drop)]
pub(super) struct TellingHost<'a, T> {
    rt: &'a T,
    alloc: Global,
    line: TellingLine<'a>,
    jobs: JobsFile<MemoryJobs, Global>,
    moments: Vec<Moment>,
}

impl<'a, T: Abort> TellingHost<'a, T> {
    /// Creates a host of which nothing has happened.
    pub(super) fn new(
        rt: &'a T,
        alloc: Global,
        line: TellingLine<'a>,
        jobs: JobsFile<MemoryJobs, Global>,
    ) -> Self {
        TellingHost {
            rt,
            alloc,
            line,
            jobs,
            moments: Vec::new(alloc),
        }
    }

    pub(super) fn line(&self) -> &TellingLine<'a> {
        &self.line
    }

    /// Returns the number of its writes.
    pub(super) fn writes(&self) -> usize {
        self.moments.len()
    }

    /// Returns whether just after the write of this number, counted from 0, the line had taken these bytes, and these
    /// jobs waited.
    pub(super) fn is_after(&self, write: usize, taken: &[u8], jobs: &[u8]) -> bool {
        match self.moments.get(write) {
            Some(moment) => moment.taken.as_slice() == taken && moment.jobs.as_slice() == jobs,
            None => false,
        }
    }
}

impl<T: Abort> Host for TellingHost<'_, T> {
    ghost now = { λ host. record {
      lent = [];
      line = record { received = None; taken = Some host.line.taken.items; writes = None };
      disk = record {
        jobs = open_in (Some host.jobs.file.text.items);
        told = None;
        job_faults = host.jobs.file.faults;
        number = None;
        number_faults = 0;
      };
    } };

    ghost after_writes = { λ host. Some (map (λ moment. record {
      lent = [];
      line = record { received = None; taken = Some moment.taken.items; writes = None };
      disk = record {
        jobs = open_in (Some moment.jobs.items);
        told = None;
        job_faults = moment.faults;
        number = None;
        number_faults = 0;
      };
    }) host.moments.items) };

    fn write(&mut self, piece: &[u8]) -> usize {
        let count = self.line.write(piece);
        let taken = self.line.taken().to_vec(self.alloc);
        let jobs = self.jobs.file.text().to_vec(self.alloc);
        let moment = Moment {
            taken: taken.expect(self.rt, "memory"),
            jobs: jobs.expect(self.rt, "memory"),
            faults: self.jobs.file.faults(),
        };
        self.moments.push(moment).expect(self.rt, "memory");
        count
    }

    fn read(&mut self, buffer: &mut [u8]) -> ReadOutcome {
        self.line.read(buffer)
    }

    fn settle<B: Allocator + Copy>(
        &mut self,
        alloc: B,
        struck: &[Job],
        failed: &[Job],
        notice: &[u8],
    ) -> Result<(), ToolFault> {
        self.jobs.settle(alloc, struck, failed, notice)
    }

    fn keep_number(&mut self, _number: u32) -> Result<(), FolderFailed> {
        Ok(())
    }

    fn note(&mut self, _status: SessionStatus) {}

    fn seconds(&self) -> u64 {
        0
    }
}
