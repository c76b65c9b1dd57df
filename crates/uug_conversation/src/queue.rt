ghost use Rattle.std.specs.Prelude.{◌≡◌, ◌+◌, ◌<◌, ◌≤◌, [], ◌∷◌, ◌++◌, length, vec_len, vec_capacity, OnOk, OnErr, MatchOption, ◌↔◌, slice_get, Some, All};
ghost use Rattle.uug_conversation.specs.Jobs.{Lists, pending, at_start, moved_once, added};
ghost use Rattle.uug_conversation.specs.Jobs.{pass, strike, fail};
ghost use Rattle.uug_conversation.specs.Party.{HasNames};

use crate::backlog::Backlog;
use crate::job::Job;
use std::alloc::{AllocError, Allocator};
use std::marker::Model;
use thiserror::Error;

/// The most jobs that may be pending at one end.
pub const JOBS_MAX: usize = 1024;

/// The reason why a job was not added.
#[derive(Clone, Copy, Debug, PartialEq, Eq, Error)]
pub enum QueueFault {
    /// `JOBS_MAX` jobs are pending.
    #[error("too many jobs")]
    Full,
    /// There is no memory for the job.
    #[error("out of memory")]
    Memory,
}

/// The jobs of an end: pending, done, and given up for ever. A clause sees them as lists. It sees the pending ones as
/// two lists: those skipped in this session and those still ahead.
#[derive(Drop)]
pub struct Queue<A: Allocator> {
    pending: Backlog<A>,
    /// The number of pending jobs, from the front, that were skipped in this session.
    passed: usize,
    /// This list and `failed` have room for every pending job.
    struck: Vec<Job, A>,
    failed: Vec<Job, A>,
}

impl<A: Allocator> Model for Queue<A> {
    ghost use Rattle.std.specs.Prelude.{◌+◌, ◌≤◌, length, vec_len, vec_capacity, take, drop, All};
    ghost use Rattle.uug_conversation.specs.declared.queue.TheConstants.{JOBS_MAX};
    ghost use Rattle.uug_conversation.specs.Jobs.{Lists};
    ghost use Rattle.uug_conversation.specs.Party.{HasNames};

    ghost Value = { Lists };

    ghost view = { λ q. record {
      passed = take q.passed q.pending.jobs;
      ahead = drop q.passed q.pending.jobs;
      struck = q.struck.items;
      failed = q.failed.items;
    } };

    ghost invariant = { λ q. (q.passed ≤ length q.pending.jobs) × (length q.pending.jobs ≤ JOBS_MAX)
        × (vec_len q.struck + length q.pending.jobs ≤ vec_capacity q.struck)
        × (vec_len q.failed + length q.pending.jobs ≤ vec_capacity q.failed)
        × All HasNames q.pending.jobs };
}

impl<A: Allocator + Copy> Queue<A> {
    /// Makes an empty queue. It takes no memory.
    pub fn new(alloc: A) -> Self
        ensures { result ≡ at_start [] [] [] }
    {
        Queue {
            pending: Backlog::new(alloc),
            passed: 0,
            struck: Vec::new(alloc),
            failed: Vec::new(alloc),
        }
    }
}

impl<A: Allocator> Queue<A> {
    /// Adds a job after all pending jobs. `Full` is checked first. An error changes nothing.
    pub fn add(&mut self, job: Job) -> Result<(), QueueFault>
        ensures ok { OnOk result (self.new ≡ added job self.old) }
        ensures err { OnErr result (self.new ≡ self.old) }
        ensures full { (result ≡ Err QueueFault.Full) ↔ (length (pending self.old) ≡ JOBS_MAX) }
    {
        if self.pending.len() >= JOBS_MAX {
            return Err(QueueFault::Full);
        }
        let moves = make_room(&mut self.pending, &mut self.struck, &mut self.failed);
        if moves.is_err() {
            return Err(QueueFault::Memory);
        }
        job.look_at_names();
        self.pending.push_reserved(job);
        Ok(())
    }

    /// Returns the pending jobs, those skipped in this session first. Their names are names.
    pub fn pending(&self) -> &[Job]
        ensures jobs { result.now ≡ pending self.now }
        ensures most { length result.now ≤ JOBS_MAX }
        ensures names { All HasNames result.now }
    {
        self.pending.as_slice()
    }

    /// Returns the jobs that were done, in the order in which they were done.
    pub fn struck(&self) -> &[Job]
        ensures { result.now ≡ self.now.struck }
    {
        self.struck.as_slice()
    }

    /// Returns the jobs that were given up for ever, in the order in which they were given up.
    pub fn failed(&self) -> &[Job]
        ensures { result.now ≡ self.now.failed }
    {
        self.failed.as_slice()
    }

    /// Returns the first job that is still ahead in this session.
    pub(crate) fn first(&self) -> Option<&Job>
        ensures { MatchOption result (self.now.ahead ≡ [])
            (λ job. slice_get self.now.ahead 0 ≡ Some job.now) }
    {
        self.pending.get(self.passed)
    }

    /// Starts a session: every pending job is ahead.
    pub(crate) fn restart(&mut self)
        ensures { self.new ≡ at_start (pending self.old) self.old.struck self.old.failed }
    {
        self.pending.close_up();
        self.passed = 0;
    }

    /// Skips the first job ahead. It stays pending, and is not offered again in this session.
    pub(crate) fn pass_first(&mut self)
        ensures { self.new ≡ moved_once pass self.old }
    {
        if self.passed < self.pending.len() {
            self.passed += 1;
        }
    }

    /// Marks the first job ahead as done.
    pub(crate) fn strike_first(&mut self)
        ensures { self.new ≡ moved_once strike self.old }
    {
        if self.passed < self.pending.len() {
            let job = self.pending.remove(self.passed);
            self.struck.push_reserved(job);
        }
    }

    /// Gives up the first job ahead for ever.
    pub(crate) fn fail_first(&mut self)
        ensures { self.new ≡ moved_once fail self.old }
    {
        if self.passed < self.pending.len() {
            let job = self.pending.remove(self.passed);
            self.failed.push_reserved(job);
        }
    }
}

/// Makes room for one more pending job, and for moving every pending job to either of the other lists.
fn make_room<A: Allocator>(
    pending: &mut Backlog<A>,
    struck: &mut Vec<Job, A>,
    failed: &mut Vec<Job, A>,
) -> Result<(), AllocError>
    requires { length pending.old.jobs < JOBS_MAX }
    ensures pending { pending.new.jobs ≡ pending.old.jobs }
    ensures struck { struck.new.items ≡ struck.old.items }
    ensures failed { failed.new.items ≡ failed.old.items }
    ensures pending_room { OnOk result (0 < pending.new.room) }
    ensures struck_room { OnOk result (vec_len struck.new + (length pending.new.jobs + 1)
        ≤ vec_capacity struck.new) }
    ensures failed_room { OnOk result (vec_len failed.new + (length pending.new.jobs + 1)
        ≤ vec_capacity failed.new) }
    ensures struck_kept { vec_capacity struck.old ≤ vec_capacity struck.new }
    ensures failed_kept { vec_capacity failed.old ≤ vec_capacity failed.new }
{
    let jobs = pending.len() + 1;
    struck.reserve(jobs)?;
    failed.reserve(jobs)?;
    pending.reserve()
}
