//! The pending jobs of a queue.
ghost use Rattle.std.specs.Prelude.{◌≡◌, ◌+◌, ◌<◌, ◌≤◌, [], ◌∷◌, ◌++◌, length, take, drop, OnOk, Some, slice_get, MatchOption};

use crate::job::Job;
use std::alloc::{AllocError, Allocator};
use std::marker::Model;

/// Jobs in order. Any of them may be taken out. Removal moves only the jobs in front, because a queue removes jobs
/// near its front, with up to `JOBS_MAX` after them.
#[derive(Drop)]
pub(crate) struct Backlog<A: Allocator> {
    jobs: Vec<Job, A>,
    /// The number of removed jobs at the front. They remain there until `close_up`.
    gone: usize,
}

impl<A: Allocator> Model for Backlog<A> {
    ghost use Rattle.std.specs.Prelude.{◌-◌, ◌≤◌, drop, vec_len, vec_capacity};
    ghost use Rattle.uug_conversation.specs.Backlog.{Waiting};

    ghost Value = { Waiting };

    ghost view = { λ b.
        record { jobs = drop b.gone b.jobs.items; room = vec_capacity b.jobs - vec_len b.jobs } };

    ghost invariant = { λ b. b.gone ≤ vec_len b.jobs };
}

impl<A: Allocator> Backlog<A> {
    /// Makes an empty list. It takes no memory.
    pub(crate) fn new(alloc: A) -> Self
        ensures { result.jobs ≡ [] }
    {
        Backlog {
            jobs: Vec::new(alloc),
            gone: 0,
        }
    }

    /// Returns the number of jobs.
    pub(crate) fn len(&self) -> usize
        ensures { result ≡ length self.now.jobs }
    {
        self.jobs.len() - self.gone
    }

    /// Returns all jobs, in order.
    pub(crate) fn as_slice(&self) -> &[Job]
        ensures { result.now ≡ self.now.jobs }
    {
        &self.jobs[self.gone..]
    }

    /// Returns the job at index `i`, if there is one.
    pub(crate) fn get(&self, i: usize) -> Option<&Job>
        ensures { MatchOption result (drop i self.now.jobs ≡ [])
            (λ job. slice_get (drop i self.now.jobs) 0 ≡ Some job.now) }
    {
        self.as_slice().get(i)
    }

    /// Removes and returns the job at index `i`.
    pub(crate) fn remove(&mut self, i: usize) -> Job
        requires { i < length self.old.jobs }
        ensures front { take i self.new.jobs ≡ take i self.old.jobs }
        ensures rest { drop i self.old.jobs ≡ result ∷ drop i self.new.jobs }
        ensures jobs { self.new.jobs ≡ take i self.old.jobs ++ drop (i + 1) self.old.jobs }
        ensures len { length self.new.jobs + 1 ≡ length self.old.jobs }
    {
        let place = self.gone + i;
        let job = self.jobs[place];
        self.jobs.copy_within(self.gone..place, self.gone + 1);
        self.gone += 1;
        job
    }

    /// Makes room for one more job.
    pub(crate) fn reserve(&mut self) -> Result<(), AllocError>
        ensures jobs { self.new.jobs ≡ self.old.jobs }
        ensures room { OnOk result (0 < self.new.room) }
    {
        self.jobs.reserve(1)
    }

    /// Adds a job at the end, in room that was reserved.
    pub(crate) fn push_reserved(&mut self, job: Job)
        requires { 0 < self.old.room }
        ensures { self.new.jobs ≡ self.old.jobs ++ job ∷ [] }
    {
        self.jobs.push_reserved(job);
    }

    /// Frees the places of the removed jobs.
    pub(crate) fn close_up(&mut self)
        ensures { self.new.jobs ≡ self.old.jobs }
    {
        self.jobs.drain(..self.gone);
        self.gone = 0;
    }
}
