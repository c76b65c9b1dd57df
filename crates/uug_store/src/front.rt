//! The first jobs of an end.
ghost use Rattle.std.specs.Prelude.{◌≡◌, ◌≤◌, [], take, length, IfOk, OnOk};
ghost use Rattle.uug_conversation.specs.Jobs.{added, at_start, pending};
ghost use Rattle.uug_conversation.specs.declared.queue.TheConstants.{JOBS_MAX};

use std::alloc::{AllocError, Allocator};
use uug_session::{JOBS_MAX, Job, Queue};

/// Returns the first `count` jobs of a list, or all if there are fewer, as a queue. All of them are to be offered.
pub fn first_jobs<A: Allocator + Copy>(
    alloc: A,
    jobs: &[Job],
    count: usize,
) -> Result<Queue<A>, AllocError>
    requires { length jobs.now ≤ JOBS_MAX }
    ensures jobs { IfOk result (λ queue. pending queue ≡ take count jobs.now) }
    ensures fresh { IfOk result (λ queue. queue ≡ at_start (pending queue) [] []) }
{
    let front = &jobs[..count.min(jobs.len())];
    let mut queue = Queue::new(alloc);
    for job in front {
        add(&mut queue, *job)?;
    }
    Ok(queue)
}

/// Adds a job to those that are to be offered. The caller makes sure that there is room for it.
fn add<A: Allocator>(queue: &mut Queue<A>, job: Job) -> Result<(), AllocError>
    ensures { OnOk result (queue.new ≡ added job queue.old) }
{
    match queue.add(job) {
        Ok(()) => Ok(()),
        Err(_) => Err(AllocError),
    }
}
