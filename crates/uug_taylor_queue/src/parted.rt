//! The lines of C. files, divided by whether their jobs are over.
ghost use Rattle.std.specs.Prelude.{◌≡◌, ◌++◌, IfOk, OnOk};
ghost use Rattle.uug_store.specs.JobsAfter.{IsTaken, without_said};
ghost use Rattle.uug_taylor_queue.specs.OpenLines.{lines_gone, lines_left};
ghost use Rattle.uug_taylor_queue.specs.Code.Parting.{IsParted};

use crate::open_line::OpenLine;
use std::alloc::{AllocError, Allocator};
use uug_session::Job;
use uug_store::take_first;

/// Lines in the order of their removal, and those that stay.
#[derive(Drop)]
pub(crate) struct Parted<A: Allocator, B: Allocator> {
    /// The lines whose jobs are done, then those whose jobs have failed, then those that stay.
    pub(crate) order: Vec<OpenLine, B>,
    /// The number of lines whose jobs are done.
    pub(crate) done: usize,
    /// The number of lines after them whose jobs have failed.
    pub(crate) failed: usize,
    /// The lines that stay.
    pub(crate) left: Vec<OpenLine, A>,
}

/// Divides these lines: the jobs in `struck` are done, and those in `failed` have failed. Each of these jobs counts for
/// one line.
pub(crate) fn divided<A: Allocator + Copy, B: Allocator + Copy>(
    alloc: A,
    spare: B,
    lines: &[OpenLine],
    struck: &[Job],
    failed: &[Job],
) -> Result<Parted<A, B>, AllocError>
    ensures { IfOk result (λ p. IsParted struck.now failed.now lines.now p) }
{
    let mut order = Vec::new(spare);
    let mut others = Vec::new(spare);
    let mut left = Vec::new(alloc);
    part(spare, struck, lines, &mut order, &mut others)?;
    let done = order.len();
    part(spare, failed, others.as_slice(), &mut order, &mut left)?;
    let failed = order.len() - done;
    order.extend_from_slice(left.as_slice())?;
    Ok(Parted {
        order,
        done,
        failed,
        left,
    })
}

/// Appends each line whose job is in `over` to `gone`, and each other line to `left`. A job in `over` counts for one
/// line.
fn part<A: Allocator, B: Allocator, C: Allocator>(
    spare: B,
    over: &[Job],
    lines: &[OpenLine],
    gone: &mut Vec<OpenLine, C>,
    left: &mut Vec<OpenLine, A>,
) -> Result<(), AllocError>
    ensures gone { OnOk result (gone.new.items ≡ gone.old.items ++ lines_gone over.now lines.now) }
    ensures left { OnOk result (left.new.items ≡ left.old.items ++ lines_left over.now lines.now) }
{
    let mut rest = over.to_vec(spare)?;
    for line in lines {
        if is_taken(&mut rest, &line.job) {
            gone.push(*line)?;
        } else {
            left.push(*line)?;
        }
    }
    Ok(())
}

/// Removes this job once from `over`, if it is there. Returns whether it was.
fn is_taken<A: Allocator>(over: &mut Vec<Job, A>, job: &Option<Job>) -> bool
    ensures { IsTaken result (without_said job.now over.old.items) over.old.items over.new.items }
{
    match job {
        Some(job) => take_first(over, job),
        None => false,
    }
}
