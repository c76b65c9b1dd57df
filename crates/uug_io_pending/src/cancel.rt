//! Cancels a pending job for a person, while no session runs over its folder.
ghost use Rattle.std.specs.Prelude.{◌≡◌, ◌≤◌, IfErr, IfOk, None};
ghost use Rattle.uug_error.specs.Faults.{IsFolderFault, IsReadingFault};
ghost use Rattle.uug_io_pending.specs.Cancelled.{IsCancelFault};

use crate::answer::{Answer, CancelOutcome, say};
use crate::taken_job::cancel_in;
use std::alloc::Allocator;
use std::fs::File;
use std::rt::Files;
use uug_error::{EndDir, RunFault, SystemFailure};
use uug_io_disk::{DirLock, OpenJobs, SystemJobs, lock_dir, open_jobs, settle_copies};
use uug_store::JobsFile;
use uug_stream::{Output, ToolFault};

/// The arguments of the command `queue --cancel`.
#[derive(Clone, Copy, Debug, PartialEq, Eq)]
pub struct CancelTask<'a> {
    /// The folder of the end.
    pub dir: &'a str,
    /// The number of the job, or its line.
    pub job: &'a str,
    /// The order, if one is given as well. Then no job is cancelled.
    pub order: Option<&'a str>,
}

impl<'a> CancelTask<'a> {
    /// Returns the folder of the end.
    fn end_dir(&self) -> EndDir<'a> {
        EndDir {
            path: self.dir,
            number: 0,
        }
    }
}

/// The reason why no job was cancelled.
#[derive(Clone, Copy)]
pub enum CancelFault {
    /// An order was given as well.
    Ordered,
    /// The run gave up.
    Run(RunFault),
}

/// Cancels the job that a word names in the folder of an end: by its number in the list of pending jobs, counted from
/// 1, or by its line. Removes the first of equal lines. Then puts the copies in `send` where they belong, which removes
/// the one that was made for the job unless another job sends it. Locks the folder as a session does, so no job is
/// cancelled during a session. Returns the exit status, and a line for standard error if no such job is pending.
pub fn cancel_run<A, R, O>(
    alloc: A,
    rt: &R,
    task: &CancelTask<'_>,
    output: &mut O,
) -> Result<CancelOutcome<A>, CancelFault>
where
    A: Allocator + Copy,
    R: Files<File = File> + Alloc + Clone + Drop,
    O: Output,
    ensures status { IfOk result (λ done. done.status ≤ 1) }
    ensures alone { IfOk result (λ _. task.now.order ≡ None) }
    // A device fault always names the call that failed.
    ensures why { IfErr result (IsCancelFault task.now.order) }
{
    if task.order.is_some() {
        return Err(CancelFault::Ordered);
    }
    let answer = match cancel_at(alloc, rt, task.end_dir(), task.job) {
        Ok(answer) => answer,
        Err(fault) => return Err(CancelFault::Run(fault)),
    };
    match say(alloc, answer, task.job, output) {
        Ok(done) => Ok(done),
        Err(fault) => Err(CancelFault::Run(RunFault::Tool(fault))),
    }
}

/// Cancels the job that a word names in the folder of an end. Locks the folder meanwhile.
fn cancel_at<A, R>(alloc: A, rt: &R, dir: EndDir<'_>, word: &str) -> Result<Answer, RunFault>
where
    A: Allocator + Copy,
    R: Files<File = File> + Alloc + Clone + Drop,
    ensures { IfErr result IsReadingFault }
{
    let lock = lock_dir(alloc, rt, dir)?;
    let answer = cancel_locked(alloc, rt, &lock, dir, word);
    drop(lock);
    answer
}

/// Does the same while the folder is locked.
fn cancel_locked<A, R>(
    alloc: A,
    rt: &R,
    lock: &DirLock<A>,
    dir: EndDir<'_>,
    word: &str,
) -> Result<Answer, RunFault>
where
    A: Allocator + Copy,
    R: Files<File = File> + Alloc + Clone + Drop,
    ensures { IfErr result IsReadingFault }
{
    let OpenJobs { file, queue } = open_jobs(alloc, rt, lock, dir)?;
    let JobsFile { file, before } = file;
    let mut store = JobsFile {
        file: SystemJobs::new(alloc, file)?,
        before,
    };
    let cancelled = cancel_in(alloc, &mut store, queue.pending(), word);
    let failure = store.file.failure();
    settle_copies(alloc, rt, lock);
    match cancelled {
        Ok(Some(job)) => Ok(Answer::Cancelled(job)),
        Ok(None) => Ok(Answer::Unknown(queue.pending().len())),
        Err(_) => Err(fault_of(failure)),
    }
}

/// Returns the fault of a store of jobs that gave up: the system call that failed, or else out of memory.
fn fault_of(failure: Option<SystemFailure>) -> RunFault
    ensures { IsFolderFault result }
{
    match failure {
        Some(failure) => RunFault::System(failure),
        None => RunFault::Tool(ToolFault::Memory),
    }
}
