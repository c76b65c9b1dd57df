//! Queues jobs for a person, also while sessions run over the same folder, and lists the pending jobs.
ghost use Rattle.std.specs.Prelude.{◌≡◌, IfErr, IfOk, Some, string_bytes};
ghost use Rattle.uug_store.specs.Queueing.{ordered, shown_text, target_with, user_with};
ghost use Rattle.uug_error.specs.Faults.{IsQueueFault, IsReadingFault};
ghost use Rattle.uug_error.specs.declared.run_fault.RunFault.TheVariants.{Tool as tool};
ghost use Rattle.uug_stream.specs.declared.fault.ToolFault.TheVariants.{Memory as memory};
ghost use Rattle.uug_io_disk.specs.Queued.{IsFaultOfQueue, IsListOf, has_rival, is_rival, rival_among, word_in, word_or_empty};
ghost use Rattle.uug_io_disk.specs.declared.queue.QueueFault.TheVariants.{Order as bad_order, Run as gave_up};

use crate::dir_lock::see_dir;
use crate::queued_copy::{Copied, copied_as, place_copy, read_copied};
use crate::queued_line::{add_job, jobs_at, jobs_in};
use crate::settled_copies::{failed_text, lock_send, lock_text, settle_now};
use std::alloc::{AllocError, Allocator};
use std::env;
use std::env::VarError;
use std::fs::File;
use std::rt::{Env, Files};
use uug_error::{EndDir, RunFault};
use uug_session::Job;
use uug_store::{
    OrderFault, default_user, is_among, ordered_job, queued_line, with_source, write_jobs,
};
use uug_stream::{Output, write_all};
use uug_talk::Name;

/// The arguments of the command `queue`.
#[derive(Clone, Copy, Debug, PartialEq, Eq)]
pub struct QueueTask<'a> {
    /// The folder of the end.
    pub dir: &'a str,
    /// The order for the file: `send` or `request`. Without it the pending jobs are listed.
    pub order: Option<&'a str>,
    /// The path of the file to send, or the name of the one to request.
    pub file: Option<&'a str>,
    /// The name that the file is to have at its destination.
    pub target: Option<&'a str>,
    /// The user who queues it.
    pub user: Option<&'a str>,
}

impl<'a> QueueTask<'a> {
    /// Returns the folder of the end.
    fn end_dir(&self) -> EndDir<'a> {
        EndDir {
            path: self.dir,
            number: 0,
        }
    }

    /// Returns the file, or an empty text if none is named.
    fn file(&self) -> &'a str
        ensures { result.now ≡ word_or_empty self.now.file }
    {
        self.file.unwrap_or("")
    }
}

/// The reason why nothing was queued or listed.
#[derive(Clone, Copy)]
pub enum QueueFault {
    /// The order is bad usage.
    Order(OrderFault),
    /// The run gave up.
    Run(RunFault),
}

impl From<OrderFault> for QueueFault {
    ghost from_gives = { λ order fault. fault ≡ bad_order order };

    fn from(order: OrderFault) -> QueueFault {
        QueueFault::Order(order)
    }
}

impl From<RunFault> for QueueFault {
    ghost from_gives = { λ run fault. fault ≡ gave_up run };

    fn from(run: RunFault) -> QueueFault {
        QueueFault::Run(run)
    }
}

impl From<AllocError> for QueueFault {
    ghost from_gives = { λ _ fault. fault ≡ gave_up (tool memory) };

    fn from(refused: AllocError) -> QueueFault {
        QueueFault::Run(RunFault::from(refused))
    }
}

/// Lists the pending jobs in the folder of an end, or queues another one. A file to send is copied into `send`, under
/// its own name or one with a number. The job is appended to `jobs`, whether a session runs or not, and printed as a
/// line. Returns its target if another job sends another file there.
pub fn queue_run<A, R, O>(
    alloc: A,
    rt: &R,
    task: &QueueTask<'_>,
    output: &mut O,
) -> Result<Option<Name>, QueueFault>
where
    A: Allocator + Copy,
    R: Files<File = File> + Env + Alloc + Clone + Drop,
    O: Output,
    // A device fault always names the call that failed.
    ensures { IfErr result (IsFaultOfQueue task.now.order) }
{
    match task.order {
        Some(order) => queue_order(alloc, rt, task, order, output),
        None => {
            list_dir(alloc, rt, task.end_dir(), output)?;
            Ok(None)
        }
    }
}

/// Lists the jobs in the folder of an end.
fn list_dir<A: Allocator + Copy, R: Files, O: Output>(
    alloc: A,
    rt: &R,
    dir: EndDir<'_>,
    output: &mut O,
) -> Result<(), RunFault>
    ensures { IfErr result IsQueueFault }
{
    let list = list_at(alloc, rt, dir)?;
    write_all(output, list.as_bytes())?;
    Ok(())
}

/// Returns the list of the jobs in the folder of an end.
fn list_at<A: Allocator + Copy, R: Files>(
    alloc: A,
    rt: &R,
    dir: EndDir<'_>,
) -> Result<String<A>, RunFault>
    ensures { IfErr result IsReadingFault }
{
    see_dir(rt, dir)?;
    let text = jobs_at(alloc, rt, dir)?;
    list_of(alloc, text.as_slice())
}

/// Returns the jobs of a text, one line per job.
fn list_of<A: Allocator + Copy>(alloc: A, text: &[u8]) -> Result<String<A>, RunFault>
    ensures lists { IfOk result (λ list. IsListOf text.now (string_bytes list)) }
    ensures no_other { IfErr result IsReadingFault }
{
    let queue = jobs_in(alloc, text)?;
    Ok(write_jobs(alloc, queue.pending())?)
}

/// Queues the job that a person orders. Returns its target if another job sends another file there.
fn queue_order<A, R, O>(
    alloc: A,
    rt: &R,
    task: &QueueTask<'_>,
    order: &str,
    output: &mut O,
) -> Result<Option<Name>, QueueFault>
where
    A: Allocator + Copy,
    R: Files<File = File> + Env + Alloc + Clone + Drop,
    O: Output,
    ensures { IfErr result (IsFaultOfQueue (Some order.entry)) }
{
    let user = user_at(rt)?;
    let job = job_of(task, order, user)?;
    let queued = queue_job(alloc, rt, task, &job)?;
    show_queued(alloc, &queued, output)?;
    // If the jobs can't be read again, no other job is reported.
    Ok(rival_of(alloc, rt, task.end_dir(), &queued).unwrap_or(None))
}

/// Writes the queued job, as a line.
fn show_queued<A: Allocator, O: Output>(
    alloc: A,
    queued: &Job,
    output: &mut O,
) -> Result<(), RunFault>
    ensures { IfErr result IsQueueFault }
{
    let line = queued_line(alloc, queued)?;
    write_all(output, line.as_bytes())?;
    Ok(())
}

/// Returns the target of a queued job, if another job sends another file there.
fn rival_of<A: Allocator + Copy, R: Files>(
    alloc: A,
    rt: &R,
    dir: EndDir<'_>,
    queued: &Job,
) -> Result<Option<Name>, RunFault>
    ensures { IfErr result IsReadingFault }
{
    let Job::Send { source, target, .. } = queued else {
        return Ok(None);
    };
    let text = jobs_at(alloc, rt, dir)?;
    let waiting = jobs_in(alloc, text.as_slice())?;
    Ok(rival_among(source, target, waiting.pending()))
}

/// Returns this target, if one of these jobs sends another file than `source` there.
fn rival_among(source: &Name, target: &Name, jobs: &[Job]) -> Option<Name>
    ensures { result ≡ rival_among source.now target.now jobs.now }
{
    if has_rival(source, target, jobs) {
        Some(*target)
    } else {
        None
    }
}

/// Returns whether one of these jobs sends another file than `source` to this target.
fn has_rival(source: &Name, target: &Name, jobs: &[Job]) -> bool
    ensures { result ≡ has_rival source.now target.now jobs.now }
{
    for job in jobs {
        if is_rival(source, target, job) {
            return true;
        }
    }
    false
}

/// Returns whether a job sends another file than `source` to this target.
fn is_rival(source: &Name, target: &Name, job: &Job) -> bool
    ensures { result ≡ is_rival source.now target.now job.now }
{
    match job {
        Job::Send {
            source: other,
            target: place,
            ..
        } => other.as_bytes() != source.as_bytes() && place.as_bytes() == target.as_bytes(),
        Job::Request { .. } => false,
    }
}

/// Returns the ordered job. The source of a job that sends is the file's own name. The copy in `send` may get another
/// one.
fn job_of(task: &QueueTask<'_>, order: &str, user: Name) -> Result<Job, OrderFault>
    ensures { result ≡ ordered order.now (word_or_empty task.now.file)
        (target_with (word_in task.now.target) (word_or_empty task.now.file))
        (user_with (word_in task.now.user) user) }
{
    ordered_job(
        order.as_bytes(),
        task.file().as_bytes(),
        bytes_of(task.target),
        bytes_of(task.user),
        user,
    )
}

/// Returns the bytes of a word.
fn bytes_of(word: Option<&str>) -> Option<&[u8]>
    ensures { shown_text result ≡ word_in word.entry }
{
    match word {
        Some(word) => Some(word.as_bytes()),
        None => None,
    }
}

/// Returns the user of a job if none is named: by the variables `USER` and `LOGNAME`, or else `uucp`.
fn user_at<R: Env + Alloc>(rt: &R) -> Result<Name, AllocError> {
    let user = variable(rt, "USER")?;
    let login = variable(rt, "LOGNAME")?;
    Ok(default_user(
        user.as_ref().map(|text| text.as_bytes()),
        login.as_ref().map(|text| text.as_bytes()),
    ))
}

/// Returns the value of an environment variable, if it is set and is text.
fn variable<R: Env + Alloc>(rt: &R, name: &str) -> Result<Option<String<R::A>>, AllocError> {
    match env::var(rt, name) {
        Ok(text) => Ok(Some(text)),
        Err(VarError::OutOfMemory) => Err(AllocError),
        Err(_) => Ok(None),
    }
}

/// Queues a job in the folder of the task. Returns the job as queued: if it sends, its source is the name of the copy.
fn queue_job<A, R>(alloc: A, rt: &R, task: &QueueTask<'_>, job: &Job) -> Result<Job, RunFault>
where
    A: Allocator + Copy,
    R: Files<File = File> + Alloc + Clone + Drop,
    ensures { IfErr result IsQueueFault }
{
    match job {
        Job::Send { source, .. } => {
            let bytes = read_copied(alloc, rt, task.file())?;
            queue_copy(alloc, rt, task.end_dir(), job, source, bytes.as_slice())
        }
        Job::Request { .. } => queue_line(alloc, rt, task.end_dir(), job),
    }
}

/// Copies the file of a job into `send`, and appends the job. `send` is locked meanwhile, so nobody else queues a file.
fn queue_copy<A, R>(
    alloc: A,
    rt: &R,
    dir: EndDir<'_>,
    job: &Job,
    base: &Name,
    bytes: &[u8],
) -> Result<Job, RunFault>
where
    A: Allocator + Copy,
    R: Files<File = File> + Alloc + Clone + Drop,
    ensures { IfErr result IsReadingFault }
{
    see_dir(rt, dir)?;
    let lock = lock_send(alloc, rt, dir)?;
    let queued = queue_copy_alone(alloc, rt, dir, job, base, bytes);
    drop(lock);
    queued
}

/// Does the same while `send` is locked. First puts the copies of jobs that are over where they belong.
fn queue_copy_alone<A, R>(
    alloc: A,
    rt: &R,
    dir: EndDir<'_>,
    job: &Job,
    base: &Name,
    bytes: &[u8],
) -> Result<Job, RunFault>
where
    A: Allocator + Copy,
    R: Files<File = File> + Alloc + Clone + Drop,
    ensures { IfErr result IsReadingFault }
{
    settle_now(alloc, rt, dir)?;
    let text = jobs_at(alloc, rt, dir)?;
    let waiting = jobs_in(alloc, text.as_slice())?;
    let failed = failed_text(alloc, rt, dir).unwrap_or(Vec::new(alloc));
    let copy = place_copy(
        alloc,
        rt,
        dir,
        base,
        waiting.pending(),
        failed.as_slice(),
        bytes,
    )?;
    let placed = with_source(job, copy.name);
    match add_job(alloc, rt, dir, &placed) {
        Ok(()) => {
            // If that fails, the next run does it.
            let _ = mark_needed(alloc, rt, dir, &placed, &copy);
            Ok(placed)
        }
        Err(fault) => {
            copy.remove(rt);
            Err(fault)
        }
    }
}

/// Marks the copy of a job that was queued just now as needed, unless a session has already done the job.
fn mark_needed<A: Allocator + Copy, R: Files<File = File>>(
    alloc: A,
    rt: &R,
    dir: EndDir<'_>,
    job: &Job,
    copy: &Copied<A>,
) -> Result<(), RunFault>
    ensures { IfErr result IsReadingFault }
{
    let needed = copied_as(alloc, dir, copy.name)?;
    let lock = lock_text(alloc, rt, dir)?;
    let text = jobs_at(alloc, rt, dir)?;
    let waiting = jobs_in(alloc, text.as_slice())?;
    if is_among(waiting.pending(), job) {
        copy.mark_as(rt, &needed);
    }
    drop(lock);
    Ok(())
}

/// Appends a job that needs no copy.
fn queue_line<A: Allocator + Copy, R: Files<File = File>>(
    alloc: A,
    rt: &R,
    dir: EndDir<'_>,
    job: &Job,
) -> Result<Job, RunFault>
    ensures { IfErr result IsReadingFault }
{
    see_dir(rt, dir)?;
    add_job(alloc, rt, dir, job)?;
    Ok(*job)
}
