//! The status of an end's folder, which may be looked at while a session runs over it.
ghost use Rattle.std.specs.Prelude.{◌≡◌, IfErr, IfOk, OnOk, map, string_bytes};
ghost use Rattle.uug_error.specs.Faults.{IsCopyFault, IsFolderFault, IsQueueFault, IsReadingFault};
ghost use Rattle.std.specs.Option.{option_map};
ghost use Rattle.uug_io_pending.specs.LastSession.{shown_last};
ghost use Rattle.uug_io_pending.specs.Status.{IsStatus, WritesStatus, job_of, status_as};

use crate::failed_job::{FailedJob, failed_jobs};
use crate::json::status_json;
use crate::last_session::{LastSession, last_in};
use crate::lines::status_text;
use crate::pending_job::PendingJob;
use std::alloc::{AllocError, Allocator};
use std::fs::File;
use std::rt::Files;
use std::time::Clock;
use uug_error::{EndDir, EndText, RunFault};
use uug_io_disk::{
    HeldFile, SeenFile, jobs_at, jobs_in, read_end, read_text, see_dir, see_file, see_held,
    see_sent,
};
use uug_session::Job;
use uug_stream::{Output, write_all};

/// The arguments of the command `status`.
#[derive(Clone, Copy, Debug, PartialEq, Eq)]
pub struct StatusTask<'a> {
    /// The folder of the end, or a spool.
    pub dir: &'a str,
    /// The path of the end's log, if it is to be read.
    pub log: Option<&'a str>,
    /// Set if the status is printed as JSON.
    pub is_json: bool,
    /// Set if `dir` is a spool.
    pub is_spool: bool,
    /// The system of the spool.
    pub peer: Option<&'a str>,
    /// The folder of the lock files. A session over the spool holds one of them.
    pub locks: &'a str,
}

impl<'a> StatusTask<'a> {
    /// Returns the folder of the end.
    fn end_dir(&self) -> EndDir<'a> {
        EndDir {
            path: self.dir,
            number: 0,
        }
    }
}

/// Prints the status of an end's folder: the pending jobs, the bytes held of files that were cut off, the failed jobs
/// and why they failed, the mark of a session that is not over, and with a log the last session in it. Locks and
/// changes nothing.
pub fn status_run<A, R, O>(
    alloc: A,
    rt: &R,
    task: &StatusTask<'_>,
    output: &mut O,
) -> Result<(), RunFault>
where
    A: Allocator + Copy,
    R: Files<File = File> + Clock + Alloc + Clone + Drop,
    O: Output,
    ensures prints { OnOk result
        (WritesStatus task.now.is_json (O.written output.old) (O.written output.new)) }
    // A device fault always names the call that failed.
    ensures no_other { IfErr result IsQueueFault }
{
    let log = log_at(alloc, rt, task.log)?;
    let last = last_in(log.as_slice());
    let text = status_at(alloc, rt, task.end_dir(), task.is_json, &last)?;
    write_all(output, text.as_bytes())?;
    Ok(())
}

/// Returns the last bytes of the log at a path, or none if no log is read.
pub fn log_at<A: Allocator + Copy, R: Files<File = File>>(
    alloc: A,
    rt: &R,
    path: Option<&str>,
) -> Result<Vec<u8, A>, RunFault>
    ensures { IfErr result IsCopyFault }
{
    match path {
        Some(path) => read_end(alloc, rt, path),
        None => Ok(Vec::new(alloc)),
    }
}

/// Returns the status of an end's folder, as JSON or in lines.
fn status_at<A, R>(
    alloc: A,
    rt: &R,
    dir: EndDir<'_>,
    is_json: bool,
    last: &Option<LastSession<'_>>,
) -> Result<String<A>, RunFault>
where
    A: Allocator + Copy,
    R: Files + Clock + Alloc + Clone + Drop,
    ensures is { IfOk result (λ text. IsStatus is_json (string_bytes text)) }
    ensures no_other { IfErr result IsReadingFault }
{
    see_dir(rt, dir)?;
    let pending = pending_at(alloc, rt, dir)?;
    let held = held_at(alloc, rt, dir)?;
    // Read after the pending jobs: a job that fails meanwhile is listed twice rather than not at all.
    let failed = failed_at(alloc, rt, dir)?;
    let failed = failed_jobs(alloc, failed.as_slice())?;
    let session = session_at(alloc, rt, dir)?;
    let text = status_as(
        alloc,
        is_json,
        &session,
        last,
        pending.as_slice(),
        held.as_slice(),
        failed.as_slice(),
    )?;
    Ok(text)
}

/// Returns the status of an end's folder, or of a system's part of a spool, as JSON or in lines.
pub fn status_as<A: Allocator>(
    alloc: A,
    is_json: bool,
    session: &Option<SeenFile>,
    last: &Option<LastSession<'_>>,
    pending: &[PendingJob],
    held: &[HeldFile],
    failed: &[FailedJob<'_>],
) -> Result<String<A>, AllocError>
    ensures { IfOk result (λ text. string_bytes text
        ≡ status_as is_json session.now (option_map shown_last last.now) pending.now held.now failed.now) }
{
    if is_json {
        status_json(alloc, session, last, pending, held, failed)
    } else {
        status_text(alloc, session, last, pending, held, failed)
    }
}

/// Returns the pending jobs in the folder of an end, with their files.
fn pending_at<A: Allocator + Copy, R: Files + Clock>(
    alloc: A,
    rt: &R,
    dir: EndDir<'_>,
) -> Result<Vec<PendingJob, A>, RunFault>
    ensures { IfErr result IsReadingFault }
{
    let text = jobs_at(alloc, rt, dir)?;
    let queue = jobs_in(alloc, text.as_slice())?;
    let pending = with_files(alloc, rt, dir, queue.pending())?;
    Ok(pending)
}

/// Returns these jobs, with their files.
fn with_files<A: Allocator + Copy, R: Files + Clock>(
    alloc: A,
    rt: &R,
    dir: EndDir<'_>,
    jobs: &[Job],
) -> Result<Vec<PendingJob, A>, RunFault>
    ensures jobs { IfOk result (λ pending. map job_of pending.items ≡ jobs.now) }
    ensures no_other { IfErr result IsFolderFault }
{
    let mut pending = Vec::new(alloc);
    for job in jobs {
        let file = see_sent(alloc, rt, dir, job)?;
        pending.reserve(1)?;
        pending.push_reserved(PendingJob { job: *job, file });
    }
    Ok(pending)
}

/// Returns the files that an end holds.
fn held_at<A, R>(alloc: A, rt: &R, dir: EndDir<'_>) -> Result<Vec<HeldFile, A>, AllocError>
where
    A: Allocator + Copy,
    R: Files + Clock + Alloc + Clone + Drop,
{
    let front = dir.path;
    let path = format!(in alloc; "{front}/partial")?;
    see_held(alloc, rt, path.as_str())
}

/// Returns the text that lists the failed jobs. A missing file has an empty text.
fn failed_at<A: Allocator + Copy, R: Files>(
    alloc: A,
    rt: &R,
    dir: EndDir<'_>,
) -> Result<Vec<u8, A>, RunFault>
    ensures { IfErr result IsFolderFault }
{
    match read_text(alloc, rt, dir, EndText::Failed) {
        Ok(Some(text)) => Ok(text),
        Ok(None) => Ok(Vec::new(alloc)),
        Err(fault) => Err(fault),
    }
}

/// Returns the mark of a session that is not over, if there is one.
fn session_at<A: Allocator + Copy, R: Files + Clock>(
    alloc: A,
    rt: &R,
    dir: EndDir<'_>,
) -> Result<Option<SeenFile>, AllocError> {
    let front = dir.path;
    let path = format!(in alloc; "{front}/.session")?;
    Ok(see_file(rt, path.as_str()))
}
