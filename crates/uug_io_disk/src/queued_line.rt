//! Appends a job to `jobs`, also while sessions remove others from it.
ghost use Rattle.std.specs.Prelude.{IfErr, IfOk};
ghost use Rattle.uug_store.specs.JobsText.{IsJobsFault, IsQueueOf, jobs_of};
ghost use Rattle.uug_error.specs.Failures.{fault_of_run};
ghost use Rattle.uug_error.specs.Faults.{IsFolderFault, IsReadingFault};

use crate::atomic_file::append_whole;
use crate::pipe::is_pipe;
use crate::send_folder::{TEXT_MAX, read_text};
use crate::written::see_written;
use std::alloc::{AllocError, Allocator};
use std::fs::{File, OpenOptions};
use std::io::ErrorKind;
use std::os::unix::fs::MetadataExt;
use std::rt::Files;
use std::{fs, io};
use uug_error::{Cause, EndDir, EndText, Resource, RunFault};
use uug_session::{Job, Queue};
use uug_store::{JobsFault, appended_job, is_among, read_jobs};
use uug_stream::ToolFault;

/// The maximum number of times in a row that another file may replace `jobs` while a job is appended.
pub(crate) const APPENDS_MAX: u32 = 1000;

/// Appends a job to `jobs` in the folder of an end, and syncs it to disk. The sessions of this program hold the same
/// lock while they replace `jobs`. If anyone else replaces it, reads the new file, and appends the job again if it is
/// missing.
pub(crate) fn add_job<A: Allocator + Copy, R: Files<File = File>>(
    alloc: A,
    rt: &R,
    dir: EndDir<'_>,
    job: &Job,
) -> Result<(), RunFault>
    ensures { IfErr result IsReadingFault }
{
    let front = dir.path;
    let path = format!(in alloc; "{front}/jobs")?;
    let mut is_appended = false;
    for _ in 0..APPENDS_MAX {
        let Some(file) = lock_jobs(rt, dir, path.as_str())? else {
            continue;
        };
        let text = jobs_at(alloc, rt, dir)?;
        if is_appended && has_job(alloc, text.as_slice(), job)? {
            return Ok(());
        }
        append(alloc, rt, dir, &file, text.as_slice(), job)?;
        is_appended = true;
        if is_at(rt, &file, path.as_str()) {
            return Ok(());
        }
    }
    let failed = io::Error::from(ErrorKind::WouldBlock);
    Err(RunFault::of(&failed, dir, Resource::Text(EndText::Jobs)))
}

/// Opens the file of the jobs, and locks it. Returns `None` if another file replaced it meanwhile. Creates a missing
/// file.
fn lock_jobs<R: Files<File = File>>(
    rt: &R,
    dir: EndDir<'_>,
    path: &str,
) -> Result<Option<File>, RunFault>
    ensures { IfErr result IsFolderFault }
{
    if is_pipe(rt, path) {
        let resource = Resource::Text(EndText::Jobs);
        return Err(RunFault::System(dir.failure(resource, Cause::NotAFile)));
    }
    match open_locked(rt, path) {
        Ok(file) if is_at(rt, &file, path) => Ok(Some(file)),
        Ok(_) => Ok(None),
        Err(error) => Err(RunFault::of(&error, dir, Resource::Text(EndText::Jobs))),
    }
}

/// Opens a file for appending, and waits for its lock.
fn open_locked<R: Files<File = File>>(rt: &R, path: &str) -> io::Result<File> {
    let file = OpenOptions::new().append(true).create(true).open(rt, path)?;
    file.lock()?;
    Ok(file)
}

/// Returns whether an open file is the one at a path.
pub(crate) fn is_at<R: Files>(rt: &R, file: &File, path: &str) -> bool {
    match (file.metadata(), fs::metadata(rt, path)) {
        (Ok(open), Ok(there)) => open.dev() == there.dev() && open.ino() == there.ino(),
        _ => false,
    }
}

/// Returns the text of the jobs in the folder of an end, which is empty if there is no file.
pub fn jobs_at<A: Allocator + Copy, R: Files>(
    alloc: A,
    rt: &R,
    dir: EndDir<'_>,
) -> Result<Vec<u8, A>, RunFault>
    ensures { IfErr result IsFolderFault }
{
    match read_text(alloc, rt, dir, EndText::Jobs)? {
        Some(text) => Ok(text),
        None => Ok(Vec::new(alloc)),
    }
}

/// Returns the jobs in a text.
pub fn jobs_in<A: Allocator + Copy>(alloc: A, text: &[u8]) -> Result<Queue<A>, RunFault>
    ensures jobs { IfOk result (IsQueueOf text.now) }
    ensures fault { IfErr result (λ fault.
        IsJobsFault (fault_of_run fault) (jobs_of text.now)) }
    ensures no_other { IfErr result IsReadingFault }
{
    match read_jobs(alloc, text) {
        Ok(queue) => Ok(queue),
        Err(JobsFault::Bad(line)) => Err(RunFault::Tool(ToolFault::Jobs(line))),
        Err(JobsFault::Memory) => Err(RunFault::Tool(ToolFault::Memory)),
    }
}

/// Returns whether a text has a job.
fn has_job<A: Allocator + Copy>(alloc: A, text: &[u8], job: &Job) -> Result<bool, RunFault>
    ensures { IfErr result IsReadingFault }
{
    let queue = jobs_in(alloc, text)?;
    Ok(is_among(queue.pending(), job))
}

/// Appends a job to the file of the jobs, which has this text. Fails if the text would then be bad or too long.
fn append<A: Allocator + Copy, R: Files>(
    alloc: A,
    rt: &R,
    dir: EndDir<'_>,
    file: &File,
    text: &[u8],
    job: &Job,
) -> Result<(), RunFault>
    ensures { IfErr result IsReadingFault }
{
    let added = appended_job(alloc, text, job)?;
    see_text(alloc, dir, text, added.as_bytes())?;
    match append_whole(rt, file, dir.path, added.as_bytes()) {
        Ok(written) => {
            see_written(written, added.as_bytes());
            Ok(())
        }
        Err(error) => Err(RunFault::of(&error, dir, Resource::Text(EndText::Jobs))),
    }
}

/// Checks that a text with this addition is one of jobs, and not too long.
fn see_text<A: Allocator + Copy>(
    alloc: A,
    dir: EndDir<'_>,
    text: &[u8],
    added: &[u8],
) -> Result<(), RunFault>
    ensures { IfErr result IsReadingFault }
{
    let mut whole = text.to_vec(alloc)?;
    whole.extend_from_slice(added)?;
    if whole.len() > TEXT_MAX {
        let resource = Resource::Text(EndText::Jobs);
        return Err(RunFault::System(dir.failure(resource, Cause::TooMuch)));
    }
    drop(jobs_in(alloc, whole.as_slice())?);
    Ok(())
}
