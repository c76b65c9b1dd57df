//! The job that a person names.
ghost use Rattle.std.specs.Prelude.{◌≡◌, IfOk};
ghost use Rattle.uug_store.specs.JobsText.{jobs_of};
ghost use Rattle.uug_io_pending.specs.Cancelled.{named_job, nth_job, only_job, said_job, waiting};

use std::alloc::{AllocError, Allocator};
use uug_session::Job;
use uug_store::{JobsFault, is_among, read_jobs, read_number_text};

/// Returns the job among these that a word names: by its number, counted from 1, or by its line.
pub(crate) fn named_job<A: Allocator + Copy>(
    alloc: A,
    jobs: &[Job],
    word: &str,
) -> Result<Option<Job>, AllocError>
    ensures { IfOk result (λ found. found ≡ named_job word.now jobs.now) }
{
    match read_number_text(word.as_bytes()) {
        Some(number) => Ok(nth_job(jobs, number)),
        None => {
            let said = said_job(alloc, word.as_bytes())?;
            Ok(waiting(jobs, said))
        }
    }
}

/// Returns the job of this number, counted from 1.
fn nth_job(jobs: &[Job], number: u32) -> Option<Job>
    ensures { result ≡ nth_job number jobs.now }
{
    if number == 0 {
        return None;
    }
    match jobs.get(number as usize - 1) {
        Some(job) => Some(*job),
        None => None,
    }
}

/// Returns the job of a text, if it has exactly one.
pub(crate) fn said_job<A: Allocator + Copy>(
    alloc: A,
    text: &[u8],
) -> Result<Option<Job>, AllocError>
    ensures { IfOk result (λ said. said ≡ said_job (jobs_of text.now)) }
{
    match read_jobs(alloc, text) {
        Ok(queue) => Ok(only_job(queue.pending())),
        Err(JobsFault::Bad(_)) => Ok(None),
        Err(JobsFault::Memory) => Err(AllocError),
    }
}

/// Returns the job, if there is exactly one.
fn only_job(jobs: &[Job]) -> Option<Job>
    ensures { result ≡ only_job jobs.now }
{
    if jobs.len() == 1 {
        nth_job(jobs, 1)
    } else {
        None
    }
}

/// Returns the job, if one with the same words is among these.
fn waiting(jobs: &[Job], said: Option<Job>) -> Option<Job>
    ensures { result ≡ waiting jobs.now said }
{
    let Some(job) = said else {
        return None;
    };
    if is_among(jobs, &job) {
        Some(job)
    } else {
        None
    }
}
