//! The places of the copies that `queue` makes.
ghost use Rattle.std.specs.Prelude.{◌≡◌};
ghost use Rattle.uug_io_disk.specs.Copies.{is_needed_by, is_taken, needs, place_of};
ghost use Rattle.uug_store.specs.OpenJobs.{jobs_in};
ghost use Rattle.uug_talk.specs.Lines.{lines};

use uug_session::Job;
use uug_store::{is_given_in, local_source};
use uug_talk::Name;

/// The place of a copy.
#[derive(Clone, Copy)]
pub(crate) enum CopyPlace {
    /// In `send`: a pending job sends it.
    InSend,
    /// With the files of failed jobs: a failed job sends it, and no pending one.
    WithFailed,
    /// Nowhere: neither a pending nor a failed job sends it. It is removed if its job is done, and stays otherwise.
    Nowhere,
}

/// Returns the place of the copy of this name, for these pending jobs and the text that lists the failed ones. A source
/// in that text counts as it is written: `~/x` is not `x` there.
pub(crate) fn place_of(waiting: &[Job], failed: &[u8], name: &Name) -> CopyPlace
    ensures { result ≡ place_of name.now waiting.now (jobs_in (lines failed.now)) }
{
    if is_needed_by(waiting, name) {
        CopyPlace::InSend
    } else if is_given_in(failed, name) {
        CopyPlace::WithFailed
    } else {
        CopyPlace::Nowhere
    }
}

/// Returns whether the file of this name is that of a pending job, or of one that this text lists as failed. A source
/// in that text counts as it is written. No new copy may get that name, since it would be sent instead of that job's
/// file.
pub(crate) fn is_taken(waiting: &[Job], failed: &[u8], name: &Name) -> bool
    ensures { result ≡ is_taken name.now waiting.now (jobs_in (lines failed.now)) }
{
    if is_needed_by(waiting, name) {
        true
    } else {
        is_given_in(failed, name)
    }
}

/// Returns whether one of these jobs sends the file of this name in `send`.
fn is_needed_by(jobs: &[Job], name: &Name) -> bool
    ensures { result ≡ is_needed_by name.now jobs.now }
{
    for job in jobs {
        if needs(job, name) {
            return true;
        }
    }
    false
}

/// Returns whether a job sends the file of this name in `send`.
fn needs(job: &Job, name: &Name) -> bool
    ensures { result ≡ needs name.now job.now }
{
    match job {
        Job::Send { source, .. } => match local_source(source) {
            Some(local) => local.as_bytes() == name.as_bytes(),
            None => false,
        },
        Job::Request { .. } => false,
    }
}
