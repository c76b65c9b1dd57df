//! A pending job, with its file.
use uug_io_disk::SeenFile;
use uug_session::Job;

/// A pending job.
#[derive(Clone, Copy, Debug, PartialEq, Eq)]
pub struct PendingJob {
    /// The job.
    pub job: Job,
    /// The file that it sends, if there is one.
    pub file: Option<SeenFile>,
}
