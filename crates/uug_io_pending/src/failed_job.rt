//! The failed jobs that a text lists.
ghost use Rattle.std.specs.Option.{option_copied};
ghost use Rattle.std.specs.Prelude.{◌≡◌, IfOk, map};
ghost use Rattle.uug_io_pending.specs.Failed.{comment_in, failed_in, shown_failed};

use crate::named_job::said_job;
use std::alloc::{AllocError, Allocator};
use uug_session::Job;
use uug_talk::split_line;

/// A failed job.
#[derive(Clone, Copy)]
pub struct FailedJob<'a> {
    /// The job.
    pub job: Job,
    /// The comment before it, which says why it failed. It is empty if there is none.
    pub why: &'a [u8],
}

/// Returns the failed jobs that a text lists, each with the last comment before it. Skips other lines.
pub(crate) fn failed_jobs<A: Allocator + Copy>(
    alloc: A,
    text: &[u8],
) -> Result<Vec<FailedJob<'_>, A>, AllocError>
    ensures { IfOk result (λ failed. map shown_failed failed.items ≡ failed_in text.now) }
{
    let mut failed = Vec::new(alloc);
    let mut why = &text[..0];
    let mut rest = text;
    while let Some((line, behind)) = split_line(rest) {
        if let Some(comment) = comment_in(line) {
            why = comment;
        } else if let Some(job) = said_job(alloc, line)? {
            failed.reserve(1)?;
            failed.push_reserved(FailedJob { job, why });
        }
        rest = behind;
    }
    Ok(failed)
}

/// Returns the text of a line that is a comment.
fn comment_in(line: &[u8]) -> Option<&[u8]>
    ensures { option_copied result ≡ comment_in line.now }
{
    if line.starts_with(b"# ") {
        Some(&line[2..])
    } else {
        None
    }
}
