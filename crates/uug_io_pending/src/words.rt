//! The lines about a cancelled job, a job that is not found, and a job that replaces another one's file.
ghost use Rattle.std.specs.Prelude.{◌≡◌, ◌++◌, IfOk, OnOk, string_bytes};
ghost use Rattle.uug_io_pending.specs.Cancelled.{cancelled_line, count_words, unknown_line};
ghost use Rattle.uug_io_pending.specs.Rivals.{rival_remark};

use std::alloc::{AllocError, Allocator};
use uug_error_text::add_escaped;
use uug_session::Job;
use uug_store::write_jobs;
use uug_talk::Name;

/// Returns the line that reports the cancelled job.
pub(crate) fn cancelled_line<A: Allocator + Copy>(
    alloc: A,
    job: &Job,
) -> Result<String<A>, AllocError>
    ensures { IfOk result (λ line. string_bytes line ≡ cancelled_line job.now) }
{
    let mut line = String::from_str(alloc, "cancelled ")?;
    let said = write_jobs(alloc, &[*job])?;
    line.push_str(said.as_str())?;
    Ok(line)
}

/// Returns the line for standard error that a word names none of the `waiting` jobs.
pub(crate) fn unknown_line<A: Allocator>(
    alloc: A,
    word: &str,
    waiting: usize,
) -> Result<String<A>, AllocError>
    ensures { IfOk result (λ line. string_bytes line ≡ unknown_line word.now waiting) }
{
    let mut line = String::from_str(alloc, "uucpair: \"")?;
    add_escaped(&mut line, word.as_bytes())?;
    line.push_str("\": no such job: ")?;
    add_count(&mut line, waiting)?;
    line.push_str("\n")?;
    Ok(line)
}

/// Returns the line for standard error that another job sends a file to this target.
pub fn rival_remark<A: Allocator>(alloc: A, target: &Name) -> Result<String<A>, AllocError>
    ensures { IfOk result (λ line. string_bytes line ≡ rival_remark target.now) }
{
    let target = target.as_str();
    format!(in alloc; "uucpair: another job sends to {target}, and this one replaces its file\n")
}

/// Appends how to name one of the `waiting` jobs.
fn add_count<A: Allocator>(text: &mut String<A>, waiting: usize) -> Result<(), AllocError>
    ensures { OnOk result
        (string_bytes text.new ≡ string_bytes text.old ++ count_words waiting) }
{
    if waiting == 0 {
        text.push_str("none waits")
    } else {
        write!(
            text,
            "give a number from 1 to {waiting}, or a line of the list"
        )
    }
}
