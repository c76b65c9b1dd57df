//! The answer to a person who cancels a job.
ghost use Rattle.std.specs.Prelude.{◌≡◌, ◌≤◌, IfErr, IfOk, string_bytes};
ghost use Rattle.uug_io_pending.specs.Cancelled.{IsSayingFault, SaysAnswer, status_of};

use crate::words::{cancelled_line, unknown_line};
use std::alloc::Allocator;
use uug_session::Job;
use uug_stream::{Output, ToolFault, write_all};

/// The job that a word named, if it named one.
#[derive(Clone, Copy)]
pub(crate) enum Answer {
    /// This job was cancelled.
    Cancelled(Job),
    /// The word names none of the pending jobs, of which there are this many.
    Unknown(usize),
}

/// The outcome of cancelling a job.
#[derive(Drop)]
pub struct CancelOutcome<A: Allocator> {
    /// The exit status: 1 if no such job is pending, and otherwise 0.
    pub status: u8,
    /// The line for standard error if no such job is pending, and otherwise an empty text.
    pub remark: String<A>,
}

/// Prints the cancelled job. Returns the exit status, and a line for standard error if no job was cancelled.
pub(crate) fn say<A: Allocator + Copy, O: Output>(
    alloc: A,
    answer: Answer,
    word: &str,
    output: &mut O,
) -> Result<CancelOutcome<A>, ToolFault>
    ensures status { IfOk result (λ done. done.status ≡ status_of answer) }
    ensures most { IfOk result (λ done. done.status ≤ 1) }
    ensures says { IfOk result (λ done. SaysAnswer answer word.now (O.written output.old)
        (O.written output.new) (string_bytes done.remark)) }
    ensures no_other { IfErr result IsSayingFault }
{
    match answer {
        Answer::Cancelled(job) => {
            let line = cancelled_line(alloc, &job)?;
            write_all(output, line.as_bytes())?;
            Ok(CancelOutcome {
                status: 0,
                remark: String::new(alloc),
            })
        }
        Answer::Unknown(waiting) => Ok(CancelOutcome {
            status: 1,
            remark: unknown_line(alloc, word, waiting)?,
        }),
    }
}
