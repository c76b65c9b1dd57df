//! The open lines of a C. file, and the jobs of a session.
ghost use Rattle.std.specs.Prelude.{◌≡◌, ◌++◌, [], min, take, IfOk, OnOk};
ghost use Rattle.uug_conversation.specs.Jobs.{at_start, pending};
ghost use Rattle.uug_conversation.specs.declared.queue.TheConstants.{JOBS_MAX};
ghost use Rattle.uug_talk.specs.Lines.{lines as lines_of_text};
ghost use Rattle.uug_taylor_queue.specs.Offers.{offer_of};
ghost use Rattle.uug_taylor_queue.specs.OpenLines.{file_lines, is_blank, is_over, jobs_of, offered, open_by, open_lines};

use crate::offer::{Offer, read_offer};
use crate::open_line::OpenLine;
use std::alloc::{AllocError, Allocator};
use uug_conversation::has_name;
use uug_session::{JOBS_MAX, Job, Queue};
use uug_store::first_jobs;
use uug_talk::{Name, split_line, split_word};

/// Returns whether a line with this copy is over: the copy is gone. `there` has the names of the data that exists.
fn is_over(there: &[Name], copy: &Option<Name>) -> bool
    ensures { result ≡ is_over there.now copy.now }
{
    match copy {
        Some(copy) => !has_name(there, copy.as_bytes()),
        None => false,
    }
}

/// Returns whether a line has no word.
pub(crate) fn is_blank(line: &[u8]) -> bool
    ensures { result ≡ is_blank line.now }
{
    split_word(line).is_none()
}

/// Appends an open line for each job of a line. `number` is the number of lines before it in its file.
fn add_jobs<A: Allocator>(
    lines: &mut Vec<OpenLine, A>,
    file: &Name,
    number: usize,
    offer: &Offer,
) -> Result<(), AllocError>
    ensures { OnOk result (lines.new.items ≡ lines.old.items ++ offered file.now number offer.now) }
{
    lines.push(OpenLine {
        file: *file,
        number,
        copy: offer.copy,
        job: Some(offer.first),
    })?;
    if let Some(second) = offer.second {
        lines.push(OpenLine {
            file: *file,
            number,
            copy: offer.copy,
            job: Some(second),
        })?;
    }
    Ok(())
}

/// Appends the open lines of a line that is not blank. It has none if it is over.
fn add_open<A: Allocator>(
    lines: &mut Vec<OpenLine, A>,
    file: &Name,
    number: usize,
    line: &[u8],
    there: &[Name],
) -> Result<(), AllocError>
    ensures { OnOk result (lines.new.items
        ≡ lines.old.items ++ open_by there.now file.now number (offer_of line.now)) }
{
    match read_offer(line) {
        Ok(offer) => {
            if is_over(there, &offer.copy) {
                return Ok(());
            }
            add_jobs(lines, file, number, &offer)
        }
        Err(_) => {
            lines.push(OpenLine {
                file: *file,
                number,
                copy: None,
                job: None,
            })?;
            Ok(())
        }
    }
}

/// Appends the open lines of a line of a C. file. It has none if it is blank or over.
fn add_line<A: Allocator>(
    lines: &mut Vec<OpenLine, A>,
    file: &Name,
    number: usize,
    line: &[u8],
    there: &[Name],
) -> Result<(), AllocError>
    ensures { OnOk result (lines.new.items
        ≡ lines.old.items ++ open_lines there.now file.now number line.now) }
{
    if is_blank(line) {
        return Ok(());
    }
    add_open(lines, file, number, line, there)
}

/// Appends the open lines of the C. file of this name and text. `there` has the names of the data that exists. A line
/// is over if it is blank, or if it has a copy that is gone. A line that runs a command is two open lines. A line that
/// no session can offer is an open line without a job.
pub fn add_file<A: Allocator>(
    lines: &mut Vec<OpenLine, A>,
    file: &Name,
    text: &[u8],
    there: &[Name],
) -> Result<(), AllocError>
    ensures { OnOk result (lines.new.items
        ≡ lines.old.items ++ file_lines there.now file.now 0 (lines_of_text text.now)) }
{
    let mut rest = text;
    let mut number = 0;
    while let Some((line, behind)) = split_line(rest) {
        add_line(lines, file, number, line, there)?;
        rest = behind;
        number += 1;
    }
    Ok(())
}

/// Returns the first jobs of these lines as a queue: at most `most`, and at most `JOBS_MAX`. All are still to be
/// offered.
#[tactic(auto, using(crate::proofs::OpenLinesLemmas::whole_front, crate::proofs::OpenLinesLemmas::front_is_short))]
pub fn queue_of<A: Allocator + Copy>(
    alloc: A,
    lines: &[OpenLine],
    most: usize,
) -> Result<Queue<A>, AllocError>
    ensures jobs { IfOk result (λ queue. pending queue ≡ take (min most JOBS_MAX) (jobs_of lines.now)) }
    ensures fresh { IfOk result (λ queue. queue ≡ at_start (pending queue) [] []) }
{
    let mut jobs = jobs_of(alloc, lines)?;
    jobs.truncate(most.min(JOBS_MAX));
    first_jobs(alloc, jobs.as_slice(), jobs.len())
}

/// Returns the jobs of these lines.
fn jobs_of<A: Allocator>(alloc: A, lines: &[OpenLine]) -> Result<Vec<Job, A>, AllocError>
    ensures { IfOk result (λ jobs. jobs.items ≡ jobs_of lines.now) }
{
    let mut jobs = Vec::new(alloc);
    for line in lines {
        if let Some(job) = line.job {
            jobs.push(job)?;
        }
    }
    Ok(jobs)
}
