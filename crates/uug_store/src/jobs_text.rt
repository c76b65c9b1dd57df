//! Jobs as a text: one line a job.
ghost use Rattle.std.specs.Prelude.{◌≡◌, ◌∷◌, [], ◌++◌, OnOk, IfOk, IfErr, Ok, Some, string_bytes};
ghost use Rattle.uug_conversation.specs.Jobs.{at_start, pending};
ghost use Rattle.uug_talk.specs.Words.{words, joined};
ghost use Rattle.uug_talk.specs.Lines.{is_comment, ended};
ghost use Rattle.uug_store.specs.JobsText.{Faults, RefusesLine, one_job, with_line, job_of, job_line, job_said, jobs_of, jobs_text, line_added, says_of};

use std::alloc::{AllocError, Allocator};
use thiserror::Error;
use uug_session::{Job, Queue, QueueFault};
use uug_talk::{LINE_MAX, Name, split_line, split_word, three_words};

/// An error of reading jobs.
#[derive(Clone, Copy, Debug, PartialEq, Eq, Error)]
pub enum JobsFault {
    /// The first bad line, counted from 1.
    #[error("bad jobs at line {0}")]
    Bad(usize),
    /// Memory ran out.
    #[error("out of memory")]
    Memory,
}

/// Returns the job of a line, by its first word and the words after it.
fn read_job(first: &[u8], rest: &[u8]) -> Option<Job>
    ensures { result ≡ job_of first.now (words rest.now) }
{
    let (source, target, user) = three_words(rest)?;
    let source = Name::new(source).ok()?;
    let target = Name::new(target).ok()?;
    let user = Name::new(user).ok()?;
    if first == b"send".as_slice() {
        Some(Job::Send {
            source,
            target,
            user,
            temp: None,
        })
    } else if first == b"request".as_slice() {
        Some(Job::Request {
            source,
            target,
            user,
        })
    } else {
        None
    }
}

/// Returns whether a line with this first word is a comment.
fn is_comment(first: &[u8]) -> bool
    ensures { result ≡ is_comment first.now }
{
    first.starts_with(b"#")
}

/// Returns the job of a line, if the line is a job.
pub(crate) fn job_in(line: &[u8]) -> Option<Job>
    ensures { result ≡ job_said (says_of line.now) }
{
    if line.len() > LINE_MAX {
        return None;
    }
    let (first, rest) = split_word(line)?;
    if is_comment(first) {
        return None;
    }
    read_job(first, rest)
}

/// Adds the job of the line of this number. The line is bad if `JOBS_MAX` jobs are there already.
fn add_job<A: Allocator>(queue: &mut Queue<A>, number: usize, job: Job) -> Result<(), JobsFault>
    requires fresh { queue.old ≡ at_start queue.old.ahead [] [] }
    ensures fresh { OnOk result (queue.new ≡ at_start queue.new.ahead [] []) }
    ensures ok { OnOk result (with_line (one_job job) queue.old.ahead ≡ Some queue.new.ahead) }
    ensures fault { IfErr result (λ fault.
        RefusesLine number fault (with_line (one_job job) queue.old.ahead)) }
{
    match queue.add(job) {
        Ok(()) => Ok(()),
        Err(QueueFault::Full) => Err(JobsFault::Bad(number)),
        Err(QueueFault::Memory) => Err(JobsFault::Memory),
    }
}

/// Adds the job of the line of this number, if it has one.
fn add_line<A: Allocator>(queue: &mut Queue<A>, number: usize, line: &[u8]) -> Result<(), JobsFault>
    requires fresh { queue.old ≡ at_start queue.old.ahead [] [] }
    ensures fresh { OnOk result (queue.new ≡ at_start queue.new.ahead [] []) }
    ensures ok { OnOk result (line_added line.now queue.old.ahead ≡ Some queue.new.ahead) }
    ensures fault { IfErr result (λ fault.
        RefusesLine number fault (line_added line.now queue.old.ahead)) }
{
    if line.len() > LINE_MAX {
        return Err(JobsFault::Bad(number));
    }
    let Some((first, rest)) = split_word(line) else {
        return Ok(());
    };
    if is_comment(first) {
        return Ok(());
    }
    match read_job(first, rest) {
        Some(job) => add_job(queue, number, job),
        None => Err(JobsFault::Bad(number)),
    }
}

/// Reads a text of jobs, in order. A line is `send SOURCE TARGET USER` or `request SOURCE TARGET USER`. One or more
/// spaces separate its words; spaces at either end are dropped. Empty lines and lines that begin with `#` are skipped.
/// The error `Bad` has the number of the first line that is anything else, that has more than `LINE_MAX` bytes, or
/// whose job is one more than `JOBS_MAX`.
pub fn read_jobs<A: Allocator + Copy>(alloc: A, text: &[u8]) -> Result<Queue<A>, JobsFault>
    ensures exact { IfOk result (λ queue. jobs_of text.now ≡ Ok (pending queue)) }
    // All jobs are still to be offered, and none was done or given up.
    ensures fresh { IfOk result (λ queue. queue ≡ at_start (pending queue) [] []) }
    ensures exact_fault { IfErr result (λ fault. Faults fault (jobs_of text.now)) }
{
    // A text of this length leaves no memory for anything else, and the count of its lines could overflow.
    if text.len() == usize::MAX {
        return Err(JobsFault::Memory);
    }
    let mut queue = Queue::new(alloc);
    let mut rest = text;
    let mut number = 1;
    while let Some((line, behind)) = split_line(rest) {
        add_line(&mut queue, number, line)?;
        number += 1;
        rest = behind;
    }
    Ok(queue)
}

/// Appends the line of a job of these words.
fn add_words<A: Allocator>(
    text: &mut String<A>,
    first: &str,
    source: &Name,
    target: &Name,
    user: &Name,
) -> Result<(), AllocError>
    ensures { OnOk result (string_bytes text.new
        ≡ string_bytes text.old
        ++ ended (joined (first.now ∷ source.now ∷ target.now ∷ user.now ∷ []))) }
{
    let source = source.as_str();
    let target = target.as_str();
    let user = user.as_str();
    write!(text, "{first} {source} {target} {user}\n")
}

/// Appends the line of a job.
pub(crate) fn add_job_line<A: Allocator>(text: &mut String<A>, job: &Job) -> Result<(), AllocError>
    ensures { OnOk result (string_bytes text.new ≡ string_bytes text.old ++ job_line job.now) }
{
    match job {
        Job::Send {
            source,
            target,
            user,
            ..
        } => add_words(text, "send", source, target, user),
        Job::Request {
            source,
            target,
            user,
        } => add_words(text, "request", source, target, user),
    }
}

/// Returns the text of these jobs, one line a job, as `read_jobs` reads it. The name of a job's copy is left out, since
/// no text of jobs has one.
pub fn write_jobs<A: Allocator>(alloc: A, jobs: &[Job]) -> Result<String<A>, AllocError>
    ensures { IfOk result (λ text. string_bytes text ≡ jobs_text jobs.now) }
{
    let mut text = String::new(alloc);
    add_job_lines(&mut text, jobs)?;
    Ok(text)
}

/// Appends a line for each of these jobs.
fn add_job_lines<A: Allocator>(text: &mut String<A>, jobs: &[Job]) -> Result<(), AllocError>
    ensures { OnOk result (string_bytes text.new ≡ string_bytes text.old ++ jobs_text jobs.now) }
{
    for job in jobs {
        add_job_line(text, job)?;
    }
    Ok(())
}
