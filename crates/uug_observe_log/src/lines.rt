//! The lines of an end's log.
ghost use Rattle.std.specs.Prelude.{◌≡◌, IfOk, string_bytes};
ghost use Rattle.uug_observe_log.specs.Logged.{end_text, is_sent, job_entry, resumed_entry, start_entry, unfinished};
ghost use Rattle.uug_scan.specs.Detailed.{escaped};
ghost use Rattle.uug_taylor_text.specs.LogLines.{fault as fault_entry, log_line, over as over_entry};
ghost use Rattle.uug_taylor_text.specs.ShownLines.{shown_head};

use crate::news_lines::{outcome_word, wish_word};
use crate::transfer::{Outcome, Transfer, Wish};
use crate::way::Way;
use std::alloc::{AllocError, Allocator};
use uug_conversation::Side;
use uug_error_text::add_escaped;
use uug_taylor_text::{LogEvent, LogHead, log_line};

/// Returns the line for the start of a session: the system is called, or has called, over the line of this name.
pub fn start_line<A: Allocator + Copy>(
    alloc: A,
    head: &LogHead<'_>,
    side: Side,
    line: &str,
) -> Result<Vec<u8, A>, AllocError>
    ensures { IfOk result (λ made. made.items
        ≡ log_line (shown_head head.now) (start_entry side line.now)) }
{
    let port = escaped(alloc, line.as_bytes())?;
    let event = match side {
        Side::Caller => LogEvent::Calls(port.as_bytes()),
        Side::Called => LogEvent::Called(b"-", port.as_bytes()),
    };
    log_line(alloc, head, &event)
}

/// Returns the line for the end of a job. It gives the file that was sent or received, and its bytes, or else the
/// reason why it was not.
pub fn job_line<A: Allocator + Copy>(
    alloc: A,
    head: &LogHead<'_>,
    job: &Transfer,
    outcome: Outcome,
    bytes: u64,
) -> Result<Vec<u8, A>, AllocError>
    ensures { IfOk result (λ made. made.items
        ≡ log_line (shown_head head.now) (job_entry job.now outcome bytes)) }
{
    match outcome {
        Outcome::Done => done_line(alloc, head, job, bytes),
        Outcome::Never | Outcome::TooLarge | Outcome::Later | Outcome::Differs => {
            let text = unfinished(alloc, job, outcome)?;
            log_line(alloc, head, &LogEvent::Fault(text.as_bytes()))
        }
    }
}

/// Returns the line of a job that is done.
fn done_line<A: Allocator + Copy>(
    alloc: A,
    head: &LogHead<'_>,
    job: &Transfer,
    bytes: u64,
) -> Result<Vec<u8, A>, AllocError>
    ensures { IfOk result (λ made. made.items
        ≡ log_line (shown_head head.now) (job_entry job.now Outcome.Done bytes)) }
{
    if is_sent(job) {
        let file = escaped(alloc, job.source.as_bytes())?;
        log_line(alloc, head, &LogEvent::Sends(file.as_bytes(), bytes))
    } else {
        let file = escaped(alloc, job.target.as_bytes())?;
        log_line(
            alloc,
            head,
            &LogEvent::Receives(file.as_bytes(), Some(bytes)),
        )
    }
}

/// Returns the line of a file that resumes at this position, with its whole size, if that was announced.
pub fn resumed_line<A: Allocator + Copy>(
    alloc: A,
    head: &LogHead<'_>,
    job: &Transfer,
    size: Option<u64>,
    position: u64,
) -> Result<Vec<u8, A>, AllocError>
    ensures { IfOk result (λ made. made.items
        ≡ log_line (shown_head head.now) (resumed_entry (is_sent job.now.way job.now.wish)
        job.now.source job.now.target size position)) }
{
    if is_sent(job) {
        let file = escaped(alloc, job.source.as_bytes())?;
        log_line(
            alloc,
            head,
            &LogEvent::SendsFrom(file.as_bytes(), size, position),
        )
    } else {
        let file = escaped(alloc, job.target.as_bytes())?;
        log_line(
            alloc,
            head,
            &LogEvent::ReceivesFrom(file.as_bytes(), size, position),
        )
    }
}

/// Returns whether the file of a job goes to the other end.
fn is_sent(job: &Transfer) -> bool
    ensures { result ≡ is_sent job.now.way job.now.wish }
{
    match (job.way, job.wish) {
        (Way::Out, Wish::Send) | (Way::In, Wish::Request) => true,
        _ => false,
    }
}

/// Returns the words for a job that is not done, and why.
fn unfinished<A: Allocator>(
    alloc: A,
    job: &Transfer,
    outcome: Outcome,
) -> Result<String<A>, AllocError>
    ensures { IfOk result (λ text. string_bytes text ≡ unfinished job.now outcome) }
{
    let mut text = String::new(alloc);
    text.push_str(wish_word(job.wish))?;
    text.push_str(" ")?;
    add_escaped(&mut text, job.source.as_bytes())?;
    text.push_str(" ")?;
    add_escaped(&mut text, job.target.as_bytes())?;
    text.push_str(": ")?;
    text.push_str(outcome_word(outcome))?;
    Ok(text)
}

/// Returns the line that reports a fault.
pub fn fault_line<A: Allocator + Copy>(
    alloc: A,
    head: &LogHead<'_>,
    text: &str,
) -> Result<Vec<u8, A>, AllocError>
    ensures { IfOk result (λ made. made.items
        ≡ log_line (shown_head head.now) (fault_entry text.now)) }
{
    log_line(alloc, head, &LogEvent::Fault(text.as_bytes()))
}

/// Returns the line for the end of a session, with its seconds and the bytes of the files transferred in it.
pub fn over_line<A: Allocator + Copy>(
    alloc: A,
    head: &LogHead<'_>,
    seconds: u64,
    bytes: u64,
) -> Result<Vec<u8, A>, AllocError>
    ensures { IfOk result (λ made. made.items
        ≡ log_line (shown_head head.now) (over_entry seconds bytes)) }
{
    log_line(alloc, head, &LogEvent::Over(seconds, bytes))
}

/// Returns the text of a session or a run that ended badly: the word for how, and the details, if there are any.
pub fn end_text<A: Allocator>(alloc: A, word: &str, said: &str) -> Result<String<A>, AllocError>
    ensures { IfOk result (λ text. string_bytes text ≡ end_text word.now said.now) }
{
    let mut text = String::from_str(alloc, word)?;
    if !said.is_empty() {
        text.push_str(": ")?;
        text.push_str(said)?;
    }
    Ok(text)
}

/// Returns a line of standard error without the program's name before it, and without its line feed.
pub fn words_of(line: &str) -> &str {
    let words = line.strip_prefix("uucpair: ").unwrap_or(line);
    words.strip_suffix('\n').unwrap_or(words)
}

/// Returns the bytes as a text in which those that can't be seen are written in hex.
fn escaped<A: Allocator>(alloc: A, bytes: &[u8]) -> Result<String<A>, AllocError>
    ensures { IfOk result (λ text. string_bytes text ≡ escaped bytes.now) }
{
    let mut text = String::new(alloc);
    add_escaped(&mut text, bytes)?;
    Ok(text)
}
