//! The status of an end's folder, in lines for a person.
ghost use Rattle.std.specs.Prelude.{◌≡◌, ◌∷◌, [], ◌++◌, IfOk, OnOk, string_bytes};
ghost use Rattle.std.specs.Option.{option_map};
ghost use Rattle.uug_store.specs.JobsText.{job_words};
ghost use Rattle.uug_io_pending.specs.LastSession.{shown_entry, shown_last, told_in};
ghost use Rattle.uug_io_pending.specs.StatusText.{age_words, count_words, entry_line, failed_line, failed_lines, file_words, held_line, held_lines, last_lines};
ghost use Rattle.uug_io_pending.specs.StatusText.{mark_line, moment_words, pending_line, pending_lines, session_words, span_words, status_text, told_line, told_lines, why_words};
ghost use Rattle.uug_talk.specs.Lines.{lines};
ghost use Rattle.uug_talk.specs.Words.{joined};

use crate::failed_job::FailedJob;
use crate::last_session::{LastSession, LogEntry, told_in};
use crate::pending_job::PendingJob;
use std::alloc::{AllocError, Allocator};
use uug_error_text::add_escaped;
use uug_io_disk::{HeldFile, SeenFile};
use uug_session::Job;
use uug_talk::{Name, split_line};

const MINUTE: u64 = 60;

const HOUR: u64 = 3_600;

const DAY: u64 = 86_400;

/// Returns the status of a folder, a line for each fact: the numbers of pending jobs, held files and failed jobs; the
/// age of the mark of a session that is not over; the last session in the log; and each of these jobs and files.
pub fn status_text<A: Allocator>(
    alloc: A,
    session: &Option<SeenFile>,
    last: &Option<LastSession<'_>>,
    pending: &[PendingJob],
    held: &[HeldFile],
    failed: &[FailedJob<'_>],
) -> Result<String<A>, AllocError>
    ensures { IfOk result (λ text. string_bytes text
        ≡ status_text session.now (option_map shown_last last.now) pending.now held.now failed.now) }
{
    let mut text = String::new(alloc);
    add_counts(&mut text, pending.len(), held.len(), failed.len())?;
    add_session(&mut text, session)?;
    add_last(&mut text, last)?;
    add_pending_lines(&mut text, pending)?;
    add_held_lines(&mut text, held)?;
    add_failed_lines(&mut text, failed)?;
    Ok(text)
}

/// Appends the numbers of pending jobs, held files and failed jobs.
fn add_counts<A: Allocator>(
    text: &mut String<A>,
    pending: usize,
    held: usize,
    failed: usize,
) -> Result<(), AllocError>
    ensures { OnOk result (string_bytes text.new
        ≡ string_bytes text.old ++ count_words pending held failed) }
{
    write!(text, "{pending} pending, {held} held, {failed} failed\n")
}

/// Appends a line that a session is not over, if its mark is there.
fn add_session<A: Allocator>(
    text: &mut String<A>,
    session: &Option<SeenFile>,
) -> Result<(), AllocError>
    ensures { OnOk result
        (string_bytes text.new ≡ string_bytes text.old ++ session_words session.now) }
{
    let Some(mark) = session else {
        return Ok(());
    };
    add_mark(text, "session not over: its mark is there", mark.age)
}

/// Appends a line with these words, and the age of a mark.
fn add_mark<A: Allocator>(
    text: &mut String<A>,
    words: &str,
    age: Option<u64>,
) -> Result<(), AllocError>
    ensures { OnOk result
        (string_bytes text.new ≡ string_bytes text.old ++ mark_line words.now age) }
{
    text.push_str(words)?;
    add_age(text, age)?;
    text.push_str("\n")
}

/// Appends the lines of the last session in the log, if there is one: its start, and what the log says of its end.
fn add_last<A: Allocator>(
    text: &mut String<A>,
    last: &Option<LastSession<'_>>,
) -> Result<(), AllocError>
    ensures { OnOk result (string_bytes text.new
        ≡ string_bytes text.old ++ last_lines (option_map shown_last last.now)) }
{
    let Some(last) = last else {
        return Ok(());
    };
    add_entry(text, &last.start)?;
    add_behind(text, last.start.process, last.behind)
}

/// Appends a line for each of these lines of a log that reports how a session of this process ended.
fn add_behind<A: Allocator>(
    text: &mut String<A>,
    process: &[u8],
    log: &[u8],
) -> Result<(), AllocError>
    ensures { OnOk result (string_bytes text.new
        ≡ string_bytes text.old ++ told_lines process.now (lines log.now)) }
{
    let mut rest = log;
    while let Some((line, behind)) = split_line(rest) {
        add_told(text, process, line)?;
        rest = behind;
    }
    Ok(())
}

/// Appends a line for this line of a log, if it reports how a session of this process ended.
fn add_told<A: Allocator>(
    text: &mut String<A>,
    process: &[u8],
    line: &[u8],
) -> Result<(), AllocError>
    ensures { OnOk result (string_bytes text.new
        ≡ string_bytes text.old ++ told_line (told_in process.now line.now)) }
{
    match told_in(process, line) {
        Some(entry) => add_entry(text, &entry),
        None => Ok(()),
    }
}

/// Appends the line of an entry of a log.
fn add_entry<A: Allocator>(text: &mut String<A>, entry: &LogEntry<'_>) -> Result<(), AllocError>
    ensures { OnOk result
        (string_bytes text.new ≡ string_bytes text.old ++ entry_line (shown_entry entry.now)) }
{
    text.push_str("session ")?;
    add_escaped(text, entry.system)?;
    add_moment(text, entry)?;
    text.push_str(": ")?;
    add_escaped(text, entry.text)?;
    text.push_str("\n")
}

/// Appends the date and the time of an entry.
fn add_moment<A: Allocator>(text: &mut String<A>, entry: &LogEntry<'_>) -> Result<(), AllocError>
    ensures { OnOk result
        (string_bytes text.new ≡ string_bytes text.old ++ moment_words (shown_entry entry.now)) }
{
    text.push_str(" ")?;
    add_escaped(text, entry.date)?;
    text.push_str(" ")?;
    add_escaped(text, entry.time)
}

/// Appends the lines of the pending jobs.
fn add_pending_lines<A: Allocator>(
    text: &mut String<A>,
    pending: &[PendingJob],
) -> Result<(), AllocError>
    ensures { OnOk result
        (string_bytes text.new ≡ string_bytes text.old ++ pending_lines pending.now) }
{
    for job in pending {
        add_pending_line(text, job)?;
    }
    Ok(())
}

/// Appends the line of a pending job.
fn add_pending_line<A: Allocator>(
    text: &mut String<A>,
    pending: &PendingJob,
) -> Result<(), AllocError>
    ensures { OnOk result
        (string_bytes text.new ≡ string_bytes text.old ++ pending_line pending.now) }
{
    text.push_str("pending ")?;
    add_job(text, &pending.job)?;
    add_file(text, &pending.job, &pending.file)?;
    text.push_str("\n")
}

/// Appends the words of a job.
fn add_job<A: Allocator>(text: &mut String<A>, job: &Job) -> Result<(), AllocError>
    ensures { OnOk result
        (string_bytes text.new ≡ string_bytes text.old ++ joined (job_words job.now)) }
{
    match job {
        Job::Send {
            source,
            target,
            user,
            ..
        } => add_words(text, "send", source, target, user),
        Job::Request {
            source,
            target,
            user,
        } => add_words(text, "request", source, target, user),
    }
}

/// Appends these words, separated by spaces.
fn add_words<A: Allocator>(
    text: &mut String<A>,
    first: &str,
    source: &Name,
    target: &Name,
    user: &Name,
) -> Result<(), AllocError>
    ensures { OnOk result (string_bytes text.new ≡ string_bytes text.old
        ++ joined (first.now ∷ source.now ∷ target.now ∷ user.now ∷ [])) }
{
    let source = source.as_str();
    let target = target.as_str();
    let user = user.as_str();
    write!(text, "{first} {source} {target} {user}")
}

/// Appends the size and the age of the file of a job that sends one, or that there is no file.
fn add_file<A: Allocator>(
    text: &mut String<A>,
    job: &Job,
    file: &Option<SeenFile>,
) -> Result<(), AllocError>
    ensures { OnOk result
        (string_bytes text.new ≡ string_bytes text.old ++ file_words job.now file.now) }
{
    match (job, file) {
        (Job::Request { .. }, _) => Ok(()),
        (Job::Send { .. }, None) => text.push_str(": no file"),
        (Job::Send { .. }, Some(file)) => {
            let size = file.size;
            write!(text, ": {size} bytes")?;
            add_age(text, file.age)
        }
    }
}

/// Appends an age, if it is known.
fn add_age<A: Allocator>(text: &mut String<A>, age: Option<u64>) -> Result<(), AllocError>
    ensures { OnOk result (string_bytes text.new ≡ string_bytes text.old ++ age_words age) }
{
    let Some(seconds) = age else {
        return Ok(());
    };
    text.push_str(", ")?;
    add_span(text, seconds)?;
    text.push_str(" old")
}

/// Appends a span of time, in the largest unit of which it has at least one.
fn add_span<A: Allocator>(text: &mut String<A>, seconds: u64) -> Result<(), AllocError>
    ensures { OnOk result
        (string_bytes text.new ≡ string_bytes text.old ++ span_words seconds) }
{
    if seconds < MINUTE {
        return write!(text, "{seconds} s");
    }
    if seconds < HOUR {
        let minutes = seconds / MINUTE;
        return write!(text, "{minutes} min");
    }
    if seconds < DAY {
        let hours = seconds / HOUR;
        return write!(text, "{hours} h");
    }
    let days = seconds / DAY;
    write!(text, "{days} d")
}

/// Appends the lines of the held files.
fn add_held_lines<A: Allocator>(text: &mut String<A>, held: &[HeldFile]) -> Result<(), AllocError>
    ensures { OnOk result
        (string_bytes text.new ≡ string_bytes text.old ++ held_lines held.now) }
{
    for file in held {
        add_held_line(text, file)?;
    }
    Ok(())
}

/// Appends the line of a held file.
fn add_held_line<A: Allocator>(text: &mut String<A>, file: &HeldFile) -> Result<(), AllocError>
    ensures { OnOk result
        (string_bytes text.new ≡ string_bytes text.old ++ held_line file.now) }
{
    let name = file.name.as_str();
    let count = file.held.size;
    let whole = file.whole;
    write!(text, "held {name}: {count} of {whole} bytes")?;
    add_age(text, file.held.age)?;
    text.push_str("\n")
}

/// Appends the lines of the failed jobs.
fn add_failed_lines<A: Allocator>(
    text: &mut String<A>,
    failed: &[FailedJob<'_>],
) -> Result<(), AllocError>
    ensures { OnOk result
        (string_bytes text.new ≡ string_bytes text.old ++ failed_lines failed.now) }
{
    for job in failed {
        add_failed_line(text, job)?;
    }
    Ok(())
}

/// Appends the line of a failed job.
fn add_failed_line<A: Allocator>(
    text: &mut String<A>,
    failed: &FailedJob<'_>,
) -> Result<(), AllocError>
    ensures { OnOk result
        (string_bytes text.new ≡ string_bytes text.old ++ failed_line failed.now) }
{
    text.push_str("failed ")?;
    add_job(text, &failed.job)?;
    add_why(text, failed.why)?;
    text.push_str("\n")
}

/// Appends why a job failed, if a reason is given.
fn add_why<A: Allocator>(text: &mut String<A>, why: &[u8]) -> Result<(), AllocError>
    ensures { OnOk result
        (string_bytes text.new ≡ string_bytes text.old ++ why_words why.now) }
{
    if why.is_empty() {
        return Ok(());
    }
    text.push_str(": ")?;
    add_escaped(text, why)
}
