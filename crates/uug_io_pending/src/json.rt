//! The status of an end's folder, as JSON.
ghost use Rattle.std.specs.Prelude.{◌≡◌, ◌++◌, IfOk, OnOk, Some, string_bytes};
ghost use Rattle.std.specs.Option.{option_map};
ghost use Rattle.uug_io_pending.specs.LastSession.{shown_entry, shown_last, told_in};
ghost use Rattle.uug_io_pending.specs.StatusJson.{age_of, byte_words, bytes_words, entry_object, failed_items, failed_object, failed_rest, file_members, held_items, held_object, held_rest, job_members, last_items, members, moment_members, number_words, pending_items, pending_object, pending_rest, session_words, size_of, status_json, text_words, told_item, told_rest};
ghost use Rattle.uug_scan.specs.Detailed.{is_plain};
ghost use Rattle.uug_talk.specs.Lines.{lines};

use crate::failed_job::FailedJob;
use crate::last_session::{LastSession, LogEntry, told_in};
use crate::pending_job::PendingJob;
use std::alloc::{AllocError, Allocator};
use uug_io_disk::{HeldFile, SeenFile};
use uug_scan::add_byte;
use uug_session::Job;
use uug_talk::{Name, split_line};

/// Returns the status of a folder as a JSON object on one line, with the facts of `status_text`. In a string, a byte
/// that is no printing character becomes `\xNN`, as in `status_text`.
pub fn status_json<A: Allocator>(
    alloc: A,
    session: &Option<SeenFile>,
    last: &Option<LastSession<'_>>,
    pending: &[PendingJob],
    held: &[HeldFile],
    failed: &[FailedJob<'_>],
) -> Result<String<A>, AllocError>
    ensures { IfOk result (λ text. string_bytes text
        ≡ status_json session.now (option_map shown_last last.now) pending.now held.now failed.now) }
{
    let mut text = String::from_str(alloc, "{\"session\":")?;
    add_session(&mut text, session)?;
    text.push_str(",\"log\":[")?;
    add_last(&mut text, last)?;
    text.push_str("],\"pending\":[")?;
    add_pending(&mut text, pending)?;
    text.push_str("],\"held\":[")?;
    add_held(&mut text, held)?;
    text.push_str("],\"failed\":[")?;
    add_failed(&mut text, failed)?;
    text.push_str("]}\n")?;
    Ok(text)
}

/// Appends the mark of a session that is not over, or `null` if there is none.
fn add_session<A: Allocator>(
    text: &mut String<A>,
    session: &Option<SeenFile>,
) -> Result<(), AllocError>
    ensures { OnOk result
        (string_bytes text.new ≡ string_bytes text.old ++ session_words session.now) }
{
    let Some(mark) = session else {
        return text.push_str("null");
    };
    text.push_str("{\"age\":")?;
    add_number(text, mark.age)?;
    text.push_str("}")
}

/// Appends the entries of the last session in the log, if there is one.
fn add_last<A: Allocator>(
    text: &mut String<A>,
    last: &Option<LastSession<'_>>,
) -> Result<(), AllocError>
    ensures { OnOk result (string_bytes text.new
        ≡ string_bytes text.old ++ last_items (option_map shown_last last.now)) }
{
    let Some(last) = last else {
        return Ok(());
    };
    add_entry(text, &last.start)?;
    add_behind(text, last.start.process, last.behind)
}

/// Appends the entries of these lines of a log that report how a session of this process ended.
fn add_behind<A: Allocator>(
    text: &mut String<A>,
    process: &[u8],
    log: &[u8],
) -> Result<(), AllocError>
    ensures { OnOk result (string_bytes text.new
        ≡ string_bytes text.old ++ told_rest process.now (lines log.now)) }
{
    let mut rest = log;
    while let Some((line, behind)) = split_line(rest) {
        add_told(text, process, line)?;
        rest = behind;
    }
    Ok(())
}

/// Appends the entry of a line of a log, if it reports how a session of this process ended.
fn add_told<A: Allocator>(
    text: &mut String<A>,
    process: &[u8],
    line: &[u8],
) -> Result<(), AllocError>
    ensures { OnOk result (string_bytes text.new
        ≡ string_bytes text.old ++ told_item (told_in process.now line.now)) }
{
    match told_in(process, line) {
        Some(entry) => { add_item(text, &entry) }
        None => Ok(()),
    }
}

/// Appends an entry after another one.
fn add_item<A: Allocator>(text: &mut String<A>, entry: &LogEntry<'_>) -> Result<(), AllocError>
    ensures { OnOk result (string_bytes text.new
        ≡ string_bytes text.old ++ told_item (Some (shown_entry entry.now))) }
{
    text.push_str(",")?;
    add_entry(text, entry)
}

/// Appends an entry of a log.
fn add_entry<A: Allocator>(text: &mut String<A>, entry: &LogEntry<'_>) -> Result<(), AllocError>
    ensures { OnOk result
        (string_bytes text.new ≡ string_bytes text.old ++ entry_object (shown_entry entry.now)) }
{
    text.push_str("{\"system\":")?;
    add_text(text, entry.system)?;
    add_moment(text, entry)?;
    text.push_str(",\"text\":")?;
    add_text(text, entry.text)?;
    text.push_str("}")
}

/// Appends the members for the date and the time of an entry.
fn add_moment<A: Allocator>(text: &mut String<A>, entry: &LogEntry<'_>) -> Result<(), AllocError>
    ensures { OnOk result (string_bytes text.new
        ≡ string_bytes text.old ++ moment_members (shown_entry entry.now)) }
{
    text.push_str(",\"date\":")?;
    add_text(text, entry.date)?;
    text.push_str(",\"time\":")?;
    add_text(text, entry.time)
}

/// Appends the pending jobs.
fn add_pending<A: Allocator>(text: &mut String<A>, pending: &[PendingJob]) -> Result<(), AllocError>
    ensures { OnOk result
        (string_bytes text.new ≡ string_bytes text.old ++ pending_items pending.now) }
{
    let Some((first, more)) = pending.split_first() else {
        return Ok(());
    };
    add_pending_job(text, first)?;
    add_pending_rest(text, more)
}

/// Appends the pending jobs after the first one.
fn add_pending_rest<A: Allocator>(
    text: &mut String<A>,
    more: &[PendingJob],
) -> Result<(), AllocError>
    ensures { OnOk result
        (string_bytes text.new ≡ string_bytes text.old ++ pending_rest more.now) }
{
    for job in more {
        text.push_str(",")?;
        add_pending_job(text, job)?;
    }
    Ok(())
}

/// Appends a pending job.
fn add_pending_job<A: Allocator>(
    text: &mut String<A>,
    pending: &PendingJob,
) -> Result<(), AllocError>
    ensures { OnOk result
        (string_bytes text.new ≡ string_bytes text.old ++ pending_object pending.now) }
{
    text.push_str("{")?;
    add_job(text, &pending.job)?;
    add_file(text, &pending.file)?;
    text.push_str("}")
}

/// Appends the members for the file of a job.
fn add_file<A: Allocator>(text: &mut String<A>, file: &Option<SeenFile>) -> Result<(), AllocError>
    ensures { OnOk result
        (string_bytes text.new ≡ string_bytes text.old ++ file_members file.now) }
{
    text.push_str(",\"bytes\":")?;
    add_number(text, size_of(file))?;
    text.push_str(",\"age\":")?;
    add_number(text, age_of(file))
}

/// Returns the size of a file, if there is one.
fn size_of(file: &Option<SeenFile>) -> Option<u64>
    ensures { result ≡ size_of file.now }
{
    match file {
        Some(file) => Some(file.size),
        None => None,
    }
}

/// Returns the age of a file, if there is one and its age is known.
fn age_of(file: &Option<SeenFile>) -> Option<u64>
    ensures { result ≡ age_of file.now }
{
    match file {
        Some(file) => file.age,
        None => None,
    }
}

/// Appends a number, or `null` if there is none.
fn add_number<A: Allocator>(text: &mut String<A>, number: Option<u64>) -> Result<(), AllocError>
    ensures { OnOk result
        (string_bytes text.new ≡ string_bytes text.old ++ number_words number) }
{
    match number {
        Some(number) => write!(text, "{number}"),
        None => text.push_str("null"),
    }
}

/// Appends the members for a job.
fn add_job<A: Allocator>(text: &mut String<A>, job: &Job) -> Result<(), AllocError>
    ensures { OnOk result
        (string_bytes text.new ≡ string_bytes text.old ++ job_members job.now) }
{
    match job {
        Job::Send {
            source,
            target,
            user,
            ..
        } => add_members(text, "send", source, target, user),
        Job::Request {
            source,
            target,
            user,
        } => add_members(text, "request", source, target, user),
    }
}

/// Appends the members for a job of this kind.
fn add_members<A: Allocator>(
    text: &mut String<A>,
    kind: &str,
    source: &Name,
    target: &Name,
    user: &Name,
) -> Result<(), AllocError>
    ensures { OnOk result (string_bytes text.new
        ≡ string_bytes text.old ++ members kind.now source.now target.now user.now) }
{
    write!(text, "\"kind\":\"{kind}\",\"source\":")?;
    add_text(text, source.as_bytes())?;
    text.push_str(",\"target\":")?;
    add_text(text, target.as_bytes())?;
    text.push_str(",\"user\":")?;
    add_text(text, user.as_bytes())
}

/// Appends these bytes as a string.
fn add_text<A: Allocator>(text: &mut String<A>, bytes: &[u8]) -> Result<(), AllocError>
    ensures { OnOk result
        (string_bytes text.new ≡ string_bytes text.old ++ text_words bytes.now) }
{
    text.push_str("\"")?;
    add_bytes(text, bytes)?;
    text.push_str("\"")
}

/// Appends these bytes inside a string.
fn add_bytes<A: Allocator>(text: &mut String<A>, bytes: &[u8]) -> Result<(), AllocError>
    ensures { OnOk result
        (string_bytes text.new ≡ string_bytes text.old ++ bytes_words bytes.now) }
{
    for byte in bytes {
        add_one(text, *byte)?;
    }
    Ok(())
}

/// Appends a byte inside a string. A quotation mark gets a backslash before it. A backslash, or a byte that is no
/// printing character, is written in hex after a backslash, which JSON writes twice.
fn add_one<A: Allocator>(text: &mut String<A>, byte: u8) -> Result<(), AllocError>
    ensures { OnOk result
        (string_bytes text.new ≡ string_bytes text.old ++ byte_words byte) }
{
    if byte == b'"' {
        text.push_str("\\\"")
    } else if is_plain(byte) {
        add_byte(text, byte, true)
    } else {
        text.push_str("\\")?;
        add_byte(text, byte, false)
    }
}

/// Returns whether a byte that is not a quotation mark is written as it is.
fn is_plain(byte: u8) -> bool
    ensures { result ≡ is_plain byte }
{
    (byte.is_ascii_graphic() || byte == b' ') && byte != b'\\'
}

/// Appends the held files.
fn add_held<A: Allocator>(text: &mut String<A>, held: &[HeldFile]) -> Result<(), AllocError>
    ensures { OnOk result
        (string_bytes text.new ≡ string_bytes text.old ++ held_items held.now) }
{
    let Some((first, more)) = held.split_first() else {
        return Ok(());
    };
    add_held_file(text, first)?;
    add_held_rest(text, more)
}

/// Appends the held files after the first one.
fn add_held_rest<A: Allocator>(text: &mut String<A>, more: &[HeldFile]) -> Result<(), AllocError>
    ensures { OnOk result
        (string_bytes text.new ≡ string_bytes text.old ++ held_rest more.now) }
{
    for file in more {
        text.push_str(",")?;
        add_held_file(text, file)?;
    }
    Ok(())
}

/// Appends a held file.
fn add_held_file<A: Allocator>(text: &mut String<A>, file: &HeldFile) -> Result<(), AllocError>
    ensures { OnOk result
        (string_bytes text.new ≡ string_bytes text.old ++ held_object file.now) }
{
    let count = file.held.size;
    let whole = file.whole;
    text.push_str("{\"name\":")?;
    add_text(text, file.name.as_bytes())?;
    write!(text, ",\"bytes\":{count},\"whole\":{whole},\"age\":")?;
    add_number(text, file.held.age)?;
    text.push_str("}")
}

/// Appends the failed jobs.
fn add_failed<A: Allocator>(
    text: &mut String<A>,
    failed: &[FailedJob<'_>],
) -> Result<(), AllocError>
    ensures { OnOk result
        (string_bytes text.new ≡ string_bytes text.old ++ failed_items failed.now) }
{
    let Some((first, more)) = failed.split_first() else {
        return Ok(());
    };
    add_failed_job(text, first)?;
    add_failed_rest(text, more)
}

/// Appends the failed jobs after the first one.
fn add_failed_rest<A: Allocator>(
    text: &mut String<A>,
    more: &[FailedJob<'_>],
) -> Result<(), AllocError>
    ensures { OnOk result
        (string_bytes text.new ≡ string_bytes text.old ++ failed_rest more.now) }
{
    for job in more {
        text.push_str(",")?;
        add_failed_job(text, job)?;
    }
    Ok(())
}

/// Appends a failed job.
fn add_failed_job<A: Allocator>(
    text: &mut String<A>,
    failed: &FailedJob<'_>,
) -> Result<(), AllocError>
    ensures { OnOk result
        (string_bytes text.new ≡ string_bytes text.old ++ failed_object failed.now) }
{
    text.push_str("{")?;
    add_job(text, &failed.job)?;
    text.push_str(",\"why\":")?;
    add_text(text, failed.why)?;
    text.push_str("}")
}
