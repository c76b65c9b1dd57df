//! Reads a line of a script.
ghost use Rattle.std.specs.Prelude.{◌≡◌, MatchResult, Ok, Err};
ghost use Rattle.std.specs.Result.{result_err, result_ok};
ghost use Rattle.uug_talk.specs.Words.{words};
ghost use Rattle.uug_sim_script.specs.Complaints.{shown};
ghost use Rattle.uug_sim_script.specs.Meaning.{complaint_in, known, meaning_of, read_as};
ghost use Rattle.uug_sim_script.specs.ReadLine.{line_of, line_of_words, place_of, file_of, send_of, request_of, side_and_name, side_and_number, side_and_byte, one_side, call_of, flow_of, deny_of, later_of, immovable_of, number_line_of, quiet_of, short_of, lenient_of, digest_of, resume_of, limit_line_of, pass_of, drop_of, flip_of, insert_of, timeout_of, hang_up_of, event_by, line_by};

use crate::complaint::Complaint;
use crate::field::Field;
use crate::fields::spells;
use crate::mode::Mode;
use crate::taking::{
    announce_in, limit_in, mode_in, name_in, read_copy, take_byte, take_end, take_hex, take_number,
    take_side, take_window, take_word,
};
use uug_line::{Event, Side};
use uug_link::Announce;
use uug_session::{FileLimit, Job};
use uug_talk::{LINE_MAX, NUMBER_MAX, Name, split_word};

/// The most bytes that one event passes or drops.
pub const BYTES_MAX: u32 = 1_000_000_000;

/// The most turns of one `flow` line.
pub const TURNS_MAX: u32 = 100_000;

/// The statement of a line.
#[derive(Clone, Copy)]
pub(crate) enum Statement<'a> {
    /// A line without a word, or a comment.
    Nothing,
    /// A part of an end's set-up.
    End(Side, EndStatement<'a>),
    /// An event.
    Event(Event),
    /// The number of turns. In each, all bytes pass to the called end, and then all to the caller.
    Flow(u32),
}

/// A statement about an end's set-up.
#[derive(Clone, Copy)]
pub(crate) enum EndStatement<'a> {
    /// The name of the end, and its announcement.
    Place(Name, Announce),
    /// A file to give, with its bytes in hexadecimal digits as written.
    File(Name, Mode, &'a [u8]),
    /// A job.
    Job(Job),
    /// The name of a file that is never taken.
    Deny(Name),
    /// The name of a file that is not taken now.
    Later(Name),
    /// The name of a file that can't be put in its place.
    Immovable(Name),
    /// The number of its conversations.
    Number(u32),
    /// The end is quiet on repeats.
    Quiet,
    /// The end's commands are short.
    Short,
    /// The end refuses what it can't read, and goes on.
    Lenient,
    /// The end announces digests of its files, and compares those that it receives.
    Digest,
    /// The end does so, and resumes files that were cut off.
    Resume,
    /// The bytes of the greatest file that the end sends or takes.
    Limit(FileLimit),
}

/// Reads `caller NAME WINDOW SIZE`, or the same of the called end.
fn read_place(side: Side, text: &[u8]) -> Result<Statement<'_>, Complaint<'_>>
    ensures { read_as result ≡ known (place_of side (words text.now)) }
{
    let (word, rest) = take_word(Field::Name, text)?;
    let name = name_in(word)?;
    let (window, rest) = take_window(rest)?;
    let (word, rest) = take_word(Field::Size, rest)?;
    let announce = announce_in(window, word)?;
    take_end(rest)?;
    Ok(Statement::End(side, EndStatement::Place(name, announce)))
}

/// Reads `file SIDE NAME MODE HEX`.
fn read_file(text: &[u8]) -> Result<Statement<'_>, Complaint<'_>>
    ensures { read_as result ≡ known (file_of (words text.now)) }
{
    let (side, rest) = take_side(text)?;
    let (word, rest) = take_word(Field::Name, rest)?;
    let name = name_in(word)?;
    let (word, rest) = take_word(Field::Mode, rest)?;
    let mode = mode_in(word)?;
    let (hex, rest) = take_hex(rest)?;
    take_end(rest)?;
    Ok(Statement::End(side, EndStatement::File(name, mode, hex)))
}

/// Reads `send SIDE SOURCE TARGET USER [TEMP]`.
fn read_send(text: &[u8]) -> Result<Statement<'_>, Complaint<'_>>
    ensures { read_as result ≡ known (send_of (words text.now)) }
{
    let (side, rest) = take_side(text)?;
    let (word, rest) = take_word(Field::Name, rest)?;
    let source = name_in(word)?;
    let (word, rest) = take_word(Field::Name, rest)?;
    let target = name_in(word)?;
    let (word, rest) = take_word(Field::Name, rest)?;
    let user = name_in(word)?;
    let temp = read_copy(rest)?;
    let job = Job::Send {
        source,
        target,
        user,
        temp,
    };
    Ok(Statement::End(side, EndStatement::Job(job)))
}

/// Reads `request SIDE SOURCE TARGET USER`.
fn read_request(text: &[u8]) -> Result<Statement<'_>, Complaint<'_>>
    ensures { read_as result ≡ known (request_of (words text.now)) }
{
    let (side, rest) = take_side(text)?;
    let (word, rest) = take_word(Field::Name, rest)?;
    let source = name_in(word)?;
    let (word, rest) = take_word(Field::Name, rest)?;
    let target = name_in(word)?;
    let (word, rest) = take_word(Field::Name, rest)?;
    let user = name_in(word)?;
    take_end(rest)?;
    let job = Job::Request {
        source,
        target,
        user,
    };
    Ok(Statement::End(side, EndStatement::Job(job)))
}

/// Reads a side and a name, and no more.
fn read_side_and_name(text: &[u8]) -> Result<(Side, Name), Complaint<'_>>
    ensures { MatchResult result (λ found. side_and_name (words text.now) ≡ Ok found)
        (λ fault. side_and_name (words text.now) ≡ Err (shown fault)) }
{
    let (side, rest) = take_side(text)?;
    let (word, rest) = take_word(Field::Name, rest)?;
    let name = name_in(word)?;
    take_end(rest)?;
    Ok((side, name))
}

/// Reads a side and a number that is at most `most`, and no more.
fn read_side_and_number(field: Field, most: u32, text: &[u8]) -> Result<(Side, u32), Complaint<'_>>
    ensures { MatchResult result (λ found. side_and_number field most (words text.now) ≡ Ok found)
        (λ fault. side_and_number field most (words text.now) ≡ Err (shown fault)) }
{
    let (side, rest) = take_side(text)?;
    let (number, rest) = take_number(field, most, rest)?;
    take_end(rest)?;
    Ok((side, number))
}

/// Reads a side and a byte, and no more.
fn read_side_and_byte(text: &[u8]) -> Result<(Side, u8), Complaint<'_>>
    ensures { MatchResult result (λ found. side_and_byte (words text.now) ≡ Ok found)
        (λ fault. side_and_byte (words text.now) ≡ Err (shown fault)) }
{
    let (side, rest) = take_side(text)?;
    let (byte, rest) = take_byte(rest)?;
    take_end(rest)?;
    Ok((side, byte))
}

/// Reads a side, and no more.
fn read_one_side(text: &[u8]) -> Result<Side, Complaint<'_>>
    ensures { MatchResult result (λ found. one_side (words text.now) ≡ Ok found)
        (λ fault. one_side (words text.now) ≡ Err (shown fault)) }
{
    let (side, rest) = take_side(text)?;
    take_end(rest)?;
    Ok(side)
}

/// Reads `call`.
fn read_call(text: &[u8]) -> Result<Statement<'_>, Complaint<'_>>
    ensures { read_as result ≡ known (call_of (words text.now)) }
{
    take_end(text)?;
    Ok(Statement::Event(Event::Call))
}

/// Reads `flow N`.
fn read_flow(text: &[u8]) -> Result<Statement<'_>, Complaint<'_>>
    ensures { read_as result ≡ known (flow_of (words text.now)) }
{
    let (turns, rest) = take_number(Field::Turns, TURNS_MAX, text)?;
    take_end(rest)?;
    Ok(Statement::Flow(turns))
}

/// Reads `deny SIDE NAME`.
fn read_deny(text: &[u8]) -> Result<Statement<'_>, Complaint<'_>>
    ensures { read_as result ≡ known (deny_of (words text.now)) }
{
    let (side, name) = read_side_and_name(text)?;
    Ok(Statement::End(side, EndStatement::Deny(name)))
}

/// Reads `later SIDE NAME`.
fn read_later(text: &[u8]) -> Result<Statement<'_>, Complaint<'_>>
    ensures { read_as result ≡ known (later_of (words text.now)) }
{
    let (side, name) = read_side_and_name(text)?;
    Ok(Statement::End(side, EndStatement::Later(name)))
}

/// Reads `immovable SIDE NAME`.
fn read_immovable(text: &[u8]) -> Result<Statement<'_>, Complaint<'_>>
    ensures { read_as result ≡ known (immovable_of (words text.now)) }
{
    let (side, name) = read_side_and_name(text)?;
    Ok(Statement::End(side, EndStatement::Immovable(name)))
}

/// Reads `number SIDE N`.
fn read_number_line(text: &[u8]) -> Result<Statement<'_>, Complaint<'_>>
    ensures { read_as result ≡ known (number_line_of (words text.now)) }
{
    let (side, number) = read_side_and_number(Field::Number, NUMBER_MAX, text)?;
    Ok(Statement::End(side, EndStatement::Number(number)))
}

/// Reads `quiet SIDE`.
fn read_quiet(text: &[u8]) -> Result<Statement<'_>, Complaint<'_>>
    ensures { read_as result ≡ known (quiet_of (words text.now)) }
{
    let side = read_one_side(text)?;
    Ok(Statement::End(side, EndStatement::Quiet))
}

/// Reads `short SIDE`.
fn read_short(text: &[u8]) -> Result<Statement<'_>, Complaint<'_>>
    ensures { read_as result ≡ known (short_of (words text.now)) }
{
    let side = read_one_side(text)?;
    Ok(Statement::End(side, EndStatement::Short))
}

/// Reads `lenient SIDE`.
fn read_lenient(text: &[u8]) -> Result<Statement<'_>, Complaint<'_>>
    ensures { read_as result ≡ known (lenient_of (words text.now)) }
{
    let side = read_one_side(text)?;
    Ok(Statement::End(side, EndStatement::Lenient))
}

/// Reads `digest SIDE`.
fn read_digest(text: &[u8]) -> Result<Statement<'_>, Complaint<'_>>
    ensures { read_as result ≡ known (digest_of (words text.now)) }
{
    let side = read_one_side(text)?;
    Ok(Statement::End(side, EndStatement::Digest))
}

/// Reads `resume SIDE`.
fn read_resume(text: &[u8]) -> Result<Statement<'_>, Complaint<'_>>
    ensures { read_as result ≡ known (resume_of (words text.now)) }
{
    let side = read_one_side(text)?;
    Ok(Statement::End(side, EndStatement::Resume))
}

/// Reads `limit SIDE N`.
fn read_limit_line(text: &[u8]) -> Result<Statement<'_>, Complaint<'_>>
    ensures { read_as result ≡ known (limit_line_of (words text.now)) }
{
    let (side, rest) = take_side(text)?;
    let (word, rest) = take_word(Field::Limit, rest)?;
    let limit = limit_in(word)?;
    take_end(rest)?;
    Ok(Statement::End(side, EndStatement::Limit(limit)))
}

/// Reads `pass SIDE N`.
fn read_pass(text: &[u8]) -> Result<Statement<'_>, Complaint<'_>>
    ensures { read_as result ≡ known (pass_of (words text.now)) }
{
    let (side, n) = read_side_and_number(Field::Count, BYTES_MAX, text)?;
    Ok(Statement::Event(Event::Pass { side, n }))
}

/// Reads `drop SIDE N`.
fn read_drop(text: &[u8]) -> Result<Statement<'_>, Complaint<'_>>
    ensures { read_as result ≡ known (drop_of (words text.now)) }
{
    let (side, n) = read_side_and_number(Field::Count, BYTES_MAX, text)?;
    Ok(Statement::Event(Event::Drop { side, n }))
}

/// Reads `flip SIDE HH`.
fn read_flip(text: &[u8]) -> Result<Statement<'_>, Complaint<'_>>
    ensures { read_as result ≡ known (flip_of (words text.now)) }
{
    let (side, mask) = read_side_and_byte(text)?;
    Ok(Statement::Event(Event::Flip { side, mask }))
}

/// Reads `insert SIDE HH`.
fn read_insert(text: &[u8]) -> Result<Statement<'_>, Complaint<'_>>
    ensures { read_as result ≡ known (insert_of (words text.now)) }
{
    let (side, byte) = read_side_and_byte(text)?;
    Ok(Statement::Event(Event::Insert { side, byte }))
}

/// Reads `timeout SIDE`.
fn read_timeout(text: &[u8]) -> Result<Statement<'_>, Complaint<'_>>
    ensures { read_as result ≡ known (timeout_of (words text.now)) }
{
    let side = read_one_side(text)?;
    Ok(Statement::Event(Event::Timeout { side }))
}

/// Reads `hangup SIDE`.
fn read_hang_up(text: &[u8]) -> Result<Statement<'_>, Complaint<'_>>
    ensures { read_as result ≡ known (hang_up_of (words text.now)) }
{
    let side = read_one_side(text)?;
    Ok(Statement::Event(Event::HangUp { side }))
}

/// Reads a line of an end's set-up or of an event, by its first word.
fn read_by<'a>(first: &'a [u8], rest: &'a [u8]) -> Result<Statement<'a>, Complaint<'a>>
    ensures { read_as result ≡ known (line_by first.now (words rest.now)) }
{
    if spells(first, b"caller") {
        read_place(Side::Caller, rest)
    } else if spells(first, b"called") {
        read_place(Side::Called, rest)
    } else if spells(first, b"file") {
        read_file(rest)
    } else if spells(first, b"send") {
        read_send(rest)
    } else if spells(first, b"request") {
        read_request(rest)
    } else if spells(first, b"deny") {
        read_deny(rest)
    } else if spells(first, b"later") {
        read_later(rest)
    } else if spells(first, b"immovable") {
        read_immovable(rest)
    } else if spells(first, b"number") {
        read_number_line(rest)
    } else if spells(first, b"quiet") {
        read_quiet(rest)
    } else if spells(first, b"short") {
        read_short(rest)
    } else if spells(first, b"lenient") {
        read_lenient(rest)
    } else if spells(first, b"digest") {
        read_digest(rest)
    } else if spells(first, b"resume") {
        read_resume(rest)
    } else if spells(first, b"limit") {
        read_limit_line(rest)
    } else {
        read_event(first, rest)
    }
}

/// Reads a line of an event, by its first word.
fn read_event<'a>(first: &'a [u8], rest: &'a [u8]) -> Result<Statement<'a>, Complaint<'a>>
    ensures { read_as result ≡ known (event_by first.now (words rest.now)) }
{
    if spells(first, b"pass") {
        read_pass(rest)
    } else if spells(first, b"drop") {
        read_drop(rest)
    } else if spells(first, b"flip") {
        read_flip(rest)
    } else if spells(first, b"insert") {
        read_insert(rest)
    } else if spells(first, b"timeout") {
        read_timeout(rest)
    } else if spells(first, b"hangup") {
        read_hang_up(rest)
    } else if spells(first, b"call") {
        read_call(rest)
    } else if spells(first, b"flow") {
        read_flow(rest)
    } else {
        Err(Complaint::Unknown(first))
    }
}

/// Reads the words of a line. A line without words, or a comment, is no statement.
fn read_words(line: &[u8]) -> Result<Statement<'_>, Complaint<'_>>
    ensures { read_as result ≡ known (line_of_words (words line.now)) }
{
    let Some((first, rest)) = split_word(line) else {
        return Ok(Statement::Nothing);
    };
    if first.starts_with(b"#") {
        return Ok(Statement::Nothing);
    }
    read_by(first, rest)
}

/// Reads a line. Returns the first error in a bad one.
pub(crate) fn read_line(line: &[u8]) -> Result<Statement<'_>, Complaint<'_>>
    ensures said { meaning_of result ≡ result_ok (line_of line.now) }
    ensures wrong { complaint_in result ≡ result_err (line_of line.now) }
{
    if line.len() > LINE_MAX {
        return Err(Complaint::TooLong);
    }
    read_words(line)
}
