//! The words for what is wrong with a line of jobs.
ghost use Rattle.std.specs.Prelude.{◌≡◌, ◌++◌, IfOk, OnOk, Some, string_bytes, take};
ghost use Rattle.std.specs.Option.{option_copied};
ghost use Rattle.uug_error_text.specs.JobsWords.{behind_words, jobs_line, jobs_remark, lack_words, line_at, names_words, no_name, place_words, quoted, words_lack};
ghost use Rattle.uug_talk.specs.Lines.{lines};
ghost use Rattle.uug_talk.specs.Name.{is_name};
ghost use Rattle.uug_talk.specs.Words.{words};

use crate::escape::add_escaped;
use std::alloc::{AllocError, Allocator};
use uug_store::{JobsFault, read_jobs};
use uug_talk::{LINE_MAX, Name, split_line, split_word};

/// The maximum number of bytes of a word that are shown.
const WORD_MAX: usize = 60;

/// Returns a line for standard error with what is wrong with line `number` of `text`, the jobs of the folder `dir`. It
/// is empty unless that is the first bad line.
pub fn jobs_remark<A: Allocator + Copy>(
    alloc: A,
    dir: &str,
    text: &[u8],
    number: usize,
) -> Result<String<A>, AllocError>
    ensures { IfOk result (λ remark. string_bytes remark ≡ jobs_remark dir.now text.now number) }
{
    match read_jobs(alloc, text) {
        Err(JobsFault::Bad(bad)) if bad == number => jobs_line(alloc, dir, text, number),
        Err(JobsFault::Memory) => Err(AllocError),
        _ => Ok(String::new(alloc)),
    }
}

/// Returns the remark about line `number` of a text of jobs, or an empty one if there is no such line.
fn jobs_line<A: Allocator>(
    alloc: A,
    dir: &str,
    text: &[u8],
    number: usize,
) -> Result<String<A>, AllocError>
    ensures { IfOk result (λ remark. string_bytes remark
        ≡ jobs_line dir.now number (line_at (lines text.now) number)) }
{
    match line_at(text, number) {
        Some(line) => line_remark(alloc, dir, number, line),
        None => Ok(String::new(alloc)),
    }
}

/// Returns the remark about this line, which is line `number` of the jobs of a folder.
fn line_remark<A: Allocator>(
    alloc: A,
    dir: &str,
    number: usize,
    line: &[u8],
) -> Result<String<A>, AllocError>
    ensures { IfOk result (λ remark.
        string_bytes remark ≡ jobs_line dir.now number (Some line.now)) }
{
    let mut remark = String::from_str(alloc, "uucpair: ")?;
    add_place(&mut remark, dir, number)?;
    add_lack(&mut remark, line)?;
    remark.push_str("\n")?;
    Ok(remark)
}

/// Appends the folder of the jobs, and the number of the line.
fn add_place<A: Allocator>(text: &mut String<A>, dir: &str, number: usize) -> Result<(), AllocError>
    ensures { OnOk result
        (string_bytes text.new ≡ string_bytes text.old ++ place_words dir.now number) }
{
    add_escaped(text, dir.as_bytes())?;
    write!(text, "/jobs: line {number}: ")
}

/// Returns the line of this number, counted from 1.
fn line_at(text: &[u8], number: usize) -> Option<&[u8]>
    ensures { option_copied result ≡ line_at (lines text.now) number }
{
    let mut rest = text;
    let mut left = number;
    while let Some((line, behind)) = split_line(rest) {
        if left <= 1 {
            return Some(line);
        }
        left -= 1;
        rest = behind;
    }
    None
}

/// Appends what is wrong with a line.
fn add_lack<A: Allocator>(text: &mut String<A>, line: &[u8]) -> Result<(), AllocError>
    ensures { OnOk result
        (string_bytes text.new ≡ string_bytes text.old ++ lack_words line.now) }
{
    if line.len() > LINE_MAX {
        return text.push_str("it is over 65536 bytes");
    }
    if line.ends_with(b"\r") {
        return text.push_str("it ends in CR LF: end lines with LF alone");
    }
    if line.contains(&b'\t') {
        return text.push_str("it has a tab: separate words with spaces only");
    }
    add_words_lack(text, line)
}

/// Appends what is wrong with the words of a line.
fn add_words_lack<A: Allocator>(text: &mut String<A>, line: &[u8]) -> Result<(), AllocError>
    ensures { OnOk result
        (string_bytes text.new ≡ string_bytes text.old ++ words_lack (words line.now)) }
{
    let Some((first, rest)) = split_word(line) else {
        return Ok(());
    };
    if first != b"send".as_slice() && first != b"request".as_slice() {
        add_quoted(text, first)?;
        return text.push_str(" is neither send nor request");
    }
    add_behind(text, rest)
}

/// Appends what is wrong after the first word.
fn add_behind<A: Allocator>(text: &mut String<A>, rest: &[u8]) -> Result<(), AllocError>
    ensures { OnOk result
        (string_bytes text.new ≡ string_bytes text.old ++ behind_words (words rest.now)) }
{
    let Some((source, rest)) = split_word(rest) else {
        return text.push_str("SOURCE, TARGET and USER are missing");
    };
    let Some((target, rest)) = split_word(rest) else {
        return text.push_str("TARGET and USER are missing");
    };
    let Some((user, rest)) = split_word(rest) else {
        return text.push_str("USER is missing");
    };
    match split_word(rest) {
        Some((more, _)) => {
            add_quoted(text, more)?;
            text.push_str(" is one word too many: names have no spaces")
        }
        None => add_names(text, source, target, user),
    }
}

/// Appends the first of these that is not a name. If all are names, there are too many jobs.
fn add_names<A: Allocator>(
    text: &mut String<A>,
    source: &[u8],
    target: &[u8],
    user: &[u8],
) -> Result<(), AllocError>
    ensures { OnOk result (string_bytes text.new
        ≡ string_bytes text.old ++ names_words source.now target.now user.now) }
{
    if !is_name(source) {
        add_no_name(text, source)
    } else if !is_name(target) {
        add_no_name(text, target)
    } else if !is_name(user) {
        add_no_name(text, user)
    } else {
        text.push_str("there are more than 1024 jobs")
    }
}

/// Returns whether a word is a name.
fn is_name(word: &[u8]) -> bool
    ensures { result ≡ is_name word.now }
{
    Name::new(word).is_ok()
}

/// Appends that a word is not a name.
fn add_no_name<A: Allocator>(text: &mut String<A>, word: &[u8]) -> Result<(), AllocError>
    ensures { OnOk result (string_bytes text.new ≡ string_bytes text.old ++ no_name word.now) }
{
    add_quoted(text, word)?;
    text.push_str(" is not a name: 1 to 200 printable characters")
}

/// Appends the first `WORD_MAX` bytes of a word, in quotes. Those that can't be seen are escaped.
pub fn add_quoted<A: Allocator>(text: &mut String<A>, word: &[u8]) -> Result<(), AllocError>
    ensures { OnOk result (string_bytes text.new ≡ string_bytes text.old ++ quoted word.now) }
{
    text.push_str("\"")?;
    add_escaped(text, front_of(word))?;
    text.push_str("\"")
}

/// Returns the first `WORD_MAX` bytes of a word.
fn front_of(word: &[u8]) -> &[u8]
    ensures { result.now ≡ take 60 word.now }
{
    &word[..WORD_MAX.min(word.len())]
}
