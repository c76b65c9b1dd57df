//! Describes the errors of a script as texts.
ghost use Rattle.std.specs.Prelude.{◌≡◌, ◌++◌, IfOk, OnOk, codes, string_bytes};
ghost use Rattle.std.specs.Char.{is_ascii_graphic};
ghost use Rattle.std.specs.List.{list_all};
ghost use Rattle.uug_sim_script.specs.Complaints.{shown};
ghost use Rattle.uug_sim_script.specs.Remarks.{complaint_text, is_told, line_at, line_shown, noun, remark_at, told, wanted};

use crate::complaint::Complaint;
use crate::field::Field;
use crate::line::read_line;
use std::alloc::{AllocError, Allocator};
use uug_talk::split_line;

/// The length of the longest word that is shown.
const SHOWN_MAX: usize = 40;

fn are_visible(word: &[u8]) -> bool
    ensures { result ≡ list_all is_ascii_graphic word.now }
{
    word.iter().all(|b| b.is_ascii_graphic())
}

fn is_told(word: &[u8]) -> bool
    ensures { result ≡ is_told word.now }
{
    word.len() <= SHOWN_MAX && are_visible(word)
}

/// Appends a space and the word, if it is short and all its characters can be seen.
fn add_word<A: Allocator>(text: &mut String<A>, word: &[u8]) -> Result<(), AllocError>
    ensures { OnOk result (string_bytes text.new ≡ string_bytes text.old ++ told word.now) }
{
    if !is_told(word) {
        return Ok(());
    }
    let Ok(word) = str::from_utf8(word) else {
        unreachable!();
    };
    write!(text, " {word}")
}

/// Appends that the word doesn't fit the field.
fn add_wrong<A: Allocator>(
    text: &mut String<A>,
    field: Field,
    word: &[u8],
) -> Result<(), AllocError>
    ensures { OnOk result (string_bytes text.new
        ≡ string_bytes text.old ++ noun field ++ told word.now ++ codes " is not "
        ++ wanted field) }
{
    text.push_str(field.noun())?;
    add_word(text, word)?;
    text.push_str(" is not ")?;
    text.push_str(field.wanted())
}

/// Appends that a word is missing.
fn add_missing<A: Allocator>(text: &mut String<A>, field: Field) -> Result<(), AllocError>
    ensures { OnOk result (string_bytes text.new
        ≡ string_bytes text.old ++ noun field ++ codes " is missing") }
{
    text.push_str(field.noun())?;
    text.push_str(" is missing")
}

/// Appends that no statement begins with the word.
fn add_unknown<A: Allocator>(text: &mut String<A>, word: &[u8]) -> Result<(), AllocError>
    ensures { OnOk result (string_bytes text.new
        ≡ string_bytes text.old ++ codes "unknown statement" ++ told word.now) }
{
    text.push_str("unknown statement")?;
    add_word(text, word)
}

/// Appends that the word is one too many.
fn add_unexpected<A: Allocator>(text: &mut String<A>, word: &[u8]) -> Result<(), AllocError>
    ensures { OnOk result (string_bytes text.new
        ≡ string_bytes text.old ++ codes "unexpected word" ++ told word.now) }
{
    text.push_str("unexpected word")?;
    add_word(text, word)
}

/// Appends the error of a line.
fn add_complaint<A: Allocator>(
    text: &mut String<A>,
    complaint: &Complaint<'_>,
) -> Result<(), AllocError>
    ensures { OnOk result (string_bytes text.new
        ≡ string_bytes text.old ++ complaint_text (shown complaint.now)) }
{
    match complaint {
        Complaint::TooLong => text.push_str("line is longer than 65536 bytes"),
        Complaint::Unknown(word) => add_unknown(text, word),
        Complaint::Wrong(field, word) => add_wrong(text, *field, word),
        Complaint::Missing(field) => add_missing(text, *field),
        Complaint::TooMany(word) => add_unexpected(text, word),
    }
}

/// Returns the line of this number, counted from 1.
fn line_at(script: &[u8], number: usize) -> Option<&[u8]>
    ensures { line_shown result ≡ line_at number script.now }
{
    let mut rest = script;
    let mut left = number;
    while left > 1 {
        let (_, behind) = split_line(rest)?;
        rest = behind;
        left -= 1;
    }
    let (line, _) = split_line(rest)?;
    Some(line)
}

/// Returns a text for the first error in the first bad line of a script, whose number is counted from 1. The number
/// after the last line is that of an end that is not set up, or gives a file that is too large for the other.
pub fn script_remark<A: Allocator>(
    alloc: A,
    script: &[u8],
    number: usize,
) -> Result<String<A>, AllocError>
    ensures { IfOk result (λ text. string_bytes text ≡ remark_at number script.now) }
{
    let mut text = String::new(alloc);
    let Some(line) = line_at(script, number) else {
        text.push_str(
            "caller or called is missing, or gives a file that is too large for the other",
        )?;
        return Ok(text);
    };
    match &read_line(line) {
        Ok(_) => text.push_str("the end has this setting already, or 1024 jobs")?,
        Err(complaint) => add_complaint(&mut text, complaint)?,
    }
    Ok(text)
}
