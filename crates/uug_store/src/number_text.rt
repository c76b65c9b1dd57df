//! The number of an end's conversations as the text of a file.
ghost use Rattle.std.specs.Prelude.{◌≡◌, ◌≤◌, MatchOption, Some};
ghost use Rattle.uug_store.specs.NumberText.{begins_with, goes_on_with, number_beside, number_in, number_line};

use arrayvec::ArrayVec;
use itoa::Buffer;
use thiserror::Error;
use uug_talk::{NUMBER_MAX, read_number, split_line};

/// The error for a file `number` whose text is not a number.
#[derive(Clone, Copy, Debug, PartialEq, Eq, Error)]
#[error("bad number file")]
pub struct BadNumber;

/// The maximum number of bytes in the line of a number.
pub const NUMBER_LINE_MAX: usize = 11;

/// Returns the number of a text that is one line of decimal digits. The line feed may be missing, and leading zeros are
/// accepted.
pub fn read_number_text(text: &[u8]) -> Option<u32>
    ensures { result ≡ number_in text.now }
{
    let (line, behind) = split_line(text)?;
    match split_line(behind) {
        Some(_) => None,
        None => read_number(line, NUMBER_MAX),
    }
}

/// Returns the text of a number: its decimal digits and a line feed.
pub fn number_line(number: u32) -> ArrayVec<u8, NUMBER_LINE_MAX>
    ensures text { result.items ≡ number_line number }
    // The number is read as the one given.
    ensures read_back { number_in result.items ≡ Some number }
{
    written_line(number)
}

fn written_line(number: u32) -> ArrayVec<u8, NUMBER_LINE_MAX>
    ensures text { result.items ≡ number_line number }
    ensures within { number ≤ NUMBER_MAX }
{
    let mut line = ArrayVec::new();
    let Ok(()) = line.try_extend_from_slice(Buffer::new().format(number).as_bytes()) else {
        unreachable!();
    };
    line.push(b'\n');
    line
}

/// Returns the number that an end keeps, if any, from the text in its folder. Without a text it keeps none, unless
/// `is_told` asks it to: then it begins at 0. A text that is not a number is an error.
pub fn number_at_start(text: Option<&[u8]>, is_told: bool) -> Result<Option<u32>, BadNumber>
    ensures { MatchOption text.entry (result ≡ begins_with is_told)
        (λ text. result ≡ goes_on_with (number_in text.now)) }
{
    match text {
        Some(text) => match read_number_text(text) {
            Some(number) => Ok(Some(number)),
            None => Err(BadNumber),
        },
        None if is_told => Ok(Some(0)),
        None => Ok(None),
    }
}

/// Returns the number with which a called end begins a session, from its own number and the one that the caller sent.
/// It is the end's own, unless the caller sent the number before that. Then it is the caller's: the caller has not read
/// that its last call was let in.
pub fn number_beside(own: Option<u32>, said: Option<u32>) -> Option<u32>
    ensures { result ≡ number_beside own said }
{
    match (own, said) {
        (Some(own), Some(said)) if said.wrapping_add(1) == own => Some(said),
        _ => own,
    }
}
