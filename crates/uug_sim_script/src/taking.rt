//! Takes words from the front of a line. A word that is not what its place needs is an error.
ghost use Rattle.std.specs.Prelude.{◌≡◌, ◌==◌, ◌&&◌, ◌||◌, ◌%◌, ◌∷◌, [], IfErr, IfOk, MatchBool, MatchResult, None, Some, Ok, Err, codes, length};
ghost use Rattle.std.specs.Char.{is_ascii_hexdigit};
ghost use Rattle.std.specs.List.{list_all};
ghost use Rattle.std.specs.Str.{bytes_eq};
ghost use Rattle.uug_talk.specs.Name.{name_of};
ghost use Rattle.uug_talk.specs.Words.{words};
ghost use Rattle.uug_link.specs.Announced.{announced};
ghost use Rattle.uug_sim_script.specs.Complaints.{missing, shown, taken, wrong};
ghost use Rattle.uug_sim_script.specs.Fields.{announcement_of, bytes_of, hex_bytes, limit_of_word, mode_of_word};
ghost use Rattle.uug_sim_script.specs.ReadLine.{byte_at, copy_of, ends, hex_at, number_at, side_at, window_at};

use crate::complaint::Complaint;
use crate::field::Field;
use crate::fields::{
    read_announce, read_byte, read_limit, read_name, read_short_mode, read_side, read_window,
    spells,
};
use crate::mode::Mode;
use uug_line::Side;
use uug_link::Announce;
use uug_session::FileLimit;
use uug_talk::{Name, read_number, split_word};

/// Takes a side.
pub(crate) fn take_side(text: &[u8]) -> Result<(Side, &[u8]), Complaint<'_>>
    ensures { taken result ≡ side_at (words text.now) }
{
    let (word, rest) = split_word(text).ok_or(Complaint::Missing(Field::Side))?;
    let side = read_side(word).ok_or(Complaint::Wrong(Field::Side, word))?;
    Ok((side, rest))
}

/// Takes the next word. The error is that this field is missing.
pub(crate) fn take_word(field: Field, text: &[u8]) -> Result<(&[u8], &[u8]), Complaint<'_>>
    ensures word { MatchResult result
        (λ found. words text.now ≡ found.0.now ∷ words found.1.now) (λ fault. words text.now ≡ []) }
    ensures missing { IfErr result (λ fault. shown fault ≡ missing field) }
{
    split_word(text).ok_or(Complaint::Missing(field))
}

/// Reads the word as a name.
pub(crate) fn name_in(word: &[u8]) -> Result<Name, Complaint<'_>>
    ensures name { MatchResult result (λ name. name_of word.now ≡ Some name)
        (λ fault. name_of word.now ≡ None) }
    ensures wrong { IfErr result (λ fault. shown fault ≡ wrong Field.Name word.now) }
{
    read_name(word).ok_or(Complaint::Wrong(Field::Name, word))
}

/// Reads the name of a copy, if there is one more word, and no more.
pub(crate) fn read_copy(text: &[u8]) -> Result<Option<Name>, Complaint<'_>>
    ensures { MatchResult result (λ temp. copy_of (words text.now) ≡ Ok temp)
        (λ fault. copy_of (words text.now) ≡ Err (shown fault)) }
{
    if split_word(text).is_none() {
        return Ok(None);
    }
    let (word, rest) = take_word(Field::Name, text)?;
    let name = name_in(word)?;
    take_end(rest)?;
    Ok(Some(name))
}

/// Takes a window.
pub(crate) fn take_window(text: &[u8]) -> Result<(u8, &[u8]), Complaint<'_>>
    ensures { taken result ≡ window_at (words text.now) }
{
    let (word, rest) = split_word(text).ok_or(Complaint::Missing(Field::Window))?;
    let window = read_window(word).ok_or(Complaint::Wrong(Field::Window, word))?;
    Ok((window, rest))
}

/// Makes the announcement of a window and of the packet size in the word.
pub(crate) fn announce_in(window: u8, word: &[u8]) -> Result<Announce, Complaint<'_>>
    ensures announced { MatchResult result
        (λ announce. announcement_of window word.now ≡ Some (announced announce))
        (λ fault. announcement_of window word.now ≡ None) }
    ensures wrong { IfErr result (λ fault. shown fault ≡ wrong Field.Size word.now) }
{
    read_announce(window, word).ok_or(Complaint::Wrong(Field::Size, word))
}

/// Reads the word as the limit of an end's files.
pub(crate) fn limit_in(word: &[u8]) -> Result<FileLimit, Complaint<'_>>
    ensures limit { MatchResult result (λ limit. limit_of_word word.now ≡ Some limit.bytes)
        (λ fault. limit_of_word word.now ≡ None) }
    ensures wrong { IfErr result (λ fault. shown fault ≡ wrong Field.Limit word.now) }
{
    read_limit(word).ok_or(Complaint::Wrong(Field::Limit, word))
}

/// Reads the word as a mode.
pub(crate) fn mode_in(word: &[u8]) -> Result<Mode, Complaint<'_>>
    ensures mode { MatchResult result (λ mode. mode_of_word word.now ≡ Some mode.bits)
        (λ fault. mode_of_word word.now ≡ None) }
    ensures wrong { IfErr result (λ fault. shown fault ≡ wrong Field.Mode word.now) }
{
    read_short_mode(word).ok_or(Complaint::Wrong(Field::Mode, word))
}

fn are_hex_digits(word: &[u8]) -> bool
    ensures { result ≡ list_all is_ascii_hexdigit word.now }
{
    word.iter().all(|b| b.is_ascii_hexdigit())
}

fn looks_hex(word: &[u8]) -> bool
    ensures { result ≡ (bytes_eq word.now (codes "-")
        || ((length word.now % 2 == 0) && list_all is_ascii_hexdigit word.now)) }
{
    spells(word, b"-") || word.len() % 2 == 0 && are_hex_digits(word)
}

/// Returns whether the word writes bytes.
fn is_hex(word: &[u8]) -> bool
    ensures { MatchBool result (hex_bytes word.now ≡ Some (bytes_of word.now))
        (hex_bytes word.now ≡ None) }
{
    looks_hex(word)
}

/// Takes bytes in hexadecimal digits, and returns the digits as written.
pub(crate) fn take_hex(text: &[u8]) -> Result<(&[u8], &[u8]), Complaint<'_>>
    ensures exact { MatchResult result
        (λ found. hex_at (words text.now) ≡ Ok (bytes_of found.0.now, words found.1.now))
        (λ fault. hex_at (words text.now) ≡ Err (shown fault)) }
    ensures bytes { IfOk result (λ found. hex_bytes found.0.now ≡ Some (bytes_of found.0.now)) }
{
    let (word, rest) = split_word(text).ok_or(Complaint::Missing(Field::Bytes))?;
    if !is_hex(word) {
        return Err(Complaint::Wrong(Field::Bytes, word));
    }
    Ok((word, rest))
}

/// Takes a number that is at most `most`.
pub(crate) fn take_number(
    field: Field,
    most: u32,
    text: &[u8],
) -> Result<(u32, &[u8]), Complaint<'_>>
    ensures { taken result ≡ number_at field most (words text.now) }
{
    let (word, rest) = split_word(text).ok_or(Complaint::Missing(field))?;
    let number = read_number(word, most).ok_or(Complaint::Wrong(field, word))?;
    Ok((number, rest))
}

/// Takes one byte of two hexadecimal digits.
pub(crate) fn take_byte(text: &[u8]) -> Result<(u8, &[u8]), Complaint<'_>>
    ensures { taken result ≡ byte_at (words text.now) }
{
    let (word, rest) = split_word(text).ok_or(Complaint::Missing(Field::Byte))?;
    let byte = read_byte(word).ok_or(Complaint::Wrong(Field::Byte, word))?;
    Ok((byte, rest))
}

/// Checks that no words are left.
pub(crate) fn take_end(text: &[u8]) -> Result<(), Complaint<'_>>
    ensures { MatchResult result (λ _. ends (words text.now) ≡ Ok tt)
        (λ fault. ends (words text.now) ≡ Err (shown fault)) }
{
    match split_word(text) {
        None => Ok(()),
        Some((word, _)) => Err(Complaint::TooMany(word)),
    }
}
