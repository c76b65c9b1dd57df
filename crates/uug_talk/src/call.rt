ghost use Rattle.std.specs.Prelude.{◌≡◌, ◌≤◌, ◌+◌, ◌∷◌, ◌++◌, length};
ghost use Rattle.uug_talk.specs.Call.{call_text, number_in_call, number_told, number_word};
ghost use Rattle.uug_talk.specs.Texts.{IsHailText};

use crate::hail::HAIL_MAX;
use crate::name::{NAME_MAX, Name};
use crate::number::read_number;
use crate::words::split_word;
use arrayvec::ArrayVec;
use itoa::Buffer;

/// The most decimal digits in which the number of a conversation is read.
pub const NUMBER_DIGITS_MAX: usize = 10;

/// The greatest number of a conversation.
pub const NUMBER_MAX: u32 = u32::MAX;

/// Returns the text in which a caller says its name, without its 0x10 and its end byte. It is `S` and the name. If the
/// caller keeps a number of its conversations, ` -Q` and the number in decimal follow (Taylor UUCP manual, "UUCP
/// Protocol").
pub fn write_call(name: &Name, number: Option<u32>) -> ArrayVec<u8, HAIL_MAX>
    ensures text { result.items ≡ call_text name.now number }
    // The number is read as the one given.
    ensures read_back { number_in_call result.items ≡ number }
    ensures hail { IsHailText result.items }
{
    let mut text = ArrayVec::new();
    text.push(b'S');
    push_all(&mut text, name.as_bytes());
    if let Some(number) = number {
        push_number(&mut text, number);
    }
    text
}

fn push_number(text: &mut ArrayVec<u8, HAIL_MAX>, number: u32)
    requires { length text.old.items ≤ NAME_MAX + 1 }
    ensures items { text.new.items ≡ text.old.items ++ 32 ∷ number_word number }
    ensures within { number ≤ NUMBER_MAX }
{
    push_all(text, b" -Q");
    push_all(text, Buffer::new().format(number).as_bytes());
}

fn push_all(text: &mut ArrayVec<u8, HAIL_MAX>, bytes: &[u8])
    requires { length text.old.items + length bytes.now ≤ HAIL_MAX }
    ensures { text.new.items ≡ text.old.items ++ bytes.now }
{
    let Ok(()) = text.try_extend_from_slice(bytes) else {
        unreachable!();
    };
}

/// Returns the number of a conversation in a caller's text, as a called end reads it. It is in the first word after
/// the name that is `-Q` and one to `NUMBER_DIGITS_MAX` decimal digits, at most `NUMBER_MAX`. Returns `None` if there
/// is no such word.
pub fn caller_number(text: &[u8]) -> Option<u32>
    ensures { result ≡ number_in_call text.now }
{
    let (_, mut rest) = split_word(text)?;
    while let Some((word, behind)) = split_word(rest) {
        let number = told_by(word);
        if number.is_some() {
            return number;
        }
        rest = behind;
    }
    None
}

fn told_by(word: &[u8]) -> Option<u32>
    ensures { result ≡ number_told word.now }
{
    if !word.starts_with(b"-Q") || word.len() > 2 + NUMBER_DIGITS_MAX {
        return None;
    }
    read_number(&word[2..], NUMBER_MAX)
}
