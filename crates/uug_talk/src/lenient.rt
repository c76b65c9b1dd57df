//! Reads what only a lenient end takes, and refuses a command that can't be read.
ghost use Rattle.std.specs.Prelude.{◌≡◌, true, IfSome, IfOk};
ghost use Rattle.std.specs.Io.BufRead.{strip_last};
ghost use Rattle.uug_talk.specs.Answer.{IsWritten};
ghost use Rattle.uug_talk.specs.Chunks.{IsCommandText};
ghost use Rattle.uug_talk.specs.Lenient.{is_held, is_refusable, refusal_text, refused_letter_of, wished_words};
ghost use Rattle.uug_talk.specs.Words.{words};

use crate::answer::Answer;
use crate::error::BadText;
use crate::mode::read_mode;
use crate::words::{Text, WRITTEN_MAX, split_word};
use arrayvec::ArrayVec;

/// Returns whether an answer is `SN8`: the other end has the file already.
pub fn is_held(text: &[u8]) -> bool
    ensures { result ≡ is_held text.now }
{
    match split_word(text) {
        Some((first, _)) => first.starts_with(b"SN8"),
        None => false,
    }
}

/// Reads the mode of `RY 0644M`, by which the giving end says that it wants to be master. Another second word is
/// refused as `Mode`, and so is a text with none.
pub fn read_wished(text: &[u8]) -> Result<Answer, BadText>
    ensures exact { result ≡ wished_words (words text.now) }
    ensures written { IfOk result (λ answer. IsWritten answer) }
{
    let (_, rest) = split_word(text).ok_or(BadText::Mode)?;
    let (word, _) = split_word(rest).ok_or(BadText::Mode)?;
    Ok(Answer::GiveYes(read_mode(without_wish(word))?))
}

fn without_wish(word: &[u8]) -> &[u8]
    ensures { result.now ≡ strip_last 77 word.now }
{
    if word.ends_with(b"M") {
        &word[..word.len() - 1]
    } else {
        word
    }
}

/// Returns the letter of a command that can be refused in its own letter: its first word is one capital letter other
/// than H.
pub fn refused_letter(text: &[u8]) -> Option<u8>
    ensures exact { result ≡ refused_letter_of text.now }
    ensures refusable { IfSome result (λ letter. is_refusable letter ≡ true) }
{
    match split_word(text)?.0 {
        [letter] if letter.is_ascii_uppercase() && *letter != b'H' => Some(*letter),
        _ => None,
    }
}

/// Returns the text that refuses a command for ever: its letter and `N2`, as `SN2`, without its zero byte.
pub fn refusal_text(letter: u8) -> ArrayVec<u8, WRITTEN_MAX>
    requires { is_refusable letter ≡ true }
    ensures text { result.items ≡ refusal_text letter }
    // It may be cut into messages.
    ensures command { IsCommandText result.items }
{
    spell_refusal(letter)
}

fn spell_refusal(letter: u8) -> Text
    ensures { result.items ≡ refusal_text letter }
{
    let mut text = ArrayVec::new();
    text.push(letter);
    text.push(b'N');
    text.push(b'2');
    text
}
