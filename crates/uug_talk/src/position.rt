//! The byte from which a file is sent: the answer `SY`, and the number after it.
ghost use Rattle.std.specs.Prelude.{◌≡◌, ◌≤◌};
ghost use Rattle.uug_talk.specs.Positions.{consent_text, position_in, position_told};
ghost use Rattle.uug_talk.specs.Answer.{ReadsAnswer};
ghost use Rattle.uug_talk.specs.Chunks.{IsCommandText};
ghost use Rattle.uug_talk.specs.Words.{words};
ghost use Rattle.uug_talk.specs.declared.answer.Answer.TheVariants.{SendYes};

use crate::telling::{TELLING_MAX, push_all, size_digits};
use crate::told::read_size;
use crate::words::split_word;
use arrayvec::ArrayVec;

/// Returns the text of the answer `SY` that asks for a file from this byte on, without its zero byte. For the first byte
/// it is `SY` alone.
pub fn write_consent(position: u32) -> ArrayVec<u8, TELLING_MAX>
    ensures text { result.items ≡ consent_text position }
    // It is read as that answer, whether that is looked at or not.
    ensures answer { ReadsAnswer result.items SendYes }
    // It tells that position.
    ensures told { position_told result.items ≡ position }
    // It may be cut into messages.
    ensures command { IsCommandText result.items }
{
    spell_consent(position)
}

fn spell_consent(position: u32) -> ArrayVec<u8, TELLING_MAX>
    ensures text { result.items ≡ consent_text position }
    ensures fits { position ≤ u32.MAX }
{
    let mut text = ArrayVec::new();
    push_all(&mut text, b"SY");
    if position > 0 {
        push_all(&mut text, b" 0x");
        push_all(&mut text, &size_digits(position));
    }
    text
}

/// Returns the byte from which an answer `SY` asks for its file, by the word after it. It is 0 if that is no position, or
/// the text is no such answer.
pub fn position_told(text: &[u8]) -> u32
    ensures { result ≡ position_told text.now }
{
    let Some((first, rest)) = split_word(text) else {
        return 0;
    };
    match first {
        [b'S', b'Y', ..] => read_position(rest),
        _ => 0,
    }
}

fn read_position(text: &[u8]) -> u32
    ensures { result ≡ position_in (words text.now) }
{
    match split_word(text) {
        Some((word, _)) => read_size(word).unwrap_or(0),
        None => 0,
    }
}
