ghost use Rattle.std.specs.Prelude.{◌≡◌, ◌≤◌, ◌↔◌, [], ◌∷◌, ◌++◌, length, Some, None, true, false, Ok, MatchResult, IfOk, OnErr, IsTrue};
ghost use Rattle.uug_talk.specs.HailCalls.{Hears, FindsTooLong};
ghost use Rattle.uug_talk.specs.Texts.{Heard, Passing, Whole, IsWhole, is_whole, IsHailText, IsFirstText, waiting_of, heard_byte, hear, written_text};

use arrayvec::ArrayVec;
use std::marker::Model;
use thiserror::Error;

/// The longest handshake text, without its 0x10 and its end byte.
pub const HAIL_MAX: usize = 256;

/// The room for a handshake text with its 0x10 and its zero byte.
pub const HAIL_WRITTEN_MAX: usize = HAIL_MAX + 2;

/// The byte with which a handshake text begins. Inside a text it restarts it.
pub const TEXT_START: u8 = 0x10;

/// The error that more bytes came after a 0x10 than a handshake text may have.
#[derive(Clone, Copy, Debug, PartialEq, Eq, Error)]
#[error("handshake text too long")]
pub struct TextTooLong;

#[derive(Clone, Copy, Debug, PartialEq, Eq)]
enum Stage {
    Passing,
    Open,
    Whole,
}

/// A finder of handshake texts in a stream that comes in pieces. A text is the bytes between a 0x10 and the next zero
/// byte or line feed, with no 0x10 between. A clause sees what was heard since the last text: nothing of a text, the
/// front of one, or a whole one.
#[derive(Drop)]
pub struct Hail {
    stage: Stage,
    text: ArrayVec<u8, HAIL_MAX>,
}

impl Model for Hail {
    ghost use Rattle.uug_talk.specs.Texts.{Heard};

    ghost Value = { Heard };

    ghost use Rattle.uug_talk.specs.Hail.{heard_of};

    ghost view = { λ h. heard_of h.stage h.text.items };
}

impl Hail {
    /// Makes a finder that has heard nothing.
    pub fn new() -> Self
        ensures { result ≡ Passing }
    {
        Hail {
            stage: Stage::Passing,
            text: ArrayVec::new(),
        }
    }

    /// Forgets what was heard.
    pub fn clear(&mut self)
        ensures { self.new ≡ Passing }
    {
        self.stage = Stage::Passing;
    }

    /// Returns whether a text is whole, which `text` then shows.
    pub fn is_whole(&self) -> bool
        ensures { result ≡ is_whole self.now }
    {
        self.stage == Stage::Whole
    }

    /// Returns the number of held bytes of a text that is not whole, including its 0x10. It is 0 if there is none.
    pub fn waiting(&self) -> usize
        ensures { result ≡ waiting_of self.now }
    {
        if self.stage == Stage::Open {
            1 + self.text.len()
        } else {
            0
        }
    }

    /// Returns the whole text, without its 0x10 and its end byte. There must be one: see `is_whole`.
    pub fn text(&self) -> &[u8]
        requires { IsWhole self.now }
        ensures { self.now ≡ Whole result.now }
    {
        self.text.as_slice()
    }

    /// Takes bytes of the next piece, up to a text's end byte. Returns their number, and whether a text is whole.
    /// While a text is whole it takes nothing. After `TextTooLong` nothing is heard, as after `clear`.
    pub fn push(&mut self, piece: &[u8]) -> Result<(usize, bool), TextTooLong>
        // What is heard is what the stream says, however it was cut into pieces.
        ensures ok { IfOk result (λ found. Hears self.old piece.now found.0 self.new) }
        ensures too_long { OnErr result (FindsTooLong self.old piece.now) }

        // No byte after an end byte is used. A piece without one is used whole.
        ensures whole { IfOk result (λ found. found.1 ≡ is_whole self.new) }
        ensures used { IfOk result (λ found. (found.0 ≤ length piece.now)
            × (found.1 ≡ false → found.0 ≡ length piece.now)) }
        ensures kept { IsWhole self.old → (result ≡ Ok (0, true)) × (self.new ≡ self.old) }
        ensures err { OnErr result (self.new ≡ Passing) }

        // The same as a function of what was heard and the piece.
        ensures exact { MatchResult result (λ found.
            hear self.old piece.now ≡ Some (found.0, self.new))
            (λ _. hear self.old piece.now ≡ None) }
    {
        let used = self.listen(piece)?;
        Ok((used, self.is_whole()))
    }

    fn listen(&mut self, piece: &[u8]) -> Result<usize, TextTooLong>
        ensures { MatchResult result (λ used. hear self.old piece.now ≡ Some (used, self.new))
            (λ _. (hear self.old piece.now ≡ None) × (self.new ≡ Passing)) }
    {
        for (used, byte) in piece.iter().enumerate() {
            if self.is_whole() {
                return Ok(used);
            }
            self.hear_byte(*byte)?;
        }
        Ok(piece.len())
    }

    fn hear_byte(&mut self, byte: u8) -> Result<(), TextTooLong>
        requires { is_whole self.old ≡ false }
        ensures { MatchResult result (λ _. heard_byte self.old byte ≡ Some self.new)
            (λ _. (heard_byte self.old byte ≡ None) × (self.new ≡ Passing)) }
    {
        if byte == TEXT_START {
            self.text.clear();
            self.stage = Stage::Open;
        } else if self.stage == Stage::Open {
            if byte == 0 || byte == b'\n' {
                self.stage = Stage::Whole;
            } else if self.text.try_push(byte).is_err() {
                self.stage = Stage::Passing;
                return Err(TextTooLong);
            }
        }
        Ok(())
    }
}

/// Returns whether a text may be written as a handshake text: at most `HAIL_MAX` bytes, none of them 0x10, zero or a
/// line feed.
pub fn is_hail_text(text: &[u8]) -> bool
    ensures { IsTrue result ↔ IsHailText text.now }
{
    text.len() <= HAIL_MAX
        && text
            .iter()
            .all(|b| *b != TEXT_START && *b != 0 && *b != b'\n')
}

/// Returns a handshake text as it goes out: 0x10, the text, a zero byte. The text must be one: see `is_hail_text`.
pub fn write_hail(text: &[u8]) -> ArrayVec<u8, HAIL_WRITTEN_MAX>
    requires { IsHailText text.now }
    ensures spelled { result.items ≡ written_text text.now }
    // It is heard as the text again.
    ensures read_back { IsFirstText result.items text.now }
{
    let mut written = ArrayVec::new();
    written.push(TEXT_START);
    let Ok(()) = written.try_extend_from_slice(text) else {
        unreachable!();
    };
    written.push(0);
    written
}
