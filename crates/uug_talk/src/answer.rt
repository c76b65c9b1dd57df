ghost use Rattle.std.specs.Prelude.{◌≡◌, ◌≤◌, ℕ, Ok, IfOk, IfErr, IsTrue, ◌↔◌, length};
ghost use Rattle.uug_talk.specs.Answer.{ReadsAnswer, IsRefusedAnswer, IsWritten, answer_of, answer_text, given_mode};
ghost use Rattle.uug_talk.specs.Chunks.{IsCommandText};
ghost use Rattle.uug_talk.specs.Words.{words};
ghost use Rattle.uug_talk.specs.declared.answer.Answer.{Answer};

use crate::error::BadText;
use crate::mode::{MODE_MAX, mode_digits, read_mode};
use crate::words::{COMMAND_MAX, Text, WRITTEN_MAX, push_word, split_word};
use arrayvec::ArrayVec;

/// The mode of a file that is given without one.
pub const DEFAULT_MODE: u16 = 0o666;

/// An answer to a command.
#[derive(Clone, Copy, Debug, PartialEq, Eq)]
pub enum Answer {
    /// `SY`: the file may be sent.
    SendYes,
    /// `SN2`: the file will never be taken.
    SendNever,
    /// Any other `SN`: the file may be taken later.
    SendLater,
    /// `RY`: the file comes, with this mode.
    GiveYes(u16),
    /// `RN2`: the file will never be given.
    GiveNever,
    /// Any other `RN`: the file may be given later.
    GiveLater,
    /// `CY`: the file is in its place.
    DoneYes,
    /// `CYM`: the file is in its place, and the answering end wants to be master.
    DoneYesMaster,
    /// `CN5`: the file can never be put in its place.
    DoneNever,
    /// Any other `CN`: the file may be put in its place later.
    DoneLater,
    /// `HY`: the session ends.
    HangYes,
    /// `HN`: the roles are exchanged.
    HangNo,
}

impl Answer {
    /// Returns whether it can be written: it isn't `DoneYesMaster`, which is only read, and a mode is at
    /// most `MODE_MAX`.
    pub fn is_writable(&self) -> bool
        ensures { IsTrue result ↔ IsWritten self.now }
    {
        match self {
            Answer::GiveYes(mode) => *mode <= MODE_MAX,
            Answer::DoneYesMaster => false,
            _ => true,
        }
    }
}

/// Reads an answer, without its zero byte. The first letters of its first word decide. The rest is ignored, except for
/// the mode after `RY`.
///
/// A text that is too long is refused as `TooLong`, then other letters as `Unknown`, then a word that is no mode as
/// `Mode`.
pub fn read_answer(text: &[u8]) -> Result<Answer, BadText>
    // What is read is written so.
    ensures found { IfOk result (λ answer. ReadsAnswer text.now answer) }
    // What is written so is read.
    ensures only { (answer : Answer) → ReadsAnswer text.now answer → result ≡ Ok answer }
    // An error names the first thing that is wrong.
    ensures refused { IfErr result (λ fault. IsRefusedAnswer fault text.now) }
    // The same as a function of the text.
    ensures exact { result ≡ answer_of text.now }
{
    read_letters(text)
}

fn read_letters(text: &[u8]) -> Result<Answer, BadText>
    ensures { result ≡ answer_of text.now }
{
    if text.len() > COMMAND_MAX {
        return Err(BadText::TooLong);
    }
    let (first, rest) = split_word(text).ok_or(BadText::Unknown)?;
    match first {
        [b'S', b'Y', ..] => Ok(Answer::SendYes),
        [b'S', b'N', b'2', ..] => Ok(Answer::SendNever),
        [b'S', b'N', ..] => Ok(Answer::SendLater),
        [b'R', b'Y', ..] => Ok(Answer::GiveYes(given_mode(rest)?)),
        [b'R', b'N', b'2', ..] => Ok(Answer::GiveNever),
        [b'R', b'N', ..] => Ok(Answer::GiveLater),
        [b'C', b'Y', b'M', ..] => Ok(Answer::DoneYesMaster),
        [b'C', b'Y', ..] => Ok(Answer::DoneYes),
        [b'C', b'N', b'5', ..] => Ok(Answer::DoneNever),
        [b'C', b'N', ..] => Ok(Answer::DoneLater),
        [b'H', b'Y', ..] => Ok(Answer::HangYes),
        [b'H', b'N', ..] => Ok(Answer::HangNo),
        _ => Err(BadText::Unknown),
    }
}

// Returns the mode after `RY`, or the default if there is none.
fn given_mode(rest: &[u8]) -> Result<u16, BadText>
    ensures { result ≡ given_mode (words rest.now) }
{
    match split_word(rest) {
        Some((word, _)) => read_mode(word),
        None => Ok(DEFAULT_MODE),
    }
}

/// Returns the text of an answer, without its zero byte. `DoneYesMaster` is only read: see `is_writable`.
pub fn write_answer(answer: &Answer) -> ArrayVec<u8, WRITTEN_MAX>
    requires { IsWritten answer.now }
    ensures text { result.items ≡ answer_text answer.now }
    // It is read as the answer again.
    ensures read_back { ReadsAnswer result.items answer.now }
    // It may be cut into messages.
    ensures command { IsCommandText result.items }
{
    spell_answer(answer)
}

fn spell_answer(answer: &Answer) -> Text
    requires { IsWritten answer.now }
    ensures { result.items ≡ answer_text answer.now }
{
    match answer {
        Answer::SendYes => short_text(b"SY"),
        Answer::SendNever => short_text(b"SN2"),
        Answer::SendLater => short_text(b"SN4"),
        Answer::GiveYes(mode) => {
            let mut text = short_text(b"RY");
            push_word(&mut text, &mode_digits(*mode));
            text
        }
        Answer::GiveNever => short_text(b"RN2"),
        Answer::GiveLater => short_text(b"RN6"),
        Answer::DoneYes => short_text(b"CY"),
        Answer::DoneNever => short_text(b"CN5"),
        Answer::DoneLater => short_text(b"CN4"),
        Answer::HangYes => short_text(b"HY"),
        Answer::HangNo => short_text(b"HN"),
        Answer::DoneYesMaster => unreachable!(),
    }
}

fn short_text(letters: &[u8]) -> Text
    requires { length letters.now ≤ 3 }
    ensures { result.items ≡ letters.now }
{
    let mut text = ArrayVec::new();
    let Ok(()) = text.try_extend_from_slice(letters) else {
        unreachable!();
    };
    text
}
