ghost use Rattle.std.specs.Prelude.{◌≡◌, ◌≢◌, ◌+◌, ◌<◌, ◌≤◌, ◌↔◌, ◌⊎◌, ℕ, List, [], ◌∷◌, ◌++◌, length, true, false, IsTrue, IfOk, IfErr, OnOk, OnErr, IsErrOf, MatchOption, MatchResult};
ghost use Rattle.std.specs.List.{list_any, position_or_len};
ghost use Rattle.uug_talk.specs.Gathering.{Gathering, OfCommand, OfFile, gathered, with_message, limit_of, part_of, ends, text_part, is_zero, is_empty};

use crate::error::BadText;
use crate::words::COMMAND_MAX;
use arrayvec::ArrayVec;
use std::alloc::Allocator;
use std::marker::Model;

/// The longest file, in bytes, if no other limit is given.
pub const FILE_MAX: usize = 1_048_576;

/// The greatest limit of a file, in bytes.
pub const FILE_LIMIT_MAX: usize = 268_435_456;

/// The progress of a command or a file.
#[derive(Clone, Copy, Debug, PartialEq, Eq)]
pub enum Progress {
    /// More messages follow.
    More,
    /// This message was the last.
    Whole,
}

#[derive(Drop)]
enum Held<A: Allocator> {
    Command(ArrayVec<u8, COMMAND_MAX>),
    // The bytes, and how many they may be at most.
    File(Vec<u8, A>, usize),
}

/// Gathers a command or a file from its messages. A command is whole with its first zero byte, a file
/// with its first empty message.
#[derive(Drop)]
pub struct Gather<A: Allocator> {
    held: Held<A>,
    whole: bool,
}

impl<A: Allocator> Model for Gather<A> {
    ghost use Rattle.uug_talk.specs.Gathering.{Gathering};

    ghost Value = { Gathering };

    ghost use Rattle.uug_talk.specs.Held.{gathering_of};

    ghost view = { λ g. gathering_of g.held g.whole };
}

impl<A: Allocator + Copy> Gather<A> {
    /// Begins a file, with nothing of it yet. Its bytes are kept in memory of `alloc`.
    pub fn file(alloc: A) -> Self
        ensures { result ≡ gathered (OfFile FILE_MAX) [] }
    {
        Gather {
            held: Held::File(Vec::new(alloc), FILE_MAX),
            whole: false,
        }
    }
}

impl<A: Allocator> Gather<A> {
    /// Begins a command, with nothing of it yet.
    pub fn command() -> Self
        ensures { result ≡ gathered OfCommand [] }
    {
        Gather {
            held: Held::Command(ArrayVec::new()),
            whole: false,
        }
    }

    /// Begins a file of which these bytes are there already. It may have `limit` bytes in all: 1 to `FILE_LIMIT_MAX`.
    pub fn file_from(front: Vec<u8, A>, limit: usize) -> Self
        requires some { 0 < limit }
        requires fits { limit ≤ FILE_LIMIT_MAX }
        ensures { result
            ≡ record { kind = OfFile limit; bytes = front.items; whole = false } }
    {
        Gather {
            held: Held::File(front, limit),
            whole: false,
        }
    }

    /// Returns the bytes of a file, or `None` if a command was gathered.
    pub fn into_file(self) -> Option<Vec<u8, A>>
        ensures { MatchOption result (self.kind ≡ OfCommand)
            (λ bytes. (self.kind ≢ OfCommand) × (bytes.items ≡ self.bytes)) }
    {
        match self.held {
            Held::Command(_) => None,
            Held::File(bytes, _) => Some(bytes),
        }
    }

    /// Returns whether the command or file is whole, so that no further message may be pushed.
    pub fn is_whole(&self) -> bool
        ensures { result ≡ self.now.whole }
    {
        self.whole
    }

    /// Returns the text or file so far.
    pub fn bytes(&self) -> &[u8]
        ensures { result.now ≡ self.now.bytes }
    {
        match &self.held {
            Held::Command(text) => text.as_slice(),
            Held::File(bytes, _) => bytes.as_slice(),
        }
    }

    /// Takes the next message: the bytes before the first zero byte of a command's, and all of a file's.
    ///
    /// Refuses a message that would pass the limit, as `TooLong`, and a file's that finds no memory, as `Memory`.
    pub fn push(&mut self, message: &[u8]) -> Result<Progress, BadText>
        requires { self.old.whole ≡ false }
        ensures ok { OnOk result (self.new ≡ with_message self.old message.now) }
        ensures whole { IfOk result (λ progress.
            (progress ≡ Progress.Whole) ↔ IsTrue self.new.whole) }
        ensures too_long { IsErrOf result BadText.TooLong
            ↔ (limit_of self.old.kind
            < length self.old.bytes + length (part_of self.old.kind message.now)) }
        ensures refusals { IfErr result (λ fault. (fault ≡ BadText.TooLong)
            ⊎ (fault ≡ BadText.Memory)) }

        // Memory is asked for a file's message alone, and for no empty one.
        ensures memory { IsErrOf result BadText.Memory
            → (self.old.kind ≢ OfCommand) × (message.now ≢ []) }
        ensures err { OnErr result (self.new ≡ self.old) }

        // What is held is what the messages that were taken say together.
        ensures joined { OnOk result ((messages : List (List ℕ))
            → self.old ≡ gathered self.old.kind messages
            → self.new ≡ gathered self.old.kind (messages ++ message.now ∷ [])) }
    {
        self.add(message)
    }

    fn add(&mut self, message: &[u8]) -> Result<Progress, BadText>
        requires { self.old.whole ≡ false }
        ensures ok { OnOk result (self.new ≡ with_message self.old message.now) }
        ensures whole { IfOk result (λ progress.
            (progress ≡ Progress.Whole) ↔ IsTrue self.new.whole) }
        ensures too_long { IsErrOf result BadText.TooLong
            ↔ (limit_of self.old.kind
            < length self.old.bytes + length (part_of self.old.kind message.now)) }
        ensures refusals { IfErr result (λ fault. (fault ≡ BadText.TooLong)
            ⊎ (fault ≡ BadText.Memory)) }
        ensures memory { IsErrOf result BadText.Memory
            → (self.old.kind ≢ OfCommand) × (message.now ≢ []) }
        ensures err { OnErr result (self.new ≡ self.old) }
    {
        let progress = match &mut self.held {
            Held::Command(text) => push_text(text, message)?,
            Held::File(bytes, limit) => push_bytes(bytes, *limit, message)?,
        };
        self.whole = progress == Progress::Whole;
        Ok(progress)
    }
}

fn push_text(text: &mut ArrayVec<u8, COMMAND_MAX>, message: &[u8]) -> Result<Progress, BadText>
    ensures ok { OnOk result (text.new.items ≡ text.old.items ++ text_part message.now) }
    ensures whole { IfOk result (λ progress.
        (progress ≡ Progress.Whole) ↔ IsTrue (list_any is_zero message.now)) }
    ensures too_long { IsErrOf result BadText.TooLong
        ↔ (COMMAND_MAX < length text.old.items + length (text_part message.now)) }
    ensures refusal { IfErr result (λ fault. fault ≡ BadText.TooLong) }
    ensures err { OnErr result (text.new ≡ text.old) }
{
    let len = text_len(message);
    if text.try_extend_from_slice(&message[..len]).is_err() {
        return Err(BadText::TooLong);
    }
    if len < message.len() {
        Ok(Progress::Whole)
    } else {
        Ok(Progress::More)
    }
}

fn push_bytes<A: Allocator>(
    bytes: &mut Vec<u8, A>,
    limit: usize,
    message: &[u8],
) -> Result<Progress, BadText>
    ensures ok { OnOk result (bytes.new.items ≡ bytes.old.items ++ message.now) }
    ensures whole { IfOk result (λ progress.
        (progress ≡ Progress.Whole) ↔ (length message.now ≡ 0)) }
    ensures too_long { IsErrOf result BadText.TooLong
        ↔ (limit < length bytes.old.items + length message.now) }
    ensures refusals { IfErr result (λ fault. (fault ≡ BadText.TooLong)
        ⊎ (fault ≡ BadText.Memory)) }
    ensures memory { IsErrOf result BadText.Memory → 0 < length message.now }
    ensures err { OnErr result (bytes.new.items ≡ bytes.old.items) }
{
    if bytes.len() + message.len() > limit {
        return Err(BadText::TooLong);
    }
    if message.is_empty() {
        return Ok(Progress::Whole);
    }
    if bytes.extend_from_slice(message).is_err() {
        return Err(BadText::Memory);
    }
    Ok(Progress::More)
}

// How many bytes stand before the first zero byte.
fn text_len(message: &[u8]) -> usize
    ensures value { result ≡ position_or_len is_zero message.now }
    ensures fits { result ≤ length message.now }
    ensures zero { (result < length message.now) ↔ IsTrue (list_any is_zero message.now) }
    ensures part { length (text_part message.now) ≡ result }
{
    zero_place(message)
}

fn zero_place(message: &[u8]) -> usize
    ensures value { result ≡ position_or_len is_zero message.now }
    ensures fits { result ≤ length message.now }
{
    message.iter().take_while(|b| **b != 0).count()
}
