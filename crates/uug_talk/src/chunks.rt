ghost use Rattle.std.specs.Prelude.{◌≡◌, ◌≢◌, ◌+◌, ◌<◌, ◌≤◌, [], ◌∷◌, ◌++◌, true, false, length, take, drop, replicate, All, IsTrue, ◌↔◌};
ghost use Rattle.std.specs.Bool.{OnTrue, OnFalse};
ghost use Rattle.std.specs.Iterator.{YieldsFirstBy, item_count};
ghost use Rattle.uug_talk.specs.declared.chunks.TheConstants.{MESSAGE_MAX};
ghost use Rattle.uug_talk.specs.Chunks.{IsCommandText, command_messages, file_messages, last_zeros};

use crate::words::COMMAND_MAX;
use arrayvec::ArrayVec;

/// The longest message, in bytes.
pub const MESSAGE_MAX: usize = 4096;

/// A message, which one packet carries.
pub type Message = ArrayVec<u8, MESSAGE_MAX>;

#[derive(Clone, Copy, Debug, PartialEq, Eq)]
enum Ending {
    // The last message ends with zeros, one at least.
    Zeros,
    // The last message is empty.
    Empty,
    // The last message was given.
    Given,
}

/// The messages of a command or a file, in order. A command is sent as its text, one zero byte and zeros up to a
/// multiple of the size, cut every `size` bytes; a short one ends with its zero byte. A file is sent as its bytes, cut
/// every `size` bytes, and one empty message.
#[derive(Drop)]
pub struct Chunks<'a> {
    rest: &'a [u8],
    size: usize,
    // Whether the last message of a command ends with its zero byte.
    short: bool,
    ending: Ending,
    ghost some: { 0 < size },
    ghost fits: { size ≤ MESSAGE_MAX },
}

/// Returns whether a text may be sent as a command: at most `COMMAND_MAX` bytes, and no zero byte among them.
pub fn is_command_text(text: &[u8]) -> bool
    ensures { IsTrue result ↔ IsCommandText text.now }
{
    text.len() <= COMMAND_MAX && text.iter().all(|b| *b != 0)
}

impl<'a> Chunks<'a> {
    ghost use Rattle.uug_talk.specs.MessagesLeft.{messages_left};

    /// Returns the messages of a command, with at most `size` bytes each, which is 1 to `MESSAGE_MAX`. `is_command_text`
    /// tells whether the text may be sent so.
    pub fn command(text: &'a [u8], size: usize) -> Self
        requires text { IsCommandText text.now }
        requires some { 0 < size }
        requires fits { size ≤ MESSAGE_MAX }
        ensures { messages_left result
            ≡ command_messages (record { size = size; short = false }) text.now }
    {
        Chunks {
            rest: text,
            size,
            short: false,
            ending: Ending::Zeros,
        }
    }

    /// Returns the messages of a command as `command` does, but the last one ends with the command's zero byte.
    pub fn short_command(text: &'a [u8], size: usize) -> Self
        requires text { IsCommandText text.now }
        requires some { 0 < size }
        requires fits { size ≤ MESSAGE_MAX }
        ensures { messages_left result
            ≡ command_messages (record { size = size; short = true }) text.now }
    {
        Chunks {
            rest: text,
            size,
            short: true,
            ending: Ending::Zeros,
        }
    }

    /// Returns the messages of a file, with at most `size` bytes each, which is 1 to `MESSAGE_MAX`.
    pub fn file(bytes: &'a [u8], size: usize) -> Self
        requires some { 0 < size }
        requires fits { size ≤ MESSAGE_MAX }
        ensures { messages_left result ≡ file_messages size bytes.now }
    {
        Chunks {
            rest: bytes,
            size,
            short: false,
            ending: Ending::Empty,
        }
    }
}

impl<'a> Iterator for Chunks<'a> {
    ghost use Rattle.uug_talk.specs.MessagesLeft.{messages_left};

    type Item = Message;

    ghost next_gives = { YieldsFirstBy (λ message. message.items) messages_left };

    ghost remaining = { item_count messages_left };

    fn next(&mut self) -> Option<Message> {
        let mut message = ArrayVec::new();
        if self.next_into(&mut message) {
            Some(message)
        } else {
            None
        }
    }
}

impl Chunks<'_> {
    ghost use Rattle.uug_talk.specs.MessagesLeft.{measure_of, messages_left};

    /// Replaces `message` by the next message, and returns whether there is one. If there is none, `message` stays.
    /// `next` makes a new message of `MESSAGE_MAX` bytes each time; this makes none.
    pub fn next_into(&mut self, message: &mut Message) -> bool
        ensures some { OnTrue result (messages_left self.old
            ≡ message.new.items ∷ messages_left self.new) }
        ensures none { OnFalse result ((messages_left self.old ≡ [])
            × (messages_left self.new ≡ [])) }
        ensures stays { OnFalse result (message.new ≡ message.old) }
    {
        match self.ending {
            Ending::Zeros => self.command_into(message),
            Ending::Empty => self.file_into(message),
            Ending::Given => return false,
        }
        true
    }

    fn command_into(&mut self, message: &mut Message)
        requires { self.old.ending ≡ Ending.Zeros }
        ensures { messages_left self.old ≡ message.new.items ∷ messages_left self.new }
    {
        if self.rest.len() < self.size {
            let zeros = self.last_zeros();
            self.ending = Ending::Given;
            pad_into(self.rest, zeros, message);
            return;
        }
        self.cut_into(message);
    }

    // How many zeros stand behind the last bytes of a command.
    fn last_zeros(&self) -> usize
        requires { length self.now.rest.now < self.now.size }
        ensures value { result ≡ last_zeros (measure_of self.now) (length self.now.rest.now) }
        ensures fits { length self.now.rest.now + result ≤ MESSAGE_MAX }
    {
        if self.short {
            1
        } else {
            self.size - self.rest.len()
        }
    }

    fn file_into(&mut self, message: &mut Message)
        requires { self.old.ending ≡ Ending.Empty }
        ensures { messages_left self.old ≡ message.new.items ∷ messages_left self.new }
    {
        if self.rest.is_empty() {
            self.ending = Ending::Given;
            message.clear();
            return;
        }
        self.cut_into(message);
    }

    // The first bytes that are left, as many as a message has.
    fn cut_into(&mut self, message: &mut Message)
        ensures message { message.new.items ≡ take self.old.size self.old.rest.now }
        ensures rest { self.new.rest.now ≡ drop self.old.size self.old.rest.now }
        ensures kept { (measure_of self.new ≡ measure_of self.old)
            × (self.new.ending ≡ self.old.ending) }
    {
        let (piece, rest) = self.rest.split_at(self.size.min(self.rest.len()));
        self.rest = rest;
        pad_into(piece, 0, message);
    }
}

// The piece, and so many zeros behind it.
fn pad_into(piece: &[u8], zeros: usize, message: &mut Message)
    requires { length piece.now + zeros ≤ MESSAGE_MAX }
    ensures { message.new.items ≡ piece.now ++ replicate zeros 0 }
{
    message.clear();
    let Ok(()) = message.try_extend_from_slice(piece) else {
        unreachable!();
    };
    for _zero in 0..zeros {
        message.push(0);
    }
}
