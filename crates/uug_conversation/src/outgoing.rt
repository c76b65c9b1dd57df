ghost use Rattle.std.specs.Prelude.{◌≡◌, ◌≢◌, ◌≤◌, ◌<◌, ◌++◌, [], length, drop, All, OnOk, Some, None};
ghost use Rattle.std.specs.Bool.{OnTrue, OnFalse};
ghost use Rattle.uug_conversation.specs.Outgoing.{IsSayable, IsWithin, is_silent, outgoing_messages, sayings_of};
ghost use Rattle.uug_conversation.specs.DialogueState.{first_of, behind_first};

use crate::part::part_of;
use crate::reaction::{Saying, Says};
use crate::spool::Spool;
use std::alloc::{AllocError, Allocator};
use std::marker::Model;
use uug_talk::{MESSAGE_MAX, Message};

/// The most items that an end says at once: an answer, then a command or a file.
pub const SAYINGS_MAX: usize = 2;

/// The items that an end has still to say, and how much of the first was sent. It keeps no text and no file. Each
/// message is made when it goes out, a file's message from the bytes that the spool lends.
#[derive(Drop)]
pub(crate) struct Outgoing<A: Allocator> {
    sayings: Vec<Saying, A>,
    /// The number of items at the front that were said.
    said: usize,
    /// The number of bytes sent from the first item's text or file.
    offset: usize,
}

impl<A: Allocator> Model for Outgoing<A> {
    ghost use Rattle.std.specs.Prelude.{◌-◌, ◌≤◌, All, drop, vec_len, vec_capacity};
    ghost use Rattle.uug_conversation.specs.Outgoing.{Outgoing, IsSayable, IsWithin};

    ghost Value = { Outgoing };

    ghost view = { λ o. record {
      sayings = drop o.said o.sayings.items;
      offset = o.offset;
      room = vec_capacity o.sayings - vec_len o.sayings;
    } };

    ghost invariant = { λ o. (o.said ≤ vec_len o.sayings)
        × All IsSayable (drop o.said o.sayings.items)
        × IsWithin (drop o.said o.sayings.items) o.offset };
}

impl<A: Allocator + Copy> Outgoing<A> {
    /// Makes an empty list. It takes no memory.
    pub(crate) fn new(alloc: A) -> Self
        ensures sayings { result.sayings ≡ [] }
        ensures offset { result.offset ≡ 0 }
    {
        Outgoing {
            sayings: Vec::new(alloc),
            said: 0,
            offset: 0,
        }
    }
}

impl<A: Allocator> Outgoing<A> {
    /// Makes room for everything that is said at once.
    pub(crate) fn reserve(&mut self) -> Result<(), AllocError>
        ensures sayings { self.new.sayings ≡ self.old.sayings }
        ensures offset { self.new.offset ≡ self.old.offset }
        ensures room { OnOk result (SAYINGS_MAX ≤ self.new.room) }
    {
        self.sayings.reserve(SAYINGS_MAX)
    }

    /// Drops everything that is to be said.
    pub(crate) fn clear(&mut self)
        ensures sayings { self.new.sayings ≡ [] }
        ensures offset { self.new.offset ≡ 0 }
        ensures room { self.old.room ≤ self.new.room }
    {
        self.sayings.clear();
        self.said = 0;
        self.offset = 0;
    }

    /// Adds items after all the others.
    pub(crate) fn say(&mut self, says: Says)
        requires room { SAYINGS_MAX ≤ self.old.room }
        requires sayable { All IsSayable (sayings_of says) }
        ensures sayings { self.new.sayings ≡ self.old.sayings ++ sayings_of says }
        ensures offset { self.new.offset ≡ self.old.offset }
        // The bytes sent of a first text lie within it. If nothing was to be said, none was sent.
        ensures within { IsWithin self.old.sayings self.old.offset }
    {
        match says {
            Says::Nothing => {}
            Says::One(first) => self.sayings.push_reserved(first),
            Says::Two(first, next) => {
                self.sayings.push_reserved(first);
                self.sayings.push_reserved(next);
            }
        }
    }

    /// Returns whether nothing is to be said.
    pub(crate) fn is_silent(&self) -> bool
        ensures { result ≡ is_silent self.now.sayings }
    {
        self.said == self.sayings.len()
    }

    /// Moves the next outgoing message, of at most `size` bytes, into `message`, and returns whether there was one. If
    /// `short` is set, the last message of a text ends with its zero byte.
    pub(crate) fn take_message<S: Spool>(
        &mut self,
        spool: &S,
        size: usize,
        short: bool,
        message: &mut Message,
    ) -> bool
        requires some { 0 < size }
        requires fits { size ≤ MESSAGE_MAX }
        ensures first { OnTrue result
            (first_of (outgoing_messages (S.holdings spool.now)
            (record { size = size; short = short }) self.old) ≡ Some message.new.items) }
        ensures none { OnFalse result
            (first_of (outgoing_messages (S.holdings spool.now)
            (record { size = size; short = short }) self.old) ≡ None) }
        ensures behind { outgoing_messages (S.holdings spool.now)
            (record { size = size; short = short }) self.new
            ≡ behind_first (outgoing_messages (S.holdings spool.now)
            (record { size = size; short = short }) self.old) }
        ensures size { OnTrue result (length message.new.items ≤ size) }
        ensures room { self.old.room ≤ self.new.room }
    {
        let Some(first) = self.sayings.get(self.said) else {
            return false;
        };
        if part_of(first, spool, size, short, self.offset, message) {
            self.drop_first();
        } else {
            self.offset += size;
        }
        true
    }

    /// Drops the first item after it was said. After the last one, the room that they took is free again.
    fn drop_first(&mut self)
        requires { self.old.sayings ≢ [] }
        ensures sayings { self.new.sayings ≡ drop 1 self.old.sayings }
        ensures offset { self.new.offset ≡ 0 }
        ensures room { self.old.room ≤ self.new.room }
    {
        self.said += 1;
        self.offset = 0;
        if self.said == self.sayings.len() {
            self.clear();
        }
    }
}
