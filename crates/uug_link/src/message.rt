ghost use Rattle.std.specs.Prelude.{◌≡◌, ℕ, ◌+◌, ◌%◌, ◌<◌, ◌≤◌, List, [], ◌∷◌, length, ◌++◌, map, get_or, true, false};
ghost use Rattle.uug_link.specs.Follows.{written};
ghost use Rattle.uug_link.specs.Reactions.{emitted_of, state_of};
ghost use Rattle.uug_link.specs.Slots.{AreSlots, messages_in};
ghost use Rattle.uug_link.specs.Step.{data_packet, distance, outstanding, selected};
ghost use Rattle.uug_link.specs.Terms.{smallest_code};
ghost use Rattle.uug_packet.specs.Field.{IsFieldCode, field_size};
ghost use Rattle.uug_packet.specs.Number.{number_of};
ghost use Rattle.uug_packet.specs.Packet.{shown};
ghost use Rattle.uug_packet.specs.Spelling.{canonical, IsWritable};

use crate::entry::EntryKind;
use crate::limits::{MESSAGE_MAX, UNACKED_MAX, WINDOW_MAX};
use crate::outbox::Outbox;
use crate::reaction::Emits;
use crate::slots::Slots;
use crate::status::Status;
use std::alloc::Allocator;
use uug_packet::{Packet, Seq, field_code};

impl Status {
    /// Makes the data packet that carries a message, in the smallest field that holds it.
    fn data_packet<'a>(self, number: Seq, message: &'a [u8]) -> Packet<'a>
        requires { length message.now ≤ MESSAGE_MAX }
        ensures packet { shown result
            ≡ data_packet (state_of self []) (number_of number) message.now }
        ensures writable { IsWritable (shown result) }
    {
        Packet::Carry {
            seq: number,
            ack: self.received,
            k: smallest_code(message.len()),
            message,
        }
    }

    /// Writes the packet that carries a message, and emits it.
    pub(crate) fn send_first<A: Allocator>(
        self,
        number: Seq,
        message: &[u8],
        slots: &mut Slots,
        out: &mut Outbox<A>,
    )
        requires place { length slots.old < UNACKED_MAX }
        requires fits { length message.now ≤ MESSAGE_MAX }
        requires room { 0 < out.old.spare }
        ensures slots { slots.new ≡ slots.old
            ++ canonical (data_packet (state_of self []) (number_of number) message.now) ∷ [] }
        ensures emitted { out.new.entries ≡ out.old.entries ++ written (record {
          packet = data_packet (state_of self []) (number_of number) message.now;
          first = true;
        }) ∷ [] }
        ensures spare { out.old.spare ≤ out.new.spare + 1 }
    {
        let last = slots.len();
        slots.add(&self.data_packet(number, message));
        out.add_within(EntryKind::Packet { first: true }, slots.packet(last));
    }

    /// Returns the number of packets that go out, on a link with this many outstanding.
    pub(crate) fn emissions(self, emits: Emits, outstanding: usize) -> usize
        requires { outstanding ≤ WINDOW_MAX }
        ensures count { (ms : List (List ℕ)) → length ms ≡ outstanding →
            result ≡ length (emitted_of emits (state_of self ms)) }
        ensures few { result ≤ WINDOW_MAX }
    {
        match emits {
            Emits::Nothing => 0,
            Emits::Control(_) => 1,
            Emits::Outstanding => outstanding,
            Emits::Selected(number) if self.place_of(number) < outstanding => 1,
            Emits::Selected(_) => 0,
        }
    }

    /// Returns the index of the packet with this number, if it is outstanding.
    fn place_of(self, number: Seq) -> usize
        ensures { result ≡ distance (number_of self.oldest) (number_of number) }
    {
        usize::from(number.ahead_of(self.oldest))
    }

    /// Emits into the outbox, which has room for it.
    pub(crate) fn emit<A: Allocator>(self, emits: Emits, slots: &mut Slots, out: &mut Outbox<A>)
        requires slots { AreSlots (number_of self.oldest) slots.old }
        requires room { length (emitted_of emits (state_of self (messages_in slots.old)))
            ≤ out.old.spare }
        ensures slots { AreSlots (number_of self.oldest) slots.new }
        ensures messages { messages_in slots.new ≡ messages_in slots.old }
        ensures emitted { out.new.entries ≡ out.old.entries
            ++ map written (emitted_of emits (state_of self (messages_in slots.old))) }
        ensures spare { out.old.spare ≤ out.new.spare
            + length (emitted_of emits (state_of self (messages_in slots.old))) }
    {
        match emits {
            Emits::Nothing => {}
            Emits::Control(control) => out.add_control(control),
            Emits::Outstanding => self.send_again(slots, out),
            Emits::Selected(number) => self.send_selected(number, slots, out),
        }
    }

    /// Emits all outstanding packets again, in order.
    fn send_again<A: Allocator>(self, slots: &mut Slots, out: &mut Outbox<A>)
        requires slots { AreSlots (number_of self.oldest) slots.old }
        requires room { length slots.old ≤ out.old.spare }
        ensures slots { AreSlots (number_of self.oldest) slots.new }
        ensures messages { messages_in slots.new ≡ messages_in slots.old }
        ensures emitted { out.new.entries ≡ out.old.entries
            ++ map written (outstanding (state_of self (messages_in slots.old))) }
        ensures spare { out.old.spare ≤ out.new.spare + length slots.old }
    {
        for i in 0..slots.len() {
            self.repeat(i, slots, out);
        }
    }

    /// Emits the packet with this number again, if it is outstanding.
    fn send_selected<A: Allocator>(self, number: Seq, slots: &mut Slots, out: &mut Outbox<A>)
        requires slots { AreSlots (number_of self.oldest) slots.old }
        requires room { let s = state_of self (messages_in slots.old) in
            length (selected (number_of number) s) ≤ out.old.spare }
        ensures slots { AreSlots (number_of self.oldest) slots.new }
        ensures messages { messages_in slots.new ≡ messages_in slots.old }
        ensures emitted { let s = state_of self (messages_in slots.old) in
            out.new.entries ≡ out.old.entries ++ map written (selected (number_of number) s) }
        ensures spare { let s = state_of self (messages_in slots.old) in
            out.old.spare ≤ out.new.spare + length (selected (number_of number) s) }
    {
        let place = self.place_of(number);
        if place < slots.len() {
            self.repeat(place, slots, out);
        }
    }

    /// Emits a packet again, with the number of the last one that was taken.
    fn repeat<A: Allocator>(self, i: usize, slots: &mut Slots, out: &mut Outbox<A>)
        requires within { i < length slots.old }
        requires slots { AreSlots (number_of self.oldest) slots.old }
        requires room { 0 < out.old.spare }
        ensures slots { AreSlots (number_of self.oldest) slots.new }
        ensures messages { messages_in slots.new ≡ messages_in slots.old }
        ensures emitted { out.new.entries ≡ out.old.entries ++ written (record {
          packet = data_packet (state_of self []) ((number_of self.oldest + i) % 8)
              (get_or (messages_in slots.old) i []);
          first = false;
        }) ∷ [] }
        ensures spare { out.old.spare ≤ out.new.spare + 1 }
    {
        slots.re_ack(i, self.received);
        out.add_within(EntryKind::Packet { first: false }, slots.packet(i));
    }
}

/// Returns the code of the smallest field that holds this many bytes.
fn smallest_code(len: usize) -> u8
    requires { len ≤ MESSAGE_MAX }
    ensures value { result ≡ smallest_code len }
    ensures code { IsFieldCode result }
    ensures holds { len ≤ field_size result }
{
    field_code(len)
}
