//! The packets that were sent and not acknowledged, as written.
ghost use Rattle.std.specs.Prelude.{◌≡◌, ℕ, ◌+◌, ◌%◌, ◌<◌, ◌≤◌, List, [], ◌∷◌, ◌++◌, length, drop, get_or, slice_get, slice_set, Some};
ghost use Rattle.arrayvec.specs.ArrayVec.{array_vec_len};
ghost use Rattle.uug_link.specs.Slots.{bytes_in};
ghost use Rattle.uug_packet.specs.Number.{number_of};
ghost use Rattle.uug_packet.specs.Packet.{carry, shown};
ghost use Rattle.uug_packet.specs.Spelling.{canonical, IsWritable};
ghost use Rattle.uug_packet.specs.WellFormed.{IsWellFormed, IsWrittenCarry};

use crate::limits::UNACKED_MAX;
use arrayvec::ArrayVec;
use std::marker::Model;
use uug_packet::{PACKET_MAX, Packet, Seq, encode, re_ack};

/// A place for a written packet.
pub(crate) type Slot = ArrayVec<u8, PACKET_MAX>;

/// The packets that may have to go out again. Their places are used in turn, so that no packet moves when the oldest
/// are struck.
#[derive(Drop)]
pub(crate) struct Slots {
    /// The places. One is added when it is first needed, and overwritten when its turn comes again.
    places: ArrayVec<Slot, UNACKED_MAX>,
    /// The place of the oldest packet.
    oldest: usize,
    /// The number of packets.
    count: usize,
}

impl Model for Slots {
    ghost use Rattle.std.specs.Prelude.{ℕ, List, length};
    ghost use Rattle.uug_link.specs.Slots.{bytes_in, in_turn, AreInUse};

    ghost Value = { List (List ℕ) };

    ghost view = { λ slots. in_turn (bytes_in slots.places.items) slots.oldest slots.count };

    ghost invariant = { λ slots. AreInUse (length slots.places.items) slots.oldest slots.count };
}

impl Slots {
    pub(crate) fn new() -> Self
        ensures { result ≡ [] }
    {
        Slots {
            places: ArrayVec::new(),
            oldest: 0,
            count: 0,
        }
    }

    pub(crate) fn len(&self) -> usize
        ensures count { result ≡ length self.now }
        ensures most { result ≤ UNACKED_MAX }
    {
        self.count
    }

    /// Returns the packet at index `i`, counted from the oldest.
    pub(crate) fn packet(&self, i: usize) -> &[u8]
        requires { i < length self.now }
        ensures value { slice_get self.now i ≡ Some result.now }
        ensures fits { length result.now ≤ PACKET_MAX }
    {
        self.places[in_turn(self.oldest, i)].as_slice()
    }

    /// Removes the oldest packets, which frees their places.
    pub(crate) fn strike(&mut self, count: usize)
        requires { count ≤ length self.old }
        ensures { self.new ≡ drop count self.old }
    {
        self.oldest = in_turn(self.oldest, count);
        self.count -= count;
    }

    /// Writes a packet after the others.
    pub(crate) fn add(&mut self, packet: &Packet<'_>)
        requires room { length self.old < UNACKED_MAX }
        requires writable { IsWritable (shown packet.now) }
        ensures { self.new ≡ self.old ++ canonical (shown packet.now) ∷ [] }
    {
        let place = in_turn(self.oldest, self.count);
        if place == self.places.len() {
            make_place(&mut self.places);
        }
        let Some(slot) = self.places.get_mut(place) else {
            unreachable!()
        };
        encode(packet, slot);
        self.count += 1;
    }

    /// Changes the acknowledgement of the data packet at index `i`.
    pub(crate) fn re_ack(&mut self, i: usize, ack: Seq)
        requires within { i < length self.old }
        requires written { IsWrittenCarry (get_or self.old i []) }
        ensures { (seq old k : ℕ) (message : List ℕ) → IsWellFormed (carry seq old k message) →
            get_or self.old i [] ≡ canonical (carry seq old k message) →
            self.new ≡ slice_set self.old i (canonical (carry seq (number_of ack) k message)) }
    {
        let Some(slot) = self.places.get_mut(in_turn(self.oldest, i)) else {
            unreachable!()
        };
        re_ack(slot, ack);
    }
}

/// Adds an empty place.
fn make_place(places: &mut ArrayVec<Slot, UNACKED_MAX>)
    requires { array_vec_len places.old < UNACKED_MAX }
    ensures { bytes_in places.new.items ≡ bytes_in places.old.items ++ [] ∷ [] }
{
    places.push(Slot::new());
}

/// Returns the place that is used `count` turns after another.
fn in_turn(place: usize, count: usize) -> usize
    requires small { (place < UNACKED_MAX) × (count ≤ UNACKED_MAX) }
    ensures { result ≡ (place + count) % UNACKED_MAX }
{
    (place + count) % UNACKED_MAX
}
