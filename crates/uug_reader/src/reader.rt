ghost use Rattle.std.specs.Prelude.{◌≡◌, ◌-◌, ◌<◌, ◌≤◌, min, [], ◌++◌, length, take, drop, IfOk};

use crate::found::Found;
use crate::place::{Beside, Standing, show};
use crate::ring::{drop_front, find_first};
use circular_buffer::HeapCircularBuffer;
use std::alloc::{AllocError, Allocator, Global};
use std::marker::Model;
use uug_packet::PACKET_MAX;

/// The most bytes that a reader holds: the longest packet.
pub const READER_SIZE: usize = PACKET_MAX;

/// A reader that finds packets in a stream of bytes that comes in pieces. It gives the same packets wherever the
/// stream is cut into pieces.
#[derive(Drop)]
pub struct Reader<A: Allocator = Global> {
    /// The bytes held.
    ring: HeapCircularBuffer<u8, A>,
    /// The message of the item shown.
    beside: Beside,
    /// The item shown, which is the first in the held bytes.
    shown: Option<Standing>,
}

impl<A: Allocator> Model for Reader<A> {
    ghost use Rattle.uug_reader.specs.Reading.{Reading};
    ghost use Rattle.uug_reader.specs.Code.Place.{Holds, size_of};

    ghost Value = { Reading };

    ghost view = { λ r. record { bytes = r.ring.items; shown_size = size_of r.shown } };

    ghost invariant = { λ r. Holds r.ring r.beside.items r.shown };
}

impl<A: Allocator> Reader<A> {
    ghost use Rattle.std.specs.Prelude.{◌↔◌, IsTrue, IsFalse, IsNone, IfSome, MatchOption};
    ghost use Rattle.std.specs.Borrow.{sem};
    ghost use Rattle.uug_reader.specs.declared.reader.TheConstants.{READER_SIZE};
    ghost use Rattle.uug_reader.specs.Cut.{Item};
    ghost use Rattle.uug_reader.specs.Finding.{FindsNothing, FindsFirst, PassesNoise, StandsFirst};
    ghost use Rattle.uug_reader.specs.Reading.{Shows, IsWaiting};
    ghost use Rattle.uug_reader.specs.Loan.{EndsSearched};
    ghost use Rattle.uug_reader.specs.Search.{after_search};
    ghost use Rattle.uug_reader.specs.Shown.{item_of};

    /// Makes a reader that holds nothing. No other call takes memory.
    pub fn new(alloc: A) -> Result<Self, AllocError>
        ensures bytes { IfOk result (λ reader. reader.bytes ≡ []) }
        ensures shown { IfOk result (λ reader. reader.shown_size ≡ 0) }
    {
        Ok(Reader {
            ring: HeapCircularBuffer::with_capacity(alloc, READER_SIZE)?,
            beside: Beside::new(),
            shown: None,
        })
    }

    /// Appends the first bytes that fit, and returns their number. The item shown stays.
    pub fn push(&mut self, piece: &[u8]) -> usize
        ensures count { result ≡ min (READER_SIZE - length self.old.bytes) (length piece.now) }
        ensures bytes { self.new.bytes ≡ self.old.bytes ++ take result piece.now }
        ensures shown { self.new.shown_size ≡ self.old.shown_size }
    {
        self.ring.fill_from_slice(piece)
    }

    /// Drops bytes that are no part of an item from the front, up to the first item. Returns whether there is one.
    /// That item is shown until it is dropped. If there is none, at least one byte fits.
    #[tactic(auto, using(crate::proofs::FindingLemmas::waiting_fits))]
    pub fn search(&mut self) -> bool
        ensures passes { PassesNoise self.old.bytes self.new.bytes }
        ensures found { IsTrue result → (item : Item) × Shows item self.new }
        ensures none { IsFalse result → IsWaiting self.new }
        ensures nothing { IsFalse result ↔ FindsNothing self.old.bytes }
        ensures exact { self.new ≡ after_search self.old.bytes }
    {
        let first = find_first(&mut self.ring, &mut self.beside, self.shown);
        self.shown = first;
        first.is_some()
    }

    /// Returns the item shown, which is the first in the held bytes.
    pub fn showing(&self) -> Option<Found<'_>>
        ensures { MatchOption result (self.now.shown_size ≡ 0) (λ found.
            Shows (item_of found) self.now) }
    {
        let standing = self.shown?;
        Some(show(self.beside.as_slice(), standing.place))
    }

    /// Searches, and shows the first item, which stays. It is the same in each call until it is dropped. After `None`
    /// at least one byte fits.
    pub fn find(&mut self) -> Option<Found<'_>>
        ensures none { IsNone result ↔ FindsNothing self.old.bytes }
        ensures first { IfSome result (λ found. FindsFirst self.old.bytes (item_of found)) }
        ensures* after { sem 𝓛 (EndsSearched A.row A.Allocator self.entry result) }
    {
        self.search();
        self.showing()
    }

    /// Removes the item shown: the bytes of a packet, or one byte if it is bad.
    pub fn drop_found(&mut self)
        requires { 0 < self.old.shown_size }
        ensures item { (item : Item) × StandsFirst item self.old.shown_size self.old.bytes }
        ensures bytes { self.new.bytes ≡ drop self.old.shown_size self.old.bytes }
        ensures shown { self.new.shown_size ≡ 0 }
    {
        if let Some(standing) = self.shown.take() {
            drop_front(&mut self.ring, standing.size);
        }
    }

    /// Returns the number of held bytes.
    pub fn waiting(&self) -> usize
        ensures len { result ≡ length self.now.bytes }
        ensures most { result ≤ READER_SIZE }
    {
        self.ring.len()
    }

    /// Removes all bytes.
    pub fn clear(&mut self)
        ensures bytes { self.new.bytes ≡ [] }
        ensures shown { self.new.shown_size ≡ 0 }
    {
        self.ring.clear();
        self.shown = None;
    }
}
