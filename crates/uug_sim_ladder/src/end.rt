//! An end as its ladder is drawn.
ghost use Rattle.std.specs.Prelude.{◌≡◌};
ghost use Rattle.uug_packet.specs.Decoded.{decoded};
ghost use Rattle.uug_sim_ladder.specs.Acts.{end_begins, end_kept, is_repeat, next_behind};

use crate::way::WayByte;
use std::alloc::Allocator;
use uug_packet::{Packet, decode};

/// The state of an end while its ladder is drawn.
#[derive(Drop)]
pub(crate) struct DrawnEnd<A: Allocator> {
    /// The number of the next data packet that it sends for the first time.
    pub(crate) next: u8,
    /// The bytes on their way from it.
    pub(crate) way: Vec<WayByte, A>,
}

impl<A: Allocator + Copy> DrawnEnd<A> {
    /// Begins a session.
    pub(crate) fn new(alloc: A) -> Self
        ensures { end_kept result ≡ end_begins }
    {
        DrawnEnd {
            next: 1,
            way: Vec::new(alloc),
        }
    }
}

/// Returns whether an end has sent this packet before. `next` is the number of its next new data packet.
pub(crate) fn is_repeat(next: u8, packet: &[u8]) -> bool
    ensures { result ≡ is_repeat next (decoded packet.now) }
{
    match decode(packet) {
        Ok((Packet::Carry { seq, .. }, _)) => seq.value() != next,
        _ => false,
    }
}

/// Returns the number of the next new data packet after this packet.
pub(crate) fn next_behind(next: u8, packet: &[u8]) -> u8
    ensures { result ≡ next_behind next (decoded packet.now) }
{
    match decode(packet) {
        Ok((Packet::Carry { seq, .. }, _)) if seq.value() == next => seq.next().value(),
        _ => next,
    }
}
