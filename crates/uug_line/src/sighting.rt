ghost use Rattle.std.specs.Prelude.{◌≡◌, ◌<◌, ◌↔◌, length, slice_get, IsTrue, MatchOption, Some};
ghost use Rattle.uug_packet.specs.Packet.{shown};
ghost use Rattle.uug_packet.specs.Spelling.{IsWritable, canonical};
ghost use Rattle.uug_line.specs.LineEndValue.{AreWritten};
ghost use Rattle.uug_line.specs.Shown.{lists_in};
ghost use Rattle.uug_line.specs.Code.Sightings.{ItemIsWritable, Sights, SightsNext, StandsAt, StandsNowhere};
ghost use Rattle.uug_reader.specs.declared.reader.TheConstants.{READER_SIZE};
ghost use Rattle.uug_session.specs.Node.{held_bytes, item_size, node_of, searched, shown_item};

use std::alloc::Allocator;
use uug_packet::{Packet, is_written};
use uug_session::{Item, MemorySpool, Node};

/// The next item that an end has found in the bytes that arrived.
#[derive(Clone, Copy)]
pub(crate) enum Sighting {
    /// The bytes have no complete item.
    Nothing,
    /// A text, or a broken packet.
    Other,
    /// The other end's packet at this place.
    At(usize),
    /// A packet that was not sent, or not as often.
    Unsent,
}

/// Looks for the next item. A packet is looked up among those that the other end has emitted, after the `passed` first
/// ones.
pub(crate) fn sight<A: Allocator + Copy>(
    node: &mut Node<MemorySpool<A>, A>,
    others: &[Vec<u8, A>],
    passed: usize,
) -> Sighting
    requires { AreWritten (lists_in others.now) }
    ensures found { node_of node.new ≡ searched (node_of node.old) }
    ensures spool { node.new.spool ≡ node.old.spool }
    ensures room { item_size (node_of node.new) ≡ 0
        → length (held_bytes (node_of node.new)) < READER_SIZE }
    ensures next { SightsNext (node_of node.new) (lists_in others.now) passed result }
{
    match node.next_found() {
        None => Sighting::Nothing,
        Some(item) => sighting_of(&item, others, passed),
    }
}

fn sighting_of<A: Allocator>(item: &Item<'_>, others: &[Vec<u8, A>], passed: usize) -> Sighting
    requires writable { ItemIsWritable (shown_item item.now) }
    requires written { AreWritten (lists_in others.now) }
    ensures { Sights (shown_item item.now) (lists_in others.now) passed result }
{
    let Item::Packet(packet) = item else {
        return Sighting::Other;
    };
    match place_of(packet, others, passed) {
        Some(place) => Sighting::At(place),
        None => Sighting::Unsent,
    }
}

/// Returns the first place, after the `passed` first ones, whose packet has this packet's encoded form.
fn place_of<A: Allocator>(
    packet: &Packet<'_>,
    others: &[Vec<u8, A>],
    passed: usize,
) -> Option<usize>
    requires writable { IsWritable (shown packet.now) }
    requires written { AreWritten (lists_in others.now) }
    ensures { MatchOption result
        (StandsNowhere (canonical (shown packet.now)) (lists_in others.now) passed)
        (λ place. StandsAt (canonical (shown packet.now)) (lists_in others.now) passed place) }
{
    for i in passed..others.len() {
        if stands_at(packet, others, i) {
            return Some(i);
        }
    }
    None
}

fn stands_at<A: Allocator>(packet: &Packet<'_>, others: &[Vec<u8, A>], i: usize) -> bool
    requires within { i < length others.now }
    requires writable { IsWritable (shown packet.now) }
    requires written { AreWritten (lists_in others.now) }
    ensures { IsTrue result ↔ (slice_get (lists_in others.now) i
        ≡ Some (canonical (shown packet.now))) }
{
    is_written(packet, others[i].as_slice())
}
