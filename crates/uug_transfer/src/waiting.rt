//! The entries of an outbox that are left out before writing.
ghost use Rattle.std.specs.Prelude.{◌≡◌, ◌+◌, ◌<◌, ◌&&◌, ◌||◌, drop, length};
ghost use Rattle.std.specs.List.{list_any};
ghost use Rattle.uug_link.specs.Entries.{shown_entry};
ghost use Rattle.uug_packet.specs.Decoded.{decoded};
ghost use Rattle.uug_packet.specs.declared.header.TheConstants.{HEADER_SIZE};
ghost use Rattle.uug_transfer.specs.Thinning.{acknowledges, is_covered_of, is_left_out_at, is_read_as_rr, is_repeated_of, is_rr, is_said_by, is_sent_again};

use crate::thinning::Thinning;
use std::alloc::Allocator;
use uug_link::{Entry, Outbox};
use uug_packet::{Control, HEADER_SIZE, Packet, decode};

/// Returns whether the entry at a place is left out.
pub(crate) fn is_left_out<A: Allocator>(thinning: Thinning, outbox: &Outbox<A>, i: usize) -> bool
    requires { i < length outbox.now.entries }
    ensures { result ≡ is_left_out_at thinning outbox.now.entries i }
{
    match thinning {
        Thinning::Nothing => false,
        Thinning::Repeats => is_repeated(outbox, i),
        Thinning::RepeatsAndAcks => is_repeated(outbox, i) || is_covered(outbox, i),
    }
}

/// Returns whether the entry at a place is a data packet that goes out again after it.
fn is_repeated<A: Allocator>(outbox: &Outbox<A>, i: usize) -> bool
    requires { i < length outbox.now.entries }
    ensures { result ≡ is_repeated_of (drop i outbox.now.entries) }
{
    match outbox.entry(i) {
        Entry::Text(_) => false,
        Entry::Packet { bytes, .. } => {
            bytes.len() > HEADER_SIZE && goes_out_again(outbox, i, bytes)
        }
    }
}

/// Returns whether a packet of these bytes goes out again after this place.
fn goes_out_again<A: Allocator>(outbox: &Outbox<A>, i: usize, packet: &[u8]) -> bool
    requires { i < length outbox.now.entries }
    ensures { result ≡ list_any (is_sent_again packet.now) (drop (i + 1) outbox.now.entries) }
{
    let count = outbox.len();
    for place in i + 1..count {
        if is_sent_again(outbox.entry(place), packet) {
            return true;
        }
    }
    false
}

/// Returns whether the entry at a place is an RR that the entries directly after it make superfluous.
fn is_covered<A: Allocator>(outbox: &Outbox<A>, i: usize) -> bool
    requires { i < length outbox.now.entries }
    ensures { result ≡ is_covered_of (drop i outbox.now.entries) }
{
    let count = outbox.len();
    if count - i < 2 {
        return false;
    }
    if count - i < 3 {
        return is_said_by_one(outbox.entry(i), outbox.entry(i + 1));
    }
    is_said_by_two(outbox.entry(i), outbox.entry(i + 1), outbox.entry(i + 2))
}

/// Returns whether an entry is an RR that the next one makes superfluous.
fn is_said_by_one(entry: Entry<'_>, next: Entry<'_>) -> bool
    ensures { result ≡ (is_rr (shown_entry entry.entry)
        && is_said_by (shown_entry entry.entry) (shown_entry next.entry)) }
{
    is_rr(entry) && is_said_by(entry, next)
}

/// Returns whether an entry is an RR that the next two make superfluous.
fn is_said_by_two(entry: Entry<'_>, next: Entry<'_>, last: Entry<'_>) -> bool
    ensures { result ≡ (is_rr (shown_entry entry.entry)
        && (is_said_by (shown_entry entry.entry) (shown_entry next.entry)
        || (is_rr (shown_entry next.entry) && (is_rr (shown_entry last.entry)
        || is_said_by (shown_entry next.entry) (shown_entry last.entry))))) }
{
    is_rr(entry)
        && (is_said_by(entry, next) || is_rr(next) && (is_rr(last) || is_said_by(next, last)))
}

/// Returns whether an entry is a header alone, and the next is a new data packet that acknowledges the same.
fn is_said_by(entry: Entry<'_>, carrier: Entry<'_>) -> bool
    ensures { result ≡ is_said_by (shown_entry entry.entry) (shown_entry carrier.entry) }
{
    match entry {
        Entry::Text(_) => false,
        Entry::Packet { bytes, .. } => bytes.len() == HEADER_SIZE && acknowledges(carrier, bytes),
    }
}

/// Returns whether an entry is a new data packet that acknowledges the same as this header.
fn acknowledges(carrier: Entry<'_>, header: &[u8]) -> bool
    requires { length header.now ≡ HEADER_SIZE }
    ensures { result ≡ acknowledges header.now (shown_entry carrier.entry) }
{
    match carrier {
        Entry::Text(_) => false,
        Entry::Packet { bytes, first } => {
            first && bytes.len() > HEADER_SIZE && bytes[4] % 8 == header[4] % 8
        }
    }
}

/// Returns whether an entry is a packet of these bytes that was sent before.
fn is_sent_again(entry: Entry<'_>, packet: &[u8]) -> bool
    ensures { result ≡ is_sent_again packet.now (shown_entry entry.entry) }
{
    match entry {
        Entry::Text(_) => false,
        Entry::Packet { bytes, first } => !first && bytes == packet,
    }
}

/// Returns whether an entry is an RR.
fn is_rr(entry: Entry<'_>) -> bool
    ensures { result ≡ is_rr (shown_entry entry.entry) }
{
    match entry {
        Entry::Text(_) => false,
        Entry::Packet { bytes, .. } => bytes.len() == HEADER_SIZE && is_read_as_rr(bytes),
    }
}

/// Returns whether these bytes begin with an RR.
fn is_read_as_rr(bytes: &[u8]) -> bool
    ensures { result ≡ is_read_as_rr (decoded bytes.now) }
{
    matches!(decode(bytes), Ok((Packet::Control(Control::Rr(_)), _)))
}
