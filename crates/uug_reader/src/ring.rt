//! The search for the first item in a ring, which may hold its bytes in two pieces.
ghost use Rattle.std.specs.Prelude.{◌≡◌, ◌+◌, ◌-◌, ◌≤◌, ◌++◌, IfSome, length, take, drop};
ghost use Rattle.arrayvec.specs.ArrayVec.{array_vec_len};
ghost use Rattle.circular_buffer.specs.Buffer.{buffer};
ghost use Rattle.uug_packet.specs.Bytes.{AreBytes};
ghost use Rattle.uug_reader.specs.Finding.{PassesNoise};
ghost use Rattle.uug_reader.specs.Code.Place.{IsBeside, item_at, item_beside, left, LiesIn, StandsBeside};
ghost use Rattle.uug_reader.specs.Search.{after_search};

use crate::place::{Beside, Place, Standing};
use crate::search::{Search, search_in};
use circular_buffer::HeapCircularBuffer;
use std::alloc::Allocator;
use uug_packet::PACKET_MAX;

/// Returns the first item: the one shown, or else the one that a search finds. The search drops the noise before it,
/// and copies its message into `beside`.
pub fn find_first<A: Allocator>(
    ring: &mut HeapCircularBuffer<u8, A>,
    beside: &mut Beside,
    shown: Option<Standing>,
) -> Option<Standing>
    requires few { length ring.old.items ≤ PACKET_MAX }
    requires shown { IfSome shown (λ standing. IsBeside standing beside.old.items ring.old.items) }
    ensures capacity { ring.new.capacity ≡ ring.old.capacity }
    ensures fewer { length ring.new.items ≤ length ring.old.items }
    ensures passes { PassesNoise ring.old.items ring.new.items }
    ensures stands { StandsBeside result beside.new.items ring.new.items }
    ensures exact { after_search ring.old.items ≡ left 0 result ring.new.items }
{
    are_bytes(ring);
    if shown.is_some() {
        return shown;
    }
    let search = search_ring(ring, beside);
    drop_front(ring, search.passed);
    search.first
}

/// Drops the first `count` bytes.
pub fn drop_front<A: Allocator>(ring: &mut HeapCircularBuffer<u8, A>, count: usize)
    requires { count ≤ length ring.old.items }
    ensures { ring.new ≡ buffer (drop count ring.old.items) ring.old.capacity }
{
    ring.truncate_front(ring.len() - count);
}

/// Reads a ring's pieces, to show the proofs here that they are bytes.
fn are_bytes<A: Allocator>(ring: &HeapCircularBuffer<u8, A>)
    ensures { AreBytes ring.now.items }
{
    let (front, back) = ring.as_slices();
    pieces_are_bytes(front, back);
}

fn pieces_are_bytes(front: &[u8], back: &[u8])
    ensures { AreBytes (front.now ++ back.now) }
{}

/// Searches a ring, and copies the message of the item found into `beside`.
fn search_ring<A: Allocator>(ring: &HeapCircularBuffer<u8, A>, beside: &mut Beside) -> Search
    requires { length ring.now.items ≤ PACKET_MAX }
    ensures within { result.passed ≤ length ring.now.items }
    ensures passes { PassesNoise ring.now.items (drop result.passed ring.now.items) }
    ensures stands { StandsBeside result.first beside.new.items
        (drop result.passed ring.now.items) }
{
    let (front, back) = ring.as_slices();
    search_pieces(front, back, beside)
}

/// Searches two pieces, one after the other. They are joined only if the first has no whole item.
fn search_pieces(front: &[u8], back: &[u8], beside: &mut Beside) -> Search
    requires { length front.now + length back.now ≤ PACKET_MAX }
    ensures within { result.passed ≤ length (front.now ++ back.now) }
    ensures passes { PassesNoise (front.now ++ back.now)
        (drop result.passed (front.now ++ back.now)) }
    ensures stands { StandsBeside result.first beside.new.items
        (drop result.passed (front.now ++ back.now)) }
{
    let search = search_in(front);
    if let Some(standing) = search.first {
        lay(standing.place, &front[search.passed..], beside);
        return search;
    }
    if back.is_empty() {
        return search;
    }
    let later = search_joined(&front[search.passed..], back, beside);
    Search {
        passed: search.passed + later.passed,
        first: later.first,
    }
}

/// Joins two pieces and searches them.
fn search_joined(front: &[u8], back: &[u8], beside: &mut Beside) -> Search
    requires { length front.now + length back.now ≤ PACKET_MAX }
    ensures within { result.passed ≤ length (front.now ++ back.now) }
    ensures passes { PassesNoise (front.now ++ back.now)
        (drop result.passed (front.now ++ back.now)) }
    ensures stands { StandsBeside result.first beside.new.items
        (drop result.passed (front.now ++ back.now)) }
{
    beside.clear();
    append(front, beside);
    append(back, beside);
    let search = search_in(beside.as_slice());
    if let Some(standing) = search.first {
        keep(standing.place, search.passed, beside);
    }
    search
}

/// Copies the message of the item at this place of the bytes into `beside`.
fn lay(place: Place, bytes: &[u8], beside: &mut Beside)
    requires lies { LiesIn place bytes.now }
    requires few { length bytes.now ≤ PACKET_MAX }
    ensures { item_beside place beside.new.items ≡ item_at place bytes.now }
{
    if let Place::Data { start, end, .. } = place {
        beside.clear();
        append(&bytes[start..end], beside);
    }
}

/// Keeps only the message of the item in the joined bytes. The place counts from the byte after the first `passed`.
fn keep(place: Place, passed: usize, beside: &mut Beside)
    requires few { array_vec_len beside.old ≤ PACKET_MAX }
    requires within { passed ≤ array_vec_len beside.old }
    requires lies { LiesIn place (drop passed beside.old.items) }
    ensures { item_beside place beside.new.items ≡ item_at place (drop passed beside.old.items) }
{
    if let Place::Data { start, end, .. } = place {
        beside.truncate(passed + end);
        drop_bytes(beside, passed + start);
    }
}

fn drop_bytes(beside: &mut Beside, count: usize)
    requires { count ≤ array_vec_len beside.old }
    ensures { beside.new.items ≡ drop count beside.old.items }
{
    beside.drain(..count);
}

/// Appends bytes that fit.
fn append(bytes: &[u8], beside: &mut Beside)
    requires { array_vec_len beside.old + length bytes.now ≤ PACKET_MAX }
    ensures { beside.new.items ≡ beside.old.items ++ bytes.now }
{
    if beside.try_extend_from_slice(bytes).is_err() {
        unreachable!()
    }
}
