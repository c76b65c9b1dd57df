//! The room of an outbox. Refusals of its memory are tested beside the other calls that take some.

use super::{Wire, announce, is_packet};
use crate::assertions::{assert_same, assert_so};
use std::alloc::Global;
use std::process::Abort;
use uug_link::{Announce, Entry, Link, Outbox};
use uug_test_alloc::Refusing;

/// Adds a text and a packet, and asserts that both are there. This takes no memory.
fn fill(rt: &impl Abort, own: Announce, out: &mut Outbox<&Refusing<Global>>) {
    assert_so(rt, out.add_text(b"abc").is_ok());
    assert_so(rt, Link::caller(own).begin(out).is_ok());
    assert_so(rt, out.len() == 2);
    assert_same(rt, out.entry(0), Entry::Text(b"abc"));
    assert_so(rt, is_packet(&out.entry(1), Wire::InitA(3), false));
}

/// Makes room for both, and fills it although the next request is refused.
fn reserve_and_fill(
    rt: &impl Abort,
    heap: &Refusing<Global>,
    own: Announce,
    out: &mut Outbox<&Refusing<Global>>,
) {
    assert_so(rt, out.reserve(2).is_ok());
    assert_so(rt, out.spare() >= 2);
    heap.refuse(1);
    fill(rt, own, out);
    out.clear();
    assert_so(rt, out.bytes().is_empty());
}

// two entries for which there is room, and that ask for memory all the same
#[test]
fn outboxes_hold_what_they_have_room_for(rt: HostRuntime) {
    let heap = Refusing::new(rt.alloc(), 0);
    let mut out = Outbox::new(&heap);
    reserve_and_fill(&rt, &heap, announce(&rt, 3, 32), &mut out);
}
