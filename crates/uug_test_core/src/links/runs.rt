//! Links from their first packet to their end.

use super::{
    Answer, Call, NOTHING, Row, SILENCE, Wire, announce, assert_holds, follow, follow_called,
};
use crate::assertions::{assert_same, assert_so};
use std::alloc::Global;
use std::process::Abort;
use uug_link::{Announce, BadAnnounce, Link, LinkFault, Outbox, Outcome};
use uug_test_alloc::Refusing;

const UP: Answer = Ok(Outcome::Up);

const TAKEN: Answer = Ok(Outcome::Taken);

const CLOSED: Answer = Ok(Outcome::Closed);

const HALTED: Answer = Err(LinkFault::Halted);

#[test]
fn announces_windows_and_sizes(rt: HostRuntime) {
    for (window, size, fault) in [
        (0, 64, BadAnnounce::BadWindow),
        (8, 64, BadAnnounce::BadWindow),
        (0, 48, BadAnnounce::BadWindow),
        (8, 48, BadAnnounce::BadWindow),
        (7, 48, BadAnnounce::BadSize),
    ] {
        assert_same(&rt, Announce::new(window, size), Err(fault));
    }
    let greatest = announce(&rt, 7, 4096);
    assert_same(&rt, (greatest.window(), greatest.size()), (7, 4096));
}

/// The start-up of a caller that has begun. The other end's INITC announces a smaller window than its INITA.
const COMES_UP: &[Row<'static>] = &[
    (Call::Hear(Wire::InitA(7)), &[Wire::InitB(0)], NOTHING, 0),
    (Call::Hear(Wire::InitB(1)), &[Wire::InitC(3)], NOTHING, 0),
    (Call::Hear(Wire::InitC(3)), SILENCE, UP, 0),
];

/// The rows in which a whole window goes out.
const FILLS: &[Row<'static>] = &[
    (Call::Send(b"a"), &[Wire::Data(1, 0, b"a")], NOTHING, 1),
    (Call::Send(b"b"), &[Wire::Data(2, 0, b"b")], NOTHING, 2),
    (Call::Send(b"c"), &[Wire::Data(3, 0, b"c")], NOTHING, 3),
];

/// The rows in which packets are asked for again, one and several. Then one is taken, what is left is repeated, and
/// the link closes.
const GOES_ON: &[Row<'static>] = &[
    (
        Call::Hear(Wire::Srj(3)),
        &[Wire::Data(3, 0, b"c")],
        NOTHING,
        3,
    ),
    (
        Call::Hear(Wire::Rj(1)),
        &[Wire::Data(2, 0, b"b"), Wire::Data(3, 0, b"c")],
        NOTHING,
        2,
    ),
    (
        Call::Hear(Wire::Padded(1, 2, b"x")),
        &[Wire::Rr(1)],
        TAKEN,
        1,
    ),
    (Call::Timeout, &[Wire::Data(3, 1, b"c")], NOTHING, 1),
    (Call::Bad, &[Wire::Rj(1)], NOTHING, 1),
    (Call::Bad, SILENCE, NOTHING, 1),
    (Call::Hear(Wire::Rr(3)), SILENCE, NOTHING, 0),
    (Call::Send(b"d"), &[Wire::Data(4, 1, b"d")], NOTHING, 1),
    (Call::Shut, &[Wire::Close], NOTHING, 1),
];

const CLOSES: &[Row<'static>] = &[
    (Call::Timeout, &[Wire::Close], NOTHING, 1),
    (Call::Hear(Wire::Close), SILENCE, CLOSED, 1),
    (Call::Hear(Wire::Close), SILENCE, HALTED, 1),
];

/// The start-up of a called end.
const COMES_UP_CALLED: &[Row<'static>] = &[
    (Call::Hear(Wire::InitA(3)), &[Wire::InitA(2)], NOTHING, 0),
    (Call::Hear(Wire::InitB(1)), &[Wire::InitB(0)], NOTHING, 0),
    (Call::Hear(Wire::InitC(3)), &[Wire::InitC(2)], UP, 0),
];

/// The rows in which the other end closes the link.
const IS_CLOSED: &[Row<'static>] = &[
    (Call::Hear(Wire::Close), &[Wire::Close], CLOSED, 0),
    (Call::Bad, SILENCE, HALTED, 0),
];

/// A timeout of a caller that hears nothing. `GIVES_UP` has the last ones.
const LATE: Row<'static> = (Call::Timeout, &[Wire::InitA(3)], NOTHING, 0);

const GIVES_UP: &[Row<'static>] = &[
    (Call::Timeout, &[Wire::Close], Err(LinkFault::GaveUp), 0),
    (Call::Timeout, SILENCE, HALTED, 0),
];

/// Begins a caller's link. Each request for memory is refused once.
fn begin(
    rt: &impl Abort,
    heap: &Refusing<Global>,
    out: &mut Outbox<&Refusing<Global>>,
    own: Announce,
) -> Link {
    let mut link = Link::caller(own);
    heap.refuse(1);
    assert_so(rt, link.begin(out).is_err());
    heap.refuse(2);
    assert_so(rt, link.begin(out).is_err());
    heap.refuse(3);
    link.begin(out).expect(rt, "memory");
    assert_holds(rt, out, &[Wire::InitA(3)], false);
    link
}

fn begun(rt: &impl Abort, alloc: Global) -> Link {
    let heap = Refusing::new(alloc, 0);
    let mut out = Outbox::new(&heap);
    begin(rt, &heap, &mut out, announce(rt, 3, 32))
}

/// Asserts that the link is up, with this window and size.
fn assert_up(rt: &impl Abort, link: &Link, window: usize, size: usize) {
    assert_so(rt, link.is_up());
    assert_same(rt, (link.window(), link.size()), (window, size));
}

#[test]
fn a_caller_sends_and_closes(rt: HostRuntime) {
    let mut link = begun(&rt, rt.alloc());
    follow(&rt, rt.alloc(), &mut link, COMES_UP);
    assert_up(&rt, &link, 3, 64);
    follow(&rt, rt.alloc(), &mut link, FILLS);
    assert_so(&rt, !link.room());
    follow(&rt, rt.alloc(), &mut link, GOES_ON);
    assert_so(&rt, link.is_closing());
    follow(&rt, rt.alloc(), &mut link, CLOSES);
}

#[test]
fn a_called_end_is_closed(rt: HostRuntime) {
    let own = announce(&rt, 2, 32);
    follow_called(&rt, rt.alloc(), own, COMES_UP_CALLED, IS_CLOSED);
}

// a timeout that is counted though memory was refused
#[test]
fn a_caller_gives_up(rt: HostRuntime) {
    let mut link = begun(&rt, rt.alloc());
    follow(&rt, rt.alloc(), &mut link, &[LATE; 7]);
    follow(&rt, rt.alloc(), &mut link, GIVES_UP);
}
