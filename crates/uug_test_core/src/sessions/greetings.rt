//! Greetings of an end `a` that calls `b`, text by text as they come over the line. Beyond the clauses this catches an
//! end that always reports lack of memory.

use super::place;
use crate::assertions::assert_same;
use std::alloc::{Allocator, Global};
use std::process::Abort;
use uug_link::Outbox;
use uug_session::{End, Greeted, Greeting, Place};
use uug_talk::Hail;

/// Handles the texts of a stream, at most eight.
fn hear<A: Allocator>(
    rt: &impl Abort,
    mut greeting: Greeting,
    place: &Place,
    mut stream: &[u8],
    out: &mut Outbox<A>,
) -> Greeted {
    let mut hail = Hail::new();
    for _ in 0..8 {
        let Ok((used, _)) = hail.push(stream) else {
            return greeting.on_long_text();
        };
        if !hail.is_whole() {
            break;
        }
        let led = greeting.on_text(place, hail.text(), out);
        match led.expect(rt, "memory for a text").greeted {
            Greeted::GoesOn(next) => greeting = next,
            over => return over,
        }
        hail.clear();
        stream = &stream[used..];
    }
    Greeted::GoesOn(greeting)
}

/// The input of an end, what it says, and the result.
type Row<'a> = (&'a [u8], &'a [u8], Greeted);

const CALLER_GREETS: Row<'static> = (
    b"login:\x10Shere=b\n\x10ROKN07\0\x10Pitg\0",
    b"\x10Sa\0\x10Ug\0",
    Greeted::LinkBegins,
);

const CALLER_IS_REFUSED: Row<'static> = (
    b"\x10Shere=b\0\x10RLCK\0",
    b"\x10Sa\0",
    Greeted::Ended(End::Refused),
);

const CALLED_GREETS: Row<'static> = (
    b"\x10Sa\0\x10Ug\0",
    b"\x10Shere=b\0\x10ROK\0\x10Pg\0",
    Greeted::LinkBegins,
);

fn greets_as_caller(rt: &impl Abort, alloc: Global, place: &Place, row: Row<'_>) {
    let mut out = Outbox::new(alloc);
    let greeted = hear(rt, Greeting::caller(), place, row.0, &mut out);
    assert_same(rt, (greeted, out.bytes()), (row.2, row.1));
}

fn greets_as_called_end(rt: &impl Abort, alloc: Global, place: &Place, row: Row<'_>) {
    let mut out = Outbox::new(alloc);
    let greeting = Greeting::called(&place.me, &mut out).expect(rt, "memory for a name");
    let greeted = hear(rt, greeting, place, row.0, &mut out);
    assert_same(rt, (greeted, out.bytes()), (row.2, row.1));
}

#[test]
fn ends_greet_each_other(rt: HostRuntime) {
    let (a, b) = (place(&rt, b"a", b"b"), place(&rt, b"b", b"a"));
    greets_as_caller(&rt, rt.alloc(), &a, CALLER_GREETS);
    greets_as_caller(&rt, rt.alloc(), &a, CALLER_IS_REFUSED);
    let mut long = [b'x'; 258];
    long[0] = 0x10;
    let is_bad: Row<'_> = (&long, b"", Greeted::Ended(End::BadTalk));
    greets_as_caller(&rt, rt.alloc(), &a, is_bad);
    greets_as_called_end(&rt, rt.alloc(), &b, CALLED_GREETS);
}
