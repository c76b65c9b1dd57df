//! Each request for memory of each call, refused in turn. Beyond the clauses this catches a call that reports lack of
//! memory although none was refused, or that cannot be made again.

use super::{place, send_job};
use crate::assertions::assert_same;
use std::alloc::{Allocator, Global};
use uug_link::{ENTRIES_MAX, Outbox};
use uug_session::{AwaitedText, Greeting, MemorySpool, Place, Queue, Spool, Verdict};
use uug_talk::Name;
use uug_test_alloc::Refusing;

/// A call that takes memory.
#[derive(Clone, Copy)]
enum Call<'a> {
    Add,
    AddFile,
    Keep,
    Deny,
    Later,
    Immovable,
    Reserve,
    AddText,
    SayName,
    Hear(AwaitedText, &'a [u8]),
}

#[derive(Drop)]
struct Stores<A: Allocator> {
    queue: Queue<A>,
    spool: MemorySpool<A>,
    out: Outbox<A>,
}

impl<A: Allocator + Copy> Stores<A> {
    fn new(alloc: A) -> Self {
        Stores {
            queue: Queue::new(alloc),
            spool: MemorySpool::new(alloc),
            out: Outbox::new(alloc),
        }
    }

    /// Makes the call, with the name of an end with this configuration. Returns whether it was done.
    fn make(&mut self, call: Call<'_>, place: &Place) -> bool {
        let x = &place.me;
        match call {
            Call::Add => self.queue.add(send_job(*x)).is_ok(),
            Call::AddFile => self.spool.add_file(*x, 0o644, b"abc").is_ok(),
            Call::Keep => self.spool.keep(x, 0o644, b"abc").is_ok(),
            Call::Deny => self.spool.deny(*x).is_ok(),
            Call::Later => self.spool.later(*x).is_ok(),
            Call::Immovable => self.spool.immovable(*x).is_ok(),
            Call::Reserve => self.out.reserve(ENTRIES_MAX).is_ok(),
            Call::AddText => self.out.add_text(b"abc").is_ok(),
            Call::SayName => Greeting::called(x, &mut self.out).is_ok(),
            Call::Hear(awaited, text) => {
                let greeting = Greeting {
                    awaited,
                    timeouts: 0,
                };
                greeting.on_text(place, text, &mut self.out).is_ok()
            }
        }
    }

    /// Returns whether no job, file or text is there, and a file of the name is taken.
    fn is_empty(&self, x: &Name) -> bool {
        self.queue.pending().is_empty()
            && self.spool.stored().is_empty()
            && self.spool.fetch(x).is_none()
            && self.spool.may_keep(x) == Verdict::Yes
            && self.out.bytes().is_empty()
    }
}

/// Makes a call of which a request may be refused. Returns whether one was, and whether all is well. A refused call
/// must leave nothing behind, and be done when it is made again. A call that is not refused must be done.
fn make_twice<'a>(
    heap: &'a Refusing<Global>,
    call: Call<'_>,
    place: &Place,
    stores: &mut Stores<&'a Refusing<Global>>,
) -> (bool, bool) {
    let is_done = stores.make(call, place);
    if !heap.was_refused() {
        return (false, is_done);
    }
    let is_as_before = !is_done && stores.is_empty(&place.me);
    (true, is_as_before && stores.make(call, place))
}

/// Refuses the nth request of the call, if there is one.
fn refuse(heap: &Refusing<Global>, call: Call<'_>, place: &Place, nth: u64) -> (bool, bool) {
    let mut stores = Stores::new(heap);
    heap.refuse(nth);
    let seen = make_twice(heap, call, place, &mut stores);
    drop(stores);
    seen
}

/// Calls with their names, and the number of requests of each.
const CALLS: &[(&str, Call<'static>, u64)] = &[
    ("add", Call::Add, 3),
    ("add a file", Call::AddFile, 2),
    ("keep", Call::Keep, 2),
    ("deny", Call::Deny, 1),
    ("later", Call::Later, 1),
    ("immovable", Call::Immovable, 1),
    ("reserve", Call::Reserve, 2),
    ("add a text", Call::AddText, 2),
    ("say the name", Call::SayName, 2),
    ("Shere", Call::Hear(AwaitedText::CalledName, b"Shere"), 2),
    ("Sa", Call::Hear(AwaitedText::CallerName, b"Sa"), 2),
    ("Sz", Call::Hear(AwaitedText::CallerName, b"Sz"), 2),
    ("Pg", Call::Hear(AwaitedText::Protocols, b"Pg"), 2),
    ("Pt", Call::Hear(AwaitedText::Protocols, b"Pt"), 2),
];

#[test]
fn makes_refused_calls_good(rt: HostRuntime) {
    let place = place(&rt, b"x", b"x");
    let heap = Refusing::new(rt.alloc(), 0);
    for (name, call, requests) in CALLS {
        for nth in 1..6 {
            let seen = refuse(&heap, *call, &place, nth);
            let expected = (nth <= *requests, true);
            assert_same(&rt, (*name, nth, seen), (*name, nth, expected));
        }
    }
}
