//! Tests of the allocator that refuses: which request it refuses, that a refused request can be made again, and that
//! blocks go back. No clause says so.

use crate::assertions::{assert_same, assert_so};
use linked_list_allocator::LocalHeap;
use std::alloc::Global;
use std::process::Abort;
use uug_test_alloc::Refusing;

/// Asks four times for a block. Returns which requests are refused, how many came, and whether one was refused.
fn ask_four_times(heap: &Refusing<Global>) -> ([bool; 4], u64, bool) {
    let mut refused = [false; 4];
    for is_refused in &mut refused {
        *is_refused = Box::new(heap, 7u8).is_err();
    }
    (refused, heap.requests(), heap.was_refused())
}

/// The request to refuse, which of four are then refused, and whether one was.
const ASKED: &[(u64, [bool; 4], bool)] = &[
    (0, [false; 4], false),
    (1, [true, false, false, false], true),
    (2, [false, true, false, false], true),
    (4, [false, false, false, true], true),
    (5, [false; 4], false),
];

// a second request that is refused, a count that does not begin anew, and a refused request that is not counted
#[test]
fn only_the_nth_request_is_refused(rt: HostRuntime) {
    let again = Refusing::new(rt.alloc(), 0);
    for (nth, refused, is_one) in ASKED {
        let heap = Refusing::new(rt.alloc(), *nth);
        assert_same(&rt, ask_four_times(&heap), (*refused, 4, *is_one));
        again.refuse(*nth);
        assert_same(&rt, ask_four_times(&again), (*refused, 4, *is_one));
    }
}

/// Makes a block in this room and grows it. The first growth is refused.
fn grow(rt: &impl Abort, room: &LocalHeap) {
    let heap = Refusing::new(room, 2);
    let mut items = Vec::<u8, &Refusing<&LocalHeap>>::new(&heap);
    assert_so(rt, items.reserve(16).is_ok());
    assert_so(rt, items.reserve(100).is_err());
    assert_so(rt, items.reserve(100).is_ok());
    assert_same(rt, heap.requests(), 3);
    assert_so(rt, room.used() > 0);
}

// a block that is lost where it grows, or that does not go back
#[test]
fn blocks_grow_and_go_back(rt: HostRuntime) {
    let room = LocalHeap::new(rt.alloc(), 1024).expect(&rt, "memory");
    grow(&rt, &room);
    assert_same(&rt, room.used(), 0);
}
