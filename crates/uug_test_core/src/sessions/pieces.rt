//! A whole end that takes a whole piece.

use super::place;
use crate::assertions::assert_same;
use std::alloc::Global;
use std::process::Abort;
use uug_session::{MemorySpool, Node, Queue};

fn caller(rt: &impl Abort, alloc: Global) -> Node<MemorySpool<Global>, Global> {
    let place = place(rt, b"a", b"b");
    let (queue, spool) = (Queue::new(alloc), MemorySpool::new(alloc));
    Node::caller(alloc, place, queue, spool).expect(rt, "a caller")
}

fn take_piece(rt: &impl Abort, caller: &mut Node<MemorySpool<Global>, Global>) {
    let taken = caller.arrive(b"login:\x10Shere=b\n");
    taken.expect(rt, "memory for a piece");
    assert_same(rt, caller.outbox().bytes(), b"\x10Sa\0".as_slice());
    assert_same(rt, caller.waiting(), 0);
}

#[test]
fn takes_a_whole_piece(rt: HostRuntime) {
    let mut caller = caller(&rt, rt.alloc());
    take_piece(&rt, &mut caller);
    drop(caller);
}
