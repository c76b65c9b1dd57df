//! Files of many lengths, from one end to another, with ample memory. Both announce the greatest packets. A file
//! therefore goes in messages of 4,096 bytes, the last of them in the smallest field that holds it.

use super::line::{Event, Hand, Line};
use super::{Given, Left, MemoryNode, NO_WORK, SEND, Side, assert_ended, end, place};
use std::alloc::Global;
use std::process::Abort;
use uug_session::End;

/// The lengths of the file in bytes.
const LENGTHS: &[usize] = &[
    0, 1, 33, 64, 65, 127, 128, 129, 255, 1000, 2049, 4095, 4096, 4097, 10_000, 1_048_575,
    1_048_576,
];

/// More rounds than 256 messages and their answers take.
const FLOWS: &[Event] = &[Event::Flow(255), Event::Flow(255)];

/// Returns bytes each of which differs from its neighbours.
fn bytes_of(rt: &impl Abort, alloc: Global, len: usize) -> Vec<u8> {
    let mut bytes = Vec::new(alloc);
    for i in 0..len {
        bytes.push((i % 251) as u8).expect(rt, "memory for a byte");
    }
    bytes
}

fn end_of_4096(
    rt: &impl Abort,
    alloc: Global,
    side: Side,
    given: &[Given<'_>],
) -> MemoryNode<Global> {
    end(rt, alloc, side, place(rt, side, 4096), given)
}

fn send(rt: &impl Abort, alloc: Global, bytes: &[u8]) {
    let given = [Given::File(b"x", bytes), Given::Job(SEND)];
    let mut caller = end_of_4096(rt, alloc, Side::Caller, &given);
    send_from(rt, alloc, &mut caller, bytes);
    drop(caller);
}

fn send_from(rt: &impl Abort, alloc: Global, caller: &mut MemoryNode<Global>, bytes: &[u8]) {
    let mut called = end_of_4096(rt, alloc, Side::Called, NO_WORK);
    let mut line = Line::new(alloc, Hand::Whole);
    assert_arrives(rt, &mut line, caller, &mut called, bytes);
    drop(called);
}

fn assert_arrives(
    rt: &impl Abort,
    line: &mut Line,
    caller: &mut MemoryNode<Global>,
    called: &mut MemoryNode<Global>,
    bytes: &[u8],
) {
    line.play(rt, FLOWS, caller, called);
    let (left, right) = (caller.spool().stored(), called.spool().stored());
    assert_ended(rt, caller, left, End::Done, &[Left::Struck(SEND)]);
    assert_ended(rt, called, right, End::Done, &[Left::Stored(b"y", bytes)]);
}

// an end, or a spool, that says that it is out of memory at one of these lengths
#[test]
fn files_of_many_lengths_arrive(rt: HostRuntime) {
    for len in LENGTHS {
        let bytes = bytes_of(&rt, rt.alloc(), *len);
        send(&rt, rt.alloc(), bytes.as_slice());
    }
}
