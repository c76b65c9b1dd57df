//! The text of each error of the crates up to `uug_session`.

use crate::assertions::assert_same;
use crate::sessions::place;
use std::alloc::{AllocError, Global};
use std::process::Abort;
use uug_link::{BadAnnounce, LinkFault};
use uug_packet::NoPacket;
use uug_session::{KeepFault, MemorySpool, Node, Queue, QueueFault, Unfinished};
use uug_talk::{BadText, TextTooLong};
use uug_test_alloc::Refusing;

/// An error of one of the crates.
#[derive(Clone, Copy)]
enum Fault {
    Packet(NoPacket),
    Text(BadText),
    Hail(TextTooLong),
    Announce(BadAnnounce),
    Link(LinkFault),
    Queue(QueueFault),
    Keep(KeepFault),
    Piece(Unfinished),
}

const TEXTS: &[(Fault, &str)] = &[
    (Fault::Packet(NoPacket::Short), "more bytes are needed"),
    (Fault::Packet(NoPacket::BadStart), "no packet begins here"),
    (Fault::Packet(NoPacket::BadK), "bad size code"),
    (Fault::Packet(NoPacket::BadXor), "bad header check"),
    (Fault::Packet(NoPacket::BadKind), "bad control byte"),
    (Fault::Packet(NoPacket::BadSum), "bad checksum"),
    (Fault::Packet(NoPacket::BadLength), "bad length"),
    (Fault::Text(BadText::Unknown), "unknown command or answer"),
    (Fault::Text(BadText::Fields), "missing words or options"),
    (Fault::Text(BadText::Name), "bad name"),
    (Fault::Text(BadText::Mode), "bad mode"),
    (Fault::Text(BadText::TooLong), "too long"),
    (Fault::Text(BadText::Memory), "out of memory"),
    (Fault::Hail(TextTooLong), "handshake text too long"),
    (
        Fault::Announce(BadAnnounce::BadWindow),
        "the window is not 1 to 7",
    ),
    (
        Fault::Announce(BadAnnounce::BadSize),
        "the size is not a power of two from 32 to 4096",
    ),
    (Fault::Link(LinkFault::Memory), "out of memory"),
    (
        Fault::Link(LinkFault::GaveUp),
        "the other end has not answered",
    ),
    (Fault::Link(LinkFault::Halted), "the link has ended"),
    (Fault::Queue(QueueFault::Full), "too many jobs"),
    (Fault::Queue(QueueFault::Memory), "out of memory"),
    (
        Fault::Keep(KeepFault::Refused),
        "the file can't be put in its place",
    ),
    (Fault::Keep(KeepFault::Device), "device fault"),
    (Fault::Keep(KeepFault::Memory), "out of memory"),
    (
        Fault::Piece(Unfinished { used: 12 }),
        "out of memory behind 12 bytes of the piece",
    ),
];

fn text_of(alloc: Global, fault: Fault) -> Result<String, AllocError> {
    match fault {
        Fault::Packet(fault) => fault.to_string(alloc),
        Fault::Text(fault) => fault.to_string(alloc),
        Fault::Hail(fault) => fault.to_string(alloc),
        Fault::Announce(fault) => fault.to_string(alloc),
        Fault::Link(fault) => fault.to_string(alloc),
        Fault::Queue(fault) => fault.to_string(alloc),
        Fault::Keep(fault) => fault.to_string(alloc),
        Fault::Piece(fault) => fault.to_string(alloc),
    }
}

fn assert_reads(rt: &impl Abort, alloc: Global, fault: Fault, text: &str) {
    let shown = text_of(alloc, fault).expect(rt, "memory for a text");
    assert_same(rt, shown.as_str(), text);
}

#[test]
fn errors_say_what_they_are(rt: HostRuntime) {
    for (fault, text) in TEXTS {
        assert_reads(&rt, rt.alloc(), *fault, text);
    }
}

/// Returns the text of the error if an end's first request for memory is refused.
fn text_of_a_refused_node(rt: &impl Abort, alloc: Global) -> Option<String> {
    let heap = Refusing::new(alloc, 1);
    let (queue, spool) = (Queue::new(&heap), MemorySpool::new(&heap));
    let made = Node::caller(&heap, place(rt, b"a", b"b"), queue, spool);
    made.err()?.to_string(alloc).ok()
}

#[test]
fn an_end_that_was_not_made_says_so(rt: HostRuntime) {
    let text = text_of_a_refused_node(&rt, rt.alloc()).expect(&rt, "a refused end");
    assert_same(&rt, text.as_str(), "out of memory for a node");
}
