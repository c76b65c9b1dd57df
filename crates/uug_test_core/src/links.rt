//! Links and their outboxes: scenarios as tables, and the small player that follows them. The theorems of `uug_link`
//! compute what a link does on each event, and the clauses say that the code does it. Here each call is made with
//! ample memory and with each of its requests refused. This catches a call that reports lack of memory although none
//! was refused. It also catches a call that changes something when it is refused, and one that cannot be made again.

mod fields;
mod outboxes;
mod repeats;
mod runs;
mod windows;

use crate::assertions::{assert_same, assert_so};
use crate::packets::number;
use std::alloc::{Allocator, Global};
use std::process::Abort;
use uug_link::{Announce, Entry, Link, LinkFault, Outbox, Outcome};
use uug_packet::{Control, Packet, decode};
use uug_test_alloc::Refusing;

/// A packet, as written in a table.
#[derive(Clone, Copy)]
enum Wire<'a> {
    InitA(u8),
    InitB(u8),
    InitC(u8),
    Close,
    Rr(u8),
    Rj(u8),
    Srj(u8),
    /// A data packet in a field of 32 bytes: its number, the number that it acknowledges, and its message.
    Data(u8, u8, &'a [u8]),
    /// A data packet in a field of 64 bytes, with the same contents.
    Padded(u8, u8, &'a [u8]),
    /// A data packet in a field of 4,096 bytes, with the same contents.
    Wide(u8, u8, &'a [u8]),
}

/// A call on a link.
#[derive(Clone, Copy)]
enum Call<'a> {
    Hear(Wire<'a>),
    Bad,
    Timeout,
    Send(&'a [u8]),
    Shut,
}

type Answer = Result<Outcome, LinkFault>;

/// No packet at all.
const SILENCE: &[Wire<'static>] = &[];

const NOTHING: Answer = Ok(Outcome::Nothing);

/// A call, the packets that it emits, its answer, and the number of messages that are then unacknowledged.
type Row<'a> = (Call<'a>, &'a [Wire<'a>], Answer, usize);

fn packet_of(wire: Wire<'_>) -> Packet<'_> {
    Packet::Control(match wire {
        Wire::InitA(window) => Control::InitA(number(window)),
        Wire::InitB(size_code) => Control::InitB(number(size_code)),
        Wire::InitC(window) => Control::InitC(number(window)),
        Wire::Close => Control::Close,
        Wire::Rr(value) => Control::Rr(number(value)),
        Wire::Rj(value) => Control::Rj(number(value)),
        Wire::Srj(value) => Control::Srj(number(value)),
        Wire::Data(value, ack, message) => return carrying(1, value, ack, message),
        Wire::Padded(value, ack, message) => return carrying(2, value, ack, message),
        Wire::Wide(value, ack, message) => return carrying(8, value, ack, message),
    })
}

fn carrying(k: u8, value: u8, ack: u8, message: &[u8]) -> Packet<'_> {
    Packet::Carry {
        seq: number(value),
        ack: number(ack),
        k,
        message,
    }
}

/// Makes the call. If its condition does not hold, returns the answer of a link that has ended.
fn make<A: Allocator>(call: Call<'_>, link: &mut Link, out: &mut Outbox<A>) -> Answer {
    let done = match call {
        Call::Hear(wire) => return link.on_packet(&packet_of(wire), out),
        Call::Bad => return link.on_bad(out),
        Call::Timeout => return link.on_timeout(out),
        Call::Send(message) if link.room() && message.len() <= link.size() => {
            link.send(message, out)
        }
        Call::Shut if link.is_up() => link.close(out),
        Call::Send(_) | Call::Shut => return Err(LinkFault::Halted),
    };
    match done {
        Ok(()) => NOTHING,
        Err(_) => Err(LinkFault::Memory),
    }
}

/// Makes the call into an empty outbox. Each of its requests for memory is refused in turn before it gets them all.
/// Asserts that a refused call changes nothing. Returns the last answer, and the number of refused requests.
fn insist(
    rt: &impl Abort,
    heap: &Refusing<Global>,
    call: Call<'_>,
    link: &mut Link,
    out: &mut Outbox<&Refusing<Global>>,
) -> (Answer, u64) {
    let unacked = link.unacked();
    for refused in 0..9 {
        heap.refuse(refused + 1);
        let answer = make(call, link, out);
        if !heap.was_refused() {
            return (answer, refused);
        }
        assert_same(rt, answer, Err(LinkFault::Memory));
        assert_same(rt, (out.len(), link.unacked()), (0, unacked));
    }
    (Err(LinkFault::Memory), 9)
}

/// Returns whether the entry is this packet. `is_first` says whether it is a data packet sent for the first time.
fn is_packet(entry: &Entry<'_>, wire: Wire<'_>, is_first: bool) -> bool {
    match entry {
        Entry::Packet { bytes, first } => {
            *first == is_first && decode(bytes) == Ok((packet_of(wire), bytes.len()))
        }
        Entry::Text(_) => false,
    }
}

/// Asserts that the outbox holds exactly these packets.
fn assert_holds<A: Allocator>(
    rt: &impl Abort,
    out: &Outbox<A>,
    wires: &[Wire<'_>],
    is_first: bool,
) {
    assert_same(rt, out.len(), wires.len());
    for (i, wire) in wires.iter().enumerate() {
        assert_so(
            rt,
            i < out.len() && is_packet(&out.entry(i), *wire, is_first),
        );
    }
}

/// Follows one row, with an outbox of its own. A call that emits makes two requests for memory, for bytes and for
/// entries. A call that emits nothing makes none.
fn follow_row(rt: &impl Abort, heap: &Refusing<Global>, link: &mut Link, row: Row<'_>) {
    let (call, emits, answer, unacked) = row;
    let mut out = Outbox::new(heap);
    if let Call::Timeout = call {
        assert_same(rt, link.speaks_when_late(), !emits.is_empty());
    }
    let requests = if emits.is_empty() { 0 } else { 2 };
    let seen = insist(rt, heap, call, link, &mut out);
    assert_same(rt, (seen, link.unacked()), ((answer, requests), unacked));
    assert_holds(rt, &out, emits, matches!(call, Call::Send(_)));
}

/// Follows a table with the link. Each request for memory of each call is refused once.
fn follow(rt: &impl Abort, alloc: Global, link: &mut Link, rows: &[Row<'_>]) {
    let heap = Refusing::new(alloc, 0);
    for row in rows {
        follow_row(rt, &heap, link, *row);
    }
}

/// Follows two tables with a called end's link.
fn follow_called(
    rt: &impl Abort,
    alloc: Global,
    own: Announce,
    rows: &[Row<'_>],
    then: &[Row<'_>],
) {
    let mut link = Link::called(own);
    follow(rt, alloc, &mut link, rows);
    follow(rt, alloc, &mut link, then);
}

fn announce(rt: &impl Abort, window: u8, size: usize) -> Announce {
    Announce::new(window, size).expect(rt, "a window and a size")
}
