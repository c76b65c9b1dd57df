//! Sessions of two ends.

use super::line::{Event, Hand, Line};
use super::{
    Given, Left, MemoryNode, NO_WORK, NOTHING, SEND, SENDER, Side, Task, assert_ended, make, place,
    stock,
};
use crate::assertions::{assert_same, assert_so};
use std::alloc::{Allocator, Global};
use std::process::Abort;
use uug_session::{End, MemorySpool, NotMade, Place};
use uug_test_alloc::Refusing;

type HeapNode<'a> = MemoryNode<&'a Refusing<Global>>;

/// The items of the caller and the called end, the events, and the items they then have. Both keep the same number or
/// none, given as it is before and after.
#[derive(Clone, Copy)]
struct Session<'a> {
    numbers: (Option<u32>, Option<u32>),
    caller_has: &'a [Given<'a>],
    called_has: &'a [Given<'a>],
    events: &'a [Event],
    caller_left: &'a [Left<'a>],
    called_left: &'a [Left<'a>],
}

impl Session<'_> {
    fn play<A: Allocator + Copy>(
        &self,
        rt: &impl Abort,
        line: &mut Line,
        caller: &mut MemoryNode<A>,
        called: &mut MemoryNode<A>,
    ) {
        let number = self.numbers.1;
        line.play(rt, self.events, caller, called);
        assert_same(rt, (caller.number(), called.number()), (number, number));
        let (left, right) = (caller.spool().stored(), called.spool().stored());
        assert_ended(rt, caller, left, End::Done, self.caller_left);
        assert_ended(rt, called, right, End::Done, self.called_left);
    }
}

const REQUEST: Task<'static> = Task::Request(b"q", b"y");

const SEND_BACK: Task<'static> = Task::Send(b"x", b"z");

/// The image of a packet, and more zeros than a message has.
const LONG: &[u8] =
    b"\x10\x09\x89\xaa\x21\x0b0123456789abcdefghijklmnop\0\0\0\0\0\0\0\0\0\0\0\0\0\0\0\0\0\0\0\0\0\0\0\0\0\0\0\0\0\0\0\0\0\0-+-";

const SESSIONS: &[Session<'static>] = &[
    Session {
        numbers: (Some(7), Some(8)),
        caller_has: SENDER,
        called_has: NO_WORK,
        events: &[Event::Flow(20)],
        caller_left: &[Left::Struck(SEND)],
        called_left: &[Left::Stored(b"y", b"")],
    },
    // the roles are exchanged
    Session {
        numbers: (None, None),
        caller_has: NO_WORK,
        called_has: SENDER,
        events: &[Event::Flow(20)],
        caller_left: &[Left::Stored(b"y", b"")],
        called_left: &[Left::Struck(SEND)],
    },
    Session {
        numbers: (None, None),
        caller_has: SENDER,
        called_has: &[Given::Deny(b"y")],
        events: &[Event::Flow(20)],
        caller_left: &[Left::Failed(SEND)],
        called_left: NOTHING,
    },
    Session {
        numbers: (None, None),
        caller_has: SENDER,
        called_has: &[Given::Later(b"y")],
        events: &[Event::Flow(20)],
        caller_left: &[Left::Pending(SEND)],
        called_left: NOTHING,
    },
    Session {
        numbers: (None, None),
        caller_has: SENDER,
        called_has: &[Given::Immovable(b"y")],
        events: &[Event::Flow(20)],
        caller_left: &[Left::Failed(SEND)],
        called_left: NOTHING,
    },
    // there is no file to be given
    Session {
        numbers: (None, None),
        caller_has: &[Given::Job(REQUEST)],
        called_has: NO_WORK,
        events: &[Event::Flow(20)],
        caller_left: &[Left::Failed(REQUEST)],
        called_left: NOTHING,
    },
    Session {
        numbers: (None, None),
        caller_has: &[Given::Job(REQUEST)],
        called_has: &[Given::File(b"q", b"")],
        events: &[Event::Flow(20)],
        caller_left: &[Left::Struck(REQUEST), Left::Stored(b"y", b"")],
        called_left: NOTHING,
    },
    // INITA goes out twice, and the command is lost
    Session {
        numbers: (None, None),
        caller_has: SENDER,
        called_has: NO_WORK,
        events: &[
            Event::Flow(2),
            Event::TimeoutOfCaller,
            Event::Flow(3),
            Event::LostToCalled,
            Event::TimeoutOfCaller,
            Event::Flow(20),
        ],
        caller_left: &[Left::Struck(SEND)],
        called_left: &[Left::Stored(b"y", b"")],
    },
    // files of several messages go both ways, at the second call; the third has no job; of the first nothing is heard
    Session {
        numbers: (Some(4_294_967_295), Some(1)),
        caller_has: &[
            Given::File(b"x", LONG),
            Given::Job(SEND),
            Given::Job(REQUEST),
        ],
        called_has: &[
            Given::File(b"q", b"an answer"),
            Given::File(b"x", LONG),
            Given::Job(SEND_BACK),
        ],
        events: &[Event::Call, Event::Flow(30), Event::Call, Event::Flow(20)],
        caller_left: &[
            Left::Struck(SEND),
            Left::Struck(REQUEST),
            Left::Stored(b"y", b"an answer"),
            Left::Stored(b"z", LONG),
        ],
        called_left: &[Left::Struck(SEND_BACK), Left::Stored(b"y", LONG)],
    },
];

/// Makes an end whose nth request for memory is refused. It is made again from everything that was given back.
fn insist<'a>(
    rt: &impl Abort,
    heap: &'a Refusing<Global>,
    side: Side,
    place: Place,
    given: &[Given<'_>],
    nth: u64,
) -> HeapNode<'a> {
    heap.refuse(0);
    let (queue, spool) = stock(rt, heap, given);
    heap.refuse(nth);
    match make(heap, side, place, queue, spool) {
        Ok(node) => node,
        Err(refused) => make_again(rt, heap, side, refused),
    }
}

fn make_again<'a>(
    rt: &impl Abort,
    heap: &'a Refusing<Global>,
    side: Side,
    refused: NotMade<MemorySpool<&'a Refusing<Global>>, &'a Refusing<Global>>,
) -> HeapNode<'a> {
    let NotMade {
        place,
        queue,
        spool,
    } = refused;
    make(heap, side, place, queue, spool).expect(rt, "an end")
}

fn place_of(rt: &impl Abort, side: Side, session: &Session<'_>) -> Place {
    let mut place = place(rt, side, 32);
    place.number = session.numbers.0;
    place
}

/// Plays the session. The nth request for memory of each end, and then of both, is refused. Returns whether there was
/// such a request of both.
fn follow(
    rt: &impl Abort,
    heap: &Refusing<Global>,
    session: &Session<'_>,
    line: &mut Line,
    nth: u64,
) -> bool {
    let place = place_of(rt, Side::Caller, session);
    let mut caller = insist(rt, heap, Side::Caller, place, session.caller_has, nth);
    follow_from(rt, heap, session, line, nth, &mut caller);
    drop(caller);
    heap.was_refused()
}

fn follow_from<'a>(
    rt: &impl Abort,
    heap: &'a Refusing<Global>,
    session: &Session<'_>,
    line: &mut Line,
    nth: u64,
    caller: &mut HeapNode<'a>,
) {
    let place = place_of(rt, Side::Called, session);
    let mut called = insist(rt, heap, Side::Called, place, session.called_has, nth);
    heap.refuse(nth);
    session.play(rt, line, caller, &mut called);
    drop(called);
}

/// Plays the session with bytes handed over in pieces of the line's size. Asserts that this is then said.
fn assert_says_in_pieces(
    rt: &impl Abort,
    heap: &Refusing<Global>,
    session: &Session<'_>,
    line: &mut Line,
    said: &[u8],
) {
    follow(rt, heap, session, line, 0);
    assert_same(rt, line.said.as_slice(), said);
}

/// Plays the session with bytes handed over whole and in pieces.
fn follow_in_pieces(rt: &impl Abort, alloc: Global, session: &Session<'_>) {
    let heap = Refusing::new(alloc, 0);
    let mut whole = Line::new(alloc, Hand::Whole);
    follow(rt, &heap, session, &mut whole, 0);
    for size in [1, 7, usize::MAX] {
        let mut line = Line::new(alloc, Hand::Pieces(size));
        assert_says_in_pieces(rt, &heap, session, &mut line, whole.said.as_slice());
    }
}

// an end that loses what comes in pieces, or says more for it; one that never begins, or that does not come to an end
#[test]
fn hands_over_in_any_pieces(rt: HostRuntime) {
    for session in SESSIONS {
        follow_in_pieces(&rt, rt.alloc(), session);
    }
}

/// Plays the session with each request for memory refused in turn. Asserts that this is said each time.
fn refuse_each(
    rt: &impl Abort,
    heap: &Refusing<Global>,
    session: &Session<'_>,
    line: &mut Line,
    said: &[u8],
) {
    for nth in 1..1000 {
        line.said.clear();
        let is_refused = follow(rt, heap, session, line, nth);
        assert_same(rt, line.said.as_slice(), said);
        if !is_refused {
            return;
        }
    }
    panic!(rt; "no end of the requests");
}

/// Plays the session with no request for memory refused, and then with each in turn.
fn refuse_none_and_each(rt: &impl Abort, alloc: Global, session: &Session<'_>, line: &mut Line) {
    let heap = Refusing::new(alloc, 0);
    let mut whole = Line::new(alloc, Hand::Whole);
    follow(rt, &heap, session, &mut whole, 0);
    refuse_each(rt, &heap, session, line, whole.said.as_slice());
}

fn refuse_each_of_all(rt: &impl Abort, alloc: Global, line: &mut Line) {
    for session in SESSIONS {
        refuse_none_and_each(rt, alloc, session, line);
    }
    assert_so(rt, line.refused.items > 0);
    assert_so(rt, line.refused.timeouts > 0);
    assert_so(rt, line.refused.calls > 0);
}

// a call that says that it is out of memory where none was refused; a refused call that leaves something behind, or
// that can't be made again; one that tells wrongly how much of a piece it has used
#[test]
fn makes_refused_calls_good(rt: HostRuntime) {
    let alloc = rt.alloc();
    let mut pieces = Line::new(alloc, Hand::Pieces(usize::MAX));
    refuse_each_of_all(&rt, alloc, &mut pieces);
    let mut whole = Line::new(alloc, Hand::Whole);
    refuse_each_of_all(&rt, alloc, &mut whole);
}
