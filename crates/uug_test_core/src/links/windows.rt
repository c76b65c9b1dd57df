//! A whole window of seven packets, all of which go out again at once.

use super::{Answer, Call, NOTHING, Row, SILENCE, Wire, announce, follow_called};
use uug_link::Outcome;

const UP: Answer = Ok(Outcome::Up);

/// The start-up of a called end whose peer announces the greatest window and the greatest size.
const COMES_UP: &[Row<'static>] = &[
    (Call::Hear(Wire::InitA(7)), &[Wire::InitA(2)], NOTHING, 0),
    (Call::Hear(Wire::InitB(7)), &[Wire::InitB(0)], NOTHING, 0),
    (Call::Hear(Wire::InitC(7)), &[Wire::InitC(2)], UP, 0),
];

const SHORT: &[Wire<'static>] = &[
    Wire::Data(1, 0, b"a"),
    Wire::Data(2, 0, b"b"),
    Wire::Data(3, 0, b"c"),
    Wire::Data(4, 0, b"d"),
    Wire::Data(5, 0, b"e"),
    Wire::Data(6, 0, b"f"),
    Wire::Data(7, 0, b"g"),
];

/// The longest messages.
const FULL_A: &[u8] = &[b'a'; 4096];

const FULL_B: &[u8] = &[b'b'; 4096];

const FULL: &[Wire<'static>] = &[
    Wire::Wide(0, 0, FULL_A),
    Wire::Wide(1, 0, FULL_B),
    Wire::Wide(2, 0, FULL_A),
    Wire::Wide(3, 0, FULL_B),
    Wire::Wide(4, 0, FULL_A),
    Wire::Wide(5, 0, FULL_B),
    Wire::Wide(6, 0, FULL_A),
];

/// The rows in which the window is filled, twice. Each time all of it goes out again at a timeout and when it is asked
/// for.
const REPEATS: &[Row<'static>] = &[
    (Call::Send(b"a"), &[Wire::Data(1, 0, b"a")], NOTHING, 1),
    (Call::Send(b"b"), &[Wire::Data(2, 0, b"b")], NOTHING, 2),
    (Call::Send(b"c"), &[Wire::Data(3, 0, b"c")], NOTHING, 3),
    (Call::Send(b"d"), &[Wire::Data(4, 0, b"d")], NOTHING, 4),
    (Call::Send(b"e"), &[Wire::Data(5, 0, b"e")], NOTHING, 5),
    (Call::Send(b"f"), &[Wire::Data(6, 0, b"f")], NOTHING, 6),
    (Call::Send(b"g"), &[Wire::Data(7, 0, b"g")], NOTHING, 7),
    (Call::Timeout, SHORT, NOTHING, 7),
    (Call::Hear(Wire::Rj(0)), SHORT, NOTHING, 7),
    (Call::Hear(Wire::Rr(7)), SILENCE, NOTHING, 0),
    (Call::Send(FULL_A), &[Wire::Wide(0, 0, FULL_A)], NOTHING, 1),
    (Call::Send(FULL_B), &[Wire::Wide(1, 0, FULL_B)], NOTHING, 2),
    (Call::Send(FULL_A), &[Wire::Wide(2, 0, FULL_A)], NOTHING, 3),
    (Call::Send(FULL_B), &[Wire::Wide(3, 0, FULL_B)], NOTHING, 4),
    (Call::Send(FULL_A), &[Wire::Wide(4, 0, FULL_A)], NOTHING, 5),
    (Call::Send(FULL_B), &[Wire::Wide(5, 0, FULL_B)], NOTHING, 6),
    (Call::Send(FULL_A), &[Wire::Wide(6, 0, FULL_A)], NOTHING, 7),
    (Call::Timeout, FULL, NOTHING, 7),
    (Call::Hear(Wire::Rj(7)), FULL, NOTHING, 7),
    (Call::Hear(Wire::Rr(6)), SILENCE, NOTHING, 0),
];

// a link that says that it is out of memory where many packets go out at once
#[test]
fn a_whole_window_is_repeated(rt: HostRuntime) {
    let own = announce(&rt, 2, 32);
    follow_called(&rt, rt.alloc(), own, COMES_UP, REPEATS);
}
