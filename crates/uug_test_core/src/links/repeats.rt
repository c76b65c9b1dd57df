//! A link that is quiet on repeats, and one that is not.

use super::{Answer, Call, NOTHING, Row, SILENCE, Wire, announce, follow_called};
use uug_link::Outcome;

const TAKEN: Answer = Ok(Outcome::Taken);

const UP: Answer = Ok(Outcome::Up);

/// A called end that announces a window of two comes up, and takes two packets.
const TAKES_TWO: &[Row<'static>] = &[
    (Call::Hear(Wire::InitA(2)), &[Wire::InitA(2)], NOTHING, 0),
    (Call::Hear(Wire::InitB(0)), &[Wire::InitB(0)], NOTHING, 0),
    (Call::Hear(Wire::InitC(2)), &[Wire::InitC(2)], UP, 0),
    (Call::Hear(Wire::Data(1, 0, b"a")), &[Wire::Rr(1)], TAKEN, 0),
    (Call::Hear(Wire::Data(2, 0, b"b")), &[Wire::Rr(2)], TAKEN, 0),
];

/// The rows of a quiet link. The last packet comes twice. What the other end repeats for that is ignored until one
/// packet more than the window was taken.
const IS_QUIET: &[Row<'static>] = &[
    (
        Call::Hear(Wire::Data(2, 0, b"b")),
        &[Wire::Rr(2)],
        NOTHING,
        0,
    ),
    (Call::Hear(Wire::Data(3, 0, b"c")), &[Wire::Rr(3)], TAKEN, 0),
    (Call::Hear(Wire::Data(3, 0, b"c")), SILENCE, NOTHING, 0),
    (
        Call::Hear(Wire::Data(3, 0, b"c")),
        &[Wire::Rr(3)],
        NOTHING,
        0,
    ),
    (Call::Bad, SILENCE, NOTHING, 0),
    (Call::Hear(Wire::Data(4, 0, b"d")), &[Wire::Rr(4)], TAKEN, 0),
    (Call::Bad, &[Wire::Rj(4)], NOTHING, 0),
    (Call::Timeout, SILENCE, NOTHING, 0),
    (
        Call::Hear(Wire::Data(3, 0, b"c")),
        &[Wire::Rj(4)],
        NOTHING,
        0,
    ),
    (Call::Hear(Wire::Data(4, 0, b"d")), SILENCE, NOTHING, 0),
    (
        Call::Hear(Wire::Data(3, 0, b"c")),
        &[Wire::Rr(4)],
        NOTHING,
        0,
    ),
];

/// The same rows for a link that is not quiet. It rejects one repeat after each packet that it takes, and answers each
/// other one.
const IS_PLAIN: &[Row<'static>] = &[
    (
        Call::Hear(Wire::Data(2, 0, b"b")),
        &[Wire::Rj(2)],
        NOTHING,
        0,
    ),
    (Call::Hear(Wire::Data(3, 0, b"c")), &[Wire::Rr(3)], TAKEN, 0),
    (
        Call::Hear(Wire::Data(3, 0, b"c")),
        &[Wire::Rj(3)],
        NOTHING,
        0,
    ),
    (
        Call::Hear(Wire::Data(3, 0, b"c")),
        &[Wire::Rr(3)],
        NOTHING,
        0,
    ),
    (Call::Bad, SILENCE, NOTHING, 0),
];

#[test]
fn passes_repeats_where_it_is_quiet(rt: HostRuntime) {
    let own = announce(&rt, 2, 32).with_quiet(true);
    follow_called(&rt, rt.alloc(), own, TAKES_TWO, IS_QUIET);
}

#[test]
fn answers_each_repeat_where_it_is_not(rt: HostRuntime) {
    let own = announce(&rt, 2, 32);
    follow_called(&rt, rt.alloc(), own, TAKES_TWO, IS_PLAIN);
}
