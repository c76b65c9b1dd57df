//! Greetings of an end, and the outcome if it is not greeted as it should be.

use super::script::Act::{Hear, Timeout};
use super::script::Wire::{Bytes, InitA, InitB, InitC, Text};
use super::script::{Row, SILENCE, Script, Start};
use super::{NO_WORK, NOTHING, Side};
use std::alloc::Global;
use std::process::Abort;
use uug_session::{End, Phase};

/// A caller says its name after it has heard that of the called end.
const CALLER_GREETS: Row<'static> = (Hear(&[Text(b"Shere=b")]), &[Text(b"Sa")]);

/// A called end says its name first.
pub(super) const CALLED_GREETS: Row<'static> = (Hear(SILENCE), &[Text(b"Shere=b")]);

/// A caller whose link awaits INITC.
pub(super) const CALLER_STARTS: Start<'static> = Start {
    side: Side::Caller,
    size: 32,
    rows: &[
        CALLER_GREETS,
        (Hear(&[Text(b"ROK"), Text(b"Pg")]), &[Text(b"Ug"), InitA(2)]),
        (Hear(&[InitA(2)]), &[InitB(0)]),
        (Hear(&[InitB(0)]), &[InitC(2)]),
    ],
};

/// A called end whose link is up.
pub(super) const CALLED_STARTS: Start<'static> = Start {
    side: Side::Called,
    size: 32,
    rows: &[
        CALLED_GREETS,
        (Hear(&[Text(b"Sa")]), &[Text(b"ROK"), Text(b"Pg")]),
        (Hear(&[Text(b"Ug")]), SILENCE),
        (Hear(&[InitA(2)]), &[InitA(2)]),
        (Hear(&[InitB(0)]), &[InitB(0)]),
        (Hear(&[InitC(2)]), &[InitC(2)]),
    ],
};

/// A timeout in the greeting. An end that has heard nothing gives up at the eighth, and says nothing. `timeouts` is 0
/// in the greeting.
const LATE: Row<'static> = (Timeout(0), SILENCE);

/// An end, what it hears and says, and its phase afterwards.
type Greeting<'a> = (Side, &'a [Row<'a>], Phase);

const GREETINGS: &[Greeting<'static>] = &[
    (
        Side::Caller,
        &[
            (Hear(&[Bytes(b"login:\x10Shere=b\n")]), &[Text(b"Sa")]),
            (
                Hear(&[Text(b"ROKN07"), Text(b"Pitg")]),
                &[Text(b"Ug"), InitA(2)],
            ),
        ],
        Phase::Starting,
    ),
    (
        Side::Caller,
        &[(Hear(&[Text(b"Shere=c")]), SILENCE)],
        Phase::Ended(End::WrongName),
    ),
    (
        Side::Caller,
        &[CALLER_GREETS, (Hear(&[Text(b"RLCK")]), SILENCE)],
        Phase::Ended(End::Refused),
    ),
    (
        Side::Caller,
        &[
            CALLER_GREETS,
            (Hear(&[Text(b"ROKN07"), Text(b"Pit")]), &[Text(b"UN")]),
        ],
        Phase::Ended(End::NoProtocol),
    ),
    (
        Side::Called,
        &[
            CALLED_GREETS,
            (Hear(&[Text(b"Sz")]), &[Text(b"RYou are unknown to me")]),
        ],
        Phase::Ended(End::Refused),
    ),
    (
        Side::Called,
        &[
            CALLED_GREETS,
            (Hear(&[Text(b"Sa")]), &[Text(b"ROK"), Text(b"Pg")]),
            (Hear(&[Text(b"UN")]), SILENCE),
        ],
        Phase::Ended(End::NoProtocol),
    ),
    (
        Side::Caller,
        &[(Hear(&[Text(&[b'x'; 257])]), SILENCE)],
        Phase::Ended(End::BadTalk),
    ),
    (
        Side::Called,
        &[CALLED_GREETS, (Hear(&[Text(&[b'x'; 257])]), SILENCE)],
        Phase::Ended(End::BadTalk),
    ),
    (Side::Caller, &[LATE; 7], Phase::Hail),
    (Side::Caller, &[LATE; 8], Phase::Ended(End::GaveUp)),
];

fn greet(rt: &impl Abort, alloc: Global, greeting: &Greeting<'_>) {
    let (side, rows, phase) = *greeting;
    let start = Start {
        side,
        size: 32,
        rows,
    };
    let script = Script {
        start,
        has: NO_WORK,
        rows: &[],
        phase,
        left: NOTHING,
    };
    script.play(rt, alloc);
}

// a session that goes on or ends where it must not; an end that says more or less than it must, or waits too long or
// not long enough
#[test]
fn greets(rt: HostRuntime) {
    for greeting in GREETINGS {
        greet(&rt, rt.alloc(), greeting);
    }
}
