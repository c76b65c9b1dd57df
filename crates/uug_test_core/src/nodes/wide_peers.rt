//! Other ends that send each message in a field of the size that was announced to them, whatever its length, as older
//! programs do.

use super::greetings::CALLED_GREETS;
use super::script::Act::Hear;
use super::script::Wire::{Close, Command, Data, InitA, InitB, InitC, Rr, Text, Wide, WideCommand};
use super::script::{Row, Script, Start, play_all};
use super::{Given, Left, NO_WORK, SEND, Side};
use uug_session::{End, Phase};

/// The file that goes over the line: one byte.
const FILE: &[u8] = b"f";

/// A caller that announces the greatest size, and whose link awaits INITC.
pub(super) const CALLER_STARTS: Start<'static> = Start {
    side: Side::Caller,
    size: 4096,
    rows: &[
        (Hear(&[Text(b"Shere=b")]), &[Text(b"Sa")]),
        (Hear(&[Text(b"ROK"), Text(b"Pg")]), &[Text(b"Ug"), InitA(2)]),
        (Hear(&[InitA(2)]), &[InitB(7)]),
        (Hear(&[InitB(0)]), &[InitC(2)]),
    ],
};

/// A called end that announces the greatest size, and whose link is up.
pub(super) const CALLED_STARTS: Start<'static> = Start {
    side: Side::Called,
    size: 4096,
    rows: &[
        CALLED_GREETS,
        (Hear(&[Text(b"Sa")]), &[Text(b"ROK"), Text(b"Pg")]),
        (Hear(&[Text(b"Ug"), InitA(2)]), &[InitA(2)]),
        (Hear(&[InitB(0)]), &[InitB(7)]),
        (Hear(&[InitC(2)]), &[InitC(2)]),
    ],
};

/// The caller's file is taken.
const CALLER_SENDS: &[Row<'static>] = &[
    (Hear(&[InitC(2)]), &[Command(1, 0, b"S x y u - D.0 0644")]),
    (
        Hear(&[WideCommand(1, 1, b"SY")]),
        &[Rr(1), Data(2, 1, FILE), Data(3, 1, b"")],
    ),
    (
        Hear(&[WideCommand(2, 3, b"CY")]),
        &[Rr(2), Command(4, 2, b"H")],
    ),
    (
        Hear(&[WideCommand(3, 4, b"HY")]),
        &[Rr(3), Command(5, 3, b"HY"), Close],
    ),
    (Hear(&[Close]), &[Text(b"OOOOOO")]),
];

/// The other end's file is taken.
const CALLED_TAKES: &[Row<'static>] = &[
    (
        Hear(&[WideCommand(1, 0, b"S x y u - D.0 0644")]),
        &[Rr(1), Command(1, 1, b"SY")],
    ),
    (Hear(&[Wide(2, 1, FILE)]), &[Rr(2)]),
    (Hear(&[Wide(3, 1, b"")]), &[Rr(3), Command(2, 3, b"CY")]),
    (
        Hear(&[WideCommand(4, 2, b"H")]),
        &[Rr(4), Command(3, 4, b"HY")],
    ),
    (Hear(&[WideCommand(5, 3, b"HY")]), &[Rr(5), Close]),
    (Hear(&[Close]), &[Text(b"OOOOOOO")]),
];

const SCRIPTS: &[Script<'static>] = &[
    Script {
        start: CALLER_STARTS,
        has: &[Given::File(b"x", FILE), Given::Job(SEND)],
        rows: CALLER_SENDS,
        phase: Phase::Ended(End::Done),
        left: &[Left::Struck(SEND)],
    },
    Script {
        start: CALLED_STARTS,
        has: NO_WORK,
        rows: CALLED_TAKES,
        phase: Phase::Ended(End::Done),
        left: &[Left::Stored(b"y", FILE)],
    },
];

// an end that understands no field but the smallest
#[test]
fn understands_fields_of_the_announced_size(rt: HostRuntime) {
    play_all(&rt, rt.alloc(), SCRIPTS);
}
