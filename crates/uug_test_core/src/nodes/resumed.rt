//! Files that go on where they were cut off: what a giver sends of them, and what a taker keeps.

use super::greetings::CALLER_STARTS;
use super::script::Act::{CallAgain, Hear};
use super::script::Wire::{Close, Command, Data, InitA, InitB, InitC, Rr, Text, Wide, WideCommand};
use super::script::{Row, Script, follow, play_all};
use super::wide_peers::CALLED_STARTS;
use super::{Given, Left, MemoryNode, NOTHING, SEND, Side, assert_lists, end, place};
use crate::assertions::assert_same;
use std::alloc::Global;
use std::process::Abort;
use uug_session::{End, Phase};

/// The items of an end that sends the file `abc`, and announces its digest.
const TELLER: &[Given<'static>] = &[Given::File(b"x", b"abc"), Given::Digests, Given::Job(SEND)];

/// The rows in which it offers the file, in four messages.
const TELLS: Row<'static> = (
    Hear(&[InitC(2)]),
    &[
        Data(1, 0, b"S x y u - D.0 0644 \"\" 0x00000003"),
        Data(2, 0, b" sha256:ba7816bf8f01cfea414140de"),
    ],
);

const TELLS_ON: Row<'static> = (
    Hear(&[Rr(2)]),
    &[
        Data(3, 0, b"5dae2223b00361a396177a9cb410ff61"),
        Command(4, 0, b"f20015ad"),
    ],
);

const SCRIPTS: &[Script<'static>] = &[
    // the rest behind two bytes
    Script {
        start: CALLER_STARTS,
        has: TELLER,
        rows: &[
            TELLS,
            TELLS_ON,
            (
                Hear(&[Command(1, 4, b"SY 0x00000002")]),
                &[Rr(1), Data(5, 1, b"c"), Data(6, 1, b"")],
            ),
            (Hear(&[Command(2, 6, b"CY")]), &[Rr(2), Command(7, 2, b"H")]),
        ],
        phase: Phase::Talking,
        left: &[Left::Struck(SEND)],
    },
    // nothing is left to send
    Script {
        start: CALLER_STARTS,
        has: TELLER,
        rows: &[
            TELLS,
            TELLS_ON,
            (
                Hear(&[Command(1, 4, b"SY 0x00000003")]),
                &[Rr(1), Data(5, 1, b"")],
            ),
        ],
        phase: Phase::Talking,
        left: &[Left::Pending(SEND)],
    },
    // a position past the end
    Script {
        start: CALLER_STARTS,
        has: TELLER,
        rows: &[
            TELLS,
            TELLS_ON,
            (Hear(&[Command(1, 4, b"SY 0x00000004")]), &[Rr(1), Close]),
        ],
        phase: Phase::Ended(End::BadTalk),
        left: &[Left::Pending(SEND)],
    },
    // an end that announces no digest reads no position
    Script {
        start: CALLER_STARTS,
        has: &[Given::File(b"x", b"abc"), Given::Job(SEND)],
        rows: &[
            (Hear(&[InitC(2)]), &[Command(1, 0, b"S x y u - D.0 0644")]),
            (
                Hear(&[Command(1, 1, b"SY 0x00000002")]),
                &[Rr(1), Data(2, 1, b"abc"), Data(3, 1, b"")],
            ),
        ],
        phase: Phase::Talking,
        left: &[Left::Pending(SEND)],
    },
];

// a file sent from its first byte on, or from a byte too many; a position past the end that is taken for the end; a
// position read by an end that announces no digest
#[test]
fn sends_the_rest_that_is_asked_for(rt: HostRuntime) {
    play_all(&rt, rt.alloc(), SCRIPTS);
}

/// The command of a giver that sends the file `abc`, and announces its digest.
const SEND_ABC: &[u8] =
    b"S x y u - D.0 0644 \"\" 0x00000003 sha256:ba7816bf8f01cfea414140de5dae2223b00361a396177a9cb410ff61f20015ad";

/// Takes the first two bytes of the file. Then the line is gone, and a new session begins, up to the same command.
const CUT: &[Row<'static>] = &[
    (
        Hear(&[WideCommand(1, 0, SEND_ABC)]),
        &[Rr(1), Command(1, 1, b"SY")],
    ),
    (Hear(&[Wide(2, 1, b"ab")]), &[Rr(2)]),
    (CallAgain, &[Text(b"Shere=b")]),
    (Hear(&[Text(b"Sa")]), &[Text(b"ROK"), Text(b"Pg")]),
    (Hear(&[Text(b"Ug"), InitA(2)]), &[InitA(2)]),
    (Hear(&[InitB(0)]), &[InitB(7)]),
    (Hear(&[InitC(2)]), &[InitC(2)]),
];

/// The items of an end, the rows after `CUT`, and what is left.
type Taker<'a> = (&'a [Given<'a>], &'a [Row<'a>], &'a [Left<'a>]);

const ASKS: Row<'static> = (
    Hear(&[WideCommand(1, 0, SEND_ABC)]),
    &[Rr(1), Command(1, 1, b"SY 0x00000002")],
);

const TAKERS: &[Taker<'static>] = &[
    // the rest is asked for, and the file is kept whole
    (
        &[Given::Resumes],
        &[
            ASKS,
            (Hear(&[Wide(2, 1, b"c")]), &[Rr(2)]),
            (Hear(&[Wide(3, 1, b"")]), &[Rr(3), Command(2, 3, b"CY")]),
        ],
        &[Left::Stored(b"y", b"abc")],
    ),
    // both together aren't the announced file
    (
        &[Given::Resumes],
        &[
            ASKS,
            (Hear(&[Wide(2, 1, b"x")]), &[Rr(2)]),
            (Hear(&[Wide(3, 1, b"")]), &[Rr(3), Command(2, 3, b"CN4")]),
        ],
        NOTHING,
    ),
    // an end that doesn't resume
    (
        &[Given::Digests],
        &[
            (
                Hear(&[WideCommand(1, 0, SEND_ABC)]),
                &[Rr(1), Command(1, 1, b"SY")],
            ),
            (Hear(&[Wide(2, 1, b"abc")]), &[Rr(2)]),
            (Hear(&[Wide(3, 1, b"")]), &[Rr(3), Command(2, 3, b"CY")]),
        ],
        &[Left::Stored(b"y", b"abc")],
    ),
];

fn go_on_behind(rt: &impl Abort, log: Global, node: &mut MemoryNode<Global>, taker: &Taker<'_>) {
    follow(rt, log, node, CALLED_STARTS.rows);
    follow(rt, log, node, CUT);
    follow(rt, log, node, taker.1);
    assert_same(rt, node.phase(), Phase::Talking);
    assert_lists(rt, node.queue(), node.spool().stored(), taker.2);
}

// a file that begins anew though its front is held, or goes on though nothing is; one that is kept without its front; one
// that is kept although it is not the one that was announced
#[test]
fn keeps_a_file_behind_what_was_held(rt: HostRuntime) {
    for taker in TAKERS {
        let place = place(&rt, Side::Called, 4096);
        let mut node = end(&rt, rt.alloc(), Side::Called, place, taker.0);
        go_on_behind(&rt, rt.alloc(), &mut node, taker);
        drop(node);
    }
}
