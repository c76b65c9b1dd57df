//! Ends that break every rule.

use super::greetings::{CALLED_STARTS, CALLER_STARTS};
use super::script::Act::Hear;
use super::script::Wire::{Bytes, Close, Command, Data, Flood, InitC, Rj, Rr, RrFlood};
use super::script::{Row, SILENCE, Script, Wire, play_all};
use super::{Given, Left, NO_WORK, NOTHING, SEND, wide_peers};
use uug_session::{End, Phase};

/// A file longer than two messages.
const FILE: &[u8] = &[b'f'; 70];

/// A packet with a right checksum whose short field says that no byte is missing.
const BAD_FIELD: Wire<'static> = Bytes(
    b"\x10\x01\xcd\x39\xc8\x3d\0\0\0\0\0\0\0\0\0\0\0\0\0\0\0\0\0\0\0\0\0\0\0\0\0\0\0\0\0\0\0\0",
);

/// The other end sends a file.
const TAKES_Y: Row<'static> = (
    Hear(&[Command(1, 0, b"S x y u - D.0 0644")]),
    &[Rr(1), Command(1, 1, b"SY")],
);

const SCRIPTS: &[Script<'static>] = &[
    Script {
        start: CALLED_STARTS,
        has: NO_WORK,
        rows: &[
            TAKES_Y,
            (Hear(&[Data(2, 1, &[b'f'; 32])]), &[Rr(2)]),
            (Hear(&[Close]), &[Close]),
        ],
        phase: Phase::Ended(End::PeerClosed),
        left: NOTHING,
    },
    Script {
        start: CALLER_STARTS,
        has: &[Given::File(b"x", FILE), Given::Job(SEND)],
        rows: &[
            (Hear(&[InitC(2)]), &[Command(1, 0, b"S x y u - D.0 0644")]),
            (
                Hear(&[Command(1, 1, b"SY")]),
                &[Rr(1), Data(2, 1, &[b'f'; 32]), Data(3, 1, &[b'f'; 32])],
            ),
            (Hear(&[Close]), &[Close]),
        ],
        phase: Phase::Ended(End::PeerClosed),
        left: &[Left::Pending(SEND)],
    },
    Script {
        start: CALLED_STARTS,
        has: NO_WORK,
        rows: &[(
            Hear(&[Command(1, 0, b"E x y u - D.0 0644")]),
            &[Rr(1), Close],
        )],
        phase: Phase::Ended(End::BadTalk),
        left: NOTHING,
    },
    Script {
        start: CALLER_STARTS,
        has: NO_WORK,
        rows: &[
            (Hear(&[InitC(2)]), &[Command(1, 0, b"H")]),
            (Hear(&[Command(1, 1, b"SY")]), &[Rr(1), Close]),
        ],
        phase: Phase::Ended(End::BadTalk),
        left: NOTHING,
    },
    Script {
        start: CALLED_STARTS,
        has: NO_WORK,
        rows: &[
            (Hear(&[BAD_FIELD]), &[Rj(0)]),
            (Hear(&[BAD_FIELD]), SILENCE),
        ],
        phase: Phase::Talking,
        left: NOTHING,
    },
    // a command of 4096 bytes with no zero byte, and more
    Script {
        start: CALLED_STARTS,
        has: NO_WORK,
        rows: &[
            (Hear(&[Flood(128, 1, 1, 0)]), &[RrFlood(128, 1)]),
            (Hear(&[Flood(1, 1, 1, 0)]), &[Rr(1), Close]),
        ],
        phase: Phase::Ended(End::BadTalk),
        left: NOTHING,
    },
    // a file of 1048576 bytes, and one more
    Script {
        start: wide_peers::CALLED_STARTS,
        has: NO_WORK,
        rows: &[
            TAKES_Y,
            (Hear(&[Flood(256, 8, 2, 1)]), &[RrFlood(256, 2)]),
            (Hear(&[Data(2, 1, b"f")]), &[Rr(2), Close]),
        ],
        phase: Phase::Ended(End::BadTalk),
        left: NOTHING,
    },
];

// a part of a file that is stored; a job that is gone with the link; an order or an answer that is taken out of turn; a
// broken packet that ends the session
#[test]
fn ends_where_no_rule_is_kept(rt: HostRuntime) {
    play_all(&rt, rt.alloc(), SCRIPTS);
}
