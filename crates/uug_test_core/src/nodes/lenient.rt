//! Lenient ends: what they refuse where other ends end the session, and how they then go on.

use super::greetings::CALLER_STARTS;
use super::script::Act::Hear;
use super::script::Wire::{
    Close, Command, Data, Flood, InitC, Rr, RrFlood, Text, Wide, WideCommand,
};
use super::script::{Row, SILENCE, Script, follow, play_all};
use super::wide_peers::{self, CALLED_STARTS};
use super::{
    Given, Left, MemoryNode, NO_WORK, NOTHING, SEND, Side, Task, assert_ended, end, place,
};
use std::alloc::Global;
use std::process::Abort;
use uug_session::{End, Phase};

const LENIENT: &[Given<'static>] = &[Given::Lenient];

const SEND_Z: Task<'static> = Task::Send(b"x", b"z");

const REQUEST: Task<'static> = Task::Request(b"q", b"y");

/// A file longer than two messages of 32 bytes.
const FILE: &[u8] = &[b'f'; 70];

/// A command that can't be read, and the answer that refuses it.
type Refusal<'a> = (&'a [u8], &'a [u8]);

/// Commands that can't be read. A name of 201 bytes replaces the word `LONG`.
const UNREADABLE: &[Refusal<'static>] = &[
    (b"X a* y u -", b"XN2"),
    (b"E x y u - D.0 0644 u 3 rmail me", b"EN2"),
    (b"S LONG y u - D.0 0644", b"SN2"),
    (b"S x\x7f y u - D.0 0644", b"SN2"),
    (b"S x y u - D.0 8", b"SN2"),
    (b"S x y", b"SN2"),
    (b"R LONG y u -", b"RN2"),
    (b"R x y\x7f u -", b"RN2"),
    (b"R x y", b"RN2"),
    (b"Q x", b"QN2"),
];

/// Texts that no end refuses. Their first word is not a single capital letter, or there is none.
const UNKNOWN: &[&[u8]] = &[b"q x", b"SX x", b"HY", b"QN2", b""];

/// The rows in which a file of one byte is taken after message 1 of each end, and the session ends.
const TAKES_A_FILE: &[Row<'static>] = &[
    (
        Hear(&[WideCommand(2, 1, b"S x y u - D.0 0644")]),
        &[Rr(2), Command(2, 2, b"SY")],
    ),
    (Hear(&[Wide(3, 2, b"f")]), &[Rr(3)]),
    (Hear(&[Wide(4, 2, b"")]), &[Rr(4), Command(3, 4, b"CY")]),
    (
        Hear(&[WideCommand(5, 3, b"H")]),
        &[Rr(5), Command(4, 5, b"HY")],
    ),
    (Hear(&[WideCommand(6, 4, b"HY")]), &[Rr(6), Close]),
    (Hear(&[Close]), &[Text(b"OOOOOOO")]),
];

/// Returns the text, with a name of 201 bytes in place of its word `LONG`.
fn with_long_name(rt: &impl Abort, alloc: Global, text: &[u8]) -> Vec<u8> {
    let mut long = Vec::new(alloc);
    if text.len() > 6 && text[2..].starts_with(b"LONG") {
        add(rt, &text[..2], &mut long);
        add(rt, &[b'n'; 201], &mut long);
        add(rt, &text[6..], &mut long);
    } else {
        add(rt, text, &mut long);
    }
    long
}

fn add(rt: &impl Abort, bytes: &[u8], text: &mut Vec<u8>) {
    text.extend_from_slice(bytes).expect(rt, "memory for bytes");
}

fn called(rt: &impl Abort, alloc: Global, has: &[Given<'_>]) -> MemoryNode<Global> {
    end(rt, alloc, Side::Called, place(rt, Side::Called, 4096), has)
}

/// Starts the session, with the text as its first command.
fn hear_first(
    rt: &impl Abort,
    log: Global,
    node: &mut MemoryNode<Global>,
    text: &[u8],
    row: Row<'_>,
) {
    follow(rt, log, node, CALLED_STARTS.rows);
    let long = with_long_name(rt, log, text);
    let says = row.1;
    follow(
        rt,
        log,
        node,
        &[(Hear(&[WideCommand(1, 0, long.as_slice())]), says)],
    );
}

/// Asserts that the command is refused with this answer, and that a file is taken after it.
fn refuse(rt: &impl Abort, log: Global, node: &mut MemoryNode<Global>, refusal: Refusal<'_>) {
    let (text, answer) = refusal;
    hear_first(
        rt,
        log,
        node,
        text,
        (Hear(SILENCE), &[Rr(1), Command(1, 1, answer)]),
    );
    follow(rt, log, node, TAKES_A_FILE);
    let left = &[Left::Stored(b"y", b"f")];
    assert_ended(rt, node, node.spool().stored(), End::Done, left);
}

/// Asserts that the session ends with the command.
fn end_with(rt: &impl Abort, log: Global, node: &mut MemoryNode<Global>, text: &[u8]) {
    hear_first(rt, log, node, text, (Hear(SILENCE), &[Rr(1), Close]));
    assert_ended(rt, node, node.spool().stored(), End::BadTalk, NOTHING);
}

// a command that can't be read, after which a slave says nothing, or ends; another refusal than the peer awaits
#[test]
fn refuses_what_it_cannot_read(rt: HostRuntime) {
    for refusal in UNREADABLE {
        let mut node = called(&rt, rt.alloc(), LENIENT);
        refuse(&rt, rt.alloc(), &mut node, *refusal);
        drop(node);
    }
}

// a strict end that goes on
#[test]
fn ends_with_what_it_cannot_read(rt: HostRuntime) {
    for (text, _) in UNREADABLE {
        let mut node = called(&rt, rt.alloc(), NO_WORK);
        end_with(&rt, rt.alloc(), &mut node, text);
        drop(node);
    }
}

// two ends that both think themselves slave, and refuse each other for ever
#[test]
fn refuses_no_other_word(rt: HostRuntime) {
    for text in UNKNOWN {
        let mut node = called(&rt, rt.alloc(), LENIENT);
        end_with(&rt, rt.alloc(), &mut node, text);
        drop(node);
    }
}

/// The other end sends a file.
const TAKES_X: Row<'static> = (
    Hear(&[WideCommand(1, 0, b"S x x u - D.0 0644")]),
    &[Rr(1), Command(1, 1, b"SY")],
);

const LONG_FILES: &[Script<'static>] = &[
    // 1048577 bytes, and a file that is kept behind them
    Script {
        start: CALLED_STARTS,
        has: LENIENT,
        rows: &[
            TAKES_X,
            (Hear(&[Flood(256, 8, 2, 1)]), &[RrFlood(256, 2)]),
            (Hear(&[Wide(2, 1, b"f")]), &[Rr(2)]),
            (Hear(&[Wide(3, 1, b"")]), &[Rr(3), Command(2, 3, b"CN5")]),
            (
                Hear(&[WideCommand(4, 2, b"S x y u - D.0 0644")]),
                &[Rr(4), Command(3, 4, b"SY")],
            ),
            (Hear(&[Wide(5, 3, b"f")]), &[Rr(5)]),
            (Hear(&[Wide(6, 3, b"")]), &[Rr(6), Command(4, 6, b"CY")]),
        ],
        phase: Phase::Talking,
        left: &[Left::Stored(b"y", b"f")],
    },
    // 3 MiB
    Script {
        start: CALLED_STARTS,
        has: LENIENT,
        rows: &[
            TAKES_X,
            (Hear(&[Flood(768, 8, 2, 1)]), &[RrFlood(768, 2)]),
            (Hear(&[Wide(2, 1, b"")]), &[Rr(2), Command(2, 2, b"CN5")]),
            (
                Hear(&[WideCommand(3, 2, b"H")]),
                &[Rr(3), Command(3, 3, b"HY")],
            ),
        ],
        phase: Phase::Talking,
        left: NOTHING,
    },
    // one that was asked for
    Script {
        start: wide_peers::CALLER_STARTS,
        has: &[Given::Lenient, Given::Job(REQUEST)],
        rows: &[
            (Hear(&[InitC(2)]), &[Command(1, 0, b"R q y u -")]),
            (Hear(&[WideCommand(1, 1, b"RY 0644")]), &[Rr(1)]),
            (Hear(&[Flood(256, 8, 2, 1)]), &[RrFlood(256, 2)]),
            (Hear(&[Wide(2, 1, b"f")]), &[Rr(2)]),
            (
                Hear(&[Wide(3, 1, b"")]),
                &[Rr(3), Command(2, 3, b"CN5"), Command(3, 3, b"H")],
            ),
        ],
        phase: Phase::Talking,
        left: &[Left::Failed(REQUEST)],
    },
];

// a file that is kept cut off, or answered before its end; one that is gathered further and further
#[test]
fn refuses_a_file_past_the_limit(rt: HostRuntime) {
    play_all(&rt, rt.alloc(), LONG_FILES);
}

/// The link comes up, and the first job is offered.
const OFFERS_Y: Row<'static> = (Hear(&[InitC(2)]), &[Command(1, 0, b"S x y u - D.0 0644")]);

/// The other end already has the file, and the second job is offered.
const HELD: Row<'static> = (
    Hear(&[Command(1, 1, b"SN8")]),
    &[Rr(1), Command(2, 1, b"S x z u - D.0 0644")],
);

const HELD_FILES: &[Script<'static>] = &[
    Script {
        start: CALLER_STARTS,
        has: &[
            Given::Lenient,
            Given::File(b"x", b""),
            Given::Job(SEND),
            Given::Job(SEND_Z),
        ],
        rows: &[
            OFFERS_Y,
            HELD,
            // it has this one, too, and it was the last
            (
                Hear(&[Command(2, 2, b"SN8")]),
                &[Rr(2), Command(3, 2, b"H")],
            ),
        ],
        phase: Phase::Talking,
        left: &[Left::Struck(SEND), Left::Struck(SEND_Z)],
    },
    Script {
        start: CALLER_STARTS,
        has: &[Given::File(b"x", b""), Given::Job(SEND), Given::Job(SEND_Z)],
        rows: &[OFFERS_Y, HELD],
        phase: Phase::Talking,
        left: &[Left::Pending(SEND), Left::Pending(SEND_Z)],
    },
];

// a job that is offered anew for ever, though the other end has its file; one that is struck by an end that is not to
#[test]
fn takes_a_job_as_done_whose_file_is_there(rt: HostRuntime) {
    play_all(&rt, rt.alloc(), HELD_FILES);
}

/// The other end gives the file, and asks for the turn.
const WISHED: Row<'static> = (Hear(&[WideCommand(1, 1, b"RY 0644M 0x1")]), &[Rr(1)]);

const WISHES: &[Script<'static>] = &[
    Script {
        start: wide_peers::CALLER_STARTS,
        has: &[Given::Lenient, Given::Job(REQUEST)],
        rows: &[
            (Hear(&[InitC(2)]), &[Command(1, 0, b"R q y u -")]),
            WISHED,
            (Hear(&[Wide(2, 1, b"f")]), &[Rr(2)]),
            (
                Hear(&[Wide(3, 1, b"")]),
                &[Rr(3), Command(2, 3, b"CY"), Command(3, 3, b"H")],
            ),
        ],
        phase: Phase::Talking,
        left: &[Left::Struck(REQUEST), Left::Stored(b"y", b"f")],
    },
    Script {
        start: wide_peers::CALLER_STARTS,
        has: &[Given::Job(REQUEST)],
        rows: &[
            (Hear(&[InitC(2)]), &[Command(1, 0, b"R q y u -")]),
            (Hear(&[WideCommand(1, 1, b"RY 0644M 0x1")]), &[Rr(1), Close]),
        ],
        phase: Phase::Ended(End::BadTalk),
        left: &[Left::Pending(REQUEST)],
    },
];

// a file that is not taken, since the other end says what it wants behind its mode; one that a strict end takes
#[test]
fn takes_a_file_whose_giver_wants_to_be_master(rt: HostRuntime) {
    play_all(&rt, rt.alloc(), WISHES);
}

/// The result for the file is given while most of it is still to be sent.
const EARLY: &[Row<'static>] = &[
    OFFERS_Y,
    (
        Hear(&[Command(1, 1, b"SY")]),
        &[Rr(1), Data(2, 1, &[b'f'; 32]), Data(3, 1, &[b'f'; 32])],
    ),
    (Hear(&[Command(2, 1, b"CY")]), &[Rr(2), Close]),
];

const EARLY_ANSWERS: &[Script<'static>] = &[
    Script {
        start: CALLER_STARTS,
        has: &[Given::File(b"x", FILE), Given::Job(SEND)],
        rows: EARLY,
        phase: Phase::Ended(End::BadTalk),
        left: &[Left::Pending(SEND)],
    },
    Script {
        start: CALLER_STARTS,
        has: &[Given::Lenient, Given::File(b"x", FILE), Given::Job(SEND)],
        rows: EARLY,
        phase: Phase::Ended(End::BadTalk),
        left: &[Left::Pending(SEND)],
    },
    // the same of a file that was asked for
    Script {
        start: CALLED_STARTS,
        has: &[Given::File(b"x", FILE)],
        rows: &[
            (
                Hear(&[WideCommand(1, 0, b"R x y u -")]),
                &[Rr(1), Command(1, 1, b"RY 0644"), Data(2, 1, &[b'f'; 32])],
            ),
            (Hear(&[WideCommand(2, 0, b"CY")]), &[Rr(2), Close]),
        ],
        phase: Phase::Ended(End::BadTalk),
        left: NOTHING,
    },
];

// a job that is struck before its file was sent
#[test]
fn takes_no_answer_before_its_file_was_sent(rt: HostRuntime) {
    play_all(&rt, rt.alloc(), EARLY_ANSWERS);
}
