//! An end that keeps a number of its conversations.

use super::greetings::CALLED_GREETS;
use super::script::Act::{CallAgain, Hear};
use super::script::Wire::{InitA, Text};
use super::script::{Row, SILENCE, follow};
use super::{MemoryNode, NO_WORK, Side, end, place};
use crate::assertions::assert_same;
use std::alloc::Global;
use std::process::Abort;
use uug_session::{End, Phase};

/// An end, the number that it keeps, what it hears and says, its phase afterwards, and its number.
type Conversation<'a> = (Side, Option<u32>, &'a [Row<'a>], Phase, Option<u32>);

/// A caller that keeps 7 says its name after it has heard that of the called end.
const CALLER_SAYS_7: Row<'static> = (Hear(&[Text(b"Shere=b")]), &[Text(b"Sa -Q7")]);

const CONVERSATIONS: &[Conversation<'static>] = &[
    (
        Side::Caller,
        Some(7),
        &[CALLER_SAYS_7],
        Phase::Hail,
        Some(7),
    ),
    (
        Side::Caller,
        Some(7),
        &[
            CALLER_SAYS_7,
            (Hear(&[Text(b"ROK"), Text(b"Pg")]), &[Text(b"Ug"), InitA(2)]),
        ],
        Phase::Starting,
        Some(8),
    ),
    (
        Side::Caller,
        Some(7),
        &[CALLER_SAYS_7, (Hear(&[Text(b"RBADSEQ")]), SILENCE)],
        Phase::Ended(End::BadSequence),
        Some(7),
    ),
    (
        Side::Caller,
        Some(7),
        &[CALLER_SAYS_7, (Hear(&[Text(b"RLCK")]), SILENCE)],
        Phase::Ended(End::Refused),
        Some(7),
    ),
    (
        Side::Called,
        Some(7),
        &[
            CALLED_GREETS,
            (Hear(&[Text(b"Sa -Q7")]), &[Text(b"ROK"), Text(b"Pg")]),
        ],
        Phase::Hail,
        Some(8),
    ),
    (
        Side::Called,
        Some(4_294_967_295),
        &[
            CALLED_GREETS,
            (
                Hear(&[Text(b"Sa -Q4294967295")]),
                &[Text(b"ROK"), Text(b"Pg")],
            ),
        ],
        Phase::Hail,
        Some(0),
    ),
    // in the next session it expects the same number as before, since it has let nobody in
    (
        Side::Called,
        Some(9),
        &[
            CALLED_GREETS,
            (Hear(&[Text(b"Sa -Q7")]), &[Text(b"RBADSEQ")]),
            (CallAgain, &[Text(b"Shere=b")]),
            (Hear(&[Text(b"Sa -Q9")]), &[Text(b"ROK"), Text(b"Pg")]),
            (CallAgain, &[Text(b"Shere=b")]),
            (Hear(&[Text(b"Sa -Q9")]), &[Text(b"RBADSEQ")]),
        ],
        Phase::Ended(End::BadSequence),
        Some(10),
    ),
    (
        Side::Called,
        Some(7),
        &[
            CALLED_GREETS,
            (Hear(&[Text(b"Sz -Q8")]), &[Text(b"RYou are unknown to me")]),
        ],
        Phase::Ended(End::Refused),
        Some(7),
    ),
    (
        Side::Called,
        Some(7),
        &[CALLED_GREETS, (Hear(&[Text(b"Sa")]), &[Text(b"RBADSEQ")])],
        Phase::Ended(End::BadSequence),
        Some(7),
    ),
    (
        Side::Called,
        None,
        &[
            CALLED_GREETS,
            (Hear(&[Text(b"Sa -Q7")]), &[Text(b"ROK"), Text(b"Pg")]),
        ],
        Phase::Hail,
        None,
    ),
];

fn keeping(rt: &impl Abort, alloc: Global, side: Side, number: Option<u32>) -> MemoryNode<Global> {
    let mut place = place(rt, side, 32);
    place.number = number;
    end(rt, alloc, side, place, NO_WORK)
}

fn converse(rt: &impl Abort, alloc: Global, conversation: &Conversation<'_>) {
    let mut node = keeping(rt, alloc, conversation.0, conversation.1);
    assert_converses(rt, alloc, &mut node, conversation);
    drop(node);
}

fn assert_converses(
    rt: &impl Abort,
    log: Global,
    node: &mut MemoryNode<Global>,
    conversation: &Conversation<'_>,
) {
    let (_, _, rows, phase, number) = *conversation;
    follow(rt, log, node, rows);
    assert_same(rt, (node.phase(), node.number()), (phase, number));
}

// a number that is not said, not looked at, or that rises where it must not
#[test]
fn keeps_its_number(rt: HostRuntime) {
    for conversation in CONVERSATIONS {
        converse(&rt, rt.alloc(), conversation);
    }
}

fn call_with_7(rt: &impl Abort, log: Global, node: &mut MemoryNode<Global>) {
    assert_same(rt, node.number(), None);
    node.hang_up();
    node.set_number(7);
    assert_same(rt, node.number(), Some(7));
    node.call_again().expect(rt, "memory");
    follow(rt, log, node, &[CALLER_SAYS_7]);
}

// a number that is given between two sessions and not said in the next
#[test]
fn says_the_number_that_it_was_given(rt: HostRuntime) {
    let mut node = keeping(&rt, rt.alloc(), Side::Caller, None);
    call_with_7(&rt, rt.alloc(), &mut node);
    drop(node);
}
