//! Sessions of a caller with one job, at lines of many manners.

use super::{Left, Manner, Other, play};
use crate::calls::assertions::{assert_same, assert_same_at, assert_so};
use std::alloc::Global;
use std::process::Abort;
use uug_session::{End, Phase};
use uug_transfer::PatienceLimits;

/// More bytes, or calls, than any of these sessions has.
pub(super) const NEVER: usize = 1_000_000;

/// The number of bytes that is enough for each session that ends by itself.
pub(super) const AMPLE: u64 = 1_000_000;

/// The limits of a line whose reads wait for ten seconds.
pub(super) const LIMITS: PatienceLimits = PatienceLimits {
    greeting: 60,
    session: 200,
};

const HI: &[u8] = b"hi";

/// Thirteen packets of 32 bytes, the last of them with 16, which is more than a window.
pub(super) const LONG: &[u8] = &[97; 400];

pub(super) const CLEAN: Manner = Manner {
    other: Other::Speaks,
    at_once: NEVER,
    takes: NEVER,
    ends_behind: NEVER,
    fails_at: NEVER,
};

pub(super) const BYTE_BY_BYTE: Manner = Manner {
    other: Other::Speaks,
    at_once: 1,
    takes: 1,
    ends_behind: NEVER,
    fails_at: NEVER,
};

pub(super) const MUTE: Manner = Manner {
    other: Other::IsMute,
    at_once: NEVER,
    takes: NEVER,
    ends_behind: NEVER,
    fails_at: NEVER,
};

const BABBLING: Manner = Manner {
    other: Other::Babbles,
    at_once: NEVER,
    takes: NEVER,
    ends_behind: NEVER,
    fails_at: NEVER,
};

/// A line that ends in the middle of the called end's first answer to the file's packets. The greeting of the called
/// end is 9, 5 and 4 bytes, its start-up three packets of 6, its answer to the command 6, and the command with which it
/// takes the file 38.
const ENDS_IN_THE_FILE: Manner = Manner {
    other: Other::Speaks,
    at_once: NEVER,
    takes: NEVER,
    ends_behind: 83,
    fails_at: NEVER,
};

/// The job is done.
pub(super) const DONE: Left = Left {
    answer: Ok(()),
    phase: Phase::Ended(End::Done),
    pending: 0,
    struck: 1,
    kept: 1,
};

/// The job is still pending, because nothing came for too long, or the line was gone.
pub(super) const GAVE_UP: Left = Left {
    answer: Ok(()),
    phase: Phase::Ended(End::GaveUp),
    pending: 1,
    struck: 0,
    kept: 0,
};

pub(super) const HUNG_UP: Left = Left {
    answer: Ok(()),
    phase: Phase::Ended(End::HungUp),
    pending: 1,
    struck: 0,
    kept: 0,
};

/// The bytes of the file, the manner of the line, the maximum number of bytes read, and the state after the session.
const SCENES: &[(&[u8], Manner, u64, Left)] = &[
    (HI, CLEAN, AMPLE, DONE),
    (LONG, CLEAN, AMPLE, DONE),
    (LONG, BYTE_BY_BYTE, AMPLE, DONE),
    // eight timeouts in the greeting
    (HI, MUTE, AMPLE, GAVE_UP),
    (LONG, ENDS_IN_THE_FILE, AMPLE, HUNG_UP),
    // none of what babbles is a text
    (HI, BABBLING, 10_000, HUNG_UP),
    // no more is read than may be
    (LONG, BYTE_BY_BYTE, 83, HUNG_UP),
    (LONG, BYTE_BY_BYTE, 0, HUNG_UP),
];

/// Checks all of the table.
#[test]
fn sessions_end_as_they_should(rt: HostRuntime) {
    for (place, (bytes, manner, most, expected)) in SCENES.iter().enumerate() {
        let left = play(&rt, rt.alloc(), bytes, *manner, *most);
        assert_same_at(&rt, left, *expected, place);
    }
}

/// Asserts that the job is still pending, or done, if a call of the line fails. If it is done the other end has its
/// file.
fn assert_failing(rt: &impl Abort, alloc: Global, fails_at: usize) {
    let manner = Manner {
        other: Other::Speaks,
        at_once: NEVER,
        takes: NEVER,
        ends_behind: NEVER,
        fails_at,
    };
    let left = play(rt, alloc, LONG, manner, AMPLE);
    assert_same(rt, left.answer, Ok(()));
    assert_same(rt, left.pending.saturating_add(left.struck), 1);
    assert_so(rt, left.struck <= left.kept);
    assert_so(rt, is_over(left.phase));
}

/// Returns whether the session was done, or the line was gone.
fn is_over(phase: Phase) -> bool {
    match phase {
        Phase::Ended(End::Done | End::HungUp) => true,
        _ => false,
    }
}

/// A number of calls that a whole session of the caller exceeds. It writes at least its greeting, three packets of the
/// start-up, the command, the file in two windows, and its good-bye, and reads what the other end says to each.
const CALLS: usize = 16;

#[test]
fn each_call_fails_in_turn(rt: HostRuntime) {
    for fails_at in 0..CALLS {
        assert_failing(&rt, rt.alloc(), fails_at);
    }
}
