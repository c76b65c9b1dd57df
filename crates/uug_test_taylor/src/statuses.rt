//! Status files. The tests catch beyond the clauses a rule that is wrong in the definition, and a call that reports
//! that memory ran out when none was refused.

use crate::assertions::{assert_bytes, assert_same, assert_same_at, name};
use std::alloc::Global;
use std::process::Abort;
use uug_taylor_text::{CallState, Status, is_due, read_status, status_failed, status_line};

/// A status: the result of the call, the number of failures, the time, and the seconds to wait.
type Row = (CallState, u32, u32, u32);

fn status((state, tries, time, wait): Row) -> Status {
    Status {
        state,
        tries,
        time,
        wait,
    }
}

/// Statuses, and the file of each, as uucico wrote it.
const FILES: [(Row, &str); 9] = [
    (
        (CallState::Complete, 0, 1_795_658_959, 0),
        "0 0 1795658959 0 Conversation complete beta\n",
    ),
    (
        (CallState::PortUnavailable, 1, 1_795_659_271, 600),
        "1 1 1795659271 600 Port unavailable beta\n",
    ),
    (
        (CallState::DialFailed, 1, 1_795_659_271, 600),
        "2 1 1795659271 600 Dial failed beta\n",
    ),
    (
        (CallState::DialFailed, 2, 1_795_768_492, 1200),
        "2 2 1795768492 1200 Dial failed beta\n",
    ),
    (
        (CallState::LoginFailed, 1, 1_795_659_278, 600),
        "3 1 1795659278 600 Login failed beta\n",
    ),
    (
        (CallState::HandshakeFailed, 1, 1_795_659_281, 600),
        "4 1 1795659281 600 Handshake failed beta\n",
    ),
    (
        (CallState::CallFailed, 1, 1_795_659_106, 600),
        "5 1 1795659106 600 Call failed beta\n",
    ),
    (
        (CallState::Talking, 0, 1_795_659_003, 0),
        "6 0 1795659003 0 Talking beta\n",
    ),
    (
        (CallState::WrongTime, 1, 1_795_659_293, 0),
        "7 1 1795659293 0 Wrong time to call beta\n",
    ),
];

fn assert_file(rt: &impl Abort, alloc: Global, row: Row, text: &str) {
    let line = status_line(alloc, &status(row), &name(rt, "beta"));
    let line = line.expect(rt, "memory for a line");
    assert_bytes(rt, &line, text, text);
    assert_same_at(rt, read_status(text.as_bytes()), Some(status(row)), text);
}

#[test]
fn writes_and_reads_statuses(rt: HostRuntime) {
    for (row, text) in FILES {
        assert_file(&rt, rt.alloc(), row, text);
    }
}

/// Texts without a status.
const STRANGE: [&str; 12] = [
    "",
    "\n",
    "0",
    "0 0 1795658959",
    "8 0 1795658959 0 Other beta\n",
    "00 0 1795658959 0 Conversation complete beta\n",
    "x 0 1795658959 0 Conversation complete beta\n",
    "0 -1 1795658959 0 Conversation complete beta\n",
    "0 x 1795658959 0 Conversation complete beta\n",
    "0 0 4294967296 0 Conversation complete beta\n",
    "0 0 1795658959 y Conversation complete beta\n",
    "0\n0\n1795658959\n0\n",
];

#[test]
fn reads_no_strange_status(rt: HostRuntime) {
    for text in STRANGE {
        assert_same_at(&rt, read_status(text.as_bytes()), None, text);
    }
    let last = read_status(b"0 0 4294967295 0 x");
    assert_same(
        &rt,
        last,
        Some(status((CallState::Complete, 0, u32::MAX, 0))),
    );
}

/// The result of a failed call, the status in the file before, the time, and the status then.
const FAILURES: [(CallState, Option<Row>, u32, Row); 7] = [
    // as uucico wrote it
    (
        CallState::WrongTime,
        None,
        1_795_659_293,
        (CallState::WrongTime, 1, 1_795_659_293, 0),
    ),
    (
        CallState::DialFailed,
        None,
        5,
        (CallState::DialFailed, 1, 5, 600),
    ),
    (
        CallState::DialFailed,
        Some((CallState::DialFailed, 1, 5, 600)),
        700,
        (CallState::DialFailed, 2, 700, 1200),
    ),
    (
        CallState::LoginFailed,
        Some((CallState::DialFailed, 2, 5, 1200)),
        1300,
        (CallState::LoginFailed, 3, 1300, 1800),
    ),
    // a session that broke: its file said that it goes on
    (
        CallState::CallFailed,
        Some((CallState::Talking, 0, 5, 0)),
        9,
        (CallState::CallFailed, 1, 9, 600),
    ),
    (
        CallState::HandshakeFailed,
        Some((CallState::Complete, 0, 5, 0)),
        9,
        (CallState::HandshakeFailed, 1, 9, 600),
    ),
    // it can't count further
    (
        CallState::DialFailed,
        Some((CallState::DialFailed, 4_294_967_295, 5, 4_294_967_295)),
        9,
        (CallState::DialFailed, 4_294_967_295, 9, 4_294_967_295),
    ),
];

#[test]
fn counts_failed_calls(rt: HostRuntime) {
    for (state, before, time, expected) in FAILURES {
        let seen = status_failed(state, before.map(status), time);
        assert_same_at(&rt, seen, status(expected), time);
    }
}

/// The time of a call and the seconds to wait, a time, and whether the system may be called then.
const TIMES: [((u32, u32), u32, bool); 6] = [
    ((1000, 600), 1599, false),
    ((1000, 600), 1600, true),
    ((1000, 600), 9999, true),
    ((1000, 0), 1000, true),
    ((1000, 0), 999, false),
    ((4_294_967_295, 4_294_967_295), 4_294_967_295, false),
];

#[test]
fn waits_before_the_next_call(rt: HostRuntime) {
    for ((time, wait), now, expected) in TIMES {
        let status = status((CallState::DialFailed, 1, time, wait));
        assert_same_at(&rt, is_due(&status, now), expected, now);
    }
}
