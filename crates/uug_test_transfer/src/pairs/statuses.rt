//! The status of a folder, in lines and as JSON. The tests catch beyond the clauses a form that is wrong in the
//! definition, and a call that reports that memory ran out when none was refused.

use crate::pairs::assertions::{assert_same, assert_same_at};
use std::alloc::{AllocError, Allocator, Global};
use std::process::Abort;
use uug_io_disk::{HeldFile, SeenFile};
use uug_io_pending::{FailedJob, LastSession, LogEntry, PendingJob, status_json, status_text};
use uug_session::Job;
use uug_talk::Name;
use uug_test_alloc::Refusing;

const LINES: &str = "3 pending, 1 held, 2 failed
session not over: its mark is there, 2 h old
session - 2026-11-30 01:02:03.45: Incoming call (login - port l)
session b 2026-11-30 01:02:04.00: ERROR: hungup
session b 2026-11-30 01:02:04.00: Call complete (1 seconds)
pending send a\" a\" a\": 9000 bytes, 2 h old
pending send a\" a\" a\": no file
pending request a\" a\" a\"
held a\": 9000 of 60000 bytes, 2 h old
failed request a\" a\" a\": \\xff \"
failed send a\" a\" a\"
";

const OBJECT: &str = "{\"session\":{\"age\":7300},\"log\":[\
{\"system\":\"-\",\"date\":\"2026-11-30\",\"time\":\"01:02:03.45\",\"text\":\"Incoming call (login - port l)\"},\
{\"system\":\"b\",\"date\":\"2026-11-30\",\"time\":\"01:02:04.00\",\"text\":\"ERROR: hungup\"},\
{\"system\":\"b\",\"date\":\"2026-11-30\",\"time\":\"01:02:04.00\",\"text\":\"Call complete (1 seconds)\"}],\"pending\":[\
{\"kind\":\"send\",\"source\":\"a\\\"\",\"target\":\"a\\\"\",\"user\":\"a\\\"\",\"bytes\":9000,\"age\":7300},\
{\"kind\":\"send\",\"source\":\"a\\\"\",\"target\":\"a\\\"\",\"user\":\"a\\\"\",\"bytes\":null,\"age\":null},\
{\"kind\":\"request\",\"source\":\"a\\\"\",\"target\":\"a\\\"\",\"user\":\"a\\\"\",\"bytes\":null,\"age\":null}],\
\"held\":[{\"name\":\"a\\\"\",\"bytes\":9000,\"whole\":60000,\"age\":7300}],\"failed\":[\
{\"kind\":\"request\",\"source\":\"a\\\"\",\"target\":\"a\\\"\",\"user\":\"a\\\"\",\"why\":\"\\\\xff \\\"\"},\
{\"kind\":\"send\",\"source\":\"a\\\"\",\"target\":\"a\\\"\",\"user\":\"a\\\"\",\"why\":\"\"}]}
";

/// The lines of a log behind the start of a session of the process 12: those of another one, and others, are skipped.
const LOG: &[u8] = b"uucpair b - (2026-11-30 01:02:03.50 12) Receiving x (5 bytes)
uucpair c - (2026-11-30 01:02:03.50 13) ERROR: gaveup
no line of a log
uucpair b - (2026-11-30 01:02:04.00 12) ERROR: hungup
uucpair b - (2026-11-30 01:02:04.00 12) Call complete (1 seconds)
";

const LAST: LastSession<'static> = LastSession {
    start: LogEntry {
        system: b"-",
        date: b"2026-11-30",
        time: b"01:02:03.45",
        process: b"12)",
        text: b"Incoming call (login - port l)",
    },
    behind: LOG,
};

/// Returns a job that sends, all of whose names are this one.
fn send_of(name: Name) -> Job {
    Job::Send {
        source: name,
        target: name,
        user: name,
        temp: None,
    }
}

/// Returns a job that requests, all of whose names are this one.
fn request_of(name: Name) -> Job {
    Job::Request {
        source: name,
        target: name,
        user: name,
    }
}

/// Returns the status of a folder with jobs of each kind, whose names are this one.
fn shown<A: Allocator>(alloc: A, name: Name, is_json: bool) -> Result<String<A>, AllocError> {
    let file = SeenFile {
        size: 9000,
        age: Some(7300),
    };
    let pending = [
        PendingJob {
            job: send_of(name),
            file: Some(file),
        },
        PendingJob {
            job: send_of(name),
            file: None,
        },
        PendingJob {
            job: request_of(name),
            file: None,
        },
    ];
    let held = [HeldFile {
        name,
        whole: 60_000,
        held: file,
    }];
    let failed = [
        FailedJob {
            job: request_of(name),
            why: b"\xff \"",
        },
        FailedJob {
            job: send_of(name),
            why: b"",
        },
    ];
    if is_json {
        status_json(alloc, &Some(file), &Some(LAST), &pending, &held, &failed)
    } else {
        status_text(alloc, &Some(file), &Some(LAST), &pending, &held, &failed)
    }
}

fn name(rt: &impl Abort) -> Name {
    Name::new(b"a\"").expect(rt, "a name")
}

#[test]
fn shows_a_status(rt: HostRuntime) {
    for (is_json, text) in [(false, LINES), (true, OBJECT)] {
        let shown = shown(rt.alloc(), name(&rt), is_json).expect(&rt, "memory for a status");
        assert_same(&rt, shown.as_str(), text);
    }
}

/// Refuses a request of a status. Returns whether there was one.
fn refuse(rt: &impl Abort, heap: &Refusing<Global>, is_json: bool, nth: u64) -> bool {
    heap.refuse(nth);
    let is_done = shown(heap, name(rt), is_json).is_ok();
    let was_refused = heap.was_refused();
    assert_same_at(rt, is_done, !was_refused, nth);
    was_refused
}

#[test]
fn reports_that_memory_ran_out(rt: HostRuntime) {
    let heap = Refusing::new(rt.alloc(), 0);
    for is_json in [false, true] {
        assert_same(&rt, refuse(&rt, &heap, is_json, 1), true);
        assert_same(&rt, refuse(&rt, &heap, is_json, 2), true);
        assert_same(&rt, refuse(&rt, &heap, is_json, 100), false);
    }
}
