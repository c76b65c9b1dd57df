//! The lines of logs and of statistics. The tests catch beyond the clauses a rule that is wrong in the definition, and
//! a call that reports that memory ran out when none was refused.

use crate::assertions::assert_bytes;
use std::alloc::Global;
use std::process::Abort;
use uug_taylor_text::{Amount, Course, LogEvent, LogHead, Moment, StatsHead, log_line, stats_line};

/// Returns the moment of this second and these hundredths in a minute of 26 November 2026.
pub(crate) fn moment(second: u8, hundredths: u8) -> Moment {
    Moment {
        year: 2026,
        month: 11,
        day: 26,
        hour: 2,
        minute: 9,
        second,
        hundredths,
    }
}

/// The head of a line: the system, the user, the second, the hundredths, and the process.
type Place<'a> = (&'a str, &'a str, u8, u8, u32);

/// The lines of two sessions, as uucico wrote them.
const LINES: [(Place<'_>, LogEvent<'_>, &str); 16] = [
    (
        ("beta", "", 19, 52, 23544),
        LogEvent::Calls(b"line"),
        "uucico beta - (2026-11-26 02:09:19.52 23544) Calling system beta (port line)\n",
    ),
    (
        ("beta", "", 19, 52, 23544),
        LogEvent::LoggedIn,
        "uucico beta - (2026-11-26 02:09:19.52 23544) Login successful\n",
    ),
    (
        ("", "", 19, 52, 23545),
        LogEvent::Called(b"uucp", b"stdin"),
        "uucico - - (2026-11-26 02:09:19.52 23545) Incoming call (login uucp port stdin)\n",
    ),
    (
        ("beta", "", 19, 53, 23544),
        LogEvent::Agreed((1024, 7), (1024, 7)),
        "uucico beta - (2026-11-26 02:09:19.53 23544) Handshake successful (protocol 'g' sending packet/window 1024/7 receiving 1024/7)\n",
    ),
    (
        ("beta", "uucp", 19, 53, 23544),
        LogEvent::Sends(b"/etc/hostname", 3),
        "uucico beta uucp (2026-11-26 02:09:19.53 23544) Sending /etc/hostname (3 bytes)\n",
    ),
    (
        ("alpha", "uucp", 19, 53, 23545),
        LogEvent::Receives(b"/srv/beta/pub/h1", Some(3)),
        "uucico alpha uucp (2026-11-26 02:09:19.53 23545) Receiving /srv/beta/pub/h1 (3 bytes)\n",
    ),
    // the size is said only where it was told
    (
        ("alpha", "uucp", 19, 53, 23545),
        LogEvent::Receives(b"/srv/beta/pub/h1", None),
        "uucico alpha uucp (2026-11-26 02:09:19.53 23545) Receiving /srv/beta/pub/h1\n",
    ),
    // a file that was cut off goes on
    (
        ("beta", "", 19, 53, 23544),
        LogEvent::SendsFrom(b"D.0001", Some(60000), 28672),
        "uucico beta - (2026-11-26 02:09:19.53 23544) Sending D.0001 (60000 bytes resume at 28672)\n",
    ),
    (
        ("alpha", "", 19, 53, 23545),
        LogEvent::ReceivesFrom(b"y", Some(60000), 1),
        "uucico alpha - (2026-11-26 02:09:19.53 23545) Receiving y (60000 bytes resume at 1)\n",
    ),
    // its size too is said only where it was told
    (
        ("beta", "", 19, 53, 23544),
        LogEvent::SendsFrom(b"x", None, 30720),
        "uucico beta - (2026-11-26 02:09:19.53 23544) Sending x (resume at 30720)\n",
    ),
    (
        ("beta", "uucp", 19, 57, 23544),
        LogEvent::Fault(b"/srv/f1: file could not be stored in final location"),
        "uucico beta uucp (2026-11-26 02:09:19.57 23544) ERROR: /srv/f1: file could not be stored in final location\n",
    ),
    (
        ("alpha", "", 17, 72, 3656),
        LogEvent::Fault(b"Call from unknown system zeta"),
        "uucico alpha - (2026-11-26 02:09:17.72 3656) ERROR: Call from unknown system zeta\n",
    ),
    (
        ("beta", "", 19, 59, 23544),
        LogEvent::Packets(52, 0, 41),
        "uucico beta - (2026-11-26 02:09:19.59 23544) Protocol 'g' packets: sent 52, resent 0, received 41\n",
    ),
    (
        ("beta", "", 19, 60, 23544),
        LogEvent::Over(0, 1533),
        "uucico beta - (2026-11-26 02:09:19.60 23544) Call complete (0 seconds 1533 bytes 0 bps)\n",
    ),
    (
        ("beta", "", 26, 58, 4414),
        LogEvent::Over(4, 20000),
        "uucico beta - (2026-11-26 02:09:26.58 4414) Call complete (4 seconds 20000 bytes 5000 bps)\n",
    ),
    (
        ("beta", "joe", 5, 0, 1),
        LogEvent::Sends(b"x", 0),
        "uucico beta joe (2026-11-26 02:09:05.00 1) Sending x (0 bytes)\n",
    ),
];

fn assert_line(
    rt: &impl Abort,
    alloc: Global,
    place: Place<'_>,
    event: &LogEvent<'_>,
    expected: &str,
) {
    let (system, user, second, hundredths, process) = place;
    let head = LogHead {
        program: b"uucico",
        system: system.as_bytes(),
        user: user.as_bytes(),
        moment: moment(second, hundredths),
        process,
    };
    let line = log_line(alloc, &head, event).expect(rt, "memory for a line");
    assert_bytes(rt, &line, expected, expected);
}

#[test]
fn writes_lines_of_a_log(rt: HostRuntime) {
    for (place, event, expected) in LINES {
        assert_line(&rt, rt.alloc(), place, &event, expected);
    }
}

/// The file of a line: the system, the port, and the hundredths of its second.
type File<'a> = (&'a str, &'a str, u8);

/// Lines of statistics, as uucico wrote them.
const STATISTICS: [(File<'_>, (Course, bool), (u32, u32), &str); 6] = [
    (
        ("beta", "line", 53),
        (Course::Sent, false),
        (3, 0),
        "uucp beta (2026-11-26 02:09:19.53) sent 3 bytes in 0.000 seconds (0 bytes/sec) on port line\n",
    ),
    (
        ("alpha", "stdin", 53),
        (Course::Received, false),
        (3, 0),
        "uucp alpha (2026-11-26 02:09:19.53) received 3 bytes in 0.000 seconds (0 bytes/sec) on port stdin\n",
    ),
    (
        ("beta", "line", 57),
        (Course::Sent, true),
        (6, 14),
        "uucp beta (2026-11-26 02:09:19.57) failed after sent 6 bytes in 0.014 seconds (428 bytes/sec) on port line\n",
    ),
    (
        ("beta", "line", 53),
        (Course::Sent, false),
        (20000, 3733),
        "uucp beta (2026-11-26 02:09:19.53) sent 20000 bytes in 3.733 seconds (5357 bytes/sec) on port line\n",
    ),
    (
        ("alpha", "stdin", 52),
        (Course::Received, false),
        (20000, 3706),
        "uucp alpha (2026-11-26 02:09:19.52) received 20000 bytes in 3.706 seconds (5396 bytes/sec) on port stdin\n",
    ),
    // as much as there can be
    (
        ("beta", "line", 0),
        (Course::Received, true),
        (4_294_967_295, 1),
        "uucp beta (2026-11-26 02:09:19.00) failed after received 4294967295 bytes in 0.001 seconds (4294967295000 bytes/sec) on port line\n",
    ),
];

fn assert_statistics(
    rt: &impl Abort,
    alloc: Global,
    (system, port, hundredths): File<'_>,
    (course, has_failed): (Course, bool),
    (bytes, thousandths): (u32, u32),
    expected: &str,
) {
    let head = StatsHead {
        user: b"uucp",
        system: system.as_bytes(),
        moment: moment(19, hundredths),
        port: port.as_bytes(),
    };
    let amount = Amount { bytes, thousandths };
    let line = stats_line(alloc, &head, course, has_failed, amount);
    let line = line.expect(rt, "memory for a line");
    assert_bytes(rt, &line, expected, expected);
}

#[test]
fn writes_statistics(rt: HostRuntime) {
    for (file, course, amount, expected) in STATISTICS {
        assert_statistics(&rt, rt.alloc(), file, course, amount, expected);
    }
}
