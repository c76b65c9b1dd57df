//! Texts of reports from outside, and of one without memory.

use crate::assertions::{assert_same, assert_so};
use std::alloc::{Allocator, Global};
use std::test::Fail;
use uug_line::{LineVerdict, Side};
use uug_session::{End, MemorySpool, Phase, Spool, Stored};
use uug_sim_script::{EndNumbers, SessionNumbers, ShownEnd, ShownReport, add_report};
use uug_talk::Name;
use uug_test_alloc::Refusing;

/// A session in which a file was sent.
const DONE: SessionNumbers = SessionNumbers {
    caller: EndNumbers {
        sent: 4,
        taken: 3,
        most: 1,
        phase: Phase::Ended(End::Done),
    },
    called: EndNumbers {
        sent: 3,
        taken: 4,
        most: 1,
        phase: Phase::Ended(End::Done),
    },
};

/// A session that was broken off.
const BROKEN: SessionNumbers = SessionNumbers {
    caller: EndNumbers {
        sent: 2,
        taken: 1,
        most: 12,
        phase: Phase::Ended(End::HungUp),
    },
    called: EndNumbers {
        sent: 1,
        taken: 1,
        most: 0,
        phase: Phase::Talking,
    },
};

fn shown<A: Allocator>(struck: usize, stored: &[Stored<A>]) -> ShownEnd<'_, A> {
    ShownEnd {
        pending: 0,
        struck,
        failed: 0,
        stored,
        held: &[],
        number: None,
    }
}

fn report_of<'a>(
    sessions: &'a [SessionNumbers],
    called: &'a MemorySpool<Global>,
    verdict: LineVerdict,
) -> ShownReport<'a, Global> {
    ShownReport {
        sessions,
        caller: shown(1, &[]),
        called: shown(0, called.stored()),
        verdict,
    }
}

#[test]
fn writes_a_clean_report(rt: HostRuntime) -> Result<(), Fail> {
    let mut spool = MemorySpool::new(rt.alloc());
    spool.keep(&Name::new(b"y")?, 0o644, b"")?;
    let report = report_of(&[DONE], &spool, LineVerdict::Clean);
    let mut text = String::new(rt.alloc());
    add_report(rt.alloc(), &mut text, &report)?;
    assert_same(
        &rt,
        text.as_str(),
        "session 1
caller sent 4 taken 3 most 1 done
called sent 3 taken 4 most 1 done
caller pending 0 struck 1 failed 0
called pending 0 struck 0 failed 0
called stored y 0644 -
verdict clean
",
    );
    Ok(())
}

#[test]
fn writes_a_fooled_report(rt: HostRuntime) -> Result<(), Fail> {
    let mut spool = MemorySpool::new(rt.alloc());
    spool.keep(&Name::new(b"long.name")?, 0o7, &[0, 0xab])?;
    spool.keep(&Name::new(b"y")?, 0o7777, b"x")?;
    let verdict = LineVerdict::Fooled {
        event: 14,
        side: Side::Called,
    };
    let report = report_of(&[BROKEN, DONE], &spool, verdict);
    let mut text = String::new(rt.alloc());
    add_report(rt.alloc(), &mut text, &report)?;
    assert_same(
        &rt,
        text.as_str(),
        "session 1
caller sent 2 taken 1 most 12 hungup
called sent 1 taken 1 most 0 talking
session 2
caller sent 4 taken 3 most 1 done
called sent 3 taken 4 most 1 done
caller pending 0 struck 1 failed 0
called pending 0 struck 0 failed 0
called stored long.name 0007 00ab
called stored y 7777 78
verdict fooled 14 called
",
    );
    Ok(())
}

#[test]
fn writes_no_report_without_memory(rt: HostRuntime) {
    let spool = MemorySpool::new(rt.alloc());
    let report = report_of(&[], &spool, LineVerdict::Clean);
    let heap = Refusing::new(rt.alloc(), 1);
    let mut text = String::new(&heap);
    assert_so(&rt, add_report(&heap, &mut text, &report).is_err());
}
