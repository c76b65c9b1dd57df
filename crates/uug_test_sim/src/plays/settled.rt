//! Runs that come to their end on a line that has become clean. What this catches beyond the clauses: a wrong definition of a
//! round, and a `settle` that always returns out of memory.

use crate::assertions::{assert_same, assert_same_at, assert_so_at};
use std::alloc::{Allocator, Global};
use std::process::Abort;
use std::test::Fail;
use uug_line::{EndReport, Report, RunFault, Side, run, settle};
use uug_session::{End, Phase};
use uug_sim_play::{Unsettled, play_settled, why_unsettled};
use uug_sim_script::read_script;
use uug_stream::{MemoryInput, MemoryOutput, ToolFault};
use uug_test_alloc::Refusing;

/// The caller offers a file, and the packet that does is lost.
const LOST: &str =
    "caller a 2 32\ncalled b 2 32\nfile caller x 0644 -\nsend caller x y u\nflow 5\ndrop called 1000\n";

/// The caller waits too long, and what it repeats is lost: six times.
const LOST_SEVEN_TIMES: &str =
    "caller a 2 32\ncalled b 2 32\nfile caller x 0644 -\nsend caller x y u\nflow 5\ndrop called 1000\n\
    timeout caller\ndrop called 1000\ntimeout caller\ndrop called 1000\ntimeout caller\ndrop called 1000\n\
    timeout caller\ndrop called 1000\ntimeout caller\ndrop called 1000\ntimeout caller\ndrop called 1000\n";

/// Scripts, and why their runs may not settle, if so.
const SCRIPTS: &[(&str, Option<Unsettled>)] = &[
    (LOST, None),
    (LOST_SEVEN_TIMES, None),
    // seven times
    (
        "caller a 2 32\ncalled b 2 32\nfile caller x 0644 -\nsend caller x y u\nflow 5\ndrop called 1000\n\
         timeout caller\ndrop called 1000\ntimeout caller\ndrop called 1000\ntimeout caller\ndrop called 1000\n\
         timeout caller\ndrop called 1000\ntimeout caller\ndrop called 1000\ntimeout caller\ndrop called 1000\n\
         timeout caller\ndrop called 1000\n",
        Some(Unsettled::Late(Side::Caller)),
    ),
    // an end is quiet on repeats
    (
        "caller a 2 32\ncalled b 2 32\nquiet called\nfile caller x 0644 -\nsend caller x y u\nflow 5\ndrop called 1000\n",
        Some(Unsettled::Quiet(Side::Called)),
    ),
    // both sessions are over
    (
        "caller a 2 32\ncalled b 2 32\nfile caller x 0644 -\nsend caller x y u\nflow 20\n",
        Some(Unsettled::Silent(Side::Caller)),
    ),
    // the packet is on the line
    (
        "caller a 2 32\ncalled b 2 32\nfile caller x 0644 -\nsend caller x y u\nflow 5\n",
        Some(Unsettled::OnLine),
    ),
    // a front of it came, which the called end holds
    (
        "caller a 2 32\ncalled b 2 32\nfile caller x 0644 -\nsend caller x y u\nflow 5\npass called 10\ndrop called 1000\n",
        Some(Unsettled::Holds(Side::Called)),
    ),
    // the line fooled an end
    (
        "caller a 2 32\ncalled b 2 32\nfile caller x 0644 100985aa2503\nsend caller x y u\n\
         flow 5\npass called 1000\npass caller 1000\npass called 6\ndrop called 6\npass called 1000\n",
        Some(Unsettled::Fooled),
    ),
    // the two ends greet each other
    (
        "caller a 2 32\ncalled b 2 32\n",
        Some(Unsettled::Silent(Side::Caller)),
    ),
];

/// Returns the report of the script.
fn report_of<A: Allocator + Copy>(alloc: A, text: &str) -> Result<Report<A>, Fail> {
    let script = read_script(alloc, text.as_bytes())?;
    Ok(run(alloc, script.setup, script.events.as_slice())?)
}

/// Returns why the run of the script may not settle, and whether it may.
fn why_of(alloc: Global, text: &str) -> Result<(Option<Unsettled>, bool), Fail> {
    let report = report_of(alloc, text)?;
    let seen = (why_unsettled(&report), report.can_settle());
    drop(report);
    Ok(seen)
}

#[test]
fn settles_only_where_nothing_waits(rt: HostRuntime) -> Result<(), Fail> {
    for (text, why) in SCRIPTS {
        let seen = why_of(rt.alloc(), text)?;
        assert_same_at(&rt, seen, (*why, why.is_none()), *text);
    }
    Ok(())
}

/// The report of what was lost, and that of what it settles to, which is the one of a line that loses nothing.
const LOST_AND_SETTLED: &str =
    "session 1\ncaller sent 1 taken 0 most 1 talking\ncalled sent 0 taken 0 most 0 talking\n\
    caller pending 1 struck 0 failed 0\ncalled pending 0 struck 0 failed 0\nverdict clean\n\
    session 1\ncaller sent 4 taken 3 most 1 done\ncalled sent 3 taken 4 most 1 done\n\
    caller pending 0 struck 1 failed 0\ncalled pending 0 struck 0 failed 0\n\
    called stored y 0644 -\nverdict clean\n";

/// Scripts, the status, and what is written.
const PLAYED: [(&str, u8, &str); 3] = [
    (LOST, 0, LOST_AND_SETTLED),
    (LOST_SEVEN_TIMES, 0, LOST_AND_SETTLED),
    (
        "caller a 2 32\ncalled b 2 32\n",
        1,
        "session 1\ncaller sent 0 taken 0 most 0 hail\ncalled sent 0 taken 0 most 0 hail\n\
         caller pending 0 struck 0 failed 0\ncalled pending 0 struck 0 failed 0\nverdict clean\n\
         not settled: caller is not talking\n",
    ),
];

/// Plays the script, and goes on.
fn play_on(alloc: Global, text: &str, output: &mut MemoryOutput<Global>) -> Result<u8, ToolFault> {
    play_settled(alloc, &mut MemoryInput::new(text.as_bytes()), output)
}

#[test]
fn writes_what_it_settles_to(rt: HostRuntime) {
    for (text, status, printed) in PLAYED {
        let mut output = MemoryOutput::new(rt.alloc());
        let result = play_on(rt.alloc(), text, &mut output);
        assert_same(&rt, result, Ok(status));
        assert_same(&rt, output.bytes(), printed.as_bytes());
    }
}

/// Returns how many messages an end sent and took, the most that were unacknowledged, and its phase.
fn numbers(end: &EndReport<Global>) -> (usize, usize, usize, Phase) {
    (end.sent.len(), end.taken.len(), end.most, end.phase)
}

/// The report of the script, settled.
fn settled_from(alloc: Global, text: &str) -> Result<Report<Global>, Fail> {
    let report = report_of(alloc, text)?;
    if !report.can_settle() {
        drop(report);
        return Err("it may not settle".into());
    }
    Ok(settle(alloc, report)?)
}

/// Returns whether the script settles to what it does on a line that never lost anything.
fn settles(alloc: Global, text: &str) -> Result<bool, Fail> {
    let report = settled_from(alloc, text)?;
    let has_sent = has_sent(&report);
    drop(report);
    Ok(has_sent)
}

/// Returns whether the caller's file was sent and stored in the one session, as on a line that never lost anything.
fn has_sent(report: &Report<Global>) -> bool {
    let done = Phase::Ended(End::Done);
    let [session] = report.sessions() else {
        return false;
    };
    let queue = report.caller().queue();
    numbers(&session.caller) == (4, 3, 1, done)
        && numbers(&session.called) == (3, 4, 1, done)
        && (
            queue.pending().len(),
            queue.struck().len(),
            queue.failed().len(),
        ) == (0, 1, 0)
        && report.called().spool().stored().len() == 1
}

#[test]
fn settles_what_was_lost(rt: HostRuntime) -> Result<(), Fail> {
    for text in [LOST, LOST_SEVEN_TIMES] {
        assert_so_at(&rt, settles(rt.alloc(), text)?, text);
    }
    Ok(())
}

/// Settles the run with the nth request for memory refused. Why it gave up, if it did.
fn refuse(heap: &Refusing<Global>, nth: u64) -> Result<Option<RunFault>, Fail> {
    heap.refuse(0);
    let report = report_of(heap, LOST)?;
    if !report.can_settle() {
        drop(report);
        return Err("it may not settle".into());
    }
    heap.refuse(nth);
    Ok(settle(heap, report).err())
}

/// Refuses each request of it in turn. How many it makes.
fn requests_to_settle(rt: &impl Abort, alloc: Global) -> Result<u64, Fail> {
    let heap = Refusing::new(alloc, 0);
    for nth in 1..10_000 {
        let fault = refuse(&heap, nth)?;
        if !heap.was_refused() {
            assert_same(rt, fault, None);
            return Ok(nth - 1);
        }
        assert_same_at(rt, fault, Some(RunFault::Memory), nth);
    }
    Err("it never settles".into())
}

#[test]
fn gives_up_settling_when_out_of_memory(rt: HostRuntime) -> Result<(), Fail> {
    let requests = requests_to_settle(&rt, rt.alloc())?;
    assert_so_at(
        &rt,
        requests >= 10,
        "seven messages and their acknowledgements",
    );
    Ok(())
}
