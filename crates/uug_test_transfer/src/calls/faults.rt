//! A call whose line fails at each of its reads and writes in turn: the contents of its files then, and the report.

use super::numbers::{DONE, HUNG_UP, JOB, KEEPS_7, Left, MemoryEnd, end};
use super::scenes::{AMPLE, LIMITS, NEVER};
use super::scripted_line::ScriptedLine;
use super::{Manner, Other, line};
use crate::calls::assertions::{assert_same, assert_so};
use std::alloc::Global;
use std::process::Abort;
use uug_session::Side;
use uug_stream::MemoryOutput;
use uug_transfer::call_over;

/// The stages that a call of two ends that keep 7 reaches, one after the other.
const STAGES: [Left<'static>; 5] = [
    // nothing was said of numbers
    Left {
        answer: Ok(1),
        jobs: JOB,
        number: b"7\n",
        report: HUNG_UP,
        other: Some(7),
    },
    // the called end has let the caller in, and the caller does not know it
    Left {
        answer: Ok(1),
        jobs: JOB,
        number: b"7\n",
        report: HUNG_UP,
        other: Some(8),
    },
    // the caller knows it
    Left {
        answer: Ok(1),
        jobs: JOB,
        number: b"8\n",
        report: HUNG_UP,
        other: Some(8),
    },
    // its file is at the other end
    Left {
        answer: Ok(1),
        jobs: b"",
        number: b"8\n",
        report: b"caller hungup pending 0 struck 1 failed 0\n",
        other: Some(8),
    },
    // it has taken HY, with which its session is done, whatever the line does after that
    Left {
        answer: Ok(0),
        jobs: b"",
        number: b"8\n",
        report: DONE,
        other: Some(8),
    },
];

/// Returns the stage at which this is left, if it is one.
fn stage_of(left: &Left<'_>) -> Option<usize> {
    for (number, stage) in STAGES.iter().enumerate() {
        if stage == left {
            return Some(number);
        }
    }
    None
}

/// Makes the call. Returns its stage, or `None` if the line has not failed.
fn call_at(
    rt: &impl Abort,
    alloc: Global,
    end: &mut MemoryEnd,
    line: &mut ScriptedLine,
) -> Option<usize> {
    let mut output = MemoryOutput::new(alloc);
    let side = Side::Caller;
    let answer = call_over(alloc, side, end, line, AMPLE, LIMITS, &mut output);
    let left = Left {
        answer,
        jobs: end.jobs.file.text(),
        number: end.number.text(),
        report: output.bytes(),
        other: line.other().node().number(),
    };
    let stage = stage_of(&left).expect(rt, "a stage");
    if line.has_failed() { Some(stage) } else { None }
}

/// Does the same at a line on which the call of this number fails, counted from 0.
fn call_failing(
    rt: &impl Abort,
    alloc: Global,
    end: &mut MemoryEnd,
    fails_at: usize,
) -> Option<usize> {
    let manner = Manner {
        other: Other::Speaks,
        at_once: NEVER,
        takes: NEVER,
        ends_behind: NEVER,
        fails_at,
    };
    let mut line = line(rt, alloc, Some(7), manner);
    let stage = call_at(rt, alloc, end, &mut line);
    drop(line);
    stage
}

fn fail(rt: &impl Abort, alloc: Global, fails_at: usize) -> Option<usize> {
    let mut end = end(rt, alloc, &KEEPS_7);
    let stage = call_failing(rt, alloc, &mut end, fails_at);
    drop(end);
    stage
}

/// Lets each read and each write fail in turn. Returns how many there are, and the last stage. Asserts that the call
/// reaches it one stage after the other, from the first on.
fn fail_each(rt: &impl Abort, alloc: Global) -> (usize, usize) {
    let mut last = 0;
    for fails_at in 0..1000 {
        let Some(stage) = fail(rt, alloc, fails_at) else {
            return (fails_at, last);
        };
        let next = if fails_at > 0 {
            last.saturating_add(1)
        } else {
            0
        };
        assert_so(rt, stage == last || stage == next);
        last = stage;
    }
    panic!(rt; "no end of the calls");
}

// a fault after which the files stay as they were, or nothing is printed, or something else than what was done before
// it
#[test]
fn leaves_what_was_done_before_the_line_failed(rt: HostRuntime) {
    let (calls, last) = fail_each(&rt, rt.alloc());
    assert_so(&rt, calls > 16);
    assert_same(&rt, last, 4);
}
