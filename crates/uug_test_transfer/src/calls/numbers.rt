//! Ends that keep a number of their conversations. These tests catch more than the clauses: a rule that the definitions
//! state wrongly, and a call that gives up without need.

use super::memory_jobs::MemoryJobs;
use super::memory_text::MemoryText;
use super::scenes::{AMPLE, BYTE_BY_BYTE, CLEAN, LIMITS, NEVER};
use super::scripted_line::ScriptedLine;
use super::{Manner, caller, line};
use crate::calls::assertions::{assert_same, assert_same_at};
use std::alloc::Global;
use std::process::Abort;
use uug_session::{MemorySpool, Side};
use uug_store::{BadNumber, JobsFile, number_at_start, number_line, read_number_text};
use uug_stream::{MemoryOutput, ToolFault};
use uug_transfer::{TransferEnd, call_over};

pub(super) type MemoryEnd = TransferEnd<MemorySpool<Global>, MemoryJobs, MemoryText, Global>;

/// The state after a call: the answer, the contents of both files and the output, and the number of the called end.
#[derive(Clone, Copy, Debug, PartialEq, Eq)]
pub(super) struct Left<'a> {
    pub(super) answer: Result<u8, ToolFault>,
    pub(super) jobs: &'a [u8],
    pub(super) number: &'a [u8],
    pub(super) report: &'a [u8],
    pub(super) other: Option<u32>,
}

/// The numbers that the caller and the called end keep; which file of the caller can't be written, that of its jobs or
/// that of its number; the contents of the file of its jobs when the session is over; and the state after the call.
pub(super) type Call<'a> = (Option<u32>, Option<u32>, (bool, bool), &'a [u8], Left<'a>);

const NONE_FAILS: (bool, bool) = (false, false);

pub(super) const DONE: &[u8] = b"caller done pending 0 struck 1 failed 0\n";

pub(super) const HUNG_UP: &[u8] = b"caller hungup pending 1 struck 0 failed 0\n";

const STRUCK: &[u8] = b"caller hungup pending 0 struck 1 failed 0\n";

const REFUSED: &[u8] = b"caller badsequence pending 1 struck 0 failed 0\n";

/// The job of the caller, as in its file.
pub(super) const JOB: &[u8] = b"send x y u\n";

/// A call of two ends that keep 7.
pub(super) const KEEPS_7: Call<'static> = (
    Some(7),
    Some(7),
    NONE_FAILS,
    JOB,
    Left {
        answer: Ok(0),
        jobs: b"",
        number: b"8\n",
        report: DONE,
        other: Some(8),
    },
);

const CALLS: &[Call<'static>] = &[
    KEEPS_7,
    (
        Some(4_294_967_295),
        None,
        NONE_FAILS,
        JOB,
        Left {
            answer: Ok(0),
            jobs: b"",
            number: b"0\n",
            report: DONE,
            other: None,
        },
    ),
    // no number is kept, and its file stays
    (
        None,
        None,
        NONE_FAILS,
        JOB,
        Left {
            answer: Ok(0),
            jobs: b"",
            number: b"",
            report: DONE,
            other: None,
        },
    ),
    // a stranger, who says another number or none
    (
        Some(7),
        Some(9),
        NONE_FAILS,
        JOB,
        Left {
            answer: Ok(1),
            jobs: JOB,
            number: b"7\n",
            report: REFUSED,
            other: Some(9),
        },
    ),
    (
        None,
        Some(9),
        NONE_FAILS,
        JOB,
        Left {
            answer: Ok(1),
            jobs: JOB,
            number: b"",
            report: REFUSED,
            other: Some(9),
        },
    ),
    // a job that can't be taken out of its file: the end hangs up, and the report is printed
    (
        Some(7),
        Some(7),
        (true, false),
        JOB,
        Left {
            answer: Err(ToolFault::Device),
            jobs: JOB,
            number: b"8\n",
            report: STRUCK,
            other: Some(8),
        },
    ),
    // a number that can't be written: nothing is said
    (
        Some(7),
        Some(9),
        (false, true),
        JOB,
        Left {
            answer: Err(ToolFault::Device),
            jobs: JOB,
            number: b"",
            report: HUNG_UP,
            other: Some(9),
        },
    ),
];

/// Calls whose file of jobs is changed meanwhile.
const CHANGED: &[Call<'static>] = &[
    // a job was appended
    (
        None,
        None,
        NONE_FAILS,
        b"send x y u\nsend x z u\n",
        Left {
            answer: Ok(0),
            jobs: b"send x z u\n",
            number: b"",
            report: DONE,
            other: None,
        },
    ),
    // the job is over, and its line is taken out wherever it stands
    (
        None,
        None,
        NONE_FAILS,
        b"# mine\nsend x y u\nsend x y u\n",
        Left {
            answer: Ok(0),
            jobs: b"# mine\nsend x y u\n",
            number: b"",
            report: DONE,
            other: None,
        },
    ),
    // no job is over: the file stays as it is, with its comment
    (
        Some(7),
        Some(9),
        NONE_FAILS,
        b"# mine\n send x y u",
        Left {
            answer: Ok(1),
            jobs: b"# mine\n send x y u",
            number: b"7\n",
            report: REFUSED,
            other: Some(9),
        },
    ),
    // the same with a file that can't be written, which is no fault
    (
        None,
        Some(9),
        (true, false),
        JOB,
        Left {
            answer: Ok(1),
            jobs: JOB,
            number: b"",
            report: REFUSED,
            other: Some(9),
        },
    ),
];

/// Texts of a file `number`, and the number in it.
const TEXTS: [(&[u8], Option<u32>); 11] = [
    (b"7\n", Some(7)),
    (b"7", Some(7)),
    (b"007\n", Some(7)),
    (b"4294967295\n", Some(4_294_967_295)),
    (b"4294967296\n", None),
    (b"", None),
    (b"\n", None),
    (b"7\n\n", None),
    (b"7\n8\n", None),
    (b" 7\n", None),
    (b"-7\n", None),
];

/// Returns the caller, which keeps this number. Its file of jobs has this text when the session is over.
pub(super) fn end(rt: &impl Abort, alloc: Global, call: &Call<'_>) -> MemoryEnd {
    let (number, _, (jobs_fail, number_fails), now, _) = call;
    TransferEnd {
        buffered: caller(rt, alloc, b"hi", *number),
        jobs: jobs_file(
            rt,
            alloc,
            MemoryJobs::new(now, if *jobs_fail { 0 } else { NEVER }),
        ),
        number: MemoryText::new(b"", *number_fails),
    }
}

/// Returns the file of jobs of the caller, which had its job when the session began.
pub(super) fn jobs_file(
    rt: &impl Abort,
    alloc: Global,
    file: MemoryJobs,
) -> JobsFile<MemoryJobs, Global> {
    JobsFile {
        file,
        before: JOB.to_vec(alloc).expect(rt, "memory for a job"),
    }
}

/// Asserts what both files of an end have.
fn assert_files(rt: &impl Abort, end: &MemoryEnd, left: &Left<'_>) {
    assert_same(rt, end.jobs.file.text(), left.jobs);
    assert_same(rt, end.number.text(), left.number);
}

/// Makes the call itself, at a line that is the end's own.
fn assert_call(
    rt: &impl Abort,
    alloc: Global,
    left: &Left<'_>,
    end: &mut MemoryEnd,
    line: &mut ScriptedLine,
) {
    let mut output = MemoryOutput::new(alloc);
    let answer = call_over(alloc, Side::Caller, end, line, AMPLE, LIMITS, &mut output);
    assert_same(rt, answer, left.answer);
    assert_same(rt, output.bytes(), left.report);
}

// Each end is made in a function of its own, and lent.
fn call_over_line(
    rt: &impl Abort,
    alloc: Global,
    call: &Call<'_>,
    manner: Manner,
    end: &mut MemoryEnd,
) {
    let (_, theirs, _, _, left) = call;
    let mut line = line(rt, alloc, *theirs, manner);
    assert_call(rt, alloc, left, end, &mut line);
    let other = line.other().node().number();
    drop(line);
    assert_same(rt, other, left.other);
}

fn make_call(rt: &impl Abort, alloc: Global, call: &Call<'_>, manner: Manner) {
    let (_, _, _, _, left) = call;
    let mut end = end(rt, alloc, call);
    call_over_line(rt, alloc, call, manner, &mut end);
    assert_files(rt, &end, left);
    drop(end);
}

#[test]
fn calls_keep_their_number(rt: HostRuntime) {
    for call in CALLS {
        make_call(&rt, rt.alloc(), call, CLEAN);
    }
}

// bytes that are lost, or written twice, where a write takes a part of what it was given; a read that has to bring all
#[test]
fn calls_go_byte_by_byte_as_whole(rt: HostRuntime) {
    for call in CALLS {
        make_call(&rt, rt.alloc(), call, BYTE_BY_BYTE);
    }
}

// what was appended is dropped; a job is done and stays; a file is written though no job is over
#[test]
fn calls_keep_what_came_into_the_jobs_meanwhile(rt: HostRuntime) {
    for call in CHANGED {
        make_call(&rt, rt.alloc(), call, CLEAN);
    }
}

#[test]
fn reads_the_number_of_a_file(rt: HostRuntime) {
    for (place, (text, number)) in TEXTS.into_iter().enumerate() {
        assert_same_at(&rt, read_number_text(text), number, place);
        let at_start = number_at_start(Some(text), true);
        assert_same(&rt, at_start, number.map(Some).ok_or(BadNumber));
    }
    assert_same(&rt, number_line(70).as_slice(), b"70\n".as_slice());
    assert_same(&rt, number_at_start(None, true), Ok(Some(0)));
    assert_same(&rt, number_at_start(None, false), Ok(None));
}
