//! A call that is stopped at each operation of its line and of its files in turn. Then it is made again over a good
//! line. No job is gone without its file or a notice of it, and none that was removed is sent again.

use super::memory_jobs::MemoryJobs;
use super::memory_text::MemoryText;
use super::scenes::{AMPLE, LIMITS, NEVER};
use super::scripted_line::ScriptedLine;
use super::{Manner, MemoryEndAtLine, Other, buffered, line, place, spool};
use crate::calls::assertions::{assert_same, assert_so};
use std::alloc::Global;
use std::process::Abort;
use uug_session::{Node, Queue};
use uug_store::{JobsFile, read_jobs};
use uug_transfer::run_at_line;

/// The first operation of each that fails, counted from 0. All after it fail too.
#[derive(Clone, Copy)]
struct Stop {
    line: usize,
    jobs: usize,
}

/// Jobs of which the first has no file.
const JOBS: &[u8] = b"# mine\nsend z y u\nsend x y u\n";

/// The notice of the job without a file.
const TOLD: &[u8] = b"# no such file to send, or it is too large\nsend z y u\n";

/// The notices if the end was stopped between the notice and the removal of the job.
const TOLD_AGAIN: &[u8] = b"# no such file to send, or it is too large\nsend z y u\n\
# no such file to send, or it is too large\nsend z y u\n";

/// The file of jobs when all are over.
const LEFT: &[u8] = b"# mine\n";

type MemoryStore = JobsFile<MemoryJobs, Global>;

/// The result of a session: how many files the other end has kept, and whether an operation has failed.
#[derive(Clone, Copy)]
struct Came {
    kept: usize,
    failed: bool,
}

fn caller_of(rt: &impl Abort, alloc: Global, jobs: Queue<Global>) -> MemoryEndAtLine {
    let made = Node::caller(
        alloc,
        place(rt, b"a", b"b", None),
        jobs,
        spool(rt, alloc, b"hi"),
    );
    buffered(rt, alloc, made.expect(rt, "an end"))
}

/// Runs the session itself, at a line that is the end's own.
fn talk(
    rt: &impl Abort,
    alloc: Global,
    end: &mut MemoryEndAtLine,
    jobs: &mut MemoryStore,
    line: &mut ScriptedLine,
) -> Came {
    let mut number = MemoryText::new(b"", false);
    let answer = run_at_line(alloc, end, jobs, &mut number, line, AMPLE, LIMITS);
    let broken = jobs.file.has_failed();
    assert_same(rt, answer.is_err(), broken);
    Came {
        kept: line.other().node().spool().stored().len(),
        failed: broken || line.has_failed(),
    }
}

// Each end is made in a function of its own, and lent.
fn talk_at(
    rt: &impl Abort,
    alloc: Global,
    end: &mut MemoryEndAtLine,
    jobs: &mut MemoryStore,
    fails_at: usize,
) -> Came {
    let manner = Manner {
        other: Other::Speaks,
        at_once: NEVER,
        takes: NEVER,
        ends_behind: NEVER,
        fails_at,
    };
    let mut line = line(rt, alloc, None, manner);
    let came = talk(rt, alloc, end, jobs, &mut line);
    drop(line);
    came
}

/// Runs a session with the jobs that wait then, at a line that fails from this operation on.
fn session(rt: &impl Abort, alloc: Global, jobs: &mut MemoryStore, fails_at: usize) -> Came {
    let queue = read_jobs(alloc, jobs.file.text()).expect(rt, "jobs");
    let mut end = caller_of(rt, alloc, queue);
    let came = talk_at(rt, alloc, &mut end, jobs, fails_at);
    drop(end);
    came
}

/// Runs a session that is stopped, and one that goes on. Returns whether the first one was stopped at all.
fn go_on(rt: &impl Abort, alloc: Global, jobs: &mut MemoryStore, stop: Stop) -> bool {
    let first = session(rt, alloc, jobs, stop.line);
    let gone = !jobs.file.text().ends_with(b"send x y u\n");
    assert_so(rt, !gone || first.kept == 1);
    jobs.file.mend();
    let second = session(rt, alloc, jobs, NEVER);
    assert_same(rt, second.kept, if gone { 0 } else { 1 });
    assert_same(rt, jobs.file.text(), LEFT);
    let told = jobs.file.told();
    assert_so(rt, told == TOLD || first.failed && told == TOLD_AGAIN);
    first.failed
}

fn call_twice(rt: &impl Abort, alloc: Global, stop: Stop) -> bool {
    let mut jobs = JobsFile {
        file: MemoryJobs::new(JOBS, stop.jobs),
        before: Vec::new(alloc),
    };
    let stopped = go_on(rt, alloc, &mut jobs, stop);
    drop(jobs);
    stopped
}

/// Stops at each operation of the line in turn. Returns how many there are.
fn stop_at_line(rt: &impl Abort, alloc: Global) -> usize {
    for line in 0..1000 {
        let jobs = NEVER;
        if !call_twice(rt, alloc, Stop { line, jobs }) {
            return line;
        }
    }
    panic!(rt; "no end of the operations");
}

/// Stops at each operation that changes the files of jobs in turn. Returns how many there are.
fn stop_at_jobs(rt: &impl Abort, alloc: Global) -> usize {
    for jobs in 0..1000 {
        let line = NEVER;
        if !call_twice(rt, alloc, Stop { line, jobs }) {
            return jobs;
        }
    }
    panic!(rt; "no end of the operations");
}

// a job that leaves before its notice; one that is sent again after it was removed; one that is gone without its file
#[test]
fn loses_nothing_wherever_it_is_stopped(rt: HostRuntime) {
    let calls = stop_at_line(&rt, rt.alloc());
    assert_so(&rt, calls > 16);
    // one job gets a notice and is removed, the other is removed
    assert_same(&rt, stop_at_jobs(&rt, rt.alloc()), 3);
}
