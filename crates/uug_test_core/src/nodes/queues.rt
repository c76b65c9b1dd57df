//! A caller with 500 jobs, in two sessions, with ample memory.

use super::line::{Event, Hand, Line};
use super::{Given, MemoryNode, NO_WORK, Side, end, make, name, place, stock};
use crate::assertions::assert_same;
use std::alloc::Global;
use std::process::Abort;
use uug_session::{End, Job, Phase, Queue};
use uug_talk::Name;

const JOBS: u16 = 500;

/// The first session, if it comes to its end. `BROKEN_OFF` breaks it off at its tenth round.
const WHOLE: &[Event] = &[Event::Flow(255); 6];

const BROKEN_OFF: &[Event] = &[Event::Flow(10)];

/// The called end's items, the events before the second session, and the numbers of jobs then pending and struck. The
/// second session comes to its end.
const QUEUES: &[(&[Given<'static>], &[Event], u16, u16)] = &[
    (NO_WORK, BROKEN_OFF, 0, JOBS),
    (NO_WORK, WHOLE, 0, JOBS),
    (&[Given::Later(b"y")], BROKEN_OFF, JOBS, 0),
    (&[Given::Later(b"y")], WHOLE, JOBS, 0),
];

/// Makes the user of a job: its number, in three digits.
fn user(rt: &impl Abort, number: u16) -> Name {
    let digit = |power: u16| b'0' + (number / power % 10) as u8;
    name(rt, &[digit(100), digit(10), digit(1)])
}

fn job(rt: &impl Abort, number: u16) -> Job {
    Job::Send {
        source: name(rt, b"x"),
        target: name(rt, b"y"),
        user: user(rt, number),
        temp: None,
    }
}

fn fill(rt: &impl Abort, queue: &mut Queue<Global>) {
    for number in 0..JOBS {
        queue.add(job(rt, number)).expect(rt, "room for a job");
    }
}

fn caller(rt: &impl Abort, alloc: Global) -> MemoryNode<Global> {
    let (mut queue, spool) = stock(rt, alloc, &[Given::File(b"x", b"abc")]);
    fill(rt, &mut queue);
    let place = place(rt, Side::Caller, 32);
    make(alloc, Side::Caller, place, queue, spool).expect(rt, "an end")
}

fn called(rt: &impl Abort, alloc: Global, given: &[Given<'_>]) -> MemoryNode<Global> {
    end(rt, alloc, Side::Called, place(rt, Side::Called, 32), given)
}

/// Asserts that there are this many jobs, in the order in which they were given.
fn assert_jobs(rt: &impl Abort, jobs: &[Job], count: u16) {
    assert_same(rt, jobs.len(), count as usize);
    for (number, seen) in (0..count).zip(jobs) {
        assert_same(rt, seen, &job(rt, number));
    }
}

fn assert_queue(rt: &impl Abort, queue: &Queue<Global>, pending: u16, struck: u16) {
    assert_jobs(rt, queue.pending(), pending);
    assert_jobs(rt, queue.struck(), struck);
    assert_jobs(rt, queue.failed(), 0);
}

/// Plays both sessions.
fn play(
    rt: &impl Abort,
    line: &mut Line,
    first: &[Event],
    caller: &mut MemoryNode<Global>,
    called: &mut MemoryNode<Global>,
) {
    line.play(rt, first, caller, called);
    line.play(rt, &[Event::Call], caller, called);
    assert_same(rt, caller.phase(), Phase::Hail);
    line.play(rt, WHOLE, caller, called);
    assert_same(rt, caller.phase(), Phase::Ended(End::Done));
    assert_same(rt, called.phase(), Phase::Ended(End::Done));
}

// a queue, or a session's start, that says that it is out of memory with many jobs; one that loses the order of those
// that were skipped
#[test]
fn works_off_500_jobs(rt: HostRuntime) {
    for (has, first, pending, struck) in QUEUES {
        let mut caller = caller(&rt, rt.alloc());
        let mut called = called(&rt, rt.alloc(), has);
        let mut line = Line::new(rt.alloc(), Hand::Whole);
        play(&rt, &mut line, first, &mut caller, &mut called);
        assert_queue(&rt, caller.queue(), *pending, *struck);
        assert_same(&rt, called.spool().stored().len(), *struck as usize);
        drop(called);
        drop(caller);
    }
}
