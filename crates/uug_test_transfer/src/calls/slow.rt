//! Sessions of a caller with one job at lines that are slow, or at which somebody sends a byte now and then.

use super::memory_jobs::MemoryJobs;
use super::memory_text::MemoryText;
use super::numbers::{JOB, jobs_file};
use super::scenes::{
    AMPLE, BYTE_BY_BYTE, CLEAN, DONE, GAVE_UP, HUNG_UP, LIMITS, LONG, MUTE, NEVER,
};
use super::slow_line::{Pace, SlowLine};
use super::{Left, Manner, MemoryEndAtLine, assert_kept, caller, line, what_is_left};
use crate::calls::assertions::{assert_same, assert_same_at, assert_so};
use std::alloc::Global;
use std::process::Abort;
use uug_transfer::{
    EndLine, PatienceLimits, ReadOutcome, SessionLine, SessionObserver, SessionStatus, run_at_line,
};

const QUICK: Pace = Pace {
    stalls: 0,
    stall: 10,
    seconds: 0,
    drips_behind: NEVER,
};

/// Limits of a minute without progress.
const A_MINUTE: PatienceLimits = PatienceLimits {
    greeting: 60,
    session: 60,
};

/// The manner of the line, its pace, how long bytes may come without progress, the state after the session, and the
/// second in which it ends.
type Scene = (Manner, Pace, PatienceLimits, Left, u64);

/// The scenes. The greeting of the called end is 18 bytes, its start-up three packets of 6.
const SCENES: &[Scene] = &[
    (CLEAN, QUICK, LIMITS, DONE, 0),
    // each byte that is taken begins the count anew: seven silences before each of them are no fault
    (
        BYTE_BY_BYTE,
        Pace {
            stalls: 7,
            stall: 0,
            ..QUICK
        },
        LIMITS,
        DONE,
        0,
    ),
    // the eighth is the last
    (CLEAN, Pace { stalls: 8, ..QUICK }, LIMITS, HUNG_UP, 80),
    (
        CLEAN,
        Pace {
            stalls: NEVER,
            ..QUICK
        },
        LIMITS,
        HUNG_UP,
        80,
    ),
    // eight silences, whatever the limits of bytes are
    (MUTE, QUICK, A_MINUTE, GAVE_UP, 80),
    // seven bytes in the greeting
    (
        CLEAN,
        Pace {
            drips_behind: 0,
            ..QUICK
        },
        LIMITS,
        HUNG_UP,
        63,
    ),
    // the greeting is one step, whatever comes of it
    (
        CLEAN,
        Pace {
            drips_behind: 9,
            seconds: 10,
            ..QUICK
        },
        LIMITS,
        HUNG_UP,
        64,
    ),
    // twenty-three bytes after the start-up
    (
        CLEAN,
        Pace {
            drips_behind: 36,
            ..QUICK
        },
        LIMITS,
        HUNG_UP,
        207,
    ),
];

/// Runs the session itself, at a line that is the end's own.
fn talk(
    rt: &impl Abort,
    alloc: Global,
    buffered: &mut MemoryEndAtLine,
    line: &mut SlowLine,
    limits: PatienceLimits,
) -> Left {
    let mut jobs = jobs_file(rt, alloc, MemoryJobs::new(JOB, NEVER));
    let mut number = MemoryText::new(b"", false);
    let answer = run_at_line(alloc, buffered, &mut jobs, &mut number, line, AMPLE, limits);
    drop(jobs);
    assert_so(rt, !line.has_failed());
    assert_kept(rt, line.other(), LONG);
    what_is_left(answer, buffered, line.other())
}

// Each end is made in a function of its own, and lent.
fn talk_at(
    rt: &impl Abort,
    alloc: Global,
    buffered: &mut MemoryEndAtLine,
    scene: &Scene,
) -> (Left, u64) {
    let (manner, pace, limits, _, _) = scene;
    let mut line = SlowLine::new(line(rt, alloc, None, *manner), *pace);
    let left = talk(rt, alloc, buffered, &mut line, *limits);
    let second = line.seconds();
    drop(line);
    (left, second)
}

fn play_slowly(rt: &impl Abort, alloc: Global, scene: &Scene) -> (Left, u64) {
    let mut buffered = caller(rt, alloc, LONG, None);
    let left = talk_at(rt, alloc, &mut buffered, scene);
    drop(buffered);
    left
}

// a silence at a write taken for a fault; one that is waited for without end; bytes that begin the limit anew
#[test]
fn slow_sessions_end_as_they_should(rt: HostRuntime) {
    for (place, scene) in SCENES.iter().enumerate() {
        let (left, second) = play_slowly(&rt, rt.alloc(), scene);
        assert_same_at(&rt, left, scene.3, place);
        if scene.4 > 0 {
            assert_same_at(&rt, second, scene.4, place);
        }
    }
}

/// Checks a session of more than a minute that makes progress with each read, which takes twenty seconds.
#[test]
fn progress_begins_the_limit_anew(rt: HostRuntime) {
    let pace = Pace {
        seconds: 20,
        ..QUICK
    };
    let scene = (CLEAN, pace, A_MINUTE, DONE, 0);
    let (left, second) = play_slowly(&rt, rt.alloc(), &scene);
    assert_same(&rt, left, DONE);
    assert_same(&rt, second > 120, true);
}

/// An observer that does nothing.
#[derive(Clone, Copy)]
struct Nobody;

impl SessionObserver for Nobody {
    fn wrote(&mut self, _piece: &[u8]) {}

    fn read(&mut self, _outcome: ReadOutcome, _piece: &[u8]) {}

    fn note(&mut self, _status: SessionStatus) {}
}

/// Checks how long a called end waits after its words are written, if nothing that comes is a text.
#[test]
fn a_greeting_has_its_seconds(rt: HostRuntime) {
    let pace = Pace {
        drips_behind: 0,
        ..QUICK
    };
    let line = SlowLine::new(line(&rt, rt.alloc(), None, CLEAN), pace);
    let mut greeted = SessionLine::new(rt.alloc(), line, Nobody);
    assert_same(&rt, greeted.meet(b"\x10Shere=b\0", 60).is_ok(), true);
    assert_same(&rt, greeted.seconds(), 63);
    drop(greeted);
}
