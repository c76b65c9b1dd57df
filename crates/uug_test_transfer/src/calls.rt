//! An end that calls, at lines that do what a table says. The clauses say that its jobs stay together, that its session
//! is over, and when a fault is returned. These tests check how the session ends and what is done then, and that calls
//! succeed while there is memory. A comment above each table says what its rows are.

mod assertions;
mod faults;
mod folders;
mod follow;
mod keeping;
mod memory_folder;
mod memory_jobs;
mod memory_text;
mod notes;
mod numbers;
mod resumed;
mod scenes;
mod scripted_line;
mod slow;
mod slow_line;
mod stops;
mod telling;
mod telling_host;
mod telling_line;
mod thinning;

use assertions::assert_same;
use memory_jobs::MemoryJobs;
use memory_text::MemoryText;
use numbers::{JOB, jobs_file};
use scenes::{LIMITS, NEVER};
use scripted_line::ScriptedLine;
use std::alloc::Global;
use std::process::Abort;
use uug_link::Announce;
use uug_session::{Job, MemorySpool, Node, Phase, Place, Queue};
use uug_talk::Name;
use uug_transfer::{BufferedNode, FaultInjector, SessionFault, run_at_line};

type MemoryNode = Node<MemorySpool<Global>, Global>;

type MemoryEndAtLine = BufferedNode<MemorySpool<Global>, Global>;

/// The other end of the line.
#[derive(Clone, Copy, PartialEq, Eq)]
enum Other {
    /// The end that is called.
    Speaks,
    /// Nobody.
    IsMute,
    /// A writer without end, which is no end of a session.
    Babbles,
}

/// The behaviour of a line.
#[derive(Clone, Copy)]
struct Manner {
    other: Other,
    /// The maximum number of bytes that come at once.
    at_once: usize,
    /// The maximum number of bytes that a write takes; 0 counts as 1.
    takes: usize,
    /// The number of bytes after which the line ends.
    ends_behind: usize,
    /// The number of the first call that fails, counted from 0. Each call after it fails too.
    fails_at: usize,
}

fn name(rt: &impl Abort, text: &[u8]) -> Name {
    Name::new(text).expect(rt, "a name")
}

/// Returns the place of an end of window 7 and size 32 that keeps this number, or none.
fn place(rt: &impl Abort, me: &[u8], peer: &[u8], number: Option<u32>) -> Place {
    Place {
        me: name(rt, me),
        peer: name(rt, peer),
        announce: Announce::new(7, 32).expect(rt, "a window and a size"),
        number,
    }
}

/// Returns the jobs of an end that sends `x` as `y`.
fn queue(rt: &impl Abort, alloc: Global) -> Queue<Global> {
    let job = Job::Send {
        source: name(rt, b"x"),
        target: name(rt, b"y"),
        user: name(rt, b"u"),
        temp: None,
    };
    let mut queue = Queue::new(alloc);
    queue.add(job).expect(rt, "room for a job");
    queue
}

fn spool(rt: &impl Abort, alloc: Global, bytes: &[u8]) -> MemorySpool<Global> {
    let mut spool = MemorySpool::new(alloc);
    let added = spool.add_file(name(rt, b"x"), 0o644, bytes);
    added.expect(rt, "memory for a file");
    spool
}

fn buffered(rt: &impl Abort, alloc: Global, node: MemoryNode) -> MemoryEndAtLine {
    let buffered = BufferedNode::new(alloc, node, FaultInjector::none());
    buffered.expect(rt, "memory for a buffer")
}

fn caller(rt: &impl Abort, alloc: Global, bytes: &[u8], number: Option<u32>) -> MemoryEndAtLine {
    let place = place(rt, b"a", b"b", number);
    let spool = spool(rt, alloc, bytes);
    let made = Node::caller(alloc, place, queue(rt, alloc), spool);
    buffered(rt, alloc, made.expect(rt, "an end"))
}

fn called(rt: &impl Abort, alloc: Global, number: Option<u32>) -> MemoryEndAtLine {
    let place = place(rt, b"b", b"a", number);
    let made = Node::called(alloc, place, Queue::new(alloc), MemorySpool::new(alloc));
    buffered(rt, alloc, made.expect(rt, "an end"))
}

/// Returns a line of this manner to a called end that keeps this number, or none.
fn line(rt: &impl Abort, alloc: Global, number: Option<u32>, manner: Manner) -> ScriptedLine {
    ScriptedLine::new(called(rt, alloc, number), manner)
}

/// The state after a session: how it ended, how many jobs are pending and done, and how many files are kept at the
/// other end.
#[derive(Clone, Copy, Debug, PartialEq, Eq)]
struct Left {
    answer: Result<(), SessionFault>,
    phase: Phase,
    pending: usize,
    struck: usize,
    kept: usize,
}

// Each end is made in a function of its own, and lent.
fn play_at(
    rt: &impl Abort,
    alloc: Global,
    buffered: &mut MemoryEndAtLine,
    bytes: &[u8],
    (manner, most): (Manner, u64),
) -> Left {
    let mut line = line(rt, alloc, None, manner);
    let mut jobs = jobs_file(rt, alloc, MemoryJobs::new(JOB, NEVER));
    let mut number = MemoryText::new(b"", false);
    let answer = run_at_line(
        alloc,
        buffered,
        &mut jobs,
        &mut number,
        &mut line,
        most,
        LIMITS,
    );
    drop(jobs);
    let left = what_is_left(answer, buffered, line.other());
    assert_kept(rt, line.other(), bytes);
    drop(line);
    left
}

/// Asserts that the files that the end has kept are the one that it was sent.
fn assert_kept(rt: &impl Abort, other: &MemoryEndAtLine, bytes: &[u8]) {
    for file in other.node().spool().stored() {
        assert_same(rt, (file.name, file.mode), (name(rt, b"y"), 0o644));
        assert_same(rt, file.bytes.as_slice(), bytes);
    }
}

/// Plays a session of a caller that sends `x`, which has these bytes, and reads at most `most` bytes.
fn play(rt: &impl Abort, alloc: Global, bytes: &[u8], manner: Manner, most: u64) -> Left {
    let mut buffered = caller(rt, alloc, bytes, None);
    let left = play_at(rt, alloc, &mut buffered, bytes, (manner, most));
    drop(buffered);
    left
}

fn what_is_left(
    answer: Result<(), SessionFault>,
    buffered: &MemoryEndAtLine,
    other: &MemoryEndAtLine,
) -> Left {
    let queue = buffered.node().queue();
    Left {
        answer,
        phase: buffered.node().phase(),
        pending: queue.pending().len(),
        struck: queue.struck().len(),
        kept: other.node().spool().stored().len(),
    }
}
