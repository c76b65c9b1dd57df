//! Sessions as tables, and the two players that follow them. One plays two ends that hand each other their bytes. The
//! other plays an end over whose line a script speaks. The clauses say that an end does what the definitions say.
//! These tests catch a call that reports lack of memory although none was refused, a refused call that can't be made
//! again, and a wrong rule in the definitions. The comment above each test says which.

mod answers;
mod faulty;
mod forged;
mod greetings;
mod hostile;
mod lengths;
mod lenient;
mod line;
mod numbers;
mod queues;
mod resumed;
mod script;
mod sessions;
mod wide_peers;

use crate::assertions::{assert_same, assert_so};
use std::alloc::{AllocError, Allocator};
use std::process::Abort;
use uug_link::Announce;
use uug_session::{End, Job, MemorySpool, Node, NotMade, Phase, Place, Queue, Spool, Stored};
use uug_talk::Name;

/// An end whose files are in memory.
type MemoryNode<A> = Node<MemorySpool<A>, A>;

/// The side of an end: `a`, which calls `b`, or `b`, which is called by it.
#[derive(Clone, Copy)]
enum Side {
    Caller,
    Called,
}

/// A job of the user `u`: the file's name where it is and its name where it goes.
#[derive(Clone, Copy)]
enum Task<'a> {
    Send(&'a [u8], &'a [u8]),
    Request(&'a [u8], &'a [u8]),
}

/// An item that an end has before its first session.
#[derive(Clone, Copy)]
enum Given<'a> {
    /// A file with this name, mode 0644 and these bytes.
    File(&'a [u8], &'a [u8]),
    Deny(&'a [u8]),
    Later(&'a [u8]),
    Immovable(&'a [u8]),
    Job(Task<'a>),
    /// The setting to refuse what it can't read, and to go on.
    Lenient,
    /// The setting to announce digests, and to compare those it receives.
    Digests,
    /// The setting to resume files that were cut off, and to announce digests.
    Resumes,
}

/// An item that an end has when all is over. Each kind is in order.
#[derive(Clone, Copy)]
enum Left<'a> {
    Pending(Task<'a>),
    Struck(Task<'a>),
    Failed(Task<'a>),
    /// A file that it stored under this name, with mode 0644 and these bytes.
    Stored(&'a [u8], &'a [u8]),
}

const NO_WORK: &[Given<'static>] = &[];

const NOTHING: &[Left<'static>] = &[];

/// Sends `x` as `y`.
const SEND: Task<'static> = Task::Send(b"x", b"y");

/// The items of an end that does so, with an empty file.
const SENDER: &[Given<'static>] = &[Given::File(b"x", b""), Given::Job(SEND)];

fn name(rt: &impl Abort, text: &[u8]) -> Name {
    Name::new(text).expect(rt, "a name")
}

fn job(rt: &impl Abort, task: Task<'_>) -> Job {
    let user = name(rt, b"u");
    match task {
        Task::Send(source, target) => Job::Send {
            source: name(rt, source),
            target: name(rt, target),
            user,
            temp: None,
        },
        Task::Request(source, target) => Job::Request {
            source: name(rt, source),
            target: name(rt, target),
            user,
        },
    }
}

/// Makes the configuration of an end with window 2.
fn place(rt: &impl Abort, side: Side, size: usize) -> Place {
    let (a, b) = (name(rt, b"a"), name(rt, b"b"));
    let (me, peer) = match side {
        Side::Caller => (a, b),
        Side::Called => (b, a),
    };
    Place {
        me,
        peer,
        announce: Announce::new(2, size).expect(rt, "a size"),
        number: None,
    }
}

fn give_to_spool<A: Allocator + Copy>(
    rt: &impl Abort,
    spool: &mut MemorySpool<A>,
    one: Given<'_>,
) -> Result<(), AllocError> {
    match one {
        Given::File(file, bytes) => spool.add_file(name(rt, file), 0o644, bytes),
        Given::Deny(file) => spool.deny(name(rt, file)),
        Given::Later(file) => spool.later(name(rt, file)),
        Given::Immovable(file) => spool.immovable(name(rt, file)),
        Given::Lenient => {
            spool.set_lenient(true);
            Ok(())
        }
        Given::Digests => {
            spool.set_digests(true);
            Ok(())
        }
        Given::Resumes => {
            spool.set_digests(true);
            spool.set_resumes(true);
            Ok(())
        }
        Given::Job(_) => Ok(()),
    }
}

fn stock<A: Allocator + Copy>(
    rt: &impl Abort,
    alloc: A,
    given: &[Given<'_>],
) -> (Queue<A>, MemorySpool<A>) {
    let mut queue = Queue::new(alloc);
    let mut spool = MemorySpool::new(alloc);
    for one in given {
        give_to_spool(rt, &mut spool, *one).expect(rt, "memory for a file");
        if let Given::Job(task) = one {
            queue.add(job(rt, *task)).expect(rt, "room for a job");
        }
    }
    (queue, spool)
}

fn make<S: Spool, A: Allocator + Copy>(
    alloc: A,
    side: Side,
    place: Place,
    queue: Queue<A>,
    spool: S,
) -> Result<Node<S, A>, NotMade<S, A>> {
    match side {
        Side::Caller => Node::caller(alloc, place, queue, spool),
        Side::Called => Node::called(alloc, place, queue, spool),
    }
}

fn end<A: Allocator + Copy>(
    rt: &impl Abort,
    alloc: A,
    side: Side,
    place: Place,
    given: &[Given<'_>],
) -> MemoryNode<A> {
    let (queue, spool) = stock(rt, alloc, given);
    make(alloc, side, place, queue, spool).expect(rt, "an end")
}

/// Asserts that the session has ended this way, and that exactly this is left.
fn assert_ended<S: Spool, A: Allocator + Copy>(
    rt: &impl Abort,
    node: &Node<S, A>,
    stored: &[Stored<A>],
    how: End,
    left: &[Left<'_>],
) {
    assert_same(rt, node.phase(), Phase::Ended(how));
    assert_lists(rt, node.queue(), stored, left);
}

/// Asserts that the lists hold exactly what is left.
fn assert_lists<A: Allocator>(
    rt: &impl Abort,
    queue: &Queue<A>,
    stored: &[Stored<A>],
    left: &[Left<'_>],
) {
    let mut pending = queue.pending().iter();
    let mut struck = queue.struck().iter();
    let mut failed = queue.failed().iter();
    let mut stored = stored.iter();
    for one in left {
        match one {
            Left::Pending(task) => assert_job(rt, pending.next(), *task),
            Left::Struck(task) => assert_job(rt, struck.next(), *task),
            Left::Failed(task) => assert_job(rt, failed.next(), *task),
            Left::Stored(target, bytes) => assert_file(rt, stored.next(), target, bytes),
        }
    }
    assert_so(rt, pending.next().is_none());
    assert_so(rt, struck.next().is_none());
    assert_so(rt, failed.next().is_none());
    assert_so(rt, stored.next().is_none());
}

fn assert_job(rt: &impl Abort, found: Option<&Job>, task: Task<'_>) {
    assert_same(rt, found, Some(&job(rt, task)));
}

fn assert_file<A: Allocator>(
    rt: &impl Abort,
    found: Option<&Stored<A>>,
    target: &[u8],
    bytes: &[u8],
) {
    let found = found.expect(rt, "a file");
    assert_same(rt, (found.name, found.mode), (name(rt, target), 0o644));
    assert_same(rt, found.bytes.as_slice(), bytes);
}
