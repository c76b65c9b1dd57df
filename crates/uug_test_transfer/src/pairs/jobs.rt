//! Jobs as a text, and the report of an end. These tests catch more than the clauses: a rule that is wrong in the
//! definition, a call that reports that memory ran out when none was refused, and one that can't be made again.

use crate::pairs::assertions::{assert_same, assert_same_at, assert_so, assert_so_at};
use std::alloc::Global;
use std::process::Abort;
use uug_session::{Job, Phase, Queue, Side};
use uug_store::{JobsFault, add_failed, add_state, read_jobs, write_jobs};
use uug_talk::Name;
use uug_test_alloc::Refusing;

const TWO_JOBS: &[u8] = b"send x y u\nrequest q y u\n";

/// Texts, and the text of the jobs that are read, or the bad line.
const TEXTS: [(&str, Result<&str, usize>); 15] = [
    ("", Ok("")),
    ("send x y u", Ok("send x y u\n")),
    (
        "send x y u\nrequest q y u\n",
        Ok("send x y u\nrequest q y u\n"),
    ),
    ("  send   x y  u  \n", Ok("send x y u\n")),
    (
        "\n   \n# a comment\n  # another, send\nsend x y u\n",
        Ok("send x y u\n"),
    ),
    ("send x y\n", Err(1)),
    ("send x y u D.0\n", Err(1)),
    ("request q y u D.0\n", Err(1)),
    ("SEND x y u\n", Err(1)),
    ("sending x y u\n", Err(1)),
    ("fetch x y u\n", Err(1)),
    ("send\tx y u z\n", Err(1)),
    ("send x\ty u\n", Err(1)),
    ("send x y u\r\n", Err(1)),
    ("send x y u\n\nfetch x y u\nalso bad", Err(3)),
];

/// The beginning of a text, the part that is repeated in it and how many times, and its end; and how many jobs are
/// read, or the bad line.
const LONG_TEXTS: [(&str, &str, usize, &str, Result<usize, usize>); 8] = [
    ("", "send x y u\n", 1024, "# c\n\n", Ok(1024)),
    ("", "send x y u\n", 1025, "", Err(1025)),
    ("", "send x y u\n", 1024, "nonsense", Err(1025)),
    ("# c\n", "send x y u\n", 1024, "\nrequest q y u", Err(1027)),
    ("#", "x", 65_535, "\nsend x y u", Ok(1)),
    ("#", "x", 65_536, "\n", Err(1)),
    ("send ", "x", 200, " y u", Ok(1)),
    ("send ", "x", 201, " y u", Err(1)),
];

fn name(rt: &impl Abort, text: &[u8]) -> Name {
    Name::new(text).expect(rt, "a name")
}

/// Asserts that these are the jobs `send x y u` and `request q y u`.
fn assert_two_jobs(rt: &impl Abort, jobs: &[Job]) {
    let (target, user) = (name(rt, b"y"), name(rt, b"u"));
    let send = Job::Send {
        source: name(rt, b"x"),
        target,
        user,
        temp: None,
    };
    let request = Job::Request {
        source: name(rt, b"q"),
        target,
        user,
    };
    assert_same(rt, jobs, [send, request].as_slice());
}

fn two_jobs(rt: &impl Abort, alloc: Global) -> Queue<Global> {
    read_jobs(alloc, TWO_JOBS).expect(rt, "two jobs")
}

fn assert_only_two_jobs(rt: &impl Abort, queue: &Queue<Global>) {
    assert_two_jobs(rt, queue.pending());
    assert_same(rt, queue.struck().len(), 0);
    assert_same(rt, queue.failed().len(), 0);
}

#[test]
fn reads_jobs(rt: HostRuntime) {
    let queue = two_jobs(&rt, rt.alloc());
    assert_only_two_jobs(&rt, &queue);
}

/// Asserts that the jobs of a text are written as this one.
fn assert_writes(
    rt: &impl Abort,
    alloc: Global,
    text: &str,
    jobs: &[Job],
    expected: Result<&str, usize>,
) {
    let written = write_jobs(alloc, jobs).expect(rt, "memory for a text");
    assert_same_at(rt, Ok(written.as_str()), expected, text);
}

/// Asserts that a text has these jobs, or this bad line.
fn assert_reads(rt: &impl Abort, alloc: Global, text: &str, jobs: Result<&str, usize>) {
    match read_jobs(alloc, text.as_bytes()) {
        Ok(queue) => assert_writes(rt, alloc, text, queue.pending(), jobs),
        Err(fault) => assert_same_at(rt, Err(fault), jobs.map_err(JobsFault::Bad), text),
    }
}

#[test]
fn writes_what_it_reads(rt: HostRuntime) {
    for (text, jobs) in TEXTS {
        assert_reads(&rt, rt.alloc(), text, jobs);
    }
}

type LongText<'a> = (&'a str, &'a str, usize, &'a str);

fn add(rt: &impl Abort, text: &mut String, part: &str) {
    text.push_str(part).expect(rt, "memory for a text");
}

fn long_text(rt: &impl Abort, alloc: Global, (front, part, times, back): LongText<'_>) -> String {
    let mut text = String::new(alloc);
    add(rt, &mut text, front);
    for _ in 0..times {
        add(rt, &mut text, part);
    }
    add(rt, &mut text, back);
    text
}

/// Returns how many jobs a text has.
fn count_jobs(alloc: Global, text: &str) -> Result<usize, JobsFault> {
    let queue = read_jobs(alloc, text.as_bytes())?;
    Ok(queue.pending().len())
}

fn count_long(rt: &impl Abort, alloc: Global, long: LongText<'_>) -> Result<usize, JobsFault> {
    let text = long_text(rt, alloc, long);
    count_jobs(alloc, text.as_str())
}

#[test]
fn keeps_to_the_limits(rt: HostRuntime) {
    for (front, part, times, back, jobs) in LONG_TEXTS {
        let found = count_long(&rt, rt.alloc(), (front, part, times, back));
        assert_same_at(&rt, found, jobs.map_err(JobsFault::Bad), times);
    }
}

/// A call that takes memory.
#[derive(Clone, Copy)]
enum Call {
    Read,
    Write,
    State,
    Failed,
}

/// Makes the call. Returns whether it was done.
fn make(
    call: Call,
    heap: &Refusing<Global>,
    queue: &Queue<Global>,
    text: &mut String<&Refusing<Global>>,
) -> bool {
    match call {
        Call::Read => read_jobs(heap, TWO_JOBS).is_ok(),
        Call::Write => write_jobs(heap, queue.pending()).is_ok(),
        Call::State => add_state(heap, text, Side::Caller, Phase::Hail, queue).is_ok(),
        Call::Failed => add_failed(heap, text, Side::Called, queue).is_ok(),
    }
}

/// Makes the call, whose nth request is refused. It changes nothing then, and can be made again. Returns whether one
/// was refused.
fn refuse_with(
    rt: &impl Abort,
    heap: &Refusing<Global>,
    (call, nth): (Call, u64),
    queue: &Queue<Global>,
    text: &mut String<&Refusing<Global>>,
) -> bool {
    heap.refuse(nth);
    let is_done = make(call, heap, queue, text);
    let was_refused = heap.was_refused();
    assert_same_at(rt, is_done, !was_refused, nth);
    if was_refused {
        assert_same(rt, text.as_str(), "in front");
        assert_so(rt, make(call, heap, queue, text));
    }
    was_refused
}

/// Refuses the nth request of the call. Returns whether there was one.
fn refuse(
    rt: &impl Abort,
    heap: &Refusing<Global>,
    refused: (Call, u64),
    queue: &Queue<Global>,
) -> bool {
    heap.refuse(0);
    let mut text = String::from_str(heap, "in front").expect(rt, "memory for a text");
    refuse_with(rt, heap, refused, queue, &mut text)
}

/// More requests than any of the calls makes.
const ENOUGH: u64 = 100;

/// Refuses each request of the call in turn. Returns how many it makes.
fn requests(rt: &impl Abort, heap: &Refusing<Global>, call: Call, queue: &Queue<Global>) -> u64 {
    for nth in 1..ENOUGH {
        if !refuse(rt, heap, (call, nth), queue) {
            return nth - 1;
        }
    }
    ENOUGH
}

const CALLS: [(Call, u64); 4] = [
    (Call::Read, 1),
    (Call::Write, 1),
    (Call::State, 2),
    (Call::Failed, 0),
];

fn refuse_calls(rt: &impl Abort, heap: &Refusing<Global>, queue: &Queue<Global>) {
    for (call, least) in CALLS {
        let count = requests(rt, heap, call, queue);
        assert_so_at(rt, count >= least && count < ENOUGH, count);
    }
}

#[test]
fn makes_refused_calls_good(rt: HostRuntime) {
    let heap = Refusing::new(rt.alloc(), 0);
    let queue = two_jobs(&rt, rt.alloc());
    refuse_calls(&rt, &heap, &queue);
}

/// Appends the report of the caller with two jobs, before its first turn.
fn add_caller(rt: &impl Abort, alloc: Global, text: &mut String, queue: &Queue<Global>) {
    let state = add_state(alloc, text, Side::Caller, Phase::Hail, queue);
    state.expect(rt, "memory for its state");
    let failed = add_failed(alloc, text, Side::Caller, queue);
    failed.expect(rt, "memory for its failed jobs");
}

fn add_two_jobs(rt: &impl Abort, alloc: Global, text: &mut String) {
    let queue = two_jobs(rt, alloc);
    add_caller(rt, alloc, text, &queue);
}

#[test]
fn tells_how_an_end_stands(rt: HostRuntime) {
    let mut text = String::new(rt.alloc());
    add(&rt, &mut text, "in front\n");
    add_two_jobs(&rt, rt.alloc(), &mut text);
    assert_same(
        &rt,
        text.as_str(),
        "in front\ncaller hail pending 2 struck 0 failed 0\n",
    );
}
