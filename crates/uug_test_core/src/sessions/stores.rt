//! A queue and a spool in memory. Beyond the clauses this catches a call that always reports lack of memory.

use super::{name, send_job};
use crate::assertions::{assert_same, assert_so};
use std::alloc::{AllocError, Global};
use std::process::Abort;
use uug_session::{
    FileView, JOBS_MAX, Job, KeepFault, MemorySpool, Queue, QueueFault, Spool, Stored, Verdict,
};
use uug_talk::Name;

fn fill_up(rt: &impl Abort, queue: &mut Queue<Global>, job: &Job) {
    for _ in 0..JOBS_MAX {
        assert_same(rt, queue.add(*job), Ok(()));
    }
    assert_same(rt, queue.add(*job), Err(QueueFault::Full));
    assert_same(rt, queue.pending().len(), 1024);
    assert_same(rt, (queue.struck().len(), queue.failed().len()), (0, 0));
}

#[test]
fn takes_jobs_up_to_the_limit(rt: HostRuntime) {
    let job = send_job(name(&rt, b"x"));
    let mut queue = Queue::new(rt.alloc());
    fill_up(&rt, &mut queue, &job);
}

/// Adds two files of the first name, and a verdict of its own for each other name.
fn fill(spool: &mut MemorySpool<Global>, names: &[Name; 4]) -> Result<(), AllocError> {
    let [free, later, never, fixed] = *names;
    spool.add_file(free, 0o644, b"")?;
    spool.add_file(free, 0o600, b"other")?;
    spool.later(later)?;
    spool.later(never)?;
    spool.deny(never)?;
    spool.immovable(fixed)
}

fn is_file(file: Option<FileView<'_>>, mode: u16, bytes: &[u8]) -> bool {
    file.is_some_and(|file| file.mode == mode && file.bytes == bytes)
}

fn assert_gives(rt: &impl Abort, spool: &MemorySpool<Global>, names: &[Name; 4]) {
    assert_so(rt, is_file(spool.fetch(&names[0]), 0o644, b""));
    assert_so(rt, spool.fetch(&names[1]).is_none());
    assert_same(rt, spool.may_keep(&names[0]), Verdict::Yes);
    assert_same(rt, spool.may_keep(&names[1]), Verdict::Later);
    assert_same(rt, spool.may_keep(&names[2]), Verdict::Never);
    assert_same(rt, spool.may_keep(&names[3]), Verdict::Yes);
}

fn is_stored(file: &Stored<Global>, name: Name, mode: u16, bytes: &[u8]) -> bool {
    file.name == name && file.mode == mode && file.bytes.as_slice() == bytes
}

fn assert_keeps(rt: &impl Abort, spool: &mut MemorySpool<Global>, names: &[Name; 4]) {
    assert_same(rt, spool.keep(&names[0], 0o644, b"abc"), Ok(()));
    assert_same(
        rt,
        spool.keep(&names[3], 0o644, b"abc"),
        Err(KeepFault::Refused),
    );
    assert_so(rt, spool.stored().len() == 1);
    assert_same(rt, spool.faults(), 0);
    assert_so(rt, is_stored(&spool.stored()[0], names[0], 0o644, b"abc"));
}

#[test]
fn gives_and_keeps_files(rt: HostRuntime) {
    let names = [
        name(&rt, b"y"),
        name(&rt, b"later"),
        name(&rt, b"never"),
        name(&rt, b"fixed"),
    ];
    let mut spool = MemorySpool::new(rt.alloc());
    assert_so(&rt, fill(&mut spool, &names).is_ok());
    assert_gives(&rt, &spool, &names);
    assert_keeps(&rt, &mut spool, &names);
}

fn assert_gives_and_keeps(rt: &impl Abort, spool: &mut MemorySpool<Global>, x: Name, bytes: &[u8]) {
    assert_so(rt, spool.add_file(x, 0o644, bytes).is_ok());
    assert_so(rt, is_file(spool.fetch(&x), 0o644, bytes));
    assert_same(rt, spool.keep(&x, 0o600, bytes), Ok(()));
    assert_so(rt, spool.stored().len() == 1);
    assert_so(rt, is_stored(&spool.stored()[0], x, 0o600, bytes));
}

// a spool that says that it is out of memory for a long file
#[test]
fn gives_and_keeps_a_mib(rt: HostRuntime) {
    let mut bytes = Vec::new(rt.alloc());
    assert_so(&rt, bytes.resize(1_048_576, b'm').is_ok());
    let mut spool = MemorySpool::new(rt.alloc());
    assert_gives_and_keeps(&rt, &mut spool, name(&rt, b"x"), bytes.as_slice());
}
