//! C. files with lines that are over and have no copy.

use crate::assertions::{assert_same, assert_so_at, name};
use std::alloc::Global;
use std::process::Abort;
use uug_taylor_queue::{CommandText, WorkStore, add_file, queue_of};
use uug_taylor_text::{MemoryDisk, Operation};

type Store = WorkStore<MemoryDisk<Global>, Global>;

/// Makes the store of a C. file with `count` lines, all with the same words but for the number of the file.
fn store_of(rt: &impl Abort, alloc: Global, count: u32) -> Store {
    let mut text = String::new(alloc);
    for i in 0..count {
        let line = format!(in alloc; "S /f{i} ~/x{i} u -c D.0 0644\n").expect(rt, "memory");
        text.push_str(line.as_str()).expect(rt, "memory");
    }
    let file = name(rt, "C.N0001");
    let mut lines = Vec::new(alloc);
    add_file(&mut lines, &file, text.as_bytes(), &[]).expect(rt, "memory");
    let mut files = Vec::new(alloc);
    let text = text.into_bytes();
    files
        .push(CommandText { name: file, text })
        .expect(rt, "memory");
    WorkStore::new(alloc, MemoryDisk::new(alloc, 100_000), lines, files)
}

/// Counts the lines that were written last, if any were.
fn lines_written(store: &Store) -> Option<usize> {
    let mut written = None;
    for operation in store.disk.operations() {
        match operation {
            Operation::Made(_, bytes) => {
                written = Some(bytes.iter().filter(|b| **b == b'\n').count());
            }
            Operation::Unlinked(spot) if spot.name.as_bytes() == b"C.N0001".as_slice() => written =
                None,
            _ => (),
        }
    }
    written
}

/// Settles the jobs that a session offers, at most `most`. Returns their number.
fn settle_session(rt: &impl Abort, alloc: Global, store: &mut Store, most: usize) -> usize {
    let queue = queue_of(alloc, store.lines(), most).expect(rt, "memory");
    let done = store.settle_jobs(alloc, queue.pending(), &[], b"");
    assert_so_at(rt, done.is_ok(), most);
    queue.pending().len()
}

#[test]
fn each_line_of_a_long_file_is_offered_once(rt: HostRuntime) {
    let alloc = rt.alloc();
    let mut store = store_of(&rt, alloc, 1100);
    assert_same(&rt, settle_session(&rt, alloc, &mut store, 1100), 1024);
    assert_same(&rt, lines_written(&store), Some(76));
    assert_same(&rt, settle_session(&rt, alloc, &mut store, 70), 70);
    assert_same(&rt, lines_written(&store), Some(6));
    assert_same(&rt, settle_session(&rt, alloc, &mut store, 1024), 6);
    assert_same(&rt, store.lines().len(), 0);
}
