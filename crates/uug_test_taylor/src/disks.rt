//! The operations on the disk, and their order, when each operation fails in turn. The clauses say what is done until
//! then; these rows say it of folders whose names are known.

use crate::assertions::{assert_same_at, assert_so_at, name};
use std::alloc::Global;
use std::process::Abort;
use uug_taylor_queue::{OpenLine, Outcome, settle};
use uug_taylor_text::{MemoryDisk, Operation, Room, Spot, finish, store};

/// An operation on the folders.
#[derive(Clone, Copy)]
enum Step {
    Make(Room, &'static str, &'static str),
    Sync(Room, &'static str),
    Rename(Room, &'static str, Room, &'static str),
    Unlink(Room, &'static str),
    SyncFolder(Room),
}

fn is_at(spot: &Spot, room: Room, name: &str) -> bool {
    spot.room == room && spot.name.as_bytes() == name.as_bytes()
}

fn is_step(operation: &Operation<Global>, step: Step) -> bool {
    match (operation, step) {
        (Operation::Made(spot, bytes), Step::Make(room, name, text)) => {
            is_at(spot, room, name) && bytes.as_slice() == text.as_bytes()
        }
        (Operation::Synced(spot), Step::Sync(room, name)) => is_at(spot, room, name),
        (Operation::Renamed(from, to), Step::Rename(room, name, to_room, to_name)) => {
            is_at(from, room, name) && is_at(to, to_room, to_name)
        }
        (Operation::Unlinked(spot), Step::Unlink(room, name)) => is_at(spot, room, name),
        (Operation::FolderSynced(folder), Step::SyncFolder(room)) => *folder == room,
        _ => false,
    }
}

/// Asserts that just the first `count` of these steps were done.
fn assert_steps(rt: &impl Abort, disk: &MemoryDisk<Global>, steps: &[Step], count: usize) {
    assert_same_at(rt, disk.operations().len(), count, count);
    for (operation, step) in disk.operations().iter().zip(steps.iter()) {
        assert_so_at(rt, is_step(operation, *step), count);
    }
}

fn spot(rt: &impl Abort, room: Room, text: &str) -> Spot {
    let name = name(rt, text);
    Spot { room, name }
}

/// The steps that put a mail, which arrived as D.0001, in its place.
const STORED: [Step; 9] = [
    Step::Unlink(Room::Temporary, "D.0001"),
    Step::Make(Room::Temporary, "D.0001", "a mail\n"),
    Step::Sync(Room::Temporary, "D.0001"),
    Step::Make(Room::Marked, "D.0001", "D.alphaN0001"),
    Step::Sync(Room::Marked, "D.0001"),
    Step::SyncFolder(Room::Marked),
    Step::Rename(Room::Temporary, "D.0001", Room::Data, "D.alphaN0001"),
    Step::SyncFolder(Room::Data),
    Step::SyncFolder(Room::Temporary),
];

/// The steps for a mail that was complete on the disk, with its marker.
const FINISHED: [Step; 3] = [
    Step::Rename(Room::Temporary, "D.0001", Room::Data, "D.alphaN0001"),
    Step::SyncFolder(Room::Data),
    Step::SyncFolder(Room::Temporary),
];

/// Stores the mail with a disk on which the step after `failing` others fails, and asserts what was done.
fn assert_stored(rt: &impl Abort, alloc: Global, failing: u64, count: usize) {
    let mut disk = MemoryDisk::new(alloc, failing);
    let target = spot(rt, Room::Data, "D.alphaN0001");
    let temp = name(rt, "D.0001");
    let stored = store(&mut disk, &temp, &target, b"D.alphaN0001", b"a mail\n");
    assert_same_at(rt, stored.is_ok(), count == STORED.len(), count);
    assert_steps(rt, &disk, &STORED, count);
}

fn assert_finished(rt: &impl Abort, alloc: Global, failing: u64, count: usize) {
    let mut disk = MemoryDisk::new(alloc, failing);
    let target = spot(rt, Room::Data, "D.alphaN0001");
    let finished = finish(&mut disk, &name(rt, "D.0001"), &target);
    assert_same_at(rt, finished.is_ok(), count == FINISHED.len(), count);
    assert_steps(rt, &disk, &FINISHED, count);
}

#[test]
fn marks_before_it_renames(rt: HostRuntime) {
    for count in 0..=STORED.len() {
        assert_stored(&rt, rt.alloc(), count as u64, count);
    }
    for count in 0..=FINISHED.len() {
        assert_finished(&rt, rt.alloc(), count as u64, count);
    }
}

/// The columns: whether a line has a copy, the outcome of its job, the file of another line that is not over, whether
/// that one has the same copy, and the steps.
type Row = (bool, Outcome, &'static str, bool, &'static [Step]);

const ROWS: [Row; 7] = [
    (
        true,
        Outcome::Done,
        "C.Nother",
        false,
        &[
            Step::Unlink(Room::Data, "D.0001"),
            Step::SyncFolder(Room::Data),
            Step::Unlink(Room::Commands, "C.N0001"),
        ],
    ),
    // another line of the file is not over
    (
        true,
        Outcome::Done,
        "C.N0001",
        false,
        &[
            Step::Unlink(Room::Data, "D.0001"),
            Step::SyncFolder(Room::Data),
        ],
    ),
    // the data of a mail, whose execution file is not there yet
    (true, Outcome::Done, "C.N0001", true, &[]),
    (
        true,
        Outcome::Failed,
        "C.N0001",
        true,
        &[
            Step::Rename(Room::Data, "D.0001", Room::Preserved, "D.0001"),
            Step::SyncFolder(Room::Preserved),
            Step::SyncFolder(Room::Data),
        ],
    ),
    (
        true,
        Outcome::Failed,
        "C.Nother",
        false,
        &[
            Step::Rename(Room::Data, "D.0001", Room::Preserved, "D.0001"),
            Step::SyncFolder(Room::Preserved),
            Step::SyncFolder(Room::Data),
            Step::Unlink(Room::Commands, "C.N0001"),
        ],
    ),
    // a line without a copy
    (
        false,
        Outcome::Failed,
        "C.Nother",
        false,
        &[Step::Unlink(Room::Commands, "C.N0001")],
    ),
    (false, Outcome::Done, "C.N0001", false, &[]),
];

fn open_line(rt: &impl Abort, file: &str, has_copy: bool) -> OpenLine {
    let copy = if has_copy {
        Some(name(rt, "D.0001"))
    } else {
        None
    };
    let file = name(rt, file);
    OpenLine {
        file,
        number: 0,
        copy,
        job: None,
    }
}

/// Settles the line of a row with a disk on which the step after `count` others fails, and asserts what was done.
fn assert_settled(rt: &impl Abort, alloc: Global, row: Row, count: usize) {
    let (has_copy, outcome, other, has_same_copy, steps) = row;
    let mut disk = MemoryDisk::new(alloc, count as u64);
    let line = open_line(rt, "C.N0001", has_copy);
    let others = [open_line(rt, other, has_same_copy)];
    let settled = settle(&mut disk, &line, &others, outcome);
    assert_same_at(rt, settled.is_ok(), count == steps.len(), other);
    assert_steps(rt, &disk, steps, count);
}

#[test]
fn takes_copies_away_before_files(rt: HostRuntime) {
    for row in ROWS {
        let (_, _, _, _, steps) = row;
        for count in 0..=steps.len() {
            assert_settled(&rt, rt.alloc(), row, count);
        }
    }
}
