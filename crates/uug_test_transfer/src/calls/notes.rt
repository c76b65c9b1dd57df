//! Tries the notebook of a folder of the system: a file is written down while it comes.

use crate::calls::assertions::{assert_same, assert_same_at};
use crate::pairs::runs::{folder_path, remove};
use std::alloc::Global;
use std::fs::File;
use std::process::Abort;
use std::rt::Files;
use std::time::Clock;
use std::{fs, process};
use uug_io_disk::{PartialNotes, hold_partial, read_partials};
use uug_session::{FileLimit, PartialFile};
use uug_store::{Allowance, Notebook};
use uug_talk::{FileDigest, Name};

/// The bytes that come before the first are written down.
const FEW: usize = 16_383;

fn filled(rt: &(impl Abort + AllocGlobal), count: usize) -> Vec<u8> {
    let mut bytes = Vec::new(rt.alloc());
    bytes.resize(count, 7).expect(rt, "memory for bytes");
    bytes
}

fn source(rt: &impl Abort) -> Name {
    Name::new(b"x").expect(rt, "a name")
}

fn told() -> FileDigest {
    FileDigest::of(b"a file")
}

fn notes<'a, R: Files<File = File> + Abort + AllocGlobal>(
    rt: &'a R,
    dir: &str,
) -> PartialNotes<'a, R, Global> {
    let path = String::from_str(rt.alloc(), dir).expect(rt, "memory for a path");
    PartialNotes::new(rt.alloc(), rt, path)
}

/// Asserts how many bytes the next session would find of the file.
fn assert_held(
    rt: &(impl Files<File = File> + Clock + Abort + AllocGlobal + Clone + Drop),
    dir: &str,
    front: usize,
    behind: usize,
) {
    let allowance = Allowance {
        bytes: 1_000_000,
        limit: FileLimit::standard(),
        days: 30,
    };
    let held = read_partials(rt.alloc(), rt, dir, allowance).expect(rt, "memory");
    let count = front.saturating_add(behind);
    assert_same(rt, held.held(&source(rt), &told()).len(), count);
}

/// The bytes that have come of a file at a moment, and those of them that are written down.
const ROWS: &[(usize, usize)] = &[
    (FEW, 0),
    (FEW + 1, FEW + 1),
    (FEW + 2, FEW + 1),
    (2 * FEW + 2, 2 * FEW + 2),
    (200_000, 200_000),
    (200_001, 200_000),
];

fn note_all(
    rt: &(impl Files<File = File> + Clock + Abort + AllocGlobal + Clone + Drop),
    dir: &str,
    front: usize,
) {
    let held = filled(rt, front);
    let mut notes = notes(rt, dir);
    for (come, written) in ROWS {
        let bytes = filled(rt, *come);
        notes.note(&source(rt), &told(), &held, &bytes);
        notes.note(&source(rt), &told(), &held, &bytes);
        assert_held(rt, dir, front, *written);
    }
    notes.let_go(&FileDigest::of(b"another"));
    assert_held(rt, dir, front, 200_000);
    notes.let_go(&told());
    assert_held(rt, dir, 0, 0);
}

/// Holds so many bytes of the file, as a session does at its end.
fn hold(rt: &(impl Files<File = File> + Abort + AllocGlobal), dir: &str, count: usize) {
    let file = PartialFile {
        source: source(rt),
        told: told(),
        bytes: filled(rt, count),
    };
    let held = hold_partial(rt.alloc(), rt, dir, &file);
    assert_same(rt, held.is_ok(), true);
}

/// Notes what comes behind a front that is shorter than the one on the disk.
fn note_behind_another(rt: &(impl Files<File = File> + Abort + AllocGlobal), dir: &str) {
    let mut notes = notes(rt, dir);
    let bytes = filled(rt, 40_000);
    let front = filled(rt, 99);
    notes.note(&source(rt), &told(), &front, &bytes);
    notes.note(&source(rt), &told(), &front, &bytes);
}

// what has come of a file that nothing was held of; what comes behind a front; a shorter front than the one on the disk,
// which takes its place
#[test]
fn writes_down_what_comes(rt: HostRuntime) {
    let dir = folder_path(&rt, process::id(rt.process()), "notes");
    note_all(&rt, dir.as_str(), 0);
    hold(&rt, dir.as_str(), 100);
    note_all(&rt, dir.as_str(), 100);
    hold(&rt, dir.as_str(), 100);
    note_behind_another(&rt, dir.as_str());
    assert_held(&rt, dir.as_str(), 99, 40_000);
    remove(&rt, dir.as_str());
}

// what is left at a session's end: nothing was held of it, some of it, more than all of it
#[test]
fn holds_what_is_left(rt: HostRuntime) {
    let dir = folder_path(&rt, process::id(rt.process()), "left");
    for count in [1, 100, 50_000, 40_000] {
        hold(&rt, dir.as_str(), count);
        assert_held(&rt, dir.as_str(), 0, count);
    }
    remove(&rt, dir.as_str());
}

// a folder that can't be made: nothing is written, and nothing fails
#[test]
fn writes_nothing_where_it_cannot(rt: HostRuntime) {
    let dir = folder_path(&rt, process::id(rt.process()), "no_notes");
    fs::write(&rt, dir.as_str(), b"a file").expect(&rt, "a file");
    let bytes = filled(&rt, 40_000);
    let mut notes = notes(&rt, dir.as_str());
    notes.note(&source(&rt), &told(), b"", &bytes);
    notes.note(&source(&rt), &told(), b"", &bytes);
    notes.let_go(&told());
    assert_same_at(
        &rt,
        fs::metadata(&rt, dir.as_str()).is_ok(),
        true,
        "the file",
    );
    drop(notes);
    fs::remove_file(&rt, dir.as_str()).expect(&rt, "a file to remove");
}
