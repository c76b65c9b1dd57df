//! Mail that was cut off, as the spool of an end holds it.

use crate::assertions::{assert_same, assert_same_at, name};
use crate::places::{Files, files};
use std::alloc::Global;
use std::process::Abort;
use uug_session::{PartialFile, Partials, Spool};
use uug_talk::FileDigest;

/// The bytes of the mail that have come.
const FRONT: &[u8] = b"a m";

fn told() -> FileDigest {
    FileDigest::of(b"a mail")
}

fn partials(rt: &impl Abort, alloc: Global) -> Partials<Global> {
    let file = PartialFile {
        source: name(rt, "D.0001"),
        told: told(),
        bytes: FRONT.to_vec(alloc).expect(rt, "memory"),
    };
    let mut partials = Partials::new(alloc);
    partials.put(file).expect(rt, "memory");
    partials
}

/// Asserts that just this is held of the mail, and nothing of a file of another name or with another digest.
fn assert_held(rt: &impl Abort, files: &Files, front: &[u8]) {
    let (source, other) = (name(rt, "D.0001"), name(rt, "D.0002"));
    assert_same(rt, files.held(&source, &told()), front);
    assert_same(rt, files.held(&other, &told()), b"");
    assert_same(rt, files.held(&source, &FileDigest::of(b"another")), b"");
}

/// Returns the number of files that are over, of those that are held.
fn count_over(files: &Files) -> usize {
    match files.partials() {
        Some(partials) => partials.over().len(),
        None => 0,
    }
}

/// Asserts what is held before and after the mail is over.
fn assert_let_go(rt: &impl Abort, files: &mut Files, front: &[u8], over: usize) {
    assert_held(rt, files, front);
    assert_same_at(rt, count_over(files), 0, over);
    files.let_go(&told());
    assert_held(rt, files, front);
    assert_same_at(rt, count_over(files), over, over);
}

#[test]
fn holds_on_what_is_over(rt: HostRuntime) {
    let partials = partials(&rt, rt.alloc());
    let mut resuming = files(&rt, rt.alloc(), Some(partials));
    assert_let_go(&rt, &mut resuming, FRONT, 1);
}

#[test]
fn holds_nothing_unless_it_resumes(rt: HostRuntime) {
    let mut files = files(&rt, rt.alloc(), None);
    assert_let_go(&rt, &mut files, b"", 0);
}
