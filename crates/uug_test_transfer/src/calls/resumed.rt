//! Files that were cut off, as the folder of an end holds them.

use super::memory_folder::MemoryFolder;
use super::scenes::NEVER;
use crate::calls::assertions::assert_same;
use std::alloc::{AllocError, Global};
use std::process::Abort;
use uug_session::{FileLimit, PartialFile, Partials, Spool};
use uug_store::{FolderSpool, LocalNames, NoNotebook};
use uug_talk::{FileDigest, Name};

type Files = LocalNames<MemoryFolder, NoNotebook, Global>;

/// The bytes of the file that have come.
const FRONT: &[u8] = b"a f";

fn told() -> FileDigest {
    FileDigest::of(b"a file")
}

fn source(rt: &impl Abort) -> Name {
    Name::new(b"x").expect(rt, "a name")
}

fn files(alloc: Global) -> Files {
    let folder = MemoryFolder::new(alloc, NEVER);
    let files = FolderSpool::new(alloc, Vec::new(alloc), folder);
    LocalNames::new(alloc, files, NoNotebook, FileLimit::standard())
}

fn partials(alloc: Global, source: Name) -> Result<Partials<Global>, AllocError> {
    let file = PartialFile {
        source,
        told: told(),
        bytes: FRONT.to_vec(alloc)?,
    };
    let mut partials = Partials::new(alloc);
    partials.put(file)?;
    Ok(partials)
}

/// Returns the number of files that are over, of those that are held.
fn count_over(files: &Files) -> usize {
    match files.partials() {
        Some(partials) => partials.over().len(),
        None => 0,
    }
}

/// Asserts what is held before and after the file is over.
fn assert_let_go(rt: &impl Abort, files: &mut Files, front: &[u8], over: usize) {
    let source = source(rt);
    assert_same(rt, files.held(&source, &told()), front);
    assert_same(rt, files.held(&source, &FileDigest::of(b"another")), b"");
    assert_same(rt, count_over(files), 0);
    files.let_go(&told());
    assert_same(rt, files.held(&source, &told()), front);
    assert_same(rt, count_over(files), over);
}

#[test]
fn holds_on_what_is_over(rt: HostRuntime) {
    let held = partials(rt.alloc(), source(&rt));
    let mut files = files(rt.alloc());
    files.set_partials(held.ok());
    assert_let_go(&rt, &mut files, FRONT, 1);
}

#[test]
fn holds_nothing_unless_it_resumes(rt: HostRuntime) {
    let mut files = files(rt.alloc());
    assert_let_go(&rt, &mut files, b"", 0);
}
