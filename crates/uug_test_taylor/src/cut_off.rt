//! Files that were cut off: the text in which an end holds one, and what it holds of several.

use crate::assertions::{assert_same_at, assert_so_at, name};
use std::alloc::{AllocError, Global};
use uug_session::{PartialFile, Partials};
use uug_store::{held_line, into_partial};
use uug_talk::{FileDigest, Name, NamedDigest};

/// The text that holds `ab` of the file `x`, which is `abc`.
const TEXT: &str =
    "x \"\" 0x00000003 sha256:ba7816bf8f01cfea414140de5dae2223b00361a396177a9cb410ff61f20015ad\nab";

/// Texts, and the number of bytes that each holds of a file; none of what is no such text.
const TEXTS: &[(&str, Option<usize>)] = &[
    (TEXT, Some(2)),
    // no byte, and bytes that are ends of lines
    (
        "x \"\" 0x3 sha256:ba7816bf8f01cfea414140de5dae2223b00361a396177a9cb410ff61f20015ad\n",
        Some(0),
    ),
    (
        "x \"\" 0x3 sha256:ba7816bf8f01cfea414140de5dae2223b00361a396177a9cb410ff61f20015ad\n\n\n",
        Some(2),
    ),
    // the line has no end, no name, no size, or a digest that is too short
    (
        "x \"\" 0x3 sha256:ba7816bf8f01cfea414140de5dae2223b00361a396177a9cb410ff61f20015ad",
        None,
    ),
    (
        "\"\" 0x3 sha256:ba7816bf8f01cfea414140de5dae2223b00361a396177a9cb410ff61f20015ad\nab",
        None,
    ),
    (
        "x \"\" sha256:ba7816bf8f01cfea414140de5dae2223b00361a396177a9cb410ff61f20015ad\nab",
        None,
    ),
    ("x \"\" 0x3 sha256:ba7816bf\nab", None),
    ("\nab", None),
    ("", None),
];

/// Returns how many bytes a text holds of a file.
fn bytes_in(alloc: Global, text: &str) -> Result<Option<usize>, AllocError> {
    match into_partial(text.as_bytes().to_vec(alloc)?) {
        Some(file) => Ok(Some(file.bytes.len())),
        None => Ok(None),
    }
}

#[test]
fn reads_what_a_text_holds(rt: HostRuntime) {
    for (text, bytes) in TEXTS {
        assert_same_at(
            &rt,
            bytes_in(rt.alloc(), text).unwrap_or(None),
            *bytes,
            text,
        );
    }
}

/// Returns these bytes of the file of this name, which is `abc`.
fn front(alloc: Global, source: &Name, bytes: &[u8]) -> Result<PartialFile<Global>, AllocError> {
    Ok(PartialFile {
        source: *source,
        told: FileDigest::of(b"abc"),
        bytes: bytes.to_vec(alloc)?,
    })
}

#[test]
fn writes_what_it_holds(rt: HostRuntime) {
    let line = held_line(&NamedDigest {
        name: name(&rt, "x"),
        told: FileDigest::of(b"abc"),
    });
    let is_so = TEXT.as_bytes().strip_suffix(b"ab") == Some(line.as_slice());
    assert_so_at(&rt, is_so, "x");
}

/// Holds `a`, then `ab` of the first file, and `abc` of the second one.
fn held_of(alloc: Global, first: &Name, second: &Name) -> Result<Partials<Global>, AllocError> {
    let mut partials = Partials::new(alloc);
    partials.put(front(alloc, first, b"a")?)?;
    partials.put(front(alloc, second, b"abc")?)?;
    partials.put(front(alloc, first, b"ab")?)?;
    Ok(partials)
}

/// Returns whether just these bytes are held, and one of them is over where it was let go.
fn is_held(alloc: Global, first: &Name, second: &Name) -> Result<bool, AllocError> {
    let mut partials = held_of(alloc, first, second)?;
    let told = FileDigest::of(b"abc");
    let other = FileDigest::of(b"abd");
    let is_so = partials.held(first, &told) == b"ab".as_slice()
        && partials.held(second, &told) == b"abc".as_slice()
        && partials.held(first, &other).is_empty()
        && partials.over().is_empty();
    partials.let_go(&told);
    Ok(is_so && partials.over().len() == 1 && partials.held(first, &told) == b"ab".as_slice())
}

#[test]
fn holds_one_of_each_file(rt: HostRuntime) {
    let first = name(&rt, "x");
    let second = name(&rt, "y");
    let held = is_held(rt.alloc(), &first, &second);
    assert_so_at(&rt, held.unwrap_or(false), "x");
}
