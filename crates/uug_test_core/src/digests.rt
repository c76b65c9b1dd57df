//! Digests of files and the texts that announce them, with values of `sha256sum`.

use crate::assertions::{assert_same, assert_so};
use std::alloc::AllocGlobal;
use std::process::Abort;
use uug_talk::{
    FileDigest, Name, NamedDigest, Order, give_telling, order_telling, position_told,
    told_by_answer, told_by_order, write_consent,
};

/// Commands, and whether each announces the size and the digest of the file `abc`.
const COMMANDS: &[(&[u8], bool)] = &[
    (
        b"S x y u - D.0 0644 \"\" 0x00000003 sha256:ba7816bf8f01cfea414140de5dae2223b00361a396177a9cb410ff61f20015ad",
        true,
    ),
    (
        b"S x y u -C D.1 0644 u 0x3 sha256:BA7816BF8F01CFEA414140DE5DAE2223B00361A396177A9CB410FF61F20015AD more",
        true,
    ),
    // another size, and another digest
    (
        b"S x y u - D.0 0644 \"\" 0x4 sha256:ba7816bf8f01cfea414140de5dae2223b00361a396177a9cb410ff61f20015ad",
        false,
    ),
    (
        b"S x y u - D.0 0644 \"\" 0x3 sha256:ba7816bf8f01cfea414140de5dae2223b00361a396177a9cb410ff61f20015ae",
        false,
    ),
    // none is told
    (b"S x y u - D.0 0644 \"\" 0x3", false),
    (
        b"S x y u - D.0 0644 \"\" 3 sha256:ba7816bf8f01cfea414140de5dae2223b00361a396177a9cb410ff61f20015ad",
        false,
    ),
    (
        b"R x y u - \"\" 0x3 sha256:ba7816bf8f01cfea414140de5dae2223b00361a396177a9cb410ff61f20015ad",
        false,
    ),
    (b"", false),
];

/// Returns whether the command announces the size and digest of a file with these bytes.
fn tells_of(command: &[u8], bytes: &[u8]) -> bool {
    match told_by_order(command) {
        Some(told) => told.is_of(bytes),
        None => false,
    }
}

#[test]
fn a_command_tells_the_digest_of_a_file(rt: HostRuntime) {
    for (command, is_told) in COMMANDS {
        assert_same(&rt, tells_of(command, b"abc"), *is_told);
    }
}

/// Asserts that commands and answers are written correctly and read back.
fn write_and_read(rt: &impl Abort) {
    let name = Name::new(b"x").expect(rt, "a name");
    let order = Order::Send {
        source: name,
        target: name,
        user: name,
        temp: None,
        mode: 0o644,
    };
    let told = FileDigest::of(b"abc");
    let command = order_telling(&order, &told);
    assert_same(
        rt,
        command.as_slice(),
        b"S x x x - D.0 0644 \"\" 0x00000003 sha256:ba7816bf8f01cfea414140de5dae2223b00361a396177a9cb410ff61f20015ad".as_slice(),
    );
    assert_same(rt, told_by_order(&command), Some(told));
    let answer = give_telling(0o600, &told);
    assert_same(
        rt,
        answer.as_slice(),
        b"RY 0600 \"\" 0x00000003 sha256:ba7816bf8f01cfea414140de5dae2223b00361a396177a9cb410ff61f20015ad".as_slice(),
    );
    assert_same(rt, told_by_answer(&answer), Some(told));
}

#[test]
fn what_is_told_is_read(rt: HostRuntime) {
    write_and_read(&rt);
}

/// Lines that don't name a file with its size and digest.
const UNNAMED: &[&[u8]] = &[
    b"",
    b"x",
    b"x 0x3 sha256:ba7816bf8f01cfea414140de5dae2223b00361a396177a9cb410ff61f20015ad",
    b"x \"\" 3 sha256:ba7816bf8f01cfea414140de5dae2223b00361a396177a9cb410ff61f20015ad",
    b"\x07 \"\" 0x3 sha256:ba7816bf8f01cfea414140de5dae2223b00361a396177a9cb410ff61f20015ad",
];

/// Asserts that a name and what is told of its file are one line, which is read back.
fn name_and_read(rt: &impl Abort) {
    let named = NamedDigest {
        name: Name::new(b"x").expect(rt, "a name"),
        told: FileDigest::of(b"abc"),
    };
    let line = named.line();
    assert_same(
        rt,
        line.as_slice(),
        b"x \"\" 0x00000003 sha256:ba7816bf8f01cfea414140de5dae2223b00361a396177a9cb410ff61f20015ad".as_slice(),
    );
    assert_same(rt, NamedDigest::of_line(&line), Some(named));
}

#[test]
fn a_line_names_a_file(rt: HostRuntime) {
    name_and_read(&rt);
    for line in UNNAMED {
        assert_same(&rt, NamedDigest::of_line(line), None);
    }
}

/// Positions, and the answers that ask for a file from there on.
const CONSENTS: &[(u32, &[u8])] = &[
    (0, b"SY"),
    (1, b"SY 0x00000001"),
    (256, b"SY 0x00000100"),
    (4_294_967_295, b"SY 0xffffffff"),
];

/// Answers that ask for a file from its first byte on. None of them gives a position.
const UNPLACED: &[&[u8]] = &[
    b"SY 256",
    b"SY 0x",
    b"SY 0x100000000",
    b"SY +0x100",
    b"SY - 0x100",
    b"SN2 0x100",
    b"RY 0x100",
    b"",
];

#[test]
fn an_answer_tells_from_where_on_a_file_is_sent(rt: HostRuntime) {
    for (position, text) in CONSENTS {
        assert_same(&rt, write_consent(*position).as_slice(), *text);
        assert_same(&rt, position_told(text), *position);
    }
    assert_same(&rt, position_told(b" SYx  0x5dC more"), 1_500);
    for text in UNPLACED {
        assert_same(&rt, (*text, position_told(text)), (*text, 0));
    }
}

/// Asserts that the largest file, whose bytes are all `a`, has its digest.
#[test]
fn the_largest_file_has_its_digest(rt: HostRuntime) {
    let command =
        b"S x y u - D.0 0644 \"\" 0x00100000 sha256:9bc1b2a288b26af7257a36277ae3816a7d4f16e89c1e7e77d0a5c48bad62b360";
    let mut bytes = vec![in rt.alloc(); b'a'; 1_048_576].expect(&rt, "memory");
    assert_so(&rt, tells_of(command, &bytes));
    if let Some(last) = bytes.last_mut() {
        *last = b'b';
    }
    assert_so(&rt, !tells_of(command, &bytes));
}
