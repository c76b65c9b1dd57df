//! Tests of the calls of `uug_packet`, each made once, and of the texts of its errors.

use crate::assertions::{assert_same, assert_so};
use arrayvec::ArrayVec;
use std::alloc::AllocGlobal;
use std::process::Abort;
use uug_packet::{
    Control, HEADER_SIZE, NoPacket, Packet, Seq, check, control_packet, decode, encode, field_code,
    field_size, is_written, message_in, message_start, re_ack,
};

/// Makes the number of a packet. All values written here are below eight.
pub fn number(value: u8) -> Seq {
    match Seq::new(value % 8) {
        Some(number) => number,
        None => unreachable!(),
    }
}

#[test]
fn counts_and_checks(rt: HostRuntime) {
    assert_same(&rt, number(7).next().value(), 0);
    assert_same(&rt, number(1).ahead_of(number(6)), 3);
    assert_same(&rt, check(&[0x41, 0x42]), 0x0046);
    assert_same(&rt, field_size(1), 32);
}

// the number of bytes of a message, and the code of the smallest field that holds it
#[test]
fn finds_the_smallest_field(rt: HostRuntime) {
    for (len, code) in [
        (0, 1),
        (32, 1),
        (33, 2),
        (257, 5),
        (2048, 7),
        (2049, 8),
        (4096, 8),
    ] {
        assert_same(&rt, field_code(len), code);
    }
}

#[test]
fn writes_and_reads_packets(rt: HostRuntime) {
    let packet = Packet::Carry {
        seq: number(2),
        ack: number(1),
        k: 1,
        message: &[],
    };
    let front = [0x10, 0x01, 0x9a, 0x0e, 0xd1, 0x44, 0x20];
    let mut out = ArrayVec::new();
    encode(&packet, &mut out);
    assert_same(&rt, &out[..7], front.as_slice());
    assert_same(&rt, message_start(&out), 7);
    assert_same(&rt, message_in(&out), Some([].as_slice()));
    assert_so(&rt, is_written(&packet, out.as_slice()));
    assert_same(&rt, decode(&out), Ok((packet, 38)));
    let init = [0x10, 0x09, 0x6f, 0xaa, 0x3b, 0xf7];
    assert_same(&rt, control_packet(Control::InitA(number(3))), init);
}

/// The code of a field's size, the number of its missing bytes, and the bytes before the message that say so.
const FIELDS: &[(u8, usize, &[u8])] = &[
    (1, 0, b""),
    (1, 1, b"\x01"),
    (1, 2, b"\x02"),
    (1, 32, b"\x20"),
    (2, 0, b""),
    (2, 1, b"\x01"),
    (2, 2, b"\x02"),
    (2, 64, b"\x40"),
    (3, 0, b""),
    (3, 1, b"\x01"),
    (3, 2, b"\x02"),
    (3, 127, b"\x7f"),
    (4, 0, b""),
    (4, 1, b"\x01"),
    (4, 2, b"\x02"),
    (4, 127, b"\x7f"),
    (4, 128, b"\x80\x01"),
    (4, 256, b"\x80\x02"),
    (5, 0, b""),
    (5, 1, b"\x01"),
    (5, 2, b"\x02"),
    (5, 127, b"\x7f"),
    (5, 128, b"\x80\x01"),
    (5, 512, b"\x80\x04"),
    (6, 0, b""),
    (6, 1, b"\x01"),
    (6, 2, b"\x02"),
    (6, 127, b"\x7f"),
    (6, 128, b"\x80\x01"),
    (6, 1024, b"\x80\x08"),
    (7, 0, b""),
    (7, 1, b"\x01"),
    (7, 2, b"\x02"),
    (7, 127, b"\x7f"),
    (7, 128, b"\x80\x01"),
    (7, 2048, b"\x80\x10"),
    (8, 0, b""),
    (8, 1, b"\x01"),
    (8, 2, b"\x02"),
    (8, 127, b"\x7f"),
    (8, 128, b"\x80\x01"),
    (8, 4096, b"\x80\x20"),
];

/// Writes a packet with this many bytes missing in its field, and reads it. Asserts that it begins with `front`, and
/// that the same packet is read.
fn assert_read_back(rt: &impl Abort, (k, missing, front): (u8, usize, &[u8])) {
    let k = k.max(1).min(8);
    let size = field_size(k);
    let packet = Packet::Carry {
        seq: number(k),
        ack: number(3),
        k,
        message: &[b'm'; 4096][..size.saturating_sub(missing)],
    };
    let mut out = ArrayVec::new();
    encode(&packet, &mut out);
    let field = out.as_slice().get(HEADER_SIZE..).unwrap_or(&[]);
    assert_so(rt, field.starts_with(front));
    assert_same(rt, field.get(front.len()) == Some(&b'm'), missing < size);
    assert_same(rt, decode(&out), Ok((packet, HEADER_SIZE + size)));
}

#[test]
fn reads_what_it_writes_in_each_field(rt: HostRuntime) {
    for row in FIELDS {
        assert_read_back(&rt, *row);
    }
}

/// Asserts that these are the bytes of a packet in a field of 32 bytes, written with the acknowledgement `old` and
/// then changed to `ack`.
fn assert_acknowledged(
    rt: &impl Abort,
    seq: u8,
    message: &[u8],
    (old, ack): (u8, u8),
    bytes: &[u8; 38],
) {
    let packet = Packet::Carry {
        seq: number(seq),
        ack: number(old),
        k: 1,
        message: &message[..message.len().min(32)],
    };
    let mut written = ArrayVec::new();
    encode(&packet, &mut written);
    re_ack(&mut written, number(ack));
    assert_same(&rt, written.as_slice(), bytes.as_slice());
}

// the old checksum; the old exclusive or; a field that is written anew
#[test]
fn acknowledges_again(rt: HostRuntime) {
    let mut long = [0; 38];
    long[..6].copy_from_slice(&[0x10, 0x01, 0x0e, 0x3a, 0x89, 0xbc]);
    assert_acknowledged(&rt, 1, &[0; 32], (0, 1), &long);
    let mut empty = [0; 38];
    empty[..7].copy_from_slice(&[0x10, 0x01, 0x98, 0x0e, 0xd3, 0x44, 0x20]);
    assert_acknowledged(&rt, 2, &[], (1, 3), &empty);
}

/// Bytes, the reason why they are no packet, and its text.
const REFUSED: &[(&[u8], NoPacket, &str)] = &[
    (b"\x10\x0a\0\0\0", NoPacket::Short, "more bytes are needed"),
    (b"\x11", NoPacket::BadStart, "no packet begins here"),
    (b"\x10\x0a\0\0\0\0", NoPacket::BadK, "bad size code"),
    (
        b"\x10\x09\xaa\xaa\0\x08",
        NoPacket::BadXor,
        "bad header check",
    ),
    (b"\x10\x09\0\0\0\x09", NoPacket::BadKind, "bad control byte"),
    (
        b"\x10\x09\x6e\xaa\x3b\xf6",
        NoPacket::BadSum,
        "bad checksum",
    ),
    // no byte of the field is missing
    (
        b"\x10\x01\xcd\x39\xc8\x3d\0\0\0\0\0\0\0\0\0\0\0\0\0\0\0\0\0\0\0\0\0\0\0\0\0\0\0\0\0\0\0\0",
        NoPacket::BadLength,
        "bad length",
    ),
];

fn assert_text(rt: &(impl Abort + AllocGlobal), fault: NoPacket, text: &str) {
    let said = format!(in rt.alloc(); "{fault}").expect(rt, "memory");
    assert_same(rt, said.as_str(), text);
}

#[test]
fn refuses_packets(rt: HostRuntime) {
    for (bytes, fault, text) in REFUSED {
        assert_same(&rt, decode(bytes), Err(*fault));
        assert_text(&rt, *fault, text);
    }
}
