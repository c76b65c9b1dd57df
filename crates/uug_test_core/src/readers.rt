//! Tests of what no clause says about a reader: that it does its work on bytes from outside, and running out of
//! memory.

use crate::assertions::{assert_same, assert_so};
use crate::packets::number;
use std::alloc::{Allocator, Global};
use std::process::Abort;
use uug_packet::{Control, Packet};
use uug_reader::{Found, READER_SIZE, Reader};
use uug_test_alloc::Refusing;

/// Two bytes of noise, INITA 3, and the front of RR 1.
const FRONT: [u8; 10] = [0x10, 0x11, 0x10, 0x09, 0x6f, 0xaa, 0x3b, 0xf7, 0x10, 0x09];

/// The rest of RR 1, and the header of a data packet: number 1, acknowledging 0, with 32 zeros as the message.
const HEADER: [u8; 10] = [0x89, 0xaa, 0x21, 0x0b, 0x10, 0x01, 0x0d, 0x3a, 0x88, 0xbe];

/// The whole of that data packet.
const PACKET: [u8; 38] = [
    0x10, 0x01, 0x0d, 0x3a, 0x88, 0xbe, 0, 0, 0, 0, 0, 0, 0, 0, 0, 0, 0, 0, 0, 0, 0, 0, 0, 0, 0, 0,
    0, 0, 0, 0, 0, 0, 0, 0, 0, 0, 0, 0,
];

/// A data packet whose checksum is one too high. Its field has bytes that read as RR 1.
const BROKEN: [u8; 38] = [
    0x10, 0x01, 0x96, 0x6a, 0x88, 0x75, 0x10, 0x09, 0x89, 0xaa, 0x21, 0x0b, 0, 0, 0, 0, 0, 0, 0, 0,
    0, 0, 0, 0, 0, 0, 0, 0, 0, 0, 0, 0, 0, 0, 0, 0, 0, 0,
];

/// Returns the item that a reader finds in `PACKET`.
fn zeros() -> Found<'static> {
    Found::Packet(Packet::Carry {
        seq: number(1),
        ack: number(0),
        k: 1,
        message: &[0; 32],
    })
}

/// Pushes a piece, and drops the items found. Asserts that they are exactly these, and how many bytes then wait.
fn take_piece<A: Allocator>(
    rt: &impl Abort,
    reader: &mut Reader<A>,
    piece: &[u8],
    items: &[Found<'_>],
    waiting: usize,
) {
    assert_same(rt, reader.push(piece), piece.len());
    for item in items {
        assert_same(rt, reader.find(), Some(*item));
        // it is shown again
        assert_same(rt, reader.showing(), Some(*item));
        assert_so(rt, reader.search());
        reader.drop_found();
    }
    assert_same(rt, reader.find(), None);
    assert_same(rt, reader.waiting(), waiting);
}

/// Makes a reader, with memory for it.
fn reader(rt: &impl Abort, alloc: Global) -> Reader<Global> {
    Reader::new(alloc).expect(rt, "memory")
}

fn control(control: Control) -> Found<'static> {
    Found::Packet(Packet::Control(control))
}

fn take_pieces(rt: &impl Abort, reader: &mut Reader<Global>) {
    let init = control(Control::InitA(number(3)));
    let ready = control(Control::Rr(number(1)));
    take_piece(rt, reader, &FRONT, &[init], 2);
    take_piece(rt, reader, &HEADER, &[ready], 6);
    take_piece(rt, reader, &[0; 31], &[], 37);
    take_piece(rt, reader, &[0], &[zeros()], 0);
    take_piece(rt, reader, &BROKEN[..12], &[], 12);
    take_piece(rt, reader, &[0; 26], &[Found::Bad, ready], 0);
}

/// Pushes a byte. Asserts that nothing is found, and how many bytes then wait.
fn take_byte<A: Allocator>(rt: &impl Abort, reader: &mut Reader<A>, byte: u8, waiting: usize) {
    take_piece(rt, reader, &[byte], &[], waiting);
}

/// Pushes these bytes one by one. Asserts that the items are found with the last one, and not before.
fn take_bytes<A: Allocator>(
    rt: &impl Abort,
    reader: &mut Reader<A>,
    bytes: &[u8; 38],
    items: &[Found<'_>],
) {
    for (waiting, byte) in bytes[..37].iter().enumerate() {
        take_byte(rt, reader, *byte, waiting.saturating_add(1));
    }
    take_piece(rt, reader, &bytes[37..], items, 0);
}

/// Pushes the packet in two pieces, the first of which has `cut` bytes.
fn take_cut<A: Allocator>(rt: &impl Abort, reader: &mut Reader<A>, cut: usize) {
    let (front, rest) = PACKET.split_at(cut.min(38));
    take_piece(rt, reader, front, &[], cut);
    take_piece(rt, reader, rest, &[zeros()], 0);
}

/// Pushes the packet in two pieces, cut at each of its places in turn.
fn take_cuts<A: Allocator>(rt: &impl Abort, reader: &mut Reader<A>) {
    for cut in 1..38 {
        take_cut(rt, reader, cut);
    }
}

#[test]
fn finds_a_packet_however_it_is_cut(rt: HostRuntime) {
    let mut reader = reader(&rt, rt.alloc());
    take_piece(&rt, &mut reader, &PACKET, &[zeros()], 0);
    take_bytes(&rt, &mut reader, &PACKET, &[zeros()]);
    take_cuts(&rt, &mut reader);
    let ready = control(Control::Rr(number(1)));
    take_bytes(&rt, &mut reader, &BROKEN, &[Found::Bad, ready]);
}

#[test]
fn finds_what_comes_in_pieces(rt: HostRuntime) {
    let mut reader = reader(&rt, rt.alloc());
    take_pieces(&rt, &mut reader);
}

/// Asserts that as many bytes are accepted as there is room for, and that noise bytes give room again.
fn fill<A: Allocator>(rt: &impl Abort, reader: &mut Reader<A>) {
    assert_same(rt, reader.push(&[0x10; READER_SIZE]), READER_SIZE);
    assert_same(rt, reader.push(&[0x10]), 0);
    assert_same(rt, reader.find(), None);
    assert_same(rt, reader.push(&[0x10; READER_SIZE]), READER_SIZE - 5);
    reader.clear();
    assert_same(rt, reader.waiting(), 0);
}

/// Fills a reader with 107 packets and the front of one more, and asserts that it holds no more.
fn fill_with_packets<A: Allocator>(rt: &impl Abort, reader: &mut Reader<A>) {
    for _ in 0..107 {
        assert_same(rt, reader.push(&PACKET), 38);
    }
    assert_same(rt, reader.push(&PACKET), 36);
}

/// Drops the whole ones of these packets.
fn drop_packets<A: Allocator>(rt: &impl Abort, reader: &mut Reader<A>) {
    for _ in 0..107 {
        assert_so(rt, reader.search());
        reader.drop_found();
    }
    assert_same(rt, reader.find(), None);
    assert_same(rt, reader.waiting(), 36);
}

#[test]
fn finds_a_packet_across_the_end(rt: HostRuntime) {
    let mut reader = reader(&rt, rt.alloc());
    fill_with_packets(&rt, &mut reader);
    drop_packets(&rt, &mut reader);
    take_piece(&rt, &mut reader, &PACKET[36..], &[zeros()], 0);
}

// a reader that takes memory for more than itself
#[test]
fn is_full_at_the_longest_packet(rt: HostRuntime) {
    let heap = Refusing::new(rt.alloc(), 1);
    assert_so(&rt, Reader::new(&heap).is_err());
    let mut reader = Reader::new(&heap).expect(&rt, "memory");
    fill(&rt, &mut reader);
    drop(reader);
    // the one refused, and the other
    assert_same(&rt, heap.requests(), 2);
}
