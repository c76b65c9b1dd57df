//! Tests of a scan beyond the clauses: streams from outside with their listings, lines that go out before the next
//! read, faults and the limit in mid-stream, and running out of memory.

use crate::assertions::{assert_same, assert_same_at, assert_so_at};
use crate::streams::{SlowInput, SlowOutput};
use std::alloc::Global;
use std::fmt::Display;
use std::process::Abort;
use std::test::Fail;
use uug_scan::{scan_stream, scan_within};
use uug_stream::{Input, MemoryInput, MemoryOutput, Output, ReadFailed, ToolFault, WriteFailed};
use uug_test_alloc::Refusing;

/// The packets of a start-up with windows of three and size 64, and of the link after it.
const LINK: [u8; 42] = [
    0x10, 0x09, 0x6f, 0xaa, 0x3b, 0xf7, 0x10, 0x09, 0x79, 0xaa, 0x31, 0xeb, 0x10, 0x09, 0x7f, 0xaa,
    0x2b, 0xf7, 0x10, 0x09, 0x89, 0xaa, 0x21, 0x0b, 0x10, 0x09, 0x98, 0xaa, 0x12, 0x29, 0x10, 0x09,
    0x90, 0xaa, 0x1a, 0x29, 0x10, 0x09, 0xa2, 0xaa, 0x08, 0x09,
];

/// Streams: the first bytes, the byte that fills it up, the number of bytes then, and the listing.
const STREAMS: [(&[u8], u8, usize, &str); 15] = [
    (
        &LINK,
        0,
        42,
        "INITA 3\nINITB 64\nINITC 3\nRR 1\nRJ 2\nSRJ 2\nCLOSE\nREST 0\n",
    ),
    (&[], 0, 0, "REST 0\n"),
    // CLOSE with another number beside it
    (
        &[0x10, 0x09, 0x9d, 0xaa, 0x0d, 0x33],
        0,
        6,
        "CLOSE\nREST 0\n",
    ),
    (
        &[0x10, 0x09, 0x72, 0xaa, 0x38, 0xe9],
        0,
        6,
        "INITA 0\nREST 0\n",
    ),
    (
        &[0x10, 0x10, 0x09, 0x6f, 0xaa, 0x3b, 0xf7],
        0,
        7,
        "INITA 3\nREST 0\n",
    ),
    (&[0x10, 0x09], 0, 2, "REST 2\n"),
    (
        &[0x10, 0x01, 0x0d, 0x3a, 0x88, 0xbe],
        0,
        38,
        "DATA 1 ACK 0 SIZE 32 VALID 32\nREST 0\n",
    ),
    (
        &[0x10, 0x01, 0x9a, 0x0e, 0xd1, 0x44, 0x20],
        0,
        38,
        "DATA 2 ACK 1 SIZE 32 VALID 0\nREST 0\n",
    ),
    (
        &[0x10, 0x01, 0xcd, 0x39, 0xc8, 0x3d],
        0,
        38,
        "BAD\nREST 0\n",
    ),
    (&[0x10, 0x01, 0x0d, 0x3a, 0x88, 0xbf], 0, 38, "REST 0\n"),
    (
        &[0x10, 0x01, 0x0e, 0x3a, 0x88, 0xbd],
        0,
        38,
        "BAD\nREST 0\n",
    ),
    (&[0x10, 0x01, 0x0d, 0x3a, 0x88, 0xbe], 0, 37, "REST 37\n"),
    // a data packet whose checksum is one too high, and in its field what reads as a packet
    (
        &[
            0x10, 0x01, 0x96, 0x6a, 0x88, 0x75, 0x10, 0x09, 0x89, 0xaa, 0x21, 0x0b,
        ],
        0,
        38,
        "BAD\nRR 1\nREST 0\n",
    ),
    (
        &[
            0x10, 0x08, 0x00, 0x00, 0x88, 0x80, 0x10, 0x09, 0x6f, 0xaa, 0x3b, 0xf7,
        ],
        0,
        12,
        "REST 12\n",
    ),
    // no K is 0x10: what waits is what is shorter than a header
    (&[], 0x10, 1000, "REST 5\n"),
];

#[test]
fn lists_streams(rt: HostRuntime) -> Result<(), Fail> {
    for (front, fill, length, listing) in STREAMS {
        let mut bytes = Vec::from_slice(rt.alloc(), front)?;
        bytes.resize(length, fill)?;
        let mut input = MemoryInput::new(&bytes);
        let mut output = MemoryOutput::new(rt.alloc());
        scan_stream(rt.alloc(), &mut input, &mut output)?;
        assert_same(&rt, output.bytes(), listing.as_bytes());
        assert_same(&rt, input.bytes().len(), 0);
        assert_same(&rt, (input.faults(), output.faults()), (0, 0));
    }
    Ok(())
}

/// Short packets of all eight sizes, up to the end of their messages, and their lengths: zeros follow. Up to 127
/// missing bytes are written in one byte and in two.
const SHORT_PACKETS: [(&[u8], usize); 11] = [
    (&[0x10, 0x01, 0xa1, 0x0e, 0xc8, 0x66, 0x20], 38),
    (&[0x10, 0x01, 0x38, 0xd0, 0xd0, 0x39, 0xa0, 0x00], 38),
    (b"\x10\x02\x98\x0a\xd8\x48\x3eab", 70),
    (b"\x10\x02\x67\x6d\xe0\xe8\xbe\x00ab", 70),
    (b"\x10\x03\xa9\x28\xe9\x6b\x7dabc", 134),
    (b"\x10\x03\xba\x89\xf1\xc1\xfd\x00abc", 134),
    (&[0x10, 0x04, 0x17, 0x13, 0xfa, 0xfa, 0x80, 0x02], 262),
    (b"\x10\x05\xb8\x8a\xc2\xf5\xff\x03x", 518),
    (b"\x10\x06\x79\x7d\xcb\xc9\xff\x07x", 1030),
    (b"\x10\x07\x86\x9f\xd3\xcd\xff\x0fx", 2054),
    (b"\x10\x08\x40\xed\xdc\x79\xff\x1fx", 4102),
];

const LISTING_OF_SHORT_PACKETS: &str = "\
DATA 1 ACK 0 SIZE 32 VALID 0
DATA 2 ACK 0 SIZE 32 VALID 0
DATA 3 ACK 0 SIZE 64 VALID 2
DATA 4 ACK 0 SIZE 64 VALID 2
DATA 5 ACK 1 SIZE 128 VALID 3
DATA 6 ACK 1 SIZE 128 VALID 3
DATA 7 ACK 2 SIZE 256 VALID 0
DATA 0 ACK 2 SIZE 512 VALID 1
DATA 1 ACK 3 SIZE 1024 VALID 1
DATA 2 ACK 3 SIZE 2048 VALID 1
DATA 3 ACK 4 SIZE 4096 VALID 1
REST 0
";

#[test]
fn lists_short_packets_of_all_sizes(rt: HostRuntime) -> Result<(), Fail> {
    let mut bytes = Vec::new(rt.alloc());
    let mut length = 0_usize;
    for (front, size) in SHORT_PACKETS {
        bytes.extend_from_slice(front)?;
        length = length.saturating_add(size);
        bytes.resize(length, 0)?;
    }
    let mut output = MemoryOutput::new(rt.alloc());
    scan_stream(rt.alloc(), &mut MemoryInput::new(&bytes), &mut output)?;
    assert_same(&rt, output.bytes(), LISTING_OF_SHORT_PACKETS.as_bytes());
    Ok(())
}

/// Returns an input of the link, a packet a read, of which the read after `reads` others fails.
fn link_in_reads(reads: u32) -> SlowInput<'static> {
    SlowInput {
        bytes: &LINK,
        most: 6,
        reads,
        faults: 0,
    }
}

// A row has the reads that an input grants and the limit, then the error, the reads that are left, and what has gone
// out.
#[test]
fn lists_each_read_before_the_next(rt: HostRuntime) {
    for (reads, limit, fault, left, listing) in [
        (2, 100, ToolFault::Read, 0, "INITA 3\nINITB 64\n"),
        (
            100,
            3,
            ToolFault::Device,
            97,
            "INITA 3\nINITB 64\nINITC 3\n",
        ),
        (0, 100, ToolFault::Read, 0, ""),
    ] {
        let mut input = link_in_reads(reads);
        let mut output = MemoryOutput::new(rt.alloc());
        let result = scan_within(rt.alloc(), &mut input, &mut output, limit);
        assert_same(&rt, result, Err(fault));
        assert_same_at(&rt, input.reads, left, limit);
        assert_same(&rt, output.bytes(), listing.as_bytes());
    }
}

/// Lets each read of the link fail in turn. Returns the number of reads that its scan takes.
fn reads_of_a_scan(rt: &(impl Abort + AllocGlobal)) -> Result<u32, Fail> {
    for reads in 0..100 {
        let mut input = link_in_reads(reads);
        let mut output = MemoryOutput::new(rt.alloc());
        let result = scan_stream(rt.alloc(), &mut input, &mut output);
        if input.faults() == 0 {
            assert_same(rt, result, Ok(()));
            return Ok(reads);
        }
        assert_same_at(rt, result, Err(ToolFault::Read), reads);
        assert_same_at(rt, input.faults(), 1, "read on");
    }
    Err("a scan that is never done".into())
}

/// Refuses each write of the link's listing in turn. Returns the number of writes that its scan takes.
fn writes_of_a_scan(
    rt: &(impl Abort + AllocGlobal),
    refusal: WriteFailed,
    fault: ToolFault,
) -> Result<u32, Fail> {
    for writes in 0..100 {
        let mut input = link_in_reads(100);
        let mut output = SlowOutput {
            most: 100,
            writes,
            refusal,
            refused: 0,
            faults: 0,
        };
        let result = scan_stream(rt.alloc(), &mut input, &mut output);
        if output.refused == 0 {
            assert_same(rt, result, Ok(()));
            return Ok(writes);
        }
        assert_same_at(rt, result, Err(fault), writes);
        assert_same_at(rt, input.reads, 99 - writes, "went on");
    }
    Err("a scan that is never done".into())
}

// Seven packets, one a read, whose lines go out before the next; then the read that finds the end, and the last line.
#[test]
fn stops_at_each_fault(rt: HostRuntime) -> Result<(), Fail> {
    assert_same(&rt, reads_of_a_scan(&rt)?, 8);
    assert_same(
        &rt,
        writes_of_a_scan(&rt, WriteFailed::Device, ToolFault::Write)?,
        8,
    );
    assert_same(
        &rt,
        writes_of_a_scan(&rt, WriteFailed::Memory, ToolFault::Memory)?,
        8,
    );
    Ok(())
}

#[test]
fn makes_a_refused_write_good(rt: HostRuntime) {
    let heap = Refusing::new(rt.alloc(), 0);
    let mut output = MemoryOutput::new(&heap);
    assert_same(&rt, output.write(b"REST"), Ok(4));
    heap.refuse(1);
    assert_same(&rt, output.write(&[0x20; 300]), Err(WriteFailed::Memory));
    assert_same(&rt, output.bytes(), b"REST".as_slice());
    assert_same(&rt, output.write(&[0x20; 300]), Ok(300));
    assert_same(&rt, output.bytes().len(), 304);
}

/// Refuses each request of a scan in turn: the reader's, the lines' and the output's. Returns their number.
fn requests_of_a_scan(rt: &impl Abort, alloc: Global) -> Result<u64, Fail> {
    for nth in 1..100 {
        let heap = Refusing::new(alloc, nth);
        let mut output = MemoryOutput::new(&heap);
        let result = scan_stream(&heap, &mut MemoryInput::new(&LINK), &mut output);
        if !heap.was_refused() {
            assert_same(rt, result, Ok(()));
            return Ok(nth - 1);
        }
        assert_same(rt, result, Err(ToolFault::Memory));
        assert_same_at(rt, heap.requests(), nth, nth);
    }
    Err("a scan that is never done".into())
}

#[test]
fn passes_on_want_of_memory(rt: HostRuntime) -> Result<(), Fail> {
    let requests = requests_of_a_scan(&rt, rt.alloc())?;
    assert_so_at(&rt, requests >= 3, "a reader, lines and an output");
    Ok(())
}

/// Asserts that the text of what is shown is this one.
fn reads_as(
    rt: &(impl Abort + AllocGlobal),
    shown: &impl Display,
    expected: &str,
) -> Result<(), Fail> {
    let text = shown.to_string(rt.alloc())?;
    assert_same(rt, text.as_str(), expected);
    Ok(())
}

#[test]
fn says_what_failed(rt: HostRuntime) -> Result<(), Fail> {
    reads_as(&rt, &ReadFailed, "device fault")?;
    reads_as(&rt, &WriteFailed::Device, "device fault")?;
    reads_as(&rt, &WriteFailed::Memory, "out of memory")
}

// A row has a fault, the program's status, and the text on standard error.
#[test]
fn says_why_a_tool_gave_up(rt: HostRuntime) -> Result<(), Fail> {
    for (fault, status, text) in [
        (ToolFault::Read, 3, "device fault"),
        (ToolFault::Write, 3, "device fault"),
        (ToolFault::Memory, 4, "out of memory"),
        (ToolFault::Script(7), 2, "bad script at line 7"),
        (ToolFault::Jobs(1), 2, "bad jobs at line 1"),
        (ToolFault::Device, 3, "device fault"),
        (ToolFault::Usage, 2, "bad usage"),
    ] {
        assert_same(&rt, fault.status(), status);
        reads_as(&rt, &fault, text)?;
    }
    Ok(())
}
