//! Tests of a detailed scan beyond the clauses: streams from outside with their listings, lines that go out before the
//! next read, faults and the limit in mid-stream, and running out of memory.

use crate::assertions::{assert_same, assert_same_at, assert_so_at};
use crate::streams::{SlowInput, SlowOutput};
use std::alloc::Global;
use std::process::Abort;
use std::test::Fail;
use uug_scan::{READ_LIMIT, scan_detailed};
use uug_stream::{Input, MemoryInput, MemoryOutput, Output, ToolFault, WriteFailed};
use uug_test_alloc::Refusing;

/// Streams: the first bytes, the byte that fills it up and to how many, and the bytes after these; and the detailed
/// listing.
const STREAMS: [(&[u8], u8, usize, &[u8], &str); 15] = [
    // a greeting, and the start-up of a link
    (
        b"\x10Shere=b\x00\x10Sa\x00\x10ROK\x00\x10Pg\x00",
        0,
        0,
        b"\x10\x09o\xaa;\xf7",
        "TEXT Shere=b AT 0 LENGTH 9\nTEXT Sa AT 9 LENGTH 4\nTEXT ROK AT 13 LENGTH 5\nTEXT Pg AT 18 LENGTH 4\nINITA 3 AT 22 LENGTH 6\nREST 0 AT 28 LENGTH 0\n",
    ),
    // a text that a line feed ends, one that begins anew, and noise
    (
        b"login: \x0d\x0a\x10Shere\x0a\x10R\x10ROKN\x00",
        0,
        0,
        b"\x00\x00\x10\x09o\xaa;\xf7",
        "NOISE 9 AT 0 LENGTH 9\nTEXT Shere AT 9 LENGTH 7\nNOISE 2 AT 16 LENGTH 2\nTEXT ROKN AT 18 LENGTH 6\nNOISE 2 AT 24 LENGTH 2\nINITA 3 AT 26 LENGTH 6\nREST 0 AT 32 LENGTH 0\n",
    ),
    // bytes that can't be seen
    (
        b"\x10S \\<\x7f\x0d\xff~\x01\x00",
        0,
        0,
        b"......",
        "TEXT S \\x5c<\\x7f\\x0d\\xff~\\x01 AT 0 LENGTH 11\nNOISE 6 AT 11 LENGTH 6\nREST 0 AT 17 LENGTH 0\n",
    ),
    // texts of no byte and one
    (
        b"\x10\x00\x10\x0a\x10a\x00",
        0,
        0,
        b"......",
        "TEXT  AT 0 LENGTH 2\nTEXT  AT 2 LENGTH 2\nTEXT a AT 4 LENGTH 3\nNOISE 6 AT 7 LENGTH 6\nREST 0 AT 13 LENGTH 0\n",
    ),
    // a text that a packet cuts
    (
        b"\x10ab",
        0,
        0,
        b"\x10\x09o\xaa;\xf7c\x00......",
        "NOISE 3 AT 0 LENGTH 3\nINITA 3 AT 3 LENGTH 6\nNOISE 8 AT 9 LENGTH 8\nREST 0 AT 17 LENGTH 0\n",
    ),
    // a text that is too long
    (
        b"\x10",
        0x61,
        258,
        b"\x00\x10\x09o\xaa;\xf7",
        "NOISE 259 AT 0 LENGTH 259\nINITA 3 AT 259 LENGTH 6\nREST 0 AT 265 LENGTH 0\n",
    ),
    // a control packet with a wrong checksum
    (
        b"xx\x10\x09p\xaa;\xe8",
        0,
        0,
        b"\x10\x09o\xaa;\xf7",
        "NOISE 2 AT 0 LENGTH 2\nCONTROL BAD checksum AT 2 LENGTH 1\nNOISE 5 AT 3 LENGTH 5\nINITA 3 AT 8 LENGTH 6\nREST 0 AT 14 LENGTH 0\n",
    ),
    // data packets: whole, with a wrong length, with a wrong checksum, and with a packet in its field
    (
        b"\x10\x01\x0d:\x88\xbe",
        0,
        38,
        b"",
        "DATA 1 ACK 0 SIZE 32 VALID 32 AT 0 LENGTH 38\nREST 0 AT 38 LENGTH 0\n",
    ),
    (
        b"\x10\x01\xcd9\xc8=",
        0,
        38,
        b"",
        "BAD length AT 0 LENGTH 1\nNOISE 37 AT 1 LENGTH 37\nREST 0 AT 38 LENGTH 0\n",
    ),
    (
        b"\x10\x01\x0e:\x88\xbd",
        0,
        38,
        b"",
        "BAD checksum AT 0 LENGTH 1\nNOISE 37 AT 1 LENGTH 37\nREST 0 AT 38 LENGTH 0\n",
    ),
    (
        b"\x10\x01\x96j\x88u\x10\x09\x89\xaa!\x0b",
        0,
        38,
        b"",
        "BAD checksum AT 0 LENGTH 1\nNOISE 5 AT 1 LENGTH 5\nRR 1 AT 6 LENGTH 6\nNOISE 26 AT 12 LENGTH 26\nREST 0 AT 38 LENGTH 0\n",
    ),
    // the header of the largest packet waits
    (
        b"\x10\x08\x00\x00\x88\x80\x10\x09o\xaa;\xf7",
        0,
        12,
        b"",
        "REST 12 AT 0 LENGTH 12\n",
    ),
    // nothing, and much of one byte
    (b"", 0, 0, b"", "REST 0 AT 0 LENGTH 0\n"),
    (
        b"",
        0x10,
        1000,
        b"",
        "NOISE 995 AT 0 LENGTH 995\nREST 5 AT 995 LENGTH 5\n",
    ),
    (
        b"",
        0,
        5000,
        b"",
        "NOISE 5000 AT 0 LENGTH 5000\nREST 0 AT 5000 LENGTH 0\n",
    ),
];

/// A text, noise, and a packet.
const LINE: &[u8] = b"\x10Sa\0......\x10\x09\x6f\xaa\x3b\xf7";

fn check_listing(rt: &impl Abort, alloc: Global, bytes: &[u8], most: usize, listing: &str) {
    let mut input = in_pieces(bytes, most, u32::MAX);
    let mut output = MemoryOutput::new(alloc);
    let result = scan_detailed(alloc, &mut input, &mut output, READ_LIMIT);
    assert_same(rt, result, Ok(()));
    assert_same(rt, output.bytes(), listing.as_bytes());
    assert_same(rt, input.bytes.len(), 0);
}

fn stream_of(
    alloc: Global,
    front: &[u8],
    fill: u8,
    length: usize,
    behind: &[u8],
) -> Result<Vec<u8, Global>, Fail> {
    let mut bytes = Vec::from_slice(alloc, front)?;
    bytes.resize(length.max(front.len()), fill)?;
    bytes.extend_from_slice(behind)?;
    Ok(bytes)
}

fn check_in_pieces(rt: &impl Abort, alloc: Global, bytes: &[u8], listing: &str) {
    for most in [1, 7, 5000] {
        check_listing(rt, alloc, bytes, most, listing);
    }
}

#[test]
fn lists_streams_in_detail(rt: HostRuntime) -> Result<(), Fail> {
    for (front, fill, length, behind, listing) in STREAMS {
        let bytes = stream_of(rt.alloc(), front, fill, length, behind)?;
        check_in_pieces(&rt, rt.alloc(), &bytes, listing);
    }
    Ok(())
}

/// Returns an input of these bytes, at most `most` a read, of which the read after `reads` others fails.
fn in_pieces(bytes: &[u8], most: usize, reads: u32) -> SlowInput<'_> {
    SlowInput {
        bytes,
        most,
        reads,
        faults: 0,
    }
}

// A row has the reads that an input grants and the limit, then the error, the reads that are left, and what has gone
// out.
#[test]
fn lists_each_read_before_the_next(rt: HostRuntime) {
    for (reads, limit, fault, left, listing) in [
        (1, 100, ToolFault::Read, 0, "TEXT Sa AT 0 LENGTH 4\n"),
        (
            100,
            2,
            ToolFault::Device,
            98,
            "TEXT Sa AT 0 LENGTH 4\nNOISE 6 AT 4 LENGTH 6\nINITA 3 AT 10 LENGTH 6\n",
        ),
        (0, 100, ToolFault::Read, 0, ""),
    ] {
        let mut input = in_pieces(LINE, 8, reads);
        let mut output = MemoryOutput::new(rt.alloc());
        let result = scan_detailed(rt.alloc(), &mut input, &mut output, limit);
        assert_same(&rt, result, Err(fault));
        assert_same_at(&rt, input.reads, left, limit);
        assert_same(&rt, output.bytes(), listing.as_bytes());
    }
}

/// Lets each read in turn fail. Returns the number of reads that the scan of the line takes.
fn reads_of_a_scan(rt: &(impl Abort + AllocGlobal)) -> Result<u32, Fail> {
    for reads in 0..100 {
        let mut input = in_pieces(LINE, 4, reads);
        let mut output = MemoryOutput::new(rt.alloc());
        let result = scan_detailed(rt.alloc(), &mut input, &mut output, READ_LIMIT);
        if input.faults() == 0 {
            assert_same(rt, result, Ok(()));
            return Ok(reads);
        }
        assert_same_at(rt, result, Err(ToolFault::Read), reads);
        assert_same_at(rt, input.faults(), 1, reads);
    }
    Err("a scan that is never done".into())
}

/// Refuses each write in turn. Returns the number of writes that the scan of the line takes.
fn writes_of_a_scan(
    rt: &(impl Abort + AllocGlobal),
    refusal: WriteFailed,
    fault: ToolFault,
) -> Result<u32, Fail> {
    for writes in 0..100 {
        let mut output = SlowOutput {
            most: 100,
            writes,
            refusal,
            refused: 0,
            faults: 0,
        };
        let result = scan_detailed(
            rt.alloc(),
            &mut in_pieces(LINE, 4, 100),
            &mut output,
            READ_LIMIT,
        );
        if output.refused == 0 {
            assert_same(rt, result, Ok(()));
            return Ok(writes);
        }
        assert_same_at(rt, result, Err(fault), writes);
    }
    Err("a scan that is never done".into())
}

// The scan takes four pieces, and the read that finds the end. The text, and noise with the packet, go out at once; and
// the last line.
#[test]
fn stops_at_each_fault(rt: HostRuntime) -> Result<(), Fail> {
    assert_same(&rt, reads_of_a_scan(&rt)?, 5);
    assert_same(
        &rt,
        writes_of_a_scan(&rt, WriteFailed::Device, ToolFault::Write)?,
        3,
    );
    assert_same(
        &rt,
        writes_of_a_scan(&rt, WriteFailed::Memory, ToolFault::Memory)?,
        3,
    );
    Ok(())
}

/// Refuses each request of a scan in turn: for the bytes that are held, the lines and the output. Returns their number.
fn requests_of_a_scan(rt: &impl Abort, alloc: Global) -> Result<u64, Fail> {
    for nth in 1..100 {
        let heap = Refusing::new(alloc, nth);
        let mut output = MemoryOutput::new(&heap);
        let result = scan_detailed(&heap, &mut MemoryInput::new(LINE), &mut output, READ_LIMIT);
        if !heap.was_refused() {
            assert_same(rt, result, Ok(()));
            return Ok(nth - 1);
        }
        assert_same(rt, result, Err(ToolFault::Memory));
        assert_same_at(rt, heap.requests(), nth, "each request is the last");
    }
    Err("a scan that is never done".into())
}

#[test]
fn passes_on_want_of_memory(rt: HostRuntime) -> Result<(), Fail> {
    let requests = requests_of_a_scan(&rt, rt.alloc())?;
    assert_so_at(&rt, requests >= 3, "what is held, lines and an output");
    Ok(())
}
