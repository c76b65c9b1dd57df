//! The packets that an end leaves out of what it writes. The clauses say which packets these are; these rows say how
//! many bytes are written then, and that a session ends well.

use super::scenes::{AMPLE, CLEAN, LIMITS, NEVER};
use super::scripted_line::ScriptedLine;
use super::telling::{CALLED, CALLER, assert_session};
use super::{
    JOB, MemoryEndAtLine, MemoryJobs, MemoryNode, MemoryText, jobs_file, name, queue, spool,
};
use crate::calls::assertions::{assert_same, assert_same_at};
use std::alloc::Global;
use std::process::Abort;
use uug_link::Announce;
use uug_session::{End, MemorySpool, Node, Phase, Place, Queue};
use uug_transfer::{BufferedNode, FaultInjector, SessionFault, Thinning, run_at_line};

/// The pieces that a called end writes until its caller has sent a whole window: its texts and its start-up, and then
/// RR 1 and the data packet 1 with SY.
const ACCEPTS: &[&[u8]] = &[
    b"\x10Shere=b\0",
    b"\x10ROK\0\x10Pg\0",
    // INITA 7
    b"\x10\x09k\xaa?\xf7",
];

/// INITB 32 and INITB 4096, which set the size of the caller's packets.
const SMALL: &[u8] = b"\x10\x09z\xaa0\xe9";

const LARGE: &[u8] = b"\x10\x09s\xaa7\xe7";

/// INITC 7; RR 1, and the data packet 1 with SY.
const BEGINS: &[&[u8]] = &[
    b"\x10\x09{\xaa/\xf7",
    b"\x10\x09\x89\xaa!\x0b\x10\x01P8\x89\xe0SY\0\0\0\0\0\0\0\0\0\0\0\0\0\0\0\0\0\0\0\0\0\0\0\0\0\0\0\0\0\0",
];

/// RJ 1.
const REJECT: &[u8] = b"\x10\x09\x99\xaa\x11\x2b";

/// The size of the caller's packets, the number of rejects that come at once, what is left out, and how many bytes are
/// to be written then. The window of seven data packets, of 38 bytes or 4,102, is sent again for each of them.
const STORMS: &[(&[u8], usize, Thinning, usize)] = &[
    (SMALL, 1, Thinning::Nothing, 266),
    (SMALL, 3, Thinning::Nothing, 798),
    (SMALL, 3, Thinning::Repeats, 266),
    (SMALL, 3, Thinning::RepeatsAndAcks, 266),
    (LARGE, 20, Thinning::Nothing, 574_280),
    (LARGE, 20, Thinning::Repeats, 28_714),
    // a whole piece of 4,096 bytes
    (LARGE, 682, Thinning::RepeatsAndAcks, 28_714),
];

fn place(rt: &impl Abort, me: &[u8], peer: &[u8], size: usize) -> Place {
    Place {
        me: name(rt, me),
        peer: name(rt, peer),
        announce: Announce::new(7, size).expect(rt, "a window and a size"),
        number: None,
    }
}

fn through(
    rt: &impl Abort,
    alloc: Global,
    node: MemoryNode,
    injector: FaultInjector,
) -> MemoryEndAtLine {
    BufferedNode::new(alloc, node, injector).expect(rt, "memory for a buffer")
}

/// Returns a caller that sends `x`, which has these bytes.
fn caller(
    rt: &impl Abort,
    alloc: Global,
    bytes: &[u8],
    size: usize,
    injector: FaultInjector,
) -> MemoryEndAtLine {
    let place = place(rt, b"a", b"b", size);
    let made = Node::caller(alloc, place, queue(rt, alloc), spool(rt, alloc, bytes));
    through(rt, alloc, made.expect(rt, "an end"), injector)
}

fn called(rt: &impl Abort, alloc: Global, injector: FaultInjector) -> MemoryEndAtLine {
    let place = place(rt, b"b", b"a", 32);
    let made = Node::called(alloc, place, Queue::new(alloc), MemorySpool::new(alloc));
    through(rt, alloc, made.expect(rt, "an end"), injector)
}

/// Passes these bytes to an end, after all that it had to write is written.
fn hear(rt: &impl Abort, buffered: &mut MemoryEndAtLine, piece: &[u8]) {
    let count = buffered.outgoing().len();
    buffered.written(count);
    buffered
        .arrive(piece)
        .expect(rt, "memory for what is emitted");
}

fn hear_all(rt: &impl Abort, buffered: &mut MemoryEndAtLine, pieces: &[&[u8]]) {
    for piece in pieces {
        hear(rt, buffered, piece);
    }
}

/// Returns these bytes, `count` times.
fn repeated(rt: &impl Abort, alloc: Global, bytes: &[u8], count: usize) -> Vec<u8> {
    let mut all = Vec::new(alloc);
    for _ in 0..count {
        all.extend_from_slice(bytes).expect(rt, "memory");
    }
    all
}

/// Returns how many bytes a caller has to write after this many rejects have come at once.
fn bytes_behind(
    rt: &impl Abort,
    alloc: Global,
    size: &[u8],
    rejects: usize,
    thinning: Thinning,
) -> usize {
    let file = repeated(rt, alloc, &[97; 64], 512);
    let injector = FaultInjector::without_faults(thinning);
    let mut buffered = caller(rt, alloc, file.as_slice(), 32, injector);
    drop(file);
    let rejects = repeated(rt, alloc, REJECT, rejects);
    hear_all(rt, &mut buffered, ACCEPTS);
    hear(rt, &mut buffered, size);
    hear_all(rt, &mut buffered, BEGINS);
    hear(rt, &mut buffered, rejects.as_slice());
    drop(rejects);
    let count = buffered.outgoing().len();
    drop(buffered);
    count
}

/// Checks all of the table.
#[test]
fn what_is_sent_again_waits_once(rt: HostRuntime) {
    for (place, (size, rejects, thinning, expected)) in STORMS.iter().enumerate() {
        let seen = bytes_behind(&rt, rt.alloc(), size, *rejects, *thinning);
        assert_same_at(&rt, seen, *expected, place);
    }
}

/// RR 3 and RJ 3: the packet 4 is lost, and the window of the packets 4 to 2 goes out, of which two for the first time.
const LOST: &[u8] = b"\x10\x09\x87\xaa#\x07\x10\x09\x97\xaa\x13'";

/// The headers of these packets.
const IN_ORDER: &[&[u8]] = &[
    b"\x10\x01j\xae\xa1d",
    b"\x10\x01b\xae\xa9d",
    b"\x10\x01Z\xae\xb1D",
    b"\x10\x01R\xae\xb9D",
    b"\x10\x01J\xae\x81d",
    b"\x10\x01B\xae\x89d",
    b"\x10\x01:\xae\x91\x04",
];

/// Returns the packets with these headers, of fields of 32 bytes.
fn in_order(rt: &impl Abort, alloc: Global) -> Vec<u8> {
    let mut bytes = Vec::new(alloc);
    for header in IN_ORDER {
        bytes.extend_from_slice(header).expect(rt, "memory");
        bytes.extend_from_slice(&[97; 32]).expect(rt, "memory");
    }
    bytes
}

#[test]
fn what_is_sent_again_goes_in_the_order_of_its_numbers(rt: HostRuntime) {
    let alloc = rt.alloc();
    let file = repeated(&rt, alloc, &[97; 64], 512);
    let injector = FaultInjector::without_faults(Thinning::Repeats);
    let mut buffered = caller(&rt, alloc, file.as_slice(), 32, injector);
    drop(file);
    hear_all(&rt, &mut buffered, ACCEPTS);
    hear(&rt, &mut buffered, SMALL);
    hear_all(&rt, &mut buffered, BEGINS);
    hear(&rt, &mut buffered, LOST);
    let expected = in_order(&rt, alloc);
    assert_same(&rt, buffered.outgoing(), expected.as_slice());
    drop(expected);
    drop(buffered);
}

/// The bytes of a caller whose file comes in three data packets at once: RR 1, and the packets 2 to 4.
const THREE: &[u8] =
    b"\x10\x09\x89\xaa!\x0b\x10\x01\xc0*\xd1:\x1fh\0\0\0\0\0\0\0\0\0\0\0\0\0\0\0\0\0\0\0\0\0\0\0\0\0\0\0\0\0\0\x10\x01@\x14\xd9\x8c\x1fi\0\0\0\0\0\0\0\0\0\0\0\0\0\0\0\0\0\0\0\0\0\0\0\0\0\0\0\0\0\0\x10\x01\x8a\x0e\xe1d \0\0\0\0\0\0\0\0\0\0\0\0\0\0\0\0\0\0\0\0\0\0\0\0\0\0\0\0\0\0\0";

/// RR 2, and the data packet 5 with H.
const PARTS: &[u8] =
    b"\x10\x09\x88\xaa\x22\x09\x10\x01\xa0C\xaaHH\0\0\0\0\0\0\0\0\0\0\0\0\0\0\0\0\0\0\0\0\0\0\0\0\0\0\0\0\0\0\0";

/// RR 3, the data packet 6 with HY, and CLOSE.
const LEAVES: &[u8] =
    b"\x10\x09\x87\xaa#\x07\x10\x01\xb7'\xb3\x22HY\0\0\0\0\0\0\0\0\0\0\0\0\0\0\0\0\0\0\0\0\0\0\0\0\0\0\0\0\0\0\x10\x09\xa2\xaa\x08\x09";

/// The answer of a called end that acknowledges each packet: RR 2, RR 3, RR 4, and the data packet 2 with CY.
const EACH: &[u8] =
    b"\x10\x09\x88\xaa\x22\x09\x10\x09\x87\xaa#\x07\x10\x09\x86\xaa$\x01\x10\x01\xb7i\x94KCY\0\0\0\0\0\0\0\0\0\0\0\0\0\0\0\0\0\0\0\0\0\0\0\0\0\0\0\0\0\0";

/// RR 5, and the data packet 3 with HY.
const AGREES: &[u8] =
    b"\x10\x09\x85\xaa%\x03\x10\x01\xcd'\x9dvHY\0\0\0\0\0\0\0\0\0\0\0\0\0\0\0\0\0\0\0\0\0\0\0\0\0\0\0\0\0\0";

/// RR 6, CLOSE, and its final text.
const ENDS: &[u8] = b"\x10\x09\x84\xaa&\x01\x10\x09\xa2\xaa\x08\x09\x10OOOOOOO\0";

#[test]
fn each_packet_is_acknowledged_unless_acknowledgements_are_left_out(rt: HostRuntime) {
    let alloc = rt.alloc();
    let mut buffered = called(&rt, alloc, FaultInjector::without_faults(Thinning::Repeats));
    let mut brings = CALLER;
    brings[5] = THREE;
    brings[6] = PARTS;
    brings[7] = LEAVES;
    let mut takes = CALLED;
    takes[6] = EACH;
    takes[7] = AGREES;
    takes[8] = ENDS;
    assert_session(&rt, alloc, &mut buffered, &brings[..8], &takes);
    drop(buffered);
}

/// The data packet 1 with SY, the data packet 2 with CY, and the data packet 3 with HY, each without an RR before it.
const LETS: &[u8] =
    b"\x10\x01P8\x89\xe0SY\0\0\0\0\0\0\0\0\0\0\0\0\0\0\0\0\0\0\0\0\0\0\0\0\0\0\0\0\0\0";

const KEEPS: &[u8] =
    b"\x10\x01\xb7i\x94KCY\0\0\0\0\0\0\0\0\0\0\0\0\0\0\0\0\0\0\0\0\0\0\0\0\0\0\0\0\0\0";

const PARTS_TOO: &[u8] =
    b"\x10\x01\xcd'\x9dvHY\0\0\0\0\0\0\0\0\0\0\0\0\0\0\0\0\0\0\0\0\0\0\0\0\0\0\0\0\0\0";

#[test]
fn what_is_said_acknowledges_what_came(rt: HostRuntime) {
    let alloc = rt.alloc();
    let mut buffered = called(
        &rt,
        alloc,
        FaultInjector::without_faults(Thinning::RepeatsAndAcks),
    );
    let mut brings = CALLER;
    brings[5] = THREE;
    brings[6] = PARTS;
    brings[7] = LEAVES;
    let mut takes = CALLED;
    takes[5] = LETS;
    takes[6] = KEEPS;
    takes[7] = PARTS_TOO;
    takes[8] = ENDS;
    assert_session(&rt, alloc, &mut buffered, &brings[..8], &takes);
    drop(buffered);
}

/// RR 1, and the data packets 2 to 4, none of which ends the file.
const MIDDLE: &[u8] =
    b"\x10\x09\x89\xaa!\x0b\x10\x01\xc0*\xd1:\x1fh\0\0\0\0\0\0\0\0\0\0\0\0\0\0\0\0\0\0\0\0\0\0\0\0\0\0\0\0\0\0\x10\x01@\x14\xd9\x8c\x1fi\0\0\0\0\0\0\0\0\0\0\0\0\0\0\0\0\0\0\0\0\0\0\0\0\0\0\0\0\0\0\x10\x01\xc9\xe3\xe1\xca\x1f!\0\0\0\0\0\0\0\0\0\0\0\0\0\0\0\0\0\0\0\0\0\0\0\0\0\0\0\0\0\0";

/// RR 3 and RR 4, without an RR 2 before them.
const TWO: &[u8] = b"\x10\x09\x87\xaa#\x07\x10\x09\x86\xaa$\x01";

#[test]
fn two_acknowledgements_are_enough_for_what_came_at_once(rt: HostRuntime) {
    let alloc = rt.alloc();
    let injector = FaultInjector::without_faults(Thinning::RepeatsAndAcks);
    let mut buffered = called(&rt, alloc, injector);
    hear_all(&rt, &mut buffered, &CALLER[..5]);
    hear(&rt, &mut buffered, MIDDLE);
    assert_same(&rt, buffered.outgoing(), TWO);
    drop(buffered);
}

/// Every Nth packet that both ends lose, every Nth that they change, and what they leave out.
type Noise = (Option<u32>, Option<u32>, Thinning);

const NOISES: &[Noise] = &[
    (Some(10), None, Thinning::RepeatsAndAcks),
    (Some(11), None, Thinning::RepeatsAndAcks),
    (Some(12), None, Thinning::RepeatsAndAcks),
    (Some(10), Some(8), Thinning::RepeatsAndAcks),
    (Some(12), None, Thinning::Repeats),
];

fn noisy(rt: &impl Abort, (lost, changed, thinning): Noise) -> FaultInjector {
    let mut injector = FaultInjector::new(lost, changed).expect(rt, "numbers in range");
    injector.thinning = thinning;
    injector
}

/// Returns how a session with one job ends between two ends with this noise, how many jobs are struck then, and how
/// many files the other end has.
fn end_over(
    rt: &impl Abort,
    alloc: Global,
    noise: Noise,
) -> (Result<(), SessionFault>, Phase, usize, usize) {
    let mut buffered = caller(rt, alloc, &[97; 400], 32, noisy(rt, noise));
    let mut line = ScriptedLine::new(called(rt, alloc, noisy(rt, noise)), CLEAN);
    let mut jobs = jobs_file(rt, alloc, MemoryJobs::new(JOB, NEVER));
    let mut number = MemoryText::new(b"", false);
    let answer = run_at_line(
        alloc,
        &mut buffered,
        &mut jobs,
        &mut number,
        &mut line,
        AMPLE,
        LIMITS,
    );
    drop(jobs);
    let struck = buffered.node().queue().struck().len();
    let kept = line.other().node().spool().stored().len();
    let phase = buffered.node().phase();
    drop(line);
    drop(buffered);
    (answer, phase, struck, kept)
}

/// Checks all of the table: the job is done all the same.
#[test]
fn sessions_over_noisy_lines_are_done(rt: HostRuntime) {
    for (place, noise) in NOISES.iter().enumerate() {
        let seen = end_over(&rt, rt.alloc(), *noise);
        let done = (Ok(()), Phase::Ended(End::Done), 1, 1);
        assert_same_at(&rt, seen, done, place);
    }
}
