//! A whole session at lines that expose what they have brought and taken, of one end and then of the other. The clauses
//! say that a line has taken the first bytes of what its end had to write by what the line has brought. These tests
//! check which bytes these are, and that it is all of them. They were worked by hand from `docs/PROTOCOL.md`: what each
//! end writes to what the other wrote before.
ghost use Rattle.std.specs.Prelude.{◌≡◌, [], Some};
ghost use Rattle.uug_transfer.specs.BufferedNodes.{injector_in, node_in, spool_in, to_write};
ghost use Rattle.uug_transfer.specs.SessionFaults.{UnlessRefused};
ghost use Rattle.uug_transfer.specs.Writing.{TalksAtLine};

use super::memory_jobs::MemoryJobs;
use super::memory_text::MemoryText;
use super::numbers::{JOB, jobs_file};
use super::scenes::{AMPLE, LIMITS, NEVER};
use super::telling_host::TellingHost;
use super::telling_line::TellingLine;
use super::{MemoryEndAtLine, called, caller, name};
use crate::calls::assertions::{assert_same, assert_so};
use std::alloc::Global;
use std::process::Abort;
use uug_session::{End, MemorySpool, Phase, Spool};
use uug_transfer::{EndLine, SessionFault, run_at_line, run_session};

/// The pieces that the called end writes, with a window of 7 packets of 32 bytes: first, and then to each piece of the
/// caller's.
pub(super) const CALLED: [&[u8]; 9] = [
    // its name
    b"\x10Shere=b\0",
    // it lets the caller in, and offers the protocol `g`
    b"\x10ROK\0\x10Pg\0",
    // INITA 7
    b"\x10\x09k\xaa?\xf7",
    // INITB 32
    b"\x10\x09z\xaa0\xe9",
    // INITC 7
    b"\x10\x09{\xaa/\xf7",
    // RR 1, and the data packet 1 with SY
    b"\x10\x09\x89\xaa!\x0b\x10\x01P8\x89\xe0SY\0\0\0\0\0\0\0\0\0\0\0\0\0\0\0\0\0\0\0\0\0\0\0\0\0\0\0\0\0\0",
    // RR 2, RR 3, and the data packet 2 with CY
    b"\x10\x09\x88\xaa\x22\x09\x10\x09\x87\xaa#\x07\x10\x01\xb6i\x93MCY\0\0\0\0\0\0\0\0\0\0\0\0\0\0\0\0\0\0\0\0\0\0\0\0\0\0\0\0\0\0",
    // RR 4, and the data packet 3 with HY
    b"\x10\x09\x86\xaa$\x01\x10\x01\xce'\x9ctHY\0\0\0\0\0\0\0\0\0\0\0\0\0\0\0\0\0\0\0\0\0\0\0\0\0\0\0\0\0\0",
    // RR 5, CLOSE, and its final text
    b"\x10\x09\x85\xaa%\x03\x10\x09\xa2\xaa\x08\x09\x10OOOOOOO\0",
];

/// The pieces that the caller writes to each of the called end's. It sends `x`, which has the bytes `hi`, as `y`.
pub(super) const CALLER: [&[u8]; 9] = [
    // its name
    b"\x10Sa\0",
    // the protocol, and INITA 7
    b"\x10Ug\0\x10\x09k\xaa?\xf7",
    // INITB 32
    b"\x10\x09z\xaa0\xe9",
    // INITC 7
    b"\x10\x09{\xaa/\xf7",
    // the data packet 1 with its command
    b"\x10\x01&\xba\x88\x15S x y u - D.0 0644\0\0\0\0\0\0\0\0\0\0\0\0\0\0",
    // RR 1, and the data packets 2 and 3: the file, and the empty message that ends it
    b"\x10\x09\x89\xaa!\x0b\x10\x01Y\x8f\xd1\x06\x1ehi\0\0\0\0\0\0\0\0\0\0\0\0\0\0\0\0\0\0\0\0\0\0\0\0\0\0\0\0\0\x10\x01\x92\x0e\xd9D \0\0\0\0\0\0\0\0\0\0\0\0\0\0\0\0\0\0\0\0\0\0\0\0\0\0\0\0\0\0\0",
    // RR 2, and the data packet 4 with H
    b"\x10\x09\x88\xaa\x22\x09\x10\x01\xa8C\xa2HH\0\0\0\0\0\0\0\0\0\0\0\0\0\0\0\0\0\0\0\0\0\0\0\0\0\0\0\0\0\0\0",
    // RR 3, the data packet 5 with HY, and CLOSE
    b"\x10\x09\x87\xaa#\x07\x10\x01\xbf'\xab2HY\0\0\0\0\0\0\0\0\0\0\0\0\0\0\0\0\0\0\0\0\0\0\0\0\0\0\0\0\0\0\x10\x09\xa2\xaa\x08\x09",
    // its final text
    b"\x10OOOOOO\0",
];

/// Returns the pieces one after the other.
fn joined(rt: &impl Abort, alloc: Global, pieces: &[&[u8]]) -> Vec<u8> {
    let mut bytes = Vec::new(alloc);
    for piece in pieces {
        bytes.extend_from_slice(piece).expect(rt, "memory");
    }
    bytes
}

/// Runs the session of an end at its line.
fn talk<'a>(
    rt: &impl Abort,
    alloc: Global,
    buffered: &mut MemoryEndAtLine,
    line: &mut TellingLine<'a>,
) -> Result<(), SessionFault>
    ensures talked { (node_in buffered.old).engine.outbox.entries ≡ [] → UnlessRefused result
        (TalksAtLine (⟦<MemorySpool<Global> as Spool>⟧.holdings (spool_in buffered.old))
        (⟦<MemorySpool<Global> as Spool>⟧.kept (spool_in buffered.old))
        (⟦<MemorySpool<Global> as Spool>⟧.kept (spool_in buffered.new))
        (⟦<TellingLine<'a> as EndLine>⟧.received line.old)
        (⟦<TellingLine<'a> as EndLine>⟧.received line.new)
        (injector_in buffered.old) (to_write buffered.old)
        (Some line.old.taken.items) (Some line.new.taken.items)
        (node_in buffered.old) (node_in buffered.new)) }
{
    let mut jobs = jobs_file(rt, alloc, MemoryJobs::new(JOB, NEVER));
    let mut number = MemoryText::new(b"", false);
    let answer = run_at_line(alloc, buffered, &mut jobs, &mut number, line, AMPLE, LIMITS);
    drop(jobs);
    answer
}

/// Asserts that the session of an end is done whose line brings these pieces, that all of them were brought, and that
/// the line has taken those pieces.
pub(super) fn assert_session(
    rt: &impl Abort,
    alloc: Global,
    buffered: &mut MemoryEndAtLine,
    brings: &[&[u8]],
    takes: &[&[u8]],
) {
    let mut line = TellingLine::new(alloc, brings);
    let answer = talk(rt, alloc, buffered, &mut line);
    assert_same(rt, answer, Ok(()));
    assert_same(rt, buffered.node().phase(), Phase::Ended(End::Done));
    assert_same(rt, line.brought(), brings.len());
    assert_taken(rt, alloc, &line, takes);
    drop(line);
}

/// Asserts that the line has taken these pieces, and nothing else.
fn assert_taken(rt: &impl Abort, alloc: Global, line: &TellingLine<'_>, takes: &[&[u8]]) {
    let expected = joined(rt, alloc, takes);
    assert_same(rt, line.taken(), expected.as_slice());
}

#[test]
fn a_caller_writes_what_its_line_leads_to(rt: HostRuntime) {
    let alloc = rt.alloc();
    let mut buffered = caller(&rt, alloc, b"hi", None);
    assert_session(&rt, alloc, &mut buffered, &CALLED, &CALLER);
    assert_same(&rt, buffered.node().queue().struck().len(), 1);
    drop(buffered);
}

/// Runs the session of an end at a host. Asserts that the line took these pieces, one a write, and that the job waited
/// just after the first `waits` of them, and was gone after each later one.
fn assert_moments(
    rt: &impl Abort,
    alloc: Global,
    buffered: &mut MemoryEndAtLine,
    brings: &[&[u8]],
    takes: &[&[u8]],
    waits: usize,
) {
    let jobs = jobs_file(rt, alloc, MemoryJobs::new(JOB, NEVER));
    let mut host = TellingHost::new(rt, alloc, TellingLine::new(alloc, brings), jobs);
    let answer = run_session(alloc, buffered, &mut host, AMPLE, LIMITS);
    assert_same(rt, answer, Ok(()));
    assert_taken(rt, alloc, host.line(), takes);
    assert_same(rt, host.writes(), takes.len());
    let mut taken = Vec::new(alloc);
    for (i, piece) in takes.iter().enumerate() {
        taken.extend_from_slice(piece).expect(rt, "memory");
        let jobs: &[u8] = if i < waits { JOB } else { b"" };
        assert_so(rt, host.is_after(i, taken.as_slice(), jobs));
    }
    drop(host);
}

// The sixth piece is the file's end. The seventh acknowledges what the called end said of the file, so the job is over.
#[test]
fn a_job_is_off_the_disk_before_its_answer_is_acknowledged(rt: HostRuntime) {
    let alloc = rt.alloc();
    let mut buffered = caller(&rt, alloc, b"hi", None);
    assert_moments(&rt, alloc, &mut buffered, &CALLED, &CALLER, 6);
    drop(buffered);
}

/// Checks the session of a called end. The last piece of the caller's comes when it is over.
#[test]
fn a_called_end_writes_what_its_line_leads_to(rt: HostRuntime) {
    let alloc = rt.alloc();
    let mut buffered = called(&rt, alloc, None);
    assert_session(&rt, alloc, &mut buffered, &CALLER[..8], &CALLED);
    for file in buffered.node().spool().stored() {
        assert_same(&rt, (file.name, file.mode), (name(&rt, b"y"), 0o644));
        assert_same(&rt, file.bytes.as_slice(), b"hi".as_slice());
    }
    assert_same(&rt, buffered.node().spool().stored().len(), 1);
    drop(buffered);
}
