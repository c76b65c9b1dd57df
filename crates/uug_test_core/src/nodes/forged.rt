//! A line that changes bytes of files in a way that the checksum doesn't show. Ends that announce digests keep no
//! wrong file.

use super::line::{Hand, Line};
use super::{Given, MemoryNode, Side, Task, end, place};
use crate::assertions::assert_so;
use std::alloc::Global;
use std::process::Abort;
use uug_packet::{HEADER_SIZE, Packet, check, decode};
use uug_session::{Phase, Stored};

/// The number of pairs of ends.
const SEEDS: u32 = 100;

/// The most sessions that two ends have until no job is left.
const SESSIONS_MAX: usize = 60;

/// The number of times in each session that everything one end has emitted comes to the other.
const TURNS: usize = 60;

/// A source of numbers, by a seed.
#[derive(Drop)]
struct Numbers(u32);

impl Numbers {
    fn next(&mut self) -> u32 {
        self.0 = self.0.wrapping_mul(1_664_525).wrapping_add(1_013_904_223);
        self.0 >> 16
    }

    /// Makes a file of up to 159 bytes, which fill two packets at most. None of them is a letter, which distinguishes
    /// the packets of a file from those of a command.
    fn file(&mut self, rt: &impl Abort, alloc: Global) -> Vec<u8, Global> {
        let mut bytes = Vec::new(alloc);
        for _ in 0..self.next() % 160 {
            let byte = (self.next() % 128) as u8 | 0x80;
            bytes.push(byte).expect(rt, "memory");
        }
        bytes
    }
}

/// The files that an end sends.
#[derive(Drop)]
struct Files {
    first: Vec<u8, Global>,
    second: Vec<u8, Global>,
}

impl Files {
    fn new(rt: &impl Abort, alloc: Global, numbers: &mut Numbers) -> Self {
        let first = numbers.file(rt, alloc);
        let second = numbers.file(rt, alloc);
        Files { first, second }
    }
}

/// Changes the first byte of a field, if another one has the same check.
fn forge(field: &mut [u8]) {
    let (Some(first), wanted) = (field.first().copied(), check_of(field)) else {
        return;
    };
    for other in 0x80..=0xff {
        if let Some(byte) = field.first_mut() {
            *byte = other;
        }
        if other != first && check_of(field) == wanted {
            return;
        }
    }
    if let Some(byte) = field.first_mut() {
        *byte = first;
    }
}

fn check_of(field: &[u8]) -> u16 {
    if field.is_empty() { 0 } else { check(field) }
}

/// A line that forges every third packet of a file.
#[derive(Drop)]
struct Forger {
    line: Line,
    packets: u32,
}

impl Forger {
    fn carry(
        &mut self,
        rt: &impl Abort,
        alloc: Global,
        from: &mut MemoryNode<Global>,
        to: &mut MemoryNode<Global>,
    ) {
        let mut bytes = Vec::new(alloc);
        bytes
            .extend_from_slice(from.outbox().bytes())
            .expect(rt, "memory");
        from.clear_outbox();
        self.forge_all(bytes.as_mut_slice());
        self.line.bring(rt, bytes.as_slice(), to);
    }

    fn forge_all(&mut self, bytes: &mut [u8]) {
        let mut start = 0;
        for _ in 0..bytes.len() {
            match bytes.get_mut(start..) {
                Some(rest) => start = start.saturating_add(self.forge_one(rest)),
                None => return,
            }
        }
    }

    /// Forges the packet here, if it is a whole packet of a file and the third since the last. Returns the packet's
    /// size, or 1 for anything else.
    fn forge_one(&mut self, bytes: &mut [u8]) -> usize {
        let (is_file, size) = match decode(bytes) {
            Ok((Packet::Carry { message, .. }, size)) => (is_whole_file(message, size), size),
            Ok((Packet::Control(_), size)) => (false, size),
            Err(_) => (false, 1),
        };
        if is_file {
            self.packets = self.packets.wrapping_add(1);
            if self.packets % 3 == 0 {
                if let Some(field) = bytes.get_mut(HEADER_SIZE..size) {
                    forge(field);
                }
            }
        }
        size
    }
}

/// Returns whether the message fills its field, and is part of a file.
fn is_whole_file(message: &[u8], size: usize) -> bool {
    message.len().saturating_add(HEADER_SIZE) == size && message.first().is_some_and(|b| *b >= 0x80)
}

/// Returns the number of wrong files among those that were kept.
fn wrong(stored: &[Stored<Global>], files: &Files) -> u32 {
    let mut wrong: u32 = 0;
    for file in stored {
        let is_first = file.name.as_bytes() == b"y".as_slice();
        let given = if is_first {
            &files.first
        } else {
            &files.second
        };
        if file.bytes.as_slice() != given.as_slice() {
            wrong = wrong.saturating_add(1);
        }
    }
    wrong
}

/// Lets two ends hand each other their bytes until no job is left. Returns how many files came, and how many of them
/// are wrong.
fn exchange(rt: &impl Abort, alloc: Global, seed: u32, tells_digests: bool) -> (usize, u32) {
    let mut numbers = Numbers(seed);
    let ours = Files::new(rt, alloc, &mut numbers);
    let theirs = Files::new(rt, alloc, &mut numbers);
    let mut caller = make(rt, alloc, Side::Caller, tells_digests, &ours);
    let mut called = make(rt, alloc, Side::Called, tells_digests, &theirs);
    let mut forger = Forger {
        line: Line::new(alloc, Hand::Whole),
        packets: 0,
    };
    for _ in 0..SESSIONS_MAX {
        if caller.queue().pending().is_empty() && called.queue().pending().is_empty() {
            break;
        }
        forger.line.call_again(rt, &mut caller);
        forger.line.call_again(rt, &mut called);
        forger.packets = numbers.next();
        talk(rt, alloc, &mut forger, &mut caller, &mut called);
    }
    assert_so(rt, caller.queue().pending().is_empty());
    assert_so(rt, called.queue().pending().is_empty());
    let there = caller.spool().stored();
    let here = called.spool().stored();
    let all_wrong = wrong(here, &ours).saturating_add(wrong(there, &theirs));
    (here.len().saturating_add(there.len()), all_wrong)
}

fn make(
    rt: &impl Abort,
    alloc: Global,
    side: Side,
    tells_digests: bool,
    files: &Files,
) -> MemoryNode<Global> {
    let mut node_has = Vec::new(alloc);
    if tells_digests {
        node_has.push(Given::Digests).expect(rt, "memory");
    }
    let all = [
        Given::File(b"x", files.first.as_slice()),
        Given::File(b"z", files.second.as_slice()),
        Given::Job(Task::Send(b"x", b"y")),
        Given::Job(Task::Send(b"z", b"w")),
    ];
    node_has.extend_from_slice(&all).expect(rt, "memory");
    end(rt, alloc, side, place(rt, side, 64), node_has.as_slice())
}

fn talk(
    rt: &impl Abort,
    alloc: Global,
    forger: &mut Forger,
    caller: &mut MemoryNode<Global>,
    called: &mut MemoryNode<Global>,
) {
    for _ in 0..TURNS {
        forger.carry(rt, alloc, caller, called);
        forger.carry(rt, alloc, called, caller);
    }
    assert_so(rt, matches!(caller.phase(), Phase::Ended(_)));
    assert_so(rt, matches!(called.phase(), Phase::Ended(_)));
}

/// Returns how many files came at all pairs of ends, and how many of them are wrong.
fn all(rt: &impl Abort, alloc: Global, tells_digests: bool) -> (usize, u32) {
    let (mut came, mut all_wrong) = (0usize, 0u32);
    for seed in 0..SEEDS {
        let (files, wrong) = exchange(rt, alloc, seed, tells_digests);
        came = came.saturating_add(files);
        all_wrong = all_wrong.saturating_add(wrong);
    }
    (came, all_wrong)
}

// a file that is kept before it is compared, or though it is not the one that was told of
#[test]
fn ends_that_tell_digests_keep_no_forged_file(rt: HostRuntime) {
    let (came, wrong) = all(&rt, rt.alloc(), true);
    assert_so(&rt, came == 400 && wrong == 0);
}

// a line that forges nothing, which would try nothing
#[test]
fn others_keep_forged_files(rt: HostRuntime) {
    let (came, wrong) = all(&rt, rt.alloc(), false);
    assert_so(&rt, came == 400 && wrong > 0);
}
