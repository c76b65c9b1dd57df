//! A device that fails once.

ghost use Rattle.std.specs.Prelude.{[], map};
ghost use Rattle.uug_conversation.specs.MemoryHoldings.{holdings_of, kept_of, no_holdings};
ghost use Rattle.uug_conversation.specs.Code.StandardLimit.{standard_limit};
ghost use Rattle.uug_conversation.specs.Code.StoredModes.{modes_in_range};

use super::line::{Event, Hand, Line};
use super::script::Wire::{Close, Rr};
use super::script::assert_says;
use super::{Left, MemoryNode, NOTHING, SEND, SENDER, Side, assert_ended, end, place};
use std::alloc::{Allocator, Global};
use std::process::Abort;
use uug_session::{End, FileView, KeepFault, Node, Queue, Spool, Stored, Verdict};
use uug_talk::{FILE_MAX, FileDigest, Name};

/// A spool with no file to give. It takes every file, and keeps it under its own name, wherever it is sent. Its device
/// fails at the first file.
#[derive(Drop)]
struct FaultySpool<A: Allocator> {
    stored: Vec<Stored<A>, A>,
    faults: u64,
    alloc: A,
}

impl<A: Allocator + Copy> FaultySpool<A> {
    fn new(alloc: A) -> Self {
        FaultySpool {
            stored: Vec::new(alloc),
            faults: 0,
            alloc,
        }
    }
}

impl<A: Allocator + Copy> Spool for FaultySpool<A> {
    ghost holdings = { λ s. record (holdings_of no_holdings) { landing = λ source target. source } };

    ghost kept = { λ s. map kept_of s.stored.items };

    ghost faults = { λ s. s.faults };

    fn may_keep(&self, _name: &Name) -> Verdict {
        Verdict::Yes
    }

    fn landing(&self, source: &Name, _target: &Name) -> Name {
        *source
    }

    fn fetch(&self, _name: &Name) -> Option<FileView<'_>> {
        None
    }

    fn is_delayed(&self, _name: &Name) -> bool {
        false
    }

    fn held(&self, _source: &Name, _told: &FileDigest) -> &[u8] {
        &[]
    }

    fn keep(&mut self, name: &Name, mode: u16, bytes: &[u8]) -> Result<(), KeepFault> {
        if self.faults == 0 {
            self.faults = 1;
            return Err(KeepFault::Device);
        }
        let Ok(bytes) = bytes.to_vec(self.alloc) else {
            return Err(KeepFault::Memory);
        };
        let file = Stored {
            name: *name,
            mode,
            bytes,
        };
        match self.stored.push(file) {
            Ok(()) => Ok(()),
            Err(_) => Err(KeepFault::Memory),
        }
    }

    fn note(&mut self, _source: &Name, _told: &FileDigest, _bytes: &[u8]) {}

    fn let_go(&mut self, _told: &FileDigest) {}

    fn is_lenient(&self) -> bool {
        false
    }

    fn tells_digests(&self) -> bool {
        false
    }

    fn limit(&self) -> usize {
        FILE_MAX
    }

    fn faults(&self) -> u64 {
        self.faults
    }

    ghost modes = { λ s. modes_in_range {A = Unit {0}} [] };

    ghost limits = { λ s. standard_limit };
}

type FaultyNode = Node<FaultySpool<Global>, Global>;

fn called(rt: &impl Abort, alloc: Global) -> FaultyNode {
    let place = place(rt, Side::Called, 32);
    let spool = FaultySpool::new(alloc);
    Node::called(alloc, place, Queue::new(alloc), spool).expect(rt, "an end")
}

fn assert_called_ended(rt: &impl Abort, called: &FaultyNode, how: End, left: &[Left<'_>]) {
    let files = called.spool().stored.as_slice();
    assert_ended(rt, called, files, how, left);
}

/// Plays two sessions. The device fails at the file's end in the first, and works in the second.
fn recover(
    rt: &impl Abort,
    log: Global,
    caller: &mut MemoryNode<Global>,
    called: &mut FaultyNode,
    line: &mut Line,
) {
    line.play(rt, &[Event::Flow(6), Event::ToCalled], caller, called);
    assert_says(rt, log, called, &[Rr(2), Close]);
    assert_called_ended(rt, called, End::SpoolFault, NOTHING);
    line.play(rt, &[Event::ToCaller, Event::LostToCalled], caller, called);
    assert_ended(rt, caller, &[], End::PeerClosed, &[Left::Pending(SEND)]);
    line.play(rt, &[Event::Call, Event::Flow(20)], caller, called);
    assert_ended(rt, caller, &[], End::Done, &[Left::Struck(SEND)]);
    assert_called_ended(rt, called, End::Done, &[Left::Stored(b"x", b"")]);
}

fn recover_from(rt: &impl Abort, alloc: Global, caller: &mut MemoryNode<Global>) {
    let mut called = called(rt, alloc);
    let mut line = Line::new(alloc, Hand::Whole);
    recover(rt, alloc, caller, &mut called, &mut line);
    drop(called);
}

// a fault after which the job is gone, or is not offered again; a file that is stored all the same, or under its
// target, where the spool says another name
#[test]
fn recovers_from_a_fault_of_the_device(rt: HostRuntime) {
    let place = place(&rt, Side::Caller, 32);
    let mut caller = end(&rt, rt.alloc(), Side::Caller, place, SENDER);
    recover_from(&rt, rt.alloc(), &mut caller);
    drop(caller);
}
