//! A line between two ends.

use std::alloc::{Allocator, Global};
use std::process::Abort;
use uug_session::{Node, Spool};

/// An event at two ends.
#[derive(Clone, Copy)]
pub(super) enum Event {
    /// Everything that the caller has emitted comes to the called end, and then the other way round, this many times.
    Flow(u8),
    ToCalled,
    ToCaller,
    LostToCalled,
    TimeoutOfCaller,
    /// The line is gone for both ends, and each begins a session.
    Call,
}

/// The way in which an end takes its input.
#[derive(Clone, Copy)]
pub(super) enum Hand {
    /// All by one call.
    Whole,
    /// Item by item, in pieces of at most this many bytes.
    Pieces(usize),
}

/// A line, which hands bytes over. A call that is refused memory is made once more.
#[derive(Drop)]
pub(super) struct Line {
    pub(super) hand: Hand,
    /// Everything that has gone out on it.
    pub(super) said: Vec<u8, Global>,
    pub(super) refused: Refused,
}

/// The number of calls of each kind that were refused memory.
#[derive(Clone, Copy, Default)]
pub(super) struct Refused {
    pub(super) items: usize,
    pub(super) timeouts: usize,
    pub(super) calls: usize,
}

impl Line {
    pub(super) fn new(alloc: Global, hand: Hand) -> Self {
        Line {
            hand,
            said: Vec::new(alloc),
            refused: Refused::default(),
        }
    }

    pub(super) fn play<S: Spool, T: Spool, A: Allocator + Copy>(
        &mut self,
        rt: &impl Abort,
        events: &[Event],
        caller: &mut Node<S, A>,
        called: &mut Node<T, A>,
    ) {
        for event in events {
            match event {
                Event::Flow(times) => self.flow(rt, *times, caller, called),
                Event::ToCalled => self.carry(rt, caller, called),
                Event::ToCaller => self.carry(rt, called, caller),
                Event::LostToCalled => self.lose(rt, caller),
                Event::TimeoutOfCaller => self.time_out(rt, caller),
                Event::Call => {
                    self.call_again(rt, caller);
                    self.call_again(rt, called);
                }
            }
        }
    }

    fn flow<S: Spool, T: Spool, A: Allocator + Copy>(
        &mut self,
        rt: &impl Abort,
        times: u8,
        caller: &mut Node<S, A>,
        called: &mut Node<T, A>,
    ) {
        for _ in 0..times {
            self.carry(rt, caller, called);
            self.carry(rt, called, caller);
        }
    }

    /// Hands everything that one end has emitted to the other.
    fn carry<S: Spool, T: Spool, A: Allocator + Copy>(
        &mut self,
        rt: &impl Abort,
        from: &mut Node<S, A>,
        to: &mut Node<T, A>,
    ) {
        self.bring(rt, from.outbox().bytes(), to);
        self.lose(rt, from);
    }

    /// Clears what an end has emitted, and records it in `said`.
    fn lose<S: Spool, A: Allocator + Copy>(&mut self, rt: &impl Abort, from: &mut Node<S, A>) {
        let bytes = from.outbox().bytes();
        self.said.extend_from_slice(bytes).expect(rt, "memory");
        from.clear_outbox();
    }

    /// Lets the end take all of these bytes.
    pub(super) fn bring<S: Spool, A: Allocator + Copy>(
        &mut self,
        rt: &impl Abort,
        bytes: &[u8],
        to: &mut Node<S, A>,
    ) {
        match self.hand {
            Hand::Whole => self.bring_whole(rt, bytes, to),
            Hand::Pieces(size) => self.bring_in_pieces(rt, size, bytes, to),
        }
    }

    fn bring_whole<S: Spool, A: Allocator + Copy>(
        &mut self,
        rt: &impl Abort,
        bytes: &[u8],
        to: &mut Node<S, A>,
    ) {
        if let Err(unfinished) = to.arrive(bytes) {
            self.refused.items = self.refused.items.saturating_add(1);
            let rest = &bytes[unfinished.used..];
            to.arrive(rest).expect(rt, "memory");
        }
    }

    fn bring_in_pieces<S: Spool, A: Allocator + Copy>(
        &mut self,
        rt: &impl Abort,
        size: usize,
        bytes: &[u8],
        to: &mut Node<S, A>,
    ) {
        let mut rest = bytes;
        for _ in 0..2_000_000 {
            rest = offer(to, rest, size);
            let is_found = self.take_up(rt, to);
            if !is_found && rest.is_empty() {
                return;
            }
        }
        panic!(rt; "no end of the items");
    }

    /// Lets the end take the next item, if there is one. Returns whether there is.
    fn take_up<S: Spool, A: Allocator + Copy>(
        &mut self,
        rt: &impl Abort,
        to: &mut Node<S, A>,
    ) -> bool {
        if to.next_found().is_some() {
            if to.take_found().is_err() {
                self.refused.items = self.refused.items.saturating_add(1);
                to.take_found().expect(rt, "memory");
            }
            return true;
        }
        false
    }

    /// Lets a timeout happen.
    pub(super) fn time_out<S: Spool, A: Allocator + Copy>(
        &mut self,
        rt: &impl Abort,
        node: &mut Node<S, A>,
    ) {
        if node.on_timeout().is_err() {
            self.refused.timeouts = self.refused.timeouts.saturating_add(1);
            node.on_timeout().expect(rt, "memory");
        }
    }

    /// Hangs up, and begins a session.
    pub(super) fn call_again<S: Spool, A: Allocator + Copy>(
        &mut self,
        rt: &impl Abort,
        node: &mut Node<S, A>,
    ) {
        node.hang_up();
        if node.call_again().is_err() {
            self.refused.calls = self.refused.calls.saturating_add(1);
            node.call_again().expect(rt, "memory");
        }
    }
}

/// Offers a piece of at most `size` bytes. Returns the bytes that are left.
fn offer<'a, S: Spool, A: Allocator + Copy>(
    to: &mut Node<S, A>,
    bytes: &'a [u8],
    size: usize,
) -> &'a [u8] {
    let used = to.offer(&bytes[..bytes.len().min(size)]);
    &bytes[used..]
}
