use std::alloc::Allocator;
use uug_line::Side;
use uug_session::Phase;

/// The fate of something that an end sends.
#[derive(Clone, Copy, Debug, PartialEq, Eq)]
pub enum Fate {
    /// It is on its way, and was so still after the last event.
    OnTheWay,
    /// Its last byte arrives at the other end at this event, and all of them as they were sent, with none between.
    Arrives(usize),
    /// A byte of it is lost or changed at this event, or one is inserted between its bytes.
    Lost(usize),
}

/// An occurrence at an end.
#[derive(Drop)]
pub enum What<A: Allocator> {
    /// The session of this number, counted from 1, begins.
    Begins(usize),
    /// It sends a text, in its frame.
    Says(Vec<u8, A>),
    /// It sends a packet.
    Sends {
        /// The packet in its encoded form.
        packet: Vec<u8, A>,
        /// True if it is a data packet that was sent before.
        again: bool,
    },
    /// It has received nothing for some time.
    TimesOut,
    /// The line is gone for it.
    HangsUp,
    /// It takes messages: this many in the session by now.
    Takes(usize),
    /// It stores files: this many by now.
    Stores(usize),
    /// Jobs of it are done: this many by now.
    Strikes(usize),
    /// Jobs of it are given up: this many by now.
    Fails(usize),
    /// Its session reaches this phase.
    Comes(Phase),
}

/// A step of a ladder.
#[derive(Drop)]
pub struct Rung<A: Allocator> {
    /// The event at which it occurs, counted from 0; `None` before the first one.
    pub event: Option<usize>,
    /// The end; if a session begins, the one that calls.
    pub side: Side,
    /// The occurrence.
    pub what: What<A>,
}
