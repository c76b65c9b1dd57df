use std::alloc::Allocator;
use uug_link::Announce;
use uug_session::{MemorySpool, Queue};
use uug_talk::Name;

/// The set-up of an end.
#[derive(Drop)]
pub struct EndSetup<A: Allocator> {
    /// The name of the end.
    pub name: Name,
    /// The limits that the other end shall use, and whether this end is quiet on repeats and its commands are short.
    pub announce: Announce,
    /// Its jobs.
    pub queue: Queue<A>,
    /// Its files.
    pub spool: MemorySpool<A>,
    /// The number of its next conversation with the other end, if it keeps one.
    pub number: Option<u32>,
}

/// The two ends of a line, each of which expects the other by its name.
#[derive(Drop)]
pub struct Setup<A: Allocator> {
    /// The end that calls.
    pub caller: EndSetup<A>,
    /// The end that is called.
    pub called: EndSetup<A>,
}
