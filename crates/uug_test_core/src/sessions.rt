//! Greetings, queues and spools in memory.

mod greetings;
mod memory;
mod pieces;
mod stores;

use std::process::Abort;
use uug_link::Announce;
use uug_session::{Job, Place};
use uug_talk::Name;

fn name(rt: &impl Abort, text: &[u8]) -> Name {
    Name::new(text).expect(rt, "a name")
}

/// Makes the configuration of an end with this name, whose other end has that name, and which keeps no number.
pub fn place(rt: &impl Abort, me: &[u8], peer: &[u8]) -> Place {
    Place {
        me: name(rt, me),
        peer: name(rt, peer),
        announce: Announce::new(2, 32).expect(rt, "a window and a size"),
        number: None,
    }
}

/// Makes a job that sends `x`, to be kept under the same name.
fn send_job(x: Name) -> Job {
    Job::Send {
        source: x,
        target: x,
        user: x,
        temp: None,
    }
}
