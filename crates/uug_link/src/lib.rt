//! One end's link of the UUCP 'g' protocol: its start-up and shut-down, its sliding window, and what it emits.
#![tactic(auto)]

mod announce;
mod entry;
pub mod laws;
mod limits;
mod link;
mod message;
mod number;
mod outbox;
mod outcome;
mod phase;
mod reaction;
mod slots;
mod start_up;
mod status;
mod timeouts;
mod window;

pub use announce::{Announce, BadAnnounce};
pub use entry::Entry;
pub use limits::{ENTRIES_MAX, MESSAGE_MAX, SIZE_CODES, SIZE_MIN, TIMEOUTS_MAX, WINDOW_MAX};
pub use link::Link;
pub use outbox::Outbox;
pub use outcome::{LinkFault, Outcome};
