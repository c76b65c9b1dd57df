//! One end of a UUCP session: its greeting, its link and its conversation. Its laws also describe an end by the events
//! that happen to it: those that led a node from one state to another, and what comes at its line.
#![tactic(auto)]

mod arrive;
pub mod arriving_laws;
mod end;
pub mod end_laws;
mod engine;
pub mod event_laws;
mod greeting;
pub mod greeting_laws;
mod greeting_text;
mod item;
pub mod laws;
mod node;
pub mod node_laws;
mod phase;
mod phase_words;
mod place;
pub mod sending_laws;
mod sessions;
mod stage;
pub mod text_laws;
mod texts;
pub mod told_laws;

pub use arrive::Unfinished;
pub use end::End;
pub use greeting::{AwaitedText, Greeted, Greeting, Led};
pub use item::Item;
pub use node::Node;
pub use phase::Phase;
pub use phase_words::{phase_word, side_word};
pub use place::Place;
pub use sessions::NotMade;
pub use uug_conversation::{
    Awaits, FileLimit, FileView, JOBS_MAX, Job, KeepFault, MemorySpool, PartialFile, Partials,
    Queue, QueueFault, Side, Spool, Stored, Verdict,
};
