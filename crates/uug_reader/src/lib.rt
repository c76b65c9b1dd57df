//! Packets in a stream of bytes that comes in pieces.
#![tactic(auto)]

mod found;
pub mod laws;
mod place;
mod reader;
mod ring;
mod search;

pub use found::Found;
pub use reader::{READER_SIZE, Reader};
