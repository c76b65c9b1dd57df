//! The listing of a stream, over any input and output. The plain one has a line for each packet. The detailed one has
//! in each line the place of its bytes, and lines for what the plain listing skips.
#![tactic(auto)]

mod detailed;
mod front;
pub mod laws;
mod lines;
mod listing;
mod noise;
mod parts;
mod scan;

pub use detailed::scan_detailed;
pub use lines::{add_byte, add_control};
pub use scan::{PIECE_SIZE, READ_LIMIT, scan_stream, scan_within};
