//! The reasons why the program ends before its task is done: their messages, and its status.
#![tactic(auto)]

mod ending;
mod of_end;
mod of_input;
mod said;
mod stop;

pub use ending::{end, end_of, with_reason};
pub use of_end::{LOG, REPORT, STATS, is_refused_lock};
pub use stop::Stop;
