//! The words for errors: on what a system call failed, and why; what is wrong with a line of jobs; and what was heard
//! from the other end.
#![tactic(auto)]

mod cause;
mod escape;
mod heard;
mod hint;
mod jobs;
mod kind;
mod large;
mod passed;
mod reason;

pub use escape::add_escaped;
pub use heard::{Heard, heard_remark};
pub use jobs::{add_quoted, jobs_remark};
pub use large::large_line;
pub use passed::{Passed, passed_remark};
pub use reason::{locks_line, reason_line};
