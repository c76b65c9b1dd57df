//! One end over a Taylor UUCP spool, at its line: the work that waits for a system, the session, and its reports. Also
//! the status of a system's part of a spool.
#![tactic(auto)]

mod arrivals;
mod large_files;
mod notices;
mod public_files;
mod removable;
mod resumed;
mod session;
mod spool_call;
mod spool_end;
mod spool_status;
mod system_log;
mod telling;
mod work;

pub use large_files::tell_large;
pub use resumed::hold_left;
pub use session::talk_over_spool;
pub use spool_call::SpoolCall;
pub use spool_status::spool_status_run;
pub use telling::{tell_fault, tell_no_line};
