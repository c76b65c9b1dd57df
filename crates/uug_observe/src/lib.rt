//! Reports the sessions of a run: to a person on standard error, and in the log.
#![tactic(auto)]

mod bad_jobs;
mod failure_words;
mod fault_log;
mod hearing;
mod held_line;
mod job_remark;
mod last_text;
mod number_remark;
mod over_limit;
mod pair_observer;
mod session_mark;
mod silent_caller;
mod system_observer;
mod tellers;
mod unread_remark;
mod voice;

pub use bad_jobs::jobs_remark_at;
pub use failure_words::failure_remark;
pub use fault_log::{log_failed, log_failure, log_fault, log_lines, log_waiting};
pub use held_line::line_held_remark;
pub use job_remark::{failed_remark, put_off_remark};
pub use number_remark::numbers_remark;
pub use over_limit::{large_files, tell_large_files};
pub use pair_observer::PairObserver;
pub use session_mark::{BROKEN_OFF, mark_session, unmark_session};
pub use silent_caller::silent_words;
pub use system_observer::SystemObserver;
