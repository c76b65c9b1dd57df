//! Cancels pending jobs in the folder of an end, and shows the status of the folder. Also has the remark on two jobs
//! that send to one target.
#![tactic(auto)]

mod answer;
mod cancel;
mod failed_job;
mod json;
mod last_session;
mod lines;
mod named_job;
mod pending_job;
mod status;
mod taken_job;
mod words;

pub use answer::CancelOutcome;
pub use cancel::{CancelFault, CancelTask, cancel_run};
pub use failed_job::FailedJob;
pub use json::status_json;
pub use last_session::{LastSession, LogEntry, last_in};
pub use lines::status_text;
pub use pending_job::PendingJob;
pub use status::{StatusTask, log_at, status_as, status_run};
pub use words::rival_remark;
