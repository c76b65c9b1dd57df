//! Reports of a session. An observer follows the bytes that pass between the two ends, and finds the jobs of both and
//! the losses. The log has the format of Taylor UUCP: a line for the start of a session, for the end of each job and
//! for the session's end, each appended to a file by one write.
#![tactic(auto)]

mod clock;
mod exchange;
mod lines;
mod log_file;
mod news_lines;
mod observer;
mod pace;
mod passed;
mod process;
mod session_log;
mod transfer;
mod way;

pub use clock::LocalClock;
pub use lines::{end_text, fault_line, job_line, over_line, start_line, words_of};
pub use log_file::LogFile;
pub use news_lines::{counts_line, news_line, outcome_word, progress_line, wish_word};
pub use observer::{Journal, Observer};
pub use pace::{Mark, Pace};
pub use passed::{Counts, Passed};
pub use session_log::SessionLog;
pub use transfer::{FileProgress, News, Outcome, Transfer, Wish};
pub use way::Way;
