//! The folder of an end: its jobs as a text, the files that it receives, names as real systems write them, the number
//! of its conversations, and the lines of its report. Nothing here calls the system: folders and files are traits.
#![tactic(auto)]

mod allowance;
mod faults;
mod folder;
mod folder_spool;
mod front;
mod job_store;
mod job_texts;
mod jobs_file;
mod jobs_plan;
mod jobs_text;
mod kept_file;
pub mod laws;
mod local_names;
mod meanwhile;
mod notebook;
mod notices;
mod number_text;
mod partial_file;
mod queued;
mod report;
mod text_file;

pub use allowance::Allowance;
pub use folder::{Folder, FolderFailed};
pub use folder_spool::FolderSpool;
pub use front::first_jobs;
pub use job_store::JobStore;
pub use job_texts::JobTexts;
pub use jobs_file::{JobsFile, settle_text};
pub use jobs_plan::JobsPlan;
pub use jobs_text::{JobsFault, read_jobs, write_jobs};
pub use kept_file::{KeptFile, push_kept};
pub use local_names::{LocalNames, local_source};
pub use meanwhile::{jobs_after, take_first};
pub use notebook::{NoNotebook, Notebook};
pub use notices::{WhyFailed, why_failed, write_notices};
pub use number_text::{
    BadNumber, NUMBER_LINE_MAX, number_at_start, number_beside, number_line, read_number_text,
};
pub use partial_file::{HELD_LINE_MAX, held_line, into_partial};
pub use queued::{
    OrderFault, appended_job, default_user, is_among, is_given_by, is_given_in, nth_name,
    ordered_job, queued_line, sends_any, with_source,
};
pub use report::{add_failed, add_state};
pub use text_file::TextFile;
