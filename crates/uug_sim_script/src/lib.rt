//! Scripts of sessions as texts, the errors of a bad one, and the text of a report.
#![tactic(auto)]

mod complaint;
mod draft;
mod fault;
mod field;
mod fields;
mod job_words;
pub mod laws;
mod line;
mod mode;
mod remark;
mod report;
mod script;
mod taking;

pub use fault::ScriptFault;
pub use job_words::add_job_words;
pub use line::{BYTES_MAX, TURNS_MAX};
pub use remark::script_remark;
pub use report::{EndNumbers, HeldFile, SessionNumbers, ShownEnd, ShownReport, add_report};
pub use script::{Script, read_script};
