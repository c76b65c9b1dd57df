//! The conversation of two ends: their jobs, the files they exchange, and each end's next message.
#![tactic(auto)]

mod awaits;
mod backlog;
mod choice;
pub mod conversation_laws;
mod dialogue;
mod file_limit;
mod job;
pub mod laws;
mod machine;
mod memory_spool;
mod outgoing;
mod part;
mod partial_file;
mod partials;
mod queue;
mod reaction;
mod side;
mod spool;
mod stored;
pub mod stored_laws;
mod verdict;
mod whole_file;

pub use awaits::Awaits;
pub use dialogue::Dialogue;
pub use file_limit::FileLimit;
pub use job::Job;
pub use memory_spool::{MemorySpool, has_name};
pub use outgoing::SAYINGS_MAX;
pub use partial_file::PartialFile;
pub use partials::Partials;
pub use queue::{JOBS_MAX, Queue, QueueFault};
pub use side::Side;
pub use spool::{FileView, KeepFault, Spool};
pub use stored::Stored;
pub use verdict::Verdict;
pub use whole_file::FileFault;
