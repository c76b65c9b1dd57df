//! Two ends: jobs as a text, a line and folders in memory of which one call fails, and a socket and folders of the
//! system. Also the status of a folder.

mod assertions;
mod ends;
mod errors;
mod failing;
mod jobs;
mod memory_folder;
mod memory_jobs;
mod memory_line;
mod not_kept;
mod over_memory;
pub mod runs;
mod short_output;
mod stages;
mod statuses;
mod tasks;
mod wires;
