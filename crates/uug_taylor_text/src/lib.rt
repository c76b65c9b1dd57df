//! A Taylor UUCP spool: the names of its files, the lines of C. files, execution files, status files and logs, and the
//! order of the disk operations that store and replace files.
//! Nothing here makes a system call.
#![tactic(auto)]

mod command;
mod command_text;
mod disk;
mod execution;
mod grades;
pub mod laws;
mod log_text;
mod memory_disk;
mod moment;
mod parts;
mod quoting;
mod sent_file;
mod sequence;
mod spool_names;
mod stats_text;
mod status;
mod stored;

pub use command::{Command, CommandFault, Fields, has_option, name_said, read_command};
pub use command_text::add_command_line;
pub use disk::{Disk, DiskFailed};
pub use execution::{execution_target, execution_temp, execution_text};
pub use grades::{grade_of, work_order};
pub use log_text::{LogEvent, LogHead, log_line};
pub use memory_disk::{MemoryDisk, Operation};
pub use moment::Moment;
pub use quoting::quoted;
pub use sent_file::SentFile;
pub use sequence::next_sequence;
pub use spool_names::{
    Barred, FAR_NAME_MAX, OWN_DATA_MAX, OWN_TEXT_MAX, Room, Spot, data_spot, far_name,
    is_data_name, is_system_name, local_name, spot_of,
};
pub use stats_text::{Amount, Course, StatsHead, stats_line};
pub use status::{CallState, Status, is_due, read_status, status_failed, status_line};
pub use stored::{finish, replace, store};
