//! The folder of an end on disk: its lock, jobs and number, the files that it gives and receives, files that are
//! replaced as a whole, checks that a session can write there, and jobs that a person queues. Also the lock files of
//! devices.
#![tactic(auto)]

mod atomic_file;
mod copy_place;
mod device_lock;
mod dir_lock;
mod given_files;
mod granted;
mod held_part;
pub mod laws;
mod no_file;
mod opened_jobs;
mod part_path;
mod partial_folder;
mod partial_notes;
mod passed_over;
mod pipe;
mod queue;
mod queued_copy;
mod queued_line;
mod seen_files;
mod send_folder;
mod settled_copies;
mod system_folder;
mod system_jobs;
mod system_number;
mod system_text;
mod writable;
mod written;

pub use device_lock::{DeviceLock, lock_device, lock_holder};
pub use dir_lock::{DirLock, lock_dir, see_dir, see_folders};
pub use given_files::{Given, OTHERS_MAX, read_given};
pub use no_file::NoFile;
pub use opened_jobs::{OpenJobs, open_jobs};
pub use partial_folder::{drop_partials, hold_partial, read_partials};
pub use partial_notes::PartialNotes;
pub use pipe::is_named_pipe;
pub use queue::{QueueFault, QueueTask, queue_run};
pub use queued_copy::mark_done;
pub use queued_line::{jobs_at, jobs_in};
pub use seen_files::{HeldFile, SeenFile, read_end, see_file, see_held, see_sent};
pub use send_folder::{FILES_MAX, GIVEN_MODE, TEXT_MAX, read_send, read_text};
pub use settled_copies::settle_copies;
pub use system_folder::SystemFolder;
pub use system_jobs::SystemJobs;
pub use system_number::SystemNumber;
pub use system_text::SystemText;
pub use writable::{see_jobs, see_writable};
