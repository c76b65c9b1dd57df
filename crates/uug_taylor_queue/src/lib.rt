//! The mail of one system in a Taylor UUCP spool, as the jobs and files of an end: the lines of its C. files, the jobs
//! that a session offers for them, the removal of jobs that are over, and the places of received files.
//! Nothing here makes a system call.
#![tactic(auto)]

mod command_file;
mod command_text;
mod execution;
mod folder_rules;
mod held;
pub mod laws;
mod mail_date;
mod mail_spool;
mod marks;
mod offer;
mod open_line;
mod parted;
mod places;
mod settled;
mod spool_folder;
mod work_store;

pub use command_file::{add_file, queue_of};
pub use command_text::CommandText;
pub use execution::{Execution, addressee, is_told_with_data, read_execution};
pub use folder_rules::is_allowed;
pub use held::held_lines;
pub use mail_date::{day_word, month_word};
pub use mail_spool::{MailSettings, MailSpool};
pub use marks::{Came, Marks};
pub use offer::{NotOffered, Offer, read_offer, text_name};
pub use open_line::{OpenLine, Outcome};
pub use places::{PublicFolder, add_elsewhere, is_public_path, name_in, split_last, temp_name};
pub use settled::{settle, settle_file};
pub use spool_folder::{SpoolFolder, remove_markers};
pub use work_store::WorkStore;
