//! A Taylor UUCP spool on a disk: the paths of its folders, operations and checks on them, their listing and reading,
//! and the files about calls.
#![tactic(auto)]

mod call_files;
mod moments;
mod public_listing;
mod spool_disk;
mod spool_files;
mod spool_paths;
mod writable;

pub use call_files::{append_line, process_number, read_status_file, write_status_file};
pub use moments::seconds_since_1970;
pub use public_listing::{PublicListing, list_public};
pub use spool_disk::{Arrived, Preserved, SpoolDisk};
pub use spool_files::{
    is_known, is_no_place, is_there, linked_room, list_below, list_room, read_public, read_source,
    read_spot, read_whole,
};
pub use spool_paths::SpoolPaths;
pub use writable::{see_removable, see_rewritable};
