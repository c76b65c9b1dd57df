//! The lock files of devices, in the form of Taylor UUCP and HDB: their names and their texts.
#![tactic(auto)]

mod holder;

pub use holder::{Holder, holder_of, is_held, lock_path, lock_text};
