//! Failures of system calls (their object and cause), counts of a device's faults, and the reasons why a run gave up.
//! Also here: reads and writes that are repeated after a signal, and the reading of a whole text within a limit.
#![tactic(auto)]

mod failure;
mod faults;
mod outcome;
mod reading;
mod run_fault;
mod signals;

pub use failure::{Cause, EndDir, EndText, Resource, SystemFailure, is_out_of_reach};
pub use faults::Faults;
pub use outcome::{Ended, Outcome};
pub use reading::read_within;
pub use run_fault::{LISTINGS_MAX, RunFault, grant_lock, was_interrupted};
pub use signals::{read_again, write_again};
