//! One end over the operating system: its folder or spool, and its line.
#![tactic(auto)]

mod answer;
mod call;
mod door_port;
mod doorkeeper;
mod end_run;
mod folder_kind;
mod held_output;
mod numbers;
mod parts;
mod resumed;
mod spool_call;
mod spool_lock;

pub use call::call_run;
