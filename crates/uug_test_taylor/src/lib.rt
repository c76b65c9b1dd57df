//! Tests of the calls of `uug_taylor_text` and `uug_taylor_queue`, with texts and names as they were found in a spool of Taylor UUCP.
#![tactic(auto)]

#[cfg(test)]
mod assertions;
#[cfg(test)]
mod commands;
#[cfg(test)]
mod cut_off;
#[cfg(test)]
mod disks;
#[cfg(test)]
mod executions;
#[cfg(test)]
mod logs;
#[cfg(test)]
mod mail;
#[cfg(test)]
mod memory;
#[cfg(test)]
mod names;
#[cfg(test)]
mod notices;
#[cfg(test)]
mod partials;
#[cfg(test)]
mod places;
#[cfg(test)]
mod rewriting;
#[cfg(test)]
mod statuses;
#[cfg(test)]
mod stops;
