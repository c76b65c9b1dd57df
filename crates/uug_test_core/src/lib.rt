//! Tests of the calls of the crates up to `uug_session`, all in one crate, because a crate with tests of its own is
//! proved once more for them. The crate also has the example of an end in a program of your own, `example_end`, and
//! its tests.
#![tactic(auto)]

#[cfg(test)]
mod assertions;
#[cfg(test)]
mod digests;
#[cfg(test)]
mod errors;
pub mod example_end;
#[cfg(test)]
mod links;
#[cfg(test)]
mod nodes;
#[cfg(test)]
mod packets;
#[cfg(test)]
mod readers;
#[cfg(test)]
mod refusals;
#[cfg(test)]
mod sessions;
#[cfg(test)]
mod texts;
