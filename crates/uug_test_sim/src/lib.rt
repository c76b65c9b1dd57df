//! Tests of the calls of `uug_stream`, `uug_scan`, `uug_sim_script`, `uug_sim_play` and `uug_sim_ladder`, and of runs over noisy lines,
//! all in one crate: a crate with tests of its own is proved once more for them.
#![tactic(auto)]

#[cfg(test)]
mod assertions;
#[cfg(test)]
mod details;
#[cfg(test)]
mod errors;
#[cfg(test)]
mod ladders;
#[cfg(test)]
mod plays;
#[cfg(test)]
mod remarks;
#[cfg(test)]
mod reports;
#[cfg(test)]
mod scans;
#[cfg(test)]
mod scripts;
#[cfg(test)]
mod streams;
