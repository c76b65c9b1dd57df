//! Tests of transfers. Two ends run over a line and folders in memory of which one call fails, and over a socket and
//! folders of the system. One end runs at lines that behave as a table says, or expose what they have brought and
//! taken.
#![tactic(auto)]

#[cfg(test)]
mod calls;
#[cfg(test)]
mod pairs;
