//! Two ends over two folders of the system, which take turns at a socket between them. A job that is gone after that
//! has its file at the end to which it went. Also the promises between two real ends, each in its own process and at
//! any line.
#![tactic(auto)]

pub mod laws;
mod pair;
pub mod promises;
mod unwatched;

pub use pair::{
    FinishedPair, PairParts, PairRun, TURNS_MAX, pair_run, pair_run_with_reason, run_both,
};
pub use unwatched::Unwatched;
