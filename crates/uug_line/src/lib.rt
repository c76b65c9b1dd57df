//! A noisy line with both ends of a session.
#![tactic(auto)]

mod event;
mod fault;
mod journal;
pub mod laws;
mod line;
mod line_end;
mod report;
mod running;
pub mod settle_laws;
mod settling;
mod setup;
mod sighting;
mod simulator;
mod soundness;
mod verdict;
pub mod world_laws;

pub use event::Event;
pub use fault::RunFault;
pub use report::{EndReport, Report, SessionReport, TIMEOUTS_BEFORE};
pub use running::run;
pub use settling::settle;
pub use setup::{EndSetup, Setup};
pub use simulator::Simulator;
pub use uug_session::Side;
pub use verdict::{LineVerdict, Verdict2};
