//! Runs one end at its line, or two ends in turns, until their sessions are over. Writes the results of their jobs and
//! the report. Nothing here calls the system: lines, files and outputs are traits.
#![tactic(auto)]

mod buffered_node;
mod call;
mod caller;
mod end_host;
mod end_line;
mod end_plan;
mod end_report;
mod fault_injector;
mod host;
pub mod laws;
mod line;
mod line_name;
mod outgoing;
mod packet_fate;
mod pair;
mod pair_plan;
mod patience;
mod read_budget;
mod read_outcome;
mod session;
mod session_fault;
mod session_line;
mod session_observer;
mod settled;
mod status;
mod thinning;
mod timer;
mod transfer_end;
mod turn_fault;
mod turns;
mod waiting;

pub use buffered_node::BufferedNode;
pub use call::call_over;
pub use caller::caller_in;
pub use end_line::EndLine;
pub use fault_injector::{EVERY_MAX, EVERY_MIN, FaultInjector};
pub use host::Host;
pub use line::{Line, LineFailed, UNREAD_MAX};
pub use line_name::{LineName, read_line_name};
pub use packet_fate::PacketFate;
pub use pair::pair_over;
pub use patience::{GREETING_SECONDS, GREETING_TIMERS, PatienceLimits, SESSION_TIMERS};
pub use read_budget::{BYTES_MAX, READ_MAX, SILENCES_MAX, STALLS_MAX};
pub use read_outcome::ReadOutcome;
pub use session::{run_at_line, run_session};
pub use session_fault::SessionFault;
pub use session_line::SessionLine;
pub use session_observer::SessionObserver;
pub use status::SessionStatus;
pub use thinning::Thinning;
pub use timer::{Pace, SPEED_MAX, SPEED_MIN, packets};
pub use transfer_end::TransferEnd;
pub use turn_fault::TurnFault;
pub use turns::run_turns;
