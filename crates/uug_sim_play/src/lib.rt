//! Sessions played from a script: two ends over a noisy line, and the report of what they did.
#![tactic(auto)]

mod held;
mod play;
mod played;
mod reasons;
mod remarked;
mod settled;
mod unsettled;
mod whole;

pub use play::{play_stream, play_within};
pub use played::{Played, PlayedVerbosely, play_script, play_script_verbosely, shown};
pub use reasons::{Reason, add_reasons};
pub use remarked::{Remarked, play_remarked};
pub use settled::{play_settled, settle_script};
pub use unsettled::{Unsettled, why_unsettled};
pub use whole::read_whole;
