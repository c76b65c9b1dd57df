//! The task of one end, the terms in its words, the system under it, and the end that is made and run for it.
#![tactic(auto)]

mod end_parts;
mod folder_rules;
pub mod laws;
mod limits;
mod line_options;
mod outputs;
mod places;
mod session_settings;
mod spool_options;
mod system;
mod task;

pub use end_parts::{EndParts, FinishedEnd, begin_end, make_node};
pub use folder_rules::FolderRules;
pub use limits::Limits;
pub use line_options::LineOptions;
pub use outputs::Outputs;
pub use places::place_in_pair;
pub use session_settings::SessionSettings;
pub use spool_options::SpoolOptions;
pub use system::System;
pub use task::{
    ANY, CallTask, KEEP_MAX, MOST_MIN, ReportPlace, SECONDS_MAX, SESSIONS_MAX, Station, Terms,
    WAIT_MAX, has_place, may_have, read_terms,
};
