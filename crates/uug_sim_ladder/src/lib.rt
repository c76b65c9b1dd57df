//! A ladder of the sessions of a script that is played, as a text. It shows the bytes that each end sends and when,
//! whether and when they arrive, and what else occurs at the ends.
#![tactic(auto)]

mod acts;
mod drawing;
mod drawn_run;
mod end;
mod fault;
mod label;
mod ladder;
mod moment;
mod play;
mod rung;
mod text;
mod way;

pub use drawn_run::draw;
pub use fault::LadderFault;
pub use label::add_label;
pub use ladder::Ladder;
pub use play::play_ladder;
pub use rung::{Fate, Rung, What};
pub use text::add_ladder;
