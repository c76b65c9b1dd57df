//! The tasks with an input, which is standard input or a file: `scan` and `play`, in each of their forms.
#![tactic(auto)]

mod doing;
mod input_task;

pub use doing::do_on;
pub use input_task::InputTask;
