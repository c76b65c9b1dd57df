//! Parses a command line of `uucpair` into a task, and words the remarks on a task that may not be run.
#![tactic(auto)]

mod command_line;
mod help;
mod hint;
mod order;
mod part;
mod spool_options;
mod target;
mod tools;
mod usage;
mod waiting;

pub use command_line::{PairTask, Task, task_of};
pub use hint::hint_words;
pub use order::{full_remark, order_remark};
pub use part::{Part, wrong_part};
pub use spool_options::lacks_spool;
pub use target::target_remark;
pub use tools::VERSION;
pub use usage::{pair_remark, status_remark, usage_remark};
pub use waiting::{has_no_host, has_no_port, waiting_words};
