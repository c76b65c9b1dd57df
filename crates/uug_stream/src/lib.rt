//! Inputs and outputs of bytes, over devices or in memory. It also has the faults of the program's tools, which read
//! inputs and write outputs.
#![tactic(auto)]

mod fault;
mod input;
mod memory_input;
mod memory_output;
mod output;

pub use fault::ToolFault;
pub use input::{Input, ReadFailed};
pub use memory_input::MemoryInput;
pub use memory_output::MemoryOutput;
pub use output::{Output, WriteFailed, write_all};
