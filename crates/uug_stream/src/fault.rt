ghost use Rattle.std.specs.Prelude.{◌≡◌};
ghost use Rattle.uug_stream.specs.Fault.{status_of, fault_of};
ghost use Rattle.uug_stream.specs.declared.fault.ToolFault.TheVariants.{Memory as memory, Read as read};

use crate::input::ReadFailed;
use crate::output::WriteFailed;
use std::alloc::AllocError;
use thiserror::Error;

/// The reason that a tool of the program gave up.
#[derive(Clone, Copy, Debug, PartialEq, Eq, Error)]
pub enum ToolFault {
    /// A read of the input failed.
    #[error("device fault")]
    Read,
    /// A write to the output failed, but not for memory.
    #[error("device fault")]
    Write,
    /// Memory ran out.
    #[error("out of memory")]
    Memory,
    /// The number of a script's first bad line, counted from 1.
    #[error("bad script at line {0}")]
    Script(usize),
    /// The number of the first bad line of a folder's jobs, counted from 1.
    #[error("bad jobs at line {0}")]
    Jobs(usize),
    /// A device gave more than the program accepts, or failed in another way.
    #[error("device fault")]
    Device,
    /// An argument is out of its range.
    #[error("bad usage")]
    Usage,
}

impl ToolFault {
    /// Returns the exit status of the program: 2 for an error in what the caller gave, 3 for devices, 4 for memory.
    pub fn status(self) -> u8
        ensures { result ≡ status_of self }
    {
        match self {
            ToolFault::Script(_) | ToolFault::Jobs(_) | ToolFault::Usage => 2,
            ToolFault::Device | ToolFault::Read | ToolFault::Write => 3,
            ToolFault::Memory => 4,
        }
    }
}

impl From<ReadFailed> for ToolFault {
    ghost from_gives = { λ _ fault. fault ≡ read };

    fn from(_refused: ReadFailed) -> ToolFault {
        ToolFault::Read
    }
}

impl From<WriteFailed> for ToolFault {
    ghost from_gives = { λ refused fault. fault ≡ fault_of refused };

    fn from(refused: WriteFailed) -> ToolFault {
        match refused {
            WriteFailed::Device => ToolFault::Write,
            WriteFailed::Memory => ToolFault::Memory,
        }
    }
}

impl From<AllocError> for ToolFault {
    ghost from_gives = { λ _ fault. fault ≡ memory };

    fn from(_refused: AllocError) -> ToolFault {
        ToolFault::Memory
    }
}
