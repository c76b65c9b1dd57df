ghost use Rattle.std.specs.Prelude.{◌≡◌};
ghost use Rattle.uug_transfer.specs.declared.session_fault.SessionFault.TheVariants.{Memory as memory};

use std::alloc::AllocError;
use thiserror::Error;

/// The reason why an end left its line before its session was over.
#[derive(Clone, Copy, Debug, PartialEq, Eq, Error)]
pub enum SessionFault {
    /// The results of its jobs could not be stored.
    #[error("device fault")]
    Jobs,
    /// Its number could not be written.
    #[error("device fault")]
    Number,
    /// Memory ran out.
    #[error("out of memory")]
    Memory,
}

impl From<AllocError> for SessionFault {
    ghost from_gives = { λ _ fault. fault ≡ memory };

    fn from(_refused: AllocError) -> SessionFault {
        SessionFault::Memory
    }
}
