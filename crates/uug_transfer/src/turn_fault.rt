ghost use Rattle.std.specs.Prelude.{◌≡◌};
ghost use Rattle.uug_transfer.specs.declared.turn_fault.TurnFault.TheVariants.{Line as line, Memory as memory};

use crate::line::LineFailed;
use std::alloc::AllocError;
use thiserror::Error;

/// The reason why two ends could not go on.
#[derive(Clone, Copy, Debug, PartialEq, Eq, Error)]
pub enum TurnFault {
    /// The line failed.
    #[error("device fault")]
    Line,
    /// Memory ran out.
    #[error("out of memory")]
    Memory,
}

impl From<LineFailed> for TurnFault {
    ghost from_gives = { λ _ fault. fault ≡ line };

    fn from(_failed: LineFailed) -> TurnFault {
        TurnFault::Line
    }
}

impl From<AllocError> for TurnFault {
    ghost from_gives = { λ _ fault. fault ≡ memory };

    fn from(_refused: AllocError) -> TurnFault {
        TurnFault::Memory
    }
}
