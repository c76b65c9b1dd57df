ghost use Rattle.std.specs.Prelude.{◌≡◌};
ghost use Rattle.uug_sim_ladder.specs.declared.fault.LadderFault.TheVariants.{Memory as memory};

use std::alloc::AllocError;
use thiserror::Error;

/// An error of drawing a ladder.
#[derive(Clone, Copy, Debug, PartialEq, Eq, Error)]
pub enum LadderFault {
    /// The first bad line of the script, counted from 1.
    #[error("bad script at line {0}")]
    Script(usize),
    /// Memory ran out.
    #[error("out of memory")]
    Memory,
}

impl From<AllocError> for LadderFault {
    ghost from_gives = { λ _ fault. fault ≡ memory };

    fn from(_refused: AllocError) -> LadderFault {
        LadderFault::Memory
    }
}
