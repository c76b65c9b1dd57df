ghost use Rattle.std.specs.Prelude.{◌≡◌};
ghost use Rattle.uug_sim_script.specs.Code.Refusals.{fault_at};
ghost use Rattle.uug_sim_script.specs.declared.fault.LineFault.TheVariants.{Memory as memory};

use std::alloc::AllocError;
use thiserror::Error;

/// An error of reading a script.
#[derive(Clone, Copy, Debug, PartialEq, Eq, Error)]
pub enum ScriptFault {
    /// The first bad line, counted from 1.
    #[error("bad script at line {0}")]
    Bad(usize),
    /// Memory ran out.
    #[error("out of memory")]
    Memory,
}

/// An error of adding a line.
#[derive(Clone, Copy, Debug, PartialEq, Eq)]
pub(crate) enum LineFault {
    /// The line is bad, by itself or after the lines before it.
    Bad,
    /// Memory ran out.
    Memory,
}

impl LineFault {
    /// Returns the error of the script whose line this was.
    pub(crate) fn at(self, line: usize) -> ScriptFault
        ensures { result ≡ fault_at line self }
    {
        match self {
            LineFault::Bad => ScriptFault::Bad(line),
            LineFault::Memory => ScriptFault::Memory,
        }
    }
}

impl From<AllocError> for LineFault {
    ghost from_gives = { λ _ fault. fault ≡ memory };

    fn from(_refused: AllocError) -> LineFault {
        LineFault::Memory
    }
}
