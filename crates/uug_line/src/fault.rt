use std::alloc::AllocError;
use thiserror::Error;

/// An error that ends a run.
#[derive(Clone, Copy, Debug, PartialEq, Eq, Error)]
pub enum RunFault {
    /// Memory ran out.
    #[error("out of memory")]
    Memory,
    /// One end gives a file that is too large for the other, and what a run promises is not for such ends.
    #[error("a file of one end is too large for the other")]
    TooLarge,
}

impl From<AllocError> for RunFault {
    fn from(_refused: AllocError) -> RunFault {
        RunFault::Memory
    }
}
