//! The outcome of a run over the system.
ghost use Rattle.std.specs.Prelude.{◌≡◌, [], string_bytes};
ghost use Rattle.uug_error.specs.Outcomes.{ended_of};

use crate::failure::SystemFailure;
use crate::run_fault::RunFault;
use std::alloc::Allocator;
use uug_stream::ToolFault;

/// The outcome of a run: its result, and lines for standard error.
#[derive(Drop)]
pub struct Outcome<T, A: Allocator> {
    /// The result of the run, or the reason why it gave up.
    pub answer: Result<T, RunFault>,
    /// Lines for standard error. There are none if the text is empty.
    pub remark: String<A>,
}

impl<T, A: Allocator> Outcome<T, A> {
    /// Creates the outcome of a run with this answer and no remark.
    pub fn of(alloc: A, answer: Result<T, RunFault>) -> Outcome<T, A>
        ensures answer { result.answer ≡ answer }
        ensures remark { string_bytes result.remark ≡ [] }
    {
        Outcome {
            answer,
            remark: String::new(alloc),
        }
    }
}

/// The outcome of a session that was not given up.
#[derive(Clone, Copy, Debug, PartialEq, Eq)]
pub struct Ended {
    /// The program's status.
    pub status: u8,
    /// The first failed system call on the files of the end, if one failed.
    pub failure: Option<SystemFailure>,
}

impl Ended {
    /// Returns the outcome of a session with this answer, or the reason why it was given up. `failure` is the first
    /// failed system call on the files of the end, if one failed.
    pub fn of(
        answer: Result<u8, ToolFault>,
        failure: Option<SystemFailure>,
    ) -> Result<Ended, RunFault>
        ensures { result ≡ ended_of answer failure }
    {
        match answer {
            Ok(status) => Ok(Ended { status, failure }),
            Err(fault) => Err(RunFault::with(fault, failure)),
        }
    }
}
