//! The reasons why a run over the system gave up.
ghost use Rattle.std.specs.Prelude.{◌≡◌, IfErr, IsOk, OnOk};
ghost use Rattle.uug_error.specs.Failures.{fault_of_run, fault_with};
ghost use Rattle.uug_error.specs.Faults.{IsFolderFault};
ghost use Rattle.uug_error.specs.declared.run_fault.RunFault.TheVariants.{Tool as tool};
ghost use Rattle.uug_stream.specs.declared.fault.ToolFault.TheVariants.{Memory as memory};

use crate::failure::{Cause, EndDir, Resource, SystemFailure};
use std::alloc::AllocError;
use std::fs::TryLockError;
use std::io;
use std::io::ErrorKind;
use uug_stream::ToolFault;

/// The maximum number of times in a row that a listing of a folder is repeated because a signal ended it.
pub const LISTINGS_MAX: u32 = 100;

/// The reason why a run gave up.
#[derive(Clone, Copy, Debug)]
pub enum RunFault {
    /// A system call failed. The program's fault is `ToolFault::Device`.
    System(SystemFailure),
    /// A file that the task names can't be read. The program's fault is `ToolFault::Read`.
    Unread(SystemFailure),
    /// Another fault, which is the program's fault.
    Tool(ToolFault),
}

impl RunFault {
    /// Returns the fault of a run that gives up over an error of the system. An `OutOfMemory` error without an error
    /// number is memory that was refused, and becomes `ToolFault::Memory`. The system's own error for it has a number,
    /// and is a failed call.
    pub fn of(error: &io::Error, dir: EndDir<'_>, resource: Resource) -> RunFault
        ensures { IsFolderFault result }
    {
        if error.kind() == ErrorKind::OutOfMemory && error.raw_os_error().is_none() {
            RunFault::Tool(ToolFault::Memory)
        } else {
            RunFault::System(dir.failure(resource, Cause::of(error)))
        }
    }

    /// Returns the fault of a run with this answer. `first` is the first failed system call, if one failed.
    pub fn with(answer: ToolFault, first: Option<SystemFailure>) -> RunFault
        ensures { result ≡ fault_with answer first }
    {
        match (answer, first) {
            (ToolFault::Device, Some(failure)) => RunFault::System(failure),
            (ToolFault::Read, Some(failure)) => RunFault::Unread(failure),
            (answer, _) => RunFault::Tool(answer),
        }
    }

    /// Returns the program's fault.
    pub fn answer(self) -> ToolFault
        ensures { result ≡ fault_of_run self }
    {
        match self {
            RunFault::System(_) => ToolFault::Device,
            RunFault::Unread(_) => ToolFault::Read,
            RunFault::Tool(fault) => fault,
        }
    }
}

/// Converts the result of a call that locks a folder. Returns `Ok` only if the lock was granted. A lock that is already
/// held is the failure `Cause::InUse`.
pub fn grant_lock(answer: Result<(), TryLockError>, dir: EndDir<'_>) -> Result<(), RunFault>
    ensures granted { OnOk result (IsOk answer) }
    ensures no_other { IfErr result IsFolderFault }
{
    match answer {
        Ok(()) => Ok(()),
        Err(TryLockError::WouldBlock) => {
            Err(RunFault::System(dir.failure(Resource::Dir, Cause::InUse)))
        }
        Err(TryLockError::Error(error)) => Err(RunFault::of(&error, dir, Resource::Dir)),
    }
}

/// Returns whether a run gave up because a signal interrupted a system call.
pub fn was_interrupted<T>(ended: &Result<T, RunFault>) -> bool {
    match ended {
        Err(RunFault::System(failure)) => match failure.cause {
            Cause::Refused(kind, _) => kind == ErrorKind::Interrupted,
            _ => false,
        },
        _ => false,
    }
}

impl From<AllocError> for RunFault {
    ghost from_gives = { λ _ fault. fault ≡ tool memory };

    fn from(_refused: AllocError) -> RunFault {
        RunFault::Tool(ToolFault::Memory)
    }
}

impl From<ToolFault> for RunFault {
    ghost from_gives = { λ answer fault. fault ≡ tool answer };

    fn from(answer: ToolFault) -> RunFault {
        RunFault::Tool(answer)
    }
}
