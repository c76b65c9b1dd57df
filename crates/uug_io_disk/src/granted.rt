//! Evidence that the system has granted a lock.
ghost use Rattle.std.specs.Prelude.{IfErr, IsOk, OnOk};
ghost use Rattle.uug_error.specs.Faults.{IsFolderFault};

use std::fs::TryLockError;
use uug_error::{EndDir, RunFault, grant_lock};

/// Evidence that the system has granted the lock on a folder. Only `grant` makes it.
#[derive(Clone, Copy)]
pub(crate) struct Granted {
    _answer: (),
}

/// Returns the evidence that the lock on a folder was granted, if the system's answer says that it was.
pub(crate) fn grant(answer: Result<(), TryLockError>, dir: EndDir<'_>) -> Result<Granted, RunFault>
    ensures granted { OnOk result (IsOk answer) }
    ensures no_other { IfErr result IsFolderFault }
{
    match grant_lock(answer, dir) {
        Ok(()) => Ok(Granted { _answer: () }),
        Err(fault) => Err(fault),
    }
}
