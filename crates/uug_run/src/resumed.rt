//! The partial files of an end over a folder: the first bytes of files that were cut off, in the folder `partial` below
//! its own.
ghost use Rattle.std.specs.Prelude.{◌≡◌, IfOk, is_some};

use std::alloc::{AllocError, Allocator};
use std::rt::Files;
use std::time::Clock;
use uug_config::{CallTask, System};
use uug_io_disk::read_partials;
use uug_observe::log_fault;
use uug_observe_log::words_of;
use uug_session::{PartialFile, Partials};
use uug_talk::FileDigest;
use uug_taylor_run::hold_left;

/// Reads the partial files that an end holds, if it resumes.
pub(crate) fn read_held<A, R>(
    alloc: A,
    rt: &R,
    task: &CallTask<'_>,
) -> Result<Option<Partials<A>>, AllocError>
where
    A: Allocator + Copy,
    R: Files + Clock + Alloc + Clone + Drop,
    ensures { IfOk result (λ held. is_some held ≡ task.now.settings.is_resuming) }
{
    if !task.settings.is_resuming {
        return Ok(None);
    }
    let path = partial_path(alloc, task.dir)?;
    let held = read_partials(alloc, rt, path.as_str(), task.limits.allowance())?;
    Ok(Some(held))
}

/// Removes the partial files of the digests `over`, and saves `left`, the first bytes of the file that was cut off. If
/// that fails, logs why, and reports it on standard error.
pub(crate) fn hold_left_in<A: Allocator + Copy, R: System>(
    alloc: A,
    rt: &R,
    task: &CallTask<'_>,
    over: &[FileDigest],
    left: Result<Option<PartialFile<A>>, AllocError>,
) {
    if let Ok(path) = partial_path(alloc, task.dir) {
        if let Some(line) = hold_left(alloc, rt, path.as_str(), over, left) {
            log_fault(alloc, rt, task, words_of(line.as_str()));
        }
    }
}

/// Returns the path of an end's folder of partial files.
pub(crate) fn partial_path<A: Allocator>(alloc: A, dir: &str) -> Result<String<A>, AllocError> {
    format!(in alloc; "{dir}/partial")
}
