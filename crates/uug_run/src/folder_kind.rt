//! The kind of a task's folder: that of an end, or a Taylor UUCP spool.
ghost use Rattle.std.specs.Prelude.{IfErr};
ghost use Rattle.uug_error.specs.Faults.{IsFolderFault};

use std::alloc::{AllocError, Allocator};
use std::fs;
use std::rt::Files;
use uug_error::{Cause, EndDir, Resource, RunFault};

/// Checks that the folder of an end is not a spool: it has `got`, or none of the folders of a used spool.
pub(crate) fn see_no_spool<A: Allocator + Copy, R: Files>(
    alloc: A,
    rt: &R,
    dir: EndDir<'_>,
) -> Result<(), RunFault>
    ensures { IfErr result IsFolderFault }
{
    if has_folder(alloc, rt, dir.path, "got")? || !is_spool(alloc, rt, dir.path)? {
        return Ok(());
    }
    Err(RunFault::System(dir.failure(Resource::Dir, Cause::IsSpool)))
}

/// Checks that a spool is not the folder of an end. The folder of an end has the file `jobs`, or the folders `send` and
/// `got`, and none of the folders of a used spool.
pub(crate) fn see_no_folder<A: Allocator + Copy, R: Files>(
    alloc: A,
    rt: &R,
    dir: EndDir<'_>,
) -> Result<(), RunFault>
    ensures { IfErr result IsFolderFault }
{
    if !is_end(alloc, rt, dir.path)? || is_spool(alloc, rt, dir.path)? {
        return Ok(());
    }
    Err(RunFault::System(dir.failure(Resource::Dir, Cause::NoSpool)))
}

/// Returns whether a folder has what the folder of an end has: the file `jobs`, or the folders `send` and `got`.
fn is_end<A: Allocator + Copy, R: Files>(alloc: A, rt: &R, dir: &str) -> Result<bool, AllocError> {
    let jobs = format!(in alloc; "{dir}/jobs")?;
    if let Ok(found) = fs::metadata(rt, jobs.as_str()) {
        if found.is_file() {
            return Ok(true);
        }
    }
    Ok(has_folder(alloc, rt, dir, "send")? && has_folder(alloc, rt, dir, "got")?)
}

/// Returns whether a folder has one of two folders that every used spool has: `.Status` and `.Sequence`.
fn is_spool<A: Allocator + Copy, R: Files>(
    alloc: A,
    rt: &R,
    dir: &str,
) -> Result<bool, AllocError> {
    Ok(has_folder(alloc, rt, dir, ".Status")? || has_folder(alloc, rt, dir, ".Sequence")?)
}

/// Returns whether a folder has a folder of this name in it.
fn has_folder<A: Allocator + Copy, R: Files>(
    alloc: A,
    rt: &R,
    dir: &str,
    name: &str,
) -> Result<bool, AllocError> {
    let path = format!(in alloc; "{dir}/{name}")?;
    match fs::metadata(rt, path.as_str()) {
        Ok(found) => Ok(found.is_dir()),
        Err(_) => Ok(false),
    }
}
