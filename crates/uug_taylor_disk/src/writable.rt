//! Checks, before a session, that it can remove and rewrite files of a spool.
ghost use Rattle.std.specs.Prelude.{IfErr};
ghost use Rattle.uug_error.specs.Faults.{IsFolderFault};

use crate::spool_disk::{make_file, remove_file};
use crate::spool_paths::SpoolPaths;
use std::alloc::Allocator;
use std::fs::File;
use std::io::ErrorKind;
use std::rt::Files;
use std::{fs, io};
use uug_error::{Resource, RunFault};
use uug_talk::Name;
use uug_taylor_text::{Room, Spot};

/// Checks that this run may remove the file at a spot, without removing it: tries to remove a folder at this path. The
/// system checks the permission before it finds that there is no folder.
pub fn see_removable<A: Allocator + Copy, R: Files>(
    alloc: A,
    rt: &R,
    paths: &SpoolPaths<A>,
    spot: &Spot,
) -> Result<(), RunFault>
    ensures { IfErr result IsFolderFault }
{
    let path = paths.file(alloc, spot)?;
    match fs::remove_dir(rt, path.as_str()) {
        Err(error) if is_refusal(error.kind()) => {
            Err(RunFault::of(&error, paths.end_dir(), Resource::Dir))
        }
        _ => Ok(()),
    }
}

/// Checks that the C. file of this name can be rewritten: creates a temporary file of this name, and removes it.
pub fn see_rewritable<A: Allocator + Copy, R: Files<File = File>>(
    alloc: A,
    rt: &R,
    paths: &SpoolPaths<A>,
    name: &Name,
) -> Result<(), RunFault>
    ensures { IfErr result IsFolderFault }
{
    let part = Spot {
        room: Room::Temporary,
        name: *name,
    };
    match make_and_remove(alloc, rt, paths, &part) {
        Ok(()) => Ok(()),
        Err(error) => Err(RunFault::of(&error, paths.end_dir(), Resource::Dir)),
    }
}

/// Creates an empty file, and removes it.
fn make_and_remove<A: Allocator + Copy, R: Files<File = File>>(
    alloc: A,
    rt: &R,
    paths: &SpoolPaths<A>,
    spot: &Spot,
) -> io::Result<()> {
    make_file(alloc, rt, paths, spot, b"")?;
    remove_file(alloc, rt, paths, spot)
}

/// Returns whether an error of this kind means that this run may not remove the file.
fn is_refusal(kind: ErrorKind) -> bool {
    matches!(
        kind,
        ErrorKind::PermissionDenied | ErrorKind::ReadOnlyFilesystem
    )
}
