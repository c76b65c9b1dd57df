//! Checks, before a session, that it can remove the lines of C. files from the disk.
ghost use Rattle.std.specs.Prelude.{IfErr};
ghost use Rattle.uug_error.specs.Faults.{IsFolderFault};

use std::alloc::Allocator;
use std::fs::File;
use std::rt::Files;
use uug_error::RunFault;
use uug_taylor_disk::{SpoolPaths, see_removable, see_rewritable};
use uug_taylor_queue::OpenLine;
use uug_taylor_text::{Room, Spot, data_spot};

/// Checks that a session can remove these lines from the disk, each with its copy, and can rewrite the C. file of the
/// first. A job whose line stays would be sent again in each session.
pub(crate) fn see_lines<A: Allocator + Copy, R: Files<File = File>>(
    alloc: A,
    rt: &R,
    paths: &SpoolPaths<A>,
    lines: &[OpenLine],
) -> Result<(), RunFault>
    ensures { IfErr result IsFolderFault }
{
    for line in lines {
        see_line(alloc, rt, paths, line)?;
    }
    match lines.first() {
        Some(line) => see_rewritable(alloc, rt, paths, &line.file),
        None => Ok(()),
    }
}

/// Checks that the C. file of a line, and its copy, can be removed.
fn see_line<A: Allocator + Copy, R: Files>(
    alloc: A,
    rt: &R,
    paths: &SpoolPaths<A>,
    line: &OpenLine,
) -> Result<(), RunFault>
    ensures { IfErr result IsFolderFault }
{
    let commands = Spot {
        room: Room::Commands,
        name: line.file,
    };
    see_removable(alloc, rt, paths, &commands)?;
    match &line.copy {
        Some(copy) => see_removable(alloc, rt, paths, &data_spot(copy)),
        None => Ok(()),
    }
}
