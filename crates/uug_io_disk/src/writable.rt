//! Checks that a session can write in the folder of an end, before its line is opened.
ghost use Rattle.std.specs.Prelude.{IfErr};
ghost use Rattle.uug_error.specs.Faults.{IsFolderFault};

use crate::part_path::PartPath;
use crate::system_text::{end_of_links, folder_of};
use std::alloc::Allocator;
use std::fs::{File, OpenFile, OpenOptions};
use std::io::ErrorKind;
use std::rt::Files;
use std::{fs, io};
use uug_error::{EndDir, EndText, Resource, RunFault};
use uug_session::Job;

/// Checks that a session of an end can write its files: the jobs if some are pending, the number if the end keeps one,
/// and files in `got`.
pub fn see_writable<A: Allocator + Copy, R: Files<File = File>>(
    alloc: A,
    rt: &R,
    dir: EndDir<'_>,
    jobs: &[Job],
    is_numbered: bool,
) -> Result<(), RunFault>
    ensures { IfErr result IsFolderFault }
{
    see_jobs(alloc, rt, dir, jobs)?;
    if is_numbered {
        see_text(alloc, rt, dir, EndText::Number)?;
    }
    see_got(alloc, rt, dir)
}

/// Checks that these jobs can be removed from `jobs`, and appended to `failed`. A job that can't be removed would be
/// sent again in each session.
pub fn see_jobs<A: Allocator + Copy, R: Files<File = File>>(
    alloc: A,
    rt: &R,
    dir: EndDir<'_>,
    jobs: &[Job],
) -> Result<(), RunFault>
    ensures { IfErr result IsFolderFault }
{
    if jobs.is_empty() {
        return Ok(());
    }
    see_text(alloc, rt, dir, EndText::Jobs)?;
    see_failed(alloc, rt, dir)
}

/// Checks that a file can be put into `got`.
fn see_got<A: Allocator + Copy, R: Files>(alloc: A, rt: &R, dir: EndDir<'_>) -> Result<(), RunFault>
    ensures { IfErr result IsFolderFault }
{
    let front = dir.path;
    let got = format!(in alloc; "{front}/got")?;
    match make_part(alloc, rt, got.as_str()) {
        Ok(()) => Ok(()),
        Err(error) => Err(RunFault::of(&error, dir, Resource::GotFolder)),
    }
}

/// Checks that this text can be replaced: a file can be put beside it, and the text can be removed.
fn see_text<A: Allocator + Copy, R: Files>(
    alloc: A,
    rt: &R,
    dir: EndDir<'_>,
    which: EndText,
) -> Result<(), RunFault>
    ensures { IfErr result IsFolderFault }
{
    let front = dir.path;
    let name = which.name();
    let path = end_of_links(alloc, rt, format!(in alloc; "{front}/{name}")?)?;
    let folder = folder_of(path.as_str());
    if let Err(error) = make_part(alloc, rt, folder) {
        let resource = if folder == front {
            Resource::Dir
        } else {
            Resource::Text(which)
        };
        return Err(RunFault::of(&error, dir, resource));
    }
    match see_removable(rt, path.as_str()) {
        Ok(()) => Ok(()),
        Err(error) => Err(RunFault::of(&error, dir, Resource::Text(which))),
    }
}

/// Checks that lines can be appended to the file of failed jobs, if there is one.
fn see_failed<A: Allocator + Copy, R: Files<File = File>>(
    alloc: A,
    rt: &R,
    dir: EndDir<'_>,
) -> Result<(), RunFault>
    ensures { IfErr result IsFolderFault }
{
    let front = dir.path;
    let which = EndText::Failed;
    let name = which.name();
    let path = format!(in alloc; "{front}/{name}")?;
    match OpenOptions::new().append(true).open(rt, path.as_str()) {
        Err(error) if error.kind() != ErrorKind::NotFound => {
            Err(RunFault::of(&error, dir, Resource::Text(which)))
        }
        _ => Ok(()),
    }
}

/// Creates an incomplete file in a folder, and removes it.
fn make_part<A: Allocator + Copy, R: Files>(alloc: A, rt: &R, folder: &str) -> io::Result<()> {
    let mut part = PartPath::new(alloc, rt, folder)?;
    let file = part.create(rt)?;
    drop(file);
    fs::remove_file(rt, part.as_str())
}

/// Checks that this run may remove a file, without removing it: calls `rmdir`, which fails on a file. The system checks
/// whether the name may be removed before it reports that the name is not a folder's. In a folder like `/tmp` a user
/// may not remove the names of others.
fn see_removable<R: Files>(rt: &R, path: &str) -> io::Result<()> {
    match fs::remove_dir(rt, path) {
        Err(error) if is_refusal(error.kind()) => Err(error),
        _ => Ok(()),
    }
}

/// Returns whether an error of this kind means that the system refuses the removal.
fn is_refusal(kind: ErrorKind) -> bool {
    matches!(
        kind,
        ErrorKind::PermissionDenied | ErrorKind::ReadOnlyFilesystem
    )
}
