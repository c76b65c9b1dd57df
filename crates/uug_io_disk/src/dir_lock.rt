//! The lock on the folder of an end, which only one run holds at a time.
ghost use Rattle.std.specs.Prelude.{◌≡◌, IfErr};
ghost use Rattle.uug_error.specs.Faults.{IsFolderFault};

use crate::granted::{Granted, grant};
use crate::part_path::{is_part, remove_part};
use crate::pipe::is_pipe;
use std::alloc::{AllocError, Allocator};
use std::fs::File;
use std::io::ErrorKind;
use std::rt::Files;
use std::{fs, io};
use uug_error::{Cause, EndDir, EndText, Resource, RunFault};
use uug_session::Job;
use uug_store::sends_any;

/// The lock on the folder of an end. The system releases it when this is dropped, and when the process dies. The
/// functions with which a session reads the jobs, the number or the files of an end take it as an argument, so they
/// can't read before the folder is locked.
#[derive(Drop)]
pub struct DirLock<A: Allocator> {
    _file: File,
    _granted: Granted,
    path: String<A>,
    number: usize,
}

impl<A: Allocator> DirLock<A> {
    /// Returns the folder that is locked.
    pub fn dir(&self) -> EndDir<'_>
        ensures { result.number ≡ self.now.number }
    {
        EndDir {
            path: self.path.as_str(),
            number: self.number,
        }
    }
}

/// Locks the folder of an end, and removes incomplete files that killed runs left. Creates nothing in the folder.
/// Returns the failure `Cause::InUse` if another run holds the lock.
pub fn lock_dir<A: Allocator + Copy, R: Files<File = File> + Alloc + Clone + Drop>(
    alloc: A,
    rt: &R,
    dir: EndDir<'_>,
) -> Result<DirLock<A>, RunFault>
    ensures no_other { IfErr result IsFolderFault }
{
    let path = String::from_str(alloc, dir.path)?;
    let file = match open_dir(rt, dir.path) {
        Ok(file) => file,
        Err(error) => return Err(RunFault::of(&error, dir, Resource::Dir)),
    };
    let granted = grant(file.try_lock(), dir)?;
    clear_dir(alloc, rt, dir.path)?;
    Ok(DirLock {
        _file: file,
        _granted: granted,
        path,
        number: dir.number,
    })
}

/// Checks that the folder of an end exists.
pub fn see_dir<R: Files>(rt: &R, dir: EndDir<'_>) -> Result<(), RunFault>
    ensures no_other { IfErr result IsFolderFault }
{
    match open_dir(rt, dir.path) {
        Ok(_) => Ok(()),
        Err(error) => Err(RunFault::of(&error, dir, Resource::Dir)),
    }
}

/// Checks that an end's folder has the folders that a session with these jobs needs: `got`, and `send` if one of the
/// jobs sends a file. Also checks that `failed` is not a pipe.
pub fn see_folders<A: Allocator + Copy, R: Files>(
    alloc: A,
    rt: &R,
    dir: EndDir<'_>,
    jobs: &[Job],
) -> Result<(), RunFault>
    ensures no_other { IfErr result IsFolderFault }
{
    see_below(alloc, rt, dir, "got", Resource::GotFolder)?;
    if sends_any(jobs) {
        see_below(alloc, rt, dir, "send", Resource::Send)?;
    }
    see_failed(alloc, rt, dir)
}

/// Checks that the file of failed jobs is not a pipe: opening it would wait for a reader.
fn see_failed<A: Allocator + Copy, R: Files>(
    alloc: A,
    rt: &R,
    dir: EndDir<'_>,
) -> Result<(), RunFault>
    ensures { IfErr result IsFolderFault }
{
    let front = dir.path;
    let name = EndText::Failed.name();
    let path = format!(in alloc; "{front}/{name}")?;
    if is_pipe(rt, path.as_str()) {
        let resource = Resource::Text(EndText::Failed);
        return Err(RunFault::System(dir.failure(resource, Cause::NotAFile)));
    }
    Ok(())
}

/// Checks that the folder of an end has a folder of this name.
fn see_below<A: Allocator + Copy, R: Files>(
    alloc: A,
    rt: &R,
    dir: EndDir<'_>,
    name: &str,
    resource: Resource,
) -> Result<(), RunFault>
    ensures { IfErr result IsFolderFault }
{
    let front = dir.path;
    let path = format!(in alloc; "{front}/{name}")?;
    match open_dir(rt, path.as_str()) {
        Ok(_) => Ok(()),
        Err(error) => Err(RunFault::of(&error, dir, resource)),
    }
}

/// Opens a folder. Anything else is an error, and is not opened: a pipe would wait for a writer.
pub(crate) fn open_dir<R: Files>(rt: &R, dir: &str) -> io::Result<R::File> {
    if fs::metadata(rt, dir)?.is_dir() {
        File::open(rt, dir)
    } else {
        Err(io::Error::from(ErrorKind::NotADirectory))
    }
}

/// Removes incomplete files in `dir` and in `got` below it. Ignores one that can't be removed: it does no harm.
fn clear_dir<A: Allocator + Copy, R: Files + Alloc + Clone + Drop>(
    alloc: A,
    rt: &R,
    dir: &str,
) -> Result<(), AllocError> {
    let got = format!(in alloc; "{dir}/got")?;
    remove_parts(rt, dir);
    remove_parts(rt, got.as_str());
    Ok(())
}

/// Removes the files in a folder that have names of incomplete files.
fn remove_parts<R: Files + Alloc + Clone + Drop>(rt: &R, dir: &str) {
    let Ok(entries) = fs::read_dir(rt, dir) else {
        return;
    };
    for entry in entries {
        // a name that is not text belongs to no file of this program
        let Ok(entry) = entry else {
            continue;
        };
        if is_part(entry.file_name()) {
            remove_part(rt, &entry);
        }
    }
}
