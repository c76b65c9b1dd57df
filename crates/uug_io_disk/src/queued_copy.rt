//! The copy in `send` of a file that a person queues.
ghost use Rattle.std.specs.IoError.{error_kind};
ghost use Rattle.std.specs.Prelude.{◌≡◌, ◌≤◌, ◌↔◌, false, true, IfErr, IfOk, IfSome, length};
ghost use Rattle.uug_io_disk.specs.Copies.{is_needed_by};
ghost use Rattle.uug_error.specs.Faults.{IsCopyFault, IsFolderFault};
ghost use Rattle.uug_talk.specs.declared.gather.TheConstants.{FILE_LIMIT_MAX};

use crate::atomic_file::{see_folder, write_synced};
use crate::copy_place::is_taken;
use crate::part_path::PartPath;
use crate::send_folder::{path_in_send, read_file};
use crate::written::see_written;
use std::alloc::{AllocError, Allocator};
use std::fs::{File, OpenFile};
use std::io::ErrorKind;
use std::os::unix::fs::MetadataExt;
use std::rt::Files;
use std::{fs, io};
use uug_error::{Cause, EndDir, Resource, RunFault, SystemFailure};
use uug_session::Job;
use uug_store::{local_source, nth_name};
use uug_stream::ToolFault;
use uug_talk::{FILE_LIMIT_MAX, Name};

/// The prefix of a mark's name, before the name of the copy. The mark is a hard link to the copy, and shows that the
/// copy is ours.
pub(crate) const COPY_FRONT: &str = ".copy.";

/// The prefix instead of `COPY_FRONT` once the copy's job is done. Only then is the copy removed: a job whose line is
/// missing may come back.
pub(crate) const SPARE_FRONT: &str = ".spare.";

/// The folder with the copies of failed jobs. It is beside the file `failed`, which lists these jobs.
pub(crate) const FAILED_FILES: &str = "failed.files";

/// The maximum number of names that are tried for a copy.
pub(crate) const NAMES_MAX: u32 = 1_000_000;

/// Returns the bytes of the file to copy. It must be a regular one, of at most `FILE_LIMIT_MAX` bytes.
pub(crate) fn read_copied<A: Allocator + Copy, R: Files>(
    alloc: A,
    rt: &R,
    path: &str,
) -> Result<Vec<u8, A>, RunFault>
    ensures within { IfOk result (λ bytes. length bytes.items ≤ FILE_LIMIT_MAX) }
    ensures no_other { IfErr result IsCopyFault }
{
    match read_regular(alloc, rt, path) {
        Ok(Some(bytes)) => Ok(bytes),
        Ok(None) => Err(unread_for(Cause::TooMuch)),
        Err(error) => Err(unread(&error)),
    }
}

/// Returns the fault of a file that can't be read.
pub(crate) fn unread(error: &io::Error) -> RunFault
    ensures { IsCopyFault result }
{
    if error.kind() == ErrorKind::OutOfMemory {
        RunFault::Tool(ToolFault::Memory)
    } else if is_no_file(error) {
        unread_for(Cause::NotAFile)
    } else {
        unread_for(Cause::of(error))
    }
}

fn unread_for(cause: Cause) -> RunFault
    ensures { IsCopyFault result }
{
    RunFault::Unread(SystemFailure::on(Resource::Input, cause))
}

/// Returns whether an error is not the system's, but means that there is no regular file.
fn is_no_file(error: &io::Error) -> bool {
    error.kind() == ErrorKind::InvalidInput && error.raw_os_error().is_none()
}

/// Returns the bytes of a regular file, or `None` if they are more than `FILE_LIMIT_MAX`. Opens nothing else: a pipe
/// would wait for a writer.
fn read_regular<A: Allocator + Copy, R: Files>(
    alloc: A,
    rt: &R,
    path: &str,
) -> io::Result<Option<Vec<u8, A>>>
    ensures { IfOk result (λ found. IfSome found (λ bytes. length bytes.items ≤ FILE_LIMIT_MAX)) }
{
    let found = fs::metadata(rt, path)?;
    if !found.is_file() {
        return Err(io::Error::from(ErrorKind::InvalidInput));
    }
    if found.len() > FILE_LIMIT_MAX as u64 {
        return Ok(None);
    }
    read_file(alloc, rt, path, FILE_LIMIT_MAX)
}

/// A copy in `send`.
#[derive(Drop)]
pub(crate) struct Copied<A: Allocator> {
    /// Its name.
    pub(crate) name: Name,
    path: String<A>,
    mark: String<A>,
    /// The path to which it moves when its job has failed.
    aside: String<A>,
}

impl<A: Allocator> Copied<A> {
    /// Removes it and its mark. A copy that can't be removed keeps its mark, so the next run removes it.
    pub(crate) fn remove<R: Files>(&self, rt: &R) {
        if is_gone(fs::remove_file(rt, self.path.as_str())) {
            let _ = fs::remove_file(rt, self.mark.as_str());
        }
    }

    /// Marks it as ours: renames the incomplete file, which is a link to it, to its mark. If that fails, removes the
    /// incomplete file, and the copy stays without a mark.
    fn mark<R: Files>(&self, rt: &R, part: &str) {
        if fs::rename(rt, part, self.mark.as_str()).is_err() {
            let _ = fs::remove_file(rt, part);
        }
    }

    /// Returns whether it and its mark are still the same file.
    fn is_marked<R: Files>(&self, rt: &R) -> io::Result<bool> {
        is_same(rt, self.path.as_str(), self.mark.as_str())
    }

    /// Removes the mark, if the copy is gone or is another file by now. A copy that can't be checked keeps its mark.
    pub(crate) fn clear_mark<R: Files>(&self, rt: &R) {
        match self.is_marked(rt) {
            Ok(true) => (),
            Err(error) if error.kind() != ErrorKind::NotFound => (),
            _ => {
                let _ = fs::remove_file(rt, self.mark.as_str());
            }
        }
    }

    /// Renames its mark to that of another state.
    pub(crate) fn mark_as<R: Files>(&self, rt: &R, other: &Copied<A>) {
        let _ = fs::rename(rt, self.mark.as_str(), other.mark.as_str());
    }

    /// Removes it, if it and its mark are still the same file, and then the mark. No pending job may send it. A copy
    /// that can't be removed or checked keeps its mark, so the next run removes it.
    pub(crate) fn clear<R: Files>(&self, rt: &R, _waiting: &[Job])
        requires { is_needed_by self.now.name _waiting.now ≡ false }
    {
        match self.is_marked(rt) {
            Ok(true) => self.remove(rt),
            Err(error) if error.kind() != ErrorKind::NotFound => (),
            _ => {
                let _ = fs::remove_file(rt, self.mark.as_str());
            }
        }
    }

    /// Moves it to the files of failed jobs in this folder of an end. It is on disk there before it is removed here. If
    /// it can't be linked there, or another file has its name there, it stays. No pending job may send it.
    pub(crate) fn set_aside<R: Files>(
        &self,
        rt: &R,
        front: &str,
        failed_files: &str,
        waiting: &[Job],
    )
        requires { is_needed_by self.now.name waiting.now ≡ false }
    {
        if self.link_aside(rt, front, failed_files).is_ok() {
            self.clear(rt, waiting);
        }
    }

    /// Links it into the folder of the files of failed jobs, and syncs that. Creates a missing folder.
    fn link_aside<R: Files>(&self, rt: &R, front: &str, failed_files: &str) -> io::Result<()> {
        let mark = self.mark.as_str();
        let aside = self.aside.as_str();
        match fs::hard_link(rt, mark, aside) {
            Ok(()) => (),
            Err(error)
                if error.kind() == ErrorKind::AlreadyExists
                    && is_same(rt, mark, aside).unwrap_or(false) => (),
            Err(error) if error.kind() == ErrorKind::NotFound => {
                fs::create_dir(rt, failed_files)?;
                see_folder(rt, front)?;
                fs::hard_link(rt, mark, aside)?;
            }
            Err(error) => return Err(error),
        }
        see_folder(rt, failed_files)
    }
}

/// Puts a copy with these bytes into `send`, under the name `base` or the first free one with a number. A name is free
/// if no file in `send` or among those of failed jobs has it, and `is_taken` is false for it. So no pending job ever
/// sends this copy instead of its own file. Nor does a job that the text `failed` lists, unless its source is written
/// with `~/` or `/` before the name. Overwrites nothing. Until the copy is complete, it has another name.
pub(crate) fn place_copy<A: Allocator + Copy, R: Files + Alloc + Clone + Drop>(
    alloc: A,
    rt: &R,
    dir: EndDir<'_>,
    base: &Name,
    waiting: &[Job],
    failed: &[u8],
    bytes: &[u8],
) -> Result<Copied<A>, RunFault>
    ensures { IfErr result IsFolderFault }
{
    let front = dir.path;
    let send = format!(in alloc; "{front}/send")?;
    let mut part = PartPath::new(alloc, rt, send.as_str())?;
    if let Err(error) = write_part(rt, &mut part, bytes) {
        return Err(RunFault::of(&error, dir, Resource::Send));
    }
    let copy = match link_free(alloc, rt, dir, part.as_str(), base, waiting, failed) {
        Ok(copy) => copy,
        Err(fault) => {
            let _ = fs::remove_file(rt, part.as_str());
            return Err(fault);
        }
    };
    copy.mark(rt, part.as_str());
    match see_folder(rt, send.as_str()) {
        Ok(()) => Ok(copy),
        Err(error) => {
            copy.remove(rt);
            Err(RunFault::of(&error, dir, Resource::Send))
        }
    }
}

/// Writes a new incomplete file, and syncs it to disk. Removes it if that fails.
fn write_part<A: Allocator, R: Files>(
    rt: &R,
    part: &mut PartPath<A>,
    bytes: &[u8],
) -> io::Result<()> {
    let mut file = part.create(rt)?;
    match write_synced::<R>(&mut file, bytes) {
        Ok(written) => {
            see_written(written, bytes);
            Ok(())
        }
        Err(error) => {
            let _ = fs::remove_file(rt, part.as_str());
            Err(error)
        }
    }
}

/// Links the file at `part` to the first free name.
fn link_free<A: Allocator + Copy, R: Files>(
    alloc: A,
    rt: &R,
    dir: EndDir<'_>,
    part: &str,
    base: &Name,
    waiting: &[Job],
    failed: &[u8],
) -> Result<Copied<A>, RunFault>
    ensures { IfErr result IsFolderFault }
{
    for n in 0..NAMES_MAX {
        let Some(name) = nth_name(alloc, base, n)? else {
            break;
        };
        let copy = marked_as(alloc, dir, SPARE_FRONT, name)?;
        if is_there(rt, copy.aside.as_str()) || is_taken(waiting, failed, &name) {
            continue;
        }
        match fs::hard_link(rt, part, copy.path.as_str()) {
            Ok(()) => return Ok(copy),
            Err(error) if error.kind() == ErrorKind::AlreadyExists => (),
            Err(error) => return Err(RunFault::of(&error, dir, Resource::Given(name))),
        }
    }
    let taken = io::Error::from(ErrorKind::AlreadyExists);
    Err(RunFault::of(&taken, dir, Resource::Given(*base)))
}

/// Returns whether there is anything at a path, as far as the system shows it.
fn is_there<R: Files>(rt: &R, path: &str) -> bool {
    fs::symlink_metadata(rt, path).is_ok()
}

/// Returns the copy of this name in `send`, which a job needs.
pub(crate) fn copied_as<A: Allocator + Copy>(
    alloc: A,
    dir: EndDir<'_>,
    name: Name,
) -> Result<Copied<A>, AllocError>
    ensures { IfOk result (λ copy. copy.name ≡ name) }
{
    marked_as(alloc, dir, COPY_FRONT, name)
}

/// Returns the copy of this name in `send`, whose mark has this prefix.
pub(crate) fn marked_as<A: Allocator + Copy>(
    alloc: A,
    dir: EndDir<'_>,
    mark: &str,
    name: Name,
) -> Result<Copied<A>, AllocError>
    ensures { IfOk result (λ copy. copy.name ≡ name) }
{
    let front = dir.path;
    let text = name.as_str();
    Ok(Copied {
        name,
        path: path_in_send(alloc, dir, &name)?,
        mark: format!(in alloc; "{front}/send/{mark}{text}")?,
        aside: path_with_failed(alloc, dir, &name)?,
    })
}

/// Marks the copies of these jobs, which are done, with `SPARE_FRONT`. If a mark can't be renamed, its copy stays.
pub fn mark_done<A: Allocator + Copy, R: Files>(
    alloc: A,
    rt: &R,
    dir: EndDir<'_>,
    done: &[Job],
) -> Result<(), AllocError> {
    for job in done {
        if let Some(name) = local_copy(job) {
            let waiting = copied_as(alloc, dir, name)?;
            let over = marked_as(alloc, dir, SPARE_FRONT, name)?;
            waiting.mark_as(rt, &over);
        }
    }
    Ok(())
}

/// Returns the name of the file in `send` that a job sends.
fn local_copy(job: &Job) -> Option<Name> {
    match job {
        Job::Send { source, .. } => local_source(source),
        Job::Request { .. } => None,
    }
}

/// Returns the path of a file among those of failed jobs, in the folder of an end.
pub(crate) fn path_with_failed<A: Allocator + Copy>(
    alloc: A,
    dir: EndDir<'_>,
    name: &Name,
) -> Result<String<A>, AllocError> {
    let front = dir.path;
    let name = name.as_str();
    format!(in alloc; "{front}/{FAILED_FILES}/{name}")
}

/// Returns whether the file of this name in `send` is a copy that `queue` has made.
pub(crate) fn is_copy<A: Allocator + Copy, R: Files>(
    alloc: A,
    rt: &R,
    dir: EndDir<'_>,
    name: Name,
) -> Result<bool, AllocError> {
    let copy = copied_as(alloc, dir, name)?;
    Ok(copy.is_marked(rt).unwrap_or(false))
}

/// Returns whether two paths are names of one file.
fn is_same<R: Files>(rt: &R, path: &str, other: &str) -> io::Result<bool> {
    let file = fs::metadata(rt, path)?;
    let other = fs::metadata(rt, other)?;
    Ok(file.dev() == other.dev() && file.ino() == other.ino())
}

/// Returns whether a file is gone, by the result of its removal.
fn is_gone(removed: io::Result<()>) -> bool
    ensures removed { IfOk removed (λ _. result ≡ true) }
    ensures missing { IfErr removed (λ error.
        (result ≡ true) ↔ (error_kind error ≡ ErrorKind.NotFound)) }
{
    match removed {
        Ok(()) => true,
        Err(error) => error.kind() == ErrorKind::NotFound,
    }
}
