ghost use Rattle.std.specs.Prelude.{◌≡◌, ◌<◌, ◌≤◌, IfErr, IfOk, IsSome, None, OnOk};
ghost use Rattle.uug_session.specs.Engine.{HasFailed};
ghost use Rattle.uug_error.specs.Failures.{NotesFault};
ghost use Rattle.uug_error.specs.Faults.{IsFolderFault};
ghost use Rattle.uug_store.specs.TextFiles.{IsReadFault};

use crate::atomic_file::{replace_appended, replace_file};
use crate::part_path::PartPath;
use crate::pipe::is_pipe;
use crate::queued_line::is_at;
use crate::send_folder::read_text_at;
use crate::written::see_written;
use std::alloc::{AllocError, Allocator};
use std::fs::File;
use std::io::ErrorKind;
use std::rt::Files;
use std::{fs, io};
use uug_error::{Cause, EndDir, EndText, Faults, Resource, RunFault, SystemFailure};
use uug_store::{FolderFailed, TextFile};
use uug_stream::ToolFault;

/// A file in the folder of an end, whose text is replaced as a whole. If there is a link of its name, this is the file
/// to which the link leads, and the link stays.
#[derive(Drop)]
pub struct SystemText<'a, R: Files, A: Allocator> {
    rt: &'a R,
    dir: EndDir<'a>,
    which: EndText,
    /// The path of the incomplete text.
    part: PartPath<A>,
    path: String<A>,
    /// The folder of the file.
    folder: String<A>,
    /// The number of bytes that were last read from it, if it was read.
    read_len: Option<u64>,
    /// The file, while it is locked from its reading to its change.
    locked: Option<File>,
    faults: Faults,
}

impl<'a, R: Files, A: Allocator + Copy> SystemText<'a, R, A> {
    /// Prepares this file of an end. Allocates all memory that is needed to write it.
    pub fn new(alloc: A, rt: &'a R, dir: EndDir<'a>, which: EndText) -> Result<Self, AllocError>
        ensures { IfOk result (λ file. file.faults.count ≡ 0) }
    {
        let front = dir.path;
        let name = which.name();
        let path = end_of_links(alloc, rt, format!(in alloc; "{front}/{name}")?)?;
        let folder = String::from_str(alloc, folder_of(path.as_str()))?;
        Ok(SystemText {
            rt,
            dir,
            which,
            part: PartPath::new(alloc, rt, folder.as_str())?,
            path,
            folder,
            read_len: None,
            locked: None,
            faults: Faults::none(),
        })
    }
}

impl<'a, R: Files, A: Allocator> SystemText<'a, R, A> {
    /// Returns the text that is in the file now, or an empty one if there is no file.
    pub(crate) fn read_now<B: Allocator + Copy>(&mut self, alloc: B) -> Result<Vec<u8, B>, RunFault>
        ensures stands { OnOk result (self.new.faults ≡ self.old.faults) }
        ensures fault { IfErr result (λ fault.
            NotesFault fault self.old.faults.count self.new.faults.count) }
        ensures no_other { IfErr result IsFolderFault }
    {
        let text = text_or_none(alloc, self.rt, self.dir, self.which, self.path.as_str());
        match &text {
            Ok(text) => self.read_len = Some(text.len() as u64),
            Err(fault) => self.faults.note_fault(*fault),
        }
        text
    }

    /// Unlocks the file.
    pub(crate) fn unlock(&mut self)
        ensures { self.new.faults ≡ self.old.faults }
    {
        self.locked = None;
    }

    /// Returns the folder of its end.
    pub(crate) fn dir(&self) -> EndDir<'a> {
        self.dir
    }

    /// Returns the runtime that makes the system calls on the file.
    pub(crate) fn runtime(&self) -> &'a R {
        self.rt
    }

    /// Counts a failed system call.
    pub(crate) fn note(&mut self, resource: Resource, cause: Cause)
        ensures counted { HasFailed u64.MAX self.old.faults.count self.new.faults.count }
        ensures grows { self.old.faults.count ≤ self.new.faults.count }
    {
        self.faults.note(self.dir.failure(resource, cause));
    }

    /// Returns the first failure of a system call on the file, if there was one.
    pub fn failure(&self) -> Option<SystemFailure>
        ensures told { 0 < self.now.faults.count → IsSome result }
    {
        self.faults.first()
    }
}

impl<R: Files<File = File>, A: Allocator> SystemText<'_, R, A> {
    /// Locks the file, as everybody does who changes `jobs`, and returns its text. Waits for the lock. It stays locked
    /// until it is replaced or unlocked.
    pub(crate) fn read_locked<B: Allocator + Copy>(
        &mut self,
        alloc: B,
    ) -> Result<Vec<u8, B>, ToolFault>
        ensures stands { OnOk result (self.new.faults.count ≡ self.old.faults.count) }
        ensures fault { IfErr result (λ fault.
            IsReadFault fault self.old.faults.count self.new.faults.count) }
    {
        self.locked = None;
        match lock_at(self.rt, self.path.as_str()) {
            Ok(locked) => self.locked = locked,
            Err(error) => {
                self.note(Resource::Text(self.which), Cause::of(&error));
                return Err(ToolFault::Device);
            }
        }
        self.read(alloc)
    }
}

impl<R: Files<File = File>, A: Allocator> TextFile for SystemText<'_, R, A> {
    ghost text = { λ _. None };

    ghost fault_count = { λ file. file.faults.count };

    fn read<B: Allocator + Copy>(&mut self, alloc: B) -> Result<Vec<u8, B>, ToolFault> {
        match self.read_now(alloc) {
            Ok(text) => Ok(text),
            Err(fault) => Err(fault.answer()),
        }
    }

    /// Replaces the text. Bytes that were appended to the file since it was read stay, after the new text.
    fn replace(&mut self, bytes: &[u8]) -> Result<(), FolderFailed> {
        let path = self.path.as_str();
        let dir = self.folder.as_str();
        let old = self.locked.take();
        let replaced = match self.read_len {
            Some(len) => replace_appended(self.rt, &mut self.part, dir, path, bytes, old, len),
            None => replace_file(self.rt, &mut self.part, dir, path, bytes),
        };
        match replaced {
            Ok(written) => {
                see_written(written, bytes);
                Ok(())
            }
            Err(error) => {
                self.note(Resource::Text(self.which), Cause::of(&error));
                Err(FolderFailed)
            }
        }
    }

    fn faults(&self) -> u64 {
        self.faults.count()
    }
}

/// The maximum number of times in a row that another file may replace one while its lock is waited for.
const LOCKS_MAX: u32 = 1000;

/// Opens the file at a path and locks it, once it is still there with its lock. Returns `None` for a missing file or a
/// pipe.
pub(crate) fn lock_at<R: Files<File = File>>(rt: &R, path: &str) -> io::Result<Option<File>> {
    for _ in 0..LOCKS_MAX {
        if is_pipe(rt, path) {
            return Ok(None);
        }
        let file = match File::open(rt, path) {
            Ok(file) => file,
            Err(error) if error.kind() == ErrorKind::NotFound => return Ok(None),
            Err(error) => return Err(error),
        };
        file.lock()?;
        if is_at(rt, &file, path) {
            return Ok(Some(file));
        }
    }
    Err(io::Error::from(ErrorKind::WouldBlock))
}

/// Returns the path to which a link leads, or the path itself if it is no link or can't be resolved.
pub(crate) fn end_of_links<A: Allocator + Copy, R: Files>(
    alloc: A,
    rt: &R,
    path: String<A>,
) -> Result<String<A>, AllocError> {
    match fs::symlink_metadata(rt, path.as_str()) {
        Ok(metadata) if metadata.is_symlink() => (),
        _ => return Ok(path),
    }
    match rt.canonicalize(alloc, path.as_str()) {
        Ok(end) => Ok(end.into_string()),
        Err(error) if error.kind() == ErrorKind::OutOfMemory => Err(AllocError),
        Err(_) => Ok(path),
    }
}

/// Returns the folder of the file at a path.
pub(crate) fn folder_of(path: &str) -> &str {
    match path.rsplit_once('/') {
        Some(("", _)) => "/",
        Some((folder, _)) => folder,
        None => ".",
    }
}

/// Returns the text of this file of an end, which is at this path. A missing file has an empty text.
fn text_or_none<B: Allocator + Copy, R: Files>(
    alloc: B,
    rt: &R,
    dir: EndDir<'_>,
    which: EndText,
    path: &str,
) -> Result<Vec<u8, B>, RunFault>
    ensures { IfErr result IsFolderFault }
{
    match read_text_at(alloc, rt, dir, which, path)? {
        Some(text) => Ok(text),
        None => Ok(Vec::new(alloc)),
    }
}
