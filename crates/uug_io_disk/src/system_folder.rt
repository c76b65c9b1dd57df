ghost use Rattle.std.specs.Prelude.{◌≡◌, ◌+◌, ◌<◌, ◌≤◌, ◌++◌, [], length, IfOk, IsSome, None, string_bytes, string_len, string_capacity};
ghost use Rattle.uug_talk.specs.declared.name.TheConstants.{NAME_MAX};
ghost use Rattle.uug_io_disk.specs.Barred.{barred_by};

use crate::atomic_file::replace_file;
use crate::part_path::PartPath;
use crate::written::see_written;
use std::alloc::{AllocError, Allocator};
use std::fs::DirEntry;
use std::io::ErrorKind;
use std::rt::Files;
use std::{fs, io};
use uug_conversation::has_name;
use uug_error::{Cause, EndDir, Faults, Resource, SystemFailure};
use uug_store::{Folder, FolderFailed};
use uug_talk::{NAME_MAX, Name};

/// The maximum number of folders in `got` whose names are barred.
pub(crate) const FOLDERS_MAX: usize = 256;

/// The folder `got` of an end, with the files that the end has received. The folder is not created here.
#[derive(Drop)]
pub struct SystemFolder<'a, R: Files, A: Allocator> {
    rt: &'a R,
    /// The folder of the end.
    end: EndDir<'a>,
    /// The path of a file until it is complete.
    part: PartPath<A>,
    /// The path of `got`.
    dir: String<A>,
    /// The path before a file's name.
    front: String<A>,
    /// The path of a file, with room for every name.
    path: String<A>,
    /// The names of folders in `got`, which are barred.
    folders: Vec<Name, A>,
    /// The maximum number of bytes of a name in `got`.
    longest: usize,
    faults: Faults,
    ghost room: { string_len front + NAME_MAX ≤ string_capacity path },
}

impl<'a, R: Files, A: Allocator + Copy> SystemFolder<'a, R, A> {
    /// Prepares the folder `got` of an end. Allocates all memory that later calls need. Bars no name, so each name
    /// under which no file can be put causes a fault.
    pub fn new(alloc: A, rt: &'a R, end: EndDir<'a>) -> Result<Self, AllocError>
        ensures calm { IfOk result (λ folder.
            ⟦<SystemFolder<'a, R, A> as Folder>⟧.fault_count folder ≡ 0) }
        ensures folders { IfOk result (λ folder. folder.folders.items ≡ []) }
        ensures longest { IfOk result (λ folder. folder.longest ≡ NAME_MAX) }
    {
        let own = end.path;
        let dir = format!(in alloc; "{own}/got")?;
        let front = format!(in alloc; "{dir}/")?;
        let part = PartPath::new(alloc, rt, dir.as_str())?;
        let mut path = String::new(alloc);
        path.reserve(front.len() + NAME_MAX)?;
        Ok(SystemFolder {
            rt,
            end,
            part,
            dir,
            front,
            path,
            folders: Vec::new(alloc),
            longest: NAME_MAX,
            faults: Faults::none(),
        })
    }

    /// Prepares the same folder, but bars the names of folders that are in it now, up to `FOLDERS_MAX`, and names that
    /// are too long for the system.
    pub fn looking(alloc: A, rt: &'a R, end: EndDir<'a>) -> Result<Self, AllocError>
    where
        R: Alloc + Clone + Drop,
        ensures { IfOk result (λ folder.
            ⟦<SystemFolder<'a, R, A> as Folder>⟧.fault_count folder ≡ 0) }
    {
        let mut folder = Self::new(alloc, rt, end)?;
        folder.longest = longest_name(alloc, rt, folder.front.as_str())?;
        folder.folders = folder_names(alloc, rt, folder.dir.as_str())?;
        Ok(folder)
    }
}

impl<R: Files, A: Allocator> SystemFolder<'_, R, A> {
    /// Returns the first failure of a system call on this folder, if there was one.
    pub fn failure(&self) -> Option<SystemFailure>
        ensures told { 0 < self.now.faults.count → IsSome result }
    {
        self.faults.first()
    }
}

impl<R: Files, A: Allocator> Folder for SystemFolder<'_, R, A> {
    ghost placed = { λ _. None };

    ghost fault_count = { λ folder. folder.faults.count };

    fn put(&mut self, name: &Name, bytes: &[u8]) -> Result<(), FolderFailed> {
        set_path(&mut self.path, self.front.as_str(), name);
        let dir = self.dir.as_str();
        let path = self.path.as_str();
        match replace_file(self.rt, &mut self.part, dir, path, bytes) {
            Ok(written) => {
                see_written(written, bytes);
                Ok(())
            }
            Err(error) => {
                let resource = Resource::Got(*name);
                self.faults
                    .note(self.end.failure(resource, Cause::of(&error)));
                Err(FolderFailed)
            }
        }
    }

    fn faults(&self) -> u64 {
        self.faults.count()
    }

    ghost barred = { λ folder. barred_by folder.folders.items folder.longest };

    fn is_barred(&self, name: &Name) -> bool {
        if name.as_bytes().len() <= self.longest {
            has_name(self.folders.as_slice(), name.as_bytes())
        } else {
            true
        }
    }
}

/// Returns the names of the folders in the one at this path, up to `FOLDERS_MAX`. A folder that can't be read has none.
fn folder_names<A: Allocator + Copy, R: Files + Alloc + Clone + Drop>(
    alloc: A,
    rt: &R,
    dir: &str,
) -> Result<Vec<Name, A>, AllocError>
    ensures { IfOk result (λ names. length names.items ≤ FOLDERS_MAX) }
{
    let mut names = Vec::new(alloc);
    let Ok(entries) = fs::read_dir(rt, dir) else {
        return Ok(names);
    };
    for entry in entries {
        if names.len() >= FOLDERS_MAX {
            break;
        }
        if let Some(name) = folder_name(entry) {
            names.push(name)?;
        }
    }
    Ok(names)
}

/// Returns the name of an entry, if it is a folder.
fn folder_name<R: Files + Drop, A: Allocator>(entry: io::Result<DirEntry<R, A>>) -> Option<Name> {
    let entry = entry.ok()?;
    if entry.file_type().ok()?.is_dir() {
        Name::new(entry.file_name().as_bytes()).ok()
    } else {
        None
    }
}

/// Returns the maximum number of bytes that a name may have after this front.
fn longest_name<A: Allocator + Copy, R: Files>(
    alloc: A,
    rt: &R,
    front: &str,
) -> Result<usize, AllocError>
    ensures { IfOk result (λ longest. longest ≤ NAME_MAX) }
{
    let mut path = longest_path(alloc, front)?;
    for len in (1..=NAME_MAX).rev() {
        if !is_too_long(rt, path.as_str()) {
            return Ok(len);
        }
        path.pop();
    }
    Ok(0)
}

/// Returns this front with a name of `NAME_MAX` bytes after it.
fn longest_path<A: Allocator + Copy>(alloc: A, front: &str) -> Result<String<A>, AllocError> {
    let mut path = String::from_str(alloc, front)?;
    for _ in 0..NAME_MAX {
        path.push('n')?;
    }
    Ok(path)
}

/// Returns whether the system reports that a path is too long.
fn is_too_long<R: Files>(rt: &R, path: &str) -> bool {
    match fs::symlink_metadata(rt, path) {
        Ok(_) => false,
        Err(error) => error.kind() == ErrorKind::InvalidFilename,
    }
}

/// Returns a name as text.
fn name_text(name: &Name) -> &str
    ensures text { result.now ≡ name.now }
    ensures most { length result.now ≤ NAME_MAX }
{
    let Ok(text) = str::from_utf8(name.as_bytes()) else {
        unreachable!();
    };
    text
}

/// Writes the path of the file of this name into `path`, which has room for it.
fn set_path<A: Allocator>(path: &mut String<A>, front: &str, name: &Name)
    requires room { length front.now + NAME_MAX ≤ string_capacity path.old }
    ensures path { string_bytes path.new ≡ front.now ++ name.now }
    ensures room { string_capacity path.old ≤ string_capacity path.new }
{
    path.clear();
    let Ok(()) = path.push_str(front) else {
        unreachable!();
    };
    let Ok(()) = path.push_str(name_text(name)) else {
        unreachable!();
    };
}
