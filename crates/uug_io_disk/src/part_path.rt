//! Paths of files that are not complete yet.
ghost use Rattle.std.specs.Fs.{dir_entry_name};
ghost use Rattle.std.specs.Prelude.{◌≡◌, true};
ghost use Rattle.uug_io_disk.specs.Parts.{is_part};

use std::alloc::{AllocError, Allocator};
use std::fs::{DirEntry, File};
use std::io::ErrorKind;
use std::rt::Files;
use std::{fs, io};

/// The prefix of the name of an incomplete file.
pub(crate) const PART_FRONT: &str = ".part.";

/// Returns whether a name is that of an incomplete file.
pub(crate) fn is_part(name: &str) -> bool
    ensures { result ≡ is_part name.now }
{
    name.starts_with(PART_FRONT)
}

/// Removes an incomplete file. Ignores one that can't be removed: it does no harm.
pub(crate) fn remove_part<R: Files, A: Allocator>(rt: &R, entry: &DirEntry<R, A>)
    requires { is_part (dir_entry_name entry.now) ≡ true }
{
    let _ = fs::remove_file(rt, entry.path().as_str());
}

/// The maximum number of names that are tried for a file.
const TRIES_MAX: u32 = 1000;

/// The maximum number of digits of a count.
const COUNT_LEN: usize = 20;

/// The paths of incomplete files in a folder. Their names are `.part.`, the number of this process, a dot and a count.
/// A file is created only if its name is free, so nobody else's file is overwritten, no link is followed and no pipe is
/// opened.
#[derive(Drop)]
pub(crate) struct PartPath<A: Allocator> {
    /// The path before the count.
    front: String<A>,
    /// The path of the file that was created last, with room for every count.
    path: String<A>,
    count: u64,
}

impl<A: Allocator + Copy> PartPath<A> {
    /// Prepares paths in the folder `dir`. Allocates all memory that later calls need.
    pub(crate) fn new<R: Files>(alloc: A, rt: &R, dir: &str) -> Result<Self, AllocError> {
        let process = process_text(alloc, rt)?;
        let front = format!(in alloc; "{dir}/{PART_FRONT}{process}.")?;
        let mut path = String::new(alloc);
        path.reserve(front.len() + COUNT_LEN)?;
        Ok(PartPath {
            front,
            path,
            count: 0,
        })
    }
}

impl<A: Allocator> PartPath<A> {
    /// Creates a file under the next free name.
    pub(crate) fn create<R: Files>(&mut self, rt: &R) -> io::Result<R::File> {
        for _ in 0..TRIES_MAX {
            self.take_next()?;
            match File::create_new(rt, self.path.as_str()) {
                Err(error) if error.kind() == ErrorKind::AlreadyExists => (),
                made => return made,
            }
        }
        Err(io::Error::from(ErrorKind::AlreadyExists))
    }

    /// Returns the path of the file that was created last.
    pub(crate) fn as_str(&self) -> &str {
        self.path.as_str()
    }

    /// Sets the path to that with the next count.
    fn take_next(&mut self) -> Result<(), AllocError> {
        let front = self.front.as_str();
        let count = self.count;
        self.path.clear();
        write!(self.path, "{front}{count}")?;
        self.count = self.count.wrapping_add(1);
        Ok(())
    }
}

/// Returns the number of this process, to which `/proc/self` leads, or `self` if that can't be read.
pub(crate) fn process_text<A: Allocator + Copy, R: Files>(
    alloc: A,
    rt: &R,
) -> Result<String<A>, AllocError> {
    match rt.read_link(alloc, "/proc/self") {
        Ok(process) => Ok(process.into_string()),
        Err(error) if error.kind() == ErrorKind::OutOfMemory => Err(AllocError),
        Err(_) => String::from_str(alloc, "self"),
    }
}
