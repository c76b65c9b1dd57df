//! The paths below the public folder, and in the listed folders elsewhere.
ghost use Rattle.std.specs.Prelude.{◌≡◌, IfErr};
ghost use Rattle.uug_error.specs.Faults.{IsFolderFault};
ghost use Rattle.uug_taylor_disk.specs.Access.{is_anothers, is_closed};

use crate::spool_files::within_reach;
use crate::spool_paths::SpoolPaths;
use std::alloc::{AllocError, Allocator};
use std::fs::{DirEntry, Metadata, ReadDir};
use std::io::ErrorKind;
use std::os::unix::fs::MetadataExt;
use std::rt::Files;
use std::{fs, io};
use uug_error::{Resource, RunFault};
use uug_talk::Name;
use uug_taylor_text::{Room, Spot};

/// The maximum number of folders that are listed besides the public folder, and of their entries in all.
const BELOW_MAX: usize = 4096;

/// The paths below the public folder, and the whole paths in the listed folders elsewhere, that are valid in a session.
#[derive(Drop)]
pub struct PublicListing<A: Allocator> {
    /// The paths of the folders.
    pub folders: Vec<Name, A>,
    /// The paths of everything else: files, links. Those directly in the public folder come first.
    pub others: Vec<Name, A>,
    /// The paths of the files that this program can't replace, and of the folders in which it can't create any.
    pub barred: Vec<Name, A>,
    /// Set if this program can't store anything directly in the public folder.
    pub is_closed: bool,
    /// Set if the system failed to list it.
    pub is_unknown: bool,
}

/// A folder to list.
#[derive(Clone, Copy)]
struct Listed<'a> {
    /// Its path, or `None` for the public folder itself.
    path: Option<&'a Name>,
    access: Access,
    /// The user as whom this program runs.
    me: u32,
    /// The size of the listing at which it is complete.
    most: usize,
}

impl Listed<'_> {
    /// Returns the path of an entry of this folder, if it is valid in a session.
    fn path_of<A: Allocator + Copy>(
        &self,
        alloc: A,
        entry: &[u8],
    ) -> Result<Option<Name>, AllocError> {
        let Ok(name) = Name::new(entry) else {
            return Ok(None);
        };
        let Some(folder) = self.path else {
            return Ok(Some(name));
        };
        let (folder, name) = (folder.as_str(), name.as_str());
        let path = format!(in alloc; "{folder}/{name}")?;
        Ok(Name::new(path.as_bytes()).ok())
    }
}

/// The owner and the mode of a file.
#[derive(Clone, Copy)]
struct Access {
    owner: u32,
    mode: u32,
}

impl Access {
    fn of(metadata: &Metadata) -> Self {
        Access {
            owner: metadata.uid(),
            mode: metadata.mode(),
        }
    }
}

/// Returns whether a user certainly can't create files in a folder. Either it belongs to another user, and neither its
/// group nor everybody may write there; or it is the user's own, and they may not. Root always may.
fn is_closed(folder: Access, me: u32) -> bool
    ensures { result ≡ is_closed folder.owner folder.mode me }
{
    let bits = if folder.owner == me { 0o200 } else { 0o022 };
    me != 0 && folder.mode & bits == 0
}

/// Returns whether a user can't replace a file. Neither the file nor its folder is theirs, and the folder lets each
/// user remove only their own files. Root always can.
fn is_anothers(folder: Access, owner: u32, me: u32) -> bool
    ensures { result ≡ is_anothers folder.owner folder.mode owner me }
{
    me != 0 && folder.mode & 0o1000 != 0 && folder.owner != me && owner != me
}

impl<A: Allocator + Copy> PublicListing<A> {
    /// Returns the listing of an empty folder.
    pub fn empty(alloc: A) -> Self {
        PublicListing {
            folders: Vec::new(alloc),
            others: Vec::new(alloc),
            barred: Vec::new(alloc),
            is_closed: false,
            is_unknown: false,
        }
    }

    /// Returns the listing of a folder that the system failed to list.
    pub fn unknown(alloc: A) -> Self {
        let mut listing = PublicListing::empty(alloc);
        listing.is_unknown = true;
        listing
    }

    /// Adds a folder, unless it is elsewhere and known: one of the listed folders may be below another.
    fn add_folder(&mut self, path: Name) -> Result<(), AllocError> {
        let is_known = path.as_str().starts_with('/')
            && self
                .folders
                .iter()
                .any(|known| known.as_bytes() == path.as_bytes());
        if !is_known {
            self.folders.push(path)?;
        }
        Ok(())
    }

    /// Returns the number of its entries.
    fn len(&self) -> usize {
        self.folders.len().saturating_add(self.others.len())
    }

    /// Adds the entries of a folder, until the listing is complete.
    fn add_all<R: Files + Alloc + Clone + Drop>(
        &mut self,
        alloc: A,
        entries: ReadDir<R, R::A>,
        folder: &Listed<'_>,
    ) -> io::Result<()> {
        for entry in entries {
            if self.len() >= folder.most {
                return Ok(());
            }
            match entry {
                Ok(entry) => self.add(alloc, &entry, folder)?,
                Err(error) if error.kind() == ErrorKind::InvalidFilename => (),
                Err(error) => return Err(error),
            }
        }
        Ok(())
    }

    /// Adds an entry, if its path is valid in a session. A file that has vanished is skipped.
    fn add<R: Files + Alloc + Clone + Drop>(
        &mut self,
        alloc: A,
        entry: &DirEntry<R, R::A>,
        folder: &Listed<'_>,
    ) -> io::Result<()> {
        let Some(path) = folder.path_of(alloc, entry.file_name().as_bytes())? else {
            return Ok(());
        };
        match entry.metadata() {
            Ok(seen) if seen.is_dir() => self.add_folder(path)?,
            Ok(seen) => {
                if is_anothers(folder.access, seen.uid(), folder.me) {
                    self.barred.push(path)?;
                }
                self.others.push(path)?;
            }
            Err(error) if error.kind() == ErrorKind::NotFound => (),
            Err(error) => return Err(error),
        }
        Ok(())
    }
}

/// Lists the public folder, and the folders elsewhere of these whole paths. A missing folder is empty.
pub fn list_public<A: Allocator + Copy, R: Files + Alloc + Clone + Drop>(
    alloc: A,
    rt: &R,
    paths: &SpoolPaths<A>,
    elsewhere: &[Name],
) -> Result<PublicListing<A>, RunFault>
    ensures { IfErr result IsFolderFault }
{
    match read_listing(alloc, rt, paths, elsewhere) {
        Ok(listing) => Ok(listing),
        Err(error) => Err(RunFault::of(&error, paths.end_dir(), Resource::Dir)),
    }
}

/// Lists the public folder at this path, then at most `BELOW_MAX` folders below it and elsewhere, which have as many
/// entries at most.
fn read_listing<A: Allocator + Copy, R: Files + Alloc + Clone + Drop>(
    alloc: A,
    rt: &R,
    paths: &SpoolPaths<A>,
    elsewhere: &[Name],
) -> io::Result<PublicListing<A>> {
    let me = user_of(rt);
    let mut listing = match read_top(alloc, rt, paths.public(), me) {
        Err(error) if error.kind() == ErrorKind::NotFound => PublicListing::empty(alloc),
        read => read?,
    };
    for folder in elsewhere {
        if is_folder(fs::symlink_metadata(rt, folder.as_str())) {
            listing.add_folder(*folder)?;
        }
    }
    let most = listing.len().saturating_add(BELOW_MAX);
    for count in 0..BELOW_MAX {
        let Some(folder) = listing.folders.get(count).copied() else {
            break;
        };
        add_below(&mut listing, alloc, rt, paths, &folder, me, most)?;
    }
    Ok(listing)
}

/// Returns whether a path is a folder, from its metadata.
fn is_folder(seen: io::Result<Metadata>) -> bool {
    match seen {
        Ok(seen) => seen.is_dir(),
        Err(_) => false,
    }
}

/// Lists what is directly in the public folder at this path.
fn read_top<A: Allocator + Copy, R: Files + Alloc + Clone + Drop>(
    alloc: A,
    rt: &R,
    public: &str,
    me: u32,
) -> io::Result<PublicListing<A>> {
    let top = Listed {
        path: None,
        access: Access::of(&fs::metadata(rt, public)?),
        me,
        most: usize::MAX,
    };
    let mut listing = PublicListing::empty(alloc);
    listing.is_closed = is_closed(top.access, top.me);
    listing.add_all(alloc, fs::read_dir(rt, public)?, &top)?;
    Ok(listing)
}

/// Adds the entries of the folder of this path. One that this program can't read adds none.
fn add_below<A: Allocator + Copy, R: Files + Alloc + Clone + Drop>(
    listing: &mut PublicListing<A>,
    alloc: A,
    rt: &R,
    paths: &SpoolPaths<A>,
    folder: &Name,
    me: u32,
    most: usize,
) -> io::Result<()> {
    let spot = Spot {
        room: Room::Public,
        name: *folder,
    };
    let path = paths.file(alloc, &spot)?;
    match within_reach(open_folder(rt, path.as_str()))? {
        Some((access, entries)) => {
            if is_closed(access, me) {
                listing.barred.push(*folder)?;
            }
            let folder = Listed {
                path: Some(folder),
                access,
                me,
                most,
            };
            listing.add_all(alloc, entries, &folder)
        }
        None => Ok(()),
    }
}

/// Opens the folder at this path to list it. Anything else is out of reach.
fn open_folder<R: Files + Alloc + Clone + Drop>(
    rt: &R,
    path: &str,
) -> io::Result<Option<(Access, ReadDir<R, R::A>)>> {
    let seen = fs::symlink_metadata(rt, path)?;
    if !seen.is_dir() {
        return Ok(None);
    }
    Ok(Some((Access::of(&seen), fs::read_dir(rt, path)?)))
}

/// Returns the user as whom this program runs, or root if the system does not report it: then it is tried.
fn user_of<R: Files>(rt: &R) -> u32 {
    match fs::metadata(rt, "/proc/self") {
        Ok(process) => process.uid(),
        Err(_) => 0,
    }
}
