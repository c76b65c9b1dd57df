//! The files of the public folder, and of the listed folders elsewhere, that the other system may ask for.
ghost use Rattle.std.specs.Prelude.{◌<◌, ◌≡◌, true, IfErr, OnOk};
ghost use Rattle.uug_error.specs.Faults.{IsFolderFault};
ghost use Rattle.uug_taylor_run.specs.PublicNames.{AddsPublic, is_given, path_of};

use crate::spool_call::SpoolCall;
use crate::work::{Unread, note_unread, size_of, stored};
use std::alloc::{AllocError, Allocator};
use std::fs::File;
use std::rt::Files;
use uug_config::FolderRules;
use uug_error::RunFault;
use uug_session::Stored;
use uug_talk::{FILE_LIMIT_MAX, Name};
use uug_taylor_disk::{PublicListing, SpoolPaths, list_below, list_public, read_public};
use uug_taylor_queue::{PublicFolder, add_elsewhere, is_allowed, is_public_path, name_in};

/// The maximum number of names of files that are considered.
const PUBLIC_NAMES_MAX: usize = 1024;

/// The mode of the given files: everybody may read them.
const GIVEN_MODE: u16 = 0o644;

/// Lists the paths below the public folder, and in the folders elsewhere of this end's lists. If the system fails to list
/// them, notes that in `ungiven`, and returns an unknown listing.
pub(crate) fn look_at_public<A: Allocator + Copy, R: Files + Alloc + Clone + Drop>(
    ungiven: &mut Vec<Unread, A>,
    alloc: A,
    rt: &R,
    paths: &SpoolPaths<A>,
    rules: FolderRules<'_>,
) -> Result<PublicListing<A>, RunFault>
    ensures { IfErr result IsFolderFault }
{
    let mut elsewhere = Vec::new(alloc);
    add_elsewhere(&mut elsewhere, rules.gives)?;
    add_elsewhere(&mut elsewhere, rules.takes)?;
    match list_public(alloc, rt, paths, elsewhere.as_slice()) {
        Ok(listing) => Ok(listing),
        Err(fault) => {
            note_unread(ungiven, &public_folder(), fault)?;
            Ok(PublicListing::unknown(alloc))
        }
    }
}

/// The shared parameters of the functions that give files of the public folder.
#[derive(Drop)]
pub(crate) struct Giver<'a, A: Allocator, R> {
    alloc: A,
    rt: &'a R,
    paths: &'a SpoolPaths<A>,
    /// The list of folders from which files are given (see `is_allowed`).
    folders: &'a str,
    /// The maximum total size of the end's files, in bytes.
    most: u64,
}

impl<'a, A: Allocator, R> Giver<'a, A, R> {
    /// Returns the parameters for the end of a call.
    pub(crate) fn new(alloc: A, rt: &'a R, paths: &'a SpoolPaths<A>, call: &SpoolCall<'a>) -> Self
        ensures { result.folders ≡ call.now.spool.rules.gives }
    {
        Giver {
            alloc,
            rt,
            paths,
            folders: call.spool.rules.gives,
            most: call.allowance.bytes,
        }
    }
}

/// Adds the files that an end gives: files directly in the public folder, and files in the folders below it and
/// elsewhere. If the system fails to list such a folder, notes that in `ungiven`. Any file may then be given later.
pub(crate) fn add_given<A: Allocator + Copy, R: Files<File = File> + Alloc + Clone + Drop>(
    files: &mut Vec<Stored<A>, A>,
    ungiven: &mut Vec<Unread, A>,
    public: &mut PublicFolder<A>,
    giver: &Giver<'_, A, R>,
) -> Result<(), RunFault>
    ensures adds { OnOk result
        (AddsPublic giver.now.folders.now files.old.items files.new.items) }
    ensures no_other { IfErr result IsFolderFault }
{
    let mut names = top_names(giver.alloc, public.others.as_slice())?;
    let before = ungiven.len();
    add_names_below(&mut names, ungiven, giver, public.folders.as_slice())?;
    if ungiven.len() != before {
        public.is_unknown = true;
    }
    add_public(files, ungiven, giver, names.as_slice())
}

/// Returns the first names directly in the public folder, at most `PUBLIC_NAMES_MAX`.
fn top_names<A: Allocator>(alloc: A, others: &[Name]) -> Result<Vec<Name, A>, AllocError> {
    let mut names = Vec::new(alloc);
    for name in others.iter().take(PUBLIC_NAMES_MAX) {
        if !name.as_bytes().contains(&b'/') {
            names.push(*name)?;
        }
    }
    Ok(names)
}

/// Adds the names of the files in these folders, as `~/FOLDER/FILE` for one below the public folder. A folder that is
/// barred, or can't be listed, adds none. Stops once there are `PUBLIC_NAMES_MAX` names.
fn add_names_below<A: Allocator + Copy, R: Files + Alloc + Clone + Drop>(
    names: &mut Vec<Name, A>,
    ungiven: &mut Vec<Unread, A>,
    giver: &Giver<'_, A, R>,
    folders: &[Name],
) -> Result<(), RunFault>
    ensures { IfErr result IsFolderFault }
{
    for folder in folders {
        if names.len() >= PUBLIC_NAMES_MAX {
            break;
        }
        if is_allowed(giver.folders, folder.as_bytes()) {
            add_names_in(names, ungiven, giver, folder)?;
        }
    }
    Ok(())
}

/// Adds the names of the files in this folder. Notes the folder in `ungiven` if the system
/// fails to list it.
fn add_names_in<A: Allocator + Copy, R: Files + Alloc + Clone + Drop>(
    names: &mut Vec<Name, A>,
    ungiven: &mut Vec<Unread, A>,
    giver: &Giver<'_, A, R>,
    folder: &Name,
) -> Result<(), RunFault>
    ensures { IfErr result IsFolderFault }
{
    match list_below(giver.alloc, giver.rt, giver.paths, folder) {
        Ok(found) => {
            add_paths(names, folder, found.as_slice())?;
            Ok(())
        }
        Err(fault) => note_unread(ungiven, folder, fault),
    }
}

/// Adds the name of each of these files in this folder.
fn add_paths<A: Allocator>(
    names: &mut Vec<Name, A>,
    folder: &Name,
    found: &[Name],
) -> Result<(), AllocError> {
    for last in found {
        if let Some(name) = name_in(folder.as_bytes(), last.as_bytes()) {
            names.push(name)?;
        }
    }
    Ok(())
}

/// Adds the files of these names that everybody may read, and that the list of folders allows.
/// Skips a file if all files of the end would exceed the maximum total size. Notes a file in `ungiven` if the system
/// fails to read it.
fn add_public<A: Allocator + Copy, R: Files<File = File>>(
    files: &mut Vec<Stored<A>, A>,
    ungiven: &mut Vec<Unread, A>,
    giver: &Giver<'_, A, R>,
    names: &[Name],
) -> Result<(), RunFault>
    ensures adds { OnOk result
        (AddsPublic giver.now.folders.now files.old.items files.new.items) }
    ensures no_other { IfErr result IsFolderFault }
{
    let mut room = giver.most.saturating_sub(size_of(files.as_slice()));
    for name in names.iter().take(PUBLIC_NAMES_MAX) {
        add_file(files, ungiven, giver, name, &mut room)?;
    }
    Ok(())
}

/// Returns the name of the public folder in jobs: `~`.
fn public_folder() -> Name {
    let Ok(name) = Name::new(b"~") else {
        unreachable!();
    };
    name
}

/// Returns whether the file of this name may be given: its path is valid in a session, and the list of folders allows
/// it. Names of files of the spool are excluded: in a session they mean those files.
fn is_given(folders: &str, name: &Name) -> bool
    ensures { result ≡ is_given folders.now name.now }
{
    match path_of(name) {
        Some(path) => is_public_path(&path) && is_allowed(folders, path.as_bytes()),
        None => false,
    }
}

/// Returns the path of a file that is given under this name.
fn path_of(name: &Name) -> Option<Name>
    ensures { result ≡ path_of name.now }
{
    let name = name.as_bytes();
    Name::new(name.strip_prefix(b"~/".as_slice()).unwrap_or(name)).ok()
}

/// Adds the file of this name, if it may be given and there is room for it.
fn add_file<A: Allocator + Copy, R: Files<File = File>>(
    files: &mut Vec<Stored<A>, A>,
    ungiven: &mut Vec<Unread, A>,
    giver: &Giver<'_, A, R>,
    name: &Name,
    room: &mut u64,
) -> Result<(), RunFault>
    ensures adds { OnOk result
        (AddsPublic giver.now.folders.now files.old.items files.new.items) }
    ensures no_other { IfErr result IsFolderFault }
{
    if !is_given(giver.folders, name) {
        return Ok(());
    }
    let most = FILE_LIMIT_MAX.min(usize::try_from(*room).unwrap_or(FILE_LIMIT_MAX));
    let Some(bytes) = read_given(ungiven, giver, name, most)? else {
        return Ok(());
    };
    *room = room.saturating_sub(bytes.len() as u64);
    give(files, giver.folders, name, bytes)?;
    Ok(())
}

/// Adds a file that is given.
fn give<A: Allocator>(
    files: &mut Vec<Stored<A>, A>,
    folders: &str,
    name: &Name,
    bytes: Vec<u8, A>,
) -> Result<(), AllocError>
    requires { is_given folders.now name.now ≡ true }
    ensures { OnOk result (AddsPublic folders.now files.old.items files.new.items) }
{
    let _ = folders;
    files.reserve(1)?;
    files.push_reserved(stored(*name, GIVEN_MODE, bytes));
    Ok(())
}

/// Returns the bytes of the file of this name, if everybody may read it and it has at most `most` bytes. Notes
/// the file in `ungiven` if the system fails to read it.
fn read_given<A: Allocator + Copy, R: Files<File = File>>(
    ungiven: &mut Vec<Unread, A>,
    giver: &Giver<'_, A, R>,
    name: &Name,
    most: usize,
) -> Result<Option<Vec<u8, A>>, RunFault>
    requires { most < u64.MAX }
    ensures { IfErr result IsFolderFault }
{
    let Some(path) = path_of(name) else {
        return Ok(None);
    };
    match read_public(giver.alloc, giver.rt, giver.paths, &path, most) {
        Ok(found) => Ok(found),
        Err(fault) => {
            note_unread(ungiven, name, fault)?;
            Ok(None)
        }
    }
}
