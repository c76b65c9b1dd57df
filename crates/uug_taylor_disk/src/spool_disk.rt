//! The operations on the folders of a spool on a disk.
ghost use Rattle.std.specs.IoError.{error_kind};
ghost use Rattle.std.specs.Prelude.{◌≡◌, ◌≢◌, ◌<◌, ◌≤◌, true, IfErr, IsErr, IsOk, IsSome, None, Ok, OnErr, OnOk};
ghost use Rattle.uug_taylor_text.specs.SpoolNames.{spot_of};
ghost use Rattle.uug_taylor_text.specs.declared.spool_names.Room.TheVariants as rooms;
ghost use Rattle.uug_taylor_text.specs.declared.spool_names.Spot.{Spot};
ghost use Rattle.uug_taylor_text.specs.Operations.{HasFault};
ghost use Rattle.uug_taylor_disk.specs.Reach.{is_absent};

use crate::call_files::is_named_pipe;
use crate::spool_files::{folders_above, is_found};
use crate::spool_paths::SpoolPaths;
use std::alloc::Allocator;
use std::fs::{File, OpenFile, OpenOptions};
use std::io::{ErrorKind, Write};
use std::os::unix::fs::{MetadataExt, OpenOptionsExt};
use std::rt::Files;
use std::{fs, io};
use uug_error::{Cause, Faults, Resource, SystemFailure};
use uug_talk::Name;
use uug_taylor_text::{Disk, DiskFailed, Room, Spot, spot_of};

/// The name of the file that lists jobs that have failed, in the folder of preserved files.
const TOLD: &str = "failed";

/// The maximum number of preserved files of one name. All but the first have a number after it.
const PRESERVED_MAX: u32 = 10_000;

/// The mode of a file in the public folder, before the process's umask: everybody may read and write.
const PUBLIC_MODE: u32 = 0o666;

/// The mode of any other file: only its owner may read and write.
const PRIVATE_MODE: u32 = 0o600;

/// A received file that was moved into its place.
#[derive(Clone, Copy)]
pub struct Arrived {
    /// Its place.
    pub spot: Spot,
    /// Its size in bytes.
    pub size: u64,
}

/// A file that was preserved.
#[derive(Drop)]
pub struct Preserved<A: Allocator> {
    /// Its former name.
    pub name: Name,
    /// Its path.
    pub path: String<A>,
}

/// The folders of a spool on a disk. A missing folder is created when a file is put in it.
#[derive(Drop)]
pub struct SpoolDisk<'a, 'p, R, A: Allocator> {
    rt: &'a R,
    paths: &'p SpoolPaths<A>,
    alloc: A,
    faults: Faults,
    /// The size in bytes of the last file created in `Room::Temporary`.
    size: u64,
    arrived: Vec<Arrived, A>,
    preserved: Vec<Preserved<A>, A>,
}

impl<'a, 'p, R: Files<File = File>, A: Allocator + Copy> SpoolDisk<'a, 'p, R, A> {
    /// Creates the disk over the folders of this spool.
    pub fn new(alloc: A, rt: &'a R, paths: &'p SpoolPaths<A>) -> Self
        ensures calm { ⟦<SpoolDisk<'a, 'p, R, A> as Disk>⟧.fault_count result ≡ 0 }
    {
        SpoolDisk {
            rt,
            paths,
            alloc,
            faults: Faults::none(),
            size: 0,
            arrived: Vec::new(alloc),
            preserved: Vec::new(alloc),
        }
    }
}

impl<R, A: Allocator> SpoolDisk<'_, '_, R, A> {
    /// Returns the first failure of a system call, if there was one.
    pub fn failure(&self) -> Option<SystemFailure>
        ensures told { 0 < self.now.faults.count → IsSome result }
    {
        self.faults.first()
    }

    /// Returns the received files that were moved into their places, as far as there was memory to record them.
    pub fn arrived(&self) -> &[Arrived] {
        self.arrived.as_slice()
    }

    /// Returns the files that were preserved, as far as there was memory to record them.
    pub fn preserved(&self) -> &[Preserved<A>] {
        self.preserved.as_slice()
    }

    /// Records a preserved file, if there is memory.
    fn note_preserved(&mut self, name: &Name, path: String<A>)
        ensures { self.new.faults ≡ self.old.faults }
    {
        let _ = self.preserved.push(Preserved { name: *name, path });
    }

    /// Records a received file that was moved into its place, if there is memory. Other files are not recorded.
    fn note_moved(&mut self, from: &Spot, to: &Spot)
        ensures { self.new.faults ≡ self.old.faults }
    {
        if from.room == Room::Temporary && to.room != Room::Commands {
            let arrived = Arrived {
                spot: *to,
                size: self.size,
            };
            let _ = self.arrived.push(arrived);
        }
    }

    /// Converts the result of a system call, and records a failure.
    fn answer(&mut self, answer: io::Result<()>) -> Result<(), DiskFailed>
        ensures calm { OnOk result (self.new.faults.count ≡ self.old.faults.count) }
        ensures fault { OnErr result
            (HasFault u64.MAX self.old.faults.count self.new.faults.count) }
        ensures grows { self.old.faults.count ≤ self.new.faults.count }
    {
        match answer {
            Ok(()) => Ok(()),
            Err(error) => {
                let failure = self
                    .paths
                    .end_dir()
                    .failure(Resource::Dir, Cause::of(&error));
                self.faults.note(failure);
                Err(DiskFailed)
            }
        }
    }
}

impl<R: Files<File = File>, A: Allocator + Copy> Disk for SpoolDisk<'_, '_, R, A> {
    ghost done = { λ _. None };

    ghost told = { λ _. None };

    ghost fault_count = { λ disk. disk.faults.count };

    /// Creates a file with these bytes. A left-over file of this name is removed first.
    fn make(&mut self, spot: &Spot, bytes: &[u8]) -> Result<(), DiskFailed> {
        let made = make_file(self.alloc, self.rt, self.paths, spot, bytes);
        if spot.room == Room::Temporary {
            self.size = bytes.len() as u64;
        }
        self.answer(made)
    }

    fn sync(&mut self, spot: &Spot) -> Result<(), DiskFailed> {
        let seen = see_file(self.alloc, self.rt, self.paths, spot);
        self.answer(seen)
    }

    fn rename(&mut self, from: &Spot, to: &Spot) -> Result<(), DiskFailed> {
        let moved = move_file(self.alloc, self.rt, self.paths, from, to);
        if moved.is_ok() {
            self.note_moved(from, to);
        }
        self.answer(moved)
    }

    /// Keeps a file that has this name already, and picks the next free name.
    fn put_away(&mut self, from: &Spot, to: &Spot) -> Result<(), DiskFailed> {
        match preserve_file(self.alloc, self.rt, self.paths, from, to) {
            Ok(path) => {
                self.note_preserved(&from.name, path);
                Ok(())
            }
            Err(error) => self.answer(unless_gone(Err(error))),
        }
    }

    fn unlink(&mut self, spot: &Spot) -> Result<(), DiskFailed> {
        let gone = remove_file(self.alloc, self.rt, self.paths, spot);
        self.answer(unless_gone(gone))
    }

    fn sync_folder(&mut self, room: Room) -> Result<(), DiskFailed> {
        let seen = see_room(self.alloc, self.rt, self.paths, room);
        self.answer(unless_gone(seen))
    }

    fn tell(&mut self, bytes: &[u8]) -> Result<(), DiskFailed> {
        let told = append_told(self.alloc, self.rt, self.paths, bytes);
        self.answer(told)
    }
}

/// Returns this result, with `NotFound` as success.
fn unless_gone(answer: io::Result<()>) -> io::Result<()>
    ensures done { OnOk answer (IsOk result) }
    ensures gone { IfErr answer (λ error. error_kind error ≡ ErrorKind.NotFound → IsOk result) }
    ensures failed { IfErr answer (λ error. error_kind error ≢ ErrorKind.NotFound → IsErr result) }
{
    match answer {
        Err(error) if error.kind() == ErrorKind::NotFound => Ok(()),
        answer => answer,
    }
}

/// Creates a file and writes it. A file of this name is removed first, and a missing folder is created. If the write
/// fails, the new file is removed: it would keep a full disk full.
pub(crate) fn make_file<A: Allocator + Copy, R: Files<File = File>>(
    alloc: A,
    rt: &R,
    paths: &SpoolPaths<A>,
    spot: &Spot,
    bytes: &[u8],
) -> io::Result<()> {
    let path = paths.file(alloc, spot)?;
    let mode = mode_of(spot);
    let mut file = match new_file(rt, path.as_str(), mode) {
        Ok(file) => file,
        Err(error) => {
            make_way(alloc, rt, paths, spot.room, path.as_str(), error)?;
            new_file(rt, path.as_str(), mode)?
        }
    };
    let written = file.write_all(bytes);
    if written.is_err() {
        let _ = fs::remove_file(rt, path.as_str());
    }
    written
}

/// Returns the mode of a new file, before the process's umask. Everybody may read a file in the public folder. Only its
/// owner may read any other, such as mail.
fn mode_of(spot: &Spot) -> u32
    ensures public { (target : Spot) → spot.now.room ≡ rooms.Temporary → spot_of spot.now.name ≡ Ok target
        → target.room ≡ rooms.Public → result ≡ PUBLIC_MODE }
    ensures private { (target : Spot) → spot_of spot.now.name ≡ Ok target → target.room ≢ rooms.Public
        → result ≡ PRIVATE_MODE }
{
    match (spot.room, spot_of(&spot.name)) {
        (Room::Temporary, Ok(target)) if target.room == Room::Public => PUBLIC_MODE,
        _ => PRIVATE_MODE,
    }
}

/// Creates a file that doesn't exist yet.
fn new_file<R: Files<File = File>>(rt: &R, path: &str, mode: u32) -> io::Result<File> {
    OpenOptions::new()
        .write(true)
        .create_new(true)
        .mode(mode)
        .open(rt, path)
}

/// Makes way for a file that could not be created: removes a file of its name, or creates its missing folder. Returns
/// any other error.
fn make_way<A: Allocator + Copy, R: Files>(
    alloc: A,
    rt: &R,
    paths: &SpoolPaths<A>,
    room: Room,
    path: &str,
    error: io::Error,
) -> io::Result<()> {
    match error.kind() {
        ErrorKind::AlreadyExists => fs::remove_file(rt, path),
        ErrorKind::NotFound => make_room(alloc, rt, paths, room),
        _ => Err(error),
    }
}

/// Creates the folder of a room, and its parents.
fn make_room<A: Allocator + Copy, R: Files>(
    alloc: A,
    rt: &R,
    paths: &SpoolPaths<A>,
    room: Room,
) -> io::Result<()> {
    let path = paths.room(alloc, room)?;
    fs::create_dir_all(rt, path.as_str())
}

/// Syncs a file to disk.
fn see_file<A: Allocator + Copy, R: Files>(
    alloc: A,
    rt: &R,
    paths: &SpoolPaths<A>,
    spot: &Spot,
) -> io::Result<()> {
    let path = paths.file(alloc, spot)?;
    File::open(rt, path.as_str())?.sync_all()
}

/// Moves a file to another place. Missing folders there are created. A C. file only replaces one that still exists:
/// `uustat` may have removed the old one meanwhile, and with it the job. The new file is then removed.
fn move_file<A: Allocator + Copy, R: Files<File = File>>(
    alloc: A,
    rt: &R,
    paths: &SpoolPaths<A>,
    from: &Spot,
    to: &Spot,
) -> io::Result<()> {
    let source = paths.file(alloc, from)?;
    let target = paths.file(alloc, to)?;
    if to.room == Room::Commands {
        let is_there = is_found(fs::symlink_metadata(rt, target.as_str()))?;
        if is_absent(to.room, is_there) {
            return drop_late(rt, source.as_str(), to.room, is_there);
        }
    }
    move_path(alloc, rt, source.as_str(), target.as_str())?;
    see_below(rt, to, target.as_str())
}

/// Returns whether a file is too late for its place in this room: it is a C. file, and there is none to replace.
fn is_absent(room: Room, is_there: bool) -> bool
    ensures { result ≡ is_absent room is_there }
{
    room == Room::Commands && !is_there
}

/// Removes a file that is too late for its place.
fn drop_late<R: Files>(rt: &R, source: &str, room: Room, is_there: bool) -> io::Result<()>
    requires { is_absent room is_there ≡ true }
{
    let _ = (room, is_there);
    fs::remove_file(rt, source)
}

/// Moves the file at a path to another path. Missing folders there are created.
fn move_path<A: Allocator + Copy, R: Files<File = File>>(
    alloc: A,
    rt: &R,
    source: &str,
    target: &str,
) -> io::Result<()> {
    match move_across(alloc, rt, source, target) {
        Err(error) if error.kind() == ErrorKind::NotFound => {
            fs::symlink_metadata(rt, source)?;
            let Some((folder, _)) = target.rsplit_once('/') else {
                return Err(error);
            };
            fs::create_dir_all(rt, folder)?;
            move_across(alloc, rt, source, target)
        }
        moved => moved,
    }
}

/// Renames the file at a path to another path. If that is on another file system, a copy is synced beside it first.
fn move_across<A: Allocator + Copy, R: Files<File = File>>(
    alloc: A,
    rt: &R,
    source: &str,
    target: &str,
) -> io::Result<()> {
    match fs::rename(rt, source, target) {
        Err(error) if error.kind() == ErrorKind::CrossesDevices => (),
        moved => return moved,
    }
    let (folder, name) = target.rsplit_once('/').unwrap_or((".", target));
    let beside = format!(in alloc; "{folder}/.{name}.new")?;
    let beside = beside.as_str();
    let moved = copy_file(rt, source, beside).and_then(|()| fs::rename(rt, beside, target));
    if let Err(error) = moved {
        let _ = fs::remove_file(rt, beside);
        return Err(error);
    }
    fs::remove_file(rt, source)
}

/// Copies a file to a path, and syncs it to disk. A file of that name is removed first: an earlier copy may have been
/// broken off.
fn copy_file<R: Files<File = File>>(rt: &R, source: &str, path: &str) -> io::Result<()> {
    let mut from = File::open(rt, source)?;
    let mode = from.metadata()?.mode() & PUBLIC_MODE;
    let mut to = match new_file(rt, path, mode) {
        Err(error) if error.kind() == ErrorKind::AlreadyExists => {
            fs::remove_file(rt, path)?;
            new_file(rt, path, mode)?
        }
        opened => opened?,
    };
    io::copy(&mut from, &mut to)?;
    to.sync_all()
}

/// Syncs the folders on the path of a file below its room, which may be new. The room itself is synced separately. No
/// folder outside the public folder is new: only the one of the file is synced.
fn see_below<R: Files>(rt: &R, spot: &Spot, path: &str) -> io::Result<()> {
    let mut below = path;
    let name = spot.name.as_str();
    let most = if name.starts_with('/') { 1 } else { usize::MAX };
    for _ in 0..folders_above(&spot.name).min(most) {
        let Some((folder, _)) = below.rsplit_once('/') else {
            return Ok(());
        };
        File::open(rt, folder)?.sync_all()?;
        below = folder;
    }
    Ok(())
}

/// Moves a file to a free path: this one, or the first one with a number after it. Returns the path.
fn preserve_file<A: Allocator + Copy, R: Files<File = File>>(
    alloc: A,
    rt: &R,
    paths: &SpoolPaths<A>,
    from: &Spot,
    to: &Spot,
) -> io::Result<String<A>> {
    let source = paths.file(alloc, from)?;
    let first = paths.file(alloc, to)?;
    let target = free_path(alloc, rt, first)?;
    move_path(alloc, rt, source.as_str(), target.as_str())?;
    Ok(target)
}

/// Returns the first free path: this one, or this one with a number after it.
fn free_path<A: Allocator + Copy, R: Files>(
    alloc: A,
    rt: &R,
    first: String<A>,
) -> io::Result<String<A>> {
    if !is_found(fs::symlink_metadata(rt, first.as_str()))? {
        return Ok(first);
    }
    let front = first.as_str();
    for number in 1..PRESERVED_MAX {
        let path = format!(in alloc; "{front}.{number}")?;
        if !is_found(fs::symlink_metadata(rt, path.as_str()))? {
            return Ok(path);
        }
    }
    Err(io::Error::from(ErrorKind::AlreadyExists))
}

/// Removes a name.
pub(crate) fn remove_file<A: Allocator + Copy, R: Files>(
    alloc: A,
    rt: &R,
    paths: &SpoolPaths<A>,
    spot: &Spot,
) -> io::Result<()> {
    let path = paths.file(alloc, spot)?;
    fs::remove_file(rt, path.as_str())
}

/// Syncs the names of a folder to disk.
fn see_room<A: Allocator + Copy, R: Files>(
    alloc: A,
    rt: &R,
    paths: &SpoolPaths<A>,
    room: Room,
) -> io::Result<()> {
    let path = paths.room(alloc, room)?;
    File::open(rt, path.as_str())?.sync_all()
}

/// Appends these notices to the list of jobs that have failed, and syncs it to disk.
fn append_told<A: Allocator + Copy, R: Files<File = File>>(
    alloc: A,
    rt: &R,
    paths: &SpoolPaths<A>,
    bytes: &[u8],
) -> io::Result<()> {
    make_room(alloc, rt, paths, Room::Preserved)?;
    let room = paths.room(alloc, Room::Preserved)?;
    let front = room.as_str();
    let path = format!(in alloc; "{front}/{TOLD}")?;
    if is_named_pipe(rt, path.as_str()) {
        return Err(io::Error::from(ErrorKind::Unsupported));
    }
    let mut file = OpenOptions::new()
        .append(true)
        .create(true)
        .open(rt, path.as_str())?;
    file.write_all(bytes)?;
    file.sync_all()
}
