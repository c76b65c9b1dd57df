//! The received files that an interrupted session had not yet moved into their places.
ghost use Rattle.std.specs.Prelude.{◌≡◌, IfErr, None, Option};
ghost use Rattle.uug_error.specs.Faults.{IsFolderFault};
ghost use Rattle.uug_taylor_queue.specs.Places.{shown_public};
ghost use Rattle.uug_taylor_run.specs.Arrivals.{landed, place_of_arrival};

use crate::work::Unread;
use std::alloc::Allocator;
use std::fs::File;
use std::io::ErrorKind;
use std::rt::Files;
use uug_error::{Cause, Resource, RunFault, SystemFailure};
use uug_talk::{FILE_MAX, Name};
use uug_taylor_disk::{SpoolDisk, SpoolPaths, is_no_place, is_there, list_room, read_spot};
use uug_taylor_queue::{Came, PublicFolder, temp_name};
use uug_taylor_text::{Disk, Room, Spot, finish, spot_of};

/// The outcome for files that earlier sessions received.
#[derive(Drop)]
pub(crate) struct Arrivals<A: Allocator> {
    /// The markers that exist now, without the empty ones that uucico makes.
    pub(crate) came: Vec<Came<A>, A>,
    /// The files that were set aside, because they can't be stored in their places.
    pub(crate) aside: Vec<Unread, A>,
}

/// The outcome for one file that an earlier session received.
#[derive(Clone, Copy)]
enum Landing {
    /// Its marker exists.
    Stands,
    /// Its marker was removed, or no file is accepted under the marker's name.
    Over,
    /// It was set aside, for this cause: it can't be stored in this place, or has none.
    Aside(Option<Spot>, Cause),
}

/// Moves each complete file in `.Temp` that has a marker into its place, and returns the markers that exist then. The
/// markers of files in the public folder are removed: another file may be sent under the same name. A file that can't
/// be stored in the public folder is set aside. Its place there, if it has one, is barred in this session.
pub(crate) fn finish_arrivals<A: Allocator + Copy, R: Files<File = File> + Alloc + Clone + Drop>(
    alloc: A,
    rt: &R,
    paths: &SpoolPaths<A>,
    public: &mut PublicFolder<A>,
) -> Result<Arrivals<A>, RunFault>
    ensures { IfErr result IsFolderFault }
{
    let markers = list_room(alloc, rt, paths, Room::Marked)?;
    let mut arrivals = Arrivals {
        came: Vec::new(alloc),
        aside: Vec::new(alloc),
    };
    for marker in markers.as_slice() {
        finish_one(&mut arrivals, alloc, rt, paths, public, marker)?;
    }
    Ok(arrivals)
}

/// Does the same for the file of this marker. Skips an empty marker: uucico made it.
fn finish_one<A: Allocator + Copy, R: Files<File = File>>(
    arrivals: &mut Arrivals<A>,
    alloc: A,
    rt: &R,
    paths: &SpoolPaths<A>,
    public: &mut PublicFolder<A>,
    marker: &Name,
) -> Result<(), RunFault>
    ensures { IfErr result IsFolderFault }
{
    let spot = Spot {
        room: Room::Marked,
        name: *marker,
    };
    let Some(text) = read_spot(alloc, rt, paths, &spot, FILE_MAX)? else {
        return Ok(());
    };
    if text.is_empty() {
        return Ok(());
    }
    match land(alloc, rt, paths, public, &spot, text.as_slice())? {
        Landing::Stands => {
            arrivals.came.reserve(1)?;
            arrivals.came.push_reserved(Came {
                name: *marker,
                text,
            });
        }
        Landing::Over => (),
        Landing::Aside(target, cause) => {
            if let Some(target) = target {
                public.barred.reserve(1)?;
                public.barred.push_reserved(target.name);
            }
            arrivals.aside.reserve(1)?;
            arrivals.aside.push_reserved(Unread {
                name: *marker,
                cause,
            });
        }
    }
    Ok(())
}

/// Moves the file of this marker and text into its place, if it is in `.Temp`, or sets it aside. Removes the marker of
/// a file in the public folder.
fn land<A: Allocator + Copy, R: Files<File = File>>(
    alloc: A,
    rt: &R,
    paths: &SpoolPaths<A>,
    public: &PublicFolder<A>,
    marker: &Spot,
    text: &[u8],
) -> Result<Landing, RunFault>
    ensures { IfErr result IsFolderFault }
{
    let Ok(first) = spot_of(&marker.name) else {
        return Ok(Landing::Over);
    };
    let held = Spot {
        room: Room::Temporary,
        name: marker.name,
    };
    let is_held = is_there(alloc, rt, paths, &held)?;
    if first.room != Room::Public {
        let mut disk = SpoolDisk::new(alloc, rt, paths);
        if is_held && finish(&mut disk, &marker.name, &first).is_err() {
            return Err(failed(&disk));
        }
        return Ok(Landing::Stands);
    }
    let target = place_of_arrival(public, &marker.name, text);
    let landing = if is_held {
        land_public(alloc, rt, paths, &held, target)?
    } else {
        Landing::Over
    };
    let mut disk = SpoolDisk::new(alloc, rt, paths);
    if disk.unlink(marker).is_err() || disk.sync_folder(Room::Marked).is_err() {
        return Err(failed(&disk));
    }
    Ok(landing)
}

/// Returns the place in the public folder of the file with a marker of this name and text, if it has one there now. The
/// text is the file's name in that folder.
fn place_of_arrival<A: Allocator>(
    public: &PublicFolder<A>,
    marker: &Name,
    text: &[u8],
) -> Option<Spot>
    ensures { result ≡ place_of_arrival (shown_public public.now) marker.now text.now }
{
    match Name::new(text) {
        Ok(name) => landed(marker, public.place_in(&name)),
        Err(_) => None,
    }
}

/// Returns this place, if a file for it has the marker's name while it is received.
fn landed(marker: &Name, target: Option<Spot>) -> Option<Spot>
    ensures { result ≡ landed marker.now target }
{
    match target {
        Some(target) if temp_name(&target).as_bytes() == marker.as_bytes() => Some(target),
        _ => None,
    }
}

/// Moves a file into its place in the public folder. Sets it aside if it has no place, or if the system reports that it
/// can't be put there.
fn land_public<A: Allocator + Copy, R: Files<File = File>>(
    alloc: A,
    rt: &R,
    paths: &SpoolPaths<A>,
    held: &Spot,
    target: Option<Spot>,
) -> Result<Landing, RunFault>
    ensures { IfErr result IsFolderFault }
{
    let place = match &target {
        Some(place) => *place,
        None => {
            set_aside(alloc, rt, paths, held)?;
            return Ok(Landing::Aside(None, Cause::NotAFile));
        }
    };
    let mut disk = SpoolDisk::new(alloc, rt, paths);
    if finish(&mut disk, &held.name, &place).is_ok() {
        return Ok(Landing::Over);
    }
    let failure = failure_of(&disk);
    if !is_refused(failure.cause) {
        return Err(RunFault::System(failure));
    }
    set_aside(alloc, rt, paths, held)?;
    Ok(Landing::Aside(Some(place), failure.cause))
}

/// Returns whether a failure with this cause means that a received file can't be put at a path, whatever is tried, or that
/// another disk has no room for it: the disk of the spool had.
fn is_refused(cause: Cause) -> bool {
    match cause {
        Cause::Refused(kind, _) => {
            is_no_place(kind) || matches!(kind, ErrorKind::StorageFull | ErrorKind::QuotaExceeded)
        }
        _ => false,
    }
}

/// Moves a received file to the preserved files, under a free name, and syncs both folders.
fn set_aside<A: Allocator + Copy, R: Files<File = File>>(
    alloc: A,
    rt: &R,
    paths: &SpoolPaths<A>,
    held: &Spot,
) -> Result<(), RunFault>
    ensures { IfErr result IsFolderFault }
{
    let kept = Spot {
        room: Room::Preserved,
        name: held.name,
    };
    let mut disk = SpoolDisk::new(alloc, rt, paths);
    if disk.put_away(held, &kept).is_err()
        || disk.sync_folder(Room::Preserved).is_err()
        || disk.sync_folder(Room::Temporary).is_err()
    {
        return Err(failed(&disk));
    }
    Ok(())
}

/// Returns the fault of the failed system call on the spool.
fn failed<R, A: Allocator>(disk: &SpoolDisk<'_, '_, R, A>) -> RunFault
    ensures { IsFolderFault result }
{
    RunFault::System(failure_of(disk))
}

fn failure_of<R, A: Allocator>(disk: &SpoolDisk<'_, '_, R, A>) -> SystemFailure {
    match disk.failure() {
        Some(failure) => failure,
        None => SystemFailure::on(Resource::Dir, Cause::MovedNothing),
    }
}
