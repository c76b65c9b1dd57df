//! The folders of a spool, as one folder that takes files from another system.
ghost use Rattle.std.specs.Prelude.{◌≡◌, ◌++◌, OnErr, OnOk};
ghost use Rattle.uug_taylor_text.specs.Operations.{FrontDone, also_all};
ghost use Rattle.uug_taylor_queue.specs.Places.{temp_name};
ghost use Rattle.uug_taylor_queue.specs.Placing.{again_ops, came_of, end_ops, mark_ops, marks_after, marks_of, no_marks, place_ops, seen_ops, unmark_ops};

use crate::marks::{Came, Marks, is_again, is_mark, keeps, next_marks};
use crate::places::temp_name;
use std::alloc::Allocator;
use uug_talk::{Name, hash_text};
use uug_taylor_text::{Disk, DiskFailed, Room, Spot, store};

/// The marks of a session without markers.
const NO_MARKS: Marks = Marks {
    before: None,
    last: None,
    is_new: false,
};

/// The folders of a spool, as one folder that takes files from another system, each with a marker of its name. When the
/// next file arrives, the other system knows that the one before was received, and its marker is removed. The marker of
/// data stays when its execution file arrives: both are sent again unless the other system knows of both.
#[derive(Drop)]
pub struct SpoolFolder<D, A: Allocator> {
    pub disk: D,
    /// The markers that existed when the session began.
    came: Vec<Came<A>, A>,
    /// The files of the session that still have markers.
    marks: Marks,
}

impl<D: Disk, A: Allocator> SpoolFolder<D, A> {
    /// Makes a folder from the folders of this disk, on which these markers exist.
    pub fn new(disk: D, came: Vec<Came<A>, A>) -> Self
        ensures came { came_of result ≡ came.items }
        ensures marks { marks_of result ≡ no_marks }
    {
        SpoolFolder {
            disk,
            came,
            marks: NO_MARKS,
        }
    }

    /// Returns the files of the session that still have markers.
    pub fn marks(&self) -> Marks
        ensures { result ≡ marks_of self.now }
    {
        self.marks
    }

    /// Removes the markers of earlier files, and then stores a file in this place. A spool file that was received
    /// before the session is dropped: it is in its place, or was used up there.
    pub fn place(&mut self, target: &Spot, bytes: &[u8]) -> Result<(), DiskFailed>
        ensures ok { OnOk result (D.done self.new.disk
            ≡ also_all (place_ops (marks_of self.old) (came_of self.old) target.now bytes.now)
            (D.done self.old.disk)) }
        ensures err { OnErr result (FrontDone
            (place_ops (marks_of self.old) (came_of self.old) target.now bytes.now)
            (D.done self.old.disk) (D.done self.new.disk)) }
        ensures marks { OnOk result (marks_of self.new
            ≡ marks_after (marks_of self.old) (came_of self.old) target.now bytes.now) }
        ensures came { came_of self.new ≡ came_of self.old }
    {
        let name = temp_name(target);
        let came = self.came.as_slice();
        let again = is_again(target.room, self.marks.is_new, came, &name, bytes);
        place_at(&mut self.disk, &self.marks, again, &name, target, bytes)?;
        self.marks = next_marks(&self.marks, target.room, again, &name);
        Ok(())
    }

    /// Removes the markers of the session, when it has ended well.
    pub fn end(&mut self) -> Result<(), DiskFailed>
        ensures ok { OnOk result (D.done self.new.disk
            ≡ also_all (end_ops (marks_of self.old)) (D.done self.old.disk)) }
        ensures err { OnErr result (FrontDone (end_ops (marks_of self.old))
            (D.done self.old.disk) (D.done self.new.disk)) }
        ensures marks { OnOk result (marks_of self.new ≡ no_marks) }
    {
        remove_markers(&mut self.disk, &self.marks)?;
        self.marks = NO_MARKS;
        Ok(())
    }
}

/// Removes the marker of this name, if there is one.
fn remove_marker<D: Disk>(disk: &mut D, mark: &Option<Name>) -> Result<(), DiskFailed>
    ensures ok { OnOk result (D.done disk.new ≡ also_all (mark_ops mark.now) (D.done disk.old)) }
    ensures err { OnErr result (FrontDone (mark_ops mark.now) (D.done disk.old) (D.done disk.new)) }
{
    match mark {
        Some(mark) => disk.unlink(&Spot {
            room: Room::Marked,
            name: *mark,
        }),
        None => Ok(()),
    }
}

/// Removes these markers.
pub fn remove_markers<D: Disk>(disk: &mut D, marks: &Marks) -> Result<(), DiskFailed>
    ensures ok { OnOk result (D.done disk.new ≡ also_all (end_ops marks.now) (D.done disk.old)) }
    ensures err { OnErr result (FrontDone (end_ops marks.now) (D.done disk.old) (D.done disk.new)) }
{
    remove_marker(disk, &marks.before)?;
    remove_marker(disk, &marks.last)?;
    Ok(())
}

/// Syncs the marker folder to disk if one of these markers has this name. Without that, a power cut could bring the
/// marker back beside an incomplete file.
fn see_markers<D: Disk>(disk: &mut D, marks: &Marks, name: &Name) -> Result<(), DiskFailed>
    ensures ok { OnOk result (D.done disk.new
        ≡ also_all (seen_ops marks.now name.now) (D.done disk.old)) }
    ensures err { OnErr result (FrontDone (seen_ops marks.now name.now)
        (D.done disk.old) (D.done disk.new)) }
{
    if is_mark(&marks.before, name) || is_mark(&marks.last, name) {
        disk.sync_folder(Room::Marked)
    } else {
        Ok(())
    }
}

/// Removes the markers of earlier files, unless they stay when a file for this room arrives (see `keeps`).
fn unmark<D: Disk>(disk: &mut D, marks: &Marks, room: Room, name: &Name) -> Result<(), DiskFailed>
    ensures ok { OnOk result (D.done disk.new
        ≡ also_all (unmark_ops marks.now room name.now) (D.done disk.old)) }
    ensures err { OnErr result (FrontDone (unmark_ops marks.now room name.now)
        (D.done disk.old) (D.done disk.new)) }
{
    if keeps(room, &marks.last) {
        return Ok(());
    }
    remove_markers(disk, marks)?;
    see_markers(disk, marks, name)?;
    Ok(())
}

/// Removes the markers of earlier files, and then stores a file in this place, unless it was received before the
/// session.
#[tactic(auto, using(crate::proofs::OverLemmas::both_done, crate::proofs::OverLemmas::front_of_first, crate::proofs::OverLemmas::front_of_both))]
fn place_at<D: Disk>(
    disk: &mut D,
    marks: &Marks,
    again: bool,
    name: &Name,
    target: &Spot,
    bytes: &[u8],
) -> Result<(), DiskFailed>
    requires { name.now ≡ temp_name target.now }
    ensures ok { OnOk result (D.done disk.new
        ≡ also_all (unmark_ops marks.now target.now.room name.now
        ++ again_ops again bytes.now target.now) (D.done disk.old)) }
    ensures err { OnErr result (FrontDone (unmark_ops marks.now target.now.room name.now
        ++ again_ops again bytes.now target.now)
        (D.done disk.old) (D.done disk.new)) }
{
    unmark(disk, marks, target.room, name)?;
    store_new(disk, again, name, target, bytes)?;
    Ok(())
}

/// Stores a file in this place, unless it was received before the session.
fn store_new<D: Disk>(
    disk: &mut D,
    again: bool,
    name: &Name,
    target: &Spot,
    bytes: &[u8],
) -> Result<(), DiskFailed>
    requires { name.now ≡ temp_name target.now }
    ensures ok { OnOk result (D.done disk.new
        ≡ also_all (again_ops again bytes.now target.now) (D.done disk.old)) }
    ensures err { OnErr result (FrontDone (again_ops again bytes.now target.now)
        (D.done disk.old) (D.done disk.new)) }
{
    if again {
        return Ok(());
    }
    match target.room {
        Room::Execution => store(disk, name, target, bytes, bytes),
        Room::Public => store(disk, name, target, target.name.as_bytes(), bytes),
        _ => store(disk, name, target, &hash_text(bytes), bytes),
    }
}
