//! The disk operations that put a file in its place. A received file is acknowledged only after them.
ghost use Rattle.std.specs.Prelude.{◌≡◌, true, OnOk, OnErr};
ghost use Rattle.uug_taylor_text.specs.DiskOrder.{finished_ops, replaced_ops, stored_ops};
ghost use Rattle.uug_taylor_text.specs.Operations.{FrontDone, HasFault, also_all};
ghost use Rattle.uug_taylor_text.specs.Standings.{IsWholeThere, Told};
ghost use Rattle.uug_taylor_text.specs.StoredSafely.{StaysMarked, StaysSafe, is_place};

use crate::disk::{Disk, DiskFailed};
use crate::spool_names::{Room, Spot};
use uug_talk::Name;

/// Stores a received file in its place. First a left-over temporary file of this name is removed. Then the file is
/// written and synced, and after it a marker of its name with this text. Only then is the file renamed, and its place
/// synced.
///
/// Wherever a power cut stops this, the place holds what it held before, or the complete file, and a new file is never
/// there without its marker. Once this is done, the complete file is there.
#[tactic(auto, using(crate::proofs::StoredSafelyLemmas::stays_safe, crate::proofs::StoredSafelyLemmas::stays_marked, crate::proofs::StoredSafelyLemmas::all_stays_safe, crate::proofs::StoredSafelyLemmas::all_stays_marked, crate::proofs::StoredSafelyLemmas::is_there))]
pub fn store<D: Disk>(
    disk: &mut D,
    temp: &Name,
    target: &Spot,
    text: &[u8],
    bytes: &[u8],
) -> Result<(), DiskFailed>
    ensures ok { OnOk result (D.done disk.new
        ≡ also_all (stored_ops temp.now target.now text.now bytes.now) (D.done disk.old)) }
    ensures err { OnErr result (FrontDone (stored_ops temp.now target.now text.now bytes.now)
        (D.done disk.old) (D.done disk.new)) }
    ensures safe { is_place target.now.room ≡ true
        → StaysSafe target.now bytes.now (D.done disk.old) (D.done disk.new) }
    ensures marked { is_place target.now.room ≡ true
        → StaysMarked temp.now target.now text.now (D.done disk.old) (D.done disk.new) }
    ensures there { OnOk result (is_place target.now.room ≡ true
        → Told (IsWholeThere target.now bytes.now) (D.done disk.new)) }
    ensures calm { OnOk result (D.fault_count disk.new ≡ D.fault_count disk.old) }
    ensures fault { OnErr result
        (HasFault u64.MAX (D.fault_count disk.old) (D.fault_count disk.new)) }
{
    store_marked(disk, temp, target, text, bytes)?;
    Ok(())
}

/// Performs the operations of `store`, in their order.
fn store_marked<D: Disk>(
    disk: &mut D,
    temp: &Name,
    target: &Spot,
    text: &[u8],
    bytes: &[u8],
) -> Result<(), DiskFailed>
    ensures ok { OnOk result (D.done disk.new
        ≡ also_all (stored_ops temp.now target.now text.now bytes.now) (D.done disk.old)) }
    ensures err { OnErr result (FrontDone (stored_ops temp.now target.now text.now bytes.now)
        (D.done disk.old) (D.done disk.new)) }
    ensures calm { OnOk result (D.fault_count disk.new ≡ D.fault_count disk.old) }
    ensures fault { OnErr result
        (HasFault u64.MAX (D.fault_count disk.old) (D.fault_count disk.new)) }
{
    let held = Spot {
        room: Room::Temporary,
        name: *temp,
    };
    let marker = Spot {
        room: Room::Marked,
        name: *temp,
    };
    disk.unlink(&held)?;
    disk.make(&held, bytes)?;
    disk.sync(&held)?;
    disk.make(&marker, text)?;
    disk.sync(&marker)?;
    disk.sync_folder(Room::Marked)?;
    disk.rename(&held, target)?;
    disk.sync_folder(target.room)?;
    disk.sync_folder(Room::Temporary)?;
    Ok(())
}

/// Finishes a `store` that was stopped once the file and its marker were complete: renames the file into its place, and
/// syncs the folders.
pub fn finish<D: Disk>(disk: &mut D, temp: &Name, target: &Spot) -> Result<(), DiskFailed>
    ensures ok { OnOk result (D.done disk.new
        ≡ also_all (finished_ops temp.now target.now) (D.done disk.old)) }
    ensures err { OnErr result (FrontDone (finished_ops temp.now target.now)
        (D.done disk.old) (D.done disk.new)) }
    ensures calm { OnOk result (D.fault_count disk.new ≡ D.fault_count disk.old) }
    ensures fault { OnErr result
        (HasFault u64.MAX (D.fault_count disk.old) (D.fault_count disk.new)) }
{
    let held = Spot {
        room: Room::Temporary,
        name: *temp,
    };
    disk.rename(&held, target)?;
    disk.sync_folder(target.room)?;
    disk.sync_folder(Room::Temporary)?;
    Ok(())
}

/// Replaces a file with one of these bytes. First a left-over temporary file of its name is removed. Then the new file
/// is written and synced. Only then is it renamed, and its place synced.
///
/// Wherever a power cut stops this, the place holds what it held before, or the complete file. Once this is done, the
/// complete file is there.
#[tactic(auto, using(crate::proofs::ReplacedLemmas::stays_safe, crate::proofs::ReplacedLemmas::all_stays_safe, crate::proofs::ReplacedLemmas::is_there))]
pub fn replace<D: Disk>(disk: &mut D, target: &Spot, bytes: &[u8]) -> Result<(), DiskFailed>
    ensures ok { OnOk result (D.done disk.new
        ≡ also_all (replaced_ops target.now bytes.now) (D.done disk.old)) }
    ensures err { OnErr result (FrontDone (replaced_ops target.now bytes.now)
        (D.done disk.old) (D.done disk.new)) }
    ensures safe { is_place target.now.room ≡ true
        → StaysSafe target.now bytes.now (D.done disk.old) (D.done disk.new) }
    ensures there { OnOk result (is_place target.now.room ≡ true
        → Told (IsWholeThere target.now bytes.now) (D.done disk.new)) }
    ensures told { D.told disk.new ≡ D.told disk.old }
    ensures calm { OnOk result (D.fault_count disk.new ≡ D.fault_count disk.old) }
    ensures fault { OnErr result
        (HasFault u64.MAX (D.fault_count disk.old) (D.fault_count disk.new)) }
{
    replace_synced(disk, target, bytes)?;
    Ok(())
}

/// Performs the operations of `replace`, in their order.
fn replace_synced<D: Disk>(disk: &mut D, target: &Spot, bytes: &[u8]) -> Result<(), DiskFailed>
    ensures ok { OnOk result (D.done disk.new
        ≡ also_all (replaced_ops target.now bytes.now) (D.done disk.old)) }
    ensures err { OnErr result (FrontDone (replaced_ops target.now bytes.now)
        (D.done disk.old) (D.done disk.new)) }
    ensures told { D.told disk.new ≡ D.told disk.old }
    ensures calm { OnOk result (D.fault_count disk.new ≡ D.fault_count disk.old) }
    ensures fault { OnErr result
        (HasFault u64.MAX (D.fault_count disk.old) (D.fault_count disk.new)) }
{
    let part = Spot {
        room: Room::Temporary,
        name: target.name,
    };
    disk.unlink(&part)?;
    disk.make(&part, bytes)?;
    disk.sync(&part)?;
    disk.rename(&part, target)?;
    disk.sync_folder(target.room)?;
    Ok(())
}
