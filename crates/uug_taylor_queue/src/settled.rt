//! The disk operations for a job that is over. They are done before anything is written that acknowledges it.
ghost use Rattle.std.specs.Prelude.{◌≡◌, ℕ, List, Some, false, OnOk, OnErr};
ghost use Rattle.uug_taylor_text.specs.Operations.{FrontDone, HasFault, also_all};
ghost use Rattle.uug_taylor_text.specs.SpoolNames.{data_spot, spot};
ghost use Rattle.uug_taylor_text.specs.Standings.{IsBehind, IsGoneThere, Told, ToldSince};
ghost use Rattle.uug_taylor_text.specs.declared.spool_names.Room.TheVariants as rooms;
ghost use Rattle.uug_taylor_queue.specs.OverOrder.{copy_ops, file_ops, has_copy, has_line, is_of, preserved_ops, removed_ops, settled_ops};
ghost use Rattle.uug_taylor_queue.specs.Code.Parting.{first_ops};

use crate::open_line::{OpenLine, Outcome};
use uug_talk::Name;
use uug_taylor_text::{Disk, DiskFailed, Room, Spot, data_spot};

/// Removes a copy, and syncs its folder.
fn remove<D: Disk>(disk: &mut D, copy: &Spot) -> Result<(), DiskFailed>
    ensures ok { OnOk result (D.done disk.new
        ≡ also_all (removed_ops copy.now) (D.done disk.old)) }
    ensures err { OnErr result (FrontDone (removed_ops copy.now)
        (D.done disk.old) (D.done disk.new)) }
    ensures told { D.told disk.new ≡ D.told disk.old }
    ensures calm { OnOk result (D.fault_count disk.new ≡ D.fault_count disk.old) }
    ensures fault { OnErr result
        (HasFault u64.MAX (D.fault_count disk.old) (D.fault_count disk.new)) }
{
    disk.unlink(copy)?;
    disk.sync_folder(copy.room)?;
    Ok(())
}

/// Moves a copy to the preserved files, and syncs both folders.
fn preserve<D: Disk>(disk: &mut D, copy: &Spot) -> Result<(), DiskFailed>
    ensures ok { OnOk result (D.done disk.new
        ≡ also_all (preserved_ops copy.now) (D.done disk.old)) }
    ensures err { OnErr result (FrontDone (preserved_ops copy.now)
        (D.done disk.old) (D.done disk.new)) }
    ensures told { D.told disk.new ≡ D.told disk.old }
    ensures calm { OnOk result (D.fault_count disk.new ≡ D.fault_count disk.old) }
    ensures fault { OnErr result
        (HasFault u64.MAX (D.fault_count disk.old) (D.fault_count disk.new)) }
{
    let kept = Spot {
        room: Room::Preserved,
        name: copy.name,
    };
    disk.put_away(copy, &kept)?;
    disk.sync_folder(Room::Preserved)?;
    disk.sync_folder(copy.room)?;
    Ok(())
}

fn is_of(copy: &Name, other: &Option<Name>) -> bool
    ensures { result ≡ is_of copy.now other.now }
{
    match other {
        Some(other) => other.as_bytes() == copy.as_bytes(),
        None => false,
    }
}

/// Returns whether one of these lines has this copy.
fn has_copy(lines: &[OpenLine], copy: &Name) -> bool
    ensures { result ≡ has_copy copy.now lines.now }
{
    lines.iter().any(|line| is_of(copy, &line.copy))
}

/// Returns whether one of these lines is in the file of this name.
pub(crate) fn has_line(lines: &[OpenLine], file: &Name) -> bool
    ensures { result ≡ has_line file.now lines.now }
{
    lines
        .iter()
        .any(|line| line.file.as_bytes() == file.as_bytes())
}

/// Removes or preserves the copy of a line that is over. If the job is done, the copy is removed, unless one of these
/// other lines has it. If the job has failed, the copy is preserved at once.
fn settle_copy<D: Disk>(
    disk: &mut D,
    copy: &Option<Name>,
    others: &[OpenLine],
    outcome: Outcome,
) -> Result<(), DiskFailed>
    ensures ok { OnOk result (D.done disk.new
        ≡ also_all (copy_ops outcome copy.now others.now) (D.done disk.old)) }
    ensures err { OnErr result (FrontDone (copy_ops outcome copy.now others.now)
        (D.done disk.old) (D.done disk.new)) }
    ensures told { D.told disk.new ≡ D.told disk.old }
    ensures calm { OnOk result (D.fault_count disk.new ≡ D.fault_count disk.old) }
    ensures fault { OnErr result
        (HasFault u64.MAX (D.fault_count disk.old) (D.fault_count disk.new)) }
{
    let Some(copy) = copy else {
        return Ok(());
    };
    match outcome {
        Outcome::Failed => preserve(disk, &data_spot(copy)),
        Outcome::Done => {
            if has_copy(others, copy) {
                return Ok(());
            }
            remove(disk, &data_spot(copy))
        }
    }
}

/// Removes the C. file of this name, unless one of these lines is in it.
pub fn settle_file<D: Disk>(
    disk: &mut D,
    file: &Name,
    others: &[OpenLine],
) -> Result<(), DiskFailed>
    ensures ok { OnOk result (D.done disk.new
        ≡ also_all (file_ops file.now others.now) (D.done disk.old)) }
    ensures err { OnErr result (FrontDone (file_ops file.now others.now)
        (D.done disk.old) (D.done disk.new)) }
    ensures told { D.told disk.new ≡ D.told disk.old }
    ensures calm { OnOk result (D.fault_count disk.new ≡ D.fault_count disk.old) }
    ensures fault { OnErr result
        (HasFault u64.MAX (D.fault_count disk.old) (D.fault_count disk.new)) }
{
    if has_line(others, file) {
        return Ok(());
    }
    disk.unlink(&Spot {
        room: Room::Commands,
        name: *file,
    })?;
    Ok(())
}

/// Removes a line that is over from the disk. `others` are the lines that are still there. First the line's copy is
/// removed, unless one of the others has it. If the job has failed, the copy is preserved at once. Then the C. file is
/// removed, unless one of the others is in it.
///
/// If this is stopped in between, the line has no copy, and so is over for the next reader. For a copy that none of the
/// others has: wherever a power cut stops this, the C. file is as it was, or the copy is gone for good; and once all is
/// done, the copy is gone.
pub fn settle<D: Disk>(
    disk: &mut D,
    line: &OpenLine,
    others: &[OpenLine],
    outcome: Outcome,
) -> Result<(), DiskFailed>
    ensures ok { OnOk result (D.done disk.new
        ≡ also_all (settled_ops outcome line.now others.now) (D.done disk.old)) }
    ensures err { OnErr result (FrontDone (settled_ops outcome line.now others.now)
        (D.done disk.old) (D.done disk.new)) }
    ensures behind { (copy : List ℕ) → line.now.copy ≡ Some copy → has_copy copy others.now ≡ false
        → ToldSince (λ s. IsBehind s (spot rooms.Commands line.now.file) (data_spot copy))
        (D.done disk.old) (D.done disk.new) }
    ensures gone { OnOk result ((copy : List ℕ) → line.now.copy ≡ Some copy → has_copy copy others.now ≡ false
        → Told (IsGoneThere (data_spot copy)) (D.done disk.new)) }
    ensures told { D.told disk.new ≡ D.told disk.old }
    ensures calm { OnOk result (D.fault_count disk.new ≡ D.fault_count disk.old) }
    ensures fault { OnErr result
        (HasFault u64.MAX (D.fault_count disk.old) (D.fault_count disk.new)) }
{
    settle_line(disk, line, others, outcome)?;
    Ok(())
}

/// Performs the operations of `settle`, in their order.
fn settle_line<D: Disk>(
    disk: &mut D,
    line: &OpenLine,
    others: &[OpenLine],
    outcome: Outcome,
) -> Result<(), DiskFailed>
    ensures ok { OnOk result (D.done disk.new
        ≡ also_all (settled_ops outcome line.now others.now) (D.done disk.old)) }
    ensures err { OnErr result (FrontDone (settled_ops outcome line.now others.now)
        (D.done disk.old) (D.done disk.new)) }
    ensures told { D.told disk.new ≡ D.told disk.old }
    ensures calm { OnOk result (D.fault_count disk.new ≡ D.fault_count disk.old) }
    ensures fault { OnErr result
        (HasFault u64.MAX (D.fault_count disk.old) (D.fault_count disk.new)) }
{
    settle_copy(disk, &line.copy, others, outcome)?;
    settle_file(disk, &line.file, others)?;
    Ok(())
}

/// Removes the first `count` of these lines from the disk, one after the other.
#[tactic(auto, using(crate::proofs::PartingLemmas::one_is_over_in_part))]
pub(crate) fn settle_first<D: Disk>(
    disk: &mut D,
    lines: &[OpenLine],
    count: usize,
    outcome: Outcome,
) -> Result<(), DiskFailed>
    ensures ok { OnOk result (D.done disk.new
        ≡ also_all (first_ops outcome count lines.now) (D.done disk.old)) }
    ensures err { OnErr result (FrontDone (first_ops outcome count lines.now)
        (D.done disk.old) (D.done disk.new)) }
    ensures told { D.told disk.new ≡ D.told disk.old }
    ensures calm { OnOk result (D.fault_count disk.new ≡ D.fault_count disk.old) }
    ensures fault { OnErr result
        (HasFault u64.MAX (D.fault_count disk.old) (D.fault_count disk.new)) }
{
    let mut rest = lines;
    let mut count = count;
    while count > 0 {
        let Some((line, others)) = rest.split_first() else {
            return Ok(());
        };
        settle(disk, line, others, outcome)?;
        rest = others;
        count -= 1;
    }
    Ok(())
}
