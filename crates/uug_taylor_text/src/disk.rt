//! The folders of a spool, and the operations on them.
ghost use Rattle.std.specs.Prelude.{◌≡◌, ℕ, ◌≤◌, [], ◌∷◌, List, Option, OnOk, OnErr};
ghost use Rattle.uug_taylor_text.specs.Operations.{FrontDone, HasFault, Op, TellsSome, also_done, also_told, folder_synced, made, renamed, synced, unlinked};

use crate::spool_names::{Room, Spot};
use thiserror::Error;

/// The error of a spool whose device failed.
#[derive(Clone, Copy, Debug, PartialEq, Eq, Error)]
#[error("device fault")]
pub struct DiskFailed;

/// The folders of a spool. An operation that returns an error may or may not have been done.
pub trait Disk {
    /// The operations that were done, in order, if the disk reports them.
    ghost done: { Self → Option (List Op) };

    /// The notices of failed jobs, if the disk reports them.
    ghost told: { Self → Option (List ℕ) };

    /// The number of faults of its device.
    ghost fault_count: { Self → ℕ };

    /// Creates a file of this name, which must not exist yet, with these bytes.
    fn make(&mut self, spot: &Spot, bytes: &[u8]) -> Result<(), DiskFailed>
        ensures ok { OnOk result (done self.new
            ≡ also_done (made spot.now bytes.now) (done self.old)) }
        ensures err { OnErr result (FrontDone (made spot.now bytes.now ∷ [])
            (done self.old) (done self.new)) }
        ensures told_same { told self.new ≡ told self.old }
        ensures calm { OnOk result (fault_count self.new ≡ fault_count self.old) }
        ensures fault { OnErr result
            (HasFault u64.MAX (fault_count self.old) (fault_count self.new)) }
        ensures grows { fault_count self.old ≤ fault_count self.new };

    /// Syncs the bytes of a file to disk.
    fn sync(&mut self, spot: &Spot) -> Result<(), DiskFailed>
        ensures ok { OnOk result (done self.new ≡ also_done (synced spot.now) (done self.old)) }
        ensures err { OnErr result (FrontDone (synced spot.now ∷ [])
            (done self.old) (done self.new)) }
        ensures told_same { told self.new ≡ told self.old }
        ensures calm { OnOk result (fault_count self.new ≡ fault_count self.old) }
        ensures fault { OnErr result
            (HasFault u64.MAX (fault_count self.old) (fault_count self.new)) }
        ensures grows { fault_count self.old ≤ fault_count self.new };

    /// Renames a file, replacing any file of that name.
    fn rename(&mut self, from: &Spot, to: &Spot) -> Result<(), DiskFailed>
        ensures ok { OnOk result (done self.new
            ≡ also_done (renamed from.now to.now) (done self.old)) }
        ensures err { OnErr result (FrontDone (renamed from.now to.now ∷ [])
            (done self.old) (done self.new)) }
        ensures told_same { told self.new ≡ told self.old }
        ensures calm { OnOk result (fault_count self.new ≡ fault_count self.old) }
        ensures fault { OnErr result
            (HasFault u64.MAX (fault_count self.old) (fault_count self.new)) }
        ensures grows { fault_count self.old ≤ fault_count self.new };

    /// Renames a file, if it exists. A missing file is no fault. If there is a file of the new name, the disk may pick
    /// another name.
    fn put_away(&mut self, from: &Spot, to: &Spot) -> Result<(), DiskFailed>
        ensures ok { OnOk result (done self.new
            ≡ also_done (renamed from.now to.now) (done self.old)) }
        ensures err { OnErr result (FrontDone (renamed from.now to.now ∷ [])
            (done self.old) (done self.new)) }
        ensures told_same { told self.new ≡ told self.old }
        ensures calm { OnOk result (fault_count self.new ≡ fault_count self.old) }
        ensures fault { OnErr result
            (HasFault u64.MAX (fault_count self.old) (fault_count self.new)) }
        ensures grows { fault_count self.old ≤ fault_count self.new };

    /// Removes a name. A missing file is no fault.
    fn unlink(&mut self, spot: &Spot) -> Result<(), DiskFailed>
        ensures ok { OnOk result (done self.new ≡ also_done (unlinked spot.now) (done self.old)) }
        ensures err { OnErr result (FrontDone (unlinked spot.now ∷ [])
            (done self.old) (done self.new)) }
        ensures told_same { told self.new ≡ told self.old }
        ensures calm { OnOk result (fault_count self.new ≡ fault_count self.old) }
        ensures fault { OnErr result
            (HasFault u64.MAX (fault_count self.old) (fault_count self.new)) }
        ensures grows { fault_count self.old ≤ fault_count self.new };

    /// Syncs the names of a folder to disk.
    fn sync_folder(&mut self, room: Room) -> Result<(), DiskFailed>
        ensures ok { OnOk result (done self.new ≡ also_done (folder_synced room) (done self.old)) }
        ensures err { OnErr result (FrontDone (folder_synced room ∷ [])
            (done self.old) (done self.new)) }
        ensures told_same { told self.new ≡ told self.old }
        ensures calm { OnOk result (fault_count self.new ≡ fault_count self.old) }
        ensures fault { OnErr result
            (HasFault u64.MAX (fault_count self.old) (fault_count self.new)) }
        ensures grows { fault_count self.old ≤ fault_count self.new };

    /// Appends to the notices of failed jobs, and syncs them to disk. After a fault some of the bytes may be there.
    fn tell(&mut self, bytes: &[u8]) -> Result<(), DiskFailed>
        ensures ok { OnOk result (told self.new ≡ also_told bytes.now (told self.old)) }
        ensures err { OnErr result (TellsSome bytes.now (told self.old) (told self.new)) }
        ensures done_same { done self.new ≡ done self.old }
        ensures calm { OnOk result (fault_count self.new ≡ fault_count self.old) }
        ensures fault { OnErr result
            (HasFault u64.MAX (fault_count self.old) (fault_count self.new)) }
        ensures grows { fault_count self.old ≤ fault_count self.new };
}
