ghost use Rattle.std.specs.Prelude.{◌≡◌, ℕ, Bool, ◌≤◌, List, Option, OnOk, OnErr};
ghost use Rattle.uug_session.specs.Engine.{HasFailed};
ghost use Rattle.uug_store.specs.Folders.{Placed, also_placed, placed_file};

use thiserror::Error;
use uug_talk::Name;

/// The error of a folder whose device failed.
#[derive(Clone, Copy, Debug, PartialEq, Eq, Error)]
#[error("device fault")]
pub struct FolderFailed;

/// A folder that takes whole files.
pub trait Folder {
    /// The files that were put in it and synced to disk, in that order, if the folder exposes them.
    ghost placed: { Self → Option (List Placed) };

    /// The number of faults of its device.
    ghost fault_count: { Self → ℕ };

    /// True for a name that is barred: no file can be put in the folder under it.
    ghost barred: { Self → List ℕ → Bool };

    /// Puts a whole file in the folder under this name, replacing any file of that name, and syncs both to disk. After
    /// a fault the name has the complete old file or the complete new one, but the new one does not count as put.
    fn put(&mut self, name: &Name, bytes: &[u8]) -> Result<(), FolderFailed>
        ensures ok { OnOk result (placed self.new
            ≡ also_placed (placed_file name.now bytes.now) (placed self.old)) }
        ensures stands { OnOk result (fault_count self.new ≡ fault_count self.old) }
        ensures err { OnErr result (placed self.new ≡ placed self.old) }
        ensures fault { OnErr result
            (HasFailed u64.MAX (fault_count self.old) (fault_count self.new)) }
        ensures grows { fault_count self.old ≤ fault_count self.new }
        ensures barred { barred self.new ≡ barred self.old };

    /// Returns whether a name is barred, as far as the folder knows before it is tried.
    fn is_barred(&self, name: &Name) -> bool
        ensures { result ≡ barred self.now name.now };

    /// Returns the number of faults of the device. The count saturates.
    fn faults(&self) -> u64
        ensures { result ≡ fault_count self.now };
}
