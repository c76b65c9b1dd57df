ghost use Rattle.std.specs.Prelude.{◌≡◌, ℕ, ◌≤◌, List, Option, IfOk, IfErr, OnOk, OnErr};
ghost use Rattle.uug_session.specs.Engine.{HasFailed};
ghost use Rattle.uug_store.specs.Notices.{TellsSome, also_told};
ghost use Rattle.uug_store.specs.TextFiles.{holding, IsReadFault, IsWhole};

use crate::folder::FolderFailed;
use std::alloc::{AllocError, Allocator};
use uug_session::Job;
use uug_stream::ToolFault;

/// The files of an end's jobs: the text of the waiting ones, which is replaced as a whole, and the notices of failed
/// ones, which only grow.
pub trait JobTexts {
    /// The text of the waiting jobs, if the files expose it.
    ghost text: { Self → Option (List ℕ) };

    /// The notices of failed jobs, if the files expose them.
    ghost told: { Self → Option (List ℕ) };

    /// The number of faults of their device.
    ghost fault_count: { Self → ℕ };

    /// Returns the present text of the waiting jobs. A missing file has an empty text. Nobody who heeds the file's lock
    /// changes it from then on, until it is unlocked.
    fn read<B: Allocator + Copy>(&mut self, alloc: B) -> Result<Vec<u8, B>, ToolFault>
        ensures same { text self.new ≡ text self.old }
        ensures told_same { told self.new ≡ told self.old }
        ensures found { IfOk result (λ found. holding found.items (text self.old) ≡ text self.old) }
        ensures stands { OnOk result (fault_count self.new ≡ fault_count self.old) }
        ensures fault { IfErr result (λ fault.
            IsReadFault fault (fault_count self.old) (fault_count self.new)) };

    /// Replaces the text of the waiting jobs. After a fault it is the old text or this one, and a power cut may undo
    /// the change.
    fn replace(&mut self, bytes: &[u8]) -> Result<(), FolderFailed>
        ensures ok { OnOk result (text self.new ≡ holding bytes.now (text self.old)) }
        ensures told_same { told self.new ≡ told self.old }
        ensures stands { OnOk result (fault_count self.new ≡ fault_count self.old) }
        ensures err { OnErr result (IsWhole bytes.now (text self.old) (text self.new)) }
        ensures fault { OnErr result
            (HasFailed u64.MAX (fault_count self.old) (fault_count self.new)) }
        ensures grows { fault_count self.old ≤ fault_count self.new };

    /// Appends to the notices of failed jobs, and syncs them to disk. After a fault some of the bytes may be there.
    fn tell(&mut self, bytes: &[u8]) -> Result<(), FolderFailed>
        ensures ok { OnOk result (told self.new ≡ also_told bytes.now (told self.old)) }
        ensures same { text self.new ≡ text self.old }
        ensures stands { OnOk result (fault_count self.new ≡ fault_count self.old) }
        ensures err { OnErr result (TellsSome bytes.now (told self.old) (told self.new)) }
        ensures fault { OnErr result
            (HasFailed u64.MAX (fault_count self.old) (fault_count self.new)) }
        ensures grows { fault_count self.old ≤ fault_count self.new };

    /// Unlocks the text of the waiting jobs. Files that nobody else changes need not be locked.
    fn unlock(&mut self)
        ensures same { text self.new ≡ text self.old }
        ensures told_same { told self.new ≡ told self.old }
        ensures stands { fault_count self.new ≡ fault_count self.old }
    {}

    /// Notes that these jobs are done, before they are removed from the text: no copy of their files is needed any more.
    fn note_done<B: Allocator + Copy>(&mut self, _alloc: B, _done: &[Job]) -> Result<(), AllocError>
        ensures same { text self.new ≡ text self.old }
        ensures told_same { told self.new ≡ told self.old }
        ensures stands { fault_count self.new ≡ fault_count self.old }
    {
        Ok(())
    }
}
