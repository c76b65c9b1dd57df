ghost use Rattle.std.specs.Prelude.{◌≡◌, ℕ, ◌≤◌, List, Option, IfOk, IfErr, OnOk, OnErr};
ghost use Rattle.uug_session.specs.Engine.{HasFailed};
ghost use Rattle.uug_store.specs.TextFiles.{holding, IsReadFault, IsWhole};

use crate::folder::FolderFailed;
use std::alloc::Allocator;
use uug_stream::ToolFault;

/// A file of an end whose text is replaced as a whole: the file of its jobs, or that of its number.
pub trait TextFile {
    /// The text in the file, if the file exposes it.
    ghost text: { Self → Option (List ℕ) };

    /// The number of faults of its device.
    ghost fault_count: { Self → ℕ };

    /// Returns the present text of the file. A missing file has an empty text.
    fn read<B: Allocator + Copy>(&mut self, alloc: B) -> Result<Vec<u8, B>, ToolFault>
        ensures same { text self.new ≡ text self.old }
        ensures told { IfOk result (λ found. holding found.items (text self.old) ≡ text self.old) }
        ensures stands { OnOk result (fault_count self.new ≡ fault_count self.old) }
        ensures fault { IfErr result (λ fault.
            IsReadFault fault (fault_count self.old) (fault_count self.new)) };

    /// Replaces the text of the file. After a fault the file has the old text or this one, and a power cut may undo the
    /// change.
    fn replace(&mut self, bytes: &[u8]) -> Result<(), FolderFailed>
        ensures ok { OnOk result (text self.new ≡ holding bytes.now (text self.old)) }
        ensures stands { OnOk result (fault_count self.new ≡ fault_count self.old) }
        ensures err { OnErr result (IsWhole bytes.now (text self.old) (text self.new)) }
        ensures fault { OnErr result
            (HasFailed u64.MAX (fault_count self.old) (fault_count self.new)) }
        ensures grows { fault_count self.old ≤ fault_count self.new };

    /// Returns the number of faults of the device. The count saturates.
    fn faults(&self) -> u64
        ensures { result ≡ fault_count self.now };
}
