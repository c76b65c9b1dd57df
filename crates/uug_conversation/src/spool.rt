ghost use Rattle.std.specs.Prelude.{◌≡◌, ◌≢◌, ℕ, ◌^◌, ◌-◌, ◌≤◌, ◌<◌, ◌⊎◌, List, [], ◌∷◌, ◌++◌, true, OnOk, OnErr, ◌↔◌};
ghost use Rattle.uug_conversation.specs.Holdings.{Holdings, Kept, AreModes, IsLimit, kept_file};
ghost use Rattle.uug_conversation.specs.FileView.{shown_file};
ghost use Rattle.uug_conversation.specs.Partials.{held_among};

use crate::verdict::Verdict;
use thiserror::Error;
use uug_talk::{FILE_LIMIT_MAX, FileDigest, MODE_MAX, Name};

/// A file that a spool lends.
#[derive(Clone, Copy, Debug)]
pub struct FileView<'a> {
    /// The file's mode, at most `MODE_MAX`.
    pub mode: u16,
    /// The file's bytes.
    pub bytes: &'a [u8],
}

/// The reason why a file was not kept.
#[derive(Clone, Copy, Debug, PartialEq, Eq, Error)]
pub enum KeepFault {
    /// A file of this name can't be put in its place.
    #[error("the file can't be put in its place")]
    Refused,
    /// The device failed.
    #[error("device fault")]
    Device,
    /// There is no memory for the file.
    #[error("out of memory")]
    Memory,
}

/// The files of an end. Clauses see what it gives and accepts, which no call changes. They also see the kept files, in
/// the order in which they were kept, and the number of device failures.
pub trait Spool {
    ghost holdings: { Self → Holdings };

    ghost kept: { Self → List Kept };

    ghost faults: { Self → ℕ };

    /// Returns whether a file of this name is taken.
    fn may_keep(&self, name: &Name) -> Verdict
        ensures { result ≡ (holdings self.now).verdict name.now };

    /// Returns the name under which a file named `source` and sent to `target` is kept.
    fn landing(&self, source: &Name, target: &Name) -> Name
        ensures { result ≡ (holdings self.now).landing source.now target.now };

    /// Returns the file of this name, if there is one.
    fn fetch(&self, name: &Name) -> Option<FileView<'_>>
        ensures { shown_file result ≡ (holdings self.now).file name.now };

    /// Returns whether there may be a file of this name that can't be given now, but later. It is asked only if
    /// `fetch` finds none.
    fn is_delayed(&self, name: &Name) -> bool
        ensures { result ≡ (holdings self.now).delayed name.now };

    /// Returns the bytes that came before of the file with this name at its giver and this announced digest. They are
    /// none if nothing is held of it.
    fn held(&self, source: &Name, told: &FileDigest) -> &[u8]
        ensures { result.now ≡ held_among (holdings self.now).partials source.now told.now };

    /// Keeps a file under this name. `Refused` is checked first. An error leaves the kept files as they were. Lack of
    /// memory is reported before the device is touched, so the count of faults also stays as it was.
    fn keep(&mut self, name: &Name, mode: u16, bytes: &[u8]) -> Result<(), KeepFault>
        requires { mode ≤ MODE_MAX }
        ensures holdings { holdings self.new ≡ holdings self.old }
        ensures ok { OnOk result (kept self.new
            ≡ kept self.old ++ kept_file name.now mode bytes.now ∷ []) }
        ensures err { OnErr result (kept self.new ≡ kept self.old) }
        ensures refused { (result ≡ Err KeepFault.Refused) ↔ ((holdings self.old).immovable name.now
            ≡ true) }
        ensures stands { result ≢ Err KeepFault.Device → faults self.new ≡ faults self.old }
        ensures device { result ≡ Err KeepFault.Device
            → (faults self.old < faults self.new) ⊎ (faults self.old ≡ u64.MAX) }
        ensures count { faults self.old ≤ faults self.new };

    /// Notes what has come in this session of a file with this name at its giver and this announced digest, behind what
    /// is held of it. A spool over a disk may write it down, so that it isn't lost if its end is killed.
    fn note(&mut self, source: &Name, told: &FileDigest, bytes: &[u8])
        ensures holdings { holdings self.new ≡ holdings self.old }
        ensures kept { kept self.new ≡ kept self.old }
        ensures faults { faults self.new ≡ faults self.old };

    /// Notes that a file with this announced digest has come whole, before it is kept. What is held of it on a disk is of
    /// no more use; what is held in memory stays until the session's end.
    fn let_go(&mut self, told: &FileDigest)
        ensures holdings { holdings self.new ≡ holdings self.old }
        ensures kept { kept self.new ≡ kept self.old }
        ensures faults { faults self.new ≡ faults self.old };

    /// Returns whether this end refuses what it can't read, and goes on.
    fn is_lenient(&self) -> bool
        ensures { result ≡ (holdings self.now).lenient };

    /// Returns whether this end announces digests of its files, and compares those it receives.
    fn tells_digests(&self) -> bool
        ensures { result ≡ (holdings self.now).digests };

    /// Returns the size of the greatest file that this end sends or takes.
    fn limit(&self) -> usize
        ensures limit { result ≡ (holdings self.now).limit }
        ensures some { 0 < result }
        ensures fits { result ≤ FILE_LIMIT_MAX };

    /// Returns the number of device failures. The count stops at the greatest number.
    fn faults(&self) -> u64
        ensures { result ≡ faults self.now };

    // A mode is at most octal 7777.
    ghost modes: { (s : Self) → AreModes (holdings s) };

    // The limit of its files is one that can be kept.
    ghost limits: { (s : Self) → IsLimit (holdings s).limit };
}
