ghost use Rattle.std.specs.Prelude.{◌≡◌, ◌≢◌, ◌<◌, ◌≤◌, ◌⊎◌, [], ◌∷◌, ◌++◌, map, vec_len, vec_capacity, IfOk, OnErr, OnOk};
ghost use Rattle.uug_conversation.specs.FileView.{shown_file};
ghost use Rattle.uug_conversation.specs.Holdings.{kept_file};
ghost use Rattle.uug_conversation.specs.MemoryHoldings.{first_named, kept_of};
ghost use Rattle.uug_conversation.specs.Code.StandardLimit.{standard_limit};
ghost use Rattle.uug_conversation.specs.Code.StoredModes.{modes_in_range};
ghost use Rattle.uug_store.specs.Folders.{EndsWith, folder_holdings, is_hidden, placed_of};
ghost use Rattle.uug_store.specs.KeptFiles.{shown_kept};

use crate::folder::Folder;
use crate::kept_file::{KeptFile, push_kept};
use std::alloc::{AllocError, Allocator};
use std::marker::Model;
use std::snapshot::Snapshot;
use uug_session::{FileView, KeepFault, Spool, Stored, Verdict};
use uug_talk::{FILE_MAX, FileDigest, MODE_MAX, Name};

/// A spool that keeps files in a folder. Clauses see the files that it has to give, those that it has kept, and the
/// folder.
#[derive(Drop)]
pub struct FolderSpool<F: Folder, A: Allocator> {
    files: Vec<Stored<A>, A>,
    /// The files that were kept, for clauses only: the bytes are in the folder, and no longer in memory.
    stored: Vec<Snapshot<KeptFile<A>>, A>,
    folder: F,
    alloc: A,
}

impl<F: Folder, A: Allocator> Model for FolderSpool<F, A> {
    ghost use Rattle.std.specs.Prelude.{map};
    ghost use Rattle.uug_store.specs.FolderFiles.{FolderFiles};
    ghost use Rattle.uug_store.specs.Folders.{EndsWith, placed_of};
    ghost use Rattle.uug_store.specs.KeptFiles.{shown_kept};

    ghost Value = { FolderFiles F A };

    ghost view = { λ s. record {
      files = s.files.items;
      stored = map (λ f. shown_kept f.value) s.stored.items;
      folder = s.folder;
    } };

    // The kept files are those that were put in the folder last.
    ghost invariant = { λ s.
        EndsWith (F.placed s.folder)
        (map placed_of (map (λ f. shown_kept f.value) s.stored.items)) };
}

impl<F: Folder, A: Allocator + Copy> FolderSpool<F, A> {
    /// Creates a spool with these files to give that has kept none yet. Allocates nothing.
    pub fn new(alloc: A, files: Vec<Stored<A>, A>, folder: F) -> Self
        ensures { result ≡ record { files = files.items; stored = []; folder = folder } }
    {
        FolderSpool {
            files,
            stored: Vec::new(alloc),
            folder,
            alloc,
        }
    }

    /// Returns the folder. If it exposes the files put in it, those that the spool has kept are the last ones.
    pub fn folder(&self) -> &F
        ensures folder { result.now ≡ self.now.folder }
        ensures placed { EndsWith (F.placed result.now)
            (map placed_of self.now.stored) }
    {
        &self.folder
    }

    /// Returns whether a file of this name can't be put in its place.
    pub fn is_immovable(&self, name: &Name) -> bool
        ensures { result ≡ (folder_holdings (F.barred self.now.folder)
            (map kept_of self.now.files)).immovable name.now }
    {
        is_hidden(name.as_bytes()) || self.folder.is_barred(name)
    }

    /// Returns the file whose name has these bytes, if there is one.
    pub(crate) fn fetch_by(&self, name: &[u8]) -> Option<FileView<'_>>
        ensures { shown_file result ≡ (folder_holdings (F.barred self.now.folder)
            (map kept_of self.now.files)).file name.now }
    {
        first_named(self.files.as_slice(), name)
    }
}

impl<F: Folder, A: Allocator + Copy> Spool for FolderSpool<F, A> {
    ghost holdings = { λ s. folder_holdings (F.barred s.folder) (map kept_of s.files) };

    ghost kept = { λ s. s.stored };

    ghost faults = { λ s. F.fault_count s.folder };

    fn may_keep(&self, name: &Name) -> Verdict {
        if is_hidden(name.as_bytes()) {
            Verdict::Never
        } else {
            Verdict::Yes
        }
    }

    fn landing(&self, _source: &Name, target: &Name) -> Name {
        *target
    }

    fn fetch(&self, name: &Name) -> Option<FileView<'_>> {
        self.fetch_by(name.as_bytes())
    }

    fn is_delayed(&self, _name: &Name) -> bool {
        false
    }

    fn held(&self, _source: &Name, _told: &FileDigest) -> &[u8] {
        &[]
    }

    fn keep(&mut self, name: &Name, mode: u16, bytes: &[u8]) -> Result<(), KeepFault> {
        if self.is_immovable(name) {
            return Err(KeepFault::Refused);
        }
        put_and_store(
            &mut self.folder,
            &mut self.stored,
            self.alloc,
            name,
            mode,
            bytes,
        )
    }

    fn note(&mut self, _source: &Name, _told: &FileDigest, _bytes: &[u8]) {}

    fn let_go(&mut self, _told: &FileDigest) {}

    fn is_lenient(&self) -> bool {
        false
    }

    fn tells_digests(&self) -> bool {
        false
    }

    fn limit(&self) -> usize {
        FILE_MAX
    }

    fn faults(&self) -> u64 {
        self.folder.faults()
    }

    ghost modes = { λ s. modes_in_range s.files };

    ghost limits = { λ s. standard_limit };
}

/// Returns whether a name would be hidden in a folder, or lead out of it.
pub(crate) fn is_hidden(name: &[u8]) -> bool
    ensures { result ≡ is_hidden name.now }
{
    if name.contains(&b'/') {
        return true;
    }
    match name {
        [first, ..] => *first == b'.',
        [] => false,
    }
}

/// Puts a file in the folder, and adds it to those that were kept.
fn put_and_store<F: Folder, A: Allocator + Copy>(
    folder: &mut F,
    stored: &mut Vec<Snapshot<KeptFile<A>>, A>,
    alloc: A,
    name: &Name,
    mode: u16,
    bytes: &[u8],
) -> Result<(), KeepFault>
    requires mode { mode ≤ MODE_MAX }
    requires ends { EndsWith (F.placed folder.old)
        (map placed_of (map (λ f. shown_kept f.value) stored.old.items)) }
    ensures ends { EndsWith (F.placed folder.new)
        (map placed_of (map (λ f. shown_kept f.value) stored.new.items)) }
    ensures ok { OnOk result (map (λ f. shown_kept f.value) stored.new.items
        ≡ map (λ f. shown_kept f.value) stored.old.items
        ++ kept_file name.now mode bytes.now ∷ []) }
    ensures err { OnErr result (map (λ f. shown_kept f.value) stored.new.items
        ≡ map (λ f. shown_kept f.value) stored.old.items) }
    ensures no_refusal { result ≢ Err KeepFault.Refused }
    ensures stands { result ≢ Err KeepFault.Device
        → F.fault_count folder.new ≡ F.fault_count folder.old }
    ensures device { result ≡ Err KeepFault.Device
        → (F.fault_count folder.old < F.fault_count folder.new)
        ⊎ (F.fault_count folder.old ≡ u64.MAX) }
    ensures count { F.fault_count folder.old ≤ F.fault_count folder.new }
    ensures barred { F.barred folder.new ≡ F.barred folder.old }
{
    // All memory is allocated before the folder is touched.
    let Ok(file) = kept_beside_room(stored, alloc, name, mode, bytes) else {
        return Err(KeepFault::Memory);
    };
    if folder.put(name, bytes).is_err() {
        return Err(KeepFault::Device);
    }
    push_kept(stored, &file);
    Ok(())
}

/// Reserves room for one more kept file, and describes it.
fn kept_beside_room<A: Allocator + Copy>(
    stored: &mut Vec<Snapshot<KeptFile<A>>, A>,
    alloc: A,
    name: &Name,
    mode: u16,
    bytes: &[u8],
) -> Result<KeptFile<A>, AllocError>
    ensures stored { stored.new.items ≡ stored.old.items }
    ensures room { OnOk result (vec_len stored.new < vec_capacity stored.new) }
    ensures file { IfOk result (λ file. shown_kept file ≡ kept_file name.now mode bytes.now) }
{
    stored.reserve(1)?;
    KeptFile::of(alloc, name, mode, bytes)
}

fn first_named<'a, A: Allocator>(files: &'a [Stored<A>], name: &[u8]) -> Option<FileView<'a>>
    ensures { shown_file result ≡ first_named (map kept_of files.now) name.now }
{
    for file in files {
        if file.name.as_bytes() == name {
            return Some(FileView {
                mode: file.mode,
                bytes: file.bytes.as_slice(),
            });
        }
    }
    None
}
