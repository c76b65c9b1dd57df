//! A folder in memory that tells what was put in it.
ghost use Rattle.std.specs.Prelude.{◌≡◌, ◌++◌, [], ◌∷◌, OnErr, OnOk, Some, false, map};
ghost use Rattle.uug_store.specs.Folders.{placed_file};

use std::alloc::{AllocError, Global};
use uug_session::Stored;
use uug_store::{Folder, FolderFailed};
use uug_talk::Name;

/// The mode of each file.
const MODE: u16 = 0o644;

/// Holds the files that were put in it, up to so many.
#[derive(Drop)]
pub(super) struct MemoryFolder {
    files: Vec<Stored<Global>, Global>,
    alloc: Global,
    fails_at: usize,
    faults: u64,
}

impl MemoryFolder {
    /// An empty folder. The file of this number is refused, counted from 0, and each behind it.
    pub(super) fn new(alloc: Global, fails_at: usize) -> Self {
        MemoryFolder {
            files: Vec::new(alloc),
            alloc,
            fails_at,
            faults: 0,
        }
    }

    /// Counts the files that were put in it.
    pub(super) fn puts(&self) -> usize {
        self.files.len()
    }

    /// Returns whether a file was put in it under this name, with these bytes.
    pub(super) fn holds(&self, name: &[u8], bytes: &[u8]) -> bool {
        self.files.iter().any(|file| file.name.as_bytes() == name && file.bytes.as_slice() == bytes)
    }

    pub(super) fn has_failed(&self) -> bool {
        self.faults > 0
    }
}

impl Folder for MemoryFolder {
    ghost placed = { λ folder. Some (map (λ f. placed_file f.name f.bytes.items) folder.files.items) };

    ghost fault_count = { λ folder. folder.faults };

    ghost barred = { λ _ _. false };

    fn put(&mut self, name: &Name, bytes: &[u8]) -> Result<(), FolderFailed> {
        if self.files.len() >= self.fails_at
            || push_file(&mut self.files, self.alloc, *name, bytes).is_err()
        {
            self.faults = self.faults.saturating_add(1);
            return Err(FolderFailed);
        }
        Ok(())
    }

    fn is_barred(&self, _name: &Name) -> bool {
        false
    }

    fn faults(&self) -> u64 {
        self.faults
    }
}

fn push_file(
    files: &mut Vec<Stored<Global>, Global>,
    alloc: Global,
    name: Name,
    bytes: &[u8],
) -> Result<(), AllocError>
    ensures ok { OnOk result (map (λ f. placed_file f.name f.bytes.items) files.new.items
        ≡ map (λ f. placed_file f.name f.bytes.items) files.old.items
        ++ placed_file name bytes.now ∷ []) }
    ensures err { OnErr result (files.new.items ≡ files.old.items) }
{
    files.reserve(1)?;
    let bytes = bytes.to_vec(alloc)?;
    files.push_reserved(Stored {
        name,
        mode: MODE,
        bytes,
    });
    Ok(())
}
