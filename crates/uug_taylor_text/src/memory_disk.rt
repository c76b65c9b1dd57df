//! The folders of a spool in memory.
ghost use Rattle.std.specs.Prelude.{◌≡◌, ◌≤◌, [], ◌∷◌, ◌++◌, Some, map, OnOk, OnErr};
ghost use Rattle.uug_taylor_text.specs.MemoryDisks.{op_of, ops_of, told_of};
ghost use Rattle.uug_taylor_text.specs.Operations.{HasFault};

use crate::disk::{Disk, DiskFailed};
use crate::spool_names::{Room, Spot};
use std::alloc::Allocator;

/// An operation on the folders of a spool.
#[derive(Drop)]
pub enum Operation<A: Allocator> {
    /// This file was created, with these bytes.
    Made(Spot, Vec<u8, A>),
    /// The bytes of this file were synced to disk.
    Synced(Spot),
    /// The file at the first place was renamed to the second one.
    Renamed(Spot, Spot),
    /// This name was removed.
    Unlinked(Spot),
    /// The names of this folder were synced to disk.
    FolderSynced(Room),
}

/// A spool in memory, in which one operation can be made to fail. It records operations and notices, but keeps no
/// files.
#[derive(Drop)]
pub struct MemoryDisk<A: Allocator> {
    operations: Vec<Operation<A>, A>,
    told: Vec<u8, A>,
    fails_after: u64,
    faults: u64,
    alloc: A,
}

impl<A: Allocator + Copy> MemoryDisk<A> {
    /// Creates a disk. The first `fails_after` operations succeed, the next one fails, and those after it succeed
    /// again.
    pub fn new(alloc: A, fails_after: u64) -> Self
        ensures ops { ops_of result ≡ [] }
        ensures told { told_of result ≡ [] }
    {
        MemoryDisk {
            operations: Vec::new(alloc),
            told: Vec::new(alloc),
            fails_after,
            faults: 0,
            alloc,
        }
    }

    /// Returns the operations that were done, in order.
    pub fn operations(&self) -> &[Operation<A>]
        ensures { map op_of result.now ≡ ops_of self.now }
    {
        self.operations.as_slice()
    }

    /// Returns the notices of failed jobs.
    pub fn told(&self) -> &[u8]
        ensures { result.now ≡ told_of self.now }
    {
        self.told.as_slice()
    }

    /// Counts a fault, and returns the error.
    fn fault(&mut self) -> DiskFailed
        ensures ops { ops_of self.new ≡ ops_of self.old }
        ensures told { told_of self.new ≡ told_of self.old }
        ensures fault { HasFault u64.MAX self.old.faults self.new.faults }
        ensures grows { self.old.faults ≤ self.new.faults }
    {
        self.faults = self.faults.saturating_add(1);
        DiskFailed
    }

    /// Counts an operation, and returns whether it is the one that fails.
    fn is_faulty(&mut self) -> bool
        ensures ops { ops_of self.new ≡ ops_of self.old }
        ensures told { told_of self.new ≡ told_of self.old }
        ensures faults { self.new.faults ≡ self.old.faults }
    {
        if self.fails_after == 0 && self.faults == 0 {
            return true;
        }
        self.fails_after = self.fails_after.saturating_sub(1);
        false
    }

    /// Records an operation, unless it is the one that fails.
    fn note(&mut self, operation: Operation<A>) -> Result<(), DiskFailed>
        ensures ok { OnOk result (ops_of self.new ≡ ops_of self.old ++ op_of operation ∷ []) }
        ensures err { OnErr result (ops_of self.new ≡ ops_of self.old) }
        ensures told { told_of self.new ≡ told_of self.old }
        ensures calm { OnOk result (self.new.faults ≡ self.old.faults) }
        ensures fault { OnErr result (HasFault u64.MAX self.old.faults self.new.faults) }
        ensures grows { self.old.faults ≤ self.new.faults }
    {
        if self.is_faulty() || self.operations.push(operation).is_err() {
            return Err(self.fault());
        }
        Ok(())
    }
}

impl<A: Allocator + Copy> Disk for MemoryDisk<A> {
    ghost done = { λ disk. Some (ops_of disk) };

    ghost told = { λ disk. Some (told_of disk) };

    ghost fault_count = { λ disk. disk.faults };

    fn make(&mut self, spot: &Spot, bytes: &[u8]) -> Result<(), DiskFailed> {
        match bytes.to_vec(self.alloc) {
            Ok(bytes) => self.note(Operation::Made(*spot, bytes)),
            Err(_) => Err(self.fault()),
        }
    }

    fn sync(&mut self, spot: &Spot) -> Result<(), DiskFailed> {
        self.note(Operation::Synced(*spot))
    }

    fn rename(&mut self, from: &Spot, to: &Spot) -> Result<(), DiskFailed> {
        self.note(Operation::Renamed(*from, *to))
    }

    fn put_away(&mut self, from: &Spot, to: &Spot) -> Result<(), DiskFailed> {
        self.note(Operation::Renamed(*from, *to))
    }

    fn unlink(&mut self, spot: &Spot) -> Result<(), DiskFailed> {
        self.note(Operation::Unlinked(*spot))
    }

    fn sync_folder(&mut self, room: Room) -> Result<(), DiskFailed> {
        self.note(Operation::FolderSynced(room))
    }

    fn tell(&mut self, bytes: &[u8]) -> Result<(), DiskFailed> {
        if self.is_faulty() || self.told.extend_from_slice(bytes).is_err() {
            return Err(self.fault());
        }
        Ok(())
    }
}
