ghost use Rattle.std.specs.Prelude.{IsTrue, ◌≡◌, ℕ, ◌<◌, ◌≤◌, nat_le, List, [], ◌∷◌, ◌++◌, length, map, Some, None, is_some, if◌then◌else◌, MatchOption, OnOk, OnErr};
ghost use Rattle.uug_conversation.specs.FileView.{shown_file};
ghost use Rattle.std.specs.List.{list_all};
ghost use Rattle.uug_conversation.specs.Holdings.{File, kept_file, to_give};
ghost use Rattle.uug_conversation.specs.Partials.{none_of, partials_then};
ghost use Rattle.uug_conversation.specs.PartialView.{partial_of};
ghost use Rattle.uug_conversation.specs.MemoryHoldings.{gives_within, no_holdings, has_name, first_named, holdings_of, kept_of, held_by};
ghost use Rattle.uug_conversation.specs.Code.StoredModes.{modes_in_range};

use crate::file_limit::FileLimit;
use crate::partial_file::PartialFile;
use crate::partials::Partials;
use crate::spool::{FileView, KeepFault, Spool};
use crate::stored::Stored;
use crate::verdict::Verdict;
use std::alloc::{AllocError, Allocator};
use uug_talk::{FileDigest, MODE_MAX, Name};

/// A spool whose files are in memory.
#[derive(Drop)]
pub struct MemorySpool<A: Allocator> {
    files: Vec<Stored<A>, A>,
    denied: Vec<Name, A>,
    postponed: Vec<Name, A>,
    immovable: Vec<Name, A>,
    stored: Vec<Stored<A>, A>,
    /// None if the end doesn't resume files that were cut off.
    partials: Option<Partials<A>>,
    lenient: bool,
    digests: bool,
    limit: FileLimit,
    alloc: A,
}

impl<A: Allocator + Copy> MemorySpool<A> {
    /// Makes a spool with no file, that takes every file, and is not lenient. It takes no memory.
    pub fn new(alloc: A) -> Self
        ensures { held_by result ≡ no_holdings }
    {
        MemorySpool {
            files: Vec::new(alloc),
            denied: Vec::new(alloc),
            postponed: Vec::new(alloc),
            immovable: Vec::new(alloc),
            stored: Vec::new(alloc),
            partials: None,
            lenient: false,
            digests: false,
            limit: FileLimit::standard(),
            alloc,
        }
    }

    /// Adds a file to give, with a mode of at most `MODE_MAX`. Of two files with one name, the first counts.
    pub fn add_file(&mut self, name: Name, mode: u16, bytes: &[u8]) -> Result<(), AllocError>
        requires { mode ≤ MODE_MAX }
        ensures ok { OnOk result (held_by self.new ≡
            record (held_by self.old) {
              files = (held_by self.old).files
                  ++ kept_file name mode bytes.now ∷ [];
            }) }
        ensures err { OnErr result (held_by self.new ≡ held_by self.old) }
    {
        push_file(&mut self.files, self.alloc, name, mode, bytes)
    }

    /// Makes the spool refuse files of this name for ever.
    pub fn deny(&mut self, name: Name) -> Result<(), AllocError>
        ensures ok { OnOk result (held_by self.new ≡
            record (held_by self.old) { denied = (held_by self.old).denied ++ name ∷ [] }) }
        ensures err { OnErr result (held_by self.new ≡ held_by self.old) }
    {
        self.denied.push(name)?;
        Ok(())
    }

    /// Makes the spool refuse files of this name for now, unless the name is denied.
    pub fn later(&mut self, name: Name) -> Result<(), AllocError>
        ensures ok { OnOk result (held_by self.new ≡
            record (held_by self.old) { postponed = (held_by self.old).postponed ++ name ∷ [] }) }
        ensures err { OnErr result (held_by self.new ≡ held_by self.old) }
    {
        self.postponed.push(name)?;
        Ok(())
    }

    /// Makes `keep` refuse a file of this name: it can't be put in its place.
    pub fn immovable(&mut self, name: Name) -> Result<(), AllocError>
        ensures ok { OnOk result (held_by self.new ≡
            record (held_by self.old) { immovable = (held_by self.old).immovable ++ name ∷ [] }) }
        ensures err { OnErr result (held_by self.new ≡ held_by self.old) }
    {
        self.immovable.push(name)?;
        Ok(())
    }

    /// Sets whether the end refuses what it can't read, and goes on.
    pub fn set_lenient(&mut self, lenient: bool)
        ensures { held_by self.new ≡ record (held_by self.old) { lenient = lenient } }
    {
        self.lenient = lenient;
    }

    /// Sets whether the end announces digests of its files, and compares those it receives.
    pub fn set_digests(&mut self, digests: bool)
        ensures { held_by self.new ≡ record (held_by self.old) { digests = digests } }
    {
        self.digests = digests;
    }

    /// Sets how many bytes the greatest file has that the end sends or takes.
    pub fn set_limit(&mut self, limit: FileLimit)
        ensures { held_by self.new ≡ record (held_by self.old) { limit = limit.bytes } }
    {
        self.limit = limit;
    }

    /// Returns whether none of the files that the end gives has more than `limit` bytes.
    pub fn gives_within(&self, limit: usize) -> bool
        ensures value { result ≡ gives_within limit (held_by self.now) }
        ensures within { IsTrue result → (source : List ℕ) (file : File)
            → to_give (holdings_of (held_by self.now)) source ≡ Some file
            → length file.bytes ≤ limit }
    {
        if self.limit.bytes <= limit {
            return true;
        }
        are_within(self.files.as_slice(), limit)
    }

    /// Sets whether the end resumes files that are cut off, and forgets what it held of such files.
    pub fn set_resumes(&mut self, resumes: bool)
        ensures { held_by self.new ≡ record (held_by self.old) {
          partials = if resumes then Some [] else None;
        } }
    {
        self.partials = if resumes {
            Some(Partials::new(self.alloc))
        } else {
            None
        };
    }

    /// Returns whether the end resumes files that were cut off.
    pub fn resumes(&self) -> bool
        ensures { result ≡ is_some (held_by self.now).partials }
    {
        self.partials.is_some()
    }

    /// Returns what is held of files that were cut off. It is `None` if the end doesn't resume.
    pub fn partials(&self) -> Option<&Partials<A>>
        ensures { MatchOption result ((held_by self.now).partials ≡ None)
            (λ held. (held_by self.now).partials ≡ Some held.now) }
    {
        self.partials.as_ref()
    }

    /// Forgets what is held of files that were cut off.
    pub fn forget_partials(&mut self)
        ensures { held_by self.new ≡ record (held_by self.old) {
          partials = none_of (held_by self.old).partials;
        } }
    {
        let resumes = self.resumes();
        self.set_resumes(resumes);
    }

    /// Holds the first bytes of a file, in place of those that were held of it, if the end resumes. Without memory
    /// nothing changes.
    pub(crate) fn hold(&mut self, file: PartialFile<A>) -> Result<(), AllocError>
        ensures ok { OnOk result (held_by self.new ≡ record (held_by self.old) {
          partials = partials_then (held_by self.old).partials (Some (partial_of file));
        }) }
        ensures err { OnErr result (held_by self.new ≡ held_by self.old) }
    {
        match &mut self.partials {
            Some(partials) => partials.put(file),
            None => Ok(()),
        }
    }

    /// Returns the kept files, in the order in which they were kept.
    pub fn stored(&self) -> &[Stored<A>]
        ensures { map kept_of result.now ≡ (held_by self.now).stored }
    {
        self.stored.as_slice()
    }
}

impl<A: Allocator + Copy> Spool for MemorySpool<A> {
    ghost holdings = { λ m. holdings_of (held_by m) };

    ghost kept = { λ m. (held_by m).stored };

    ghost faults = { λ _. 0 };

    fn may_keep(&self, name: &Name) -> Verdict {
        if has_name(self.denied.as_slice(), name.as_bytes()) {
            Verdict::Never
        } else if has_name(self.postponed.as_slice(), name.as_bytes()) {
            Verdict::Later
        } else {
            Verdict::Yes
        }
    }

    fn landing(&self, _source: &Name, target: &Name) -> Name {
        *target
    }

    fn fetch(&self, name: &Name) -> Option<FileView<'_>> {
        first_named(self.files.as_slice(), name)
    }

    fn is_delayed(&self, _name: &Name) -> bool {
        false
    }

    fn held(&self, source: &Name, told: &FileDigest) -> &[u8] {
        match &self.partials {
            Some(partials) => partials.held(source, told),
            None => &[],
        }
    }

    fn keep(&mut self, name: &Name, mode: u16, bytes: &[u8]) -> Result<(), KeepFault> {
        if has_name(self.immovable.as_slice(), name.as_bytes()) {
            return Err(KeepFault::Refused);
        }
        if push_file(&mut self.stored, self.alloc, *name, mode, bytes).is_err() {
            return Err(KeepFault::Memory);
        }
        Ok(())
    }

    fn note(&mut self, _source: &Name, _told: &FileDigest, _bytes: &[u8]) {}

    fn let_go(&mut self, _told: &FileDigest) {}

    fn is_lenient(&self) -> bool {
        self.lenient
    }

    fn tells_digests(&self) -> bool {
        self.digests
    }

    fn limit(&self) -> usize {
        self.limit.bytes
    }

    fn faults(&self) -> u64 {
        0
    }

    ghost modes = { λ m. modes_in_range m.files.items };

    ghost limits = { λ m. record { some = m.limit.some; fits = m.limit.fits } };
}

/// Returns whether one of the names has these bytes.
pub fn has_name(names: &[Name], bytes: &[u8]) -> bool
    ensures { result ≡ has_name names.now bytes.now }
{
    names.iter().any(|name| name.as_bytes() == bytes)
}

/// Returns whether none of these files has more than `limit` bytes.
fn are_within<A: Allocator>(files: &[Stored<A>], limit: usize) -> bool
    ensures { result ≡ list_all (λ f. nat_le (length f.bytes.items) limit) files.now }
{
    files.iter().all(|file| file.bytes.len() <= limit)
}

fn first_named<'a, A: Allocator>(files: &'a [Stored<A>], name: &Name) -> Option<FileView<'a>>
    ensures { shown_file result ≡ first_named (map kept_of files.now) name.now }
{
    for file in files {
        if file.name.as_bytes() == name.as_bytes() {
            return Some(FileView {
                mode: file.mode,
                bytes: file.bytes.as_slice(),
            });
        }
    }
    None
}

fn push_file<A: Allocator>(
    files: &mut Vec<Stored<A>, A>,
    alloc: A,
    name: Name,
    mode: u16,
    bytes: &[u8],
) -> Result<(), AllocError>
    requires { mode ≤ MODE_MAX }
    ensures ok { OnOk result (map kept_of files.new.items ≡
        map kept_of files.old.items ++ kept_file name mode bytes.now ∷ []) }
    ensures err { OnErr result (files.new.items ≡ files.old.items) }
{
    files.reserve(1)?;
    let bytes = bytes.to_vec(alloc)?;
    files.push_reserved(Stored { name, mode, bytes });
    Ok(())
}
