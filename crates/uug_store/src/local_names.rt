ghost use Rattle.std.specs.Prelude.{◌≡◌, ◌<◌, ◌++◌, [], ◌∷◌, MatchOption, Some, None, false, map, vec_len, vec_capacity};
ghost use Rattle.uug_store.specs.Folders.{folder_holdings};
ghost use Rattle.uug_conversation.specs.MemoryHoldings.{kept_of};
ghost use Rattle.uug_conversation.specs.Code.StoredModes.{modes_in_range};
ghost use Rattle.uug_store.specs.Code.LocalModes.{local_modes};
ghost use Rattle.uug_store.specs.LocalNames.{StandUnder, behind_root, holdings_here, kept_here, last_part, local_landing, local_name, local_source};

use crate::folder::Folder;
use crate::folder_spool::{FolderSpool, is_hidden};
use crate::notebook::Notebook;
use std::alloc::Allocator;
use std::marker::Model;
use uug_conversation::has_name;
use uug_session::{FileLimit, FileView, KeepFault, Partials, Spool, Verdict};
use uug_talk::{FileDigest, Name};

/// A spool over a folder, for a peer that names files as real systems do. `~/x` and `/x` are `x` in the folder. No
/// other path is taken or given, nor a name with a dot in front. A file that is sent to `~/` or `/` goes into the
/// folder under the last part of its own name. Clauses see the files in the folder, and the names under which the kept
/// ones arrived.
#[derive(Drop)]
pub struct LocalNames<F: Folder, N: Notebook, A: Allocator> {
    files: FolderSpool<F, A>,
    names: Vec<Name, A>,
    delayed: Vec<Name, A>,
    /// The partial files that the end holds, if it resumes files.
    partials: Option<Partials<A>>,
    /// The notebook in which the bytes of a file are saved as they arrive, if the end resumes files.
    notebook: N,
    lenient: bool,
    digests: bool,
    limit: FileLimit,
}

impl<F: Folder, N: Notebook, A: Allocator> Model for LocalNames<F, N, A> {
    ghost use Rattle.uug_store.specs.LocalFiles.{LocalFiles};
    ghost use Rattle.uug_store.specs.LocalNames.{StandUnder};

    ghost Value = { LocalFiles F A };

    ghost view = { λ s. record {
      files = s.files;
      names = s.names.items;
      delayed = s.delayed.items;
      partials = s.partials;
      lenient = s.lenient;
      digests = s.digests;
      limit = s.limit;
    } };

    // Each kept file is in the folder under the local name of the name under which it arrived.
    ghost invariant = { λ s. StandUnder s.names.items s.files.stored };
}

impl<F: Folder, N: Notebook, A: Allocator + Copy> LocalNames<F, N, A> {
    /// Creates a spool over a folder that has kept nothing yet. The end is not lenient, announces no digests, resumes
    /// no files, and gives and takes files within this limit. No file is delayed. Allocates nothing.
    pub fn new(alloc: A, files: FolderSpool<F, A>, notebook: N, limit: FileLimit) -> Self
        requires { files.stored ≡ [] }
        ensures { result ≡ record {
          files = files;
          names = [];
          delayed = [];
          partials = None;
          lenient = false;
          digests = false;
          limit = limit;
        } }
    {
        LocalNames {
            files,
            names: Vec::new(alloc),
            delayed: Vec::new(alloc),
            partials: None,
            notebook,
            lenient: false,
            digests: false,
            limit,
        }
    }

    /// Sets the names in the folder of the files that can't be given now, but may be later.
    pub fn set_delayed(&mut self, delayed: Vec<Name, A>)
        ensures { self.new ≡ record self.old { delayed = delayed.items } }
    {
        self.delayed = delayed;
    }

    /// Sets the partial files that the end holds, or `None` if it doesn't resume files.
    pub fn set_partials(&mut self, partials: Option<Partials<A>>)
        ensures { self.new ≡ record self.old { partials = partials } }
    {
        self.partials = partials;
    }

    /// Returns the partial files that the end holds, or `None` if it doesn't resume files.
    pub fn partials(&self) -> &Option<Partials<A>>
        ensures { result.now ≡ self.now.partials }
    {
        &self.partials
    }

    /// Sets whether the end is lenient: refuses what it can't read, and goes on.
    pub fn set_lenient(&mut self, lenient: bool)
        ensures { self.new ≡ record self.old { lenient = lenient } }
    {
        self.lenient = lenient;
    }

    /// Sets whether the end announces digests of its files, and compares those that it receives.
    pub fn set_digests(&mut self, digests: bool)
        ensures { self.new ≡ record self.old { digests = digests } }
    {
        self.digests = digests;
    }

    /// Returns the spool of the folder, in which files have their local names. Each kept file is there under the local
    /// name of the name under which it arrived.
    pub fn files(&self) -> &FolderSpool<F, A>
        ensures files { result.now ≡ self.now.files }
        ensures names { StandUnder self.now.names result.now.stored }
    {
        &self.files
    }
}

impl<F: Folder, N: Notebook, A: Allocator + Copy> Spool for LocalNames<F, N, A> {
    ghost holdings = { λ s. holdings_here F.barred s };

    ghost kept = { λ s. kept_here s };

    ghost faults = { λ s. F.fault_count s.files.folder };

    fn may_keep(&self, name: &Name) -> Verdict {
        match local_name(name) {
            Some(local) => self.files.may_keep(&local),
            None => Verdict::Never,
        }
    }

    fn landing(&self, source: &Name, target: &Name) -> Name {
        local_landing(source, target)
    }

    fn fetch(&self, name: &Name) -> Option<FileView<'_>> {
        self.files.fetch_by(source_bytes(name)?)
    }

    fn is_delayed(&self, name: &Name) -> bool {
        match source_bytes(name) {
            Some(local) => has_name(self.delayed.as_slice(), local),
            None => false,
        }
    }

    fn held(&self, source: &Name, told: &FileDigest) -> &[u8] {
        match &self.partials {
            Some(partials) => partials.held(source, told),
            None => &[],
        }
    }

    fn keep(&mut self, name: &Name, mode: u16, bytes: &[u8]) -> Result<(), KeepFault> {
        let Some(local) = local_name(name) else {
            return Err(KeepFault::Refused);
        };
        if self.files.is_immovable(&local) {
            return Err(KeepFault::Refused);
        }
        // All memory is allocated before the folder is touched.
        if self.names.reserve(1).is_err() {
            return Err(KeepFault::Memory);
        }
        self.files.keep(&local, mode, bytes)?;
        push_name(&mut self.names, *name);
        Ok(())
    }

    fn note(&mut self, source: &Name, told: &FileDigest, bytes: &[u8]) {
        if let Some(partials) = &self.partials {
            self.notebook
                .note(source, told, partials.held(source, told), bytes);
        }
    }

    fn let_go(&mut self, told: &FileDigest) {
        if let Some(partials) = &mut self.partials {
            partials.let_go(told);
            self.notebook.let_go(told);
        }
    }

    fn is_lenient(&self) -> bool {
        self.lenient
    }

    fn tells_digests(&self) -> bool {
        self.digests
    }

    fn limit(&self) -> usize {
        self.limit.bytes
    }

    fn faults(&self) -> u64 {
        self.files.faults()
    }

    ghost modes = { λ s. local_modes s.lenient s.digests s.limit.bytes s.delayed s.partials
        (folder_holdings (F.barred s.files.folder) (map kept_of s.files.files))
        (modes_in_range s.files.files) };

    ghost limits = { λ s. record { some = s.limit.some; fits = s.limit.fits } };
}

/// Returns the local name, in the folder, of a file that a real system names, if there is one.
fn local_name(name: &Name) -> Option<Name>
    ensures { result ≡ local_name name.now }
{
    Name::new(behind_root(name.as_bytes())).ok()
}

/// Returns the local name of a file that a real system requests, if it has one that doesn't lead out of the folder and
/// isn't hidden in it.
pub fn local_source(name: &Name) -> Option<Name>
    ensures { result ≡ local_source name.now }
{
    Name::new(source_bytes(name)?).ok()
}

/// Returns the bytes of that name. It makes no `Name` of them, since a file is fetched again for each of its messages.
fn source_bytes(name: &Name) -> Option<&[u8]>
    ensures { MatchOption result (local_source name.now ≡ None)
        (λ local. local_source name.now ≡ Some local.now) }
{
    let local = behind_root(name.as_bytes());
    if local.is_empty() || is_hidden(local) {
        return None;
    }
    Some(local)
}

/// Returns the name under which a file is kept: the target. If that is the public folder itself, or the root, it is the
/// last part of the source instead, if that is a name.
fn local_landing(source: &Name, target: &Name) -> Name
    ensures { result ≡ local_landing source.now target.now }
{
    match behind_root(target.as_bytes()) {
        [] => Name::new(last_part(source.as_str()).as_bytes()).unwrap_or(*target),
        _ => *target,
    }
}

/// Returns the part of a name after the last slash.
fn last_part(name: &str) -> &str
    ensures { result.now ≡ last_part name.now }
{
    match name.rsplit_once('/') {
        Some((_, part)) => part,
        None => name,
    }
}

/// Returns a name without its prefix `~/`, for the public folder, or `/`, for the root of a system.
fn behind_root(name: &[u8]) -> &[u8]
    ensures { result.now ≡ behind_root name.now }
{
    if name.starts_with(b"~/") {
        &name[2..]
    } else if name.starts_with(b"/") {
        &name[1..]
    } else {
        name
    }
}

/// Appends a name, for which room was reserved.
fn push_name<A: Allocator>(names: &mut Vec<Name, A>, name: Name)
    requires room { vec_len names.old < vec_capacity names.old }
    ensures { names.new.items ≡ names.old.items ++ name ∷ [] }
{
    names.push_reserved(name);
}
