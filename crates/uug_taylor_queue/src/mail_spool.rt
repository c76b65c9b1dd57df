//! The files of an end over a spool: those that it gives, and the folders for those that it receives.
ghost use Rattle.std.specs.Prelude.{◌≡◌, ◌≢◌, ◌<◌, ◌≤◌, ◌⊎◌, ◌↔◌, ◌^◌, ◌-◌, [], ◌∷◌, ◌++◌, IfOk, OnErr, OnOk, length, map, true, vec_len, vec_capacity};
ghost use Rattle.uug_conversation.specs.FileView.{shown_file};
ghost use Rattle.uug_conversation.specs.Holdings.{kept_file};
ghost use Rattle.uug_conversation.specs.MemoryHoldings.{first_named, kept_of};
ghost use Rattle.uug_store.specs.KeptFiles.{shown_kept};
ghost use Rattle.uug_store.specs.LocalNames.{local_source};
ghost use Rattle.uug_taylor_queue.specs.Code.MailModes.{mail_modes};
ghost use Rattle.uug_taylor_queue.specs.Keeping.{keep_marks, keep_ops, place_for};
ghost use Rattle.uug_taylor_queue.specs.MailHoldings.{delayed_in, file_at, given, is_refused, mail_holdings};
ghost use Rattle.uug_taylor_queue.specs.Places.{place_in, shown_public};
ghost use Rattle.uug_taylor_queue.specs.Placing.{came_of, marks_of, place_ops};
ghost use Rattle.uug_taylor_text.specs.Operations.{FrontDone, also_all};
ghost use Rattle.uug_talk.specs.declared.mode.TheConstants.{MODE_MAX};

use crate::places::{PublicFolder, is_public_path};
use crate::spool_folder::SpoolFolder;
use std::alloc::{AllocError, Allocator};
use std::snapshot::Snapshot;
use uug_conversation::has_name;
use uug_session::{FileLimit, FileView, KeepFault, Partials, Spool, Stored, Verdict};
use uug_store::{KeptFile, Notebook, local_source, push_kept};
use uug_talk::{FileDigest, MODE_MAX, Name};
use uug_taylor_text::{Disk, local_name};

/// The settings of an end over a spool.
#[derive(Clone, Copy)]
pub struct MailSettings {
    /// Set if the end refuses what it can't read, and goes on.
    pub is_lenient: bool,
    /// Set if the end announces digests of its files, and compares those announced to it.
    pub tells_digests: bool,
    /// The size of the largest file that the end gives or takes.
    pub limit: FileLimit,
}

/// The files of an end over a spool. A file that it gives is found by the name of its copy, by its path, or by its name
/// in the public folder. The place of a received file follows from its name and from the contents of the public folder
/// when the session began.
#[derive(Drop)]
pub struct MailSpool<D, N, A: Allocator> {
    given: Vec<Stored<A>, A>,
    public: PublicFolder<A>,
    /// The partial files that the end holds, if it resumes.
    partials: Option<Partials<A>>,
    /// The notebook in which the end records received bytes, if it resumes.
    notebook: N,
    /// The files that were kept, for clauses only: their bytes are in the spool, and no longer in memory.
    kept: Vec<Snapshot<KeptFile<A>>, A>,
    /// The folders of the spool.
    pub folder: SpoolFolder<D, A>,
    settings: MailSettings,
    faults: u64,
    alloc: A,
}

impl<D: Disk, N: Notebook, A: Allocator + Copy> MailSpool<D, N, A> {
    /// Makes a spool that gives these files, stores into these folders, has kept none, and holds these partial files.
    /// It allocates nothing.
    pub fn new(
        alloc: A,
        given: Vec<Stored<A>, A>,
        public: PublicFolder<A>,
        folder: SpoolFolder<D, A>,
        partials: Option<Partials<A>>,
        notebook: N,
        settings: MailSettings,
    ) -> Self
        ensures holdings { ⟦<MailSpool<D, N, A> as Spool>⟧.holdings result
            ≡ mail_holdings settings.is_lenient settings.tells_digests settings.limit.bytes
            (shown_public public) partials (map kept_of given.items) }
        ensures kept { ⟦<MailSpool<D, N, A> as Spool>⟧.kept result ≡ [] }
        ensures folder { result.folder ≡ folder }
        ensures faults { result.faults ≡ 0 }
    {
        MailSpool {
            given,
            public,
            partials,
            notebook,
            kept: Vec::new(alloc),
            folder,
            settings,
            faults: 0,
            alloc,
        }
    }

    /// Returns the partial files that the end holds.
    pub fn partials(&self) -> &Option<Partials<A>>
        ensures { result.now ≡ self.now.partials }
    {
        &self.partials
    }
}

#[tactic(auto, using(crate::proofs::OverLemmas::none_done))]
impl<D: Disk, N: Notebook, A: Allocator + Copy> Spool for MailSpool<D, N, A> {
    ghost holdings = { λ s. mail_holdings s.settings.is_lenient s.settings.tells_digests
        s.settings.limit.bytes (shown_public s.public) s.partials (map kept_of s.given.items) };

    ghost kept = { λ s. map (λ f. shown_kept f.value) s.kept.items };

    ghost faults = { λ s. s.faults };

    fn may_keep(&self, name: &Name) -> Verdict {
        if self.public.takes(name) {
            Verdict::Yes
        } else {
            Verdict::Never
        }
    }

    fn landing(&self, source: &Name, target: &Name) -> Name {
        self.public.landing(source, target)
    }

    fn fetch(&self, name: &Name) -> Option<FileView<'_>> {
        given(self.given.as_slice(), name)
    }

    fn is_delayed(&self, name: &Name) -> bool {
        let path = Name::new(local_name(name.as_bytes())).ok();
        is_delayed_in(&self.public, name, &path)
    }

    fn held(&self, source: &Name, told: &FileDigest) -> &[u8] {
        match &self.partials {
            Some(partials) => partials.held(source, told),
            None => &[],
        }
    }

    /// Stores the file in its place. The disk operations follow from its name, its bytes and the markers.
    fn keep(&mut self, name: &Name, mode: u16, bytes: &[u8]) -> Result<(), KeepFault>
        requires { mode ≤ MODE_MAX }
        ensures done { OnOk result (D.done self.new.folder.disk
            ≡ also_all (keep_ops self.old name.now bytes.now) (D.done self.old.folder.disk)) }
        ensures front { OnErr result (FrontDone (keep_ops self.old name.now bytes.now)
            (D.done self.old.folder.disk) (D.done self.new.folder.disk)) }
        ensures marks { OnOk result (marks_of self.new.folder
            ≡ keep_marks self.old name.now bytes.now) }
        ensures came { came_of self.new.folder ≡ came_of self.old.folder }
        ensures holdings { ⟦<MailSpool<D, N, A> as Spool>⟧.holdings self.new
            ≡ ⟦<MailSpool<D, N, A> as Spool>⟧.holdings self.old }
        ensures ok { OnOk result (⟦<MailSpool<D, N, A> as Spool>⟧.kept self.new
            ≡ ⟦<MailSpool<D, N, A> as Spool>⟧.kept self.old ++ kept_file name.now mode bytes.now ∷ []) }
        ensures err { OnErr result (⟦<MailSpool<D, N, A> as Spool>⟧.kept self.new
            ≡ ⟦<MailSpool<D, N, A> as Spool>⟧.kept self.old) }
        ensures refused { (result ≡ Err KeepFault.Refused)
            ↔ (is_refused (shown_public self.old.public) name.now ≡ true) }
        ensures stands { result ≢ Err KeepFault.Device → self.new.faults ≡ self.old.faults }
        ensures device { result ≡ Err KeepFault.Device
            → (self.old.faults < self.new.faults) ⊎ (self.old.faults ≡ u64.MAX) }
        ensures count { self.old.faults ≤ self.new.faults }
    {
        let Some(target) = self.public.place_in(name) else {
            return Err(KeepFault::Refused);
        };
        // All memory is allocated before the disk is touched.
        let Ok(file) = kept_beside_room(&mut self.kept, self.alloc, name, mode, bytes) else {
            return Err(KeepFault::Memory);
        };
        if self.folder.place(&target, bytes).is_err() {
            self.faults = self.faults.saturating_add(1);
            return Err(KeepFault::Device);
        }
        push_kept(&mut self.kept, &file);
        Ok(())
    }

    fn note(&mut self, source: &Name, told: &FileDigest, bytes: &[u8]) {
        if let Some(partials) = &self.partials {
            self.notebook
                .note(source, told, partials.held(source, told), bytes);
        }
    }

    fn let_go(&mut self, told: &FileDigest) {
        if let Some(partials) = &mut self.partials {
            partials.let_go(told);
            self.notebook.let_go(told);
        }
    }

    fn is_lenient(&self) -> bool {
        self.settings.is_lenient
    }

    fn tells_digests(&self) -> bool {
        self.settings.tells_digests
    }

    fn limit(&self) -> usize {
        self.settings.limit.bytes
    }

    fn faults(&self) -> u64 {
        self.faults
    }

    ghost modes = { λ s. mail_modes s.settings.is_lenient s.settings.tells_digests
        s.settings.limit.bytes (shown_public s.public) s.partials s.given.items };

    ghost limits = { λ s. record {
      some = s.settings.limit.some;
      fits = s.settings.limit.fits;
    } };
}

/// Returns whether the file requested by this name may be given later. `path` is its path in the public folder, if that
/// is a valid name.
fn is_delayed_in<A: Allocator>(public: &PublicFolder<A>, name: &Name, path: &Option<Name>) -> bool
    ensures { result ≡ delayed_in (shown_public public.now) name.now path.now }
{
    let Some(path) = path else {
        return false;
    };
    if public.is_unknown {
        return is_public_path(path);
    }
    has_name(public.delayed.as_slice(), path.as_bytes())
        || has_name(public.delayed.as_slice(), name.as_bytes())
}

/// Returns the file of exactly this name, or else the one of this name in the public folder.
fn given<'a, A: Allocator>(files: &'a [Stored<A>], name: &Name) -> Option<FileView<'a>>
    ensures { shown_file result ≡ given (map kept_of files.now) name.now }
{
    match first_named(files, name) {
        Some(file) => Some(file),
        None => file_at(files, &local_source(name)),
    }
}

fn file_at<'a, A: Allocator>(files: &'a [Stored<A>], name: &Option<Name>) -> Option<FileView<'a>>
    ensures { shown_file result ≡ file_at (map kept_of files.now) name.now }
{
    match name {
        Some(name) => first_named(files, name),
        None => None,
    }
}

fn first_named<'a, A: Allocator>(files: &'a [Stored<A>], name: &Name) -> Option<FileView<'a>>
    ensures { shown_file result ≡ first_named (map kept_of files.now) name.now }
{
    for file in files {
        if file.name.as_bytes() == name.as_bytes() {
            return Some(FileView {
                mode: file.mode,
                bytes: file.bytes.as_slice(),
            });
        }
    }
    None
}

/// Reserves room for one more kept file, and returns its description.
fn kept_beside_room<A: Allocator + Copy>(
    kept: &mut Vec<Snapshot<KeptFile<A>>, A>,
    alloc: A,
    name: &Name,
    mode: u16,
    bytes: &[u8],
) -> Result<KeptFile<A>, AllocError>
    ensures kept { kept.new.items ≡ kept.old.items }
    ensures room { OnOk result (vec_len kept.new < vec_capacity kept.new) }
    ensures file { IfOk result (λ file. shown_kept file ≡ kept_file name.now mode bytes.now) }
{
    kept.reserve(1)?;
    KeptFile::of(alloc, name, mode, bytes)
}
