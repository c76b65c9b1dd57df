ghost use Rattle.std.specs.Prelude.{◌≡◌, ◌<◌, ◌++◌, [], ◌∷◌, map, IfOk, vec_len, vec_capacity};
ghost use Rattle.uug_conversation.specs.Holdings.{kept_file};
ghost use Rattle.uug_store.specs.KeptFiles.{shown_kept};

use std::alloc::{AllocError, Allocator};
use std::snapshot::Snapshot;
use uug_talk::Name;

/// A file that a spool has kept, for clauses only: its bytes are on a disk, and take no memory here.
#[derive(Drop)]
pub struct KeptFile<A: Allocator> {
    pub name: Name,
    pub mode: u16,
    pub bytes: Vec<Snapshot<u8>, A>,
}

impl<A: Allocator> KeptFile<A> {
    /// Describes a file.
    pub fn of(alloc: A, name: &Name, mode: u16, bytes: &[u8]) -> Result<KeptFile<A>, AllocError>
        ensures { IfOk result (λ file. shown_kept file ≡ kept_file name.now mode bytes.now) }
    {
        let mut seen = Vec::new(alloc);
        for byte in bytes {
            seen.push(Snapshot::of(byte))?;
        }
        Ok(KeptFile {
            name: *name,
            mode,
            bytes: seen,
        })
    }
}

/// Appends a file, for which room was reserved, to those that were kept.
pub fn push_kept<A: Allocator>(kept: &mut Vec<Snapshot<KeptFile<A>>, A>, file: &KeptFile<A>)
    requires { vec_len kept.old < vec_capacity kept.old }
    ensures { map (λ f. shown_kept f.value) kept.new.items
        ≡ map (λ f. shown_kept f.value) kept.old.items ++ shown_kept file.now ∷ [] }
{
    kept.push_reserved(Snapshot::of(file));
}
