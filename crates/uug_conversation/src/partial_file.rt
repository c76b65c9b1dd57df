ghost use Rattle.std.specs.Prelude.{◌≡◌};
ghost use Rattle.uug_conversation.specs.Partials.{is_key};
ghost use Rattle.uug_conversation.specs.Told.{is_same};
ghost use Rattle.uug_conversation.specs.PartialView.{key_of, partial_of};

use std::alloc::Allocator;
use uug_talk::{FileDigest, Name};

/// The first bytes of a file that was cut off.
#[derive(Drop)]
pub struct PartialFile<A: Allocator> {
    /// Its name at its giver.
    pub source: Name,
    /// The digest that was announced for it.
    pub told: FileDigest,
    /// The bytes that have come.
    pub bytes: Vec<u8, A>,
}

impl<A: Allocator> PartialFile<A> {
    /// Returns whether it is of the file with this name and this announced digest.
    pub fn is_of(&self, source: &Name, told: &FileDigest) -> bool
        ensures { result ≡ is_key (partial_of self.now).key (key_of source.now told.now) }
    {
        self.source.as_bytes() == source.as_bytes() && is_same(&self.told, told)
    }
}

/// Returns whether two announced digests are equal.
pub(crate) fn is_same(a: &FileDigest, b: &FileDigest) -> bool
    ensures { result ≡ is_same a.now b.now }
{
    a.size == b.size && a.hash.as_slice() == b.hash.as_slice()
}
