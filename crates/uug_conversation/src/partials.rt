ghost use Rattle.std.specs.Prelude.{◌≡◌, ◌≤◌, [], OnOk, OnErr, vec_capacity, vec_len};
ghost use Rattle.uug_conversation.specs.Partial.{Partial};
ghost use Rattle.uug_conversation.specs.Partials.{bytes_under, put, without};
ghost use Rattle.uug_conversation.specs.PartialView.{key_of, partial_of, partials_of};

use crate::partial_file::{PartialFile, is_same};
use std::alloc::{AllocError, Allocator};
use std::marker::Model;
use uug_talk::{FileDigest, Name};

/// The first bytes of files that were cut off, one of each name and digest.
#[derive(Drop)]
pub struct Partials<A: Allocator> {
    files: Vec<PartialFile<A>, A>,
    /// The digests of those that are over. There is room for one of each file.
    over: Vec<FileDigest, A>,
}

impl<A: Allocator> Model for Partials<A> {
    ghost use Rattle.std.specs.Prelude.{List};
    ghost use Rattle.uug_conversation.specs.Partial.{Partial};
    ghost use Rattle.uug_conversation.specs.PartialView.{partials_of};

    ghost Value = { List Partial };

    ghost view = { λ p. partials_of p.files.items };
}

impl<A: Allocator> Partials<A> {
    /// Makes an empty collection. It takes no memory.
    pub fn new(alloc: A) -> Self
    where
        A: Copy,
        ensures { result ≡ [] }
    {
        Partials {
            files: Vec::new(alloc),
            over: Vec::new(alloc),
        }
    }

    /// Returns the bytes that are held of the file with this name at its giver and this announced digest. They are none if
    /// nothing is held of it.
    pub fn held(&self, source: &Name, told: &FileDigest) -> &[u8]
        ensures { result.now ≡ bytes_under (key_of source.now told.now) self.now }
    {
        bytes_under(self.files.as_slice(), source, told)
    }

    /// Returns the files, in the order in which they were put.
    pub fn files(&self) -> &[PartialFile<A>]
        ensures { partials_of result.now ≡ self.now }
    {
        self.files.as_slice()
    }

    /// Holds these bytes of a file, in place of those that were held of it. Without memory nothing changes.
    pub fn put(&mut self, file: PartialFile<A>) -> Result<(), AllocError>
        ensures ok { OnOk result (self.new ≡ put (partial_of file) self.old) }
        ensures err { OnErr result (self.new ≡ self.old) }
    {
        self.files.reserve(1)?;
        self.over.reserve(1)?;
        drop_under(&mut self.files, &file.source, &file.told);
        self.files.push_reserved(file);
        Ok(())
    }

    /// Notes that the file with this digest is over, if something is held of it. That stays until the session's end.
    pub fn let_go(&mut self, told: &FileDigest)
        ensures { self.new ≡ self.old }
    {
        let is_held = self.files.iter().any(|file| is_same(&file.told, told));
        if is_held && self.over.len() < self.over.capacity() {
            self.over.push_reserved(*told);
        }
    }

    /// Returns the digests of the files that are over.
    pub fn over(&self) -> &[FileDigest] {
        self.over.as_slice()
    }
}

fn bytes_under<'a, A: Allocator>(
    files: &'a [PartialFile<A>],
    source: &Name,
    told: &FileDigest,
) -> &'a [u8]
    ensures { result.now ≡ bytes_under (key_of source.now told.now) (partials_of files.now) }
{
    for file in files {
        if file.is_of(source, told) {
            return file.bytes.as_slice();
        }
    }
    &[]
}

fn drop_under<A: Allocator>(files: &mut Vec<PartialFile<A>, A>, source: &Name, told: &FileDigest)
    ensures files { partials_of files.new.items
        ≡ without (key_of source.now told.now) (partials_of files.old.items) }
    ensures room { vec_capacity files.new ≡ vec_capacity files.old }
    ensures len { vec_len files.new ≤ vec_len files.old }
{
    files.retain(|file| !file.is_of(source, told));
}
