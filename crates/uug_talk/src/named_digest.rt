//! The name of a file, with its size and its digest behind it.
ghost use Rattle.std.specs.Prelude.{◌≡◌, ◌≢◌, All, Some};
ghost use Rattle.uug_talk.specs.Named.{named_text, read_named};

use crate::file_digest::FileDigest;
use crate::name::Name;
use crate::telling::{TELLING_MAX, with_digest};
use crate::told::read_digest;
use crate::words::split_word;
use arrayvec::ArrayVec;

/// The name of a file, and the announcement of it.
#[derive(Clone, Copy, Debug, PartialEq, Eq)]
pub struct NamedDigest {
    /// The file's name.
    pub name: Name,
    /// Its size and digest.
    pub told: FileDigest,
}

impl NamedDigest {
    /// Returns both as one line, without its end.
    pub fn line(&self) -> ArrayVec<u8, TELLING_MAX>
        ensures text { result.items ≡ named_text self.now }
        // It is read back.
        ensures back { read_named result.items ≡ Some self.now }
        ensures line { All (λ b. b ≢ 10) result.items }
    {
        with_digest(self.name.as_bytes(), &self.told)
    }

    /// Returns what such a line says. Returns `None` if it has no name, or no size and digest behind it.
    pub fn of_line(line: &[u8]) -> Option<Self>
        ensures { result ≡ read_named line.now }
    {
        let (name, rest) = split_word(line)?;
        Some(NamedDigest {
            name: Name::new(name).ok()?,
            told: read_digest(rest)?,
        })
    }
}
