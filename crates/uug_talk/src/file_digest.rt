ghost use Rattle.std.specs.Prelude.{◌≡◌, ◌≤◌, ◌↔◌, IsTrue, length};
ghost use Rattle.uug_talk.specs.Digests.{digest_of};

use sha2::{Digest, Sha256};

/// The announcement of a file: its size and its digest.
#[derive(Clone, Copy, Debug, PartialEq, Eq)]
pub struct FileDigest {
    /// The number of bytes.
    pub size: u32,
    /// Their SHA-256 digest (FIPS 180-4).
    pub hash: [u8; 32],
}

impl FileDigest {
    /// Makes the announcement of a file of these bytes.
    pub fn of(bytes: &[u8]) -> FileDigest
        requires { length bytes.now ≤ u32.MAX }
        ensures { result ≡ digest_of bytes.now }
    {
        FileDigest {
            size: bytes.len() as u32,
            hash: Sha256::digest(bytes),
        }
    }

    /// Returns whether it is the announcement of a file of these bytes.
    pub fn is_of(&self, bytes: &[u8]) -> bool
        ensures { IsTrue result ↔ (self.now ≡ digest_of bytes.now) }
    {
        let hash = Sha256::digest(bytes);
        bytes.len() == self.size as usize && hash.as_slice() == self.hash.as_slice()
    }
}
