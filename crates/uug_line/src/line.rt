ghost use Rattle.std.specs.Prelude.{◌≡◌, ◌≤◌, [], ◌∷◌, ◌++◌, length, take, drop, vec_len, OnOk};
ghost use Rattle.uug_line.specs.Run.{flipped};

use std::alloc::{AllocError, Allocator};
use std::marker::Model;

/// The bytes that an end has emitted and that are on their way. Clauses see them as a list.
#[derive(Drop)]
pub(crate) struct Line<A: Allocator> {
    bytes: Vec<u8, A>,
    /// The number of bytes in front that have left the line already. They stay until they are more than the others.
    gone: usize,
}

impl<A: Allocator> Model for Line<A> {
    ghost use Rattle.std.specs.Prelude.{ℕ, ◌≤◌, List, drop, vec_len};

    ghost Value = { List ℕ };

    ghost view = { λ l. drop l.gone l.bytes.items };

    ghost invariant = { λ l. l.gone ≤ vec_len l.bytes };
}

impl<A: Allocator + Copy> Line<A> {
    /// Makes an empty line.
    pub(crate) fn new(alloc: A) -> Self
        ensures { result ≡ [] }
    {
        Line {
            bytes: Vec::new(alloc),
            gone: 0,
        }
    }
}

impl<A: Allocator> Line<A> {
    /// Appends these bytes.
    pub(crate) fn append(&mut self, bytes: &[u8]) -> Result<(), AllocError>
        ensures { OnOk result (self.new ≡ self.old ++ bytes.now) }
    {
        self.bytes.extend_from_slice(bytes)
    }

    /// Returns the number of bytes on their way.
    pub(crate) fn len(&self) -> usize
        ensures { result ≡ length self.now }
    {
        self.bytes.len() - self.gone
    }

    /// Returns all bytes on the line.
    pub(crate) fn bytes(&self) -> &[u8]
        ensures { result.now ≡ self.now }
    {
        &self.bytes[self.gone..]
    }

    /// Returns the next `n` bytes, or all if fewer are on the line.
    pub(crate) fn next(&self, n: usize) -> &[u8]
        ensures { result.now ≡ take n self.now }
    {
        let bytes = self.bytes();
        &bytes[..n.min(bytes.len())]
    }

    /// Removes the next `n` bytes from the line, or all if fewer are on it.
    pub(crate) fn pass(&mut self, n: usize)
        ensures { self.new ≡ drop n self.old }
    {
        let count = n.min(self.bytes.len() - self.gone);
        self.gone = let_go(&mut self.bytes, self.gone + count);
    }

    /// Inverts the bits of the mask in the next byte, if there is one.
    pub(crate) fn flip(&mut self, mask: u8)
        ensures { self.new ≡ flipped mask self.old }
    {
        if self.gone < self.bytes.len() {
            self.bytes[self.gone] ^= mask;
        }
    }

    /// Inserts a byte before the next one.
    pub(crate) fn insert(&mut self, byte: u8) -> Result<(), AllocError>
        ensures { OnOk result (self.new ≡ byte ∷ self.old) }
    {
        if self.gone == 0 {
            self.bytes.insert(0, byte)?;
        } else {
            self.gone -= 1;
            self.bytes[self.gone] = byte;
        }
        Ok(())
    }

    /// Removes all bytes.
    pub(crate) fn clear(&mut self)
        ensures { self.new ≡ [] }
    {
        self.bytes.clear();
        self.gone = 0;
    }
}

/// Removes the `gone` bytes at the front once they are more than the others. Each byte is moved at most once, and none
/// if all are gone. Returns how many gone bytes are still there.
fn let_go<A: Allocator>(bytes: &mut Vec<u8, A>, gone: usize) -> usize
    requires { gone ≤ vec_len bytes.old }
    ensures within { result ≤ vec_len bytes.new }
    ensures same { drop result bytes.new.items ≡ drop gone bytes.old.items }
{
    if gone == bytes.len() {
        bytes.clear();
        return 0;
    }
    if gone <= bytes.len() / 2 {
        return gone;
    }
    bytes.drain(..gone);
    0
}
