ghost use Rattle.std.specs.Prelude.{◌≡◌, ◌-◌, ◌≤◌, ◌↔◌, ◌++◌, length, replicate, IsTrue, IsOk, IfOk, IfErr};
ghost use Rattle.uug_talk.specs.Name.{IsName, name_read};

use crate::error::BadText;
use std::marker::Model;

/// The longest name, in bytes.
pub const NAME_MAX: usize = 200;

/// A name of a file or a user: 1 to `NAME_MAX` bytes, each a printing character of ASCII other than
/// the space (0x21 to 0x7e). A clause sees it as the list of its bytes.
#[derive(Clone, Copy, PartialEq, Eq, Debug)]
pub struct Name {
    // The name, and zeros up to the end.
    bytes: [u8; NAME_MAX],
    len: usize,
}

impl Model for Name {
    ghost use Rattle.std.specs.Prelude.{◌≡◌, ◌-◌, ◌≤◌, ℕ, List, ◌++◌, length, take, drop, replicate};
    ghost use Rattle.uug_talk.specs.declared.name.TheConstants.{NAME_MAX};
    ghost use Rattle.uug_talk.specs.Name.{IsName, name_padded_back, length_of_front};

    ghost Value = { List ℕ };

    ghost view = { λ n. take n.len n.bytes };

    ghost invariant = { λ n. (n.len ≤ NAME_MAX) × (length n.bytes ≡ NAME_MAX)
        × (drop n.len n.bytes ≡ replicate (NAME_MAX - n.len) 0) × IsName (take n.len n.bytes) };

    ghost inverse = { λ s.
        record { bytes = s ++ replicate (NAME_MAX - length s) 0; len = length s } };

    ghost inverse_ok = { λ n h i. record {
      bytes = name_padded_back n.len n.bytes h.0 h.1 h.2 i;
      len = length_of_front n.len n.bytes h.0 h.1 i;
    } };
}

fn is_name(bytes: &[u8]) -> bool
    ensures { IsTrue result ↔ IsName bytes.now }
{
    !bytes.is_empty() && bytes.len() <= NAME_MAX && bytes.iter().all(|b| b.is_ascii_graphic())
}

// Returns the bytes, followed by zeros up to the end.
fn padded(bytes: &[u8]) -> [u8; NAME_MAX]
    requires { length bytes.now ≤ NAME_MAX }
    ensures { result ≡ bytes.now ++ replicate (NAME_MAX - length bytes.now) 0 }
{
    let mut padded = [0; NAME_MAX];
    padded[..bytes.len()].copy_from_slice(bytes);
    padded
}

impl Name {
    /// Makes the name of these bytes. Bytes that are no name are refused as `Name`.
    pub fn new(bytes: &[u8]) -> Result<Self, BadText>
        ensures variant { IsOk result ↔ IsName bytes.now }
        ensures bytes { IfOk result (λ name. name ≡ bytes.now) }
        ensures err { IfErr result (λ fault. fault ≡ BadText.Name) }
        ensures exact { result ≡ name_read bytes.now }
    {
        if !is_name(bytes) {
            return Err(BadText::Name);
        }
        Ok(Name {
            bytes: padded(bytes),
            len: bytes.len(),
        })
    }

    /// Returns the bytes of the name.
    pub fn as_bytes(&self) -> &[u8]
        ensures value { result.now ≡ self.now }
        ensures name { IsName result.now }
    {
        &self.bytes[..self.len]
    }

    /// Returns the name as a text, with as many characters as the name has bytes.
    pub fn as_str(&self) -> &str
        ensures { result.now ≡ self.now }
    {
        let Ok(text) = str::from_utf8(self.as_bytes()) else {
            unreachable!();
        };
        text
    }
}
