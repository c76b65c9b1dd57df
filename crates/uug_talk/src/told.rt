//! Reads the size and digest that a command or an answer announces for its file.
ghost use Rattle.std.specs.Prelude.{◌≡◌};
ghost use Rattle.std.specs.Char.{is_ascii_hexdigit};
ghost use Rattle.std.specs.List.{list_all};
ghost use Rattle.uug_talk.specs.Digests.{digest_in, hash_told, hex_number, is_hex_numeral, size_told, told_behind_mode, told_by_answer, told_by_order};
ghost use Rattle.uug_talk.specs.Words.{words};

use crate::file_digest::FileDigest;
use crate::words::split_word;
use hex::FromHex;

/// Returns the size and digest that a command `S` announces for its file, in the words after its mode. Returns `None`
/// if they give no size and digest.
pub fn told_by_order(text: &[u8]) -> Option<FileDigest>
    ensures { result ≡ told_by_order text.now }
{
    let (first, rest) = split_word(text)?;
    match first {
        [b'S'] => read_behind_mode(rest),
        _ => None,
    }
}

/// Returns the size and digest that an answer `RY` announces for its file, in the words after its mode. Returns `None`
/// if they give no size and digest.
pub fn told_by_answer(text: &[u8]) -> Option<FileDigest>
    ensures { result ≡ told_by_answer text.now }
{
    let (first, rest) = split_word(text)?;
    match first {
        [b'R', b'Y', ..] => {
            let (_, rest) = split_word(rest)?;
            read_digest(rest)
        }
        _ => None,
    }
}

fn read_behind_mode(text: &[u8]) -> Option<FileDigest>
    ensures { result ≡ told_behind_mode (words text.now) }
{
    let (_, rest) = split_word(text)?;
    let (_, rest) = split_word(rest)?;
    let (_, rest) = split_word(rest)?;
    let (_, rest) = split_word(rest)?;
    let (_, rest) = split_word(rest)?;
    let (_, rest) = split_word(rest)?;
    read_digest(rest)
}

pub(crate) fn read_digest(text: &[u8]) -> Option<FileDigest>
    ensures { result ≡ digest_in (words text.now) }
{
    let (_, rest) = split_word(text)?;
    let (size, rest) = split_word(rest)?;
    let (hash, _) = split_word(rest)?;
    Some(FileDigest {
        size: read_size(size)?,
        hash: read_hash(hash)?,
    })
}

pub(crate) fn read_size(word: &[u8]) -> Option<u32>
    ensures { result ≡ size_told word.now }
{
    read_hex(word.strip_prefix(b"0x")?)
}

fn read_hash(word: &[u8]) -> Option<[u8; 32]>
    ensures { result ≡ hash_told word.now }
{
    let digits = word.strip_prefix(b"sha256:")?;
    <[u8; 32] as FromHex>::from_hex(digits).ok()
}

fn are_hex_digits(word: &[u8]) -> bool
    ensures { result ≡ list_all is_ascii_hexdigit word.now }
{
    word.iter().all(|b| b.is_ascii_hexdigit())
}

fn is_hex_numeral(word: &[u8]) -> bool
    ensures { result ≡ is_hex_numeral word.now }
{
    !word.is_empty() && are_hex_digits(word)
}

/// Returns the number that a word of hexadecimal digits writes, if it fits 32 bits. It reads no sign.
fn read_hex(word: &[u8]) -> Option<u32>
    ensures { result ≡ hex_number word.now }
{
    if !is_hex_numeral(word) {
        return None;
    }
    let Ok(digits) = str::from_utf8(word) else {
        unreachable!();
    };
    u32::from_str_radix(digits, 16).ok()
}
