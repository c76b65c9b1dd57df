//! Commands and answers that announce the size and the digest of their file.
ghost use Rattle.std.specs.Prelude.{◌≡◌, ◌+◌, ◌≤◌, ◌++◌, ◌∷◌, length, Some};
ghost use Rattle.hex.specs.Hex.{IsBytes, encode_lower};
ghost use Rattle.std.specs.Int.{to_be_bytes, w32};
ghost use Rattle.uug_talk.specs.Digests.{IsSend, digest_text, give_telling_text, hash_text, order_telling_text, told_by_answer, told_by_order};
ghost use Rattle.uug_talk.specs.Answer.{ReadsAnswer};
ghost use Rattle.uug_talk.specs.Chunks.{IsCommandText};
ghost use Rattle.uug_talk.specs.Order.{HasMode, ReadsOrder};
ghost use Rattle.uug_talk.specs.declared.answer.Answer.TheVariants.{GiveYes};

use crate::answer::{Answer, write_answer};
use crate::file_digest::FileDigest;
use crate::mode::MODE_MAX;
use crate::order::{Order, write_order};
use arrayvec::ArrayVec;
use sha2::{Digest, Sha256};

/// The room for a text that announces a digest. It is more than the longest one needs.
pub const TELLING_MAX: usize = 1_152;

/// Returns the text of a command that announces this digest for its file, without its zero byte.
pub fn order_telling(order: &Order, told: &FileDigest) -> ArrayVec<u8, TELLING_MAX>
    requires { HasMode order.now }
    ensures text { result.items ≡ order_telling_text order.now told.now }
    // It is read as the command, whether the digest is read or not.
    ensures order { ReadsOrder result.items order.now }
    // It announces this digest.
    ensures told { IsSend order.now → told_by_order result.items ≡ Some told.now }
    // It may be cut into messages.
    ensures command { IsCommandText result.items }
{
    with_digest(&write_order(order), told)
}

/// Returns the text of the answer `RY` with this mode that announces this digest for its file, without its zero byte.
pub fn give_telling(mode: u16, told: &FileDigest) -> ArrayVec<u8, TELLING_MAX>
    requires { mode ≤ MODE_MAX }
    ensures text { result.items ≡ give_telling_text mode told.now }
    // It is read as that answer, whether the digest is read or not.
    ensures answer { ReadsAnswer result.items (GiveYes mode) }
    // It announces this digest.
    ensures told { told_by_answer result.items ≡ Some told.now }
    // It may be cut into messages.
    ensures command { IsCommandText result.items }
{
    with_digest(&write_answer(&Answer::GiveYes(mode)), told)
}

/// Returns the SHA-256 digest of these bytes (FIPS 180-4), in hexadecimal digits.
pub fn hash_text(bytes: &[u8]) -> [u8; 64]
    ensures { result ≡ hash_text bytes.now }
{
    hash_digits(&Sha256::digest(bytes))
}

/// Returns a text, followed by the announced size and digest.
pub(crate) fn with_digest(text: &[u8], told: &FileDigest) -> ArrayVec<u8, TELLING_MAX>
    requires { length text.now + 128 ≤ TELLING_MAX }
    ensures text { result.items ≡ text.now ++ 32 ∷ digest_text told.now }
    ensures within { length result.items ≤ TELLING_MAX }
    ensures size { told.now.size ≤ u32.MAX }
    ensures bytes { IsBytes told.now.hash }
    ensures length { length told.now.hash ≡ 32 }
{
    let mut telling = ArrayVec::new();
    push_all(&mut telling, text);
    push_all(&mut telling, b" \"\" 0x");
    push_all(&mut telling, &size_digits(told.size));
    push_all(&mut telling, b" sha256:");
    push_all(&mut telling, &hash_digits(&told.hash));
    telling
}

pub(crate) fn size_digits(size: u32) -> [u8; 8]
    ensures digits { result ≡ encode_lower (to_be_bytes w32 size) }
    ensures fits { size ≤ u32.MAX }
{
    let mut digits = [0; 8];
    let Ok(()) = hex::encode_to_slice(size.to_be_bytes(), &mut digits) else {
        unreachable!();
    };
    digits
}

fn hash_digits(hash: &[u8; 32]) -> [u8; 64]
    ensures digits { result ≡ encode_lower hash.now }
    ensures bytes { IsBytes hash.now }
    ensures length { length hash.now ≡ 32 }
{
    let mut digits = [0; 64];
    let Ok(()) = hex::encode_to_slice(hash.as_slice(), &mut digits) else {
        unreachable!();
    };
    digits
}

/// Writes these bytes at the end.
pub(crate) fn push_all(telling: &mut ArrayVec<u8, TELLING_MAX>, bytes: &[u8])
    requires { length telling.old.items + length bytes.now ≤ TELLING_MAX }
    ensures items { telling.new.items ≡ telling.old.items ++ bytes.now }
    ensures len { length telling.new.items ≡ length telling.old.items + length bytes.now }
{
    let Ok(()) = telling.try_extend_from_slice(bytes) else {
        unreachable!();
    };
}
