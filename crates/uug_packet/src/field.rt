ghost use Rattle.std.specs.Prelude.{◌≡◌, ℕ, List, ◌+◌, ◌≤◌, ◌<◌, length, MatchResult};
ghost use Rattle.uug_packet.specs.Decoded.{kind_of, message_at, missing_in, valid_bytes};
ghost use Rattle.uug_packet.specs.Field.{field_size, front_size};
ghost use Rattle.uug_packet.specs.Message.{LiesAt, message_start};
ghost use Rattle.uug_packet.specs.Packet.{carry};
ghost use Rattle.uug_packet.specs.Spelling.{IsSpelling};

use crate::decoding::NoPacket;
use crate::header::{CONTROL_PLACE, HEADER_SIZE};

/// The greatest code of a field's size. The least is 1.
pub const FIELD_CODE_MAX: u8 = 8;

/// The size of the smallest field in bytes.
pub const FIELD_MIN: usize = 32;

/// The size of the largest field in bytes.
pub const FIELD_MAX: usize = 4096;

/// The greatest number of missing bytes that one byte can say.
pub const ONE_BYTE_MAX: u8 = 127;

/// The way in which a field holds its message.
#[derive(Clone, Copy)]
pub enum FieldKind {
    /// The whole field is valid.
    Long,
    /// The front of the field says how many bytes are missing.
    Short,
}

/// Returns the size of a field in bytes, by its code: `2^(k+4)`. A code is 1 to 8.
///
/// Taylor UUCP manual, "UUCP 'g' Protocol".
pub fn field_size(k: u8) -> usize
    requires low { 1 ≤ k }
    requires high { k ≤ FIELD_CODE_MAX }
    ensures size { result ≡ field_size k }
    ensures least { FIELD_MIN ≤ result }
    ensures most { result ≤ FIELD_MAX }
{
    1 << (k + 4)
}

/// Returns the code of the smallest field that holds this many bytes.
///
/// Taylor UUCP manual, "UUCP 'g' Protocol".
pub fn field_code(len: usize) -> u8
    requires { len ≤ FIELD_MAX }
    ensures low { 1 ≤ result }
    ensures high { result ≤ FIELD_CODE_MAX }
    ensures holds { len ≤ field_size result }
    ensures least { (k : ℕ) → 1 ≤ k → k < result → field_size k < len }
{
    let mut code = 1;
    while code < FIELD_CODE_MAX && field_size(code) < len {
        code += 1;
    }
    code
}

/// Returns the kind of field that the control byte of a data packet says.
pub fn kind_of(control: u8) -> Option<FieldKind>
    ensures { result ≡ kind_of control }
{
    match control / 64 {
        2 => Some(FieldKind::Long),
        3 => Some(FieldKind::Short),
        _ => None,
    }
}

/// Returns the place where the message begins in the bytes of a data packet. It follows the header. In a short field
/// it follows the bytes that say how many bytes are missing.
///
/// Taylor UUCP manual, "UUCP 'g' Protocol".
pub fn message_start(packet: &[u8]) -> usize
    requires { HEADER_SIZE < length packet.now }
    ensures start { result ≡ message_start packet.now }
    ensures lies { (seq ack k : ℕ) (message : List ℕ)
        → IsSpelling (carry seq ack k message) packet.now →
        LiesAt message result packet.now }
{
    match kind_of(packet[CONTROL_PLACE]) {
        Some(FieldKind::Short) => HEADER_SIZE + front_size(packet[HEADER_SIZE]),
        _ => HEADER_SIZE,
    }
}

/// Returns how many bytes at the front of a short field say the number of missing bytes, by the first of them.
fn front_size(first: u8) -> usize
    ensures { result ≡ front_size first }
{
    if first <= ONE_BYTE_MAX { 1 } else { 2 }
}

/// Returns the number of missing bytes of a short field.
fn missing_in(field: &[u8]) -> usize
    requires { FIELD_MIN ≤ length field.now }
    ensures { result ≡ missing_in field.now }
{
    match field[0] {
        few @ ..=ONE_BYTE_MAX => usize::from(few),
        low => usize::from(low % 128) + 128 * usize::from(field[1]),
    }
}

/// Returns the valid bytes of a field.
pub fn message_of(kind: FieldKind, field: &[u8]) -> Result<&[u8], NoPacket>
    requires { FIELD_MIN ≤ length field.now }
    ensures { MatchResult result
        (λ message. message_at kind field.now ≡ Ok message.now)
        (λ fault. message_at kind field.now ≡ Err fault) }
{
    match kind {
        FieldKind::Long => Ok(field),
        FieldKind::Short => valid_bytes(field, front_size(field[0]), missing_in(field)),
    }
}

/// Returns the message of a short field: the bytes after its front, as many as the field's size minus the missing
/// bytes.
fn valid_bytes(field: &[u8], front: usize, missing: usize) -> Result<&[u8], NoPacket>
    ensures { MatchResult result
        (λ message. valid_bytes field.now front missing ≡ Ok message.now)
        (λ fault. valid_bytes field.now front missing ≡ Err fault) }
{
    if front <= missing && missing <= field.len() {
        Ok(&field[front..front + (field.len() - missing)])
    } else {
        Err(NoPacket::BadLength)
    }
}
