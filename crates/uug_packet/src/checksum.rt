ghost use Rattle.std.specs.Prelude.{◌≡◌, ◌<◌, ◌==◌, ◌||◌, nat_lt, length, bit_xor};
ghost use Rattle.uug_packet.specs.Checksum.{check};
ghost use Rattle.uug_packet.specs.Spelling.{checksum_of};

/// The start value of a field's check.
pub const CHECK_START: u16 = 0xffff;

/// The value from which a checksum is subtracted.
pub const CHECKSUM_BASE: u16 = 0xaaaa;

/// Returns the check of all bytes of a field, padding included.
///
/// Taylor UUCP manual, "UUCP 'g' Protocol".
#[tactic(auto, unfolding(crate::specs::Checksum::check))]
pub fn check(field: &[u8]) -> u16
    requires { 0 < length field.now }
    ensures { result ≡ check field.now }
{
    let mut check = CHECK_START;
    let mut mixed = 0u16;
    let mut place = field.len();
    for byte in field {
        check = check.rotate_left(1).wrapping_add(u16::from(*byte));
        mixed = mixed.wrapping_add(check ^ (place % 0x1_0000) as u16);
        if mixes(*byte, check) {
            check = mixed_into(check, mixed);
        }
        place -= 1;
    }
    check
}

/// Returns whether a byte mixes the second register in: it is 0, or the addition wrapped. One test covers both,
/// because zero minus one is the greatest number.
fn mixes(byte: u8, check: u16) -> bool
    ensures { result ≡ (byte == 0 || nat_lt check byte) }
{
    check <= u16::from(byte).wrapping_sub(1)
}

/// Returns the check with the second register mixed in. Few bytes need it. It is a call, so that the processor guesses
/// that a byte does not need it, and goes on to the next. Otherwise each byte would wait for both registers.
#[cold]
#[inline(never)]
fn mixed_into(check: u16, mixed: u16) -> u16
    ensures { result ≡ bit_xor check mixed }
{
    check ^ mixed
}

/// Returns the checksum that a header carries: `0xaaaa` minus the number.
pub fn checksum_of(n: u16) -> u16
    ensures { result ≡ checksum_of n }
{
    CHECKSUM_BASE.wrapping_sub(n)
}
