//! The item at the front of some bytes.
ghost use Rattle.std.specs.Prelude.{◌≡◌, ◌↔◌, ◌++◌, IsTrue, MatchOption, slice_index};
ghost use Rattle.uug_packet.specs.declared.header.TheConstants.{CONTROL_K};
ghost use Rattle.uug_packet.specs.Decoded.{decoded};
ghost use Rattle.uug_scan.specs.Detailed.{added_words, plain_words, words_or_none};
ghost use Rattle.uug_scan.specs.Code.Noise.{IsFront, what_of};

use uug_packet::{CONTROL_K, NoPacket, Packet, decode};

/// The item at the front of some bytes.
#[derive(Clone, Copy)]
pub enum Front<'a> {
    /// A packet, and the number of its bytes.
    Packet(Packet<'a>, usize),
    /// The first byte of a damaged packet.
    Damaged(Damage),
    /// A byte that is no part of a packet.
    Noise(NoPacket),
}

/// The damage of a packet whose header is right.
#[derive(Clone, Copy)]
pub enum Damage {
    /// The checksum of a data packet is wrong.
    Checksum,
    /// The length in the field of a data packet is wrong.
    Length,
    /// The checksum of a control packet is wrong.
    Control,
}

impl Damage {
    /// Returns the words of its line.
    pub fn words(self) -> &'static str
        ensures { result.now
            ≡ words_or_none (plain_words (what_of self) 1) ++ added_words (what_of self) 1 }
    {
        match self {
            Damage::Checksum => "BAD checksum",
            Damage::Length => "BAD length",
            Damage::Control => "CONTROL BAD checksum",
        }
    }
}

/// Returns whether K, at the second place, is that of a control packet.
fn is_control(bytes: &[u8]) -> bool
    ensures { IsTrue result ↔ (slice_index bytes.now 1 ≡ CONTROL_K) }
{
    bytes.len() > 1 && bytes[1] == CONTROL_K
}

/// Returns the item at the front, or `None` if the bytes wait.
pub fn front_of(bytes: &[u8]) -> Option<Front<'_>>
    ensures { MatchOption result (decoded bytes.now ≡ Err NoPacket.Short)
        (λ front. IsFront front bytes.now) }
{
    match decode(bytes) {
        Ok((packet, size)) => Some(Front::Packet(packet, size)),
        Err(NoPacket::Short) => None,
        Err(NoPacket::BadSum) if is_control(bytes) => Some(Front::Damaged(Damage::Control)),
        Err(NoPacket::BadSum) => Some(Front::Damaged(Damage::Checksum)),
        Err(NoPacket::BadLength) => Some(Front::Damaged(Damage::Length)),
        Err(other) => Some(Front::Noise(other)),
    }
}
