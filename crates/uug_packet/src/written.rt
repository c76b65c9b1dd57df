ghost use Rattle.std.specs.Prelude.{◌≡◌, ◌*◌, ◌+◌, ◌%◌, ◌≤◌, ◌↔◌, length, slice_index, IsTrue, MatchOption, Option, None, Some};
ghost use Rattle.uug_packet.specs.Message.{message_if_data, message_in};
ghost use Rattle.uug_packet.specs.Number.{number_of};
ghost use Rattle.uug_packet.specs.Packet.{PacketValue, shown};
ghost use Rattle.uug_packet.specs.Spelling.{IsSpelling, IsWritable, canonical};
ghost use Rattle.uug_packet.specs.WellFormed.{IsWritten};

use crate::encoding::control_packet;
use crate::field::{FIELD_MIN, kind_of, message_of};
use crate::header::{CONTROL_PLACE, HEADER_SIZE, Header};
use crate::number::Seq;
use crate::packet::Packet;

/// Reads the message of a packet that was written or found, with no check of the field. A control packet has none.
///
/// For bytes that are no packet it may return any of their bytes, or nothing.
///
/// Taylor UUCP manual, "UUCP 'g' Protocol".
pub fn message_in(packet: &[u8]) -> Option<&[u8]>
    ensures spelled { (p : PacketValue) → IsSpelling p packet.now
        → MatchOption result (message_if_data p ≡ None)
        (λ message. message_if_data p ≡ Some message.now) }
    ensures exact { MatchOption result (message_in packet.now ≡ None)
        (λ message. message_in packet.now ≡ Some message.now) }
{
    read_message(packet)
}

fn read_message(packet: &[u8]) -> Option<&[u8]>
    ensures { MatchOption result (message_in packet.now ≡ None) (λ message.
        message_in packet.now ≡ Some message.now) }
{
    if packet.len() < HEADER_SIZE + FIELD_MIN {
        return None;
    }
    let kind = kind_of(packet[CONTROL_PLACE])?;
    match message_of(kind, &packet[HEADER_SIZE..]) {
        Ok(message) => Some(message),
        Err(_) => None,
    }
}

/// Returns whether the bytes, which spell some packet as written, are those of this one. It writes nothing and
/// computes no check.
pub fn is_written(packet: &Packet<'_>, bytes: &[u8]) -> bool
    requires packet { IsWritable (shown packet.now) }
    requires bytes { IsWritten bytes.now }
    ensures { IsTrue result ↔ (bytes.now ≡ canonical (shown packet.now)) }
{
    match packet {
        Packet::Control(control) => bytes == control_packet(*control).as_slice(),
        Packet::Carry {
            seq,
            ack,
            k,
            message,
        } => says_carry(bytes, *seq, *ack, *k, message),
    }
}

/// Returns whether the header has this code and these numbers, and the field this message.
fn says_carry(bytes: &[u8], seq: Seq, ack: Seq, k: u8, message: &[u8]) -> bool
    requires { HEADER_SIZE ≤ length bytes.now }
    ensures { IsTrue result ↔ ((slice_index bytes.now 1 ≡ k)
        × (slice_index bytes.now CONTROL_PLACE % 64 ≡ 8 * number_of seq + number_of ack)
        × (message_in bytes.now ≡ Some message.now)) }
{
    let header = Header::at(bytes);
    let Some(found) = message_in(bytes) else {
        return false;
    };
    header.k == k && header.control % 64 == 8 * seq.value() + ack.value() && found == message
}
