ghost use Rattle.std.specs.Prelude.{◌≡◌, ℕ, ◌≤◌, ◌↔◌, List, ◌++◌, length, take, MatchResult, MatchOption, IfOk, IsOkAnd, IsErrAnd, IsErrOf};
ghost use Rattle.uug_packet.specs.Decoded.{decoded, control_decoded, control_of, data_decoded};
ghost use Rattle.uug_packet.specs.Packet.{PacketValue, control, shown, shown_control};
ghost use Rattle.uug_packet.specs.Spelling.{IsSpelling};
ghost use Rattle.uug_packet.specs.Waits.{IsBroken, IsDamage, Waits};

use crate::checksum::{check, checksum_of};
use crate::control::Control;
use crate::field::{FIELD_CODE_MAX, field_size, kind_of, message_of};
use crate::header::{CONTROL_K, HEADER_SIZE, Header};
use crate::number::Seq;
use crate::packet::Packet;
use thiserror::Error;

/// The reason why bytes do not begin with a packet.
#[derive(Clone, Copy, Debug, PartialEq, Eq, Error)]
pub enum NoPacket {
    /// More bytes are needed to decide.
    #[error("more bytes are needed")]
    Short,
    /// The first byte is not 0x10.
    #[error("no packet begins here")]
    BadStart,
    /// K is not that of any packet.
    #[error("bad size code")]
    BadK,
    /// The last byte of the header is not the exclusive or of the four before it.
    #[error("bad header check")]
    BadXor,
    /// The control byte fits no packet of this K.
    #[error("bad control byte")]
    BadKind,
    /// The checksum is wrong.
    #[error("bad checksum")]
    BadSum,
    /// A short field says that more bytes are missing than it has, or none.
    #[error("bad length")]
    BadLength,
}

/// Returns the control packet for a control byte.
fn control_of(byte: u8) -> Option<Control>
    ensures { MatchOption result (control_of byte ≡ None) (λ c.
        control_of byte ≡ Some (shown_control c)) }
{
    let y = Seq::of_low_bits(byte);
    match byte / 8 {
        1 => Some(Control::Close),
        2 => Some(Control::Rj(y)),
        3 => Some(Control::Srj(y)),
        4 => Some(Control::Rr(y)),
        5 => Some(Control::InitC(y)),
        6 => Some(Control::InitB(y)),
        7 => Some(Control::InitA(y)),
        _ => None,
    }
}

/// Reads the packet at the front of the bytes, and returns it with the number of bytes that it takes. Bytes may follow
/// it.
///
/// The tests come in this order. No bytes are `Short`, a first byte other than 0x10 is `BadStart`, and fewer bytes
/// than a header are `Short`. Then come `BadK`, `BadXor`, `BadKind`. A control packet is then tested for `BadSum`. For
/// a data packet an incomplete field is `Short`, and then come `BadSum` and `BadLength`. The message is a slice of the
/// bytes.
///
/// Taylor UUCP manual, "UUCP 'g' Protocol".
pub fn decode(bytes: &[u8]) -> Result<(Packet<'_>, usize), NoPacket>
    // What is read is spelled so.
    ensures found { IfOk result (λ found. IsSpelling (shown found.0) (take found.1 bytes.now)) }
    ensures within { IfOk result (λ found. found.1 ≤ length bytes.now) }
    // What is spelled so is read.
    ensures only { (p : PacketValue) (w rest : List ℕ) → IsSpelling p w → bytes.now ≡ w ++ rest →
        IsOkAnd result (λ found. (shown found.0 ≡ p) × (found.1 ≡ length w)) }
    // Which error it is.
    ensures short { IsErrOf result NoPacket.Short ↔ Waits bytes.now }
    ensures broken { IsErrAnd result (λ fault. IsDamage fault bytes.now) ↔ IsBroken bytes.now }
    ensures exact { MatchResult result
        (λ found. decoded bytes.now ≡ Ok (shown found.0, found.1))
        (λ fault. decoded bytes.now ≡ Err fault) }
{
    read_packet(bytes)
}

#[tactic(auto, unfolding(crate::specs::Decoded::decoded))]
fn read_packet(bytes: &[u8]) -> Result<(Packet<'_>, usize), NoPacket>
    ensures { MatchResult result
        (λ found. decoded bytes.now ≡ Ok (shown found.0, found.1))
        (λ fault. decoded bytes.now ≡ Err fault) }
{
    let header = Header::read(bytes)?;
    if header.k == CONTROL_K {
        let control = read_control(header)?;
        Ok((Packet::Control(control), HEADER_SIZE))
    } else {
        read_data(header, &bytes[HEADER_SIZE..])
    }
}

fn read_control(header: Header) -> Result<Control, NoPacket>
    ensures { MatchResult result
        (λ found. control_decoded header ≡ Ok (control (shown_control found), HEADER_SIZE))
        (λ fault. control_decoded header ≡ Err fault) }
{
    let control = control_of(header.control).ok_or(NoPacket::BadKind)?;
    if header.checksum != checksum_of(u16::from(header.control)) {
        return Err(NoPacket::BadSum);
    }
    Ok(control)
}

fn read_data(header: Header, rest: &[u8]) -> Result<(Packet<'_>, usize), NoPacket>
    requires low { 1 ≤ header.k }
    requires high { header.k ≤ FIELD_CODE_MAX }
    ensures { MatchResult result
        (λ found. data_decoded header rest.now ≡ Ok (shown found.0, found.1))
        (λ fault. data_decoded header rest.now ≡ Err fault) }
{
    let kind = kind_of(header.control).ok_or(NoPacket::BadKind)?;
    let size = field_size(header.k);
    if rest.len() < size {
        return Err(NoPacket::Short);
    }
    let field = &rest[..size];
    if header.checksum != checksum_of(check(field) ^ u16::from(header.control)) {
        return Err(NoPacket::BadSum);
    }
    let packet = Packet::Carry {
        seq: Seq::of_low_bits(header.control / 8),
        ack: Seq::of_low_bits(header.control),
        k: header.k,
        message: message_of(kind, field)?,
    };
    Ok((packet, HEADER_SIZE + size))
}
