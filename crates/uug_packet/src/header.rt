ghost use Rattle.std.specs.Prelude.{◌≡◌, ◌+◌, ◌*◌, ◌/◌, ◌≤◌, ◌++◌, bit_xor, length, drop, slice_index, MatchResult, IfOk};
ghost use Rattle.uug_packet.specs.Decoded.{header_at};
ghost use Rattle.uug_packet.specs.Number.{number_of};
ghost use Rattle.uug_packet.specs.Spelling.{checksum_of, header_of};

use crate::checksum::checksum_of;
use crate::decoding::NoPacket;
use crate::number::Seq;
use byteorder::{ByteOrder, LittleEndian};

/// The byte at the start of each packet, DLE.
pub const START: u8 = 0x10;

/// The size of a header in bytes, and so of a control packet.
pub const HEADER_SIZE: usize = 6;

/// The place of the control byte in a header.
pub const CONTROL_PLACE: usize = 4;

/// The K of a control packet.
pub const CONTROL_K: u8 = 9;

/// The fields of a packet's header.
#[derive(Clone, Copy)]
pub struct Header {
    /// 1 to 8 in a data packet, 9 in a control packet.
    pub k: u8,
    /// The checksum of the control byte, and in a data packet of the field.
    pub checksum: u16,
    /// The kind of packet, and two numbers.
    pub control: u8,
}

impl Header {
    /// Reads the header at the front of the bytes, and tests K and the exclusive or.
    #[tactic(auto, unfolding(crate::specs::Decoded::header_at))]
    pub fn read(bytes: &[u8]) -> Result<Self, NoPacket>
        ensures exact { MatchResult result
            (λ header. header_at bytes.now ≡ Ok header)
            (λ fault. header_at bytes.now ≡ Err fault) }
        ensures code { IfOk result (λ header. (1 ≤ header.k) × (header.k ≤ CONTROL_K)) }
        ensures whole { IfOk result (λ _. HEADER_SIZE ≤ length bytes.now) }
    {
        match bytes {
            [] => Err(NoPacket::Short),
            [first, ..] if *first != START => Err(NoPacket::BadStart),
            [_, k, low, high, control, xor, ..] => {
                if *k == 0 || *k > CONTROL_K {
                    return Err(NoPacket::BadK);
                }
                if *xor != *k ^ *low ^ *high ^ *control {
                    return Err(NoPacket::BadXor);
                }
                Ok(Header {
                    k: *k,
                    checksum: LittleEndian::read_u16(&bytes[2..]),
                    control: *control,
                })
            }
            _ => Err(NoPacket::Short),
        }
    }

    /// Reads the header in the first bytes of a packet, and tests nothing.
    pub fn at(bytes: &[u8]) -> Self
        requires { HEADER_SIZE ≤ length bytes.now }
        ensures code { result.k ≡ slice_index bytes.now 1 }
        ensures checksum { result.checksum
            ≡ slice_index bytes.now 2 + 256 * slice_index bytes.now 3 }
        ensures control { result.control ≡ slice_index bytes.now 4 }
    {
        Header {
            k: bytes[1],
            checksum: LittleEndian::read_u16(&bytes[2..]),
            control: bytes[CONTROL_PLACE],
        }
    }

    /// Returns the header of the same data packet with another acknowledgement.
    ///
    /// The checksum is taken from the check of the field mixed with the control byte, so the check follows from it
    /// without the field.
    pub fn acknowledging(self, ack: Seq) -> Self
        ensures code { result.k ≡ self.k }
        ensures control { result.control ≡ 8 * (self.control / 8) + number_of ack }
        ensures checksum { result.checksum ≡
            checksum_of
            (bit_xor (bit_xor (checksum_of self.checksum) self.control) result.control) }
    {
        let control = 8 * (self.control / 8) + ack.value();
        let check = checksum_of(self.checksum) ^ u16::from(self.control);
        Header {
            k: self.k,
            checksum: checksum_of(check ^ u16::from(control)),
            control,
        }
    }

    /// Writes the header over the first bytes.
    pub fn write(self, bytes: &mut [u8])
        requires { HEADER_SIZE ≤ length bytes.old }
        ensures written { bytes.new ≡ header_of self ++ drop HEADER_SIZE bytes.old }
        ensures len { length bytes.new ≡ length bytes.old }
    {
        bytes[0] = START;
        bytes[1] = self.k;
        LittleEndian::write_u16(&mut bytes[2..4], self.checksum);
        bytes[CONTROL_PLACE] = self.control;
        bytes[5] = bytes[1] ^ bytes[2] ^ bytes[3] ^ bytes[CONTROL_PLACE];
    }
}
