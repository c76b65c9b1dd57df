use crate::control::Control;
use crate::field::FIELD_MAX;
use crate::header::HEADER_SIZE;
use crate::number::Seq;

/// The size of the longest packet in bytes, 4,102: a header and the largest field.
pub const PACKET_MAX: usize = HEADER_SIZE + FIELD_MAX;

/// A packet of the 'g' protocol.
#[derive(Clone, Copy, Debug, PartialEq, Eq)]
pub enum Packet<'a> {
    /// A header alone.
    Control(Control),
    /// A data packet.
    Carry {
        /// Its number.
        seq: Seq,
        /// The number of the last packet correctly received.
        ack: Seq,
        /// The code of its field's size, 1 to 8. The field has `2^(k+4)` bytes.
        k: u8,
        /// The valid bytes of the field.
        message: &'a [u8],
    },
}
