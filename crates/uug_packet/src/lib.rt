//! The packets of the UUCP 'g' protocol, to and from bytes.
#![tactic(auto)]

mod checksum;
mod control;
mod decoding;
mod encoding;
mod field;
mod header;
pub mod laws;
mod number;
mod packet;
mod written;

pub use checksum::check;
pub use control::Control;
pub use decoding::{NoPacket, decode};
pub use encoding::{control_packet, encode, re_ack};
pub use field::{FIELD_CODE_MAX, field_code, field_size, message_start};
pub use header::{CONTROL_K, HEADER_SIZE};
pub use number::Seq;
pub use packet::{PACKET_MAX, Packet};
pub use written::{is_written, message_in};
