//! The place of an item among the bytes at whose front it lies.
ghost use Rattle.std.specs.Prelude.{◌≡◌};
ghost use Rattle.uug_reader.specs.Code.Place.{item_beside};
ghost use Rattle.uug_reader.specs.Shown.{item_of};

use crate::found::Found;
use arrayvec::ArrayVec;
use uug_packet::{Control, PACKET_MAX, Packet, Seq};

/// The buffer for the message of the item shown, because a ring may hold it in two pieces. It has room for a whole
/// packet.
pub type Beside = ArrayVec<u8, PACKET_MAX>;

/// The first item.
#[derive(Clone, Copy)]
pub struct Standing {
    /// The item and the place of its message.
    pub place: Place,
    /// The number of bytes that it takes.
    pub size: usize,
}

/// An item, with the place of its message.
#[derive(Clone, Copy)]
pub enum Place {
    /// A control packet, which has no message.
    Control(Control),
    /// A data packet, and the start and end of its message, counted from the item's first byte.
    Data {
        seq: Seq,
        ack: Seq,
        k: u8,
        start: usize,
        end: usize,
    },
    Bad,
}

/// Returns the item of this place. `beside` holds its message.
pub fn show(beside: &[u8], place: Place) -> Found<'_>
    ensures { item_of result ≡ item_beside place beside.now }
{
    match place {
        Place::Control(control) => Found::Packet(Packet::Control(control)),
        Place::Data { seq, ack, k, .. } => Found::Packet(Packet::Carry {
            seq,
            ack,
            k,
            message: beside,
        }),
        Place::Bad => Found::Bad,
    }
}
