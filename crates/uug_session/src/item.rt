use uug_packet::Packet;

/// An item found in the bytes that came.
#[derive(Clone, Copy, Debug)]
pub enum Item<'a> {
    /// A text of the greeting, without its start byte and its end byte.
    Text(&'a [u8]),
    /// A packet.
    Packet(Packet<'a>),
    /// A broken packet.
    Bad,
}
