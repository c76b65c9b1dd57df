use uug_packet::Packet;

/// An item found in a stream.
#[derive(Clone, Copy, Debug, PartialEq, Eq)]
pub enum Found<'a> {
    /// A packet. Its message is a slice of the bytes that the reader holds.
    Packet(Packet<'a>),
    /// A complete data packet with a wrong checksum or a wrong field.
    Bad,
}
