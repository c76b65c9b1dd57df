/// The fate of a packet on the line.
#[derive(Clone, Copy, Debug, PartialEq, Eq)]
pub enum PacketFate {
    /// It goes out unchanged.
    Goes,
    /// It does not go out.
    Lost,
    /// It goes out with the lowest bit of its last byte flipped.
    Changed,
}
