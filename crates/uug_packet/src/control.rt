use crate::number::Seq;

/// A control packet: a header with no field.
#[derive(Clone, Copy, Debug, PartialEq, Eq)]
pub enum Control {
    /// The link ends.
    Close,
    /// A reject: the number of the last packet correctly received. All packets after it are to be sent again.
    Rj(Seq),
    /// A selective reject: the number of the one packet to be sent again.
    Srj(Seq),
    /// An acknowledgement: the number of the last packet correctly received.
    Rr(Seq),
    /// The greatest window to use, at the end of the start-up.
    InitC(Seq),
    /// A request for packets of the size `2^(y+5)`, where y is the number.
    InitB(Seq),
    /// The greatest window to use, at the beginning of the start-up.
    InitA(Seq),
}
