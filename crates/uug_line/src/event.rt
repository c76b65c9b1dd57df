use uug_session::Side;

/// An event on the line, or at one of its ends. The line has two directions, each a list of bytes; a direction is named
/// by the side to which it leads.
#[derive(Clone, Copy, Debug, PartialEq, Eq)]
pub enum Event {
    /// The next bytes arrive at that side, as one piece.
    Pass {
        /// The side at which they arrive.
        side: Side,
        /// The number of bytes; if fewer are on the line, all of them.
        n: u32,
    },
    /// The next bytes are lost.
    Drop {
        /// The side at which they would have arrived.
        side: Side,
        /// The number of bytes; if fewer are on the line, all of them.
        n: u32,
    },
    /// The next byte is changed. An empty line stays as it is.
    Flip {
        /// The side to which it leads.
        side: Side,
        /// The bits that are inverted.
        mask: u8,
    },
    /// A byte is inserted before the next byte.
    Insert {
        /// The side to which it leads.
        side: Side,
        /// The byte.
        byte: u8,
    },
    /// That side has received nothing for some time.
    Timeout {
        /// The side that waits.
        side: Side,
    },
    /// The line is gone for that side.
    HangUp {
        /// The side that hangs up.
        side: Side,
    },
    /// A call: both ends hang up, what is on the line is lost, and a new session begins.
    Call,
}
