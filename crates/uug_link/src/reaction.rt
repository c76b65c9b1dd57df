use crate::outcome::Reply;
use crate::status::Status;
use uug_packet::{Control, Seq};

/// The effect of an event on a link. It doesn't cover a message that the link's caller sends.
#[derive(Clone, Copy)]
pub(crate) struct Reaction {
    pub(crate) status: Status,
    /// The number of oldest messages that have arrived.
    pub(crate) strikes: usize,
    pub(crate) emits: Emits,
    pub(crate) reply: Reply,
}

/// The packets that go out then.
#[derive(Clone, Copy)]
pub(crate) enum Emits {
    Nothing,
    Control(Control),
    /// All messages that are then outstanding, oldest first.
    Outstanding,
    /// The message of that number, if it is outstanding.
    Selected(Seq),
}
