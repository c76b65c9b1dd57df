ghost use Rattle.std.specs.Prelude.{◌≡◌, Some};
ghost use Rattle.uug_link.specs.Reactions.{reply_of};
ghost use Rattle.uug_link.specs.Follows.{answered};

use thiserror::Error;

/// The effect of a packet, a bad mark or a timeout on a link.
#[derive(Clone, Copy, Debug, PartialEq, Eq)]
pub enum Outcome {
    /// Nothing that its caller has to know.
    Nothing,
    /// The link is up.
    Up,
    /// The packet's message is the next message.
    Taken,
    /// The other end's CLOSE came: the link has ended.
    Closed,
}

/// The reason why a link did not handle something.
#[derive(Clone, Copy, Debug, PartialEq, Eq, Error)]
pub enum LinkFault {
    /// Memory was refused: link and outbox are as before.
    #[error("out of memory")]
    Memory,
    /// The last timeout in a row without progress: CLOSE was emitted and the link has ended.
    #[error("the other end has not answered")]
    GaveUp,
    /// The link had ended before: nothing was emitted or changed.
    #[error("the link has ended")]
    Halted,
}

/// A link's answer, unless it is refused memory.
#[derive(Clone, Copy)]
pub(crate) enum Reply {
    Nothing,
    Up,
    Taken,
    Closed,
    GaveUp,
    Halted,
}

impl Reply {
    pub(crate) fn answer(self) -> Result<Outcome, LinkFault>
        ensures { answered result ≡ Some (reply_of self) }
    {
        match self {
            Reply::Nothing => Ok(Outcome::Nothing),
            Reply::Up => Ok(Outcome::Up),
            Reply::Taken => Ok(Outcome::Taken),
            Reply::Closed => Ok(Outcome::Closed),
            Reply::GaveUp => Err(LinkFault::GaveUp),
            Reply::Halted => Err(LinkFault::Halted),
        }
    }
}
