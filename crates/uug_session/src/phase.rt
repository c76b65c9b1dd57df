ghost use Rattle.std.specs.Prelude.{◌≡◌};
ghost use Rattle.uug_session.specs.Phases.{is_done, is_over};

use crate::end::End;

/// The phase of a session at an end.
#[derive(Clone, Copy, Debug, PartialEq, Eq)]
pub enum Phase {
    /// The two ends greet each other.
    Hail,
    /// The link starts up.
    Starting,
    /// Messages go both ways.
    Talking,
    /// This end has closed the link, and waits for the other's CLOSE.
    Closing,
    /// The session is over.
    Ended(End),
}

impl Phase {
    /// Returns whether the session is over.
    pub fn is_over(self) -> bool
        ensures { result ≡ is_over self }
    {
        matches!(self, Phase::Ended(_))
    }

    /// Returns whether the session is over, with all done.
    pub fn is_done(self) -> bool
        ensures { result ≡ is_done self }
    {
        matches!(self, Phase::Ended(End::Done))
    }
}
