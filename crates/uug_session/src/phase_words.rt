//! The words that describe the state of an end's session to a person.
ghost use Rattle.std.specs.Prelude.{◌≡◌};
ghost use Rattle.uug_session.specs.PhaseWords.{end_word, phase_word, side_word};

use crate::end::End;
use crate::phase::Phase;
use uug_conversation::Side;

/// Returns the word for an end: `caller` or `called`.
pub fn side_word(side: Side) -> &'static str
    ensures { result.now ≡ side_word side }
{
    match side {
        Side::Caller => "caller",
        Side::Called => "called",
    }
}

/// Returns the word for the way a session ended, such as `done`.
fn end_word(end: End) -> &'static str
    ensures { result.now ≡ end_word end }
{
    match end {
        End::Done => "done",
        End::Refused => "refused",
        End::WrongName => "wrongname",
        End::NoProtocol => "noprotocol",
        End::PeerClosed => "peerclosed",
        End::GaveUp => "gaveup",
        End::BadTalk => "badtalk",
        End::SpoolFault => "spoolfault",
        End::HungUp => "hungup",
        End::BadSequence => "badsequence",
    }
}

/// Returns the word for the phase of a session. For one that has ended it is the word for the way it ended, such as
/// `done`.
pub fn phase_word(phase: Phase) -> &'static str
    ensures { result.now ≡ phase_word phase }
{
    match phase {
        Phase::Hail => "hail",
        Phase::Starting => "starting",
        Phase::Talking => "talking",
        Phase::Closing => "closing",
        Phase::Ended(end) => end_word(end),
    }
}
