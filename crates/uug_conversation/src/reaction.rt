ghost use Rattle.std.specs.Prelude.{◌≡◌};
ghost use Rattle.uug_conversation.specs.Machine.{awaits_answer_to};
ghost use Rattle.uug_conversation.specs.Reactions.{says_nothing, fits_no_turn, gives_answer, gives_consent, gives_order, gives_refusal};

use crate::awaits::Awaits;
use uug_talk::{Answer, FileDigest, Name, Order};

/// An item said in one turn. It is a command with its file's announced digest, an answer, SY with the position from
/// which its file is to be sent, RY with the file's mode and announced digest, a file, known by the name under which the
/// spool gives it, from a position on, or the refusal of a command by its letter.
#[derive(Clone, Copy)]
pub(crate) enum Saying {
    Order(Order, Option<FileDigest>),
    Answer(Answer),
    Consent(u32),
    Giving(u16, Option<FileDigest>),
    File(Name, usize),
    Refusal(u8),
}

/// The items that an end says after it has taken a text or a file.
#[derive(Clone, Copy)]
pub(crate) enum Says {
    Nothing,
    One(Saying),
    Two(Saying, Saying),
}

/// The item that an end awaits after it has taken a text or a file, and what it then says.
#[derive(Clone, Copy)]
pub(crate) struct Reaction {
    pub(crate) awaits: Awaits,
    pub(crate) says: Says,
}

impl Reaction {
    pub(crate) fn quiet(awaits: Awaits) -> Self
        ensures { result ≡ says_nothing awaits }
    {
        Reaction {
            awaits,
            says: Says::Nothing,
        }
    }

    pub(crate) fn out_of_turn() -> Self
        ensures { result ≡ fits_no_turn }
    {
        Reaction::quiet(Awaits::Bad)
    }

    pub(crate) fn answers(awaits: Awaits, answer: Answer) -> Self
        ensures { result ≡ gives_answer awaits answer }
    {
        Reaction {
            awaits,
            says: Says::One(Saying::Answer(answer)),
        }
    }

    /// Consents to a file, which is to be sent from this position on.
    pub(crate) fn consents(awaits: Awaits, position: u32) -> Self
        ensures { result ≡ gives_consent awaits position }
    {
        Reaction {
            awaits,
            says: Says::One(Saying::Consent(position)),
        }
    }

    /// Refuses a command by its letter, and awaits the next.
    pub(crate) fn refuses(letter: u8) -> Self
        ensures { result ≡ gives_refusal letter }
    {
        Reaction {
            awaits: Awaits::Order,
            says: Says::One(Saying::Refusal(letter)),
        }
    }

    /// Makes the reaction that says a command with its file's announced digest, after an answer if there is one.
    pub(crate) fn commands(before: Option<Answer>, order: Order, told: Option<FileDigest>) -> Self
        ensures { result ≡ gives_order before order told }
    {
        let says = match before {
            Some(answer) => Says::Two(Saying::Answer(answer), Saying::Order(order, told)),
            None => Says::One(Saying::Order(order, told)),
        };
        Reaction {
            awaits: awaits_answer_to(&order),
            says,
        }
    }
}

fn awaits_answer_to(order: &Order) -> Awaits
    ensures { result ≡ awaits_answer_to order.now }
{
    match order {
        Order::Send { .. } => Awaits::SendAnswer,
        Order::Request { .. } => Awaits::RequestAnswer,
        Order::HangUp => Awaits::HangUpAnswer,
    }
}
