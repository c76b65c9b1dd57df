use crate::end::End;
use crate::greeting::Greeting;

/// The stage of a session at an end.
#[derive(Clone, Copy)]
pub(crate) enum Stage {
    /// The two ends greet each other.
    Hailing(Greeting),
    /// The link has begun.
    Linked,
    /// The session is over.
    Ended(End),
}
