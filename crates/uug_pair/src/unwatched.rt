use uug_transfer::{ReadOutcome, SessionObserver, SessionStatus};

/// The observer of a session that nobody watches.
#[derive(Clone, Copy)]
pub struct Unwatched;

impl SessionObserver for Unwatched {
    fn wrote(&mut self, _piece: &[u8]) {}

    fn read(&mut self, _outcome: ReadOutcome, _piece: &[u8]) {}

    fn note(&mut self, _status: SessionStatus) {}
}
