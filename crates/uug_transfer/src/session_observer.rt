use crate::read_outcome::ReadOutcome;
use crate::status::SessionStatus;

/// An observer of an end at its line. It returns nothing and can't change the session, so the promises about a session
/// hold with every observer.
pub trait SessionObserver {
    /// Receives bytes that the end has written.
    fn wrote(&mut self, piece: &[u8]);

    /// Receives the outcome of a read, and its bytes.
    fn read(&mut self, outcome: ReadOutcome, piece: &[u8]);

    /// Receives the status of the session.
    fn note(&mut self, status: SessionStatus);
}

impl<O: SessionObserver> SessionObserver for &mut O {
    fn wrote(&mut self, piece: &[u8]) {
        (**self).wrote(piece);
    }

    fn read(&mut self, outcome: ReadOutcome, piece: &[u8]) {
        (**self).read(outcome, piece);
    }

    fn note(&mut self, status: SessionStatus) {
        (**self).note(status);
    }
}
