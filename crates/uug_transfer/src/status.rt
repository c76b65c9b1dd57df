use uug_session::Phase;

/// The state of an end's session, as a line or an observer sees it.
#[derive(Clone, Copy, Debug, PartialEq, Eq)]
pub struct SessionStatus {
    /// The phase of the session.
    pub phase: Phase,
    /// The number of its pending jobs.
    pub pending: usize,
    /// The number of its jobs that are done.
    pub struck: usize,
    /// The number of its jobs that were given up.
    pub failed: usize,
    /// The number of messages that were sent and not acknowledged.
    pub unacked: usize,
    /// Set if the end has left its line: nothing is written or read any more.
    pub is_over: bool,
}
