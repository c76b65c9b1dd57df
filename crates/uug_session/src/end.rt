/// The way a session ended at one end.
#[derive(Clone, Copy, Debug, PartialEq, Eq)]
pub enum End {
    /// The session ended after this end had sent or taken HY, however it ended.
    Done,
    /// The called end did not let the caller in.
    Refused,
    /// The end reached is not the one that was called.
    WrongName,
    /// The two ends have no protocol in common.
    NoProtocol,
    /// The other end closed the link.
    PeerClosed,
    /// Nothing came for too long.
    GaveUp,
    /// A text could not be read or did not fit the turn, or a text or a file passed its limit.
    BadTalk,
    /// The spool's device failed at a file.
    SpoolFault,
    /// The line was gone.
    HungUp,
    /// The called end expected another number of the conversation, and did not let the caller in.
    BadSequence,
}
