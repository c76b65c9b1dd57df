/// One of the two ends of a session.
#[derive(Clone, Copy, Debug, PartialEq, Eq)]
pub enum Side {
    /// The end that called.
    Caller,
    /// The end that was called.
    Called,
}
