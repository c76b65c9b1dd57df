use uug_session::Side;

/// Names `LineVerdict`, beside the `Verdict` of a spool.
pub type Verdict2 = LineVerdict;

/// The verdict on a line: each packet that was found had been sent, or one had not.
#[derive(Clone, Copy, Debug, PartialEq, Eq)]
pub enum LineVerdict {
    /// Every packet had been sent.
    Clean,
    /// A packet was found that had not been sent, or not as often.
    Fooled {
        /// The event at which it was found, counted from 0.
        event: usize,
        /// The side that found it.
        side: Side,
    },
}
