/// The outcome of a read of an end's line.
#[derive(Clone, Copy, Debug, PartialEq, Eq)]
pub enum ReadOutcome {
    /// The number of bytes read, which are at the front of the buffer.
    Bytes(usize),
    /// Nothing came for as long as the line waits.
    TimedOut,
    /// The line's end: no more bytes will come.
    Eof,
}
