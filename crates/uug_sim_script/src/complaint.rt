//! The error in a line of a script.
use crate::field::Field;

/// The first error in a line.
#[derive(Clone, Copy, Debug, PartialEq, Eq)]
pub(crate) enum Complaint<'a> {
    /// The line is too long.
    TooLong,
    /// The first word, with which no statement begins.
    Unknown(&'a [u8]),
    /// The field that is expected, and the word in its place that doesn't fit.
    Wrong(Field, &'a [u8]),
    /// The field before which the line ends.
    Missing(Field),
    /// The first word after those that the statement has.
    TooMany(&'a [u8]),
}
