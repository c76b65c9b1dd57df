use thiserror::Error;

/// The reason why a text, a name, a command or a file was refused.
#[derive(Clone, Copy, Debug, PartialEq, Eq, Error)]
pub enum BadText {
    /// The first word is no command's, or the first two letters are no answer's.
    #[error("unknown command or answer")]
    Unknown,
    /// There are too few words, or the options don't begin with a dash.
    #[error("missing words or options")]
    Fields,
    /// A word in the place of a name is none.
    #[error("bad name")]
    Name,
    /// A word in the place of a mode isn't one to seven octal digits.
    #[error("bad mode")]
    Mode,
    /// The text or file would pass its limit.
    #[error("too long")]
    TooLong,
    /// There was no memory for a file's bytes.
    #[error("out of memory")]
    Memory,
}
