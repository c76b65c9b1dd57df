/// A spool's decision on a file of some name.
#[derive(Clone, Copy, Debug, PartialEq, Eq)]
pub enum Verdict {
    /// The file may be sent.
    Yes,
    /// It will never be taken.
    Never,
    /// It may be taken at another time.
    Later,
}
