//! The outputs of one end.

/// The outputs of one end: standard error, its report, and its log.
#[derive(Clone, Copy, Debug, PartialEq, Eq)]
pub struct Outputs<'a> {
    /// Set if it reports the state of the end on standard error.
    pub is_loud: bool,
    /// The file of the report, if one is named.
    pub report: Option<&'a str>,
    /// The file of its log, if one is named.
    pub log: Option<&'a str>,
}
