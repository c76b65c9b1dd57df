//! The options of one end that only a spool has.

use crate::folder_rules::FolderRules;

/// The options of one end that only a spool has.
#[derive(Clone, Copy, Debug, PartialEq, Eq)]
pub struct SpoolOptions<'a> {
    /// The public folder, if one is named; else `uucppublic` beside the spool.
    pub public: Option<&'a str>,
    /// The statistics, if they are named.
    pub stats: Option<&'a str>,
    /// The lowest grade of the jobs that it offers, if one is named.
    pub grade: Option<&'a str>,
    /// The name of its line in the log and the statistics, if one is named.
    pub port: Option<&'a str>,
    /// The folders that are open to the other end.
    pub rules: FolderRules<'a>,
}
