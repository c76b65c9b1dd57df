//! The folders of a spool that are open to the other end.

/// The folders of a spool that are open to the other end. Each list consists of words: `~` is the public folder,
/// `~/PATH` is a folder below it, `/PATH` is a folder elsewhere, and a leading `!` bars a folder.
#[derive(Clone, Copy, Debug, PartialEq, Eq)]
pub struct FolderRules<'a> {
    /// The folders from which files are given on request.
    pub gives: &'a str,
    /// The folders that take files that were not asked for.
    pub takes: &'a str,
}
