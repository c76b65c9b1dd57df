use uug_link::Announce;
use uug_talk::Name;

/// The configuration of an end: its name, the name of the other end, its announcement, and the number of its
/// conversations with that end.
#[derive(Clone, Copy, Debug, PartialEq, Eq)]
pub struct Place {
    /// The end's own name.
    pub me: Name,
    /// The name of the other end.
    pub peer: Name,
    /// The window and the packet size that the other end shall use, and the settings of this end for quiet repeats and
    /// short commands.
    pub announce: Announce,
    /// The number of the next conversation, if the end keeps one.
    pub number: Option<u32>,
}
