/// One item that an end emitted.
#[derive(Clone, Copy, Debug, PartialEq, Eq)]
pub enum Entry<'a> {
    /// A text of the handshake, or the final text after the packets of the link.
    Text(&'a [u8]),
    /// A packet of the link.
    Packet {
        /// The packet as written.
        bytes: &'a [u8],
        /// True for a data packet that is sent for the first time.
        first: bool,
    },
}

/// The kind of an entry, without its bytes.
#[derive(Clone, Copy)]
pub(crate) enum EntryKind {
    Text,
    Packet { first: bool },
}

/// An entry whose bytes lie between the end of the entry before it and its own end.
#[derive(Clone, Copy)]
pub(crate) struct Mark {
    pub(crate) kind: EntryKind,
    pub(crate) end: usize,
}
