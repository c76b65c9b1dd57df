//! The limits of a link.

use uug_packet::{HEADER_SIZE, PACKET_MAX};

/// The greatest window: the number of packets that may be unacknowledged.
pub const WINDOW_MAX: u8 = 7;

/// The number of unacknowledged messages for which a link has room.
pub(crate) const UNACKED_MAX: usize = WINDOW_MAX as usize;

/// The least size that an end may announce, in bytes.
pub const SIZE_MIN: usize = 32;

/// The greatest size in bytes that an end may announce, and so the greatest size of a message.
pub const MESSAGE_MAX: usize = PACKET_MAX - HEADER_SIZE;

/// The number of size codes. They begin at 0.
pub const SIZE_CODES: u8 = 8;

/// The number of timeouts in a row without progress at which a link gives up.
pub const TIMEOUTS_MAX: u8 = 8;

/// The greatest number of entries that `Outbox::reserve` makes room for at once.
pub const ENTRIES_MAX: usize = 64;
