//! The bytes of an end that may be in flight, and how long its line waits for them.
ghost use Rattle.std.specs.Prelude.{◌≤◌, IfSome};

use std::time::Duration;
use uug_packet::{CONTROL_K, FIELD_CODE_MAX, HEADER_SIZE, field_size};
use uug_transfer::{Pace, packets};

/// The byte with which each packet begins.
const START: u8 = 0x10;

/// The bytes of an end that may be in flight in a session, and how long its line waits for them.
#[derive(Clone, Copy)]
pub(crate) struct Flight {
    pace: Pace,
    /// The size of the largest field of the data packets that were written.
    largest: u16,
    /// Set if the next write begins with a packet.
    at_packet: bool,
    /// The time that the line waits now.
    time: Duration,
}

impl Flight {
    /// Starts with nothing in flight. The line already waits for the time that `pace` gives for that.
    pub(crate) fn new(pace: Pace) -> Self {
        Flight {
            pace,
            largest: 0,
            at_packet: true,
            time: pace.time(0),
        }
    }

    /// Notes a piece that is about to be written.
    pub(crate) fn begin(&mut self, piece: &[u8]) {
        if self.at_packet {
            self.largest = self.largest.max(largest_field(piece));
        }
    }

    /// Notes how many bytes of that piece were taken. The rest is written again. It may begin inside a packet, so
    /// `begin` does not look at it a second time.
    pub(crate) fn note(&mut self, count: usize, piece: &[u8]) {
        self.at_packet = count == 0 && self.at_packet || count == piece.len();
    }

    /// Returns how long the line is to wait with `unacked` packets not acknowledged, or `None` if that has not changed.
    pub(crate) fn new_time(&mut self, unacked: usize) -> Option<Duration> {
        let unacked = u8::try_from(unacked).unwrap_or(u8::MAX);
        let time = self.pace.time(packets(unacked, self.largest));
        if time == self.time {
            return None;
        }
        self.time = time;
        Some(time)
    }
}

/// Returns the size of the largest field of the data packets in these bytes, which begin with a packet or a text.
fn largest_field(bytes: &[u8]) -> u16 {
    let mut largest = 0;
    let mut rest = bytes;
    while rest.len() > 1 {
        let (field, length) = match field_behind(rest[0], rest[1]) {
            Some(field) => (field, HEADER_SIZE + field),
            None => (0, 1),
        };
        largest = largest.max(field);
        rest = &rest[length.min(rest.len())..];
    }
    u16::try_from(largest).unwrap_or(u16::MAX)
}

/// Returns the field size of the packet whose header begins with these two bytes, or `None` if none does. A control
/// packet has 0.
fn field_behind(start: u8, code: u8) -> Option<usize>
    ensures { IfSome result (λ field. field ≤ 4096) }
{
    if start != START {
        None
    } else if code == CONTROL_K {
        Some(0)
    } else if 0 < code && code <= FIELD_CODE_MAX {
        Some(field_size(code))
    } else {
        None
    }
}
