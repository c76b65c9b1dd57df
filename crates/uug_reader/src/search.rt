//! The search for the first item in some bytes.
ghost use Rattle.std.specs.Prelude.{◌≡◌, ◌≢◌, ◌-◌, ◌<◌, ◌≤◌, ◌↔◌, IsTrue, slice_index, MatchOption, length, take, drop};
ghost use Rattle.uug_packet.specs.declared.header.TheConstants.{CONTROL_K};
ghost use Rattle.uug_packet.specs.Packet.{shown};
ghost use Rattle.uug_packet.specs.Spelling.{IsSpelling};
ghost use Rattle.uug_packet.specs.Waits.{Waits};
ghost use Rattle.uug_reader.specs.Cut.{found};
ghost use Rattle.uug_reader.specs.Finding.{PassesNoise};
ghost use Rattle.uug_reader.specs.Code.Place.{BeginsWith, item_at, LiesIn, StandsThere};

use crate::place::{Place, Standing};
use uug_packet::{CONTROL_K, NoPacket, Packet, decode, message_start};

/// The part at the front of some bytes.
pub enum FirstPart<'a> {
    /// A packet, and the number of bytes that it takes.
    Packet(Packet<'a>, usize),
    /// The first byte of a broken packet.
    Bad,
    /// One byte that is no part of a packet.
    Noise,
}

/// The result of a search.
#[derive(Clone, Copy)]
pub struct Search {
    /// The number of noise bytes at the front.
    pub passed: usize,
    /// The item after them, or `None` if the bytes wait.
    pub first: Option<Standing>,
}

/// Returns whether the header at the front is that of a data packet.
fn is_data(bytes: &[u8]) -> bool
    ensures { IsTrue result ↔ (slice_index bytes.now 1 ≢ CONTROL_K) }
{
    bytes.len() < 2 || bytes[1] != CONTROL_K
}

/// Returns the part at the front, or `None` if the bytes wait.
fn first_part(bytes: &[u8]) -> Option<FirstPart<'_>>
    ensures { MatchOption result (Waits bytes.now) (λ part. BeginsWith part bytes.now) }
{
    match decode(bytes) {
        Ok((packet, size)) => Some(FirstPart::Packet(packet, size)),
        Err(NoPacket::Short) => None,
        Err(NoPacket::BadLength) => Some(FirstPart::Bad),
        Err(NoPacket::BadSum) if is_data(bytes) => Some(FirstPart::Bad),
        Err(_) => Some(FirstPart::Noise),
    }
}

/// Returns the place of the packet that takes the first `size` bytes.
fn place_of(packet: &Packet<'_>, bytes: &[u8], size: usize) -> Place
    requires within { size ≤ length bytes.now }
    requires spelled { IsSpelling (shown packet.now) (take size bytes.now) }
    ensures item { item_at result bytes.now ≡ found (shown packet.now) }
    ensures lies { LiesIn result bytes.now }
{
    match *packet {
        Packet::Control(control) => Place::Control(control),
        Packet::Carry {
            seq,
            ack,
            k,
            message,
        } => {
            let start = message_start(&bytes[..size]);
            Place::Data {
                seq,
                ack,
                k,
                start,
                end: start + message.len(),
            }
        }
    }
}

/// Skips the noise at the front, and returns the first item after it.
pub fn search_in(bytes: &[u8]) -> Search
    ensures within { result.passed ≤ length bytes.now }
    ensures passes { PassesNoise bytes.now (drop result.passed bytes.now) }
    ensures stands { StandsThere result.first (drop result.passed bytes.now) }
{
    let mut passed = 0;
    while let Some(part) = first_part(&bytes[passed..]) {
        let first = match part {
            FirstPart::Packet(packet, size) => Standing {
                place: place_of(&packet, &bytes[passed..], size),
                size,
            },
            FirstPart::Bad => Standing {
                place: Place::Bad,
                size: 1,
            },
            FirstPart::Noise => {
                passed += 1;
                continue;
            }
        };
        return Search {
            passed,
            first: Some(first),
        };
    }
    Search {
        passed,
        first: None,
    }
}
