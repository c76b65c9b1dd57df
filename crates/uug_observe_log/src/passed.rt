//! The losses that the packets of one direction show.
ghost use Rattle.std.specs.Prelude.{◌≡◌, None, Some, MatchOption};
ghost use Rattle.uug_reader.specs.Shown.{item_of};
ghost use Rattle.uug_observe_log.specs.Losses.{next_message, passed_after};
ghost use Rattle.uug_observe_log.specs.Watched.{nothing_yet};

use uug_packet::{Control, Packet};
use uug_reader::Found;

/// Numbers of packets that went one way, by kind. They saturate.
#[derive(Clone, Copy, Debug, PartialEq, Eq)]
pub struct Counts {
    /// Rejects, including selective ones.
    pub rejects: u64,
    /// Data packets that were not the next one: they were sent before, or one before them was lost.
    pub repeats: u64,
    /// Data packets with a wrong checksum or field.
    pub damaged: u64,
}

/// The state of one direction.
#[derive(Clone, Copy, Debug, PartialEq, Eq)]
pub struct Passed {
    /// The number of the next data packet, modulo eight.
    pub next: u8,
    pub counts: Counts,
}

impl Passed {
    /// Starts with nothing passed. The first data packet has the number 1.
    pub(crate) fn new() -> Self
        ensures { result ≡ nothing_yet.passed }
    {
        Passed {
            next: 1,
            counts: Counts {
                rejects: 0,
                repeats: 0,
                damaged: 0,
            },
        }
    }

    /// Counts an item that has passed. Returns its message if it is the next data packet.
    pub(crate) fn take<'a>(&mut self, found: Found<'a>) -> Option<&'a [u8]>
        ensures passed { self.new ≡ passed_after self.old (item_of found.entry) }
        ensures message { MatchOption result
            (next_message self.old.next (item_of found.entry) ≡ None)
            (λ message. next_message self.old.next (item_of found.entry) ≡ Some message.now) }
    {
        match found {
            Found::Bad => {
                self.counts.damaged = self.counts.damaged.saturating_add(1);
                None
            }
            Found::Packet(Packet::Control(Control::Rj(_) | Control::Srj(_))) => {
                self.counts.rejects = self.counts.rejects.saturating_add(1);
                None
            }
            Found::Packet(Packet::Control(_)) => None,
            Found::Packet(Packet::Carry { seq, message, .. }) if seq.value() == self.next => {
                self.next = (self.next + 1) % 8;
                Some(message)
            }
            Found::Packet(Packet::Carry { .. }) => {
                self.counts.repeats = self.counts.repeats.saturating_add(1);
                None
            }
        }
    }
}
