//! Timeouts for the bytes that may be on the way.
ghost use Rattle.std.specs.Prelude.{◌≡◌, ◌+◌, ◌≤◌, IfSome};
ghost use Rattle.std.proofs.Props.{props};
ghost use Rattle.uug_transfer.specs.Timers.{IsSpeed, packets_of, timer};

use std::time::Duration;
use uug_link::WINDOW_MAX;
use uug_talk::MESSAGE_MAX;

/// The minimum speed of a line, in bits a second.
pub const SPEED_MIN: u32 = 300;

/// The maximum speed of a line, in bits a second.
pub const SPEED_MAX: u32 = 10_000_000;

/// The bits of a byte on a serial line, with its start and stop bits.
const BITS: u64 = 10;

/// The number of bytes of a packet before its field.
const HEADER: u32 = 6;

/// Returns the number of bytes of `count` packets whose fields are of this size.
#[tactic(auto, using(crate::proofs::TimerLemmas::packets_fit))]
pub fn packets(count: u8, size: u16) -> u32
    ensures { result ≡ packets_of count size }
{
    u32::from(count) * (u32::from(size) + HEADER)
}

/// Returns the seconds without a byte that make a silence: the timeout. If the speed of the line is given, in bits a
/// second, the time is added that the bytes on the way may take: `ours`, unacknowledged from this end, and `theirs`,
/// from the other end.
#[tactic(auto, using(crate::proofs::TimerLemmas::ceil_fits))]
fn timer(timeout: u32, speed: Option<u32>, ours: u32, theirs: u32) -> u64
    requires { IfSome speed IsSpeed }
    ensures exact { result ≡ timer timeout speed (ours + theirs) }
    ensures at_least { timeout ≤ result }
{
    match speed {
        Some(speed) => {
            let bits = (u64::from(ours) + u64::from(theirs)) * BITS;
            u64::from(timeout) + bits.div_ceil(u64::from(speed))
        }
        None => u64::from(timeout),
    }
}

/// The inputs of an end's timer.
#[derive(Clone, Copy)]
pub struct Pace {
    /// The timeout, in seconds.
    pub timeout: u32,
    /// The speed of the line in bits a second, if it is given.
    pub speed: Option<u32>,
    /// The maximum number of bytes that the other end may have on the way.
    pub theirs: u32,
    ghost of_speed: { IfSome speed IsSpeed } by { Prim.hlevel props },
}

impl Pace {
    ghost use Rattle.std.specs.Prelude.{◌≡◌, ◌+◌, ◌*◌, ◌≤◌, IfSome};
    ghost use Rattle.std.specs.Duration.{as_nanos};
    ghost use Rattle.uug_link.specs.declared.limits.TheConstants.{WINDOW_MAX};
    ghost use Rattle.uug_talk.specs.declared.chunks.TheConstants.{MESSAGE_MAX};
    ghost use Rattle.uug_transfer.specs.Timers.{IsSpeed, packets_of, timer};

    /// Returns how long the line waits while `ours` bytes of this end are not acknowledged.
    pub fn time(&self, ours: u32) -> Duration
        ensures { as_nanos result ≡ timer self.now.timeout self.now.speed (ours + self.now.theirs) * 1000000000 }
    {
        Duration::from_secs(timer(self.timeout, self.speed, ours, self.theirs))
    }

    /// Returns the longest time that the line waits, in seconds: with as many bytes on the way as possible. It
    /// saturates.
    pub fn longest(&self) -> u32
        ensures { timer self.now.timeout self.now.speed
            (packets_of WINDOW_MAX MESSAGE_MAX + self.now.theirs) ≤ u32.MAX
            → result ≡ timer self.now.timeout self.now.speed
            (packets_of WINDOW_MAX MESSAGE_MAX + self.now.theirs) }
    {
        let ours = packets(WINDOW_MAX as u8, MESSAGE_MAX as u16);
        u32::try_from(timer(self.timeout, self.speed, ours, self.theirs)).unwrap_or(u32::MAX)
    }
}
