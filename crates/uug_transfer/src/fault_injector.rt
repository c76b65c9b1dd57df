ghost use Rattle.std.specs.Prelude.{◌≡◌, ◌+◌, ◌<◌, ◌&&◌, min, true, is_some, IfSome, None};
ghost use Rattle.std.specs.Option.{ForSome};
ghost use Rattle.uug_transfer.specs.FaultInjection.{fate_of, is_in_range, is_nth};

use crate::packet_fate::PacketFate;
use crate::thinning::Thinning;

/// The least N for losing or changing every Nth packet.
pub const EVERY_MIN: u32 = 2;

/// The greatest N for losing or changing every Nth packet.
pub const EVERY_MAX: u32 = 1_000_000;

/// The changes made to packets before they are written. Packets that need not go out are left out, and some of the rest
/// are lost or changed. Packets that are not left out, lost ones included, are counted from 1 in the order in which
/// they are emitted, over both directions.
#[derive(Drop)]
pub struct FaultInjector {
    /// The packets to leave out.
    pub thinning: Thinning,
    /// N, if every Nth packet is lost.
    pub drop_every: Option<u32>,
    /// N, if every Nth packet is changed.
    pub flip_every: Option<u32>,
    /// The number of packets counted. It saturates.
    pub count: u64,
    pub ghost drops: { ForSome drop_every (λ n. 0 < n) },
    pub ghost flips: { ForSome flip_every (λ n. 0 < n) },
}

impl FaultInjector {
    /// Creates an injector that loses every Nth packet, with N `drop_every`, and changes every Nth, with N
    /// `flip_every`. Returns `None` if an N is less than `EVERY_MIN` or more than `EVERY_MAX`.
    pub fn new(drop_every: Option<u32>, flip_every: Option<u32>) -> Option<Self>
        ensures some { is_some result ≡ (is_in_range drop_every && is_in_range flip_every) }
        ensures drop_every { IfSome result (λ injector. injector.drop_every ≡ drop_every) }
        ensures flip_every { IfSome result (λ injector. injector.flip_every ≡ flip_every) }
        ensures count { IfSome result (λ injector. injector.count ≡ 0) }
        ensures thinning { IfSome result (λ injector. injector.thinning ≡ Thinning.Nothing) }
    {
        if !is_in_range(drop_every) || !is_in_range(flip_every) {
            return None;
        }
        Some(FaultInjector {
            thinning: Thinning::Nothing,
            drop_every,
            flip_every,
            count: 0,
        })
    }

    /// Returns an injector that does nothing: each packet goes out unchanged.
    pub fn none() -> Self
        ensures drop_every { result.drop_every ≡ None }
        ensures flip_every { result.flip_every ≡ None }
        ensures count { result.count ≡ 0 }
        ensures thinning { result.thinning ≡ Thinning.Nothing }
    {
        FaultInjector::without_faults(Thinning::Nothing)
    }

    /// Returns an injector that loses and changes nothing: each packet that is not left out goes out unchanged.
    pub fn without_faults(thinning: Thinning) -> Self
        ensures drop_every { result.drop_every ≡ None }
        ensures flip_every { result.flip_every ≡ None }
        ensures count { result.count ≡ 0 }
        ensures thinning { result.thinning ≡ thinning }
    {
        FaultInjector {
            thinning,
            drop_every: None,
            flip_every: None,
            count: 0,
        }
    }

    /// Counts a packet, and returns its fate.
    pub fn next(&mut self) -> PacketFate
        ensures count { self.new.count ≡ min (self.old.count + 1) u64.MAX }
        ensures fate { result ≡ fate_of self.old.drop_every self.old.flip_every self.new.count }
        ensures drop_every { self.new.drop_every ≡ self.old.drop_every }
        ensures flip_every { self.new.flip_every ≡ self.old.flip_every }
        ensures thinning { self.new.thinning ≡ self.old.thinning }
    {
        self.count = self.count.saturating_add(1);
        if is_nth(self.drop_every, self.count) {
            PacketFate::Lost
        } else if is_nth(self.flip_every, self.count) {
            PacketFate::Changed
        } else {
            PacketFate::Goes
        }
    }
}

/// Returns whether N is in range, or there is none.
fn is_in_range(every: Option<u32>) -> bool
    ensures value { result ≡ is_in_range every }
    ensures some { result ≡ true → ForSome every (λ n. 0 < n) }
{
    match every {
        Some(n) => n >= EVERY_MIN && n <= EVERY_MAX,
        None => true,
    }
}

/// Returns whether there is an N, and the packet of this number is an Nth one.
fn is_nth(every: Option<u32>, number: u64) -> bool
    requires { ForSome every (λ n. 0 < n) }
    ensures { result ≡ is_nth every number }
{
    match every {
        Some(n) => number % u64::from(n) == 0,
        None => false,
    }
}
