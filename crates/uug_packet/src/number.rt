ghost use Rattle.std.specs.Prelude.{◌≡◌, ◌+◌, ◌-◌, ◌%◌, ◌<◌, ◌≤◌, ◌↔◌, IsNone, IfSome};

/// A packet number, 0 to 7. The numbers of a link go up by one and are counted modulo eight.
#[derive(Clone, Copy, Debug, PartialEq, Eq)]
pub struct Seq {
    value: u8,
    ghost below: { value < 8 },
}

impl Seq {
    ghost use Rattle.uug_packet.specs.Number.{number_of};

    /// Makes the number `value`, or returns `None` if it is 8 or more.
    pub fn new(value: u8) -> Option<Self>
        ensures none { IsNone result ↔ (8 ≤ value) }
        ensures some { IfSome result (λ seq. number_of seq ≡ value) }
    {
        if value < 8 { Some(Seq { value }) } else { None }
    }

    /// Returns the number in the three low bits of `bits`.
    pub(crate) fn of_low_bits(bits: u8) -> Self
        ensures { number_of result ≡ bits % 8 }
    {
        Seq { value: bits % 8 }
    }

    /// Returns the value of the number, below 8.
    pub fn value(self) -> u8
        ensures value { result ≡ number_of self }
        ensures below { result < 8 }
    {
        self.value
    }

    /// Returns the number after this one: 7 is followed by 0.
    #[must_use]
    pub fn next(self) -> Self
        ensures { number_of result ≡ (number_of self + 1) % 8 }
    {
        Seq {
            value: (self.value + 1) % 8,
        }
    }

    /// Returns how many times `next` leads from `other` to this number: `(self - other) mod 8`.
    pub fn ahead_of(self, other: Self) -> u8
        ensures { result ≡ (number_of self + 8 - number_of other) % 8 }
    {
        (self.value + 8 - other.value) % 8
    }
}
