//! Numbers for lists of events.
ghost use Rattle.std.specs.Prelude.{◌<◌};

/// Numbers without a plain order, which are always the same from the same start.
#[derive(Drop)]
pub struct Numbers {
    /// The start.
    pub state: u32,
}

impl Numbers {
    /// Returns the next one, below this bound.
    pub fn below(&mut self, bound: u32) -> u32
        requires { 0 < bound }
        ensures { result < bound }
    {
        self.state = self.state.wrapping_mul(1_103_515_245).wrapping_add(12_345);
        (self.state >> 16) % bound
    }

    /// Returns the next one, as a byte.
    pub fn byte(&mut self) -> u8 {
        self.below(256) as u8
    }
}
