/// The direction of bytes over a line, as seen from one of its ends.
#[derive(Clone, Copy, Debug, PartialEq, Eq)]
pub enum Way {
    /// The bytes go from this end to the other.
    Out,
    /// The bytes go from the other end to this one.
    In,
}

impl Way {
    /// Returns the other direction.
    #[must_use]
    pub fn back(self) -> Self {
        match self {
            Way::Out => Way::In,
            Way::In => Way::Out,
        }
    }
}
