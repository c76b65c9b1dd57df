/// The emitted packets that an end leaves out before writing, as if a line had lost them.
#[derive(Clone, Copy, Debug, PartialEq, Eq)]
pub enum Thinning {
    /// None.
    Nothing,
    /// Data packets that go out again later. Each goes out once, in the order in which each was sent last.
    Repeats,
    /// Those packets, and each RR that the entries directly after it make superfluous: a new data packet that
    /// acknowledges the same, or two more RRs, or one more RR and a new data packet that acknowledges the same as that
    /// RR. Two RRs then acknowledge packets that arrived together, and one of the two may get lost. None does if a data
    /// packet acknowledges them.
    RepeatsAndAcks,
}
