//! The options of the line of one end.

/// The options of the line of one end.
#[derive(Clone, Copy, Debug, PartialEq, Eq)]
pub struct LineOptions<'a> {
    /// The name of the line.
    pub name: &'a str,
    /// The seconds that the line waits.
    pub seconds: u32,
    /// The speed of the line in bits a second, if it is given.
    pub speed: Option<u32>,
    /// The seconds that the end waits there to be called, if they are given.
    pub wait: Option<u32>,
    /// The folder of the lock files of devices.
    pub locks: &'a str,
}
