//! Assertions that tests call. Each is proved once, here, at far less cost than `assert_eq!` in each test, which lends
//! both values, compares them, and has their texts at hand.
ghost use Rattle.std.specs.Prelude.{IsTrue};

use std::fmt::{Debug, Display};
use std::process::Abort;

/// Asserts that both are the same.
pub fn assert_same<T: PartialEq + Debug + Copy>(rt: &impl Abort, seen: T, expected: T) {
    assert_eq!(rt; seen, expected);
}

/// Asserts that both are the same, at this place of a table.
pub fn assert_same_at<T: PartialEq + Debug + Copy, P: Display + Copy>(
    rt: &impl Abort,
    seen: T,
    expected: T,
    place: P,
) {
    assert_eq!(rt; seen, expected, "at {place}");
}

/// Asserts a fact.
pub fn assert_so(rt: &impl Abort, fact: bool)
    ensures { IsTrue fact }
{
    assert!(rt; fact);
}
