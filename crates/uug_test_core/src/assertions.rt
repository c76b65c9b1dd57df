//! Assertions for tests. Each is proved once, here. `assert_eq!` in each test would cost far more: it lends both
//! values, compares them, and has their texts at hand.
ghost use Rattle.std.specs.Prelude.{IsTrue};

use std::fmt::Debug;
use std::process::Abort;

/// Asserts that both values are the same.
pub fn assert_same<T: PartialEq + Debug + Copy>(rt: &impl Abort, seen: T, expected: T) {
    assert_eq!(rt; seen, expected);
}

/// Asserts that the fact is true.
pub fn assert_so(rt: &impl Abort, fact: bool)
    ensures { IsTrue fact }
{
    assert!(rt; fact);
}
