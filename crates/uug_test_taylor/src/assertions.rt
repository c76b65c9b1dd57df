//! Assertions that tests call, and the names that they make. An assertion is proved once, here, at far less cost than
//! in each test.
ghost use Rattle.std.specs.Prelude.{IsTrue};

use std::alloc::Allocator;
use std::fmt::{Debug, Display};
use std::process::Abort;
use uug_talk::Name;

/// Asserts that both are the same.
pub fn assert_same<T: PartialEq + Debug + Copy>(rt: &impl Abort, seen: T, expected: T) {
    assert_eq!(rt; seen, expected);
}

/// Asserts that both are the same, at this place of a table.
pub fn assert_same_at<T: PartialEq + Debug + Copy, P: Display + Copy>(
    rt: &impl Abort,
    seen: T,
    expected: T,
    place: P,
) {
    assert_eq!(rt; seen, expected, "at {place}");
}

/// Asserts that this is true, at this place of a table or a loop.
pub fn assert_so_at<P: Display + Copy>(rt: &impl Abort, fact: bool, place: P)
    ensures { IsTrue fact }
{
    assert!(rt; fact, "at {place}");
}

/// Asserts that the bytes are those of a text, which the table has at this place.
pub fn assert_bytes<A: Allocator>(rt: &impl Abort, seen: &Vec<u8, A>, expected: &str, place: &str) {
    assert_same_at(rt, seen.as_slice(), expected.as_bytes(), place);
}

/// Returns the name of a text that is one.
pub fn name(rt: &impl Abort, text: &str) -> Name {
    Name::new(text.as_bytes()).expect(rt, "a name")
}
