//! The parts of a line: a text, and then a word or a number.
ghost use Rattle.std.specs.Prelude.{◌≡◌, ◌++◌, OnOk};
ghost use Rattle.std.specs.Fmt.{decimal};

use itoa::Buffer;
use std::alloc::{AllocError, Allocator};

/// Appends a text.
pub(crate) fn add_text<A: Allocator>(line: &mut Vec<u8, A>, text: &[u8]) -> Result<(), AllocError>
    ensures { OnOk result (line.new.items ≡ line.old.items ++ text.now) }
{
    line.extend_from_slice(text)
}

/// Appends a text and a word.
pub(crate) fn add_named<A: Allocator>(
    line: &mut Vec<u8, A>,
    text: &[u8],
    word: &[u8],
) -> Result<(), AllocError>
    ensures { OnOk result (line.new.items ≡ line.old.items ++ text.now ++ word.now) }
{
    line.extend_from_slice(text)?;
    line.extend_from_slice(word)
}

/// Appends a text and the decimal digits of a number.
pub(crate) fn add_number<A: Allocator>(
    line: &mut Vec<u8, A>,
    text: &[u8],
    number: u64,
) -> Result<(), AllocError>
    ensures { OnOk result (line.new.items ≡ line.old.items ++ text.now ++ decimal number) }
{
    add_named(line, text, Buffer::new().format(number).as_bytes())
}
