//! The text in which an end holds a partial file.
ghost use Rattle.std.specs.List.{position};
ghost use Rattle.std.specs.Prelude.{◌≡◌, ◌≤◌, ◌∷◌, ◌++◌, [], ℕ, List, Some, length};
ghost use Rattle.uug_conversation.specs.PartialView.{key_of, shown_partial};
ghost use Rattle.uug_store.specs.PartialTexts.{partial_in, partial_text};
ghost use Rattle.uug_talk.specs.Lines.{is_line_feed};

use arrayvec::ArrayVec;
use std::alloc::Allocator;
use uug_session::PartialFile;
use uug_talk::{NamedDigest, TELLING_MAX};

/// The maximum number of bytes of the first line of such a text, with its line feed.
pub const HELD_LINE_MAX: usize = TELLING_MAX + 1;

/// Returns the first line of such a text: the name, size and digest of the whole file. The bytes that have arrived
/// follow it.
pub fn held_line(named: &NamedDigest) -> ArrayVec<u8, HELD_LINE_MAX>
    ensures text { (bytes : List ℕ) → result.items ++ bytes
        ≡ partial_text (record { key = key_of named.now.name named.now.told; bytes = bytes }) }
    // It is read back.
    ensures back { (bytes : List ℕ) → partial_in (result.items ++ bytes)
        ≡ Some (record { key = key_of named.now.name named.now.told; bytes = bytes }) }
{
    let mut line = ArrayVec::new();
    add_line(&mut line, named.line().as_slice());
    line
}

/// Appends a line and its line feed.
fn add_line(text: &mut ArrayVec<u8, HELD_LINE_MAX>, line: &[u8])
    requires empty { text.old.items ≡ [] }
    requires fits { length line.now ≤ TELLING_MAX }
    ensures { text.new.items ≡ line.now ++ 10 ∷ [] }
{
    let Ok(()) = text.try_extend_from_slice(line) else {
        unreachable!();
    };
    text.push(b'\n');
}

/// Returns the partial file in such a text, or `None` if the text is not of this form.
pub fn into_partial<A: Allocator>(mut text: Vec<u8, A>) -> Option<PartialFile<A>>
    ensures { shown_partial result ≡ partial_in text.items }
{
    let at = line_feed(text.as_slice())?;
    let named = NamedDigest::of_line(&text[..at])?;
    text.drain(..at + 1);
    Some(PartialFile {
        source: named.name,
        told: named.told,
        bytes: text,
    })
}

/// Returns the place of the first line feed.
fn line_feed(text: &[u8]) -> Option<usize>
    ensures { result ≡ position is_line_feed text.now }
{
    text.iter().position(|b| *b == b'\n')
}
