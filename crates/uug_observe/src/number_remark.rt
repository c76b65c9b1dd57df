//! The remark on two ends whose conversation numbers differ, for a person who can fix that.
ghost use Rattle.std.specs.Prelude.{◌≡◌, IfOk, string_bytes};
ghost use Rattle.uug_observe.specs.NumberRemarks.{heard_words, numbers_line, numbers_remark, own_words};

use std::alloc::{AllocError, Allocator};
use uug_session::{End, Phase};

/// Returns a line with the number of this end, and the one heard from the other end, if the session ended because they
/// differ. Else the text is empty.
pub fn numbers_remark<A: Allocator + Copy>(
    alloc: A,
    phase: Phase,
    own: Option<u32>,
    heard: Option<u32>,
) -> Result<String<A>, AllocError>
    ensures { IfOk result (λ remark. string_bytes remark ≡ numbers_remark phase own heard) }
{
    match phase {
        Phase::Ended(End::BadSequence) => numbers_line(alloc, own, heard),
        _ => Ok(String::new(alloc)),
    }
}

/// Returns the line with both numbers.
fn numbers_line<A: Allocator + Copy>(
    alloc: A,
    own: Option<u32>,
    heard: Option<u32>,
) -> Result<String<A>, AllocError>
    ensures { IfOk result (λ line. string_bytes line ≡ numbers_line own heard) }
{
    let own = own_words(alloc, own)?;
    let heard = heard_words(alloc, heard)?;
    format!(in alloc; "uucpair: {own}{heard}\n")
}

/// Returns the words for the number of this end.
fn own_words<A: Allocator>(alloc: A, own: Option<u32>) -> Result<String<A>, AllocError>
    ensures { IfOk result (λ words. string_bytes words ≡ own_words own) }
{
    match own {
        Some(number) => format!(in alloc; "the number of this end is {number}"),
        None => String::from_str(alloc, "this end keeps no number"),
    }
}

/// Returns the words for the number that the other end has reported, if any, and what to do.
fn heard_words<A: Allocator>(alloc: A, heard: Option<u32>) -> Result<String<A>, AllocError>
    ensures { IfOk result (λ words. string_bytes words ≡ heard_words heard) }
{
    match heard {
        Some(number) => format!(in alloc;
            ", that of the other end {number} (write the same number to both number files, or remove both, while neither end runs)"
        ),
        None => String::from_str(
            alloc,
            " (write the same number to both number files, or remove both, while neither end runs)",
        ),
    }
}
