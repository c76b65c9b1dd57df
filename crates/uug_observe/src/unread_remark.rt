//! Remarks on the text that was heard last.
ghost use Rattle.std.specs.Prelude.{◌≡◌, IfOk, string_bytes};
ghost use Rattle.uug_observe.specs.UnreadRemarks.{front_words, is_read, last_remark, quoted_line, unread_remark};

use std::alloc::{AllocError, Allocator};
use uug_error_text::add_escaped;
use uug_talk::{read_answer, read_order};

/// The maximum number of bytes of the text that are shown.
const SHOWN_MAX: usize = 60;

/// Returns a line for standard error: this text can't be read, or was out of turn.
pub(crate) fn unread_remark<A: Allocator>(alloc: A, said: &[u8]) -> Result<String<A>, AllocError>
    ensures { IfOk result (λ line. string_bytes line ≡ unread_remark said.now) }
{
    quoted_line(alloc, front_words(is_read(said)), said)
}

/// Returns a line for standard error: this text was heard last.
pub(crate) fn last_remark<A: Allocator>(alloc: A, said: &[u8]) -> Result<String<A>, AllocError>
    ensures { IfOk result (λ line. string_bytes line ≡ last_remark said.now) }
{
    quoted_line(alloc, "uucpair: heard last \"", said)
}

/// Returns the line with `front` before a text.
fn quoted_line<A: Allocator>(alloc: A, front: &str, said: &[u8]) -> Result<String<A>, AllocError>
    ensures { IfOk result (λ line. string_bytes line ≡ quoted_line front.now said.now) }
{
    let mut line = String::from_str(alloc, front)?;
    add_escaped(&mut line, &said[..said.len().min(SHOWN_MAX)])?;
    line.push_str("\"\n")?;
    Ok(line)
}

/// Returns the words before a text that can be read, or can't.
fn front_words(is_read: bool) -> &'static str
    ensures { result.now ≡ front_words is_read }
{
    if is_read {
        "uucpair: out of turn: heard \""
    } else {
        "uucpair: can't read \""
    }
}

/// Returns whether a text is a command or an answer.
fn is_read(said: &[u8]) -> bool
    ensures { result ≡ is_read said.now }
{
    read_order(said).is_ok() || read_answer(said).is_ok()
}
