//! The words about a caller who said nothing.
ghost use Rattle.std.specs.Prelude.{◌≡◌, IfOk, string_bytes};
ghost use Rattle.uug_observe.specs.SilentCallers.{others_words, silent_words};

use std::alloc::{AllocError, Allocator};

/// Returns the words about a caller who said nothing for this many seconds.
pub fn silent_words<A: Allocator>(
    alloc: A,
    seconds: u64,
    do_others_wait: bool,
) -> Result<String<A>, AllocError>
    ensures { IfOk result (λ words. string_bytes words ≡ silent_words seconds do_others_wait) }
{
    let others = others_words(do_others_wait);
    format!(in alloc; "the caller said nothing for {seconds} s{others}")
}

/// Returns the words about other callers that wait, if any do.
fn others_words(do_others_wait: bool) -> &'static str
    ensures { result.now ≡ others_words do_others_wait }
{
    if do_others_wait {
        ", while others waited"
    } else {
        ""
    }
}
