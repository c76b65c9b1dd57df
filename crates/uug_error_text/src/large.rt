//! The line about a job's file that exceeds the limit of its own end.
ghost use Rattle.std.specs.Prelude.{◌≡◌, IfOk, string_bytes};
ghost use Rattle.uug_error_text.specs.LargeWords.{large_line};
ghost use Rattle.uug_scan.specs.Detailed.{escaped};

use crate::escape::add_escaped;
use std::alloc::{AllocError, Allocator};

/// Returns a line for standard error about the file at this path, whose size exceeds the limit of its end.
pub fn large_line<A: Allocator + Copy>(
    alloc: A,
    path: &str,
    size: u64,
    limit: u64,
) -> Result<String<A>, AllocError>
    ensures { IfOk result (λ line. string_bytes line ≡ large_line (escaped path.now) size limit) }
{
    let mut shown = String::new(alloc);
    add_escaped(&mut shown, path.as_bytes())?;
    shown_line(alloc, shown.as_str(), size, limit)
}

/// Returns the line about a file whose escaped path is `shown`.
fn shown_line<A: Allocator>(
    alloc: A,
    shown: &str,
    size: u64,
    limit: u64,
) -> Result<String<A>, AllocError>
    ensures { IfOk result (λ line. string_bytes line ≡ large_line shown.now size limit) }
{
    format!(in alloc;
        "uucpair: {shown}: {size} bytes, over the limit of {limit} (--file-limit); the job will be given up\n"
    )
}
