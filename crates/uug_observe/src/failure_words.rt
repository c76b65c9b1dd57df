//! The words about a line, or a folder, that has failed.
ghost use Rattle.std.specs.Prelude.{◌≡◌, IfOk, string_bytes};
ghost use Rattle.uug_observe.specs.FailureRemarks.{failure_remark};

use std::alloc::{AllocError, Allocator};
use uug_error::SystemFailure;
use uug_error_text::reason_line;

/// Returns a line for standard error: why the line of this name, or this folder, failed. It is empty without a failure.
pub fn failure_remark<A: Allocator>(
    alloc: A,
    line: &str,
    dir: &str,
    failure: Option<SystemFailure>,
) -> Result<String<A>, AllocError>
    ensures { IfOk result (λ remark. string_bytes remark
        ≡ failure_remark line.now dir.now failure) }
{
    match failure {
        Some(failure) => reason_line(alloc, "", line, dir, "", failure),
        None => Ok(String::new(alloc)),
    }
}
