//! The remark on a queued job whose target an end refuses.
ghost use Rattle.std.specs.Prelude.{◌≡◌, IfOk, string_bytes};
ghost use Rattle.uug_cli.specs.TargetWords.{dotted_remark, has_dot, target_remark, taker_words};

use std::alloc::{AllocError, Allocator};
use uug_io_disk::QueueTask;

/// Returns a line for standard error: the name of the target begins with a dot, and which end refuses it. The line is
/// empty if the name doesn't begin with a dot, or no target is given.
pub fn target_remark<A: Allocator>(alloc: A, task: &QueueTask<'_>) -> Result<String<A>, AllocError>
    ensures { IfOk result (λ remark. string_bytes remark ≡ target_remark task.now) }
{
    match (task.order, task.target) {
        (Some(order), Some(target)) => dotted_remark(alloc, order, target),
        _ => Ok(String::new(alloc)),
    }
}

/// Returns the line on this target of this order. It is empty if the target's name doesn't begin with a dot.
fn dotted_remark<A: Allocator>(alloc: A, order: &str, target: &str) -> Result<String<A>, AllocError>
    ensures { IfOk result (λ remark.
        string_bytes remark ≡ dotted_remark order.now target.now) }
{
    if has_dot(target.as_bytes()) {
        let taker = taker_words(order);
        format!(in alloc; "uucpair: {target} has a leading dot: {taker}\n")
    } else {
        Ok(String::new(alloc))
    }
}

/// Returns whether a target, `NAME`, `~/NAME` or `/NAME`, has a name that begins with a dot.
fn has_dot(target: &[u8]) -> bool
    ensures { result ≡ has_dot target.now }
{
    target.starts_with(b".") || target.starts_with(b"~/.") || target.starts_with(b"/.")
}

/// Returns which end refuses such a target: the other end if the file is sent there, else this one.
fn taker_words(order: &str) -> &'static str
    ensures { result.now ≡ taker_words order.now }
{
    if order == "send" {
        "uucpair at the other end refuses such a target, Taylor UUCP takes it"
    } else {
        "this end takes no such target, so the job will be given up"
    }
}
