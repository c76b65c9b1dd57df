//! The remarks on a bad order to queue a job.
ghost use Rattle.std.specs.Prelude.{◌≡◌, ◌++◌, IfOk, OnOk, string_bytes};
ghost use Rattle.uug_error_text.specs.JobsWords.{is_order};
ghost use Rattle.uug_cli.specs.OrderWords.{full_remark, lack_words, no_order_words, order_remark, order_words};

use std::alloc::{AllocError, Allocator};
use uug_error_text::{add_escaped, add_quoted};
use uug_io_disk::QueueTask;

/// Returns what is wrong with the words that queue a job: one is missing, or in the place of another. The text is empty
/// if nothing is wrong, or nothing is ordered.
pub fn order_remark<A: Allocator>(alloc: A, task: &QueueTask<'_>) -> Result<String<A>, AllocError>
    ensures { IfOk result (λ remark. string_bytes remark ≡ order_remark task.now) }
{
    let mut remark = String::new(alloc);
    if let Some(order) = task.order {
        add_order(&mut remark, task.dir, order, task.file.is_some())?;
    }
    Ok(remark)
}

/// Appends what is wrong with this order.
fn add_order<A: Allocator>(
    text: &mut String<A>,
    dir: &str,
    order: &str,
    has_file: bool,
) -> Result<(), AllocError>
    ensures { OnOk result
        (string_bytes text.new ≡ string_bytes text.old ++ order_words dir.now order.now has_file) }
{
    if !is_order(order) {
        return add_no_order(text, dir, order);
    }
    if has_file {
        return Ok(());
    }
    add_lack(text, order)
}

/// Appends that an order has no file.
fn add_lack<A: Allocator>(text: &mut String<A>, order: &str) -> Result<(), AllocError>
    ensures { OnOk result
        (string_bytes text.new ≡ string_bytes text.old ++ lack_words order.now) }
{
    write!(text, "FILE is missing: uucpair queue DIR {order} FILE")
}

/// Appends that this word is not an order, or that the folder has to precede it.
fn add_no_order<A: Allocator>(
    text: &mut String<A>,
    dir: &str,
    order: &str,
) -> Result<(), AllocError>
    ensures { OnOk result
        (string_bytes text.new ≡ string_bytes text.old ++ no_order_words dir.now order.now) }
{
    if is_order(dir) {
        return write!(text, "DIR goes first: uucpair queue DIR {dir} FILE");
    }
    add_quoted(text, order.as_bytes())?;
    text.push_str(
        " is neither send nor request: uucpair queue DIR send FILE, or uucpair queue DIR request FILE",
    )
}

/// Returns a line for standard error: the queue of this folder is full.
pub fn full_remark<A: Allocator>(alloc: A, dir: &str) -> Result<String<A>, AllocError>
    ensures { IfOk result (λ remark. string_bytes remark ≡ full_remark dir.now) }
{
    let mut remark = String::from_str(alloc, "uucpair: ")?;
    add_escaped(&mut remark, dir.as_bytes())?;
    remark.push_str("/jobs: the limit of 1024 jobs is reached: call, or cancel one\n")?;
    Ok(remark)
}

/// Returns whether a word is an order.
fn is_order(word: &str) -> bool
    ensures { result ≡ is_order word.now }
{
    word == "send" || word == "request"
}
