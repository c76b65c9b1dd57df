//! The remark on a device that another run holds.
ghost use Rattle.std.specs.Prelude.{◌≡◌, ◌++◌, IfOk, OnOk, string_bytes};
ghost use Rattle.uug_observe.specs.HeldLines.{between, held_remark, held_words, words_of};

use std::alloc::{AllocError, Allocator};
use std::rt::Files;
use uug_config::LineOptions;
use uug_error_text::add_escaped;
use uug_io_disk::lock_holder;
use uug_io_lock::{Holder, lock_path};

/// Returns a remark for standard error on the device of this line, which another run holds: who that is, as far as its
/// lock file tells, and what to do.
pub fn line_held_remark<A: Allocator + Copy, R: Files>(
    alloc: A,
    rt: &R,
    line: &LineOptions<'_>,
) -> Result<String<A>, AllocError> {
    let holder = lock_holder(alloc, rt, line.locks, line.name)?;
    let path = lock_path(alloc, line.locks, line.name)?;
    held_remark(alloc, holder, path.as_str(), line.name)
}

/// Returns the line about a device whose lock file at this path has this holder.
fn held_remark<A: Allocator>(
    alloc: A,
    holder: Holder,
    path: &str,
    device: &str,
) -> Result<String<A>, AllocError>
    ensures { IfOk result (λ remark.
        string_bytes remark ≡ held_remark holder path.now device.now) }
{
    let mut remark = String::from_str(alloc, "uucpair: ")?;
    add_holder(&mut remark, holder, path, device)?;
    remark.push_str("\n")?;
    Ok(remark)
}

/// Appends who holds a device, by the holder of the lock file at this path.
fn add_holder<A: Allocator>(
    text: &mut String<A>,
    holder: Holder,
    path: &str,
    device: &str,
) -> Result<(), AllocError>
    ensures { OnOk result
        (string_bytes text.new ≡ string_bytes text.old ++ words_of holder path.now device.now) }
{
    match holder {
        Holder::Process(number) => add_held(text, number, path),
        Holder::Unknown => add_between(
            text,
            "by ",
            path,
            ", which names no process: remove that file if nobody uses the line",
        ),
        Holder::Nobody => add_between(
            text,
            "it has no lock file: fuser ",
            device,
            " shows who has it open",
        ),
    }
}

/// Appends that this process holds the lock file.
fn add_held<A: Allocator>(text: &mut String<A>, number: u32, path: &str) -> Result<(), AllocError>
    ensures { OnOk result
        (string_bytes text.new ≡ string_bytes text.old ++ held_words number path.now) }
{
    write!(text, "process {number} holds it, by ")?;
    add_escaped(text, path.as_bytes())?;
    text.push_str(": call again when that has ended")
}

/// Appends a path between two texts.
fn add_between<A: Allocator>(
    text: &mut String<A>,
    front: &str,
    path: &str,
    behind: &str,
) -> Result<(), AllocError>
    ensures { OnOk result
        (string_bytes text.new ≡ string_bytes text.old ++ between front.now path.now behind.now) }
{
    text.push_str(front)?;
    add_escaped(text, path.as_bytes())?;
    text.push_str(behind)
}
