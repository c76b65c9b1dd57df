//! Lines of C. files whose data can't be read now.
ghost use Rattle.std.specs.Prelude.{◌≡◌, IfOk};
ghost use Rattle.uug_taylor_queue.specs.HeldLines.{held_line, held_lines, is_held};

use crate::open_line::OpenLine;
use std::alloc::{AllocError, Allocator};
use uug_conversation::has_name;
use uug_talk::Name;

/// Returns whether a line with this copy is held. `unread` has the names of the data that can't be read.
fn is_held(unread: &[Name], copy: &Option<Name>) -> bool
    ensures { result ≡ is_held unread.now copy.now }
{
    match copy {
        Some(copy) => has_name(unread, copy.as_bytes()),
        None => false,
    }
}

fn held_line(unread: &[Name], line: &OpenLine) -> OpenLine
    ensures { result ≡ held_line unread.now line.now }
{
    OpenLine {
        file: line.file,
        number: line.number,
        copy: line.copy,
        job: if is_held(unread, &line.copy) {
            None
        } else {
            line.job
        },
    }
}

/// Returns these lines, without the job of each whose copy is in `unread`, the names of the data that can't be read.
/// Nothing else changes.
pub fn held_lines<A: Allocator>(
    alloc: A,
    lines: &[OpenLine],
    unread: &[Name],
) -> Result<Vec<OpenLine, A>, AllocError>
    ensures { IfOk result (λ held. held.items ≡ held_lines unread.now lines.now) }
{
    let mut held = Vec::new(alloc);
    for line in lines {
        held.push(held_line(unread, line))?;
    }
    Ok(held)
}
