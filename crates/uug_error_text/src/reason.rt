//! The line that says on what a system call failed, and why.
ghost use Rattle.std.specs.Prelude.{◌≡◌, ◌++◌, IfOk, OnOk, string_bytes};
ghost use Rattle.uug_error_text.specs.Reasons.{below_words, dir_of, locks_line, place_words, places, reason_line, text_words};
ghost use Rattle.uug_scan.specs.Detailed.{escaped};

use crate::cause::add_cause;
use crate::escape::add_escaped;
use crate::hint::add_hint;
use std::alloc::{AllocError, Allocator};
use uug_error::{EndText, Resource, SystemFailure};

/// Returns the line for standard error that says on what a system call failed, why, and what to do if the cause is a
/// known mistake. `stream` names the input or output, `line` the line or the socket, and `first` and `second` the
/// folders of the ends.
pub fn reason_line<A: Allocator>(
    alloc: A,
    stream: &str,
    line: &str,
    first: &str,
    second: &str,
    failure: SystemFailure,
) -> Result<String<A>, AllocError>
    ensures { IfOk result (λ text. string_bytes text
        ≡ reason_line (places stream.now line.now first.now second.now) failure) }
{
    let mut text = String::from_str(alloc, "uucpair: ")?;
    add_place(
        &mut text,
        stream,
        line,
        first,
        second,
        failure.end,
        failure.resource,
    )?;
    text.push_str(": ")?;
    add_cause(&mut text, failure.resource, failure.cause)?;
    add_hint(&mut text, line, first, failure.resource, failure.cause)?;
    text.push_str("\n")?;
    Ok(text)
}

/// Returns the line that says why no lock file can be made in the folder `locks`. `reason_line` gets it as the second
/// folder.
pub fn locks_line<A: Allocator + Copy>(
    alloc: A,
    locks: &str,
    failure: SystemFailure,
) -> Result<String<A>, AllocError>
    ensures { IfOk result (λ text. string_bytes text ≡ locks_line locks.now failure) }
{
    let folder = format!(in alloc; "no lock file can be created (--locks): {locks}")?;
    reason_line(alloc, "", "", "", folder.as_str(), failure)
}

/// Returns the file name of this text.
fn text_words(which: EndText) -> &'static str
    ensures { result.now ≡ text_words which }
{
    match which {
        EndText::Jobs => "jobs",
        EndText::Number => "number",
        EndText::Failed => "failed",
    }
}

/// Appends the name of the resource on which a call of this end was made.
fn add_place<A: Allocator>(
    text: &mut String<A>,
    stream: &str,
    line: &str,
    first: &str,
    second: &str,
    end: usize,
    resource: Resource,
) -> Result<(), AllocError>
    ensures { OnOk result (string_bytes text.new ≡ string_bytes text.old
        ++ place_words (places stream.now line.now first.now second.now) end resource) }
{
    match resource {
        Resource::Input | Resource::Output => add_escaped(text, stream.as_bytes()),
        Resource::Line => add_escaped(text, line.as_bytes()),
        Resource::Dir
        | Resource::Text(_)
        | Resource::Send
        | Resource::Given(_)
        | Resource::GotFolder
        | Resource::Got(_) => {
            add_dir(text, first, second, end)?;
            add_below(text, resource)
        }
    }
}

/// Appends the path of the folder of this end.
fn add_dir<A: Allocator>(
    text: &mut String<A>,
    first: &str,
    second: &str,
    end: usize,
) -> Result<(), AllocError>
    ensures { OnOk result (string_bytes text.new ≡ string_bytes text.old
        ++ escaped (dir_of first.now second.now end)) }
{
    if end == 0 {
        add_escaped(text, first.as_bytes())
    } else {
        add_escaped(text, second.as_bytes())
    }
}

/// Appends the rest of the path, below the folder of an end.
fn add_below<A: Allocator>(text: &mut String<A>, resource: Resource) -> Result<(), AllocError>
    ensures { OnOk result
        (string_bytes text.new ≡ string_bytes text.old ++ below_words resource) }
{
    match resource {
        Resource::Text(which) => {
            text.push_str("/")?;
            text.push_str(text_words(which))
        }
        Resource::Send => text.push_str("/send"),
        Resource::Given(name) => {
            text.push_str("/send/")?;
            text.push_str(name.as_str())
        }
        Resource::GotFolder => text.push_str("/got"),
        Resource::Got(name) => {
            text.push_str("/got/")?;
            text.push_str(name.as_str())
        }
        _ => Ok(()),
    }
}
