//! The words for why a system call failed.
ghost use Rattle.std.specs.Prelude.{◌≡◌, ◌++◌, OnOk, string_bytes};
ghost use Rattle.uug_error_text.specs.KindWords.{kind_words as words_of_kind};
ghost use Rattle.uug_error_text.specs.Reasons.{cause_words, much_words, named_or_numbered, no_file_words, number_words};

use crate::kind::kind_words;
use std::alloc::{AllocError, Allocator};
use std::io::ErrorKind;
use uug_error::{Cause, Resource};

/// Appends why a call on this resource failed.
pub(crate) fn add_cause<A: Allocator>(
    text: &mut String<A>,
    resource: Resource,
    cause: Cause,
) -> Result<(), AllocError>
    ensures { OnOk result
        (string_bytes text.new ≡ string_bytes text.old ++ cause_words resource cause) }
{
    match cause {
        Cause::Refused(kind, number) => add_refusal(text, resource, kind, number),
        Cause::MovedNothing => text.push_str("it takes no bytes"),
        Cause::TooMuch => text.push_str(much_words(resource)),
        Cause::NotAFile => text.push_str(no_file_words(resource)),
        Cause::NotANumber => text.push_str("not a number up to 4294967295"),
        Cause::InUse => text.push_str("in use"),
        Cause::IsSpool => text.push_str("it is a spool of Taylor UUCP: give --spool"),
        Cause::NoSpool => text.push_str("not a spool, as it has jobs or send: leave out --spool"),
        Cause::NoStream => {
            text.push_str("standard input or output is not a socket, pipe or terminal")
        }
        Cause::NoTerminal => text.push_str("not a terminal"),
    }
}

/// Returns the words for a limit of the program that was exceeded.
fn much_words(resource: Resource) -> &'static str
    ensures { result.now ≡ much_words resource }
{
    match resource {
        Resource::Input => "too large",
        Resource::Text(_) => "over the limit of 16777216 bytes",
        Resource::Send => "over the limit of 256 files",
        _ => "over a limit",
    }
}

/// Returns the words for something that is not a regular file. At an output it is a named pipe, since devices and
/// sockets are accepted there.
fn no_file_words(resource: Resource) -> &'static str
    ensures { result.now ≡ no_file_words resource }
{
    match resource {
        Resource::Output => {
            "a named pipe may have no reader: name a file, /dev/stdout or /dev/stderr"
        }
        _ => "not a regular file",
    }
}

/// Appends the name of an error of this kind, or its number.
fn add_refusal<A: Allocator>(
    text: &mut String<A>,
    resource: Resource,
    kind: ErrorKind,
    number: Option<i32>,
) -> Result<(), AllocError>
    ensures { OnOk result (string_bytes text.new
        ≡ string_bytes text.old ++ named_or_numbered resource (words_of_kind kind) number) }
{
    match kind_words(kind) {
        Some(words) => text.push_str(words),
        None => add_number(text, resource, number),
    }
}

/// Appends the number of an error that has no name. If it has no number either, it is an unknown host on a line, and
/// elsewhere an unknown error.
fn add_number<A: Allocator>(
    text: &mut String<A>,
    resource: Resource,
    number: Option<i32>,
) -> Result<(), AllocError>
    ensures { OnOk result
        (string_bytes text.new ≡ string_bytes text.old ++ number_words resource number) }
{
    match (number, resource) {
        (Some(number), _) => write!(text, "error {number}"),
        (None, Resource::Line) => text.push_str("unknown host"),
        (None, _) => text.push_str("unknown error"),
    }
}
