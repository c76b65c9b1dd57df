//! Hints about what to do when a known mistake makes a system call fail.
ghost use Rattle.std.specs.Prelude.{◌≡◌, ◌++◌, OnOk, string_bytes};
ghost use Rattle.uug_error_text.specs.ReasonHints.{absent_hint, address_of, are_exchanged, device_words, exchanged_hint, forms_words, got_hint, guess_words, has_byte, has_digit, hint_words};
ghost use Rattle.uug_error_text.specs.ReasonHints.{host_hint, is_bare, line_hint, long_hint, names_line, port_guess, port_words, right_hint, send_hint, socket_hint, zero_hint};

use crate::escape::add_escaped;
use crate::kind::kind_words;
use std::alloc::{AllocError, Allocator};
use std::io::ErrorKind;
use uug_error::{Cause, Resource};

/// The maximum number of bytes in the path of a Unix socket.
const SOCKET_PATH_MAX: usize = 107;

/// Appends the hint about a failed call on this resource, if the mistake is known. `line` and `dir` are those of the
/// end.
pub(crate) fn add_hint<A: Allocator>(
    text: &mut String<A>,
    line: &str,
    dir: &str,
    resource: Resource,
    cause: Cause,
) -> Result<(), AllocError>
    ensures { OnOk result (string_bytes text.new
        ≡ string_bytes text.old ++ hint_words line.now dir.now resource cause) }
{
    match resource {
        Resource::Dir => text.push_str(exchanged_hint(line, dir)),
        Resource::GotFolder => text.push_str(got_hint(cause)),
        Resource::Send => text.push_str(send_hint(cause)),
        Resource::Line => add_line_hint(text, line, cause),
        _ => Ok(()),
    }
}

/// Returns the hint about a line and a folder that are exchanged.
fn exchanged_hint(line: &str, dir: &str) -> &'static str
    ensures { result.now ≡ exchanged_hint line.now dir.now }
{
    if are_exchanged(line, dir) {
        " (LINE and DIR look swapped: give LINE first)"
    } else {
        ""
    }
}

/// Returns whether the folder looks like the name of a line, and the line does not.
fn are_exchanged(line: &str, dir: &str) -> bool
    ensures { result ≡ are_exchanged line.now dir.now }
{
    !line.is_empty() && !names_line(line.as_bytes()) && names_line(dir.as_bytes())
}

/// Returns whether a word looks like the name of a line. The path of a device outside `/dev` does not.
fn names_line(word: &[u8]) -> bool
    ensures { result ≡ names_line word.now }
{
    word == b"-".as_slice()
        || word.starts_with(b"tcp:")
        || word.starts_with(b"unix:")
        || word.starts_with(b"/dev/")
}

/// Returns the hint about a call on the folder `got` that failed.
fn got_hint(cause: Cause) -> &'static str
    ensures { result.now ≡ got_hint cause }
{
    match cause {
        Cause::Refused(ErrorKind::NotFound, _) => {
            " (make it; only a spool, with --spool, has none)"
        }
        _ => "",
    }
}

/// Returns the hint about a call on the folder `send` that failed.
fn send_hint(cause: Cause) -> &'static str
    ensures { result.now ≡ send_hint cause }
{
    match cause {
        Cause::Refused(ErrorKind::NotFound, _) => " (make it: the files of jobs go there)",
        _ => "",
    }
}

/// Appends the hint about a call on the line that failed.
fn add_line_hint<A: Allocator>(
    text: &mut String<A>,
    line: &str,
    cause: Cause,
) -> Result<(), AllocError>
    ensures { OnOk result
        (string_bytes text.new ≡ string_bytes text.old ++ line_hint line.now cause) }
{
    match cause {
        Cause::Refused(ErrorKind::NotFound, _) => add_absent_hint(text, line),
        Cause::Refused(ErrorKind::IsADirectory, _) | Cause::NoTerminal => {
            text.push_str(" (LINE is a terminal device, tcp:HOST:PORT, unix:PATH or -)")
        }
        Cause::Refused(ErrorKind::InvalidInput, _) => text.push_str(long_hint(line)),
        Cause::Refused(ErrorKind::ConnectionRefused, _) => text.push_str(zero_hint(line)),
        Cause::Refused(ErrorKind::PermissionDenied, _) => text.push_str(right_hint(line)),
        Cause::Refused(ErrorKind::AddrNotAvailable, _) => {
            text.push_str(" (not an address of this machine; 0.0.0.0 is all of them)")
        }
        Cause::Refused(_, None) => text.push_str(host_hint(line)),
        Cause::Refused(kind, Some(_)) => text.push_str(socket_hint(line, kind)),
        _ => Ok(()),
    }
}

/// Appends the hint about a line that does not exist, if it is a bare word, which may lack its prefix.
fn add_absent_hint<A: Allocator>(text: &mut String<A>, line: &str) -> Result<(), AllocError>
    ensures { OnOk result
        (string_bytes text.new ≡ string_bytes text.old ++ absent_hint line.now) }
{
    if is_bare(line.as_bytes()) {
        add_forms(
            text,
            " (LINE is a terminal device, tcp:HOST:PORT, unix:PATH or -",
            line,
        )
    } else {
        Ok(())
    }
}

/// Appends `forms`, which says what a line may be, and then the line that a bare word probably means.
fn add_forms<A: Allocator>(text: &mut String<A>, forms: &str, line: &str) -> Result<(), AllocError>
    ensures { OnOk result
        (string_bytes text.new ≡ string_bytes text.old ++ forms_words forms.now line.now) }
{
    text.push_str(forms)?;
    add_guess(text, line)?;
    text.push_str(")")
}

/// Appends the line that a bare word probably means, if it can be guessed: a device, or a port of a host.
fn add_guess<A: Allocator>(text: &mut String<A>, line: &str) -> Result<(), AllocError>
    ensures { OnOk result
        (string_bytes text.new ≡ string_bytes text.old ++ guess_words line.now) }
{
    if line.as_bytes().starts_with(b"tty") {
        add_device(text, line)
    } else {
        add_port_guess(text, line)
    }
}

/// Appends the device of this name.
fn add_device<A: Allocator>(text: &mut String<A>, name: &str) -> Result<(), AllocError>
    ensures { OnOk result
        (string_bytes text.new ≡ string_bytes text.old ++ device_words name.now) }
{
    text.push_str(": give /dev/")?;
    add_escaped(text, name.as_bytes())
}

/// Appends the port of a host that a bare word probably means, if the word has a colon and a digit.
fn add_port_guess<A: Allocator>(text: &mut String<A>, line: &str) -> Result<(), AllocError>
    ensures { OnOk result
        (string_bytes text.new ≡ string_bytes text.old ++ port_guess line.now) }
{
    if has_byte(line.as_bytes(), b':') && has_digit(line.as_bytes()) {
        add_port(text, address_of(line.as_bytes()))
    } else {
        Ok(())
    }
}

/// Appends the port of this address.
fn add_port<A: Allocator>(text: &mut String<A>, address: &[u8]) -> Result<(), AllocError>
    ensures { OnOk result (string_bytes text.new ≡ string_bytes text.old ++ port_words address.now) }
{
    text.push_str(": give tcp:")?;
    add_escaped(text, address)
}

/// Returns a word without the prefix `TCP:` or `Tcp:`.
fn address_of(word: &[u8]) -> &[u8]
    ensures { result.now ≡ address_of word.now }
{
    if word.starts_with(b"TCP:") {
        &word[4..]
    } else if word.starts_with(b"Tcp:") {
        &word[4..]
    } else {
        word
    }
}

/// Returns the hint about a line that the system rejects as invalid, since the path of its socket is too long.
fn long_hint(line: &str) -> &'static str
    ensures { result.now ≡ long_hint line.now }
{
    if line.len() > SOCKET_PATH_MAX {
        " (the path of a socket has at most 107 bytes)"
    } else {
        ""
    }
}

/// Returns the hint about a port or a device that this user is not allowed to use.
fn right_hint(line: &str) -> &'static str
    ensures { result.now ≡ right_hint line.now }
{
    if line.as_bytes().starts_with(b"tcp:") {
        " (a port below 1024 needs root, or CAP_NET_BIND_SERVICE)"
    } else if line.as_bytes().starts_with(b"/dev/") {
        " (only its group may use it; usually: adduser USER dialout)"
    } else {
        ""
    }
}

/// Returns the hint about a path that can't be opened because of an error without a name. A socket gives such an error,
/// and needs `unix:` before its path.
fn socket_hint(line: &str, kind: ErrorKind) -> &'static str
    ensures { result.now ≡ socket_hint line.now kind }
{
    if names_line(line.as_bytes()) || kind_words(kind).is_some() {
        ""
    } else {
        " (for a socket give unix:PATH)"
    }
}

/// Returns the hint about a refused connection to port 0.
fn zero_hint(line: &str) -> &'static str
    ensures { result.now ≡ zero_hint line.now }
{
    if line.as_bytes().ends_with(b":0") {
        " (0 is not a port: give 1 to 65535)"
    } else {
        ""
    }
}

/// Returns the hint about a host that has no address because it is written as in a URL.
fn host_hint(line: &str) -> &'static str
    ensures { result.now ≡ host_hint line.now }
{
    if line.as_bytes().starts_with(b"tcp:[") {
        " (an IPv6 address has no brackets: tcp:::1:540)"
    } else if line.as_bytes().starts_with(b"tcp://") {
        " (give tcp:HOST:PORT, without slashes)"
    } else {
        ""
    }
}

/// Returns whether a word has no slash, and does not look like the name of a line.
fn is_bare(word: &[u8]) -> bool
    ensures { result ≡ is_bare word.now }
{
    !names_line(word) && !has_byte(word, b'/')
}

/// Returns whether a word has this byte.
fn has_byte(word: &[u8], byte: u8) -> bool
    ensures { result ≡ has_byte word.now byte }
{
    word.contains(&byte)
}

/// Returns whether a word has a digit.
fn has_digit(word: &[u8]) -> bool
    ensures { result ≡ has_digit word.now }
{
    word.iter().any(|b| b.is_ascii_digit())
}
