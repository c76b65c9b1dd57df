//! The words for where an end waits to be called.
ghost use Rattle.std.specs.Prelude.{◌≡◌, IfOk, codes, string_bytes};
ghost use Rattle.std.specs.Option.{option_copied};
ghost use Rattle.uug_scan.specs.Detailed.{escaped};
ghost use Rattle.uug_transfer.specs.LineNames.{behind, shown};
ghost use Rattle.uug_cli.specs.WaitingWords.{has_colon, has_no_host, has_no_port, name_words, reach_words, tcp_words, waiting_words};

use std::alloc::{AllocError, Allocator};
use uug_error_text::add_escaped;
use uug_transfer::{LineName, read_line_name};

/// Returns the place where an end waits to be called, at the line of this name. For a TCP port it adds that only this
/// machine can call 127.0.0.1, or that no caller knows port 0.
pub fn waiting_words<A: Allocator + Copy>(alloc: A, line: &str) -> Result<String<A>, AllocError>
    ensures { IfOk result (λ words. string_bytes words ≡ waiting_words line.now) }
{
    match read_line_name(line) {
        Some(name) => name_words(alloc, name, line),
        None => escaped(alloc, line),
    }
}

/// Returns the place where an end waits, at the line of this name.
fn name_words<A: Allocator + Copy>(
    alloc: A,
    name: LineName<'_>,
    line: &str,
) -> Result<String<A>, AllocError>
    ensures { IfOk result (λ words.
        string_bytes words ≡ name_words (shown name.entry) line.now) }
{
    match name {
        LineName::Tcp(host, port) => tcp_words(alloc, host, port),
        LineName::Standard => escaped(alloc, line),
        LineName::Unix(_) => escaped(alloc, line),
        LineName::Device(_) => escaped(alloc, line),
    }
}

/// Returns whether a line is a TCP port without a host, which is on this machine.
pub fn has_no_host(line: &str) -> bool
    ensures { result ≡ has_no_host line.now }
{
    match address_of(line) {
        Some(address) => !has_colon(address.as_bytes()),
        None => false,
    }
}

/// Returns whether a line is port 0 of a host. The system then picks a port that no caller knows.
pub fn has_no_port(line: &str) -> bool
    ensures { result ≡ has_no_port line.now }
{
    match read_line_name(line) {
        Some(LineName::Tcp(_, port)) => port == 0,
        _ => false,
    }
}

/// Returns the address after `tcp:`, if the line is a TCP port.
fn address_of(line: &str) -> Option<&str>
    ensures { option_copied result ≡ behind (codes "tcp:") line.now }
{
    line.strip_prefix("tcp:")
}

/// Returns whether an address has a colon, which separates its host from its port.
fn has_colon(address: &[u8]) -> bool
    ensures { result ≡ has_colon address.now }
{
    address.contains(&b':')
}

/// Returns the host and port where an end waits, and who can call there.
fn tcp_words<A: Allocator + Copy>(alloc: A, host: &str, port: u16) -> Result<String<A>, AllocError>
    ensures { IfOk result (λ words. string_bytes words ≡ tcp_words host.now port) }
{
    let shown = escaped(alloc, host)?;
    let shown = shown.as_str();
    let reach = reach_words(alloc, host, port)?;
    let reach = reach.as_str();
    format!(in alloc; "{shown}:{port}{reach}")
}

/// Returns who can call this port: only this machine at 127.0.0.1, and nobody at port 0. Else the text is empty.
fn reach_words<A: Allocator>(alloc: A, host: &str, port: u16) -> Result<String<A>, AllocError>
    ensures { IfOk result (λ words. string_bytes words ≡ reach_words host.now port) }
{
    if port == 0 {
        String::from_str(
            alloc,
            " (any free port, which no caller knows: give 1 to 65535)",
        )
    } else if host.as_bytes() == b"127.0.0.1".as_slice() {
        format!(in alloc; " (this machine only; tcp:0.0.0.0:{port} for all)")
    } else {
        Ok(String::new(alloc))
    }
}

/// Returns a text with its unprintable bytes escaped.
fn escaped<A: Allocator>(alloc: A, text: &str) -> Result<String<A>, AllocError>
    ensures { IfOk result (λ shown. string_bytes shown ≡ escaped text.now) }
{
    let mut shown = String::new(alloc);
    add_escaped(&mut shown, text.as_bytes())?;
    Ok(shown)
}
