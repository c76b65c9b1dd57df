//! Escapes for bytes that can't be seen.
ghost use Rattle.std.specs.Prelude.{◌≡◌, ◌++◌, OnOk, string_bytes};
ghost use Rattle.uug_scan.specs.Detailed.{escaped, is_plain};

use std::alloc::{AllocError, Allocator};
use uug_scan::add_byte;

/// Returns whether a byte is written as it is.
fn is_plain(byte: u8) -> bool
    ensures { result ≡ is_plain byte }
{
    (byte.is_ascii_graphic() || byte == b' ') && byte != b'\\'
}

/// Appends bytes as text. Those that can't be seen, and backslashes, are written in hex.
pub fn add_escaped<A: Allocator>(text: &mut String<A>, bytes: &[u8]) -> Result<(), AllocError>
    ensures { OnOk result (string_bytes text.new ≡ string_bytes text.old ++ escaped bytes.now) }
{
    for byte in bytes {
        add_byte(text, *byte, is_plain(*byte))?;
    }
    Ok(())
}
