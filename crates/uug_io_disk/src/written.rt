//! Writes to a file, and shows clauses which bytes were written.
ghost use Rattle.std.specs.Io.KnownBytes.{Appends};
ghost use Rattle.std.specs.Prelude.{◌≡◌, IfOk, OnOk};
ghost use Rattle.uug_io_disk.specs.Parts.{written_bytes};

use std::io;
use std::io::{ErrorKind, Write};
use std::snapshot::Snapshot;

/// The bytes that were written to a file, for clauses alone. Only the functions that write them create one.
#[derive(Drop)]
pub(crate) struct Written<'b> {
    bytes: Snapshot<&'b [u8]>,
}

/// Writes all of these bytes.
pub(crate) fn write_text<'b, W: Write>(file: &mut W, bytes: &'b [u8]) -> io::Result<Written<'b>>
    ensures contents { OnOk result (Appends (W.contents file.old) (W.contents file.new) bytes.now) }
    ensures bytes { IfOk result (λ written. written_bytes written ≡ bytes.now) }
{
    file.write_all(bytes)?;
    Ok(Written {
        bytes: Snapshot::of(&bytes),
    })
}

/// Writes all of these bytes in one write. A write that takes only a part of them is an error.
pub(crate) fn write_once<'b, W: Write>(file: &mut W, bytes: &'b [u8]) -> io::Result<Written<'b>>
    ensures contents { OnOk result (Appends (W.contents file.old) (W.contents file.new) bytes.now) }
    ensures bytes { IfOk result (λ written. written_bytes written ≡ bytes.now) }
{
    if file.write(bytes)? < bytes.len() {
        return Err(io::Error::from(ErrorKind::StorageFull));
    }
    Ok(Written {
        bytes: Snapshot::of(&bytes),
    })
}

/// Requires that exactly these bytes were written, and does nothing.
pub(crate) fn see_written(written: Written<'_>, bytes: &[u8])
    requires { written_bytes written ≡ bytes.now }
{
    let _ = bytes;
    drop(written);
}
