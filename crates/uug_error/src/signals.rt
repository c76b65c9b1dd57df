//! Reads and writes that are repeated after a signal.
ghost use Rattle.std.specs.Prelude.{◌≡◌, ◌<◌, length, take, IfOk, OnErr};
ghost use Rattle.std.specs.Io.{ReadsAtMost, WritesAtMost};
ghost use Rattle.std.specs.Io.KnownBytes.{Appends, Consumes, IsAtEnd, Keeps};

use std::io;
use std::io::{ErrorKind, Read, Write};

/// The number of signals in a row after which a call has failed.
const SIGNALS_MAX: u32 = 1024;

/// Writes once. A write that a signal interrupts is repeated, up to `SIGNALS_MAX` tries in all. After these the error
/// is `Interrupted`.
pub fn write_again<T: Write>(stream: &mut T, piece: &[u8]) -> io::Result<usize>
    ensures bound { WritesAtMost result piece.now }
    ensures bytes { IfOk result (λ n.
        Appends (T.contents stream.old) (T.contents stream.new) (take n piece.now)) }
    ensures kept { OnErr result (Keeps (T.contents stream.old) (T.contents stream.new)) }
{
    for _ in 0..SIGNALS_MAX {
        match stream.write(piece) {
            Err(error) if error.kind() == ErrorKind::Interrupted => (),
            written => return written,
        }
    }
    Err(io::Error::from(ErrorKind::Interrupted))
}

/// Reads once. A read that a signal interrupts is repeated, up to `SIGNALS_MAX` tries in all. After these the error is
/// `Interrupted`. A repeated read waits for the whole time again.
pub fn read_again<T: Read>(stream: &mut T, buffer: &mut [u8]) -> io::Result<usize>
    ensures bound { ReadsAtMost result buffer.new }
    ensures size { length buffer.new ≡ length buffer.old }
    ensures bytes { IfOk result (λ n.
        Consumes (T.remaining stream.old) (T.remaining stream.new) (take n buffer.new)) }
    ensures end { IfOk result (λ n.
        n ≡ 0 → 0 < length buffer.old → IsAtEnd (T.remaining stream.new)) }
    ensures kept { OnErr result (Keeps (T.remaining stream.old) (T.remaining stream.new)) }
{
    for _ in 0..SIGNALS_MAX {
        match stream.read(buffer) {
            Err(error) if error.kind() == ErrorKind::Interrupted => (),
            read => return read,
        }
    }
    Err(io::Error::from(ErrorKind::Interrupted))
}
