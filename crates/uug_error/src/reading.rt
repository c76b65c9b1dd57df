//! Reads all bytes of a reader, within a limit.
ghost use Rattle.std.specs.Prelude.{◌≡◌, ◌<◌, ◌≤◌, IfOk, IfSome, MatchOption, length};

use std::alloc::Allocator;
use std::io;
use std::io::Read;

/// Reads all bytes of a reader. Returns `None` if there are more than `most`.
pub fn read_within<A: Allocator, R: Read + Drop>(
    alloc: A,
    reader: R,
    most: usize,
) -> io::Result<Option<Vec<u8, A>>>
    requires { most < u64.MAX }
    ensures within { IfOk result (λ found. IfSome found (λ bytes. length bytes.items ≤ most)) }
    ensures whole { IfSome (R.remaining reader) (λ all. IfOk result (λ found.
        MatchOption found (most < length all) (λ bytes. bytes.items ≡ all))) }
{
    let mut bytes = Vec::new(alloc);
    let mut front = reader.take(most as u64 + 1);
    front.read_to_end(&mut bytes)?;
    if bytes.len() > most {
        return Ok(None);
    }
    Ok(Some(bytes))
}
