ghost use Rattle.std.specs.Prelude.{◌≡◌, ◌+◌, ◌≤◌, ◌++◌, OnOk, IfOk, false, string_bytes};
ghost use Rattle.uug_talk.specs.Texts.{is_whole};
ghost use Rattle.uug_scan.specs.Detailed.{entry_lines};
ghost use Rattle.uug_scan.specs.Code.Noise.{Holds, HasPlaces, Tells, end_of, heard_size, noise_at, tells_byte};
ghost use Rattle.uug_scan.specs.Told.{heard_with, hears, noise_entries};

use crate::lines::{add_noise, add_text};
use std::alloc::{AllocError, Allocator};
use uug_talk::Hail;

/// The noise after the last line: its beginning, the number of its bytes up to now, and the part of a handshake text
/// heard in it.
#[derive(Drop)]
pub struct Noise {
    pub start: usize,
    pub size: usize,
    pub hail: Hail,
}

/// Returns noise without bytes, from this place on.
pub fn noise_from(start: usize) -> Noise
    ensures { result ≡ noise_at start }
{
    Noise {
        start,
        size: 0,
        hail: Hail::new(),
    }
}

/// Ends the noise in front of `size` bytes: its line is appended. Returns the place where those bytes begin.
pub fn end_noise<A: Allocator>(
    lines: &mut String<A>,
    noise: &mut Noise,
    size: usize,
) -> Result<usize, AllocError>
    requires { HasPlaces noise.old size }
    ensures at { IfOk result (λ at. at ≡ end_of noise.old) }
    ensures behind { OnOk result (noise.new ≡ noise_at (end_of noise.old + size)) }
    ensures lines { OnOk result (string_bytes lines.new ≡ string_bytes lines.old
        ++ entry_lines (noise_entries noise.old.start noise.old.size)) }
{
    add_noise(lines, noise.start, noise.size)?;
    let at = noise.start + noise.size;
    *noise = noise_from(at + size);
    Ok(at)
}

/// Hears one more byte. Nothing is heard of a text that is too long.
fn listen(hail: &mut Hail, byte: u8)
    requires { is_whole hail.old ≡ false }
    ensures { hail.new ≡ heard_with hail.old byte }
{
    let _ = hail.push(&[byte]);
}

/// Appends the line of a text, if it is complete, after the line of the noise in front of it.
fn settle<A: Allocator>(lines: &mut String<A>, noise: &mut Noise) -> Result<(), AllocError>
    requires places { HasPlaces noise.old 0 }
    requires within { heard_size noise.old.hail ≤ noise.old.size }
    ensures { OnOk result (Tells (hears noise.old.hail) 0 noise.old noise.new
        (string_bytes lines.old) (string_bytes lines.new)) }
{
    if !noise.hail.is_whole() {
        return Ok(());
    }
    let size = noise.hail.text().len() + 2;
    let at = noise.start + (noise.size - size);
    add_noise(lines, noise.start, noise.size - size)?;
    add_text(lines, noise.hail.text(), at, size)?;
    *noise = noise_from(at + size);
    Ok(())
}

/// Hears one more byte of noise, which may end a text.
pub fn hear<A: Allocator>(
    lines: &mut String<A>,
    noise: &mut Noise,
    byte: u8,
) -> Result<(), AllocError>
    requires places { HasPlaces noise.old 1 }
    requires holds { Holds noise.old }
    ensures { OnOk result (Tells (tells_byte byte) 1 noise.old noise.new
        (string_bytes lines.old) (string_bytes lines.new)) }
{
    listen(&mut noise.hail, byte);
    noise.size += 1;
    settle(lines, noise)
}
