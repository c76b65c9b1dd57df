//! The lines of the parts of some bytes.
ghost use Rattle.std.specs.Prelude.{◌≡◌, ◌+◌, ◌<◌, ◌≤◌, ◌++◌, OnOk, IfOk, drop, length, string_bytes};
ghost use Rattle.uug_packet.specs.Packet.{shown};
ghost use Rattle.uug_packet.specs.Waits.{Waits};
ghost use Rattle.uug_reader.specs.Cut.{found};
ghost use Rattle.uug_scan.specs.Listing.{HasSize};
ghost use Rattle.uug_scan.specs.Code.Noise.{AddsParts, HasPlaces, Holds, IsSized, Tells, end_of, front_size, tells_front, what_of};
ghost use Rattle.uug_scan.specs.Told.{of_packet, of_rest, puts};

use crate::front::{Damage, Front, front_of};
use crate::lines::{add_packet, add_place};
use crate::noise::{Noise, end_noise, hear};
use std::alloc::{AllocError, Allocator};
use uug_packet::Packet;

/// Appends the line of a packet of `size` bytes.
fn add_packet_line<A: Allocator>(
    lines: &mut String<A>,
    noise: &mut Noise,
    packet: &Packet<'_>,
    size: usize,
) -> Result<(), AllocError>
    requires places { HasPlaces noise.old size }
    requires size { HasSize (found (shown packet.now)) }
    ensures { OnOk result (Tells (puts (of_packet (shown packet.now)) size) size noise.old noise.new
        (string_bytes lines.old) (string_bytes lines.new)) }
{
    let at = end_noise(lines, noise, size)?;
    add_packet(lines, packet)?;
    add_place(lines, at, size)
}

/// Appends the line of a damaged packet.
fn add_damage_line<A: Allocator>(
    lines: &mut String<A>,
    noise: &mut Noise,
    damage: Damage,
) -> Result<(), AllocError>
    requires { HasPlaces noise.old 1 }
    ensures { OnOk result (Tells (puts (what_of damage) 1) 1 noise.old noise.new
        (string_bytes lines.old) (string_bytes lines.new)) }
{
    let at = end_noise(lines, noise, 1)?;
    lines.push_str(damage.words())?;
    add_place(lines, at, 1)
}

/// Appends the lines for the item at the front, whose first byte is `byte`. Returns the number of its bytes.
fn add_front<A: Allocator>(
    lines: &mut String<A>,
    noise: &mut Noise,
    front: &Front<'_>,
    byte: u8,
) -> Result<usize, AllocError>
    requires places { HasPlaces noise.old (front_size front.now) }
    requires holds { Holds noise.old }
    requires sized { IsSized front.now }
    ensures size { IfOk result (λ size. size ≡ front_size front.now) }
    ensures tells { OnOk result (Tells (tells_front front.now byte) (front_size front.now) noise.old
        noise.new (string_bytes lines.old) (string_bytes lines.new)) }
{
    match front {
        Front::Packet(packet, size) => {
            add_packet_line(lines, noise, packet, *size)?;
            Ok(*size)
        }
        Front::Damaged(damage) => {
            add_damage_line(lines, noise, *damage)?;
            Ok(1)
        }
        Front::Noise(_) => {
            hear(lines, noise, byte)?;
            Ok(1)
        }
    }
}

/// Appends the lines for the bytes, up to where they wait. Returns the number of bytes up to there.
pub fn add_parts<A: Allocator>(
    lines: &mut String<A>,
    noise: &mut Noise,
    bytes: &[u8],
) -> Result<usize, AllocError>
    requires places { HasPlaces noise.old (length bytes.now) }
    requires holds { Holds noise.old }
    ensures within { IfOk result (λ passed. passed ≤ length bytes.now) }
    ensures adds { IfOk result (λ passed. AddsParts bytes.now (drop passed bytes.now) noise.old
        noise.new (string_bytes lines.old) (string_bytes lines.new)) }
    ensures waits { IfOk result (λ passed. Waits (drop passed bytes.now)) }
    ensures holds { OnOk result (Holds noise.new) }
    ensures ends { IfOk result (λ passed. end_of noise.new ≡ end_of noise.old + passed) }
{
    let mut passed = 0;
    while let Some(front) = front_of(&bytes[passed..]) {
        passed += add_front(lines, noise, &front, bytes[passed])?;
    }
    Ok(passed)
}

/// Appends the last line: the number of bytes that wait at the end.
pub fn add_rest<A: Allocator>(
    lines: &mut String<A>,
    noise: &mut Noise,
    size: usize,
) -> Result<(), AllocError>
    requires { HasPlaces noise.old size }
    ensures { OnOk result (Tells (puts of_rest size) size noise.old noise.new
        (string_bytes lines.old) (string_bytes lines.new)) }
{
    let at = end_noise(lines, noise, size)?;
    write!(lines, "REST {size}")?;
    add_place(lines, at, size)
}
