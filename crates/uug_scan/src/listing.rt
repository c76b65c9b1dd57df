ghost use Rattle.std.specs.Prelude.{◌≡◌, ◌++◌, OnOk, string_bytes};
ghost use Rattle.uug_packet.specs.Packet.{shown, shown_control};
ghost use Rattle.uug_reader.specs.Cut.{found};
ghost use Rattle.uug_reader.specs.Shown.{item_of};
ghost use Rattle.uug_scan.specs.Listing.{line_of, control_text, data_text, ended, waiting_line, HasSize};

use std::alloc::{AllocError, Allocator};
use uug_packet::{Control, Packet, field_size};
use uug_reader::Found;

/// Appends the line of a control packet.
fn add_control_line<A: Allocator>(lines: &mut String<A>, control: Control) -> Result<(), AllocError>
    ensures { OnOk result
        (string_bytes lines.new
        ≡ string_bytes lines.old ++ ended (control_text (shown_control control))) }
{
    match control {
        Control::Close => lines.push_str("CLOSE\n"),
        Control::Rj(y) => write!(lines, "RJ {}\n", y.value()),
        Control::Srj(y) => write!(lines, "SRJ {}\n", y.value()),
        Control::Rr(y) => write!(lines, "RR {}\n", y.value()),
        Control::InitC(y) => write!(lines, "INITC {}\n", y.value()),
        Control::InitB(y) => write!(lines, "INITB {}\n", field_size(y.value() + 1)),
        Control::InitA(y) => write!(lines, "INITA {}\n", y.value()),
    }
}

/// Appends the line of a data packet.
fn add_data_line<A: Allocator>(
    lines: &mut String<A>,
    seq: u8,
    ack: u8,
    size: usize,
    valid: usize,
) -> Result<(), AllocError>
    ensures { OnOk result
        (string_bytes lines.new ≡ string_bytes lines.old ++ ended (data_text seq ack size valid)) }
{
    write!(lines, "DATA {seq} ACK {ack} SIZE {size} VALID {valid}\n")
}

/// Appends the line of a packet that was found.
fn add_packet_line<A: Allocator>(
    lines: &mut String<A>,
    packet: &Packet<'_>,
) -> Result<(), AllocError>
    requires { HasSize (found (shown packet.now)) }
    ensures { OnOk result
        (string_bytes lines.new ≡ string_bytes lines.old ++ line_of (found (shown packet.now))) }
{
    match packet {
        Packet::Control(control) => add_control_line(lines, *control),
        Packet::Carry {
            seq,
            ack,
            k,
            message,
        } => add_data_line(
            lines,
            seq.value(),
            ack.value(),
            field_size(*k),
            message.len(),
        ),
    }
}

/// Appends the line of what was found.
pub fn add_line<A: Allocator>(lines: &mut String<A>, found: &Found<'_>) -> Result<(), AllocError>
    requires { HasSize (item_of found.now) }
    ensures { OnOk result
        (string_bytes lines.new ≡ string_bytes lines.old ++ line_of (item_of found.now)) }
{
    match found {
        Found::Packet(packet) => add_packet_line(lines, packet),
        Found::Bad => lines.push_str("BAD\n"),
    }
}

/// Appends the last line of a listing: the number of bytes that wait at the end.
pub fn add_rest_line<A: Allocator>(lines: &mut String<A>, waiting: usize) -> Result<(), AllocError>
    ensures { OnOk result
        (string_bytes lines.new ≡ string_bytes lines.old ++ waiting_line waiting) }
{
    write!(lines, "REST {waiting}\n")
}
