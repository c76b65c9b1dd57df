//! The lines of a detailed listing.
ghost use Rattle.std.specs.Prelude.{◌≡◌, ◌+◌, ◌<◌, ◌++◌, ◌∷◌, [], OnOk, string_bytes, true};
ghost use Rattle.std.specs.Char.{digit_char};
ghost use Rattle.uug_packet.specs.Packet.{shown, shown_control};
ghost use Rattle.uug_reader.specs.Cut.{found};
ghost use Rattle.uug_scan.specs.Listing.{HasSize, control_text, data_text, ended, packet_text};
ghost use Rattle.uug_scan.specs.Detailed.{byte_words, entry_line, entry_lines, escaped, is_plain, place_words};
ghost use Rattle.uug_scan.specs.Told.{noise_entries, of_noise, of_packet, of_text, text_size};

use std::alloc::{AllocError, Allocator};
use uug_packet::{Control, Packet, field_size};

/// Appends the place of a line's bytes, which ends the line.
pub fn add_place<A: Allocator>(
    lines: &mut String<A>,
    at: usize,
    size: usize,
) -> Result<(), AllocError>
    ensures { OnOk result
        (string_bytes lines.new ≡ string_bytes lines.old ++ ended (place_words at size)) }
{
    write!(lines, " AT {at} LENGTH {size}\n")
}

/// Appends the words of a control packet.
pub fn add_control<A: Allocator>(lines: &mut String<A>, control: Control) -> Result<(), AllocError>
    ensures { OnOk result
        (string_bytes lines.new ≡ string_bytes lines.old ++ control_text (shown_control control)) }
{
    match control {
        Control::Close => lines.push_str("CLOSE"),
        Control::Rj(y) => write!(lines, "RJ {}", y.value()),
        Control::Srj(y) => write!(lines, "SRJ {}", y.value()),
        Control::Rr(y) => write!(lines, "RR {}", y.value()),
        Control::InitC(y) => write!(lines, "INITC {}", y.value()),
        Control::InitB(y) => write!(lines, "INITB {}", field_size(y.value() + 1)),
        Control::InitA(y) => write!(lines, "INITA {}", y.value()),
    }
}

fn add_data<A: Allocator>(
    lines: &mut String<A>,
    seq: u8,
    ack: u8,
    size: usize,
    valid: usize,
) -> Result<(), AllocError>
    ensures { OnOk result
        (string_bytes lines.new ≡ string_bytes lines.old ++ data_text seq ack size valid) }
{
    write!(lines, "DATA {seq} ACK {ack} SIZE {size} VALID {valid}")
}

/// Appends the words of a packet.
pub fn add_packet<A: Allocator>(
    lines: &mut String<A>,
    packet: &Packet<'_>,
) -> Result<(), AllocError>
    requires { HasSize (found (shown packet.now)) }
    ensures { OnOk result
        (string_bytes lines.new ≡ string_bytes lines.old ++ packet_text (shown packet.now)) }
{
    match packet {
        Packet::Control(control) => add_control(lines, *control),
        Packet::Carry {
            seq,
            ack,
            k,
            message,
        } => add_data(
            lines,
            seq.value(),
            ack.value(),
            field_size(*k),
            message.len(),
        ),
    }
}

/// Appends the line of noise, if it has a byte.
pub fn add_noise<A: Allocator>(
    lines: &mut String<A>,
    at: usize,
    size: usize,
) -> Result<(), AllocError>
    ensures { OnOk result (string_bytes lines.new
        ≡ string_bytes lines.old ++ entry_lines (noise_entries at size)) }
{
    if size == 0 {
        return Ok(());
    }
    write!(lines, "NOISE {size} AT {at} LENGTH {size}\n")
}

fn is_plain(byte: u8) -> bool
    ensures { result ≡ is_plain byte }
{
    (byte.is_ascii_graphic() || byte == b' ') && byte != b'\\'
}

/// Returns the character that writes a digit below 16.
fn hex_digit(digit: u8) -> char
    requires { digit < 16 }
    ensures { result ≡ digit_char digit }
{
    char::from(if digit < 10 {
        b'0' + digit
    } else {
        b'a' - 10 + digit
    })
}

/// Appends an ASCII character.
fn add_char<A: Allocator>(lines: &mut String<A>, ch: char) -> Result<(), AllocError>
    requires { ch < 128 }
    ensures { OnOk result (string_bytes lines.new ≡ string_bytes lines.old ++ (ch ∷ [])) }
{
    lines.push(ch)
}

/// Appends a byte of a text: as it is if it is plain, which only an ASCII character may be, and otherwise in hex.
pub fn add_byte<A: Allocator>(
    lines: &mut String<A>,
    byte: u8,
    plain: bool,
) -> Result<(), AllocError>
    requires { plain ≡ true → byte < 128 }
    ensures { OnOk result
        (string_bytes lines.new ≡ string_bytes lines.old ++ byte_words plain byte) }
{
    if plain {
        return add_char(lines, char::from(byte));
    }
    lines.push_str("\\x")?;
    add_char(lines, hex_digit(byte / 16))?;
    add_char(lines, hex_digit(byte % 16))
}

/// Appends the bytes of a text.
fn add_escaped<A: Allocator>(lines: &mut String<A>, text: &[u8]) -> Result<(), AllocError>
    ensures { OnOk result (string_bytes lines.new ≡ string_bytes lines.old ++ escaped text.now) }
{
    for byte in text {
        add_byte(lines, *byte, is_plain(*byte))?;
    }
    Ok(())
}

/// Appends the line of a handshake text.
pub fn add_text<A: Allocator>(
    lines: &mut String<A>,
    text: &[u8],
    at: usize,
    size: usize,
) -> Result<(), AllocError>
    ensures { OnOk result (string_bytes lines.new ≡ string_bytes lines.old
        ++ entry_line (record { what = of_text text.now; at = at; size = size })) }
{
    lines.push_str("TEXT ")?;
    add_escaped(lines, text)?;
    add_place(lines, at, size)
}
