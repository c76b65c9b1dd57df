//! The label of a rung, in words.
ghost use Rattle.std.specs.Prelude.{◌≡◌, ◌++◌, OnOk, IfOk, string_bytes};
ghost use Rattle.uug_packet.specs.Decoded.{decoded};
ghost use Rattle.uug_sim_ladder.specs.Labels.{again_word, data_words, escaped, inside, is_markup, is_plain, label, packet_words};
ghost use Rattle.uug_sim_ladder.specs.Rungs.{what_shown};

use crate::rung::What;
use std::alloc::{AllocError, Allocator};
use uug_packet::{Packet, decode};
use uug_scan::{add_byte, add_control};
use uug_session::phase_word;

fn add_data<A: Allocator>(
    text: &mut String<A>,
    seq: u8,
    ack: u8,
    valid: usize,
) -> Result<(), AllocError>
    ensures { OnOk result
        (string_bytes text.new ≡ string_bytes text.old ++ data_words seq ack valid) }
{
    write!(text, "DATA {seq} ACK {ack} VALID {valid}")
}

fn add_packet<A: Allocator>(text: &mut String<A>, bytes: &[u8]) -> Result<(), AllocError>
    ensures { OnOk result
        (string_bytes text.new ≡ string_bytes text.old ++ packet_words (decoded bytes.now)) }
{
    match decode(bytes) {
        Ok((Packet::Control(control), _)) => add_control(text, control),
        Ok(
            (
                Packet::Carry {
                    seq,
                    ack,
                    message,
                    ..
                },
                _,
            ),
        ) => add_data(text, seq.value(), ack.value(), message.len()),
        Err(_) => text.push_str("BAD"),
    }
}

fn is_markup(byte: u8) -> bool
    ensures { result ≡ is_markup byte }
{
    byte == b'\\' || byte == b'<' || byte == b'>' || byte == b'&'
}

/// Returns whether a byte of a text is written as it is: it can stand in a page of markup, too.
fn is_plain(byte: u8) -> bool
    ensures { result ≡ is_plain byte }
{
    (byte.is_ascii_graphic() || byte == b' ') && !is_markup(byte)
}

/// Appends the bytes of a text.
fn add_escaped<A: Allocator>(text: &mut String<A>, bytes: &[u8]) -> Result<(), AllocError>
    ensures { OnOk result (string_bytes text.new ≡ string_bytes text.old ++ escaped bytes.now) }
{
    for byte in bytes {
        add_byte(text, *byte, is_plain(*byte))?;
    }
    Ok(())
}

/// Returns a text without its frame.
fn inside(written: &[u8]) -> &[u8]
    ensures { result.now ≡ inside written.now }
{
    let behind = &written[1.min(written.len())..];
    &behind[..written.len().saturating_sub(2)]
}

/// Appends a text without its frame.
fn add_text<A: Allocator>(text: &mut String<A>, written: &[u8]) -> Result<(), AllocError>
    ensures { OnOk result
        (string_bytes text.new ≡ string_bytes text.old ++ escaped (inside written.now)) }
{
    add_escaped(text, inside(written))
}

fn again_word(again: bool) -> &'static str
    ensures { result.now ≡ again_word again }
{
    if again { " again" } else { "" }
}

/// Appends the label of a rung.
pub fn add_label<A: Allocator, B: Allocator>(
    text: &mut String<A>,
    what: &What<B>,
) -> Result<(), AllocError>
    ensures { OnOk result
        (string_bytes text.new ≡ string_bytes text.old ++ label (what_shown what.now)) }
{
    match what {
        What::Begins(number) => write!(text, "session {number}"),
        What::Says(written) => {
            text.push_str("TEXT ")?;
            add_text(text, written.as_slice())
        }
        What::Sends { packet, again } => {
            add_packet(text, packet.as_slice())?;
            text.push_str(again_word(*again))
        }
        What::TimesOut => text.push_str("timeout"),
        What::HangsUp => text.push_str("hangup"),
        What::Takes(count) => write!(text, "taken {count}"),
        What::Stores(count) => write!(text, "stored {count}"),
        What::Strikes(count) => write!(text, "struck {count}"),
        What::Fails(count) => write!(text, "failed {count}"),
        What::Comes(phase) => text.push_str(phase_word(*phase)),
    }
}

/// Returns the label of a rung.
pub(crate) fn label_of<A: Allocator + Copy, B: Allocator>(
    alloc: A,
    what: &What<B>,
) -> Result<String<A>, AllocError>
    ensures { IfOk result (λ text. string_bytes text ≡ label (what_shown what.now)) }
{
    let mut text = String::new(alloc);
    add_label(&mut text, what)?;
    Ok(text)
}
