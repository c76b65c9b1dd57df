//! The words for what was heard from the other end, if a session ended badly.
ghost use Rattle.std.specs.Prelude.{◌≡◌, ◌≤◌, ◌++◌, IfOk, OnOk, length, string_bytes};
ghost use Rattle.uug_error_text.specs.HeardWords.{answering_hint, end_words, expected_words, gone_behind_words, gone_hint, gone_words, heard_remark, hint_words, line_ends, line_with, noise_hint, noise_words, nothing_words, other_words, protocols_words, refusal_words, refused_words, shown, unanswered_words};

use crate::jobs::add_quoted;
use std::alloc::{AllocError, Allocator};
use uug_session::{End, Side};

/// The bytes that were heard.
#[derive(Clone, Copy, Debug, PartialEq, Eq)]
pub enum Heard<'a> {
    /// No byte.
    Nothing,
    /// The number of bytes, and the first of them. They contain no text.
    Noise(u64, &'a [u8]),
    /// The last text.
    Text(&'a [u8]),
}

/// Returns a line for standard error with what was heard in a session of this end that ended in this way. This end
/// called `peer`, or waited for a call from it. If `peer` is empty, it waited for any system of its spool. The line is
/// empty if what was heard does not explain how the session ended.
pub fn heard_remark<A: Allocator + Copy>(
    alloc: A,
    side: Side,
    end: End,
    peer: &str,
    heard: Heard<'_>,
) -> Result<String<A>, AllocError>
    ensures { IfOk result (λ remark.
        string_bytes remark ≡ heard_remark side end peer.now (shown heard.entry)) }
{
    let mut words = String::new(alloc);
    add_end(&mut words, side, end, peer, heard)?;
    line_with(alloc, words)
}

/// Returns the line with these words, or an empty one if there are none.
fn line_with<A: Allocator>(alloc: A, words: String<A>) -> Result<String<A>, AllocError>
    ensures { IfOk result (λ line. string_bytes line ≡ line_with (string_bytes words)) }
{
    if words.is_empty() {
        return Ok(words);
    }
    let words = words.as_str();
    format!(in alloc; "uucpair: {words}\n")
}

/// Appends what was heard, and what it says about the end of the session.
fn add_end<A: Allocator>(
    text: &mut String<A>,
    side: Side,
    end: End,
    peer: &str,
    heard: Heard<'_>,
) -> Result<(), AllocError>
    ensures { OnOk result (string_bytes text.new
        ≡ string_bytes text.old ++ end_words side end peer.now (shown heard.entry)) }
{
    match (end, heard) {
        (End::WrongName, Heard::Text(said)) => add_other(text, said, peer),
        (End::Refused, Heard::Text(said)) => add_refused(text, side, said, peer),
        (End::NoProtocol, Heard::Text(said)) => add_protocols(text, said),
        (End::GaveUp, Heard::Noise(count, bytes)) => add_noise(text, count, bytes),
        (End::HungUp, Heard::Noise(count, bytes)) => add_noise(text, count, bytes),
        (End::HungUp, Heard::Nothing) => text.push_str(gone_words(side)),
        (End::HungUp, Heard::Text(said)) => add_gone(text, side, said),
        (End::GaveUp, Heard::Nothing) => text.push_str(nothing_words(side)),
        (End::GaveUp, Heard::Text(said)) => add_unanswered(text, said),
        (End::PeerClosed, _) => text.push_str(
            "the other end ended the session early (it may not have stored a file: see what it says)",
        ),
        _ => Ok(()),
    }
}

/// Appends this text of an end that is not `peer`, or of a system that the spool does not know.
fn add_other<A: Allocator>(text: &mut String<A>, said: &[u8], peer: &str) -> Result<(), AllocError>
    ensures { OnOk result
        (string_bytes text.new ≡ string_bytes text.old ++ other_words said.now peer.now) }
{
    text.push_str("heard ")?;
    add_quoted(text, said)?;
    add_expected(text, peer)
}

/// Appends which end was expected: `peer`, or one that the spool knows.
fn add_expected<A: Allocator>(text: &mut String<A>, peer: &str) -> Result<(), AllocError>
    ensures { OnOk result
        (string_bytes text.new ≡ string_bytes text.old ++ expected_words peer.now) }
{
    if peer.is_empty() {
        return text.push_str(", but the spool has no folder for that system");
    }
    text.push_str(", expected ")?;
    add_quoted(text, peer.as_bytes())
}

/// Appends how the other end refused the call, or whom this end refused.
fn add_refused<A: Allocator>(
    text: &mut String<A>,
    side: Side,
    said: &[u8],
    peer: &str,
) -> Result<(), AllocError>
    ensures { OnOk result (string_bytes text.new
        ≡ string_bytes text.old ++ refused_words side said.now peer.now) }
{
    match side {
        Side::Caller => add_refusal(text, said, hint_words(said)),
        Side::Called => {
            add_other(text, said, peer)?;
            text.push_str(answering_hint(said))
        }
    }
}

/// Returns the hint about a caller that talks like a called end.
fn answering_hint(said: &[u8]) -> &'static str
    ensures { result.now ≡ answering_hint said.now }
{
    if said.starts_with(b"Shere") || said.starts_with(b"R") {
        " (both ends answer, and one has to call; or a terminal echoes: stty raw -echo)"
    } else {
        ""
    }
}

/// Appends how the other end refused the call, and what that means.
fn add_refusal<A: Allocator>(
    text: &mut String<A>,
    said: &[u8],
    hint: &str,
) -> Result<(), AllocError>
    ensures { OnOk result
        (string_bytes text.new ≡ string_bytes text.old ++ refusal_words said.now hint.now) }
{
    text.push_str("the other end refused: ")?;
    add_quoted(text, said)?;
    text.push_str(hint)
}

/// Appends that the other end's protocols do not include g.
fn add_protocols<A: Allocator>(text: &mut String<A>, said: &[u8]) -> Result<(), AllocError>
    ensures { OnOk result
        (string_bytes text.new ≡ string_bytes text.old ++ protocols_words said.now) }
{
    text.push_str("no protocol g: heard ")?;
    add_quoted(text, said)
}

/// Returns the words for a session in which no byte was heard, with what to check.
fn nothing_words(side: Side) -> &'static str
    ensures { result.now ≡ nothing_words side }
{
    match side {
        Side::Caller => {
            "heard nothing (is the other end answering? a terminal has to be raw: stty raw -echo)"
        }
        Side::Called => {
            "heard nothing (is the other end calling? a terminal has to be raw: stty raw -echo)"
        }
    }
}

/// Returns the words for an end that hung up before it said anything, with what that may mean.
fn gone_words(side: Side) -> &'static str
    ensures { result.now ≡ gone_words side }
{
    match side {
        Side::Caller => {
            "the other end hung up, and said nothing (no uucico or uucpair answers there, or it turns this machine away)"
        }
        Side::Called => {
            "the caller hung up, and said nothing (it may expect a name other than --me)"
        }
    }
}

/// Appends that this text was heard, and that the other end then hung up.
fn add_gone<A: Allocator>(text: &mut String<A>, side: Side, said: &[u8]) -> Result<(), AllocError>
    ensures { OnOk result
        (string_bytes text.new ≡ string_bytes text.old ++ gone_behind_words side said.now) }
{
    text.push_str("heard ")?;
    add_quoted(text, said)?;
    text.push_str(gone_hint(side, said))
}

/// Returns the words for an end that hung up in the greeting after this text, with what that may mean.
fn gone_hint(side: Side, said: &[u8]) -> &'static str
    ensures { result.now ≡ gone_hint side said.now }
{
    match side {
        Side::Caller if said.starts_with(b"Shere") => {
            ", and then it hung up (it may not know the name of this end)"
        }
        Side::Caller => ", and then it hung up",
        Side::Called => ", and then the caller hung up (it may lack protocol g)",
    }
}

/// Appends that this text was heard, but no answer to this end's next text.
fn add_unanswered<A: Allocator>(text: &mut String<A>, said: &[u8]) -> Result<(), AllocError>
    ensures { OnOk result
        (string_bytes text.new ≡ string_bytes text.old ++ unanswered_words said.now) }
{
    text.push_str("heard ")?;
    add_quoted(text, said)?;
    text.push_str(
        ", and then no answer (a terminal has to be raw: stty raw -echo, at the other end too)",
    )
}

/// Returns what a known refusal means.
fn hint_words(said: &[u8]) -> &'static str
    ensures { result.now ≡ hint_words said.now }
{
    if said == b"RLCK".as_slice() {
        " (it is busy: call later)"
    } else if said == b"RLOGIN".as_slice() {
        " (it does not admit the name of --me, or not with this login)"
    } else if said == b"RYou are unknown to me".as_slice() {
        " (it does not know the name of this end)"
    } else if said == b"RCB".as_slice() {
        " (it will call back)"
    } else {
        ""
    }
}

/// Appends that bytes without a text were heard.
fn add_noise<A: Allocator>(text: &mut String<A>, count: u64, bytes: &[u8]) -> Result<(), AllocError>
    ensures { OnOk result
        (string_bytes text.new ≡ string_bytes text.old ++ noise_words count bytes.now) }
{
    write!(text, "heard {count} bytes and no text: ")?;
    add_quoted(text, bytes)?;
    text.push_str(noise_hint(bytes))
}

/// Returns the hint about bytes that are only line ends, or that a terminal has echoed. A terminal echoes the byte
/// before a text, 0x10, as `^P`.
fn noise_hint(bytes: &[u8]) -> &'static str
    ensures { result.now ≡ noise_hint bytes.now }
{
    let (ends, rest) = bytes.split_at(line_ends(bytes));
    if !ends.is_empty() && rest.is_empty() {
        " (only line breaks: both ends call, or a terminal is not raw: stty raw -echo)"
    } else if rest.starts_with(b"^P") {
        " (a terminal echoes: stty raw -echo, at the other end too)"
    } else {
        ""
    }
}

/// Returns the number of bytes of line ends at the front.
fn line_ends(bytes: &[u8]) -> usize
    ensures value { result ≡ line_ends bytes.now }
    ensures fits { result ≤ length bytes.now }
{
    bytes
        .iter()
        .take_while(|b| **b == b'\r' || **b == b'\n')
        .count()
}
