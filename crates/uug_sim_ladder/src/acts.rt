//! Draws what an end does.
ghost use Rattle.std.specs.Prelude.{◌≡◌, ◌==◌, drop, OnOk, Some};
ghost use Rattle.uug_line.specs.Shown.{lists_in};
ghost use Rattle.uug_sim_ladder.specs.Acts.{acts, added_if, comes_to, emits, end_kept, is_hailing, is_other, new_on, notes, puts, says_texts, sends_packet, sends_packets, text_by, text_byte, without};
ghost use Rattle.uug_sim_ladder.specs.Rungs.{ladder_shown, what_shown};

use crate::end::{DrawnEnd, is_repeat, next_behind};
use crate::ladder::Ladder;
use crate::moment::Mark;
use crate::rung::What;
use crate::way::add_bytes;
use std::alloc::{AllocError, Allocator};
use uug_line::Side;
use uug_session::{Phase, phase_word};

/// Draws something that an end sends, with these bytes.
fn put<A: Allocator>(
    ladder: &mut Ladder<A>,
    end: &mut DrawnEnd<A>,
    event: Option<usize>,
    side: Side,
    what: What<A>,
    bytes: &[u8],
) -> Result<(), AllocError>
    ensures { OnOk result (record { ladder = ladder_shown ladder.new; end = end_kept end.new }
        ≡ puts event side (what_shown what) bytes.now
        (record { ladder = ladder_shown ladder.old; end = end_kept end.old })) }
{
    let place = ladder.rungs.len();
    ladder.add(event, side, what)?;
    add_bytes(&mut end.way, place, bytes)
}

/// Draws a text once it is complete.
fn say_if<A: Allocator + Copy>(
    alloc: A,
    ladder: &mut Ladder<A>,
    end: &mut DrawnEnd<A>,
    event: Option<usize>,
    side: Side,
    text: &mut Vec<u8, A>,
    is_whole: bool,
) -> Result<(), AllocError>
    ensures { OnOk result (record {
      text = text.new.items;
      drawn = record { ladder = ladder_shown ladder.new; end = end_kept end.new };
    }
        ≡ text_by is_whole event side text.old.items
        (record { ladder = ladder_shown ladder.old; end = end_kept end.old })) }
{
    if !is_whole {
        return Ok(());
    }
    let what = What::Says(text.as_slice().to_vec(alloc)?);
    put(ladder, end, event, side, what, text.as_slice())?;
    text.clear();
    Ok(())
}

/// Draws one more byte of a text, which a zero byte ends.
fn say_byte<A: Allocator + Copy>(
    alloc: A,
    ladder: &mut Ladder<A>,
    end: &mut DrawnEnd<A>,
    event: Option<usize>,
    side: Side,
    text: &mut Vec<u8, A>,
    byte: u8,
) -> Result<(), AllocError>
    ensures { OnOk result (record {
      text = text.new.items;
      drawn = record { ladder = ladder_shown ladder.new; end = end_kept end.new };
    }
        ≡ text_byte event side byte (record {
          text = text.old.items;
          drawn = record { ladder = ladder_shown ladder.old; end = end_kept end.old };
        })) }
{
    text.push(byte)?;
    say_if(alloc, ladder, end, event, side, text, byte == 0)
}

/// Draws the texts that an end sends as these bytes.
pub(crate) fn say<A: Allocator + Copy>(
    alloc: A,
    ladder: &mut Ladder<A>,
    end: &mut DrawnEnd<A>,
    event: Option<usize>,
    side: Side,
    bytes: &[u8],
) -> Result<(), AllocError>
    ensures { OnOk result (record { ladder = ladder_shown ladder.new; end = end_kept end.new }
        ≡ says_texts event side bytes.now
        (record { ladder = ladder_shown ladder.old; end = end_kept end.old })) }
{
    let mut text = Vec::new(alloc);
    for byte in bytes {
        say_byte(alloc, ladder, end, event, side, &mut text, *byte)?;
    }
    Ok(())
}

/// Draws a packet that an end sends.
fn send<A: Allocator + Copy>(
    alloc: A,
    ladder: &mut Ladder<A>,
    end: &mut DrawnEnd<A>,
    event: usize,
    side: Side,
    packet: &[u8],
) -> Result<(), AllocError>
    ensures { OnOk result (record { ladder = ladder_shown ladder.new; end = end_kept end.new }
        ≡ sends_packet event side packet.now
        (record { ladder = ladder_shown ladder.old; end = end_kept end.old })) }
{
    let what = What::Sends {
        packet: packet.to_vec(alloc)?,
        again: is_repeat(end.next, packet),
    };
    put(ladder, end, Some(event), side, what, packet)?;
    end.next = next_behind(end.next, packet);
    Ok(())
}

/// Draws the packets that an end sends.
fn send_all<A: Allocator + Copy>(
    alloc: A,
    ladder: &mut Ladder<A>,
    end: &mut DrawnEnd<A>,
    event: usize,
    side: Side,
    packets: &[Vec<u8, A>],
) -> Result<(), AllocError>
    ensures { OnOk result (record { ladder = ladder_shown ladder.new; end = end_kept end.new }
        ≡ sends_packets event side (lists_in packets.now)
        (record { ladder = ladder_shown ladder.old; end = end_kept end.old })) }
{
    for packet in packets {
        send(alloc, ladder, end, event, side, packet.as_slice())?;
    }
    Ok(())
}

/// Returns the bytes without the last ones, as many as the packets have.
fn without<'a, A: Allocator>(packets: &[Vec<u8, A>], bytes: &'a [u8]) -> &'a [u8]
    ensures { result.now ≡ without (lists_in packets.now) bytes.now }
{
    let mut rest = bytes;
    for packet in packets {
        rest = &rest[..rest.len().saturating_sub(packet.as_slice().len())];
    }
    rest
}

/// Returns the bytes on the line after those that are on the way already.
fn new_on<'a, A: Allocator>(line: &'a [u8], end: &DrawnEnd<A>) -> &'a [u8]
    ensures { result.now ≡ new_on line.now end.now.way.items }
{
    &line[end.way.len().min(line.len())..]
}

fn is_hailing(phase: Phase) -> bool
    ensures { result ≡ is_hailing phase }
{
    matches!(phase, Phase::Hail)
}

/// Draws what an end sends at an event: in its greeting texts before packets, and otherwise after them.
fn emit<A: Allocator + Copy>(
    alloc: A,
    ladder: &mut Ladder<A>,
    end: &mut DrawnEnd<A>,
    at: (usize, Side),
    is_hailing: bool,
    packets: &[Vec<u8, A>],
    line: &[u8],
) -> Result<(), AllocError>
    ensures { OnOk result (record { ladder = ladder_shown ladder.new; end = end_kept end.new }
        ≡ emits is_hailing at.0 at.1 (lists_in packets.now) line.now
        (record { ladder = ladder_shown ladder.old; end = end_kept end.old })) }
{
    let (event, side) = at;
    if is_hailing {
        let texts = without(packets, new_on(line, end));
        say(alloc, ladder, end, Some(event), side, texts)?;
        return send_all(alloc, ladder, end, event, side, packets);
    }
    send_all(alloc, ladder, end, event, side, packets)?;
    say(alloc, ladder, end, Some(event), side, new_on(line, end))
}

fn add_if<A: Allocator>(
    ladder: &mut Ladder<A>,
    is: bool,
    at: (usize, Side),
    what: What<A>,
) -> Result<(), AllocError>
    ensures { OnOk result (ladder_shown ladder.new
        ≡ added_if is at.0 at.1 (what_shown what) (ladder_shown ladder.old)) }
{
    if is {
        ladder.add(Some(at.0), at.1, what)?;
    }
    Ok(())
}

/// Draws the counts of an end that have grown: messages taken, files stored, jobs done and jobs given up.
fn note<A: Allocator>(
    ladder: &mut Ladder<A>,
    at: (usize, Side),
    before: Mark,
    after: Mark,
) -> Result<(), AllocError>
    ensures { OnOk result (ladder_shown ladder.new
        ≡ notes at.0 at.1 before after (ladder_shown ladder.old)) }
{
    let (taken, stored) = (after.taken, after.stored);
    let (struck, failed) = (after.struck, after.failed);
    add_if(ladder, before.taken < taken, at, What::Takes(taken))?;
    add_if(ladder, before.stored < stored, at, What::Stores(stored))?;
    add_if(ladder, before.struck < struck, at, What::Strikes(struck))?;
    add_if(ladder, before.failed < failed, at, What::Fails(failed))
}

fn is_other(before: Phase, after: Phase) -> bool
    ensures { result ≡ is_other before after }
{
    phase_word(before) != phase_word(after)
}

/// Draws the phase that the session of an end reaches, if it is another one.
pub(crate) fn come<A: Allocator>(
    ladder: &mut Ladder<A>,
    at: (usize, Side),
    before: Phase,
    after: Phase,
) -> Result<(), AllocError>
    ensures { OnOk result (ladder_shown ladder.new
        ≡ comes_to at.0 at.1 before after (ladder_shown ladder.old)) }
{
    add_if(ladder, is_other(before, after), at, What::Comes(after))
}

/// Returns the packets after the first `count` ones, or none if there are fewer.
fn behind<A: Allocator>(packets: &[Vec<u8, A>], count: usize) -> &[Vec<u8, A>]
    ensures { lists_in result.now ≡ drop count (lists_in packets.now) }
{
    &packets[count.min(packets.len())..]
}

/// Draws all that an end does at an event. `packets` are those that it has sent in the session, and `line` is what is
/// on the line from it.
pub(crate) fn act<A: Allocator + Copy>(
    alloc: A,
    ladder: &mut Ladder<A>,
    end: &mut DrawnEnd<A>,
    at: (usize, Side),
    marks: (Mark, Mark),
    packets: &[Vec<u8, A>],
    line: &[u8],
) -> Result<(), AllocError>
    ensures { OnOk result (record { ladder = ladder_shown ladder.new; end = end_kept end.new }
        ≡ acts at.0 at.1 marks.0 marks.1 (lists_in packets.now) line.now
        (record { ladder = ladder_shown ladder.old; end = end_kept end.old })) }
{
    let (before, after) = marks;
    note(ladder, at, before, after)?;
    let new = behind(packets, before.packets);
    let hails = is_hailing(before.phase);
    emit(alloc, ladder, end, at, hails, new, line)?;
    come(ladder, at, before.phase, after.phase)
}
