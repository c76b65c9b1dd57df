//! A ladder as a text.
ghost use Rattle.std.specs.Prelude.{◌≡◌, ◌<◌, ◌++◌, IfOk, OnOk, map, replicate, string_bytes};
ghost use Rattle.uug_sim_ladder.specs.LadderText.{arrow, arrow_left, arrow_right, begins_one, event_cell, event_words, has_arrow, head_lines, in_tip, ladder_text, mark_by, note, rung_lines, rungs_text, tip_left, tip_right};
ghost use Rattle.uug_sim_ladder.specs.Rungs.{ladder_shown, rung_shown, what_shown};

use crate::label::label_of;
use crate::ladder::Ladder;
use crate::rung::{Fate, Rung, What};
use std::alloc::{AllocError, Allocator};
use uug_line::Side;

/// Appends an ASCII character `count` times.
fn add_times<A: Allocator>(
    text: &mut String<A>,
    count: usize,
    character: char,
) -> Result<(), AllocError>
    requires { character < 128 }
    ensures { OnOk result
        (string_bytes text.new ≡ string_bytes text.old ++ replicate count character) }
{
    for _ in 0..count {
        text.push(character)?;
    }
    Ok(())
}

pub(crate) fn event_words<A: Allocator + Copy>(
    alloc: A,
    event: Option<usize>,
) -> Result<String<A>, AllocError>
    ensures { IfOk result (λ words. string_bytes words ≡ event_words event) }
{
    let words = match event {
        Some(number) => format!(in alloc; "{number}")?,
        None => String::from_str(alloc, "start")?,
    };
    Ok(words)
}

/// Appends the number of an event and two spaces.
fn add_event<A: Allocator + Copy>(
    alloc: A,
    text: &mut String<A>,
    event: Option<usize>,
) -> Result<(), AllocError>
    ensures { OnOk result (string_bytes text.new ≡ string_bytes text.old ++ event_cell event) }
{
    let words = event_words(alloc, event)?;
    add_times(text, 5usize.saturating_sub(words.len()), ' ')?;
    text.push_str(&words)?;
    text.push_str("  ")
}

/// Appends the end of an arrow to the right.
fn add_tip<A: Allocator>(text: &mut String<A>, fate: Fate) -> Result<(), AllocError>
    ensures { OnOk result (string_bytes text.new ≡ string_bytes text.old ++ tip_right fate) }
{
    match fate {
        Fate::Arrives(event) => write!(text, "-----------> {event}"),
        Fate::Lost(event) => write!(text, "x {event}"),
        Fate::OnTheWay => text.push_str("..."),
    }
}

/// Appends an arrow from the caller.
fn add_arrow_right<A: Allocator>(
    text: &mut String<A>,
    words: &str,
    fate: Fate,
) -> Result<(), AllocError>
    ensures { OnOk result
        (string_bytes text.new ≡ string_bytes text.old ++ arrow_right words.now fate) }
{
    text.push_str(words)?;
    text.push_str(" ")?;
    add_times(text, 39usize.saturating_sub(words.len()), '-')?;
    add_tip(text, fate)
}

/// Returns the end of an arrow to the left.
fn tip_left<A: Allocator + Copy>(alloc: A, fate: Fate) -> Result<String<A>, AllocError>
    ensures { IfOk result (λ tip. string_bytes tip ≡ tip_left fate) }
{
    let tip = match fate {
        Fate::Arrives(event) => format!(in alloc; "{event} <")?,
        Fate::Lost(event) => format!(in alloc; "{event} x")?,
        Fate::OnTheWay => String::from_str(alloc, "...")?,
    };
    Ok(tip)
}

/// Appends the end of an arrow to the left, and fills its columns.
fn add_in_tip<A: Allocator>(text: &mut String<A>, fate: Fate, tip: &str) -> Result<(), AllocError>
    ensures { OnOk result (string_bytes text.new ≡ string_bytes text.old ++ in_tip fate tip.now) }
{
    let rest = 12usize.saturating_sub(tip.len());
    match fate {
        Fate::Arrives(_) => {
            text.push_str(tip)?;
            add_times(text, rest, '-')
        }
        Fate::Lost(_) | Fate::OnTheWay => {
            add_times(text, rest, ' ')?;
            text.push_str(tip)
        }
    }
}

/// Appends an arrow from the called end.
fn add_arrow_left<A: Allocator + Copy>(
    alloc: A,
    text: &mut String<A>,
    words: &str,
    fate: Fate,
) -> Result<(), AllocError>
    ensures { OnOk result
        (string_bytes text.new ≡ string_bytes text.old ++ arrow_left words.now fate) }
{
    let tip = tip_left(alloc, fate)?;
    add_in_tip(text, fate, &tip)?;
    add_times(text, 40, '-')?;
    text.push_str(" ")?;
    text.push_str(words)
}

fn add_arrow<A: Allocator + Copy>(
    alloc: A,
    text: &mut String<A>,
    side: Side,
    words: &str,
    fate: Fate,
) -> Result<(), AllocError>
    ensures { OnOk result
        (string_bytes text.new ≡ string_bytes text.old ++ arrow side words.now fate) }
{
    match side {
        Side::Caller => add_arrow_right(text, words, fate),
        Side::Called => add_arrow_left(alloc, text, words, fate),
    }
}

/// Appends words at the column of an end.
fn add_note<A: Allocator>(text: &mut String<A>, side: Side, words: &str) -> Result<(), AllocError>
    ensures { OnOk result (string_bytes text.new ≡ string_bytes text.old ++ note side words.now) }
{
    match side {
        Side::Caller => text.push_str(words),
        Side::Called => {
            text.push_str("                                                     ")?;
            text.push_str(words)
        }
    }
}

/// Appends the two lines with which a session begins.
fn add_head<A: Allocator>(text: &mut String<A>, words: &str) -> Result<(), AllocError>
    ensures { OnOk result (string_bytes text.new ≡ string_bytes text.old ++ head_lines words.now) }
{
    text.push_str(words)?;
    text.push_str("\nevent  caller                                               called\n")
}

/// Returns whether the rung is sent, and so has an arrow.
pub(crate) fn has_arrow<A: Allocator>(what: &What<A>) -> bool
    ensures { result ≡ has_arrow (what_shown what.now) }
{
    match what {
        What::Says(_) | What::Sends { .. } => true,
        _ => false,
    }
}

/// Returns whether a session begins.
pub(crate) fn begins_one<A: Allocator>(what: &What<A>) -> bool
    ensures { result ≡ begins_one (what_shown what.now) }
{
    match what {
        What::Begins(_) => true,
        _ => false,
    }
}

fn add_mark<A: Allocator + Copy>(
    alloc: A,
    text: &mut String<A>,
    has_arrow: bool,
    side: Side,
    words: &str,
    fate: Fate,
) -> Result<(), AllocError>
    ensures { OnOk result
        (string_bytes text.new ≡ string_bytes text.old ++ mark_by has_arrow side words.now fate) }
{
    if has_arrow {
        add_arrow(alloc, text, side, words, fate)
    } else {
        add_note(text, side, words)
    }
}

/// Appends the line of a rung, or the two lines of one with which a session begins.
fn add_rung<A: Allocator + Copy, B: Allocator>(
    alloc: A,
    text: &mut String<A>,
    rung: &Rung<B>,
    fate: Fate,
) -> Result<(), AllocError>
    ensures { OnOk result
        (string_bytes text.new ≡ string_bytes text.old ++ rung_lines (rung_shown rung.now) fate) }
{
    let words = label_of(alloc, &rung.what)?;
    if begins_one(&rung.what) {
        return add_head(text, &words);
    }
    add_event(alloc, text, rung.event)?;
    add_mark(alloc, text, has_arrow(&rung.what), rung.side, &words, fate)?;
    text.push_str("\n")
}

fn add_rungs<A: Allocator + Copy, B: Allocator>(
    alloc: A,
    text: &mut String<A>,
    rungs: &[Rung<B>],
    fates: &[Fate],
) -> Result<(), AllocError>
    ensures { OnOk result (string_bytes text.new
        ≡ string_bytes text.old ++ rungs_text (map rung_shown rungs.now) fates.now) }
{
    for (i, rung) in rungs.iter().enumerate() {
        if i >= fates.len() {
            return Ok(());
        }
        add_rung(alloc, text, rung, fates[i])?;
    }
    Ok(())
}

/// Appends the text of a ladder.
pub fn add_ladder<A: Allocator + Copy, B: Allocator>(
    alloc: A,
    text: &mut String<A>,
    ladder: &Ladder<B>,
) -> Result<(), AllocError>
    ensures { OnOk result
        (string_bytes text.new ≡ string_bytes text.old ++ ladder_text (ladder_shown ladder.now)) }
{
    add_rungs(
        alloc,
        text,
        ladder.rungs.as_slice(),
        ladder.fates.as_slice(),
    )
}
