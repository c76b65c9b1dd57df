//! Ladders of scripts. The tests catch beyond the clauses a wrong definition of the fate of what is sent.

use crate::assertions::{assert_same, assert_same_at};
use std::alloc::Global;
use std::process::Abort;
use std::test::Fail;
use uug_sim_ladder::{draw, play_ladder};
use uug_stream::{MemoryInput, MemoryOutput, ToolFault};
use uug_test_alloc::Refusing;

/// Events while the called end sends its name, and the lines of the ladder.
const TEXTS: [(&str, &str); 8] = [
    (
        "",
        "start           ...---------------------------------------- TEXT Shere=b\n",
    ),
    (
        "pass caller 8\n",
        "start           ...---------------------------------------- TEXT Shere=b\n",
    ),
    // a byte is changed, or one that none is
    (
        "flip caller 01\npass caller 100\n",
        "start           0 x---------------------------------------- TEXT Shere=b\n",
    ),
    (
        "pass caller 8\nflip caller 80\npass caller 100\n",
        "start           1 x---------------------------------------- TEXT Shere=b\n",
    ),
    // a byte is put into it
    (
        "pass caller 8\ninsert caller 41\npass caller 100\n",
        "start           1 x---------------------------------------- TEXT Shere=b\n\
         \x20   2  wrongname\n",
    ),
    // a part is lost; what is lost already is not lost again
    (
        "pass caller 2\ndrop caller 2\npass caller 2\ndrop caller 100\n",
        "start           1 x---------------------------------------- TEXT Shere=b\n",
    ),
    (
        "pass caller 2\ntimeout called\nhangup called\n",
        "start           ...---------------------------------------- TEXT Shere=b\n\
         \x20   1                                                       timeout\n\
         \x20   2                                                       hangup\n\
         \x20   2                                                       hungup\n",
    ),
    // the line breaks
    (
        "call\n",
        "start           0 x---------------------------------------- TEXT Shere=b\n\
         \x20   0  hungup\n\
         \x20   0                                                       hungup\n\
         session 2\n\
         event  caller                                               called\n\
         \x20   0           ...---------------------------------------- TEXT Shere=b\n",
    ),
];

/// Two ends with nothing to do.
const ENDS: &str = "caller a 2 32\ncalled b 2 32\n";

/// The head of a session.
const HEAD: &str =
    "session 1\nevent  caller                                               called\n";

/// Returns the lines after the head, for the ends under these events.
fn lines_of(rt: &impl Abort, alloc: Global, events: &str) -> Result<String<Global>, Fail> {
    let script = format!(in alloc; "{ENDS}{events}")?;
    let mut output = MemoryOutput::new(alloc);
    let mut input = MemoryInput::new(script.as_bytes());
    assert_same_at(
        rt,
        play_ladder(alloc, &mut input, &mut output),
        Ok(1),
        events,
    );
    let written = str::from_utf8(output.bytes())?;
    let (_, lines) = written.split_once(HEAD).ok_or("a head")?;
    Ok(String::from_str(alloc, lines)?)
}

#[test]
fn draws_what_becomes_of_a_text(rt: HostRuntime) -> Result<(), Fail> {
    for (events, lines) in TEXTS {
        let seen = lines_of(&rt, rt.alloc(), events)?;
        assert_same_at(&rt, seen.as_str(), lines, events);
    }
    Ok(())
}

/// Returns a script with this many events.
fn long(alloc: Global, events: usize) -> Result<String<Global>, Fail> {
    let mut script = String::from_str(alloc, ENDS)?;
    for _ in 0..events {
        script.push_str("pass caller 0\n")?;
    }
    Ok(script)
}

/// Returns the number of rungs in the ladder of a script with this many events.
fn rungs(alloc: Global, events: usize) -> Result<usize, Fail> {
    let script = long(alloc, events)?;
    Ok(draw(alloc, script.as_bytes())?.rungs.len())
}

#[test]
fn draws_a_long_script(rt: HostRuntime) -> Result<(), Fail> {
    assert_same(&rt, rungs(rt.alloc(), 2_000)?, 2);
    Ok(())
}

/// Draws the ladder with a heap that refuses the nth request. Returns the result, whether a request was refused, and
/// the number of bytes written.
fn draw_within(alloc: Global, nth: u64) -> (Result<u8, ToolFault>, bool, usize) {
    let heap = Refusing::new(alloc, nth);
    let mut output = MemoryOutput::new(alloc);
    let mut input = MemoryInput::new(ENDS.as_bytes());
    let result = play_ladder(&heap, &mut input, &mut output);
    (result, heap.was_refused(), output.bytes().len())
}

/// Refuses each request in turn, and asserts that nothing is written then. Returns the number of requests.
fn requests(rt: &impl Abort, alloc: Global) -> Result<u64, Fail> {
    for nth in 1..10_000 {
        let (result, was_refused, written) = draw_within(alloc, nth);
        if !was_refused {
            assert_same(rt, result, Ok(1));
            return Ok(nth - 1);
        }
        assert_same_at(rt, result, Err(ToolFault::Memory), nth);
        assert_same_at(rt, written, 0, nth);
    }
    Err("a ladder that is never drawn".into())
}

#[test]
fn passes_on_want_of_memory(rt: HostRuntime) -> Result<(), Fail> {
    assert_same(&rt, requests(&rt, rt.alloc())? > 20, true);
    Ok(())
}
