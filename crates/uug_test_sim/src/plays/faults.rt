//! Inputs that give little at a time, and streams that fail.

use super::{BROKEN_OFF, SENT_TWICE};
use crate::assertions::{assert_same, assert_same_at};
use crate::streams::{SlowInput, SlowOutput};
use std::alloc::Global;
use std::process::Abort;
use std::test::Fail;
use uug_sim_play::{play_stream, play_within, read_whole};
use uug_stream::{Input, MemoryInput, MemoryOutput, Output, ToolFault, WriteFailed};

/// An input of the script that fails after so many reads.
fn script_in_reads(most: usize, reads: u32) -> SlowInput<'static> {
    SlowInput {
        bytes: BROKEN_OFF.as_bytes(),
        most,
        reads,
        faults: 0,
    }
}

/// What a player makes of an input that comes byte by byte.
fn played_byte_by_byte(output: &mut MemoryOutput<Global>, alloc: Global) -> Result<u8, ToolFault> {
    play_stream(alloc, &mut script_in_reads(1, 1000), output)
}

#[test]
fn plays_what_comes_byte_by_byte(rt: HostRuntime) {
    let mut output = MemoryOutput::new(rt.alloc());
    let result = played_byte_by_byte(&mut output, rt.alloc());
    assert_same(&rt, result, Ok(0));
    assert_same(&rt, output.bytes(), SENT_TWICE.as_bytes());
}

/// Lets each read fail in turn. How many reads it takes.
fn reads_of_a_player(rt: &(impl Abort + AllocGlobal)) -> Result<u32, Fail> {
    for reads in 0..100 {
        let mut output = MemoryOutput::new(rt.alloc());
        let mut input = script_in_reads(10, reads);
        let result = play_stream(rt.alloc(), &mut input, &mut output);
        if input.faults() == 0 {
            assert_same(rt, result, Ok(0));
            return Ok(reads);
        }
        assert_same(rt, result, Err(ToolFault::Read));
        assert_same_at(rt, input.faults(), 1, "read on");
        assert_same(rt, output.bytes().len(), 0);
    }
    Err("a player that is never done".into())
}

/// Refuses each write in turn. How many writes it takes.
fn writes_of_a_player(
    rt: &(impl Abort + AllocGlobal),
    refusal: WriteFailed,
    fault: ToolFault,
) -> Result<u32, Fail> {
    for writes in 0..100 {
        let mut input = MemoryInput::new(BROKEN_OFF.as_bytes());
        let mut output = SlowOutput {
            most: 10,
            writes,
            refusal,
            refused: 0,
            faults: 0,
        };
        let result = play_stream(rt.alloc(), &mut input, &mut output);
        if output.refused == 0 {
            assert_same(rt, result, Ok(0));
            return Ok(writes);
        }
        assert_same(rt, result, Err(fault));
        assert_same_at(rt, output.refused, 1, "wrote on");
    }
    Err("a player that is never done".into())
}

// The script has 118 bytes and the report 290, ten at a time; one read finds the end.
#[test]
fn says_which_stream_failed(rt: HostRuntime) -> Result<(), Fail> {
    assert_same(&rt, BROKEN_OFF.len(), 118);
    assert_same(&rt, SENT_TWICE.len(), 290);
    assert_same(&rt, reads_of_a_player(&rt)?, 13);
    assert_same(
        &rt,
        writes_of_a_player(&rt, WriteFailed::Device, ToolFault::Write)?,
        29,
    );
    assert_same(
        &rt,
        writes_of_a_player(&rt, WriteFailed::Memory, ToolFault::Memory)?,
        29,
    );
    Ok(())
}

// The read that finds the end counts among those that an input may take.
#[test]
fn stops_at_the_limit_of_reads(rt: HostRuntime) -> Result<(), Fail> {
    for (limit, result) in [(12, Err(ToolFault::Device)), (13, Ok(0))] {
        let mut output = MemoryOutput::new(rt.alloc());
        let mut input = script_in_reads(10, 100);
        assert_same(
            &rt,
            play_within(rt.alloc(), &mut input, &mut output, limit),
            result,
        );
    }
    let bytes = read_whole(rt.alloc(), &mut script_in_reads(10, 100), 13)?;
    assert_same(&rt, bytes.as_slice(), BROKEN_OFF.as_bytes());
    Ok(())
}
