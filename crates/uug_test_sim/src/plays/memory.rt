//! Each request for memory refused in turn.

use super::{NUMBERED, SENT_NUMBERED};
use crate::assertions::{assert_same, assert_same_at, assert_so_at};
use std::alloc::Global;
use std::process::Abort;
use std::test::Fail;
use uug_line::{RunFault, run};
use uug_sim_play::play_stream;
use uug_sim_script::read_script;
use uug_stream::{MemoryInput, MemoryOutput, ToolFault};
use uug_test_alloc::Refusing;

/// Refuses each request of a player in turn, which then never writes. How many requests it makes.
fn requests_of_a_player(rt: &impl Abort, alloc: Global) -> Result<u64, Fail> {
    for nth in 1..10_000 {
        let heap = Refusing::new(alloc, nth);
        let mut output = MemoryOutput::new(alloc);
        let result = play_stream(
            &heap,
            &mut MemoryInput::new(NUMBERED.as_bytes()),
            &mut output,
        );
        if !heap.was_refused() {
            assert_same(rt, result, Ok(0));
            assert_same(rt, output.bytes(), SENT_NUMBERED.as_bytes());
            return Ok(nth - 1);
        }
        assert_same_at(rt, result, Err(ToolFault::Memory), nth);
        assert_same(rt, output.bytes().len(), 0);
    }
    Err("a player that is never done".into())
}

/// Runs the script, with the nth request of the run refused. Why the run gave up, if it did.
fn refuse(heap: &Refusing<Global>, nth: u64) -> Result<Option<RunFault>, Fail> {
    heap.refuse(0);
    let script = read_script(heap, NUMBERED.as_bytes())?;
    heap.refuse(nth);
    Ok(run(heap, script.setup, script.events.as_slice()).err())
}

/// Refuses each request of a run in turn. How many requests it makes.
fn requests_of_a_run(rt: &impl Abort, alloc: Global) -> Result<u64, Fail> {
    let heap = Refusing::new(alloc, 0);
    for nth in 1..10_000 {
        let fault = refuse(&heap, nth)?;
        if !heap.was_refused() {
            assert_same(rt, fault, None);
            return Ok(nth - 1);
        }
        assert_same_at(rt, fault, Some(RunFault::Memory), nth);
        assert_same_at(rt, heap.requests(), nth, nth);
    }
    Err("a run that is never done".into())
}

#[test]
fn gives_up_when_out_of_memory(rt: HostRuntime) -> Result<(), Fail> {
    let requests = requests_of_a_run(&rt, rt.alloc())?;
    assert_so_at(&rt, requests >= 15, "two ends and two sessions");
    Ok(())
}

#[test]
fn passes_on_want_of_memory(rt: HostRuntime) -> Result<(), Fail> {
    let requests = requests_of_a_player(&rt, rt.alloc())?;
    assert_so_at(
        &rt,
        requests >= 20,
        "a script, two ends, two sessions and a text",
    );
    Ok(())
}
