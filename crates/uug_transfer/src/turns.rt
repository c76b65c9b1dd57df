//! Turns of two ends at a line.
ghost use Rattle.std.specs.Prelude.{◌≡◌, ◌<◌, ◌≤◌, ◌↔◌, length, IsTrue, OnOk};
ghost use Rattle.uug_session.specs.Engine.{HasFailed, IsEnded};
ghost use Rattle.uug_transfer.specs.BufferedNodes.{node_in, spool_in, to_write, IsLate};
ghost use Rattle.uug_transfer.specs.Moments.{IsLed, end_now};
ghost use Rattle.uug_transfer.specs.Turns.{HasRoom, IsQuiet, UnlessLineFailed};

use crate::buffered_node::BufferedNode;
use crate::line::{Line, UNREAD_MAX};
use crate::turn_fault::TurnFault;
use std::alloc::{AllocError, Allocator};
use uug_session::{Side, Spool};

/// Runs two ends in turns at a line until both sessions are over, or for `limit` turns. In each turn the caller, then
/// the called end, writes as much as there is room for, and takes all that is unread for it. If nothing is unread and
/// nothing is to be written, the turn is a timeout at each end. What both ends emit goes through the caller's injector.
/// After the last turn both ends hang up, also if the line failed or memory ran out.
pub fn run_turns<S: Spool + Drop, T: Spool + Drop, L: Line, A: Allocator + Copy>(
    caller: &mut BufferedNode<S, A>,
    called: &mut BufferedNode<T, A>,
    line: &mut L,
    limit: u32,
) -> Result<(), TurnFault>
    requires { HasRoom (L.unread line.old) }
    ensures caller_led { IsLed (end_now S.holdings S.kept caller.old)
        (end_now S.holdings S.kept caller.new) }
    ensures called_led { IsLed (end_now T.holdings T.kept called.old)
        (end_now T.holdings T.kept called.new) }
    ensures caller_over { IsEnded (node_in caller.new).engine.stage }
    ensures called_over { IsEnded (node_in called.new).engine.stage }
    ensures calm { UnlessLineFailed result (L.fault_count line.new ≡ L.fault_count line.old) }
    ensures fault { result ≡ Err TurnFault.Line
        → HasFailed u64.MAX (L.fault_count line.old) (L.fault_count line.new) }
    ensures grows { L.fault_count line.old ≤ L.fault_count line.new }
{
    let result = take_turns(caller, called, line, limit);
    caller.hang_up();
    called.hang_up();
    line.note(caller.status(true));
    result
}

/// Takes the turns.
fn take_turns<S: Spool + Drop, T: Spool + Drop, L: Line, A: Allocator + Copy>(
    caller: &mut BufferedNode<S, A>,
    called: &mut BufferedNode<T, A>,
    line: &mut L,
    limit: u32,
) -> Result<(), TurnFault>
    requires { HasRoom (L.unread line.old) }
    ensures caller_led { IsLed (end_now S.holdings S.kept caller.old)
        (end_now S.holdings S.kept caller.new) }
    ensures called_led { IsLed (end_now T.holdings T.kept called.old)
        (end_now T.holdings T.kept called.new) }
    ensures calm { UnlessLineFailed result (L.fault_count line.new ≡ L.fault_count line.old) }
    ensures fault { result ≡ Err TurnFault.Line
        → HasFailed u64.MAX (L.fault_count line.old) (L.fault_count line.new) }
    ensures grows { L.fault_count line.old ≤ L.fault_count line.new }
{
    let mut buffer = [0; UNREAD_MAX];
    for _ in 0..limit {
        if caller.has_ended() && called.has_ended() {
            return Ok(());
        }
        take_turn(caller, called, line, &mut buffer)?;
    }
    Ok(())
}

/// Runs one turn of both ends.
fn take_turn<S: Spool + Drop, T: Spool + Drop, L: Line, A: Allocator + Copy>(
    caller: &mut BufferedNode<S, A>,
    called: &mut BufferedNode<T, A>,
    line: &mut L,
    buffer: &mut [u8],
) -> Result<(), TurnFault>
    requires room { HasRoom (L.unread line.old) }
    requires buffer { 0 < length buffer.old }
    ensures caller_led { IsLed (end_now S.holdings S.kept caller.old)
        (end_now S.holdings S.kept caller.new) }
    ensures called_led { IsLed (end_now T.holdings T.kept called.old)
        (end_now T.holdings T.kept called.new) }
    ensures caller_late { IsQuiet (L.unread line.old) (to_write caller.old) (to_write called.old)
        → OnOk result (IsLate (node_in caller.old) (node_in caller.new)) }
    ensures called_late { IsQuiet (L.unread line.old) (to_write caller.old) (to_write called.old)
        → OnOk result (IsLate (node_in called.old) (node_in called.new)) }
    ensures room { OnOk result (HasRoom (L.unread line.new)) }
    ensures calm { UnlessLineFailed result (L.fault_count line.new ≡ L.fault_count line.old) }
    ensures fault { result ≡ Err TurnFault.Line
        → HasFailed u64.MAX (L.fault_count line.old) (L.fault_count line.new) }
    ensures grows { L.fault_count line.old ≤ L.fault_count line.new }
{
    if is_quiet(caller.outgoing(), called.outgoing(), line) {
        caller.time_out()?;
        time_out_with(caller, called)?;
        return Ok(());
    }
    move_end(caller, line, Side::Caller, buffer)?;
    move_end_with(caller, called, line, Side::Called, buffer)
}

/// Passes an end a timeout while it has the injector of another.
fn time_out_with<S: Spool + Drop, T: Spool + Drop, A: Allocator + Copy>(
    owner: &mut BufferedNode<S, A>,
    buffered: &mut BufferedNode<T, A>,
) -> Result<(), AllocError>
    ensures owner { node_in owner.new ≡ node_in owner.old }
    ensures owner_spool { spool_in owner.new ≡ spool_in owner.old }
    ensures led { IsLed (end_now T.holdings T.kept buffered.old)
        (end_now T.holdings T.kept buffered.new) }
    ensures late { OnOk result (IsLate (node_in buffered.old) (node_in buffered.new)) }
{
    owner.exchange_injectors(buffered);
    let late = buffered.time_out();
    owner.exchange_injectors(buffered);
    late
}

/// Runs an end's part of a turn, as `move_end` does, while it has the injector of another.
fn move_end_with<S: Spool + Drop, T: Spool + Drop, L: Line, A: Allocator + Copy>(
    owner: &mut BufferedNode<S, A>,
    buffered: &mut BufferedNode<T, A>,
    line: &mut L,
    side: Side,
    buffer: &mut [u8],
) -> Result<(), TurnFault>
    requires room { HasRoom (L.unread line.old) }
    requires buffer { 0 < length buffer.old }
    ensures owner { node_in owner.new ≡ node_in owner.old }
    ensures owner_spool { spool_in owner.new ≡ spool_in owner.old }
    ensures led { IsLed (end_now T.holdings T.kept buffered.old)
        (end_now T.holdings T.kept buffered.new) }
    ensures room { OnOk result (HasRoom (L.unread line.new)) }
    ensures calm { UnlessLineFailed result (L.fault_count line.new ≡ L.fault_count line.old) }
    ensures fault { result ≡ Err TurnFault.Line
        → HasFailed u64.MAX (L.fault_count line.old) (L.fault_count line.new) }
    ensures grows { L.fault_count line.old ≤ L.fault_count line.new }
{
    owner.exchange_injectors(buffered);
    let moved = move_end(buffered, line, side, buffer);
    owner.exchange_injectors(buffered);
    moved
}

/// Returns whether nothing is unread and nothing is to be written.
fn is_quiet<L: Line>(from_caller: &[u8], from_called: &[u8], line: &L) -> bool
    ensures quiet { IsTrue result ↔ IsQuiet (L.unread line.now) from_caller.now from_called.now }
{
    from_caller.is_empty()
        && from_called.is_empty()
        && line.unread(Side::Caller) == 0
        && line.unread(Side::Called) == 0
}

/// Writes as much of an end's bytes as there is room for, and passes it all that is unread for it.
fn move_end<S: Spool + Drop, L: Line, A: Allocator + Copy>(
    buffered: &mut BufferedNode<S, A>,
    line: &mut L,
    side: Side,
    buffer: &mut [u8],
) -> Result<(), TurnFault>
    requires room { HasRoom (L.unread line.old) }
    requires buffer { 0 < length buffer.old }
    ensures led { IsLed (end_now S.holdings S.kept buffered.old)
        (end_now S.holdings S.kept buffered.new) }
    ensures room { OnOk result (HasRoom (L.unread line.new)) }
    ensures calm { UnlessLineFailed result (L.fault_count line.new ≡ L.fault_count line.old) }
    ensures fault { result ≡ Err TurnFault.Line
        → HasFailed u64.MAX (L.fault_count line.old) (L.fault_count line.new) }
    ensures grows { L.fault_count line.old ≤ L.fault_count line.new }
{
    let to = match side {
        Side::Caller => Side::Called,
        Side::Called => Side::Caller,
    };
    write_some(buffered, line, to)?;
    take_unread(buffered, line, side, buffer)
}

/// Writes as much as there is room for, in one write. Each write takes up extra room in a socket, and many small ones
/// could block where one does not.
fn write_some<S: Spool + Drop, L: Line, A: Allocator + Copy>(
    buffered: &mut BufferedNode<S, A>,
    line: &mut L,
    to: Side,
) -> Result<(), TurnFault>
    requires { HasRoom (L.unread line.old) }
    ensures node { node_in buffered.new ≡ node_in buffered.old }
    ensures spool { spool_in buffered.new ≡ spool_in buffered.old }
    ensures room { OnOk result (HasRoom (L.unread line.new)) }
    ensures calm { UnlessLineFailed result (L.fault_count line.new ≡ L.fault_count line.old) }
    ensures fault { result ≡ Err TurnFault.Line
        → HasFailed u64.MAX (L.fault_count line.old) (L.fault_count line.new) }
    ensures grows { L.fault_count line.old ≤ L.fault_count line.new }
{
    let outgoing = buffered.outgoing();
    let count = outgoing.len().min(UNREAD_MAX - line.unread(to));
    if count == 0 {
        return Ok(());
    }
    let written = line.write(to, &outgoing[..count])?;
    buffered.written(written);
    Ok(())
}

/// Takes all that is unread for the end on this side.
fn take_unread<S: Spool + Drop, L: Line, A: Allocator + Copy>(
    buffered: &mut BufferedNode<S, A>,
    line: &mut L,
    at: Side,
    buffer: &mut [u8],
) -> Result<(), TurnFault>
    requires room { HasRoom (L.unread line.old) }
    requires buffer { 0 < length buffer.old }
    ensures led { IsLed (end_now S.holdings S.kept buffered.old)
        (end_now S.holdings S.kept buffered.new) }
    ensures room { OnOk result (HasRoom (L.unread line.new)) }
    ensures all { OnOk result (L.unread line.new at ≡ 0) }
    ensures calm { UnlessLineFailed result (L.fault_count line.new ≡ L.fault_count line.old) }
    ensures fault { result ≡ Err TurnFault.Line
        → HasFailed u64.MAX (L.fault_count line.old) (L.fault_count line.new) }
    ensures grows { L.fault_count line.old ≤ L.fault_count line.new }
{
    while line.unread(at) > 0 {
        let count = line.read(at, buffer)?;
        buffered.arrive(&buffer[..count])?;
    }
    Ok(())
}
