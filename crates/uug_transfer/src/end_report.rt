//! The report of ends whose sessions are over.
ghost use Rattle.std.specs.Prelude.{◌≡◌, ◌++◌, IfOk, OnOk, string_bytes};
ghost use Rattle.uug_session.specs.Node.{node_of};
ghost use Rattle.uug_transfer.specs.Ends.{report_of, report_of_both};

use std::alloc::{AllocError, Allocator};
use uug_session::{Node, Side, Spool};
use uug_store::{add_failed, add_state};

/// Returns the state of an end, then the jobs that it has given up.
pub(crate) fn report<S: Spool, A: Allocator + Copy>(
    alloc: A,
    side: Side,
    end: &Node<S, A>,
) -> Result<String<A>, AllocError>
    ensures { IfOk result (λ text. string_bytes text ≡ report_of side (node_of end.now)) }
{
    let mut text = String::new(alloc);
    add_report(alloc, &mut text, side, end)?;
    Ok(text)
}

/// Appends the report of an end.
fn add_report<S: Spool, A: Allocator + Copy>(
    alloc: A,
    text: &mut String<A>,
    side: Side,
    end: &Node<S, A>,
) -> Result<(), AllocError>
    ensures { OnOk result
        (string_bytes text.new ≡ string_bytes text.old ++ report_of side (node_of end.now)) }
{
    add_state(alloc, text, side, end.phase(), end.queue())?;
    add_failed(alloc, text, side, end.queue())
}

/// Returns the state of both ends, then the jobs that each has given up.
pub(crate) fn report_of_both<S: Spool, T: Spool, A: Allocator + Copy>(
    alloc: A,
    caller: &Node<S, A>,
    called: &Node<T, A>,
) -> Result<String<A>, AllocError>
    ensures { IfOk result (λ text.
        string_bytes text ≡ report_of_both (node_of caller.now) (node_of called.now)) }
{
    let mut text = String::new(alloc);
    add_report_of_both(alloc, &mut text, caller, called)?;
    Ok(text)
}

/// Appends the report of two ends.
fn add_report_of_both<S: Spool, T: Spool, A: Allocator + Copy>(
    alloc: A,
    text: &mut String<A>,
    caller: &Node<S, A>,
    called: &Node<T, A>,
) -> Result<(), AllocError>
    ensures { OnOk result (string_bytes text.new
        ≡ string_bytes text.old ++ report_of_both (node_of caller.now) (node_of called.now)) }
{
    add_state(alloc, text, Side::Caller, caller.phase(), caller.queue())?;
    add_state(alloc, text, Side::Called, called.phase(), called.queue())?;
    add_failed(alloc, text, Side::Caller, caller.queue())?;
    add_failed(alloc, text, Side::Called, called.queue())
}
