//! An end in a program of your own: a whole session, over input in pieces and output in memory. A program over a real
//! line does the same with its reads and writes.
ghost use Rattle.std.specs.Prelude.{OnOk};
ghost use Rattle.uug_session.specs.Engine.{IsEnded};
ghost use Rattle.uug_session.specs.Node.{node_of};

#[cfg(test)]
mod sessions;

use std::alloc::{AllocError, Allocator};
use uug_session::{Node, Phase, Spool};

/// Runs the session of an end to its end. It appends everything emitted to `written`. The pieces are the input, one
/// after the other. An empty piece is a silence as long as the end's timer. The line is gone after the last piece. An
/// end needs its timer in every phase but `Ended`. After an error for lack of memory the session is where it was. It
/// can be continued or hung up.
pub fn talk<S: Spool, A: Allocator + Copy>(
    node: &mut Node<S, A>,
    pieces: &[&[u8]],
    written: &mut Vec<u8, A>,
) -> Result<(), AllocError>
    ensures over { OnOk result (IsEnded (node_of node.new).engine.stage) }
{
    write_out(node, written)?;
    for piece in pieces {
        if piece.is_empty() {
            node.on_timeout()?;
        } else if node.arrive(piece).is_err() {
            return Err(AllocError);
        }
        write_out(node, written)?;
        if let Phase::Ended(_) = node.phase() {
            return Ok(());
        }
    }
    node.hang_up();
    Ok(())
}

/// Writes everything that was emitted, and clears the outbox.
fn write_out<S: Spool, A: Allocator + Copy>(
    node: &mut Node<S, A>,
    written: &mut Vec<u8, A>,
) -> Result<(), AllocError> {
    written.extend_from_slice(node.outbox().bytes())?;
    node.clear_outbox();
    Ok(())
}
