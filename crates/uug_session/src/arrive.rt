//! A node's handling of incoming bytes.
ghost use Rattle.std.specs.Prelude.{◌≡◌, ◌<◌, ◌≤◌, [], length, take, true, false};
ghost use Rattle.std.specs.Prelude.{IfErr, OnErr, OnOk, Ok};
ghost use Rattle.uug_session.specs.Engine.{HasFailed};
ghost use Rattle.uug_session.specs.Node.{HasRoom, held_bytes, item_size, node_of, spool_of};
ghost use Rattle.uug_session.specs.NodeArriving.{GoesOn, IsAtRest, TakesAll};
ghost use Rattle.uug_session.specs.NodeCalls.{IsMadeOfCalls, beside};
ghost use Rattle.uug_session.specs.Sending.{SaysWhatItCan};

use crate::node::Node;
use std::alloc::{AllocError, Allocator};
use thiserror::Error;
use uug_conversation::Spool;

/// The error of a piece that was not handled completely, for lack of memory.
#[derive(Clone, Copy, Debug, PartialEq, Eq, Error)]
#[error("out of memory behind {used} bytes of the piece")]
pub struct Unfinished {
    /// The number of bytes of the piece that were taken. The bytes after them are to be handed in again.
    pub used: usize,
}

impl<S: Spool, A: Allocator + Copy> Node<S, A> {
    /// Handles the first item in the held bytes, and returns whether there was one. Without memory for it the item is
    /// still there.
    fn take_next(&mut self) -> Result<bool, AllocError>
        ensures goes_on { GoesOn (S.holdings (spool_of self.old))
            (S.kept (spool_of self.old)) (S.kept (spool_of self.new))
            (HasFailed u64.MAX (S.faults (spool_of self.old)) (S.faults (spool_of self.new)))
            [] (node_of self.old) (node_of self.new) }
        ensures made { IsMadeOfCalls (S.holdings (spool_of self.old)) u64.MAX []
            (beside (node_of self.old) (S.kept (spool_of self.old)) (S.faults (spool_of self.old)))
            (beside (node_of self.new) (S.kept (spool_of self.new))
            (S.faults (spool_of self.new))) }
        ensures fewer { result ≡ Ok true
            → length (held_bytes (node_of self.new)) < length (held_bytes (node_of self.old)) }
        ensures rest { result ≡ Ok false → IsAtRest (node_of self.new) }
        ensures room { result ≡ Ok false → HasRoom (node_of self.new) }
        ensures shown { OnErr result (0 < item_size (node_of self.new)) }
        ensures says { SaysWhatItCan (node_of self.old).engine
            → SaysWhatItCan (node_of self.new).engine }
        ensures holdings { S.holdings (spool_of self.new) ≡ S.holdings (spool_of self.old) }
        ensures count { S.faults (spool_of self.old) ≤ S.faults (spool_of self.new) }
    {
        self.search();
        if self.showing().is_none() {
            return Ok(false);
        }
        self.take_found()?;
        Ok(true)
    }

    /// Handles everything found in the held bytes, one item after the other. Without memory for an item, that item is
    /// still there, and those before it were handled.
    fn take_all_found(&mut self) -> Result<(), AllocError>
        ensures goes_on { GoesOn (S.holdings (spool_of self.old))
            (S.kept (spool_of self.old)) (S.kept (spool_of self.new))
            (HasFailed u64.MAX (S.faults (spool_of self.old)) (S.faults (spool_of self.new)))
            [] (node_of self.old) (node_of self.new) }
        ensures made { IsMadeOfCalls (S.holdings (spool_of self.old)) u64.MAX []
            (beside (node_of self.old) (S.kept (spool_of self.old)) (S.faults (spool_of self.old)))
            (beside (node_of self.new) (S.kept (spool_of self.new))
            (S.faults (spool_of self.new))) }
        ensures rest { OnOk result (IsAtRest (node_of self.new)) }
        ensures room { OnOk result (HasRoom (node_of self.new)) }
        ensures shown { OnErr result (0 < item_size (node_of self.new)) }
        ensures says { SaysWhatItCan (node_of self.old).engine
            → SaysWhatItCan (node_of self.new).engine }
        ensures holdings { S.holdings (spool_of self.new) ≡ S.holdings (spool_of self.old) }
        ensures count { S.faults (spool_of self.old) ≤ S.faults (spool_of self.new) }
    {
        while self.take_next()? {}
        Ok(())
    }

    /// Takes a whole piece of the incoming bytes. It takes as many of them as fit, then handles all that is found, and
    /// continues up to the piece's end, by calls of `offer`, `next_found` and `take_found`. Without memory for an
    /// item, that item is still there, and those before it were handled. Nothing is lost if the bytes from `used` on
    /// are then handed in again.
    pub fn arrive(&mut self, piece: &[u8]) -> Result<(), Unfinished>
        ensures taken { OnOk result (TakesAll (S.holdings (spool_of self.old))
            (S.kept (spool_of self.old)) (S.kept (spool_of self.new))
            (HasFailed u64.MAX (S.faults (spool_of self.old)) (S.faults (spool_of self.new)))
            piece.now (node_of self.old) (node_of self.new)) }
        ensures used { IfErr result (λ unfinished. unfinished.used ≤ length piece.now) }
        ensures unfinished { IfErr result (λ unfinished. GoesOn (S.holdings (spool_of self.old))
            (S.kept (spool_of self.old)) (S.kept (spool_of self.new))
            (HasFailed u64.MAX (S.faults (spool_of self.old)) (S.faults (spool_of self.new)))
            (take unfinished.used piece.now) (node_of self.old) (node_of self.new)) }
        ensures made { OnOk result (IsMadeOfCalls (S.holdings (spool_of self.old)) u64.MAX piece.now
            (beside (node_of self.old) (S.kept (spool_of self.old)) (S.faults (spool_of self.old)))
            (beside (node_of self.new) (S.kept (spool_of self.new))
            (S.faults (spool_of self.new)))) }
        ensures made_so_far { IfErr result (λ unfinished.
            IsMadeOfCalls (S.holdings (spool_of self.old)) u64.MAX (take unfinished.used piece.now)
            (beside (node_of self.old) (S.kept (spool_of self.old)) (S.faults (spool_of self.old)))
            (beside (node_of self.new) (S.kept (spool_of self.new))
            (S.faults (spool_of self.new)))) }
        ensures shown { OnErr result (0 < item_size (node_of self.new)) }
        ensures says { SaysWhatItCan (node_of self.old).engine
            → SaysWhatItCan (node_of self.new).engine }
        ensures holdings { S.holdings (spool_of self.new) ≡ S.holdings (spool_of self.old) }
        ensures count { S.faults (spool_of self.old) ≤ S.faults (spool_of self.new) }
    {
        let mut used = 0;
        loop {
            let Ok(()) = self.take_all_found() else {
                return Err(Unfinished { used });
            };
            if used == piece.len() {
                return Ok(());
            }
            used += self.offer(&piece[used..]);
        }
    }
}
