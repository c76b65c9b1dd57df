ghost use Rattle.std.specs.Prelude.{◌≡◌, ◌<◌, ℕ, [], IfOk, OnOk, Option};
ghost use Rattle.uug_link.specs.Announced.{Announced};
ghost use Rattle.uug_link.specs.InRange.{IsAnnouncement};
ghost use Rattle.uug_line.specs.JournalValue.{journal_value, packet_noted};
ghost use Rattle.uug_line.specs.LineEndValue.{AreWritten, BeginsAgain, HasBegun, HasRoom, HearsPiece, IsCalled, IsNoted, IsOrdered, IsTakenUp, TakesItems, TakesNext, live_end_value, told_of};
ghost use Rattle.uug_line.specs.Shown.{end_shown, lists_in};
ghost use Rattle.uug_session.specs.Engine.{BeginsSession, IsEnded};
ghost use Rattle.uug_conversation.specs.Jobs.{Lists};
ghost use Rattle.uug_conversation.specs.MemoryHoldings.{held_by};
ghost use Rattle.uug_session.specs.Sessions.{HoldsNothing};
ghost use Rattle.uug_session.specs.Node.{item_size, node_of};
ghost use Rattle.uug_session.specs.EndStep.{Identity, line_lost, time_ran_out};

use crate::journal::Journal;
use crate::line::Line;
use crate::report::EndReport;
use crate::sighting::{Sighting, sight};
use std::alloc::{AllocError, Allocator};
use std::mem;
use uug_session::{MemorySpool, Node};

/// An end of a session on a line, with the record of its session.
#[derive(Drop)]
pub(crate) struct LineEnd<A: Allocator + Copy> {
    /// Boxed, because the end is moved into its report and out of it.
    pub(crate) node: Box<Node<MemorySpool<A>, A>, A>,
    pub(crate) journal: Journal<A>,
    /// The bytes that it has emitted and that are on their way to the other end.
    pub(crate) line: Line<A>,
}

/// The result of taking up the next item.
#[derive(Clone, Copy)]
pub(crate) enum Taking {
    /// An item was taken up.
    Goes,
    /// The end holds no complete item.
    Waits,
    /// The item found is a packet that was not sent, and is not taken up.
    Stops,
}

impl<A: Allocator + Copy> LineEnd<A> {
    /// Begins the end's first session.
    pub(crate) fn start(alloc: A, node: Node<MemorySpool<A>, A>) -> Result<Self, AllocError>
        ensures { IfOk result (λ end. (id : Identity) (own : Announced) (number : Option ℕ)
            (l : Lists) → IsAnnouncement own
            → BeginsSession id own number l [] (node_of node).engine → HoldsNothing (node_of node)
            → HasBegun id own number l (held_by node.spool) (live_end_value end)) }
    {
        let node = Box::new(alloc, node)?;
        let mut end = LineEnd {
            node,
            journal: Journal::new(alloc),
            line: Line::new(alloc),
        };
        end.note_call(alloc)?;
        Ok(end)
    }

    /// Notes what a call of the end has emitted, and puts it on the line at once.
    fn note_call(&mut self, alloc: A) -> Result<(), AllocError>
        ensures { OnOk result (IsNoted (live_end_value self.old) (live_end_value self.new)) }
    {
        let unacked = self.node.unacked();
        let outbox = self.node.outbox();
        self.journal.add_emitted(alloc, outbox, unacked)?;
        self.line.append(outbox.bytes())?;
        self.node.clear_outbox();
        Ok(())
    }

    /// Handles a timeout.
    pub(crate) fn time_out(&mut self, alloc: A) -> Result<(), AllocError>
        requires ordered { IsOrdered (live_end_value self.old) }
        requires room { HasRoom (live_end_value self.old) }
        ensures { OnOk result (IsCalled time_ran_out (live_end_value self.old) (live_end_value self.new)) }
    {
        self.node.on_timeout()?;
        self.note_call(alloc)?;
        Ok(())
    }

    /// Handles the loss of the line.
    pub(crate) fn hang_up(&mut self, alloc: A) -> Result<(), AllocError>
        requires ordered { IsOrdered (live_end_value self.old) }
        requires room { HasRoom (live_end_value self.old) }
        ensures { OnOk result (IsCalled line_lost (live_end_value self.old) (live_end_value self.new)) }
    {
        self.node.hang_up();
        self.note_call(alloc)?;
        Ok(())
    }

    /// Begins the next session, with nothing on the line. An end that resumes brings to it what is left of a file.
    /// Returns the report of the last session, which is over.
    pub(crate) fn call_again(&mut self, alloc: A) -> Result<EndReport<A>, AllocError>
        requires ended { IsEnded (live_end_value self.old).node.engine.stage }
        requires ordered { IsOrdered (live_end_value self.old) }
        ensures begun { OnOk result (BeginsAgain (live_end_value self.old) (live_end_value self.new)) }
        ensures report { IfOk result (λ report. end_shown report ≡ told_of (live_end_value self.old)) }
    {
        let phase = self.node.phase();
        self.node.hold_what_is_left()?;
        self.node.call_again()?;
        let journal = mem::replace(&mut self.journal, Journal::new(alloc));
        self.line.clear();
        self.note_call(alloc)?;
        Ok(journal.into_report(phase))
    }

    /// Handles a piece that arrives, and takes up each complete item in it. Returns false if the end finds a packet
    /// that is not among those that the other end has emitted; that packet is not taken up.
    pub(crate) fn hear(
        &mut self,
        alloc: A,
        piece: &[u8],
        others: &[Vec<u8, A>],
    ) -> Result<bool, AllocError>
        requires ordered { IsOrdered (live_end_value self.old) }
        requires room { HasRoom (live_end_value self.old) }
        requires written { AreWritten (lists_in others.now) }
        ensures { IfOk result (λ all_sent.
            HearsPiece all_sent (lists_in others.now) piece.now (live_end_value self.old)
            (live_end_value self.new)) }
    {
        let mut rest = piece;
        loop {
            let count = self.node.offer(rest);
            rest = &rest[count..];
            if !self.take_all(alloc, others)? {
                // It holds what fits of the rest, too: so what it holds does not depend on how much was offered before.
                self.node.offer(rest);
                return Ok(false);
            }
            if rest.is_empty() {
                return Ok(true);
            }
        }
    }

    /// Takes up each complete item among the bytes held. Returns false if it finds a packet that was not sent.
    fn take_all(&mut self, alloc: A, others: &[Vec<u8, A>]) -> Result<bool, AllocError>
        requires ordered { IsOrdered (live_end_value self.old) }
        requires written { AreWritten (lists_in others.now) }
        ensures { IfOk result (λ all_sent.
            TakesItems all_sent (lists_in others.now) (live_end_value self.old) (live_end_value self.new)) }
    {
        loop {
            match self.take_next(alloc, others)? {
                Taking::Goes => {}
                Taking::Waits => return Ok(true),
                Taking::Stops => return Ok(false),
            }
        }
    }

    /// Takes up the next item, if one is complete.
    fn take_next(&mut self, alloc: A, others: &[Vec<u8, A>]) -> Result<Taking, AllocError>
        requires ordered { IsOrdered (live_end_value self.old) }
        requires written { AreWritten (lists_in others.now) }
        ensures { IfOk result (λ taking.
            TakesNext taking (lists_in others.now) (live_end_value self.old) (live_end_value self.new)) }
    {
        match sight(&mut *self.node, others, self.journal.passed) {
            Sighting::Nothing => Ok(Taking::Waits),
            Sighting::Unsent => Ok(Taking::Stops),
            Sighting::Other => {
                self.take_other(alloc)?;
                Ok(Taking::Goes)
            }
            Sighting::At(place) => {
                self.take_packet(alloc, others[place].as_slice(), place)?;
                Ok(Taking::Goes)
            }
        }
    }

    /// Takes up the text or the broken packet that is shown.
    fn take_other(&mut self, alloc: A) -> Result<(), AllocError>
        requires { 0 < item_size (live_end_value self.old).node }
        ensures { OnOk result
            (IsTakenUp (λ took. journal_value self.old.journal) (live_end_value self.old) (live_end_value self.new)) }
    {
        self.node.take_found()?;
        self.note_call(alloc)?;
        Ok(())
    }

    /// Takes up the packet that is shown. `packet` is its encoded form and `place` its place among those of the other
    /// end.
    fn take_packet(&mut self, alloc: A, packet: &[u8], place: usize) -> Result<(), AllocError>
        requires shown { 0 < item_size (live_end_value self.old).node }
        requires place { place < usize.MAX }
        ensures { OnOk result
            (IsTakenUp (packet_noted packet.now place (journal_value self.old.journal))
            (live_end_value self.old) (live_end_value self.new)) }
    {
        let took = self.node.take_found()?;
        self.journal.add_found(alloc, packet, place, took)?;
        self.note_call(alloc)?;
        Ok(())
    }
}
