ghost use Rattle.std.specs.Prelude.{◌≡◌, ◌≤◌, ◌↔◌, [], drop, length, IfOk, IsTrue, OnOk};
ghost use Rattle.uug_conversation.specs.DialogueValue.{dialogue_has_parted};
ghost use Rattle.uug_session.specs.Engine.{HasFailed, IsEnded, hung_up, with_outbox, with_stage};
ghost use Rattle.uug_session.specs.Node.{node_of};
ghost use Rattle.uug_session.specs.NumberStanding.{KeepsNumber};
ghost use Rattle.uug_transfer.specs.Ends.{status_of};
ghost use Rattle.uug_transfer.specs.Moments.{IsLed, end_now, node_now};
ghost use Rattle.uug_transfer.specs.BufferedNodes.{injector_in, node_in, spool_in, to_write, Hears, IsLate, SendsOut, Waits};

use crate::fault_injector::FaultInjector;
use crate::outgoing::add_outgoing;
use crate::status::SessionStatus;
use std::alloc::{AllocError, Allocator};
use std::mem;
use uug_session::node_laws::a_number_stands_as_the_session_does;
use uug_session::{Node, Phase, Spool};

/// One end of a byte stream: a node, and the bytes that it still has to write. The owner passes in what it reads, and
/// asks what to write. What the node emits goes through an injector, which may leave out, lose or change packets, as a
/// line may. After a call that ran out of memory it can only be hung up.
#[derive(Drop)]
pub struct BufferedNode<S: Spool, A: Allocator> {
    node: Node<S, A>,
    outgoing: Vec<u8, A>,
    injector: FaultInjector,
}

impl<S: Spool + Drop, A: Allocator + Copy> BufferedNode<S, A> {
    /// Creates a buffer for what this node emits, through this injector. It takes over what the node has already
    /// emitted.
    pub fn new(alloc: A, node: Node<S, A>, injector: FaultInjector) -> Result<Self, AllocError>
        ensures led { IfOk result (λ buffered.
            IsLed (node_now S.holdings S.kept node) (end_now S.holdings S.kept buffered)) }
        ensures sends { IfOk result (λ buffered.
            SendsOut injector (injector_in buffered) [] (to_write buffered) (node_of node) (node_in buffered)) }
        ensures spool { IfOk result (λ buffered. spool_in buffered ≡ node.spool) }
    {
        let mut buffered = BufferedNode {
            node,
            outgoing: Vec::new(alloc),
            injector,
        };
        buffered.note_emitted()?;
        Ok(buffered)
    }

    /// Returns the bytes that are still to be written.
    pub fn outgoing(&self) -> &[u8]
        ensures { result.now ≡ to_write self.now }
    {
        &self.outgoing
    }

    /// Removes the first `count` bytes, which were written.
    pub fn written(&mut self, count: usize)
        requires { count ≤ length (to_write self.old) }
        ensures outgoing { to_write self.new ≡ drop count (to_write self.old) }
        ensures node { node_in self.new ≡ node_in self.old }
        ensures spool { spool_in self.new ≡ spool_in self.old }
        ensures injector { injector_in self.new ≡ injector_in self.old }
    {
        if count == self.outgoing.len() {
            self.outgoing.clear();
        } else {
            self.outgoing.drain(..count);
        }
    }

    /// Passes the node the bytes of a read.
    pub fn arrive(&mut self, piece: &[u8]) -> Result<(), AllocError>
        ensures led { IsLed (end_now S.holdings S.kept self.old)
            (end_now S.holdings S.kept self.new) }
        ensures number { OnOk result
            (KeepsNumber (node_in self.old).engine (node_in self.new).engine) }
        ensures hears { OnOk result
            (Hears (S.holdings (spool_in self.old)) (S.kept (spool_in self.old))
            (S.kept (spool_in self.new))
            (HasFailed u64.MAX (S.faults (spool_in self.old)) (S.faults (spool_in self.new)))
            piece.now
            (injector_in self.old) (injector_in self.new) (to_write self.old) (to_write self.new) (node_in self.old)
            (node_in self.new)) }
    {
        a_number_stands_as_the_session_does();
        let Ok(()) = self.node.arrive(piece) else {
            return Err(AllocError);
        };
        self.note_emitted()
    }

    /// Passes the node a timeout.
    pub fn time_out(&mut self) -> Result<(), AllocError>
        ensures led { IsLed (end_now S.holdings S.kept self.old)
            (end_now S.holdings S.kept self.new) }
        ensures waits { OnOk result
            (Waits (injector_in self.old) (injector_in self.new) (to_write self.old) (to_write self.new)
            (node_in self.old) (node_in self.new)) }
        ensures late { OnOk result (IsLate (node_in self.old) (node_in self.new)) }
        ensures number { OnOk result
            (KeepsNumber (node_in self.old).engine (node_in self.new).engine) }
        ensures spool { spool_in self.new ≡ spool_in self.old }
    {
        a_number_stands_as_the_session_does();
        self.node.on_timeout()?;
        self.note_emitted()
    }

    /// Ends the session: nothing can be written or read any more.
    pub fn hang_up(&mut self)
        ensures led { IsLed (end_now S.holdings S.kept self.old)
            (end_now S.holdings S.kept self.new) }
        ensures lost { (node_in self.new).engine
            ≡ with_stage (hung_up (dialogue_has_parted (node_in self.old).engine.dialogue)
            (node_in self.old).engine.stage) (node_in self.old).engine }
        ensures bytes { ((node_in self.new).texts ≡ (node_in self.old).texts)
            × ((node_in self.new).packets ≡ (node_in self.old).packets) }
        ensures over { IsEnded (node_in self.new).engine.stage }
        ensures number { KeepsNumber (node_in self.old).engine (node_in self.new).engine }
        ensures outgoing { to_write self.new ≡ to_write self.old }
        ensures spool { spool_in self.new ≡ spool_in self.old }
        ensures injector { injector_in self.new ≡ injector_in self.old }
    {
        a_number_stands_as_the_session_does();
        self.node.hang_up();
    }

    /// Swaps injectors with another end.
    pub fn exchange_injectors<T: Spool + Drop>(&mut self, other: &mut BufferedNode<T, A>)
        ensures here { injector_in self.new ≡ injector_in other.old }
        ensures there { injector_in other.new ≡ injector_in self.old }
        ensures outgoing { to_write self.new ≡ to_write self.old }
        ensures other_outgoing { to_write other.new ≡ to_write other.old }
        ensures node { node_in self.new ≡ node_in self.old }
        ensures other_node { node_in other.new ≡ node_in other.old }
        ensures spool { spool_in self.new ≡ spool_in self.old }
        ensures other_spool { spool_in other.new ≡ spool_in other.old }
    {
        mem::swap(&mut self.injector, &mut other.injector);
    }

    /// Returns whether the session is over.
    pub fn has_ended(&self) -> bool
        ensures { IsTrue result ↔ IsEnded (node_in self.now).engine.stage }
    {
        match self.node.phase() {
            Phase::Ended(_) => true,
            _ => false,
        }
    }

    /// Returns the node.
    pub fn node(&self) -> &Node<S, A>
        ensures { node_of result.now ≡ node_in self.now }
    {
        &self.node
    }

    /// Returns the node's files.
    pub fn spool(&self) -> &S
        ensures { result.now ≡ spool_in self.now }
    {
        self.node.spool()
    }

    /// Returns the status of the session. `is_over` says whether the end has left its line.
    pub fn status(&self, is_over: bool) -> SessionStatus
        ensures { result ≡ status_of is_over (node_in self.now) }
    {
        let queue = self.node.queue();
        SessionStatus {
            phase: self.node.phase(),
            pending: queue.pending().len(),
            struck: queue.struck().len(),
            failed: queue.failed().len(),
            unacked: self.node.unacked(),
            is_over,
        }
    }

    /// Appends what the node has emitted to the bytes to be written, except what the injector leaves out or loses.
    fn note_emitted(&mut self) -> Result<(), AllocError>
        ensures sends { OnOk result
            (SendsOut (injector_in self.old) (injector_in self.new) (to_write self.old) (to_write self.new)
            (node_in self.old) (node_in self.new)) }
        ensures engine { (node_in self.new).engine
            ≡ with_outbox (node_in self.new).engine.outbox (node_in self.old).engine }
        ensures spool { spool_in self.new ≡ spool_in self.old }
    {
        add_outgoing(&mut self.outgoing, self.node.outbox(), &mut self.injector)?;
        self.node.clear_outbox();
        Ok(())
    }
}
