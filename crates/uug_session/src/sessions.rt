ghost use Rattle.std.specs.Prelude.{◌≡◌, ◌≤◌, [], IfOk, IfErr, OnOk, OnErr};
ghost use Rattle.uug_link.specs.Announced.{announced};
ghost use Rattle.uug_reader.specs.Reading.{fresh};
ghost use Rattle.uug_session.specs.Engine.{BeginsSession, Does, IsEnded, all_ahead, bare};
ghost use Rattle.uug_session.specs.EndStep.{unmoved};
ghost use Rattle.uug_session.specs.Node.{node_of, spool_of};
ghost use Rattle.uug_session.specs.Sessions.{HoldsNothing};
ghost use Rattle.uug_session.specs.TextsHeld.{nothing_held};
ghost use Rattle.uug_conversation.specs.Left.{left_of};
ghost use Rattle.uug_conversation.specs.MemoryHoldings.{held_by, holdings_of};
ghost use Rattle.uug_conversation.specs.Partials.{partials_then};
ghost use Rattle.uug_conversation.specs.PartialView.{shown_partial};
ghost use Rattle.uug_conversation.specs.declared.side.Side.TheVariants.{Caller, Called};

use crate::engine::Engine;
use crate::node::Node;
use crate::place::Place;
use crate::texts::Texts;
use std::alloc::{AllocError, Allocator};
use std::fmt;
use thiserror::Error;
use uug_conversation::{MemorySpool, PartialFile, Queue, Side, Spool};
use uug_link::Outbox;
use uug_reader::Reader;

/// The error of a node for which there was no memory. It returns all that was handed in, unchanged.
#[derive(Drop, Error)]
#[error("out of memory for a node")]
pub struct NotMade<S: Spool, A: Allocator> {
    /// The end's configuration.
    pub place: Place,
    /// Its jobs.
    pub queue: Queue<A>,
    /// Its files.
    pub spool: S,
}

impl<S: Spool, A: Allocator> fmt::Debug for NotMade<S, A> {
    /// Shows the end's configuration. Neither jobs nor files can be shown.
    fn fmt<W: fmt::Write>(&self, f: &mut fmt::Formatter<W>) -> fmt::Result {
        f.debug_struct("NotMade")
            .field("place", &self.place)
            .finish_non_exhaustive()
    }
}

impl<A: Allocator + Copy> Node<MemorySpool<A>, A> {
    /// Lets the spool hold what is left of a file if the session has ended in its middle and the end resumes. The next
    /// session begins with it. Without memory nothing changes.
    pub fn hold_what_is_left(&mut self) -> Result<(), AllocError>
        ensures node { node_of self.new ≡ node_of self.old }
        ensures held { OnOk result (held_by (spool_of self.new)
            ≡ record (held_by (spool_of self.old)) {
              partials = partials_then (held_by (spool_of self.old)).partials
                  (left_of (holdings_of (held_by (spool_of self.old)))
                  (node_of self.old).engine.dialogue.machine);
            }) }
        ensures err { OnErr result (held_by (spool_of self.new) ≡ held_by (spool_of self.old)) }
    {
        self.engine.leave(&mut self.spool)
    }
}

impl<S: Spool, A: Allocator + Copy> Node<S, A> {
    /// Returns what is left of a file if the session has ended in its middle: what the spool held of it, and what came
    /// behind that. An end that holds it in its next session goes on there.
    pub fn left(&self) -> Result<Option<PartialFile<A>>, AllocError>
        ensures { IfOk result (λ found. shown_partial found
            ≡ left_of (S.holdings (spool_of self.now)) (node_of self.now).engine.dialogue.machine) }
    {
        self.engine.left(&self.spool)
    }

    /// Makes the calling end, whose first session begins. It waits for the called end's name. All pending jobs are to
    /// be offered.
    pub fn caller(alloc: A, place: Place, queue: Queue<A>, spool: S) -> Result<Self, NotMade<S, A>>
        ensures session { IfOk result (λ node. BeginsSession
            (record { side = Caller; me = place.me; peer = place.peer })
            (announced place.announce) place.number (all_ahead queue) [] (node_of node).engine) }
        ensures nothing_held { IfOk result (λ node. HoldsNothing (node_of node)) }
        ensures spool { IfOk result (λ node. spool_of node ≡ spool) }
        ensures place_back { IfErr result (λ refused. refused.place ≡ place) }
        ensures jobs_back { IfErr result (λ refused. refused.queue ≡ queue) }
        ensures spool_back { IfErr result (λ refused. refused.spool ≡ spool) }
    {
        Node::begin(alloc, Side::Caller, place, queue, spool)
    }

    /// Makes the called end, whose first session begins. It says its name. All pending jobs are to be offered.
    pub fn called(alloc: A, place: Place, queue: Queue<A>, spool: S) -> Result<Self, NotMade<S, A>>
        ensures session { IfOk result (λ node. BeginsSession
            (record { side = Called; me = place.me; peer = place.peer })
            (announced place.announce) place.number (all_ahead queue) [] (node_of node).engine) }
        ensures nothing_held { IfOk result (λ node. HoldsNothing (node_of node)) }
        ensures spool { IfOk result (λ node. spool_of node ≡ spool) }
        ensures place_back { IfErr result (λ refused. refused.place ≡ place) }
        ensures jobs_back { IfErr result (λ refused. refused.queue ≡ queue) }
        ensures spool_back { IfErr result (λ refused. refused.spool ≡ spool) }
    {
        Node::begin(alloc, Side::Called, place, queue, spool)
    }

    /// Begins the next session, on a new call, of an end whose session is over. All pending jobs are to be offered. No
    /// byte of the last session is read any more. The outbox's entries stay in front of what the end says. The number
    /// of its conversations stays. Without memory for the end's first words nothing has changed.
    pub fn call_again(&mut self) -> Result<(), AllocError>
        requires ended { IsEnded (node_of self.old).engine.stage }
        ensures session { OnOk result (BeginsSession (node_of self.old).engine.identity
            (node_of self.old).engine.own (node_of self.old).engine.number
            (all_ahead (node_of self.old).engine.dialogue.machine.lists)
            (node_of self.old).engine.outbox.entries (node_of self.new).engine) }
        ensures nothing_held { OnOk result (HoldsNothing (node_of self.new)) }
        ensures spool { spool_of self.new ≡ spool_of self.old }
        ensures err { OnErr result (Does (unmoved (bare (node_of self.old).engine))
            (bare (node_of self.new).engine) (node_of self.old).engine (node_of self.new).engine) }
        ensures texts_stay { OnErr result ((node_of self.new).texts ≡ (node_of self.old).texts) }
        ensures packets_stay { OnErr result
            ((node_of self.new).packets ≡ (node_of self.old).packets) }
    {
        self.engine.reserve_first_words()?;
        self.engine.restart();
        self.texts.clear();
        self.packets.clear();
        Ok(())
    }

    /// Makes an end on this side, whose first session begins.
    fn begin(
        alloc: A,
        side: Side,
        place: Place,
        queue: Queue<A>,
        spool: S,
    ) -> Result<Self, NotMade<S, A>>
        ensures session { IfOk result (λ node. BeginsSession
            (record { side = side; me = place.me; peer = place.peer })
            (announced place.announce) place.number (all_ahead queue) [] (node_of node).engine) }
        ensures nothing_held { IfOk result (λ node. HoldsNothing (node_of node)) }
        ensures spool { IfOk result (λ node. spool_of node ≡ spool) }
        ensures place_back { IfErr result (λ refused. refused.place ≡ place) }
        ensures jobs_back { IfErr result (λ refused. refused.queue ≡ queue) }
        ensures spool_back { IfErr result (λ refused. refused.spool ≡ spool) }
    {
        let Ok(
            Buffers {
                texts,
                packets,
                outbox,
            },
        ) = Buffers::new(alloc)
        else {
            return Err(NotMade {
                place,
                queue,
                spool,
            });
        };
        Ok(Node {
            engine: Engine::new(alloc, side, place, queue, outbox),
            texts,
            packets,
            spool,
        })
    }
}

/// A node's byte buffers: those for bytes not read yet, and the outbox.
#[derive(Drop)]
struct Buffers<A: Allocator> {
    texts: Texts<A>,
    packets: Reader<A>,
    outbox: Outbox<A>,
}

impl<A: Allocator + Copy> Buffers<A> {
    /// Makes empty buffers, with room for what an end says first.
    fn new(alloc: A) -> Result<Self, AllocError>
        ensures texts { IfOk result (λ buffers. buffers.texts ≡ nothing_held) }
        ensures packets { IfOk result (λ buffers. buffers.packets ≡ fresh) }
        ensures entries { IfOk result (λ buffers. buffers.outbox.entries ≡ []) }
        ensures spare { IfOk result (λ buffers. 1 ≤ buffers.outbox.spare) }
    {
        let texts = Texts::new(alloc)?;
        let packets = Reader::new(alloc)?;
        let mut outbox = Outbox::new(alloc);
        outbox.reserve(1)?;
        Ok(Buffers {
            texts,
            packets,
            outbox,
        })
    }
}
