//! Laws of one end, described by the events that happen to it. The functions do nothing.
ghost use Rattle.std.specs.Prelude.{◌≡◌, ℕ, List};
ghost use Rattle.uug_conversation.specs.Holdings.{Holdings, Kept};
ghost use Rattle.uug_conversation.specs.declared.side.Side.{Side};
ghost use Rattle.uug_session.specs.Beginnings.{EndBeginning, identity_of};
ghost use Rattle.uug_session.specs.LineEvents.{HasListened, IsLedByLine, LineEvent};
ghost use Rattle.uug_session.specs.NodeRuns.{BeginsAsEnd, HasRun, IsLedByEvents};
ghost use Rattle.uug_link.specs.Entries.{EntryValue};
ghost use Rattle.uug_session.specs.EndStep.{Emitted};
ghost use Rattle.uug_session.specs.Engine.{BeginsSession, with_outbox};
ghost use Rattle.uug_session.specs.Node.{NodeState};
ghost use Rattle.uug_session.specs.NodeCalls.{Beside, Make, NodeCall};

/// States that some events lead a node from its state before any calls to its state after them.
pub fn calls_are_events()
    ensures { (h : Holdings) (most : ℕ) (calls : List NodeCall) (added : List EntryValue)
        (old new : Beside) → Make h most calls added old new
        → IsLedByEvents h old.kept new.kept old.node new.node }
{}

/// States that what comes at the line of a node, and was handled, is some events that lead it to its state after them.
pub fn what_is_heard_happens()
    ensures { (h : Holdings) (kept kept_after : List Kept) (es : List LineEvent)
        (emitted : List Emitted) (before after : NodeState)
        → HasListened h kept kept_after es emitted before after
        → IsLedByLine h kept kept_after es before after }
{}

/// States that a node that begins a session is an end at its beginning.
pub fn a_node_begins_as_an_end()
    ensures { (side : Side) (b : EndBeginning) (entries : List EntryValue) (n : NodeState)
        → BeginsSession (identity_of side b) b.own b.number b.lists entries n.engine
        → BeginsAsEnd side b n }
{}

/// States that the events that lead a node on follow those that led it there. If only its outbox was cleared, there
/// are none. A node that began a session, and was led on from there, has therefore run it up to its present state.
pub fn events_follow_events()
    ensures later { (h : Holdings) (kept kept_between kept_after : List Kept)
        (before between after : NodeState) → IsLedByEvents h kept kept_between before between
        → IsLedByEvents h kept_between kept_after between after
        → IsLedByEvents h kept kept_after before after }
    ensures cleared { (h : Holdings) (kept : List Kept) (before after : NodeState)
        → after.engine ≡ with_outbox after.engine.outbox before.engine
        → IsLedByEvents h kept kept before after }
    ensures runs { (side : Side) (b : EndBeginning) (kept : List Kept) (first now : NodeState)
        → BeginsAsEnd side b first → IsLedByEvents b.holdings b.kept kept first now
        → HasRun side b kept now }
{}
