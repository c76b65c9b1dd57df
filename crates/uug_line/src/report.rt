ghost use Rattle.std.specs.Prelude.{◌≡◌, ◌↔◌, List, IsTrue, map};
ghost use Rattle.uug_line.specs.declared.event.Event.{Event};
ghost use Rattle.uug_line.specs.Belongings.{SetupValue};
ghost use Rattle.uug_line.specs.OfSomeRun.{IsOfSomeRun, IsRunOf};
ghost use Rattle.uug_conversation.specs.Sides.{at};
ghost use Rattle.uug_line.specs.Settle.{MaySettle};
ghost use Rattle.uug_line.specs.Settled.{CanSettle, EndCanSettle};
ghost use Rattle.uug_line.specs.Shown.{HasSaidAll, held_at, owned_by, session_shown, spool_of, stands_so};
ghost use Rattle.uug_line.specs.World.{world};

use crate::line::Line;
use crate::verdict::LineVerdict;
use std::alloc::Allocator;
use std::marker::Model;
use uug_session::{MemorySpool, Node, Phase, Side};

/// The report of an end in a session.
#[derive(Drop)]
pub struct EndReport<A: Allocator> {
    /// The messages that it sent, in the order of their first sending.
    pub sent: Vec<Vec<u8, A>, A>,
    /// The messages that it took, in order.
    pub taken: Vec<Vec<u8, A>, A>,
    /// The encoded form of each packet that it emitted.
    pub packets: Vec<Vec<u8, A>, A>,
    /// The places of the packets that it found, among those that the other end emitted.
    pub arrivals: Vec<usize, A>,
    /// The most packets that were unacknowledged after any call.
    pub most: usize,
    /// The phase that it reached.
    pub phase: Phase,
}

/// The report of the two ends in a session.
#[derive(Drop)]
pub struct SessionReport<A: Allocator> {
    /// The end that called.
    pub caller: EndReport<A>,
    /// The end that was called.
    pub called: EndReport<A>,
}

/// The report of a run. Whoever made it, it is the world's report of some two ends and some events: its type keeps
/// that, and `sessions` promises it. `world_laws::the_headline` is about all ends and events, and holds of each report.
/// Clauses see the sessions' reports, what the ends have and hold, and the verdict.
#[derive(Drop)]
pub struct Report<A: Allocator + Copy> {
    pub(crate) sessions: Vec<SessionReport<A>, A>,
    pub(crate) caller: LastEnd<A>,
    pub(crate) called: LastEnd<A>,
    pub(crate) verdict: LineVerdict,
}

/// An end at the end of a run.
#[derive(Drop)]
pub(crate) struct LastEnd<A: Allocator + Copy> {
    pub(crate) node: Box<Node<MemorySpool<A>, A>, A>,
    /// The bytes that it has emitted and that are on their way to the other end.
    pub(crate) line: Line<A>,
    /// The number of the other end's packets that were found or skipped.
    pub(crate) passed: usize,
}

impl<A: Allocator + Copy> Model for Report<A> {
    ghost use Rattle.uug_line.specs.OfSomeRun.{IsOfSomeRun};
    ghost use Rattle.uug_line.specs.Shown.{HasSaidAll};
    ghost use Rattle.uug_line.specs.WholeReport.{WholeReport, report_shown};

    ghost Value = { WholeReport };

    ghost view = { λ r. report_shown r.sessions.items r.caller r.called r.verdict };

    ghost invariant = { λ r. IsOfSomeRun (report_shown r.sessions.items r.caller r.called r.verdict)
        × HasSaidAll r.caller.node.value × HasSaidAll r.called.node.value };
}

impl<A: Allocator + Copy> Report<A> {
    /// Returns the sessions in order, the present one last.
    pub fn sessions(&self) -> &[SessionReport<A>]
        ensures sessions { map session_shown result.now ≡ self.now.told.sessions }
        ensures of_a_run { IsOfSomeRun self.now }
    {
        self.sessions.as_slice()
    }

    /// Returns the calling end in its present state.
    pub fn caller(&self) -> &Node<MemorySpool<A>, A>
        ensures stands { stands_so result.now ≡ self.now.told.ends.at_caller }
        ensures has { owned_by result.now ≡ self.now.told.belongings.at_caller }
        ensures spool { spool_of result.now ≡ self.now.spools.at_caller }
        ensures holds { held_at result.now ≡ self.now.held.at_caller }
        ensures said { HasSaidAll result.now }
    {
        &*self.caller.node
    }

    /// Returns the called end in its present state.
    pub fn called(&self) -> &Node<MemorySpool<A>, A>
        ensures stands { stands_so result.now ≡ self.now.told.ends.at_called }
        ensures has { owned_by result.now ≡ self.now.told.belongings.at_called }
        ensures spool { spool_of result.now ≡ self.now.spools.at_called }
        ensures holds { held_at result.now ≡ self.now.held.at_called }
        ensures said { HasSaidAll result.now }
    {
        &*self.called.node
    }

    /// Returns the bytes on their way from the end on this side.
    pub fn line_from(&self, side: Side) -> &[u8]
        ensures { result.now ≡ (at side self.now.left).line }
    {
        match side {
            Side::Caller => self.caller.line.bytes(),
            Side::Called => self.called.line.bytes(),
        }
    }

    /// Returns the verdict: whether each packet that was found had been sent.
    pub fn verdict(&self) -> LineVerdict
        ensures { result ≡ self.now.told.verdict }
    {
        self.verdict
    }

    /// Returns whether `settle` may be called: each packet that was found had been sent, both ends talk, neither is
    /// quiet on repeats or has counted more than six timeouts in a row, and nothing waits at an end or on the line.
    pub fn can_settle(&self) -> bool
        ensures told { IsTrue result ↔ CanSettle self.now }
        // So it is exactly where the world may settle.
        ensures world { (setup : SetupValue) (events : List Event) → IsRunOf setup events self.now
            → IsTrue result ↔ MaySettle (world setup events) }
    {
        self.is_quiet()
    }

    /// Returns whether the verdict is clean and both ends can settle.
    fn is_quiet(&self) -> bool
        ensures { IsTrue result ↔ CanSettle self.now }
    {
        matches!(self.verdict, LineVerdict::Clean)
            && self.caller.can_settle()
            && self.called.can_settle()
    }
}

/// The most timeouts in a row that an end may have counted before it settles.
pub const TIMEOUTS_BEFORE: u8 = 6;

impl<A: Allocator + Copy> LastEnd<A> {
    /// Returns whether the end talks, is not quiet on repeats, and has not counted too many timeouts, and nothing waits
    /// at it or on the line from it.
    fn can_settle(&self) -> bool
        ensures { IsTrue result ↔ EndCanSettle (stands_so self.now.node.value)
            (held_at self.now.node.value) self.now.line }
    {
        let talks = matches!(self.node.phase(), Phase::Talking);
        talks
            && !self.node.is_quiet()
            && self.node.timeouts() <= TIMEOUTS_BEFORE
            && self.node.waiting() == 0
            && self.line.len() == 0
    }
}
