ghost use Rattle.std.specs.Prelude.{◌≡◌, ◌-◌, length, map, slice_get, MatchOption, None, Some};
ghost use Rattle.uug_line.specs.Shown.{end_shown, owned_by, session_shown};
ghost use Rattle.uug_sim_ladder.specs.Moments.{last_of, mark_at, mark_by, moment_told};

use std::alloc::Allocator;
use uug_line::{EndReport, Report, SessionReport, Side};
use uug_session::{MemorySpool, Node, Phase};

/// The counts of an end in the present session, and those of its jobs.
#[derive(Clone, Copy)]
pub(crate) struct Mark {
    /// The number of packets that it has sent.
    pub(crate) packets: usize,
    /// The number of messages that it has taken.
    pub(crate) taken: usize,
    /// The phase of its session.
    pub(crate) phase: Phase,
    /// The number of its jobs that are done.
    pub(crate) struck: usize,
    /// The number of its jobs that were given up.
    pub(crate) failed: usize,
    /// The number of files that it has stored.
    pub(crate) stored: usize,
}

/// The counts of both ends.
#[derive(Clone, Copy)]
pub(crate) struct Moment {
    /// The number of the present session, from 1.
    pub(crate) session: usize,
    pub(crate) caller: Mark,
    pub(crate) called: Mark,
}

fn mark_of<A: Allocator + Copy>(end: &EndReport<A>, node: &Node<MemorySpool<A>, A>) -> Mark
    ensures { result ≡ mark_by (end_shown end.now) (owned_by node.now) }
{
    let queue = node.queue();
    Mark {
        packets: end.packets.len(),
        taken: end.taken.len(),
        phase: end.phase,
        struck: queue.struck().len(),
        failed: queue.failed().len(),
        stored: node.spool().stored().len(),
    }
}

/// Returns the last session.
pub(crate) fn last_of<A: Allocator>(sessions: &[SessionReport<A>]) -> Option<&SessionReport<A>>
    ensures { MatchOption result
        (last_of (map session_shown sessions.now) ≡ None)
        (λ session. last_of (map session_shown sessions.now) ≡ Some (session_shown session.now)) }
{
    sessions.last()
}

/// Returns the counts of both ends at the end of a run, which has one session at least.
pub(crate) fn moment_of<A: Allocator + Copy>(report: &Report<A>) -> Option<Moment>
    ensures { result ≡ moment_told report.now.told }
{
    let sessions = report.sessions();
    let last = last_of(sessions)?;
    Some(Moment {
        session: sessions.len(),
        caller: mark_of(&last.caller, report.caller()),
        called: mark_of(&last.called, report.called()),
    })
}
