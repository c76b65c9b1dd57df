//! The patience of an end at a line that brings bytes but no progress.
ghost use Rattle.std.specs.Prelude.{◌≡◌, ◌*◌, ◌↔◌, IsTrue, max};
ghost use Rattle.uug_session.specs.Node.{node_of};
ghost use Rattle.uug_transfer.specs.Patience.{HasPatience, Notes, standing_of};
ghost use Rattle.uug_transfer.specs.declared.patience.TheConstants.{GREETING_SECONDS, GREETING_TIMERS, SESSION_TIMERS};

use crate::read_outcome::ReadOutcome;
use std::alloc::Allocator;
use uug_session::{Node, Phase, Spool};

/// The minimum limit of the greeting, in seconds.
pub const GREETING_SECONDS: u64 = 60;

/// The limit of the greeting at a line with a long timer, as a number of timers.
pub const GREETING_TIMERS: u64 = 6;

/// The limit of a session without progress, as a number of timers.
pub const SESSION_TIMERS: u64 = 20;

/// The limits on the seconds without progress while bytes come.
#[derive(Clone, Copy, Debug, PartialEq, Eq)]
pub struct PatienceLimits {
    /// The limit of the whole greeting: no step of it counts as progress.
    pub greeting: u64,
    /// The limit after the greeting.
    pub session: u64,
}

impl PatienceLimits {
    /// Returns the limits for a line whose reads wait this many seconds.
    pub fn of_timer(seconds: u32) -> Self
        ensures greeting { result.greeting ≡ max GREETING_SECONDS (GREETING_TIMERS * seconds) }
        ensures session { result.session ≡ SESSION_TIMERS * seconds }
    {
        let timer = u64::from(seconds);
        PatienceLimits {
            greeting: GREETING_SECONDS.max(GREETING_TIMERS * timer),
            session: SESSION_TIMERS * timer,
        }
    }
}

/// The part of a session's state whose changes are progress. Both numbers are modulo eight. The bytes of one read move
/// each by at most seven, unless the other end sends more than it may.
#[derive(Clone, Copy, Debug, PartialEq, Eq)]
pub(crate) struct Standing {
    pub(crate) phase: Phase,
    /// The number of the oldest message that was sent and not acknowledged.
    pub(crate) oldest: u8,
    /// The number of the next data packet to be taken.
    pub(crate) expected: u8,
}

impl Standing {
    /// Returns the standing of this end's session.
    pub(crate) fn of<S: Spool, A: Allocator + Copy>(node: &Node<S, A>) -> Self
        ensures { result ≡ standing_of (node_of node.now) }
    {
        Standing {
            phase: node.phase(),
            oldest: node.oldest(),
            expected: node.expected(),
        }
    }

    /// Returns whether both are equal: no progress was made.
    fn is(self, other: Standing) -> bool
        ensures { IsTrue result ↔ (self ≡ other) }
    {
        self == other
    }
}

/// The progress of an end over time, and its limits.
#[derive(Clone, Copy)]
pub(crate) struct Patience {
    pub(crate) limits: PatienceLimits,
    /// The standing of its session when bytes came last.
    pub(crate) standing: Standing,
    /// The second of the line in which it reached this standing.
    pub(crate) since: u64,
    /// The second in which bytes came last.
    pub(crate) heard: u64,
}

impl Patience {
    /// Starts the patience of a session that begins in this second.
    pub(crate) fn new(limits: PatienceLimits, standing: Standing, second: u64) -> Self
        ensures limits { result.limits ≡ limits }
        ensures standing { result.standing ≡ standing }
        ensures since { result.since ≡ second }
        ensures heard { result.heard ≡ second }
    {
        Patience {
            limits,
            standing,
            since: second,
            heard: second,
        }
    }

    /// Notes a read's outcome, and the standing of the session after it, in this second. A silence changes nothing
    /// here: silences have a separate limit.
    pub(crate) fn note(&mut self, outcome: ReadOutcome, standing: Standing, second: u64)
        ensures { Notes outcome standing second self.old self.new }
    {
        if let ReadOutcome::Bytes(_) = outcome {
            if !self.standing.is(standing) {
                self.standing = standing;
                self.since = second;
            }
            self.heard = second;
        }
    }

    /// Returns whether the session may go on: its last progress is within the limit.
    pub(crate) fn holds(&self) -> bool
        ensures { IsTrue result ↔ HasPatience self.now }
    {
        let limit = match self.standing.phase {
            Phase::Hail => self.limits.greeting,
            _ => self.limits.session,
        };
        self.heard.saturating_sub(self.since) <= limit
    }
}
