ghost use Rattle.std.specs.Prelude.{◌≡◌, ◌≤◌, ◌<◌, ◌↔◌, IsTrue};
ghost use Rattle.uug_transfer.specs.ReadBudgets.{bytes_left, silences_left, stalls_left, Lasts};
ghost use Rattle.uug_transfer.specs.declared.read_budget.TheConstants.{SILENCES_MAX};

use crate::read_outcome::ReadOutcome;
use uug_link::TIMEOUTS_MAX;

/// The maximum number of bytes per read. A window of seven packets of 1,024 bytes fits.
pub const READ_MAX: usize = 8192;

/// The maximum number of bytes that a session reads.
pub const BYTES_MAX: u64 = 1_099_511_627_776;

/// The maximum number of silences in a row. The end itself gives up before.
pub const SILENCES_MAX: u8 = TIMEOUTS_MAX + 1;

/// The maximum number of writes in a row that take nothing. After the last one the line counts as gone, as an end gives
/// up after as many silent reads.
pub const STALLS_MAX: u8 = TIMEOUTS_MAX;

/// Returns how many more writes in a row may take nothing, after a write that took `count` bytes. Before it, `left`
/// were allowed.
#[tactic(auto, using(crate::proofs::BudgetLemmas::one_fewer, crate::proofs::BudgetLemmas::all_again))]
pub(crate) fn stalls_left(left: u8, count: usize) -> u8
    ensures { result ≡ stalls_left left count }
{
    if count == 0 {
        left.saturating_sub(1)
    } else {
        STALLS_MAX
    }
}

/// The bytes that an end may still read, and the silences that it may still wait for, before the line counts as gone.
#[derive(Clone, Copy)]
pub(crate) struct ReadBudget {
    /// The number of bytes left to read.
    pub(crate) bytes: u64,
    /// The number of silences in a row that are left.
    pub(crate) silences: u8,
}

impl ReadBudget {
    /// Creates the budget of a session of this many bytes.
    pub(crate) fn new(bytes: u64) -> Self
        ensures bytes { result.bytes ≡ bytes }
        ensures silences { result.silences ≡ SILENCES_MAX }
    {
        ReadBudget {
            bytes,
            silences: SILENCES_MAX,
        }
    }

    /// Returns whether any budget is left.
    pub(crate) fn lasts(&self) -> bool
        ensures { IsTrue result ↔ Lasts self.now.bytes self.now.silences }
    {
        self.bytes > 0 && self.silences > 0
    }

    /// Returns how many bytes the next read may bring to a buffer of this size.
    pub(crate) fn room(&self, size: usize) -> usize
        requires bytes { 0 < self.now.bytes }
        requires size { 0 < size }
        ensures some { 0 < result }
        ensures size { result ≤ size }
        ensures bytes { result ≤ self.now.bytes }
    {
        if self.bytes < size as u64 {
            self.bytes as usize
        } else {
            size
        }
    }

    /// Charges the budget for a read.
    pub(crate) fn spend(&mut self, outcome: ReadOutcome)
        ensures bytes { self.new.bytes ≡ bytes_left self.old.bytes outcome }
        ensures silences { self.new.silences ≡ silences_left self.old.silences outcome }
    {
        match outcome {
            ReadOutcome::Bytes(count) => {
                self.bytes = self.bytes.saturating_sub(count as u64);
                self.silences = SILENCES_MAX;
            }
            ReadOutcome::TimedOut => self.silences = self.silences.saturating_sub(1),
            ReadOutcome::Eof => self.bytes = 0,
        }
    }
}
