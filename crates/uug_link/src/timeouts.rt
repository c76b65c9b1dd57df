ghost use Rattle.std.specs.Prelude.{◌≡◌, ◌+◌, ◌<◌, ◌≤◌, MatchOption};
ghost use Rattle.uug_link.specs.declared.limits.TheConstants.{TIMEOUTS_MAX};

use crate::limits::TIMEOUTS_MAX;

/// The number of timeouts in a row without progress.
#[derive(Clone, Copy)]
pub(crate) struct Timeouts {
    count: u8,
    ghost counted: { count ≤ TIMEOUTS_MAX },
}

impl Timeouts {
    pub(crate) fn none() -> Self
        ensures { result.count ≡ 0 }
    {
        Timeouts { count: 0 }
    }

    /// Makes the number of timeouts that ends a link.
    pub(crate) fn most() -> Self
        ensures { result.count ≡ TIMEOUTS_MAX }
    {
        Timeouts {
            count: TIMEOUTS_MAX,
        }
    }

    pub(crate) fn count(self) -> u8
        ensures count { result ≡ self.count }
        ensures most { result ≤ TIMEOUTS_MAX }
    {
        self.count
    }

    /// Returns one more, or none if that ends the link.
    pub(crate) fn next(self) -> Option<Self>
        ensures { MatchOption result (TIMEOUTS_MAX ≤ self.count + 1)
            (λ more. (more.count ≡ self.count + 1) × (self.count + 1 < TIMEOUTS_MAX)) }
    {
        let count = self.count + 1;
        if count < TIMEOUTS_MAX {
            Some(Timeouts { count })
        } else {
            None
        }
    }
}
