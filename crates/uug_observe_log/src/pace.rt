//! The rate of a file transfer.
ghost use Rattle.std.specs.Prelude.{◌≡◌, ◌-◌};
ghost use Rattle.uug_observe_log.specs.Paces.{pace_after, pace_from, percent, rate};

/// The seconds after which the newer mark replaces the older one.
const MARK_SECONDS: u64 = 10;

/// The position of a file in a second of the session.
#[derive(Clone, Copy)]
pub struct Mark {
    pub second: u64,
    pub position: u64,
}

/// Two earlier marks of a file. The rate is taken from the older one. If a mark is taken each second, it covers the
/// last 10 to 20 seconds, or the time since the file began.
#[derive(Clone, Copy)]
pub struct Pace {
    older: Mark,
    newer: Mark,
}

impl Pace {
    /// Starts with both marks at `start`.
    pub fn new(start: Mark) -> Self
        ensures { result ≡ pace_from start }
    {
        Pace {
            older: start,
            newer: start,
        }
    }

    /// Takes the current mark, and keeps it if the newer one is old enough.
    pub fn take(&mut self, now: Mark)
        ensures { self.new ≡ pace_after self.old now }
    {
        if now.second.saturating_sub(self.newer.second) >= MARK_SECONDS {
            self.older = self.newer;
            self.newer = now;
        }
    }

    /// Returns the rate from the older mark to the current one, in bytes a second.
    pub fn rate(&self, now: Mark) -> u64
        ensures { result ≡ rate (now.position - self.now.older.position)
            (now.second - self.now.older.second) }
    {
        let bytes = now.position.saturating_sub(self.older.position);
        let seconds = now.second.saturating_sub(self.older.second);
        rate(bytes, seconds)
    }
}

/// Returns the bytes a second, or 0 if no second has passed.
fn rate(bytes: u64, seconds: u64) -> u64
    ensures { result ≡ rate bytes seconds }
{
    if seconds == 0 { 0 } else { bytes / seconds }
}

/// Returns the part of a file of this size that has passed, in percent. It is 100 for an empty file.
pub(crate) fn percent(position: u64, size: u32) -> u64
    ensures { result ≡ percent position size }
{
    if size == 0 {
        return 100;
    }
    let size = u64::from(size);
    position.min(size) * 100 / size
}
