//! Deadlines of waits.

use std::io;
use std::time::{Clock, Duration, Instant};

/// The moment at which a time that began at `since` is over.
#[derive(Clone, Copy)]
pub struct Deadline {
    since: Instant,
    time: Duration,
}

impl Deadline {
    /// Returns the deadline that is this long from now.
    pub fn after<R: Clock>(rt: &R, time: Duration) -> io::Result<Deadline> {
        Ok(Deadline {
            since: Instant::now(rt)?,
            time,
        })
    }

    /// Returns the time that is left, or `None` if the deadline has passed.
    pub fn left<R: Clock>(&self, rt: &R) -> io::Result<Option<Duration>> {
        let left = self.time.saturating_sub(self.since.elapsed(rt)?);
        if left.is_zero() {
            Ok(None)
        } else {
            Ok(Some(left))
        }
    }
}
