//! The time of the system's clock, as in a status.

use std::time::{Clock, SystemTime, UNIX_EPOCH};

/// Returns the seconds since 1970, at most `u32::MAX`, or 0 if the clock fails or is before 1970.
pub fn seconds_since_1970<R: Clock>(rt: &R) -> u32 {
    let Ok(time) = SystemTime::now(rt) else {
        return 0;
    };
    match time.duration_since(UNIX_EPOCH) {
        Ok(time) => u32::try_from(time.as_secs()).unwrap_or(u32::MAX),
        Err(_) => 0,
    }
}
