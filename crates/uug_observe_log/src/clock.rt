//! The time of a log line.
ghost use Rattle.std.specs.Prelude.{◌≡◌};
ghost use Rattle.uug_observe_log.specs.Logged.{moment_at};

use jiff_core::civil::DateTime;
use jiff_core::{Error, Timestamp};
use jiff_tz::{SystemTimeZone, TimeZone, TimeZoneDatabase};
use std::rt::{Env, Files};
use std::time::Clock;
use std::{env, fs};
use uug_taylor_text::Moment;

/// The folder of the files of the system's time zones.
const ZONES: &str = "/usr/share/zoneinfo";

/// The clock of the system, in local time. It shows UTC if its time zone can't be read.
#[derive(Drop)]
pub struct LocalClock {
    zone: Option<SystemTimeZone>,
    zones: TimeZoneDatabase,
}

impl LocalClock {
    /// Reads the time zone that `TZ` or the system names.
    pub fn read<R: Env + Files + AllocGlobal>(rt: &R) -> Self {
        let mut zones = TimeZoneDatabase::new(rt.alloc());
        if let Ok(name) = env::var(rt, "TZ") {
            // If the zone can't be read, the clock shows UTC.
            let _ = add_zone(rt, &mut zones, name.as_str());
        }
        LocalClock {
            zone: SystemTimeZone::read(rt).ok(),
            zones,
        }
    }

    /// Returns the current moment, or the beginning of 1970 if the system does not report it.
    pub fn now<R: Clock>(&self, rt: &R) -> Moment {
        moment_of(self.zone().to_datetime(instant(rt)))
    }

    fn zone(&self) -> TimeZone<'_> {
        let Some(zone) = &self.zone else {
            return TimeZone::UTC;
        };
        zone.time_zone(&self.zones).unwrap_or(TimeZone::UTC)
    }
}

/// Adds the zone of this name from its file.
fn add_zone<R: Files + AllocGlobal>(
    rt: &R,
    zones: &mut TimeZoneDatabase,
    name: &str,
) -> Result<(), Error> {
    let name = name.strip_prefix(':').unwrap_or(name);
    let path = format!(in rt.alloc(); "{ZONES}/{name}")?;
    let bytes = fs::read(rt, path.as_str())?;
    zones.insert(name, bytes.as_slice())
}

/// Returns the instant of the system's clock, or the beginning of 1970.
fn instant<R: Clock>(rt: &R) -> Timestamp {
    let Ok(since) = rt.since_1970() else {
        return Timestamp::UNIX_EPOCH;
    };
    Timestamp::from_nanosecond(since.as_nanos() as i128).unwrap_or(Timestamp::UNIX_EPOCH)
}

/// Converts a date and time that a clock shows to a moment.
fn moment_of(shown: DateTime) -> Moment
    ensures { result ≡ moment_at shown }
{
    let DateTime { date, time } = shown;
    Moment {
        year: date.year.unsigned_abs(),
        month: date.month,
        day: date.day,
        hour: time.hour,
        minute: time.minute,
        second: time.second,
        hundredths: (time.subsec_nanosecond / 10_000_000 % 100) as u8,
    }
}
