//! The task of one end, and the terms read from it.
ghost use Rattle.std.specs.Prelude.{◌≡◌, ◌≢◌, ◌≤◌, ◌↔◌, IfSome, IsTrue, MatchOption, Some};
ghost use Rattle.uug_config.specs.Tasks.{IsSaidBy, IsTask, has_place, may_have, wait_at_device};
ghost use Rattle.uug_transfer.specs.LineNames.{line_of, shown, standard};

use crate::limits::Limits;
use crate::line_options::LineOptions;
use crate::outputs::Outputs;
use crate::session_settings::SessionSettings;
use crate::spool_options::SpoolOptions;
use std::time::Duration;
use uug_error::EndDir;
use uug_session::{FileLimit, Place, Side};
use uug_talk::Name;
use uug_taylor_text::is_system_name;
use uug_transfer::{LineName, Pace, PatienceLimits, SPEED_MAX, SPEED_MIN, packets, read_line_name};

/// The word in place of a system's name that lets any system of a spool call.
pub const ANY: &str = "*";

/// The maximum timeout of a line, in seconds.
pub const SECONDS_MAX: u32 = 600;

/// The minimum of the limit on the total size of the files that an end offers in a session, in bytes.
pub const MOST_MIN: u32 = 1_048_576;

/// The maximum time for which an end waits to be called, in seconds.
pub const WAIT_MAX: u32 = 1_000_000_000;

/// The maximum number of sessions of an end that is called at a socket.
pub const SESSIONS_MAX: u32 = 1_000_000;

/// The maximum number of days for which an end keeps a partial file that does not grow.
pub const KEEP_MAX: u32 = 3_650;

/// The default time for which an end waits to be called at a socket, in seconds: a day.
const WAIT: u32 = 86_400;

/// The task of one end.
#[derive(Clone, Copy, Debug, PartialEq, Eq)]
pub struct CallTask<'a> {
    /// The side of the end.
    pub side: Side,
    /// Its folder.
    pub dir: &'a str,
    /// Its name.
    pub me: &'a str,
    /// The other end's name.
    pub peer: &'a str,
    /// The options of its line.
    pub line: LineOptions<'a>,
    /// The settings of its sessions.
    pub settings: SessionSettings,
    /// Its limits.
    pub limits: Limits,
    /// Its outputs.
    pub outputs: Outputs<'a>,
    /// Set if its folder is a spool of Taylor UUCP.
    pub is_spool: bool,
    /// The options that only a spool has.
    pub spool: SpoolOptions<'a>,
    /// Set if a session in which jobs were given up counts as one that is not done.
    pub is_fail_status: bool,
}

/// The destination of an end's report.
#[derive(Clone, Copy, Debug, PartialEq, Eq)]
pub enum ReportPlace<'a> {
    /// The file of this path.
    File(&'a str),
    /// Standard error.
    Errors,
    /// Standard output.
    Output,
}

impl<'a> CallTask<'a> {
    /// Returns the destination of its end's report: the file that is named, else standard output, or standard error if
    /// standard output is its line.
    pub fn report_place(&self) -> ReportPlace<'a>
        ensures file { IfSome self.now.outputs.report (λ path. result ≡ ReportPlace.File path) }
        ensures apart { line_of self.now.line.name.now ≡ Some standard
            → result ≢ ReportPlace.Output }
        ensures output { line_of self.now.line.name.now ≢ Some standard
            → result ≢ ReportPlace.Errors }
        ensures printed { self.now.outputs.report ≡ None
            → line_of self.now.line.name.now ≢ Some standard → result ≡ ReportPlace.Output }
    {
        match (self.outputs.report, read_line_name(self.line.name)) {
            (Some(path), _) => ReportPlace::File(path),
            (None, Some(LineName::Standard)) => ReportPlace::Errors,
            (None, _) => ReportPlace::Output,
        }
    }

    /// Returns whether it may be run: its numbers are in their ranges, and its line and its names are valid.
    pub fn may_run(&self) -> bool
        ensures { IsTrue result ↔ IsTask self.now }
    {
        read_terms(self).is_some()
    }

    /// Returns the folder of the end.
    pub fn end_dir(&self) -> EndDir<'a> {
        EndDir {
            path: self.dir,
            number: 0,
        }
    }
}

/// The terms of a task, read from its words.
#[derive(Clone, Copy)]
pub struct Terms<'a> {
    pub line: LineName<'a>,
    pub station: Station,
}

/// The place of an end, and how long it waits there.
#[derive(Clone, Copy)]
pub struct Station {
    pub place: Place,
    pub pace: Pace,
    /// The seconds that the end waits to be called, if they are given.
    pub wait: Option<u32>,
    /// The maximum number of its sessions.
    pub sessions: u32,
}

impl Station {
    /// Returns the timeout of the line while nothing of this end is on the way.
    pub fn time(&self) -> Duration {
        self.pace.time(0)
    }

    /// Returns how long bytes may arrive at the line without progress.
    pub fn limits(&self) -> PatienceLimits {
        PatienceLimits::of_timer(self.pace.longest())
    }

    /// Returns the seconds for which an end on this side waits at a device for the first byte, in silence and without
    /// counting timeouts.
    pub fn wait_at_device(&self, side: Side) -> Option<u32>
        ensures { result ≡ wait_at_device side self.now.wait }
    {
        match side {
            Side::Called => self.wait,
            Side::Caller => None,
        }
    }

    /// Returns how long the end waits to be called at a socket.
    pub fn wait_at_socket(&self) -> Duration {
        Duration::from_secs(u64::from(self.wait.unwrap_or(WAIT)))
    }
}

/// Returns the terms of a task, if its numbers are in their ranges and its line and names are valid.
pub fn read_terms<'a>(task: &CallTask<'a>) -> Option<Terms<'a>>
    ensures said { MatchOption result (IsTask task.now → ⊥) (λ terms. IsSaidBy task.now terms) }
    ensures task { IfSome result (λ _. IsTask task.now) }
{
    if !is_within(Some(task.line.seconds), 1, SECONDS_MAX)
        || !is_within(task.line.speed, SPEED_MIN, SPEED_MAX)
        || !is_within(task.line.wait, 1, WAIT_MAX)
        || !is_within(Some(task.limits.sessions), 1, SESSIONS_MAX)
        || task.limits.most < MOST_MIN
        || FileLimit::new(task.limits.file_limit as usize).is_none()
        || !is_within(Some(task.limits.keep_days), 1, KEEP_MAX)
    {
        return None;
    }
    let announce = task.settings.announce()?;
    let line = read_line_name(task.line.name)?;
    if !may_have(task.limits.sessions, task.side, line) {
        return None;
    }
    let place = Place {
        me: Name::new(task.me.as_bytes()).ok()?,
        peer: Name::new(task.peer.as_bytes()).ok()?,
        announce,
        number: None,
    };
    if !has_place(task.is_spool, &place.peer) {
        return None;
    }
    Some(Terms {
        line,
        station: Station {
            place,
            pace: Pace {
                timeout: task.line.seconds,
                speed: task.line.speed,
                theirs: packets(announce.window(), announce.size() as u16),
            },
            wait: task.line.wait,
            sessions: task.limits.sessions,
        },
    })
}

/// Returns whether an end on this side may have this many sessions over its line. It may have more than one only if it
/// is called at a socket.
pub fn may_have(sessions: u32, side: Side, line: LineName<'_>) -> bool
    ensures { result ≡ may_have sessions side (shown line.entry) }
{
    match (side, line) {
        (Side::Called, LineName::Unix(_) | LineName::Tcp(_, _)) => true,
        _ => sessions == 1,
    }
}

/// Returns whether the other end may have this name. In a spool it is the name of a folder, so it has no slash and no
/// dot in front.
pub fn has_place(is_spool: bool, peer: &Name) -> bool
    ensures { result ≡ has_place is_spool peer.now }
{
    !is_spool || is_system_name(peer)
}

/// Returns whether a number is in its range, or there is none.
fn is_within(number: Option<u32>, least: u32, most: u32) -> bool
    ensures { IsTrue result ↔ IfSome number (λ n. (least ≤ n) × (n ≤ most)) }
{
    match number {
        Some(number) => least <= number && number <= most,
        None => true,
    }
}
