//! Finds the first wrong part of a task that may not be run.
ghost use Rattle.std.specs.Prelude.{◌≡◌, ◌≤◌, ◌↔◌, IfSome, IsTrue, MatchOption, true};
ghost use Rattle.uug_link.specs.Terms.{IsSize};
ghost use Rattle.uug_config.specs.Tasks.{IsTask};
ghost use Rattle.uug_cli.specs.Parts.{IsFirstWrong, IsRight};

use uug_config::{
    CallTask, KEEP_MAX, MOST_MIN, SECONDS_MAX, SESSIONS_MAX, WAIT_MAX, has_place, may_have,
};
use uug_link::{Announce, WINDOW_MAX};
use uug_talk::{FILE_LIMIT_MAX, Name};
use uug_transfer::{SPEED_MAX, SPEED_MIN, read_line_name};

/// A part of the task of one end.
#[derive(Clone, Copy, Debug, PartialEq, Eq)]
pub enum Part {
    /// The timeout of the line, in seconds.
    Seconds,
    /// The speed of its line, in bits a second.
    Speed,
    /// The seconds that it waits to be called.
    Wait,
    /// The maximum number of its sessions.
    Sessions,
    /// The window.
    Window,
    /// The packet size.
    Size,
    /// The maximum total size of the files that it offers, in bytes.
    Most,
    /// The maximum size of a file that it gives or takes, in bytes.
    FileLimit,
    /// The days for which it keeps a partial file.
    KeepDays,
    /// The name of its line.
    Line,
    /// Its name.
    Me,
    /// The other end's name.
    Peer,
    /// The other end's name, as the name of its folder in a spool.
    Place,
    /// The number of its sessions, which is more than one only at a socket.
    Turns,
}

/// Returns the first wrong part of a task, if there is one.
pub fn wrong_part(task: &CallTask<'_>) -> Option<Part>
    ensures { MatchOption result (IsTask task.now) (IsFirstWrong task.now) }
{
    if !is_right(task, Part::Seconds) {
        return Some(Part::Seconds);
    }
    if !is_right(task, Part::Speed) {
        return Some(Part::Speed);
    }
    if !is_right(task, Part::Wait) {
        return Some(Part::Wait);
    }
    if !is_right(task, Part::Sessions) {
        return Some(Part::Sessions);
    }
    if !is_right(task, Part::Window) {
        return Some(Part::Window);
    }
    if !is_right(task, Part::Size) {
        return Some(Part::Size);
    }
    if !is_right(task, Part::Most) {
        return Some(Part::Most);
    }
    if !is_right(task, Part::FileLimit) {
        return Some(Part::FileLimit);
    }
    if !is_right(task, Part::KeepDays) {
        return Some(Part::KeepDays);
    }
    if !is_right(task, Part::Line) {
        return Some(Part::Line);
    }
    if !is_right(task, Part::Me) {
        return Some(Part::Me);
    }
    if !is_right(task, Part::Peer) {
        return Some(Part::Peer);
    }
    if !is_right(task, Part::Place) {
        return Some(Part::Place);
    }
    if !is_right(task, Part::Turns) {
        return Some(Part::Turns);
    }
    None
}

/// Returns whether this part of a task is right.
fn is_right(task: &CallTask<'_>, part: Part) -> bool
    ensures { IsTrue result ↔ IsRight task.now part }
{
    match part {
        Part::Seconds => is_within(Some(task.line.seconds), 1, SECONDS_MAX),
        Part::Speed => is_within(task.line.speed, SPEED_MIN, SPEED_MAX),
        Part::Wait => is_within(task.line.wait, 1, WAIT_MAX),
        Part::Sessions => is_within(Some(task.limits.sessions), 1, SESSIONS_MAX),
        Part::Window => is_within(Some(task.settings.window), 1, u32::from(WINDOW_MAX)),
        Part::Size => is_size(task.settings.size),
        Part::Most => task.limits.most >= MOST_MIN,
        Part::FileLimit => is_within(Some(task.limits.file_limit), 1, FILE_LIMIT_MAX as u32),
        Part::KeepDays => is_within(Some(task.limits.keep_days), 1, KEEP_MAX),
        Part::Line => read_line_name(task.line.name).is_some(),
        Part::Me => Name::new(task.me.as_bytes()).is_ok(),
        Part::Peer => Name::new(task.peer.as_bytes()).is_ok(),
        Part::Place => is_place(task),
        Part::Turns => has_turns(task),
    }
}

/// Returns whether a number is in its range, or there is none.
fn is_within(number: Option<u32>, least: u32, most: u32) -> bool
    ensures { IsTrue result ↔ IfSome number (λ n. (least ≤ n) × (n ≤ most)) }
{
    match number {
        Some(number) => least <= number && number <= most,
        None => true,
    }
}

/// Returns whether the name of the other end has a place in the spool. An invalid name passes: `Part::Peer` is wrong
/// then.
fn is_place(task: &CallTask<'_>) -> bool
    ensures { IsTrue result ↔ IsRight task.now Part.Place }
{
    match Name::new(task.peer.as_bytes()) {
        Ok(peer) => has_place(task.is_spool, &peer),
        Err(_) => true,
    }
}

/// Returns whether an end may have this many sessions at its line. An invalid line passes: `Part::Line` is wrong then.
fn has_turns(task: &CallTask<'_>) -> bool
    ensures { IsTrue result ↔ IsRight task.now Part.Turns }
{
    match read_line_name(task.line.name) {
        Some(line) => may_have(task.limits.sessions, task.side, line),
        None => true,
    }
}

/// Returns whether packets may have this size.
fn is_size(size: u32) -> bool
    ensures { IsTrue result ↔ IsSize size }
{
    Announce::new(1, size as usize).is_ok()
}
