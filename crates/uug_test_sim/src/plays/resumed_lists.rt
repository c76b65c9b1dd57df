//! Noisy lists of several sessions over all combinations of the settings, with ends that resume files that were cut off.

use super::errands::{ERRANDS, End, Errand, end_of, other, side_word};
use super::numbers::Numbers;
use crate::assertions::assert_so_at;
use std::alloc::Global;
use std::process::Abort;
use std::test::Fail;
use uug_line::{Event, LineVerdict, Report, run};
use uug_session::{End as SessionEnd, Phase, Side};
use uug_sim_script::read_script;

/// The number of lists of events. The first 64 have each combination of the settings at both ends, the others have the
/// same settings at either end.
const LISTS: u32 = 100;

/// The number of noisy events in each list.
const EVENTS: u32 = 400;

/// More bytes than are ever on the line.
const ALL: u32 = 100_000;

/// The number of times that all on the line arrives at both ends, once it is clean.
const TURNS: u32 = 200;

const WINDOWS: [u8; 3] = [1, 2, 7];

const SIZES: [usize; 2] = [32, 64];

/// Mostly bytes that come, among them losses, damage, waiting and breaks.
fn noise(numbers: &mut Numbers) -> Event {
    let side = if numbers.below(2) == 0 {
        Side::Caller
    } else {
        Side::Called
    };
    match numbers.below(80) {
        0 => Event::Call,
        1 => Event::HangUp { side },
        2 | 3 => Event::Drop {
            side,
            n: numbers.below(60),
        },
        4 | 5 => Event::Flip {
            side,
            mask: numbers.byte(),
        },
        6 => Event::Insert {
            side,
            byte: numbers.byte(),
        },
        7 | 8 | 9 | 10 | 11 => Event::Timeout { side },
        12 | 13 | 14 | 15 => Event::Pass {
            side,
            n: numbers.below(50),
        },
        _ => Event::Pass { side, n: 1000 },
    }
}

fn add_noise(events: &mut Vec<Event>, list: u32) -> Result<(), Fail> {
    let mut numbers = Numbers { state: list };
    for _ in 0..EVENTS {
        events.push(noise(&mut numbers))?;
    }
    Ok(())
}

/// Appends a last session, on a line that loses nothing.
fn add_session(events: &mut Vec<Event>) -> Result<(), Fail> {
    events.push(Event::Call)?;
    for _ in 0..TURNS {
        events.push(Event::Pass {
            side: Side::Called,
            n: ALL,
        })?;
        events.push(Event::Pass {
            side: Side::Caller,
            n: ALL,
        })?;
    }
    Ok(())
}

/// The ends that have a setting.
#[derive(Clone, Copy)]
struct Sides {
    caller: bool,
    called: bool,
}

impl Sides {
    /// Returns the ends that have the setting of this place in the list of this number.
    fn of_list(list: u32, place: u32) -> Sides {
        let is_on = list >> (place % 8) & 1 == 1;
        let which = list.wrapping_add(place) % 3;
        let at_both = list < 64 || which == 2;
        Sides {
            caller: is_on && (at_both || which == 0),
            called: is_on && (at_both || which == 1),
        }
    }

    fn at(&self, side: Side) -> bool {
        match side {
            Side::Caller => self.caller,
            Side::Called => self.called,
        }
    }

    /// Appends the lines of this setting.
    fn add_to(&self, text: &mut String, before: &str, behind: &str) -> Result<(), Fail> {
        for side in [Side::Caller, Side::Called] {
            if self.at(side) {
                let side = side_word(side);
                write!(text, "{before} {side}{behind}\n")?;
            }
        }
        Ok(())
    }
}

/// The ends that announce digests, resume, and keep a number.
#[derive(Clone, Copy)]
struct Settings {
    digest: Sides,
    resume: Sides,
    number: Sides,
}

impl Settings {
    fn of_list(list: u32) -> Settings {
        Settings {
            digest: Sides::of_list(list, 3),
            resume: Sides::of_list(list, 4),
            number: Sides::of_list(list, 5),
        }
    }

    /// Returns whether the taker of the errand's file goes on with what it holds of it. An end that resumes announces
    /// digests, too.
    fn goes_on(&self, errand: &Errand) -> bool {
        let digests = self.digest.at(errand.giver) || self.resume.at(errand.giver);
        errand.owner == errand.giver && digests && self.resume.at(other(errand.giver))
    }

    /// Returns whether no end keeps a number, by which it may refuse the other.
    fn is_unnumbered(&self) -> bool {
        !self.number.caller && !self.number.called
    }
}

/// Appends the lines of the ends and their settings.
fn add_ends(text: &mut String, list: u32) -> Result<(), Fail> {
    let place = list as usize;
    let (caller, called) = (WINDOWS[place % 3], WINDOWS[place / 3 % 3]);
    let (small, large) = (SIZES[place % 2], SIZES[place / 2 % 2]);
    write!(text, "caller a {caller} {small}\n")?;
    write!(text, "called b {called} {large}\n")?;
    for (place, word) in ["short", "quiet", "lenient", "digest", "resume"]
        .iter()
        .enumerate()
    {
        Sides::of_list(list, place as u32).add_to(text, word, "")?;
    }
    Sides::of_list(list, 5).add_to(text, "number", " 3")
}

/// Appends the lines of the files and the jobs.
fn add_errands(alloc: Global, text: &mut String) -> Result<(), Fail> {
    for errand in ERRANDS {
        let bytes = errand.bytes(alloc)?;
        errand.add_to(text, &bytes)?;
    }
    Ok(())
}

fn script_of_list(alloc: Global, list: u32) -> Result<String, Fail> {
    let mut text = String::new(alloc);
    add_ends(&mut text, list)?;
    add_errands(alloc, &mut text)?;
    Ok(text)
}

fn events_of_list(alloc: Global, list: u32) -> Result<Vec<Event>, Fail> {
    let mut events = Vec::new(alloc);
    add_noise(&mut events, list)?;
    add_session(&mut events)?;
    Ok(events)
}

fn report_of_list(alloc: Global, list: u32) -> Result<Report<Global>, Fail> {
    let text = script_of_list(alloc, list)?;
    let events = events_of_list(alloc, list)?;
    let script = read_script(alloc, text.as_bytes())?;
    Ok(run(alloc, script.setup, events.as_slice())?)
}

/// The progress of a file, as somebody counts it who reads all messages.
#[derive(Clone, Copy)]
struct Progress {
    /// The number of its first bytes that the taker has.
    at: usize,
    /// The number before the last session that brought some. A file that came whole begins there once more, if the taker's
    /// word of that was lost.
    before: usize,
    /// The number of sessions that went on behind what had come.
    resumptions: usize,
}

/// Returns whether the piece is in the file, at this place.
fn is_piece(piece: &[u8], file: &[u8], place: usize) -> bool {
    place <= file.len() && file[place..].starts_with(piece)
}

impl Progress {
    /// Returns the place from which these bytes were sent on.
    fn start(&self, file: &[u8], sent: &[u8]) -> Option<usize> {
        if is_piece(sent, file, self.at) {
            Some(self.at)
        } else if self.at == file.len() && is_piece(sent, file, self.before) {
            Some(self.before)
        } else {
            None
        }
    }

    /// Counts a session in which these bytes were sent, and these taken. Returns whether it began behind those that had
    /// come.
    fn count(&mut self, file: &[u8], sent: &[u8], taken: &[u8], goes_on: bool) -> bool {
        let Some(start) = self.start(file, sent) else {
            return false;
        };
        if goes_on && !sent.is_empty() {
            if start > 0 {
                self.resumptions = self.resumptions.saturating_add(1);
            }
            self.before = start;
            self.at = start.saturating_add(taken.len());
        }
        sent.starts_with(taken)
    }
}

/// Counts the sessions that went on with the errand's file behind what had come. None if one did not, or sent something
/// again.
fn resumptions(
    alloc: Global,
    report: &Report<Global>,
    errand: &Errand,
    file: &[u8],
    goes_on: bool,
) -> Result<Option<usize>, Fail> {
    let mut progress = Progress {
        at: 0,
        before: 0,
        resumptions: 0,
    };
    for session in report.sessions() {
        let sent = errand.sent(alloc, session)?;
        let taken = errand.taken(alloc, session)?;
        if !progress.count(file, &sent, &taken, goes_on) {
            return Ok(None);
        }
    }
    Ok(Some(progress.resumptions))
}

fn has_no_job_left(end: &End) -> bool {
    end.queue().pending().is_empty()
}

/// Returns whether both ends came to the end of the last session.
fn is_done(report: &Report<Global>) -> bool {
    [report.caller(), report.called()].iter().all(|end| matches!(
        end.phase(),
        Phase::Ended(SessionEnd::Done)
    ))
}

/// Returns whether the end on this side has as many jobs as it was given, and stored nothing else.
fn has_no_other(report: &Report<Global>, side: Side) -> bool {
    let end = end_of(report, side);
    let queue = end.queue();
    let over = queue.struck().len().saturating_add(queue.failed().len());
    let jobs = queue.pending().len().saturating_add(over);
    let given = ERRANDS.iter().filter(|errand| errand.owner == side).count();
    let mut stored = 0usize;
    for errand in ERRANDS {
        if errand.giver == other(side) {
            stored = stored.saturating_add(errand.count_stored(report));
        }
    }
    jobs == given && stored == end.spool().stored().len()
}

/// Checks what became of the errand. Returns how many sessions went on with its file.
fn check_errand(
    rt: &(impl Abort + AllocGlobal),
    report: &Report<Global>,
    errand: &Errand,
    list: u32,
) -> Result<usize, Fail> {
    let bytes = errand.bytes(rt.alloc())?;
    assert_so_at(rt, errand.is_well(report, &bytes), list);
    if report.verdict() != LineVerdict::Clean {
        return Ok(0);
    }
    let goes_on = Settings::of_list(list).goes_on(errand);
    let resumptions = resumptions(rt.alloc(), report, errand, &bytes, goes_on)?;
    assert_so_at(rt, resumptions.is_some(), list);
    Ok(resumptions.unwrap_or(0))
}

/// Returns whether the last session left no job, where it had to.
fn is_over(report: &Report<Global>, list: u32) -> bool {
    if report.verdict() != LineVerdict::Clean {
        return true;
    }
    if !is_done(report) {
        return !Settings::of_list(list).is_unnumbered();
    }
    has_no_job_left(report.caller()) && has_no_job_left(report.called())
}

/// Checks what became of all errands. Returns how many sessions went on with a file, and how many jobs are done.
fn check_report(
    rt: &(impl Abort + AllocGlobal),
    report: &Report<Global>,
    list: u32,
) -> Result<(usize, usize), Fail> {
    for side in [Side::Caller, Side::Called] {
        assert_so_at(rt, has_no_other(report, side), list);
    }
    assert_so_at(rt, is_over(report, list), list);
    let mut resumptions = 0usize;
    for errand in ERRANDS {
        resumptions = check_errand(rt, report, &errand, list)?.saturating_add(resumptions);
    }
    let struck = ERRANDS
        .iter()
        .filter(|errand| errand.is_struck(report))
        .count();
    Ok((resumptions, struck))
}

fn check_list(rt: &(impl Abort + AllocGlobal), list: u32) -> Result<(usize, usize), Fail> {
    let report = report_of_list(rt.alloc(), list)?;
    let counts = check_report(rt, &report, list);
    drop(report);
    counts
}

#[test]
fn goes_on_with_files_on_noisy_lines(rt: HostRuntime) -> Result<(), Fail> {
    let (mut resumptions, mut struck) = (0usize, 0usize);
    for list in 0..LISTS {
        let (more, done) = check_list(&rt, list)?;
        resumptions = resumptions.saturating_add(more);
        struck = struck.saturating_add(done);
    }
    assert_so_at(&rt, resumptions >= 10, resumptions);
    assert_so_at(&rt, struck >= 300, struck);
    Ok(())
}
