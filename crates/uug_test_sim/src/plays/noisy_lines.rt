//! Checks what an end may count on over any line, in reports of noisy lines.
ghost use Rattle.uug_line.specs.Settled.{CanSettle};

use super::numbers::Numbers;
use crate::assertions::assert_so_at;
use std::alloc::Global;
use std::process::Abort;
use std::test::Fail;
use uug_line::{EndReport, Event, LineVerdict, Report, Side, run, settle};
use uug_session::{End as SessionEnd, FileView, Job, MemorySpool, Node, Phase, Spool, Stored};
use uug_sim_script::read_script;
use uug_talk::Name;

/// The number of lists of events.
const LISTS: u32 = 100;

/// The number of events in each list.
const EVENTS: u32 = 240;

/// More bytes than are ever on the line.
const ALL: u32 = 100_000;

/// The number of times that all on the line arrives at both ends, once it is clean.
const TURNS: u32 = 160;

const WINDOWS: [u8; 3] = [1, 2, 7];

const SIZES: [usize; 2] = [32, 64];

/// The files and jobs of both ends. Each job has a target of its own.
const JOBS: &str = "file caller x 0600 -\n\
    file caller y 0644 000102030405060708090a0b0c0d0e0f101112131415161718191a1b1c1d1e1f\
    202122232425262728292a2b2c2d2e2f303132333435363738393a3b3c3d3e3f\
    404142434445464748494a4b4c4d4e4f505152535455565758595a5b5c5d5e5f60616263\n\
    file called p 0755 10096faa3bf7100900\n\
    send caller x first u\nsend caller y second u\nrequest caller p third u\nsend caller y fourth u\n\
    immovable called fourth\nsend called p fifth u\nrequest called y sixth u\n";

impl Numbers {
    /// Mostly bytes that come, among them losses, damage, waiting and breaks.
    fn event(&mut self) -> Event {
        let side = if self.below(2) == 0 {
            Side::Caller
        } else {
            Side::Called
        };
        match self.below(60) {
            0 | 1 => Event::Call,
            2 => Event::HangUp { side },
            3 | 4 => Event::Drop {
                side,
                n: self.below(60),
            },
            5 | 6 => Event::Flip {
                side,
                mask: self.byte(),
            },
            7 => Event::Insert {
                side,
                byte: self.byte(),
            },
            8 | 9 | 10 | 11 => Event::Timeout { side },
            12 | 13 | 14 | 15 => Event::Pass {
                side,
                n: self.below(50),
            },
            _ => Event::Pass { side, n: 1000 },
        }
    }
}

/// The events of the list of this number.
fn events_of_list(alloc: Global, list: u32) -> Result<Vec<Event>, Fail> {
    let mut numbers = Numbers { state: list };
    let mut events = Vec::new(alloc);
    for _ in 0..EVENTS {
        events.push(numbers.event())?;
    }
    Ok(events)
}

/// The windows that the ends announce in the list of this number.
fn windows_of_list(list: usize) -> (u8, u8) {
    (WINDOWS[list % 3], WINDOWS[list / 3 % 3])
}

/// The lines that make neither end quiet on repeats, the caller, the called end, and both.
const QUIET_LINES: [&str; 4] = [
    "",
    "quiet caller\n",
    "quiet called\n",
    "quiet caller\nquiet called\n",
];

/// The lines that make the commands of neither end short, the caller's, the called end's, and those of both.
const SHORT_LINES: [&str; 4] = [
    "",
    "short caller\n",
    "short called\n",
    "short caller\nshort called\n",
];

/// The lines that make neither end lenient, the caller, the called end, and both.
const LENIENT_LINES: [&str; 4] = [
    "",
    "lenient caller\n",
    "lenient called\n",
    "lenient caller\nlenient called\n",
];

/// Lets neither end tell digests, the caller, the called end, and both.
const DIGEST_LINES: [&str; 4] = [
    "",
    "digest caller\n",
    "digest called\n",
    "digest caller\ndigest called\n",
];

/// Holds the windows that the ends announce, and the lines that set them.
#[derive(Clone, Copy, Debug)]
struct Settings {
    windows: (u8, u8),
    quiet: &'static str,
    short: &'static str,
    lenient: &'static str,
    digest: &'static str,
}

impl Settings {
    /// Returns those of the list of this number. Among the lists each combination of the first three lines occurs, and each of the
    /// last.
    fn of_list(list: u32) -> Self {
        Settings {
            quiet: QUIET_LINES[list as usize / 5 % 4],
            ..Settings::plain_of_list(list)
        }
    }

    /// The same, where neither end is quiet on repeats.
    fn plain_of_list(list: u32) -> Self {
        Settings {
            windows: windows_of_list(list as usize),
            quiet: "",
            short: SHORT_LINES[list as usize / 20 % 4],
            lenient: LENIENT_LINES[(list as usize + list as usize / 4) % 4],
            digest: DIGEST_LINES[(list as usize / 3 + list as usize / 20) % 4],
        }
    }

    /// Returns those of ends that announce this window, with nothing set.
    fn off(window: u8) -> Self {
        Settings {
            windows: (window, window),
            quiet: "",
            short: "",
            lenient: "",
            digest: "",
        }
    }
}

/// The report of the list of this number, with these events, and with ends that are set so.
fn report_with(
    alloc: Global,
    list: u32,
    settings: Settings,
    events: &[Event],
) -> Result<Report<Global>, Fail> {
    let (small, large) = (SIZES[list as usize % 2], SIZES[list as usize / 2 % 2]);
    let Settings {
        windows: (caller, called),
        quiet,
        short,
        lenient,
        digest,
    } = settings;
    let text = format!(in alloc;
        "caller a {caller} {small}\ncalled b {called} {large}\n{quiet}{short}{lenient}{digest}{JOBS}"
    )?;
    report_of(alloc, text.as_str(), events)
}

/// The report of these events between the ends that the text sets up.
fn report_of(alloc: Global, text: &str, events: &[Event]) -> Result<Report<Global>, Fail> {
    let script = read_script(alloc, text.as_bytes())?;
    Ok(run(alloc, script.setup, events)?)
}

/// Returns the report of the list of this number, with ends that are set so.
fn report_of_list(alloc: Global, list: u32, settings: Settings) -> Result<Report<Global>, Fail> {
    let events = events_of_list(alloc, list)?;
    report_with(alloc, list, settings, events.as_slice())
}

/// The events of the list of this number, and then all is lost that is on the line.
fn events_up_to_silence(alloc: Global, list: u32) -> Result<Vec<Event>, Fail> {
    let mut events = events_of_list(alloc, list)?;
    for side in [Side::Caller, Side::Called] {
        events.push(Event::Drop { side, n: ALL })?;
    }
    Ok(events)
}

/// The same, and then both ends wait too long, and what they emit comes, again and again.
fn events_up_to_the_end(alloc: Global, list: u32) -> Result<Vec<Event>, Fail> {
    let mut events = events_up_to_silence(alloc, list)?;
    for turn in 0..TURNS {
        if turn % 8 == 0 {
            events.push(Event::Timeout { side: Side::Caller })?;
            events.push(Event::Timeout { side: Side::Called })?;
        }
        events.push(Event::Pass {
            side: Side::Called,
            n: ALL,
        })?;
        events.push(Event::Pass {
            side: Side::Caller,
            n: ALL,
        })?;
    }
    Ok(events)
}

/// The report of the list of this number as far as all is lost that is on the line, with ends that are set so.
fn report_up_to_silence(
    alloc: Global,
    list: u32,
    settings: Settings,
) -> Result<Report<Global>, Fail> {
    let events = events_up_to_silence(alloc, list)?;
    report_with(alloc, list, settings, events.as_slice())
}

/// The report of the same list with a clean line behind it.
fn report_up_to_the_end(
    alloc: Global,
    list: u32,
    settings: Settings,
) -> Result<Report<Global>, Fail> {
    let events = events_up_to_the_end(alloc, list)?;
    report_with(alloc, list, settings, events.as_slice())
}

fn is_front(front: &[Vec<u8>], whole: &[Vec<u8>]) -> bool {
    front.len() <= whole.len()
        && front
            .iter()
            .zip(whole)
            .all(|(ours, theirs)| ours.as_slice() == theirs.as_slice())
}

/// Returns whether an end took what the other sent, in order, and never had more on its way than the other announced.
fn is_right(end: &EndReport<Global>, other: &EndReport<Global>, announced: u8) -> bool {
    is_front(end.taken.as_slice(), other.sent.as_slice()) && end.most <= announced as usize
}

fn has_entry(stored: &[Stored<Global>], name: &Name, file: Option<FileView<'_>>) -> bool {
    let Some(file) = file else {
        return false;
    };
    stored.iter().any(|entry| {
        entry.name.as_bytes() == name.as_bytes()
            && entry.mode == file.mode
            && entry.bytes.as_slice() == file.bytes
    })
}

type End = Node<MemorySpool<Global>, Global>;

/// Returns whether the file of each job that is done was stored, under the job's own target.
fn is_stored(end: &End, other: &End) -> bool {
    end.queue().struck().iter().all(|job| match job {
        Job::Send { source, target, .. } => {
            has_entry(other.spool().stored(), target, end.spool().fetch(source))
        }
        Job::Request { source, target, .. } => {
            has_entry(end.spool().stored(), target, other.spool().fetch(source))
        }
    })
}

/// Returns whether both ends kept each promise in the report. The caller and the called end announced these windows.
fn keeps_promises(report: &Report<Global>, caller: u8, called: u8) -> bool {
    let sessions_are_right = report.sessions().iter().all(|session| {
        is_right(&session.caller, &session.called, called)
            && is_right(&session.called, &session.caller, caller)
    });
    sessions_are_right
        && is_stored(report.caller(), report.called())
        && is_stored(report.called(), report.caller())
}

/// Plays the list of this number. Whether both ends kept each promise, and how many jobs of the caller were done.
fn play_list(alloc: Global, list: u32, settings: Settings) -> Result<(bool, usize), Fail> {
    let (caller, called) = settings.windows;
    let report = report_of_list(alloc, list, settings)?;
    let is_right = keeps_promises(&report, caller, called);
    let struck = report.caller().queue().struck().len();
    drop(report);
    Ok((is_right, struck))
}

/// Returns how many jobs of the caller were done in the list of this number.
fn struck_in_list(
    rt: &(impl Abort + AllocGlobal),
    list: u32,
    settings: Settings,
) -> Result<usize, Fail> {
    let (is_right, struck) = play_list(rt.alloc(), list, settings)?;
    assert_so_at(rt, is_right, list);
    Ok(struck)
}

#[test]
fn keeps_its_promises_on_noisy_lines(rt: HostRuntime) -> Result<(), Fail> {
    let mut struck = 0usize;
    for list in 0..LISTS {
        struck = struck_in_list(&rt, list, Settings::of_list(list))?.saturating_add(struck);
    }
    assert_so_at(&rt, struck >= LISTS as usize, struck);
    Ok(())
}

/// Plays all lists with ends that announce this window, and for which nothing is set.
fn play_plainly(rt: &(impl Abort + AllocGlobal), window: u8) -> Result<(), Fail> {
    let mut struck = 0usize;
    for list in 0..LISTS {
        struck = struck_in_list(rt, list, Settings::off(window))?.saturating_add(struck);
    }
    assert_so_at(rt, struck >= LISTS as usize / 2, struck);
    Ok(())
}

#[test]
fn keeps_its_promises_where_nothing_is_set(rt: HostRuntime) -> Result<(), Fail> {
    for window in WINDOWS {
        play_plainly(&rt, window)?;
    }
    Ok(())
}

/// Returns whether each job of the end is done or given up.
fn has_no_job_left(end: &End) -> bool {
    end.queue().pending().is_empty()
}

/// Returns whether both ends kept each promise, and have no job left.
fn is_over(report: &Report<Global>, caller: u8, called: u8) -> bool {
    keeps_promises(report, caller, called)
        && has_no_job_left(report.caller())
        && has_no_job_left(report.called())
}

/// Returns whether all is over, as it should be, if the report is settled.
fn settles_well(alloc: Global, report: Report<Global>, list: u32) -> Result<bool, Fail>
    requires { CanSettle report }
{
    let (caller, called) = windows_of_list(list as usize);
    let settled = settle(alloc, report)?;
    let is_over = is_over(&settled, caller, called);
    drop(settled);
    Ok(is_over)
}

/// Settles the list of this number where it may. Whether all is over then, as it should be.
fn settle_list(alloc: Global, list: u32) -> Result<Option<bool>, Fail> {
    let report = report_up_to_silence(alloc, list, Settings::plain_of_list(list))?;
    if !report.can_settle() {
        drop(report);
        return Ok(None);
    }
    Ok(Some(settles_well(alloc, report, list)?))
}

/// Settles the list of this number where it may. Whether it may.
fn settles_list(rt: &(impl Abort + AllocGlobal), list: u32) -> Result<bool, Fail> {
    let Some(is_right) = settle_list(rt.alloc(), list)? else {
        return Ok(false);
    };
    assert_so_at(rt, is_right, list);
    Ok(true)
}

#[test]
fn settles_after_noise(rt: HostRuntime) -> Result<(), Fail> {
    let mut settled = 0usize;
    for list in 0..LISTS {
        if settles_list(&rt, list)? {
            settled = settled.saturating_add(1);
        }
    }
    assert_so_at(&rt, settled >= 10, settled);
    Ok(())
}

/// Returns whether the end talks, holds no part of a packet, and may wait some time more.
fn talks(end: &End) -> bool {
    matches!(end.phase(), Phase::Talking) && end.waiting() == 0 && end.timeouts() <= 5
}

fn is_done(end: &End) -> bool {
    matches!(end.phase(), Phase::Ended(SessionEnd::Done)) && has_no_job_left(end)
}

/// Returns whether both ends talk, and no packet was found that was not sent.
fn may_finish(report: &Report<Global>) -> bool {
    report.verdict() == LineVerdict::Clean && talks(report.caller()) && talks(report.called())
}

/// Returns whether both ends talk if the list of this number ends in silence.
fn may_finish_list(alloc: Global, list: u32, settings: Settings) -> Result<bool, Fail> {
    let report = report_up_to_silence(alloc, list, settings)?;
    let may_finish = may_finish(&report);
    drop(report);
    Ok(may_finish)
}

/// Returns whether both ends are done if the line is clean after the list of this number.
fn is_done_behind_list(alloc: Global, list: u32, settings: Settings) -> Result<bool, Fail> {
    let report = report_up_to_the_end(alloc, list, settings)?;
    let is_done = is_done(report.caller()) && is_done(report.called());
    drop(report);
    Ok(is_done)
}

/// Goes on from the list of this number on a line that is clean, where both ends talk. Whether they do.
fn finishes_list(rt: &(impl Abort + AllocGlobal), list: u32) -> Result<bool, Fail> {
    let settings = Settings::of_list(list);
    if !may_finish_list(rt.alloc(), list, settings)? {
        return Ok(false);
    }
    let is_done = is_done_behind_list(rt.alloc(), list, settings)?;
    assert_so_at(rt, is_done, list);
    Ok(true)
}

// what is proved only where neither end is quiet on repeats
#[test]
fn finishes_after_noise_whichever_end_is_quiet(rt: HostRuntime) -> Result<(), Fail> {
    let mut finished = 0usize;
    for list in 0..LISTS {
        if finishes_list(&rt, list)? {
            finished = finished.saturating_add(1);
        }
    }
    assert_so_at(&rt, finished >= 10, finished);
    Ok(())
}
