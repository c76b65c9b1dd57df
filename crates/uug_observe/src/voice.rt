//! Messages on standard error.

use std::alloc::{AllocError, Allocator};
use std::time::{Clock, Instant};
use uug_observe_log::{
    Counts, FileProgress, Journal, Mark, News, Pace, counts_line, news_line, progress_line,
};
use uug_session::phase_word;
use uug_transfer::SessionStatus;

/// The bytes that erase a progress line on a terminal.
const WIPE: &str = "\r\u{1b}[K";

/// Prints messages on standard error. A message is dropped if it can't be written, or there is no memory for it. The
/// result of a job is printed only once it is on the disk: a job that was printed as done is not repeated after a kill.
#[derive(Drop)]
pub(crate) struct Voice<'a, R, A: Allocator> {
    alloc: A,
    rt: &'a R,
    /// Set if it shows the progress of files.
    shows_progress: bool,
    /// The time at which this voice was created, if the clock gives one.
    since: Option<Instant>,
    /// The second, counted from then, in which the current job began.
    begun: u64,
    /// The transfer rate of its file.
    pace: Pace,
    /// The second in which the job's progress line was last written, if it is still on the terminal.
    shown: Option<u64>,
    /// Messages about jobs, held back until the results are on the disk.
    held: String<A>,
}

impl<'a, R: Eprint + Clock, A: Allocator + Copy> Voice<'a, R, A> {
    pub(crate) fn new(alloc: A, rt: &'a R, shows_progress: bool) -> Self {
        Voice {
            alloc,
            rt,
            shows_progress,
            since: Instant::now(rt).ok(),
            begun: 0,
            pace: Pace::new(Mark {
                second: 0,
                position: 0,
            }),
            shown: None,
            held: String::new(alloc),
        }
    }

    /// Returns the seconds since this voice was created, or 0 without a clock.
    fn seconds(&self) -> u64 {
        let Some(since) = self.since else {
            return 0;
        };
        match since.elapsed(self.rt) {
            Ok(elapsed) => elapsed.as_secs(),
            Err(_) => 0,
        }
    }

    /// Prints a line, if there was memory for it and it is not empty.
    pub(crate) fn say(&self, line: Result<String<A>, AllocError>) {
        if let Ok(line) = line {
            self.say_line(line.as_str());
        }
    }

    /// Prints a line, if it is not empty.
    pub(crate) fn say_line(&self, line: &str) {
        if !line.is_empty() {
            let _ = eprint!(self.rt; "{line}");
        }
    }

    /// Erases the progress line, if there is one.
    pub(crate) fn wipe(&mut self) {
        if self.shown.take().is_some() {
            let _ = eprint!(self.rt; "{WIPE}");
        }
    }

    /// Prints the messages that were held back: the results of the jobs are on the disk.
    pub(crate) fn say_held(&mut self) {
        if self.held.is_empty() {
            return;
        }
        self.wipe();
        let held = self.held.as_str();
        let _ = eprint!(self.rt; "{held}");
        self.held.clear();
    }

    /// Prints the state of the end.
    pub(crate) fn say_status(&self, status: SessionStatus) {
        let seconds = self.seconds();
        let phase = phase_word(status.phase);
        let (pending, struck, failed) = (status.pending, status.struck, status.failed);
        self.say(format!(in self.alloc;
            "uucpair: {seconds} s: {phase} pending {pending} struck {struck} failed {failed}\n"
        ));
    }

    /// Prints the totals of one direction.
    pub(crate) fn say_counts(&self, verb: &str, bytes: u64, counts: Counts) {
        self.say(counts_line(self.alloc, verb, bytes, counts));
    }

    /// Prints the number of timeouts.
    pub(crate) fn say_silences(&self, silences: u64) {
        self.say(format!(in self.alloc; "uucpair: {silences} timeouts\n"));
    }

    /// Returns whether it is time to show the progress of a file, if that is shown: once a second, from two seconds
    /// after the job began.
    pub(crate) fn is_due(&self, progress: &FileProgress) -> bool {
        if !self.shows_progress || progress.position == 0 {
            return false;
        }
        match self.shown {
            Some(shown) => self.seconds() > shown,
            None => self.seconds() > self.begun.saturating_add(1),
        }
    }

    /// Shows the progress of a file, if that is due.
    pub(crate) fn show_progress(&mut self, progress: &FileProgress) {
        if self.is_due(progress) {
            let seconds = self.seconds();
            self.wipe();
            self.say_progress(seconds, progress);
            self.shown = Some(seconds);
        }
    }

    /// Prints the progress of a file, and its rate.
    fn say_progress(&mut self, seconds: u64, progress: &FileProgress) {
        let now = Mark {
            second: seconds,
            position: progress.position,
        };
        self.pace.take(now);
        let rate = self.pace.rate(now);
        self.say(progress_line(self.alloc, seconds, rate, progress));
    }

    /// Follows a job, to know the rate of its file. Erases its progress line when it ends.
    pub(crate) fn follow(&mut self, news: &News) {
        let seconds = self.seconds();
        match news {
            News::Begins(_) => {
                self.begun = seconds;
                self.begin_file(seconds, 0);
            }
            News::Resumes(_, _, position) => self.begin_file(seconds, u64::from(*position)),
            News::Ends(..) => self.wipe(),
        }
    }

    /// Starts to measure the rate of a file, in this second and from this position.
    fn begin_file(&mut self, seconds: u64, position: u64) {
        self.pace = Pace::new(Mark {
            second: seconds,
            position,
        });
    }
}

impl<R: Eprint + Clock, A: Allocator + Copy> Journal for Voice<'_, R, A> {
    fn note(&mut self, news: &News) {
        let seconds = self.seconds();
        let took = seconds.saturating_sub(self.begun);
        if let Ok(line) = news_line(self.alloc, seconds, took, news) {
            let _ = self.held.push_str(line.as_str());
        }
    }
}
