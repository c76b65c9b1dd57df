//! The log of the sessions of an end.
ghost use Rattle.std.specs.Prelude.{◌≡◌};
ghost use Rattle.uug_observe_log.specs.Logged.{is_refused_to_it};

use crate::lines::{end_text, fault_line, job_line, over_line, resumed_line, start_line};
use crate::log_file::LogFile;
use crate::observer::Journal;
use crate::transfer::{News, Outcome, Transfer};
use crate::way::Way;
use std::alloc::Allocator;
use std::time::{Clock, Instant};
use uug_conversation::Side;
use uug_talk::Name;

/// The log of an end's sessions, in a file. The outcome of a job is written once it is on the disk. An end over a spool
/// logs its own work itself. Of its sessions this log gets only faults, bad ends, files that resume, and jobs that the
/// other end was refused.
#[derive(Drop)]
pub struct SessionLog<'a, R, A: Allocator> {
    alloc: A,
    rt: &'a R,
    file: LogFile<'a, R>,
    side: Side,
    /// The other end's name, which is empty if any may call, and the name of the line to it.
    system: &'a str,
    line: &'a str,
    /// The name that the caller gave, if any system may call and it gave one.
    caller: Option<Name>,
    /// The time at which the session began, if it has and the clock gives one.
    since: Option<Instant>,
    /// Set once it has begun.
    is_begun: bool,
    /// The number of bytes of the files of jobs that are done. It saturates.
    bytes: u64,
    /// News of jobs, held back until the results are on the disk.
    held: Vec<News, A>,
}

impl<'a, R: Clock, A: Allocator + Copy> SessionLog<'a, R, A> {
    /// Creates the log in this file. No session has begun.
    pub fn new(
        alloc: A,
        rt: &'a R,
        file: LogFile<'a, R>,
        side: Side,
        system: &'a str,
        line: &'a str,
    ) -> Self {
        SessionLog {
            alloc,
            rt,
            file,
            side,
            system,
            line,
            caller: None,
            since: None,
            is_begun: false,
            bytes: 0,
            held: Vec::new(alloc),
        }
    }

    /// Sets the name that the caller gave.
    pub fn set_caller(&mut self, name: Name) {
        self.caller = Some(name);
    }

    /// Logs the start of a session, once: when the end calls, or when its caller's first byte arrives. Logs nothing
    /// over a spool.
    pub fn begin(&mut self) {
        if self.is_begun || self.file.is_spool() {
            return;
        }
        self.is_begun = true;
        self.since = Instant::now(self.rt).ok();
        // Who has called is not known yet.
        let system = match self.side {
            Side::Caller => self.system,
            Side::Called => "",
        };
        let head = self.file.head(system.as_bytes());
        let line = start_line(self.alloc, &head, self.side, self.line);
        self.file.append(line);
    }

    /// Logs the ends of jobs that were held back. Their results are on the disk by now.
    pub fn write_held(&mut self) {
        let system = system_of(&self.caller, self.system);
        for news in &self.held {
            if let News::Ends(job, outcome, bytes) = news {
                let head = self.file.head(system);
                self.file
                    .append(job_line(self.alloc, &head, job, *outcome, *bytes));
            }
        }
        self.held.clear();
    }

    /// Logs the end of a session, and how many jobs were given up in it. If it ended badly, `bad` is the word for how,
    /// and `said` gives the details.
    pub fn end(&mut self, bad: Option<&str>, said: &str, failed: usize) {
        if failed > 0 && !self.file.is_spool() {
            let words = if failed == 1 { "job was" } else { "jobs were" };
            if let Ok(text) = format!(in self.alloc; "{failed} {words} given up") {
                self.fault(text.as_str());
            }
        }
        if let Some(word) = bad {
            if let Ok(text) = end_text(self.alloc, word, said) {
                self.fault(text.as_str());
            }
        }
        if self.is_begun {
            let head = self.file.head(self.system.as_bytes());
            let line = over_line(self.alloc, &head, self.seconds(), self.bytes);
            self.file.append(line);
        }
        self.since = None;
        self.is_begun = false;
        self.bytes = 0;
        self.caller = None;
        self.held.clear();
    }

    /// Logs a fault.
    pub fn fault(&mut self, text: &str) {
        let head = self.file.head(system_of(&self.caller, self.system));
        self.file.append(fault_line(self.alloc, &head, text));
    }

    /// Logs that the file of a job resumes at this position. `size` is its whole size, if that was announced.
    fn resume(&mut self, job: &Transfer, size: Option<u64>, position: u64) {
        let head = self.file.head(system_of(&self.caller, self.system));
        let line = resumed_line(self.alloc, &head, job, size, position);
        self.file.append(line);
    }

    /// Returns the seconds that the session has lasted, or 0 without a clock.
    fn seconds(&self) -> u64 {
        let Some(since) = self.since else {
            return 0;
        };
        match since.elapsed(self.rt) {
            Ok(elapsed) => elapsed.as_secs(),
            Err(_) => 0,
        }
    }
}

/// Returns the other end's name: the one that the caller gave, else the one that is expected.
fn system_of<'a>(caller: &'a Option<Name>, expected: &'a str) -> &'a [u8] {
    match caller {
        Some(name) => name.as_bytes(),
        None => expected.as_bytes(),
    }
}

/// Returns whether a job with this direction and outcome is one that the other end was refused.
fn is_refused_to_it(way: Way, outcome: Outcome) -> bool
    ensures { result ≡ is_refused_to_it way outcome }
{
    match (way, outcome) {
        (Way::In, Outcome::Never | Outcome::TooLarge) => true,
        _ => false,
    }
}

impl<R: Clock, A: Allocator + Copy> Journal for SessionLog<'_, R, A> {
    fn note(&mut self, news: &News) {
        if let News::Resumes(job, size, position) = news {
            self.resume(job, size.map(u64::from), u64::from(*position));
        }
        if let News::Ends(job, outcome, bytes) = news {
            if self.file.is_spool() && !is_refused_to_it(job.way, *outcome) {
                return;
            }
            if *outcome == Outcome::Done {
                self.bytes = self.bytes.saturating_add(*bytes);
            }
            // If there is no memory, the news is left out.
            let _ = self.held.push(*news);
        }
    }
}
