//! The status file, the log and the statistics of a call with a system. Errors in writing them are ignored.

use crate::spool_call::{SpoolCall, paths_of};
use crate::work::Unread;
use std::alloc::{AllocError, Allocator};
use std::fs::File;
use std::rt::{Env, Files};
use std::time::Clock;
use uug_error::{Resource, SystemFailure};
use uug_error_text::reason_line;
use uug_observe_log::{LocalClock, words_of};
use uug_session::{End, Job, Phase, Side, Spool};
use uug_talk::Name;
use uug_taylor_disk::{
    Arrived, Preserved, SpoolDisk, SpoolPaths, append_line, process_number, read_status_file,
    seconds_since_1970, write_status_file,
};
use uug_taylor_queue::{Execution, Marks, OpenLine, remove_markers, settle_file};
use uug_taylor_text::{
    Amount, CallState, Course, LogEvent, LogHead, StatsHead, Status, log_line, stats_line,
    status_failed,
};

/// The program that log lines name: uucico, which this program replaces. Readers of the log thus find its lines.
const PROGRAM: &[u8] = b"uucico";

/// The user in the lines about a file whose user is not known.
const NOBODY: &[u8] = b"uucp";

/// The shared parameters of the functions that report a call: the allocator, the system, the call's task, its paths,
/// and the clock.
#[derive(Drop)]
pub(crate) struct Teller<'a, 'c, A: Allocator, R> {
    pub(crate) alloc: A,
    pub(crate) rt: &'a R,
    pub(crate) call: &'a SpoolCall<'c>,
    pub(crate) paths: &'a SpoolPaths<A>,
    pub(crate) clock: &'a LocalClock,
}

/// A session that is over.
#[derive(Drop)]
pub(crate) struct SessionOver<'e, A: Allocator> {
    /// The phase in which it ended.
    pub(crate) phase: Phase,
    /// The jobs that are done, and those that were given up.
    pub(crate) struck: &'e [Job],
    pub(crate) failed: &'e [Job],
    /// The names of its C. files, their open lines, and the commands that they run.
    pub(crate) names: &'e [Name],
    pub(crate) lines: &'e [OpenLine],
    pub(crate) executions: &'e [Execution],
    /// The received files, and the markers of the last ones.
    pub(crate) arrived: &'e [Arrived],
    pub(crate) marks: Marks,
    /// The preserved data of jobs that were given up.
    pub(crate) preserved: &'e [Preserved<A>],
}

impl<A: Allocator + Copy, R: Files<File = File> + Clock> Teller<'_, '_, A, R> {
    /// Reports the start of a call, in the log and, for a calling end, in the status file. Returns the time in seconds
    /// since 1970.
    pub(crate) fn begin(&self) -> u32 {
        let now = seconds_since_1970(self.rt);
        let port = self.call.port.as_bytes();
        match self.call.side {
            Side::Caller => {
                let before = read_status_file(self.alloc, self.rt, self.paths);
                let status = Status {
                    state: CallState::Talking,
                    tries: before.map_or(0, |status| status.tries),
                    time: now,
                    wait: 0,
                };
                let _ = write_status_file(self.alloc, self.rt, self.paths, &status);
                self.log(b"", &LogEvent::Calls(port));
            }
            Side::Called => {
                let login = self.paths.system().as_bytes();
                self.log(b"", &LogEvent::Called(login, port));
            }
        }
        now
    }

    /// Appends a line to the log, if one is named.
    pub(crate) fn log(&self, user: &[u8], event: &LogEvent<'_>) {
        let Some(path) = self.call.outputs.log else {
            return;
        };
        let head = LogHead {
            program: PROGRAM,
            system: self.paths.system().as_bytes(),
            user,
            moment: self.clock.now(self.rt),
            process: process_number(self.alloc, self.rt),
        };
        if let Ok(line) = log_line(self.alloc, &head, event) {
            let _ = append_line(self.rt, path, line.as_slice());
        }
    }

    /// Appends a line to the statistics, if they are named.
    fn count(&self, user: &[u8], course: Course, size: u64) {
        let Some(path) = self.call.spool.stats else {
            return;
        };
        let head = StatsHead {
            user,
            system: self.paths.system().as_bytes(),
            moment: self.clock.now(self.rt),
            port: self.call.port.as_bytes(),
        };
        let amount = Amount {
            bytes: u32::try_from(size).unwrap_or(u32::MAX),
            thousandths: 0,
        };
        if let Ok(line) = stats_line(self.alloc, &head, course, false, amount) {
            let _ = append_line(self.rt, path, line.as_slice());
        }
    }

    /// Removes what is over from the disk, and reports the result of a call that began at `begun`, in seconds since
    /// 1970.
    pub(crate) fn end<S: Spool>(&self, spool: &S, over: &SessionOver<'_, A>, begun: u32) {
        self.tidy(over);
        let sent = self.tell_sent(spool, over.struck);
        self.tell_failed(over.failed);
        self.tell_unoffered(over.lines);
        let taken = self.tell_arrived(over.arrived);
        self.tell_status(over.phase);
        let seconds = seconds_since_1970(self.rt).saturating_sub(begun);
        let event = LogEvent::Over(u64::from(seconds), sent.saturating_add(taken));
        self.log(b"", &event);
    }

    /// Removes the markers of the last files, and each C. file without an open line. Does nothing unless the session is
    /// done.
    fn tidy(&self, over: &SessionOver<'_, A>) {
        if !over.phase.is_done() {
            return;
        }
        let mut disk = SpoolDisk::new(self.alloc, self.rt, self.paths);
        for name in over.names {
            let _ = settle_file(&mut disk, name, over.lines);
        }
        let _ = remove_markers(&mut disk, &over.marks);
    }

    /// Reports each file that was sent, in the log and the statistics. Returns their total size in bytes.
    fn tell_sent<S: Spool>(&self, spool: &S, struck: &[Job]) -> u64 {
        let mut bytes: u64 = 0;
        for job in struck {
            if let Job::Send {
                source,
                user,
                temp,
                ..
            } = job
            {
                let size = match spool.fetch(&temp.unwrap_or(*source)) {
                    Some(file) => file.bytes.len() as u64,
                    None => 0,
                };
                let event = LogEvent::Sends(source.as_bytes(), size);
                self.log(user.as_bytes(), &event);
                self.count(user.as_bytes(), Course::Sent, size);
                bytes = bytes.saturating_add(size);
            }
        }
        bytes
    }

    /// Logs each job that has failed.
    fn tell_failed(&self, failed: &[Job]) {
        for job in failed {
            let (source, user) = match job {
                Job::Send { source, user, .. } => (source, user),
                Job::Request { source, user, .. } => (source, user),
            };
            let source = source.as_str();
            if let Ok(text) = format!(in self.alloc; "{source}: given up") {
                self.log(user.as_bytes(), &LogEvent::Fault(text.as_bytes()));
            }
        }
    }

    /// Logs, once for each C. file, that a line stays because no session can offer it: it has a wildcard or quoted
    /// names, for example, or is not a valid command.
    fn tell_unoffered(&self, lines: &[OpenLine]) {
        let mut last: Option<Name> = None;
        for line in lines {
            // A line whose data can't be read was reported before.
            if line.job.is_some() || line.copy.is_some() || last == Some(line.file) {
                continue;
            }
            last = Some(line.file);
            let file = line.file.as_str();
            if let Ok(text) = format!(in self.alloc; "{file}: a line that can't be sent stays") {
                self.log(b"", &LogEvent::Fault(text.as_bytes()));
            }
        }
    }

    /// Reports each received file, in the log and the statistics. Returns their total size in bytes. Only the sender
    /// knows the user of a file.
    fn tell_arrived(&self, arrived: &[Arrived]) -> u64 {
        let mut bytes: u64 = 0;
        for file in arrived {
            let name = file.spot.name;
            let event = LogEvent::Receives(name.as_bytes(), Some(file.size));
            self.log(NOBODY, &event);
            self.count(NOBODY, Course::Received, file.size);
            bytes = bytes.saturating_add(file.size);
        }
        bytes
    }

    /// Writes the result of the call to the status file. A called end writes it only if the session is done.
    fn tell_status(&self, phase: Phase) {
        let time = seconds_since_1970(self.rt);
        let status = match (state_of(phase), self.call.side) {
            (CallState::Complete, _) => Status {
                state: CallState::Complete,
                tries: 0,
                time,
                wait: 0,
            },
            (_, Side::Called) => return,
            (state, Side::Caller) => {
                let before = read_status_file(self.alloc, self.rt, self.paths);
                status_failed(state, before, time)
            }
        };
        let _ = write_status_file(self.alloc, self.rt, self.paths, &status);
    }
}

impl<A: Allocator + Copy, R: Files<File = File> + Clock + Eprint> Teller<'_, '_, A, R> {
    /// Reports what becomes of each file that can't be read: in the log, and on standard error if the end is loud.
    pub(crate) fn tell_unread(&self, unread: &[Unread], becomes: &str) {
        for one in unread {
            let Ok(line) = unread_line(self.alloc, one, becomes) else {
                continue;
            };
            let line = line.as_str();
            if self.call.outputs.is_loud {
                let _ = eprint!(self.rt; "{line}");
            }
            self.log(b"", &LogEvent::Fault(words_of(line).as_bytes()));
        }
    }
}

/// Writes the status of a call whose line could not be opened: another run has the line, or nobody answers there.
pub fn tell_no_line<A: Allocator + Copy, R: Files<File = File> + Clock>(
    alloc: A,
    rt: &R,
    call: &SpoolCall<'_>,
    system: Name,
    is_in_use: bool,
) {
    let state = if is_in_use {
        CallState::PortUnavailable
    } else {
        CallState::DialFailed
    };
    if let Ok(paths) = paths_of(alloc, call, system) {
        let before = read_status_file(alloc, rt, &paths);
        let status = status_failed(state, before, seconds_since_1970(rt));
        let _ = write_status_file(alloc, rt, &paths, &status);
    }
}

/// Logs this fault about a system with which there is no session, or not yet.
pub fn tell_fault<A: Allocator + Copy, R: Files<File = File> + Clock + Env + AllocGlobal>(
    alloc: A,
    rt: &R,
    call: &SpoolCall<'_>,
    system: Name,
    text: &str,
) {
    if let Ok(paths) = paths_of(alloc, call, system) {
        let clock = LocalClock::read(rt);
        let teller = Teller {
            alloc,
            rt,
            call,
            paths: &paths,
            clock: &clock,
        };
        teller.log(b"", &LogEvent::Fault(text.as_bytes()));
    }
}

/// Returns the line that says what becomes of a file that can't be read, and why it can't be read.
fn unread_line<A: Allocator + Copy>(
    alloc: A,
    one: &Unread,
    becomes: &str,
) -> Result<String<A>, AllocError> {
    let name = one.name.as_str();
    let what = format!(in alloc; "{name} {becomes}")?;
    let failure = SystemFailure::on(Resource::Input, one.cause);
    reason_line(alloc, what.as_str(), "", "", "", failure)
}

/// Returns the state of a call whose session ended in this phase.
fn state_of(phase: Phase) -> CallState {
    match phase {
        Phase::Ended(End::Done) => CallState::Complete,
        Phase::Ended(End::Refused | End::WrongName | End::NoProtocol | End::BadSequence) => {
            CallState::HandshakeFailed
        }
        _ => CallState::CallFailed,
    }
}
