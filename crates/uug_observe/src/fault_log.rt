//! Lines about faults in the log of an end, in addition to those of its observer.

use crate::job_remark::{failed_line, size_sent};
use std::alloc::Allocator;
use std::fs::File;
use std::rt::{Env, Files};
use std::time::Clock;
use uug_config::CallTask;
use uug_error::SystemFailure;
use uug_error_text::reason_line;
use uug_observe_log::{LogFile, SessionLog, words_of};
use uug_session::{Job, Spool};
use uug_store::why_failed;
use uug_talk::Name;

/// Appends what went wrong to the log of an end, if it has one. Errors in writing the log are ignored.
pub fn log_fault<A, R>(alloc: A, rt: &R, task: &CallTask<'_>, text: &str)
where
    A: Allocator + Copy,
    R: Files<File = File> + Env + Clock + AllocGlobal,
{
    let Some(path) = task.outputs.log else {
        return;
    };
    if let Ok(file) = LogFile::open(rt, path, task.is_spool) {
        let mut log = SessionLog::new(alloc, rt, file, task.side, task.peer, task.line.name);
        log.fault(text);
    }
}

/// Appends why each of these jobs was given up, in the words for standard error. `large` are the names of the files in
/// `send` that are too large to be sent.
pub fn log_failed<A, R, S>(
    alloc: A,
    rt: &R,
    task: &CallTask<'_>,
    large: &[Name],
    spool: &S,
    jobs: &[Job],
)
where
    A: Allocator + Copy,
    R: Files<File = File> + Env + Clock + AllocGlobal,
    S: Spool,
{
    for job in jobs {
        let (why, size) = (why_failed(spool, job), size_sent(spool, job));
        if let Ok(line) = failed_line(alloc, task.dir, large, job, why, size) {
            log_fault(alloc, rt, task, words_of(line.as_str()));
        }
    }
}

/// Appends these lines, which are also printed on standard error.
pub fn log_lines<A, R>(alloc: A, rt: &R, task: &CallTask<'_>, lines: &[String<A>])
where
    A: Allocator + Copy,
    R: Files<File = File> + Env + Clock + AllocGlobal,
{
    for line in lines {
        log_fault(alloc, rt, task, words_of(line.as_str()));
    }
}

/// Appends how many jobs of an end wait for its next session, if any do.
pub fn log_waiting<A, R>(alloc: A, rt: &R, task: &CallTask<'_>, count: usize)
where
    A: Allocator + Copy,
    R: Files<File = File> + Env + Clock + AllocGlobal,
{
    if count == 0 {
        return;
    }
    let words = if count == 1 { "job waits" } else { "jobs wait" };
    if let Ok(text) = format!(in alloc; "{count} {words} for the next session") {
        log_fault(alloc, rt, task, text.as_str());
    }
}

/// Appends why the line of an end, or its folder, has failed, if it has.
pub fn log_failure<A, R>(alloc: A, rt: &R, task: &CallTask<'_>, failure: &Option<SystemFailure>)
where
    A: Allocator + Copy,
    R: Files<File = File> + Env + Clock + AllocGlobal,
{
    let Some(failure) = failure else {
        return;
    };
    if let Ok(line) = reason_line(alloc, "", task.line.name, task.dir, "", *failure) {
        log_fault(alloc, rt, task, words_of(line.as_str()));
    }
}
