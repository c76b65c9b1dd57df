//! The mark of a session, in the folder of an end with a log. If it is left over, the next session knows that the last
//! one was broken off.

use crate::fault_log::log_fault;
use std::alloc::{AllocError, Allocator};
use std::fs;
use std::fs::File;
use std::io::ErrorKind;
use std::rt::{Env, Files};
use std::time::Clock;
use uug_config::CallTask;

/// The words in the log if a signal or a power cut ended the last session.
pub const BROKEN_OFF: &str = "the last session was broken off";

/// Marks the start of a session, if the end has a log. Logs that the last session was broken off, if its mark is still
/// there.
pub fn mark_session<A, R>(alloc: A, rt: &R, task: &CallTask<'_>)
where
    A: Allocator + Copy,
    R: Files<File = File> + Env + Clock + AllocGlobal,
{
    let Ok(path) = mark_of(alloc, task.dir) else {
        return;
    };
    if task.outputs.log.is_none() {
        return;
    }
    if let Err(error) = File::create_new(rt, path.as_str()) {
        if error.kind() == ErrorKind::AlreadyExists {
            log_fault(alloc, rt, task, BROKEN_OFF);
        }
    }
}

/// Removes the mark of a session that is over from this folder.
pub fn unmark_session<A: Allocator + Copy, R: Files>(alloc: A, rt: &R, dir: &str) {
    if let Ok(path) = mark_of(alloc, dir) {
        let _ = fs::remove_file(rt, path.as_str());
    }
}

/// Returns the path of the mark in this folder.
fn mark_of<A: Allocator>(alloc: A, dir: &str) -> Result<String<A>, AllocError> {
    format!(in alloc; "{dir}/.session")
}
