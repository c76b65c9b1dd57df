//! The files of jobs that are too large to be sent.

use crate::fault_log::log_fault;
use std::alloc::{AllocError, Allocator};
use std::fs;
use std::rt::Files;
use uug_config::{CallTask, System};
use uug_conversation::has_name;
use uug_error_text::large_line;
use uug_observe_log::words_of;
use uug_session::Job;
use uug_store::local_source;
use uug_talk::Name;

/// Returns the names of the files of these jobs that are in `send` of the task's folder now, and over its limit.
pub fn large_files<A: Allocator + Copy, R: Files>(
    alloc: A,
    rt: &R,
    task: &CallTask<'_>,
    jobs: &[Job],
) -> Result<Vec<Name, A>, AllocError> {
    let mut names = Vec::new(alloc);
    for job in jobs {
        if let Job::Send { source, .. } = job {
            if let Some(name) = local_source(source) {
                if large_size(alloc, rt, task, &name)?.is_some() {
                    names.push(name)?;
                }
            }
        }
    }
    Ok(names)
}

/// Reports each file of these jobs that is in `send` now, and over the task's limit, on standard error and in the log.
/// Each is reported once.
pub fn tell_large_files<A: Allocator + Copy, R: System>(
    alloc: A,
    rt: &R,
    task: &CallTask<'_>,
    jobs: &[Job],
) -> Result<(), AllocError> {
    let large = large_files(alloc, rt, task, jobs)?;
    let mut told = Vec::new(alloc);
    for name in large.as_slice() {
        if !has_name(told.as_slice(), name.as_bytes()) {
            tell_large(alloc, rt, task, name)?;
            told.push(*name)?;
        }
    }
    Ok(())
}

/// Reports that the file of this name in `send` is over the limit, if it is.
fn tell_large<A: Allocator + Copy, R: System>(
    alloc: A,
    rt: &R,
    task: &CallTask<'_>,
    name: &Name,
) -> Result<(), AllocError> {
    let Some(size) = large_size(alloc, rt, task, name)? else {
        return Ok(());
    };
    let path = path_of(alloc, task.dir, name)?;
    let line = large_line(
        alloc,
        path.as_str(),
        size,
        u64::from(task.limits.file_limit),
    )?;
    let line = line.as_str();
    let _ = eprint!(rt; "{line}");
    log_fault(alloc, rt, task, words_of(line));
    Ok(())
}

/// Returns the size of the file of this name in `send` of the folder, if it is over the limit.
fn large_size<A: Allocator + Copy, R: Files>(
    alloc: A,
    rt: &R,
    task: &CallTask<'_>,
    name: &Name,
) -> Result<Option<u64>, AllocError> {
    let path = path_of(alloc, task.dir, name)?;
    match fs::metadata(rt, path.as_str()) {
        Ok(found) if found.is_file() && found.len() > u64::from(task.limits.file_limit) => {
            Ok(Some(found.len()))
        }
        _ => Ok(None),
    }
}

/// Returns the path of the file of this name in `send` of this folder.
fn path_of<A: Allocator>(alloc: A, dir: &str, name: &Name) -> Result<String<A>, AllocError> {
    let name = name.as_str();
    format!(in alloc; "{dir}/send/{name}")
}
