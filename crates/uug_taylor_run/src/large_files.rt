//! The files of jobs that are too large to be sent. An end reports them before its line opens.

use crate::spool_call::{SpoolCall, paths_of};
use crate::telling::tell_fault;
use crate::work::{COMMANDS_MAX, work_names};
use std::alloc::{AllocError, Allocator};
use std::fs;
use std::fs::File;
use std::rt::{Env, Files};
use std::time::Clock;
use uug_error_text::large_line;
use uug_observe_log::words_of;
use uug_talk::{Name, split_line};
use uug_taylor_disk::{SpoolPaths, read_whole};
use uug_taylor_queue::read_offer;
use uug_taylor_text::{Command, Fields, Room, SentFile, Spot, data_spot, has_option, read_command};

/// Reports each file that waits for this system and is over the limit, on standard error and in the log. Whatever can't
/// be read is skipped.
pub fn tell_large<A, R>(alloc: A, rt: &R, call: &SpoolCall<'_>, system: Name)
where
    A: Allocator + Copy,
    R: Files<File = File> + Clock + Env + Eprint + AllocGlobal + Clone + Drop,
{
    let Ok(paths) = paths_of(alloc, call, system) else {
        return;
    };
    let Ok(names) = work_names(alloc, rt, &paths) else {
        return;
    };
    for name in names.as_slice() {
        let spot = Spot {
            room: Room::Commands,
            name: *name,
        };
        if let Ok(Some(text)) = read_whole(alloc, rt, &paths, &spot, COMMANDS_MAX) {
            tell_in(alloc, rt, call, &paths, text.as_slice());
        }
    }
}

/// Reports the files over the limit that the lines of a C. file send.
fn tell_in<A, R>(alloc: A, rt: &R, call: &SpoolCall<'_>, paths: &SpoolPaths<A>, text: &[u8])
where
    A: Allocator + Copy,
    R: Files<File = File> + Clock + Env + Eprint + AllocGlobal,
{
    let mut rest = text;
    while let Some((line, behind)) = split_line(rest) {
        let _ = tell_line(alloc, rt, call, paths, line);
        rest = behind;
    }
}

/// Reports the file that a line sends, if it is over the limit.
fn tell_line<A, R>(
    alloc: A,
    rt: &R,
    call: &SpoolCall<'_>,
    paths: &SpoolPaths<A>,
    line: &[u8],
) -> Result<(), AllocError>
where
    A: Allocator + Copy,
    R: Files<File = File> + Clock + Env + Eprint + AllocGlobal,
{
    let Some(path) = sent_path(alloc, paths, line)? else {
        return Ok(());
    };
    let limit = call.allowance.limit.bytes as u64;
    let size = match fs::metadata(rt, path.as_str()) {
        Ok(found) if found.is_file() && found.len() > limit => found.len(),
        _ => return Ok(()),
    };
    let line = large_line(alloc, path.as_str(), size, limit)?;
    let line = line.as_str();
    let _ = eprint!(rt; "{line}");
    tell_fault(alloc, rt, call, *paths.system(), words_of(line));
    Ok(())
}

/// Returns the path of the file that a line sends, if it sends one and a session can offer the line.
fn sent_path<A: Allocator + Copy>(
    alloc: A,
    paths: &SpoolPaths<A>,
    line: &[u8],
) -> Result<Option<String<A>>, AllocError> {
    if read_offer(line).is_err() {
        return Ok(None);
    }
    match read_command(line) {
        Ok(Command::Send(fields, file)) => path_of(alloc, paths, &fields, &file),
        Ok(Command::Execute(fields, file, _)) => path_of(alloc, paths, &fields, &file),
        _ => Ok(None),
    }
}

/// Returns the path of the file that a job sends: its copy, or the file that a user named. Returns `None` if the copy
/// has no valid name, or the path is not absolute or not UTF-8.
fn path_of<A: Allocator + Copy>(
    alloc: A,
    paths: &SpoolPaths<A>,
    fields: &Fields<'_>,
    file: &SentFile<'_>,
) -> Result<Option<String<A>>, AllocError> {
    if has_option(fields.options, b'C') {
        return match Name::new(file.temp) {
            Ok(name) => Ok(Some(paths.file(alloc, &data_spot(&name))?)),
            Err(_) => Ok(None),
        };
    }
    match str::from_utf8(fields.source) {
        Ok(path) if path.starts_with('/') => Ok(Some(String::from_str(alloc, path)?)),
        _ => Ok(None),
    }
}
