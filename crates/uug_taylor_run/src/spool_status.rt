//! The status of a system's part of a spool, which anybody may look at while a session runs.
ghost use Rattle.std.specs.Prelude.{◌≡◌, ◌++◌, ◌∷◌, [], IfErr, IfOk, OnOk, map, string_bytes};
ghost use Rattle.uug_error.specs.Faults.{IsCopyFault, IsFolderFault, IsQueueFault, IsReadingFault};
ghost use Rattle.uug_io_pending.specs.Status.{IsStatus, WritesStatus, job_of};
ghost use Rattle.uug_taylor_run.specs.Waiting.{are_shown, is_shown};
ghost use Rattle.uug_talk.specs.Lines.{lines as lines_of_text};

use crate::system_log::lines_about;
use crate::work::{COMMANDS_MAX, work_names};
use std::alloc::{AllocError, Allocator};
use std::fs;
use std::fs::File;
use std::rt::Files;
use std::time::Clock;
use uug_error::RunFault;
use uug_io_disk::{HeldFile, SeenFile, see_dir, see_file, see_held};
use uug_io_lock::lock_path;
use uug_io_pending::{LastSession, PendingJob, StatusTask, last_in, log_at, status_as};
use uug_session::Job;
use uug_stream::{Output, ToolFault, write_all};
use uug_talk::{Name, split_line, split_word};
use uug_taylor_disk::{SpoolPaths, is_known, is_there, read_whole};
use uug_taylor_queue::{Offer, read_offer};
use uug_taylor_text::{Room, Spot, data_spot};

/// Prints the status of a system's part of a spool, in the form of the status of an end's folder: the jobs in the C.
/// files, the partial files, the lock file of a session, if there is one, and, from a log, the last session. Jobs that
/// have failed are not shown. Nothing is locked or changed. A line that no session can offer, and a system without a
/// folder, are reported on standard error.
pub fn spool_status_run<A, R, O>(
    alloc: A,
    rt: &R,
    task: &StatusTask<'_>,
    system: &str,
    output: &mut O,
) -> Result<(), RunFault>
where
    A: Allocator + Copy,
    R: Files<File = File> + Clock + Eprint + Alloc + Clone + Drop,
    O: Output,
    ensures prints { OnOk result
        (WritesStatus task.now.is_json (O.written output.old) (O.written output.new)) }
    // A device fault always names the call that failed.
    ensures no_other { IfErr result IsQueueFault }
{
    let Ok(system) = Name::new(system.as_bytes()) else {
        return Err(RunFault::Tool(ToolFault::Usage));
    };
    let log = log_about(alloc, rt, task.log, &system)?;
    let last = last_in(log.as_slice());
    let text = status_at(alloc, rt, task, system, &last)?;
    write_all(output, text.as_bytes())?;
    Ok(())
}

/// Returns the lines about this system in the last bytes of the log at a path, or none if no log is read.
fn log_about<A: Allocator + Copy, R: Files<File = File>>(
    alloc: A,
    rt: &R,
    path: Option<&str>,
    system: &Name,
) -> Result<Vec<u8, A>, RunFault>
    ensures { IfErr result IsCopyFault }
{
    let log = log_at(alloc, rt, path)?;
    let about = lines_about(alloc, log.as_slice(), system)?;
    Ok(about)
}

/// Returns the status of a system's part of a spool, as JSON or in lines.
fn status_at<A, R>(
    alloc: A,
    rt: &R,
    task: &StatusTask<'_>,
    system: Name,
    last: &Option<LastSession<'_>>,
) -> Result<String<A>, RunFault>
where
    A: Allocator + Copy,
    R: Files + Clock + Eprint + Alloc + Clone + Drop,
    ensures is { IfOk result (λ text. IsStatus task.now.is_json (string_bytes text)) }
    ensures no_other { IfErr result IsReadingFault }
{
    // The public folder is not looked at.
    let paths = SpoolPaths::new(alloc, task.dir, system, "")?;
    see_dir(rt, paths.end_dir())?;
    see_system(alloc, rt, &paths)?;
    let pending = pending_at(alloc, rt, &paths)?;
    let held = held_at(alloc, rt, &paths)?;
    let session = session_at(alloc, rt, task.locks, &system)?;
    let text = status_as(
        alloc,
        task.is_json,
        &session,
        last,
        pending.as_slice(),
        held.as_slice(),
        &[],
    )?;
    Ok(text)
}

/// Reports on standard error that the spool has no folder of the system, if it has none.
fn see_system<A: Allocator + Copy, R: Files + Eprint>(
    alloc: A,
    rt: &R,
    paths: &SpoolPaths<A>,
) -> Result<(), RunFault>
    ensures { IfErr result IsFolderFault }
{
    if !is_known(alloc, rt, paths)? {
        let system = paths.system().as_str();
        let _ = eprint!(rt; "uucpair: the spool has no folder for {system}\n");
    }
    Ok(())
}

/// Returns the jobs that wait for a system, with their files, in the order in which a session takes its C. files.
fn pending_at<A, R>(alloc: A, rt: &R, paths: &SpoolPaths<A>) -> Result<Vec<PendingJob, A>, RunFault>
where
    A: Allocator + Copy,
    R: Files + Clock + Eprint + Alloc + Clone + Drop,
    ensures { IfErr result IsFolderFault }
{
    let names = work_names(alloc, rt, paths)?;
    let mut pending = Vec::new(alloc);
    for name in names.as_slice() {
        add_commands(&mut pending, alloc, rt, paths, name)?;
    }
    Ok(pending)
}

/// Adds the jobs of a C. file. A file that has vanished is skipped. A line that can't be sent is reported on standard
/// error.
fn add_commands<A: Allocator + Copy, R: Files + Clock + Eprint>(
    pending: &mut Vec<PendingJob, A>,
    alloc: A,
    rt: &R,
    paths: &SpoolPaths<A>,
    name: &Name,
) -> Result<(), RunFault>
    ensures { IfErr result IsFolderFault }
{
    let spot = Spot {
        room: Room::Commands,
        name: *name,
    };
    let Some(text) = read_whole(alloc, rt, paths, &spot, COMMANDS_MAX)? else {
        return Ok(());
    };
    if !are_shown(text.as_slice()) {
        say_unshown(rt, name);
    }
    add_lines(pending, alloc, rt, paths, text.as_slice())
}

/// Reports on standard error, in the words of a session's log, that a line of a C. file can't be sent.
fn say_unshown<R: Eprint>(rt: &R, name: &Name) {
    let name = name.as_str();
    let _ = eprint!(rt; "uucpair: {name}: a line that can't be sent stays\n");
}

/// Returns whether a session can offer each line of a C. file that is not blank.
fn are_shown(text: &[u8]) -> bool
    ensures { result ≡ are_shown (lines_of_text text.now) }
{
    let mut rest = text;
    while let Some((line, behind)) = split_line(rest) {
        if !is_shown(line) {
            return false;
        }
        rest = behind;
    }
    true
}

/// Returns whether a line of a C. file is blank, or can be offered by a session.
fn is_shown(line: &[u8]) -> bool
    ensures { result ≡ is_shown line.now }
{
    if split_word(line).is_none() {
        return true;
    }
    match read_offer(line) {
        Ok(_) => true,
        Err(_) => false,
    }
}

/// Adds the jobs of the lines of a C. file.
fn add_lines<A: Allocator + Copy, R: Files + Clock>(
    pending: &mut Vec<PendingJob, A>,
    alloc: A,
    rt: &R,
    paths: &SpoolPaths<A>,
    text: &[u8],
) -> Result<(), RunFault>
    ensures { IfErr result IsFolderFault }
{
    let mut rest = text;
    while let Some((line, behind)) = split_line(rest) {
        add_line(pending, alloc, rt, paths, line)?;
        rest = behind;
    }
    Ok(())
}

/// Adds the job of a line, if a session can offer it and it is not over. For a command, this is the job of its data.
fn add_line<A: Allocator + Copy, R: Files + Clock>(
    pending: &mut Vec<PendingJob, A>,
    alloc: A,
    rt: &R,
    paths: &SpoolPaths<A>,
    line: &[u8],
) -> Result<(), RunFault>
    ensures { IfErr result IsFolderFault }
{
    let Ok(offer) = read_offer(line) else {
        return Ok(());
    };
    if is_over(alloc, rt, paths, &offer.copy)? {
        return Ok(());
    }
    add_job(pending, alloc, rt, paths, &offer)?;
    Ok(())
}

/// Returns whether a line with this copy is over: the copy is gone.
fn is_over<A: Allocator + Copy, R: Files>(
    alloc: A,
    rt: &R,
    paths: &SpoolPaths<A>,
    copy: &Option<Name>,
) -> Result<bool, RunFault>
    ensures { IfErr result IsFolderFault }
{
    let Some(copy) = copy else {
        return Ok(false);
    };
    let is_left = is_there(alloc, rt, paths, &data_spot(copy))?;
    Ok(!is_left)
}

/// Adds the first job of a line, with its file.
fn add_job<A: Allocator + Copy, R: Files + Clock>(
    pending: &mut Vec<PendingJob, A>,
    alloc: A,
    rt: &R,
    paths: &SpoolPaths<A>,
    offer: &Offer,
) -> Result<(), AllocError>
    ensures { OnOk result (map job_of pending.new.items
        ≡ map job_of pending.old.items ++ offer.now.first ∷ []) }
{
    let file = see_sent(alloc, rt, paths, offer)?;
    pending.reserve(1)?;
    pending.push_reserved(PendingJob {
        job: offer.first,
        file,
    });
    Ok(())
}

/// Returns the file that the first job of a line sends, if it exists: the copy, or the file that a user named.
fn see_sent<A: Allocator + Copy, R: Files + Clock>(
    alloc: A,
    rt: &R,
    paths: &SpoolPaths<A>,
    offer: &Offer,
) -> Result<Option<SeenFile>, AllocError> {
    if let Some(copy) = &offer.copy {
        let path = paths.file(alloc, &data_spot(copy))?;
        return Ok(see_regular(rt, path.as_str()));
    }
    match &offer.first {
        Job::Send { source, .. } => Ok(see_regular(rt, source.as_str())),
        Job::Request { .. } => Ok(None),
    }
}

/// Returns the regular file at a path, if there is one.
fn see_regular<R: Files + Clock>(rt: &R, path: &str) -> Option<SeenFile> {
    match fs::metadata(rt, path) {
        Ok(found) if found.is_file() => see_file(rt, path),
        _ => None,
    }
}

/// Returns the partial files of the system.
fn held_at<A, R>(alloc: A, rt: &R, paths: &SpoolPaths<A>) -> Result<Vec<HeldFile, A>, AllocError>
where
    A: Allocator + Copy,
    R: Files + Clock + Alloc + Clone + Drop,
{
    let path = paths.partial(alloc)?;
    see_held(alloc, rt, path.as_str())
}

/// Returns the lock file of a session with this system, if it exists. It marks a session that is not over.
fn session_at<A: Allocator + Copy, R: Files + Clock>(
    alloc: A,
    rt: &R,
    locks: &str,
    system: &Name,
) -> Result<Option<SeenFile>, AllocError> {
    let path = lock_path(alloc, locks, system.as_str())?;
    Ok(see_file(rt, path.as_str()))
}
