//! The work that waits for a system in its spool.
ghost use Rattle.std.specs.Prelude.{◌≡◌, ◌≤◌, ◌++◌, IfErr, IfOk, MatchOption, None, OnOk, Some, codes, false, map, true};
ghost use Rattle.uug_error.specs.Faults.{IsFolderFault};
ghost use Rattle.uug_taylor_queue.specs.HeldLines.{held_lines};
ghost use Rattle.uug_taylor_queue.specs.OpenLines.{file_lines};
ghost use Rattle.uug_taylor_run.specs.PublicNames.{behind_public, named_job, named_line, named_lines, public_name};
ghost use Rattle.uug_taylor_run.specs.Budgets.{budget_after, budget_fits, is_offered};
ghost use Rattle.uug_taylor_run.specs.GivenData.{AddsNamed, data_name};
ghost use Rattle.uug_taylor_run.specs.Works.{IsAppended};
ghost use Rattle.uug_talk.specs.Lines.{lines as lines_of_text};
ghost use Rattle.uug_talk.specs.Name.{name_of};
ghost use Rattle.uug_talk.specs.declared.mode.TheConstants.{MODE_MAX};

use crate::removable::see_lines;
use arrayvec::ArrayVec;
use std::alloc::{AllocError, Allocator};
use std::cmp::Ordering;
use std::fs::File;
use std::rt::Files;
use uug_conversation::has_name;
use uug_error::{Cause, RunFault};
use uug_session::{FileLimit, JOBS_MAX, Job, Partials, Stored};
use uug_store::Allowance;
use uug_talk::{NAME_MAX, Name, split_line};
use uug_taylor_disk::{SpoolPaths, list_room, read_source, read_spot, read_whole};
use uug_taylor_queue::{
    Came, CommandText, Execution, OpenLine, add_file, held_lines, read_execution, read_offer,
    text_name,
};
use uug_taylor_text::{
    Command, Fields, Room, SentFile, Spot, data_spot, execution_text, grade_of, has_option,
    read_command, work_order,
};

/// The maximum size of a C. file, in bytes.
pub(crate) const COMMANDS_MAX: usize = 1_048_576;

/// The mode of an execution file: only its owner may read and write it.
const TEXT_MODE: u16 = 0o600;

/// A file that can't be read now, or can't be put in its place, and the cause. It is a C. file, the data of a job, a
/// received file, or a file or folder in or below the public folder.
#[derive(Clone, Copy)]
pub(crate) struct Unread {
    pub(crate) name: Name,
    pub(crate) cause: Cause,
}

/// The work that a session may still offer.
#[derive(Clone, Copy)]
struct Budget {
    /// The bytes that are left.
    bytes: u64,
    /// The number of jobs that is left.
    jobs: usize,
    /// The size limit of each file.
    limit: FileLimit,
    /// Set until the first job is taken.
    is_first: bool,
    /// Set once a job was not offered: nothing more is.
    is_full: bool,
}

impl Budget {
    /// Returns the budget of a session with this allowance for its files.
    fn of(allowance: Allowance) -> Self
        ensures { result ≡ record {
          bytes = allowance.bytes;
          jobs = JOBS_MAX;
          limit = allowance.limit;
          is_first = true;
          is_full = false;
        } }
    {
        Budget {
            bytes: allowance.bytes,
            jobs: JOBS_MAX,
            limit: allowance.limit,
            is_first: true,
            is_full: false,
        }
    }

    /// Takes a job with a file of this size from the budget. Returns whether the job is offered: the first one always
    /// is, and any other if there is room. Marks the budget as full if it is not offered.
    fn take(&mut self, size: u64) -> bool
        ensures { (result ≡ budget_fits self.old size) × (self.new ≡ budget_after self.old size) }
    {
        let fits = self.is_first || (size <= self.bytes && self.jobs > 0);
        self.is_first = false;
        self.bytes = self.bytes.saturating_sub(size);
        self.jobs = self.jobs.saturating_sub(1);
        self.is_full = self.is_full || !fits;
        fits
    }
}

/// The work that waits for a system: the open lines of its C. files, and the files that these lines send.
#[derive(Drop)]
pub(crate) struct Work<A: Allocator> {
    /// The names of the C. files that were read.
    pub(crate) names: Vec<Name, A>,
    pub(crate) lines: Vec<OpenLine, A>,
    /// The texts of these C. files.
    pub(crate) texts: Vec<CommandText<A>, A>,
    /// The number of jobs of these lines that are offered: the first ones.
    pub(crate) offered: usize,
    pub(crate) files: Vec<Stored<A>, A>,
    /// The commands that these lines run.
    pub(crate) executions: Vec<Execution, A>,
    /// The jobs that are put off because they can't be read.
    pub(crate) unread: Vec<Unread, A>,
    /// The files that are not given because they can't be read.
    pub(crate) ungiven: Vec<Unread, A>,
    /// The markers of files that earlier sessions received.
    pub(crate) came: Vec<Came<A>, A>,
    /// The files that earlier sessions received, and that were set aside.
    pub(crate) aside: Vec<Unread, A>,
    /// The partial files that the end holds, if it resumes.
    pub(crate) partials: Option<Partials<A>>,
    /// Set if more jobs wait than a session offers.
    pub(crate) is_more: bool,
}

impl<A: Allocator + Copy> Work<A> {
    /// Returns no work.
    fn none(alloc: A) -> Self {
        Work {
            names: Vec::new(alloc),
            lines: Vec::new(alloc),
            texts: Vec::new(alloc),
            offered: 0,
            files: Vec::new(alloc),
            executions: Vec::new(alloc),
            unread: Vec::new(alloc),
            ungiven: Vec::new(alloc),
            came: Vec::new(alloc),
            aside: Vec::new(alloc),
            partials: None,
            is_more: false,
        }
    }
}

/// The shared parameters of the functions that read the work of a system.
#[derive(Drop)]
struct WorkReader<'a, A: Allocator, R> {
    alloc: A,
    rt: &'a R,
    paths: &'a SpoolPaths<A>,
    /// The name of this node, for execution files.
    me: &'a Name,
    /// The names of the data that exists.
    there: &'a [Name],
}

/// Reads the work that waits for a system, C. file after C. file and line after line, until the offered files would
/// exceed `allowance`, or the jobs `JOBS_MAX`. The first file is always offered. With a `grade`, C. files of lower
/// grades wait. `me` is the name of this node, for execution files. A line that a session could not remove from the
/// disk is a fault.
pub(crate) fn read_work<A: Allocator + Copy, R: Files<File = File> + Alloc + Clone + Drop>(
    alloc: A,
    rt: &R,
    paths: &SpoolPaths<A>,
    me: &Name,
    allowance: Allowance,
    grade: Option<&str>,
) -> Result<Work<A>, RunFault>
    ensures { IfErr result IsFolderFault }
{
    let names = work_names(alloc, rt, paths)?;
    let there = data_names(alloc, rt, paths)?;
    let reader = WorkReader {
        alloc,
        rt,
        paths,
        me,
        there: there.as_slice(),
    };
    let mut work = Work::none(alloc);
    let mut budget = Budget::of(allowance);
    for name in names.as_slice() {
        // the files after it have the same grade or a lower one
        if budget.is_full || !is_offered(name, grade) {
            break;
        }
        add_commands(&mut work, &reader, name, &mut budget)?;
    }
    see_lines(alloc, rt, paths, work.lines.as_slice())?;
    work.is_more = budget.is_full;
    Ok(work)
}

/// Returns whether a C. file of this name is offered: its grade is `lowest` or higher. Without a lowest grade, all are
/// offered.
fn is_offered(name: &Name, lowest: Option<&str>) -> bool
    ensures { result ≡ is_offered lowest.entry name.now }
{
    let Some(lowest) = lowest else {
        return true;
    };
    match grade_of(name.as_bytes()) {
        Some(grade) => match lowest.as_bytes() {
            [lowest, ..] => grade <= *lowest,
            [] => false,
        },
        None => false,
    }
}

/// Returns the names of the C. files, in the order in which a session takes them.
pub(crate) fn work_names<A: Allocator + Copy, R: Files + Alloc + Clone + Drop>(
    alloc: A,
    rt: &R,
    paths: &SpoolPaths<A>,
) -> Result<Vec<Name, A>, RunFault>
    ensures { IfErr result IsFolderFault }
{
    let listed = list_room(alloc, rt, paths, Room::Commands)?;
    let mut names = Vec::new(alloc);
    for name in listed.as_slice() {
        if grade_of(name.as_bytes()).is_some() {
            insert(&mut names, *name)?;
        }
    }
    Ok(names)
}

/// Inserts a name into names that are in the order of `work_order`.
fn insert<A: Allocator>(names: &mut Vec<Name, A>, name: Name) -> Result<(), AllocError> {
    let place = names
        .iter()
        .position(|other| work_order(name.as_bytes(), other.as_bytes()) == Ordering::Less)
        .unwrap_or(names.len());
    names.insert(place, name)?;
    Ok(())
}

/// Returns the names of the data that exists.
fn data_names<A: Allocator + Copy, R: Files + Alloc + Clone + Drop>(
    alloc: A,
    rt: &R,
    paths: &SpoolPaths<A>,
) -> Result<Vec<Name, A>, RunFault>
    ensures { IfErr result IsFolderFault }
{
    let mut names = list_room(alloc, rt, paths, Room::Data)?;
    let texts = list_room(alloc, rt, paths, Room::Text)?;
    names.extend_from_slice(texts.as_slice())?;
    Ok(names)
}

/// Adds the work of a C. file. A file that has vanished is skipped. A file that can't be read is put off, and so is one
/// with a line whose file, named by a user, can't be read now.
fn add_commands<A: Allocator + Copy, R: Files>(
    work: &mut Work<A>,
    reader: &WorkReader<'_, A, R>,
    name: &Name,
    budget: &mut Budget,
) -> Result<(), RunFault>
    ensures { IfErr result IsFolderFault }
{
    match read_commands(reader, name, budget) {
        Ok(Some(mut more)) => {
            append(work, &mut more)?;
            Ok(())
        }
        Ok(None) => Ok(()),
        Err(fault) => note_unread(&mut work.unread, name, fault),
    }
}

/// Reads the work of a C. file, if it exists. A file of more than `COMMANDS_MAX` bytes is a fault.
fn read_commands<A: Allocator + Copy, R: Files>(
    reader: &WorkReader<'_, A, R>,
    name: &Name,
    budget: &mut Budget,
) -> Result<Option<Work<A>>, RunFault>
    ensures { IfErr result IsFolderFault }
{
    let (alloc, paths, there) = (reader.alloc, reader.paths, reader.there);
    let spot = Spot {
        room: Room::Commands,
        name: *name,
    };
    let Some(text) = read_whole(alloc, reader.rt, paths, &spot, COMMANDS_MAX)? else {
        return Ok(None);
    };
    let mut more = Work::none(alloc);
    let front = add_files(&mut more, reader, text.as_slice(), budget)?;
    let unread = names_of(alloc, more.unread.as_slice())?;
    let public = paths.public().as_bytes();
    more.lines = lines_in(
        alloc,
        name,
        text.as_slice(),
        there,
        unread.as_slice(),
        public,
    )?;
    more.offered = count_jobs(more.lines.as_slice(), front);
    more.texts.reserve(1)?;
    more.texts.push_reserved(CommandText { name: *name, text });
    more.names.reserve(1)?;
    more.names.push_reserved(*name);
    Ok(Some(more))
}

/// Counts the jobs of those lines that are among the first `front` lines of their file.
fn count_jobs(lines: &[OpenLine], front: usize) -> usize {
    lines
        .iter()
        .filter(|line| line.number < front && line.job.is_some())
        .count()
}

/// Appends the work of one C. file to the work of those before.
fn append<A: Allocator>(work: &mut Work<A>, more: &mut Work<A>) -> Result<(), AllocError>
    ensures { OnOk result (IsAppended work.old more.old work.new) }
{
    work.names.append(&mut more.names)?;
    work.lines.append(&mut more.lines)?;
    work.texts.append(&mut more.texts)?;
    work.offered = work.offered.saturating_add(more.offered);
    work.files.append(&mut more.files)?;
    work.executions.append(&mut more.executions)?;
    work.unread.append(&mut more.unread)?;
    Ok(())
}

/// Notes a file that can't be read because a system call failed. Returns the fault if memory ran out instead.
pub(crate) fn note_unread<A: Allocator>(
    unread: &mut Vec<Unread, A>,
    name: &Name,
    fault: RunFault,
) -> Result<(), RunFault>
    requires { IsFolderFault fault }
    ensures { IfErr result IsFolderFault }
{
    match fault {
        RunFault::System(failure) => {
            unread.reserve(1)?;
            unread.push_reserved(Unread {
                name: *name,
                cause: failure.cause,
            });
            Ok(())
        }
        fault => Err(fault),
    }
}

/// Returns the names of these files.
pub(crate) fn names_of<A: Allocator>(
    alloc: A,
    unread: &[Unread],
) -> Result<Vec<Name, A>, AllocError>
    ensures { IfOk result (λ names. names.items ≡ map (λ one. one.name) unread.now) }
{
    let mut names = Vec::new(alloc);
    for one in unread {
        names.push(one.name)?;
    }
    Ok(names)
}

/// Returns the open lines of a C. file, with the names that a session uses. `there` has the names of the data that
/// exists. A line whose copy is in `unread`, the names of the data that can't be read, has no job.
fn lines_in<A: Allocator + Copy>(
    alloc: A,
    name: &Name,
    text: &[u8],
    there: &[Name],
    unread: &[Name],
    public: &[u8],
) -> Result<Vec<OpenLine, A>, AllocError>
    ensures { IfOk result (λ lines. lines.items ≡ held_lines unread.now
        (named_lines public.now (file_lines there.now name.now 0 (lines_of_text text.now)))) }
{
    let mut lines = Vec::new(alloc);
    add_file(&mut lines, name, text, there)?;
    let named = named_lines(alloc, lines.as_slice(), public)?;
    held_lines(alloc, named.as_slice(), unread)
}

/// Returns the lines with the targets of requests as a session writes them: `uucp` writes the path of the public
/// folder, and a session `~`.
fn named_lines<A: Allocator>(
    alloc: A,
    lines: &[OpenLine],
    public: &[u8],
) -> Result<Vec<OpenLine, A>, AllocError>
    ensures { IfOk result (λ named. named.items ≡ named_lines public.now lines.now) }
{
    let mut named = Vec::new(alloc);
    for line in lines {
        named.push(named_line(line, public))?;
    }
    Ok(named)
}

fn named_line(line: &OpenLine, public: &[u8]) -> OpenLine
    ensures { result ≡ named_line public.now line.now }
{
    let job = match &line.job {
        Some(job) => Some(named_job(job, public)),
        None => None,
    };
    OpenLine {
        file: line.file,
        number: line.number,
        copy: line.copy,
        job,
    }
}

fn named_job(job: &Job, public: &[u8]) -> Job
    ensures { result ≡ named_job public.now job.now }
{
    match job {
        Job::Request {
            source,
            target,
            user,
        } => Job::Request {
            source: *source,
            target: public_name(target, public),
            user: *user,
        },
        Job::Send { .. } => *job,
    }
}

/// Returns a name in the public folder as a session writes it, with `~` for the folder. Any other name stays as it is,
/// and so does one that would be too long.
fn public_name(name: &Name, public: &[u8]) -> Name
    ensures { result ≡ public_name public.now name.now }
{
    let Some(rest) = behind_public(name.as_bytes(), public) else {
        return *name;
    };
    match home_name(rest) {
        Some(home) => home,
        None => *name,
    }
}

/// Returns the rest of a name after the path of the public folder, the slash first, if the name is in that folder.
fn behind_public<'a>(name: &'a [u8], public: &[u8]) -> Option<&'a [u8]>
    ensures { MatchOption result (behind_public public.now name.now ≡ None)
        (λ rest. behind_public public.now name.now ≡ Some rest.now) }
{
    if !name.starts_with(public) {
        return None;
    }
    let rest = &name[public.len()..];
    if rest.starts_with(b"/") {
        Some(rest)
    } else {
        None
    }
}

/// Returns `~` with this text after it, if that is a valid name.
fn home_name(rest: &[u8]) -> Option<Name>
    ensures { result ≡ name_of (codes "~" ++ rest.now) }
{
    if rest.len() >= NAME_MAX {
        return None;
    }
    let mut path: ArrayVec<u8, NAME_MAX> = ArrayVec::new();
    path.push(b'~');
    let Ok(()) = path.try_extend_from_slice(rest) else {
        unreachable!();
    };
    Name::new(path.as_slice()).ok()
}

/// Returns the total size of files, in bytes.
pub(crate) fn size_of<A: Allocator>(files: &[Stored<A>]) -> u64 {
    let mut size: u64 = 0;
    for file in files {
        size = size.saturating_add(file.bytes.len() as u64);
    }
    size
}

/// Adds the files that the lines of a C. file send, and the commands that they run, until the budget is full. Returns
/// the number of lines that are offered: the first ones.
fn add_files<A: Allocator + Copy, R: Files>(
    work: &mut Work<A>,
    reader: &WorkReader<'_, A, R>,
    text: &[u8],
    budget: &mut Budget,
) -> Result<usize, RunFault>
    ensures { IfErr result IsFolderFault }
{
    let mut rest = text;
    let mut number = 0;
    while let Some((line, behind)) = split_line(rest) {
        add_line(work, reader, line, budget)?;
        if budget.is_full {
            return Ok(number);
        }
        rest = behind;
        number += 1;
    }
    Ok(number)
}

/// Adds the files that a line sends, and the command that it runs, if a session can offer the line.
fn add_line<A: Allocator + Copy, R: Files>(
    work: &mut Work<A>,
    reader: &WorkReader<'_, A, R>,
    line: &[u8],
    budget: &mut Budget,
) -> Result<(), RunFault>
    ensures { IfErr result IsFolderFault }
{
    if read_offer(line).is_err() {
        return Ok(());
    }
    match read_command(line) {
        Ok(Command::Send(fields, file)) => {
            let _ = add_sent(work, reader, &fields, &file, budget)?;
        }
        Ok(Command::Execute(fields, file, command)) => {
            // Without its data an execution file would wait at the other system forever.
            if add_sent(work, reader, &fields, &file, budget)? {
                add_text(
                    &mut work.files,
                    reader.alloc,
                    reader.me,
                    &fields,
                    &file,
                    command,
                )?;
                budget.take(0);
            }
            if let Some(execution) = read_execution(line) {
                work.executions.reserve(1)?;
                work.executions.push_reserved(execution);
            }
        }
        Ok(Command::Request(_)) => {
            budget.take(0);
        }
        _ => (),
    }
    Ok(())
}

/// Adds the file that a line sends, if it is offered: the copy, or the file that a user named. Returns whether it was
/// added. A copy that can't be read is put off. A file that a user named counts as missing if this program may not read
/// it.
fn add_sent<A: Allocator + Copy, R: Files>(
    work: &mut Work<A>,
    reader: &WorkReader<'_, A, R>,
    fields: &Fields<'_>,
    file: &SentFile<'_>,
    budget: &mut Budget,
) -> Result<bool, RunFault>
    ensures named { OnOk result (AddsNamed
        (data_name fields.now.options.now fields.now.source.now file.now.temp.now)
        work.old.files.items work.new.files.items) }
    ensures no_other { IfErr result IsFolderFault }
{
    let (alloc, rt, paths) = (reader.alloc, reader.rt, reader.paths);
    let is_copy = has_option(fields.options, b'C');
    let word = if is_copy { file.temp } else { fields.source };
    let Ok(name) = Name::new(word) else {
        return Ok(false);
    };
    let found = if !is_copy {
        Ok(read_source(alloc, rt, paths, fields.source, budget.limit.bytes)?)
    } else if has_name(reader.there, name.as_bytes()) {
        read_spot(alloc, rt, paths, &data_spot(&name), budget.limit.bytes)
    } else {
        Ok(None)
    };
    match found {
        Ok(Some(bytes)) => {
            if !budget.take(bytes.len() as u64) {
                return Ok(false);
            }
            work.files.reserve(1)?;
            work.files.push_reserved(stored(name, file.mode, bytes));
            Ok(true)
        }
        Ok(None) => {
            if !is_copy {
                budget.take(0);
            }
            Ok(false)
        }
        Err(fault) => {
            note_unread(&mut work.unread, &name, fault)?;
            Ok(false)
        }
    }
}

/// Adds the execution file of a line that runs a command.
fn add_text<A: Allocator + Copy>(
    files: &mut Vec<Stored<A>, A>,
    alloc: A,
    me: &Name,
    fields: &Fields<'_>,
    file: &SentFile<'_>,
    command: &[u8],
) -> Result<(), AllocError> {
    let Some(name) = text_name(fields.options, fields.target, file.temp) else {
        return Ok(());
    };
    let bytes = execution_text(alloc, me, fields, file, command)?;
    files.reserve(1)?;
    files.push_reserved(stored(name, TEXT_MODE, bytes));
    Ok(())
}

/// Creates a file to give.
pub(crate) fn stored<A: Allocator>(name: Name, mode: u16, bytes: Vec<u8, A>) -> Stored<A>
    requires { mode ≤ MODE_MAX }
    ensures name { result.name ≡ name }
    ensures mode { result.mode ≡ mode }
{
    Stored { name, mode, bytes }
}
