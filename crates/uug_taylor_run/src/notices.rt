//! Mail to users whose jobs have failed. It is stored as if the other system had sent it: data, and an execution file
//! that makes `uuxqt` deliver it. If a mail can't be written, the rest is skipped; the list of failed jobs has the
//! notices all the same.

use crate::telling::{SessionOver, Teller};
use std::alloc::{AllocError, Allocator};
use std::fs::File;
use std::rt::Files;
use std::time::Clock;
use uug_session::{Job, Spool};
use uug_store::{is_among, write_notices};
use uug_talk::Name;
use uug_taylor_disk::{SpoolDisk, SpoolPaths, is_there};
use uug_taylor_queue::{Execution, addressee, day_word, is_told_with_data, month_word};
use uug_taylor_text::{Moment, Room, Spot, far_name, next_sequence, replace};

/// The grade in the names of this mail.
const GRADE: u8 = b'M';

/// The maximum number of attempts to find free names for a mail.
const NUMBERS_IN_USE_MAX: u32 = 10_000;

/// Mails a notice of each failed job. If a command and its data have both failed, there is one mail. Stops at the first
/// mail that can't be written.
pub(crate) fn mail_failed<S, A, R>(
    teller: &Teller<'_, '_, A, R>,
    me: &Name,
    spool: &S,
    over: &SessionOver<'_, A>,
)
where
    S: Spool,
    A: Allocator + Copy,
    R: Files<File = File> + Clock,
{
    let mut number = *b"0000";
    for job in over.failed {
        if is_told_with_data(over.executions, over.failed, job) {
            continue;
        }
        let Some(names) = free_names(teller, me, &mut number) else {
            return;
        };
        let Ok(notice) = write_notices(teller.alloc, spool, &[*job]) else {
            return;
        };
        if mail_job(teller, me, over, job, &names, notice.as_str()).is_none() {
            return;
        }
    }
}

/// Writes the mail about a failed job under these names. It is addressed to the user who asks for the job's command, or
/// else to the job's user. Returns `None` if that fails.
fn mail_job<A: Allocator + Copy, R: Files<File = File> + Clock>(
    teller: &Teller<'_, '_, A, R>,
    me: &Name,
    over: &SessionOver<'_, A>,
    job: &Job,
    names: &(Spot, Spot),
    notice: &str,
) -> Option<()> {
    let (data, execution) = names;
    let (alloc, paths) = (teller.alloc, teller.paths);
    let to = addressee(over.executions, job);
    let moment = teller.clock.now(teller.rt);
    let saved = saved_words(alloc, preserved_at(over, job)).ok()?;
    let text = mail_text(alloc, &moment, me, paths, &to, notice, saved.as_str()).ok()?;
    let command = command_text(alloc, me, &data.name, &to).ok()?;
    let mut disk = SpoolDisk::new(alloc, teller.rt, paths);
    replace(&mut disk, data, text.as_bytes()).ok()?;
    replace(&mut disk, execution, command.as_bytes()).ok()
}

/// Returns the places of the next mail, with names that no file has. Advances `number` to the one in these names.
fn free_names<A: Allocator + Copy, R: Files>(
    teller: &Teller<'_, '_, A, R>,
    me: &Name,
    number: &mut [u8; 4],
) -> Option<(Spot, Spot)> {
    let (alloc, rt, paths) = (teller.alloc, teller.rt, teller.paths);
    for _ in 0..NUMBERS_IN_USE_MAX {
        *number = next_sequence(&number[..]);
        let data = Spot {
            room: Room::Data,
            name: Name::new(far_name(b'D', me, GRADE, *number).as_slice()).ok()?,
        };
        let execution = Spot {
            room: Room::Execution,
            name: Name::new(far_name(b'X', me, GRADE, *number).as_slice()).ok()?,
        };
        let is_used = is_there(alloc, rt, paths, &data).ok()?
            || is_there(alloc, rt, paths, &execution).ok()?;
        if !is_used {
            return Some((data, execution));
        }
    }
    None
}

/// Returns the path at which the copy of this job's data was preserved, if it was. For a job that sends an execution
/// file, it is the copy of the command's data.
fn preserved_at<'a, A: Allocator>(over: &SessionOver<'a, A>, job: &Job) -> Option<&'a str> {
    let name = copy_of(over.executions, job)?;
    for file in over.preserved {
        if file.name.as_bytes() == name.as_bytes() {
            return Some(file.path.as_str());
        }
    }
    None
}

/// Returns the name of the copy of this job's data. For a job that sends an execution file, it is the copy of the
/// command's data.
fn copy_of(executions: &[Execution], job: &Job) -> Option<Name> {
    for execution in executions {
        if is_among(&[execution.text], job) {
            return temp_of(&execution.input);
        }
    }
    temp_of(job)
}

fn temp_of(job: &Job) -> Option<Name> {
    match job {
        Job::Send { temp, .. } => *temp,
        Job::Request { .. } => None,
    }
}

/// Returns the text of the execution file that makes `uuxqt` deliver the mail.
fn command_text<A: Allocator>(
    alloc: A,
    me: &Name,
    data: &Name,
    user: &Name,
) -> Result<String<A>, AllocError> {
    let me = me.as_str();
    let data = data.as_str();
    let user = user.as_str();
    format!(in alloc; "U uucp {me}\nF {data}\nI {data}\nN\nC rmail {user}\n")
}

/// Returns the last two digits of a number.
fn two_digits(number: u8) -> (u8, u8) {
    (number / 10 % 10, number % 10)
}

/// Returns the lines of a mail about data that was preserved at this path. They are empty without a path.
fn saved_words<A: Allocator>(alloc: A, path: Option<&str>) -> Result<String<A>, AllocError> {
    match path {
        Some(path) => format!(in alloc; "\nFile saved as\n{path}\n"),
        None => Ok(String::new(alloc)),
    }
}

/// Returns the text of a mail, written at this moment, about a job that has failed.
fn mail_text<A: Allocator + Copy>(
    alloc: A,
    moment: &Moment,
    me: &Name,
    paths: &SpoolPaths<A>,
    to: &Name,
    notice: &str,
    saved: &str,
) -> Result<String<A>, AllocError> {
    let (day, month) = (day_word(moment), month_word(moment.month));
    let (date, year) = (moment.day, moment.year);
    let (h, hh) = two_digits(moment.hour);
    let (m, mm) = two_digits(moment.minute);
    let (s, ss) = two_digits(moment.second);
    let me = me.as_str();
    let user = to.as_str();
    let system = paths.system().as_str();
    format!(in alloc;
        "From uucp {day} {month} {date} {h}{hh}:{m}{mm}:{s}{ss} {year} remote from {me}\nTo: {user}\nSubject: UUCP failed\n\nMessage from UUCP on {me}\n\nThis job for {system} was given up:\n{notice}{saved}"
    )
}
