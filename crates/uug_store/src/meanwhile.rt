//! The text of a file of jobs after a session, whatever happened to it meanwhile.
ghost use Rattle.std.specs.Str.{bytes_eq};
ghost use Rattle.std.specs.Prelude.{◌≡◌, ◌&&◌, ◌++◌, ◌<◌, IfOk, OnOk, MatchOption, IfSome, None, Some, length, remove};
ghost use Rattle.uug_conversation.specs.Jobs.{pending};
ghost use Rattle.uug_talk.specs.Lines.{lines};
ghost use Rattle.uug_store.specs.JobsText.{job_said, jobs_text, says_of};
ghost use Rattle.uug_store.specs.JobsAfter.{IsLeft, IsTaken, behind, is_copy, is_job, jobs_after, lines_left, without_first, without_said};

use crate::jobs_text::{job_in, write_jobs};
use std::alloc::{AllocError, Allocator};
use uug_session::{Job, Queue};
use uug_talk::{Name, split_line};

/// Returns the text that replaces the text `now` of a file of jobs after a session. `before` was the file's text when
/// the session began. If the file only grew, the pending jobs stay, and after them the appended part. If it was changed
/// otherwise, one line is removed for each job that was struck or has failed, and all else stays.
pub fn jobs_after<A: Allocator + Copy, B: Allocator>(
    alloc: A,
    before: &[u8],
    now: &[u8],
    queue: &Queue<B>,
) -> Result<Vec<u8, A>, AllocError>
    ensures { IfOk result (λ text. text.items ≡ jobs_after before.now now.now queue.now) }
{
    match behind(before, now) {
        Some(appended) => text_with(alloc, queue.pending(), appended),
        None => text_without(alloc, queue.struck(), queue.failed(), now),
    }
}

/// Returns the part of the second text after the first one, if it begins with the first one.
fn behind<'a>(first: &[u8], text: &'a [u8]) -> Option<&'a [u8]>
    ensures { MatchOption result (behind first.now text.now ≡ None)
        (λ rest. behind first.now text.now ≡ Some rest.now) }
{
    text.strip_prefix(first)
}

/// Returns the text of these jobs, and after it what was appended.
fn text_with<A: Allocator + Copy>(
    alloc: A,
    jobs: &[Job],
    appended: &[u8],
) -> Result<Vec<u8, A>, AllocError>
    ensures { IfOk result (λ text. text.items ≡ jobs_text jobs.now ++ appended.now) }
{
    let mut text = write_jobs(alloc, jobs)?.into_bytes();
    text.extend_from_slice(appended)?;
    Ok(text)
}

/// Returns a text without one line for each of these struck and failed jobs.
pub(crate) fn text_without<A: Allocator + Copy>(
    alloc: A,
    struck: &[Job],
    failed: &[Job],
    now: &[u8],
) -> Result<Vec<u8, A>, AllocError>
    ensures { IfOk result (λ text. text.items ≡ lines_left (struck.now ++ failed.now) (lines now.now)) }
{
    let mut over = struck.to_vec(alloc)?;
    over.extend_from_slice(failed)?;
    let mut text = Vec::new(alloc);
    add_lines_left(&mut text, &mut over, now)?;
    Ok(text)
}

/// Appends the lines of `now`, except for one line of each job in `over`. A job whose line is left out is removed from
/// `over`.
fn add_lines_left<A: Allocator>(
    text: &mut Vec<u8, A>,
    over: &mut Vec<Job, A>,
    now: &[u8],
) -> Result<(), AllocError>
    ensures { OnOk result (text.new.items
        ≡ text.old.items ++ lines_left over.old.items (lines now.now)) }
{
    let mut rest = now;
    while let Some((line, behind)) = split_line(rest) {
        add_line_left(text, over, line)?;
        rest = behind;
    }
    Ok(())
}

/// Appends a line, unless it is a job in `over`: then that job is removed from `over`.
fn add_line_left<A: Allocator>(
    text: &mut Vec<u8, A>,
    over: &mut Vec<Job, A>,
    line: &[u8],
) -> Result<(), AllocError>
    ensures { OnOk result (IsLeft (without_said (job_said (says_of line.now)) over.old.items) line.now
        over.old.items over.new.items text.old.items text.new.items) }
{
    if takes_out(over, line) {
        return Ok(());
    }
    text.extend_from_slice(line)?;
    text.extend_from_slice(b"\n")
}

/// Removes the job of a line from these, if it is among them. Returns whether it was.
fn takes_out<A: Allocator>(jobs: &mut Vec<Job, A>, line: &[u8]) -> bool
    ensures { IsTaken result (without_said (job_said (says_of line.now)) jobs.old.items)
        jobs.old.items jobs.new.items }
{
    match job_in(line) {
        Some(job) => take_first(jobs, &job),
        None => false,
    }
}

/// Removes the first job with the same words and the same copy as this one. Returns whether there was one.
pub fn take_first<A: Allocator>(jobs: &mut Vec<Job, A>, job: &Job) -> bool
    ensures { IsTaken result (without_first job.now jobs.old.items)
        jobs.old.items jobs.new.items }
{
    match place_of(jobs, job) {
        Some(place) => {
            jobs.remove(place);
            true
        }
        None => false,
    }
}

/// Returns the place of the first job with the same words and the same copy as this one, if there is one.
fn place_of(jobs: &[Job], job: &Job) -> Option<usize>
    ensures within { IfSome result (λ place. place < length jobs.now) }
    ensures first { MatchOption result (without_first job.now jobs.now ≡ None)
        (λ place. without_first job.now jobs.now ≡ Some (remove jobs.now place)) }
{
    for i in 0..jobs.len() {
        if is_job(&jobs[i], job) {
            return Some(i);
        }
    }
    None
}

/// Returns whether two jobs have the same words, and the same copy.
pub(crate) fn is_job(job: &Job, other: &Job) -> bool
    ensures { result ≡ is_job job.now other.now }
{
    match (job, other) {
        (
            Job::Send {
                source,
                target,
                user,
                temp,
            },
            Job::Send {
                source: source_there,
                target: target_there,
                user: user_there,
                temp: temp_there,
            },
        ) => {
            has_words(source, target, user, source_there, target_there, user_there)
                && is_copy(temp, temp_there)
        }
        (
            Job::Request {
                source,
                target,
                user,
            },
            Job::Request {
                source: source_there,
                target: target_there,
                user: user_there,
            },
        ) => has_words(source, target, user, source_there, target_there, user_there),
        _ => false,
    }
}

/// Returns whether two copies have the same name, or neither job has a copy.
fn is_copy(temp: &Option<Name>, copy: &Option<Name>) -> bool
    ensures { result ≡ is_copy temp.now copy.now }
{
    match (temp, copy) {
        (Some(temp), Some(copy)) => is_name(temp, copy),
        (None, None) => true,
        _ => false,
    }
}

/// Returns whether the words of two jobs are the same.
fn has_words(
    source: &Name,
    target: &Name,
    user: &Name,
    other_source: &Name,
    other_target: &Name,
    other_user: &Name,
) -> bool
    ensures { result ≡ (bytes_eq source.now other_source.now
        && (bytes_eq target.now other_target.now && bytes_eq user.now other_user.now)) }
{
    is_name(source, other_source) && is_name(target, other_target) && is_name(user, other_user)
}

fn is_name(name: &Name, other: &Name) -> bool
    ensures { result ≡ bytes_eq name.now other.now }
{
    name.as_bytes() == other.as_bytes()
}
