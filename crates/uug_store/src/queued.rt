//! Queueing: the job of an order, the name of its copy in `send`, and the line to append to the text of the jobs.
ghost use Rattle.std.specs.Prelude.{◌≡◌, [], IfOk, None, Some, string_bytes};
ghost use Rattle.uug_store.specs.JobsText.{job_said, says_of};
ghost use Rattle.uug_store.specs.OpenJobs.{jobs_in, with_said};
ghost use Rattle.uug_talk.specs.Lines.{lines};
ghost use Rattle.uug_store.specs.Queueing.{appended, base_name, gives, is_among, is_given_by, is_whole, last_part, name_in, nth_name, ordered, queued_line, requests_with, sends_any, sends_with, shown_text, target_with, user_by, user_with, visible, with_source};

use crate::jobs_text::{add_job_line, job_in};
use crate::meanwhile::is_job;
use std::alloc::{AllocError, Allocator};
use thiserror::Error;
use uug_session::Job;
use uug_talk::{Name, split_line};

/// An error in an order.
#[derive(Clone, Copy, Debug, PartialEq, Eq, Error)]
pub enum OrderFault {
    /// The word is neither `send` nor `request`.
    #[error("the order must be send or request")]
    Word,
    /// The file has no name under which it could be queued.
    #[error("the file needs a name of 1 to 200 printable characters, without spaces or a leading dot")]
    File,
    /// The target is no name, or none is given and the file has none.
    #[error("the target is not a name of 1 to 200 printable characters without spaces")]
    Target,
    /// The user is no name.
    #[error("the user is not a name of 1 to 200 printable characters without spaces")]
    User,
}

/// Returns the part of a path after the last slash.
fn last_part(path: &[u8]) -> &[u8]
    ensures { result.now ≡ last_part path.now }
{
    let mut rest = path;
    while rest.contains(&b'/') {
        rest = &rest[1..];
    }
    rest
}

/// Returns the name if it has no dot in front: a file with one is hidden, and not given.
fn visible(name: Name) -> Option<Name>
    ensures { result ≡ visible (Some name) }
{
    if name.as_bytes().starts_with(b".") {
        return None;
    }
    Some(name)
}

/// Returns the name of a file at a path, if it has one that may be given.
fn base_name(path: &[u8]) -> Option<Name>
    ensures { result ≡ base_name path.now }
{
    visible(Name::new(last_part(path)).ok()?)
}

/// Returns the target of an order for the file at this path: the one that is given, or else the name of the file.
fn target_of(target: Option<&[u8]>, path: &[u8]) -> Option<Name>
    ensures { result ≡ target_with (shown_text target.entry) path.now }
{
    match target {
        Some(target) => Name::new(target).ok(),
        None => base_name(path),
    }
}

/// Returns the user of an order: the one that is given, or else the default.
fn user_of(user: Option<&[u8]>, default: Name) -> Option<Name>
    ensures { result ≡ user_with (shown_text user.entry) default }
{
    match user {
        Some(user) => Name::new(user).ok(),
        None => Some(default),
    }
}

/// Returns the job of an order, by its word: `send` or `request`. The source of a Send job is the name of the file at
/// `path`; the copy in `send` may get another name. The source of a Request job is `path` itself. The target defaults
/// to the name of the file, and the user to `default`.
pub fn ordered_job(
    word: &[u8],
    path: &[u8],
    target: Option<&[u8]>,
    user: Option<&[u8]>,
    default: Name,
) -> Result<Job, OrderFault>
    ensures { result ≡ ordered word.now path.now
        (target_with (shown_text target.entry) path.now) (user_with (shown_text user.entry) default) }
{
    let target = target_of(target, path);
    let user = user_of(user, default);
    if word == b"send".as_slice() {
        send_job(base_name(path), target, user)
    } else if word == b"request".as_slice() {
        request_job(Name::new(path).ok(), target, user)
    } else {
        Err(OrderFault::Word)
    }
}

/// Returns the job that sends a file, or the error for the first name that is missing.
fn send_job(
    source: Option<Name>,
    target: Option<Name>,
    user: Option<Name>,
) -> Result<Job, OrderFault>
    ensures { result ≡ sends_with source target user }
{
    let Some(source) = source else {
        return Err(OrderFault::File);
    };
    let Some(target) = target else {
        return Err(OrderFault::Target);
    };
    let Some(user) = user else {
        return Err(OrderFault::User);
    };
    Ok(Job::Send {
        source,
        target,
        user,
        temp: None,
    })
}

/// Returns the job that requests a file, or the error for the first name that is missing.
fn request_job(
    source: Option<Name>,
    target: Option<Name>,
    user: Option<Name>,
) -> Result<Job, OrderFault>
    ensures { result ≡ requests_with source target user }
{
    let Some(source) = source else {
        return Err(OrderFault::File);
    };
    let Some(target) = target else {
        return Err(OrderFault::Target);
    };
    let Some(user) = user else {
        return Err(OrderFault::User);
    };
    Ok(Job::Request {
        source,
        target,
        user,
    })
}

/// Returns the user of a job if none is given: the first of these texts that is a name, or else `uucp`.
pub fn default_user(user: Option<&[u8]>, login: Option<&[u8]>) -> Name
    ensures { result ≡ user_by (name_in (shown_text user.entry)) (name_in (shown_text login.entry)) }
{
    if let Some(name) = name_of(user) {
        return name;
    }
    if let Some(name) = name_of(login) {
        return name;
    }
    let Ok(name) = Name::new(b"uucp") else {
        unreachable!();
    };
    name
}

/// Returns the text as a name, if there is a text and it is a name.
fn name_of(text: Option<&[u8]>) -> Option<Name>
    ensures { result ≡ name_in (shown_text text.entry) }
{
    Name::new(text?).ok()
}

/// Returns the name to try for a copy in `send`: for 0 the base itself, otherwise the base, a dot and the number.
/// Returns `None` if that is not a name.
pub fn nth_name<A: Allocator>(alloc: A, base: &Name, n: u32) -> Result<Option<Name>, AllocError>
    ensures { IfOk result (λ name. name ≡ nth_name base.now n) }
{
    if n == 0 {
        return Ok(Some(*base));
    }
    let front = base.as_str();
    let text = format!(in alloc; "{front}.{n}")?;
    Ok(Name::new(text.as_bytes()).ok())
}

/// Returns the job with this source if it sends a file, and otherwise the job itself.
pub fn with_source(job: &Job, name: Name) -> Job
    ensures { result ≡ with_source name job.now }
{
    match job {
        Job::Send { target, user, .. } => Job::Send {
            source: name,
            target: *target,
            user: *user,
            temp: None,
        },
        Job::Request { .. } => *job,
    }
}

/// Returns whether a job is one of these.
pub fn is_among(jobs: &[Job], job: &Job) -> bool
    ensures { result ≡ is_among job.now jobs.now }
{
    for other in jobs {
        if is_job(other, job) {
            return true;
        }
    }
    false
}

/// Returns whether one of these jobs sends the file of this name.
pub fn is_given_by(jobs: &[Job], name: &Name) -> bool
    ensures { result ≡ is_given_by name.now jobs.now }
{
    for job in jobs {
        if gives(job, name) {
            return true;
        }
    }
    false
}

/// Returns whether a line of this text is a job that sends the file of this name.
pub fn is_given_in(text: &[u8], name: &Name) -> bool
    ensures { result ≡ is_given_by name.now (jobs_in (lines text.now)) }
{
    let mut rest = text;
    while let Some((line, behind)) = split_line(rest) {
        if says_giving(line, name) {
            return true;
        }
        rest = behind;
    }
    false
}

/// Returns whether a line is a job that sends the file of this name.
fn says_giving(line: &[u8], name: &Name) -> bool
    ensures { result ≡ is_given_by name.now (with_said (job_said (says_of line.now)) []) }
{
    match job_in(line) {
        Some(job) => gives(&job, name),
        None => false,
    }
}

/// Returns whether a job sends the file of this name.
fn gives(job: &Job, name: &Name) -> bool
    ensures { result ≡ gives name.now job.now }
{
    match job {
        Job::Send { source, .. } => source.as_bytes() == name.as_bytes(),
        Job::Request { .. } => false,
    }
}

/// Returns whether a text is empty or ends with a line feed.
fn is_whole(text: &[u8]) -> bool
    ensures { result ≡ is_whole text.now }
{
    text.is_empty() || text.ends_with(b"\n")
}

/// Returns the text to append to a text of jobs for one more job. It begins with a line feed if the last line lacks
/// one.
pub fn appended_job<A: Allocator>(alloc: A, text: &[u8], job: &Job) -> Result<String<A>, AllocError>
    ensures { IfOk result (λ added. string_bytes added ≡ appended text.now job.now) }
{
    let mut added = String::new(alloc);
    if !is_whole(text) {
        added.push_str("\n")?;
    }
    add_job_line(&mut added, job)?;
    Ok(added)
}

/// Returns the line that reports the queued job.
pub fn queued_line<A: Allocator>(alloc: A, job: &Job) -> Result<String<A>, AllocError>
    ensures { IfOk result (λ line. string_bytes line ≡ queued_line job.now) }
{
    let mut line = String::from_str(alloc, "queued ")?;
    add_job_line(&mut line, job)?;
    Ok(line)
}

/// Returns whether one of these jobs sends a file, so that `send` is needed.
pub fn sends_any(jobs: &[Job]) -> bool
    ensures { result ≡ sends_any jobs.now }
{
    for job in jobs {
        if let Job::Send { .. } = job {
            return true;
        }
    }
    false
}
