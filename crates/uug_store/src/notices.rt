//! The notices of the jobs that an end has given up.
ghost use Rattle.std.specs.Prelude.{◌≡◌, ◌++◌, IfOk, OnOk, string_bytes};
ghost use Rattle.uug_conversation.specs.Choice.{fetched_by};
ghost use Rattle.uug_conversation.specs.FileView.{shown_file};
ghost use Rattle.uug_conversation.specs.Holdings.{to_give};
ghost use Rattle.uug_store.specs.Notices.{notice, notices, why_failed, why_not_got, why_words};

use crate::jobs_text::add_job_line;
use std::alloc::{AllocError, Allocator};
use uug_session::{FileView, Job, Spool, Verdict};
use uug_talk::Name;

/// The reason for which an end has given up a job, as far as it knows.
#[derive(Clone, Copy, Debug, PartialEq, Eq)]
pub enum WhyFailed {
    /// It has no file of this name to send, or the file is too large.
    NoFile,
    /// The other end never takes a file of this name, or can't put it in its place.
    Refused,
    /// A file of the requested name is never taken here.
    NotTaken,
    /// The other end has no file of the name to give, or it can't be put in its place here.
    NotGiven,
}

fn why_words(why: WhyFailed) -> &'static str
    ensures { result.now ≡ why_words why }
{
    match why {
        WhyFailed::NoFile => "no such file to send, or it is too large",
        WhyFailed::Refused => "refused by the other end",
        WhyFailed::NotTaken => "this end takes no file of this name",
        WhyFailed::NotGiven => "not given by the other end, or can't be put in its place here",
    }
}

/// Returns the file of this name that may be sent, if there is one.
fn to_give<'a, S: Spool>(spool: &'a S, name: &Name) -> Option<FileView<'a>>
    ensures { shown_file result ≡ to_give (S.holdings spool.now) name.now }
{
    let file = spool.fetch(name)?;
    if file.bytes.len() <= spool.limit() {
        Some(file)
    } else {
        None
    }
}

/// Returns the name by which the file of a Send job is fetched.
fn fetched_by<'a>(source: &'a Name, temp: &'a Option<Name>) -> &'a Name
    ensures { result.now ≡ fetched_by source.now temp.now }
{
    match temp {
        Some(temp) => temp,
        None => source,
    }
}

fn why_not_got(verdict: Verdict) -> WhyFailed
    ensures { result ≡ why_not_got verdict }
{
    match verdict {
        Verdict::Never => WhyFailed::NotTaken,
        Verdict::Yes | Verdict::Later => WhyFailed::NotGiven,
    }
}

/// Returns the reason for which an end with this spool has given up a job.
pub fn why_failed<S: Spool>(spool: &S, job: &Job) -> WhyFailed
    ensures { result ≡ why_failed (S.holdings spool.now) job.now }
{
    match job {
        Job::Send { source, temp, .. } => match to_give(spool, fetched_by(source, temp)) {
            Some(_) => WhyFailed::Refused,
            None => WhyFailed::NoFile,
        },
        Job::Request { source, target, .. } => {
            why_not_got(spool.may_keep(&spool.landing(source, target)))
        }
    }
}

/// Appends the notice of a job: the reason, and its line.
fn add_notice<S: Spool, A: Allocator>(
    text: &mut String<A>,
    spool: &S,
    job: &Job,
) -> Result<(), AllocError>
    ensures { OnOk result (string_bytes text.new
        ≡ string_bytes text.old ++ notice (S.holdings spool.now) job.now) }
{
    let why = why_words(why_failed(spool, job));
    write!(text, "# {why}\n")?;
    add_job_line(text, job)
}

/// Appends the notice of each of these jobs.
fn add_notices<S: Spool, A: Allocator>(
    text: &mut String<A>,
    spool: &S,
    jobs: &[Job],
) -> Result<(), AllocError>
    ensures { OnOk result (string_bytes text.new
        ≡ string_bytes text.old ++ notices (S.holdings spool.now) jobs.now) }
{
    for job in jobs {
        add_notice(text, spool, job)?;
    }
    Ok(())
}

/// Returns the notices of the jobs that an end with this spool has given up. Each has a comment with the reason, and
/// the job's line as a text of jobs has it.
pub fn write_notices<S: Spool, A: Allocator>(
    alloc: A,
    spool: &S,
    jobs: &[Job],
) -> Result<String<A>, AllocError>
    ensures { IfOk result (λ text. string_bytes text ≡ notices (S.holdings spool.now) jobs.now) }
{
    let mut text = String::new(alloc);
    add_notices(&mut text, spool, jobs)?;
    Ok(text)
}
