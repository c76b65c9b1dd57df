//! The reasons for which the jobs of an end are not done.
ghost use Rattle.std.specs.Prelude.{◌≡◌, ◌++◌, OnOk, string_bytes};
ghost use Rattle.uug_conversation.specs.Choice.{fetched_by};
ghost use Rattle.uug_conversation.specs.FileView.{shown_file};
ghost use Rattle.uug_conversation.specs.Holdings.{to_give};
ghost use Rattle.uug_conversation.specs.MemoryHoldings.{held_by};
ghost use Rattle.uug_line.specs.Shown.{owned_by, spool_of, stands_so};
ghost use Rattle.uug_sim_play.specs.Reasons.{end_reasons, failed_lines, failed_reason, failed_request, failed_send, given_by, holdings_in, pending_in, pending_lines, pending_reason, pending_send, reason_line, reason_words, reasons_text};

use std::alloc::{AllocError, Allocator};
use uug_line::{Report, Side};
use uug_session::{End, FileView, Job, MemorySpool, Node, Phase, Spool, Verdict};
use uug_sim_script::add_job_words;
use uug_talk::Name;

/// The reason for which a job is not done.
#[derive(Clone, Copy, Debug, PartialEq, Eq)]
pub enum Reason {
    /// It was given up: the end has no file of this name to send.
    NoFile,
    /// It was given up: the other end has no file of this name to give.
    NoFileThere,
    /// It was given up: the other end never takes a file of this name.
    Refused,
    /// It was given up: the file can't be put in its place here.
    NoPlace,
    /// It was given up: the file can't be put in its place at the other end.
    NoPlaceThere,
    /// It is pending: the other end takes a file of this name at another time.
    PutOff,
    /// It is pending: the received file is not the one that was announced.
    Differs,
    /// It is pending: the session ended before it was done.
    Over,
    /// It is pending: the session goes on.
    GoesOn,
}

fn reason_words(reason: Reason) -> &'static str
    ensures { result.now ≡ reason_words reason }
{
    match reason {
        Reason::NoFile => "no such file",
        Reason::NoFileThere => "no such file at the other end",
        Reason::Refused => "refused by the other end",
        Reason::NoPlace => "can't be put in its place",
        Reason::NoPlaceThere => "can't be put in its place at the other end",
        Reason::PutOff => "put off: the other end will take it later",
        Reason::Differs => "put off: the file that came differs from its digest",
        Reason::Over => "not done: the session ended first",
        Reason::GoesOn => "not done: the session goes on",
    }
}

/// Returns the file of this name that may be sent, if there is one.
fn given<'a, A: Allocator + Copy>(spool: &'a MemorySpool<A>, name: &Name) -> Option<FileView<'a>>
    ensures { shown_file result ≡ to_give (given_by (held_by spool.now)) name.now }
{
    let file = spool.fetch(name)?;
    if file.bytes.len() <= spool.limit() {
        Some(file)
    } else {
        None
    }
}

/// Returns the name by which the file of a Send job is fetched.
fn fetched_by<'a>(source: &'a Name, temp: &'a Option<Name>) -> &'a Name
    ensures { result.now ≡ fetched_by source.now temp.now }
{
    match temp {
        Some(temp) => temp,
        None => source,
    }
}

fn failed_send(file: Option<FileView<'_>>, verdict: Verdict) -> Reason
    ensures { result ≡ failed_send (shown_file file.entry) verdict }
{
    match file {
        None => Reason::NoFile,
        Some(_) => match verdict {
            Verdict::Never => Reason::Refused,
            Verdict::Yes | Verdict::Later => Reason::NoPlaceThere,
        },
    }
}

fn failed_request(file: Option<FileView<'_>>) -> Reason
    ensures { result ≡ failed_request (shown_file file.entry) }
{
    match file {
        None => Reason::NoFileThere,
        Some(_) => Reason::NoPlace,
    }
}

/// Returns the reason for which a job of an end with this spool was given up.
fn failed_reason<A: Allocator + Copy>(
    job: &Job,
    own: &MemorySpool<A>,
    other: &MemorySpool<A>,
) -> Reason
    ensures { result ≡ failed_reason (given_by (held_by own.now)) (given_by (held_by other.now)) job.now }
{
    match job {
        Job::Send {
            source,
            target,
            temp,
            ..
        } => failed_send(given(own, fetched_by(source, temp)), other.may_keep(target)),
        Job::Request { source, .. } => failed_request(given(other, source)),
    }
}

fn pending_in(digests: bool, phase: Phase) -> Reason
    ensures { result ≡ pending_in digests phase }
{
    match phase {
        Phase::Ended(End::Done) if digests => Reason::Differs,
        Phase::Ended(_) => Reason::Over,
        _ => Reason::GoesOn,
    }
}

fn pending_send(verdict: Verdict, digests: bool, phase: Phase) -> Reason
    ensures { result ≡ pending_send verdict digests phase }
{
    match verdict {
        Verdict::Later => Reason::PutOff,
        Verdict::Yes | Verdict::Never => pending_in(digests, phase),
    }
}

/// Returns the reason for which a job is pending at an end in this phase.
fn pending_reason<A: Allocator + Copy>(job: &Job, phase: Phase, other: &MemorySpool<A>) -> Reason
    ensures { result ≡ pending_reason phase (given_by (held_by other.now)) job.now }
{
    let digests = other.tells_digests();
    match job {
        Job::Send { target, .. } => pending_send(other.may_keep(target), digests, phase),
        Job::Request { .. } => pending_in(digests, phase),
    }
}

/// Appends the line of a job that is not done.
fn add_line<B: Allocator>(
    text: &mut String<B>,
    side: Side,
    job: &Job,
    reason: Reason,
) -> Result<(), AllocError>
    ensures { OnOk result (string_bytes text.new ≡ string_bytes text.old ++ reason_line side job.now reason) }
{
    add_job_words(text, side, job)?;
    text.push_str(": ")?;
    text.push_str(reason_words(reason))?;
    text.push('\n')
}

/// Appends the lines of jobs that were given up.
fn add_failed<A: Allocator + Copy, B: Allocator>(
    text: &mut String<B>,
    side: Side,
    jobs: &[Job],
    own: &MemorySpool<A>,
    other: &MemorySpool<A>,
) -> Result<(), AllocError>
    ensures { OnOk result (string_bytes text.new ≡ string_bytes text.old
        ++ failed_lines side (given_by (held_by own.now)) (given_by (held_by other.now)) jobs.now) }
{
    for job in jobs {
        add_line(text, side, job, failed_reason(job, own, other))?;
    }
    Ok(())
}

/// Appends the lines of jobs that are pending.
fn add_pending<A: Allocator + Copy, B: Allocator>(
    text: &mut String<B>,
    side: Side,
    jobs: &[Job],
    phase: Phase,
    other: &MemorySpool<A>,
) -> Result<(), AllocError>
    ensures { OnOk result (string_bytes text.new ≡ string_bytes text.old
        ++ pending_lines side phase (given_by (held_by other.now)) jobs.now) }
{
    for job in jobs {
        add_line(text, side, job, pending_reason(job, phase, other))?;
    }
    Ok(())
}

/// Appends the lines of the jobs of the end on this side that are not done.
fn add_end<A: Allocator + Copy, B: Allocator>(
    text: &mut String<B>,
    side: Side,
    node: &Node<MemorySpool<A>, A>,
    other: &Node<MemorySpool<A>, A>,
) -> Result<(), AllocError>
    ensures { OnOk result (string_bytes text.new ≡ string_bytes text.old
        ++ end_reasons side (owned_by node.now).lists (stands_so node.now)
        (given_by (spool_of node.now)) (given_by (spool_of other.now))) }
{
    let queue = node.queue();
    add_failed(text, side, queue.failed(), node.spool(), other.spool())?;
    add_pending(text, side, queue.pending(), node.phase(), other.spool())
}

/// Appends a line for each job of the two ends that is not done: the job, and the reason. The caller's are first, and
/// for each end those that were given up.
pub fn add_reasons<A: Allocator + Copy, B: Allocator>(
    text: &mut String<B>,
    report: &Report<A>,
) -> Result<(), AllocError>
    ensures { OnOk result (string_bytes text.new ≡ string_bytes text.old
        ++ reasons_text report.now.told (holdings_in report.now.spools)) }
{
    let caller = report.caller();
    let called = report.called();
    add_end(text, Side::Caller, caller, called)?;
    add_end(text, Side::Called, called, caller)?;
    Ok(())
}
