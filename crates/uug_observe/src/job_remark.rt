//! Remarks on the jobs that an end has given up, and on those that its session put off.
ghost use Rattle.std.specs.Prelude.{◌≡◌, ◌∷◌, [], ◌++◌, IfOk, OnOk, codes, string_bytes};
ghost use Rattle.uug_conversation.specs.Choice.{fetched_by};
ghost use Rattle.uug_scan.specs.Detailed.{escaped};
ghost use Rattle.uug_observe.specs.JobRemarks.{failed_remark, failed_words, job_line, local_lack, not_taken_words, path_lack, put_off_lines, put_off_remark, put_off_words, refused_words, size_sent, source_of, target_of};
ghost use Rattle.uug_talk.specs.Lines.{ended};
ghost use Rattle.uug_talk.specs.Words.{joined};

use std::alloc::{AllocError, Allocator};
use uug_conversation::has_name;
use uug_error_text::add_escaped;
use uug_session::{End, Job, Phase, Spool};
use uug_store::{WhyFailed, local_source, why_failed};
use uug_talk::Name;

/// Returns a line for each of these jobs of the folder `dir`: why it was given up. `large` are the names of the files
/// in `send` that are too large to be sent.
pub fn failed_remark<A: Allocator + Copy, S: Spool>(
    alloc: A,
    dir: &str,
    large: &[Name],
    spool: &S,
    jobs: &[Job],
) -> Result<String<A>, AllocError>
    ensures { IfOk result (λ remark. string_bytes remark
        ≡ failed_remark (escaped dir.now) large.now (S.holdings spool.now) jobs.now) }
{
    let mut shown = String::new(alloc);
    add_escaped(&mut shown, dir.as_bytes())?;
    let mut remark = String::new(alloc);
    add_failed(&mut remark, alloc, shown.as_str(), large, spool, jobs)?;
    Ok(remark)
}

/// Returns a line for each of these pending jobs, as put off, if the session of their end ended as done. Else the text
/// is empty.
pub fn put_off_remark<A: Allocator>(
    alloc: A,
    phase: Phase,
    tells_digests: bool,
    pending: &[Job],
) -> Result<String<A>, AllocError>
    ensures { IfOk result (λ remark. string_bytes remark
        ≡ put_off_remark phase tells_digests pending.now) }
{
    let mut remark = String::new(alloc);
    if let Phase::Ended(End::Done) = phase {
        add_put_off(&mut remark, tells_digests, pending)?;
    }
    Ok(remark)
}

/// Returns the line of a job of the folder `dir` that was given up, with the reason. `size` is the size of its file in
/// bytes.
pub(crate) fn failed_line<A: Allocator + Copy>(
    alloc: A,
    dir: &str,
    large: &[Name],
    job: &Job,
    why: WhyFailed,
    size: usize,
) -> Result<String<A>, AllocError>
    ensures { IfOk result (λ line. string_bytes line
        ≡ job_line job.now (failed_words (escaped dir.now) large.now job.now why size)) }
{
    let mut shown = String::new(alloc);
    add_escaped(&mut shown, dir.as_bytes())?;
    let words = failed_words(alloc, shown.as_str(), large, job, why, size)?;
    let mut line = String::new(alloc);
    add_line(&mut line, job, words.as_str())?;
    Ok(line)
}

/// Appends a line for each of these jobs.
fn add_failed<S: Spool, A: Allocator + Copy>(
    text: &mut String<A>,
    alloc: A,
    dir: &str,
    large: &[Name],
    spool: &S,
    jobs: &[Job],
) -> Result<(), AllocError>
    ensures { OnOk result (string_bytes text.new
        ≡ string_bytes text.old ++ failed_remark dir.now large.now (S.holdings spool.now) jobs.now) }
{
    for job in jobs {
        let (why, size) = (why_failed(spool, job), size_sent(spool, job));
        let words = failed_words(alloc, dir, large, job, why, size)?;
        add_line(text, job, words.as_str())?;
    }
    Ok(())
}

/// Appends a line for each of these jobs.
fn add_put_off<A: Allocator>(
    text: &mut String<A>,
    tells_digests: bool,
    jobs: &[Job],
) -> Result<(), AllocError>
    ensures { OnOk result (string_bytes text.new
        ≡ string_bytes text.old ++ put_off_lines tells_digests jobs.now) }
{
    for job in jobs {
        add_line(text, job, put_off_words(tells_digests, job))?;
    }
    Ok(())
}

/// Appends the line of a job that is not done, with the reason.
fn add_line<A: Allocator>(text: &mut String<A>, job: &Job, why: &str) -> Result<(), AllocError>
    ensures { OnOk result
        (string_bytes text.new ≡ string_bytes text.old ++ job_line job.now why.now) }
{
    match job {
        Job::Send {
            source,
            target,
            user,
            ..
        } => add_words(text, "send", source, target, user, why),
        Job::Request {
            source,
            target,
            user,
        } => add_words(text, "request", source, target, user, why),
    }
}

/// Appends the line of a job, made of these words.
fn add_words<A: Allocator>(
    text: &mut String<A>,
    first: &str,
    source: &Name,
    target: &Name,
    user: &Name,
    why: &str,
) -> Result<(), AllocError>
    ensures { OnOk result (string_bytes text.new ≡ string_bytes text.old
        ++ (codes "uucpair: " ++ (joined (first.now ∷ source.now ∷ target.now ∷ user.now ∷ [])
        ++ (codes ": " ++ ended why.now)))) }
{
    let source = source.as_str();
    let target = target.as_str();
    let user = user.as_str();
    write!(text, "uucpair: {first} {source} {target} {user}: {why}\n")
}

/// Returns why a job was given up. `size` is the size of its file in bytes.
fn failed_words<A: Allocator + Copy>(
    alloc: A,
    dir: &str,
    large: &[Name],
    job: &Job,
    why: WhyFailed,
    size: usize,
) -> Result<String<A>, AllocError>
    ensures { IfOk result (λ words.
        string_bytes words ≡ failed_words dir.now large.now job.now why size) }
{
    match why {
        WhyFailed::NoFile => local_lack(alloc, dir, large, local_source(source_of(job))),
        WhyFailed::Refused => refused_words(alloc, local_source(target_of(job)), size),
        WhyFailed::NotTaken => {
            String::from_str(alloc, not_taken_words(local_source(target_of(job))))
        }
        WhyFailed::NotGiven => String::from_str(
            alloc,
            "not given by the other end: no such file in its send, or barred there; or it can't be put in its place here",
        ),
    }
}

/// Returns the source of a job.
fn source_of(job: &Job) -> &Name
    ensures { result.now ≡ source_of job.now }
{
    match job {
        Job::Send { source, .. } | Job::Request { source, .. } => source,
    }
}

/// Returns the target of a job.
fn target_of(job: &Job) -> &Name
    ensures { result.now ≡ target_of job.now }
{
    match job {
        Job::Send { target, .. } | Job::Request { target, .. } => target,
    }
}

/// Returns why the file of this name in the folder was not sent, or that the source is not a name there.
fn local_lack<A: Allocator + Copy>(
    alloc: A,
    dir: &str,
    large: &[Name],
    name: Option<Name>,
) -> Result<String<A>, AllocError>
    ensures { IfOk result (λ words. string_bytes words ≡ local_lack dir.now large.now name) }
{
    match name {
        Some(name) => path_lack(alloc, dir, &name, has_name(large, name.as_bytes())),
        None => String::from_str(
            alloc,
            "a source is a name: NAME or ~/NAME, without a leading dot",
        ),
    }
}

/// Returns why the file of this name in `send` of the folder was not sent.
fn path_lack<A: Allocator + Copy>(
    alloc: A,
    dir: &str,
    name: &Name,
    is_large: bool,
) -> Result<String<A>, AllocError>
    ensures { IfOk result (λ words. string_bytes words ≡ path_lack dir.now name.now is_large) }
{
    let name = name.as_str();
    if is_large {
        format!(in alloc; "{dir}/send/{name} is larger than --file-limit")
    } else {
        format!(in alloc; "no file {dir}/send/{name}")
    }
}

/// Returns the size of the file that a job sends, in bytes, or 0 if there is none.
pub(crate) fn size_sent<S: Spool>(spool: &S, job: &Job) -> usize
    ensures { result ≡ size_sent (S.holdings spool.now) job.now }
{
    match job {
        Job::Send { source, temp, .. } => match spool.fetch(fetched_by(source, temp)) {
            Some(file) => file.bytes.len(),
            None => 0,
        },
        Job::Request { .. } => 0,
    }
}

/// Returns the name by which the file of a Send job is fetched.
fn fetched_by<'a>(source: &'a Name, temp: &'a Option<Name>) -> &'a Name
    ensures { result.now ≡ fetched_by source.now temp.now }
{
    match temp {
        Some(temp) => temp,
        None => source,
    }
}

/// Returns the words for a file of this size whose target the other end has refused. `name` is the target, if it is a
/// name in a folder.
fn refused_words<A: Allocator>(
    alloc: A,
    name: Option<Name>,
    size: usize,
) -> Result<String<A>, AllocError>
    ensures { IfOk result (λ words. string_bytes words ≡ refused_words name size) }
{
    match name {
        Some(_) if size == 0 => String::from_str(
            alloc,
            "refused by the other end: maybe a folder has that name there",
        ),
        Some(_) => format!(in alloc;
            "refused by the other end: maybe {size} bytes are over its --file-limit, or a folder has that name there"
        ),
        None => String::from_str(
            alloc,
            "refused by the other end: in a folder a target is a name, NAME or ~/NAME, without a leading dot",
        ),
    }
}

/// Returns the words for a target that this end does not take. `name` is the target, if it is a name in a folder.
fn not_taken_words(name: Option<Name>) -> &'static str
    ensures { result.now ≡ not_taken_words name }
{
    match name {
        Some(_) => "this end takes no file of this name",
        None => "a target is a name: NAME or ~/NAME, without a leading dot",
    }
}

/// Returns why a job was put off, by an end that announces digests or one that does not. A wrong file is a possible
/// reason only with digests: without them nobody compares files.
fn put_off_words(tells_digests: bool, job: &Job) -> &'static str
    ensures { result.now ≡ put_off_words tells_digests job.now }
{
    match (tells_digests, job) {
        (false, Job::Send { .. }) => "put off: the other end will take it later",
        (true, Job::Send { .. }) => {
            "put off: the other end will take it later, or the digest was wrong there"
        }
        (false, Job::Request { .. }) => "put off: the other end will give it later",
        (true, Job::Request { .. }) => {
            "put off: the other end will give it later, or the digest was wrong"
        }
    }
}
