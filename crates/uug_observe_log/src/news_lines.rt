//! The lines that report a job, the progress of its file, and losses.
ghost use Rattle.std.specs.Prelude.{◌≡◌, IfOk, string_bytes};
ghost use Rattle.uug_observe_log.specs.Lines.{begin_line, counts_line, end_line, job_line, job_words, left_words};
ghost use Rattle.uug_observe_log.specs.Lines.{lost_words, news_line, outcome_word, outcome_words, pace_words, progress_line};
ghost use Rattle.uug_observe_log.specs.Lines.{repeat_words, resume_line, resumed_words, sized_line, unsized_line, whose, wish_word};

use crate::pace::percent;
use crate::passed::Counts;
use crate::transfer::{FileProgress, News, Outcome, Transfer, Wish};
use crate::way::Way;
use std::alloc::{AllocError, Allocator};

/// The columns of a terminal. A progress line that fills them is shortened, as far as its names allow.
const COLUMNS: usize = 80;

/// Returns the line that reports news of a job in this second of the session. A job that ends has taken `took` seconds.
pub fn news_line<A: Allocator + Copy>(
    alloc: A,
    seconds: u64,
    took: u64,
    news: &News,
) -> Result<String<A>, AllocError>
    ensures { IfOk result (λ line. string_bytes line ≡ news_line seconds took news.now) }
{
    match news {
        News::Begins(job) => begin_line(alloc, seconds, job),
        News::Resumes(job, _, position) => resume_line(alloc, seconds, job, *position),
        News::Ends(job, outcome, bytes) => end_line(alloc, seconds, took, job, *outcome, *bytes),
    }
}

/// Returns the second, whose job it is, its kind, and its source.
fn job_words<A: Allocator + Copy>(
    alloc: A,
    seconds: u64,
    job: &Transfer,
) -> Result<String<A>, AllocError>
    ensures { IfOk result (λ words. string_bytes words ≡ job_words seconds job.now) }
{
    let (whose, wish) = (whose(job.way), wish_word(job.wish));
    let source = job.source.as_str();
    let words = format!(in alloc; "uucpair: {seconds} s: {whose}{wish} {source}")?;
    Ok(words)
}

fn begin_line<A: Allocator + Copy>(
    alloc: A,
    seconds: u64,
    job: &Transfer,
) -> Result<String<A>, AllocError>
    ensures { IfOk result (λ line. string_bytes line ≡ begin_line seconds job.now) }
{
    let words = job_words(alloc, seconds, job)?;
    let (words, target) = (words.as_str(), job.target.as_str());
    let line = format!(in alloc; "{words} {target}\n")?;
    Ok(line)
}

/// Returns the words for the position at which a file resumes.
fn resumed_words<A: Allocator + Copy>(alloc: A, position: u32) -> Result<String<A>, AllocError>
    ensures { IfOk result (λ words. string_bytes words ≡ resumed_words position) }
{
    let words = format!(in alloc; ": resumed at {position}")?;
    Ok(words)
}

fn resume_line<A: Allocator + Copy>(
    alloc: A,
    seconds: u64,
    job: &Transfer,
    position: u32,
) -> Result<String<A>, AllocError>
    ensures { IfOk result (λ line. string_bytes line ≡ resume_line seconds job.now position) }
{
    let resumed = resumed_words(alloc, position)?;
    job_line(alloc, seconds, job, resumed.as_str())
}

/// Returns the outcome of a job, with its bytes and its seconds.
fn outcome_words<A: Allocator + Copy>(
    alloc: A,
    took: u64,
    outcome: Outcome,
    bytes: u64,
) -> Result<String<A>, AllocError>
    ensures { IfOk result (λ words. string_bytes words ≡ outcome_words took outcome bytes) }
{
    let outcome = outcome_word(outcome);
    let words = format!(in alloc; ": {outcome} {bytes} bytes in {took} s")?;
    Ok(words)
}

fn end_line<A: Allocator + Copy>(
    alloc: A,
    seconds: u64,
    took: u64,
    job: &Transfer,
    outcome: Outcome,
    bytes: u64,
) -> Result<String<A>, AllocError>
    ensures { IfOk result (λ line. string_bytes line
        ≡ end_line seconds took job.now outcome bytes) }
{
    let ended = outcome_words(alloc, took, outcome, bytes)?;
    job_line(alloc, seconds, job, ended.as_str())
}

/// Returns the line of a job with these words at its end.
fn job_line<A: Allocator + Copy>(
    alloc: A,
    seconds: u64,
    job: &Transfer,
    ending: &str,
) -> Result<String<A>, AllocError>
    ensures { IfOk result (λ line. string_bytes line ≡ job_line seconds job.now ending.now) }
{
    let words = job_words(alloc, seconds, job)?;
    let (words, target) = (words.as_str(), job.target.as_str());
    let line = format!(in alloc; "{words} {target}{ending}\n")?;
    Ok(line)
}

/// Returns the progress line of a job's file in this second of the session, with the rate in bytes a second. It has no
/// line feed.
pub fn progress_line<A: Allocator + Copy>(
    alloc: A,
    seconds: u64,
    rate: u64,
    progress: &FileProgress,
) -> Result<String<A>, AllocError>
    ensures { IfOk result (λ line. string_bytes line ≡ progress_line seconds rate progress.now) }
{
    let words = job_words(alloc, seconds, &progress.job)?;
    match progress.size {
        Some(size) => sized_line(alloc, words.as_str(), rate, progress, size),
        None => unsized_line(alloc, words.as_str(), rate, progress),
    }
}

/// Returns the progress line of a file whose size isn't known.
fn unsized_line<A: Allocator + Copy>(
    alloc: A,
    words: &str,
    rate: u64,
    progress: &FileProgress,
) -> Result<String<A>, AllocError>
    ensures { IfOk result (λ line. string_bytes line
        ≡ unsized_line words.now rate progress.now.position progress.now.repeats) }
{
    let again = repeat_words(alloc, progress.repeats)?;
    let (position, again) = (progress.position, again.as_str());
    let line = format!(in alloc; "{words}: {position} bytes, {rate} B/s{again}")?;
    Ok(line)
}

/// Returns the progress line of a file of this size. It leaves out the bytes if it would be too long with them.
fn sized_line<A: Allocator + Copy>(
    alloc: A,
    words: &str,
    rate: u64,
    progress: &FileProgress,
    size: u32,
) -> Result<String<A>, AllocError>
    ensures { IfOk result (λ line. string_bytes line
        ≡ sized_line words.now rate progress.now.position size progress.now.repeats) }
{
    let pace = pace_words(alloc, rate, progress, size)?;
    let (position, pace) = (progress.position, pace.as_str());
    let line = format!(in alloc; "{words}: {position} of {size} bytes, {pace}")?;
    if line.len() < COLUMNS {
        return Ok(line);
    }
    let short = format!(in alloc; "{words}: {pace}")?;
    Ok(short)
}

/// Returns the percentage of a file that has passed, its rate, the time left, and the repeats.
fn pace_words<A: Allocator + Copy>(
    alloc: A,
    rate: u64,
    progress: &FileProgress,
    size: u32,
) -> Result<String<A>, AllocError>
    ensures { IfOk result (λ words. string_bytes words
        ≡ pace_words rate progress.now.position size progress.now.repeats) }
{
    let position = progress.position;
    let percent = percent(position, size);
    let left = left_words(alloc, u64::from(size).saturating_sub(position), rate)?;
    let again = repeat_words(alloc, progress.repeats)?;
    let (left, again) = (left.as_str(), again.as_str());
    let words = format!(in alloc; "{percent}%, {rate} B/s{left}{again}")?;
    Ok(words)
}

/// Returns the number of repeats, or nothing if there were none.
fn repeat_words<A: Allocator + Copy>(alloc: A, repeats: u64) -> Result<String<A>, AllocError>
    ensures { IfOk result (λ words. string_bytes words ≡ repeat_words repeats) }
{
    if repeats == 0 {
        return Ok(String::new(alloc));
    }
    let words = format!(in alloc; ", {repeats} repeats")?;
    Ok(words)
}

/// Returns how long the rest of a file takes at this rate, or nothing if the rate is 0.
fn left_words<A: Allocator + Copy>(alloc: A, rest: u64, rate: u64) -> Result<String<A>, AllocError>
    ensures { IfOk result (λ words. string_bytes words ≡ left_words rest rate) }
{
    if rate == 0 {
        return Ok(String::new(alloc));
    }
    let seconds = rest / rate;
    let words = format!(in alloc; ", {seconds} s left")?;
    Ok(words)
}

fn lost_words<A: Allocator + Copy>(alloc: A, counts: Counts) -> Result<String<A>, AllocError>
    ensures { IfOk result (λ words. string_bytes words ≡ lost_words counts) }
{
    let (rejects, repeats, damaged) = (counts.rejects, counts.repeats, counts.damaged);
    let words = format!(in alloc; " rejects {rejects} repeats {repeats} damaged {damaged}")?;
    Ok(words)
}

/// Returns the line for one direction: the verb for what this end did, the number of bytes, and the losses.
pub fn counts_line<A: Allocator + Copy>(
    alloc: A,
    verb: &str,
    bytes: u64,
    counts: Counts,
) -> Result<String<A>, AllocError>
    ensures { IfOk result (λ line. string_bytes line ≡ counts_line verb.now bytes counts) }
{
    let lost = lost_words(alloc, counts)?;
    let lost = lost.as_str();
    let line = format!(in alloc; "uucpair: {verb} {bytes} bytes{lost}\n")?;
    Ok(line)
}

fn whose(way: Way) -> &'static str
    ensures { result.now ≡ whose way }
{
    match way {
        Way::Out => "",
        Way::In => "peer's ",
    }
}

/// Returns the word for the kind of a job.
pub fn wish_word(wish: Wish) -> &'static str
    ensures { result.now ≡ wish_word wish }
{
    match wish {
        Wish::Send => "send",
        Wish::Request => "request",
    }
}

/// Returns the words for the outcome of a job.
pub fn outcome_word(outcome: Outcome) -> &'static str
    ensures { result.now ≡ outcome_word outcome }
{
    match outcome {
        Outcome::Done => "done",
        Outcome::Never => "refused",
        Outcome::TooLarge => "refused, maybe for its size",
        Outcome::Later => "put off",
        Outcome::Differs => "wrong digest",
    }
}
