//! Writes a job as the line of a script.
ghost use Rattle.std.specs.Prelude.{◌≡◌, ◌∷◌, [], ◌++◌, OnOk, codes, string_bytes};
ghost use Rattle.uug_talk.specs.Words.{joined};
ghost use Rattle.uug_session.specs.PhaseWords.{side_word};
ghost use Rattle.uug_sim_script.specs.JobWords.{job_text};

use std::alloc::{AllocError, Allocator};
use uug_line::Side;
use uug_session::{Job, side_word};
use uug_talk::Name;

/// Appends these five words, with a space between each two.
fn add_words<A: Allocator>(
    text: &mut String<A>,
    first: &str,
    side: Side,
    source: &Name,
    target: &Name,
    user: &Name,
) -> Result<(), AllocError>
    ensures { OnOk result (string_bytes text.new ≡ string_bytes text.old
        ++ joined (first.now ∷ side_word side ∷ source.now ∷ target.now ∷ user.now ∷ [])) }
{
    let side = side_word(side);
    let source = source.as_str();
    let target = target.as_str();
    let user = user.as_str();
    write!(text, "{first} {side} {source} {target} {user}")
}

/// Appends the words of the line by which a script gives the job to the end on this side, with one space between each two.
pub fn add_job_words<A: Allocator>(
    text: &mut String<A>,
    side: Side,
    job: &Job,
) -> Result<(), AllocError>
    ensures { OnOk result (string_bytes text.new ≡ string_bytes text.old ++ job_text side job.now) }
{
    match job {
        Job::Send {
            source,
            target,
            user,
            temp,
        } => {
            add_words(text, "send", side, source, target, user)?;
            let Some(temp) = temp else {
                return Ok(());
            };
            let temp = temp.as_str();
            write!(text, " {temp}")
        }
        Job::Request {
            source,
            target,
            user,
        } => add_words(text, "request", side, source, target, user),
    }
}
