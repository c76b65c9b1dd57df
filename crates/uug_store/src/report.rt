//! The lines of the report of an end: the phase of its session, the numbers of its jobs, and the jobs that were given
//! up.
ghost use Rattle.std.specs.Prelude.{◌≡◌, ◌++◌, OnOk, OnErr, IfOk, string_bytes};
ghost use Rattle.uug_store.specs.EndReport.{state_line, failed_line, failed_lines};

use crate::jobs_text::add_job_line;
use std::alloc::{AllocError, Allocator};
use uug_session::{Job, Phase, Queue, Side, phase_word, side_word};

/// Appends the line of an end: the phase of its session, and how many of its jobs are pending, done and given up. If
/// memory runs out, the text stays as it was.
pub fn add_state<A: Allocator, B: Allocator + Copy, C: Allocator>(
    alloc: B,
    text: &mut String<A>,
    side: Side,
    phase: Phase,
    queue: &Queue<C>,
) -> Result<(), AllocError>
    ensures ok { OnOk result (string_bytes text.new
        ≡ string_bytes text.old ++ state_line side phase queue.now) }
    ensures err { OnErr result (string_bytes text.new ≡ string_bytes text.old) }
{
    let side = side_word(side);
    let phase = phase_word(phase);
    let pending = queue.pending().len();
    let struck = queue.struck().len();
    let failed = queue.failed().len();
    let line = format!(in alloc;
        "{side} {phase} pending {pending} struck {struck} failed {failed}\n"
    )?;
    text.push_str(line.as_str())
}

/// Appends the line of a job that was given up.
fn add_failed_line<A: Allocator>(
    text: &mut String<A>,
    side: Side,
    job: &Job,
) -> Result<(), AllocError>
    ensures { OnOk result (string_bytes text.new
        ≡ string_bytes text.old ++ failed_line side job.now) }
{
    let side = side_word(side);
    write!(text, "{side} failed ")?;
    add_job_line(text, job)
}

/// Returns the lines of jobs that were given up.
fn failed_text<A: Allocator>(alloc: A, side: Side, jobs: &[Job]) -> Result<String<A>, AllocError>
    ensures { IfOk result (λ text. string_bytes text ≡ failed_lines side jobs.now) }
{
    let mut text = String::new(alloc);
    add_failed_lines(&mut text, side, jobs)?;
    Ok(text)
}

/// Appends the lines of jobs that were given up.
fn add_failed_lines<A: Allocator>(
    text: &mut String<A>,
    side: Side,
    jobs: &[Job],
) -> Result<(), AllocError>
    ensures { OnOk result (string_bytes text.new
        ≡ string_bytes text.old ++ failed_lines side jobs.now) }
{
    for job in jobs {
        add_failed_line(text, side, job)?;
    }
    Ok(())
}

/// Appends a line for each job that an end has given up, in order. If memory runs out, the text stays as it was.
pub fn add_failed<A: Allocator, B: Allocator + Copy, C: Allocator>(
    alloc: B,
    text: &mut String<A>,
    side: Side,
    queue: &Queue<C>,
) -> Result<(), AllocError>
    ensures ok { OnOk result (string_bytes text.new
        ≡ string_bytes text.old ++ failed_lines side queue.now.failed) }
    ensures err { OnErr result (string_bytes text.new ≡ string_bytes text.old) }
{
    let lines = failed_text(alloc, side, queue.failed())?;
    text.push_str(lines.as_str())
}
