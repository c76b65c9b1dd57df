//! The text of a report.
ghost use Rattle.std.specs.Prelude.{◌≡◌, ◌≤◌, ◌++◌, OnErr, OnOk, IfOk, map, string_bytes};
ghost use Rattle.uug_conversation.specs.MemoryHoldings.{kept_of};
ghost use Rattle.uug_talk.specs.Mode.{mode_digits};
ghost use Rattle.uug_session.specs.PhaseWords.{side_word, end_word, phase_word};
ghost use Rattle.uug_sim_script.specs.ReportText.{end_line, session_text, sessions_text, jobs_line, hex_text, stored_line, stored_text, held_line, held_text, number_line, verdict_line, report_text};
ghost use Rattle.uug_sim_script.specs.ReportShown.{end_shown, report_shown};

use std::alloc::{AllocError, Allocator};
use uug_line::{LineVerdict, Side};
use uug_session::{Phase, Stored, phase_word, side_word};
use uug_talk::{Name, mode_digits};

/// The counts of one end in one session.
#[derive(Clone, Copy, Debug)]
pub struct EndNumbers {
    /// The number of messages that it sent, each counted once.
    pub sent: usize,
    /// The number of messages that it took.
    pub taken: usize,
    /// The most packets that it had unacknowledged.
    pub most: usize,
    /// The phase of its session.
    pub phase: Phase,
}

/// The counts of one session.
#[derive(Clone, Copy, Debug)]
pub struct SessionNumbers {
    /// The counts of the caller.
    pub caller: EndNumbers,
    /// The counts of the called end.
    pub called: EndNumbers,
}

/// The count of the first bytes of a file that was cut off.
#[derive(Clone, Copy)]
pub struct HeldFile {
    /// The file's name at its giver.
    pub name: Name,
    /// The number of its bytes that have come.
    pub size: usize,
}

/// The numbers of an end's jobs, the files that it has stored, in order, what it holds of others, and the number that it
/// keeps.
#[derive(Drop)]
pub struct ShownEnd<'a, A: Allocator> {
    /// The number of pending jobs.
    pub pending: usize,
    /// The number of jobs that were done.
    pub struck: usize,
    /// The number of jobs that were given up.
    pub failed: usize,
    /// The stored files.
    pub stored: &'a [Stored<A>],
    /// The files that were cut off and that it resumes.
    pub held: &'a [HeldFile],
    /// The number of its next conversation, if it keeps one.
    pub number: Option<u32>,
}

/// A report.
#[derive(Drop)]
pub struct ShownReport<'a, A: Allocator> {
    /// The sessions, in order.
    pub sessions: &'a [SessionNumbers],
    /// The caller in its present state.
    pub caller: ShownEnd<'a, A>,
    /// The called end in its present state.
    pub called: ShownEnd<'a, A>,
    /// The verdict: whether the line fooled an end.
    pub verdict: LineVerdict,
}

/// Appends the line of one end in one session.
fn add_end_line<A: Allocator>(
    text: &mut String<A>,
    side: Side,
    end: EndNumbers,
) -> Result<(), AllocError>
    ensures { OnOk result (string_bytes text.new ≡ string_bytes text.old ++ end_line side end) }
{
    let side = side_word(side);
    let EndNumbers {
        sent,
        taken,
        most,
        ..
    } = end;
    let phase = phase_word(end.phase);
    write!(text, "{side} sent {sent} taken {taken}")?;
    write!(text, " most {most} {phase}\n")
}

/// Appends the lines of a session.
fn add_session<A: Allocator>(
    text: &mut String<A>,
    number: usize,
    session: SessionNumbers,
) -> Result<(), AllocError>
    ensures { OnOk result
        (string_bytes text.new ≡ string_bytes text.old ++ session_text number session) }
{
    write!(text, "session {number}\n")?;
    add_end_line(text, Side::Caller, session.caller)?;
    add_end_line(text, Side::Called, session.called)
}

/// Appends the lines of the sessions, which are counted from 1.
fn add_sessions<A: Allocator>(
    text: &mut String<A>,
    sessions: &[SessionNumbers],
) -> Result<(), AllocError>
    ensures { OnOk result
        (string_bytes text.new ≡ string_bytes text.old ++ sessions_text 1 sessions.now) }
{
    for (i, session) in sessions.iter().enumerate() {
        add_session(text, i + 1, *session)?;
    }
    Ok(())
}

/// Appends the line of an end's jobs.
fn add_jobs_line<A: Allocator, B: Allocator>(
    text: &mut String<A>,
    side: Side,
    end: &ShownEnd<'_, B>,
) -> Result<(), AllocError>
    ensures { OnOk result
        (string_bytes text.new ≡ string_bytes text.old ++ jobs_line side (end_shown end.now)) }
{
    let side = side_word(side);
    let ShownEnd {
        pending,
        struck,
        failed,
        ..
    } = end;
    write!(
        text,
        "{side} pending {pending} struck {struck} failed {failed}\n"
    )
}

/// Returns the hexadecimal digits of a file's bytes, or a dash if there are none.
fn hex_text<A: Allocator>(alloc: A, bytes: &[u8]) -> Result<String<A>, AllocError>
    ensures { IfOk result (λ text. string_bytes text ≡ hex_text bytes.now) }
{
    if bytes.is_empty() {
        return String::from_str(alloc, "-");
    }
    hex::encode(alloc, bytes)
}

/// Appends the line of a stored file.
fn add_stored_line<A: Allocator + Copy, B: Allocator>(
    alloc: A,
    text: &mut String<A>,
    side: Side,
    file: &Stored<B>,
) -> Result<(), AllocError>
    ensures { OnOk result
        (string_bytes text.new ≡ string_bytes text.old ++ stored_line side (kept_of file.now)) }
{
    let side = side_word(side);
    let name = file.name.as_str();
    let digits = mode_digits(file.mode);
    let Ok(mode) = str::from_utf8(&digits) else {
        unreachable!();
    };
    let bytes = hex_text(alloc, file.bytes.as_slice())?;
    write!(text, "{side} stored {name} {mode} {bytes}\n")
}

/// Appends the lines of the stored files.
fn add_stored<A: Allocator + Copy, B: Allocator>(
    alloc: A,
    text: &mut String<A>,
    side: Side,
    files: &[Stored<B>],
) -> Result<(), AllocError>
    ensures { OnOk result
        (string_bytes text.new
        ≡ string_bytes text.old ++ stored_text side (map kept_of files.now)) }
{
    for file in files {
        add_stored_line(alloc, text, side, file)?;
    }
    Ok(())
}

/// Appends the line of a file that was cut off.
fn add_held_line<A: Allocator>(
    text: &mut String<A>,
    side: Side,
    file: &HeldFile,
) -> Result<(), AllocError>
    ensures { OnOk result
        (string_bytes text.new ≡ string_bytes text.old ++ held_line side file.now) }
{
    let side = side_word(side);
    let name = file.name.as_str();
    let size = file.size;
    write!(text, "{side} holds {name} {size}\n")
}

/// Appends the lines of the files that were cut off.
fn add_held<A: Allocator>(
    text: &mut String<A>,
    side: Side,
    files: &[HeldFile],
) -> Result<(), AllocError>
    ensures { OnOk result
        (string_bytes text.new ≡ string_bytes text.old ++ held_text side files.now) }
{
    for file in files {
        add_held_line(text, side, file)?;
    }
    Ok(())
}

/// Appends the line of an end's number, if it keeps one.
fn add_number_line<A: Allocator>(
    text: &mut String<A>,
    side: Side,
    number: Option<u32>,
) -> Result<(), AllocError>
    ensures { OnOk result
        (string_bytes text.new ≡ string_bytes text.old ++ number_line side number) }
{
    let Some(number) = number else {
        return Ok(());
    };
    let side = side_word(side);
    write!(text, "{side} number {number}\n")
}

/// Appends the line of the verdict.
fn add_verdict_line<A: Allocator>(
    text: &mut String<A>,
    verdict: LineVerdict,
) -> Result<(), AllocError>
    ensures { OnOk result (string_bytes text.new ≡ string_bytes text.old ++ verdict_line verdict) }
{
    match verdict {
        LineVerdict::Clean => text.push_str("verdict clean\n"),
        LineVerdict::Fooled { event, side } => {
            let side = side_word(side);
            write!(text, "verdict fooled {event} {side}\n")
        }
    }
}

/// Returns the text of a report: the sessions, then the jobs of the caller and of the called end, then the files that
/// they stored, then what they hold of files that were cut off, then the numbers that they keep, and last the verdict.
fn report_text<A: Allocator + Copy, B: Allocator>(
    alloc: A,
    report: &ShownReport<'_, B>,
) -> Result<String<A>, AllocError>
    ensures { IfOk result (λ text. string_bytes text ≡ report_text (report_shown report.now)) }
{
    let mut text = String::new(alloc);
    add_sessions(&mut text, report.sessions)?;
    add_jobs_line(&mut text, Side::Caller, &report.caller)?;
    add_jobs_line(&mut text, Side::Called, &report.called)?;
    add_stored(alloc, &mut text, Side::Caller, report.caller.stored)?;
    add_stored(alloc, &mut text, Side::Called, report.called.stored)?;
    add_held(&mut text, Side::Caller, report.caller.held)?;
    add_held(&mut text, Side::Called, report.called.held)?;
    add_number_line(&mut text, Side::Caller, report.caller.number)?;
    add_number_line(&mut text, Side::Called, report.called.number)?;
    add_verdict_line(&mut text, report.verdict)?;
    Ok(text)
}

/// Appends the text of a report. If memory runs out, the string stays as it was.
pub fn add_report<A: Allocator + Copy, B: Allocator>(
    alloc: A,
    text: &mut String<A>,
    report: &ShownReport<'_, B>,
) -> Result<(), AllocError>
    ensures ok { OnOk result
        (string_bytes text.new ≡ string_bytes text.old ++ report_text (report_shown report.now)) }
    ensures err { OnErr result (string_bytes text.new ≡ string_bytes text.old) }
{
    let report = report_text(alloc, report)?;
    text.push_str(report.as_str())
}
