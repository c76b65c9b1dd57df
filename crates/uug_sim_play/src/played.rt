//! A script that was played: its report as a text, and the status.
ghost use Rattle.std.specs.Prelude.{◌≡◌, IfOk, IfErr, map, string_bytes};
ghost use Rattle.uug_line.specs.Shown.{session_shown, owned_by};
ghost use Rattle.uug_line.specs.Shown as told;
ghost use Rattle.uug_sim_script.specs.ReportShown.{end_shown};
ghost use Rattle.uug_sim_script.specs.ReportText.{report_text};
ghost use Rattle.uug_sim_play.specs.Numbers.{end_numbers, session_numbers, end_result, result_of, status_of_result, status_by, last_session};
ghost use Rattle.uug_sim_play.specs.Played.{IsPlayed, IsPlayedVerbosely, IsScriptFault};
ghost use Rattle.uug_sim_play.specs.Reasons.{holdings_in, reasons_text};
ghost use Rattle.uug_sim_play.specs.Settled.{IsRunOfScript};

use crate::held::held_files;
use crate::reasons::add_reasons;
use std::alloc::{AllocError, Allocator};
use uug_line::{EndReport, LineVerdict, Report, SessionReport, run};
use uug_session::{MemorySpool, Node};
use uug_sim_script::{
    EndNumbers, HeldFile, ScriptFault, SessionNumbers, ShownEnd, ShownReport, add_report,
    read_script,
};
use uug_stream::ToolFault;

/// The result of a script.
#[derive(Drop)]
pub struct Played<A: Allocator> {
    /// The text of the report.
    pub text: String<A>,
    /// The status that the program ends with.
    pub status: u8,
}

/// The result of a script, with the reasons for which its jobs are not done.
#[derive(Drop)]
pub struct PlayedVerbosely<A: Allocator> {
    /// The text of the report.
    pub text: String<A>,
    /// A line for each job that is not done.
    pub reasons: String<A>,
    /// The status that the program ends with.
    pub status: u8,
}

/// Returns the numbers of an end in a session.
fn end_numbers<A: Allocator>(end: &EndReport<A>) -> EndNumbers
    ensures { result ≡ end_numbers (told.end_shown end.now) }
{
    EndNumbers {
        sent: end.sent.len(),
        taken: end.taken.len(),
        most: end.most,
        phase: end.phase,
    }
}

/// Returns the numbers of each session.
fn session_numbers<A: Allocator>(
    alloc: A,
    sessions: &[SessionReport<A>],
) -> Result<Vec<SessionNumbers, A>, AllocError>
    ensures { IfOk result (λ numbers.
        numbers.items ≡ map session_numbers (map session_shown sessions.now)) }
{
    let mut numbers = Vec::new(alloc);
    for session in sessions {
        numbers.push(SessionNumbers {
            caller: end_numbers(&session.caller),
            called: end_numbers(&session.called),
        })?;
    }
    Ok(numbers)
}

/// Returns the numbers of an end's jobs, the files that it stored, these that it holds, and the number that it keeps.
fn shown_end<'a, A: Allocator + Copy>(
    node: &'a Node<MemorySpool<A>, A>,
    held: &'a [HeldFile],
) -> ShownEnd<'a, A>
    ensures { end_shown result ≡ record (end_result (owned_by node.now)) { held = held.now } }
{
    let queue = node.queue();
    ShownEnd {
        pending: queue.pending().len(),
        struck: queue.struck().len(),
        failed: queue.failed().len(),
        stored: node.spool().stored(),
        held,
        number: node.number(),
    }
}

/// Returns 5 if an end was fooled, otherwise 0 if the last session is done at both ends, and 1 if it is not.
fn status(sessions: &[SessionNumbers], verdict: LineVerdict) -> u8
    ensures { result ≡ status_by verdict (last_session sessions.now) }
{
    match verdict {
        LineVerdict::Fooled { .. } => 5,
        LineVerdict::Clean => match sessions.last() {
            Some(last) if last.caller.phase.is_done() && last.called.phase.is_done() => 0,
            _ => 1,
        },
    }
}

/// Returns the text of a report, and the status.
pub fn shown<A: Allocator + Copy>(alloc: A, report: &Report<A>) -> Result<Played<A>, AllocError>
    ensures text { IfOk result (λ played.
        string_bytes played.text ≡ report_text (result_of report.now.told)) }
    ensures status { IfOk result (λ played.
        played.status ≡ status_of_result (result_of report.now.told)) }
{
    let caller = report.caller();
    let called = report.called();
    let sessions = session_numbers(alloc, report.sessions())?;
    let caller_holds = held_files(alloc, caller)?;
    let called_holds = held_files(alloc, called)?;
    let shown = ShownReport {
        sessions: &sessions,
        caller: shown_end(caller, &caller_holds),
        called: shown_end(called, &called_holds),
        verdict: report.verdict(),
    };
    let mut text = String::new(alloc);
    add_report(alloc, &mut text, &shown)?;
    let status = status(&sessions, report.verdict());
    Ok(Played { text, status })
}

/// Runs a script.
pub(crate) fn run_script<A: Allocator + Copy>(alloc: A, text: &[u8]) -> Result<Report<A>, ToolFault>
    ensures of { IfOk result (λ report. IsRunOfScript text.now report) }
    ensures fault { IfErr result (IsScriptFault text.now) }
{
    let script = match read_script(alloc, text) {
        Ok(script) => script,
        Err(ScriptFault::Bad(line)) => return Err(ToolFault::Script(line)),
        Err(ScriptFault::Memory) => return Err(ToolFault::Memory),
    };
    match run(alloc, script.setup, script.events.as_slice()) {
        Ok(report) => Ok(report),
        Err(_) => Err(ToolFault::Memory),
    }
}

/// Plays a script.
pub fn play_script<A: Allocator + Copy>(alloc: A, text: &[u8]) -> Result<Played<A>, ToolFault>
    ensures played { IfOk result (λ played.
        IsPlayed text.now (string_bytes played.text) played.status) }
    ensures fault { IfErr result (IsScriptFault text.now) }
{
    let report = run_script(alloc, text)?;
    let played = shown(alloc, &report);
    drop(report);
    match played {
        Ok(played) => Ok(played),
        Err(_) => Err(ToolFault::Memory),
    }
}

/// Returns the text of a report, the reasons for which its jobs are not done, and the status.
fn shown_verbosely<A: Allocator + Copy>(
    alloc: A,
    report: &Report<A>,
) -> Result<PlayedVerbosely<A>, AllocError>
    ensures text { IfOk result (λ played.
        string_bytes played.text ≡ report_text (result_of report.now.told)) }
    ensures reasons { IfOk result (λ played.
        string_bytes played.reasons ≡ reasons_text report.now.told (holdings_in report.now.spools)) }
    ensures status { IfOk result (λ played.
        played.status ≡ status_of_result (result_of report.now.told)) }
{
    let mut reasons = String::new(alloc);
    add_reasons(&mut reasons, report)?;
    let Played { text, status } = shown(alloc, report)?;
    Ok(PlayedVerbosely {
        text,
        reasons,
        status,
    })
}

/// Plays a script, and reports why jobs are not done.
pub fn play_script_verbosely<A: Allocator + Copy>(
    alloc: A,
    text: &[u8],
) -> Result<PlayedVerbosely<A>, ToolFault>
    ensures verbosely { IfOk result (λ played.
        IsPlayedVerbosely text.now (string_bytes played.text) (string_bytes played.reasons) played.status) }
    // The report and the status are those of `play_script`.
    ensures played { IfOk result (λ played.
        IsPlayed text.now (string_bytes played.text) played.status) }
    ensures fault { IfErr result (IsScriptFault text.now) }
{
    let report = run_script(alloc, text)?;
    let played = shown_verbosely(alloc, &report);
    drop(report);
    match played {
        Ok(played) => Ok(played),
        Err(_) => Err(ToolFault::Memory),
    }
}
