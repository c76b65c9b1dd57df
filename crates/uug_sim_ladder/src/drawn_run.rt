//! The ladder of a script, drawn as its run goes on.
ghost use Rattle.std.specs.Prelude.{◌≡◌, [], IfErr, IfOk, IfSome, IsSomeAnd, Ok, OnSome, false};
ghost use Rattle.uug_line.specs.OfSomeRun.{IsRunOf};
ghost use Rattle.uug_line.specs.Setup.{setup_of};
ghost use Rattle.uug_line.specs.Simulator.{IsBehind, Steps, report_kept};
ghost use Rattle.uug_sim_play.specs.Settled.{IsRunOfScript};
ghost use Rattle.uug_sim_script.specs.IsScript.{IsScript};
ghost use Rattle.uug_sim_script.specs.ScriptOf.{script_of, script_said};
ghost use Rattle.uug_sim_ladder.specs.Arrivals.{NothingComesBefore};
ghost use Rattle.uug_sim_ladder.specs.Code.Progress.{drawn_on, moment_now, progress_shown};
ghost use Rattle.uug_sim_ladder.specs.Drawing.{drawing_shown, first_drawing, is_fooled};
ghost use Rattle.uug_sim_ladder.specs.Fronts.{IsLadderFault, IsLadderOf, front_of, ladder_of};
ghost use Rattle.uug_sim_ladder.specs.Moments.{front_shown};
ghost use Rattle.uug_sim_ladder.specs.Rungs.{ladder_shown};

use crate::drawing::Drawing;
use crate::fault::LadderFault;
use crate::ladder::Ladder;
use crate::moment::{Moment, moment_of};
use std::alloc::Allocator;
use uug_line::{Event, LineVerdict, Report, Setup, Simulator};
use uug_sim_script::{Script, ScriptFault, read_script};

/// The ladder and the report of a script that was run.
#[derive(Drop)]
pub(crate) struct DrawnRun<A: Allocator + Copy> {
    /// The ladder of its sessions.
    pub(crate) ladder: Ladder<A>,
    /// The report of the run.
    pub(crate) report: Report<A>,
}

/// Reads the script.
fn read<A: Allocator + Copy>(alloc: A, text: &[u8]) -> Result<Script<A>, LadderFault>
    ensures script { IfOk result (λ script. IsScript text.now (script_said script)) }
    ensures exact { IfOk result (λ script. script_of text.now ≡ Ok (script_said script)) }
    ensures fault { IfErr result (IsLadderFault text.now) }
{
    match read_script(alloc, text) {
        Ok(script) => Ok(script),
        Err(ScriptFault::Bad(line)) => Err(LadderFault::Script(line)),
        Err(ScriptFault::Memory) => Err(LadderFault::Memory),
    }
}

/// Returns whether an end was fooled.
fn is_fooled(verdict: LineVerdict) -> bool
    ensures { result ≡ is_fooled verdict }
{
    match verdict {
        LineVerdict::Clean => false,
        LineVerdict::Fooled { .. } => true,
    }
}

/// Returns the ladder of a script, or `Memory` if memory runs out.
pub fn draw<A: Allocator + Copy>(alloc: A, text: &[u8]) -> Result<Ladder<A>, LadderFault>
    ensures ladder { IfOk result (λ ladder. IsLadderOf text.now (ladder_shown ladder)) }
    // So nothing in it arrives, or is lost, before it was sent.
    ensures order { IfOk result (λ ladder. NothingComesBefore (ladder_shown ladder)) }
    ensures fault { IfErr result (IsLadderFault text.now) }
{
    let DrawnRun { ladder, report } = draw_run(alloc, text)?;
    drop(report);
    Ok(ladder)
}

/// Returns the ladder of a script, and the report of the run.
pub(crate) fn draw_run<A: Allocator + Copy>(
    alloc: A,
    text: &[u8],
) -> Result<DrawnRun<A>, LadderFault>
    ensures ladder { IfOk result (λ drawn. IsLadderOf text.now (ladder_shown drawn.ladder)) }
    ensures run { IfOk result (λ drawn. IsRunOfScript text.now drawn.report) }
    ensures fault { IfErr result (IsLadderFault text.now) }
{
    let Script { setup, events } = read(alloc, text)?;
    let Some(drawn) = draw_events(alloc, setup, events.as_slice()) else {
        return Err(LadderFault::Memory);
    };
    Ok(drawn)
}

/// Returns what both ends have done by now.
fn moment_now<A: Allocator + Copy>(run: &Simulator<A>) -> Option<Moment>
    ensures { result ≡ moment_now (report_kept run.now) }
{
    moment_of(run.report()?)
}

/// Draws the ladder before the first event. `None` if memory runs out.
fn first_drawing<A: Allocator + Copy>(alloc: A, run: &Simulator<A>) -> Option<Drawing<A>>
    ensures { IfSome result (λ drawing. IsSomeAnd (report_kept run.now) (λ report.
        drawing_shown drawing ≡ first_drawing (front_shown report))) }
{
    match Drawing::first(alloc, run.report()?) {
        Ok(drawing) => Some(drawing),
        Err(_) => None,
    }
}

/// A run that is drawn as it goes on.
#[derive(Drop)]
struct Progress<A: Allocator + Copy> {
    run: Simulator<A>,
    drawing: Drawing<A>,
    /// True once an end was fooled: nothing more is drawn then.
    stopped: bool,
}

impl<A: Allocator + Copy> Progress<A> {
    /// Begins a run, before the first event. `None` if memory runs out.
    fn new(alloc: A, setup: Setup<A>) -> Option<Self>
        ensures run { IfSome result (λ progress.
            IsSomeAnd progress.run (IsBehind (setup_of setup) [])) }
        ensures drawn { IfSome result (λ progress.
            IsSomeAnd (report_kept progress.run) (λ report. progress_shown progress
            ≡ record { drawing = first_drawing (front_shown report); stopped = false })) }
    {
        let Ok(run) = Simulator::new(alloc, setup) else {
            return None;
        };
        let Some(drawing) = first_drawing(alloc, &run) else {
            drop(run);
            return None;
        };
        Some(Progress {
            run,
            drawing,
            stopped: false,
        })
    }

    /// Draws the event of this number, which has happened, unless an end was fooled before. `None` if memory runs out.
    fn draw(&mut self, alloc: A, number: usize, event: Event, before: Option<Moment>) -> Option<()>
        ensures run { self.new.run ≡ self.old.run }
        ensures drawn { OnSome result (IsSomeAnd (report_kept self.old.run) (λ report.
            progress_shown self.new
            ≡ drawn_on self.old.stopped event number before (front_shown report)
            (drawing_shown self.old.drawing))) }
    {
        let report = self.run.report()?;
        if self.stopped {
            return Some(());
        }
        let fooled = is_fooled(report.verdict());
        let Ok(()) = self.drawing.step(alloc, number, event, before, report) else {
            return None;
        };
        self.stopped = fooled;
        Some(())
    }

    /// Runs the event of this number, and draws it. `None` if memory runs out.
    fn advance(&mut self, alloc: A, number: usize, event: Event) -> Option<()>
        ensures run { OnSome result (Steps event self.old.run self.new.run) }
        ensures drawn { OnSome result (IsSomeAnd (report_kept self.new.run) (λ report.
            progress_shown self.new
            ≡ drawn_on self.old.stopped event number (moment_now (report_kept self.old.run))
            (front_shown report) (drawing_shown self.old.drawing))) }
    {
        let before = moment_now(&self.run);
        let Ok(()) = self.run.step(alloc, event) else {
            return None;
        };
        self.draw(alloc, number, event, before)?;
        Some(())
    }
}

/// Returns the ladder of these events between two ends that are set up as given, and the report. `None` if memory runs
/// out.
fn draw_events<A: Allocator + Copy>(
    alloc: A,
    setup: Setup<A>,
    events: &[Event],
) -> Option<DrawnRun<A>>
    ensures drawn { IfSome result (λ drawn.
        ladder_shown drawn.ladder ≡ ladder_of (setup_of setup) events.now) }
    ensures run { IfSome result (λ drawn. IsRunOf (setup_of setup) events.now drawn.report) }
{
    let mut progress = Progress::new(alloc, setup)?;
    for (number, event) in events.iter().enumerate() {
        progress.advance(alloc, number, *event)?;
    }
    let Progress { run, drawing, .. } = progress;
    let Some(report) = run.into_report() else {
        drop(drawing);
        return None;
    };
    Some(DrawnRun {
        ladder: drawing.ladder,
        report,
    })
}
