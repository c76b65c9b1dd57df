//! A run, event by event.
ghost use Rattle.std.specs.Prelude.{◌≡◌, ◌∷◌, [], ◌++◌, List, IfOk, IsSomeAnd, MatchOption, None, OnErr, OnOk, Some};
ghost use Rattle.uug_line.specs.declared.event.Event.{Event};
ghost use Rattle.uug_line.specs.Belongings.{SetupValue};
ghost use Rattle.uug_line.specs.OfSomeRun.{IsRunOf};
ghost use Rattle.uug_line.specs.Setup.{setup_of};
ghost use Rattle.uug_line.specs.Simulator.{IsBehind, IsBehindSome, Steps, report_kept, simulator, verdict_behind};

use crate::event::Event;
use crate::fault::RunFault;
use crate::report::Report;
use crate::running::{hearing_side, run};
use crate::setup::Setup;
use crate::soundness::look_at_event;
use crate::verdict::LineVerdict;
use std::alloc::Allocator;
use std::marker::Model;

/// A run after some events, to which more may happen. Whoever made it, it is that of some two ends under as many events
/// as it has counted: its type keeps that. Once memory was refused in a step, there is no run any more and clauses see
/// `None`. Otherwise they see the report and the number of events.
#[derive(Drop)]
pub struct Simulator<A: Allocator + Copy> {
    /// `None` once memory was refused in a step.
    report: Option<Report<A>>,
    /// The number of events that have happened.
    count: usize,
}

impl<A: Allocator + Copy> Model for Simulator<A> {
    ghost use Rattle.std.specs.Prelude.{IfSome, Option};
    ghost use Rattle.uug_line.specs.Simulator.{IsBehindSome, SimulatorValue, simulator_kept};

    ghost Value = { Option SimulatorValue };

    ghost view = { λ s. simulator_kept s.report s.count };

    ghost invariant = { λ s. IfSome (simulator_kept s.report s.count) IsBehindSome };
}

/// Returns the verdict after the event of this number.
fn verdict_behind(all_sent: bool, number: usize, event: Event) -> LineVerdict
    ensures { result ≡ verdict_behind all_sent number event }
{
    if all_sent {
        return LineVerdict::Clean;
    }
    LineVerdict::Fooled {
        event: number,
        side: hearing_side(event),
    }
}

/// Handles the event of this number after those of the report. A run that is fooled has stopped.
fn go_on<A: Allocator + Copy>(
    alloc: A,
    report: Report<A>,
    number: usize,
    event: Event,
) -> Result<Report<A>, RunFault>
    requires { IsBehindSome (simulator report number) }
    ensures { IfOk result (λ next. (setup : SetupValue) (events : List Event)
        → IsBehind setup events (simulator report number)
        → IsRunOf setup (events ++ event ∷ []) next) }
{
    look_at_event(event);
    if let LineVerdict::Fooled { .. } = report.verdict() {
        return Ok(report);
    }
    let mut run = report.into_run();
    let Ok(all_sent) = run.happens(alloc, event) else {
        drop(run);
        return Err(RunFault::Memory);
    };
    let next = run.into_report(verdict_behind(all_sent, number, event))?;
    Ok(next)
}

impl<A: Allocator + Copy> Simulator<A> {
    /// Makes a run of two ends that are set up as given, before the first event.
    pub fn new(alloc: A, setup: Setup<A>) -> Result<Self, RunFault>
        ensures { IfOk result (λ first. IsSomeAnd first (IsBehind (setup_of setup) [])) }
    {
        let report = run(alloc, setup, &[])?;
        Ok(Simulator {
            report: Some(report),
            count: 0,
        })
    }

    /// Handles one event after the others. A step for each event does the same as `run`. If memory runs out, or there
    /// are more events than can be counted, the run is lost and each later step is refused too.
    pub fn step(&mut self, alloc: A, event: Event) -> Result<(), RunFault>
        ensures happens { OnOk result (Steps event self.old self.new) }
        ensures refused { OnErr result (self.new ≡ None) }
    {
        let Some(before) = self.report.take() else {
            return Err(RunFault::Memory);
        };
        let Some(more) = self.count.checked_add(1) else {
            drop(before);
            return Err(RunFault::Memory);
        };
        let after = go_on(alloc, before, self.count, event)?;
        self.report = Some(after);
        self.count = more;
        Ok(())
    }

    /// Returns the report of the events up to now, or `None` if memory was refused in a step.
    pub fn report(&self) -> Option<&Report<A>>
        ensures { MatchOption result (report_kept self.now ≡ None)
            (λ report. report_kept self.now ≡ Some report.now) }
    {
        self.report.as_ref()
    }

    /// Returns the report of the events up to now, from which `settle` may go on, or `None` if memory was refused in a
    /// step.
    pub fn into_report(self) -> Option<Report<A>>
        ensures { result ≡ report_kept self }
    {
        self.report
    }
}
