ghost use Rattle.std.specs.Prelude.{◌≡◌, ◌↔◌, ◌≤◌, List, IfOk, IsTrue, OnOk};
ghost use Rattle.uug_session.specs.declared.end.End.TheVariants.{Done as done};
ghost use Rattle.uug_session.specs.EndStep.{ended};
ghost use Rattle.uug_conversation.specs.MemoryHoldings.{held_by};
ghost use Rattle.uug_line.specs.declared.event.Event.{Event};
ghost use Rattle.uug_line.specs.declared.verdict.LineVerdict.TheVariants.{Clean};
ghost use Rattle.uug_line.specs.Belongings.{SetupValue};
ghost use Rattle.uug_line.specs.LineEndValue.{live_end_value};
ghost use Rattle.uug_line.specs.RunValue.{IsSteady, RunValue, run_value};
ghost use Rattle.uug_line.specs.OfSomeRun.{IsOfSomeRun, IsRunOf};
ghost use Rattle.uug_line.specs.Settle.{one_if_over};
ghost use Rattle.uug_line.specs.Settled.{AreDone, CanSettle, SettlesInto};
ghost use Rattle.uug_line.specs.Code.Settling.{AreOver, CanFinish, IsFinished, MayFinish, RoundHappens, parts_weight};
ghost use Rattle.uug_line.specs.Shown.{end_shown};
ghost use Rattle.uug_line.specs.WholeReport.{left_of, part_from, whole_report};

use crate::fault::RunFault;
use crate::journal::Journal;
use crate::line_end::LineEnd;
use crate::report::{EndReport, LastEnd, Report};
use crate::running::RunSoFar;
use crate::verdict::LineVerdict;
use std::alloc::{AllocError, Allocator};
use uug_session::{End, Phase, Side};

/// Goes on from a report until both sessions are over, on a line on which nothing more is lost. First both ends time
/// out. Then each round passes all on the line to the called end, and then all to the caller.
pub fn settle<A: Allocator + Copy>(alloc: A, report: Report<A>) -> Result<Report<A>, RunFault>
    requires { CanSettle report }
    // Both sessions are done, and each packet that was found had been sent.
    ensures ends { IfOk result (λ settled. AreDone settled.told) }
    ensures clean { IfOk result (λ settled. settled.told.verdict ≡ Clean) }
    // Of whatever two ends and events the report was, it is now of these events and those of the rounds behind them; each end
    // has then taken all messages of the other, and has what it has after the whole conversation.
    ensures world { IfOk result (λ settled. (setup : SetupValue) (events : List Event)
        → IsRunOf setup events report
        → SettlesInto setup events settled) }
{
    let mut run = report.into_run();
    let Ok(()) = run.finish(alloc) else {
        drop(run);
        return Err(RunFault::Memory);
    };
    let settled = run.into_report(LineVerdict::Clean)?;
    Ok(settled)
}

impl<A: Allocator + Copy> Report<A> {
    /// Turns the report into the run that it reports, in the same state.
    pub(crate) fn into_run(self) -> RunSoFar<A>
        ensures of_a_run { IsOfSomeRun self }
        ensures same { (parts : RunValue) → whole_report parts self.told.verdict ≡ self
            → run_value result ≡ parts }
    {
        let Report {
            mut sessions,
            caller,
            called,
            verdict: _,
        } = self;
        let Some(last) = sessions.pop() else {
            unreachable!();
        };
        RunSoFar {
            past: sessions,
            caller: caller.goes_on(last.caller),
            called: called.goes_on(last.called),
        }
    }
}

impl<A: Allocator + Copy> LastEnd<A> {
    /// Puts the end back into its session, of which this is the report.
    fn goes_on(self, report: EndReport<A>) -> LineEnd<A>
        ensures { live_end_value result
            ≡ part_from (end_shown report) (left_of self) (held_by self.node.value.spool) }
    {
        let journal = Journal::from_report(report, self.passed);
        LineEnd {
            node: self.node,
            journal,
            line: self.line,
        }
    }
}

impl<A: Allocator + Copy> RunSoFar<A> {
    /// Times out both ends, then passes what is on the line, round by round, until both sessions are over.
    pub(crate) fn finish(&mut self, alloc: A) -> Result<(), AllocError>
        requires { CanFinish (run_value self.old) }
        ensures { OnOk result ((setup : SetupValue) (events : List Event)
            → MayFinish setup events (run_value self.old)
            → IsFinished setup events (run_value self.new)) }
    {
        self.time_out(alloc, Side::Caller)?;
        self.time_out(alloc, Side::Called)?;
        let all_sent = self.round(alloc)?;
        prove!(all_sent);
        while !self.is_over() {
            let _weight = self.weight();
            let all_sent = self.round(alloc)?;
            prove!(all_sent);
        }
        Ok(())
    }

    /// Passes all on the line to the called end, and then all to the caller. Returns false if an end has found a packet
    /// that was not sent.
    fn round(&mut self, alloc: A) -> Result<bool, AllocError>
        requires { IsSteady (run_value self.old) }
        ensures { IfOk result (λ all_sent.
            RoundHappens all_sent (run_value self.old) (run_value self.new)) }
    {
        let to_called = self.caller.line.len();
        if !self.pass(alloc, Side::Called, to_called)? {
            return Ok(false);
        }
        let to_caller = self.called.line.len();
        let all_sent = self.pass(alloc, Side::Caller, to_caller)?;
        Ok(all_sent)
    }

    /// Returns whether both sessions are done.
    fn is_over(&self) -> bool
        ensures { IsTrue result ↔ AreOver (run_value self.now) }
    {
        self.caller.is_done() && self.called.is_done()
    }

    /// Returns the number of messages that both ends have sent and taken, plus the number of ends whose session is
    /// over.
    fn weight(&self) -> u128
        ensures weight { result ≡ parts_weight (run_value self.now) }
        ensures within { result ≤ u128.MAX }
    {
        let caller = &self.caller.journal;
        let called = &self.called.journal;
        (caller.taken.len() as u128 + called.taken.len() as u128)
            + (caller.sent.len() as u128 + called.sent.len() as u128)
            + (self.caller.one_if_over() + self.called.one_if_over())
    }
}

impl<A: Allocator + Copy> LineEnd<A> {
    /// Returns whether its session is done.
    fn is_done(&self) -> bool
        ensures { IsTrue result ↔ ((live_end_value self.now).node.engine.stage ≡ ended done) }
    {
        matches!(self.node.phase(), Phase::Ended(End::Done))
    }

    /// Returns 1 if its session is over, however it ended, and 0 otherwise.
    fn one_if_over(&self) -> u128
        ensures { result ≡ one_if_over (live_end_value self.now).node.engine.stage }
    {
        match self.node.phase() {
            Phase::Ended(_) => 1,
            _ => 0,
        }
    }
}
