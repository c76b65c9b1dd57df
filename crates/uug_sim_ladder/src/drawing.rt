//! A ladder in progress.
ghost use Rattle.std.specs.Prelude.{◌≡◌, ◌-◌, ◌==◌, map, slice_get, IfOk, MatchOption, None, OnOk, Some};
ghost use Rattle.uug_line.specs.Shown.{session_shown};
ghost use Rattle.uug_conversation.specs.Sides.{at as at_side};
ghost use Rattle.uug_sim_ladder.specs.Acts.{end_kept};
ghost use Rattle.uug_sim_ladder.specs.Moments.{front_shown, last_of, moment_told};
ghost use Rattle.uug_sim_ladder.specs.Drawing.{acts_in, begins_session, calls_again, drawing_shown, ends_at, first_drawing, from_other, goes_on, happens, loses_all, side_acts, stepped};
ghost use Rattle.uug_sim_ladder.specs.Rungs.{ladder_shown};
ghost use Rattle.uug_sim_ladder.specs.Way.{drops, flips, inserts, passes};

use crate::acts::{act, come, say};
use crate::end::DrawnEnd;
use crate::ladder::Ladder;
use crate::moment::{Moment, last_of, moment_of};
use crate::rung::What;
use crate::way::{drop_next, flip_next, insert_next, pass_next};
use std::alloc::{AllocError, Allocator};
use uug_line::{Event, Report, SessionReport, Side};

/// A ladder in progress.
#[derive(Drop)]
pub(crate) struct Drawing<A: Allocator> {
    pub(crate) ladder: Ladder<A>,
    pub(crate) caller: DrawnEnd<A>,
    pub(crate) called: DrawnEnd<A>,
}

/// Returns the session at this place, counted from 0.
fn session_at<A: Allocator>(
    sessions: &[SessionReport<A>],
    place: usize,
) -> Option<&SessionReport<A>>
    ensures { MatchOption result
        (slice_get (map session_shown sessions.now) place ≡ None)
        (λ session. slice_get (map session_shown sessions.now) place
        ≡ Some (session_shown session.now)) }
{
    sessions.get(place)
}

/// Draws the end of the session before.
fn end_session<A: Allocator>(
    ladder: &mut Ladder<A>,
    event: usize,
    before: &Moment,
    sessions: &[SessionReport<A>],
) -> Result<(), AllocError>
    ensures { OnOk result (ladder_shown ladder.new
        ≡ ends_at event before.now
        (slice_get (map session_shown sessions.now) (before.now.session - 1))
        (ladder_shown ladder.old)) }
{
    let Some(over) = session_at(sessions, before.session.saturating_sub(1)) else {
        return Ok(());
    };
    let (caller, called) = (before.caller.phase, before.called.phase);
    come(ladder, (event, Side::Caller), caller, over.caller.phase)?;
    come(ladder, (event, Side::Called), called, over.called.phase)
}

impl<A: Allocator + Copy> Drawing<A> {
    /// Draws the beginning of the first session, of which this is the report.
    pub(crate) fn first(alloc: A, report: &Report<A>) -> Result<Self, AllocError>
        ensures { IfOk result (λ drawing.
            drawing_shown drawing ≡ first_drawing (front_shown report.now)) }
    {
        let mut drawing = Drawing {
            ladder: Ladder::new(alloc),
            caller: DrawnEnd::new(alloc),
            called: DrawnEnd::new(alloc),
        };
        drawing.begin(alloc, None, 1, report)?;
        Ok(drawing)
    }

    /// Draws the beginning of the session of this number.
    fn begin(
        &mut self,
        alloc: A,
        event: Option<usize>,
        number: usize,
        report: &Report<A>,
    ) -> Result<(), AllocError>
        ensures { OnOk result (drawing_shown self.new
            ≡ begins_session event number (front_shown report.now) (ladder_shown self.old.ladder)) }
    {
        self.caller = DrawnEnd::new(alloc);
        self.called = DrawnEnd::new(alloc);
        let ladder = &mut self.ladder;
        ladder.add(event, Side::Caller, What::Begins(number))?;
        let name = report.line_from(Side::Called);
        say(alloc, ladder, &mut self.called, event, Side::Called, name)
    }

    /// Draws what an event does on the line, or to an end.
    fn happen(&mut self, event: Event, number: usize) -> Result<(), AllocError>
        ensures { OnOk result
            (drawing_shown self.new ≡ happens event number (drawing_shown self.old)) }
    {
        match event {
            Event::Pass { side, n } => self.pass(side, n as usize, number),
            Event::Drop { side, n } => self.lose(side, n as usize, number),
            Event::Flip { side, mask } => self.flip(side, mask, number),
            Event::Insert { side, .. } => self.insert(side, number)?,
            Event::Timeout { side } => self.ladder.add(Some(number), side, What::TimesOut)?,
            Event::HangUp { side } => self.ladder.add(Some(number), side, What::HangsUp)?,
            Event::Call => self.lose_all(number),
        }
        Ok(())
    }

    fn pass(&mut self, side: Side, n: usize, number: usize)
        ensures { drawing_shown self.new ≡ from_other side (passes number n) (drawing_shown self.old) }
    {
        match side {
            Side::Caller => pass_next(&mut self.called.way, &mut self.ladder.fates, n, number),
            Side::Called => pass_next(&mut self.caller.way, &mut self.ladder.fates, n, number),
        }
    }

    fn lose(&mut self, side: Side, n: usize, number: usize)
        ensures { drawing_shown self.new ≡ from_other side (drops number n) (drawing_shown self.old) }
    {
        match side {
            Side::Caller => drop_next(&mut self.called.way, &mut self.ladder.fates, n, number),
            Side::Called => drop_next(&mut self.caller.way, &mut self.ladder.fates, n, number),
        }
    }

    fn lose_all(&mut self, number: usize)
        ensures { drawing_shown self.new
            ≡ from_other Side.Called (loses_all number)
            (from_other Side.Caller (loses_all number) (drawing_shown self.old)) }
    {
        let (to_caller, to_called) = (self.called.way.len(), self.caller.way.len());
        self.lose(Side::Caller, to_caller, number);
        self.lose(Side::Called, to_called, number);
    }

    fn flip(&mut self, side: Side, mask: u8, number: usize)
        ensures { drawing_shown self.new
            ≡ from_other side (flips number mask) (drawing_shown self.old) }
    {
        match side {
            Side::Caller => flip_next(&mut self.called.way, &mut self.ladder.fates, mask, number),
            Side::Called => flip_next(&mut self.caller.way, &mut self.ladder.fates, mask, number),
        }
    }

    fn insert(&mut self, side: Side, number: usize) -> Result<(), AllocError>
        ensures { OnOk result (drawing_shown self.new
            ≡ from_other side (inserts number) (drawing_shown self.old)) }
    {
        match side {
            Side::Caller => insert_next(&mut self.called.way, &mut self.ladder.fates, number),
            Side::Called => insert_next(&mut self.caller.way, &mut self.ladder.fates, number),
        }
    }

    /// Draws what an end has done in the last session.
    fn act_at(
        &mut self,
        alloc: A,
        at: (usize, Side),
        marks: &(Moment, Moment),
        told: &SessionReport<A>,
        line: &[u8],
    ) -> Result<(), AllocError>
        ensures { OnOk result (drawing_shown self.new
            ≡ side_acts at.0 at.1 marks.now.0 marks.now.1 (at_side at.1 (session_shown told.now)) line.now
            (drawing_shown self.old)) }
    {
        let (before, after) = marks;
        let ladder = &mut self.ladder;
        match at.1 {
            Side::Caller => {
                let marks = (before.caller, after.caller);
                let packets = told.caller.packets.as_slice();
                act(alloc, ladder, &mut self.caller, at, marks, packets, line)
            }
            Side::Called => {
                let marks = (before.called, after.called);
                let packets = told.called.packets.as_slice();
                act(alloc, ladder, &mut self.called, at, marks, packets, line)
            }
        }
    }

    /// Draws what both ends have done in the last session.
    fn act_last(
        &mut self,
        alloc: A,
        number: usize,
        marks: &(Moment, Moment),
        report: &Report<A>,
    ) -> Result<(), AllocError>
        ensures { OnOk result (drawing_shown self.new
            ≡ acts_in number marks.now.0 marks.now.1 (last_of report.now.told.sessions)
            (front_shown report.now).lines (drawing_shown self.old)) }
    {
        let Some(told) = last_of(report.sessions()) else {
            return Ok(());
        };
        let line = report.line_from(Side::Caller);
        self.act_at(alloc, (number, Side::Caller), marks, told, line)?;
        let line = report.line_from(Side::Called);
        self.act_at(alloc, (number, Side::Called), marks, told, line)
    }

    /// Draws the end of a session and the beginning of the next one.
    fn call_again(
        &mut self,
        alloc: A,
        number: usize,
        marks: &(Moment, Moment),
        report: &Report<A>,
    ) -> Result<(), AllocError>
        ensures { OnOk result (drawing_shown self.new
            ≡ calls_again number marks.now.0 marks.now.1 (front_shown report.now)
            (drawing_shown self.old)) }
    {
        end_session(&mut self.ladder, number, &marks.0, report.sessions())?;
        self.begin(alloc, Some(number), marks.1.session, report)
    }

    /// Draws what both ends do after an event, by whether the session is the same.
    fn go_on(
        &mut self,
        alloc: A,
        number: usize,
        marks: &(Moment, Moment),
        same: bool,
        report: &Report<A>,
    ) -> Result<(), AllocError>
        ensures { OnOk result (drawing_shown self.new
            ≡ goes_on same number marks.now.0 marks.now.1 (front_shown report.now)
            (drawing_shown self.old)) }
    {
        if !same {
            return self.call_again(alloc, number, marks, report);
        }
        self.act_last(alloc, number, marks, report)
    }

    /// Draws an event, by what both ends had done before it, and by the report of the run after it.
    pub(crate) fn step(
        &mut self,
        alloc: A,
        number: usize,
        event: Event,
        before: Option<Moment>,
        report: &Report<A>,
    ) -> Result<(), AllocError>
        ensures { OnOk result (drawing_shown self.new
            ≡ stepped event number before (moment_told report.now.told) (front_shown report.now)
            (drawing_shown self.old)) }
    {
        let Some(before) = before else {
            return Ok(());
        };
        let Some(after) = moment_of(report) else {
            return Ok(());
        };
        self.happen(event, number)?;
        let same = before.session == after.session;
        self.go_on(alloc, number, &(before, after), same, report)
    }
}
