ghost use Rattle.std.specs.Prelude.{◌≡◌, ◌∷◌, [], ◌++◌, ℕ, All, IfOk, OnOk, Some, take, drop, map, slice_get};
ghost use Rattle.uug_link.specs.Announced.{announced};
ghost use Rattle.uug_session.specs.Engine.{all_ahead};
ghost use Rattle.uug_session.specs.EndStep.{line_lost, time_ran_out};
ghost use Rattle.uug_conversation.specs.MemoryHoldings.{held_by};
ghost use Rattle.uug_conversation.specs.Turns.{other};
ghost use Rattle.uug_conversation.specs.declared.side.Side.TheVariants.{Caller, Called};
ghost use Rattle.uug_conversation.specs.DialogueState.{DialogueState};
ghost use Rattle.uug_line.specs.Belongings.{SetupValue};
ghost use Rattle.uug_line.specs.LineEndValue.{AreWritten, HasBegun, HasRoom, HearsPiece, IsCalled, IsOrdered, live_end_value};
ghost use Rattle.uug_line.specs.OfBytes.{AreOfTypes};
ghost use Rattle.uug_line.specs.OfSomeRun.{IsOfSomeRun, IsRunOf};
ghost use Rattle.uug_line.specs.Run.{Run, end_at, first_run, flipped, goes_through};
ghost use Rattle.uug_line.specs.RunKeeper.{by_themselves};
ghost use Rattle.uug_line.specs.RunValue.{AllIsSaid, CallsAgain, ChangesLine, EndsAs, Happens, HappensAt, IsSteady, Passes, StandsAs, hearing_side, run_value, with_line};
ghost use Rattle.uug_line.specs.Setup.{setup_of, with_nothing_held};
ghost use Rattle.uug_line.specs.Shown.{lists_in};
ghost use Rattle.uug_conversation.specs.Sides.{AtBoth};
ghost use Rattle.uug_line.specs.Spelled.{GiveAsSetUp, spelled};
ghost use Rattle.uug_line.specs.Heard.{HasHeardBehind, HasScannedBehind};
ghost use Rattle.uug_line.specs.Fooled.{ArrivalsArePlaces, FindsNothingMore, NamesUnsent};
ghost use Rattle.uug_line.specs.PastSessions.{WasPresent};
ghost use Rattle.uug_line.specs.StillHeld.{HoldWhatIsLeft};
ghost use Rattle.uug_line.specs.Told.{EndReportValue};
ghost use Rattle.uug_line.specs.Headline.{AllKeptToWindows, AllTookFronts, StaysInFront, StruckWereStored};
ghost use Rattle.uug_line.specs.WholeReport.{whole_report};
ghost use Rattle.uug_line.specs.World.{report_of_ends, report_of_world, run_of_ends};
ghost use Rattle.uug_line.specs.MachineRun.{AllRanAsMachine, PresentRanAsMachine};
ghost use Rattle.uug_conversation.specs.declared.side.Side.{Side};
ghost use Rattle.uug_line.specs.declared.verdict.LineVerdict.TheVariants.{Clean};

use crate::event::Event;
use crate::fault::RunFault;
use crate::line_end::LineEnd;
use crate::report::{LastEnd, Report, SessionReport};
use crate::setup::{EndSetup, Setup};
use crate::soundness::look_at_setup;
use crate::verdict::LineVerdict;
use std::alloc::{AllocError, Allocator};
use uug_session::{MemorySpool, Node, Place, Side};

/// The state of a run.
#[derive(Drop)]
pub(crate) struct RunSoFar<A: Allocator + Copy> {
    /// The sessions that are over.
    pub(crate) past: Vec<SessionReport<A>, A>,
    pub(crate) caller: LineEnd<A>,
    pub(crate) called: LineEnd<A>,
}

/// Sends these events over a line between two ends that are set up as given, and reports what the ends did. The first
/// session begins with the run. The run stops if an end finds a packet that the other end has not sent, before the end
/// takes it up.
pub fn run<A: Allocator + Copy>(
    alloc: A,
    setup: Setup<A>,
    events: &[Event],
) -> Result<Report<A>, RunFault>
    // In every session each end has taken the first messages that the other has sent.
    ensures front { IfOk result (λ report. AllTookFronts report.told) }
    // Each struck job has an entry of its own in what was stored, with its exact bytes.
    ensures stored { IfOk result (λ report. (giver : Side)
        → StruckWereStored (setup_of setup) report.told giver) }
    // What was struck and stored before the run stays in front.
    ensures earlier { IfOk result (λ report. (side : Side)
        → StaysInFront (setup_of setup) report.told side) }
    // No end ever had more unacknowledged packets than the other announced.
    ensures window { IfOk result (λ report. AllKeptToWindows (setup_of setup) report.told) }
    // It is what the two ends do, neither of which knows the other's jobs, and what somebody tells who knows both.
    ensures ends { IfOk result (λ report.
        report.told ≡ spelled (report_of_ends (setup_of setup) events.now)) }
    ensures world { IfOk result (λ report.
        report.told ≡ spelled (report_of_world (setup_of setup) events.now)) }
    // So it is the report of just these two ends and events.
    ensures of { IfOk result (λ report. IsRunOf (setup_of setup) events.now report) }
    // The spools of the ends that it lends give and accept what they did when the ends were set up.
    ensures spools { IfOk result (λ report. GiveAsSetUp (setup_of setup) report.spools) }
    // It is fooled exactly where an end has found a packet that was not sent, and names the first event with which one has.
    ensures fooled { IfOk result (λ report.
        NamesUnsent (setup_of setup) events.now report.told.verdict) }
    // What the laws of a run ask of two ends and events is so.
    ensures types { OnOk result (AreOfTypes (setup_of setup) events.now) }
    // Behind each event the arrivals of an end are the places of the packets that it found in the bytes that came to it in the
    // session, and of no others.
    ensures heard { OnOk result ((n : ℕ) (side : Side)
        → HasHeardBehind (setup_of setup) (take n events.now) side) }
    // A session that is over was the present one when an event called again.
    ensures past { OnOk result ((number : ℕ) (session : AtBoth EndReportValue)
        → slice_get (run_of_ends (setup_of setup) events.now).past number ≡ Some session
        → WasPresent (setup_of setup) events.now number session) }
    // In every session the arrivals are places of packets that the other end emitted.
    ensures places { OnOk result
        (All ArrivalsArePlaces (report_of_ends (setup_of setup) events.now).sessions) }
    // On a clean run nothing that is whole is left, and an end on its link has found the whole scan of the bytes that came.
    ensures clean { IfOk result (λ report. report.told.verdict ≡ Clean
        → (side : Side)
        → FindsNothingMore (end_at side (run_of_ends (setup_of setup) events.now))) }
    ensures scanned { IfOk result (λ report. report.told.verdict ≡ Clean
        → (side : Side) → HasScannedBehind (setup_of setup) events.now side) }
    // The ends that it lends hold what is left of the bytes that came to them.
    ensures holds { IfOk result (λ report.
        HoldWhatIsLeft (run_of_ends (setup_of setup) events.now) report.held) }
    // Each session is a run of the two ends' links, and what occurs in it so many moves of the window machine, packet by
    // packet, with its bounds in both directions.
    ensures machine { OnOk result
        (AllRanAsMachine (setup_of setup) (report_of_ends (setup_of setup) events.now)) }
    // In the present session the links are those that the ends have then.
    ensures present { OnOk result
        (PresentRanAsMachine (setup_of setup) (run_of_ends (setup_of setup) events.now)) }
{
    if !look_at_setup(&setup, events) {
        return Err(RunFault::TooLarge);
    }
    let mut run = RunSoFar::start(alloc, setup)?;
    let Ok(verdict) = run.go_through(alloc, events) else {
        drop(run);
        return Err(RunFault::Memory);
    };
    let report = run.into_report(verdict)?;
    Ok(report)
}

impl<A: Allocator + Copy> RunSoFar<A> {
    fn start(alloc: A, setup: Setup<A>) -> Result<Self, AllocError>
        ensures { IfOk result (λ run.
            StandsAs (setup_of setup) (first_run by_themselves (setup_of setup)) (run_value run)) }
    {
        let Setup { caller, called } = setup;
        let caller_place = place_of(&caller, &called);
        let called_place = place_of(&called, &caller);
        Ok(RunSoFar {
            past: Vec::new(alloc),
            caller: start_caller(alloc, caller_place, caller)?,
            called: start_called(alloc, called_place, called)?,
        })
    }

    /// Handles the events in order, up to one at which a packet is found that was not sent.
    fn go_through(&mut self, alloc: A, events: &[Event]) -> Result<LineVerdict, AllocError>
        requires { IsSteady (run_value self.old) }
        ensures ends { IfOk result (λ verdict. (setup : SetupValue) (run : Run DialogueState)
            → StandsAs setup run (run_value self.old)
            → EndsAs setup (goes_through by_themselves setup 0 events.now run) verdict
            (run_value self.new)) }
        ensures steady { IfOk result (λ verdict. verdict ≡ Clean → IsSteady (run_value self.new)) }
    {
        for (number, event) in events.iter().enumerate() {
            if !self.happens(alloc, *event)? {
                return Ok(LineVerdict::Fooled {
                    event: number,
                    side: hearing_side(*event),
                });
            }
        }
        Ok(LineVerdict::Clean)
    }

    /// Handles the event. Returns false if an end has found a packet that was not sent.
    pub(crate) fn happens(&mut self, alloc: A, event: Event) -> Result<bool, AllocError>
        requires { IsSteady (run_value self.old) }
        ensures { IfOk result (λ all_sent.
            Happens event all_sent (run_value self.old) (run_value self.new)) }
    {
        match event {
            Event::Pass { side, n } => return self.pass(alloc, side, n as usize),
            Event::Drop { side, n } => self.lose(side, n as usize),
            Event::Flip { side, mask } => self.flip(side, mask),
            Event::Insert { side, byte } => self.insert(side, byte)?,
            Event::Timeout { side } => self.time_out(alloc, side)?,
            Event::HangUp { side } => self.hang_up(alloc, side)?,
            Event::Call => self.call_again(alloc)?,
        }
        Ok(true)
    }

    /// Delivers the next `n` bytes to the side as one piece. Returns false if the side has found a packet that was not
    /// sent.
    pub(crate) fn pass(&mut self, alloc: A, side: Side, n: usize) -> Result<bool, AllocError>
        requires { IsSteady (run_value self.old) }
        ensures { IfOk result (λ all_sent.
            Passes side n all_sent (run_value self.old) (run_value self.new)) }
    {
        match side {
            Side::Caller => deliver(alloc, &mut self.caller, &mut self.called, n),
            Side::Called => deliver(alloc, &mut self.called, &mut self.caller, n),
        }
    }

    /// Drops the next `n` bytes to the side.
    fn lose(&mut self, side: Side, n: usize)
        ensures { HappensAt (other side) (ChangesLine (drop n)) (run_value self.old)
            (run_value self.new) }
    {
        match side {
            Side::Caller => self.called.line.pass(n),
            Side::Called => self.caller.line.pass(n),
        }
    }

    /// Changes the next byte to the side.
    fn flip(&mut self, side: Side, mask: u8)
        ensures { HappensAt (other side) (ChangesLine (flipped mask)) (run_value self.old)
            (run_value self.new) }
    {
        match side {
            Side::Caller => self.called.line.flip(mask),
            Side::Called => self.caller.line.flip(mask),
        }
    }

    /// Inserts a byte before the next one to the side.
    fn insert(&mut self, side: Side, byte: u8) -> Result<(), AllocError>
        ensures { OnOk result
            (HappensAt (other side) (ChangesLine (λ line. byte ∷ line)) (run_value self.old)
            (run_value self.new)) }
    {
        match side {
            Side::Caller => self.called.line.insert(byte),
            Side::Called => self.caller.line.insert(byte),
        }
    }

    /// Handles a timeout at the side.
    pub(crate) fn time_out(&mut self, alloc: A, side: Side) -> Result<(), AllocError>
        requires { IsSteady (run_value self.old) }
        ensures { OnOk result
            (HappensAt side (IsCalled time_ran_out) (run_value self.old) (run_value self.new)) }
    {
        match side {
            Side::Caller => self.caller.time_out(alloc),
            Side::Called => self.called.time_out(alloc),
        }
    }

    /// Handles the loss of the line at the side.
    fn hang_up(&mut self, alloc: A, side: Side) -> Result<(), AllocError>
        requires { IsSteady (run_value self.old) }
        ensures { OnOk result
            (HappensAt side (IsCalled line_lost) (run_value self.old) (run_value self.new)) }
    {
        match side {
            Side::Caller => self.caller.hang_up(alloc),
            Side::Called => self.called.hang_up(alloc),
        }
    }

    /// Hangs up at both ends, drops what is on the line, and begins a new session.
    fn call_again(&mut self, alloc: A) -> Result<(), AllocError>
        requires { IsSteady (run_value self.old) }
        ensures { OnOk result (CallsAgain (run_value self.old) (run_value self.new)) }
    {
        self.caller.hang_up(alloc)?;
        self.called.hang_up(alloc)?;
        let caller = self.caller.call_again(alloc)?;
        let called = self.called.call_again(alloc)?;
        self.past.push(SessionReport { caller, called })?;
        Ok(())
    }

    /// Turns the run into its report.
    pub(crate) fn into_report(self, verdict: LineVerdict) -> Result<Report<A>, AllocError>
        requires some_run { IsOfSomeRun (whole_report (run_value self) verdict) }
        requires said { AllIsSaid (run_value self) }
        ensures { IfOk result (λ report. report ≡ whole_report (run_value self) verdict) }
    {
        let RunSoFar {
            mut past,
            caller,
            called,
        } = self;
        let caller_phase = caller.node.phase();
        let called_phase = called.node.phase();
        let caller_passed = caller.journal.passed;
        let called_passed = called.journal.passed;
        past.push(SessionReport {
            caller: caller.journal.into_report(caller_phase),
            called: called.journal.into_report(called_phase),
        })?;
        Ok(Report {
            sessions: past,
            caller: LastEnd {
                node: caller.node,
                line: caller.line,
                passed: caller_passed,
            },
            called: LastEnd {
                node: called.node,
                line: called.line,
                passed: called_passed,
            },
            verdict,
        })
    }
}

/// Returns the side that receives bytes in the event, or the caller if none does.
pub(crate) fn hearing_side(event: Event) -> Side
    ensures { result ≡ hearing_side event }
{
    match event {
        Event::Pass { side, .. } => side,
        _ => Side::Caller,
    }
}

/// Returns the place of the one end, which expects the other.
fn place_of<A: Allocator>(one: &EndSetup<A>, other: &EndSetup<A>) -> Place
    ensures me { result.me ≡ one.now.name }
    ensures peer { result.peer ≡ other.now.name }
    ensures announce { result.announce ≡ one.now.announce }
    ensures number { result.number ≡ one.now.number }
{
    Place {
        me: one.name,
        peer: other.name,
        announce: one.announce,
        number: one.number,
    }
}

/// Returns the spool with nothing held of files of earlier sessions.
fn forgetting<A: Allocator + Copy>(mut spool: MemorySpool<A>) -> MemorySpool<A>
    ensures { held_by result ≡ with_nothing_held (held_by spool) }
{
    spool.forget_partials();
    spool
}

fn start_caller<A: Allocator + Copy>(
    alloc: A,
    place: Place,
    setup: EndSetup<A>,
) -> Result<LineEnd<A>, AllocError>
    ensures { IfOk result (λ end.
        HasBegun (record { side = Caller; me = place.me; peer = place.peer })
        (announced place.announce)
        place.number (all_ahead setup.queue) (with_nothing_held (held_by setup.spool))
        (live_end_value end)) }
{
    let spool = forgetting(setup.spool);
    let Ok(node) = Node::caller(alloc, place, setup.queue, spool) else {
        return Err(AllocError);
    };
    let end = LineEnd::start(alloc, node)?;
    Ok(end)
}

fn start_called<A: Allocator + Copy>(
    alloc: A,
    place: Place,
    setup: EndSetup<A>,
) -> Result<LineEnd<A>, AllocError>
    ensures { IfOk result (λ end.
        HasBegun (record { side = Called; me = place.me; peer = place.peer })
        (announced place.announce)
        place.number (all_ahead setup.queue) (with_nothing_held (held_by setup.spool))
        (live_end_value end)) }
{
    let spool = forgetting(setup.spool);
    let Ok(node) = Node::called(alloc, place, setup.queue, spool) else {
        return Err(AllocError);
    };
    let end = LineEnd::start(alloc, node)?;
    Ok(end)
}

/// Delivers the next `n` bytes that one end has emitted to the other as one piece. Returns false if the other finds a
/// packet that was not sent.
fn deliver<A: Allocator + Copy>(
    alloc: A,
    hearer: &mut LineEnd<A>,
    speaker: &mut LineEnd<A>,
    n: usize,
) -> Result<bool, AllocError>
    requires ordered { IsOrdered (live_end_value hearer.old) }
    requires room { HasRoom (live_end_value hearer.old) }
    requires written { AreWritten (live_end_value speaker.old).journal.packets }
    ensures heard { IfOk result (λ all_sent.
        HearsPiece all_sent (live_end_value speaker.old).journal.packets
        (take n (live_end_value speaker.old).line) (live_end_value hearer.old) (live_end_value hearer.new)) }
    ensures line { OnOk result (live_end_value speaker.new ≡ with_line (drop n) (live_end_value speaker.old)) }
{
    let piece = speaker.line.next(n);
    let all_sent = hearer.hear(alloc, piece, speaker.journal.packets.as_slice())?;
    speaker.line.pass(n);
    Ok(all_sent)
}
