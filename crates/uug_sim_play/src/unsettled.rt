//! The reasons for which a report may not settle.
ghost use Rattle.std.specs.Prelude.{◌≡◌, ◌++◌, List, None, IfOk, MatchOption, string_bytes};
ghost use Rattle.uug_line.specs.declared.event.Event.{Event};
ghost use Rattle.uug_line.specs.Belongings.{SetupValue};
ghost use Rattle.uug_line.specs.OfSomeRun.{IsRunOf};
ghost use Rattle.uug_line.specs.Settle.{MaySettle};
ghost use Rattle.uug_line.specs.Settled.{CanSettle};
ghost use Rattle.uug_line.specs.Shown.{held_at, stands_so};
ghost use Rattle.uug_line.specs.World.{world};
ghost use Rattle.uug_sim_play.specs.Unsettled.{EndFails, Fails, IsQuietEnd, unsettled_line, unsettled_words};

use std::alloc::{AllocError, Allocator};
use uug_line::{LineVerdict, Report, Side, TIMEOUTS_BEFORE};
use uug_session::{MemorySpool, Node, Phase};

/// A condition of `settle` that a report does not meet.
#[derive(Clone, Copy, Debug, PartialEq, Eq)]
pub enum Unsettled {
    /// An end has found a packet that was not sent.
    Fooled,
    /// The end does not talk: it greets the other, closes its link, or its session is over.
    Silent(Side),
    /// The end is quiet on repeats.
    Quiet(Side),
    /// The end has counted more than six timeouts in a row.
    Late(Side),
    /// The end holds bytes that it has not taken up.
    Holds(Side),
    /// Bytes are on the line.
    OnLine,
}

/// Returns the condition that keeps the end on this side from settling, except for what is on the line.
fn end_unsettled<A: Allocator + Copy>(
    side: Side,
    node: &Node<MemorySpool<A>, A>,
) -> Option<Unsettled>
    ensures { MatchOption result (IsQuietEnd (stands_so node.now) (held_at node.now))
        (λ why. EndFails side (stands_so node.now) (held_at node.now) why) }
{
    let talks = matches!(node.phase(), Phase::Talking);
    if !talks {
        return Some(Unsettled::Silent(side));
    }
    if node.is_quiet() {
        return Some(Unsettled::Quiet(side));
    }
    if node.timeouts() > TIMEOUTS_BEFORE {
        return Some(Unsettled::Late(side));
    }
    if node.waiting() > 0 {
        return Some(Unsettled::Holds(side));
    }
    None
}

/// Returns the first condition of `settle` that the report does not meet: the verdict, then the caller, then the called
/// end, and then the line. `None` if it may settle.
pub fn why_unsettled<A: Allocator + Copy>(report: &Report<A>) -> Option<Unsettled>
    ensures why { MatchOption result (CanSettle report.now) (λ why. Fails why report.now) }
    // So None is only where the world may settle, of whatever two ends and events the report is.
    ensures world { (setup : SetupValue) (events : List Event) → IsRunOf setup events report.now
        → result ≡ None → MaySettle (world setup events) }
{
    if report.can_settle() {
        return None;
    }
    if let LineVerdict::Fooled { .. } = report.verdict() {
        return Some(Unsettled::Fooled);
    }
    if let Some(why) = end_unsettled(Side::Caller, report.caller()) {
        return Some(why);
    }
    if let Some(why) = end_unsettled(Side::Called, report.called()) {
        return Some(why);
    }
    Some(Unsettled::OnLine)
}

fn unsettled_words(why: Unsettled) -> &'static str
    ensures { result.now ≡ unsettled_words why }
{
    match why {
        Unsettled::Fooled => "not settled: the line fooled an end",
        Unsettled::Silent(Side::Caller) => "not settled: caller is not talking",
        Unsettled::Silent(Side::Called) => "not settled: called is not talking",
        Unsettled::Quiet(Side::Caller) => "not settled: caller is quiet on repeats",
        Unsettled::Quiet(Side::Called) => "not settled: called is quiet on repeats",
        Unsettled::Late(Side::Caller) => "not settled: caller has timed out more than 6 times",
        Unsettled::Late(Side::Called) => "not settled: called has timed out more than 6 times",
        Unsettled::Holds(Side::Caller) => "not settled: caller holds part of a packet",
        Unsettled::Holds(Side::Called) => "not settled: called holds part of a packet",
        Unsettled::OnLine => "not settled: bytes are on the line",
    }
}

/// Appends the line for this condition.
pub(crate) fn add_unsettled<A: Allocator>(
    text: &mut String<A>,
    why: Unsettled,
) -> Result<(), AllocError>
    ensures { IfOk result (λ _.
        string_bytes text.new ≡ string_bytes text.old ++ unsettled_line why) }
{
    text.push_str(unsettled_words(why))?;
    text.push('\n')?;
    Ok(())
}
