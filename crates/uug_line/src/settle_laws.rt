//! A clean line finishes: two ends complete their conversation. The functions do nothing.
ghost use Rattle.std.specs.Prelude.{◌≡◌, ◌↔◌, List};
ghost use Rattle.uug_conversation.specs.Sides.{at};
ghost use Rattle.uug_conversation.specs.declared.side.Side.{Side};
ghost use Rattle.uug_line.specs.Belongings.{SetupValue};
ghost use Rattle.uug_line.specs.OfBytes.{AreOfTypes};
ghost use Rattle.uug_line.specs.OfSomeRun.{IsRunOf};
ghost use Rattle.uug_line.specs.Run.{end_at};
ghost use Rattle.uug_line.specs.Settle.{MaySettle, Settles};
ghost use Rattle.uug_line.specs.Settled.{CanSettle};
ghost use Rattle.uug_line.specs.StillReports.{IsStill, NoneIsQuiet};
ghost use Rattle.uug_line.specs.WholeReport.{WholeReport};
ghost use Rattle.uug_line.specs.World.{world};
ghost use Rattle.uug_line.specs.declared.event.Event.{Event};

/// States that two ends finish once the line is clean, whatever happened on it before, in hardly more rounds than
/// messages are left. Both must talk, nothing may wait at an end or on the line, and neither may have counted more than
/// six timeouts in a row. Rounds then lead to where both sessions are done, each end has taken all messages of the
/// other, and its jobs and its store are those after the whole conversation.
pub fn two_ends_finish_on_a_clean_line()
    ensures { (setup : SetupValue) (events : List Event) → AreOfTypes setup events
        → MaySettle (world setup events)
        → Settles setup events }
{}

/// States that each end keeps the announcement it was set up with, whatever happens. If neither end was set up to be
/// quiet on repeats, a report may be settled wherever it is clean and still: both ends talk, nothing waits at an end or
/// on the line, and neither has counted more than six timeouts in a row.
pub fn an_end_is_quiet_only_where_it_was_set_up_so()
    ensures own { (setup : SetupValue) (events : List Event) → AreOfTypes setup events → (side : Side)
        → (end_at side (world setup events)).end.state.link.own ≡ (at side setup).own }
    ensures asks { (setup : SetupValue) (events : List Event) (report : WholeReport)
        → IsRunOf setup events report → NoneIsQuiet setup → CanSettle report ↔ IsStill report }
{}
