//! Laws of a run, for any two ends and whatever happens on the line between them: a run is the world, the headline, and
//! where a run stops. The functions do nothing.
ghost use Rattle.std.specs.Prelude.{◌≡◌, ◌↔◌, ℕ, List, All, Some, slice_get};
ghost use Rattle.uug_packet.specs.Bytes.{AreBytes};
ghost use Rattle.uug_line.specs.declared.event.Event.{Event};
ghost use Rattle.uug_conversation.specs.declared.side.Side.{Side};
ghost use Rattle.uug_line.specs.declared.verdict.LineVerdict.TheVariants.{Clean, Fooled};
ghost use Rattle.uug_line.specs.Belongings.{SetupValue};
ghost use Rattle.uug_line.specs.Delivered.{HasHeardAt, HasScanned, came_in};
ghost use Rattle.uug_line.specs.Fooled.{ArrivalsArePlaces, FindsNothingMore, FindsUnsent, StoppedAt};
ghost use Rattle.uug_line.specs.Headline.{AllKeptToWindows, AllTookFronts, StaysInFront, StruckWereStored};
ghost use Rattle.uug_line.specs.OfBytes.{AreOfBytes, IsSetupOfBytes};
ghost use Rattle.uug_line.specs.PastSessions.{StayOver, WasPresent};
ghost use Rattle.uug_line.specs.Run.{end_at};
ghost use Rattle.uug_line.specs.RunKeeper.{by_numbers, by_themselves};
ghost use Rattle.uug_conversation.specs.Sides.{AtBoth, at};
ghost use Rattle.uug_line.specs.SoundSetup.{IsSoundSetup};
ghost use Rattle.uug_line.specs.Speaking.{HaveSpoken};
ghost use Rattle.uug_line.specs.Told.{EndReportValue};
ghost use Rattle.uug_line.specs.World.{counted, report_of_ends, report_of_world, run_of_ends, world};
ghost use Rattle.uug_line.specs.MachineRun.{AllRanAsMachine, PresentRanAsMachine};

/// States that two ends, neither of which knows the other's jobs, do on every line what the world says. Their run is
/// the world's, if an end is described by the number of messages of the whole conversation that it has sent and taken;
/// and their report is the world's.
pub fn a_run_is_the_world()
    ensures run { (setup : SetupValue) (events : List Event) → IsSoundSetup setup
        → counted (run_of_ends setup events) ≡ world setup events }
    ensures report { (setup : SetupValue) (events : List Event) → IsSoundSetup setup
        → report_of_ends setup events ≡ report_of_world setup events }
{}

/// States the headline. In every session each end has taken the first messages that the other sent, and no end ever has
/// more unacknowledged packets than the other announced. A job is struck only after its exact bytes were stored.
pub fn the_headline()
    ensures front { (setup : SetupValue) (events : List Event) → IsSoundSetup setup
        → AllTookFronts (report_of_ends setup events) }
    ensures window { (setup : SetupValue) (events : List Event) → IsSoundSetup setup
        → AllKeptToWindows setup (report_of_ends setup events) }
    ensures stored { (setup : SetupValue) (events : List Event) → IsSoundSetup setup
        → (giver : Side) → StruckWereStored setup (report_of_ends setup events) giver }
    // What was struck and stored before the run stays in front.
    ensures earlier { (setup : SetupValue) (events : List Event) → IsSoundSetup setup
        → (side : Side) → StaysInFront setup (report_of_ends setup events) side }
    // Each session is a run of the two ends' links, and what occurs in it so many moves of the window machine, packet by
    // packet, with its bounds in both directions.
    ensures machine { (setup : SetupValue) (events : List Event) → IsSoundSetup setup
        → AllRanAsMachine setup (report_of_ends setup events) }
    // In the present session the links are those that the ends have now.
    ensures present { (setup : SetupValue) (events : List Event) → IsSoundSetup setup
        → PresentRanAsMachine setup (run_of_ends setup events) }
{}

/// States that each end has said what it can, whatever happens on the line. On a link that is up, the window lets no
/// more messages out or none waits to be sent, and there is something to say or to take yet.
pub fn each_end_has_said_what_it_can()
    ensures { (setup : SetupValue) (events : List Event) → IsSoundSetup setup
        → HaveSpoken by_themselves setup (run_of_ends setup events) }
{}

/// States that a run stops exactly where an end finds a packet that was not sent to it. Together with those found
/// before it in the session, that packet is not among those that the other end emitted, in this order and none more
/// often.
pub fn a_run_stops_at_what_was_not_sent()
    // Arrivals are places among the packets that the other end emitted. That they are those of the packets that the end found
    // in the bytes that came to it is the law `an_end_finds_what_came`.
    ensures places { (setup : SetupValue) (events : List Event)
        → All ArrivalsArePlaces (report_of_ends setup events).sessions }
    // A run that did not stop found no others in the bytes that came.
    ensures clean { (setup : SetupValue) (events : List Event)
        → (run_of_ends setup events).verdict ≡ Clean
        → (side : Side) → FindsNothingMore (end_at side (run_of_ends setup events)) }
    // The verdict names the side that has found one, and the first event with which one did.
    ensures fooled { (setup : SetupValue) (events : List Event) (side : Side)
        → ((number : ℕ) × ((run_of_ends setup events).verdict ≡ Fooled number side))
        ↔ FindsUnsent (run_of_ends setup events) side }
    ensures stopped { (setup : SetupValue) (events : List Event) (number : ℕ) (side : Side)
        → (run_of_ends setup events).verdict ≡ Fooled number side
        → StoppedAt by_themselves setup events number side }
{}

/// States that the report of a session that is over stays the same, whatever happens then. Each of these sessions was
/// the present one after fewer events, and the laws here cover it there.
pub fn sessions_that_are_over_stay()
    ensures stay { (setup : SetupValue) (events more : List Event) → StayOver setup events more }
    ensures were_present { (setup : SetupValue) (events : List Event) (number : ℕ)
        (session : AtBoth EndReportValue)
        → slice_get (run_of_ends setup events).past number ≡ Some session
        → WasPresent setup events number session }
{}

/// States that an end receives only bytes in a session, whatever happens on the line. The set-up and the events must be
/// of bytes, as the program's types say.
pub fn what_comes_is_bytes()
    ensures ends { (setup : SetupValue) (events : List Event) (side : Side) → IsSoundSetup setup
        → IsSetupOfBytes setup
        → AreOfBytes events → AreBytes (at side (came_in by_themselves setup events)) }
    ensures world { (setup : SetupValue) (events : List Event) (side : Side) → IsSoundSetup setup
        → IsSetupOfBytes setup
        → AreOfBytes events → AreBytes (at side (came_in by_numbers setup events)) }
{}

/// States that an end finds in each session what is in all bytes that it received, in whatever pieces they arrived. It
/// finds the texts of its greeting, and then the items of the link, from the first byte after the text with which the
/// link began. The packets that have places among those of the other end are the packets among these items, and no
/// others. A session that is over was the present one after fewer events.
pub fn an_end_finds_what_came()
    ensures heard { (setup : SetupValue) (events : List Event) (side : Side) → IsSoundSetup setup
        → IsSetupOfBytes setup
        → AreOfBytes events
        → HasHeardAt by_themselves setup (at side (came_in by_themselves setup events))
        (run_of_ends setup events) side }
    // Where the run did not stop, an end on its link has found the whole scan of them.
    ensures scanned { (setup : SetupValue) (events : List Event) (side : Side) → IsSoundSetup setup
        → IsSetupOfBytes setup
        → AreOfBytes events → (run_of_ends setup events).verdict ≡ Clean
        → (heard : HasHeardAt by_themselves setup (at side (came_in by_themselves setup events))
        (run_of_ends setup events) side)
        → HasScanned by_themselves setup (at side (came_in by_themselves setup events))
        (run_of_ends setup events) side heard }
    // So it is in the world.
    ensures world { (setup : SetupValue) (events : List Event) (side : Side) → IsSoundSetup setup
        → IsSetupOfBytes setup
        → AreOfBytes events
        → HasHeardAt by_numbers setup (at side (came_in by_numbers setup events))
        (world setup events)
        side }
{}
