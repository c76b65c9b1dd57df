//! The laws of links and of the window machine. Each is the contract of a function that does nothing.
ghost use Rattle.std.specs.Prelude.{◌≡◌, ◌≢◌, ◌↔◌, ◌∷◌, ℕ, suc, ◌+◌, ◌-◌, ◌%◌, ◌<◌, ◌≤◌, List, drop, length, slice_get, Some, None, MatchOption, IsTrue};
ghost use Rattle.uug_link.specs.Announced.{Announced, announced};
ghost use Rattle.uug_link.specs.Arrivals.{IsPlace, arrived, as_happenings, place_of, same_packet};
ghost use Rattle.uug_link.specs.Counts.{AlwaysEmits, AreCounted, CanBeWritten};
ghost use Rattle.uug_link.specs.Fields.{HaveSmallestFields};
ghost use Rattle.uug_link.specs.InRange.{AreWellFormed, IsAnnouncement, IsInRange, MayMeet};
ghost use Rattle.uug_link.specs.Moves.{AllMoveWith, MovesWith, ReadsBoth};
ghost use Rattle.uug_link.specs.OnTheLine.{Reads};
ghost use Rattle.uug_link.specs.OnTheWay.{AreComing, Hears, IsTalk, Repeats, Sends, StillBring, emitted_by};
ghost use Rattle.uug_link.specs.Outcomes.{FirstBySend, IsComing, MayAnswer, MovesPhase};
ghost use Rattle.uug_link.specs.Plain.{plain_step};
ghost use Rattle.uug_link.specs.State.{IsFresh, IsPlain, IsUp, KeepsRejects, KnowsSize, KnowsWindow, State, called_state, caller_state};
ghost use Rattle.uug_link.specs.Step.{Event, answers_halted, next_number, packet_found, step, timed_out, to_begin, to_close, to_send, up};
ghost use Rattle.uug_link.specs.Strays.{HasNumbers, IsSmallerOf, StandsBehind, acknowledgement};
ghost use Rattle.uug_link.specs.Terms.{IsWindow, smallest_code};
ghost use Rattle.uug_link.specs.TwoLinks.{AllMayHappen, AllMayOccur, AlwaysOfTwo, End, Ends, Happening, IsFirst, IsFrontOf, IsRun, MayOccur, Occurrence, after_happenings, after_occurrence, first_ends, seen_from_far};
ghost use Rattle.uug_link.specs.WindowBounds.{AcksRise, CountsInOrder, NumbersNear};
ghost use Rattle.uug_link.specs.WindowMachine.{Always, EachAck, EachNumber, IsReached, Machine, Move, start};
ghost use Rattle.uug_link.specs.declared.announce.Announce.{Announce};
ghost use Rattle.uug_link.specs.declared.limits.TheConstants.{ENTRIES_MAX, MESSAGE_MAX, SIZE_CODES, SIZE_MIN, TIMEOUTS_MAX, UNACKED_MAX, WINDOW_MAX};
ghost use Rattle.uug_link.specs.declared.phase.Phase.TheVariants.{AwaitsInitA, Closing, Halted, Up};
ghost use Rattle.uug_packet.specs.Field.{field_size};
ghost use Rattle.uug_packet.specs.Packet.{PacketValue, control, init_c};

/// States the limits of a link. No other clause repeats these numbers.
pub fn limits()
    ensures window { WINDOW_MAX ≡ 7 }
    ensures unacked { UNACKED_MAX ≡ WINDOW_MAX }
    ensures timeouts { TIMEOUTS_MAX ≡ 8 }
    ensures sizes { (SIZE_MIN ≡ 32) × (MESSAGE_MAX ≡ 4096) }
    ensures size_codes { SIZE_CODES ≡ 8 }
    ensures entries { ENTRIES_MAX ≡ 64 }
{}

/// States how a link answers each event, and how its phase then moves.
pub fn what_a_link_answers()
    // Up comes from INITC alone, Taken from a data packet, Closed from CLOSE, GaveUp from a timeout.
    ensures answers { (s : State) (e : Event) → MayAnswer (step s e).outcome e }
    // The answer to a packet, a broken one or a timeout says how the phase moves: Up, GaveUp and Closed say that the
    // link has come up or has ended, and no other answer does.
    ensures phases { (s : State) (e : Event) → IsComing e
        → MovesPhase (step s e).outcome s.phase (step s e).state.phase }
    // The calls move the phase.
    ensures begins { (s : State) → IsFresh s → (step s to_begin).state.phase ≡ AwaitsInitA }
    ensures sends { (s : State) (message : List ℕ) → IsUp s
        → (step s (to_send message)).state.phase ≡ Up }
    ensures closes { (s : State) → IsUp s → (step s to_close).state.phase ≡ Closing }
    // A link that has ended answers Halted from then on. It emits and changes nothing.
    ensures ended { (s : State) (e : Event) → s.phase ≡ Halted → step s e ≡ answers_halted s }
    // Only sending a message emits a packet that is marked first.
    ensures firsts { (s : State) (e : Event) → FirstBySend e (step s e).emitted }
    // What this end has announced stays, and on a link that is up so do the size and the window.
    ensures own_stays { (s : State) (e : Event) → (step s e).state.own ≡ s.own }
    ensures size_stays { (s : State) (e : Event) → IsUp s
        → (step s e).state.size_code ≡ s.size_code }
    ensures window_stays { (s : State) (e : Event) → IsUp s → (step s e).state.window ≡ s.window }
{}

/// States the rules of a link that is quiet on repeats, and of one that is not.
pub fn quiet_on_repeats()
    // A link that is not quiet steps by the old rules: the setting then changes nothing.
    ensures plain { (s : State) (e : Event) → IsPlain s → step s e ≡ plain_step s e }
    // Each link's record of rejects stays within its bounds: at most one more than the window that it has announced,
    // and a packet number.
    ensures first { (own : Announced) → KeepsRejects (caller_state own) × KeepsRejects (called_state own) }
    ensures bounds { (s : State) (e : Event) → KeepsRejects s → MayMeet s e
        → KeepsRejects (step s e).state }
{}

/// States the limits on a peer that breaks the rules. It strikes no message except by the number of an outstanding
/// packet. No link comes up with a window larger than one that the peer has announced.
pub fn no_peer_leads_a_link_astray()
    // A packet that acknowledges an outstanding one strikes its message and all before it.
    ensures strikes { (s : State) (p : PacketValue) (y behind : ℕ) → IsUp s → HasNumbers s
        → acknowledgement p ≡ Some y → StandsBehind s y behind
        → (step s (packet_found p)).state.unacked ≡ drop (suc behind) s.unacked }
    // One that acknowledges another, or none, strikes none.
    ensures strays { (s : State) (p : PacketValue) (y : ℕ) → IsUp s → HasNumbers s → y < 8
        → acknowledgement p ≡ Some y → ((behind : ℕ) → StandsBehind s y behind → ⊥)
        → (step s (packet_found p)).state.unacked ≡ s.unacked }
    ensures no_number { (s : State) (p : PacketValue) → acknowledgement p ≡ None
        → (step s (packet_found p)).state.unacked ≡ s.unacked }
    // No packet moves the numbers out of their bounds, or changes the number that the next message gets.
    ensures numbers { (s : State) (p : PacketValue) → HasNumbers s
        → HasNumbers (step s (packet_found p)).state }
    ensures next { (s : State) (p : PacketValue)
        → next_number (step s (packet_found p)).state ≡ next_number s }
    // A link comes up by INITC, with the smaller of that window and of the INITA's before it.
    ensures window { (s : State) (p : PacketValue) → (step s (packet_found p)).outcome ≡ up
        → (y : ℕ) × (p ≡ control (init_c y))
        × IsSmallerOf y s.window (step s (packet_found p)).state.window }
{}

/// States that a message goes out in the smallest field that holds it, whatever size the other end has announced. This
/// holds the first time and each time that it goes out again.
pub fn messages_go_out_in_the_smallest_field()
    ensures smallest { (s : State) (e : Event) → HaveSmallestFields (step s e).emitted }
    ensures holds { (len : ℕ) → len ≤ MESSAGE_MAX → len ≤ field_size (smallest_code len) }
{}

/// States that each packet that a link emits can be written, and so is read back as the same packet. The link must
/// have made a right announcement and meet what it may.
pub fn what_a_link_emits_can_be_written()
    // Each announcement of the program is a right one.
    ensures right { (a : Announce) → IsAnnouncement (announced a) }
    ensures first { (own : Announced) → IsAnnouncement own
        → IsInRange (caller_state own) × IsInRange (called_state own) }
    ensures stays { (s : State) (e : Event) → IsInRange s → MayMeet s e
        → IsInRange (step s e).state }
    ensures emitted { (s : State) (e : Event) → IsInRange s → MayMeet s e
        → AreWellFormed (step s e).emitted }
{}

/// States the invariant of each run of the window machine, for each direction `d` and the opposite one `o`. Whatever
/// was sent, repeated and lost, numbers modulo eight say as much as whole numbers do.
///
/// On the line a number is written modulo eight: as its digit. Numbers with the same digit are equal, or at least
/// eight apart. A receiver sees only data packets from seven before the expected one to six after it, so none that is
/// eight away. Only the expected one has its digit. A sender sees only acknowledgements from the acknowledged number
/// to seven more: eight numbers with eight digits.
pub fn the_window_is_safe()
    // What counts as acknowledged was taken, what was taken was sent, and no more is sent than the window allows.
    ensures counts { Always (λ d o. CountsInOrder d) }
    // The data packets in flight were sent, and are from seven before the one that is expected to six after it.
    ensures numbers { Always (λ d o. NumbersNear d) }
    // The acknowledgements in flight never fall, and lie from what counts as acknowledged to what was taken.
    ensures acks { Always (λ d o. AcksRise d o) }
    // A data packet with the digit of the expected one is therefore that one. The digit of an acknowledgement gives
    // its number: as far ahead of the acknowledged number as the digits are apart.
    ensures number_digits { Always (λ d o.
        EachNumber (λ n. n % 8 ≡ d.taken % 8 → n ≡ d.taken) d.flight) }
    ensures ack_digits { Always (λ d o.
        EachAck (λ a. a ≡ o.acked + (a % 8 + 8 - o.acked % 8) % 8) d.flight) }
{}

/// States that two links run as the window machine, whatever is lost between them. On the line, its numbers and
/// acknowledgements are their digits modulo eight. Each link takes what the other sent, in order and once. Neither has
/// more unacknowledged than the other announced.
pub fn two_links_run_as_the_machine()
    // Each run is one of the machine, whose windows are those that the ends announced.
    ensures machine { (near far : Announced) (ends : Ends) →
        IsWindow near.window → IsWindow far.window → IsRun near far ends →
        (m : Machine) × IsReached far.window near.window m
        × Reads ends.near ends.far m.out × Reads ends.far ends.near m.back }
    // Each end has taken the front of what the other sent.
    ensures front { AlwaysOfTwo (λ e other announced. IsFrontOf e.taken other.sent) }
    // The number of unacknowledged messages at an end is at most what the other announced, before and after it is up
    // too.
    ensures unacked { AlwaysOfTwo (λ e other announced. length e.link.unacked ≤ announced.window) }
    // An end's settings stay: its announcement, and whether it is quiet on repeats.
    ensures own { AlwaysOfTwo (λ e other announced. other.link.own ≡ announced) }
    // From INITA on an end knows the window, and from INITB on the size, that the other announced.
    ensures window { AlwaysOfTwo (λ e other announced.
        KnowsWindow e.link.phase → e.link.window ≡ announced.window) }
    ensures size { AlwaysOfTwo (λ e other announced.
        KnowsSize e.link.phase → e.link.size_code ≡ announced.size_code) }
{}

/// States that each occurrence at two links is a number of moves of the window machine: first those of what comes,
/// then those of what goes out.
///
/// A window packet that is found arrives, at a link that is up. At any other link, and if it is skipped, it is lost.
/// Each window packet that is emitted is put in flight, one by one. It is a new message if the end's caller sends one,
/// and otherwise a repeated message or an acknowledgement. Nothing else moves the machine.
pub fn each_occurrence_is_moves_of_the_machine()
    // The machine at the start reads two first links.
    ensures start { (near far : Announced) (a b : State) → IsFirst near a → IsFirst far b →
        ReadsBoth (first_ends a b) (start far.window near.window) }
    // A machine that reads the ends has allowed moves for what occurs, and then reads the ends as they then are.
    ensures moves { (near far : Announced) (ends : Ends) (o : Occurrence) (m : Machine) →
        IsWindow near.window → IsWindow far.window → IsRun near far ends → MayOccur ends o →
        IsReached far.window near.window m → ReadsBoth ends m →
        (made : List Move) × MovesWith ends o m made }
    // There are no other such moves.
    ensures alone { (near far : Announced) (ends : Ends) (o : Occurrence) (m : Machine)
        (made others : List Move) →
        IsWindow near.window → IsWindow far.window → IsReached far.window near.window m →
        MovesWith ends o m made → MovesWith ends o m others → made ≡ others }
    // So each run is one of the machine from its start, occurrence by occurrence.
    ensures whole { (near far : Announced) (a b : State) (os : List Occurrence) →
        IsWindow near.window → IsWindow far.window → IsFirst near a → IsFirst far b
        → AllMayOccur (first_ends a b) os →
        (made : List (List Move))
        × AllMoveWith (first_ends a b) os (start far.window near.window) made }
{}

/// States how runs of two links are made: from two first links, by one more occurrence or several at one end, and as
/// seen from the other end.
pub fn runs_of_two_links()
    ensures first { (near far : Announced) (a b : State) →
        IsFirst near a → IsFirst far b → IsRun near far (first_ends a b) }
    ensures longer { (near far : Announced) (ends : Ends) (o : Occurrence) →
        IsRun near far ends → MayOccur ends o → IsRun near far (after_occurrence ends o) }
    ensures several { (near far : Announced) (ends : Ends) (hs : List Happening) →
        IsRun near far ends → AllMayHappen ends.near ends.far hs →
        IsRun near far (record ends { near = after_happenings ends.near hs }) }
    ensures from_far { (near far : Announced) (ends : Ends) →
        IsRun near far ends → IsRun far near (seen_from_far ends) }
{}

/// States the place of a packet that is found among those that the other end emitted.
pub fn arrivals()
    ensures same { (p q : PacketValue) → IsTrue (same_packet p q) ↔ (p ≡ q) }
    // The computed place is the least one. There is none only if no place exists.
    ensures place { (p : PacketValue) (emitted : List PacketValue) (passed : ℕ) →
        MatchOption (place_of p emitted passed)
        ((i : ℕ) → passed ≤ i → slice_get emitted i ≢ Some p)
        (λ i. IsPlace p emitted passed i) }
    // An arrival is a number of misses and then a hearing, and makes a run longer.
    ensures happens { (e other : End) (p : PacketValue) (i : ℕ)
        → IsPlace p other.emitted e.passed i →
        AllMayHappen e other (as_happenings p e.passed i)
        × (after_happenings e (as_happenings p e.passed i) ≡ arrived p i e) }
    ensures longer { (near far : Announced) (ends : Ends) (p : PacketValue) (i : ℕ) →
        IsRun near far ends → IsPlace p ends.far.emitted ends.near.passed i →
        IsRun near far (record ends { near = arrived p i ends.near }) }
{}

/// States that each packet arriving in a run of two links, whatever was lost before it, can be read and is not stray.
///
/// A message that was taken therefore counts as acknowledged as soon as one packet after it arrives. An end repeats
/// only what the other still lacks. A clean line needs this to bring both to the end.
pub fn what_two_links_emit_arrives()
    // Each packet that an end has emitted can be written, and is read again as what it is.
    ensures written { AlwaysEmits CanBeWritten }
    // The numbers of both are counts of what was sent, taken and acknowledged.
    ensures counted { AlwaysOfTwo (λ e other announced. AreCounted e other announced.window) }
    // An acknowledgement that arrives at a link that is up counts: the packet after the acknowledged one is then the
    // oldest.
    ensures acknowledges { (near far : Announced) (ends : Ends) (p : PacketValue) (place y : ℕ) →
        IsWindow near.window → IsWindow far.window → IsRun near far ends → IsUp ends.near.link →
        ends.near.passed ≤ place → slice_get ends.far.emitted place ≡ Some p
        → acknowledgement p ≡ Some y →
        (step ends.near.link (packet_found p)).state.oldest ≡ (y + 1) % 8 }
{}

/// States what a line that loses nothing brings between two links that are up. This is why both come to the end of
/// what they have to say.
pub fn a_clean_line_brings_all()
    // A packet that arrives, whatever was lost before it, leaves the others on the way. It is taken if it is the
    // expected one, and its acknowledgement counts. A link that is not quiet on repeats always answers data.
    ensures hears { (near far : Announced) (ends : Ends) (p : PacketValue) (ps : List PacketValue)
        (place : ℕ) →
        IsWindow near.window → IsWindow far.window → IsRun near far ends → IsUp ends.near.link
        → IsTalk p →
        AreComing ends.far ends.near (p ∷ ps) → IsPlace p ends.far.emitted ends.near.passed place →
        AreComing ends.far (arrived p place ends.near) ps
        × Hears p ends.near.link (arrived p place ends.near).link
        (emitted_by ends.near.link (packet_found p)) }
    // So where the packets on the way bring and tell all, they do so behind it, in both directions.
    ensures still { (p : PacketValue) (before after : State) (answer : List PacketValue) →
        Hears p before after answer → StillBring p before after answer }
    // A message that is sent is brought by its packet, and a timeout brings again what is outstanding.
    ensures sends { (s : State) (message : List ℕ) → IsUp s → s.expected < 8 →
        Sends s (step s (to_send message)).state (emitted_by s (to_send message)) }
    ensures repeats { (s : State) → IsUp s → s.oldest < 8 → s.expected < 8
        → length s.unacked ≤ WINDOW_MAX →
        s.timeouts + 1 < TIMEOUTS_MAX
        → Repeats s (step s timed_out).state (emitted_by s timed_out) }
{}
