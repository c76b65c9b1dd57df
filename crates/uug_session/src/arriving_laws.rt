//! Laws of how an end handles incoming bytes. The functions do nothing.
ghost use Rattle.std.specs.Prelude.{◌≡◌, ◌≤◌, ℕ, List, [], ◌++◌, length};
ghost use Rattle.uug_link.specs.Entries.{EntryValue};
ghost use Rattle.uug_packet.specs.Bytes.{AreBytes};
ghost use Rattle.uug_reader.specs.Cut.{Item};
ghost use Rattle.uug_reader.specs.Scan.{Finds};
ghost use Rattle.uug_talk.specs.StreamTexts.{StandBefore};
ghost use Rattle.uug_session.specs.Arriving.{Buffered, Receiver, holds, takes_all, takes_piece, takes_up, takes_up_to, then_takes};
ghost use Rattle.uug_session.specs.EndStep.{Stage, linked};
ghost use Rattle.uug_session.specs.Engine.{HasFailed};
ghost use Rattle.uug_session.specs.Finding.{LeavesFewer, finding, found_with};
ghost use Rattle.uug_session.specs.Found.{FindsItems, FindsTexts, Hails};
ghost use Rattle.uug_conversation.specs.Holdings.{Holdings, Kept};
ghost use Rattle.uug_session.specs.Node.{ItemValue, NodeState, item_size, searched};
ghost use Rattle.uug_session.specs.NodeArriving.{GoesOn, IsAtRest, TakesAll};
ghost use Rattle.uug_session.specs.NodeCalls.{Beside, HaveNoTimeout, Make, NodeCall, ShowsWhatIsFound, all_offered};
ghost use Rattle.uug_session.specs.NodeSteps.{GoesThrough, comings_of, with_entries};
ghost use Rattle.uug_session.specs.Sessions.{HoldsNothing};
ghost use Rattle.uug_session.specs.ShownItems.{IsShown, ItemFound, NothingFound};
ghost use Rattle.uug_session.specs.TextsFound.{Taken};

/// States that an item found in some bytes is also found if more bytes follow. If nothing is found, the waiting bytes
/// go on as the whole does. Each item takes a byte.
pub fn what_is_found_stays()
    ensures more { (stage : Stage) (bytes more : List ℕ)
        → finding stage (bytes ++ more) ≡ found_with stage more (finding stage bytes) }
    ensures fewer { (stage : Stage) (bytes : List ℕ) → LeavesFewer (finding stage bytes) bytes }
{}

/// States that bytes in pieces are handled as if they came at once. The same items are found, in the same order, and
/// the same bytes wait. This holds for any receiver of the found items.
pub fn bytes_come_in_any_pieces<X>()
    ensures pieces { (t : Receiver X) (piece more : List ℕ) (h : Buffered X)
        → takes_piece t (piece ++ more) h ≡ then_takes t more (takes_piece t piece h) }
    // Each item takes a byte, so no more items are found than bytes are held.
    ensures enough { (t : Receiver X) (n : ℕ) (h : Buffered X) → length h.held ≤ n → takes_up_to n t h
        ≡ takes_all t h }
    // The next item found is handled first, and then the others.
    ensures first { (t : Receiver X) (bytes : List ℕ) (x : X)
        → takes_all t (holds t bytes x) ≡ takes_up (takes_all t) t
        (finding (t.stage_of x) bytes) x }
{}

/// States that a node takes the same from two pieces in a row as from one joined piece. This holds after a piece that
/// was taken whole. It also holds after a piece for which memory was refused and whose rest is then handed in.
pub fn pieces_arrive_as_one()
    ensures whole { (h : Holdings) (kept later_kept last_kept : List Kept)
        (most faults middle last : ℕ)
        (piece more : List ℕ) (a b c : NodeState) → faults ≤ middle → middle ≤ last
        → TakesAll h kept later_kept (HasFailed most faults middle) piece a b
        → TakesAll h later_kept last_kept (HasFailed most middle last) more b c
        → TakesAll h kept last_kept (HasFailed most faults last) (piece ++ more) a c }
    ensures unfinished { (h : Holdings) (kept later_kept last_kept : List Kept)
        (most faults middle last : ℕ)
        (used more : List ℕ) (a b c : NodeState) → faults ≤ middle → middle ≤ last
        → GoesOn h kept later_kept (HasFailed most faults middle) used a b
        → TakesAll h later_kept last_kept (HasFailed most middle last) more b c
        → TakesAll h kept last_kept (HasFailed most faults last) (used ++ more) a c }
{}

/// States that a node goes through steps, whatever calls are made, in whatever order. One kind of step is a timeout.
/// In the other, bytes come: all bytes between two timeouts are handled as if they had come at once, in whatever
/// pieces they came, and whatever was refused memory. The emitted entries are those added to the outbox, whatever was
/// cleared since. Without a timeout there is one step.
pub fn calls_take_what_comes()
    ensures goes_through { (h : Holdings) (most : ℕ) (calls : List NodeCall)
        (added : List EntryValue) (old new : Beside)
        → ShowsWhatIsFound old.node → Make h most calls added old new
        → GoesThrough h most (comings_of calls) added old new }
    ensures goes_on { (h : Holdings) (most : ℕ) (calls : List NodeCall)
        (added : List EntryValue) (old new : Beside) → HaveNoTimeout calls
        → ShowsWhatIsFound old.node → Make h most calls added old new
        → GoesOn h old.kept new.kept (HasFailed most old.faults new.faults) (all_offered calls)
        (with_entries [] old.node) (with_entries added new.node) }
    // If nothing more is found in the held bytes, everything found was handled.
    ensures all { (h : Holdings) (kept later_kept : List Kept) (most faults later : ℕ)
        (bytes : List ℕ) (a b : NodeState)
        → GoesOn h kept later_kept (HasFailed most faults later) bytes a b → IsAtRest b
        → TakesAll h kept later_kept (HasFailed most faults later) bytes a b }
    ensures rests { (n : NodeState) (entries : List EntryValue) → IsAtRest n
        → IsAtRest (with_entries entries n) }
    ensures shows { (h : Holdings) (most : ℕ) (calls : List NodeCall)
        (added : List EntryValue) (old new : Beside)
        → ShowsWhatIsFound old.node → Make h most calls added old new
        → ShowsWhatIsFound new.node }
    ensures at_first { (n : NodeState) → HoldsNothing n → ShowsWhatIsFound n }
{}

/// States that the item shown after a search is the next one found in the bytes that the node held, and the only one.
/// If it shows none, nothing was whole, or the first text was too long.
pub fn a_search_shows_what_is_found()
    ensures shown { (n : NodeState) (item : ItemValue) → IsShown item (searched n)
        → ItemFound item n (searched n) }
    ensures one { (n : NodeState) (item other : ItemValue) → IsShown item (searched n)
        → IsShown other (searched n)
        → item ≡ other }
    ensures none { (n : NodeState) → item_size (searched n) ≡ 0 → NothingFound n (searched n) }
    ensures rests { (n : NodeState) → item_size (searched n) ≡ 0 → IsAtRest (searched n) }
{}

/// States that the items found do not depend on the pieces in which bytes come. In the greeting they are the texts of
/// all bytes. After it they are the items of the scan, from the first byte after the last text on. This holds for any
/// receiver of the found items.
pub fn what_stands_there_is_found<X>()
    ensures texts { (t : Receiver X) (came piece : List ℕ) (before : List (List ℕ)) (h : Buffered X)
        → Hails (t.stage_of h.end) → Taken before came h.held
        → FindsTexts t (came ++ piece) before h.end (takes_piece t piece h) }
    ensures items { (t : Receiver X) (came piece : List ℕ) (before : List Item) (h : Buffered X)
        → AreBytes (came ++ piece) → t.stage_of h.end ≡ linked → Finds came before h.held
        → FindsItems t (came ++ piece) before h.end (takes_piece t piece h) }
{}

/// States that the rest after the texts and items found in bytes consists of bytes. The same holds for the part in
/// front of others.
pub fn bytes_are_left()
    ensures texts { (texts : List (List ℕ)) (rest stream : List ℕ) → StandBefore texts rest stream
        → AreBytes stream
        → AreBytes rest }
    ensures items { (s others : List ℕ) (items : List Item) → Finds s items others → AreBytes s
        → AreBytes others }
    ensures front { (front others : List ℕ) → AreBytes (front ++ others) → AreBytes front }
{}
