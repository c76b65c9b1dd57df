//! Laws over the definition of the greeting, and of a node in it. The functions do nothing.
ghost use Rattle.std.specs.Prelude.{◌≡◌, ◌≢◌, ◌⊎◌, ◌++◌, ℕ, Bool, true, false, List, [], Option};
ghost use Rattle.uug_link.specs.Announced.{Announced};
ghost use Rattle.uug_link.specs.Entries.{EntryValue};
ghost use Rattle.uug_talk.specs.Name.{IsName};
ghost use Rattle.uug_session.specs.declared.greeting.Greeting.{Greeting};
ghost use Rattle.uug_session.specs.declared.greeting.Greeted.TheVariants.{GoesOn, LinkBegins, Ended};
ghost use Rattle.uug_session.specs.declared.greeting.AwaitedText.TheVariants.{CallerName};
ghost use Rattle.uug_session.specs.declared.end.End.{End};
ghost use Rattle.uug_session.specs.declared.end.End.TheVariants.{WrongName, Refused, BadSequence};
ghost use Rattle.uug_session.specs.Arriving.{takes_piece};
ghost use Rattle.uug_session.specs.EndStep.{Identity, begins_session};
ghost use Rattle.uug_session.specs.Engine.{BeginsSession};
ghost use Rattle.uug_session.specs.Greeting.{first_greeting, greeting_at_first, is_expected, number_by, risen};
ghost use Rattle.uug_session.specs.GreetingCalls.{GreetsAt, GreetsThrough};
ghost use Rattle.uug_conversation.specs.Holdings.{Holdings};
ghost use Rattle.uug_conversation.specs.Jobs.{Lists};
ghost use Rattle.uug_session.specs.Node.{NodeState};
ghost use Rattle.uug_session.specs.NodeArriving.{node_taker};
ghost use Rattle.uug_session.specs.NodeCalls.{Beside, Make, NodeCall};
ghost use Rattle.uug_session.specs.NodeGreeting.{GreetsStill, HasBegunLink, HasEnded, HasHeard, come_to, greeted_by, holding_nothing};
ghost use Rattle.uug_session.specs.Sessions.{HoldsNothing};
ghost use Rattle.uug_conversation.specs.DialogueState.{DialogueState};
ghost use Rattle.uug_conversation.specs.declared.side.Side.{Side};
ghost use Rattle.uug_conversation.specs.declared.side.Side.TheVariants.{Caller, Called};
ghost use Rattle.uug_session.specs.WholeGreeting.{GreetingRun, GreetsBy, Greets, GreetEachOther, BecomeOf, IsNumber, IsOver, IsRefusal, greeting_run, has_let_in, whole_greeting, run_behind};

/// States that the delivered bytes determine an end's whole greeting, and a greeting from any stage on.
pub fn one_greeting()
    ensures whole { (side : Side) (me peer : List ℕ) (number : Option ℕ) (delivered : List ℕ)
        → (behind : List ℕ) × Greets side me peer number delivered
        (whole_greeting side me peer number delivered) behind }
    ensures only_whole { (side : Side) (me peer : List ℕ) (number : Option ℕ) (delivered : List ℕ)
        (run : GreetingRun)
        (behind : List ℕ)
        → Greets side me peer number delivered run behind
        → run ≡ whole_greeting side me peer number delivered }
    ensures one_rest_of_whole { (side : Side) (me peer : List ℕ) (number : Option ℕ)
        (delivered : List ℕ) (run : GreetingRun)
        (behind other : List ℕ)
        → Greets side me peer number delivered run behind
        → Greets side me peer number delivered run other
        → behind ≡ other }
    ensures some { (me peer : List ℕ) (number : Option ℕ) (g : Greeting) (delivered : List ℕ)
        → (behind : List ℕ) × GreetsBy me peer number g delivered
        (greeting_run me peer number g delivered) behind }
    ensures only { (me peer : List ℕ) (number : Option ℕ) (g : Greeting) (delivered : List ℕ)
        (run : GreetingRun)
        (behind : List ℕ)
        → GreetsBy me peer number g delivered run behind
        → run ≡ greeting_run me peer number g delivered }
    ensures one_rest { (me peer : List ℕ) (number : Option ℕ) (g : Greeting) (delivered : List ℕ)
        (run : GreetingRun)
        (behind other : List ℕ)
        → GreetsBy me peer number g delivered run behind
        → GreetsBy me peer number g delivered run other → behind
        ≡ other }
{}

/// States that a greeting does not depend on the pieces in which the bytes come. If it goes on, more bytes have the
/// same effect on its present state, after the bytes that are left. If it is over, more bytes are only left with them.
/// Both hold for the whole greeting of an end, and for a greeting from any stage on.
pub fn greeting_in_pieces()
    ensures whole_goes_on { (side : Side) (me peer : List ℕ) (number : Option ℕ) (next : Greeting)
        (delivered more rest left : List ℕ)
        (run later : GreetingRun) → Greets side me peer number delivered run rest → run.greeted
        ≡ GoesOn next
        → GreetsBy me peer run.number next (rest ++ more) later left
        → Greets side me peer number (delivered ++ more) (run_behind run later) left }
    ensures whole_over { (side : Side) (me peer : List ℕ) (number : Option ℕ)
        (delivered more rest : List ℕ) (run : GreetingRun)
        → Greets side me peer number delivered run rest → IsOver run.greeted
        → Greets side me peer number (delivered ++ more) run (rest ++ more) }
    ensures goes_on { (me peer : List ℕ) (number : Option ℕ) (g next : Greeting)
        (delivered more rest left : List ℕ)
        (run later : GreetingRun)
        → GreetsBy me peer number g delivered run rest → run.greeted ≡ GoesOn next
        → GreetsBy me peer run.number next (rest ++ more) later left
        → GreetsBy me peer number g (delivered ++ more) (run_behind run later) left }
    ensures over { (me peer : List ℕ) (number : Option ℕ) (g : Greeting)
        (delivered more rest : List ℕ)
        (run : GreetingRun)
        → GreetsBy me peer number g delivered run rest → IsOver run.greeted
        → GreetsBy me peer number g (delivered ++ more) run (rest ++ more) }
{}

/// States how two ends greet each other over a clean line. If each expects the other, and the called end keeps no
/// number or the caller's, both begin the link. Both then have the next number, if they keep one. If the caller has
/// called another end than it meant, it ends, and the called end still waits for the caller's name. If the called end
/// does not expect the caller, or the number that it sends or leaves out, both end. In every case but the first, both
/// numbers stay.
pub fn ends_that_expect_each_other_begin()
    ensures begin { (caller called : List ℕ) (m n : Option ℕ)
        (at_caller at_called : GreetingRun)
        → IsName caller → IsName called → IsNumber m → IsNumber n → is_expected n m ≡ true
        → GreetEachOther caller called called caller m n at_caller at_called
        → BecomeOf at_caller at_called LinkBegins LinkBegins (risen m) (risen n) }
    ensures wrong_called { (caller meant called expected : List ℕ) (m n : Option ℕ)
        (at_caller at_called : GreetingRun)
        → IsName caller → IsName called → IsNumber m → IsNumber n → called ≢ meant
        → GreetEachOther caller meant called expected m n at_caller at_called
        → BecomeOf at_caller at_called (Ended WrongName) (GoesOn (first_greeting CallerName)) m n }
    ensures wrong_caller { (caller called expected : List ℕ) (m n : Option ℕ)
        (at_caller at_called : GreetingRun)
        → IsName caller → IsName called → IsNumber m → IsNumber n → caller ≢ expected
        → GreetEachOther caller called called expected m n at_caller at_called
        → BecomeOf at_caller at_called (Ended Refused) (Ended Refused) m n }
    ensures wrong_number { (caller called : List ℕ) (m n : Option ℕ)
        (at_caller at_called : GreetingRun)
        → IsName caller → IsName called → IsNumber m → IsNumber n → is_expected n m ≡ false
        → GreetEachOther caller called called caller m n at_caller at_called
        → BecomeOf at_caller at_called (Ended BadSequence) (Ended BadSequence) m n }
    ensures greet { (caller meant called expected : List ℕ) (m n : Option ℕ) → IsName caller
        → IsName called
        → IsNumber m → IsNumber n
        → (at_caller : GreetingRun) × (at_called : GreetingRun)
        × GreetEachOther caller meant called expected m n at_caller at_called }
{}

/// States when a number rises in a greeting, whatever bytes come. A called end's rises exactly if it says that the
/// caller is let in, and once. A caller's rises at most once. Either has risen when the link begins. A refused call
/// leaves it as it was.
pub fn a_number_rises_where_a_call_is_let_in()
    ensures called { (me peer : List ℕ) (number : Option ℕ) (delivered behind : List ℕ)
        (run : GreetingRun)
        → Greets Called me peer number delivered run behind
        → run.number ≡ number_by (has_let_in run.says) number }
    ensures caller { (me peer : List ℕ) (number : Option ℕ) (delivered behind : List ℕ)
        (run : GreetingRun)
        → Greets Caller me peer number delivered run behind
        → (run.number ≡ number) ⊎ (run.number ≡ risen number) }
    ensures begun { (side : Side) (me peer : List ℕ) (number : Option ℕ)
        (delivered behind : List ℕ) (run : GreetingRun)
        → Greets side me peer number delivered run behind → run.greeted ≡ LinkBegins
        → run.number ≡ risen number }
    ensures refused { (side : Side) (me peer : List ℕ) (number : Option ℕ)
        (delivered behind : List ℕ) (run : GreetingRun)
        (how : End) → Greets side me peer number delivered run behind → run.greeted ≡ Ended how
        → IsRefusal how
        → run.number ≡ number }
{}

/// States that a node, from the start of a session on, greets as the whole greeting says. That greeting follows from
/// its side, its name, the other's, the number that it keeps, and all bytes that came, in whatever pieces. The node
/// has said the same texts, and nothing else as long as it greets. It waits for the same text, or the session has
/// ended the same way. It keeps the same number, and holds what waits of the bytes after the last text used. If the
/// greeting leads to the link, the link's begin follows the texts, and exactly the bytes after the last text are
/// handled on it.
pub fn a_node_greets()
    // Each call, whatever it is, is a step of the table: with a text that it handles, with one that is too long, with
    // a timeout, or with nothing. The end's answer is what is added to the outbox, and the texts are the first of all
    // bytes that came. This holds from the start of a session on.
    ensures steps { (h : Holdings) (most : ℕ) (id : Identity) (calls : List NodeCall)
        (texts : List (List ℕ)) (came : List ℕ) (added : List EntryValue) (old new : Beside)
        (g : Greeting)
        → GreetsAt id g texts came old.node → Make h most calls added old new
        → GreetsThrough h most id calls texts came added old new g }
    ensures at_first { (id : Identity) (own : Announced) (number : Option ℕ) (l : Lists)
        (entries : List EntryValue) (n : NodeState)
        → BeginsSession id own number l entries n.engine → HoldsNothing n
        → GreetsAt id (greeting_at_first id.side) [] [] n }
    ensures goes_on { (h : Holdings) (id : Identity) (own : Announced) (number : Option ℕ)
        (entries : List EntryValue)
        (came behind : List ℕ)
        (now : NodeState) (run : GreetingRun) (g : Greeting)
        → HasHeard h id own number entries came now
        → Greets id.side id.me id.peer number came run behind
        → run.greeted ≡ GoesOn g
        → GreetsStill id own entries run.says run.number g behind now }
    ensures ended { (h : Holdings) (id : Identity) (own : Announced) (number : Option ℕ)
        (entries : List EntryValue)
        (came behind : List ℕ)
        (now : NodeState) (run : GreetingRun) (how : End)
        → HasHeard h id own number entries came now
        → Greets id.side id.me id.peer number came run behind
        → run.greeted ≡ Ended how
        → HasEnded entries run.says run.number how now }
    ensures link { (h : Holdings) (id : Identity) (own : Announced) (number : Option ℕ)
        (entries : List EntryValue)
        (came behind : List ℕ)
        (now : NodeState) (run : GreetingRun)
        → (m : HasHeard h id own number entries came now)
        → Greets id.side id.me id.peer number came run behind
        → run.greeted ≡ LinkBegins
        → HasBegunLink m run.says run.number behind }
    // The same as one equation, whatever the node keeps and its spool's device does. All bytes from the start lead to
    // the same as the bytes left do after the whole greeting.
    ensures comes { (h : Holdings) (id : Identity) (own : Announced) (number : Option ℕ)
        (talk : DialogueState)
        (failures : List Bool)
        (came behind : List ℕ) (run : GreetingRun)
        → Greets id.side id.me id.peer number came run behind
        → takes_piece (node_taker h id) came (holding_nothing
        (come_to (begins_session id own number talk) failures))
        ≡ takes_piece (node_taker h id) behind (holding_nothing
        (come_to (greeted_by id own run talk) failures)) }
{}
