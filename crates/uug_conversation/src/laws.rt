//! Laws of the conversation of two ends and of the one-sided machine. The functions do nothing.
ghost use Rattle.std.specs.Prelude.{◌≡◌, ◌≢◌, ◌↔◌, ℕ, ◌+◌, ◌*◌, ◌<◌, ◌≤◌, Bool, true, false, List, [], length, Option, Some, None, Ok, Err};
ghost use Rattle.uug_conversation.specs.Comparing.{AllFit, TellsTruly, told_awaited};
ghost use Rattle.uug_conversation.specs.Conversation.{conversation};
ghost use Rattle.uug_conversation.specs.CutSessions.{EachLeavesMore, Session};
ghost use Rattle.uug_conversation.specs.DialogueState.{DialogueState, replied, taking};
ghost use Rattle.uug_conversation.specs.Holdings.{File, Holdings, Kept, to_give};
ghost use Rattle.uug_conversation.specs.Jobs.{Lists, moved_once, pass};
ghost use Rattle.uug_conversation.specs.Left.{GoesOnBehind, IsLeft, left_of};
ghost use Rattle.uug_conversation.specs.Partial.{Key, Partial};
ghost use Rattle.uug_conversation.specs.Runs.{progress_at};
ghost use Rattle.uug_conversation.specs.Machine.{State, gathered_with, goes_on, is_dropped, kind_awaited, on_past_limit, on_request_answer, on_text, opening, out_of_turn, reply_to, send_verdict, step};
ghost use Rattle.uug_conversation.specs.OneEnd.{Act, AllAllowed, FollowsConversation, after_acts, link_up};
ghost use Rattle.uug_conversation.specs.Party.{Party, IsSound, Suit};
ghost use Rattle.uug_conversation.specs.PlainMachine.{AreOff, awaits_plainly, plain_opening, plain_reply_to, plain_step};
ghost use Rattle.uug_conversation.specs.ReadBack.{EachTurn, IsReadBack};
ghost use Rattle.uug_conversation.specs.declared.side.Side.{Side};
ghost use Rattle.uug_conversation.specs.Turns.{other};
ghost use Rattle.uug_conversation.specs.View.{party};
ghost use Rattle.uug_conversation.specs.declared.job.Job.{Job};
ghost use Rattle.uug_conversation.specs.declared.awaits.Awaits.TheVariants.{GivenFileDone, Order, RequestAnswer, SendAnswer, SentFileDone};
ghost use Rattle.uug_conversation.specs.Told.{fits, heard, told_of, told_with};
ghost use Rattle.uug_talk.specs.Digests.{digest_of, told_by_answer, told_by_order};
ghost use Rattle.uug_talk.specs.declared.file_digest.FileDigest.{FileDigest};
ghost use Rattle.uug_talk.specs.declared.answer.Answer.TheVariants.{GiveYes, SendLater};
ghost use Rattle.uug_talk.specs.declared.order.Order.{Order as Command};
ghost use Rattle.uug_talk.specs.declared.order.Order.TheVariants.{Send};
ghost use Rattle.uug_talk.specs.Lenient.{or_wished};
ghost use Rattle.uug_conversation.specs.declared.verdict.Verdict.TheVariants.{Yes};
ghost use Rattle.uug_talk.specs.declared.error.BadText.{BadText};
ghost use Rattle.uug_talk.specs.Answer.{answer_of};
ghost use Rattle.uug_talk.specs.Gathering.{limit_of};
ghost use Rattle.uug_talk.specs.Order.{order_of};

use crate::queue::JOBS_MAX;

/// States the limit of jobs as a number.
pub fn limits()
    ensures jobs { JOBS_MAX ≡ 1024 }
{}

/// States that a spool's file may be given exactly if it has at most as many bytes as its end allows, and that it is
/// then given unchanged. With one byte more, it is as if the spool had no such file.
pub fn what_may_be_given()
    ensures given { (h : Holdings) (name : List ℕ) (file : File)
        → (to_give h name ≡ Some file) ↔ ((h.file name ≡ Some file)
        × (length file.bytes ≤ h.limit)) }
    ensures too_large { (h : Holdings) (name : List ℕ) (file : File) → h.file name ≡ Some file
        → h.limit < length file.bytes → to_give h name ≡ None }
{}

/// States that a text which a message takes past its limit fits no turn, whatever the end awaits. The same holds for a
/// file, unless the end is lenient. Then the rest of the file may come, and the file is refused at its end.
pub fn what_is_too_long_fits_no_turn()
    ensures { (h : Holdings) (s : State) (message : List ℕ) → let g = gathered_with s message in
        limit_of g.kind < length g.bytes
        → step h s message ≡ on_past_limit h.lenient (kind_awaited s.awaits) s.awaits s.lists }
{}

/// States that a message fits no turn if it should give a file's result before that file was sent whole. No other
/// message comes too early.
pub fn what_comes_early_fits_no_turn()
    ensures sent { (h : Holdings) (message : List ℕ) (talk : DialogueState)
        → talk.machine.awaits ≡ SentFileDone → talk.waiting ≢ []
        → taking h message talk
        ≡ replied talk.measure talk.waiting talk.kept (out_of_turn talk.machine.lists) }
    ensures given { (h : Holdings) (message : List ℕ) (talk : DialogueState)
        → talk.machine.awaits ≡ GivenFileDone → talk.waiting ≢ []
        → taking h message talk
        ≡ replied talk.measure talk.waiting talk.kept (out_of_turn talk.machine.lists) }
    ensures none_waits { (h : Holdings) (message : List ℕ) (talk : DialogueState)
        → talk.waiting ≡ []
        → taking h message talk
        ≡ replied talk.measure talk.waiting talk.kept (step h talk.machine message) }
    ensures others { (h : Holdings) (message : List ℕ) (talk : DialogueState)
        → talk.machine.awaits ≢ SentFileDone → talk.machine.awaits ≢ GivenFileDone
        → taking h message talk
        ≡ replied talk.measure talk.waiting talk.kept (step h talk.machine message) }
{}

/// States that an end that is not lenient ends if it can't read a text, and takes SN8 as any other refusal for now. It
/// reads no M after a mode, refuses no file for its announced size, and awaits the rest of no file.
pub fn lenient_is_a_setting()
    ensures unread { (h : Holdings) (text : List ℕ) (fault : BadText) (l : Lists) → h.lenient ≡ false
        → order_of text ≡ Err fault → on_text h Order text l ≡ out_of_turn l }
    ensures held { (h : Holdings) (text : List ℕ) (l : Lists) → h.lenient ≡ false
        → answer_of text ≡ Ok SendLater
        → on_text h SendAnswer text l ≡ goes_on h (moved_once pass l) [] }
    ensures wish { (h : Holdings) (text : List ℕ) (l : Lists) → h.lenient ≡ false
        → on_text h RequestAnswer text l
        ≡ on_request_answer h (heard h.digests (told_by_answer text)) (answer_of text) l }
    ensures long { (h : Holdings) (s : State) (message : List ℕ) → let g = gathered_with s message in
        h.lenient ≡ false → limit_of g.kind < length g.bytes
        → step h s message ≡ out_of_turn s.lists }
    ensures large { (h : Holdings) (target : List ℕ) (told : Option FileDigest) → h.lenient ≡ false
        → send_verdict h target told ≡ h.verdict target }
    ensures opens { (side : Side) (h : Holdings) (l : Lists)
        → is_dropped (opening side h l).state.awaits ≡ false }
    ensures drops_none { (h : Holdings) (s : State) (message : List ℕ) → h.lenient ≡ false
        → is_dropped s.awaits ≡ false → is_dropped (step h s message).state.awaits ≡ false }
{}

/// States that a file kept by an end has the digest that was announced for it, if any, whatever the end receives. The
/// announced digest was read from the command or the answer that was taken.
pub fn kept_files_fit()
    // A file fits an announced digest exactly if it is the digest of its bytes.
    ensures fits { (told : FileDigest) (bytes : List ℕ)
        → (fits (Some told) bytes ≡ true) ↔ (told ≡ digest_of bytes) }
    ensures kept { (h : Holdings) (s : State) (message : List ℕ) (told : FileDigest)
        → told_awaited s.awaits ≡ Some told → AllFit told (step h s message).keeps }
    ensures sent { (h : Holdings) (text : List ℕ) (l : Lists) (told : FileDigest)
        → told_awaited (on_text h Order text l).state.awaits ≡ Some told
        → heard h.digests (told_by_order text) ≡ Some told }
    ensures asked { (h : Holdings) (text : List ℕ) (l : Lists) (told : FileDigest)
        → told_awaited (on_text h RequestAnswer text l).state.awaits ≡ Some told
        → heard h.digests (told_by_answer text) ≡ Some told }
    // And each that was read is awaited, if the file is to come.
    ensures sent_awaited { (h : Holdings) (text : List ℕ) (l : Lists) (source target user : List ℕ)
        (temp : Option (List ℕ)) (mode : ℕ)
        → order_of text ≡ Ok (Send source target user temp mode)
        → send_verdict h (h.landing source target) (heard h.digests (told_by_order text)) ≡ Yes
        → told_awaited (on_text h Order text l).state.awaits
        ≡ heard h.digests (told_by_order text) }
    ensures asked_awaited { (h : Holdings) (text : List ℕ) (l : Lists) (mode : ℕ)
        → or_wished (answer_of text) h.lenient text ≡ Ok (GiveYes mode)
        → told_awaited (on_text h RequestAnswer text l).state.awaits
        ≡ heard h.digests (told_by_answer text) }
{}

/// States that a digest announced with a command, or before a file, is that of the file that the spool gives, whatever
/// the end receives.
pub fn what_is_told_is_so()
    ensures answered { (h : Holdings) (s : State) (message : List ℕ)
        → TellsTruly h (step h s message).says }
    ensures opened { (side : Side) (h : Holdings) (l : Lists)
        → TellsTruly h (opening side h l).says }
{}

/// States that an end without the setting announces no digest, and ignores those it receives.
pub fn digests_are_a_setting()
    ensures ordered { (h : Holdings) (order : Command) → h.digests ≡ false
        → told_with h order ≡ None }
    ensures given { (h : Holdings) (file : Option File) → h.digests ≡ false
        → told_of h.digests file ≡ None }
    ensures heard { (h : Holdings) (told : Option FileDigest) → h.digests ≡ false
        → heard h.digests told ≡ None }
{}

/// States that an end with every setting off follows a table of its own from its opening on, which knows no settings.
/// Such an end is not lenient, announces and reads no digests, and gives each file now or never.
pub fn an_end_with_all_settings_off_goes_by_the_plain_table()
    ensures opens { (side : Side) (h : Holdings) (l : Lists) → AreOff h
        → opening side h l ≡ plain_opening side h l }
    ensures steps { (h : Holdings) (s : State) (message : List ℕ) → AreOff h
        → awaits_plainly s.awaits ≡ true → step h s message ≡ plain_step h s message }
    // A node takes a message by the same table, whether or not all that it said before was sent.
    ensures replies { (h : Holdings) (none_waits : Bool) (s : State) (message : List ℕ)
        → AreOff h → awaits_plainly s.awaits ≡ true
        → reply_to h none_waits s message ≡ plain_reply_to h none_waits s message }
    // It stays in that table: the state that follows is one of the table's.
    ensures first { (side : Side) (h : Holdings) (l : Lists)
        → awaits_plainly (plain_opening side h l).state.awaits ≡ true }
    ensures stays { (h : Holdings) (none_waits : Bool) (s : State) (message : List ℕ)
        → awaits_plainly s.awaits ≡ true
        → awaits_plainly (plain_reply_to h none_waits s message).state.awaits ≡ true }
{}

/// States that every text of a conversation may be cut into messages, and is read as it was said. No file is too
/// large for either end. Here and below, what an end holds of the other's files of earlier sessions are fronts of
/// them, and the other gives no file that is too large for it.
pub fn said_is_read_back()
    ensures { (a b : Party) → Suit a b → IsSound a → IsSound b
        → (me : Side)
        → EachTurn (λ t. IsReadBack (party me a b).holdings.limit t.said) (conversation a b) }
{}

/// States that one end is where the conversation says. It doesn't know the other's jobs or holdings, and sends and
/// takes in any order that a link allows. This holds for both ends, every two parties, and whatever it brought from
/// earlier sessions.
pub fn an_end_follows_the_conversation()
    ensures { (a b : Party) → Suit a b → IsSound a → IsSound b → (me : Side) (struck failed : List Job) (kept : List Kept)
        (acts : List Act) → let p = party me a b in let first = link_up me p struck failed kept in
        AllAllowed me a b first acts
        → FollowsConversation me a b struck failed kept (after_acts p.holdings first acts) }
{}

/// States what is left of a file if the session ends now: a front of the file that a Send job of the other end gives.
/// So what an end holds of the other's files stays fronts of them, from session to session.
pub fn what_is_left_is_a_front()
    ensures { (a b : Party) → Suit a b → IsSound a → IsSound b → (me : Side) (struck failed : List Job)
        (kept : List Kept) (acts : List Act) → let p = party me a b in let first = link_up me p struck failed kept in
        AllAllowed me a b first acts
        → IsLeft (party (other me) a b) p.holdings
        (left_of p.holdings (after_acts p.holdings first acts).talk.machine) }
{}

/// States that what has come of a file is not sent again. If the next session begins with what is left at the end of
/// this one, the giver sends just the bytes behind it.
pub fn what_came_is_not_sent_again()
    ensures { (a b : Party) → Suit a b → IsSound a → IsSound b → (me : Side) (k : ℕ) (ps : List Partial) (p : Partial)
        → let giver = (party (other me) a b).holdings in let taker = (party me a b).holdings in
        taker.partials ≡ Some ps → left_of taker (progress_at me a b k).state ≡ Some p
        → GoesOnBehind giver taker p }
{}

/// States how many sessions a file takes at most, however each is cut off. If each of them brings at least one new message
/// of it, `size` bytes long unless the file ends with it, a file of N bytes has come after N / `size` sessions, rounded up.
pub fn a_file_takes_so_many_sessions()
    ensures { (taker : Side) (key : Key) (file : File) (size : ℕ) (sessions : List Session) → 0 < size
        → EachLeavesMore taker key file size 0 sessions
        → length sessions * size < length file.bytes + size }
{}
