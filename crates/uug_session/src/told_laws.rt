//! Laws that two numbers describe an end of a conversation. The functions do nothing.
ghost use Rattle.std.specs.Prelude.{◌≡◌, ℕ, List, [], false};
ghost use Rattle.uug_conversation.specs.declared.job.Job.{Job};
ghost use Rattle.uug_conversation.specs.Count.{count_keeper};
ghost use Rattle.uug_conversation.specs.EarlierJobs.{behind};
ghost use Rattle.uug_conversation.specs.Holdings.{Kept};
ghost use Rattle.uug_conversation.specs.Jobs.{at_start};
ghost use Rattle.uug_conversation.specs.Party.{Party};
ghost use Rattle.uug_conversation.specs.DialogueState.{end_keeper, opened_with, taking, unopened, with_first_sent};
ghost use Rattle.uug_session.specs.Told.{count_of_talker, talk_behind};
ghost use Rattle.uug_conversation.specs.declared.side.Side.{Side};
ghost use Rattle.uug_session.specs.TwoEnds.{IsTold, Talker, after_act, first_talker, sends, takes};
ghost use Rattle.uug_conversation.specs.View.{conversation_view, party};

/// States that the record that an end keeps of a conversation moves as the end does, whatever it has brought from
/// earlier sessions.
pub fn an_end_keeps_what_it_brought()
    ensures opens { (me : Side) (p : Party) (struck failed : List Job) (kept : List Kept)
        → opened_with me p.holdings p.measure
        (unopened (behind struck failed (at_start p.jobs [] [])) kept)
        ≡ talk_behind struck failed kept p.measure (first_talker me p) }
    ensures takes { (p : Party) (t : Talker) (message : List ℕ) (struck failed : List Job)
        (kept : List Kept)
        → taking p.holdings message (talk_behind struck failed kept p.measure t)
        ≡ talk_behind struck failed kept p.measure (after_act (takes message) p t) }
    ensures sends { (p : Party) (t : Talker) (struck failed : List Job) (kept : List Kept)
        → with_first_sent (talk_behind struck failed kept p.measure t)
        ≡ talk_behind struck failed kept p.measure (after_act sends p t) }
{}

/// States that two numbers describe an end of a conversation: how many messages it has sent and taken. They say what
/// it says next, whether all is over, and whether HY was sent or taken. The messages that it has taken fitted their
/// turns.
pub fn an_end_is_told_by_two_numbers()
    ensures next { (me : Side) (a b : Party) (own others : Talker) (struck failed : List Job)
        (kept : List Kept)
        → IsTold me a b own others
        → (end_keeper me (party me a b).holdings).next
        (talk_behind struck failed kept (party me a b).measure own)
        ≡ (count_keeper (conversation_view me a b)).next (count_of_talker own) }
    ensures over { (me : Side) (a b : Party) (own others : Talker) (struck failed : List Job)
        (kept : List Kept)
        → IsTold me a b own others
        → (end_keeper me (party me a b).holdings).is_over
        (talk_behind struck failed kept (party me a b).measure own)
        ≡ (count_keeper (conversation_view me a b)).is_over (count_of_talker own) }
    ensures parted { (me : Side) (a b : Party) (own others : Talker) (struck failed : List Job)
        (kept : List Kept)
        → IsTold me a b own others
        → (end_keeper me (party me a b).holdings).has_parted
        (talk_behind struck failed kept (party me a b).measure own)
        ≡ (count_keeper (conversation_view me a b)).has_parted (count_of_talker own) }
    ensures not_bad { (me : Side) (a b : Party) (own others : Talker) (struck failed : List Job)
        (kept : List Kept)
        → IsTold me a b own others
        → (end_keeper me (party me a b).holdings).is_bad
        (talk_behind struck failed kept (party me a b).measure own) ≡ false }
{}
