//! Laws of one end, whatever the other is. The functions do nothing.
ghost use Rattle.std.specs.Prelude.{◌≡◌, ◌≤◌, ℕ, List, [], All, Option, length};
ghost use Rattle.uug_link.specs.Announced.{Announced};
ghost use Rattle.uug_link.specs.InRange.{IsAnnouncement};
ghost use Rattle.uug_link.specs.State.{IsStarting};
ghost use Rattle.uug_conversation.specs.declared.job.Job.{Job};
ghost use Rattle.uug_session.specs.declared.phase.Phase.TheVariants.{Starting};
ghost use Rattle.uug_conversation.specs.EarlierJobs.{behind, state_behind, reply_behind};
ghost use Rattle.uug_session.specs.EndStep.{EndEvent, EndState, Identity, begins_session, end_step, rises_at};
ghost use Rattle.uug_session.specs.Greeting.{number_by};
ghost use Rattle.uug_conversation.specs.Holdings.{Holdings};
ghost use Rattle.uug_session.specs.InRange.{CanBeWritten, IsEndInRange, MayFind};
ghost use Rattle.uug_conversation.specs.Jobs.{Lists, at_start};
ghost use Rattle.uug_conversation.specs.Keeper.{Keeper};
ghost use Rattle.uug_conversation.specs.Machine.{State, step, opening};
ghost use Rattle.uug_conversation.specs.Party.{Party};
ghost use Rattle.uug_session.specs.Phases.{EndsWithItsLink, phase_at};
ghost use Rattle.uug_conversation.specs.DialogueState.{DialogueState, end_keeper};
ghost use Rattle.uug_conversation.specs.declared.side.Side.{Side};
ghost use Rattle.uug_conversation.specs.View.{conversation_view, own_messages, party};

/// States that jobs struck or failed in earlier sessions do not change what an end does. They stay in front.
pub fn earlier_jobs_change_nothing()
    ensures start { (jobs struck failed : List Job)
        → behind struck failed (at_start jobs [] []) ≡ at_start jobs struck failed }
    ensures opening { (side : Side) (h : Holdings) (l : Lists) (struck failed : List Job)
        → opening side h (behind struck failed l) ≡ reply_behind struck failed (opening side h l) }
    ensures step { (h : Holdings) (s : State) (message : List ℕ) (struck failed : List Job)
        → step h (state_behind struck failed s) message
        ≡ reply_behind struck failed (step h s message) }
{}

/// States that no message of an end is longer than the size that the other end announced.
pub fn own_messages_fit()
    ensures { (me : Side) (a b : Party)
        → All (λ message.
        length message ≤ (party me a b).measure.size) (own_messages (conversation_view me a b)) }
{}

/// States that each packet that an end emits can be written, and so is read back as the same packet. The end must have
/// made a right announcement.
pub fn what_an_end_emits_can_be_written()
    ensures first { (id : Identity) (own : Announced) (number : Option ℕ) (talk : DialogueState)
        → IsAnnouncement own
        → IsEndInRange id.side (begins_session id own number talk).state
        × All CanBeWritten (begins_session id own number talk).emitted }
    ensures stays { (side : Side) (h : Holdings) (id : Identity) (event : EndEvent)
        (e : EndState DialogueState)
        → IsEndInRange id.side e → MayFind event
        → IsEndInRange id.side (end_step (end_keeper side h) id event e).state }
    ensures emitted { (side : Side) (h : Holdings) (id : Identity) (event : EndEvent)
        (e : EndState DialogueState)
        → IsEndInRange id.side e → MayFind event
        → All CanBeWritten (end_step (end_keeper side h) id event e).emitted }
{}

/// States that the session of an end is over if its link has ended, whatever keeps the conversation.
pub fn a_session_ends_with_its_link<C>()
    ensures first { (id : Identity) (own : Announced) (number : Option ℕ) (c : C)
        → EndsWithItsLink (begins_session id own number c).state }
    ensures stays { (k : Keeper C) (id : Identity) (event : EndEvent) (e : EndState C)
        → EndsWithItsLink e
        → EndsWithItsLink (end_step k id event e).state }
    // So an end that is starting has a link that has not come up yet.
    ensures starting { (e : EndState C) → EndsWithItsLink e
        → phase_at e.stage e.link.phase ≡ Starting
        → IsStarting e.link.phase }
{}

/// States that the number of an end's conversations rises if a text of the greeting lets the caller in. Everything
/// else leaves it as it was: the link, timeouts and a lost line. This holds for whatever keeps the conversation.
pub fn a_number_rises_in_the_greeting_alone<C>()
    ensures first { (id : Identity) (own : Announced) (number : Option ℕ) (c : C)
        → (begins_session id own number c).state.number ≡ number }
    ensures step { (k : Keeper C) (id : Identity) (event : EndEvent) (e : EndState C)
        → (end_step k id event e).state.number
        ≡ number_by (rises_at id e.number e.stage event) e.number }
{}
