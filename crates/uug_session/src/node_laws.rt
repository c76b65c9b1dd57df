//! Laws of a node's calls. The functions do nothing.
ghost use Rattle.std.specs.Prelude.{◌≡◌, ℕ, List, Option};
ghost use Rattle.uug_link.specs.Announced.{Announced};
ghost use Rattle.uug_link.specs.Entries.{EntryValue};
ghost use Rattle.uug_conversation.specs.declared.job.Job.{Job};
ghost use Rattle.uug_session.specs.Compared.{Compares};
ghost use Rattle.uug_session.specs.Engine.{BeginsSession, Does, EngineState, HasFailed, all_ahead, bare, end_of, entry_of, hung_up, stage_late, with_stage};
ghost use Rattle.uug_session.specs.EndStep.{EndEvent, Identity, begins_session, line_lost, time_ran_out, unmoved};
ghost use Rattle.uug_conversation.specs.Holdings.{Holdings, Kept};
ghost use Rattle.uug_conversation.specs.Jobs.{Lists};
ghost use Rattle.uug_session.specs.Node.{NodeState, effect_of, struck_jobs};
ghost use Rattle.uug_session.specs.NodeArriving.{GoesOn, TakesAll};
ghost use Rattle.uug_session.specs.NumberStanding.{KeepsNumber, NumberStands};
ghost use Rattle.uug_conversation.specs.OwnRequests.{KeepsWhatItAskedFor};
ghost use Rattle.uug_conversation.specs.Sharing.{HaveSameJobs, OnlyMoves, all_jobs};
ghost use Rattle.uug_conversation.specs.DialogueState.{unopened};
ghost use Rattle.uug_conversation.specs.DialogueValue.{dialogue_has_parted, dialogue_of};

/// States that a call described without the spool is the end's step with the spool beside it.
pub fn calls_are_steps()
    ensures late { (h : Holdings) (kept : List Kept) (before after : EngineState)
        → Does (stage_late before.number before.identity
        (dialogue_has_parted before.dialogue) before.stage before.link before.dialogue)
        (bare after) before after
        → Does (effect_of h kept time_ran_out before) (end_of h kept after) before after }
    ensures lost { (h : Holdings) (kept : List Kept) (e : EngineState)
        → effect_of h kept line_lost e
        ≡ unmoved (end_of h kept (with_stage (hung_up (dialogue_has_parted e.dialogue) e.stage) e)) }
    ensures begins { (h : Holdings) (kept : List Kept) (id : Identity) (own : Announced)
        (number : Option ℕ) (l : Lists)
        (entries : List EntryValue) (after : EngineState)
        → BeginsSession id own number l entries after
        → end_of h kept after ≡ (begins_session id own number (unopened l kept)).state }
{}

/// States that the jobs of the three lists together stay the same, each as often as it was given. This holds whatever
/// calls are made to a node, and however many sessions it has.
pub fn jobs_stay_together()
    // An event only moves some from one list to another.
    ensures event { (h : Holdings) (kept : List Kept) (event : EndEvent) (e : EngineState)
        → OnlyMoves e.dialogue.machine.lists (effect_of h kept event e).state.keeper.machine.lists }
    ensures moved { (before after : Lists) → OnlyMoves before after → HaveSameJobs before after }
    // The same holds for all that is found in bytes that come, in whatever pieces.
    ensures goes_on { (h : Holdings) (kept kept_after : List Kept) (most faults later : ℕ)
        (bytes : List ℕ)
        (before after : NodeState)
        → GoesOn h kept kept_after (HasFailed most faults later) bytes before after
        → HaveSameJobs before.engine.dialogue.machine.lists after.engine.dialogue.machine.lists }
    ensures taken { (h : Holdings) (kept kept_after : List Kept) (most faults later : ℕ)
        (bytes : List ℕ)
        (before after : NodeState)
        → TakesAll h kept kept_after (HasFailed most faults later) bytes before after
        → HaveSameJobs before.engine.dialogue.machine.lists after.engine.dialogue.machine.lists }
    // The next session begins with the same ones.
    ensures again { (l : Lists) → all_jobs (all_ahead l) ≡ all_jobs l }
{}

/// States that the files an end has kept stay in front, whatever the other end is and does. Each Request job that it
/// strikes has an entry of its own in the files kept since.
pub fn struck_requests_were_kept()
    // Each event that happens to an end.
    ensures event { (h : Holdings) (kept : List Kept) (event : EndEvent) (e : EngineState)
        → KeepsWhatItAskedFor h e.dialogue.machine.lists.struck
        (effect_of h kept event e).state.keeper.machine.lists.struck
        kept (effect_of h kept event e).state.keeper.kept }
    // All that is found in bytes that come, in whatever pieces.
    ensures goes_on { (h : Holdings) (kept kept_after : List Kept) (most faults later : ℕ)
        (bytes : List ℕ)
        (before after : NodeState)
        → GoesOn h kept kept_after (HasFailed most faults later) bytes before after
        → KeepsWhatItAskedFor h (struck_jobs before) (struck_jobs after) kept kept_after }
    ensures taken { (h : Holdings) (kept kept_after : List Kept) (most faults later : ℕ)
        (bytes : List ℕ)
        (before after : NodeState)
        → TakesAll h kept kept_after (HasFailed most faults later) bytes before after
        → KeepsWhatItAskedFor h (struck_jobs before) (struck_jobs after) kept kept_after }
    // It holds from one call to the next: if nothing is struck and nothing kept, and if one call follows another.
    ensures same { (h : Holdings) (struck struck_after : List Job) (kept kept_after : List Kept)
        → struck_after ≡ struck → kept_after ≡ kept
        → KeepsWhatItAskedFor h struck struck_after kept kept_after }
    ensures later { (h : Holdings) (struck struck_then struck_after : List Job)
        (kept kept_then kept_after : List Kept)
        → KeepsWhatItAskedFor h struck struck_then kept kept_then
        → KeepsWhatItAskedFor h struck_then struck_after kept_then kept_after
        → KeepsWhatItAskedFor h struck struck_after kept kept_after }
    // The next session begins with what was struck.
    ensures again { (l : Lists) → (all_ahead l).struck ≡ l.struck }
{}

/// States that each message that a node takes keeps digests true, whatever comes. If a file's digest was announced,
/// the kept file has that digest. A digest that the node announces is that of the file that its spool gives.
pub fn kept_files_fit()
    // Each event that happens to an end.
    ensures event { (h : Holdings) (kept : List Kept) (event : EndEvent) (e : EngineState)
        → Compares e.identity.side h (dialogue_of h kept e.dialogue)
        (effect_of h kept event e).state.keeper }
    // All that is found in bytes that come, in whatever pieces.
    ensures taken { (h : Holdings) (kept kept_after : List Kept) (most faults later : ℕ)
        (bytes : List ℕ)
        (before after : NodeState)
        → TakesAll h kept kept_after (HasFailed most faults later) bytes before after
        → Compares before.engine.identity.side h (dialogue_of h kept before.engine.dialogue)
        (dialogue_of h kept_after after.engine.dialogue) }
{}

/// States that, from the start of its session, an end's number stays until the caller is let in, or hears that it is.
/// Then it is the next number. This holds whatever calls are made. If the call was refused, the number at the
/// session's end is the old one.
pub fn a_number_stands_as_the_session_does()
    ensures begins { (id : Identity) (own : Announced) (number : Option ℕ) (l : Lists)
        (entries : List EntryValue) (after : EngineState)
        → BeginsSession id own number l entries after
        → NumberStands number after.stage after.number }
    // Each event that happens to an end.
    ensures event { (h : Holdings) (kept : List Kept) (event : EndEvent) (e : EngineState)
        (number : Option ℕ) → NumberStands number e.stage e.number
        → NumberStands number (effect_of h kept event e).state.stage
        (effect_of h kept event e).state.number }
    // All that is found in bytes that come, in whatever pieces.
    ensures taken { (h : Holdings) (kept kept_after : List Kept) (most faults later : ℕ)
        (bytes : List ℕ) (before after : NodeState)
        → TakesAll h kept kept_after (HasFailed most faults later) bytes before after
        → KeepsNumber before.engine after.engine }
    ensures late { (before after : EngineState)
        → Does (stage_late before.number before.identity
        (dialogue_has_parted before.dialogue) before.stage before.link before.dialogue)
        (bare after) before after → KeepsNumber before after }
    ensures lost { (e : EngineState)
        → KeepsNumber e (with_stage (hung_up (dialogue_has_parted e.dialogue) e.stage) e) }
{}
