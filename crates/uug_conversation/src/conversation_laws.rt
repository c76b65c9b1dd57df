//! Laws that say what a conversation is, in its users' terms. The functions do nothing.
ghost use Rattle.std.specs.Prelude.{◌≡◌, ℕ, List, [], ◌∷◌, ◌++◌, All};
ghost use Rattle.uug_packet.specs.Bytes.{AreBytes};
ghost use Rattle.uug_conversation.specs.Alternation.{Alternate, BeginsWithCommand};
ghost use Rattle.uug_conversation.specs.Choice.{choice};
ghost use Rattle.uug_conversation.specs.Conversation.{conversation};
ghost use Rattle.uug_conversation.specs.Entries.{KeepsWell};
ghost use Rattle.uug_conversation.specs.HeldBytes.{HoldsBytes};
ghost use Rattle.uug_conversation.specs.Holdings.{Holdings, Kept};
ghost use Rattle.uug_conversation.specs.Jobs.{at_start, pending};
ghost use Rattle.uug_conversation.specs.Offers.{commands_of, first_of, hanging_up, hang_up_answers, offered, until_hang_up};
ghost use Rattle.uug_conversation.specs.OneEnd.{Act, after_acts, link_up};
ghost use Rattle.uug_conversation.specs.Party.{HasNames, Party};
ghost use Rattle.uug_conversation.specs.ReadBack.{EachTurn};
ghost use Rattle.uug_conversation.specs.Sharing.{AreShared};
ghost use Rattle.uug_conversation.specs.declared.side.Side.{Side};
ghost use Rattle.uug_conversation.specs.declared.side.Side.TheVariants.{Caller, Called};
ghost use Rattle.uug_conversation.specs.View.{conversation_view, lists_after, own_messages, party};
ghost use Rattle.uug_conversation.specs.declared.job.Job.{Job};
ghost use Rattle.uug_talk.specs.declared.order.Order.TheVariants.{HangUp};

/// States that no job is offered twice. Each end asks for each of its jobs that can be offered, in their order, and
/// then hangs up. A called end with no such job is never asked to hang up.
pub fn each_job_is_offered_once()
    ensures caller { (a b : Party)
        → commands_of Caller (conversation a b) ≡ offered a.holdings a.jobs ++ HangUp ∷ [] }
    ensures called { (a b : Party)
        → commands_of Called (conversation a b) ≡ until_hang_up (offered b.holdings b.jobs) }
    // a master's next command is the first of these
    ensures next { (h : Holdings) (jobs : List Job)
        → (choice h jobs).next ≡ first_of (offered h jobs) }
{}

/// States that the roles are exchanged, by HN, exactly if the called end has a job to offer. In the end both agree to
/// hang up.
pub fn roles_are_exchanged_for_a_job()
    ensures { (a b : Party)
        → hang_up_answers (conversation a b) ≡ hanging_up (offered b.holdings b.jobs) }
{}

/// States that the caller speaks first, and that the two then take turns. There are two exceptions: a file follows its
/// RY, and a command follows the same end's CY, CN5 or HN.
pub fn speakers_alternate()
    ensures first { (a b : Party) → BeginsWithCommand Caller (conversation a b) }
    ensures then { (a b : Party) → Alternate (conversation a b) }
{}

/// States that each kept file was said in its turn, and that a job asked for it. It is kept under the name where the
/// job lands at its keeper, with the mode and bytes in the giver's holdings.
pub fn entries_are_asked_for()
    ensures { (a b : Party) → EachTurn (KeepsWell a b) (conversation a b) }
{}

/// States that each job of an end is in exactly one list, as often as it was given. Each list has its jobs in the
/// order in which they were given.
pub fn jobs_are_in_one_list()
    // whatever the other end says, and in whatever order the end sends and takes; jobs of earlier sessions are among
    // them
    ensures always { (me : Side) (p : Party) (struck failed : List Job) (kept : List Kept) (acts : List Act)
        → let l = (after_acts p.holdings (link_up me p struck failed kept) acts).talk.machine.lists in
        AreShared ((struck ++ failed) ++ p.jobs) (pending l) l.struck l.failed }
    // and in a conversation
    ensures told { (me : Side) (a b : Party) (k : ℕ) → let jobs = (party me a b).jobs in
        let l = lists_after me a b k in AreShared jobs (pending l) l.struck l.failed }
    // so a property of all jobs, such as that their names are names, holds for all jobs of each list
    ensures names { (jobs pending struck failed : List Job) → AreShared jobs pending struck failed
        → All HasNames jobs
        → All HasNames pending × All HasNames struck × All HasNames failed }
{}

/// States that the two ends say only bytes, if the names of their jobs are names and their files hold bytes.
pub fn messages_are_bytes()
    ensures { (me : Side) (a b : Party) → All HasNames a.jobs → All HasNames b.jobs
        → HoldsBytes a.holdings
        → HoldsBytes b.holdings → All AreBytes (own_messages (conversation_view me a b)) }
{}
