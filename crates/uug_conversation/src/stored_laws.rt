//! Laws of the entries that the jobs of two ends have brought to their stores. The functions do nothing.
ghost use Rattle.std.specs.Prelude.{◌≡◌, ◌≤◌, ℕ, List, [], ◌++◌, Contains};
ghost use Rattle.uug_conversation.specs.declared.job.Job.{Job};
ghost use Rattle.uug_conversation.specs.Holdings.{Holdings, Kept};
ghost use Rattle.uug_conversation.specs.OwnEntries.{OwnEntries, HasOwnEntries};
ghost use Rattle.uug_conversation.specs.Party.{Party};
ghost use Rattle.uug_conversation.specs.declared.side.Side.{Side};
ghost use Rattle.uug_conversation.specs.declared.side.Side.TheVariants.{Caller, Called};
ghost use Rattle.uug_conversation.specs.View.{conversation_view, floor, kept_after, lists_after};

/// States that a job is struck only after its file was stored, whatever the two ends are. The caller `a` has taken `j`
/// messages, the called end `b` has taken `k`, and neither has taken more than the other has said by then. Each struck
/// job then has an entry of its own at the end that received its file.
pub fn struck_jobs_have_own_entries()
    ensures called_store { (a b : Party) (j k : ℕ)
        → j ≤ floor k (conversation_view Called a b) → k ≤ floor j (conversation_view Caller a b)
        → OwnEntries a.holdings b.holdings a.jobs (lists_after Caller a b j).struck
        (lists_after Called a b k).struck
        (kept_after k (conversation_view Called a b)) }
    ensures caller_store { (a b : Party) (j k : ℕ)
        → j ≤ floor k (conversation_view Called a b) → k ≤ floor j (conversation_view Caller a b)
        → OwnEntries b.holdings a.holdings b.jobs (lists_after Called a b k).struck
        (lists_after Caller a b j).struck
        (kept_after j (conversation_view Caller a b)) }
{}

/// States the same by places: a function gives each struck job the place of its entry, another one for each job.
pub fn own_entries_have_places()
    ensures { (h others : Holdings) (jobs givers receivers : List Job) (entries : List Kept)
        → OwnEntries h others jobs givers receivers entries → HasOwnEntries h others givers receivers entries }
{}

/// States that own entries of several sessions, each with jobs of its own to do, are own entries of all of them.
pub fn own_entries_of_sessions()
    ensures joined { (h others : Holdings)
        (jobs later_jobs givers receivers later_givers later_receivers : List Job)
        (entries later_entries : List Kept)
        → OwnEntries h others jobs givers receivers entries
        → OwnEntries h others later_jobs later_givers later_receivers later_entries
        → OwnEntries h others (jobs ++ later_jobs) (givers ++ later_givers) (receivers ++ later_receivers)
        (entries ++ later_entries) }
    // The giver's jobs matter only in that those with an entry are among them.
    ensures more_jobs { (h others : Holdings) (jobs more givers receivers : List Job) (entries : List Kept)
        → ((job : Job) → Contains jobs job → Contains more job)
        → OwnEntries h others jobs givers receivers entries → OwnEntries h others more givers receivers entries }
{}

/// States that no job is struck and no file is stored before anything of the other end was taken.
pub fn nothing_is_struck_at_first()
    ensures struck { (me : Side) (a b : Party) → (lists_after me a b 0).struck ≡ [] }
    ensures stored { (me : Side) (a b : Party) → kept_after 0 (conversation_view me a b) ≡ [] }
{}
