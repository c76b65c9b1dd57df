//! Laws of two ends, each described by the events that happen to it. The functions do nothing.
ghost use Rattle.std.specs.Prelude.{◌≡◌, List, []};
ghost use Rattle.uug_conversation.specs.Holdings.{Kept};
ghost use Rattle.uug_conversation.specs.OwnEntries.{HasOwnEntries};
ghost use Rattle.uug_conversation.specs.Sides.{AtBoth, at};
ghost use Rattle.uug_conversation.specs.Turns.{other};
ghost use Rattle.uug_conversation.specs.declared.job.Job.{Job};
ghost use Rattle.uug_conversation.specs.declared.side.Side.{Side};
ghost use Rattle.uug_session.specs.Beginnings.{AreSound, EndBeginning};
ghost use Rattle.uug_pair.specs.Gone.{FileWasKept, IsGone};
ghost use Rattle.uug_pair.specs.TwoCourses.{EventAt, KeepsPromises, NoneIsFooled};
ghost use Rattle.uug_pair.specs.TwoNodes.{HaveRun, Stands, holdings_at, kept_at, kept_by_both, lists_of, struck_at};
ghost use Rattle.uug_session.specs.Node.{NodeState};

/// States what two ends promise, each at any line, with any device and spool, whatever happens. Suppose that in some
/// order of the events neither was fooled. Then each end has taken the first messages that the other has sent, no job
/// was struck before its file was stored, complete, and no end had more unacknowledged packets than the other
/// announced.
pub fn two_ends_keep_their_promises()
    ensures { (ends : AtBoth EndBeginning) (order : List EventAt) → AreSound ends
        → NoneIsFooled ends order → KeepsPromises ends order }
{}

/// States that two nodes led by some events, each with its spool, are the two ends that these events describe. If in
/// some order of the events neither was fooled, no job of theirs was struck before its file was stored, complete, at
/// the end to which it went.
pub fn two_nodes_keep_their_promises()
    ensures stand { (ends : AtBoth EndBeginning) (order : List EventAt) (kept : AtBoth (List Kept))
        (nodes : AtBoth NodeState) → HaveRun ends order kept nodes → (side : Side)
        → Stands ends order kept nodes side }
    ensures stored { (ends : AtBoth EndBeginning) (order : List EventAt) (kept : AtBoth (List Kept))
        (nodes : AtBoth NodeState) → AreSound ends → NoneIsFooled ends order
        → HaveRun ends order kept nodes → (giver : Side)
        → HasOwnEntries (at giver ends).holdings (at (other giver) ends).holdings
        (struck_at ends nodes giver) (struck_at ends nodes (other giver))
        (kept_at ends kept (other giver)) }
{}

/// States that the file of a job was kept, complete, if the job is gone from an end's pending jobs and did not fail. It
/// was kept in the session, under the name where it lands: by the other end's spool, or for a Request by the end's own.
/// None of the end's jobs may have been struck before the session, and in some order of the events at both ends neither
/// may have been fooled.
pub fn the_file_of_a_job_that_is_gone_was_kept()
    ensures { (ends : AtBoth EndBeginning) (order : List EventAt) (kept : AtBoth (List Kept))
        (nodes : AtBoth NodeState) → AreSound ends → NoneIsFooled ends order
        → HaveRun ends order kept nodes → (side : Side) (job : Job)
        → (at side ends).lists.struck ≡ []
        → IsGone job (at side ends).lists (lists_of (at side nodes))
        → FileWasKept (holdings_at ends) (kept_by_both ends kept) side job }
{}
