//! Laws of the mail of a system. A call does nothing: its contract is the law.
ghost use Rattle.std.specs.Prelude.{◌≡◌, ◌++◌, ℕ, Bool, List, Some, take, true};
ghost use Rattle.uug_conversation.specs.declared.job.Job.{Job};
ghost use Rattle.uug_store.specs.OpenJobs.{HoldsAtLeast, jobs_left};
ghost use Rattle.uug_taylor_text.specs.DiskOrder.{replaced_ops};
ghost use Rattle.uug_taylor_text.specs.SpoolNames.{data_spot, spot};
ghost use Rattle.uug_taylor_text.specs.Standings.{AfterEach, IsAsBefore, IsBeforeOrWhole, Standing};
ghost use Rattle.uug_taylor_text.specs.StoredSafely.{is_place};
ghost use Rattle.uug_taylor_text.specs.declared.spool_names.Room.TheVariants as rooms;
ghost use Rattle.uug_taylor_text.specs.declared.spool_names.Spot.{Spot};
ghost use Rattle.uug_taylor_queue.specs.OpenLines.{jobs_of};
ghost use Rattle.uug_taylor_queue.specs.OverOrder.{has_copy, has_line, lines_after, over_ops};
ghost use Rattle.uug_taylor_queue.specs.Placing.{again_ops, unmark_ops};
ghost use Rattle.uug_taylor_queue.specs.declared.marks.Marks.{Marks};
ghost use Rattle.uug_taylor_queue.specs.declared.open_line.OpenLine.{OpenLine};
ghost use Rattle.uug_taylor_queue.specs.declared.open_line.Outcome.{Outcome};
ghost use Rattle.uug_taylor_queue.specs.declared.open_line.Outcome.TheVariants.{Done};

/// States that removing the lines of jobs that are over removes these jobs, each once, and no others.
pub fn each_line_goes_with_its_job()
    ensures { (struck failed : List Job) (lines : List OpenLine)
        → jobs_of (lines_after struck failed lines) ≡ jobs_left (struck ++ failed) (jobs_of lines) }
{}

/// States that the store of these lines holds the jobs that a session offers: the first jobs of the lines.
pub fn what_is_offered_stands_there()
    ensures { (lines : List OpenLine) (count : ℕ)
        → HoldsAtLeast (Some (jobs_of lines)) (take count (jobs_of lines)) }
{}

/// States that open lines survive a power cut at any point of the removal of others. While lines whose jobs are done
/// are removed, the copy of each line that stays is as it was. Its C. file is as it was too, also while lines whose
/// jobs have failed are removed.
pub fn what_is_open_stays()
    ensures copies { (over others : List OpenLine) (copy : List ℕ) (s : Standing) → has_copy copy others ≡ true
        → AfterEach (IsAsBefore s (data_spot copy)) (over_ops Done over others) s }
    ensures files { (outcome : Outcome) (over others : List OpenLine) (file : List ℕ) (s : Standing)
        → has_line file others ≡ true
        → AfterEach (IsAsBefore s (spot rooms.Commands file)) (over_ops outcome over others) s }
{}

/// States that a received file never appears in part, wherever a power cut stops its storing. While the markers of
/// earlier files are removed and the file is stored, its place holds what it held before, or the complete file. The
/// same holds if the file is dropped because it was received before the session.
pub fn what_comes_is_whole()
    ensures { (marks : Marks) (again : Bool) (name bytes : List ℕ) (place : Spot) (s : Standing)
        → is_place place.room ≡ true
        → AfterEach (IsBeforeOrWhole s place bytes)
        (unmark_ops marks place.room name ++ again_ops again bytes place) s }
{}

/// States that a C. file is rewritten as a whole. Wherever a power cut stops this, the file is as it was, or the new
/// one, complete.
pub fn what_is_written_anew_is_whole()
    ensures { (file text : List ℕ) (s : Standing)
        → AfterEach (IsBeforeOrWhole s (spot rooms.Commands file) text)
        (replaced_ops (spot rooms.Commands file) text) s }
{}
