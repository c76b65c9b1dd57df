//! Laws of what this crate reads and writes. A call does nothing: its contract is the law.
ghost use Rattle.std.specs.Prelude.{◌≡◌, ◌<◌, ◌≤◌, ◌-◌, ◌++◌, ◌∷◌, [], ℕ, List, length, All, Ok, Some};
ghost use Rattle.uug_conversation.specs.declared.job.Job.{Job};
ghost use Rattle.uug_conversation.specs.declared.queue.TheConstants.{JOBS_MAX};
ghost use Rattle.uug_store.specs.declared.number_text.TheConstants.{NUMBER_LINE_MAX};
ghost use Rattle.uug_conversation.specs.Jobs.{Lists, pending};
ghost use Rattle.uug_store.specs.JobsText.{IsPlainJob, IsQueueOf, jobs_of, jobs_text};
ghost use Rattle.uug_store.specs.OpenJobs.{Holds, jobs_left, open_in, times};
ghost use Rattle.uug_store.specs.Queueing.{appended};

/// States the maximum number of bytes in the line of a number.
pub fn limits()
    ensures number_line { NUMBER_LINE_MAX ≡ 11 }
{}

/// States that the text of a list of jobs is read back as the same list, if there are at most `JOBS_MAX` jobs, and none
/// has a copy.
pub fn written_jobs_are_read()
    ensures { (jobs : List Job) → length jobs ≤ JOBS_MAX → All IsPlainJob jobs
        → jobs_of (jobs_text jobs) ≡ Ok jobs }
{}

/// States that each job that is over is removed once, and every other job is left as often as before.
pub fn each_job_is_taken_out_once()
    ensures { (over jobs : List Job) (job : Job)
        → times job (jobs_left over jobs) ≡ times job jobs - times job over }
{}

/// States that the file of an end's jobs holds exactly the jobs that were read from it.
pub fn the_jobs_that_were_read_stand_there()
    ensures { (text : List ℕ) (queue : Lists) → IsQueueOf text queue
        → Holds (open_in (Some text)) (pending queue) }
{}

/// States that a text of jobs with the line of one more job appended is read as the same jobs and then that job, if
/// there were fewer than `JOBS_MAX` jobs, and the job has no copy.
pub fn what_is_queued_is_read()
    ensures { (text : List ℕ) → (jobs : List Job) → (job : Job) → jobs_of text ≡ Ok jobs
        → length jobs < JOBS_MAX → IsPlainJob job
        → jobs_of (text ++ appended text job) ≡ Ok (jobs ++ job ∷ []) }
{}
