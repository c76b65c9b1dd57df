ghost use Rattle.std.specs.Prelude.{◌≡◌, ◌++◌, IfErr, OnErr, OnOk};
ghost use Rattle.uug_store.specs.Notices.{TellsSome, also_told};
ghost use Rattle.uug_store.specs.OpenJobs.{IsTextSettledOrNot, open_in, text_left};
ghost use Rattle.uug_store.specs.TextFiles.{IsReadFault};

use crate::folder::FolderFailed;
use crate::job_store::JobStore;
use crate::job_texts::JobTexts;
use crate::meanwhile::text_without;
use std::alloc::Allocator;
use uug_session::Job;
use uug_stream::ToolFault;

/// The files of an end's jobs, with the text of the waiting ones as it was when the session began.
#[derive(Drop)]
pub struct JobsFile<J, A: Allocator> {
    pub file: J,
    /// The text that was read from it.
    pub before: Vec<u8, A>,
}

#[tactic(auto, using(crate::proofs::OpenJobsLemmas::text_is_settled, crate::proofs::OpenJobsLemmas::is_settled_or_not))]
impl<J: JobTexts, A: Allocator> JobStore for JobsFile<J, A> {
    ghost open_jobs = { λ jobs. open_in (J.text jobs.file) };

    ghost told = { λ jobs. J.told jobs.file };

    ghost fault_count = { λ jobs. J.fault_count jobs.file };

    fn settle<B: Allocator + Copy>(
        &mut self,
        alloc: B,
        struck: &[Job],
        failed: &[Job],
        notice: &[u8],
    ) -> Result<(), ToolFault> {
        let settled = settle_text(alloc, &mut self.file, struck, failed, notice);
        self.file.unlock();
        settled
    }
}

/// Removes these jobs from the present text of the waiting ones: for each job, the first line that is this job. All
/// other lines stay, in their order. Before that, the notices of failed jobs are appended, and the struck ones are noted
/// as done. A text that stays the same is not written. It stays locked.
pub fn settle_text<J: JobTexts, B: Allocator + Copy>(
    alloc: B,
    file: &mut J,
    struck: &[Job],
    failed: &[Job],
    notice: &[u8],
) -> Result<(), ToolFault>
    ensures ok { OnOk result (J.text file.new
        ≡ text_left (struck.now ++ failed.now) (J.text file.old)) }
    ensures told { OnOk result (J.told file.new ≡ also_told notice.now (J.told file.old)) }
    ensures err { OnErr result (IsTextSettledOrNot (struck.now ++ failed.now) notice.now
        (J.text file.old) (J.text file.new) (J.told file.old) (J.told file.new)) }
    ensures calm { OnOk result (J.fault_count file.new ≡ J.fault_count file.old) }
    ensures fault { IfErr result (λ fault.
        IsReadFault fault (J.fault_count file.old) (J.fault_count file.new)) }
{
    let now = file.read(alloc)?;
    let left = text_without(alloc, struck, failed, now.as_slice())?;
    file.note_done(alloc, struck)?;
    tell_some(file, notice)?;
    if left.as_slice() == now.as_slice() {
        return Ok(());
    }
    match file.replace(left.as_slice()) {
        Ok(()) => Ok(()),
        Err(_) => Err(ToolFault::Device),
    }
}

/// Appends these notices of failed jobs, if there are any.
fn tell_some<J: JobTexts>(file: &mut J, notice: &[u8]) -> Result<(), ToolFault>
    ensures ok { OnOk result (J.told file.new ≡ also_told notice.now (J.told file.old)) }
    ensures same { J.text file.new ≡ J.text file.old }
    ensures err { OnErr result (TellsSome notice.now (J.told file.old) (J.told file.new)) }
    ensures calm { OnOk result (J.fault_count file.new ≡ J.fault_count file.old) }
    ensures fault { IfErr result (λ fault.
        IsReadFault fault (J.fault_count file.old) (J.fault_count file.new)) }
{
    if notice.is_empty() {
        return Ok(());
    }
    match file.tell(notice) {
        Ok(()) => Ok(()),
        Err(FolderFailed) => Err(ToolFault::Device),
    }
}
