//! The file of an end's jobs as its session begins.
ghost use Rattle.std.specs.Prelude.{◌≡◌, IfErr, IfOk};
ghost use Rattle.uug_store.specs.JobsText.{IsJobsFault, IsQueueOf, jobs_of};
ghost use Rattle.uug_error.specs.Failures.{fault_of_run};
ghost use Rattle.uug_error.specs.Faults.{IsReadingFault};

use crate::dir_lock::DirLock;
use crate::system_text::SystemText;
use std::alloc::Allocator;
use std::rt::Files;
use uug_error::{EndDir, EndText, RunFault};
use uug_session::Queue;
use uug_store::{JobsFault, JobsFile, read_jobs};
use uug_stream::ToolFault;

/// The file of an end's jobs, and the jobs in its text.
#[derive(Drop)]
pub struct OpenJobs<'a, R: Files, A: Allocator> {
    pub file: JobsFile<SystemText<'a, R, A>, A>,
    pub queue: Queue<A>,
    pub ghost read: { IsQueueOf file.before.items queue },
}

/// Reads the jobs in the folder of an end, which is locked. If the file of the jobs is missing, there are none.
pub fn open_jobs<'a, A: Allocator + Copy, R: Files>(
    alloc: A,
    rt: &'a R,
    _lock: &DirLock<A>,
    dir: EndDir<'a>,
) -> Result<OpenJobs<'a, R, A>, RunFault>
    ensures calm { IfOk result (λ opened. opened.file.file.faults.count ≡ 0) }
    ensures jobs { IfOk result (λ opened. IsQueueOf opened.file.before.items opened.queue) }
    ensures no_other { IfErr result IsReadingFault }
{
    let mut file = SystemText::new(alloc, rt, dir, EndText::Jobs)?;
    let before = file.read_now(alloc)?;
    let queue = queue_of(alloc, before.as_slice())?;
    Ok(OpenJobs {
        file: JobsFile { file, before },
        queue,
    })
}

/// Returns the jobs in a text.
fn queue_of<A: Allocator + Copy>(alloc: A, text: &[u8]) -> Result<Queue<A>, RunFault>
    ensures jobs { IfOk result (λ queue. IsQueueOf text.now queue) }
    ensures fault { IfErr result (λ fault.
        IsJobsFault (fault_of_run fault) (jobs_of text.now)) }
    ensures no_other { IfErr result IsReadingFault }
{
    match read_jobs(alloc, text) {
        Ok(queue) => Ok(queue),
        Err(JobsFault::Bad(line)) => Err(RunFault::Tool(ToolFault::Jobs(line))),
        Err(JobsFault::Memory) => Err(RunFault::Tool(ToolFault::Memory)),
    }
}
