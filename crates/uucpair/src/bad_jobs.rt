//! The remarks on a bad line of jobs.

use std::rt::Files;
use uug_cli::full_remark;
use uug_error::RunFault;
use uug_observe::jobs_remark_at;
use uug_stream::ToolFault;

/// Returns what is wrong with a line of the jobs in this folder, if that is the fault. The text is empty if no line is
/// bad. A remark that can't be made is left out.
pub fn jobs_remark<R: Files + AllocGlobal>(rt: &R, dir: &str, fault: &RunFault) -> Option<String> {
    match fault {
        RunFault::Tool(ToolFault::Jobs(line)) => jobs_remark_at(rt.alloc(), rt, dir, *line).ok(),
        _ => None,
    }
}

/// Does the same for jobs that a person queues or cancels. If no line is bad, the remark is that the queue is full.
pub fn waiting_remark<R: Files + AllocGlobal>(
    rt: &R,
    dir: &str,
    fault: &RunFault,
) -> Option<String> {
    let said = jobs_remark(rt, dir, fault)?;
    if said.is_empty() {
        full_remark(rt.alloc(), dir).ok()
    } else {
        Some(said)
    }
}
