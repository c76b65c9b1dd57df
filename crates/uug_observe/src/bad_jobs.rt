//! The remark on a bad line of an end's jobs.

use std::alloc::Allocator;
use std::rt::Files;
use std::{fs, io};
use uug_error_text::jobs_remark;

/// Reads the jobs of this folder again, and returns what is wrong with this line of them.
pub fn jobs_remark_at<A: Allocator + Copy, R: Files + AllocGlobal>(
    alloc: A,
    rt: &R,
    dir: &str,
    line: usize,
) -> io::Result<String<A>> {
    let path = format!(in alloc; "{dir}/jobs")?;
    let text = fs::read(rt, path.as_str())?;
    Ok(jobs_remark(alloc, dir, text.as_slice(), line)?)
}
