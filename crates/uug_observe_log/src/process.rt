use std::alloc::Allocator;
use std::rt::Files;

/// Returns the number of this process, as `/proc/self` gives it, or 0 if it can't be read.
pub(crate) fn process_number<A: Allocator + Copy, R: Files>(alloc: A, rt: &R) -> u32 {
    match rt.read_link(alloc, "/proc/self") {
        Ok(process) => process.as_path().to_string_lossy().parse().unwrap_or(0),
        Err(_) => 0,
    }
}
