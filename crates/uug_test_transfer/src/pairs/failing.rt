//! Calls that fail once.

/// Counts down, and returns whether this call is the one that fails: at 1 the next one does, and at 0 none.
pub fn fails(countdown: &mut u32) -> bool {
    if *countdown == 0 {
        return false;
    }
    *countdown -= 1;
    *countdown == 0
}
