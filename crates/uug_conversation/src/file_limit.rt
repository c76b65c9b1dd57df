ghost use Rattle.std.specs.Prelude.{◌≡◌, ◌<◌, ◌≤◌, MatchOption};
ghost use Rattle.uug_talk.specs.declared.gather.TheConstants.{FILE_LIMIT_MAX, FILE_MAX};

use uug_talk::{FILE_LIMIT_MAX, FILE_MAX};

/// The size of the greatest file that an end sends or takes.
#[derive(Clone, Copy)]
pub struct FileLimit {
    /// The bytes, 1 to `FILE_LIMIT_MAX`.
    pub bytes: usize,
    ghost some: { 0 < bytes },
    ghost fits: { bytes ≤ FILE_LIMIT_MAX },
}

impl FileLimit {
    /// Returns the limit of so many bytes, if they are 1 to `FILE_LIMIT_MAX`.
    pub fn new(bytes: usize) -> Option<Self>
        ensures { MatchOption result ((0 < bytes) × (bytes ≤ FILE_LIMIT_MAX) → ⊥)
            (λ limit. limit.bytes ≡ bytes) }
    {
        if bytes == 0 || FILE_LIMIT_MAX < bytes {
            return None;
        }
        Some(FileLimit { bytes })
    }

    /// Returns the limit where no other is set.
    pub fn standard() -> Self
        ensures { result.bytes ≡ FILE_MAX }
    {
        FileLimit { bytes: FILE_MAX }
    }
}
