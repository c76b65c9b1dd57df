ghost use Rattle.std.specs.Prelude.{◌≡◌, ◌+◌, max};
ghost use Rattle.uug_talk.specs.declared.telling.TheConstants.{TELLING_MAX};

use uug_session::FileLimit;
use uug_talk::TELLING_MAX;

/// The limits on the files that an end reads for a session, and on the partial files that it holds.
#[derive(Clone, Copy)]
pub struct Allowance {
    /// The maximum total size of the files of its jobs, and also of its other files. The file of the first job may be
    /// larger.
    pub bytes: u64,
    /// The maximum size of a file that it gives or takes.
    pub limit: FileLimit,
    /// The number of days for which it holds a partial file that does not grow.
    pub days: u32,
}

impl Allowance {
    /// Returns the maximum total size of the partial files that it holds, each with its line. The largest one fits.
    pub fn held(&self) -> u64
        ensures { result ≡ max self.now.bytes (self.now.limit.bytes + TELLING_MAX + 1) }
    {
        self.bytes.max((self.limit.bytes + TELLING_MAX + 1) as u64)
    }
}
