//! The limits of one end.
ghost use Rattle.std.specs.Prelude.{◌≡◌};
ghost use Rattle.uug_conversation.specs.Holdings.{IsLimit};

use uug_session::FileLimit;
use uug_store::Allowance;

/// The limits of one end.
#[derive(Clone, Copy, Debug, PartialEq, Eq)]
pub struct Limits {
    /// The maximum number of its sessions, one after the other.
    pub sessions: u32,
    /// The maximum total size of the files of the jobs that it offers in a session, in bytes.
    pub most: u32,
    /// The size of the greatest file that it gives or takes, in bytes.
    pub file_limit: u32,
    /// The days for which it holds a file that was cut off and does not grow.
    pub keep_days: u32,
}

impl Limits {
    /// Returns how much of its files the end reads for a session, and how long it holds others.
    pub fn allowance(&self) -> Allowance
        ensures bytes { result.bytes ≡ self.now.most }
        ensures limit { IsLimit self.now.file_limit → result.limit.bytes ≡ self.now.file_limit }
        ensures days { result.days ≡ self.now.keep_days }
    {
        let limit = match FileLimit::new(self.file_limit as usize) {
            Some(limit) => limit,
            None => FileLimit::standard(),
        };
        Allowance {
            bytes: u64::from(self.most),
            limit,
            days: self.keep_days,
        }
    }
}
