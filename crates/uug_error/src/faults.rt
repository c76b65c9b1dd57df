//! Counts the faults of a device of the system.
ghost use Rattle.std.specs.Prelude.{◌≡◌, ◌<◌, ◌≤◌, IsSome};
ghost use Rattle.uug_session.specs.Engine.{HasFailed};
ghost use Rattle.uug_error.specs.Failures.{NotesFault, first_of};

use crate::failure::SystemFailure;
use crate::run_fault::RunFault;

/// The faults of a device: their number, which saturates, and the first one.
#[derive(Clone, Copy)]
pub struct Faults {
    count: u64,
    first: Option<SystemFailure>,
    ghost told: { 0 < count → IsSome first },
}

impl Faults {
    /// Creates a count with no faults.
    pub fn none() -> Faults
        ensures { result.count ≡ 0 }
    {
        Faults {
            count: 0,
            first: None,
        }
    }

    /// Counts another fault.
    pub fn note(&mut self, failure: SystemFailure)
        ensures counted { HasFailed u64.MAX self.old.count self.new.count }
        ensures grows { self.old.count ≤ self.new.count }
        ensures first { self.new.first ≡ first_of self.old.first failure }
    {
        *self = Faults {
            count: self.count.saturating_add(1),
            first: Some(self.first.unwrap_or(failure)),
        };
    }

    /// Counts another fault if `fault` is a failed system call.
    pub fn note_fault(&mut self, fault: RunFault)
        ensures { NotesFault fault self.old.count self.new.count }
    {
        match fault {
            RunFault::System(failure) => self.note(failure),
            RunFault::Unread(_) | RunFault::Tool(_) => (),
        }
    }

    /// Returns the number of faults.
    pub fn count(&self) -> u64
        ensures { result ≡ self.now.count }
    {
        self.count
    }

    /// Returns the first fault, if there was one.
    pub fn first(&self) -> Option<SystemFailure>
        ensures first { result ≡ self.now.first }
        ensures told { 0 < self.now.count → IsSome result }
    {
        self.first
    }
}
