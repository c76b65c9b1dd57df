//! An output over a writer of the system. Clauses see the bytes that were written if the writer exposes them. Standard
//! output does not, since no proof knows what the system takes. A body that always fails, and counts its faults, would
//! meet the contract over every writer. So tests show the rest: the stored run of the program that bytes are written,
//! and tests/command_line.sh that a failed write is a device fault.
ghost use Rattle.std.specs.Prelude.{◌≡◌, ◌<◌, IsSome};

use std::io::Write;
use uug_error::{Cause, Faults, Resource, SystemFailure, write_again};
use uug_stream::{Output, WriteFailed};

/// A writer of the system as an output.
#[derive(Drop)]
pub struct SystemOutput<W> {
    writer: W,
    faults: Faults,
}

impl<W: Write> SystemOutput<W> {
    /// Creates an output over the writer, without faults.
    pub fn new(writer: W) -> Self
        ensures { ⟦<SystemOutput<W> as Output>⟧.fault_count result ≡ 0 }
    {
        SystemOutput {
            writer,
            faults: Faults::none(),
        }
    }

    /// Returns the first failure of a write, if there was one.
    pub fn failure(&self) -> Option<SystemFailure>
        ensures told { 0 < self.now.faults.count → IsSome result }
    {
        self.faults.first()
    }
}

impl<W: Write> Output for SystemOutput<W> {
    ghost written = { λ output. W.contents output.writer };

    ghost fault_count = { λ output. output.faults.count };

    fn write(&mut self, piece: &[u8]) -> Result<usize, WriteFailed> {
        let cause = match write_again(&mut self.writer, piece) {
            Ok(0) => Cause::MovedNothing,
            Ok(count) => return Ok(count),
            Err(error) => Cause::of(&error),
        };
        self.faults.note(SystemFailure::on(Resource::Output, cause));
        Err(WriteFailed::Device)
    }

    fn faults(&self) -> u64 {
        self.faults.count()
    }
}
