//! An input over a reader of the system. Clauses see the bytes that the reader exposes. Standard input exposes none,
//! since no proof knows what the system delivers. A body that always fails, and counts its faults, would meet the
//! contract over every reader. So tests show the rest: the stored run of the program that bytes arrive, and
//! tests/command_line.sh that a failed read is a device fault.
ghost use Rattle.std.specs.Prelude.{◌≡◌, ◌<◌, IsSome};

use std::io::Read;
use uug_error::{Cause, Faults, Resource, SystemFailure, read_again};
use uug_stream::{Input, ReadFailed};

/// A reader of the system as an input.
#[derive(Drop)]
pub struct SystemInput<R> {
    reader: R,
    faults: Faults,
}

impl<R: Read> SystemInput<R> {
    /// Creates an input over the reader, without faults.
    pub fn new(reader: R) -> Self
        ensures { ⟦<SystemInput<R> as Input>⟧.fault_count result ≡ 0 }
    {
        SystemInput {
            reader,
            faults: Faults::none(),
        }
    }

    /// Returns the first failure of a read, if there was one.
    pub fn failure(&self) -> Option<SystemFailure>
        ensures told { 0 < self.now.faults.count → IsSome result }
    {
        self.faults.first()
    }
}

impl<R: Read> Input for SystemInput<R> {
    ghost to_come = { λ input. R.remaining input.reader };

    ghost fault_count = { λ input. input.faults.count };

    fn read(&mut self, buffer: &mut [u8]) -> Result<usize, ReadFailed> {
        match read_again(&mut self.reader, buffer) {
            Ok(count) => Ok(count),
            Err(error) => {
                let cause = Cause::of(&error);
                self.faults.note(SystemFailure::on(Resource::Input, cause));
                Err(ReadFailed)
            }
        }
    }

    fn faults(&self) -> u64 {
        self.faults.count()
    }
}
