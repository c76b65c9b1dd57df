//! The reasons why the program ends before its task is done, and their messages.
ghost use Rattle.std.specs.Prelude.{◌≡◌};
ghost use Rattle.uug_cli_stop.specs.Refused.{IsRefusal};
ghost use Rattle.uug_cli_stop.specs.Stop.{status_of_stop};
ghost use Rattle.uug_cli_stop.specs.declared.stop.Stop.TheVariants.{Fault as stop_for};

use clap::error::ErrorKind;
use std::alloc::AllocError;
use thiserror::Error;
use uug_store::BadNumber;
use uug_stream::ToolFault;

/// The reason why the program ends before its task is done. Its text is the message on standard error.
#[derive(Debug, Drop, Error)]
pub enum Stop {
    #[error("uucpair: {0}\n")]
    Fault(ToolFault),
    /// A fault, and a remark on it.
    #[error("uucpair: {0}\nuucpair: {1}\n")]
    Remarked(ToolFault, String),
    /// The name of a file that can't be opened or read, and a line on why, if that is known.
    #[error("uucpair: device fault\nuucpair: can't read {0}\n{1}")]
    File(String, String),
    /// The name of the folder or the line that another run holds, and a remark on that, which may be empty.
    #[error("uucpair: device fault\nuucpair: {0} is in use\n{1}")]
    InUse(String, String),
    /// A line that names a number file without a number in it.
    #[error("uucpair: {BadNumber}\n{0}")]
    Number(String),
    /// A line on what is over a limit of the program.
    #[error("uucpair: over a limit\n{0}")]
    Limit(String),
    /// A fault, and a line on where and why, if that is known and asked for.
    #[error("uucpair: {0}\n{1}")]
    Told(ToolFault, String),
    /// The command line asks for no task. The text is the usage, or the help if that was asked for.
    #[error("{0}")]
    CommandLine(clap::error::Error),
}

impl Stop {
    /// Returns the status that the program ends with.
    pub fn status(&self) -> u8
        ensures { result ≡ status_of_stop self.now }
    {
        match self {
            Stop::Fault(fault) | Stop::Remarked(fault, _) | Stop::Told(fault, _) => fault.status(),
            Stop::File(_, _) => ToolFault::Read.status(),
            Stop::InUse(_, _) | Stop::Limit(_) => ToolFault::Device.status(),
            Stop::Number(_) | Stop::CommandLine(_) => ToolFault::Usage.status(),
        }
    }
}

impl From<ToolFault> for Stop {
    ghost from_gives = { λ fault stop. stop ≡ stop_for fault };

    fn from(fault: ToolFault) -> Stop {
        Stop::Fault(fault)
    }
}

impl From<AllocError> for Stop {
    fn from(refused: AllocError) -> Stop {
        Stop::Fault(ToolFault::from(refused))
    }
}

impl From<clap::error::Error> for Stop {
    ghost from_gives = { IsRefusal };

    fn from(error: clap::error::Error) -> Stop {
        match error.kind() {
            ErrorKind::OutOfMemory => Stop::Fault(ToolFault::Memory),
            _ => Stop::CommandLine(error),
        }
    }
}
