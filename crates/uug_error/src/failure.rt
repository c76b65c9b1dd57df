//! A failed system call: its object and its cause.
ghost use Rattle.std.specs.Prelude.{◌≡◌};
ghost use Rattle.uug_error.specs.Passing.{is_out_of_reach, may_pass};

use std::io;
use std::io::ErrorKind;
use uug_talk::Name;

/// The object of a system call. The texts, and the files given and got, are below the folder of an end.
#[derive(Clone, Copy, Debug, PartialEq, Eq)]
pub enum Resource {
    /// The input that is read.
    Input,
    /// The output that is written.
    Output,
    /// The line of an end, or the socket between two.
    Line,
    /// The folder of an end itself.
    Dir,
    /// The file of this text.
    Text(EndText),
    /// The folder `send`.
    Send,
    /// The file of this name in `send`.
    Given(Name),
    /// The folder `got`.
    GotFolder,
    /// The file of this name in `got`.
    Got(Name),
}

/// A text file in the folder of an end.
#[derive(Clone, Copy, Debug, PartialEq, Eq)]
pub enum EndText {
    /// The file of its jobs.
    Jobs,
    /// The file of the number of its conversations.
    Number,
    /// The file of the jobs that it has given up.
    Failed,
}

impl EndText {
    /// Returns the name of the file in the folder of the end.
    pub fn name(self) -> &'static str {
        match self {
            EndText::Jobs => "jobs",
            EndText::Number => "number",
            EndText::Failed => "failed",
        }
    }
}

/// The folder of an end.
#[derive(Clone, Copy)]
pub struct EndDir<'a> {
    /// Its path.
    pub path: &'a str,
    /// Its number among the folders of the program's arguments, counted from 0.
    pub number: usize,
}

impl SystemFailure {
    /// Creates the failure of a call on a resource outside the folders of ends.
    pub fn on(resource: Resource, cause: Cause) -> SystemFailure
        ensures resource { result.resource ≡ resource }
        ensures cause { result.cause ≡ cause }
    {
        SystemFailure {
            end: 0,
            resource,
            cause,
        }
    }
}

impl EndDir<'_> {
    /// Creates the failure of a call on a resource of this end.
    pub fn failure(self, resource: Resource, cause: Cause) -> SystemFailure
        ensures end { result.end ≡ self.entry.number }
        ensures resource { result.resource ≡ resource }
        ensures cause { result.cause ≡ cause }
    {
        SystemFailure {
            end: self.number,
            resource,
            cause,
        }
    }
}

/// The cause of a failure.
#[derive(Clone, Copy, Debug, PartialEq, Eq)]
pub enum Cause {
    /// The system refused the call with an error of this kind, and of this number if it gave one.
    Refused(ErrorKind, Option<i32>),
    /// The call moved no byte, though there were some to move.
    MovedNothing,
    /// There is more than the program accepts.
    TooMuch,
    /// Something other than a regular file is there.
    NotAFile,
    /// The text is not a number.
    NotANumber,
    /// The lock is already held.
    InUse,
    /// A spool of Taylor UUCP is there, not the folder of an end.
    IsSpool,
    /// The folder of an end is there, not a spool.
    NoSpool,
    /// A standard stream is something that can't be waited for.
    NoStream,
    /// A device is something that can't be waited for.
    NoTerminal,
}

impl Cause {
    /// Returns the cause for an error of the system.
    pub fn of(error: &io::Error) -> Cause {
        Cause::Refused(error.kind(), error.raw_os_error())
    }

    /// Returns whether the same call may succeed later with nothing else changed.
    pub fn may_pass(self) -> bool
        ensures { result ≡ may_pass self }
    {
        match self {
            Cause::Refused(kind, _) => !is_out_of_reach(kind),
            Cause::MovedNothing
            | Cause::TooMuch
            | Cause::NotAFile
            | Cause::NotANumber
            | Cause::InUse
            | Cause::IsSpool
            | Cause::NoSpool
            | Cause::NoStream
            | Cause::NoTerminal => false,
        }
    }
}

/// Returns whether an error of this kind means that the path leads to no file that this program may read.
pub fn is_out_of_reach(kind: ErrorKind) -> bool
    ensures { result ≡ is_out_of_reach kind }
{
    matches!(
        kind,
        ErrorKind::NotFound
            | ErrorKind::NotADirectory
            | ErrorKind::PermissionDenied
            | ErrorKind::FilesystemLoop
            | ErrorKind::InvalidFilename
    )
}

/// A system call that failed.
#[derive(Clone, Copy, Debug, PartialEq, Eq)]
pub struct SystemFailure {
    /// The number of the end's folder among the program's arguments, counted from 0. It is 0 for a resource outside
    /// these folders.
    pub end: usize,
    /// The object of the call.
    pub resource: Resource,
    /// The cause of the failure.
    pub cause: Cause,
}
