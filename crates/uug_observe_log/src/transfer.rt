use crate::way::Way;
use uug_talk::{Name, Order};

/// The kind of a job.
#[derive(Clone, Copy, Debug, PartialEq, Eq)]
pub enum Wish {
    Send,
    Request,
}

/// A job of either end, as its command describes it.
#[derive(Clone, Copy, Debug, PartialEq, Eq)]
pub struct Transfer {
    /// The direction of its command: out for a job of this end.
    pub way: Way,
    pub wish: Wish,
    pub source: Name,
    pub target: Name,
}

impl Transfer {
    /// Returns the job of a command that went this way, or `None` for `H`.
    pub(crate) fn of(way: Way, order: &Order) -> Option<Self> {
        let (wish, source, target) = match order {
            Order::Send { source, target, .. } => (Wish::Send, *source, *target),
            Order::Request { source, target, .. } => (Wish::Request, *source, *target),
            Order::HangUp => return None,
        };
        Some(Transfer {
            way,
            wish,
            source,
            target,
        })
    }

    /// Returns the direction of its file.
    pub fn file_way(&self) -> Way {
        match self.wish {
            Wish::Send => self.way,
            Wish::Request => self.way.back(),
        }
    }
}

/// The outcome of a job in this session.
#[derive(Clone, Copy, Debug, PartialEq, Eq)]
pub enum Outcome {
    /// The file is in its place.
    Done,
    /// It was refused for good: its file will never be sent, given, or put in its place.
    Never,
    /// It was refused for good, and the announced size of its file may exceed the limit of the end that refused it.
    TooLarge,
    /// It was put off: it may succeed later.
    Later,
    /// The received file is not the one that was announced. Nothing of it was kept, and the job may succeed later.
    Differs,
}

/// A report on a job.
#[derive(Clone, Copy, Debug, PartialEq, Eq)]
pub enum News {
    Begins(Transfer),
    /// The announced size of its whole file, and the position from which the file is sent: an earlier session has
    /// transferred the bytes before it.
    Resumes(Transfer, Option<u32>, u32),
    /// The outcome, and the number of bytes of its file that have passed in this session.
    Ends(Transfer, Outcome, u64),
}

/// The progress of a job's file.
#[derive(Clone, Copy)]
pub struct FileProgress {
    pub job: Transfer,
    /// The number of bytes of the file that have passed in this session and before.
    pub position: u64,
    /// The announced size of the file.
    pub size: Option<u32>,
    /// The number of data packets of this session that went the file's way again, or after a lost one.
    pub repeats: u64,
}
