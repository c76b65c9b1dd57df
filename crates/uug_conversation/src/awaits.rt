ghost use Rattle.std.specs.Prelude.{IsTrue, ◌≡◌, ◌↔◌};
ghost use Rattle.uug_talk.specs.Gathering.{OfFile, limit_of};
ghost use Rattle.uug_conversation.specs.Machine.{comes_early, kind_awaited};

use uug_talk::{FileDigest, Name};

/// The item that an end awaits from the other in a conversation.
#[derive(Clone, Copy, Debug, PartialEq, Eq)]
pub enum Awaits {
    /// The master's next command.
    Order,
    /// The file that the master sends. This end has answered SY.
    SentFile {
        /// The name by which the master fetches it.
        source: Name,
        /// The file's name here.
        target: Name,
        /// The file's mode.
        mode: u16,
        /// The digest that was announced for it.
        told: Option<FileDigest>,
        /// The most bytes that it may have.
        limit: usize,
    },
    /// The result for the file that was given to the master.
    GivenFileDone,
    /// The master's HY. This end has answered HY.
    LastHangUp,
    /// The answer to S.
    SendAnswer,
    /// The result for the file that was sent to the slave.
    SentFileDone,
    /// The answer to R.
    RequestAnswer,
    /// The requested file. The slave has answered RY.
    AskedFile {
        /// The file's mode.
        mode: u16,
        /// The digest that was announced for it.
        told: Option<FileDigest>,
        /// The most bytes that it may have.
        limit: usize,
    },
    /// The rest of a file over the limit, sent by the master. None of it is kept.
    DroppedSentFile {
        /// The most bytes that a file may have.
        limit: usize,
    },
    /// The rest of a requested file over the limit. None of it is kept.
    DroppedAskedFile {
        /// The most bytes that a file may have.
        limit: usize,
    },
    /// The answer to H.
    HangUpAnswer,
    /// Nothing: the conversation is over.
    NothingMore,
    /// Nothing: a message fitted no turn.
    Bad,
}

impl Awaits {
    /// Returns whether a file, not a text, is awaited.
    pub(crate) fn is_file(&self) -> bool
        ensures { IsTrue result
            ↔ (kind_awaited self.now ≡ OfFile (limit_of (kind_awaited self.now))) }
    {
        matches!(
            self,
            Awaits::SentFile { .. }
                | Awaits::AskedFile { .. }
                | Awaits::DroppedSentFile { .. }
                | Awaits::DroppedAskedFile { .. }
        )
    }

    /// Returns whether a message comes too early: it should give a file's result, and that file has not been sent
    /// whole. `none_waits` says whether everything was sent.
    pub(crate) fn comes_early(&self, none_waits: bool) -> bool
        ensures { result ≡ comes_early self.now none_waits }
    {
        matches!(self, Awaits::SentFileDone | Awaits::GivenFileDone) && !none_waits
    }
}
