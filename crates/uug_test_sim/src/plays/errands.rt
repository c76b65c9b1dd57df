//! Jobs of two ends, each with a target of its own. Their files tell them apart: each byte of a file says to which job it
//! belongs.

use super::numbers::Numbers;
use std::alloc::Global;
use std::test::Fail;
use uug_line::{EndReport, Report, SessionReport};
use uug_session::{Job, MemorySpool, Node, Side, Stored};
use uug_talk::Name;

pub type End = Node<MemorySpool<Global>, Global>;

/// A job, and the file that it is about.
#[derive(Clone, Copy)]
pub struct Errand {
    /// The end that has the job.
    pub owner: Side,
    /// The end that gives the file.
    pub giver: Side,
    /// The line of the job, and of what its target is to the taker.
    pub lines: &'static str,
    /// The name under which the giver has the file.
    pub file: &'static str,
    /// The name under which it is to be stored, with a space before and after.
    pub target: [u8; 4],
    /// The high bits of each byte of the file, which no other message has.
    pub mark: u8,
    /// The number of bytes of the file.
    pub size: usize,
    /// True if the file can't be put in its place.
    pub is_refused: bool,
}

pub const ERRANDS: [Errand; 7] = [
    Errand {
        owner: Side::Caller,
        giver: Side::Caller,
        lines: "send caller x0 t0 u\n",
        file: "x0",
        target: *b" t0 ",
        mark: 0x80,
        size: 300,
        is_refused: false,
    },
    // a copy of the file is sent
    Errand {
        owner: Side::Caller,
        giver: Side::Caller,
        lines: "send caller x1 t1 u D.1\n",
        file: "D.1",
        target: *b" t1 ",
        mark: 0x90,
        size: 96,
        is_refused: false,
    },
    Errand {
        owner: Side::Caller,
        giver: Side::Called,
        lines: "request caller x2 t2 u\n",
        file: "x2",
        target: *b" t2 ",
        mark: 0xa0,
        size: 70,
        is_refused: false,
    },
    Errand {
        owner: Side::Called,
        giver: Side::Called,
        lines: "send called x3 t3 u\n",
        file: "x3",
        target: *b" t3 ",
        mark: 0xb0,
        size: 200,
        is_refused: false,
    },
    Errand {
        owner: Side::Called,
        giver: Side::Caller,
        lines: "request called x4 t4 u\n",
        file: "x4",
        target: *b" t4 ",
        mark: 0xc0,
        size: 33,
        is_refused: false,
    },
    Errand {
        owner: Side::Called,
        giver: Side::Called,
        lines: "send called x5 t5 u\nimmovable caller t5\n",
        file: "x5",
        target: *b" t5 ",
        mark: 0xd0,
        size: 130,
        is_refused: true,
    },
    Errand {
        owner: Side::Caller,
        giver: Side::Caller,
        lines: "send caller x6 t6 u\n",
        file: "x6",
        target: *b" t6 ",
        mark: 0xe0,
        size: 0,
        is_refused: false,
    },
];

/// Returns the word for the side in a script.
pub fn side_word(side: Side) -> &'static str {
    match side {
        Side::Caller => "caller",
        Side::Called => "called",
    }
}

/// Returns the side that is not this one.
pub fn other(side: Side) -> Side {
    match side {
        Side::Caller => Side::Called,
        Side::Called => Side::Caller,
    }
}

/// Appends two hexadecimal digits a byte, or a dash if there is none.
fn add_hex(text: &mut String, bytes: &[u8]) -> Result<(), Fail> {
    if bytes.is_empty() {
        text.push('-')?;
    }
    for byte in bytes {
        write!(text, "{byte:02x}")?;
    }
    Ok(())
}

/// Appends the bytes of a message that have these high bits.
fn add_marked(bytes: &mut Vec<u8>, message: &[u8], mark: u8) -> Result<(), Fail> {
    for byte in message {
        if byte & 0xf0 == mark {
            bytes.push(*byte)?;
        }
    }
    Ok(())
}

/// Returns the end on this side.
pub fn end_of(report: &Report<Global>, side: Side) -> &End {
    match side {
        Side::Caller => report.caller(),
        Side::Called => report.called(),
    }
}

/// Returns the report of the end on this side.
fn part_of(session: &SessionReport<Global>, side: Side) -> &EndReport<Global> {
    match side {
        Side::Caller => &session.caller,
        Side::Called => &session.called,
    }
}

impl Errand {
    /// Returns the bytes of its file.
    pub fn bytes(&self, alloc: Global) -> Result<Vec<u8>, Fail> {
        let mut numbers = Numbers {
            state: self.mark as u32,
        };
        let mut bytes = Vec::new(alloc);
        for _ in 0..self.size {
            bytes.push(self.mark | numbers.below(16) as u8)?;
        }
        Ok(bytes)
    }

    /// Appends the lines of its file and its job.
    pub fn add_to(&self, text: &mut String, bytes: &[u8]) -> Result<(), Fail> {
        let (side, file) = (side_word(self.giver), self.file);
        write!(text, "file {side} {file} 0644 ")?;
        add_hex(text, bytes)?;
        text.push('\n')?;
        text.push_str(self.lines)?;
        Ok(())
    }

    /// Returns those of its bytes that are in the messages.
    fn bytes_in(&self, alloc: Global, messages: &[Vec<u8>]) -> Result<Vec<u8>, Fail> {
        let mut bytes = Vec::new(alloc);
        for message in messages {
            add_marked(&mut bytes, message.as_slice(), self.mark)?;
        }
        Ok(bytes)
    }

    /// Returns the bytes of its file that the giver sent in the session.
    pub fn sent(&self, alloc: Global, session: &SessionReport<Global>) -> Result<Vec<u8>, Fail> {
        self.bytes_in(alloc, part_of(session, self.giver).sent.as_slice())
    }

    /// Returns the bytes of its file that the other end took in the session.
    pub fn taken(&self, alloc: Global, session: &SessionReport<Global>) -> Result<Vec<u8>, Fail> {
        self.bytes_in(alloc, part_of(session, other(self.giver)).taken.as_slice())
    }

    /// Returns whether its owner offered it in the session.
    fn is_offered(&self, session: &SessionReport<Global>) -> bool {
        let sent = part_of(session, self.owner).sent.as_slice();
        sent.iter().any(|message| message
            .windows(4)
            .any(|word| word == self.target.as_slice()))
    }

    /// Returns the number of sessions in which its owner offered it.
    fn offers(&self, report: &Report<Global>) -> usize {
        let sessions = report.sessions().iter();
        sessions.filter(|session| self.is_offered(session)).count()
    }

    /// Returns whether this is the name of its target.
    fn is_named(&self, name: &Name) -> bool {
        name.as_bytes() == &self.target[1..3]
    }

    /// Returns the number of these jobs that are this one.
    fn count_in(&self, jobs: &[Job]) -> usize {
        let same = jobs.iter().filter(|job| match job {
            Job::Send { target, .. } | Job::Request { target, .. } => self.is_named(target),
        });
        same.count()
    }

    /// Returns whether the owner has the job in exactly one of its lists, and gave it up only where the file can't be put
    /// in its place.
    fn is_kept(&self, report: &Report<Global>) -> bool {
        let queue = end_of(report, self.owner).queue();
        let failed = self.count_in(queue.failed());
        let others = self
            .count_in(queue.pending())
            .saturating_add(self.count_in(queue.struck()));
        failed.saturating_add(others) == 1 && (failed == 0 || self.is_refused)
    }

    /// Returns whether the job is done.
    pub fn is_struck(&self, report: &Report<Global>) -> bool {
        self.count_in(end_of(report, self.owner).queue().struck()) == 1
    }

    /// Returns whether the entry is not of its target, or has its file.
    fn is_right(&self, entry: &Stored<Global>, bytes: &[u8]) -> bool {
        !self.is_named(&entry.name) || (entry.mode == 0o644 && entry.bytes.as_slice() == bytes)
    }

    /// Returns the number of times that its file was stored.
    pub fn count_stored(&self, report: &Report<Global>) -> usize {
        let stored = end_of(report, other(self.giver)).spool().stored().iter();
        stored.filter(|entry| self.is_named(&entry.name)).count()
    }

    /// Returns whether each file that was stored for it is right, at most one a session in which it was offered, and at
    /// least one if the job is done.
    fn is_stored_right(&self, report: &Report<Global>, bytes: &[u8]) -> bool {
        let count = self.count_stored(report);
        let mut stored = end_of(report, other(self.giver)).spool().stored().iter();
        stored.all(|entry| self.is_right(entry, bytes))
            && count <= self.offers(report)
            && (count == 0 || !self.is_refused)
            && (count > 0 || !self.is_struck(report))
    }

    /// Returns whether neither the job nor its file, which has these bytes, was lost, doubled or changed.
    pub fn is_well(&self, report: &Report<Global>, bytes: &[u8]) -> bool {
        self.is_kept(report) && self.is_stored_right(report, bytes)
    }
}
