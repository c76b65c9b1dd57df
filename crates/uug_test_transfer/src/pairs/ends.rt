//! Two ends whose folders and files of jobs are in memory, and of which one call may fail.

use crate::pairs::memory_folder::MemoryFolder;
use crate::pairs::memory_jobs::MemoryJobs;
use crate::pairs::tasks::{CALLED, CALLER, Given};
use std::alloc::Global;
use std::process::Abort;
use uug_io_disk::{GIVEN_MODE, NoFile};
use uug_link::Announce;
use uug_session::{Node, Place, Side, Stored};
use uug_store::{FolderSpool, JobsFile, read_jobs};
use uug_talk::Name;
use uug_test_alloc::Refusing;
use uug_transfer::{BufferedNode, FaultInjector, TransferEnd};

pub type Heap<'a> = &'a Refusing<Global>;

type Files<'a> = Vec<Stored<Heap<'a>>, Heap<'a>>;

type Spool<'a> = FolderSpool<MemoryFolder, Heap<'a>>;

pub type End<'a> = TransferEnd<Spool<'a>, MemoryJobs, NoFile, Heap<'a>>;

/// The calls that may fail.
#[derive(Clone, Copy, PartialEq, Eq)]
pub enum Call {
    Read,
    Write,
    PutOfCaller,
    PutOfCalled,
    ReadingOfCaller,
    ReadingOfCalled,
    JobsOfCaller,
    JobsOfCalled,
    Print,
}

/// The kind and the number of the call that fails, with 0 for none. A call of the line moves at most `piece` bytes, and
/// at least one.
#[derive(Clone, Copy)]
pub struct Plan {
    pub call: Call,
    pub number: u32,
    pub piece: usize,
}

/// The number of bytes that go at once by default.
pub const PIECE: usize = 64;

/// A plan in which no call fails.
pub const NO_FAULT: Plan = Plan {
    call: Call::Read,
    number: 0,
    piece: PIECE,
};

impl Plan {
    /// Returns the number of the call of a kind that fails.
    pub fn number_of(self, call: Call) -> u32 {
        if self.call == call { self.number } else { 0 }
    }

    fn of_caller(self) -> Failing {
        Failing {
            given: CALLER,
            puts: self.number_of(Call::PutOfCaller),
            readings: self.number_of(Call::ReadingOfCaller),
            texts: self.number_of(Call::JobsOfCaller),
        }
    }

    fn of_called(self) -> Failing {
        Failing {
            given: CALLED,
            puts: self.number_of(Call::PutOfCalled),
            readings: self.number_of(Call::ReadingOfCalled),
            texts: self.number_of(Call::JobsOfCalled),
        }
    }
}

/// Both ends.
#[derive(Drop)]
pub struct Ends<'a> {
    pub caller: End<'a>,
    pub called: End<'a>,
}

impl<'a> Ends<'a> {
    /// Creates both ends, whose files of jobs have these texts when the session is over.
    pub fn new(
        rt: &impl Abort,
        heap: Heap<'a>,
        plan: Plan,
        (caller_now, called_now): (&str, &str),
    ) -> Self {
        Ends {
            caller: end(rt, heap, plan.of_caller(), caller_now),
            called: end(rt, heap, plan.of_called(), called_now),
        }
    }
}

/// An end, and the numbers of the file and of the text of jobs that it fails to keep, and of the reading of jobs that
/// fails.
#[derive(Clone, Copy)]
struct Failing {
    given: Given<'static>,
    puts: u32,
    readings: u32,
    texts: u32,
}

fn end<'a>(rt: &impl Abort, heap: Heap<'a>, failing: Failing, now: &str) -> End<'a> {
    let given = failing.given;
    let folder = MemoryFolder::new(given.side, failing.puts);
    let file = MemoryJobs::new(rt, now, (failing.readings, failing.texts));
    TransferEnd {
        buffered: buffered(rt, heap, &given, folder),
        jobs: jobs_file(rt, heap, &given, file),
        number: NoFile,
    }
}

/// Returns the file of jobs of an end, which had its jobs when the session began.
fn jobs_file<'a>(
    rt: &impl Abort,
    heap: Heap<'a>,
    given: &Given<'_>,
    file: MemoryJobs,
) -> JobsFile<MemoryJobs, Heap<'a>> {
    let before = given.jobs.as_bytes().to_vec(heap);
    JobsFile {
        file,
        before: before.expect(rt, "memory for the jobs"),
    }
}

fn buffered<'a>(
    rt: &impl Abort,
    heap: Heap<'a>,
    given: &Given<'_>,
    folder: MemoryFolder,
) -> BufferedNode<Spool<'a>, Heap<'a>> {
    let node = node(rt, heap, given, folder);
    BufferedNode::new(heap, node, FaultInjector::none()).expect(rt, "memory for a buffer")
}

fn node<'a>(
    rt: &impl Abort,
    heap: Heap<'a>,
    given: &Given<'_>,
    folder: MemoryFolder,
) -> Node<Spool<'a>, Heap<'a>> {
    let place = place(rt, given);
    let queue = read_jobs(heap, given.jobs.as_bytes()).expect(rt, "jobs");
    let spool = FolderSpool::new(heap, files(rt, heap, given), folder);
    let made = match given.side {
        Side::Caller => Node::caller(heap, place, queue, spool),
        Side::Called => Node::called(heap, place, queue, spool),
    };
    made.expect(rt, "an end")
}

fn place(rt: &impl Abort, given: &Given<'_>) -> Place {
    Place {
        me: name(rt, given.me),
        peer: name(rt, given.peer),
        announce: Announce::new(7, 64).expect(rt, "a window and a size"),
        number: None,
    }
}

fn name(rt: &impl Abort, text: &[u8]) -> Name {
    Name::new(text).expect(rt, "a name")
}

/// Returns the one file that an end has to give.
fn files<'a>(rt: &impl Abort, heap: Heap<'a>, given: &Given<'_>) -> Files<'a> {
    let mut files = Vec::new(heap);
    files.reserve(1).expect(rt, "memory for a file");
    files.push_reserved(file(rt, heap, given));
    files
}

fn file<'a>(rt: &impl Abort, heap: Heap<'a>, given: &Given<'_>) -> Stored<Heap<'a>> {
    let name = name(rt, given.source);
    let bytes = given.bytes.to_vec(heap).expect(rt, "memory for bytes");
    stored(name, bytes)
}

fn stored<'a>(name: Name, bytes: Vec<u8, Heap<'a>>) -> Stored<Heap<'a>> {
    Stored {
        name,
        mode: GIVEN_MODE,
        bytes,
    }
}
