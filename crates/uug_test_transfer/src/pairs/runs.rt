//! Two ends over a socket and folders of the system. No clause says what these tests check: what is put into the
//! folders, and that a hostile folder does no harm.

use crate::pairs::assertions::{assert_same, assert_same_at, assert_so, assert_so_at};
use crate::pairs::short_output::ShortOutput;
use std::alloc::{Allocator, Global};
use std::fs::File;
use std::io::ErrorKind;
use std::net::Net;
use std::os::unix::fs::symlink;
use std::os::unix::net::UnixListener;
use std::process::Abort;
use std::rt::{Env, Files};
use std::{env, fs, io, process};
use uug_error::{Cause, EndDir, EndText, Resource, RunFault, SystemFailure};
use uug_io_disk::{SystemText, lock_dir};
use uug_pair::{PairRun, Unwatched, pair_run, pair_run_with_reason};
use uug_store::TextFile;
use uug_stream::ToolFault;
use uug_test_alloc::Refusing;

/// A thing that there is before a run, beside the folder `a/send`. `a` and `b` are the folders of the two ends.
#[derive(Clone, Copy)]
pub enum Given<'a> {
    /// A folder, and those that it lies in.
    Folder(&'a str),
    File(&'a str, &'a [u8]),
    /// A file of this many bytes of one value.
    Filled(&'a str, u8, usize),
    /// This many empty files, whose names begin with this.
    Files(&'a str, usize),
    /// A link, and its target.
    Link(&'a str, &'a str),
    Socket(&'a str),
}

impl Given<'_> {
    fn name(&self) -> &str {
        match self {
            Given::Folder(name)
            | Given::File(name, _)
            | Given::Filled(name, _, _)
            | Given::Files(name, _)
            | Given::Link(name, _)
            | Given::Socket(name) => name,
        }
    }
}

/// The call of the system that failed first: whose it was, on what, and why.
#[derive(Clone, Copy)]
enum Why {
    Nothing,
    Line(Cause),
    Dir(usize, Cause),
    Jobs(usize, Cause),
    Send(usize, Cause),
}

/// Returns the failure of a call on this resource, of the end of this number, with this cause.
fn why_of(end: usize, resource: Resource, cause: Cause) -> Option<SystemFailure> {
    Some(SystemFailure {
        end,
        resource,
        cause,
    })
}

impl Why {
    /// Returns whether this is the failure that was reported.
    fn is(self, said: Option<SystemFailure>) -> bool {
        let wanted = match self {
            Why::Nothing => None,
            Why::Line(cause) => why_of(0, Resource::Line, cause),
            Why::Dir(end, cause) => why_of(end, Resource::Dir, cause),
            Why::Jobs(end, cause) => why_of(end, Resource::Text(EndText::Jobs), cause),
            Why::Send(end, cause) => why_of(end, Resource::Send, cause),
        };
        said == wanted
    }
}

/// The contents of the folders before a run, the faults on the line, the answer, the call of the system that failed,
/// the printed text, and the files that there are then.
struct Row<'a> {
    given: &'a [Given<'a>],
    drop_every: Option<u32>,
    flip_every: Option<u32>,
    answer: Result<u8, ToolFault>,
    why: Why,
    printed: &'a str,
    left: &'a [(&'a str, &'a [u8])],
}

const SEND: Given<'static> = Given::File("a/jobs", b"send x y u\n");

const X: Given<'static> = Given::File("a/send/x", b"");

const ROWS: &[Row<'static>] = &[
    Row {
        given: &[SEND, X, Given::Folder("b/got")],
        drop_every: Some(7),
        flip_every: None,
        answer: Ok(0),
        why: Why::Nothing,
        printed: "caller done pending 0 struck 1 failed 0\n\
            called done pending 0 struck 0 failed 0\n",
        left: &[("b/got/y", b""), ("a/jobs", b""), ("b/jobs", b"")],
    },
    // the socket is there
    Row {
        given: &[SEND, X, Given::Folder("b/got"), Given::File("socket", b"s")],
        drop_every: None,
        flip_every: None,
        answer: Err(ToolFault::Device),
        why: Why::Line(Cause::Refused(ErrorKind::AddrInUse, Some(98))),
        printed: "",
        left: &[("a/jobs", b"send x y u\n"), ("socket", b"s")],
    },
    // the file can't be kept
    Row {
        given: &[SEND, X, Given::Folder("b")],
        drop_every: None,
        flip_every: None,
        answer: Ok(1),
        why: Why::Nothing,
        printed: "caller peerclosed pending 1 struck 0 failed 0\n\
            called spoolfault pending 0 struck 0 failed 0\n",
        left: &[("a/jobs", b"send x y u\n"), ("b/jobs", b"")],
    },
    Row {
        given: &[SEND, X, Given::Folder("b"), Given::File("b/got", b"g")],
        drop_every: None,
        flip_every: None,
        answer: Ok(1),
        why: Why::Nothing,
        printed: "caller peerclosed pending 1 struck 0 failed 0\n\
            called spoolfault pending 0 struck 0 failed 0\n",
        left: &[("a/jobs", b"send x y u\n"), ("b/got", b"g")],
    },
    Row {
        given: &[SEND, X, Given::Folder("b/got/y")],
        drop_every: None,
        flip_every: None,
        answer: Ok(1),
        why: Why::Nothing,
        printed: "caller peerclosed pending 1 struck 0 failed 0\n\
            called spoolfault pending 0 struck 0 failed 0\n",
        left: &[("a/jobs", b"send x y u\n")],
    },
    // a folder is missing
    Row {
        given: &[SEND, X],
        drop_every: None,
        flip_every: None,
        answer: Err(ToolFault::Device),
        why: Why::Dir(1, Cause::Refused(ErrorKind::NotFound, Some(2))),
        printed: "",
        left: &[("a/jobs", b"send x y u\n")],
    },
    // files and links in the place of what is kept, and of what is written before it is whole
    Row {
        given: &[
            Given::File("a/jobs", b"send x y u\nsend x link u\n"),
            Given::File("a/send/x", b"new"),
            Given::Folder("b/got"),
            Given::File("b/got/y", b"old"),
            Given::File("b/target", b"t"),
            Given::Link("b/got/link", "../target"),
            Given::Link("b/got/.part.1.0", "../target"),
            Given::Link("a/.part.1.0", "../b/target"),
        ],
        drop_every: None,
        flip_every: None,
        answer: Ok(0),
        why: Why::Nothing,
        printed: "caller done pending 0 struck 2 failed 0\n\
            called done pending 0 struck 0 failed 0\n",
        left: &[
            ("b/got/y", b"new"),
            ("b/got/link", b"new"),
            ("b/target", b"t"),
            ("a/jobs", b""),
        ],
    },
    // a hidden name
    Row {
        given: &[
            Given::File("a/jobs", b"send x .y u\n"),
            X,
            Given::Folder("b/got"),
        ],
        drop_every: None,
        flip_every: None,
        answer: Ok(0),
        why: Why::Nothing,
        printed: "caller done pending 0 struck 0 failed 1\n\
            called done pending 0 struck 0 failed 0\n\
            caller failed send x .y u\n",
        left: &[("a/jobs", b"")],
    },
    // a name that leads out of the folder, at the end that asks for the file
    Row {
        given: &[
            X,
            Given::Folder("b/got"),
            Given::File("b/jobs", b"request x ../y u\n"),
        ],
        drop_every: None,
        flip_every: None,
        answer: Ok(0),
        why: Why::Nothing,
        printed: "caller done pending 0 struck 0 failed 0\n\
            called done pending 0 struck 0 failed 1\n\
            called failed request x ../y u\n",
        left: &[("b/jobs", b"")],
    },
    // bad jobs
    Row {
        given: &[
            Given::File("a/jobs", b"send x y\n"),
            X,
            Given::Folder("b/got"),
        ],
        drop_every: None,
        flip_every: None,
        answer: Err(ToolFault::Jobs(1)),
        why: Why::Nothing,
        printed: "",
        left: &[("a/jobs", b"send x y\n")],
    },
    Row {
        given: &[
            SEND,
            X,
            Given::Folder("b"),
            Given::File("b/jobs", b"# none\n\nsend\n"),
            Given::File("b/send", b""),
        ],
        drop_every: None,
        flip_every: None,
        answer: Err(ToolFault::Jobs(3)),
        why: Why::Nothing,
        printed: "",
        left: &[("a/jobs", b"send x y u\n")],
    },
    Row {
        given: &[SEND, X, Given::Folder("b"), Given::File("b/send", b"")],
        drop_every: None,
        flip_every: None,
        answer: Err(ToolFault::Device),
        why: Why::Send(1, Cause::Refused(ErrorKind::NotADirectory, Some(20))),
        printed: "",
        left: &[("a/jobs", b"send x y u\n")],
    },
    Row {
        given: &[SEND, X, Given::Folder("b/jobs")],
        drop_every: None,
        flip_every: None,
        answer: Err(ToolFault::Device),
        why: Why::Jobs(1, Cause::NotAFile),
        printed: "",
        left: &[("a/jobs", b"send x y u\n")],
    },
    // more than any text of jobs may have
    Row {
        given: &[
            SEND,
            X,
            Given::Folder("b"),
            Given::Filled("b/jobs", b'\n', 16_777_217),
        ],
        drop_every: None,
        flip_every: None,
        answer: Err(ToolFault::Device),
        why: Why::Jobs(1, Cause::TooMuch),
        printed: "",
        left: &[("a/jobs", b"send x y u\n")],
    },
    // before these, bad usage
    Row {
        given: &[Given::File("a/jobs", b"bad\n")],
        drop_every: Some(1),
        flip_every: Some(2),
        answer: Err(ToolFault::Usage),
        why: Why::Nothing,
        printed: "",
        left: &[("a/jobs", b"bad\n")],
    },
    Row {
        given: &[Given::File("a/jobs", b"bad\n")],
        drop_every: Some(1_000_000),
        flip_every: Some(1_000_001),
        answer: Err(ToolFault::Usage),
        why: Why::Nothing,
        printed: "",
        left: &[("a/jobs", b"bad\n")],
    },
    // names that are no names, folders, links and a socket among the files to give
    Row {
        given: &[
            Given::File(
                "a/jobs",
                b"send x x u\nsend link link u\nsend zero zero u\n",
            ),
            Given::File("a/send/x", b"x"),
            Given::File("a/send/a b", b""),
            Given::Folder("a/send/folder"),
            Given::Link("a/send/link", "x"),
            Given::Link("a/send/nowhere", "none"),
            Given::Link("a/send/itself", "itself"),
            Given::Link("a/send/zero", "/dev/zero"),
            Given::Socket("a/send/socket"),
            Given::Folder("b/got"),
        ],
        drop_every: None,
        flip_every: None,
        answer: Ok(0),
        why: Why::Nothing,
        printed: "caller done pending 0 struck 2 failed 1\n\
            called done pending 0 struck 0 failed 0\n\
            caller failed send zero zero u\n",
        left: &[("b/got/x", b"x"), ("b/got/link", b"x"), ("a/jobs", b"")],
    },
    // a file that is a byte too large, and a megabyte of empty lines
    Row {
        given: &[
            Given::File("a/jobs", b"send x y u\n"),
            Given::Filled("a/send/x", b'x', 1_048_577),
            Given::Folder("b/got"),
            Given::Filled("b/jobs", b'\n', 1_048_576),
        ],
        drop_every: None,
        flip_every: None,
        answer: Ok(0),
        why: Why::Nothing,
        printed: "caller done pending 0 struck 0 failed 1\n\
            called done pending 0 struck 0 failed 0\n\
            caller failed send x y u\n",
        left: &[("a/jobs", b""), ("b/jobs", b"")],
    },
    // files up to the limit of how many, and one more
    Row {
        given: &[
            SEND,
            X,
            Given::Files("a/send/f", 255),
            Given::Folder("b/got"),
        ],
        drop_every: None,
        flip_every: None,
        answer: Ok(0),
        why: Why::Nothing,
        printed: "caller done pending 0 struck 1 failed 0\n\
            called done pending 0 struck 0 failed 0\n",
        left: &[("b/got/y", b""), ("a/jobs", b"")],
    },
    Row {
        given: &[
            SEND,
            X,
            Given::Files("a/send/f", 256),
            Given::Folder("b/got"),
        ],
        drop_every: None,
        flip_every: None,
        answer: Err(ToolFault::Device),
        why: Why::Send(0, Cause::TooMuch),
        printed: "",
        left: &[("a/jobs", b"send x y u\n")],
    },
    // both ends give and ask, over a line that loses and changes packets
    Row {
        given: &[
            Given::File("a/jobs", b"send x y u\nrequest p z u\n"),
            Given::File("a/send/x", b"from a"),
            Given::Folder("a/got"),
            Given::Folder("b/got"),
            Given::Folder("b/send"),
            Given::File("b/jobs", b"request x v u\nsend p w u\n"),
            Given::File("b/send/p", b"from b"),
        ],
        drop_every: Some(7),
        flip_every: Some(11),
        answer: Ok(0),
        why: Why::Nothing,
        printed: "caller done pending 0 struck 2 failed 0\n\
            called done pending 0 struck 2 failed 0\n",
        left: &[
            ("b/got/y", b"from a"),
            ("a/got/z", b"from b"),
            ("b/got/v", b"from a"),
            ("a/got/w", b"from b"),
            ("a/jobs", b""),
            ("b/jobs", b""),
        ],
    },
];

/// Returns the path of this name in a folder.
pub fn within(rt: &(impl Abort + AllocGlobal), dir: &str, name: &str) -> String {
    let path = format!(in rt.alloc(); "{dir}/{name}");
    path.expect(rt, "memory for a path")
}

fn filled(rt: &(impl Abort + AllocGlobal), byte: u8, count: usize) -> Vec<u8> {
    let mut bytes = Vec::new(rt.alloc());
    bytes.resize(count, byte).expect(rt, "memory for bytes");
    bytes
}

fn fill_file(
    rt: &(impl Files + Abort + AllocGlobal),
    path: &str,
    byte: u8,
    count: usize,
) -> io::Result<()> {
    let bytes = filled(rt, byte, count);
    fs::write(rt, path, bytes.as_slice())
}

fn write_numbered(
    rt: &(impl Files + Abort + AllocGlobal),
    front: &str,
    number: usize,
) -> io::Result<()> {
    let path = format!(in rt.alloc(); "{front}{number}").expect(rt, "memory for a path");
    fs::write(rt, path.as_str(), b"")
}

fn write_files(
    rt: &(impl Files + Abort + AllocGlobal),
    front: &str,
    count: usize,
) -> io::Result<()> {
    for number in 0..count {
        write_numbered(rt, front, number).expect(rt, "a numbered file");
    }
    Ok(())
}

fn make_socket(rt: &(impl Files + Net), path: &str) -> io::Result<()> {
    let _listener = UnixListener::bind(rt, path)?;
    Ok(())
}

/// Makes what is given, of which this is the path.
fn make(
    rt: &(impl Files + Net + Abort + AllocGlobal),
    path: &str,
    given: Given<'_>,
) -> io::Result<()> {
    match given {
        Given::Folder(_) => fs::create_dir_all(rt, path),
        Given::File(_, bytes) => fs::write(rt, path, bytes),
        Given::Filled(_, byte, count) => fill_file(rt, path, byte, count),
        Given::Files(_, count) => write_files(rt, path, count),
        Given::Link(_, to) => symlink(rt, to, path),
        Given::Socket(_) => make_socket(rt, path),
    }
}

fn place(rt: &(impl Files + Net + Abort + AllocGlobal), dir: &str, given: Given<'_>) {
    let path = within(rt, dir, given.name());
    make(rt, path.as_str(), given).expect(rt, "what is given");
}

/// Makes what is given in a new folder.
pub fn place_all(rt: &(impl Files + Net + Abort + AllocGlobal), dir: &str, given: &[Given<'_>]) {
    place(rt, dir, Given::Folder("a/send"));
    for one in given {
        place(rt, dir, *one);
    }
}

pub fn remove(rt: &(impl Files + Abort + AllocGlobal), dir: &str) {
    fs::remove_dir_all(rt, dir).expect(rt, "a folder to remove");
}

/// Returns the path of a folder of its own for each test, in a process of this number.
pub fn folder_path(rt: &(impl Env + Abort + AllocGlobal), id: u32, test: &str) -> String {
    let temporary = env::temp_dir(rt).expect(rt, "a folder for temporary files");
    let path = format!(in rt.alloc(); "{}/uug_transfer_{id}_{test}", temporary.as_str());
    path.expect(rt, "memory for a path")
}

/// The faults on the line: every Nth packet is lost, and every Nth changed.
type Every = (Option<u32>, Option<u32>);

/// The socket, and the folders of the two ends.
#[derive(Drop)]
struct Paths {
    socket: String,
    a: String,
    b: String,
}

impl Paths {
    /// Returns the paths of `socket`, `a` and `b` in a folder.
    fn within(rt: &(impl Abort + AllocGlobal), dir: &str) -> Self {
        Paths {
            socket: within(rt, dir, "socket"),
            a: within(rt, dir, "a"),
            b: within(rt, dir, "b"),
        }
    }
}

/// Runs two ends over these folders and this socket. Returns the answer, and the call of the system that failed if that
/// is the reason.
fn run_ends<A: Allocator + Copy>(
    alloc: A,
    rt: &(impl Files<File = File> + Net + Alloc + Clone + Drop),
    paths: &Paths,
    (drop_every, flip_every): Every,
    output: &mut ShortOutput,
) -> (Result<u8, ToolFault>, Option<SystemFailure>) {
    let run = PairRun {
        socket: paths.socket.as_str(),
        dir_a: paths.a.as_str(),
        dir_b: paths.b.as_str(),
        drop_every,
        flip_every,
    };
    match pair_run_with_reason(alloc, rt, &run, Unwatched, output) {
        Ok(status) => (Ok(status), None),
        Err(fault) => {
            let failure = failure_in(&fault);
            (Err(fault.answer()), failure)
        }
    }
}

/// Returns the call of the system that failed, if that is the reason.
fn failure_in(fault: &RunFault) -> Option<SystemFailure> {
    match fault {
        RunFault::System(failure) | RunFault::Unread(failure) => Some(*failure),
        RunFault::Tool(_) => None,
    }
}

/// Runs two ends over the folders `a` and `b` and the socket `socket` in this folder, and asks for no reason.
fn run_within<A: Allocator + Copy>(
    alloc: A,
    rt: &(impl Files<File = File> + Net + Abort + AllocGlobal + Clone + Drop),
    dir: &str,
    (drop_every, flip_every): Every,
    output: &mut ShortOutput,
) -> Result<u8, ToolFault> {
    let paths = Paths::within(rt, dir);
    let (socket, a, b) = (paths.socket.as_str(), paths.a.as_str(), paths.b.as_str());
    pair_run(alloc, rt, socket, a, b, drop_every, flip_every, output)
}

/// Asserts that the file of this name has these bytes.
fn assert_file(rt: &(impl Files + Abort + AllocGlobal), dir: &str, name: &str, bytes: &[u8]) {
    let path = within(rt, dir, name);
    assert_bytes(rt, path.as_str(), name, bytes);
}

fn assert_bytes(rt: &(impl Files + Abort + AllocGlobal), path: &str, name: &str, bytes: &[u8]) {
    let found = fs::read(rt, path).expect(rt, name);
    assert_so_at(rt, found.as_slice() == bytes, name);
}

fn has_file(rt: &(impl Files + Abort + AllocGlobal), dir: &str, name: &str) -> bool {
    let path = within(rt, dir, name);
    fs::symlink_metadata(rt, path.as_str()).is_ok()
}

fn has_socket(rt: &(impl Files + Abort + AllocGlobal), dir: &str) -> bool {
    let path = within(rt, dir, "socket");
    fs::exists(rt, path.as_str()).expect(rt, "a folder to look into")
}

impl Row<'_> {
    fn run(
        &self,
        rt: &(impl Files<File = File> + Net + Abort + AllocGlobal + Clone + Drop),
        dir: &str,
    ) {
        let mut output = ShortOutput::new(0);
        let every = (self.drop_every, self.flip_every);
        let paths = Paths::within(rt, dir);
        let (answer, why) = run_ends(rt.alloc(), rt, &paths, every, &mut output);
        assert_same_at(rt, answer, self.answer, self.printed);
        assert_so_at(rt, self.why.is(why), self.printed);
        assert_same(rt, output.text(), self.printed.as_bytes());
    }

    /// Asserts that all files are there that are to be left.
    fn assert_left(&self, rt: &(impl Files + Abort + AllocGlobal), dir: &str) {
        for (name, bytes) in self.left {
            assert_file(rt, dir, name, bytes);
        }
    }

    /// Runs the ends in this folder. The socket is gone then, unless it was there before.
    fn play(
        &self,
        rt: &(impl Files<File = File> + Net + Abort + AllocGlobal + Clone + Drop),
        dir: &str,
    ) {
        place_all(rt, dir, self.given);
        let had_socket = has_socket(rt, dir);
        self.run(rt, dir);
        self.assert_left(rt, dir);
        assert_same(rt, has_socket(rt, dir), had_socket);
        remove(rt, dir);
    }
}

/// Plays the rows, each in a new folder.
fn play_rows(rt: &(impl Files<File = File> + Net + Abort + AllocGlobal + Clone + Drop), dir: &str) {
    for row in ROWS {
        row.play(rt, dir);
    }
}

// a file that does not come, or comes to another place; a fault that is skipped, or after which a job is gone; a
// folder that makes a run wait, or end before its time
#[test]
fn moves_files_between_folders(rt: HostRuntime) {
    let dir = folder_path(&rt, process::id(rt.process()), "rows");
    play_rows(&rt, dir.as_str());
}

/// Asserts that two ends read and send nothing if another run holds a folder, and that the remains of a run that was
/// killed stay.
fn assert_held(
    rt: &(impl Files<File = File> + Net + Abort + AllocGlobal + Clone + Drop),
    dir: &str,
    name: &str,
    number: usize,
) {
    let path = within(rt, dir, name);
    let lock = lock_dir(rt.alloc(), rt, first(path.as_str())).expect(rt, "a lock");
    place(rt, dir, PART);
    let mut output = ShortOutput::new(0);
    let paths = Paths::within(rt, dir);
    let (answer, why) = run_ends(rt.alloc(), rt, &paths, (None, None), &mut output);
    let plain = run_within(rt.alloc(), rt, dir, (None, None), &mut output);
    drop(lock);
    assert_same(rt, answer, Err(ToolFault::Device));
    assert_so(rt, Why::Dir(number, Cause::InUse).is(why));
    assert_same(rt, plain, Err(ToolFault::Device));
    assert_same(rt, output.text(), b"");
    assert_file(rt, dir, "a/jobs", b"send x y u\n");
    assert_so(rt, has_file(rt, dir, "b/got/.part.7.0") || number == 1);
    assert_so(rt, !has_socket(rt, dir));
}

/// Returns the first folder of the program's arguments.
pub fn first(path: &str) -> EndDir<'_> {
    EndDir { path, number: 0 }
}

/// The incomplete file that a run left that was killed.
const PART: Given<'static> = Given::File("b/got/.part.7.0", b"p");

/// The incomplete jobs that it left.
const PART_OF_JOBS: Given<'static> = Given::File("a/.part.7.1", b"p");

/// Runs both ends, whose folders nobody holds.
fn assert_free(
    rt: &(impl Files<File = File> + Net + Abort + AllocGlobal + Clone + Drop),
    dir: &str,
) {
    place(rt, dir, PART);
    place(rt, dir, PART_OF_JOBS);
    let mut output = ShortOutput::new(0);
    let answer = run_within(rt.alloc(), rt, dir, (None, None), &mut output);
    assert_same(rt, answer, Ok(0));
    assert_file(rt, dir, "b/got/y", b"");
    assert_so(rt, !has_file(rt, dir, "b/got/.part.7.0"));
    assert_so(rt, !has_file(rt, dir, "a/.part.7.1"));
}

fn hold_folders(
    rt: &(impl Files<File = File> + Net + Abort + AllocGlobal + Clone + Drop),
    dir: &str,
) {
    place_all(rt, dir, &[SEND, X, Given::Folder("b/got")]);
    assert_held(rt, dir, "a", 0);
    assert_held(rt, dir, "b", 1);
    assert_free(rt, dir);
    remove(rt, dir);
}

// two runs in one folder; a lock that is kept; a file that was not whole and stays
#[test]
fn works_in_a_folder_alone(rt: HostRuntime) {
    let dir = folder_path(&rt, process::id(rt.process()), "held");
    hold_folders(&rt, dir.as_str());
}

/// Reads a file of jobs, appends to it, and replaces it. Asserts that what was appended stays after the new text.
fn append_between(
    rt: &(impl Files<File = File> + Net + Abort + AllocGlobal + Clone + Drop),
    dir: &str,
) {
    place_all(rt, dir, &[SEND]);
    let folder = within(rt, dir, "a");
    let folder = first(folder.as_str());
    let mut file = SystemText::new(rt.alloc(), rt, folder, EndText::Jobs).expect(rt, "memory");
    let text = file.read(rt.alloc()).expect(rt, "a text");
    assert_so(rt, text.as_slice() == b"send x y u\n".as_slice());
    place(rt, dir, Given::File("a/jobs", b"send x y u\nsend x z u\n"));
    assert_so(rt, file.replace(b"send x w u\n").is_ok());
    drop(file);
    assert_file(rt, dir, "a/jobs", b"send x w u\nsend x z u\n");
    remove(rt, dir);
}

// what is appended at the last moment is dropped
#[test]
fn keeps_what_is_appended_at_the_last_moment(rt: HostRuntime) {
    let dir = folder_path(&rt, process::id(rt.process()), "appended");
    append_between(&rt, dir.as_str());
}

/// Runs two ends with the nth request for memory refused. Returns whether the run ended for that, with nothing printed.
/// Where its jobs are over, it ends well: then only the mark of a queued copy is left out.
fn refuse(
    rt: &(impl Files<File = File> + Net + Abort + AllocGlobal + Clone + Drop),
    heap: &Refusing<Global>,
    dir: &str,
    nth: u64,
) -> bool {
    heap.refuse(nth);
    let mut output = ShortOutput::new(0);
    let answer = run_within(heap, rt, dir, (None, None), &mut output);
    if answer == Ok(0) {
        return false;
    }
    assert_same(rt, answer, Err(ToolFault::Memory));
    assert_so(rt, heap.was_refused());
    assert_so(rt, output.text().is_empty());
    true
}

/// Refuses each request for memory in turn, until the jobs are over. Returns how many there are.
fn refuse_each(
    rt: &(impl Files<File = File> + Net + Abort + AllocGlobal + Clone + Drop),
    heap: &Refusing<Global>,
    dir: &str,
) -> u64 {
    for nth in 1..10_000 {
        if !refuse(rt, heap, dir, nth) {
            assert_file(rt, dir, "a/jobs", b"");
            return nth - 1;
        }
        assert_so_at(rt, !has_socket(rt, dir), nth);
        assert_file(rt, dir, "a/jobs", b"send x y u\n");
    }
    panic!(rt; "no end of the requests");
}

fn refuse_in_folder(
    rt: &(impl Files<File = File> + Net + Abort + AllocGlobal + Clone + Drop),
    dir: &str,
) {
    place_all(rt, dir, &[SEND, X, Given::Folder("b/got")]);
    let heap = Refusing::new(rt.alloc(), 0);
    let requests = refuse_each(rt, &heap, dir);
    assert_so_at(rt, requests > 30, requests);
    remove(rt, dir);
}

#[test]
fn leaves_all_jobs_when_out_of_memory(rt: HostRuntime) {
    let dir = folder_path(&rt, process::id(rt.process()), "memory");
    refuse_in_folder(&rt, dir.as_str());
}
