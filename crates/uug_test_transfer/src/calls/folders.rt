//! The parts of a folder of the system that an end of `call` or `answer` takes up, of which no clause can say what they
//! hold: the files in `send` that it gives, and the names that are barred in `got`.

use crate::calls::assertions::{assert_same, assert_same_at};
use crate::pairs::runs::{Given, first, folder_path, place_all, remove, within};
use std::alloc::Global;
use std::fs::File;
use std::net::Net;
use std::process;
use std::process::Abort;
use std::rt::Files;
use uug_io_disk::{SystemFolder, lock_dir, read_given, see_writable};
use uug_session::FileLimit;
use uug_store::{Allowance, Folder, read_jobs};
use uug_talk::Name;

/// A folder, the jobs of its end, and how many bytes its files may have; then how many files are given, whether one of
/// them is that of this name, and how many jobs are offered.
struct Row<'a> {
    given: &'a [Given<'a>],
    jobs: &'a str,
    most: u64,
    count: usize,
    name: &'a [u8],
    is_given: bool,
    offered: usize,
}

const MOST: u64 = 67_108_864;

const ROWS: &[Row<'static>] = &[
    // hidden files, names that are none, and what is no file
    Row {
        given: &[
            Given::File("a/send/x", b"x"),
            Given::File("a/send/.h", b"h"),
            Given::File("a/send/a b", b""),
            Given::Folder("a/send/folder"),
            Given::Link("a/send/nowhere", "none"),
        ],
        jobs: "send .h h u\nsend none y u\n",
        most: MOST,
        count: 1,
        name: b"x",
        is_given: true,
        offered: 2,
    },
    // more files than may be given beside those of the jobs
    Row {
        given: &[Given::Files("a/send/f", 300), Given::File("a/send/z", b"z")],
        jobs: "request q q u\nsend ~/z y u\nsend z z u\n",
        most: MOST,
        count: 257,
        name: b"z",
        is_given: true,
        offered: 3,
    },
    // a file that is a byte too large
    Row {
        given: &[
            Given::Filled("a/send/x", b'x', 1_048_577),
            Given::File("a/send/y", b"y"),
        ],
        jobs: "send x x u\n",
        most: MOST,
        count: 1,
        name: b"x",
        is_given: false,
        offered: 1,
    },
    // more bytes than may go in one session: the job of the second file waits, and so does the one after it. The other
    // end may ask for their files
    Row {
        given: &[
            Given::Filled("a/send/x", b'x', 600_000),
            Given::Filled("a/send/y", b'y', 448_577),
            Given::File("a/send/z", b"z"),
        ],
        jobs: "request q q u\nsend x x u\nsend x w u\nsend y y u\nsend z z u\n",
        most: 1_048_576,
        count: 3,
        name: b"y",
        is_given: true,
        offered: 3,
    },
    // just as many as may go
    Row {
        given: &[
            Given::Filled("a/send/x", b'x', 600_000),
            Given::Filled("a/send/y", b'y', 448_576),
        ],
        jobs: "send x x u\nsend y y u\n",
        most: 1_048_576,
        count: 2,
        name: b"y",
        is_given: true,
        offered: 2,
    },
];

/// Asserts that all of 300 files are offered, each of which a job names.
fn offer_many(
    rt: &(impl Files<File = File> + Net + Eprint + Abort + AllocGlobal + Clone + Drop),
    dir: &str,
) {
    let mut jobs = String::new(rt.alloc());
    for number in 0..300 {
        let line = format!(in rt.alloc(); "send f{number} f{number} u\n").expect(rt, "memory");
        jobs.push_str(line.as_str()).expect(rt, "memory");
    }
    place_all(rt, dir, &[Given::Files("a/send/f", 300)]);
    let folder = within(rt, dir, "a");
    let given = given_at(rt, folder.as_str(), jobs.as_str(), MOST);
    assert_same(rt, (given.files.len(), given.offered), (300, 300));
    drop(given);
    remove(rt, dir);
}

/// Returns the files that an end over this folder gives, and the number of jobs that it offers.
fn given_at(
    rt: &(impl Files<File = File> + Eprint + Abort + AllocGlobal + Clone + Drop),
    dir: &str,
    jobs: &str,
    most: u64,
) -> uug_io_disk::Given<Global> {
    let queue = read_jobs(rt.alloc(), jobs.as_bytes()).expect(rt, "jobs");
    let lock = lock_dir(rt.alloc(), rt, first(dir)).expect(rt, "a lock");
    let allowance = Allowance {
        bytes: most,
        limit: FileLimit::standard(),
        days: 30,
    };
    let given = read_given(rt.alloc(), rt, &lock, queue.pending(), allowance);
    drop(lock);
    given.expect(rt, "files")
}

impl Row<'_> {
    fn play(
        &self,
        rt: &(impl Files<File = File> + Net + Eprint + Abort + AllocGlobal + Clone + Drop),
        dir: &str,
    ) {
        place_all(rt, dir, self.given);
        let folder = within(rt, dir, "a");
        let given = given_at(rt, folder.as_str(), self.jobs, self.most);
        let has = given
            .files
            .iter()
            .any(|file| file.name.as_bytes() == self.name);
        assert_same_at(
            rt,
            (given.files.len(), has, given.offered),
            (self.count, self.is_given, self.offered),
            self.jobs,
        );
        drop(given);
        remove(rt, dir);
    }
}

fn play_rows(
    rt: &(impl Files<File = File> + Net + Eprint + Abort + AllocGlobal + Clone + Drop),
    dir: &str,
) {
    for row in ROWS {
        row.play(rt, dir);
    }
}

// a hidden file that is given; a file of a job that is not, because there are others; a job that is offered without its
// file
#[test]
fn gives_what_it_can_give(rt: HostRuntime) {
    let dir = folder_path(&rt, process::id(rt.process()), "given");
    play_rows(&rt, dir.as_str());
    offer_many(&rt, dir.as_str());
}

/// The names in `got`: those of folders are barred there, and those of files and links are not.
const BARRED: &[(&[u8], bool)] = &[
    (b"folder", true),
    (b"file", false),
    (b"link", false),
    (b"none", false),
];

fn is_barred(rt: &impl Abort, folder: &impl Folder, name: &[u8]) -> bool {
    folder.is_barred(&Name::new(name).expect(rt, "a name"))
}

fn look_at(rt: &(impl Files + Abort + AllocGlobal + Clone + Drop), dir: &str) {
    let folder = SystemFolder::looking(rt.alloc(), rt, first(dir)).expect(rt, "memory");
    for (name, barred) in BARRED {
        assert_same(rt, is_barred(rt, &folder, name), *barred);
    }
}

fn look_into_got(rt: &(impl Files + Net + Abort + AllocGlobal + Clone + Drop), dir: &str) {
    let given = [
        Given::Folder("a/got/folder"),
        Given::File("a/got/file", b""),
        Given::Link("a/got/link", "folder"),
    ];
    place_all(rt, dir, &given);
    let folder = within(rt, dir, "a");
    look_at(rt, folder.as_str());
    remove(rt, dir);
}

// a folder that would be a fault once a file comes; a file that is refused, though another may take its place
#[test]
fn bars_the_names_of_folders(rt: HostRuntime) {
    let dir = folder_path(&rt, process::id(rt.process()), "barred");
    look_into_got(&rt, dir.as_str());
}

/// A folder, and whether what a session with one job writes there can be written.
const WRITTEN: &[(&[Given<'static>], bool)] = &[
    (
        &[
            Given::Folder("a/got"),
            Given::File("a/jobs", b"send x x u\n"),
        ],
        true,
    ),
    // no `got`
    (&[Given::File("a/jobs", b"send x x u\n")], false),
    // a folder in the place of the file that lists failed jobs
    (
        &[
            Given::Folder("a/got"),
            Given::File("a/jobs", b"send x x u\n"),
            Given::Folder("a/failed"),
        ],
        false,
    ),
];

fn is_writable(
    rt: &(impl Files<File = File> + Abort + AllocGlobal + Clone + Drop),
    dir: &str,
) -> bool {
    let queue = read_jobs(rt.alloc(), b"send x x u\n").expect(rt, "jobs");
    see_writable(rt.alloc(), rt, first(dir), queue.pending(), true).is_ok()
}

fn see_each(rt: &(impl Files<File = File> + Net + Abort + AllocGlobal + Clone + Drop), dir: &str) {
    for (given, is_so) in WRITTEN {
        place_all(rt, dir, given);
        let folder = within(rt, dir, "a");
        assert_same(rt, is_writable(rt, folder.as_str()), *is_so);
        remove(rt, dir);
    }
}

// a trial that leaves no file; a fault that is passed over
#[test]
fn sees_what_can_be_written(rt: HostRuntime) {
    let dir = folder_path(&rt, process::id(rt.process()), "written");
    see_each(&rt, dir.as_str());
}
