//! The lines of C. files as the jobs of a session, and the places of received files.

use crate::assertions::{assert_same_at, assert_so_at, name};
use std::alloc::Global;
use std::process::Abort;
use uug_session::Job;
use uug_talk::Name;
use uug_taylor_queue::{Came, OpenLine, SpoolFolder, add_file};
use uug_taylor_text::{MemoryDisk, Operation, Room, spot_of};

// ---- what is read

/// A line that is open: its copy, or nothing, and the names of its job.
#[derive(Clone, Copy)]
enum Open {
    Send(&'static str, &'static str, &'static str),
    Request(&'static str, &'static str),
    Stays,
}

/// A text of a C. file, the data that is there, and the lines that are open.
type Row = (&'static str, &'static [&'static str], &'static [Open]);

const ROWS: [Row; 9] = [
    (
        "S /srv/f1 ~/copym uucp -Cdm D.0003 0644 \n",
        &["D.0003"],
        &[Open::Send("D.0003", "/srv/f1", "~/copym")],
    ),
    // the copy is gone, and so it is over
    (
        "S /srv/f1 ~/copym uucp -Cdm D.0003 0644 \n",
        &["D.0001"],
        &[],
    ),
    (
        "S /srv/f1 ~/nocopy uucp -cd D.0002 0644 \n",
        &[],
        &[Open::Send("", "/srv/f1", "~/nocopy")],
    ),
    (
        "R ~/wanted /srv/alpha/pub/here uucp -d\n",
        &[],
        &[Open::Request("~/wanted", "/srv/alpha/pub/here")],
    ),
    (
        "E D.0001 D.alphaN0001 uucp -CNZR D.0001 0666 sender@here.org 0 rmail rcpt1@there.org\n",
        &["D.0001"],
        &[
            Open::Send("D.0001", "D.0001", "D.alphaN0001"),
            Open::Send("D.0001", "D.X0001", "X.alphaN0001"),
        ],
    ),
    (
        "E D.0001 D.alphaN0001 uucp -CNZR D.0001 0666 sender@here.org 0 rmail rcpt1@there.org\n",
        &[],
        &[],
    ),
    // what no session offers stays
    (
        "X ~/glob* alpha!/srv/alpha/pub/ uucp -d\nnonsense\n",
        &[],
        &[Open::Stays, Open::Stays],
    ),
    (
        "S /srv/a\\040b ~/a\\040b uucp -Cdq D.0004 0644 \nR ~/w /srv/h uucp -d",
        &["D.0004"],
        &[Open::Stays, Open::Request("~/w", "/srv/h")],
    ),
    // called once
    ("", &[], &[]),
];

fn is_name(name: &Name, text: &str) -> bool {
    name.as_bytes() == text.as_bytes()
}

fn is_copy(copy: &Option<Name>, text: &str) -> bool {
    match copy {
        Some(copy) => is_name(copy, text),
        None => text.is_empty(),
    }
}

fn is_open(line: &OpenLine, open: Open) -> bool {
    match (&line.job, open) {
        (Some(Job::Send { source, target, .. }), Open::Send(copy, from, to)) => {
            is_copy(&line.copy, copy) && is_name(source, from) && is_name(target, to)
        }
        (Some(Job::Request { source, target, .. }), Open::Request(from, to)) => {
            is_name(source, from) && is_name(target, to)
        }
        (None, Open::Stays) => true,
        _ => false,
    }
}

fn names(rt: &impl Abort, alloc: Global, texts: &[&str]) -> Vec<Name, Global> {
    let mut names = Vec::new(alloc);
    for text in texts {
        names.push(name(rt, text)).expect(rt, "memory");
    }
    names
}

fn assert_read(rt: &impl Abort, alloc: Global, row: Row) {
    let (text, there, open) = row;
    let there = names(rt, alloc, there);
    let mut lines = Vec::new(alloc);
    let file = name(rt, "C.N0001");
    add_file(&mut lines, &file, text.as_bytes(), there.as_slice()).expect(rt, "memory");
    assert_same_at(rt, lines.len(), open.len(), text);
    for (line, open) in lines.iter().zip(open.iter()) {
        assert_so_at(rt, is_open(line, *open), text);
        assert_so_at(rt, is_name(&line.file, "C.N0001"), text);
    }
}

#[test]
fn reads_the_lines_of_a_file(rt: HostRuntime) {
    for row in ROWS {
        assert_read(&rt, rt.alloc(), row);
    }
}

// ---- the taker's folders

/// A file, and its bytes, if they matter.
type Coming = (&'static str, &'static str);

/// The markers that are there when the session begins, the files that arrive, the number of them that get their places,
/// and the number of markers that go.
type Arrival = (&'static [Coming], &'static [Coming], usize, usize);

const TEXT: &str = "U uucp alpha\nF D.alphaN0001\nI D.alphaN0001\nC rmail u\n";

/// The digest of the bytes "a mail", and that of "another".
const MAIL: &str = "213fff0d01adac23a486f7fbd5ca4d95a266770ac39c7f1270c78c0ee6dc39a4";

const OTHER: &str = "ae448ac86c4e8e4dec645729708ef41873ae79c6dff84eff73360989487f08e5";

const ARRIVALS: [Arrival; 12] = [
    // the marker of a mail's data stays beside that of its execution file, until the next data comes
    (
        &[],
        &[("D.alphaN0001", "a mail"), ("X.alphaN0001", TEXT)],
        2,
        0,
    ),
    (
        &[],
        &[
            ("D.alphaN0001", "a mail"),
            ("X.alphaN0001", TEXT),
            ("D.alphaN0002", "another"),
        ],
        3,
        2,
    ),
    // both had come
    (
        &[("D.alphaN0001", MAIL), ("X.alphaN0001", TEXT)],
        &[("D.alphaN0001", "a mail"), ("X.alphaN0001", TEXT)],
        0,
        0,
    ),
    // both had come, and the sender has named the execution file anew
    (
        &[("D.alphaN0001", MAIL), ("X.alphaN0002", TEXT)],
        &[("D.alphaN0001", "a mail"), ("X.alphaN0003", TEXT)],
        0,
        0,
    ),
    // the execution file comes alone
    (&[("X.alphaN0001", TEXT)], &[("X.alphaN0001", TEXT)], 0, 0),
    // the sender's spool was made anew: another mail has the names of one that had come
    (
        &[("D.alphaN0001", OTHER), ("X.alphaN0001", TEXT)],
        &[("D.alphaN0001", "a mail"), ("X.alphaN0001", TEXT)],
        2,
        0,
    ),
    // the data had come, and its execution file is another one
    (
        &[("D.alphaN0001", MAIL), ("X.alphaN0001", "C news\n")],
        &[("D.alphaN0001", "a mail"), ("X.alphaN0001", TEXT)],
        1,
        0,
    ),
    // two commands with no data may be the same
    (
        &[("X.alphaN0002", "U uucp alpha\nC rmail u\n")],
        &[("X.alphaN0003", "U uucp alpha\nC rmail u\n")],
        1,
        0,
    ),
    // a marker of the time when it had the name of its file
    (
        &[("D.alphaN0001", "D.alphaN0001")],
        &[("D.alphaN0001", "a mail")],
        1,
        0,
    ),
    // the same name again in one session
    (&[], &[("x", ""), ("x", "")], 2, 1),
    // a file of this name in the public folder may be another one
    (&[("x", "")], &[("x", ""), ("y", "")], 2, 1),
    // names that are barred
    (&[], &[("D.0001", ""), ("C.N0001", ""), ("../x", "")], 0, 0),
];

fn markers(rt: &impl Abort, alloc: Global, texts: &[Coming]) -> Vec<Came<Global>, Global> {
    let mut came = Vec::new(alloc);
    for coming in texts {
        let (marker, text) = *coming;
        let marker = Came {
            name: name(rt, marker),
            text: text.as_bytes().to_vec(alloc).expect(rt, "memory"),
        };
        came.push(marker).expect(rt, "memory");
    }
    came
}

fn is_marker(operation: &Operation<Global>) -> bool {
    match operation {
        Operation::Unlinked(spot) => spot.room == Room::Marked,
        _ => false,
    }
}

fn is_rename(operation: &Operation<Global>) -> bool {
    match operation {
        Operation::Renamed(_, _) => true,
        _ => false,
    }
}

fn assert_arrival(rt: &impl Abort, alloc: Global, row: Arrival) {
    let (came, files, placed, unmarked) = row;
    let came = markers(rt, alloc, came);
    let mut folder = SpoolFolder::new(MemoryDisk::new(alloc, 1000), came);
    for coming in files {
        let (file, text) = *coming;
        let Ok(place) = spot_of(&name(rt, file)) else {
            continue;
        };
        let done = folder.place(&place, text.as_bytes());
        assert_so_at(rt, done.is_ok(), placed);
    }
    let operations = folder.disk.operations();
    assert_same_at(
        rt,
        operations.iter().filter(|o| is_rename(o)).count(),
        placed,
        placed,
    );
    assert_same_at(
        rt,
        operations.iter().filter(|o| is_marker(o)).count(),
        unmarked,
        unmarked,
    );
}

#[test]
fn places_what_had_not_come(rt: HostRuntime) {
    for row in ARRIVALS {
        assert_arrival(&rt, rt.alloc(), row);
    }
}
