//! Jobs that are put off or given up: what stays of them, the addressees of the notices, and the day.

use crate::assertions::{assert_same_at, assert_so_at, name};
use crate::logs::moment;
use std::alloc::Global;
use std::process::Abort;
use uug_session::Job;
use uug_talk::Name;
use uug_taylor_queue::{
    Execution, OpenLine, WorkStore, add_file, addressee, day_word, held_lines, is_told_with_data,
    month_word, queue_of, read_execution,
};
use uug_taylor_text::{MemoryDisk, Moment, Operation};

// ---- whom it is told

const MAIL: &str =
    "E D.0001 D.alphaN0001 uucp -CNZR D.0001 0666 sender@here.org 0 rmail rcpt1@there.org";

/// A line that has a command run, and the addressee of the notice that this was given up.
const ASKERS: [(&str, &str); 7] = [
    (MAIL, "sender@here.org"),
    // no option says that the name is who asks
    (
        "E D.0001 D.alphaN0001 uucp -CN D.0001 0666 sender@here.org 0 rmail r",
        "uucp",
    ),
    // nobody is named
    (
        "E D.0003 D.alphad0003 news -CNZR D.0003 0666 \"\" 0 rnews",
        "news",
    ),
    // an option to the mailer
    (
        "E D.0001 D.alphaN0001 uucp -CR D.0001 0666 -oQ/tmp 0 rmail r",
        "uucp",
    ),
    (
        "E D.0001 D.alphaN0001 fred -CR D.0001 0666 here!sender 0 rmail r",
        "here!sender",
    ),
    // lines that have no command run
    ("S /srv/f1 ~/notify fred -CdnR D.0004 0644 barney", ""),
    ("R ~/wanted /srv/alpha/pub/here uucp -d", ""),
];

fn is_told(execution: &Execution, text: &str) -> bool {
    let commands = [*execution];
    addressee(&commands, &execution.input).as_bytes() == text.as_bytes()
        && addressee(&commands, &execution.text).as_bytes() == text.as_bytes()
}

#[test]
fn tells_who_has_asked(rt: HostRuntime) {
    for (line, to) in ASKERS {
        match read_execution(line.as_bytes()) {
            Some(execution) => assert_so_at(&rt, is_told(&execution, to), line),
            None => assert_so_at(&rt, to.is_empty(), line),
        }
    }
}

fn mail(rt: &impl Abort) -> Execution {
    read_execution(MAIL.as_bytes()).expect(rt, "a command")
}

/// Asserts that the notice of another line's job goes to its own user.
#[test]
fn tells_the_user_of_another_job(rt: HostRuntime) {
    let other = Job::Request {
        source: name(&rt, "~/wanted"),
        target: name(&rt, "~/here"),
        user: name(&rt, "fred"),
    };
    let commands = [mail(&rt)];
    let to = addressee(&commands, &other);
    assert_so_at(&rt, to.as_str() == "fred", "fred");
    assert_so_at(
        &rt,
        !is_told_with_data(&commands, &[other], &other),
        "other",
    );
}

/// The jobs of a command that have failed: its data, and its text.
const FAILED: [(bool, bool, &str); 3] = [
    (true, true, "both"),
    (true, false, "its data"),
    (false, true, "its text"),
];

fn told(command: &Execution, failed: &[Job]) -> usize {
    let commands = [*command];
    failed
        .iter()
        .filter(|job| !is_told_with_data(&commands, failed, job))
        .count()
}

/// Asserts that one mail is enough when a command fails with its data.
#[test]
fn tells_once_of_a_command(rt: HostRuntime) {
    let command = mail(&rt);
    for (input, text, which) in FAILED {
        let seen = match (input, text) {
            (true, true) => told(&command, &[command.input, command.text]),
            (true, false) => told(&command, &[command.input]),
            _ => told(&command, &[command.text]),
        };
        assert_same_at(&rt, seen, 1, which);
    }
}

// ---- what can't be read

const LINES: &str = "S /srv/f1 ~/one uucp -C D.0001 0644 \nS /srv/f2 ~/two uucp -C D.0002 0644 \n";

fn read_lines(rt: &impl Abort, alloc: Global, unread: &[Name]) -> Vec<OpenLine, Global> {
    let there = [name(rt, "D.0001"), name(rt, "D.0002")];
    let mut lines = Vec::new(alloc);
    let file = name(rt, "C.N0001");
    add_file(&mut lines, &file, LINES.as_bytes(), &there).expect(rt, "memory");
    held_lines(alloc, lines.as_slice(), unread).expect(rt, "memory")
}

fn names_command(operation: &Operation<Global>) -> bool {
    match operation {
        Operation::Unlinked(spot) => spot.name.as_str() == "C.N0001",
        _ => false,
    }
}

fn names_data(operation: &Operation<Global>, text: &str) -> bool {
    match operation {
        Operation::Unlinked(spot) => spot.name.as_bytes() == text.as_bytes(),
        _ => false,
    }
}

/// Asserts that all that is offered of these lines is done. The others, their data and their C. file stay.
fn assert_held(rt: &impl Abort, alloc: Global, unread: &[Name], offered: usize, held: &str) {
    let lines = read_lines(rt, alloc, unread);
    let queue = queue_of(alloc, lines.as_slice(), 1024).expect(rt, "memory");
    assert_same_at(rt, queue.pending().len(), offered, held);
    let files = Vec::new(alloc);
    let mut store = WorkStore::new(alloc, MemoryDisk::new(alloc, 1000), lines, files);
    let done = store.settle_jobs(alloc, queue.pending(), &[], b"");
    assert_so_at(rt, done.is_ok(), held);
    let done = store.disk.operations();
    assert_same_at(
        rt,
        done.iter().any(|o| names_command(o)),
        held.is_empty(),
        held,
    );
    assert_so_at(rt, !done.iter().any(|o| names_data(o, held)), held);
}

#[test]
fn puts_off_what_can_not_be_read(rt: HostRuntime) {
    assert_held(&rt, rt.alloc(), &[], 2, "");
    assert_held(&rt, rt.alloc(), &[name(&rt, "D.0002")], 1, "D.0002");
    assert_held(&rt, rt.alloc(), &[name(&rt, "D.0001")], 1, "D.0001");
}

// ---- the day of a mail

/// Years, months and days, and their names.
const DAYS: [(u16, u8, u8, &str, &str); 8] = [
    (2026, 11, 27, "Fri", "Nov"),
    (2000, 2, 29, "Tue", "Feb"),
    (1970, 1, 1, "Thu", "Jan"),
    (2024, 12, 31, "Tue", "Dec"),
    (2100, 3, 1, "Mon", "Mar"),
    (1900, 1, 1, "Mon", "Jan"),
    (2027, 8, 1, "Sun", "Aug"),
    (2032, 5, 15, "Sat", "May"),
];

fn assert_day(rt: &impl Abort, row: (u16, u8, u8, &str, &str)) {
    let (year, month, day, weekday, called) = row;
    let moment = Moment {
        year,
        month,
        day,
        ..moment(0, 0)
    };
    assert_so_at(rt, day_word(&moment) == weekday, weekday);
    assert_so_at(rt, month_word(month) == called, called);
}

#[test]
fn knows_the_day_of_a_mail(rt: HostRuntime) {
    for row in DAYS {
        assert_day(&rt, row);
    }
}
