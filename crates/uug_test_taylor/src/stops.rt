//! Two ends over spools in memory. Each is stopped at each of its operations in turn, and the line after each answer;
//! then both go on over a good line. Each mail is delivered once, and no file is lost.

use crate::assertions::{assert_same_at, assert_so_at, name};
use std::alloc::Global;
use std::process::Abort;
use uug_session::Job;
use uug_store::JobStore;
use uug_talk::Name;
use uug_taylor_queue::{Came, OpenLine, SpoolFolder, WorkStore, add_file, queue_of, settle_file};
use uug_taylor_text::{Disk, MemoryDisk, Operation, Room, Spot, finish, spot_of};

/// The files of the sender: a mail, and two files in one job.
const FILES: [&str; 5] = ["C.N0001", "C.N0002", "D.0001", "D.0002", "D.0003"];

const MAIL: &str = "E D.0001 D.alphaN0001 uucp -CN D.0001 0666 u@here 0 rmail v@there\n";

const COPIES: &str = "S /a a uucp -C D.0002 0644 \nS /b b uucp -C D.0003 0644 \n";

/// The files that arrive: the data of the mail, its execution file, and both copies.
const TARGETS: [&str; 4] = ["D.alphaN0001", "X.alphaN0001", "a", "b"];

/// The bytes of each.
const BYTES: [&str; 4] = [
    "a mail\n",
    "U uucp alpha\nF D.alphaN0001\nI D.alphaN0001\nC rmail v@there\n",
    "a",
    "b",
];

// ---- where a session is stopped

/// The event that stops a session.
#[derive(Clone, Copy, PartialEq, Eq)]
enum Stop {
    /// The sender's operation after this many others fails.
    Sender(u64),
    /// The taker's operation after this many others fails.
    Taker(u64),
    /// The answer for this job does not reach the sender.
    Unheard(usize),
    /// The answer reaches the sender, and its acknowledgement does not reach the taker.
    Unacknowledged(usize),
    Nothing,
}

/// The number of operations in a whole session of the sender, that of the taker, and that of the jobs.
const SENDER: u64 = 10;

const TAKER: u64 = 40;

const JOBS: u64 = 4;

/// The number of stops.
const STOPS: u64 = SENDER + TAKER + JOBS + JOBS;

/// Returns the stop of this number; after the last one nothing stops the session.
fn stop_of(number: u64) -> Stop {
    if number < SENDER {
        Stop::Sender(number)
    } else if number < SENDER + TAKER {
        Stop::Taker(number - SENDER)
    } else if number < SENDER + TAKER + JOBS {
        Stop::Unheard((number - SENDER - TAKER) as usize)
    } else if number < STOPS {
        Stop::Unacknowledged((number - SENDER - TAKER - JOBS) as usize)
    } else {
        Stop::Nothing
    }
}

/// More operations than a session has.
const ENOUGH: u64 = 1000;

fn sender_fails_after(stop: Stop) -> u64 {
    match stop {
        Stop::Sender(count) => count,
        _ => ENOUGH,
    }
}

fn taker_fails_after(stop: Stop) -> u64 {
    match stop {
        Stop::Taker(count) => count,
        _ => ENOUGH,
    }
}

// ---- what both have

/// The state of a file at the taker.
#[derive(Clone, Copy)]
struct Taken {
    /// It is complete beside its place.
    is_held: bool,
    /// Its marker is there.
    is_marked: bool,
    /// It is in its place.
    is_there: bool,
    /// The number of times that it was put there.
    placed: u32,
}

const NOTHING: Taken = Taken {
    is_held: false,
    is_marked: false,
    is_there: false,
    placed: 0,
};

/// The state of both disks.
#[derive(Clone, Copy)]
struct World {
    /// True for each of the sender's files that is there.
    there: [bool; 5],
    /// The state of each file that arrives at the taker.
    taken: [Taken; 4],
    /// The number of times that the mail was delivered.
    delivered: u32,
}

fn is_name(name: &Name, text: &str) -> bool {
    name.as_bytes() == text.as_bytes()
}

/// Notes an operation on the sender's files.
fn note(world: &mut World, operation: &Operation<Global>) {
    let Operation::Unlinked(spot) = operation else {
        return;
    };
    for i in 0..FILES.len() {
        if is_name(&spot.name, FILES[i]) {
            world.there[i] = false;
        }
    }
}

/// Notes an operation on one file of the taker.
fn change(taken: &mut Taken, operation: &Operation<Global>) {
    match operation {
        Operation::Made(spot, _) if spot.room == Room::Marked => taken.is_marked = true,
        Operation::Synced(spot) if spot.room == Room::Temporary => taken.is_held = true,
        Operation::Unlinked(spot) if spot.room == Room::Marked => taken.is_marked = false,
        Operation::Unlinked(spot) if spot.room == Room::Temporary => taken.is_held = false,
        Operation::Renamed(_, _) => {
            taken.is_held = false;
            taken.is_there = true;
            taken.placed = taken.placed.saturating_add(1);
        }
        _ => (),
    }
}

/// Returns whether this was done to the file of this name.
fn is_of(operation: &Operation<Global>, file: &str) -> bool {
    match operation {
        Operation::Made(spot, _)
        | Operation::Synced(spot)
        | Operation::Unlinked(spot)
        | Operation::Renamed(spot, _) => is_name(&spot.name, file),
        Operation::FolderSynced(_) => false,
    }
}

/// Notes an operation on the taker's files.
fn see(world: &mut World, operation: &Operation<Global>) {
    for i in 0..TARGETS.len() {
        if is_of(operation, TARGETS[i]) {
            change(&mut world.taken[i], operation);
        }
    }
}

fn note_all(world: &mut World, disk: &MemoryDisk<Global>) {
    for operation in disk.operations() {
        note(world, operation);
    }
}

fn see_all(world: &mut World, disk: &MemoryDisk<Global>) {
    for operation in disk.operations() {
        see(world, operation);
    }
}

/// Delivers the mail, if its execution file and its data are there; then they are not.
fn deliver(world: &mut World) {
    if world.taken[0].is_there && world.taken[1].is_there {
        world.taken[0].is_there = false;
        world.taken[1].is_there = false;
        world.delivered = world.delivered.saturating_add(1);
    }
}

// ---- how a session begins

/// Adds the lines of this C. file that are open, if it is there.
fn add_lines(
    rt: &impl Abort,
    lines: &mut Vec<OpenLine, Global>,
    is_there: bool,
    (file, text): (&str, &str),
    there: &[Name],
) {
    if is_there {
        add_file(lines, &name(rt, file), text.as_bytes(), there).expect(rt, "memory");
    }
}

/// Returns the sender's lines that are open.
fn read(rt: &impl Abort, alloc: Global, world: &World) -> Vec<OpenLine, Global> {
    let mut there = Vec::new(alloc);
    for i in 0..FILES.len() {
        if world.there[i] {
            there.push(name(rt, FILES[i])).expect(rt, "memory");
        }
    }
    let mut lines = Vec::new(alloc);
    let [has_mail, has_copies, ..] = world.there;
    let there = there.as_slice();
    add_lines(rt, &mut lines, has_mail, (FILES[0], MAIL), there);
    add_lines(rt, &mut lines, has_copies, (FILES[1], COPIES), there);
    lines
}

/// The texts of the markers of the mail: the digest of its data, and its execution file.
const MARKERS: [&str; 2] = [
    "78441d8c26af3c44d3820906fe30c3cfbb7d9c69820ffe700b11d546314d9a5a",
    "U uucp alpha\nF D.alphaN0001\nI D.alphaN0001\nC rmail v@there\n",
];

/// Returns the markers of the taker that are there, except those of files in the public folder.
fn markers(rt: &impl Abort, alloc: Global, world: &World) -> Vec<Came<Global>, Global> {
    let mut came = Vec::new(alloc);
    for i in 0..MARKERS.len() {
        if world.taken[i].is_marked {
            let text = MARKERS[i].as_bytes().to_vec(alloc);
            let marker = Came {
                name: name(rt, TARGETS[i]),
                text: text.expect(rt, "memory"),
            };
            came.push(marker).expect(rt, "memory");
        }
    }
    came
}

/// Puts the file of a marker in its place, if it is complete beside it. Removes the marker of a file in the public
/// folder. Returns whether all was done.
fn finish_one(rt: &impl Abort, disk: &mut MemoryDisk<Global>, file: &str, is_held: bool) -> bool {
    let file = name(rt, file);
    let place = spot_of(&file).expect(rt, "a place");
    if is_held && finish(disk, &file, &place).is_err() {
        return false;
    }
    if place.room != Room::Public {
        return true;
    }
    let marker = Spot {
        room: Room::Marked,
        name: file,
    };
    disk.unlink(&marker).is_ok() && disk.sync_folder(Room::Marked).is_ok()
}

/// Finishes what another session has left. Returns whether all was done.
fn finish_all(rt: &impl Abort, disk: &mut MemoryDisk<Global>, world: &World) -> bool {
    for i in 0..TARGETS.len() {
        let Taken {
            is_held,
            is_marked,
            ..
        } = world.taken[i];
        if is_marked && !finish_one(rt, disk, TARGETS[i], is_held) {
            return false;
        }
    }
    true
}

// ---- a session

type Sender = WorkStore<MemoryDisk<Global>, Global>;

type Taker = SpoolFolder<MemoryDisk<Global>, Global>;

/// Takes the file of this job at the taker. Returns whether it is in its place.
fn take(taker: &mut Taker, job: &Job) -> bool {
    let Job::Send { target, .. } = job else {
        return false;
    };
    for i in 0..TARGETS.len() {
        if is_name(target, TARGETS[i]) {
            return match spot_of(target) {
                Ok(place) => taker.place(&place, BYTES[i].as_bytes()).is_ok(),
                Err(_) => false,
            };
        }
    }
    false
}

/// Sends the file of this job, and strikes the job. Returns whether the session goes on.
fn send(
    alloc: Global,
    sender: &mut Sender,
    taker: &mut Taker,
    (i, job): (usize, &Job),
    stop: Stop,
) -> bool {
    take(taker, job)
        && stop != Stop::Unheard(i)
        && sender.settle(alloc, &[*job], &[], b"").is_ok()
        && stop != Stop::Unacknowledged(i)
}

/// Sends all jobs in turn. Returns whether none was stopped.
fn send_all(
    rt: &impl Abort,
    alloc: Global,
    sender: &mut Sender,
    taker: &mut Taker,
    stop: Stop,
) -> bool {
    let queue = queue_of(alloc, sender.lines(), 1024).expect(rt, "memory");
    for (i, job) in queue.pending().iter().enumerate() {
        if !send(alloc, sender, taker, (i, job), stop) {
            return false;
        }
    }
    true
}

/// Removes each C. file that has no line left, at the sender. Returns whether all was done.
fn tidy(rt: &impl Abort, disk: &mut MemoryDisk<Global>) -> bool {
    settle_file(disk, &name(rt, FILES[0]), &[]).is_ok()
        && settle_file(disk, &name(rt, FILES[1]), &[]).is_ok()
}

/// Ends the session after both have said that they are done. Returns whether all was done then.
fn end(rt: &impl Abort, sender: &mut Sender, taker: &mut Taker) -> bool {
    let is_tidy = tidy(rt, &mut sender.disk);
    let has_ended = taker.end().is_ok();
    is_tidy && has_ended
}

/// Runs one session, and notes what it leaves. Returns whether it was not stopped.
fn session(rt: &impl Abort, alloc: Global, world: &mut World, stop: Stop) -> bool {
    let came = markers(rt, alloc, world);
    let mut taker = SpoolFolder::new(MemoryDisk::new(alloc, taker_fails_after(stop)), came);
    let lines = read(rt, alloc, world);
    let disk = MemoryDisk::new(alloc, sender_fails_after(stop));
    let mut sender = WorkStore::new(alloc, disk, lines, Vec::new(alloc));
    let is_done = finish_all(rt, &mut taker.disk, world)
        && send_all(rt, alloc, &mut sender, &mut taker, stop)
        && end(rt, &mut sender, &mut taker);
    note_all(world, &sender.disk);
    see_all(world, &taker.disk);
    is_done
}

// ---- the tables

const BEGINNING: World = World {
    there: [true; 5],
    taken: [NOTHING; 4],
    delivered: 0,
};

/// Asserts that all has arrived: the mail once, and nothing is left of it at either end.
fn assert_all_came(rt: &impl Abort, world: &World, number: u64) {
    assert_same_at(rt, world.there, [false; 5], number);
    assert_same_at(rt, world.delivered, 1, number);
    assert_same_at(rt, world.taken[1].placed, 1, number);
    assert_so_at(rt, !world.taken[0].is_there, number);
    assert_so_at(
        rt,
        world.taken[2].is_there && world.taken[3].is_there,
        number,
    );
}

/// Runs a session that is stopped, and one that is not, and asserts that all has arrived.
fn assert_stopped(rt: &impl Abort, alloc: Global, number: u64) {
    let mut world = BEGINNING;
    let is_done = session(rt, alloc, &mut world, stop_of(number));
    assert_same_at(rt, is_done, number == STOPS, number);
    deliver(&mut world);
    let is_done = session(rt, alloc, &mut world, Stop::Nothing);
    assert_so_at(rt, is_done, number);
    deliver(&mut world);
    assert_all_came(rt, &world, number);
}

#[test]
fn delivers_each_mail_once(rt: HostRuntime) {
    for number in 0..=STOPS {
        assert_stopped(&rt, rt.alloc(), number);
    }
}

/// Runs two sessions that are stopped, and one that is not, and asserts that all has arrived. What had arrived is
/// delivered only in the end, or between them too.
fn assert_stopped_twice(rt: &impl Abort, alloc: Global, (first, second): (u64, u64)) {
    let mut world = BEGINNING;
    session(rt, alloc, &mut world, stop_of(first));
    if second % 2 == 0 {
        deliver(&mut world);
    }
    session(rt, alloc, &mut world, stop_of(second));
    if second % 3 == 0 {
        deliver(&mut world);
    }
    session(rt, alloc, &mut world, Stop::Nothing);
    deliver(&mut world);
    assert_all_came(
        rt,
        &world,
        first.saturating_mul(1000).saturating_add(second),
    );
}

fn assert_stopped_then(rt: &impl Abort, alloc: Global, first: u64) {
    for second in 0..STOPS {
        assert_stopped_twice(rt, alloc, (first, second));
    }
}

#[test]
fn delivers_each_mail_once_after_two_stops(rt: HostRuntime) {
    for first in 0..STOPS {
        assert_stopped_then(&rt, rt.alloc(), first);
    }
}
