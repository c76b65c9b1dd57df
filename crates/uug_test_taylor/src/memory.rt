//! Calls for which one request for memory is refused: each reports it, and can be made again.

use crate::assertions::{assert_same_at, assert_so_at, name};
use crate::logs::moment;
use std::alloc::{AllocError, Global};
use std::process::Abort;
use uug_session::Partials;
use uug_store::{held_line, into_partial};
use uug_talk::{FileDigest, Name, NamedDigest};
use uug_taylor_queue::{WorkStore, add_file, queue_of};
use uug_taylor_text::{
    Amount, CallState, Command, Course, LogEvent, LogHead, MemoryDisk, StatsHead, Status,
    add_command_line, execution_text, log_line, name_said, quoted, read_command, stats_line,
    status_line,
};
use uug_test_alloc::Refusing;

type Heap<'a> = &'a Refusing<Global>;

/// A line that is longer than a first block of memory.
const LINE: &[u8] =
    b"E D.0001 D.alphaN0001 uucp -CNZR D.0001 0666 sender@here.org 0 rmail rcpt1@there.org";

/// A call that takes memory.
#[derive(Clone, Copy)]
enum Call {
    Name,
    Word,
    Line,
    Execution,
    Log,
    Statistics,
    Status,
    Mail,
    Partial,
}

fn write_line(heap: Heap<'_>) -> Result<(), AllocError> {
    let mut text = Vec::new(heap);
    match read_command(LINE) {
        Ok(command) => add_command_line(&mut text, &command),
        Err(_) => Ok(()),
    }
}

fn write_execution(heap: Heap<'_>, node: &Name) -> bool {
    match read_command(LINE) {
        Ok(Command::Execute(fields, file, command)) => {
            execution_text(heap, node, &fields, &file, command).is_ok()
        }
        _ => true,
    }
}

fn write_log(heap: Heap<'_>) -> bool {
    let head = LogHead {
        program: LINE,
        system: LINE,
        user: LINE,
        moment: moment(0, 0),
        process: 1,
    };
    log_line(heap, &head, &LogEvent::Fault(LINE)).is_ok()
}

fn write_statistics(heap: Heap<'_>) -> bool {
    let head = StatsHead {
        user: LINE,
        system: LINE,
        moment: moment(0, 0),
        port: LINE,
    };
    let amount = Amount {
        bytes: 1,
        thousandths: 1,
    };
    stats_line(heap, &head, Course::Sent, false, amount).is_ok()
}

fn write_status(heap: Heap<'_>, system: &Name) -> bool {
    let status = Status {
        state: CallState::Complete,
        tries: 0,
        time: 0,
        wait: 0,
    };
    status_line(heap, &status, system).is_ok()
}

/// Reads the lines of a C. file, and settles their jobs. Returns whether it was done.
fn settle_mail(heap: Heap<'_>, node: &Name) -> bool {
    let Ok(data) = Name::new(b"D.0001") else {
        return true;
    };
    let mut lines = Vec::new(heap);
    if add_file(&mut lines, node, LINE, &[data]).is_err() {
        return false;
    }
    let Ok(queue) = queue_of(heap, lines.as_slice(), 1024) else {
        return false;
    };
    let files = Vec::new(heap);
    let mut mail = WorkStore::new(heap, MemoryDisk::new(heap, 1000), lines, files);
    mail.settle_jobs(heap, queue.pending(), &[], b"told")
        .is_ok()
}

/// Holds what a text holds of a file.
fn hold_partial(heap: Heap<'_>, source: &Name) -> Result<(), AllocError> {
    let line = held_line(&NamedDigest {
        name: *source,
        told: FileDigest::of(LINE),
    });
    let mut partials = Partials::new(heap);
    match into_partial(line.as_slice().to_vec(heap)?) {
        Some(file) => partials.put(file),
        None => Ok(()),
    }
}

/// Makes the call. Returns whether it was done.
fn make(heap: Heap<'_>, node: &Name, call: Call) -> bool {
    match call {
        Call::Name => name_said(heap, b"-Cq", LINE).is_ok(),
        Call::Word => quoted(heap, LINE).is_ok(),
        Call::Line => write_line(heap).is_ok(),
        Call::Execution => write_execution(heap, node),
        Call::Log => write_log(heap),
        Call::Statistics => write_statistics(heap),
        Call::Status => write_status(heap, node),
        Call::Mail => settle_mail(heap, node),
        Call::Partial => hold_partial(heap, node).is_ok(),
    }
}

/// Refuses the nth request of the call, which reports it and can be made again. Returns whether there was one.
fn refuse(rt: &impl Abort, heap: Heap<'_>, node: &Name, (call, nth): (Call, u64)) -> bool {
    heap.refuse(nth);
    let is_done = make(heap, node, call);
    let was_refused = heap.was_refused();
    assert_same_at(rt, is_done, !was_refused, nth);
    heap.refuse(0);
    assert_so_at(rt, make(heap, node, call), nth);
    was_refused
}

/// More requests than any of the calls makes.
const ENOUGH: u64 = 100;

/// Refuses each request of the call in turn. Returns their number.
fn requests(rt: &impl Abort, heap: Heap<'_>, node: &Name, call: Call) -> u64 {
    for nth in 1..ENOUGH {
        if !refuse(rt, heap, node, (call, nth)) {
            return nth - 1;
        }
    }
    ENOUGH
}

const CALLS: [Call; 9] = [
    Call::Name,
    Call::Word,
    Call::Line,
    Call::Execution,
    Call::Log,
    Call::Statistics,
    Call::Status,
    Call::Mail,
    Call::Partial,
];

fn refuse_calls(rt: &impl Abort, heap: Heap<'_>) {
    let node = name(rt, "alpha");
    for call in CALLS {
        let count = requests(rt, heap, &node, call);
        assert_so_at(rt, 1 <= count && count < ENOUGH, count);
    }
}

#[test]
fn makes_refused_calls_good(rt: HostRuntime) {
    let heap = Refusing::new(rt.alloc(), 0);
    refuse_calls(&rt, &heap);
}
