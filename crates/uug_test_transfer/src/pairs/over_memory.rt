//! Two ends over a line, folders and files of jobs in memory, of which one call fails or one request for memory is
//! refused. No clause says what these tests check: whatever fails, a job that is gone from the jobs of its end has its
//! file in the folder of the end that takes it, or is printed as failed.

use crate::pairs::assertions::{assert_same, assert_same_at, assert_so, assert_so_at};
use crate::pairs::ends::{Call, End, Ends, Heap, NO_FAULT, PIECE, Plan};
use crate::pairs::memory_folder::MemoryFolder;
use crate::pairs::memory_line::MemoryLine;
use crate::pairs::short_output::ShortOutput;
use crate::pairs::stages::stage_of;
use crate::pairs::tasks::{CALLED, CALLER, REPORT, TASKS, Task};
use std::process::Abort;
use uug_session::Side;
use uug_store::{Folder, TextFile};
use uug_stream::{Output, ToolFault};
use uug_test_alloc::Refusing;
use uug_transfer::{Line, pair_over};

/// More turns than two ends take in any of these tests.
const ENOUGH: u32 = 1000;

/// The result of a run.
#[derive(Clone, Copy)]
struct Outcome {
    answer: Result<u8, ToolFault>,
    /// Set if a call failed.
    has_failed: bool,
}

/// Lets the ends take at most `limit` turns.
fn run<'a>(
    heap: Heap<'a>,
    ends: &mut Ends<'a>,
    (plan, limit): (Plan, u32),
    output: &mut ShortOutput,
) -> Outcome {
    let (reads, writes) = (plan.number_of(Call::Read), plan.number_of(Call::Write));
    let mut line = MemoryLine::new(reads, writes, plan.piece);
    let answer = pair_over(
        heap,
        &mut ends.caller,
        &mut ends.called,
        &mut line,
        limit,
        output,
    );
    let at_line = line.faults().max(output.faults());
    let at_ends = faults(&ends.caller).max(faults(&ends.called));
    Outcome {
        answer,
        has_failed: at_line.max(at_ends) > 0,
    }
}

/// Returns the faults of an end's folder, or of its file of jobs.
fn faults(end: &End<'_>) -> u64 {
    folder(end).faults().max(end.jobs.file.faults())
}

fn folder<'e>(end: &'e End<'_>) -> &'e MemoryFolder {
    end.buffered.node().spool().folder()
}

fn has(text: &[u8], line: &str) -> bool {
    let line = line.as_bytes();
    text.windows(line.len().max(1)).any(|part| part == line)
}

/// Returns the text of the jobs of the end on a side.
fn jobs<'e>(ends: &'e Ends<'_>, side: Side) -> &'e [u8] {
    match side {
        Side::Caller => ends.caller.jobs.file.text(),
        Side::Called => ends.called.jobs.file.text(),
    }
}

/// Returns whether the file of the task of this number is in the folder of the end that takes it.
fn is_taken(ends: &Ends<'_>, number: usize, taker: Side) -> bool {
    let folder = match taker {
        Side::Caller => folder(&ends.caller),
        Side::Called => folder(&ends.called),
    };
    folder.taken().get(number) == Some(&true)
}

/// Returns whether the job of this number is not lost. It is still among those of its end, has its file in the folder
/// of the end that takes it, or is printed as failed.
fn is_not_lost(ends: &Ends<'_>, printed: &[u8], number: usize, task: &Task<'_>) -> bool {
    has(jobs(ends, task.of), task.line)
        || is_taken(ends, number, task.taker)
        || has(printed, task.failed)
}

fn assert_not_lost(rt: &impl Abort, ends: &Ends<'_>, printed: &[u8]) {
    for (number, task) in TASKS.iter().enumerate() {
        assert_so_at(rt, is_not_lost(ends, printed, number, task), task.line);
    }
}

/// The calls that fail, and how many of them there are at least; the stage that the ends reach before the last of them,
/// if it is a call of the line; and the answer.
const FAULTS: [(Call, u32, usize, Result<u8, ToolFault>); 9] = [
    (Call::Read, 40, 7, Err(ToolFault::Device)),
    (Call::Write, 40, 7, Err(ToolFault::Device)),
    (Call::PutOfCaller, 2, 0, Ok(1)),
    (Call::PutOfCalled, 2, 0, Ok(1)),
    (Call::ReadingOfCaller, 1, 0, Err(ToolFault::Device)),
    (Call::ReadingOfCalled, 1, 0, Err(ToolFault::Device)),
    (Call::JobsOfCaller, 1, 0, Err(ToolFault::Device)),
    (Call::JobsOfCalled, 1, 0, Err(ToolFault::Device)),
    (Call::Print, 8, 0, Err(ToolFault::Write)),
];

/// Returns the text of the jobs of an end if the sessions reach their end. It is empty, unless it could not be read, or
/// the new one was refused.
fn left_jobs<'a>(given: &'a str, plan: Plan, reading: Call, text: Call) -> &'a [u8] {
    if plan.number_of(reading) == 1 || plan.number_of(text) == 1 {
        given.as_bytes()
    } else {
        b""
    }
}

/// Asserts what is in the files of jobs if the sessions reach their end.
fn assert_done(rt: &impl Abort, ends: &Ends<'_>, plan: Plan) {
    let caller = left_jobs(CALLER.jobs, plan, Call::ReadingOfCaller, Call::JobsOfCaller);
    let called = left_jobs(CALLED.jobs, plan, Call::ReadingOfCalled, Call::JobsOfCalled);
    assert_same(rt, jobs(ends, Side::Caller), caller);
    assert_same(rt, jobs(ends, Side::Called), called);
}

/// Asserts that all jobs are as before.
fn assert_as_before(rt: &impl Abort, ends: &Ends<'_>) {
    assert_same(rt, jobs(ends, Side::Caller), CALLER.jobs.as_bytes());
    assert_same(rt, jobs(ends, Side::Called), CALLED.jobs.as_bytes());
}

/// Returns whether the sessions reach their end whatever call of this kind fails.
fn is_done(call: Call) -> bool {
    match call {
        Call::ReadingOfCaller
        | Call::ReadingOfCalled
        | Call::JobsOfCaller
        | Call::JobsOfCalled
        | Call::Print => true,
        _ => false,
    }
}

/// Asserts that the ends are at exactly one stage, if this is a call of the line. Returns it, or 0 for another call.
fn assert_stage(rt: &impl Abort, ends: &Ends<'_>, call: Call, printed: &[u8]) -> usize {
    match call {
        Call::Read | Call::Write => {
            let (caller, called) = (jobs(ends, Side::Caller), jobs(ends, Side::Called));
            stage_of(caller, called, printed).expect(rt, "a stage")
        }
        _ => 0,
    }
}

/// Asserts what is left. If a text can't be printed it is not checked what is printed.
fn assert_left(rt: &impl Abort, ends: &Ends<'_>, plan: Plan, output: &ShortOutput) {
    if is_done(plan.call) {
        assert_done(rt, ends, plan);
    }
    if output.faults() > 0 {
        return;
    }
    if is_done(plan.call) {
        assert_same(rt, output.text(), REPORT.as_bytes());
    }
    assert_not_lost(rt, ends, output.text());
}

/// Runs these ends, of which a call fails. Returns their stage then. Returns `None` if there was no such call, and they
/// have reached their end.
fn fail_ends<'a>(
    rt: &impl Abort,
    heap: Heap<'a>,
    ends: &mut Ends<'a>,
    (plan, expected): (Plan, Result<u8, ToolFault>),
) -> Option<usize> {
    let mut output = ShortOutput::new(plan.number_of(Call::Print));
    let outcome = run(heap, ends, (plan, ENOUGH), &mut output);
    let expected = if outcome.has_failed { expected } else { Ok(0) };
    assert_same_at(rt, outcome.answer, expected, plan.number);
    assert_left(rt, ends, plan, &output);
    let stage = assert_stage(rt, ends, plan.call, output.text());
    if outcome.has_failed {
        return Some(stage);
    }
    assert_done(rt, ends, NO_FAULT);
    assert_same(rt, output.text(), REPORT.as_bytes());
    None
}

/// Lets each call of a kind fail in turn. Returns how many there are, and the last stage. Asserts that the ends reach
/// it one stage after the other, from the first on.
fn fail_each(
    rt: &impl Abort,
    heap: Heap<'_>,
    call: Call,
    expected: Result<u8, ToolFault>,
) -> (u32, usize) {
    let mut last = 0;
    for number in 1..10_000 {
        let plan = Plan {
            call,
            number,
            piece: PIECE,
        };
        let Some(stage) = play(rt, heap, Trial::Fault(plan, expected)) else {
            return (number - 1, last);
        };
        let next = if number > 1 {
            last.saturating_add(1)
        } else {
            0
        };
        assert_so_at(rt, stage == last || stage == next, number);
        last = stage;
    }
    panic!(rt; "no end of the calls");
}

// a fault that is skipped; a job that is gone though its file did not come; a fault after which the other jobs stay as
// they were, or nothing is printed, or something else than what was done before it
#[test]
fn loses_no_job_by_a_fault(rt: HostRuntime) {
    let heap = Refusing::new(rt.alloc(), 0);
    for (call, least, stage, answer) in FAULTS {
        let (count, last) = fail_each(&rt, &heap, call, answer);
        assert_so_at(&rt, count >= least, count);
        assert_same(&rt, last, stage);
    }
}

/// Asserts what a run leaves if a request for memory was refused, or none was.
fn assert_refused(
    rt: &impl Abort,
    ends: &Ends<'_>,
    outcome: Outcome,
    was_refused: bool,
    printed: &[u8],
) {
    if was_refused {
        assert_same(rt, outcome.answer, Err(ToolFault::Memory));
        assert_as_before(rt, ends);
        assert_so(rt, printed.is_empty());
    } else {
        assert_same(rt, outcome.answer, Ok(0));
        assert_done(rt, ends, NO_FAULT);
    }
}

/// Refuses the nth request for memory of these ends. Returns whether there was one.
fn refuse_ends<'a>(rt: &impl Abort, heap: Heap<'a>, ends: &mut Ends<'a>, nth: u64) -> bool {
    let mut output = ShortOutput::new(0);
    heap.refuse(nth);
    let outcome = run(heap, ends, (NO_FAULT, ENOUGH), &mut output);
    let was_refused = heap.was_refused();
    assert_refused(rt, ends, outcome, was_refused, output.text());
    was_refused
}

/// Refuses each request for memory in turn. Returns how many there are.
fn refuse_each(rt: &impl Abort, heap: Heap<'_>) -> u64 {
    for nth in 1..10_000 {
        if play(rt, heap, Trial::Refusal(nth)).is_none() {
            return nth - 1;
        }
    }
    panic!(rt; "no end of the requests");
}

#[test]
fn leaves_all_jobs_when_out_of_memory(rt: HostRuntime) {
    let heap = Refusing::new(rt.alloc(), 0);
    let requests = refuse_each(&rt, &heap);
    assert_so_at(&rt, requests > 30, requests);
}

/// The report if no job is done.
const BROKEN_OFF: &[u8] =
    b"caller hungup pending 4 struck 0 failed 0\ncalled hungup pending 2 struck 0 failed 0\n";

/// Lets these ends take too few turns for any job to be done.
fn break_ends_off<'a>(rt: &impl Abort, heap: Heap<'a>, ends: &mut Ends<'a>, limit: u32) {
    let mut output = ShortOutput::new(0);
    let outcome = run(heap, ends, (NO_FAULT, limit), &mut output);
    assert_same(rt, outcome.answer, Ok(1));
    assert_as_before(rt, ends);
    assert_same(rt, output.text(), BROKEN_OFF);
}

#[test]
fn ends_at_the_limit_of_turns(rt: HostRuntime) {
    let heap = Refusing::new(rt.alloc(), 0);
    for limit in [0, 5] {
        play(&rt, &heap, Trial::Limit(limit));
    }
}

/// The text of both files of jobs when the session is over, the maximum number of its turns, and the text that is left
/// then.
#[derive(Clone, Copy)]
struct Change<'a> {
    caller: &'a str,
    called: &'a str,
    limit: u32,
    caller_left: &'a str,
    called_left: &'a str,
}

const CHANGES: &[Change<'static>] = &[
    // jobs were appended, one of them the same as one that is done
    Change {
        caller: "send x y u\nrequest q z u\nsend x .hidden u\nsend none n u\nsend x y u\n",
        called: "request x again u\nsend q back u\n# more\nsend q new u",
        limit: ENOUGH,
        caller_left: "send x y u\n",
        called_left: "# more\nsend q new u",
    },
    // the text is another: each job that is over is taken out once, whatever spaces its line has, and one that has gone
    // already is not missed
    Change {
        caller: "# first\nsend x w u\n send  x y u \nsend x y u\nsend none n u\nbad\n",
        called: "",
        limit: ENOUGH,
        caller_left: "# first\nsend x w u\nsend x y u\nbad\n",
        called_left: "",
    },
    // two lines for a job, of which one stays, and a line without a line feed
    Change {
        caller: "\nrequest q z u\nrequest q z u\nsend q z u\nrequest q z w",
        called: "send q back u\nrequest x again u",
        limit: ENOUGH,
        caller_left: "\nrequest q z u\nsend q z u\nrequest q z w\n",
        called_left: "",
    },
    // no job is over: what is pending stays, and what was appended stays after it
    Change {
        caller: "send x y u\nrequest q z u\nsend x .hidden u\nsend none n u\nsend x new u\n",
        called: "send q back u\nrequest x again u\n",
        limit: 5,
        caller_left: "send x y u\nrequest q z u\nsend x .hidden u\nsend none n u\nsend x new u\n",
        called_left: "send q back u\nrequest x again u\n",
    },
];

/// Runs these ends, whose files of jobs are changed meanwhile. No call fails.
fn change_jobs<'a>(rt: &impl Abort, heap: Heap<'a>, ends: &mut Ends<'a>, change: Change<'_>) {
    let mut output = ShortOutput::new(0);
    run(heap, ends, (NO_FAULT, change.limit), &mut output);
    assert_same(rt, jobs(ends, Side::Caller), change.caller_left.as_bytes());
    assert_same(rt, jobs(ends, Side::Called), change.called_left.as_bytes());
}

// what was appended is dropped; a job that is pending is taken out; two lines go for one job, or none does
#[test]
fn keeps_what_came_into_the_jobs_meanwhile(rt: HostRuntime) {
    let heap = Refusing::new(rt.alloc(), 0);
    for change in CHANGES {
        play(&rt, &heap, Trial::Change(*change));
    }
}

/// For each task, whether its file is in the folder of the end that takes it, if nothing fails.
const TAKEN: [bool; 6] = [true, true, false, false, true, true];

/// A limit that exceeds the turns of the ends if one byte goes in each.
const ENOUGH_FOR_BYTES: u32 = 100_000;

/// Runs these ends over a line that moves `piece` bytes at a time. Asserts that all is done as at any line.
fn move_in_pieces<'a>(rt: &impl Abort, heap: Heap<'a>, ends: &mut Ends<'a>, plan: Plan) {
    let mut output = ShortOutput::new(0);
    let outcome = run(heap, ends, (plan, ENOUGH_FOR_BYTES), &mut output);
    assert_same(rt, outcome.answer, Ok(0));
    assert_done(rt, ends, NO_FAULT);
    assert_same(rt, output.text(), REPORT.as_bytes());
    for (number, (task, taken)) in TASKS.iter().zip(TAKEN).enumerate() {
        let seen = is_taken(ends, number, task.taker);
        assert_same_at(rt, seen, taken, task.line);
    }
}

// bytes that are lost, or written twice, where a write takes a part of what it was given; a read that has to bring all
#[test]
fn goes_in_pieces_as_whole(rt: HostRuntime) {
    let heap = Refusing::new(rt.alloc(), 0);
    for piece in [1, 2, 7, 64, 4096] {
        play(&rt, &heap, Trial::Pieces(piece));
    }
}

/// A trial with two ends.
#[derive(Clone, Copy)]
enum Trial {
    /// A call fails, and this is the answer.
    Fault(Plan, Result<u8, ToolFault>),
    /// The request for memory of this number is refused.
    Refusal(u64),
    /// They take too few turns for any job to be done.
    Limit(u32),
    /// Both files of jobs are changed meanwhile.
    Change(Change<'static>),
    /// The line moves this many bytes at a time.
    Pieces(usize),
}

impl Trial {
    fn plan(self) -> Plan {
        match self {
            Trial::Fault(plan, _) => plan,
            Trial::Pieces(piece) => Plan {
                call: Call::Read,
                number: 0,
                piece,
            },
            _ => NO_FAULT,
        }
    }

    /// Returns the text of both files of jobs when the session is over.
    fn texts(self) -> (&'static str, &'static str) {
        match self {
            Trial::Change(change) => (change.caller, change.called),
            _ => (CALLER.jobs, CALLED.jobs),
        }
    }
}

/// Plays it with these ends. Returns their stage if a call of the line failed, and `None` if there was no such call or
/// request.
fn play_with<'a>(
    rt: &impl Abort,
    heap: Heap<'a>,
    ends: &mut Ends<'a>,
    trial: Trial,
) -> Option<usize> {
    match trial {
        Trial::Fault(plan, expected) => return fail_ends(rt, heap, ends, (plan, expected)),
        Trial::Refusal(nth) if !refuse_ends(rt, heap, ends, nth) => return None,
        Trial::Refusal(_) => (),
        Trial::Limit(limit) => break_ends_off(rt, heap, ends, limit),
        Trial::Change(change) => change_jobs(rt, heap, ends, change),
        Trial::Pieces(_) => move_in_pieces(rt, heap, ends, trial.plan()),
    }
    Some(0)
}

// The one place where two ends are made and dropped, since that is dear to prove.
fn play(rt: &impl Abort, heap: Heap<'_>, trial: Trial) -> Option<usize> {
    heap.refuse(0);
    let mut ends = Ends::new(rt, heap, trial.plan(), trial.texts());
    let stage = play_with(rt, heap, &mut ends, trial);
    drop(ends);
    stage
}
