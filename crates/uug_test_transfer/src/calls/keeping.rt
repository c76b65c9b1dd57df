//! A call that asks for a file, and is stopped at each operation of its line, of its files of jobs and of its folder in
//! turn. Then it is made again over a good line. No job is gone whose file is not in the folder, and none is done
//! again.
ghost use Rattle.std.specs.Prelude.{Some};
ghost use Rattle.uug_store.specs.OpenJobs.{jobs_in};
ghost use Rattle.uug_talk.specs.Lines.{lines};
ghost use Rattle.uug_transfer.specs.BufferedNodes.{node_in, spool_in};
ghost use Rattle.uug_transfer.specs.SessionFaults.{UnlessUnsettled};
ghost use Rattle.uug_transfer.specs.Settling.{LosesNoJob, StaysInStore, TellsFailed};

use super::memory_folder::MemoryFolder;
use super::memory_jobs::MemoryJobs;
use super::memory_text::MemoryText;
use super::scenes::{AMPLE, CLEAN, LIMITS, NEVER};
use super::scripted_line::ScriptedLine;
use super::{Manner, buffered, place, spool};
use crate::calls::assertions::{assert_same, assert_so};
use std::alloc::Global;
use std::process::Abort;
use uug_session::{Node, Queue, Spool};
use uug_store::{FolderSpool, JobsFile, read_jobs};
use uug_transfer::{BufferedNode, FaultInjector, SessionFault, run_at_line};

/// The first operation of each that fails, counted from 0. All after it fail too.
#[derive(Clone, Copy)]
struct Stop {
    line: usize,
    jobs: usize,
    folder: usize,
}

const JOBS: &[u8] = b"# mine\nrequest x y u\n";

/// The file of jobs when all are over.
const LEFT: &[u8] = b"# mine\n";

type AskingEnd = BufferedNode<FolderSpool<MemoryFolder, Global>, Global>;

type MemoryStore = JobsFile<MemoryJobs, Global>;

/// The result of a session: whether the file is in the folder then, how many files were put there, and whether an
/// operation has failed.
#[derive(Clone, Copy)]
struct Came {
    holds: bool,
    puts: usize,
    failed: bool,
}

fn asking(rt: &impl Abort, alloc: Global, jobs: Queue<Global>, fails_at: usize) -> AskingEnd {
    let folder = MemoryFolder::new(alloc, fails_at);
    let files = FolderSpool::new(alloc, Vec::new(alloc), folder);
    let node = Node::caller(alloc, place(rt, b"a", b"b", None), jobs, files);
    let buffered = BufferedNode::new(alloc, node.expect(rt, "an end"), FaultInjector::none());
    buffered.expect(rt, "memory for a buffer")
}

/// Returns a line to an end that has the file.
fn line_to_giver(rt: &impl Abort, alloc: Global, manner: Manner) -> ScriptedLine {
    let giver = Node::called(
        alloc,
        place(rt, b"b", b"a", None),
        Queue::new(alloc),
        spool(rt, alloc, b"hi"),
    );
    ScriptedLine::new(buffered(rt, alloc, giver.expect(rt, "an end")), manner)
}

/// Runs the session itself. The clauses hold of the texts in memory: what is over is taken out of the jobs, and nothing
/// else, and `failed` says why a job has failed.
fn run(
    alloc: Global,
    end: &mut AskingEnd,
    jobs: &mut MemoryStore,
    line: &mut ScriptedLine,
) -> Result<(), SessionFault>
    ensures stays { UnlessUnsettled result
        (StaysInStore (Some (jobs_in (lines jobs.old.file.text.items)))
        (Some (jobs_in (lines jobs.new.file.text.items))) (node_in end.old) (node_in end.new)) }
    ensures none_lost { LosesNoJob (Some (jobs_in (lines jobs.old.file.text.items)))
        (Some (jobs_in (lines jobs.new.file.text.items))) (node_in end.old) (node_in end.new) }
    ensures told { UnlessUnsettled result
        (TellsFailed (⟦<FolderSpool<MemoryFolder, Global> as Spool>⟧.holdings (spool_in end.old))
        (Some jobs.old.file.told.items) (Some jobs.new.file.told.items)
        (node_in end.old) (node_in end.new)) }
{
    let mut number = MemoryText::new(b"", false);
    run_at_line(alloc, end, jobs, &mut number, line, AMPLE, LIMITS)
}

/// Runs the session itself, at a line that is the end's own.
fn talk(
    rt: &impl Abort,
    alloc: Global,
    end: &mut AskingEnd,
    jobs: &mut MemoryStore,
    line: &mut ScriptedLine,
) -> Came {
    let answer = run(alloc, end, jobs, line);
    let broken = jobs.file.has_failed();
    assert_same(rt, answer.is_err(), broken);
    let folder = end.node().spool().folder();
    Came {
        holds: folder.holds(b"y", b"hi"),
        puts: folder.puts(),
        failed: broken || line.has_failed() || folder.has_failed(),
    }
}

// Each end is made in a function of its own, and lent.
fn talk_at(
    rt: &impl Abort,
    alloc: Global,
    end: &mut AskingEnd,
    jobs: &mut MemoryStore,
    fails_at: usize,
) -> Came {
    let mut line = line_to_giver(rt, alloc, Manner { fails_at, ..CLEAN });
    let came = talk(rt, alloc, end, jobs, &mut line);
    drop(line);
    came
}

/// Runs a session with the jobs that wait then.
fn session(rt: &impl Abort, alloc: Global, jobs: &mut MemoryStore, stop: Stop) -> Came {
    let queue = read_jobs(alloc, jobs.file.text()).expect(rt, "jobs");
    let mut end = asking(rt, alloc, queue, stop.folder);
    let came = talk_at(rt, alloc, &mut end, jobs, stop.line);
    drop(end);
    came
}

/// Runs a session that is stopped, and one that goes on. Returns whether the first one was stopped at all.
fn go_on(rt: &impl Abort, alloc: Global, jobs: &mut MemoryStore, stop: Stop) -> bool {
    let first = session(rt, alloc, jobs, stop);
    let gone = jobs.file.text() == LEFT;
    assert_so(rt, !gone || first.holds);
    jobs.file.mend();
    let good = Stop {
        line: NEVER,
        jobs: NEVER,
        folder: NEVER,
    };
    let second = session(rt, alloc, jobs, good);
    assert_so(rt, first.holds || second.holds);
    assert_same(rt, second.puts, if gone { 0 } else { 1 });
    assert_same(rt, jobs.file.text(), LEFT);
    first.failed
}

fn call_twice(rt: &impl Abort, alloc: Global, stop: Stop) -> bool {
    let mut jobs = JobsFile {
        file: MemoryJobs::new(JOBS, stop.jobs),
        before: Vec::new(alloc),
    };
    let stopped = go_on(rt, alloc, &mut jobs, stop);
    drop(jobs);
    stopped
}

/// Stops at each operation of the line in turn. Returns how many there are.
fn stop_at_line(rt: &impl Abort, alloc: Global) -> usize {
    for line in 0..1000 {
        let stop = Stop {
            line,
            jobs: NEVER,
            folder: NEVER,
        };
        if !call_twice(rt, alloc, stop) {
            return line;
        }
    }
    panic!(rt; "no end of the operations");
}

// a job that leaves before its file is in the folder; a file that is asked for again after it was put there, and its
// job removed
#[test]
fn keeps_what_it_asked_for_wherever_it_is_stopped(rt: HostRuntime) {
    let alloc = rt.alloc();
    // a write and a read at least for its text, the start-up, the command, what it says of the file, H and HY
    assert_so(&rt, stop_at_line(&rt, alloc) >= 12);
    let at_jobs = Stop {
        line: NEVER,
        jobs: 0,
        folder: NEVER,
    };
    assert_so(&rt, call_twice(&rt, alloc, at_jobs));
    let at_folder = Stop {
        line: NEVER,
        jobs: NEVER,
        folder: 0,
    };
    assert_so(&rt, call_twice(&rt, alloc, at_folder));
}
