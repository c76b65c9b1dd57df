//! Files about as large as the limits of the ends. Each is sent by one job, and requested by another.

use crate::assertions::assert_same_at;
use std::alloc::Global;
use std::process::Abort;
use std::test::Fail;
use uug_line::{Event, Report, RunFault, Setup, Side, run};
use uug_session::{MemorySpool, Node, Spool};
use uug_sim_script::read_script;
use uug_talk::Name;

const LIMITS: [usize; 3] = [1, 100, 1_048_576];

/// The number of times that all on the line arrives at both ends.
const TURNS: u32 = 300;

/// More bytes than are ever on the line.
const ALL: u32 = 100_000;

/// The numbers of jobs that are done, of those that were given up, and of files stored as they were given.
type Counts = (usize, usize, usize);

/// Returns so many bytes, which are not all the same.
fn file_of(alloc: Global, size: usize) -> Result<Vec<u8>, Fail> {
    let mut bytes = Vec::new(alloc);
    for place in 0..size {
        bytes.push((place % 251) as u8)?;
    }
    Ok(bytes)
}

/// Returns ends with these limits. The caller gives the file.
fn setup_of(alloc: Global, file: &[u8], giver: usize, taker: usize) -> Result<Setup<Global>, Fail> {
    let text = format!(in alloc;
        "caller a 7 4096\ncalled b 7 4096\nlimit caller {giver}\nlimit called {taker}\n\
         send caller x y u\nrequest called x z u\n"
    )?;
    let mut setup = read_script(alloc, text.as_bytes())?.setup;
    setup.caller.spool.add_file(Name::new(b"x")?, 0o644, file)?;
    Ok(setup)
}

fn events(alloc: Global) -> Result<Vec<Event>, Fail> {
    let mut events = Vec::new(alloc);
    for _ in 0..TURNS {
        for side in [Side::Called, Side::Caller] {
            events.push(Event::Pass { side, n: ALL })?;
        }
    }
    Ok(events)
}

fn report_of(
    alloc: Global,
    file: &[u8],
    giver: usize,
    taker: usize,
) -> Result<Report<Global>, Fail> {
    let setup = setup_of(alloc, file, giver, taker)?;
    let events = events(alloc)?;
    Ok(run(alloc, setup, events.as_slice())?)
}

/// Returns the fault of a run between these ends, if it has one.
fn fault_of(
    alloc: Global,
    file: &[u8],
    giver: usize,
    taker: usize,
) -> Result<Option<RunFault>, Fail> {
    let setup = setup_of(alloc, file, giver, taker)?;
    Ok(run(alloc, setup, &[]).err())
}

fn count_over(end: &Node<MemorySpool<Global>, Global>) -> (usize, usize) {
    (end.queue().struck().len(), end.queue().failed().len())
}

fn counts_in(report: &Report<Global>, file: &[u8]) -> Counts {
    let (sent, not_sent) = count_over(report.caller());
    let (requested, not_given) = count_over(report.called());
    let stored = report.called().spool().stored().iter();
    let whole = stored.filter(|entry| entry.mode == 0o644 && entry.bytes.as_slice() == file);
    (
        sent.saturating_add(requested),
        not_sent.saturating_add(not_given),
        whole.count(),
    )
}

/// Returns what became of both jobs for a file of this size.
fn counts_of(alloc: Global, size: usize, giver: usize, taker: usize) -> Result<Counts, Fail> {
    let file = file_of(alloc, size)?;
    let report = report_of(alloc, &file, giver, taker)?;
    let counts = counts_in(&report, &file);
    drop(report);
    Ok(counts)
}

/// Checks files of these sizes about a limit.
fn check_limit(rt: &(impl Abort + AllocGlobal), limit: usize) -> Result<(), Fail> {
    let (less, more) = (limit.saturating_sub(1), limit.saturating_add(1));
    for size in [less, limit] {
        assert_same_at(
            rt,
            counts_of(rt.alloc(), size, limit, limit)?,
            (2, 0, 2),
            size,
        );
    }
    // the giver has no such file
    assert_same_at(
        rt,
        counts_of(rt.alloc(), more, limit, limit)?,
        (0, 2, 0),
        more,
    );
    // it has, and the other end does not take it
    let file = file_of(rt.alloc(), more)?;
    let fault = fault_of(rt.alloc(), &file, more, limit)?;
    assert_same_at(rt, fault, Some(RunFault::TooLarge), more);
    Ok(())
}

#[test]
fn takes_files_up_to_the_limits(rt: HostRuntime) -> Result<(), Fail> {
    for limit in LIMITS {
        check_limit(&rt, limit)?;
    }
    Ok(())
}
