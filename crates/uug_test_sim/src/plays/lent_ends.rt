//! How the ends stand that a report lends. What this catches beyond the clauses: a wrong definition of where an end stands,
//! and a run that always says that it is out of memory.

use crate::assertions::assert_same_at;
use std::alloc::Global;
use std::test::Fail;
use uug_line::{Report, run};
use uug_session::{End, MemorySpool, Node, Phase};
use uug_sim_script::read_script;

/// Scripts; and how far the caller is then and how many packets it has unacknowledged, and the called end.
const SCRIPTS: [(&str, (Phase, usize), (Phase, usize)); 4] = [
    (
        "caller a 2 32\ncalled b 2 32\n",
        (Phase::Hail, 0),
        (Phase::Hail, 0),
    ),
    // the answer SY has come, which acknowledged the command, and the two messages of the file are under way
    (
        "caller a 2 32\ncalled b 2 32\nfile caller x 0644 00\nsend caller x y u\nflow 6\n",
        (Phase::Talking, 2),
        (Phase::Talking, 1),
    ),
    // what is unacknowledged when a session ends is kept
    (
        "caller a 2 32\ncalled b 2 32\nfile caller x 0644 00\nsend caller x y u\nflow 6\nhangup caller\n",
        (Phase::Ended(End::HungUp), 2),
        (Phase::Talking, 1),
    ),
    // in the next session nothing was sent yet
    (
        "caller a 2 32\ncalled b 2 32\nfile caller x 0644 00\nsend caller x y u\nflow 6\ncall\n",
        (Phase::Hail, 0),
        (Phase::Hail, 0),
    ),
];

/// What is reported of the script.
fn report_of(alloc: Global, text: &str) -> Result<Report<Global>, Fail> {
    let script = read_script(alloc, text.as_bytes())?;
    Ok(run(alloc, script.setup, script.events.as_slice())?)
}

/// How far an end is, and how many packets it has unacknowledged.
fn standing(end: &Node<MemorySpool<Global>, Global>) -> (Phase, usize) {
    (end.phase(), end.unacked())
}

/// Where the caller and the called end stand after the script.
fn standings_after(alloc: Global, text: &str) -> Result<((Phase, usize), (Phase, usize)), Fail> {
    let report = report_of(alloc, text)?;
    let standings = (standing(report.caller()), standing(report.called()));
    drop(report);
    Ok(standings)
}

#[test]
fn lends_the_ends_as_they_stand(rt: HostRuntime) -> Result<(), Fail> {
    for (text, caller, called) in SCRIPTS {
        let standings = standings_after(rt.alloc(), text)?;
        assert_same_at(&rt, standings, (caller, called), text);
    }
    Ok(())
}
