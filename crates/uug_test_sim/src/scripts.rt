//! Scripts from outside. The tests catch beyond the clauses a rule that is wrong in the definition, and a reader that
//! says that it is out of memory when none was refused.

use crate::assertions::{assert_same, assert_so, assert_so_at};
use std::alloc::{AllocError, Global};
use std::process::Abort;
use std::test::Fail;
use uug_line::{Event, Setup, Side};
use uug_session::{Job, Spool, Verdict};
use uug_sim_script::{ScriptFault, read_script};
use uug_talk::Name;
use uug_test_alloc::Refusing;

/// A script that sends a file, over a line that works.
const SENT: &[u8] =
    b"caller a 2 32\ncalled b 2 32\nfile caller x 0644 -\nsend caller x y u\nflow 20\n";

/// The set-up of both ends, on two lines.
const ENDS: &[u8] = b"caller a 2 32\ncalled b 2 32\n";

/// Lines that are bad as the third one.
const BAD_LINES: &[&[u8]] = &[
    b"caller a 2 32",
    b"called b 2 32",
    b"caller a 2",
    b"caller a 2 32 x",
    b"Caller a 2 32",
    b"other",
    b"pass both 1",
    b"pass caller",
    b"pass caller 1 1",
    b"pass caller 1000000001",
    b"pass caller 99999999999999999999",
    b"pass caller +1",
    b"pass caller -1",
    b"pass caller 0x1",
    b"pass caller 1\t",
    b"pass\tcaller 1",
    b"\tpass caller 1",
    b"pass caller 1\r",
    b"drop called",
    b"drop called 1000000001",
    b"flip caller 1",
    b"flip caller 001",
    b"flip caller 0g",
    b"flip caller -",
    b"insert called 1",
    b"timeout",
    b"timeout both",
    b"timeout caller 1",
    b"hangup",
    b"hangup caller called",
    b"call caller",
    b"flow",
    b"flow 100001",
    b"flow caller 1",
    b"file caller x 06444 -",
    b"file caller x 0648 -",
    b"file caller x 0644",
    b"file caller x 0644 0",
    b"file caller x 0644 --",
    b"send caller x y u q r",
    b"request caller x y u q",
    b"deny caller \x7f",
    b"number caller",
    b"number 7",
    b"number both 7",
    b"number caller 7 8",
    b"number caller -1",
    b"number caller 4294967296",
    b"number caller 0x7",
    b"short",
    b"short both",
    b"short caller 1",
    b"Short caller",
    b"lenient",
    b"lenient both",
    b"lenient caller 1",
];

/// Lines that are good, and the number of events that they add.
const GOOD_LINES: &[(&[u8], usize)] = &[
    (b"", 0),
    (b"   ", 0),
    (b"# any thing", 0),
    (b"  #", 0),
    (b"  pass   caller  7  ", 1),
    (b"pass called 0001000000000", 1),
    (b"pass called 0", 1),
    (b"drop caller 1000000000", 1),
    (b"flip called fF", 1),
    (b"insert called 00", 1),
    (b"hangup called", 1),
    (b"call", 1),
    (b"flow 0", 0),
    (b"flow 100000", 200_000),
    (b"send called x y u temp", 0),
    (b"file called x 7 00fFAb", 0),
    (b"number caller 0004294967295", 0),
    (b"number called 0\nnumber caller 0", 0),
    (b"short called", 0),
    (b"  short  caller  \nshort called\nquiet caller", 0),
    (b"lenient called\nlenient caller", 0),
];

/// Returns the job of `SENT`.
fn sent_job() -> Result<Job, Fail> {
    Ok(Job::Send {
        source: Name::new(b"x")?,
        target: Name::new(b"y")?,
        user: Name::new(b"u")?,
        temp: None,
    })
}

/// Asserts that the set-up has the ends and the job of `SENT`.
fn assert_setup(rt: &impl Abort, setup: &Setup<Global>, job: Job) -> Result<(), Fail> {
    let (caller, called) = (&setup.caller, &setup.called);
    let (a, b, x) = (Name::new(b"a")?, Name::new(b"b")?, Name::new(b"x")?);
    assert_same(rt, (caller.name, called.name), (a, b));
    assert_same(
        rt,
        (caller.announce.window(), called.announce.size()),
        (2, 32),
    );
    assert_same(rt, caller.queue.pending(), [job].as_slice());
    assert_same(rt, called.queue.pending().len(), 0);
    let file = caller.spool.fetch(&x).ok_or("a file")?;
    assert_same(rt, (file.mode, file.bytes.len()), (0o644, 0));
    Ok(())
}

/// Asserts that these are the events of `SENT`: 20 times all that is on the line passes to both ends.
fn assert_flow(rt: &impl Abort, events: &[Event]) {
    let n = 1_000_000_000;
    let (side, other) = (Side::Called, Side::Caller);
    assert_same(rt, events.len(), 40);
    assert_same(rt, events.first(), Some(&Event::Pass { side, n }));
    assert_same(rt, events.last(), Some(&Event::Pass { side: other, n }));
}

#[test]
fn reads_a_script(rt: HostRuntime) -> Result<(), Fail> {
    let job = sent_job()?;
    let script = read_script(rt.alloc(), SENT)?;
    assert_flow(&rt, script.events.as_slice());
    let checked = assert_setup(&rt, &script.setup, job);
    drop(script);
    checked
}

/// Asserts the verdicts of the ends on files of these names, their numbers, and whether they are lenient.
fn assert_verdicts(rt: &impl Abort, setup: &Setup<Global>, y: Name, z: Name) {
    let (caller, called) = (&setup.caller, &setup.called);
    assert_same(rt, called.spool.may_keep(&y), Verdict::Never);
    assert_same(rt, caller.spool.may_keep(&z), Verdict::Later);
    assert_same(rt, caller.spool.may_keep(&y), Verdict::Yes);
    assert_same(rt, (caller.number, called.number), (None, Some(7)));
    assert_so(rt, called.spool.is_lenient() && !caller.spool.is_lenient());
}

#[test]
fn reads_verdicts_and_numbers_anywhere(rt: HostRuntime) -> Result<(), Fail> {
    let text =
        b"deny called y\nlater caller z\ncalled b 7 4096\nimmovable called w\ncaller a 1 64\nnumber called 7\nlenient called";
    let (y, z) = (Name::new(b"y")?, Name::new(b"z")?);
    let script = read_script(rt.alloc(), text)?;
    assert_verdicts(&rt, &script.setup, y, z);
    drop(script);
    Ok(())
}

#[test]
fn answers_the_line_behind_the_last(rt: HostRuntime) {
    let texts: [(&[u8], usize); 11] = [
        (b"", 1),
        (b"\n", 2),
        (b"# no end", 2),
        (b"caller a 2 32", 2),
        (b"caller a 2 32\n", 2),
        (b"caller a 2 32\n\n", 3),
        (b"called b 2 32\ncall\n", 3),
        (b"caller a 2 32\ncalled b 8 32", 2),
        // numbered twice
        (b"number caller 7\nnumber called 7\nnumber caller 7\n", 3),
        // said twice to be short
        (b"short caller\nshort called\nshort caller\n", 3),
        // lenient twice
        (b"lenient caller\nlenient called\nlenient caller\n", 3),
    ];
    for (text, line) in texts {
        let fault = read_script(rt.alloc(), text).err();
        assert_same(&rt, (text, fault), (text, Some(ScriptFault::Bad(line))));
    }
}

/// Returns a script of both ends, this line, and one that is bad.
fn script_with(alloc: Global, line: &[u8]) -> Result<Vec<u8>, AllocError> {
    let mut text = ENDS.to_vec(alloc)?;
    text.extend_from_slice(line)?;
    text.extend_from_slice(b"\nflip caller 1\n")?;
    Ok(text)
}

#[test]
fn answers_the_first_bad_line(rt: HostRuntime) -> Result<(), Fail> {
    for line in BAD_LINES {
        let text = script_with(rt.alloc(), line)?;
        let fault = read_script(rt.alloc(), text.as_slice()).err();
        assert_same(&rt, (*line, fault), (*line, Some(ScriptFault::Bad(3))));
    }
    Ok(())
}

/// Returns the number of events in a script with this line.
fn events_with(alloc: Global, line: &[u8]) -> Result<usize, Fail> {
    let mut text = ENDS.to_vec(alloc)?;
    text.extend_from_slice(line)?;
    let script = read_script(alloc, text.as_slice())?;
    let events = script.events.len();
    drop(script);
    Ok(events)
}

#[test]
fn takes_good_lines(rt: HostRuntime) -> Result<(), Fail> {
    for (line, events) in GOOD_LINES {
        let seen = events_with(rt.alloc(), line)?;
        assert_same(&rt, (*line, seen), (*line, *events));
    }
    Ok(())
}

#[test]
fn takes_lines_up_to_the_limit(rt: HostRuntime) -> Result<(), Fail> {
    let mut text = ENDS.to_vec(rt.alloc())?;
    text.push(b'#')?;
    for _ in 1..65_536 {
        text.push(b' ')?;
    }
    assert_so(&rt, read_script(rt.alloc(), text.as_slice()).is_ok());
    text.push(b' ')?;
    let fault = read_script(rt.alloc(), text.as_slice()).err();
    assert_same(&rt, fault, Some(ScriptFault::Bad(3)));
    Ok(())
}

#[test]
fn takes_jobs_up_to_the_limit(rt: HostRuntime) -> Result<(), Fail> {
    let mut text = ENDS.to_vec(rt.alloc())?;
    for _ in 0..1024 {
        text.extend_from_slice(b"send caller x y u\n")?;
    }
    text.extend_from_slice(b"send called x y u\n")?;
    assert_so(&rt, read_script(rt.alloc(), text.as_slice()).is_ok());
    text.extend_from_slice(b"request caller x y u\n")?;
    let fault = read_script(rt.alloc(), text.as_slice()).err();
    assert_same(&rt, fault, Some(ScriptFault::Bad(1028)));
    Ok(())
}

/// A script with a line of each kind that takes memory.
const EACH_KIND: &[u8] =
    b"caller a 2 32\ncalled b 2 32\nfile caller x 0644 00ff\nsend caller x y u\n\
deny called q\nlater called r\nimmovable called s\nflow 3\ncall\n";

/// Refuses each request of a reader in turn. Returns their number.
fn requests_of_a_reader(rt: &impl Abort, alloc: Global) -> Result<u64, Fail> {
    for nth in 1..100 {
        let heap = Refusing::new(alloc, nth);
        let fault = read_script(&heap, EACH_KIND).err();
        if !heap.was_refused() {
            assert_same(rt, fault, None);
            return Ok(nth - 1);
        }
        assert_same(rt, fault, Some(ScriptFault::Memory));
    }
    Err("a reader that is never done".into())
}

#[test]
fn passes_on_want_of_memory(rt: HostRuntime) -> Result<(), Fail> {
    let requests = requests_of_a_reader(&rt, rt.alloc())?;
    assert_so_at(
        &rt,
        requests >= 8,
        "a file, a job, three verdicts and events",
    );
    Ok(())
}
