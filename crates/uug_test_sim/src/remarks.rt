//! Remarks on bad scripts, and on jobs that are not done. The tests catch beyond the clauses a text that is wrong in
//! the definition, and a call that gives up where it need not.

use crate::assertions::{assert_same, assert_so};
use std::alloc::Global;
use std::process::Abort;
use std::test::Fail;
use uug_sim_play::{Remarked, play_remarked};
use uug_stream::{MemoryInput, MemoryOutput, ToolFault};

/// Third lines, after two that set up the ends, and the error in each.
const REMARKS: &[(&[u8], &str)] = &[
    (b"caller a 8 32", "window 8 is not 1 to 7"),
    (b"caller a 0 32", "window 0 is not 1 to 7"),
    (
        b"caller a 2 48",
        "packet size 48 is not 32, 64, 128, 256, 512, 1024, 2048 or 4096",
    ),
    (
        b"caller a 2 32",
        "the end has this setting already, or 1024 jobs",
    ),
    (b"caller a 2", "packet size is missing"),
    (b"caller a 2 32 x", "unexpected word x"),
    (b"other", "unknown statement other"),
    (b"pass both 1", "side both is not caller or called"),
    (b"pass", "side is missing"),
    (
        b"pass caller 1000000001",
        "number 1000000001 is not 0 to 1000000000",
    ),
    // a tab is no character that can be seen
    (b"drop caller 1\t", "number is not 0 to 1000000000"),
    (
        b"number called 4294967296",
        "number 4294967296 is not 0 to 4294967295",
    ),
    (b"quiet", "side is missing"),
    (b"lenient", "side is missing"),
    (b"digest", "side is missing"),
    (b"quiet caller 1", "unexpected word 1"),
    (b"short", "side is missing"),
    (b"short caller 1", "unexpected word 1"),
    (b"lenient caller 1", "unexpected word 1"),
    (b"limit caller", "limit is missing"),
    (b"limit caller 0", "limit 0 is not 1 to 268435456"),
    (
        b"limit caller 268435457",
        "limit 268435457 is not 1 to 268435456",
    ),
    (b"flow 100001", "number 100001 is not 0 to 100000"),
    (b"flip caller 0g", "byte 0g is not 2 hexadecimal digits"),
    (
        b"file caller x 0648 -",
        "mode 0648 is not 1 to 4 octal digits",
    ),
    (
        b"file caller x 0644 0",
        "hex 0 is not pairs of hexadecimal digits, or -",
    ),
    (b"send caller x y u q r", "unexpected word r"),
    (b"send caller x y", "name is missing"),
    (
        b"request called x \x7f u",
        "name is not 1 to 200 visible ASCII characters",
    ),
    (b"timeout", "side is missing"),
    (b"call caller", "unexpected word caller"),
];

/// Plays the script.
fn play(alloc: Global, script: &[u8], output: &mut MemoryOutput<Global>) -> Remarked<Global> {
    play_remarked(alloc, &mut MemoryInput::new(script), output)
}

/// Checks the remark on a script whose line of this number is bad.
fn check_remark(rt: &(impl Abort + AllocGlobal), script: &[u8], number: usize, expected: &str) {
    let mut output = MemoryOutput::new(rt.alloc());
    let Remarked { answer, remark } = play(rt.alloc(), script, &mut output);
    assert_same(rt, answer, Err(ToolFault::Script(number)));
    assert_same(rt, remark.as_str(), expected);
    assert_same(rt, output.bytes().len(), 0);
}

/// Lines after two that set up the ends, of sessions that go as far as they can, and the remarks on the jobs then.
const REASONS: &[(&[u8], &str)] = &[
    (
        b"send caller x y u\nflow 20",
        "send caller x y u: no such file\n",
    ),
    (
        b"file caller x 0644 -\ndeny called y\nsend caller x y u D.0\nsend caller x y u\nflow 20",
        "send caller x y u D.0: no such file\nsend caller x y u: refused by the other end\n",
    ),
    (
        b"file called x 0644 -\nimmovable caller y\nsend called x y u\nflow 20",
        "send called x y u: can't be put in its place at the other end\n",
    ),
    // its own file of this name is not asked for
    (
        b"file caller x 0644 -\nrequest caller x y u\nflow 20",
        "request caller x y u: no such file at the other end\n",
    ),
    (
        b"file caller x 0644 -\nimmovable called y\nrequest called x y u\nflow 20",
        "request called x y u: can't be put in its place\n",
    ),
    (
        b"file called x 0644 -\nlater caller y\nsend called x y u\nsend called x z u\nflow 20",
        "send called x y u: put off: the other end will take it later\n",
    ),
    (
        b"file caller x 0644 000102\nlimit caller 2\nsend caller x y u\nflow 20",
        "send caller x y u: no such file\n",
    ),
    (
        b"file caller x 0644 000102\nlimit caller 3\nlimit called 3\nsend caller x y u\nflow 20",
        "",
    ),
    (
        b"file caller x 0644 -\nsend caller x y u\nhangup caller",
        "send caller x y u: not done: the session ended first\n",
    ),
    (
        b"request called x y u\nsend caller x y u",
        "send caller x y u: not done: the session goes on\nrequest called x y u: not done: the session goes on\n",
    ),
];

/// The remark on a script whose ends can't be run.
const MISSING: &str =
    "caller or called is missing, or gives a file that is too large for the other";

/// Checks the remarks on the jobs of a script, beside its report.
fn check_reasons(rt: &(impl Abort + AllocGlobal), script: &[u8], expected: &str) {
    let mut output = MemoryOutput::new(rt.alloc());
    let Remarked { answer, remark } = play(rt.alloc(), script, &mut output);
    assert_so(rt, answer.is_ok());
    assert_same(rt, remark.as_str(), expected);
    assert_so(rt, output.bytes().ends_with(b"verdict clean\n"));
}

/// Returns a script that sets up both ends, and then has these lines.
fn with_lines(alloc: Global, lines: &[u8]) -> Result<Vec<u8, Global>, Fail> {
    let mut script = Vec::from_slice(alloc, b"caller a 2 32\ncalled b 2 32\n")?;
    script.extend_from_slice(lines)?;
    Ok(script)
}

#[test]
fn says_why_jobs_are_not_done(rt: HostRuntime) -> Result<(), Fail> {
    for (lines, expected) in REASONS {
        let script = with_lines(rt.alloc(), lines)?;
        check_reasons(&rt, &script, expected);
    }
    Ok(())
}

#[test]
fn says_what_is_wrong(rt: HostRuntime) -> Result<(), Fail> {
    for (line, expected) in REMARKS {
        let script = with_lines(rt.alloc(), line)?;
        check_remark(&rt, &script, 3, expected);
    }
    Ok(())
}

#[test]
fn says_what_is_missing(rt: HostRuntime) {
    check_remark(&rt, b"caller a 2 32\n", 2, MISSING);
    check_remark(&rt, b"", 1, MISSING);
}

// a file of three bytes for an end that takes two, and the other way round
#[test]
fn says_that_a_file_is_too_large(rt: HostRuntime) -> Result<(), Fail> {
    for lines in [
        b"file caller x 0644 000102\nlimit called 2\n".as_slice(),
        b"limit caller 2\nfile called x 0644 000102\n".as_slice(),
    ] {
        let script = with_lines(rt.alloc(), lines)?;
        check_remark(&rt, &script, 5, MISSING);
    }
    Ok(())
}

#[test]
fn says_nothing_of_a_good_script(rt: HostRuntime) {
    let script = b"caller a 2 32\ncalled b 2 32\nflow 20\n".as_slice();
    let mut output = MemoryOutput::new(rt.alloc());
    let Remarked { answer, remark } = play(rt.alloc(), script, &mut output);
    assert_same(&rt, answer, Ok(0));
    assert_same(&rt, remark.as_str(), "");
    assert_so(&rt, !output.bytes().is_empty());
}
