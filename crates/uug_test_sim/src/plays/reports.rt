//! Plays whole scripts. Beyond the clauses this catches a wrong definition of the sessions, and a player
//! that always says that it is out of memory.

use super::{BROKEN_OFF, SENT_TWICE};
use crate::assertions::assert_same;
use std::test::Fail;
use uug_sim_play::play_stream;
use uug_stream::{MemoryInput, MemoryOutput, ToolFault};

/// The report of a session in which the caller sends an empty file.
const SENT: &str =
    "session 1\ncaller sent 4 taken 3 most 1 done\ncalled sent 3 taken 4 most 1 done\n\
    caller pending 0 struck 1 failed 0\ncalled pending 0 struck 0 failed 0\n\
    called stored y 0644 -\nverdict clean\n";

/// The report of a session in which the caller's one job is given up after the first answer.
const GIVEN_UP: &str =
    "session 1\ncaller sent 3 taken 2 most 1 done\ncalled sent 2 taken 3 most 1 done\n\
    caller pending 0 struck 0 failed 1\ncalled pending 0 struck 0 failed 0\nverdict clean\n";

/// Scripts, the reports of what they say, and the statuses.
const SCRIPTS: [(&str, &str, u8); 22] = [
    (
        "caller a 2 32\ncalled b 2 32\nfile caller x 0644 -\nsend caller x y u\nflow 20\n",
        SENT,
        0,
    ),
    (BROKEN_OFF, SENT_TWICE, 0),
    // the header of the file's packet is lost, and in its field an image of RR 5 is found
    (
        "caller a 2 32\ncalled b 2 32\nfile caller x 0644 100985aa2503\nsend caller x y u\n\
         flow 5\npass called 1000\npass caller 1000\npass called 6\ndrop called 6\npass called 1000\n",
        "session 1\ncaller sent 3 taken 1 most 2 talking\ncalled sent 1 taken 1 most 1 talking\n\
         caller pending 1 struck 0 failed 0\ncalled pending 0 struck 0 failed 0\n\
         verdict fooled 14 called\n",
        5,
    ),
    // the roles are exchanged
    (
        "caller a 2 32\ncalled b 2 32\nfile called x 0644 -\nsend called x y u\nflow 20\n",
        "session 1\ncaller sent 4 taken 5 most 1 done\ncalled sent 5 taken 4 most 2 done\n\
         caller pending 0 struck 0 failed 0\ncalled pending 0 struck 1 failed 0\n\
         caller stored y 0644 -\nverdict clean\n",
        0,
    ),
    (
        "caller a 2 32\ncalled b 2 32\nfile caller x 0644 -\nsend caller x y u\ndeny called y\nflow 20\n",
        GIVEN_UP,
        0,
    ),
    (
        "caller a 2 32\ncalled b 2 32\nfile caller x 0644 -\nsend caller x y u\nlater called y\nflow 20\n",
        "session 1\ncaller sent 3 taken 2 most 1 done\ncalled sent 2 taken 3 most 1 done\n\
         caller pending 1 struck 0 failed 0\ncalled pending 0 struck 0 failed 0\nverdict clean\n",
        0,
    ),
    (
        "caller a 2 32\ncalled b 2 32\nfile caller x 0644 -\nsend caller x y u\nimmovable called y\nflow 20\n",
        "session 1\ncaller sent 4 taken 3 most 1 done\ncalled sent 3 taken 4 most 1 done\n\
         caller pending 0 struck 0 failed 1\ncalled pending 0 struck 0 failed 0\nverdict clean\n",
        0,
    ),
    (
        "caller a 2 32\ncalled b 2 32\nfile caller x 0644 -\nrequest caller q y u\nflow 20\n",
        GIVEN_UP,
        0,
    ),
    (
        "caller a 2 32\ncalled b 2 32\nfile called q 0644 -\nrequest caller q y u\nflow 20\n",
        "session 1\ncaller sent 4 taken 3 most 2 done\ncalled sent 3 taken 4 most 2 done\n\
         caller pending 0 struck 1 failed 0\ncalled pending 0 struck 0 failed 0\n\
         caller stored y 0644 -\nverdict clean\n",
        0,
    ),
    // a packet is damaged, and goes out again
    (
        "caller a 2 32\ncalled b 2 32\nfile caller x 0644 -\nsend caller x y u\n\
         flow 5\nflip called 01\nflow 1\ntimeout caller\nflow 20\n",
        SENT,
        0,
    ),
    // windows of seven: the command has come, and its answer is on the line
    (
        "caller a 7 32\ncalled b 7 32\nfile caller x 0644 \
         0707070707070707070707070707070707070707070707070707070707070707\
         0707070707070707070707070707070707070707070707070707070707070707\
         0707070707070707070707070707070707070707070707070707070707070707\
         0707070707070707070707070707070707070707070707070707070707070707\
         0707070707070707070707070707070707070707070707070707070707070707\
         0707070707070707070707070707070707070707070707070707070707070707\
         07\nsend caller x y u\nflow 5\npass called 1000\n",
        "session 1\ncaller sent 1 taken 0 most 1 talking\ncalled sent 1 taken 1 most 1 talking\n\
         caller pending 1 struck 0 failed 0\ncalled pending 0 struck 0 failed 0\nverdict clean\n",
        1,
    ),
    // with the answer seven messages of the file go out at once, and the eighth waits for room
    (
        "caller a 7 32\ncalled b 7 32\nfile caller x 0644 \
         0707070707070707070707070707070707070707070707070707070707070707\
         0707070707070707070707070707070707070707070707070707070707070707\
         0707070707070707070707070707070707070707070707070707070707070707\
         0707070707070707070707070707070707070707070707070707070707070707\
         0707070707070707070707070707070707070707070707070707070707070707\
         0707070707070707070707070707070707070707070707070707070707070707\
         07\nsend caller x y u\nflow 5\npass called 1000\npass caller 1000\n",
        "session 1\ncaller sent 8 taken 1 most 7 talking\ncalled sent 1 taken 1 most 1 talking\n\
         caller pending 1 struck 0 failed 0\ncalled pending 0 struck 0 failed 0\nverdict clean\n",
        1,
    ),
    // nothing comes to any end
    (
        "caller a 2 32\ncalled b 2 32\n",
        "session 1\ncaller sent 0 taken 0 most 0 hail\ncalled sent 0 taken 0 most 0 hail\n\
         caller pending 0 struck 0 failed 0\ncalled pending 0 struck 0 failed 0\nverdict clean\n",
        1,
    ),
    // both ends keep the same number
    (
        "caller a 2 32\ncalled b 2 32\nfile caller x 0644 -\nsend caller x y u\n\
         number caller 7\nnumber called 7\nflow 20\n",
        "session 1\ncaller sent 4 taken 3 most 1 done\ncalled sent 3 taken 4 most 1 done\n\
         caller pending 0 struck 1 failed 0\ncalled pending 0 struck 0 failed 0\n\
         called stored y 0644 -\ncaller number 8\ncalled number 8\nverdict clean\n",
        0,
    ),
    // the caller tells another number, or none
    (
        "caller a 2 32\ncalled b 2 32\nfile caller x 0644 -\nsend caller x y u\n\
         number caller 7\nnumber called 9\nflow 20\n",
        "session 1\ncaller sent 0 taken 0 most 0 badsequence\ncalled sent 0 taken 0 most 0 badsequence\n\
         caller pending 1 struck 0 failed 0\ncalled pending 0 struck 0 failed 0\n\
         caller number 7\ncalled number 9\nverdict clean\n",
        1,
    ),
    (
        "caller a 2 32\ncalled b 2 32\nfile caller x 0644 -\nsend caller x y u\nnumber called 7\nflow 20\n",
        "session 1\ncaller sent 0 taken 0 most 0 badsequence\ncalled sent 0 taken 0 most 0 badsequence\n\
         caller pending 1 struck 0 failed 0\ncalled pending 0 struck 0 failed 0\n\
         called number 7\nverdict clean\n",
        1,
    ),
    // the called end looks at none
    (
        "caller a 2 32\ncalled b 2 32\nfile caller x 0644 -\nsend caller x y u\nnumber caller 7\nflow 20\n",
        "session 1\ncaller sent 4 taken 3 most 1 done\ncalled sent 3 taken 4 most 1 done\n\
         caller pending 0 struck 1 failed 0\ncalled pending 0 struck 0 failed 0\n\
         called stored y 0644 -\ncaller number 8\nverdict clean\n",
        0,
    ),
    // the caller is let in, and never hears so
    (
        "caller a 2 32\ncalled b 2 32\nfile caller x 0644 -\nsend caller x y u\n\
         number caller 7\nnumber called 7\nflow 1\npass called 1000\ncall\nflow 20\n",
        "session 1\ncaller sent 0 taken 0 most 0 hungup\ncalled sent 0 taken 0 most 0 hungup\n\
         session 2\ncaller sent 0 taken 0 most 0 badsequence\ncalled sent 0 taken 0 most 0 badsequence\n\
         caller pending 1 struck 0 failed 0\ncalled pending 0 struck 0 failed 0\n\
         caller number 7\ncalled number 8\nverdict clean\n",
        1,
    ),
    // the called end holds what came of a file, and of the next one, even once the first came whole
    (
        "caller a 2 32\ncalled b 2 32\ndigest caller\nresume called\nfile caller x 0644 \
         0707070707070707070707070707070707070707070707070707070707070707\
         0707070707070707070707070707070707070707070707070707070707070707\
         070707070707\nsend caller x y u\nflow 8\n",
        "session 1\ncaller sent 8 taken 1 most 2 talking\ncalled sent 1 taken 6 most 1 talking\n\
         caller pending 1 struck 0 failed 0\ncalled pending 0 struck 0 failed 0\n\
         called holds x 64\nverdict clean\n",
        1,
    ),
    (
        "caller a 2 32\ncalled b 2 32\ndigest caller\nresume called\nfile caller x 0644 \
         0707070707070707070707070707070707070707070707070707070707070707\
         0707070707070707070707070707070707070707070707070707070707070707\
         070707070707\nsend caller x y u\nfile caller z 0644 \
         0707070707070707070707070707070707070707070707070707070707070707\
         0707070707070707070707070707070707070707070707070707070707070707\
         070707070707\nsend caller z w u\nflow 8\ncall\nflow 11\n",
        "session 1\ncaller sent 8 taken 1 most 2 hungup\ncalled sent 1 taken 6 most 1 hungup\n\
         session 2\ncaller sent 14 taken 3 most 2 talking\ncalled sent 3 taken 12 most 1 talking\n\
         caller pending 1 struck 1 failed 0\ncalled pending 0 struck 0 failed 0\n\
         called stored y 0644 \
         0707070707070707070707070707070707070707070707070707070707070707\
         0707070707070707070707070707070707070707070707070707070707070707\
         070707070707\n\
         called holds x 64\ncalled holds z 64\nverdict clean\n",
        1,
    ),
    // of an end that does not resume it is not shown
    (
        "caller a 2 32\ncalled b 2 32\ndigest caller\ndigest called\nfile caller x 0644 \
         0707070707070707070707070707070707070707070707070707070707070707\
         0707070707070707070707070707070707070707070707070707070707070707\
         070707070707\nsend caller x y u\nflow 8\n",
        "session 1\ncaller sent 8 taken 1 most 2 talking\ncalled sent 1 taken 6 most 1 talking\n\
         caller pending 1 struck 0 failed 0\ncalled pending 0 struck 0 failed 0\nverdict clean\n",
        1,
    ),
    (
        "caller a 2 32\ncalled b 2 32\ntimeout caller\ntimeout caller\ntimeout caller\ntimeout caller\n\
         timeout caller\ntimeout caller\ntimeout caller\ntimeout caller\n",
        "session 1\ncaller sent 0 taken 0 most 0 gaveup\ncalled sent 0 taken 0 most 0 hail\n\
         caller pending 0 struck 0 failed 0\ncalled pending 0 struck 0 failed 0\nverdict clean\n",
        1,
    ),
];

#[test]
fn reports_what_was_played(rt: HostRuntime) {
    for (script, report, status) in SCRIPTS {
        let mut output = MemoryOutput::new(rt.alloc());
        let mut input = MemoryInput::new(script.as_bytes());
        let result = play_stream(rt.alloc(), &mut input, &mut output);
        assert_same(&rt, result, Ok(status));
        assert_same(&rt, output.bytes(), report.as_bytes());
        assert_same(&rt, input.bytes().len(), 0);
    }
}

/// Adds so many jobs of the caller to the script.
fn with_jobs(script: &mut String, jobs: usize) -> Result<(), Fail> {
    for _ in 0..jobs {
        script.push_str("send caller x y u\n")?;
    }
    Ok(())
}

// The first line of a script, how many jobs are behind it, and the bad line.
#[test]
fn writes_nothing_of_a_bad_script(rt: HostRuntime) -> Result<(), Fail> {
    for (lines, jobs, bad) in [
        ("", 0, 1),
        ("caller a 2 32\ncalled b 8 32\n", 0, 2),
        ("caller a 2 32\ncalled b 2 32\n", 1_025, 1_027),
    ] {
        let mut script = String::from_str(rt.alloc(), lines)?;
        with_jobs(&mut script, jobs)?;
        let mut output = MemoryOutput::new(rt.alloc());
        let result = play_stream(
            rt.alloc(),
            &mut MemoryInput::new(script.as_bytes()),
            &mut output,
        );
        assert_same(&rt, result, Err(ToolFault::Script(bad)));
        assert_same(&rt, output.bytes().len(), 0);
    }
    Ok(())
}
