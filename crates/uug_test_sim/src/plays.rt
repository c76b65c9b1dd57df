//! Tests of a player beyond the clauses: scripts and reports from outside, the phases of the ends, running out of
//! memory, failing streams, and noisy lines.

mod errands;
mod faults;
mod lent_ends;
mod limits;
mod memory;
mod noisy_lines;
mod numbers;
mod reports;
mod resumed_lists;
mod settled;

/// The caller sends a file. The line breaks after the called end has stored it and before the caller knows.
const BROKEN_OFF: &str = "caller a 2 32\ncalled b 2 32\nfile caller x 0644 -\nsend caller x y u\n\
    flow 6\npass called 1000\nhangup called\ncall\nflow 20\n";

/// The report of that.
const SENT_TWICE: &str = "session 1\ncaller sent 2 taken 1 most 1 hungup\n\
    called sent 2 taken 2 most 1 hungup\n\
    session 2\ncaller sent 4 taken 3 most 1 done\ncalled sent 3 taken 4 most 1 done\n\
    caller pending 0 struck 1 failed 0\ncalled pending 0 struck 0 failed 0\n\
    called stored y 0644 -\ncalled stored y 0644 -\nverdict clean\n";

/// The same with ends that keep a number.
const NUMBERED: &str = "caller a 2 32\ncalled b 2 32\nfile caller x 0644 -\nsend caller x y u\n\
    number caller 7\nnumber called 7\n\
    flow 6\npass called 1000\nhangup called\ncall\nflow 20\n";

/// The report of that.
const SENT_NUMBERED: &str = "session 1\ncaller sent 2 taken 1 most 1 hungup\n\
    called sent 2 taken 2 most 1 hungup\n\
    session 2\ncaller sent 4 taken 3 most 1 done\ncalled sent 3 taken 4 most 1 done\n\
    caller pending 0 struck 1 failed 0\ncalled pending 0 struck 0 failed 0\n\
    called stored y 0644 -\ncalled stored y 0644 -\n\
    caller number 9\ncalled number 9\nverdict clean\n";
