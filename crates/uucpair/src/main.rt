//! The program `uucpair`: tools for the 'g' packet protocol of UUCP, on standard input and output.
#![tactic(auto)]

mod bad_jobs;
mod console;
mod ends;
mod program;

use console::Console;
use std::io::IsTerminal;
use std::process::ExitCode;
use uug_cli_stop::end;
use uug_io_line::{StandardStreams, hold_descriptors};

fn console_of(rt: &HostRuntime) -> Console {
    Console {
        streams: StandardStreams {
            input: rt.stdin(),
            output: rt.stdout(),
            errors: rt.stderr(),
        },
        is_input_terminal: rt.stdin().is_terminal(),
        is_errors_terminal: rt.stderr().is_terminal(),
    }
}

fn main(rt: HostRuntime) -> ExitCode {
    let held = hold_descriptors(&rt);
    let console = console_of(&rt);
    let status = end(&rt, program::run(&rt, console));
    drop(held);
    ExitCode::from(status)
}
