//! The stages that two ends reach with their jobs before the line fails.

use crate::pairs::tasks::{JOBS_OF_CALLED, JOBS_OF_CALLER, REPORT};

/// The text of both files of jobs at this stage, and the report.
#[derive(Clone, Copy)]
struct Stage<'a> {
    caller: &'a str,
    called: &'a str,
    printed: &'a str,
}

/// The stages in the order of the jobs: those of the caller go first, in their order.
const STAGES: [Stage<'static>; 8] = [
    // no job is over
    Stage {
        caller: JOBS_OF_CALLER,
        called: JOBS_OF_CALLED,
        printed: "caller hungup pending 4 struck 0 failed 0\n\
            called hungup pending 2 struck 0 failed 0\n",
    },
    // the caller's file `x` is at the called end
    Stage {
        caller: "request q z u\nsend x .hidden u\nsend none n u\n",
        called: JOBS_OF_CALLED,
        printed: "caller hungup pending 3 struck 1 failed 0\n\
            called hungup pending 2 struck 0 failed 0\n",
    },
    // it has the file `q`
    Stage {
        caller: "send x .hidden u\nsend none n u\n",
        called: JOBS_OF_CALLED,
        printed: "caller hungup pending 2 struck 2 failed 0\n\
            called hungup pending 2 struck 0 failed 0\n",
    },
    // the hidden name was refused, and then there is no file `none`
    Stage {
        caller: "",
        called: JOBS_OF_CALLED,
        printed: "caller hungup pending 0 struck 2 failed 2\n\
            called hungup pending 2 struck 0 failed 0\n\
            caller failed send x .hidden u\ncaller failed send none n u\n",
    },
    // the called end has `x` once more
    Stage {
        caller: "",
        called: "send q back u\n",
        printed: "caller hungup pending 0 struck 2 failed 2\n\
            called hungup pending 1 struck 1 failed 0\n\
            caller failed send x .hidden u\ncaller failed send none n u\n",
    },
    // its file `q` is at the caller
    Stage {
        caller: "",
        called: "",
        printed: "caller hungup pending 0 struck 2 failed 2\n\
            called hungup pending 0 struck 2 failed 0\n\
            caller failed send x .hidden u\ncaller failed send none n u\n",
    },
    // it has said H, and the caller HY, with which its session is done, whatever the line loses after that
    Stage {
        caller: "",
        called: "",
        printed: "caller done pending 0 struck 2 failed 2\n\
            called hungup pending 0 struck 2 failed 0\n\
            caller failed send x .hidden u\ncaller failed send none n u\n",
    },
    // the called end has taken HY, with which its own is done
    Stage {
        caller: "",
        called: "",
        printed: REPORT,
    },
];

impl Stage<'_> {
    fn is(&self, caller: &[u8], called: &[u8], printed: &[u8]) -> bool {
        self.caller.as_bytes() == caller
            && self.called.as_bytes() == called
            && self.printed.as_bytes() == printed
    }
}

/// Returns the stage at which this is left, if it is one.
pub fn stage_of(caller: &[u8], called: &[u8], printed: &[u8]) -> Option<usize> {
    for (number, stage) in STAGES.iter().enumerate() {
        if stage.is(caller, called, printed) {
            return Some(number);
        }
    }
    None
}
