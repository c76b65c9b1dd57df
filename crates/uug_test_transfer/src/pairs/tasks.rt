//! The jobs of two ends, and the files that they have to give.

use uug_session::Side;

/// An end: its name and that of the other, its jobs, and the one file that it has to give.
#[derive(Clone, Copy)]
pub struct Given<'a> {
    pub side: Side,
    pub me: &'a [u8],
    pub peer: &'a [u8],
    pub jobs: &'a str,
    pub source: &'a [u8],
    pub bytes: &'a [u8],
}

/// A file of more than a message.
const X: &[u8] = &[b'x'; 100];

pub const JOBS_OF_CALLER: &str = "send x y u\nrequest q z u\nsend x .hidden u\nsend none n u\n";

pub const JOBS_OF_CALLED: &str = "request x again u\nsend q back u\n";

pub const CALLER: Given<'static> = Given {
    side: Side::Caller,
    me: b"a",
    peer: b"b",
    jobs: JOBS_OF_CALLER,
    source: b"x",
    bytes: X,
};

pub const CALLED: Given<'static> = Given {
    side: Side::Called,
    me: b"b",
    peer: b"a",
    jobs: JOBS_OF_CALLED,
    source: b"q",
    bytes: b"q",
};

/// A job: the end that has it, its line, the end that takes the file, the file's name and bytes, and the line that is
/// printed if it is given up.
#[derive(Clone, Copy)]
pub struct Task<'a> {
    pub of: Side,
    pub line: &'a str,
    pub taker: Side,
    pub target: &'a [u8],
    pub bytes: &'a [u8],
    pub failed: &'a str,
}

impl Task<'_> {
    /// Returns whether its file is the one of this name and these bytes, which the end on this side took.
    pub fn is_done_by(&self, side: Side, name: &[u8], bytes: &[u8]) -> bool {
        self.taker == side && self.target == name && self.bytes == bytes
    }
}

/// The number of jobs of both ends.
pub const TASKS_LEN: usize = 6;

pub const TASKS: [Task<'static>; TASKS_LEN] = [
    Task {
        of: Side::Caller,
        line: "send x y u\n",
        taker: Side::Called,
        target: b"y",
        bytes: X,
        failed: "caller failed send x y u\n",
    },
    Task {
        of: Side::Caller,
        line: "request q z u\n",
        taker: Side::Caller,
        target: b"z",
        bytes: b"q",
        failed: "caller failed request q z u\n",
    },
    Task {
        of: Side::Caller,
        line: "send x .hidden u\n",
        taker: Side::Called,
        target: b".hidden",
        bytes: X,
        failed: "caller failed send x .hidden u\n",
    },
    Task {
        of: Side::Caller,
        line: "send none n u\n",
        taker: Side::Called,
        target: b"n",
        bytes: b"",
        failed: "caller failed send none n u\n",
    },
    Task {
        of: Side::Called,
        line: "request x again u\n",
        taker: Side::Called,
        target: b"again",
        bytes: X,
        failed: "called failed request x again u\n",
    },
    Task {
        of: Side::Called,
        line: "send q back u\n",
        taker: Side::Caller,
        target: b"back",
        bytes: b"q",
        failed: "called failed send q back u\n",
    },
];

/// The report if nothing fails.
pub const REPORT: &str = "caller done pending 0 struck 2 failed 2\n\
    called done pending 0 struck 2 failed 0\n\
    caller failed send x .hidden u\ncaller failed send none n u\n";
