//! The text of each error of the crates from `uug_stream` and `uug_line` on up to `uug_sim_ladder`, and the program's
//! status for each fault of a tool.

use crate::assertions::{assert_same, assert_same_at};
use std::alloc::{AllocError, Global};
use std::process::Abort;
use uug_line::RunFault;
use uug_sim_ladder::LadderFault;
use uug_sim_script::ScriptFault;
use uug_stream::{ReadFailed, ToolFault, WriteFailed};

/// An error of one of the crates.
#[derive(Clone, Copy)]
enum Fault {
    Read(ReadFailed),
    Write(WriteFailed),
    Tool(ToolFault),
    Run(RunFault),
    Script(ScriptFault),
    Ladder(LadderFault),
}

const TEXTS: &[(Fault, &str)] = &[
    (Fault::Read(ReadFailed), "device fault"),
    (Fault::Write(WriteFailed::Device), "device fault"),
    (Fault::Write(WriteFailed::Memory), "out of memory"),
    (Fault::Tool(ToolFault::Read), "device fault"),
    (Fault::Tool(ToolFault::Write), "device fault"),
    (Fault::Tool(ToolFault::Memory), "out of memory"),
    (Fault::Tool(ToolFault::Script(7)), "bad script at line 7"),
    (Fault::Tool(ToolFault::Jobs(1)), "bad jobs at line 1"),
    (Fault::Tool(ToolFault::Device), "device fault"),
    (Fault::Tool(ToolFault::Usage), "bad usage"),
    (Fault::Run(RunFault::Memory), "out of memory"),
    (Fault::Script(ScriptFault::Bad(12)), "bad script at line 12"),
    (Fault::Script(ScriptFault::Memory), "out of memory"),
    (
        Fault::Ladder(LadderFault::Script(3)),
        "bad script at line 3",
    ),
    (Fault::Ladder(LadderFault::Memory), "out of memory"),
];

fn text_of(alloc: Global, fault: Fault) -> Result<String, AllocError> {
    match fault {
        Fault::Read(fault) => fault.to_string(alloc),
        Fault::Write(fault) => fault.to_string(alloc),
        Fault::Tool(fault) => fault.to_string(alloc),
        Fault::Run(fault) => fault.to_string(alloc),
        Fault::Script(fault) => fault.to_string(alloc),
        Fault::Ladder(fault) => fault.to_string(alloc),
    }
}

fn assert_reads(rt: &impl Abort, alloc: Global, fault: Fault, text: &str) {
    let shown = text_of(alloc, fault).expect(rt, "memory for a text");
    assert_same(rt, shown.as_str(), text);
}

#[test]
fn errors_say_what_they_are(rt: HostRuntime) {
    for (fault, text) in TEXTS {
        assert_reads(&rt, rt.alloc(), *fault, text);
    }
}

const STATUSES: &[(ToolFault, u8)] = &[
    (ToolFault::Read, 3),
    (ToolFault::Write, 3),
    (ToolFault::Memory, 4),
    (ToolFault::Script(7), 2),
    (ToolFault::Jobs(1), 2),
    (ToolFault::Device, 3),
    (ToolFault::Usage, 2),
];

#[test]
fn faults_of_a_tool_have_statuses(rt: HostRuntime) {
    for (place, (fault, status)) in STATUSES.iter().enumerate() {
        assert_same_at(&rt, fault.status(), *status, place);
    }
}
