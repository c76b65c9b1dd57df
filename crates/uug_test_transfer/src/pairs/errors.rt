//! The text of each error of the folder and of the line.

use crate::pairs::assertions::assert_same;
use std::alloc::{AllocError, Global};
use std::process::Abort;
use uug_store::{BadNumber, FolderFailed, JobsFault};
use uug_transfer::{LineFailed, SessionFault, TurnFault};

/// An error of the crate.
#[derive(Clone, Copy)]
enum Fault {
    Folder(FolderFailed),
    Number(BadNumber),
    Line(LineFailed),
    Jobs(JobsFault),
    Turn(TurnFault),
    Session(SessionFault),
}

const TEXTS: &[(Fault, &str)] = &[
    (Fault::Folder(FolderFailed), "device fault"),
    (Fault::Number(BadNumber), "bad number file"),
    (Fault::Line(LineFailed), "device fault"),
    (Fault::Jobs(JobsFault::Bad(3)), "bad jobs at line 3"),
    (Fault::Jobs(JobsFault::Memory), "out of memory"),
    (Fault::Turn(TurnFault::Line), "device fault"),
    (Fault::Turn(TurnFault::Memory), "out of memory"),
    (Fault::Session(SessionFault::Jobs), "device fault"),
    (Fault::Session(SessionFault::Number), "device fault"),
    (Fault::Session(SessionFault::Memory), "out of memory"),
];

fn text_of(alloc: Global, fault: Fault) -> Result<String, AllocError> {
    match fault {
        Fault::Folder(fault) => fault.to_string(alloc),
        Fault::Number(fault) => fault.to_string(alloc),
        Fault::Line(fault) => fault.to_string(alloc),
        Fault::Jobs(fault) => fault.to_string(alloc),
        Fault::Turn(fault) => fault.to_string(alloc),
        Fault::Session(fault) => fault.to_string(alloc),
    }
}

fn assert_reads(rt: &impl Abort, alloc: Global, fault: Fault, text: &str) {
    let shown = text_of(alloc, fault).expect(rt, "memory for a text");
    assert_same(rt, shown.as_str(), text);
}

#[test]
fn errors_say_what_they_are(rt: HostRuntime) {
    for (fault, text) in TEXTS {
        assert_reads(&rt, rt.alloc(), *fault, text);
    }
}
