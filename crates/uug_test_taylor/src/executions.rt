//! Execution files. The tests catch beyond the clauses a rule that is wrong in the definition, and a call that reports
//! that memory ran out when none was refused.

use crate::assertions::{assert_bytes, assert_same, assert_same_at, name};
use std::alloc::Global;
use std::process::Abort;
use uug_talk::Name;
use uug_taylor_text::{Command, execution_target, execution_temp, execution_text, read_command};

/// The name of data at the other system, and that of its execution file.
const TARGETS: [(&str, Option<&str>); 5] = [
    ("D.alphaN0001", Some("X.alphaN0001")),
    ("D.averyloN0001", Some("X.averyloN0001")),
    ("~/x", None),
    ("X.alphaN0001", None),
    ("", None),
];

/// The name of data here, and that under which its execution file is sent.
const TEMPS: [(&str, Option<&str>); 4] = [
    ("D.0001", Some("D.X0001")),
    ("D.ZZZZ", Some("D.XZZZZ")),
    ("X.0001", None),
    ("D", None),
];

fn assert_name(rt: &impl Abort, seen: Option<Name>, expected: Option<&str>, place: &str) {
    match expected {
        Some(text) => assert_same_at(rt, seen, Some(name(rt, text)), place),
        None => assert_same_at(rt, seen, None, place),
    }
}

#[test]
fn names_execution_files(rt: HostRuntime) {
    for (target, expected) in TARGETS {
        assert_name(&rt, execution_target(target.as_bytes()), expected, target);
    }
    for (temp, expected) in TEMPS {
        assert_name(&rt, execution_temp(temp.as_bytes()), expected, temp);
    }
}

#[test]
fn names_no_file_past_the_limit(rt: HostRuntime) {
    let mut long = [b'x'; 200];
    long[..2].copy_from_slice(b"D.");
    assert_same(&rt, execution_target(&long).is_some(), true);
    assert_same(&rt, execution_temp(&long).is_some(), false);
    assert_same(&rt, execution_temp(&long[..199]).is_some(), true);
}

/// `E` lines of the node alpha, and the execution file of each.
const EXECUTIONS: [(&str, &str); 5] = [
    // a mail of postfix, of exim, and a batch of news
    (
        "E D.0001 D.alphaN0001 uucp -CNZR D.0001 0666 sender@here.org 0 rmail rcpt1@there.org rcpt2@there.org",
        "U uucp alpha\nF D.alphaN0001\nI D.alphaN0001\nN\nZ\nR sender@here.org\nC rmail rcpt1@there.org rcpt2@there.org\n",
    ),
    (
        "E D.0002 D.alphaB0002 uucp -CR D.0002 0666 sender@here.org 0 rmail rcpt1@there.org",
        "U uucp alpha\nF D.alphaB0002\nI D.alphaB0002\nR sender@here.org\nC rmail rcpt1@there.org\n",
    ),
    (
        "E D.0003 D.alphad0003 uucp -CNZ D.0003 0666 \"\" 0 rnews",
        "U uucp alpha\nF D.alphad0003\nI D.alphad0003\nN\nZ\nC rnews\n",
    ),
    // nobody is the requestor where none is named; by the shell
    (
        "E D.0004 D.alphaN0004 joe -CRe D.0004 0666 \"\" 0 cat  x",
        "U joe alpha\nF D.alphaN0004\nI D.alphaN0004\ne\nC cat x\n",
    ),
    (
        "E D.0005 D.alphaN0005 joe - D.0005 0666 fred 0 rmail u",
        "U joe alpha\nF D.alphaN0005\nI D.alphaN0005\nC rmail u\n",
    ),
];

fn assert_execution(rt: &impl Abort, alloc: Global, line: &str, expected: &str) {
    let node = name(rt, "alpha");
    match read_command(line.as_bytes()) {
        Ok(Command::Execute(fields, file, command)) => {
            let text = execution_text(alloc, &node, &fields, &file, command);
            let text = text.expect(rt, "memory for a text");
            assert_bytes(rt, &text, expected, line);
        }
        _ => assert_same(rt, (line, "no E line"), (line, expected)),
    }
}

#[test]
fn writes_execution_files(rt: HostRuntime) {
    for (line, expected) in EXECUTIONS {
        assert_execution(&rt, rt.alloc(), line, expected);
    }
}
