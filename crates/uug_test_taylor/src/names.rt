//! The names of a spool's files, their grades and numbers. The tests catch beyond the clauses a rule that is wrong in
//! the definition.

use crate::assertions::{assert_bytes, assert_same, assert_same_at, name};
use std::alloc::Global;
use std::cmp::Ordering;
use std::process::Abort;
use uug_taylor_text::{
    Barred, Room, Spot, far_name, grade_of, is_data_name, is_system_name, next_sequence, spot_of,
    work_order,
};

/// Names that another system sends, and the place of each.
const PLACES: [(&str, Result<(Room, &str), Barred>); 35] = [
    // what a mail and a news batch come as
    ("D.alphaN000A", Ok((Room::Data, "D.alphaN000A"))),
    ("X.alphaN000A", Ok((Room::Execution, "X.alphaN000A"))),
    ("D.alphad0003", Ok((Room::Data, "D.alphad0003"))),
    ("D.averyloN0001", Ok((Room::Data, "D.averyloN0001"))),
    // the rest of a name isn't looked at, nor which system it names
    ("D.gammaN0001", Ok((Room::Data, "D.gammaN0001"))),
    ("D.b*d/", Err(Barred::Path)),
    ("D.b*dname", Ok((Room::Data, "D.b*dname"))),
    ("D.Xalpha0001", Ok((Room::Text, "D.Xalpha0001"))),
    ("X.", Ok((Room::Execution, "X."))),
    // seven bytes are one more than this system's own data has, and eight one more than its own texts
    ("D.00010", Ok((Room::Data, "D.00010"))),
    ("D.X00010", Ok((Room::Text, "D.X00010"))),
    ("D.0001", Err(Barred::Ours)),
    ("D.X0001", Err(Barred::Ours)),
    ("D.foo", Err(Barred::Ours)),
    ("D.", Err(Barred::Ours)),
    ("D.X", Err(Barred::Ours)),
    ("C.", Err(Barred::Commands)),
    ("C.NCBAQriAAGAs", Err(Barred::Commands)),
    // the public folder
    ("~/x", Ok((Room::Public, "x"))),
    ("x", Ok((Room::Public, "x"))),
    ("/x", Ok((Room::Public, "x"))),
    ("~/C.N0001", Ok((Room::Public, "C.N0001"))),
    ("D", Ok((Room::Public, "D"))),
    ("d.0001", Ok((Room::Public, "d.0001"))),
    ("rel/x", Err(Barred::Path)),
    ("/etc/passwd", Err(Barred::Path)),
    ("~user/x", Err(Barred::Path)),
    ("~/", Err(Barred::Path)),
    ("~", Err(Barred::Path)),
    ("/", Err(Barred::Path)),
    ("~/.profile", Err(Barred::Hidden)),
    // two dots lead elsewhere wherever they stand
    ("..", Err(Barred::Path)),
    ("X.alpha..", Err(Barred::Path)),
    ("C../../x", Err(Barred::Path)),
    ("D.0001..", Err(Barred::Path)),
];

fn assert_place(rt: &impl Abort, text: &str, expected: Result<(Room, &str), Barred>) {
    let seen = spot_of(&name(rt, text));
    match expected {
        Ok((room, local)) => {
            let name = name(rt, local);
            assert_same_at(rt, seen, Ok(Spot { room, name }), text);
        }
        Err(barred) => assert_same_at(rt, seen, Err(barred), text),
    }
}

#[test]
fn puts_files_in_their_places(rt: HostRuntime) {
    for (text, expected) in PLACES {
        assert_place(&rt, text, expected);
    }
}

/// The reasons for which names are barred, and their texts.
const BARRED: [(Barred, &str); 4] = [
    (Barred::Path, "not a name in the public folder or the spool"),
    (Barred::Commands, "the name of a job"),
    (Barred::Ours, "the name of data of this system"),
    (Barred::Hidden, "a hidden name"),
];

fn assert_barred(rt: &impl Abort, alloc: Global, barred: Barred, text: &str) {
    let said = barred.to_string(alloc).expect(rt, "memory for a text");
    assert_same(rt, said.as_str(), text);
}

#[test]
fn says_why_a_name_is_barred(rt: HostRuntime) {
    for (barred, text) in BARRED {
        assert_barred(&rt, rt.alloc(), barred, text);
    }
}

/// Names, and whether each may be that of data.
const DATA: [(&[u8], bool); 12] = [
    (b"D.0001", true),
    (b"D.alphaN0001", true),
    (b"D.X000D", true),
    (b"D.x", true),
    (b"D.", false),
    (b"D", false),
    (b"", false),
    (b"X.alphaN0001", false),
    (b"d.0001", false),
    (b"D.a/b", false),
    (b"D...", false),
    (b"D.a..b", false),
];

#[test]
fn knows_names_of_data(rt: HostRuntime) {
    for (text, expected) in DATA {
        assert_same(&rt, (text, is_data_name(text)), (text, expected));
    }
}

/// Names, and whether each may be that of a system.
const SYSTEMS: [(&str, bool); 7] = [
    ("beta", true),
    ("averylongnodename", true),
    ("beta.here.org", true),
    (".Temp", false),
    (".", false),
    ("a/b", false),
    ("/", false),
];

#[test]
fn knows_names_of_systems(rt: HostRuntime) {
    for (text, expected) in SYSTEMS {
        assert_same_at(&rt, is_system_name(&name(&rt, text)), expected, text);
    }
}

/// Texts of SEQF, and the number that follows.
const NUMBERS: [(&[u8], [u8; 4]); 12] = [
    (b"0000", *b"0001"),
    (b"0009", *b"000A"),
    (b"000Z", *b"0010"),
    (b"00ZZ", *b"0100"),
    (b"0ZZZ", *b"1000"),
    (b"ZZZZ", *b"0000"),
    (b"QX7Y", *b"QX7Z"),
    // a file that lacks, is empty or strange is as 0000
    (b"", *b"0001"),
    (b"0009\n", *b"0001"),
    (b"009", *b"0001"),
    (b"00a9", *b"0001"),
    (b"00-9", *b"0001"),
];

#[test]
fn counts_by_thirty_six(rt: HostRuntime) {
    for (text, expected) in NUMBERS {
        assert_same(&rt, (text, next_sequence(text)), (text, expected));
    }
}

/// A node, the kind of a file, its grade and number, and its name at another system.
const FAR_NAMES: [(&str, u8, u8, [u8; 4], &str); 5] = [
    ("alpha", b'D', b'N', *b"000A", "D.alphaN000A"),
    ("alpha", b'X', b'N', *b"000A", "X.alphaN000A"),
    ("alpha", b'D', b'd', *b"0003", "D.alphad0003"),
    ("averylongnodename", b'D', b'N', *b"0001", "D.averyloN0001"),
    ("a", b'X', b'0', *b"ZZZZ", "X.a0ZZZZ"),
];

#[test]
fn names_files_for_others(rt: HostRuntime) {
    for (node, kind, grade, number, expected) in FAR_NAMES {
        let far = far_name(kind, &name(&rt, node), grade, number);
        assert_same_at(&rt, far.as_slice(), expected.as_bytes(), expected);
    }
}

/// Names in the folder of jobs, and the grade of each that is one.
const GRADES: [(&[u8], Option<u8>); 9] = [
    (b"C.NCBAQriAAGAs", Some(b'N')),
    (b"C.A", Some(b'A')),
    (b"C.Nxxxx", Some(b'N')),
    (b"C.0", Some(b'0')),
    (b"C.zz", Some(b'z')),
    (b"TMP0000012345", None),
    (b"C.", None),
    (b"C.-x", None),
    (b"c.Nx", None),
];

#[test]
fn reads_grades(rt: HostRuntime) {
    for (text, expected) in GRADES {
        assert_same(&rt, (text, grade_of(text)), (text, expected));
    }
}

/// Jobs in the order in which they are taken.
const IN_ORDER: [&[u8]; 9] = [
    b"C.0b", b"C.9a", b"C.A", b"C.Ba", b"C.Na", b"C.Nb", b"C.Nbb", b"C.Zz", b"C.aA",
];

#[test]
fn takes_jobs_by_grade(rt: HostRuntime) {
    for (i, first) in IN_ORDER.iter().enumerate() {
        for (j, second) in IN_ORDER.iter().enumerate() {
            assert_same_at(&rt, work_order(first, second), i.cmp(&j), j);
        }
    }
    assert_same(&rt, work_order(b"TMP1", b"C.0"), Ordering::Less);
}
