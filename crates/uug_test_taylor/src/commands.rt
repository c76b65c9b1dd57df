//! The lines of C. files. The tests catch beyond the clauses a rule that is wrong in the definition, and a call that
//! reports that memory ran out when none was refused.

use crate::assertions::{assert_bytes, assert_same, assert_same_at};
use std::alloc::Global;
use std::process::Abort;
use uug_talk::split_word;
use uug_taylor_text::{
    Command, CommandFault, Fields, SentFile, add_command_line, has_option, name_said, quoted,
    read_command,
};

/// Lines, and the line that is written for the command, or the error.
const LINES: [(&str, Result<&str, CommandFault>); 39] = [
    // as they were found on the disk
    (
        "S /srv/f1 ~/copym uucp -Cdm D.0003 0644 ",
        Ok("S /srv/f1 ~/copym uucp -Cdm D.0003 0644 \n"),
    ),
    (
        "S /srv/f1 ~/nocopy uucp -cd D.0002 0644 ",
        Ok("S /srv/f1 ~/nocopy uucp -cd D.0002 0644 \n"),
    ),
    (
        "S /srv/f1 ~/notify uucp -Cdn D.0004 0644 fred",
        Ok("S /srv/f1 ~/notify uucp -Cdn D.0004 0644 fred\n"),
    ),
    (
        "S /srv/a\\040b ~/a\\040b uucp -Cdq D.0004 0644 ",
        Ok("S /srv/a\\040b ~/a\\040b uucp -Cdq D.0004 0644 \n"),
    ),
    (
        "S D.X000D X.alphaN000D uucp -C D.X000D 0666 ",
        Ok("S D.X000D X.alphaN000D uucp -C D.X000D 0666 \n"),
    ),
    (
        "S D.0001 D.alphaN0001 uucp - D.0001 0666 sender@here.org",
        Ok("S D.0001 D.alphaN0001 uucp - D.0001 0666 sender@here.org\n"),
    ),
    (
        "R ~/wanted /srv/alpha/pub/here uucp -d",
        Ok("R ~/wanted /srv/alpha/pub/here uucp -d\n"),
    ),
    (
        "X ~/glob* alpha!/srv/alpha/pub/ uucp -d",
        Ok("X ~/glob* alpha!/srv/alpha/pub/ uucp -d\n"),
    ),
    (
        "E D.0001 D.alphaN0001 uucp -CNZR D.0001 0666 sender@here.org 0 rmail rcpt1@there.org rcpt2@there.org",
        Ok(
            "E D.0001 D.alphaN0001 uucp -CNZR D.0001 0666 sender@here.org 0 rmail rcpt1@there.org rcpt2@there.org\n",
        ),
    ),
    (
        "E D.0002 D.alphaB0002 uucp -CR D.0002 0666 sender@here.org 0 rmail rcpt1@there.org",
        Ok("E D.0002 D.alphaB0002 uucp -CR D.0002 0666 sender@here.org 0 rmail rcpt1@there.org\n"),
    ),
    (
        "E D.0003 D.alphad0003 uucp -CNZ D.0003 0666 \"\" 0 rnews",
        Ok("E D.0003 D.alphad0003 uucp -CNZ D.0003 0666 \"\" 0 rnews\n"),
    ),
    // without the space at the end, with more spaces, with words behind, with a size
    ("S x y u - D.0 7", Ok("S x y u - D.0 0007 \n")),
    ("S x y u - D.0 0644 \"\" 0x6", Ok("S x y u - D.0 0644 \n")),
    ("  R   x  y u -  ", Ok("R x y u -\n")),
    ("R x y u - D.0001 0644", Ok("R x y u -\n")),
    (
        "E D.1 D.aN0001 u -C D.1 0666 \"\" 0x3 rmail  a   b ",
        Ok("E D.1 D.aN0001 u -C D.1 0666 \"\" 0 rmail a b\n"),
    ),
    // another first word
    ("", Err(CommandFault::Unknown)),
    ("   ", Err(CommandFault::Unknown)),
    ("H", Err(CommandFault::Unknown)),
    ("s x y u - D.0 0644", Err(CommandFault::Unknown)),
    ("SS x y u - D.0 0644", Err(CommandFault::Unknown)),
    ("\tS x y u - D.0 0644", Err(CommandFault::Unknown)),
    // too few words, or no options
    ("S", Err(CommandFault::Fields)),
    ("S x y u - D.0", Err(CommandFault::Fields)),
    ("S x y u D.0 0644 a", Err(CommandFault::Fields)),
    ("R x y u", Err(CommandFault::Fields)),
    ("X x y u d", Err(CommandFault::Fields)),
    (
        "E D.1 D.aN0001 u -C D.1 0666 \"\" 0",
        Err(CommandFault::Fields),
    ),
    // names
    ("R \"\" y u -", Err(CommandFault::Name)),
    ("R x \"\" u -", Err(CommandFault::Name)),
    ("R x y \"\" -", Err(CommandFault::Name)),
    ("R x\\04 y u -q", Err(CommandFault::Name)),
    ("R x\\400 y u -q", Err(CommandFault::Name)),
    ("R x\\04 y u -", Ok("R x\\04 y u -\n")),
    ("S x y u -q D.0 0644 \\", Err(CommandFault::Name)),
    // the copy, then the mode
    ("S x y u -C /etc/passwd 0648", Err(CommandFault::Temp)),
    ("S x y u -C D.a/b 0644", Err(CommandFault::Temp)),
    ("S x y u -C D.0001 0648", Err(CommandFault::Mode)),
    ("S x y u -C D.0001 00010000", Err(CommandFault::Mode)),
];

fn assert_writes(rt: &impl Abort, alloc: Global, line: &str, expected: &str) {
    let mut text = Vec::new(alloc);
    let Ok(command) = read_command(line.as_bytes()) else {
        assert_same(rt, (line, "no command"), (line, expected));
        return;
    };
    let written = add_command_line(&mut text, &command);
    written.expect(rt, "memory for a line");
    assert_bytes(rt, &text, expected, line);
}

fn assert_fault(rt: &impl Abort, line: &str, fault: CommandFault) {
    let seen = read_command(line.as_bytes()).err();
    assert_same_at(rt, seen, Some(fault), line);
}

#[test]
fn writes_what_it_reads(rt: HostRuntime) {
    for (line, expected) in LINES {
        match expected {
            Ok(text) => assert_writes(&rt, rt.alloc(), line, text),
            Err(fault) => assert_fault(&rt, line, fault),
        }
    }
}

fn assert_fields(rt: &impl Abort, fields: &Fields<'_>, expected: [&str; 4]) {
    let [source, target, user, options] = expected;
    assert_same(rt, fields.source, source.as_bytes());
    assert_same(rt, fields.target, target.as_bytes());
    assert_same(rt, fields.user, user.as_bytes());
    assert_same(rt, fields.options, options.as_bytes());
}

fn assert_file(rt: &impl Abort, file: &SentFile<'_>, temp: &str, mode: u16, notify: &str) {
    assert_same(rt, file.temp, temp.as_bytes());
    assert_same(rt, file.mode, mode);
    assert_same(rt, file.notify, notify.as_bytes());
}

#[test]
fn reads_a_file_to_send(rt: HostRuntime) {
    match read_command(b"S /srv/f1 ~/notify uucp -Cdn D.0004 0644 fred") {
        Ok(Command::Send(fields, file)) => {
            assert_fields(&rt, &fields, ["/srv/f1", "~/notify", "uucp", "-Cdn"]);
            assert_file(&rt, &file, "D.0004", 0o644, "fred");
        }
        _ => assert_same(&rt, "no S line", ""),
    }
}

#[test]
fn reads_a_request(rt: HostRuntime) {
    match read_command(b"R ~/wanted /srv/alpha/pub/here uucp -d") {
        Ok(Command::Request(fields)) => assert_fields(
            &rt,
            &fields,
            ["~/wanted", "/srv/alpha/pub/here", "uucp", "-d"],
        ),
        _ => assert_same(&rt, "no R line", ""),
    }
}

#[test]
fn reads_a_wildcard(rt: HostRuntime) {
    match read_command(b"X ~/glob* alpha!/srv/alpha/pub/ uucp -d") {
        Ok(Command::Expand(fields)) => assert_fields(
            &rt,
            &fields,
            ["~/glob*", "alpha!/srv/alpha/pub/", "uucp", "-d"],
        ),
        _ => assert_same(&rt, "no X line", ""),
    }
}

/// Asserts that a command has these two words.
fn assert_words(rt: &impl Abort, command: &[u8], [first, second]: [&[u8]; 2]) {
    let Some((word, behind)) = split_word(command) else {
        assert_same(rt, command, first);
        return;
    };
    assert_same(rt, word, first);
    assert_same(rt, split_word(behind), Some((second, b"".as_slice())));
}

#[test]
fn reads_a_batch_of_news(rt: HostRuntime) {
    match read_command(b"E D.0003 D.alphad0003 uucp -CNZ D.0003 0666 \"\" 0 rnews -x") {
        Ok(Command::Execute(fields, file, command)) => {
            assert_fields(&rt, &fields, ["D.0003", "D.alphad0003", "uucp", "-CNZ"]);
            assert_file(&rt, &file, "D.0003", 0o666, "");
            assert_words(&rt, command, [b"rnews", b"-x"]);
        }
        _ => assert_same(&rt, "no E line", ""),
    }
}

/// The errors of lines, and their texts.
const FAULTS: [(CommandFault, &str); 5] = [
    (CommandFault::Unknown, "unknown command"),
    (CommandFault::Fields, "missing words or options"),
    (CommandFault::Name, "bad name"),
    (CommandFault::Temp, "bad name of a copy"),
    (CommandFault::Mode, "bad mode"),
];

fn assert_said(rt: &impl Abort, alloc: Global, fault: CommandFault, text: &str) {
    let said = fault.to_string(alloc).expect(rt, "memory for a text");
    assert_same(rt, said.as_str(), text);
}

#[test]
fn says_why_a_line_is_no_command(rt: HostRuntime) {
    for (fault, text) in FAULTS {
        assert_said(&rt, rt.alloc(), fault, text);
    }
}

/// Options, a letter, and whether it is among them.
const OPTIONS: [(&str, u8, bool); 5] = [
    ("-CNZR", b'R', true),
    ("-CNZR", b'C', true),
    ("-CNZR", b'c', false),
    ("-", b'C', false),
    ("", b'q', false),
];

#[test]
fn finds_options(rt: HostRuntime) {
    for (options, letter, expected) in OPTIONS {
        assert_same_at(
            &rt,
            has_option(options.as_bytes(), letter),
            expected,
            options,
        );
    }
}

/// Options, a word, and the name that it stands for.
const NAMES: [(&str, &str, &str); 7] = [
    ("-Cdq", "/srv/a\\040b", "/srv/a b"),
    ("-Cd", "/srv/a\\040b", "/srv/a\\040b"),
    ("-q", "plain", "plain"),
    ("-q", "\\134", "\\"),
    ("-q", "\\134060", "\\060"),
    ("-q", "\\012\\042", "\n\""),
    ("-q", "", ""),
];

fn assert_name(rt: &impl Abort, alloc: Global, (options, word, expected): (&str, &str, &str)) {
    let name = name_said(alloc, options.as_bytes(), word.as_bytes());
    let name = name.expect(rt, "memory for a name");
    assert_bytes(rt, &name, expected, word);
}

#[test]
fn reads_quoted_names(rt: HostRuntime) {
    for row in NAMES {
        assert_name(&rt, rt.alloc(), row);
    }
}

/// Names, and the word of each.
const WORDS: [(&str, &str); 6] = [
    ("/srv/a b", "/srv/a\\040b"),
    ("plain~!@#%^&*()", "plain~!@#%^&*()"),
    ("\\", "\\134"),
    ("\"", "\\042"),
    ("\n\x7f", "\\012\\177"),
    ("", ""),
];

fn assert_word(rt: &impl Abort, alloc: Global, name: &str, expected: &str) {
    let word = quoted(alloc, name.as_bytes()).expect(rt, "memory for a word");
    assert_bytes(rt, &word, expected, name);
}

#[test]
fn quotes_names(rt: HostRuntime) {
    for (name, expected) in WORDS {
        assert_word(&rt, rt.alloc(), name, expected);
    }
    let high = quoted(rt.alloc(), &[0, 255]).expect(&rt, "memory for a word");
    assert_bytes(&rt, &high, "\\000\\377", "bytes that are no text");
}
