//! The lines of a C. file: the work for another system.
ghost use Rattle.std.specs.Prelude.{◌≡◌, ◌++◌, IfOk, OnOk, Ok, Err, MatchResult};
ghost use Rattle.uug_talk.specs.Words.{words};
ghost use Rattle.uug_taylor_text.specs.CommandLines.{command_of, execute_of, fields_read, file_read, has_option, is_named, name_said, notify_in, notify_of, request_of, send_of};
ghost use Rattle.uug_taylor_text.specs.ShownCommands.{shown, shown_fields, shown_file};

use crate::quoting::{add_unquoted, is_well_quoted};
use crate::sent_file::SentFile;
use crate::spool_names::is_data_name;
use std::alloc::{AllocError, Allocator};
use thiserror::Error;
use uug_talk::{read_mode, split_word};

/// The fields that all commands of a C. file have: words of the line, as written.
#[derive(Clone, Copy, Debug, PartialEq, Eq)]
pub struct Fields<'a> {
    /// The file's name where it is sent from.
    pub source: &'a [u8],
    /// The file's name where it is sent to.
    pub target: &'a [u8],
    /// The user that the file belongs to.
    pub user: &'a [u8],
    /// A dash, and the letters of the options.
    pub options: &'a [u8],
}

/// A line of a C. file.
#[derive(Clone, Copy, Debug, PartialEq, Eq)]
pub enum Command<'a> {
    /// `S`: this system sends a file.
    Send(Fields<'a>, SentFile<'a>),
    /// `R`: this system requests a file.
    Request(Fields<'a>),
    /// `X`: the other system is asked to send the files that a wildcard names.
    Expand(Fields<'a>),
    /// `E`: this system sends a file, and has a command run with it. The command's words are separated by one or more
    /// spaces.
    Execute(Fields<'a>, SentFile<'a>, &'a [u8]),
}

/// An error in a line of a C. file.
#[derive(Clone, Copy, Debug, PartialEq, Eq, Error)]
pub enum CommandFault {
    /// The first word is not `S`, `R`, `X` or `E`.
    #[error("unknown command")]
    Unknown,
    /// There are too few words, or the options don't begin with a dash.
    #[error("missing words or options")]
    Fields,
    /// A name is empty, or badly quoted: a backslash is not followed by the three octal digits of a byte.
    #[error("bad name")]
    Name,
    /// The name of the copy is not that of data.
    #[error("bad name of a copy")]
    Temp,
    /// The mode isn't one to seven octal digits.
    #[error("bad mode")]
    Mode,
}

/// Returns whether this letter is among the options.
pub fn has_option(options: &[u8], letter: u8) -> bool
    ensures { result ≡ has_option letter options.now }
{
    options.contains(&letter)
}

/// Returns the name that a word stands for. With option `q`, a backslash and three octal digits stand for one byte.
pub fn name_said<A: Allocator>(
    alloc: A,
    options: &[u8],
    word: &[u8],
) -> Result<Vec<u8, A>, AllocError>
    ensures { IfOk result (λ name. name.items ≡ name_said options.now word.now) }
{
    let mut name = Vec::new(alloc);
    add_name(&mut name, options, word)?;
    Ok(name)
}

fn add_name<A: Allocator>(
    name: &mut Vec<u8, A>,
    options: &[u8],
    word: &[u8],
) -> Result<(), AllocError>
    ensures { OnOk result (name.new.items ≡ name.old.items ++ name_said options.now word.now) }
{
    if has_option(options, b'q') {
        add_unquoted(name, word)
    } else {
        name.extend_from_slice(word)
    }
}

/// Returns whether a word is a name under these options. Two quotation marks are an empty field, and no name.
fn is_named(options: &[u8], word: &[u8]) -> bool
    ensures { result ≡ is_named options.now word.now }
{
    word != b"\"\"".as_slice() && (!has_option(options, b'q') || is_well_quoted(word))
}

fn read_fields<'a>(
    source: &'a [u8],
    target: &'a [u8],
    user: &'a [u8],
    options: &'a [u8],
) -> Result<Fields<'a>, CommandFault>
    ensures { MatchResult result
        (λ fields. fields_read source.now target.now user.now options.now ≡ Ok (shown_fields fields))
        (λ fault. fields_read source.now target.now user.now options.now ≡ Err fault) }
{
    if !options.starts_with(b"-") {
        return Err(CommandFault::Fields);
    }
    if !is_named(options, source) || !is_named(options, target) || !is_named(options, user) {
        return Err(CommandFault::Name);
    }
    Ok(Fields {
        source,
        target,
        user,
        options,
    })
}

fn read_file<'a>(
    options: &[u8],
    temp: &'a [u8],
    mode: &[u8],
    notify: &'a [u8],
) -> Result<SentFile<'a>, CommandFault>
    ensures { MatchResult result
        (λ file. file_read options.now temp.now mode.now notify.now ≡ Ok (shown_file file))
        (λ fault. file_read options.now temp.now mode.now notify.now ≡ Err fault) }
{
    if !is_data_name(temp) {
        return Err(CommandFault::Temp);
    }
    let Ok(mode) = read_mode(mode) else {
        return Err(CommandFault::Mode);
    };
    if has_option(options, b'q') && !is_well_quoted(notify) {
        return Err(CommandFault::Name);
    }
    Ok(SentFile { temp, mode, notify })
}

/// Returns the NOTIFY field that a word stands for. Two quotation marks stand for an empty field.
fn notify_of(word: &[u8]) -> &[u8]
    ensures { result.now ≡ notify_of word.now }
{
    if word == b"\"\"".as_slice() {
        &word[2..]
    } else {
        word
    }
}

fn read_send(text: &[u8]) -> Result<Command<'_>, CommandFault>
    ensures { MatchResult result
        (λ command. send_of (words text.now) ≡ Ok (shown command))
        (λ fault. send_of (words text.now) ≡ Err fault) }
{
    let (source, rest) = split_word(text).ok_or(CommandFault::Fields)?;
    let (target, rest) = split_word(rest).ok_or(CommandFault::Fields)?;
    let (user, rest) = split_word(rest).ok_or(CommandFault::Fields)?;
    let (options, rest) = split_word(rest).ok_or(CommandFault::Fields)?;
    let (temp, rest) = split_word(rest).ok_or(CommandFault::Fields)?;
    let (mode, rest) = split_word(rest).ok_or(CommandFault::Fields)?;
    let fields = read_fields(source, target, user, options)?;
    let file = read_file(options, temp, mode, notify_in(rest))?;
    Ok(Command::Send(fields, file))
}

/// Returns the NOTIFY field at the front of a text, or an empty one if it is missing.
fn notify_in(text: &[u8]) -> &[u8]
    ensures { result.now ≡ notify_in (words text.now) }
{
    match split_word(text) {
        Some((word, _)) => notify_of(word),
        None => &[],
    }
}

fn read_request(text: &[u8]) -> Result<Fields<'_>, CommandFault>
    ensures { MatchResult result
        (λ fields. request_of (words text.now) ≡ Ok (shown_fields fields))
        (λ fault. request_of (words text.now) ≡ Err fault) }
{
    let (source, rest) = split_word(text).ok_or(CommandFault::Fields)?;
    let (target, rest) = split_word(rest).ok_or(CommandFault::Fields)?;
    let (user, rest) = split_word(rest).ok_or(CommandFault::Fields)?;
    let (options, _) = split_word(rest).ok_or(CommandFault::Fields)?;
    read_fields(source, target, user, options)
}

fn read_execute(text: &[u8]) -> Result<Command<'_>, CommandFault>
    ensures { MatchResult result
        (λ command. execute_of (words text.now) ≡ Ok (shown command))
        (λ fault. execute_of (words text.now) ≡ Err fault) }
{
    let (source, rest) = split_word(text).ok_or(CommandFault::Fields)?;
    let (target, rest) = split_word(rest).ok_or(CommandFault::Fields)?;
    let (user, rest) = split_word(rest).ok_or(CommandFault::Fields)?;
    let (options, rest) = split_word(rest).ok_or(CommandFault::Fields)?;
    let (temp, rest) = split_word(rest).ok_or(CommandFault::Fields)?;
    let (mode, rest) = split_word(rest).ok_or(CommandFault::Fields)?;
    let (notify, rest) = split_word(rest).ok_or(CommandFault::Fields)?;
    let (_, command) = split_word(rest).ok_or(CommandFault::Fields)?;
    split_word(command).ok_or(CommandFault::Fields)?;
    let fields = read_fields(source, target, user, options)?;
    let file = read_file(options, temp, mode, notify_of(notify))?;
    Ok(Command::Execute(fields, file, command))
}

/// Reads a line of a C. file, without its line feed. Its words are separated by one or more spaces; those after the
/// last one needed are skipped.
///
/// The errors are checked in this order: `Unknown` for another first word; `Fields` for too few words, or options
/// without a dash in front; `Name` for an invalid name. Then, if a file is sent, `Temp` for the name of its copy,
/// `Mode` for its mode, and `Name` for NOTIFY.
pub fn read_command(line: &[u8]) -> Result<Command<'_>, CommandFault>
    ensures exact { MatchResult result
        (λ command. command_of line.now ≡ Ok (shown command))
        (λ fault. command_of line.now ≡ Err fault) }
{
    let (first, rest) = split_word(line).ok_or(CommandFault::Unknown)?;
    match first {
        [b'S'] => read_send(rest),
        [b'R'] => Ok(Command::Request(read_request(rest)?)),
        [b'X'] => Ok(Command::Expand(read_request(rest)?)),
        [b'E'] => read_execute(rest),
        _ => Err(CommandFault::Unknown),
    }
}
