//! The lines of a log that are about one system.
ghost use Rattle.std.specs.Prelude.{◌≡◌, ◌++◌, IfOk, MatchOption, None, OnOk, Some};
ghost use Rattle.uug_taylor_run.specs.SystemLogs.{is_about, line_about, lines_about, second_of};
ghost use Rattle.uug_talk.specs.Lines.{lines as lines_of_text};
ghost use Rattle.uug_talk.specs.Words.{words};

use std::alloc::{AllocError, Allocator};
use uug_talk::{Name, split_line, split_word};

/// Returns the lines of a log that are about this system.
pub(crate) fn lines_about<A: Allocator>(
    alloc: A,
    log: &[u8],
    system: &Name,
) -> Result<Vec<u8, A>, AllocError>
    ensures { IfOk result (λ about. about.items
        ≡ lines_about system.now (lines_of_text log.now)) }
{
    let mut about = Vec::new(alloc);
    let mut rest = log;
    while let Some((line, behind)) = split_line(rest) {
        add_about(&mut about, line, system)?;
        rest = behind;
    }
    Ok(about)
}

/// Appends a line of a log if it is about this system.
fn add_about<A: Allocator>(
    about: &mut Vec<u8, A>,
    line: &[u8],
    system: &Name,
) -> Result<(), AllocError>
    ensures { OnOk result
        (about.new.items ≡ about.old.items ++ line_about system.now line.now) }
{
    if !is_about(line, system) {
        return Ok(());
    }
    about.extend_from_slice(line)?;
    about.push(b'\n')?;
    Ok(())
}

/// Returns whether a line of a log is about this system: its second word is the system's name.
fn is_about(line: &[u8], system: &Name) -> bool
    ensures { result ≡ is_about system.now line.now }
{
    match second_word(line) {
        Some(word) => word == system.as_bytes(),
        None => false,
    }
}

/// Returns the second word of a line.
fn second_word(line: &[u8]) -> Option<&[u8]>
    ensures { MatchOption result (second_of (words line.now) ≡ None)
        (λ word. second_of (words line.now) ≡ Some word.now) }
{
    let (_, rest) = split_word(line)?;
    let (word, _) = split_word(rest)?;
    Some(word)
}
