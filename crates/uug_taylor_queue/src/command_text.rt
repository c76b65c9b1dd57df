//! The texts of C. files, some of whose lines are over.
ghost use Rattle.std.specs.Prelude.{◌≡◌, ◌++◌, IfOk, OnErr, OnOk, map};
ghost use Rattle.uug_taylor_text.specs.Operations.{FrontDone, HasFault, also_all};
ghost use Rattle.uug_talk.specs.Lines.{ended, lines as lines_of_text};
ghost use Rattle.uug_taylor_queue.specs.Rewriting.{has_lost, has_number, is_over_in, is_rewritten, left_line, left_lines, packed, packed_line, replacing, rewritten, shown_text, text_after};

use crate::command_file::is_blank;
use crate::open_line::OpenLine;
use crate::settled::has_line;
use std::alloc::{AllocError, Allocator};
use uug_talk::{Name, split_line};
use uug_taylor_text::{Disk, DiskFailed, Room, Spot, replace};

/// The name and the text of a C. file.
#[derive(Drop)]
pub struct CommandText<A: Allocator> {
    /// Its name.
    pub name: Name,
    /// Its text.
    pub text: Vec<u8, A>,
}

/// Returns whether one of these lines is line `number` of this file, counted from 0.
fn has_number(lines: &[OpenLine], file: &Name, number: usize) -> bool
    ensures { result ≡ has_number file.now number lines.now }
{
    lines.iter().any(|line| line.number == number && line.file.as_bytes() == file.as_bytes())
}

/// Returns whether line `number` of this file is over: it is among `gone`, and no job of it is among `left`.
fn is_over_in(gone: &[OpenLine], left: &[OpenLine], file: &Name, number: usize) -> bool
    ensures { result ≡ is_over_in file.now number gone.now left.now }
{
    has_number(gone, file, number) && !has_number(left, file, number)
}

/// Returns whether this file has lost a line without a copy. Only the file can show that this line is over. A line with
/// a copy is over as soon as the copy is gone.
fn has_lost(gone: &[OpenLine], left: &[OpenLine], file: &Name) -> bool
    ensures { result ≡ has_lost file.now gone.now left.now }
{
    gone.iter().any(|line| {
        line.copy.is_none()
            && line.file.as_bytes() == file.as_bytes()
            && !has_number(left, file, line.number)
    })
}

/// Returns whether this file must be rewritten: it has lost a line without a copy, and has lines left.
fn is_rewritten(gone: &[OpenLine], left: &[OpenLine], file: &Name) -> bool
    ensures { result ≡ is_rewritten file.now gone.now left.now }
{
    has_lost(gone, left, file) && has_line(left, file)
}

/// Appends this line, or an empty one if it is over.
fn add_left<A: Allocator>(
    text: &mut Vec<u8, A>,
    is_over: bool,
    line: &[u8],
) -> Result<(), AllocError>
    ensures { OnOk result (text.new.items ≡ text.old.items ++ ended (left_line is_over line.now)) }
{
    if !is_over {
        text.extend_from_slice(line)?;
    }
    text.push(b'\n')?;
    Ok(())
}

/// Returns the text of a file once `gone` are over and `left` stay. A line that is over becomes empty, so that the
/// others keep their numbers.
fn left_text<A: Allocator>(
    alloc: A,
    file: &Name,
    text: &[u8],
    gone: &[OpenLine],
    left: &[OpenLine],
) -> Result<Vec<u8, A>, AllocError>
    ensures { IfOk result (λ after. after.items
        ≡ left_lines file.now gone.now left.now 0 (lines_of_text text.now)) }
{
    let mut after = Vec::new(alloc);
    let mut rest = text;
    let mut number = 0;
    while let Some((line, behind)) = split_line(rest) {
        add_left(&mut after, is_over_in(gone, left, file, number), line)?;
        rest = behind;
        number += 1;
    }
    Ok(after)
}

/// Appends a line, unless it is blank.
fn add_packed<A: Allocator>(text: &mut Vec<u8, A>, line: &[u8]) -> Result<(), AllocError>
    ensures { OnOk result (text.new.items ≡ text.old.items ++ packed_line line.now) }
{
    if is_blank(line) {
        return Ok(());
    }
    text.extend_from_slice(line)?;
    text.push(b'\n')?;
    Ok(())
}

/// Returns the lines of a text that are not blank.
fn packed<A: Allocator>(alloc: A, text: &[u8]) -> Result<Vec<u8, A>, AllocError>
    ensures { IfOk result (λ lines. lines.items ≡ packed (lines_of_text text.now)) }
{
    let mut lines = Vec::new(alloc);
    let mut rest = text;
    while let Some((line, behind)) = split_line(rest) {
        add_packed(&mut lines, line)?;
        rest = behind;
    }
    Ok(lines)
}

/// Returns this file once `gone` are over and `left` stay. Its text changes only if it must be rewritten.
fn text_after<A: Allocator + Copy, B: Allocator>(
    alloc: A,
    file: &CommandText<B>,
    gone: &[OpenLine],
    left: &[OpenLine],
) -> Result<CommandText<A>, AllocError>
    ensures { IfOk result (λ after. shown_text after ≡ text_after gone.now left.now (shown_text file.now)) }
{
    let text = if is_rewritten(gone, left, &file.name) {
        left_text(alloc, &file.name, file.text.as_slice(), gone, left)?
    } else {
        file.text.to_vec(alloc)?
    };
    Ok(CommandText {
        name: file.name,
        text,
    })
}

/// Returns these files once `gone` are over and `left` stay.
pub(crate) fn texts_after<A: Allocator + Copy, B: Allocator>(
    alloc: A,
    files: &[CommandText<B>],
    gone: &[OpenLine],
    left: &[OpenLine],
) -> Result<Vec<CommandText<A>, A>, AllocError>
    ensures { IfOk result (λ after. map shown_text after.items
        ≡ map (text_after gone.now left.now) (map shown_text files.now)) }
{
    let mut after = Vec::new(alloc);
    for file in files {
        after.push(text_after(alloc, file, gone, left)?)?;
    }
    Ok(after)
}

/// Returns the files that must be rewritten, each with its lines that are not blank. `files` are as `texts_after`
/// returns them: a line that is over is empty.
pub(crate) fn rewritten<A: Allocator + Copy, B: Allocator>(
    alloc: A,
    files: &[CommandText<B>],
    gone: &[OpenLine],
    left: &[OpenLine],
) -> Result<Vec<CommandText<A>, A>, AllocError>
    ensures { IfOk result (λ texts. map shown_text texts.items
        ≡ rewritten gone.now left.now (map shown_text files.now)) }
{
    let mut texts = Vec::new(alloc);
    for file in files {
        if is_rewritten(gone, left, &file.name) {
            texts.push(CommandText {
                name: file.name,
                text: packed(alloc, file.text.as_slice())?,
            })?;
        }
    }
    Ok(texts)
}

/// Rewrites these C. files, one after the other.
#[tactic(auto, using(crate::proofs::RewritingLemmas::one_is_replaced_in_part))]
pub(crate) fn replace_all<D: Disk, A: Allocator>(
    disk: &mut D,
    texts: &[CommandText<A>],
) -> Result<(), DiskFailed>
    ensures ok { OnOk result (D.done disk.new
        ≡ also_all (replacing (map shown_text texts.now)) (D.done disk.old)) }
    ensures err { OnErr result (FrontDone (replacing (map shown_text texts.now))
        (D.done disk.old) (D.done disk.new)) }
    ensures told { D.told disk.new ≡ D.told disk.old }
    ensures calm { OnOk result (D.fault_count disk.new ≡ D.fault_count disk.old) }
    ensures fault { OnErr result
        (HasFault u64.MAX (D.fault_count disk.old) (D.fault_count disk.new)) }
{
    let mut rest = texts;
    while let Some((file, behind)) = rest.split_first() {
        let place = Spot {
            room: Room::Commands,
            name: file.name,
        };
        replace(disk, &place, file.text.as_slice())?;
        rest = behind;
    }
    Ok(())
}
