//! The execution file that is sent with the data of an `E` line to a system without the command `E`.
ghost use Rattle.std.specs.Prelude.{◌≡◌, ◌++◌, ◌∷◌, ◌+◌, ◌≤◌, [], IfOk, OnOk, length};
ghost use Rattle.uug_talk.specs.Words.{words};
ghost use Rattle.uug_talk.specs.Lines.{ended};
ghost use Rattle.uug_talk.specs.declared.name.TheConstants.{NAME_MAX};
ghost use Rattle.uug_taylor_text.specs.ExecutionTexts.{execution_target, execution_temp, execution_text, flag_line, renamed_data, option_lines, requestor_line, spaced};
ghost use Rattle.uug_taylor_text.specs.ShownCommands.{shown_fields, shown_file};

use crate::command::{Fields, has_option};
use crate::sent_file::SentFile;
use arrayvec::ArrayVec;
use std::alloc::{AllocError, Allocator};
use uug_talk::{NAME_MAX, Name, split_word};

/// Returns the name of data with these letters in place of its `D.`. Returns `None` if it doesn't begin with `D.`, or
/// the result is not a valid name.
fn renamed_data(letters: &[u8], name: &[u8]) -> Option<Name>
    requires { length letters.now ≤ NAME_MAX }
    ensures { result ≡ renamed_data letters.now name.now }
{
    if !name.starts_with(b"D.") {
        return None;
    }
    let mut bytes: ArrayVec<u8, NAME_MAX> = ArrayVec::new();
    let Ok(()) = bytes.try_extend_from_slice(letters) else {
        unreachable!();
    };
    match bytes.try_extend_from_slice(&name[2..]) {
        Ok(()) => Name::new(bytes.as_slice()).ok(),
        Err(_) => None,
    }
}

/// Returns the name of the execution file at the other system: the name of the data there, with an `X` in place of its
/// `D`. It is the same at each try.
pub fn execution_target(target: &[u8]) -> Option<Name>
    ensures { result ≡ execution_target target.now }
{
    renamed_data(b"X.", target)
}

/// Returns the name under which the execution file is sent: the name of the data, with `D.X` in place of its `D.`. It
/// is the same at each try.
pub fn execution_temp(temp: &[u8]) -> Option<Name>
    ensures { result ≡ execution_temp temp.now }
{
    renamed_data(b"D.X", temp)
}

/// Appends a line of these letters and a word.
fn add_line<A: Allocator>(
    text: &mut Vec<u8, A>,
    letters: &[u8],
    word: &[u8],
) -> Result<(), AllocError>
    ensures { OnOk result (text.new.items
        ≡ text.old.items ++ ended (letters.now ++ word.now)) }
{
    text.extend_from_slice(letters)?;
    text.extend_from_slice(word)?;
    text.push(b'\n')?;
    Ok(())
}

/// Appends a line of this letter, if it is among the options.
fn add_flag<A: Allocator>(
    text: &mut Vec<u8, A>,
    letter: u8,
    options: &[u8],
) -> Result<(), AllocError>
    ensures { OnOk result (text.new.items ≡ text.old.items ++ flag_line letter options.now) }
{
    if has_option(options, letter) {
        text.extend_from_slice(&[letter, b'\n'])
    } else {
        Ok(())
    }
}

/// Appends the line of the requestor, if there is an option `R` and NOTIFY is not empty.
fn add_requestor<A: Allocator>(
    text: &mut Vec<u8, A>,
    options: &[u8],
    notify: &[u8],
) -> Result<(), AllocError>
    ensures { OnOk result (text.new.items
        ≡ text.old.items ++ requestor_line options.now notify.now) }
{
    if has_option(options, b'R') && !notify.is_empty() {
        add_line(text, b"R ", notify)
    } else {
        Ok(())
    }
}

/// Appends a space and a word.
pub(crate) fn add_word<A: Allocator>(text: &mut Vec<u8, A>, word: &[u8]) -> Result<(), AllocError>
    ensures { OnOk result (text.new.items ≡ text.old.items ++ 32 ∷ word.now) }
{
    text.push(b' ')?;
    text.extend_from_slice(word)
}

/// Appends each word of a text, with a space in front.
pub(crate) fn add_words<A: Allocator>(
    text: &mut Vec<u8, A>,
    command: &[u8],
) -> Result<(), AllocError>
    ensures { OnOk result (text.new.items ≡ text.old.items ++ spaced (words command.now)) }
{
    let mut rest = command;
    while let Some((word, behind)) = split_word(rest) {
        add_word(text, word)?;
        rest = behind;
    }
    Ok(())
}

/// Appends the line of the user, with the name of this node.
fn add_user<A: Allocator>(text: &mut Vec<u8, A>, user: &[u8], node: &Name) -> Result<(), AllocError>
    ensures { OnOk result (text.new.items
        ≡ text.old.items ++ ended (85 ∷ spaced (user.now ∷ node.now ∷ []))) }
{
    text.push(b'U')?;
    add_word(text, user)?;
    add_word(text, node.as_bytes())?;
    text.push(b'\n')?;
    Ok(())
}

/// Appends the line of the command.
fn add_command<A: Allocator>(text: &mut Vec<u8, A>, command: &[u8]) -> Result<(), AllocError>
    ensures { OnOk result (text.new.items
        ≡ text.old.items ++ ended (67 ∷ spaced (words command.now))) }
{
    text.push(b'C')?;
    add_words(text, command)?;
    text.push(b'\n')?;
    Ok(())
}

/// Appends the lines for the options and NOTIFY.
fn add_options<A: Allocator>(
    text: &mut Vec<u8, A>,
    options: &[u8],
    notify: &[u8],
) -> Result<(), AllocError>
    ensures { OnOk result (text.new.items
        ≡ text.old.items ++ option_lines options.now notify.now) }
{
    add_flag(text, b'N', options)?;
    add_flag(text, b'Z', options)?;
    add_requestor(text, options, notify)?;
    add_flag(text, b'e', options)
}

/// Returns the execution file of an `E` line of this node. Its lines, in this order: `U` with the user and the node;
/// `F` and `I`, each with the name of the data at the other system; `N` and `Z`, if these are options; `R` with the
/// requestor, if there is one; `e`, if it is an option; and `C` with the command. Names are written as in the line:
/// those of a line with option `q` are quoted.
pub fn execution_text<A: Allocator>(
    alloc: A,
    node: &Name,
    fields: &Fields<'_>,
    file: &SentFile<'_>,
    command: &[u8],
) -> Result<Vec<u8, A>, AllocError>
    ensures { IfOk result (λ text. text.items
        ≡ execution_text node.now (shown_fields fields.now) (shown_file file.now) (words command.now)) }
{
    let mut text = Vec::new(alloc);
    add_user(&mut text, fields.user, node)?;
    add_line(&mut text, b"F ", fields.target)?;
    add_line(&mut text, b"I ", fields.target)?;
    add_options(&mut text, fields.options, file.notify)?;
    add_command(&mut text, command)?;
    Ok(text)
}
