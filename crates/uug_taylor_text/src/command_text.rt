//! The text of a line of a C. file.
ghost use Rattle.std.specs.Prelude.{◌≡◌, ◌++◌, ◌∷◌, [], OnOk};
ghost use Rattle.uug_talk.specs.Lines.{ended};
ghost use Rattle.uug_talk.specs.Words.{words};
ghost use Rattle.uug_taylor_text.specs.CommandTexts.{copy_words, field_words, line_text, notify_field};
ghost use Rattle.uug_taylor_text.specs.CommandLines.{execute, send};
ghost use Rattle.uug_taylor_text.specs.ExecutionTexts.{spaced};
ghost use Rattle.uug_taylor_text.specs.ShownCommands.{shown, shown_fields, shown_file};

use crate::command::{Command, Fields};
use crate::execution::{add_word, add_words};
use crate::sent_file::SentFile;
use std::alloc::{AllocError, Allocator};
use uug_talk::mode_digits;

/// Appends the words of the fields, with a space in front of each.
fn add_fields<A: Allocator>(text: &mut Vec<u8, A>, fields: &Fields<'_>) -> Result<(), AllocError>
    ensures { OnOk result (text.new.items
        ≡ text.old.items ++ spaced (field_words (shown_fields fields.now))) }
{
    add_word(text, fields.source)?;
    add_word(text, fields.target)?;
    add_word(text, fields.user)?;
    add_word(text, fields.options)
}

/// Appends the name of a copy and the mode, with a space in front of each.
fn add_copy<A: Allocator>(text: &mut Vec<u8, A>, file: &SentFile<'_>) -> Result<(), AllocError>
    ensures { OnOk result (text.new.items
        ≡ text.old.items ++ spaced (copy_words (shown_file file.now))) }
{
    add_word(text, file.temp)?;
    add_word(text, &mode_digits(file.mode))
}

/// Returns the NOTIFY field in the middle of a line: two quotation marks if it is empty.
fn notify_field(notify: &[u8]) -> &[u8]
    ensures { result.now ≡ notify_field notify.now }
{
    if notify.is_empty() { b"\"\"" } else { notify }
}

/// Appends the line of a command that sends a file.
fn add_send<A: Allocator>(
    text: &mut Vec<u8, A>,
    fields: &Fields<'_>,
    file: &SentFile<'_>,
) -> Result<(), AllocError>
    ensures { OnOk result (text.new.items ≡ text.old.items
        ++ line_text (send (shown_fields fields.now) (shown_file file.now))) }
{
    text.push(b'S')?;
    add_fields(text, fields)?;
    add_copy(text, file)?;
    add_word(text, file.notify)?;
    text.push(b'\n')?;
    Ok(())
}

/// Appends the line of a command of this letter that has only the fields.
fn add_request<A: Allocator>(
    text: &mut Vec<u8, A>,
    letter: u8,
    fields: &Fields<'_>,
) -> Result<(), AllocError>
    ensures { OnOk result (text.new.items ≡ text.old.items
        ++ ended (letter ∷ spaced (field_words (shown_fields fields.now)))) }
{
    text.push(letter)?;
    add_fields(text, fields)?;
    text.push(b'\n')?;
    Ok(())
}

/// Appends the end of an `E` line: NOTIFY, the size 0, and the words of the command.
fn add_run<A: Allocator>(
    text: &mut Vec<u8, A>,
    notify: &[u8],
    command: &[u8],
) -> Result<(), AllocError>
    ensures { OnOk result (text.new.items ≡ text.old.items
        ++ ended (spaced (notify_field notify.now ∷ (48 ∷ []) ∷ words command.now))) }
{
    add_word(text, notify_field(notify))?;
    add_word(text, b"0")?;
    add_words(text, command)?;
    text.push(b'\n')?;
    Ok(())
}

/// Appends an `E` line.
fn add_execute<A: Allocator>(
    text: &mut Vec<u8, A>,
    fields: &Fields<'_>,
    file: &SentFile<'_>,
    command: &[u8],
) -> Result<(), AllocError>
    ensures { OnOk result (text.new.items ≡ text.old.items
        ++ line_text (execute (shown_fields fields.now) (shown_file file.now) (words command.now))) }
{
    text.push(b'E')?;
    add_fields(text, fields)?;
    add_copy(text, file)?;
    add_run(text, file.notify, command)
}

/// Appends the line of a command to the text of a C. file, as `read_command` reads it. The size in an `E` line is 0.
pub fn add_command_line<A: Allocator>(
    text: &mut Vec<u8, A>,
    command: &Command<'_>,
) -> Result<(), AllocError>
    ensures { OnOk result (text.new.items
        ≡ text.old.items ++ line_text (shown command.now)) }
{
    match command {
        Command::Send(fields, file) => add_send(text, fields, file),
        Command::Request(fields) => add_request(text, b'R', fields),
        Command::Expand(fields) => add_request(text, b'X', fields),
        Command::Execute(fields, file, command) => add_execute(text, fields, file, command),
    }
}
