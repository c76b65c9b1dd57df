ghost use Rattle.std.specs.Prelude.{◌≡◌, ◌≢◌, ◌+◌, ◌<◌, ◌≤◌, [], ◌∷◌, true, false, length, drop};
ghost use Rattle.uug_talk.specs.Positions.{consent_text};
ghost use Rattle.uug_talk.specs.Answer.{IsWritten, answer_text};
ghost use Rattle.uug_talk.specs.Lenient.{is_refusable, refusal_text};
ghost use Rattle.uug_talk.specs.Order.{HasMode};
ghost use Rattle.uug_talk.specs.declared.mode.TheConstants.{MODE_MAX};
ghost use Rattle.uug_talk.specs.Chunks.{IsCommandText, command_messages, file_messages};
ghost use Rattle.uug_talk.specs.MessagesLeft.{messages_left};
ghost use Rattle.uug_conversation.specs.Outgoing.{IsSayable, IsWithin, messages_from, unless_last};
ghost use Rattle.uug_conversation.specs.Reactions.{said_by};
ghost use Rattle.uug_conversation.specs.Told.{giving_said, order_said};

use crate::choice::to_give;
use crate::reaction::Saying;
use crate::spool::Spool;
use uug_talk::laws::{file_goes_on, messages_fit};
use uug_talk::{
    Answer, Chunks, FILE_LIMIT_MAX, FileDigest, MESSAGE_MAX, Message, Order, give_telling,
    order_telling, refusal_text, write_answer, write_consent, write_order,
};

/// Writes the message at an offset in the text or file into `message`, and returns whether it is the last. It has at
/// most `size` bytes. If `short` is set, the last message of a text ends with its zero byte.
pub(crate) fn part_of<S: Spool>(
    saying: &Saying,
    spool: &S,
    size: usize,
    short: bool,
    offset: usize,
    message: &mut Message,
) -> bool
    requires sayable { IsSayable saying.now }
    requires within { IsWithin (saying.now ∷ []) offset }
    requires some { 0 < size }
    requires fits { size ≤ MESSAGE_MAX }
    ensures messages { messages_from (record { size = size; short = short }) offset
        (said_by (S.holdings spool.now) saying.now)
        ≡ message.new.items
        ∷ unless_last result (messages_from (record { size = size; short = short }) (offset + size)
        (said_by (S.holdings spool.now) saying.now)) }
    ensures size { length message.new.items ≤ size }
    ensures next { result ≡ false → IsWithin (saying.now ∷ []) (offset + size) }
    ensures limit { result ≡ false → offset < FILE_LIMIT_MAX }
{
    match saying {
        Saying::Order(order, told) => part_of_order(order, told, size, short, offset, message),
        Saying::Answer(answer) => part_of_answer(answer, size, short, offset, message),
        Saying::Consent(position) => part_of_consent(*position, size, short, offset, message),
        Saying::Giving(mode, told) => part_of_giving(*mode, told, size, short, offset, message),
        Saying::Refusal(letter) => part_of_refusal(*letter, size, short, offset, message),
        Saying::File(name, position) => match to_give(spool, name) {
            Some(file) => part_of_file(behind(file.bytes, *position), size, offset, message),
            None => part_of_file(&[], size, offset, message),
        },
    }
}

/// Cuts a message from a command. It is a separate call, so that a file's message reserves no room for a command's
/// text.
#[inline(never)]
fn part_of_order(
    order: &Order,
    told: &Option<FileDigest>,
    size: usize,
    short: bool,
    offset: usize,
    message: &mut Message,
) -> bool
    requires writable { HasMode order.now }
    requires within { offset ≤ length (order_said order.now told.now) }
    requires some { 0 < size }
    requires fits { size ≤ MESSAGE_MAX }
    ensures messages { command_messages (record { size = size; short = short })
        (drop offset (order_said order.now told.now))
        ≡ message.new.items ∷ unless_last result
        (command_messages (record { size = size; short = short })
        (drop (offset + size) (order_said order.now told.now))) }
    ensures size { length message.new.items ≤ size }
    ensures next { result ≡ false → offset + size ≤ length (order_said order.now told.now) }
    ensures limit { result ≡ false → offset < FILE_LIMIT_MAX }
{
    match told {
        Some(told) => part_of_text(&order_telling(order, told), size, short, offset, message),
        None => part_of_text(&write_order(order), size, short, offset, message),
    }
}

/// Cuts a message from an answer, as `part_of_order` does from a command.
#[inline(never)]
fn part_of_answer(
    answer: &Answer,
    size: usize,
    short: bool,
    offset: usize,
    message: &mut Message,
) -> bool
    requires writable { IsWritten answer.now }
    requires within { offset ≤ length (answer_text answer.now) }
    requires some { 0 < size }
    requires fits { size ≤ MESSAGE_MAX }
    ensures messages { command_messages (record { size = size; short = short })
        (drop offset (answer_text answer.now))
        ≡ message.new.items ∷ unless_last result
        (command_messages (record { size = size; short = short })
        (drop (offset + size) (answer_text answer.now))) }
    ensures size { length message.new.items ≤ size }
    ensures next { result ≡ false → offset + size ≤ length (answer_text answer.now) }
    ensures limit { result ≡ false → offset < FILE_LIMIT_MAX }
{
    part_of_text(&write_answer(answer), size, short, offset, message)
}

/// Cuts a message from the answer SY, as `part_of_order` does from a command.
#[inline(never)]
fn part_of_consent(
    position: u32,
    size: usize,
    short: bool,
    offset: usize,
    message: &mut Message,
) -> bool
    requires within { offset ≤ length (consent_text position) }
    requires some { 0 < size }
    requires fits { size ≤ MESSAGE_MAX }
    ensures messages { command_messages (record { size = size; short = short })
        (drop offset (consent_text position))
        ≡ message.new.items ∷ unless_last result
        (command_messages (record { size = size; short = short })
        (drop (offset + size) (consent_text position))) }
    ensures size { length message.new.items ≤ size }
    ensures next { result ≡ false → offset + size ≤ length (consent_text position) }
    ensures limit { result ≡ false → offset < FILE_LIMIT_MAX }
{
    part_of_text(&write_consent(position), size, short, offset, message)
}

/// Cuts a message from a refusal, as `part_of_order` does from a command.
#[inline(never)]
fn part_of_refusal(
    letter: u8,
    size: usize,
    short: bool,
    offset: usize,
    message: &mut Message,
) -> bool
    requires refusable { is_refusable letter ≡ true }
    requires within { offset ≤ length (refusal_text letter) }
    requires some { 0 < size }
    requires fits { size ≤ MESSAGE_MAX }
    ensures messages { command_messages (record { size = size; short = short })
        (drop offset (refusal_text letter))
        ≡ message.new.items ∷ unless_last result
        (command_messages (record { size = size; short = short })
        (drop (offset + size) (refusal_text letter))) }
    ensures size { length message.new.items ≤ size }
    ensures next { result ≡ false → offset + size ≤ length (refusal_text letter) }
    ensures limit { result ≡ false → offset < FILE_LIMIT_MAX }
{
    part_of_text(&refusal_text(letter), size, short, offset, message)
}

/// Cuts a message from the answer RY, with the digest announced for its file.
#[inline(never)]
fn part_of_giving(
    mode: u16,
    told: &Option<FileDigest>,
    size: usize,
    short: bool,
    offset: usize,
    message: &mut Message,
) -> bool
    requires writable { mode ≤ MODE_MAX }
    requires within { offset ≤ length (giving_said mode told.now) }
    requires some { 0 < size }
    requires fits { size ≤ MESSAGE_MAX }
    ensures messages { command_messages (record { size = size; short = short })
        (drop offset (giving_said mode told.now))
        ≡ message.new.items ∷ unless_last result
        (command_messages (record { size = size; short = short })
        (drop (offset + size) (giving_said mode told.now))) }
    ensures size { length message.new.items ≤ size }
    ensures next { result ≡ false → offset + size ≤ length (giving_said mode told.now) }
    ensures limit { result ≡ false → offset < FILE_LIMIT_MAX }
{
    match told {
        Some(told) => part_of_text(&give_telling(mode, told), size, short, offset, message),
        None => {
            let text = write_answer(&Answer::GiveYes(mode));
            part_of_text(&text, size, short, offset, message)
        }
    }
}

fn part_of_text(text: &[u8], size: usize, short: bool, offset: usize, message: &mut Message) -> bool
    requires text { IsCommandText text.now }
    requires within { offset ≤ length text.now }
    requires some { 0 < size }
    requires fits { size ≤ MESSAGE_MAX }
    ensures messages { command_messages (record { size = size; short = short })
        (drop offset text.now)
        ≡ message.new.items ∷ unless_last result
        (command_messages (record { size = size; short = short })
        (drop (offset + size) text.now)) }
    ensures size { length message.new.items ≤ size }
    ensures next { result ≡ false → offset + size ≤ length text.now }
{
    let rest = behind(text, offset);
    first_into(&mut command_chunks(rest, size, short), message);
    rest.len() < size
}

fn command_chunks(text: &[u8], size: usize, short: bool) -> Chunks<'_>
    requires text { IsCommandText text.now }
    requires some { 0 < size }
    requires fits { size ≤ MESSAGE_MAX }
    ensures { messages_left result
        ≡ command_messages (record { size = size; short = short }) text.now }
{
    if short {
        Chunks::short_command(text, size)
    } else {
        Chunks::command(text, size)
    }
}

fn part_of_file(bytes: &[u8], size: usize, offset: usize, message: &mut Message) -> bool
    requires some { 0 < size }
    requires fits { size ≤ MESSAGE_MAX }
    ensures messages { file_messages size (drop offset bytes.now)
        ≡ message.new.items ∷ unless_last result
        (file_messages size (drop (offset + size) bytes.now)) }
    ensures size { length message.new.items ≤ size }
    ensures next { result ≡ false → offset < length bytes.now }
{
    file_goes_on();
    messages_fit();
    let rest = behind(bytes, offset);
    first_into(&mut Chunks::file(rest, size), message);
    rest.is_empty()
}

/// Returns the bytes after the first `offset` bytes, or none if there are fewer.
fn behind(bytes: &[u8], offset: usize) -> &[u8]
    ensures { result.now ≡ drop offset bytes.now }
{
    &bytes[offset.min(bytes.len())..]
}

fn first_into(chunks: &mut Chunks<'_>, message: &mut Message)
    requires { messages_left chunks.old ≢ [] }
    ensures { messages_left chunks.old ≡ message.new.items ∷ messages_left chunks.new }
{
    if !chunks.next_into(message) {
        unreachable!();
    }
}
