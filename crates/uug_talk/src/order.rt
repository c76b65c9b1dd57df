ghost use Rattle.std.specs.Prelude.{◌≡◌, ℕ, ◌+◌, ◌*◌, ◌≤◌, List, [], ◌∷◌, ◌++◌, length, Ok, IfOk, IfErr, IsTrue, ◌↔◌};
ghost use Rattle.uug_talk.specs.Order.{ReadsOrder, IsRefusedOrder, order_of, send_of, request_of, send_read, request_read, temp_read, HasMode, HasNames, AreNames, IsCopy, order_text, copy_text};
ghost use Rattle.uug_talk.specs.Chunks.{IsCommandText};
ghost use Rattle.uug_talk.specs.Name.{IsName};
ghost use Rattle.uug_talk.specs.Words.{words, joined};
ghost use Rattle.uug_talk.specs.declared.order.Order.TheVariants.{Send, Request};
ghost use Rattle.uug_talk.specs.declared.order.Order.{Order};

use crate::error::BadText;
use crate::mode::{MODE_MAX, mode_digits, read_mode};
use crate::name::{NAME_MAX, Name};
use crate::words::{COMMAND_MAX, Text, WRITTEN_MAX, push_word, split_word};
use arrayvec::ArrayVec;

/// A command of the master.
#[derive(Clone, Copy, Debug, PartialEq, Eq)]
pub enum Order {
    /// `S`: the master sends a file.
    Send {
        /// The file's name at the master.
        source: Name,
        /// The file's name at the slave.
        target: Name,
        /// The user to whom the file belongs.
        user: Name,
        /// The name of the copy that was made of the file, with option `C`.
        temp: Option<Name>,
        /// The file's mode, at most `MODE_MAX`.
        mode: u16,
    },
    /// `R`: the master asks for a file.
    Request {
        /// The file's name at the slave.
        source: Name,
        /// The file's name at the master.
        target: Name,
        /// The user to whom the file belongs.
        user: Name,
    },
    /// `H`: the master has no more jobs.
    HangUp,
}

impl Order {
    /// Returns whether it can be written: its mode is at most `MODE_MAX`.
    pub fn is_writable(&self) -> bool
        ensures { IsTrue result ↔ HasMode self.now }
    {
        match self {
            Order::Send { mode, .. } => *mode <= MODE_MAX,
            Order::Request { .. } | Order::HangUp => true,
        }
    }
}

/// Reads a command, without its zero byte. Words after the last one needed are ignored.
///
/// A text that is too long is refused as `TooLong`, then another first word as `Unknown`. Then too few words, or
/// options without a dash, are refused as `Fields`, then a word that is no name as `Name`, and last a word that is no
/// mode as `Mode`.
pub fn read_order(text: &[u8]) -> Result<Order, BadText>
    // What is read is written so.
    ensures found { IfOk result (λ order. ReadsOrder text.now order) }
    // What is written so is read.
    ensures only { (order : Order) → ReadsOrder text.now order → result ≡ Ok order }
    // An error names the first thing that is wrong.
    ensures refused { IfErr result (λ fault. IsRefusedOrder fault text.now) }
    // The same as a function of the text.
    ensures exact { result ≡ order_of text.now }
{
    read_words(text)
}

fn read_words(text: &[u8]) -> Result<Order, BadText>
    ensures { result ≡ order_of text.now }
{
    if text.len() > COMMAND_MAX {
        return Err(BadText::TooLong);
    }
    let (first, rest) = split_word(text).ok_or(BadText::Unknown)?;
    match first {
        [b'S'] => read_send(rest),
        [b'R'] => read_request(rest),
        [b'H'] => Ok(Order::HangUp),
        _ => Err(BadText::Unknown),
    }
}

fn read_send(text: &[u8]) -> Result<Order, BadText>
    ensures { result ≡ send_of (words text.now) }
{
    let (source, rest) = split_word(text).ok_or(BadText::Fields)?;
    let (target, rest) = split_word(rest).ok_or(BadText::Fields)?;
    let (user, rest) = split_word(rest).ok_or(BadText::Fields)?;
    let (options, rest) = split_word(rest).ok_or(BadText::Fields)?;
    let (temp, rest) = split_word(rest).ok_or(BadText::Fields)?;
    let (mode, _) = split_word(rest).ok_or(BadText::Fields)?;
    send_from(source, target, user, options, temp, mode)
}

fn send_from(
    source: &[u8],
    target: &[u8],
    user: &[u8],
    options: &[u8],
    temp: &[u8],
    mode: &[u8],
) -> Result<Order, BadText>
    ensures { result ≡ send_read source.now target.now user.now options.now temp.now mode.now }
{
    if !options.starts_with(b"-") {
        return Err(BadText::Fields);
    }
    Ok(Order::Send {
        source: Name::new(source)?,
        target: Name::new(target)?,
        user: Name::new(user)?,
        temp: read_temp(options, temp)?,
        mode: read_mode(mode)?,
    })
}

// Reads the name of the copy, if option C says that there is one.
fn read_temp(options: &[u8], word: &[u8]) -> Result<Option<Name>, BadText>
    ensures { result ≡ temp_read options.now word.now }
{
    if options.contains(&b'C') {
        Ok(Some(Name::new(word)?))
    } else {
        Ok(None)
    }
}

fn read_request(text: &[u8]) -> Result<Order, BadText>
    ensures { result ≡ request_of (words text.now) }
{
    let (source, rest) = split_word(text).ok_or(BadText::Fields)?;
    let (target, rest) = split_word(rest).ok_or(BadText::Fields)?;
    let (user, rest) = split_word(rest).ok_or(BadText::Fields)?;
    let (options, _) = split_word(rest).ok_or(BadText::Fields)?;
    request_from(source, target, user, options)
}

fn request_from(source: &[u8], target: &[u8], user: &[u8], options: &[u8]) -> Result<Order, BadText>
    ensures { result ≡ request_read source.now target.now user.now options.now }
{
    if !options.starts_with(b"-") {
        return Err(BadText::Fields);
    }
    Ok(Order::Request {
        source: Name::new(source)?,
        target: Name::new(target)?,
        user: Name::new(user)?,
    })
}

/// Returns the text of a command, without its zero byte. There must be one: see `is_writable`.
pub fn write_order(order: &Order) -> ArrayVec<u8, WRITTEN_MAX>
    requires { HasMode order.now }
    ensures text { result.items ≡ order_text order.now }
    // It is read as the command again.
    ensures read_back { ReadsOrder result.items order.now }
    // It may be cut into messages.
    ensures command { IsCommandText result.items }
{
    spell_order(order)
}

fn spell_order(order: &Order) -> Text
    requires { HasMode order.now }
    ensures text { result.items ≡ order_text order.now }
    ensures names { HasNames order.now }
{
    match order {
        Order::Send {
            source,
            target,
            user,
            temp,
            mode,
        } => send_text(source, target, user, temp, *mode),
        Order::Request {
            source,
            target,
            user,
        } => request_text(source, target, user),
        Order::HangUp => {
            let mut text = ArrayVec::new();
            text.push(b'H');
            text
        }
    }
}

fn send_text(source: &Name, target: &Name, user: &Name, temp: &Option<Name>, mode: u16) -> Text
    requires { mode ≤ MODE_MAX }
    ensures text { result.items ≡ order_text (Send source.now target.now user.now temp.now mode) }
    ensures names { AreNames source.now target.now user.now }
    ensures copy { IsCopy temp.now }
{
    let mut text = names_text(b'S', source, target, user);
    push_copy(&mut text, temp);
    push_word(&mut text, &mode_digits(mode));
    text
}

fn request_text(source: &Name, target: &Name, user: &Name) -> Text
    ensures text { result.items ≡ order_text (Request source.now target.now user.now) }
    ensures names { AreNames source.now target.now user.now }
{
    let mut text = names_text(b'R', source, target, user);
    push_word(&mut text, b"-");
    text
}

// Returns the letter of a command, followed by its names.
fn names_text(letter: u8, source: &Name, target: &Name, user: &Name) -> Text
    ensures text { result.items ≡ joined ((letter ∷ []) ∷ source.now ∷ target.now ∷ user.now ∷ []) }
    ensures len { length result.items ≤ 1 + 3 * (1 + NAME_MAX) }
    ensures names { AreNames source.now target.now user.now }
{
    let mut text = ArrayVec::new();
    text.push(letter);
    push_word(&mut text, source.as_bytes());
    push_word(&mut text, target.as_bytes());
    push_word(&mut text, user.as_bytes());
    text
}

// Writes the options, and the name of the copy or the text in its place.
fn push_copy(text: &mut Text, temp: &Option<Name>)
    requires { length text.old.items + 10 + NAME_MAX ≤ WRITTEN_MAX }
    ensures text { text.new.items ≡ text.old.items ++ copy_text temp.now }
    ensures len { length text.new.items ≤ length text.old.items + 10 + NAME_MAX }
    ensures copy { IsCopy temp.now }
{
    match temp {
        Some(temp) => {
            push_word(text, b"-C");
            push_word(text, temp.as_bytes());
        }
        None => {
            push_word(text, b"-");
            push_word(text, b"D.0");
        }
    }
}
