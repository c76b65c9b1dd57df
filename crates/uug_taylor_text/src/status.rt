//! The result of the last call with a system, as in its status file, which `uustat -m` prints.
ghost use Rattle.std.specs.Prelude.{◌≡◌, ◌++◌, ◌∷◌, [], IfOk, OnOk};
ghost use Rattle.std.specs.Fmt.{decimal};
ghost use Rattle.uug_taylor_text.specs.StatusTexts.{capped, is_due, state_digit, state_of, state_text, status_failed, status_line, status_of, wait_after};

use crate::parts::{add_named, add_number};
use std::alloc::{AllocError, Allocator};
use uug_talk::{NUMBER_MAX, Name, read_number, split_word};

/// The seconds to wait before the next call, for each failed call in a row.
const SECONDS_PER_TRY: u64 = 600;

/// The result of a call.
#[derive(Clone, Copy, Debug, PartialEq, Eq)]
pub enum CallState {
    /// The call was done, or the other end said that it will call back.
    Complete,
    /// The device does not exist, or is in use.
    PortUnavailable,
    /// Nobody answered.
    DialFailed,
    /// The login at the other end failed.
    LoginFailed,
    /// The other end refused the session, or the line ended before it began.
    HandshakeFailed,
    /// The session broke.
    CallFailed,
    /// The call is in progress.
    Talking,
    /// The system may not be called now.
    WrongTime,
}

/// The contents of the status file of a system.
#[derive(Clone, Copy, Debug, PartialEq, Eq)]
pub struct Status {
    /// The result of the last call.
    pub state: CallState,
    /// The number of calls in a row that have failed.
    pub tries: u32,
    /// The time of the last call, in seconds since 1970.
    pub time: u32,
    /// The seconds to wait after the last call before the next one.
    pub wait: u32,
}

fn state_digit(state: CallState) -> u8
    ensures { result ≡ state_digit state }
{
    match state {
        CallState::Complete => b'0',
        CallState::PortUnavailable => b'1',
        CallState::DialFailed => b'2',
        CallState::LoginFailed => b'3',
        CallState::HandshakeFailed => b'4',
        CallState::CallFailed => b'5',
        CallState::Talking => b'6',
        CallState::WrongTime => b'7',
    }
}

fn state_text(state: CallState) -> &'static [u8]
    ensures { result.now ≡ state_text state }
{
    match state {
        CallState::Complete => b"Conversation complete",
        CallState::PortUnavailable => b"Port unavailable",
        CallState::DialFailed => b"Dial failed",
        CallState::LoginFailed => b"Login failed",
        CallState::HandshakeFailed => b"Handshake failed",
        CallState::CallFailed => b"Call failed",
        CallState::Talking => b"Talking",
        CallState::WrongTime => b"Wrong time to call",
    }
}

/// Appends the numbers of a status, each with a space in front.
fn add_numbers<A: Allocator>(line: &mut Vec<u8, A>, status: &Status) -> Result<(), AllocError>
    ensures { OnOk result (line.new.items ≡ line.old.items ++ 32 ∷ decimal status.now.tries
        ++ 32 ∷ decimal status.now.time ++ 32 ∷ decimal status.now.wait) }
{
    add_number(line, b" ", u64::from(status.tries))?;
    add_number(line, b" ", u64::from(status.time))?;
    add_number(line, b" ", u64::from(status.wait))
}

/// Returns the text of the status file of a system: one line.
pub fn status_line<A: Allocator>(
    alloc: A,
    status: &Status,
    system: &Name,
) -> Result<Vec<u8, A>, AllocError>
    ensures { IfOk result (λ line. line.items ≡ status_line status.now system.now) }
{
    let mut line = Vec::new(alloc);
    line.push(state_digit(status.state))?;
    add_numbers(&mut line, status)?;
    add_named(&mut line, b" ", state_text(status.state))?;
    add_named(&mut line, b" ", system.as_bytes())?;
    line.push(b'\n')?;
    Ok(line)
}

fn state_of(code: &[u8]) -> Option<CallState>
    ensures { result ≡ state_of code.now }
{
    match code {
        [b'0'] => Some(CallState::Complete),
        [b'1'] => Some(CallState::PortUnavailable),
        [b'2'] => Some(CallState::DialFailed),
        [b'3'] => Some(CallState::LoginFailed),
        [b'4'] => Some(CallState::HandshakeFailed),
        [b'5'] => Some(CallState::CallFailed),
        [b'6'] => Some(CallState::Talking),
        [b'7'] => Some(CallState::WrongTime),
        _ => None,
    }
}

/// Reads the text of a status file. Returns `None` unless its first four words are a digit from 0 to 7 and three
/// numbers of at most 32 bits. Words after these are skipped.
pub fn read_status(text: &[u8]) -> Option<Status>
    ensures { result ≡ status_of text.now }
{
    let (code, rest) = split_word(text)?;
    let (tries, rest) = split_word(rest)?;
    let (time, rest) = split_word(rest)?;
    let (wait, _) = split_word(rest)?;
    Some(Status {
        state: state_of(code)?,
        tries: read_number(tries, NUMBER_MAX)?,
        time: read_number(time, NUMBER_MAX)?,
        wait: read_number(wait, NUMBER_MAX)?,
    })
}

fn capped(number: u64) -> u32
    ensures { result ≡ capped number }
{
    if number <= u64::from(NUMBER_MAX) {
        number as u32
    } else {
        NUMBER_MAX
    }
}

/// Returns the seconds to wait after this many failed calls in a row, the last with this result.
fn wait_after(state: CallState, tries: u32) -> u32
    ensures { result ≡ wait_after state tries }
{
    match state {
        CallState::WrongTime => 0,
        _ => capped(SECONDS_PER_TRY * u64::from(tries)),
    }
}

/// Returns the status after a call of this end that failed with this result, at this time. The number of failed calls
/// in a row rises by one. The wait is ten minutes for each of them, or none if it was the wrong time to call.
pub fn status_failed(state: CallState, before: Option<Status>, time: u32) -> Status
    ensures { result ≡ status_failed state before time }
{
    let tries = match before {
        Some(status) => status.tries,
        None => 0,
    };
    let tries = capped(u64::from(tries) + 1);
    Status {
        state,
        tries,
        time,
        wait: wait_after(state, tries),
    }
}

/// Returns whether the system may be called again at this time.
pub fn is_due(status: &Status, now: u32) -> bool
    ensures { result ≡ is_due status.now now }
{
    u64::from(status.time) + u64::from(status.wait) <= u64::from(now)
}
