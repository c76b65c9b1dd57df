//! The lines of a log, as `uulog` prints them.
ghost use Rattle.std.specs.Prelude.{◌≡◌, ◌++◌, IfOk, OnOk};
ghost use Rattle.uug_taylor_text.specs.LogLines.{agreed, bytes_text, called, calls, entry_text, head_text, log_line, or_dash, over, packets, position_text, rate, size_text};
ghost use Rattle.uug_taylor_text.specs.ShownLines.{shown_event, shown_head};

use crate::moment::{Moment, add_moment};
use crate::parts::{add_named, add_number, add_text};
use std::alloc::{AllocError, Allocator};

/// The head of a line of a log.
#[derive(Clone, Copy, Debug, PartialEq, Eq)]
pub struct LogHead<'a> {
    /// The program that writes it.
    pub program: &'a [u8],
    /// The other system; empty if it isn't known.
    pub system: &'a [u8],
    /// The user that the job belongs to; empty if there is none.
    pub user: &'a [u8],
    /// The moment of writing.
    pub moment: Moment,
    /// The number of the process that writes it.
    pub process: u32,
}

/// The event of a line of a log.
#[derive(Clone, Copy, Debug, PartialEq, Eq)]
pub enum LogEvent<'a> {
    /// The system is called, at this port.
    Calls(&'a [u8]),
    /// The other end has accepted the login.
    LoggedIn,
    /// A call has arrived, with this login, at this port.
    Called(&'a [u8], &'a [u8]),
    /// The session begins: the packet size and window of this end, and those of the other end.
    Agreed((u16, u8), (u16, u8)),
    /// The file of this name is sent: its size in bytes.
    Sends(&'a [u8], u64),
    /// The file of this name is received: its size in bytes, if that was announced.
    Receives(&'a [u8], Option<u64>),
    /// Sending the file of this name resumes: its total size in bytes, if that was announced, and the position from
    /// which it is sent.
    SendsFrom(&'a [u8], Option<u64>, u64),
    /// Receiving the file of this name resumes: its total size in bytes, if that was announced, and the position from
    /// which it is received.
    ReceivesFrom(&'a [u8], Option<u64>, u64),
    /// The number of packets sent, of packets retransmitted, and of packets received.
    Packets(u64, u64, u64),
    /// The session is over: its duration in seconds, and the bytes of files transferred.
    Over(u64, u64),
    /// An error.
    Fault(&'a [u8]),
}

/// Returns a word, or a dash if it is empty.
fn or_dash(word: &[u8]) -> &[u8]
    ensures { result.now ≡ or_dash word.now }
{
    if word.is_empty() { b"-" } else { word }
}

/// Appends a word, or a dash if it is empty, and a text.
fn add_dashed<A: Allocator>(
    line: &mut Vec<u8, A>,
    word: &[u8],
    text: &[u8],
) -> Result<(), AllocError>
    ensures { OnOk result (line.new.items ≡ line.old.items ++ or_dash word.now ++ text.now) }
{
    add_named(line, or_dash(word), text)
}

/// Appends the head of a line.
fn add_head<A: Allocator>(line: &mut Vec<u8, A>, head: &LogHead<'_>) -> Result<(), AllocError>
    ensures { OnOk result (line.new.items ≡ line.old.items ++ head_text (shown_head head.now)) }
{
    add_named(line, head.program, b" ")?;
    add_dashed(line, head.system, b" ")?;
    add_dashed(line, head.user, b" (")?;
    add_moment(line, &head.moment)?;
    add_number(line, b" ", u64::from(head.process))?;
    add_text(line, b") ")
}

/// Returns the bytes per second, or 0 if no second has passed.
fn rate(bytes: u64, seconds: u64) -> u64
    ensures { result ≡ rate bytes seconds }
{
    if seconds == 0 { 0 } else { bytes / seconds }
}

fn add_calls<A: Allocator>(
    line: &mut Vec<u8, A>,
    system: &[u8],
    port: &[u8],
) -> Result<(), AllocError>
    ensures { OnOk result (line.new.items
        ≡ line.old.items ++ entry_text system.now (calls port.now)) }
{
    add_named(line, b"Calling system ", system)?;
    add_named(line, b" (port ", port)?;
    add_text(line, b")")
}

fn add_called<A: Allocator>(
    line: &mut Vec<u8, A>,
    system: &[u8],
    login: &[u8],
    port: &[u8],
) -> Result<(), AllocError>
    ensures { OnOk result (line.new.items
        ≡ line.old.items ++ entry_text system.now (called login.now port.now)) }
{
    add_named(line, b"Incoming call (login ", login)?;
    add_named(line, b" port ", port)?;
    add_text(line, b")")
}

fn add_agreed<A: Allocator>(
    line: &mut Vec<u8, A>,
    system: &[u8],
    own: (u16, u8),
    far: (u16, u8),
) -> Result<(), AllocError>
    ensures { OnOk result (line.new.items
        ≡ line.old.items ++ entry_text system.now (agreed own.0 own.1 far.0 far.1)) }
{
    let (size, window) = own;
    let front = b"Handshake successful (protocol 'g' sending packet/window ";
    add_number(line, front, u64::from(size))?;
    add_number(line, b"/", u64::from(window))?;
    let (size, window) = far;
    add_number(line, b" receiving ", u64::from(size))?;
    add_number(line, b"/", u64::from(window))?;
    add_text(line, b")")
}

/// Appends the size of a file in bytes.
fn add_bytes<A: Allocator>(line: &mut Vec<u8, A>, bytes: u64) -> Result<(), AllocError>
    ensures { OnOk result (line.new.items ≡ line.old.items ++ bytes_text bytes) }
{
    add_number(line, b" (", bytes)?;
    add_text(line, b" bytes)")
}

/// Appends the size of a file in bytes, if that was announced.
fn add_size<A: Allocator>(line: &mut Vec<u8, A>, bytes: Option<u64>) -> Result<(), AllocError>
    ensures { OnOk result (line.new.items ≡ line.old.items ++ size_text bytes) }
{
    match bytes {
        Some(bytes) => add_bytes(line, bytes),
        None => Ok(()),
    }
}

/// Appends the total size of a file, if that was announced, and the position at which the file resumes.
fn add_position<A: Allocator>(
    line: &mut Vec<u8, A>,
    size: Option<u64>,
    position: u64,
) -> Result<(), AllocError>
    ensures { OnOk result (line.new.items ≡ line.old.items ++ position_text size position) }
{
    match size {
        Some(size) => {
            add_number(line, b" (", size)?;
            add_number(line, b" bytes resume at ", position)?;
        }
        None => add_number(line, b" (resume at ", position)?,
    }
    add_text(line, b")")
}

fn add_packets<A: Allocator>(
    line: &mut Vec<u8, A>,
    system: &[u8],
    sent: u64,
    resent: u64,
    received: u64,
) -> Result<(), AllocError>
    ensures { OnOk result (line.new.items
        ≡ line.old.items ++ entry_text system.now (packets sent resent received)) }
{
    add_number(line, b"Protocol 'g' packets: sent ", sent)?;
    add_number(line, b", resent ", resent)?;
    add_number(line, b", received ", received)
}

fn add_over<A: Allocator>(
    line: &mut Vec<u8, A>,
    system: &[u8],
    seconds: u64,
    bytes: u64,
) -> Result<(), AllocError>
    ensures { OnOk result (line.new.items
        ≡ line.old.items ++ entry_text system.now (over seconds bytes)) }
{
    add_number(line, b"Call complete (", seconds)?;
    add_number(line, b" seconds ", bytes)?;
    add_number(line, b" bytes ", rate(bytes, seconds))?;
    add_text(line, b" bps)")
}

/// Appends the event of a line.
fn add_event<A: Allocator>(
    line: &mut Vec<u8, A>,
    system: &[u8],
    event: &LogEvent<'_>,
) -> Result<(), AllocError>
    ensures { OnOk result (line.new.items
        ≡ line.old.items ++ entry_text system.now (shown_event event.now)) }
{
    match event {
        LogEvent::Calls(port) => add_calls(line, system, port),
        LogEvent::LoggedIn => add_text(line, b"Login successful"),
        LogEvent::Called(login, port) => add_called(line, system, login, port),
        LogEvent::Agreed(own, far) => add_agreed(line, system, *own, *far),
        LogEvent::Sends(file, bytes) => {
            add_named(line, b"Sending ", file)?;
            add_bytes(line, *bytes)
        }
        LogEvent::Receives(file, bytes) => {
            add_named(line, b"Receiving ", file)?;
            add_size(line, *bytes)
        }
        LogEvent::SendsFrom(file, size, position) => {
            add_named(line, b"Sending ", file)?;
            add_position(line, *size, *position)
        }
        LogEvent::ReceivesFrom(file, size, position) => {
            add_named(line, b"Receiving ", file)?;
            add_position(line, *size, *position)
        }
        LogEvent::Packets(sent, resent, received) => {
            add_packets(line, system, *sent, *resent, *received)
        }
        LogEvent::Over(seconds, bytes) => add_over(line, system, *seconds, *bytes),
        LogEvent::Fault(text) => add_named(line, b"ERROR: ", text),
    }
}

/// Returns a line of a log: the program that writes it, the system and the user (a dash for an empty one), the moment
/// and the process, and the event. It must be appended with one write.
pub fn log_line<A: Allocator>(
    alloc: A,
    head: &LogHead<'_>,
    event: &LogEvent<'_>,
) -> Result<Vec<u8, A>, AllocError>
    ensures { IfOk result (λ line. line.items
        ≡ log_line (shown_head head.now) (shown_event event.now)) }
{
    let mut line = Vec::new(alloc);
    add_head(&mut line, head)?;
    add_event(&mut line, head.system, event)?;
    line.push(b'\n')?;
    Ok(line)
}
