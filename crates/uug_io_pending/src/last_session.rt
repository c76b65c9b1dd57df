//! The last session in a log.
ghost use Rattle.std.specs.List.{position};
ghost use Rattle.std.specs.Option.{option_copied, option_map};
ghost use Rattle.std.specs.Prelude.{◌≡◌};
ghost use Rattle.uug_io_pending.specs.LastSession.{date_in, entry_in, is_space, is_start, is_told, last_in, parts_in, shown_entry, shown_last, shown_parts, start_in, told_in};

use uug_talk::split_line;

/// A line of a log.
#[derive(Clone, Copy)]
pub struct LogEntry<'a> {
    /// The other system, or `-` if it was not known.
    pub system: &'a [u8],
    /// The date and the time.
    pub date: &'a [u8],
    pub time: &'a [u8],
    /// The number of the process, with the parenthesis after it.
    pub process: &'a [u8],
    /// The text.
    pub text: &'a [u8],
}

/// The last session in a log.
#[derive(Clone, Copy)]
pub struct LastSession<'a> {
    /// The line of its start.
    pub start: LogEntry<'a>,
    /// The log after that line.
    pub behind: &'a [u8],
}

/// Returns the last session in a log, if there is one.
pub fn last_in(log: &[u8]) -> Option<LastSession<'_>>
    ensures { option_map shown_last result ≡ last_in log.now }
{
    let mut last = None;
    let mut rest = log;
    while let Some((line, behind)) = split_line(rest) {
        if let Some(start) = start_in(line) {
            last = Some(LastSession { start, behind });
        }
        rest = behind;
    }
    last
}

/// Returns the entry of a line, if it reports how a session of this process ended.
pub(crate) fn told_in<'a>(process: &[u8], line: &'a [u8]) -> Option<LogEntry<'a>>
    ensures { option_map shown_entry result ≡ told_in process.now line.now }
{
    let entry = entry_in(line)?;
    if is_told(process, &entry) {
        Some(entry)
    } else {
        None
    }
}

/// Returns the entry of a line, if it is the start of a session.
fn start_in(line: &[u8]) -> Option<LogEntry<'_>>
    ensures { option_map shown_entry result ≡ start_in line.now }
{
    let entry = entry_in(line)?;
    if is_start(&entry) { Some(entry) } else { None }
}

/// Returns whether an entry is the start of a session.
fn is_start(entry: &LogEntry<'_>) -> bool
    ensures { result ≡ is_start (shown_entry entry.now) }
{
    entry.text.starts_with(b"Calling system ") || entry.text.starts_with(b"Incoming call ")
}

/// Returns whether an entry is of this process, and reports an error or the end of a session.
fn is_told(process: &[u8], entry: &LogEntry<'_>) -> bool
    ensures { result ≡ is_told process.now (shown_entry entry.now) }
{
    entry.process == process
        && (entry.text.starts_with(b"ERROR: ") || entry.text.starts_with(b"Call complete "))
}

/// Returns the parts of a line of a log, if it has that form.
fn entry_in(line: &[u8]) -> Option<LogEntry<'_>>
    ensures { option_map shown_entry result ≡ entry_in line.now }
{
    let (_, rest) = parts_in(line)?;
    let (system, rest) = parts_in(rest)?;
    let (_, rest) = parts_in(rest)?;
    let (date, rest) = parts_in(rest)?;
    let date = date_in(date)?;
    let (time, rest) = parts_in(rest)?;
    let (process, text) = parts_in(rest)?;
    Some(LogEntry {
        system,
        date,
        time,
        process,
        text,
    })
}

/// Returns the date in a word, after the parenthesis with which the word begins.
fn date_in(word: &[u8]) -> Option<&[u8]>
    ensures { option_copied result ≡ date_in word.now }
{
    if word.starts_with(b"(") {
        Some(&word[1..])
    } else {
        None
    }
}

/// Returns the parts of a text before and after its first space.
fn parts_in(text: &[u8]) -> Option<(&[u8], &[u8])>
    ensures { option_map shown_parts result ≡ parts_in text.now }
{
    let Some(at) = space_in(text) else {
        return None;
    };
    Some((&text[..at], &text[at + 1..]))
}

/// Returns the index of the first space of a text.
fn space_in(text: &[u8]) -> Option<usize>
    ensures { result ≡ position is_space text.now }
{
    text.iter().position(|b| *b == b' ')
}
