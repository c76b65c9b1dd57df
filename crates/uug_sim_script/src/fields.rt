//! Reads single words of a line.
ghost use Rattle.std.specs.Prelude.{◌≡◌, ◌≤◌, IfSome};
ghost use Rattle.std.specs.Str.{bytes_eq};
ghost use Rattle.uug_sim_script.specs.Fields.{side_of, mode_of_word, byte_of, window_of, announcement_of, limit_of_word};
ghost use Rattle.uug_talk.specs.Name.{name_of};
ghost use Rattle.uug_sim_script.specs.Meaning.{announced_by, mode_bits, limit_bytes};

use crate::mode::Mode;
use hex::FromHex;
use uug_line::Side;
use uug_link::{Announce, MESSAGE_MAX, WINDOW_MAX};
use uug_session::FileLimit;
use uug_talk::{FILE_LIMIT_MAX, Name, read_mode, read_number};

/// The most octal digits of a mode in a script.
pub(crate) const MODE_DIGITS: usize = 4;

/// Returns whether a word is this one.
pub(crate) fn spells(word: &[u8], text: &[u8]) -> bool
    ensures { result ≡ bytes_eq word.now text.now }
{
    word == text
}

/// Reads `caller` or `called`. `None` if it is neither.
pub(crate) fn read_side(word: &[u8]) -> Option<Side>
    ensures { result ≡ side_of word.now }
{
    if spells(word, b"caller") {
        Some(Side::Caller)
    } else if spells(word, b"called") {
        Some(Side::Called)
    } else {
        None
    }
}

/// Reads a name. `None` if the word is none.
pub(crate) fn read_name(word: &[u8]) -> Option<Name>
    ensures { result ≡ name_of word.now }
{
    Name::new(word).ok()
}

/// Reads a mode of one to four octal digits. `None` if the word is none.
pub(crate) fn read_short_mode(word: &[u8]) -> Option<Mode>
    ensures { mode_bits result ≡ mode_of_word word.now }
{
    if word.len() > MODE_DIGITS {
        return None;
    }
    let bits = read_mode(word).ok()?;
    Some(Mode { bits })
}

/// Reads a byte of two hexadecimal digits. `None` if the word is none.
pub(crate) fn read_byte(word: &[u8]) -> Option<u8>
    ensures { result ≡ byte_of word.now }
{
    let [byte] = <[u8; 1]>::from_hex(word).ok()?;
    Some(byte)
}

/// Reads a window, 1 to 7. `None` if the word is none.
pub(crate) fn read_window(word: &[u8]) -> Option<u8>
    ensures { result ≡ window_of word.now }
{
    let window = read_number(word, u32::from(WINDOW_MAX))?;
    if window == 0 {
        return None;
    }
    Some(window as u8)
}

/// Reads the limit of an end's files, 1 to `FILE_LIMIT_MAX`. `None` if the word is none.
pub(crate) fn read_limit(word: &[u8]) -> Option<FileLimit>
    ensures { limit_bytes result ≡ limit_of_word word.now }
{
    FileLimit::new(read_number(word, FILE_LIMIT_MAX as u32)? as usize)
}

/// Makes the announcement of a window and of the packet size in a word, if they are valid.
pub(crate) fn read_announce(window: u8, size: &[u8]) -> Option<Announce>
    ensures { announced_by result ≡ announcement_of window size.now }
{
    let size = read_number(size, MESSAGE_MAX as u32)?;
    Announce::new(window, size as usize).ok()
}
