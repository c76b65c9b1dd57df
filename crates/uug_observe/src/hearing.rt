//! The bytes heard from the other end, as far as they are reported to a person.

use uug_error_text::{Heard, Passed};

/// The maximum number of bytes of a text that are kept.
const KEPT_MAX: usize = 60;

/// The byte before each text.
const TEXT_START: u8 = 0x10;

/// The bytes by which a terminal's flow control starts and stops its output.
const XON: u8 = 0x11;

const XOFF: u8 = 0x13;

/// No byte.
pub(crate) const NOTHING_PASSED: Passed = Passed {
    count: 0,
    has_high: false,
    has_flow: false,
};

/// Returns `passed` with these bytes added.
pub(crate) fn passed_then(passed: Passed, piece: &[u8]) -> Passed {
    let mut then = passed;
    for byte in piece {
        then.count = then.count.saturating_add(1);
        then.has_high = then.has_high || *byte >= 0x80;
        then.has_flow = then.has_flow || matches!(*byte, XON | XOFF);
    }
    then
}

/// The last text that came, or the first bytes if no text came.
#[derive(Clone, Copy)]
pub(crate) struct Hearing {
    bytes: [u8; KEPT_MAX],
    len: usize,
    /// The number of bytes that came. It saturates.
    count: u64,
    /// Set once a text came.
    has_text: bool,
    /// Set until the text that came last has ended.
    is_open: bool,
    /// Set if a text may begin with the next byte.
    may_begin: bool,
}

impl Hearing {
    /// Creates a hearing that has heard nothing.
    pub(crate) fn nothing() -> Self {
        Hearing {
            bytes: [0; KEPT_MAX],
            len: 0,
            count: 0,
            has_text: false,
            is_open: true,
            may_begin: false,
        }
    }

    /// Takes bytes that came.
    pub(crate) fn hear(&mut self, piece: &[u8]) {
        for byte in piece {
            self.hear_byte(*byte);
        }
    }

    /// Takes a byte. A packet begins with the same byte as a text, but its second byte is less than a space.
    fn hear_byte(&mut self, byte: u8) {
        self.count = self.count.saturating_add(1);
        if self.may_begin && byte >= b' ' {
            self.len = 0;
            self.has_text = true;
            self.is_open = true;
        }
        self.may_begin = byte == TEXT_START;
        if self.has_text && matches!(byte, 0 | b'\r' | b'\n' | TEXT_START) {
            self.is_open = false;
        }
        if self.is_open && self.len < KEPT_MAX {
            self.bytes[self.len] = byte;
            self.len += 1;
        }
    }

    /// Returns what was heard.
    pub(crate) fn heard(&self) -> Heard<'_> {
        let bytes = &self.bytes[..self.len.min(KEPT_MAX)];
        if self.has_text {
            Heard::Text(bytes)
        } else if self.count == 0 {
            Heard::Nothing
        } else {
            Heard::Noise(self.count, bytes)
        }
    }
}
