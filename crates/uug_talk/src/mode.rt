ghost use Rattle.std.specs.Prelude.{◌≡◌, ◌≤◌, ◌↔◌, IsTrue, IfOk};
ghost use Rattle.uug_talk.specs.Mode.{IsModeWord, mode_of, mode_digits, mode_read};

use crate::error::BadText;

/// The greatest mode of a file: nine permissions and three further bits.
pub const MODE_MAX: u16 = 0o7777;

/// The longest mode that is read, in octal digits.
pub(crate) const MODE_DIGITS_MAX: usize = 7;

fn is_mode_word(word: &[u8]) -> bool
    ensures { IsTrue result ↔ IsModeWord word.now }
{
    !word.is_empty()
        && word.len() <= MODE_DIGITS_MAX
        && word.iter().all(|b| matches!(*b, b'0'..=b'7'))
}

// Returns the value of octal digits, without the bits above those of a mode.
fn octal(word: &[u8]) -> u16
    requires { IsModeWord word.now }
    ensures { result ≡ mode_of word.now }
{
    let mut mode = 0;
    for digit in word {
        mode = (8 * mode + u16::from(*digit - b'0')) % (MODE_MAX + 1);
    }
    mode
}

/// Reads the mode that a word spells in one to seven octal digits. Another word is refused as `Mode`.
pub fn read_mode(word: &[u8]) -> Result<u16, BadText>
    ensures exact { result ≡ mode_read word.now }
    ensures within { IfOk result (λ mode. mode ≤ MODE_MAX) }
{
    if is_mode_word(word) {
        Ok(octal(word))
    } else {
        Err(BadText::Mode)
    }
}

/// Returns a mode as written: four octal digits.
pub fn mode_digits(mode: u16) -> [u8; 4]
    requires { mode ≤ MODE_MAX }
    ensures { result ≡ mode_digits mode }
{
    [
        b'0' + (mode / 512 % 8) as u8,
        b'0' + (mode / 64 % 8) as u8,
        b'0' + (mode / 8 % 8) as u8,
        b'0' + (mode % 8) as u8,
    ]
}
