//! The sequence numbers of the files that a system makes for another one, as in its file SEQF.
ghost use Rattle.std.specs.Prelude.{true, ◌≡◌, ◌<◌, ◌≤◌};
ghost use Rattle.uug_taylor_text.specs.Sequence.{digit, digit_value, is_digit, next_sequence, sequence_value};

/// The number of sequence numbers: each is four digits of base 36.
const NUMBERS: u32 = 1_679_616;

/// Returns whether a byte is a digit of base 36: `0` to `9` or `A` to `Z`.
fn is_digit(byte: u8) -> bool
    ensures { result ≡ is_digit byte }
{
    byte.is_ascii_digit() || byte.is_ascii_uppercase()
}

fn digit_value(digit: u8) -> u32
    requires { is_digit digit ≡ true }
    ensures value { result ≡ digit_value digit }
    ensures within { result ≤ 35 }
{
    if digit <= b'9' {
        u32::from(digit - b'0')
    } else {
        u32::from(digit - b'A') + 10
    }
}

fn digit(value: u32) -> u8
    requires { value < 36 }
    ensures { result ≡ digit value }
{
    if value < 10 {
        b'0' + value as u8
    } else {
        b'A' + (value - 10) as u8
    }
}

/// Returns the number in a text, or 0 if it isn't four digits of base 36.
fn sequence_value(text: &[u8]) -> u32
    ensures value { result ≡ sequence_value text.now }
    ensures within { result < 1679616 }
{
    let [a, b, c, d] = text else {
        return 0;
    };
    if !(is_digit(*a) && is_digit(*b) && is_digit(*c) && is_digit(*d)) {
        return 0;
    }
    46_656 * digit_value(*a) + 1_296 * digit_value(*b) + 36 * digit_value(*c) + digit_value(*d)
}

/// Returns the sequence number after the one in the text of SEQF, as four digits of base 36. The number after `ZZZZ` is
/// `0000`. A text without a number counts as `0000`.
pub fn next_sequence(text: &[u8]) -> [u8; 4]
    ensures { result ≡ next_sequence text.now }
{
    let next = (sequence_value(text) + 1) % NUMBERS;
    [
        digit(next / 46_656 % 36),
        digit(next / 1_296 % 36),
        digit(next / 36 % 36),
        digit(next % 36),
    ]
}
