//! Quoted names in the lines of C. files, where a backslash and three octal digits stand for a byte.
ghost use Rattle.std.specs.Prelude.{◌≡◌, ◌+◌, ◌≤◌, ◌∷◌, ◌++◌, [], length, All, MatchOption, OnOk, IfOk, IfSome};
ghost use Rattle.uug_taylor_text.specs.Quoting.{byte_in_digits, is_octal, is_well_quoted, needs_quoting, octal_byte, quoted, quoted_byte, unquoted};

use std::alloc::{AllocError, Allocator};

fn is_octal(byte: u8) -> bool
    ensures { result ≡ is_octal byte }
{
    b'0' <= byte && byte <= b'7'
}

/// Returns the byte that three octal digits stand for. Returns `None` if one is no octal digit, or they stand for more
/// than 255.
fn octal_byte(high: u8, middle: u8, low: u8) -> Option<u8>
    ensures { result ≡ octal_byte high middle low }
{
    if is_octal(high) && high <= b'3' && is_octal(middle) && is_octal(low) {
        Some(64 * (high - b'0') + 8 * (middle - b'0') + (low - b'0'))
    } else {
        None
    }
}

/// Returns the byte of a backslash and three octal digits, if the text begins with these.
fn byte_in_digits(text: &[u8]) -> Option<u8>
    ensures byte { result ≡ byte_in_digits text.now }
    ensures long { IfSome result (λ byte. 4 ≤ length text.now) }
{
    match text {
        [b'\\', high, middle, low, ..] => octal_byte(*high, *middle, *low),
        _ => None,
    }
}

/// Returns whether each backslash of a word is followed by three octal digits that stand for a byte.
pub(crate) fn is_well_quoted(word: &[u8]) -> bool
    ensures { result ≡ is_well_quoted word.now }
{
    let mut rest = word;
    while let [byte, behind @ ..] = rest {
        if *byte == b'\\' && byte_in_digits(rest).is_none() {
            return false;
        }
        rest = behind;
    }
    true
}

/// Returns the first byte of a text as unquoted, and the rest of the text. Returns `None` if the text is empty.
fn first_byte(text: &[u8]) -> Option<(u8, &[u8])>
    ensures bytes { MatchOption result (unquoted text.now ≡ [])
        (λ found. unquoted text.now ≡ found.0 ∷ unquoted found.1.now) }
    ensures shorter { MatchOption result (text.now ≡ [])
        (λ found. length found.1.now + 1 ≤ length text.now) }
{
    if let Some(byte) = byte_in_digits(text) {
        return Some((byte, &text[4..]));
    }
    match text {
        [byte, behind @ ..] => Some((*byte, behind)),
        [] => None,
    }
}

/// Appends the bytes that a quoted word stands for.
pub(crate) fn add_unquoted<A: Allocator>(
    text: &mut Vec<u8, A>,
    word: &[u8],
) -> Result<(), AllocError>
    ensures { OnOk result (text.new.items ≡ text.old.items ++ unquoted word.now) }
{
    let mut rest = word;
    while let Some((byte, behind)) = first_byte(rest) {
        text.push(byte)?;
        rest = behind;
    }
    Ok(())
}

fn needs_quoting(byte: u8) -> bool
    ensures { result ≡ needs_quoting byte }
{
    !byte.is_ascii_graphic() || byte == b'"' || byte == b'\\'
}

/// Appends a byte as it is written in a quoted word.
fn add_quoted_byte<A: Allocator>(text: &mut Vec<u8, A>, byte: u8) -> Result<(), AllocError>
    ensures { OnOk result (text.new.items ≡ text.old.items ++ quoted_byte byte) }
{
    if !needs_quoting(byte) {
        text.push(byte)?;
        return Ok(());
    }
    text.extend_from_slice(&[
        b'\\',
        b'0' + byte / 64 % 8,
        b'0' + byte / 8 % 8,
        b'0' + byte % 8,
    ])
}

/// Returns a name as a quoted word. A space, `"`, a backslash, and any byte that is no printing character become a
/// backslash and three octal digits. A line with a quoted word has the option `q`.
pub fn quoted<A: Allocator>(alloc: A, name: &[u8]) -> Result<Vec<u8, A>, AllocError>
    ensures { IfOk result (λ word. word.items ≡ quoted name.now) }
{
    let mut word = Vec::new(alloc);
    add_quoted(&mut word, name)?;
    Ok(word)
}

fn add_quoted<A: Allocator>(word: &mut Vec<u8, A>, name: &[u8]) -> Result<(), AllocError>
    ensures { OnOk result (word.new.items ≡ word.old.items ++ quoted name.now) }
{
    for byte in name {
        add_quoted_byte(word, *byte)?;
    }
    Ok(())
}
