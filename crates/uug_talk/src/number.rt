ghost use Rattle.std.specs.Prelude.{◌≡◌, ◌≤◌, IfSome};
ghost use Rattle.std.specs.Char.{is_ascii_digit};
ghost use Rattle.std.specs.List.{list_all};
ghost use Rattle.uug_talk.specs.Number.{is_numeral, number_of};

fn are_digits(word: &[u8]) -> bool
    ensures { result ≡ list_all is_ascii_digit word.now }
{
    word.iter().all(|b| b.is_ascii_digit())
}

/// Returns whether a word is one or more decimal digits.
fn is_numeral(word: &[u8]) -> bool
    ensures { result ≡ is_numeral word.now }
{
    !word.is_empty() && are_digits(word)
}

/// Reads the number that a word of decimal digits writes, if it is at most `most`. Leading zeros are accepted, a sign
/// is not.
pub fn read_number(word: &[u8], most: u32) -> Option<u32>
    ensures exact { result ≡ number_of most word.now }
    ensures within { IfSome result (λ n. n ≤ most) }
{
    if !is_numeral(word) {
        return None;
    }
    let Ok(digits) = str::from_utf8(word) else {
        unreachable!();
    };
    match digits.parse::<u32>() {
        Ok(number) if number <= most => Some(number),
        _ => None,
    }
}
