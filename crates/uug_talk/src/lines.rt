//! The lines of a text, one by one.
ghost use Rattle.std.specs.Prelude.{◌≡◌, ◌+◌, ◌≤◌, [], ◌∷◌, length, MatchOption};
ghost use Rattle.std.specs.List.{position_or_len};
ghost use Rattle.uug_talk.specs.Lines.{is_line_feed, lines};

/// The longest line of a text that a person writes, in bytes, its spaces included and its line feed not.
pub const LINE_MAX: usize = 65_536;

/// Splits the first line, without its line feed, from the text after it. Returns `None` if the text is empty.
pub fn split_line(text: &[u8]) -> Option<(&[u8], &[u8])>
    ensures lines { MatchOption result (lines text.now ≡ [])
        (λ found. lines text.now ≡ found.0.now ∷ lines found.1.now) }
    ensures shorter { MatchOption result (text.now ≡ [])
        (λ found. length found.1.now + 1 ≤ length text.now) }
{
    if text.is_empty() {
        return None;
    }
    let (line, behind) = text.split_at(line_len(text));
    match behind {
        [] => Some((line, behind)),
        [_, rest @ ..] => Some((line, rest)),
    }
}

fn line_len(text: &[u8]) -> usize
    ensures value { result ≡ position_or_len is_line_feed text.now }
    ensures fits { result ≤ length text.now }
{
    text.iter().take_while(|b| **b != b'\n').count()
}
