ghost use Rattle.std.specs.Prelude.{◌≡◌, ◌≢◌, ◌+◌, ◌≤◌, [], ◌∷◌, ◌++◌, length, MatchOption};
ghost use Rattle.std.specs.List.{prefix_len, position_or_len};
ghost use Rattle.uug_talk.specs.Words.{is_space, words};

use arrayvec::ArrayVec;

/// The longest text of a command or an answer, without its zero byte.
pub const COMMAND_MAX: usize = 4096;

/// The room for a written text. It is more than the longest one needs.
pub const WRITTEN_MAX: usize = 1024;

/// A written text.
pub(crate) type Text = ArrayVec<u8, WRITTEN_MAX>;

/// Splits the first word of a text from the rest after it. Returns `None` if the text has no word.
pub fn split_word(text: &[u8]) -> Option<(&[u8], &[u8])>
    ensures { MatchOption result (words text.now ≡ [])
        (λ found. words text.now ≡ found.0.now ∷ words found.1.now) }
{
    let text = &text[leading_spaces(text)..];
    if text.is_empty() {
        return None;
    }
    Some(text.split_at(word_len(text)))
}

/// Returns the word of a text that has one.
pub fn one_word(text: &[u8]) -> Option<&[u8]>
    ensures { MatchOption result (length (words text.now) ≢ 1)
        (λ word. words text.now ≡ word.now ∷ []) }
{
    let (word, rest) = split_word(text)?;
    if split_word(rest).is_some() {
        return None;
    }
    Some(word)
}

/// Returns the words of a text that has two.
pub fn two_words(text: &[u8]) -> Option<(&[u8], &[u8])>
    ensures { MatchOption result (length (words text.now) ≢ 2)
        (λ found. words text.now ≡ found.0.now ∷ found.1.now ∷ []) }
{
    let (first, rest) = split_word(text)?;
    let second = one_word(rest)?;
    Some((first, second))
}

/// Returns the words of a text that has three.
pub fn three_words(text: &[u8]) -> Option<(&[u8], &[u8], &[u8])>
    ensures { MatchOption result (length (words text.now) ≢ 3)
        (λ found. words text.now ≡ found.0.now ∷ found.1.now ∷ found.2.now ∷ []) }
{
    let (first, rest) = split_word(text)?;
    let (second, third) = two_words(rest)?;
    Some((first, second, third))
}

/// Returns the words of a text that has four.
pub fn four_words(text: &[u8]) -> Option<(&[u8], &[u8], &[u8], &[u8])>
    ensures { MatchOption result (length (words text.now) ≢ 4)
        (λ found. words text.now ≡ found.0.now ∷ found.1.now ∷ found.2.now ∷ found.3.now ∷ []) }
{
    let (first, rest) = split_word(text)?;
    let (second, third, fourth) = three_words(rest)?;
    Some((first, second, third, fourth))
}

fn leading_spaces(text: &[u8]) -> usize
    ensures value { result ≡ prefix_len is_space text.now }
    ensures fits { result ≤ length text.now }
{
    text.iter().take_while(|b| **b == b' ').count()
}

fn word_len(text: &[u8]) -> usize
    ensures value { result ≡ position_or_len is_space text.now }
    ensures fits { result ≤ length text.now }
{
    text.iter().take_while(|b| **b != b' ').count()
}

/// Writes a space and a word at the end.
pub(crate) fn push_word(text: &mut Text, word: &[u8])
    requires { length text.old.items + 1 + length word.now ≤ WRITTEN_MAX }
    ensures items { text.new.items ≡ text.old.items ++ 32 ∷ word.now }
    ensures len { length text.new.items ≡ length text.old.items + 1 + length word.now }
{
    text.push(b' ');
    let Ok(()) = text.try_extend_from_slice(word) else {
        unreachable!();
    };
}
