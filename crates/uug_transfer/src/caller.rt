//! The name of a caller, in the first text that it sends.
ghost use Rattle.std.specs.Prelude.{◌≡◌, ◌≤◌, length};
ghost use Rattle.std.specs.List.{position_or_len};
ghost use Rattle.uug_session.specs.Greeting.{name_in_caller_text};
ghost use Rattle.uug_talk.specs.Words.{is_space};
ghost use Rattle.uug_transfer.specs.Callers.{caller_in};

use uug_talk::Name;

/// Returns the name that a caller gives in this text, if it gives a valid one.
pub fn caller_in(text: &[u8]) -> Option<Name>
    ensures { result ≡ caller_in text.now }
{
    if !text.starts_with(b"S") {
        return None;
    }
    Name::new(name_in(text)).ok()
}

/// Returns the bytes after the first one, up to a space.
fn name_in(text: &[u8]) -> &[u8]
    requires { 1 ≤ length text.now }
    ensures { result.now ≡ name_in_caller_text text.now }
{
    let (_, behind) = text.split_at(1);
    let (name, _) = behind.split_at(word_len(behind));
    name
}

fn word_len(text: &[u8]) -> usize
    ensures value { result ≡ position_or_len is_space text.now }
    ensures fits { result ≤ length text.now }
{
    text.iter().take_while(|b| **b != b' ').count()
}
