//! Hints about words that are often mistaken for those of the program.
ghost use Rattle.std.specs.Prelude.{◌≡◌};
ghost use Rattle.uug_cli.specs.Hints.{hint_words, option_hint};

/// Returns what to do about a word that is often mistaken for one of the program's, else an empty text. `tool` is the
/// first word after the program's name, and `is_first` is set if `word` is that one.
pub fn hint_words(tool: &[u8], is_first: bool, word: &[u8]) -> &'static str
    ensures { result.now ≡ hint_words tool.now is_first word.now }
{
    if word == b"--baud".as_slice() {
        "set a device speed with stty; --speed is for the timers"
    } else if word == b"--port".as_slice() {
        "the port is part of LINE: tcp:HOST:PORT"
    } else if word == b"send".as_slice() {
        "to queue a file: uucpair queue DIR send FILE"
    } else if is_first && word == b"-v".as_slice() {
        "options go after the command: uucpair call .. -v"
    } else {
        option_hint(tool, word)
    }
}

/// Returns what to do about an option that only the other end has, else an empty text.
fn option_hint(tool: &[u8], word: &[u8]) -> &'static str
    ensures { result.now ≡ option_hint tool.now word.now }
{
    if tool == b"call".as_slice() && word.starts_with(b"--wait") {
        "--wait is for answer: a call waits as long as --timeout says"
    } else if tool == b"call".as_slice() && word.starts_with(b"--sessions") {
        "--sessions is for answer: a call has one session"
    } else if tool == b"answer".as_slice() && word == b"--fail-status".as_slice() {
        "--fail-status is for call"
    } else {
        ""
    }
}
