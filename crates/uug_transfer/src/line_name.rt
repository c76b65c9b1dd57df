//! Names of lines on the command line.
ghost use Rattle.std.specs.Prelude.{◌≡◌, MatchOption, Some, None};
ghost use Rattle.std.specs.Option.{option_copied};
ghost use Rattle.uug_transfer.specs.LineNames.{behind, host_and_port, line_of, not_empty, port_of, shown};

/// The name of the standard streams.
const STANDARD: &str = "-";

/// The host if none is named.
const LOOPBACK: &str = "127.0.0.1";

/// A line, as named on the command line.
#[derive(Clone, Copy, Debug, PartialEq, Eq)]
pub enum LineName<'a> {
    /// `-`: standard input and output.
    Standard,
    /// `unix:PATH`: a Unix socket.
    Unix(&'a str),
    /// `tcp:HOST:PORT`, or `tcp:PORT`, which is on this machine.
    Tcp(&'a str, u16),
    /// The path of a terminal device.
    Device(&'a str),
}

/// Parses the name of a line. Returns `None` if the path or the host is empty, or the port is not a number from 0 to
/// 65,535. A host may contain colons: the last one precedes the port.
pub fn read_line_name(name: &str) -> Option<LineName<'_>>
    ensures { MatchOption result (line_of name.now ≡ None)
        (λ line. line_of name.now ≡ Some (shown line)) }
{
    if name == STANDARD {
        return Some(LineName::Standard);
    }
    if let Some(path) = behind(name, "unix:") {
        return Some(LineName::Unix(not_empty(path)?));
    }
    let Some(address) = behind(name, "tcp:") else {
        return Some(LineName::Device(not_empty(name)?));
    };
    let (host, port) = host_and_port(address);
    Some(LineName::Tcp(not_empty(host)?, port_of(port)?))
}

/// Returns the text after this word, if it begins with it.
fn behind<'a>(text: &'a str, word: &str) -> Option<&'a str>
    ensures { option_copied result ≡ behind word.now text.now }
{
    text.strip_prefix(word)
}

/// Returns the text, if it is not empty.
fn not_empty(text: &str) -> Option<&str>
    ensures { option_copied result ≡ not_empty text.now }
{
    if text.is_empty() {
        return None;
    }
    Some(text)
}

/// Splits an address into its host and port.
fn host_and_port(address: &str) -> (&str, &str)
    ensures { (result.0.now, result.1.now) ≡ host_and_port address.now }
{
    match address.rsplit_once(':') {
        Some((host, port)) => (host, port),
        None => (LOOPBACK, address),
    }
}

/// Parses a port.
fn port_of(text: &str) -> Option<u16>
    ensures { result ≡ port_of text.now }
{
    text.parse::<u16>().ok()
}
