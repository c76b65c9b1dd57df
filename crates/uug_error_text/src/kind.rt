//! The names of the system's errors.
ghost use Rattle.std.specs.Prelude.{◌≡◌};
ghost use Rattle.std.specs.Option.{option_copied};
ghost use Rattle.uug_error_text.specs.KindWords.{file_words, kind_words, line_words};

use std::io::ErrorKind;

/// Returns the name of an error of this kind, if it has one.
pub(crate) fn kind_words(kind: ErrorKind) -> Option<&'static str>
    ensures { option_copied result ≡ kind_words kind }
{
    match line_words(kind) {
        Some(words) => Some(words),
        None => file_words(kind),
    }
}

/// Returns the name of an error of a kind that occurs on lines.
fn line_words(kind: ErrorKind) -> Option<&'static str>
    ensures { option_copied result ≡ line_words kind }
{
    match kind {
        ErrorKind::ConnectionRefused => Some("connection refused"),
        ErrorKind::ConnectionReset => Some("connection reset"),
        ErrorKind::ConnectionAborted => Some("connection aborted"),
        ErrorKind::HostUnreachable => Some("host unreachable"),
        ErrorKind::NetworkUnreachable => Some("network unreachable"),
        ErrorKind::NetworkDown => Some("network down"),
        ErrorKind::NotConnected => Some("not connected"),
        ErrorKind::AddrInUse => Some("address in use"),
        ErrorKind::AddrNotAvailable => Some("address not available"),
        ErrorKind::BrokenPipe => Some("broken pipe"),
        ErrorKind::TimedOut => Some("timed out"),
        ErrorKind::WouldBlock => Some("it would block"),
        ErrorKind::Interrupted => Some("interrupted"),
        ErrorKind::InProgress => Some("in progress"),
        ErrorKind::ResourceBusy => Some("device busy"),
        ErrorKind::Unsupported => Some("not supported"),
        ErrorKind::UnexpectedEof => Some("unexpected end"),
        ErrorKind::WriteZero => Some("nothing was written"),
        ErrorKind::InvalidInput => Some("invalid argument"),
        ErrorKind::InvalidData => Some("invalid data"),
        ErrorKind::OutOfMemory => Some("out of memory"),
        _ => None,
    }
}

/// Returns the name of an error of a kind that occurs only on files and folders.
fn file_words(kind: ErrorKind) -> Option<&'static str>
    ensures { option_copied result ≡ file_words kind }
{
    match kind {
        ErrorKind::NotFound => Some("no such file or directory"),
        ErrorKind::PermissionDenied => Some("permission denied"),
        ErrorKind::AlreadyExists => Some("it already exists"),
        ErrorKind::NotADirectory => Some("not a directory"),
        ErrorKind::IsADirectory => Some("is a directory"),
        ErrorKind::DirectoryNotEmpty => Some("directory not empty"),
        ErrorKind::ReadOnlyFilesystem => Some("read-only file system"),
        ErrorKind::FilesystemLoop => Some("too many symbolic links"),
        ErrorKind::StaleNetworkFileHandle => Some("stale network file handle"),
        ErrorKind::StorageFull => Some("no space left"),
        ErrorKind::QuotaExceeded => Some("disk quota exceeded"),
        ErrorKind::FileTooLarge => Some("file too large"),
        ErrorKind::NotSeekable => Some("not seekable"),
        ErrorKind::ExecutableFileBusy => Some("executable file busy"),
        ErrorKind::Deadlock => Some("deadlock"),
        ErrorKind::CrossesDevices => Some("on another file system"),
        ErrorKind::TooManyLinks => Some("too many links"),
        ErrorKind::InvalidFilename => Some("invalid file name"),
        ErrorKind::ArgumentListTooLong => Some("argument list too long"),
        _ => None,
    }
}
