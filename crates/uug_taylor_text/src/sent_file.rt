ghost use Rattle.std.specs.Prelude.{◌≤◌};
ghost use Rattle.uug_talk.specs.declared.mode.TheConstants.{MODE_MAX};

/// The fields of a command that sends a file.
#[derive(Clone, Copy, Debug, PartialEq, Eq)]
pub struct SentFile<'a> {
    /// The name of its copy among the data for the system. Without option `C` there is no such copy.
    pub temp: &'a [u8],
    /// The file's mode, at most `MODE_MAX`.
    pub mode: u16,
    /// The user to notify; empty if nobody is named.
    pub notify: &'a [u8],
    ghost within: { mode ≤ MODE_MAX },
}
