//! The tasks with an input, which is standard input or a file.

/// A task with an input.
#[derive(Clone, Copy, Debug, PartialEq, Eq)]
pub enum InputTask {
    /// The packets of the input are listed.
    Scan,
    /// The packets are listed in detail.
    ScanVerbose,
    /// The script in the input is played.
    Play,
    /// The script is played, with a remark on its jobs, or on the script if it is bad.
    PlayVerbose,
    /// The script is played, with what the run settles to.
    PlaySettled,
    /// The script is played, with a ladder of its sessions.
    PlayDrawn,
}
