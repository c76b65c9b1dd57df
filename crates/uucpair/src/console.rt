use uug_io_line::StandardStreams;

/// The standard streams of the program.
#[derive(Clone, Copy)]
pub struct Console {
    /// The streams themselves.
    pub streams: StandardStreams,
    /// Set if standard input is a terminal.
    pub is_input_terminal: bool,
    /// Set if standard error is one.
    pub is_errors_terminal: bool,
}
