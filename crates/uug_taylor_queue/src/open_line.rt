use uug_session::Job;
use uug_talk::Name;

/// The outcome of a job that is over.
#[derive(Clone, Copy, Debug, PartialEq, Eq)]
pub enum Outcome {
    /// Its file is stored at the receiving end.
    Done,
    /// It was given up.
    Failed,
}

/// An open line of a C. file: one that is not over. A line that runs a command is two open lines, one for each of its
/// jobs.
#[derive(Clone, Copy, Debug, PartialEq, Eq)]
pub struct OpenLine {
    /// The name of its C. file.
    pub file: Name,
    /// The number of lines before it in that file.
    pub number: usize,
    /// The name of its data, if the data is a copy.
    pub copy: Option<Name>,
    /// The job, if a session can offer it. A line without a job stays, and so does its C. file.
    pub job: Option<Job>,
}
