use crate::buffered_node::BufferedNode;
use std::alloc::Allocator;
use uug_session::Spool;
use uug_store::JobsFile;

/// One end of a transfer: the end at its line, and the files that hold its state between sessions.
#[derive(Drop)]
pub struct TransferEnd<S: Spool, J, N, A: Allocator> {
    /// The end at the line.
    pub buffered: BufferedNode<S, A>,
    /// The file of its jobs, with the text that was read from it.
    pub jobs: JobsFile<J, A>,
    /// The file for the number of its conversations, if it keeps one.
    pub number: N,
}
