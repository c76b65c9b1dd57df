use uug_talk::{FileDigest, Name};

/// A place where an end saves the bytes of a file as they arrive, so that they aren't lost if the end is killed. What
/// can't be written is skipped.
pub trait Notebook {
    /// Saves what has arrived of a file: `front` before this session, and `bytes` in it. `source` is the file's name at
    /// the end that gives it, and `told` its announced digest.
    fn note(&mut self, source: &Name, told: &FileDigest, front: &[u8], bytes: &[u8]);

    /// Notes that the file with this announced digest has arrived complete: what was saved of it is no longer needed.
    fn let_go(&mut self, told: &FileDigest);
}

/// A notebook that saves nothing.
#[derive(Clone, Copy)]
pub struct NoNotebook;

impl Notebook for NoNotebook {
    fn note(&mut self, _source: &Name, _told: &FileDigest, _front: &[u8], _bytes: &[u8]) {}

    fn let_go(&mut self, _told: &FileDigest) {}
}
