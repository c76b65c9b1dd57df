//! The reports of a pair on standard error.

use crate::tellers::Tellers;
use crate::voice::Voice;
use std::alloc::Allocator;
use std::fs;
use std::rt::Files;
use std::time::Clock;
use uug_observe_log::{FileProgress, Observer, Transfer, Way};
use uug_session::FileLimit;
use uug_store::local_source;
use uug_transfer::{ReadOutcome, SessionObserver, SessionStatus};

/// Reports the files of a pair on standard error, if that is a terminal, as the caller sees them: the progress of a
/// long file, and each job if it is loud.
#[derive(Drop)]
pub struct PairObserver<'a, R, A: Allocator> {
    alloc: A,
    rt: &'a R,
    /// The folder of the caller.
    dir_a: &'a str,
    /// The folder of the called end.
    dir_b: &'a str,
    /// None if there is no terminal, or no memory for it.
    observer: Option<Observer<A>>,
    tellers: Tellers<'a, R, A>,
}

impl<'a, R: Files + Eprint + Clock, A: Allocator + Copy> PairObserver<'a, R, A> {
    /// Creates an observer of ends over these folders. Without a terminal, or memory for it, it reports nothing.
    pub fn new(
        alloc: A,
        rt: &'a R,
        dir_a: &'a str,
        dir_b: &'a str,
        is_loud: bool,
        at_terminal: bool,
    ) -> Self {
        let observer = if at_terminal {
            Observer::new(alloc, false, FileLimit::standard().bytes as u32).ok()
        } else {
            None
        };
        PairObserver {
            alloc,
            rt,
            dir_a,
            dir_b,
            observer,
            tellers: Tellers {
                is_loud,
                voice: Voice::new(alloc, rt, at_terminal),
                log: None,
            },
        }
    }

    /// Observes bytes that the caller writes or reads.
    fn see(&mut self, way: Way, piece: &[u8]) {
        let Some(observer) = &mut self.observer else {
            return;
        };
        observer.see(way, piece, &mut self.tellers);
        let progress = observer.progress();
        self.tellers.tell_held();
        if let Some(progress) = progress {
            self.show(&progress);
        }
    }

    /// Shows the progress of a file, if that is due.
    fn show(&mut self, progress: &FileProgress) {
        if self.tellers.voice.is_due(progress) {
            let sized = FileProgress {
                job: progress.job,
                position: progress.position,
                size: self.size_of(&progress.job),
                repeats: progress.repeats,
            };
            self.tellers.voice.show_progress(&sized);
        }
    }

    /// Returns the current size of a job's file, in the folder of the end that sends it. No end announces the size.
    fn size_of(&self, job: &Transfer) -> Option<u32> {
        let dir = match job.file_way() {
            Way::Out => self.dir_a,
            Way::In => self.dir_b,
        };
        let name = local_source(&job.source)?;
        let name = name.as_str();
        let path = format!(in self.alloc; "{dir}/send/{name}").ok()?;
        let found = fs::metadata(self.rt, path.as_str()).ok()?;
        u32::try_from(found.len()).ok()
    }
}

impl<R: Files + Eprint + Clock, A: Allocator + Copy> SessionObserver for PairObserver<'_, R, A> {
    fn wrote(&mut self, piece: &[u8]) {
        self.see(Way::Out, piece);
    }

    fn read(&mut self, _outcome: ReadOutcome, piece: &[u8]) {
        self.see(Way::In, piece);
    }

    fn note(&mut self, _status: SessionStatus) {
        self.tellers.voice.wipe();
    }
}
