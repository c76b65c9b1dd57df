//! The run of one end.
ghost use Rattle.std.specs.Prelude.{◌≡◌};

use uug_config::{CallTask, Station};
use uug_talk::Name;

/// The shared parameters of the functions of a run: the allocator, the system, the end's task, and its station.
#[derive(Drop)]
pub(crate) struct EndRun<'a, A, R> {
    pub(crate) alloc: A,
    pub(crate) rt: &'a R,
    pub(crate) task: &'a CallTask<'a>,
    pub(crate) station: Station,
}

impl<'a, A: Copy, R> EndRun<'a, A, R> {
    /// Returns the same run, with `peer` as the other end.
    pub(crate) fn with_peer(&self, peer: Name) -> EndRun<'a, A, R>
        ensures task { result.task ≡ self.now.task }
        ensures me { result.station.place.me ≡ self.now.station.place.me }
        ensures peer { result.station.place.peer ≡ peer }
    {
        let mut station = self.station;
        station.place.peer = peer;
        EndRun {
            alloc: self.alloc,
            rt: self.rt,
            task: self.task,
            station,
        }
    }
}
