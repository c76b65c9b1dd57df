//! Waits for files whose reads and writes have no timeouts in the system.

use mio::unix::SourceFd;
use mio::{Events, Interest, Poll, Token};
use std::alloc::Allocator;
use std::io;
use std::net::Net;
use std::os::fd::{AsFd, AsRawFd};
use std::os::unix::net::UnixStream;
use std::time::Duration;

/// The token of the file, the only source that is polled.
const FILE: Token = Token(0);

/// The milliseconds of one slice of a wait. A signal ends only one slice.
const SLICE_MILLIS: u64 = 100;

/// A poll of an open file: a device, a pipe or a socket.
#[derive(Drop)]
pub(crate) struct Waiting<A: Allocator> {
    poll: Poll,
    events: Events<A>,
    /// The number of slices of a wait.
    slices: u64,
}

impl<A: Allocator + Copy> Waiting<A> {
    /// Prepares waits of `time`, in whole seconds, for this file. Makes the file's own calls non-blocking.
    pub(crate) fn new<R: Net, F: AsFd + AsRawFd>(
        alloc: A,
        rt: &R,
        file: &F,
        time: Duration,
    ) -> io::Result<Self> {
        let poll = Poll::new(rt)?;
        let events = Events::with_capacity(alloc, 1)?;
        set_waiting(file, false)?;
        let fd = file.as_raw_fd();
        poll.registry()
            .register(&mut SourceFd(&fd), FILE, Interest::READABLE)?;
        Ok(Waiting {
            poll,
            events,
            slices: slices_of(time),
        })
    }

    /// Waits for the file, and returns whether it became ready. A signal shortens the wait by at most one slice.
    pub(crate) fn wait<F: AsRawFd>(&mut self, file: &F, interest: Interest) -> io::Result<bool> {
        let fd = file.as_raw_fd();
        self.poll
            .registry()
            .reregister(&mut SourceFd(&fd), FILE, interest)?;
        let slice = Duration::from_millis(SLICE_MILLIS);
        for _ in 0..self.slices {
            self.poll.poll(&mut self.events, Some(slice))?;
            if !self.events.is_empty() {
                return Ok(true);
            }
        }
        Ok(false)
    }

    /// Returns whether the last wait found that the reader is gone.
    pub(crate) fn is_write_closed(&self) -> bool {
        self.events.iter().any(|event| event.is_write_closed())
    }

    /// Waits as `wait` does, but for this long.
    pub(crate) fn wait_for<F: AsRawFd>(
        &mut self,
        file: &F,
        interest: Interest,
        time: Duration,
    ) -> io::Result<bool> {
        let slices = self.slices;
        self.set_time(time);
        let ready = self.wait(file, interest);
        self.slices = slices;
        ready
    }

    /// Sets how long a wait lasts from now on.
    pub(crate) fn set_time(&mut self, time: Duration) {
        self.slices = slices_of(time);
    }
}

/// Returns the number of slices in the whole seconds of `time`.
fn slices_of(time: Duration) -> u64 {
    time.as_secs().saturating_mul(10)
}

/// Sets whether the calls of a file block. The flag belongs to the open file, which a duplicate of the descriptor
/// shares. Only the duplicate, as a `UnixStream`, has a call that sets it.
pub(crate) fn set_waiting<F: AsFd>(file: &F, waits: bool) -> io::Result<()> {
    UnixStream::from(file.as_fd().try_clone_to_owned()?).set_nonblocking(!waits)
}
