//! A listening socket, for an end that is called.

use crate::deadline::Deadline;
use crate::timed_stream::TimedStream;
use crate::waiters::Waiters;
use mio::unix::SourceFd;
use mio::{Events, Interest, Poll, Token};
use std::alloc::Allocator;
use std::io::ErrorKind;
use std::net::{Net, TcpListener, TcpStream};
use std::os::fd::AsRawFd;
use std::os::unix::net::{UnixListener, UnixStream};
use std::rt::Files;
use std::time::Clock;
use std::{fs, io};

/// The token of the socket, the only source that is polled.
const SOCKET: Token = Token(0);

/// The maximum number of waits for a caller.
const WAITS_MAX: u32 = u32::MAX;

/// A listening socket that does not block.
pub trait Listener: AsRawFd {
    type Stream: TimedStream + AsRawFd + Drop;

    /// Accepts the next connection. The calls of its stream block.
    fn take(&self) -> io::Result<Self::Stream>;
}

impl Listener for UnixListener {
    type Stream = UnixStream;

    fn take(&self) -> io::Result<UnixStream> {
        Ok(self.accept()?.0)
    }
}

impl Listener for TcpListener {
    type Stream = TcpStream;

    fn take(&self) -> io::Result<TcpStream> {
        let (stream, _) = self.accept()?;
        stream.set_nodelay(true)?;
        Ok(stream)
    }
}

/// A socket that listens until a caller is let in.
#[derive(Drop)]
pub struct Listening<'a, 'p, T, R, A: Allocator> {
    rt: &'a R,
    /// The path of the socket's file, if it has one.
    path: Option<&'p str>,
    /// The socket, or `None` once it is closed.
    listener: Option<T>,
    poll: Poll,
    events: Events<A>,
}

impl<'a, 'p, T, R, A> Listening<'a, 'p, T, R, A>
where
    T: Listener + Drop,
    R: Files + Net + Clock,
    A: Allocator + Copy,
{
    /// Wraps a listening socket that does not block. `path` is the path of its file.
    pub fn new(alloc: A, rt: &'a R, path: Option<&'p str>, listener: T) -> io::Result<Self> {
        let poll = Poll::new(rt)?;
        let events = Events::with_capacity(alloc, 1)?;
        let fd = listener.as_raw_fd();
        poll.registry()
            .register(&mut SourceFd(&fd), SOCKET, Interest::READABLE)?;
        Ok(Listening {
            rt,
            path,
            listener: Some(listener),
            poll,
            events,
        })
    }

    /// Returns the next caller, or `None` after the deadline, or once the socket is closed. Neither a signal nor a
    /// caller who has hung up ends the wait.
    pub fn next_caller(&mut self, deadline: &Deadline) -> io::Result<Option<T::Stream>> {
        let Some(listener) = &self.listener else {
            return Ok(None);
        };
        for _ in 0..WAITS_MAX {
            match listener.take() {
                Ok(stream) => return Ok(Some(stream)),
                Err(error) if is_none_yet(&error) => (),
                Err(error) => return Err(error),
            }
            let Some(left) = deadline.left(self.rt)? else {
                return Ok(None);
            };
            self.poll.poll(&mut self.events, Some(left))?;
        }
        Ok(None)
    }
}

impl<T: Listener, R: Net, A: Allocator + Copy> Listening<'_, '_, T, R, A> {
    /// Returns a watch for callers who wait now or connect later, or `None` if the socket is closed or the watch can't
    /// be set up.
    pub fn waiters(&self, alloc: A) -> Option<Waiters<A>> {
        let listener = self.listener.as_ref()?;
        Waiters::at(alloc, self.rt, listener).ok()
    }
}

impl<T: Drop, R: Files, A: Allocator> Listening<'_, '_, T, R, A> {
    /// Stops listening, and removes the socket's file.
    pub fn close(&mut self) {
        if let Some(listener) = self.listener.take() {
            drop(listener);
            self.remove_file();
        }
    }

    fn remove_file(&self) {
        if let Some(path) = self.path {
            let _ = fs::remove_file(self.rt, path);
        }
    }

    /// Returns whether it is still listening.
    pub fn is_open(&self) -> bool {
        self.listener.is_some()
    }
}

/// Returns whether an error only means that there is no caller yet: nobody has connected, the caller has hung up, or a
/// signal arrived.
fn is_none_yet(error: &io::Error) -> bool {
    matches!(
        error.kind(),
        ErrorKind::WouldBlock | ErrorKind::ConnectionAborted | ErrorKind::Interrupted
    )
}
