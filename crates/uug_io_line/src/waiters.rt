//! Callers who wait at a socket while another is served.

use mio::unix::SourceFd;
use mio::{Events, Interest, Poll, Token};
use std::alloc::Allocator;
use std::io;
use std::net::Net;
use std::os::fd::AsRawFd;
use std::time::Duration;

/// The token of the socket, the only source that is polled.
const SOCKET: Token = Token(0);

/// A watch for callers who wait at a socket. Once it has found one, it always reports one.
#[derive(Drop)]
pub struct Waiters<A: Allocator> {
    poll: Poll,
    events: Events<A>,
    is_any: bool,
}

impl<A: Allocator + Copy> Waiters<A> {
    /// Starts to watch a listening socket.
    pub(crate) fn at<R: Net, T: AsRawFd>(alloc: A, rt: &R, socket: &T) -> io::Result<Self> {
        let poll = Poll::new(rt)?;
        let events = Events::with_capacity(alloc, 1)?;
        let fd = socket.as_raw_fd();
        poll.registry()
            .register(&mut SourceFd(&fd), SOCKET, Interest::READABLE)?;
        Ok(Waiters {
            poll,
            events,
            is_any: false,
        })
    }
}

impl<A: Allocator> Waiters<A> {
    /// Returns whether anybody waits, or has waited since the watch began. A poll that fails finds nobody.
    pub fn are_there(&mut self) -> bool {
        if !self.is_any {
            // The system reports a caller only once.
            let _ = self.poll.poll(&mut self.events, Some(Duration::ZERO));
            self.is_any = !self.events.is_empty();
        }
        self.is_any
    }
}
