//! A stream that is polled before it is read.

use crate::timed_stream::TimedStream;
use mio::unix::SourceFd;
use mio::{Events, Interest, Poll, Token};
use std::alloc::Allocator;
use std::io;
use std::io::{Read, Write};
use std::net::Net;
use std::os::fd::AsRawFd;
use std::time::Duration;

/// The token of the stream, the only source that is polled.
const STREAM: Token = Token(0);

/// The longest poll before a read, in milliseconds. After it the read returns bytes, or blocks itself.
const POLL_MILLIS: u64 = 100;

/// A stream that is polled before a read, if a blocking read would be woken for nothing. For each window of small
/// packets such wakes cost more than the extra call. A read has the same result as a read of the stream, at most a
/// tenth of a second later.
#[derive(Drop)]
pub struct PolledStream<T, A: Allocator> {
    stream: T,
    poll: Poll,
    events: Events<A>,
    /// Set if the last read left no bytes. Bytes that a read leaves are not polled for: the system does not report them
    /// again.
    is_drained: bool,
}

impl<T: TimedStream + AsRawFd + Drop, A: Allocator + Copy> PolledStream<T, A> {
    /// Wraps a stream from which nothing was read yet.
    pub fn new<R: Net>(alloc: A, rt: &R, stream: T) -> io::Result<Self> {
        let poll = Poll::new(rt)?;
        let events = Events::with_capacity(alloc, 1)?;
        let fd = stream.as_raw_fd();
        poll.registry()
            .register(&mut SourceFd(&fd), STREAM, Interest::READABLE)?;
        Ok(PolledStream {
            stream,
            poll,
            events,
            is_drained: true,
        })
    }
}

impl<T: TimedStream, A: Allocator> Read for PolledStream<T, A> {
    fn read(&mut self, buffer: &mut [u8]) -> io::Result<usize> {
        if self.is_drained && self.stream.is_woken_for_nothing() {
            // The poll's result is ignored: the read reports a failure.
            let time = Duration::from_millis(POLL_MILLIS);
            let _ = self.poll.poll(&mut self.events, Some(time));
        }
        let count = self.stream.read(buffer)?;
        self.is_drained = count < buffer.len();
        Ok(count)
    }
}

impl<T: TimedStream, A: Allocator> Write for PolledStream<T, A> {
    fn write(&mut self, piece: &[u8]) -> io::Result<usize> {
        self.stream.write(piece)
    }

    fn flush(&mut self) -> io::Result<()> {
        self.stream.flush()
    }
}

impl<T: TimedStream, A: Allocator> TimedStream for PolledStream<T, A> {
    fn set_time(&self, time: Duration) -> io::Result<()> {
        self.stream.set_time(time)
    }

    fn is_woken_for_nothing(&self) -> bool {
        false
    }
}
