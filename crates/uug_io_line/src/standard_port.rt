//! A port over the standard streams of the program: it reads standard input, and writes standard output. These may be
//! sockets, pipes or terminals, and the port waits for them as for a device.
ghost use Rattle.std.specs.Prelude.{◌≤◌, length, IfOk};

use crate::in_time::{read_in_time, write_in_time, write_where_read};
use crate::port::Port;
use crate::standard_streams::StandardStreams;
use crate::waiting::Waiting;
use std::alloc::Allocator;
use std::io;
use std::io::{Stdin, Stdout};
use std::net::Net;
use std::os::fd::AsFd;
use std::os::unix::net::UnixStream;
use std::time::Duration;
use uug_error::Cause;
use uug_transfer::ReadOutcome;

/// Standard output. A write to a pipe whose reader is gone raises a signal, so any output but a socket is checked
/// first. A write to a socket whose other end is gone raises none.
#[derive(Drop)]
enum Outgoing {
    Socket(UnixStream),
    Stream(Stdout),
}

impl Outgoing {
    /// Returns standard output as a socket if it is one, else as a stream.
    fn of(output: Stdout) -> io::Result<Self> {
        let socket = UnixStream::from(output.as_fd().try_clone_to_owned()?);
        match socket.take_error() {
            Ok(_) => Ok(Outgoing::Socket(socket)),
            Err(_) => Ok(Outgoing::Stream(output)),
        }
    }
}

/// A port over standard input and output.
#[derive(Drop)]
pub struct StandardPort<A: Allocator> {
    input: Stdin,
    output: Outgoing,
    to_read: Waiting<A>,
    to_write: Waiting<A>,
}

impl<A: Allocator + Copy> StandardPort<A> {
    /// Creates the port over these streams. Its calls wait up to `time`, in whole seconds.
    pub fn new<R: Net>(
        alloc: A,
        rt: &R,
        streams: StandardStreams,
        time: Duration,
    ) -> Result<Self, Cause> {
        match open_port(alloc, rt, streams, time) {
            Ok(port) => Ok(port),
            Err(error) => Err(Cause::of(&error)),
        }
    }
}

fn open_port<A: Allocator + Copy, R: Net>(
    alloc: A,
    rt: &R,
    streams: StandardStreams,
    time: Duration,
) -> io::Result<StandardPort<A>> {
    let to_read = Waiting::new(alloc, rt, &streams.input, time)?;
    let output = Outgoing::of(streams.output)?;
    let to_write = match &output {
        Outgoing::Socket(socket) => Waiting::new(alloc, rt, socket, time)?,
        Outgoing::Stream(stream) => Waiting::new(alloc, rt, stream, time)?,
    };
    Ok(StandardPort {
        input: streams.input,
        output,
        to_read,
        to_write,
    })
}

/// Waits until the output is writable, and writes some of `piece`. Returns 0 after a timeout, or if the write would
/// still block.
fn write_out<A: Allocator + Copy>(
    output: &mut Outgoing,
    waiting: &mut Waiting<A>,
    piece: &[u8],
) -> Result<usize, Cause>
    ensures { IfOk result (λ n. n ≤ length piece.now) }
{
    match output {
        Outgoing::Socket(socket) => write_in_time(socket, waiting, piece),
        Outgoing::Stream(stream) => write_where_read(stream, waiting, piece),
    }
}

impl<A: Allocator + Copy> Port for StandardPort<A> {
    fn write(&mut self, piece: &[u8]) -> Result<usize, Cause> {
        write_out(&mut self.output, &mut self.to_write, piece)
    }

    fn read(&mut self, buffer: &mut [u8]) -> Result<ReadOutcome, Cause> {
        read_in_time(&mut self.input, &mut self.to_read, buffer)
    }

    fn set_time(&mut self, time: Duration) {
        self.to_read.set_time(time);
        self.to_write.set_time(time);
    }
}
