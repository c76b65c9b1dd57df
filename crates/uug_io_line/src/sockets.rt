//! Sockets of ends that call or are called.

use crate::deadline::Deadline;
use crate::listening::Listening;
use crate::timed_stream::TimedStream;
use std::alloc::Allocator;
use std::io::ErrorKind;
use std::net::{Net, SocketAddr, TcpListener, TcpStream, ToSocketAddrs};
use std::os::unix::fs::FileTypeExt;
use std::os::unix::net::{UnixListener, UnixStream};
use std::rt::Files;
use std::time::{Clock, Duration};
use std::{fs, io, thread};

/// The milliseconds before another attempt to connect to a socket whose backlog is full.
const PAUSE_MILLIS: u64 = 50;

/// The maximum number of attempts to connect.
const TRIES_MAX: u32 = u32::MAX;

/// Connects to the Unix socket at this path. Connecting waits up to `time`, as does each call of the stream.
pub fn call_unix<R: Net + Clock>(rt: &R, path: &str, time: Duration) -> io::Result<UnixStream> {
    let stream = connect_unix(rt, path, time)?;
    stream.set_time(time)?;
    Ok(stream)
}

/// Connects to a Unix socket. If its backlog is full, the call is repeated: the system does not report when there is
/// room.
fn connect_unix<R: Net + Clock>(rt: &R, path: &str, time: Duration) -> io::Result<UnixStream> {
    let deadline = Deadline::after(rt, time)?;
    for _ in 0..TRIES_MAX {
        match mio::net::UnixStream::connect(rt, path) {
            Ok(stream) => return waiting(UnixStream::from(stream)),
            Err(error) => match error.kind() {
                ErrorKind::WouldBlock | ErrorKind::Interrupted => (),
                _ => return Err(error),
            },
        }
        if deadline.left(rt)?.is_none() {
            return Err(io::Error::from(ErrorKind::TimedOut));
        }
        thread::sleep(rt, Duration::from_millis(PAUSE_MILLIS));
    }
    Err(io::Error::from(ErrorKind::TimedOut))
}

/// Makes the calls of a stream block.
fn waiting(stream: UnixStream) -> io::Result<UnixStream> {
    stream.set_nonblocking(false)?;
    Ok(stream)
}

/// Connects to this TCP port of this host. After the name lookup, connecting waits up to `time`, as does each call of
/// the stream.
pub fn call_tcp<A, R>(
    alloc: A,
    rt: &R,
    host: &str,
    port: u16,
    time: Duration,
) -> io::Result<TcpStream>
where
    A: Allocator + Copy,
    R: Net<Stream = TcpStream>,
{
    let stream = connect_tcp(alloc, rt, host, port, time)?;
    stream.set_nodelay(true)?;
    stream.set_time(time)?;
    Ok(stream)
}

/// Connects to the first address of the host that answers. Each address gets an equal share of `time`.
fn connect_tcp<A, R>(
    alloc: A,
    rt: &R,
    host: &str,
    port: u16,
    time: Duration,
) -> io::Result<TcpStream>
where
    A: Allocator + Copy,
    R: Net<Stream = TcpStream>,
{
    let addresses: Vec<SocketAddr, A> = (host, port).to_socket_addrs(rt)?.collect(alloc)?;
    let share = share_of(time, addresses.len());
    let mut last = io::Error::from(ErrorKind::InvalidInput);
    for address in &addresses {
        match TcpStream::connect_timeout(rt, address, share) {
            Ok(stream) => return Ok(stream),
            Err(error) => last = error,
        }
    }
    Err(last)
}

/// Returns an equal share of `time` for each of `count`.
fn share_of(time: Duration, count: usize) -> Duration {
    match u32::try_from(count) {
        Ok(count) if count > 0 => time / count,
        _ => time,
    }
}

/// Listens on a Unix socket at this path. A socket that was left there, on which nobody listens, is replaced.
pub fn listen_unix<'a, 'p, A: Allocator + Copy, R: Files + Net + Clock>(
    alloc: A,
    rt: &'a R,
    path: &'p str,
) -> io::Result<Listening<'a, 'p, UnixListener, R, A>> {
    let listener = match UnixListener::bind(rt, path) {
        Err(error) if error.kind() == ErrorKind::AddrInUse && is_left_over(rt, path) => {
            fs::remove_file(rt, path)?;
            UnixListener::bind(rt, path)?
        }
        bound => bound?,
    };
    listener.set_nonblocking(true)?;
    Listening::new(alloc, rt, Some(path), listener)
}

/// Returns whether there is a socket at this path on which nobody listens.
fn is_left_over<R: Files + Net>(rt: &R, path: &str) -> bool {
    match fs::symlink_metadata(rt, path) {
        Ok(found) if found.file_type().is_socket() => (),
        _ => return false,
    }
    match mio::net::UnixStream::connect(rt, path) {
        Ok(_) => false,
        Err(error) => error.kind() == ErrorKind::ConnectionRefused,
    }
}

/// Listens on this TCP port of this host.
pub fn listen_tcp<'a, 'p, A, R>(
    alloc: A,
    rt: &'a R,
    host: &str,
    port: u16,
) -> io::Result<Listening<'a, 'p, TcpListener, R, A>>
where
    A: Allocator + Copy,
    R: Files + Net<Stream = TcpStream, Listener = TcpListener> + Clock,
{
    let listener = TcpListener::bind(rt, (host, port))?;
    listener.set_nonblocking(true)?;
    Listening::new(alloc, rt, None, listener)
}
