use std::io;
use std::io::{Read, Write};
use std::net::TcpStream;
use std::os::unix::net::UnixStream;
use std::time::Duration;

/// A stream with a timeout for its calls.
pub trait TimedStream: Read + Write {
    /// Sets how long its reads and its writes wait at most.
    fn set_time(&self, time: Duration) -> io::Result<()>;

    /// Returns whether a blocking read also wakes up when the other end reads what was written to it.
    fn is_woken_for_nothing(&self) -> bool;
}

impl TimedStream for UnixStream {
    fn set_time(&self, time: Duration) -> io::Result<()> {
        self.set_read_timeout(Some(time))?;
        self.set_write_timeout(Some(time))
    }

    fn is_woken_for_nothing(&self) -> bool {
        true
    }
}

impl TimedStream for TcpStream {
    fn set_time(&self, time: Duration) -> io::Result<()> {
        self.set_read_timeout(Some(time))?;
        self.set_write_timeout(Some(time))
    }

    fn is_woken_for_nothing(&self) -> bool {
        false
    }
}
