//! A line over streams that are at their end.

use crate::pairs::assertions::assert_same;
use std::io;
use uug_io_line::WireLine;
use uug_session::Side;
use uug_transfer::{Line, LineFailed};

// a line that takes the end of a stream for a read of nothing
#[test]
fn fails_where_a_stream_ends(rt: HostRuntime) {
    let mut line = WireLine::new(io::empty(), io::empty());
    assert_same(&rt, line.write(Side::Caller, b"abc"), Ok(3));
    if line.unread(Side::Caller) > 0 {
        assert_same(&rt, line.read(Side::Caller, &mut [0; 8]), Err(LineFailed));
    }
    assert_same(&rt, line.faults(), 1);
}
