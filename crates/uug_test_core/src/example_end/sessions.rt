//! Sessions of a caller with nothing to send. The texts and the packet are worked by hand from the manual.

use super::talk;
use std::alloc::Global;
use std::test::Fail;
use uug_link::Announce;
use uug_session::{End, MemorySpool, Node, Phase, Place, Queue};
use uug_talk::Name;

/// The input in pieces, the expected output, and the way the session ends.
const SESSIONS: [(&[&[u8]], &[u8], End); 3] = [
    // the link begins with the caller's INITA, of window 2, and the line is gone
    (
        &[b"login:\x10Shere=b\0", b"\x10ROK\0\x10Pg\0"],
        b"\x10Sa\0\x10Ug\0\x10\x09\x70\xaa\x3a\xe9",
        End::HungUp,
    ),
    (&[b"\x10Shere=c\0", b"\x10ROK\0"], b"", End::WrongName),
    (&[b"", b"", b"", b"", b"", b"", b"", b""], b"", End::GaveUp),
];

fn place() -> Result<Place, Fail> {
    Ok(Place {
        me: Name::new(b"a")?,
        peer: Name::new(b"b")?,
        announce: Announce::new(2, 32)?,
        number: None,
    })
}

/// Runs the session. Returns what the caller writes, and its phase afterwards.
fn session(alloc: Global, pieces: &[&[u8]]) -> Result<(Vec<u8, Global>, Phase), Fail> {
    let (queue, spool) = (Queue::new(alloc), MemorySpool::new(alloc));
    let node = Node::caller(alloc, place()?, queue, spool);
    let mut node = node.ok().ok_or("an end")?;
    let mut written = Vec::new(alloc);
    talk(&mut node, pieces, &mut written)?;
    Ok((written, node.phase()))
}

#[test]
fn ends_each_session(rt: HostRuntime) -> Result<(), Fail> {
    for (pieces, expected, end) in SESSIONS {
        let (written, phase) = session(rt.alloc(), pieces)?;
        assert_eq!(rt; written.as_slice(), expected);
        assert_eq!(rt; phase, Phase::Ended(end));
    }
    Ok(())
}
