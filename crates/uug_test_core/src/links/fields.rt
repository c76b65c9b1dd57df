//! The fields in which messages go out, byte by byte, if the other end has announced the greatest size.

use super::{Call, NOTHING, Row, Wire, announce, follow, make};
use crate::assertions::assert_same;
use std::alloc::Global;
use std::process::Abort;
use uug_link::{Link, Outbox, Outcome};

/// The start-up of a called end.
const COMES_UP: &[Row<'static>] = &[
    (Call::Hear(Wire::InitA(7)), &[Wire::InitA(2)], NOTHING, 0),
    (Call::Hear(Wire::InitB(7)), &[Wire::InitB(0)], NOTHING, 0),
    (
        Call::Hear(Wire::InitC(7)),
        &[Wire::InitC(2)],
        Ok(Outcome::Up),
        0,
    ),
];

/// The number of zeros in a message, the first eight bytes of its packet, and the packet's size. The eight bytes are
/// the header and two bytes of the field.
type Field = (usize, [u8; 8], usize);

const FIELDS: &[Field] = &[
    (0, [0x10, 1, 0xa1, 0x0e, 0xc8, 0x66, 0x20, 0], 38),
    (32, [0x10, 1, 0x0d, 0x3a, 0x88, 0xbe, 0, 0], 38),
    (33, [0x10, 2, 0xb6, 0xc4, 0xc8, 0xb8, 0x1f, 0], 70),
    (257, [0x10, 5, 0x80, 0x0b, 0xc8, 0x46, 0xff, 0x01], 518),
    (2048, [0x10, 7, 0xa6, 0x7a, 0x88, 0x53, 0, 0], 2054),
    (2049, [0x10, 8, 0xd4, 0x01, 0xc8, 0x15, 0xff, 0x0f], 4102),
];

/// Asserts that the first message of a link goes out with these bytes, and again at a timeout. The rest of its field
/// is zeros.
fn assert_goes_out(rt: &impl Abort, alloc: Global, link: &mut Link, field: &Field) {
    let (len, front, size) = *field;
    let mut bytes = [0; 4102];
    bytes[..8].copy_from_slice(&front);
    let bytes = &bytes[..size.min(4102)];
    let message = &[0; 4096][..len.min(4096)];
    assert_emits(rt, alloc, link, Call::Send(message), bytes);
    assert_emits(rt, alloc, link, Call::Timeout, bytes);
}

/// Asserts that the call emits one packet, with these bytes.
fn assert_emits(rt: &impl Abort, alloc: Global, link: &mut Link, call: Call<'_>, bytes: &[u8]) {
    let mut out = Outbox::new(alloc);
    assert_same(rt, make(call, link, &mut out), NOTHING);
    assert_same(rt, (out.len(), out.bytes()), (1, bytes));
}

#[test]
fn messages_go_out_in_the_smallest_field(rt: HostRuntime) {
    let own = announce(&rt, 2, 32);
    for field in FIELDS {
        let mut link = Link::called(own);
        follow(&rt, rt.alloc(), &mut link, COMES_UP);
        assert_goes_out(&rt, rt.alloc(), &mut link, field);
    }
}
