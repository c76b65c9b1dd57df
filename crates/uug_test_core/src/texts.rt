//! Tests of the texts of a session, each call made once with ample memory, because no clause says that a file finds
//! its memory. The theorems of `uug_talk` compute on worked texts what is read, written and heard.

use crate::assertions::{assert_same, assert_so};
use std::alloc::{Allocator, Global};
use std::process::Abort;
use uug_talk::{
    Answer, BadText, Chunks, FILE_LIMIT_MAX, Gather, Hail, Name, Order, Progress, caller_number,
    is_command_text, is_hail_text, read_answer, read_number, read_order, write_answer, write_call,
    write_hail, write_order,
};
use uug_test_alloc::Refusing;

fn is_order_written_as(order: &Order, text: &[u8]) -> bool {
    order.is_writable() && write_order(order).as_slice() == text
}

fn is_answer_written_as(answer: &Answer, text: &[u8]) -> bool {
    answer.is_writable() && write_answer(answer).as_slice() == text
}

#[test]
fn what_is_read_is_written(rt: HostRuntime) {
    let name = Name::new(b"x~!").expect(&rt, "a name");
    assert_same(&rt, name.as_bytes(), b"x~!".as_slice());
    match read_order(b"S x y u -C q 0644 n 12") {
        Ok(order) => assert_so(&rt, is_order_written_as(&order, b"S x y u -C q 0644")),
        Err(fault) => panic!(rt; "{fault}"),
    }
    match read_answer(b"RY 0644 x") {
        Ok(answer) => assert_so(&rt, is_answer_written_as(&answer, b"RY 0644")),
        Err(fault) => panic!(rt; "{fault}"),
    }
}

#[test]
fn a_file_that_is_given_without_a_mode_gets_one(rt: HostRuntime) {
    for text in [b"RY".as_slice(), b" RY ", b"RYx"] {
        assert_same(&rt, read_answer(text), Ok(Answer::GiveYes(0o666)));
    }
}

/// Numbers that the caller `a` keeps, and the text that it says.
const SAID: &[(Option<u32>, &[u8])] = &[
    (None, b"Sa"),
    (Some(0), b"Sa -Q0"),
    (Some(7), b"Sa -Q7"),
    (Some(4_294_967_295), b"Sa -Q4294967295"),
];

/// Texts of a caller, and the number that a called end reads in them.
const CALLS: &[(&[u8], Option<u32>)] = &[
    (b"Sa", None),
    (b"Sa -p -Q7 -Q8", Some(7)),
    (b"Sa  -Q0000000007", Some(7)),
    (b"Sa -Q4294967295", Some(4_294_967_295)),
    (b"Sa -Q4294967296 -Q5", Some(5)),
    (b"Sa -Q00000000007", None),
    (b"Sa -Q", None),
    (b"Sa -Q-7", None),
    // the number stands in another word
    (b"Sa -Q 7", None),
    (b"Sa -p-Q7", None),
    (b"Sa-Q7", None),
    (b"", None),
];

fn write_and_read_numbers(rt: &impl Abort) {
    let name = Name::new(b"a").expect(rt, "a name");
    for (number, text) in SAID {
        assert_same(rt, write_call(&name, *number).as_slice(), *text);
        assert_same(rt, caller_number(text), *number);
    }
}

#[test]
fn a_caller_writes_its_number_and_a_called_end_reads_it(rt: HostRuntime) {
    write_and_read_numbers(&rt);
    for (text, number) in CALLS {
        assert_same(&rt, (*text, caller_number(text)), (*text, *number));
    }
    assert_same(&rt, read_number(b"007", 6), None);
}

/// Pieces of a stream, the number of bytes used of each, the number that then wait, and whether a text is whole.
const HEARD: &[(&[u8], usize, usize, bool)] = &[
    (b"login:\x10S\x10S", 10, 2, false),
    (b"a\nzz", 2, 0, true),
    (b"zz", 0, 0, true),
];

fn hear(rt: &impl Abort, hail: &mut Hail) {
    for (piece, used, waiting, is_whole) in HEARD {
        let heard = hail.push(piece).expect(rt, "room for a text");
        let seen = (heard.0, hail.waiting(), hail.is_whole());
        assert_same(rt, seen, (*used, *waiting, *is_whole));
    }
    assert_so(rt, hail.is_whole() && hail.text() == b"Sa".as_slice());
    hail.clear();
    assert_so(rt, !hail.is_whole());
}

#[test]
fn handshake_texts_are_written_and_heard(rt: HostRuntime) {
    assert_so(&rt, is_hail_text(b"Sa"));
    assert_same(&rt, write_hail(b"Sa").as_slice(), b"\x10Sa\0".as_slice());
    hear(&rt, &mut Hail::new());
}

/// Pushes a message, unless the whole is there.
fn push<A: Allocator>(gather: &mut Gather<A>, message: &[u8]) -> Option<Result<Progress, BadText>> {
    if gather.is_whole() {
        return None;
    }
    Some(gather.push(message))
}

/// Pushes all the messages. Asserts that the last one makes the whole.
fn gather_all<A: Allocator>(rt: &impl Abort, gather: &mut Gather<A>, chunks: Chunks<'_>) {
    for message in chunks {
        assert_so(rt, matches!(push(gather, message.as_slice()), Some(Ok(_))));
    }
    assert_so(rt, gather.is_whole());
}

fn gathers_a_file(rt: &impl Abort, alloc: Global, bytes: &[u8]) {
    let mut file = Gather::file(alloc);
    gather_all(rt, &mut file, Chunks::file(bytes, 64));
    assert_same(rt, file.bytes(), bytes);
}

fn gathers_back(rt: &impl Abort, text: &[u8], chunks: Chunks<'_>) {
    let mut command = Gather::<Global>::command();
    gather_all(rt, &mut command, chunks);
    assert_same(rt, command.bytes(), text);
}

fn gathers_a_command(rt: &impl Abort, text: &[u8]) {
    assert_so(rt, is_command_text(text));
    gathers_back(rt, text, Chunks::command(text, 64));
    gathers_back(rt, text, Chunks::short_command(text, 64));
}

#[test]
fn what_is_cut_is_gathered(rt: HostRuntime) {
    let bytes = [b'x'; 100];
    for len in [0, 63, 64, 100] {
        gathers_a_file(&rt, rt.alloc(), &bytes[..len]);
        gathers_a_command(&rt, &bytes[..len]);
    }
}

/// Gathers the longest file, in the longest messages.
fn gather_longest(rt: &impl Abort, file: &mut Gather<Global>) {
    for _ in 0..256 {
        assert_same(rt, push(file, &[b'f'; 4096]), Some(Ok(Progress::More)));
    }
    assert_same(rt, file.bytes().len(), 1_048_576);
}

#[test]
fn a_file_has_at_most_1048576_bytes(rt: HostRuntime) {
    let mut file = Gather::file(rt.alloc());
    gather_longest(&rt, &mut file);
    assert_same(&rt, push(&mut file, b"f"), Some(Err(BadText::TooLong)));
    assert_same(&rt, file.bytes().len(), 1_048_576);
    assert_same(&rt, push(&mut file, b""), Some(Ok(Progress::Whole)));
    assert_so(&rt, file.bytes().iter().all(|byte| *byte == b'f'));
}

/// Starts a gatherer of a file of `len` bytes with `front` bytes held, and gathers the rest. The file may have `limit`
/// bytes. Returns the number of bytes gathered, or the error.
fn goes_on(
    rt: &impl Abort,
    alloc: Global,
    len: usize,
    front: usize,
    limit: usize,
) -> Result<usize, BadText> {
    let bytes = vec![in alloc; b'f'; len].expect(rt, "memory");
    let held = vec![in alloc; b'f'; front].expect(rt, "memory");
    let mut file = Gather::file_from(held, limit.max(1).min(FILE_LIMIT_MAX));
    let rest = bytes.as_slice().get(front..).unwrap_or(&[]);
    for message in Chunks::file(rest, 4096) {
        if let Some(Err(fault)) = push(&mut file, message.as_slice()) {
            return Err(fault);
        }
    }
    assert_so(rt, file.is_whole());
    let Some(whole) = file.into_file() else {
        panic!(rt; "a command");
    };
    assert_so(rt, whole.as_slice() == bytes.as_slice());
    Ok(whole.len())
}

#[test]
fn a_file_goes_on_behind_held_bytes_up_to_its_limit(rt: HostRuntime) {
    for limit in [1usize, 100, 1_048_576] {
        for front in [0, 1] {
            for len in [limit.saturating_sub(1), limit] {
                let front = front.min(len);
                assert_same(&rt, goes_on(&rt, rt.alloc(), len, front, limit), Ok(len));
            }
            let beyond = goes_on(&rt, rt.alloc(), limit.saturating_add(1), front, limit);
            assert_same(&rt, beyond, Err(BadText::TooLong));
        }
    }
}

#[test]
fn a_command_is_no_file(rt: HostRuntime) {
    assert_so(&rt, Gather::<Global>::command().into_file().is_none());
}

/// Pushes a text as long as a command may be, in messages of 32 bytes, and then this message. Returns its answer.
fn longest_and(message: &[u8]) -> Option<Result<Progress, BadText>> {
    let mut command = Gather::<Global>::command();
    for _ in 0..128 {
        push(&mut command, &[b'x'; 32]);
    }
    push(&mut command, message)
}

#[test]
fn a_command_has_at_most_4096_bytes(rt: HostRuntime) {
    assert_same(&rt, longest_and(&[0; 32]), Some(Ok(Progress::Whole)));
    assert_same(&rt, longest_and(&[b'x'; 32]), Some(Err(BadText::TooLong)));
}

/// Asserts that a file's message makes one request. If it is refused, nothing changes, and the message is taken when
/// it is pushed again. The end of a file makes no request.
fn refuse_a_message(
    rt: &impl Abort,
    heap: &Refusing<Global>,
    gather: &mut Gather<&Refusing<Global>>,
) {
    heap.refuse(1);
    let bytes = b"0123456789";
    assert_same(rt, push(gather, bytes), Some(Err(BadText::Memory)));
    assert_same(rt, push(gather, bytes), Some(Ok(Progress::More)));
    assert_same(rt, push(gather, bytes), Some(Ok(Progress::More)));
    assert_same(rt, push(gather, b""), Some(Ok(Progress::Whole)));
    assert_same(rt, gather.bytes(), b"01234567890123456789".as_slice());
    assert_same(rt, heap.requests(), 3);
}

#[test]
fn memory_is_refused(rt: HostRuntime) {
    let heap = Refusing::new(rt.alloc(), 0);
    refuse_a_message(&rt, &heap, &mut Gather::file(&heap));
}
