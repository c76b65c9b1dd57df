//! An end over whose line a script speaks.
ghost use Rattle.std.specs.Prelude.{◌≤◌};

use super::line::{Hand, Line};
use super::{Given, Left, MemoryNode, Side, assert_lists, end, place};
use crate::assertions::{assert_same, assert_so};
use arrayvec::ArrayVec;
use std::alloc::{Allocator, Global};
use std::process::Abort;
use uug_packet::{Control, FIELD_CODE_MAX, Packet, Seq, encode, field_size};
use uug_session::{Node, Phase, Spool};

/// An item that goes over the line.
#[derive(Clone, Copy)]
pub(super) enum Wire<'a> {
    Bytes(&'a [u8]),
    Text(&'a [u8]),
    InitA(u8),
    InitB(u8),
    InitC(u8),
    Close,
    Rr(u8),
    Rj(u8),
    /// A data packet with a field of 32 bytes: its number, the number that it acknowledges, and its message.
    Data(u8, u8, &'a [u8]),
    /// A command or an answer of less than 32 bytes, in a field of 32.
    Command(u8, u8, &'a [u8]),
    /// `Data` with a field of 4,096 bytes. `WideCommand` is `Command` with one.
    Wide(u8, u8, &'a [u8]),
    WideCommand(u8, u8, &'a [u8]),
    /// The number of full messages, the code of their size, the number of the first, and what they acknowledge.
    Flood(u16, u8, u8, u8),
    /// The number of acknowledgements, and the number of the first.
    RrFlood(u16, u8),
}

pub(super) const SILENCE: &[Wire<'static>] = &[];

/// An event at an end.
#[derive(Clone, Copy)]
pub(super) enum Act<'a> {
    Hear(&'a [Wire<'a>]),
    /// Nothing comes for some time. The end then counts this many timeouts in a row.
    Timeout(u8),
    CallAgain,
}

/// An event, and what the end then emits.
pub(super) type Row<'a> = (Act<'a>, &'a [Wire<'a>]);

/// An end, and the beginning of its session.
#[derive(Clone, Copy)]
pub(super) struct Start<'a> {
    pub(super) side: Side,
    pub(super) size: usize,
    pub(super) rows: &'a [Row<'a>],
}

/// The beginning of a session, the end's items, what then happens, the end's phase after it, and what is left.
#[derive(Clone, Copy)]
pub(super) struct Script<'a> {
    pub(super) start: Start<'a>,
    pub(super) has: &'a [Given<'a>],
    pub(super) rows: &'a [Row<'a>],
    pub(super) phase: Phase,
    pub(super) left: &'a [Left<'a>],
}

/// Makes a packet number, modulo eight.
fn number(value: u8) -> Seq {
    match Seq::new(value % 8) {
        Some(number) => number,
        None => unreachable!(),
    }
}

fn spell(rt: &impl Abort, wire: Wire<'_>, line: &mut Vec<u8>) {
    let control = match wire {
        Wire::Bytes(bytes) => return add(rt, bytes, line),
        Wire::Text(text) => return spell_text(rt, text, line),
        Wire::Data(seq, ack, message) => return spell_data(rt, (1, seq, ack), message, line),
        Wire::Flood(count, k, seq, ack) => return spell_flood(rt, count, (k, seq, ack), line),
        Wire::RrFlood(count, seq) => return spell_answers(rt, count, seq, line),
        Wire::Command(seq, ack, text) => return spell_command(rt, (1, seq, ack), text, line),
        Wire::Wide(seq, ack, message) => return spell_data(rt, (8, seq, ack), message, line),
        Wire::WideCommand(seq, ack, text) => return spell_command(rt, (8, seq, ack), text, line),
        Wire::InitA(window) => Control::InitA(number(window)),
        Wire::InitB(size_code) => Control::InitB(number(size_code)),
        Wire::InitC(window) => Control::InitC(number(window)),
        Wire::Close => Control::Close,
        Wire::Rr(value) => Control::Rr(number(value)),
        Wire::Rj(value) => Control::Rj(number(value)),
    };
    spell_control(rt, control, line);
}

fn add(rt: &impl Abort, bytes: &[u8], line: &mut Vec<u8>) {
    line.extend_from_slice(bytes).expect(rt, "memory for bytes");
}

fn spell_control(rt: &impl Abort, control: Control, line: &mut Vec<u8>) {
    let mut bytes = ArrayVec::new();
    encode(&Packet::Control(control), &mut bytes);
    add(rt, &bytes, line);
}

fn spell_answers(rt: &impl Abort, count: u16, seq: u8, line: &mut Vec<u8>) {
    for i in 0..count {
        let value = seq.wrapping_add((i % 8) as u8);
        spell_control(rt, Control::Rr(number(value)), line);
    }
}

fn spell_text(rt: &impl Abort, text: &[u8], line: &mut Vec<u8>) {
    add(rt, &[0x10], line);
    add(rt, text, line);
    add(rt, &[0], line);
}

/// The values before a message: the code of its field's size, its number, and the number that it acknowledges.
type Front = (u8, u8, u8);

/// Returns the size of a field of this code.
fn size_of(rt: &impl Abort, k: u8) -> usize
    ensures most { result ≤ 4096 }
{
    if k < 1 || k > FIELD_CODE_MAX {
        panic!(rt; "no code of a size");
    }
    field_size(k)
}

/// Writes a text, followed by zeros that fill the field.
fn spell_command(rt: &impl Abort, front: Front, text: &[u8], line: &mut Vec<u8>) {
    let size = size_of(rt, front.0);
    assert_so(rt, text.len() < size);
    let len = text.len().min(4096);
    let mut field = [0; 4096];
    field[..len].copy_from_slice(&text[..len]);
    spell_data(rt, front, &field[..size], line);
}

fn spell_data(rt: &impl Abort, (k, seq, ack): Front, message: &[u8], line: &mut Vec<u8>) {
    if k < 1 || k > FIELD_CODE_MAX || message.len() > field_size(k) {
        panic!(rt; "a message that is too long");
    }
    let packet = Packet::Carry {
        seq: number(seq),
        ack: number(ack),
        k,
        message,
    };
    let mut bytes = ArrayVec::new();
    encode(&packet, &mut bytes);
    add(rt, &bytes, line);
}

fn spell_flood(rt: &impl Abort, count: u16, (k, seq, ack): Front, line: &mut Vec<u8>) {
    let message = &[b'f'; 4096][..size_of(rt, k)];
    for i in 0..count {
        let front = (k, seq.wrapping_add((i % 8) as u8), ack);
        spell_data(rt, front, message, line);
    }
}

fn spelled(rt: &impl Abort, log: Global, wires: &[Wire<'_>]) -> Vec<u8> {
    let mut line = Vec::new(log);
    for wire in wires {
        spell(rt, *wire, &mut line);
    }
    line
}

/// Asserts that the end has emitted exactly this.
pub(super) fn assert_says<S: Spool, A: Allocator + Copy>(
    rt: &impl Abort,
    log: Global,
    node: &Node<S, A>,
    wires: &[Wire<'_>],
) {
    let line = spelled(rt, log, wires);
    assert_same(rt, node.outbox().bytes(), line.as_slice());
}

fn hear(
    rt: &impl Abort,
    log: Global,
    node: &mut MemoryNode<Global>,
    line: &mut Line,
    wires: &[Wire<'_>],
) {
    let bytes = spelled(rt, log, wires);
    line.bring(rt, bytes.as_slice(), node);
}

/// Follows the rows, and clears what the end says in each.
fn follow_on(
    rt: &impl Abort,
    log: Global,
    node: &mut MemoryNode<Global>,
    line: &mut Line,
    rows: &[Row<'_>],
) {
    for (comes, says) in rows {
        match comes {
            Act::Hear(wires) => hear(rt, log, node, line, wires),
            Act::Timeout(counted) => {
                line.time_out(rt, node);
                assert_same(rt, node.timeouts(), *counted);
            }
            Act::CallAgain => {
                node.hang_up();
                node.hold_what_is_left().expect(rt, "memory");
                line.call_again(rt, node);
            }
        }
        assert_says(rt, log, node, says);
        node.clear_outbox();
    }
}

pub(super) fn follow(
    rt: &impl Abort,
    log: Global,
    node: &mut MemoryNode<Global>,
    rows: &[Row<'_>],
) {
    let mut line = Line::new(log, Hand::Pieces(usize::MAX));
    follow_on(rt, log, node, &mut line, rows);
}

pub(super) fn play_all(rt: &impl Abort, alloc: Global, scripts: &[Script<'_>]) {
    for script in scripts {
        script.play(rt, alloc);
    }
}

impl Script<'_> {
    pub(super) fn play(&self, rt: &impl Abort, alloc: Global) {
        let place = place(rt, self.start.side, self.start.size);
        let mut node = end(rt, alloc, self.start.side, place, self.has);
        self.play_on(rt, alloc, &mut node);
        drop(node);
    }

    fn play_on(&self, rt: &impl Abort, log: Global, node: &mut MemoryNode<Global>) {
        follow(rt, log, node, self.start.rows);
        follow(rt, log, node, self.rows);
        assert_same(rt, node.phase(), self.phase);
        assert_lists(rt, node.queue(), node.spool().stored(), self.left);
    }
}
