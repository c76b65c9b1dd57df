ghost use Rattle.std.specs.Prelude.{◌≡◌, ℕ, List, ◌+◌, ◌-◌, ◌^◌, ◌<◌, ◌≤◌, ◌++◌, length, drop, replicate};
ghost use Rattle.arrayvec.specs.ArrayVec.{array_vec_len};
ghost use Rattle.uug_packet.specs.Field.{canonical_field, canonical_front, canonical_kind};
ghost use Rattle.uug_packet.specs.Number.{number_of};
ghost use Rattle.uug_packet.specs.Packet.{carry, control, shown, shown_control};
ghost use Rattle.uug_packet.specs.Spelling.{canonical, control_byte, data_byte, header_of, IsSpelling, IsWritable};
ghost use Rattle.uug_packet.specs.WellFormed.{IsWellFormed, IsWrittenCarry};

use crate::checksum::{check, checksum_of};
use crate::control::Control;
use crate::field::{FIELD_MIN, FieldKind, ONE_BYTE_MAX, field_size};
use crate::header::{CONTROL_K, HEADER_SIZE, Header};
use crate::number::Seq;
use crate::packet::{PACKET_MAX, Packet};
use arrayvec::ArrayVec;

/// Writes the packet: `out` then holds its canonical spelling and nothing else.
///
/// In a data packet, `k` is 1 to 8 and the message has at most `2^(k+4)` bytes.
pub fn encode(packet: &Packet<'_>, out: &mut ArrayVec<u8, PACKET_MAX>)
    requires { IsWritable (shown packet.now) }
    ensures canonical { out.new.items ≡ canonical (shown packet.now) }
    ensures spelled { IsSpelling (shown packet.now) out.new.items }
{
    match packet {
        Packet::Control(control) => encode_control(*control, out),
        Packet::Carry {
            seq,
            ack,
            k,
            message,
        } => encode_data(*seq, *ack, *k, message, out),
    }
}

/// Changes the acknowledgement of the data packet that is written in the vector. Only its header changes.
pub fn re_ack(written: &mut ArrayVec<u8, PACKET_MAX>, ack: Seq)
    requires { IsWrittenCarry written.old.items }
    ensures { (seq old k : ℕ) (message : List ℕ) → IsWellFormed (carry seq old k message) →
        written.old.items ≡ canonical (carry seq old k message) →
        written.new.items ≡ canonical (carry seq (number_of ack) k message) }
{
    let header = Header::at(written.as_slice());
    set_header(header.acknowledging(ack), written);
}

/// Returns the control packet as written: `encode` without a vector.
pub fn control_packet(packet: Control) -> [u8; HEADER_SIZE]
    ensures { result ≡ canonical (control (shown_control packet)) }
{
    let control = control_byte(packet);
    let header = Header {
        k: CONTROL_K,
        checksum: checksum_of(u16::from(control)),
        control,
    };
    let mut bytes = [0; HEADER_SIZE];
    header.write(&mut bytes);
    bytes
}

fn encode_control(packet: Control, out: &mut ArrayVec<u8, PACKET_MAX>)
    ensures { out.new.items ≡ canonical (control (shown_control packet)) }
{
    out.clear();
    append(&control_packet(packet), out);
}

fn encode_data(seq: Seq, ack: Seq, k: u8, message: &[u8], out: &mut ArrayVec<u8, PACKET_MAX>)
    requires { IsWritable (carry (number_of seq) (number_of ack) k message.now) }
    ensures { out.new.items ≡ canonical (carry (number_of seq) (number_of ack) k message.now) }
{
    let size = field_size(k);
    let kind = if message.len() == size {
        FieldKind::Long
    } else {
        FieldKind::Short
    };
    clear_for_header(out);
    append_field(size, message, out);
    let control = data_byte(kind, seq, ack);
    let header = Header {
        k,
        checksum: checksum_of(check(&out[HEADER_SIZE..]) ^ u16::from(control)),
        control,
    };
    set_header(header, out);
}

/// Clears the vector, and leaves room for the header, which is known last.
fn clear_for_header(out: &mut ArrayVec<u8, PACKET_MAX>)
    ensures { out.new.items ≡ replicate HEADER_SIZE 0 }
{
    out.clear();
    append(&[0; HEADER_SIZE], out);
}

/// Writes the header over the first bytes.
#[tactic(auto, using(crate::proofs::EncodeLemmas::refill_whole))]
fn set_header(header: Header, out: &mut ArrayVec<u8, PACKET_MAX>)
    requires { HEADER_SIZE ≤ array_vec_len out.old }
    ensures { out.new.items ≡ header_of header ++ drop HEADER_SIZE out.old.items }
{
    header.write(out.as_mut_slice());
}

/// Appends the field that holds the message, with zeros as padding.
fn append_field(size: usize, message: &[u8], out: &mut ArrayVec<u8, PACKET_MAX>)
    requires fits { length message.now ≤ size }
    requires room { array_vec_len out.old + size ≤ PACKET_MAX }
    requires least { FIELD_MIN ≤ size }
    ensures { out.new.items ≡ out.old.items ++ canonical_field size message.now }
{
    let missing = size - message.len();
    let front = append_front(missing, out);
    append(message, out);
    append_zeros(missing - front, out);
}

fn append_zeros(count: usize, out: &mut ArrayVec<u8, PACKET_MAX>)
    requires { array_vec_len out.old + count ≤ PACKET_MAX }
    ensures { out.new.items ≡ out.old.items ++ replicate count 0 }
{
    'zeros: for _ in 0..count {
        out.push(0);
    }
}

/// Appends the number of missing bytes of a field, if any are missing. Returns how many bytes that took.
fn append_front(missing: usize, out: &mut ArrayVec<u8, PACKET_MAX>) -> usize
    requires few { missing < 2 ^ 15 }
    requires room { array_vec_len out.old + 2 ≤ PACKET_MAX }
    ensures written { out.new.items ≡ out.old.items ++ canonical_front missing }
    ensures count { result ≡ length (canonical_front missing) }
{
    if missing == 0 {
        0
    } else if missing <= usize::from(ONE_BYTE_MAX) {
        out.push(missing as u8);
        1
    } else {
        out.push((128 + missing % 128) as u8);
        out.push((missing / 128) as u8);
        2
    }
}

fn append(bytes: &[u8], out: &mut ArrayVec<u8, PACKET_MAX>)
    requires { array_vec_len out.old + length bytes.now ≤ PACKET_MAX }
    ensures { out.new.items ≡ out.old.items ++ bytes.now }
{
    if out.try_extend_from_slice(bytes).is_err() {
        unreachable!()
    }
}

fn control_byte(packet: Control) -> u8
    ensures { result ≡ control_byte (shown_control packet) }
{
    let (kind, number) = match packet {
        Control::Close => (1, 0),
        Control::Rj(y) => (2, y.value()),
        Control::Srj(y) => (3, y.value()),
        Control::Rr(y) => (4, y.value()),
        Control::InitC(y) => (5, y.value()),
        Control::InitB(y) => (6, y.value()),
        Control::InitA(y) => (7, y.value()),
    };
    8 * kind + number
}

fn data_byte(kind: FieldKind, seq: Seq, ack: Seq) -> u8
    ensures { result ≡ data_byte kind (number_of seq) (number_of ack) }
{
    let kind = match kind {
        FieldKind::Long => 2,
        FieldKind::Short => 3,
    };
    64 * kind + 8 * seq.value() + ack.value()
}
