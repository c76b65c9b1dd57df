//! Laws of the packets. Each is the contract of a function that does nothing.

ghost use Rattle.std.specs.Prelude.{◌≡◌, ℕ, ◌<◌, ◌≤◌, List, ◌++◌, length, take, Ok, Err, ◌⊎◌};
ghost use Rattle.uug_packet.specs.declared.packet.TheConstants.{PACKET_MAX};
ghost use Rattle.uug_packet.specs.Bytes.{AreBytes};
ghost use Rattle.uug_packet.specs.Decoded.{decoded};
ghost use Rattle.uug_packet.specs.Message.{message_if_data, message_in};
ghost use Rattle.uug_packet.specs.Packet.{PacketValue};
ghost use Rattle.uug_packet.specs.Spelling.{IsSpelling, canonical};
ghost use Rattle.uug_packet.specs.Waits.{IsBroken, IsDamage, Waits};
ghost use Rattle.uug_packet.specs.WellFormed.{IsWellFormed};

use crate::decoding::NoPacket;

/// States the limit of a packet in numbers. Waiting bytes are fewer.
pub fn limits()
    ensures packet { PACKET_MAX ≡ 4102 }
    ensures waits { (s : List ℕ) → Waits s → length s < PACKET_MAX }
{}

/// States that no spelling is a prefix of a different spelling, and that no list of bytes spells two packets.
pub fn one_spelling()
    ensures { (p q : PacketValue) (w v x y : List ℕ) →
        IsSpelling p w → IsSpelling q v → w ++ x ≡ v ++ y → (p ≡ q) × (w ≡ v) }
{}

/// States that the written bytes are a spelling. So they are read back, whatever follows them.
pub fn written_is_read()
    ensures spelled { (p : PacketValue) (w : List ℕ) → IsSpelling p w → IsSpelling p (canonical p) }
    ensures read { (p : PacketValue) (w rest : List ℕ) → IsSpelling p w →
        decoded (canonical p ++ rest) ≡ Ok (p, length (canonical p)) }
{}

/// States that reading a packet's bytes with no check gives its message.
pub fn messages_are_read()
    ensures spelled { (p : PacketValue) (w : List ℕ) → IsSpelling p w
        → message_in w ≡ message_if_data p }
    ensures written { (p : PacketValue) → IsWellFormed p
        → message_in (canonical p) ≡ message_if_data p }
{}

/// States that a packet that is spelled or read is well-formed, and that each well-formed packet is written and read
/// back.
pub fn packets_are_well_formed()
    ensures spelled { (p : PacketValue) (w : List ℕ) → IsSpelling p w → IsWellFormed p }
    ensures decoded { (s : List ℕ) (p : PacketValue) (n : ℕ) → decoded s ≡ Ok (p, n)
        → IsWellFormed p }
    ensures written { (p : PacketValue) → IsWellFormed p → IsSpelling p (canonical p) }
    ensures read { (p : PacketValue) → IsWellFormed p
        → decoded (canonical p) ≡ Ok (p, length (canonical p)) }
{}

/// States that the function of the tests in their order agrees with the spellings, with waiting bytes and with broken
/// ones.
pub fn decoded_is_spelled()
    ensures read { (p : PacketValue) (w rest : List ℕ) → IsSpelling p w
        → decoded (w ++ rest) ≡ Ok (p, length w) }
    ensures spelled { (s : List ℕ) (p : PacketValue) (n : ℕ) → AreBytes s → decoded s ≡ Ok (p, n) →
        IsSpelling p (take n s) × (n ≤ length s) }
    ensures waits { (s : List ℕ) → Waits s → decoded s ≡ Err NoPacket.Short }
    ensures short { (s : List ℕ) → AreBytes s → decoded s ≡ Err NoPacket.Short → Waits s }
    ensures broken { (s : List ℕ) → AreBytes s → IsBroken s
        → (e : NoPacket) × (decoded s ≡ Err e) × IsDamage e s }
    ensures damage { (s : List ℕ) (e : NoPacket) → AreBytes s → decoded s ≡ Err e → IsDamage e s
        → IsBroken s }
{}

/// States that a decided case stays decided when more bytes follow. Only waiting bytes can still become a packet.
pub fn waiting_is_undecided()
    // The front of bytes that wait waits, and so does each spelling that is cut.
    ensures shorter { (s t : List ℕ) → Waits (s ++ t) → Waits s }
    ensures cut { (p : PacketValue) (s t : List ℕ) → IsSpelling p (s ++ t) → 0 < length t
        → Waits s }
    // A packet, or a broken one, doesn't wait, and a broken one stays broken.
    ensures packet { (p : PacketValue) (w t : List ℕ) → IsSpelling p w → Waits (w ++ t) → ⊥ }
    ensures broken { (s : List ℕ) → IsBroken s → Waits s → ⊥ }
    ensures longer { (s t : List ℕ) → IsBroken s → IsBroken (s ++ t) }
    // If bytes begin with a packet, their front waits or begins with it. A front that doesn't wait is broken where
    // they are.
    ensures front { (p : PacketValue) (w more s t : List ℕ) → IsSpelling p w → s ++ t ≡ w ++ more →
        Waits s ⊎ ((others : List ℕ) × (s ≡ w ++ others)) }
    ensures settled { (s t : List ℕ) → (Waits s → ⊥) → IsBroken (s ++ t) → IsBroken s }
{}
