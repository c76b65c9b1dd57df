//! Laws of a run's definitions. The functions do nothing.
ghost use Rattle.std.specs.Prelude.{◌≡◌, ◌↔◌, ℕ, List, [], ◌∷◌, ◌++◌, None};
ghost use Rattle.uug_line.specs.WereSent.{HavePlaces, StandAt, WereSent, passed_at};
ghost use Rattle.uug_link.specs.Arrivals.{IsPlace, place_of};
ghost use Rattle.uug_packet.specs.Packet.{PacketValue};

/// States that the places of the packets that an end finds are well chosen. The places are among the packets that the
/// other end has emitted, each the least after the one before. No other choice of places would do where this one
/// doesn't. A packet has no place left exactly where it, and those found before it, are not all among those sent up to
/// now, in this order and none more often.
pub fn least_places_are_the_right_choice()
    // The least places are such places, and where there are any, there are the least ones.
    ensures least { (found emitted : List PacketValue) (places : List ℕ)
        → HavePlaces found places emitted 0 → StandAt found places emitted 0 }
    ensures any { (found emitted : List PacketValue)
        → WereSent found emitted → (places : List ℕ) × HavePlaces found places emitted 0 }
    // They are given one after the other, and stay the least ones when more is emitted.
    ensures next { (found emitted : List PacketValue) (places : List ℕ) (p : PacketValue) (i : ℕ)
        → HavePlaces found places emitted 0 → IsPlace p emitted (passed_at places 0) i
        → HavePlaces (found ++ p ∷ []) (places ++ i ∷ []) emitted 0 }
    ensures later { (found emitted more : List PacketValue) (places : List ℕ)
        → HavePlaces found places emitted 0 → HavePlaces found places (emitted ++ more) 0 }
    // So a packet that has no place behind them was not sent, and only such a packet has none.
    ensures none { (found emitted : List PacketValue) (places : List ℕ) (p : PacketValue)
        → HavePlaces found places emitted 0
        → (place_of p emitted (passed_at places 0) ≡ None)
        ↔ (WereSent (found ++ p ∷ []) emitted → ⊥) }
{}
