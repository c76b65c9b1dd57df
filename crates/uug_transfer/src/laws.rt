//! Laws of ends at a line. A call does nothing: its contract is the law.
ghost use Rattle.std.specs.Prelude.{◌≡◌, ◌⊎◌, ℕ, ◌<◌, List, length, map, false, true, None};
ghost use Rattle.std.specs.List.{list_any};
ghost use Rattle.uug_link.specs.Entries.{EntryValue, text};
ghost use Rattle.uug_packet.specs.declared.header.TheConstants.{HEADER_SIZE};
ghost use Rattle.uug_session.specs.EndStep.{Emitted};
ghost use Rattle.uug_session.specs.Engine.{entry_of};
ghost use Rattle.uug_transfer.specs.Listening.{all_said};
ghost use Rattle.uug_transfer.specs.Outgoing.{emitted_bytes, outgoing_from};
ghost use Rattle.uug_transfer.specs.Thinning.{IsLetThrough, RemainsData, RemainsRr, is_left_out, is_packet, is_rr, thinned};
ghost use Rattle.uug_transfer.specs.Writing.{all_thinned};
ghost use Rattle.uug_transfer.specs.declared.fault_injector.TheConstants.{EVERY_MAX, EVERY_MIN};
ghost use Rattle.uug_transfer.specs.declared.line.TheConstants.{UNREAD_MAX};
ghost use Rattle.uug_transfer.specs.declared.patience.TheConstants.{GREETING_SECONDS, GREETING_TIMERS, SESSION_TIMERS};
ghost use Rattle.uug_transfer.specs.declared.read_budget.TheConstants.{BYTES_MAX, READ_MAX, SILENCES_MAX, STALLS_MAX};
ghost use Rattle.uug_transfer.specs.declared.thinning.Thinning.{Thinning};
ghost use Rattle.uug_transfer.specs.declared.timer.TheConstants.{SPEED_MAX, SPEED_MIN};

/// States the value of each limit: bytes on their way to an end of a pair, and bytes per read of a call; bytes of a
/// session, and silent reads and writes in a row; seconds and timers of the greeting, and timers without progress; the
/// N of every Nth packet; and the speed of a line in bits a second.
pub fn limits()
    ensures unread { UNREAD_MAX ≡ 4096 }
    ensures read { READ_MAX ≡ 8192 }
    ensures bytes { BYTES_MAX ≡ 1099511627776 }
    ensures silences { (SILENCES_MAX ≡ 9) × (STALLS_MAX ≡ 8) }
    ensures greeting { (GREETING_SECONDS ≡ 60) × (GREETING_TIMERS ≡ 6) }
    ensures session { SESSION_TIMERS ≡ 20 }
    ensures every { (EVERY_MIN ≡ 2) × (EVERY_MAX ≡ 1000000) }
    ensures speed { (SPEED_MIN ≡ 300) × (SPEED_MAX ≡ 10000000) }
{}

/// States that all that was emitted goes out if the injector loses and changes nothing, as at a real line.
pub fn all_goes_out_without_faults()
    ensures { (count : ℕ) (entries : List EntryValue) →
        outgoing_from None None count entries ≡ emitted_bytes entries }
{}

/// States that everything emitted remains if nothing is to be left out, for one event and for several.
pub fn all_remains_without_thinning()
    ensures event { (entries : List EntryValue) → thinned Thinning.Nothing entries ≡ entries }
    ensures events { (says : List (List Emitted)) →
        all_thinned Thinning.Nothing says ≡ map entry_of (all_said says) }
{}

/// States that thinning is like a line that loses what is left out. Each text remains. Each data packet remains, or an
/// equal one does, and one that is left out is sent again later. If an RR is left out, one of two things holds. Either
/// the next entry that remains is an RR, with only RRs in between. Or this RR, and perhaps more after it, are followed
/// by a new data packet that acknowledges the same as the last of them, and that packet or an equal one remains.
pub fn what_is_left_out_need_not_go()
    ensures lost { (thinning : Thinning) (entries : List EntryValue) →
        IsLetThrough entries (thinned thinning entries) }
    ensures packet_remains { (thinning : Thinning) (entries : List EntryValue) (bytes : List ℕ) →
        HEADER_SIZE < length bytes → list_any (is_packet bytes) entries ≡ true →
        list_any (is_packet bytes) (thinned thinning entries) ≡ true }
    ensures packet_is_behind { (thinning : Thinning) (bytes : List ℕ) (entry : EntryValue)
        (behind : List EntryValue) → HEADER_SIZE < length bytes → is_packet bytes entry ≡ true →
        is_left_out thinning entry behind ≡ true →
        list_any (is_packet bytes) (thinned thinning behind) ≡ true }
    ensures text_remains { (thinning : Thinning) (behind : List EntryValue) (bytes : List ℕ) →
        is_left_out thinning (text bytes) behind ≡ false }
    ensures rr_is_covered { (thinning : Thinning) (entry : EntryValue) (behind : List EntryValue) →
        is_rr entry ≡ true → is_left_out thinning entry behind ≡ true →
        RemainsRr thinning behind ⊎ RemainsData thinning entry behind }
{}
