//! Laws of the cut and the scan of a stream, and of a reader. Each is the contract of a function that does nothing.
ghost use Rattle.std.specs.Prelude.{◌≡◌, ℕ, ◌+◌, ◌≤◌, ◌↔◌, List, [], ◌∷◌, ◌++◌, length, drop};
ghost use Rattle.uug_packet.specs.Bytes.{AreBytes};
ghost use Rattle.uug_packet.specs.Packet.{PacketValue};
ghost use Rattle.uug_packet.specs.Waits.{Waits};
ghost use Rattle.uug_packet.specs.WellFormed.{IsWellFormed};
ghost use Rattle.uug_reader.specs.declared.reader.TheConstants.{READER_SIZE};
ghost use Rattle.uug_reader.specs.Calls.{Call, Make, all_accepted, all_dropped};
ghost use Rattle.uug_reader.specs.Cut.{Part, IsCut, Item, found, items_of};
ghost use Rattle.uug_reader.specs.Finding.{StandsFirst, PassesNoise, FindsNothing};
ghost use Rattle.uug_reader.specs.Reading.{Reading, fresh, Shows};
ghost use Rattle.uug_reader.specs.Scan.{Finds, IsScan};
ghost use Rattle.uug_reader.specs.Search.{search_of, standing, waiting};

/// States the limit of a reader in numbers.
pub fn limits()
    ensures { READER_SIZE ≡ 4102 }
{}

/// States that each stream of bytes is cut in one way: into these parts and this rest, and no others.
pub fn one_cut()
    ensures some { (s : List ℕ) → AreBytes s
        → (parts : List Part) × (rest : List ℕ) × IsCut s parts rest }
    ensures only { (s rest other : List ℕ) (parts others : List Part) →
        IsCut s parts rest → IsCut s others other → (parts ≡ others) × (rest ≡ other) }
{}

/// States that each stream of bytes has one scan: these items and this rest, and no others.
pub fn one_scan()
    ensures some { (s : List ℕ) → AreBytes s
        → (items : List Item) × (rest : List ℕ) × IsScan s items rest }
    ensures only { (s rest other : List ℕ) (items others : List Item) →
        IsScan s items rest → IsScan s others other → (items ≡ others) × (rest ≡ other) }
{}

/// States that it doesn't matter where a stream is cut into pieces. The items of the first piece are the first of the
/// whole stream. The others are those of the rest of the first piece and the bytes after it. The same holds for the
/// parts.
pub fn scan_in_pieces()
    ensures scan { (s t rest last : List ℕ) (items more : List Item) →
        IsScan s items rest → IsScan (rest ++ t) more last → IsScan (s ++ t) (items ++ more) last }
    ensures cut { (s t rest last : List ℕ) (parts more : List Part) →
        IsCut s parts rest → IsCut (rest ++ t) more last → IsCut (s ++ t) (parts ++ more) last }
{}

/// States that noise, an item, and the scan of the bytes after it are the scan of the whole. So are noise and a rest
/// that waits.
pub fn scan_from_the_first()
    ensures item { (s others rest : List ℕ) (item : Item) (n : ℕ) (items : List Item) →
        PassesNoise s others → StandsFirst item n others → IsScan (drop n others) items rest →
        IsScan s (item ∷ items) rest }
    ensures rest { (s rest : List ℕ) → PassesNoise s rest → Waits rest → IsScan s [] rest }
{}

/// States the steps by which items are found at the front of some bytes: nothing yet, a first item, and more after
/// those found. They are also found if more bytes follow. Each item takes at least a byte.
pub fn found_in_steps()
    ensures none { (s : List ℕ) → Finds s [] s }
    ensures item { (s : List ℕ) (item : Item) (n : ℕ) → StandsFirst item n s
        → Finds s (item ∷ []) (drop n s) }
    ensures more { (s middle others : List ℕ) (items more : List Item) →
        Finds s items middle → Finds middle more others → Finds s (items ++ more) others }
    ensures behind { (s others t : List ℕ) (items : List Item) → Finds s items others
        → Finds (s ++ t) items (others ++ t) }
    ensures fewer { (s others : List ℕ) (items : List Item) → Finds s items others
        → length others + length items ≤ length s }
{}

/// States that the items of two joined lists of parts are those of the first list and then those of the second.
pub fn items_joined()
    ensures { (parts more : List Part)
        → items_of (parts ++ more) ≡ items_of parts ++ items_of more }
{}

/// States that a first item remains the first with more bytes after it, and is found again. A further search skips no
/// byte and finds the same item. It never finds that there is none.
pub fn found_again()
    ensures first { (s t : List ℕ) (item : Item) (n : ℕ) → StandsFirst item n s
        → StandsFirst item n (s ++ t) }
    ensures same { (s t others : List ℕ) (item other : Item) (n m : ℕ) →
        StandsFirst item n s → PassesNoise (s ++ t) others → StandsFirst other m others →
        (others ≡ s ++ t) × (other ≡ item) × (m ≡ n) }
    ensures some { (s t : List ℕ) (item : Item) (n : ℕ) →
        StandsFirst item n s → FindsNothing (s ++ t) → ⊥ }
{}

/// States that the search, as a function, gives exactly the first item after noise, or the rest that waits there.
pub fn search_finds_the_first()
    ensures item { (s others : List ℕ) (item : Item) (n : ℕ) → AreBytes s →
        (search_of s ≡ standing item n others) ↔ (PassesNoise s others
        × StandsFirst item n others) }
    ensures rest { (s rest : List ℕ) → AreBytes s
        → (search_of s ≡ waiting rest) ↔ (PassesNoise s rest × Waits rest) }
{}

/// States that a packet that the search finds is well-formed, whatever the stream.
pub fn found_packets_are_well_formed()
    ensures { (s others : List ℕ) (p : PacketValue) (n : ℕ)
        → search_of s ≡ standing (found p) n others → IsWellFormed p }
{}

/// States that the items that a reader dropped are the first of the scan of all bytes that it accepted. The others are
/// those of the scan of the bytes that it holds. This holds whatever calls it had since it was made or cleared.
pub fn dropped_are_first()
    ensures finds { (calls : List Call) (now : Reading) →
        Make calls fresh now → Finds (all_accepted calls) (all_dropped calls) now.bytes }
    ensures scan { (calls : List Call) (now : Reading) (items : List Item) (rest : List ℕ) →
        AreBytes (all_accepted calls) → Make calls fresh now
        → IsScan (all_accepted calls) items rest →
        (later : List Item) × IsScan now.bytes later rest × (items ≡ all_dropped calls ++ later) }
{}

/// States that the item shown stays until it is dropped, whatever is pushed, searched and shown. Exactly that item is
/// dropped.
pub fn shown_is_dropped()
    ensures stays { (item : Item) (calls : List Call) (old new : Reading) →
        Shows item old → Make calls old new → all_dropped calls ≡ [] → Shows item new }
    ensures same { (item other : Item) (now : Reading) →
        Shows item now → StandsFirst other now.shown_size now.bytes → other ≡ item }
{}
