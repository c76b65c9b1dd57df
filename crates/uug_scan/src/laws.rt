//! Laws, each the contract of a function that does nothing.
ghost use Rattle.std.specs.Prelude.{◌≡◌, ℕ, List, length};
ghost use Rattle.uug_packet.specs.Bytes.{AreBytes};
ghost use Rattle.uug_reader.specs.Cut.{Part, IsCut};
ghost use Rattle.uug_scan.specs.Listing.{IsListing};
ghost use Rattle.uug_scan.specs.Detailed.{Adjoin, IsDetailed, plain_lines};
ghost use Rattle.uug_scan.specs.Told.{entries_of};
ghost use Rattle.uug_scan.specs.declared.scan.TheConstants.{PIECE_SIZE, READ_LIMIT};

/// States that each stream of bytes has one listing, as it has one scan.
pub fn one_listing()
    ensures some { (s : List ℕ) → AreBytes s → (text : List ℕ) × IsListing s text }
    ensures only { (s text other : List ℕ) → IsListing s text → IsListing s other
        → text ≡ other }
{}

/// States that each stream of bytes has one detailed listing, as it is cut in one way.
pub fn one_detailed_listing()
    ensures some { (s : List ℕ) → AreBytes s → (text : List ℕ) × IsDetailed s text }
    ensures only { (s text other : List ℕ) → IsDetailed s text → IsDetailed s other → text ≡ other }
{}

/// States that the detailed listing of a stream, without the lines and the words that it adds, is the plain one.
pub fn detailed_is_plain()
    ensures { (s text : List ℕ) → (d : IsDetailed s text)
        → IsListing s (plain_lines (entries_of s d.parts d.rest)) }
{}

/// States that the lines have all bytes of the stream: each begins where the one before it ends, from the first byte to
/// the last.
pub fn lines_adjoin()
    ensures { (s rest : List ℕ) (parts : List Part) → IsCut s parts rest
        → Adjoin 0 (entries_of s parts rest) (length s) }
{}

/// States the limits of a scan.
pub fn limits()
    ensures reads { READ_LIMIT ≡ 1000000000 }
    ensures piece { PIECE_SIZE ≡ 4096 }
{}
