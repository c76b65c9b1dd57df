//! Laws of the limits of a pair. A call does nothing: its contract is the law.
ghost use Rattle.std.specs.Prelude.{◌≡◌};
ghost use Rattle.uug_pair.specs.declared.pair.TheConstants.{TURNS_MAX};

/// States the maximum number of turns that both ends of a pair take.
pub fn limits()
    ensures turns { TURNS_MAX ≡ 1000000 }
{}
