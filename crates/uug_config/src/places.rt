//! The places of the ends of a pair.
ghost use Rattle.std.specs.Prelude.{◌≡◌};
ghost use Rattle.uug_talk.specs.Name.{IsName};
ghost use Rattle.uug_config.specs.Places.{IsPlaceInPair};

use uug_link::Announce;
use uug_session::{Place, Side};
use uug_talk::Name;

/// The window that both ends of a pair announce.
const WINDOW: u8 = 7;

/// The packet size that both ends of a pair announce.
const SIZE: usize = 64;

/// The name of the caller.
const CALLER: &[u8] = b"a";

/// The name of the called end.
const CALLED: &[u8] = b"b";

/// Returns the place of the end of a pair on this side. It keeps no number of its conversations.
pub fn place_in_pair(side: Side) -> Place
    ensures { IsPlaceInPair side result }
{
    let Ok(announce) = Announce::new(WINDOW, SIZE) else {
        unreachable!();
    };
    let (caller, called) = (name(CALLER), name(CALLED));
    let (me, peer) = match side {
        Side::Caller => (caller, called),
        Side::Called => (called, caller),
    };
    Place {
        me,
        peer,
        announce,
        number: None,
    }
}

/// Returns the name with these bytes.
fn name(bytes: &[u8]) -> Name
    requires { IsName bytes.now }
    ensures { result ≡ bytes.now }
{
    let Ok(name) = Name::new(bytes) else {
        unreachable!();
    };
    name
}
