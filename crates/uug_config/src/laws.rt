//! Laws of the limits of an end's task. A call does nothing: its contract is the law.
ghost use Rattle.std.specs.Prelude.{◌≡◌};
ghost use Rattle.uug_config.specs.declared.places.TheConstants.{SIZE, WINDOW};
ghost use Rattle.uug_config.specs.declared.task.TheConstants.{KEEP_MAX, MOST_MIN, SECONDS_MAX, SESSIONS_MAX, WAIT_MAX};

/// States the value of each limit: the timeout of a line in seconds; the least limit on the total size of the files
/// offered in a session; the days for which a partial file is kept; the seconds that an end waits to be called; its
/// sessions; and the window and the packet size that both ends of a pair announce.
pub fn limits()
    ensures seconds { SECONDS_MAX ≡ 600 }
    ensures most { MOST_MIN ≡ 1048576 }
    ensures keep { KEEP_MAX ≡ 3650 }
    ensures wait { WAIT_MAX ≡ 1000000000 }
    ensures sessions { SESSIONS_MAX ≡ 1000000 }
    ensures window { WINDOW ≡ 7 }
    ensures size { SIZE ≡ 64 }
{}
