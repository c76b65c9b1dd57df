ghost use Rattle.std.specs.Prelude.{◌≤◌};
ghost use Rattle.uug_packet.specs.Bytes.{AreBytes};
ghost use Rattle.uug_talk.specs.declared.mode.TheConstants.{MODE_MAX};

use std::alloc::Allocator;
use uug_talk::Name;

/// A file in a memory spool.
#[derive(Drop)]
pub struct Stored<A: Allocator> {
    /// The file's name.
    pub name: Name,
    /// The file's mode, at most octal 7777.
    pub mode: u16,
    /// The file's bytes.
    pub bytes: Vec<u8, A>,
    ghost in_range: { mode ≤ MODE_MAX },
    ghost of_bytes: { AreBytes bytes.items },
}
