ghost use Rattle.std.specs.Prelude.{◌≤◌};
ghost use Rattle.uug_talk.specs.declared.mode.TheConstants.{MODE_MAX};

use uug_talk::MODE_MAX;

/// The mode of a file, at most `MODE_MAX`.
#[derive(Clone, Copy, Debug)]
pub(crate) struct Mode {
    pub(crate) bits: u16,
    ghost in_range: { bits ≤ MODE_MAX },
}
