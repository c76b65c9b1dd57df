//! The settings of the sessions of one end.
ghost use Rattle.std.specs.Prelude.{◌≡◌, IfSome, MatchOption};
ghost use Rattle.uug_link.specs.Announced.{announced};
ghost use Rattle.uug_link.specs.Terms.{IsSize, IsWindow};
ghost use Rattle.uug_config.specs.Tasks.{Announces, thinning_with};

use uug_link::Announce;
use uug_transfer::Thinning;

/// The settings of the sessions of one end.
#[derive(Clone, Copy, Debug, PartialEq, Eq)]
pub struct SessionSettings {
    /// The window that it announces.
    pub window: u32,
    /// The packet size that it announces.
    pub size: u32,
    /// Set if it is quiet on repeats.
    pub is_quiet: bool,
    /// Set if its commands are short.
    pub is_short: bool,
    /// Set if it refuses what it can't read, and goes on.
    pub is_lenient: bool,
    /// Set if it announces digests of its files, and compares those that are announced to it.
    pub tells_digests: bool,
    /// Set if it holds what has come of a file that is cut off, and goes on there in its next session.
    pub is_resuming: bool,
    /// Set if it acknowledges each data packet on its own.
    pub is_every_ack: bool,
    /// Set if it begins to keep a number of its conversations, in case it keeps none yet.
    pub is_numbered: bool,
}

impl SessionSettings {
    /// Returns what the end announces, if its window and its packet size are valid.
    pub(crate) fn announce(&self) -> Option<Announce>
        ensures announces { MatchOption result
            (IsWindow self.now.window → IsSize self.now.size → ⊥)
            (λ announce. Announces self.now.window self.now.size
            self.now.is_quiet self.now.is_short (announced announce)) }
        ensures valid { IfSome result (λ _. IsWindow self.now.window × IsSize self.now.size) }
    {
        let window = u8::try_from(self.window).ok()?;
        let announce = Announce::new(window, self.size as usize).ok()?;
        Some(announce.with_quiet(self.is_quiet).with_short(self.is_short))
    }

    /// Returns what the end leaves out of what it emits.
    pub fn thinning(&self) -> Thinning
        ensures { result ≡ thinning_with self.now.is_every_ack }
    {
        if self.is_every_ack {
            Thinning::Repeats
        } else {
            Thinning::RepeatsAndAcks
        }
    }
}
