ghost use Rattle.std.specs.Prelude.{◌≡◌, ◌≢◌, ℕ, false, ◌<◌, ◌≤◌, ◌⊎◌, ◌↔◌, IfOk, IsErrOf, MatchOption};
ghost use Rattle.uug_link.specs.Terms.{IsSize, IsWindow, size_of_code};
ghost use Rattle.uug_packet.specs.Number.{number_of};

use crate::limits::{MESSAGE_MAX, SIZE_MIN, WINDOW_MAX};
use thiserror::Error;
use uug_packet::{Seq, field_size};

/// The announcement of one end of a link: the window and the packet size that the other end shall use. It also holds
/// two settings that this end keeps to itself: whether it is quiet on repeats, and whether its commands are short.
#[derive(Clone, Copy, Debug, PartialEq, Eq)]
pub struct Announce {
    pub(crate) window: Seq,
    pub(crate) size_code: Seq,
    pub(crate) quiet: bool,
    pub(crate) short: bool,
    ghost in_range: { IsWindow (number_of window) },
}

/// The reason why there is no such announcement.
#[derive(Clone, Copy, Debug, PartialEq, Eq, Error)]
pub enum BadAnnounce {
    /// The window is not 1 to 7.
    #[error("the window is not 1 to 7")]
    BadWindow,
    /// The size is not 32, 64, 128, 256, 512, 1024, 2048 or 4096.
    #[error("the size is not a power of two from 32 to 4096")]
    BadSize,
}

impl Announce {
    ghost use Rattle.uug_link.specs.Announced.{announced, quiet_as, short_as};

    /// Makes the announcement of a window, 1 to 7, and a size in bytes, a power of two from 32 to 4096. The window is
    /// checked first. The end is not quiet on repeats, and its commands are filled up with zeros.
    pub fn new(window: u8, size: usize) -> Result<Self, BadAnnounce>
        ensures window { IfOk result (λ a. (announced a).window ≡ window) }
        ensures size { IfOk result (λ a. size_of_code (announced a).size_code ≡ size) }
        ensures plain { IfOk result (λ a. (announced a).quiet ≡ false) }
        ensures filled { IfOk result (λ a. (announced a).short ≡ false) }
        ensures bad_window { IsErrOf result BadAnnounce.BadWindow ↔ ((window < 1)
            ⊎ (WINDOW_MAX < window)) }
        ensures bad_size { IsErrOf result BadAnnounce.BadSize ↔
            (IsWindow window × (IsSize size → ⊥)) }
    {
        let window = window_of(window).ok_or(BadAnnounce::BadWindow)?;
        let size_code = code_of_size(size).ok_or(BadAnnounce::BadSize)?;
        Ok(Announce {
            window,
            size_code,
            quiet: false,
            short: false,
        })
    }

    /// Returns the same announcement, with this setting for quiet repeats.
    ///
    /// An end that is not quiet answers each data packet out of order. A quiet end leaves the repeats that follow a
    /// reject or a doubled packet unanswered, because each answer to them would make the other end repeat everything
    /// again.
    #[must_use]
    pub fn with_quiet(self, quiet: bool) -> Self
        ensures { announced result ≡ quiet_as quiet (announced self) }
    {
        Announce {
            window: self.window,
            size_code: self.size_code,
            quiet,
            short: self.short,
        }
    }

    /// Returns whether this end is quiet on repeats.
    pub fn is_quiet(self) -> bool
        ensures { result ≡ (announced self).quiet }
    {
        self.quiet
    }

    /// Returns the same announcement, with this setting for short commands.
    ///
    /// If commands are short, the last message of a command or an answer ends with its zero byte. It is not filled up
    /// with zeros to a multiple of the packet size. A reader of a command stops at its zero byte, so it reads both the
    /// same.
    #[must_use]
    pub fn with_short(self, short: bool) -> Self
        ensures { announced result ≡ short_as short (announced self) }
    {
        Announce {
            window: self.window,
            size_code: self.size_code,
            quiet: self.quiet,
            short,
        }
    }

    /// Returns whether the commands of this end are short.
    pub fn is_short(self) -> bool
        ensures { result ≡ (announced self).short }
    {
        self.short
    }

    /// Returns the window that the other end shall use, 1 to 7.
    pub fn window(self) -> u8
        ensures value { result ≡ (announced self).window }
        ensures within { IsWindow result }
    {
        self.window.value()
    }

    /// Returns the packet size in bytes that the other end shall use, a power of two from 32 to 4096.
    pub fn size(self) -> usize
        ensures value { result ≡ size_of_code (announced self).size_code }
        ensures one_of_eight { IsSize result }
        ensures within { (SIZE_MIN ≤ result) × (result ≤ MESSAGE_MAX) }
    {
        field_size(self.size_code.value() + 1)
    }
}

fn window_of(window: u8) -> Option<Seq>
    ensures { MatchOption result ((window < 1) ⊎ (WINDOW_MAX < window))
        (λ n. IsWindow window × (number_of n ≡ window)) }
{
    if window < 1 || window > WINDOW_MAX {
        return None;
    }
    Seq::new(window)
}

fn code_of_size(size: usize) -> Option<Seq>
    ensures { MatchOption result (IsSize size → ⊥)
        (λ code. size_of_code (number_of code) ≡ size) }
{
    let code = match size {
        32 => 0,
        64 => 1,
        128 => 2,
        256 => 3,
        512 => 4,
        1024 => 5,
        2048 => 6,
        4096 => 7,
        _ => return None,
    };
    Seq::new(code)
}
