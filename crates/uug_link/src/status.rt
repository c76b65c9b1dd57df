ghost use Rattle.std.specs.Prelude.{◌≡◌, ◌≢◌, ◌↔◌, ℕ, ◌≤◌, List, [], length, IsTrue};
ghost use Rattle.uug_packet.specs.Packet.{shown, shown_control};

use crate::announce::Announce;
use crate::outcome::Reply;
use crate::phase::{Phase, Role};
use crate::reaction::{Emits, Reaction};
use crate::timeouts::Timeouts;
use uug_packet::{Control, Packet, Seq};

/// A link without its messages.
#[derive(Clone, Copy)]
pub(crate) struct Status {
    pub(crate) role: Role,
    pub(crate) phase: Phase,
    pub(crate) own: Announce,
    /// The smaller of the windows that the other end has announced.
    pub(crate) window: Seq,
    /// The code of the size that the other end has announced.
    pub(crate) size_code: Seq,
    /// The number of the oldest message that was sent and not acknowledged, or of the next one to be sent.
    pub(crate) oldest: Seq,
    /// The number of the last data packet that was taken.
    pub(crate) received: Seq,
    /// 0 if no reject has gone out for the expected packet, else at most one more than the window that this end has
    /// announced.
    pub(crate) reject_left: u8,
    /// The number of the last data packet out of order that came since one was taken.
    pub(crate) passed: Option<Seq>,
    pub(crate) timeouts: Timeouts,
}

impl Status {
    ghost use Rattle.uug_link.specs.Announced.{announced};
    ghost use Rattle.uug_link.specs.Reactions.{state_of, emitted_of, effect_of};
    ghost use Rattle.uug_link.specs.State.{first_state, IsFresh, IsUp};
    ghost use Rattle.uug_link.specs.Step.{step, to_begin, packet_found, bad_found, timed_out, to_close, on_control, on_close, repeated, ignored, quiet, answers, answers_halted, nothing};

    /// Makes the status of a link to which nothing has happened.
    pub(crate) fn first(role: Role, phase: Phase, own: Announce) -> Self
        ensures { state_of result [] ≡ first_state role phase (announced own) }
    {
        let zero = match Seq::new(0) {
            Some(zero) => zero,
            None => unreachable!(),
        };
        Status {
            role,
            phase,
            own,
            window: zero,
            size_code: zero,
            oldest: zero.next(),
            received: zero,
            reject_left: 0,
            passed: None,
            timeouts: Timeouts::none(),
        }
    }

    /// Begins the start-up of a fresh link.
    pub(crate) fn after_begin(self) -> Reaction
        requires { IsFresh (state_of self []) }
        ensures strikes { result.strikes ≡ 0 }
        ensures effect { (ms : List (List ℕ))
            → effect_of result ms ≡ step (state_of self ms) to_begin }
    {
        let status = Status {
            phase: Phase::AwaitsInitA,
            ..self
        };
        status.emitting(Control::InitA(self.own.window))
    }

    /// Handles a packet, with this many messages outstanding.
    pub(crate) fn after_packet(self, packet: &Packet<'_>, outstanding: usize) -> Reaction
        ensures strikes { result.strikes ≤ outstanding }
        ensures effect { (ms : List (List ℕ)) → length ms ≡ outstanding →
            effect_of result ms ≡ step (state_of self ms) (packet_found (shown packet.now)) }
    {
        match (self.phase, packet) {
            (Phase::Halted, _) => self.refusing(),
            (_, Packet::Control(control)) => self.after_control(*control, outstanding),
            (_, Packet::Carry { seq, ack, .. }) => self.after_data(*seq, *ack, outstanding),
        }
    }

    /// Handles a broken packet that was found.
    pub(crate) fn after_bad(self) -> Reaction
        ensures strikes { result.strikes ≡ 0 }
        ensures effect { (ms : List (List ℕ))
            → effect_of result ms ≡ step (state_of self ms) bad_found }
    {
        match self.phase {
            Phase::Halted => self.refusing(),
            Phase::Up if !self.has_enough() => self.rejecting(),
            _ => self.ignoring(),
        }
    }

    /// Handles a timeout.
    pub(crate) fn after_timeout(self) -> Reaction
        ensures strikes { result.strikes ≡ 0 }
        ensures effect { (ms : List (List ℕ))
            → effect_of result ms ≡ step (state_of self ms) timed_out }
    {
        if let Phase::Halted = self.phase {
            return self.refusing();
        }
        match self.timeouts.next() {
            Some(timeouts) => Reaction {
                status: Status {
                    reject_left: 0,
                    timeouts,
                    ..self
                },
                strikes: 0,
                emits: self.repeated(),
                reply: Reply::Nothing,
            },
            None => Reaction {
                status: Status {
                    phase: Phase::Halted,
                    reject_left: 0,
                    timeouts: Timeouts::most(),
                    ..self
                },
                strikes: 0,
                emits: Emits::Control(Control::Close),
                reply: Reply::GaveUp,
            },
        }
    }

    /// Closes a link that is up.
    pub(crate) fn after_shutdown(self) -> Reaction
        requires { IsUp (state_of self []) }
        ensures strikes { result.strikes ≡ 0 }
        ensures effect { (ms : List (List ℕ))
            → effect_of result ms ≡ step (state_of self ms) to_close }
    {
        let status = Status {
            phase: Phase::Closing,
            timeouts: Timeouts::none(),
            ..self
        };
        status.emitting(Control::Close)
    }

    fn after_control(self, control: Control, outstanding: usize) -> Reaction
        ensures strikes { result.strikes ≤ outstanding }
        ensures effect { (ms : List (List ℕ)) → length ms ≡ outstanding →
            effect_of result ms ≡ on_control (shown_control control) (state_of self ms) }
    {
        match (control, self.phase) {
            (Control::Close, _) => self.after_close(),
            (Control::InitA(window), _) if window.value() != 0 => self.after_init_a(window),
            (Control::InitB(size_code), _) => self.after_init_b(size_code),
            (Control::InitC(window), _) if window.value() != 0 => self.after_init_c(window),
            (Control::Rr(ack), Phase::Up) => self.acknowledged(ack, outstanding),
            (Control::Rj(ack), Phase::Up) => Reaction {
                emits: Emits::Outstanding,
                ..self.acknowledged(ack, outstanding)
            },
            (Control::Srj(number), Phase::Up) => Reaction {
                emits: Emits::Selected(number),
                ..self.ignoring()
            },
            _ => self.ignoring(),
        }
    }

    /// Handles the other end's CLOSE.
    fn after_close(self) -> Reaction
        ensures strikes { result.strikes ≡ 0 }
        ensures effect { (ms : List (List ℕ))
            → effect_of result ms ≡ on_close self.phase (state_of self ms) }
    {
        let emits = match self.phase {
            Phase::Closing => Emits::Nothing,
            _ => Emits::Control(Control::Close),
        };
        Reaction {
            status: Status {
                phase: Phase::Halted,
                ..self
            },
            strikes: 0,
            emits,
            reply: Reply::Closed,
        }
    }

    /// Returns what goes out again at a timeout.
    fn repeated(self) -> Emits
        ensures { (ms : List (List ℕ)) →
            emitted_of result (state_of self ms)
            ≡ repeated self.role self.phase (state_of self ms) }
    {
        match (self.role, self.phase) {
            (Role::Caller, Phase::AwaitsInitA) => Emits::Control(Control::InitA(self.own.window)),
            (Role::Caller, Phase::AwaitsInitB) => Emits::Control(Control::InitB(
                self.own.size_code,
            )),
            (Role::Caller, Phase::AwaitsInitC) => Emits::Control(Control::InitC(self.own.window)),
            (_, Phase::Up) => Emits::Outstanding,
            (_, Phase::Closing) => Emits::Control(Control::Close),
            _ => Emits::Nothing,
        }
    }

    /// Returns whether anything goes out at a timeout, on a link with this many outstanding messages.
    pub(crate) fn speaks_when_late(self, outstanding: usize) -> bool
        ensures { (ms : List (List ℕ)) → length ms ≡ outstanding →
            IsTrue result ↔ ((step (state_of self ms) timed_out).emitted ≢ []) }
    {
        if let Phase::Halted = self.phase {
            return false;
        }
        let Some(_next) = self.timeouts.next() else {
            return true;
        };
        match (self.role, self.phase) {
            (_, Phase::Up) => outstanding != 0,
            (_, Phase::Closing) => true,
            (Role::Caller, Phase::AwaitsInitA | Phase::AwaitsInitB | Phase::AwaitsInitC) => true,
            _ => false,
        }
    }

    pub(crate) fn emitting(self, control: Control) -> Reaction
        ensures strikes { result.strikes ≡ 0 }
        ensures effect { (ms : List (List ℕ))
            → effect_of result ms ≡ answers (state_of self ms) (shown_control control) nothing }
    {
        Reaction {
            emits: Emits::Control(control),
            ..self.ignoring()
        }
    }

    pub(crate) fn ignoring(self) -> Reaction
        ensures strikes { result.strikes ≡ 0 }
        ensures effect { (ms : List (List ℕ)) → effect_of result ms ≡ ignored (state_of self ms) }
    {
        Reaction {
            status: self,
            strikes: 0,
            emits: Emits::Nothing,
            reply: Reply::Nothing,
        }
    }

    /// Makes the answer of a link that has ended.
    fn refusing(self) -> Reaction
        ensures strikes { result.strikes ≡ 0 }
        ensures effect { (ms : List (List ℕ))
            → effect_of result ms ≡ answers_halted (state_of self ms) }
    {
        Reaction {
            reply: Reply::Halted,
            ..self.ignoring()
        }
    }
}
