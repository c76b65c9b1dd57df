//! The start-up of a link.

ghost use Rattle.std.specs.Prelude.{◌≡◌, ℕ, List, min};
ghost use Rattle.uug_packet.specs.Number.{number_of};

use crate::outcome::Reply;
use crate::phase::{Phase, Role};
use crate::reaction::{Emits, Reaction};
use crate::status::Status;
use crate::timeouts::Timeouts;
use uug_packet::{Control, Seq};

impl Status {
    ghost use Rattle.uug_link.specs.Reactions.{state_of, effect_of};
    ghost use Rattle.uug_link.specs.Step.{on_init_a, on_init_b, on_init_c};

    pub(crate) fn after_init_a(self, window: Seq) -> Reaction
        ensures strikes { result.strikes ≡ 0 }
        ensures effect { (ms : List (List ℕ)) →
            effect_of result ms
            ≡ on_init_a self.role self.phase (number_of window) (state_of self ms) }
    {
        let moved = Status {
            phase: Phase::AwaitsInitB,
            window,
            timeouts: Timeouts::none(),
            ..self
        };
        match (self.role, self.phase) {
            (Role::Caller, Phase::AwaitsInitA) => moved.emitting(Control::InitB(
                self.own.size_code,
            )),
            (Role::Called, Phase::AwaitsInitA) => moved.emitting(Control::InitA(self.own.window)),
            (Role::Called, Phase::AwaitsInitB) => self.emitting(Control::InitA(self.own.window)),
            _ => self.ignoring(),
        }
    }

    pub(crate) fn after_init_b(self, size_code: Seq) -> Reaction
        ensures strikes { result.strikes ≡ 0 }
        ensures effect { (ms : List (List ℕ)) →
            effect_of result ms
            ≡ on_init_b self.role self.phase (number_of size_code) (state_of self ms) }
    {
        let moved = Status {
            phase: Phase::AwaitsInitC,
            size_code,
            timeouts: Timeouts::none(),
            ..self
        };
        match (self.role, self.phase) {
            (Role::Caller, Phase::AwaitsInitB) => moved.emitting(Control::InitC(self.own.window)),
            (Role::Called, Phase::AwaitsInitB) => moved.emitting(Control::InitB(
                self.own.size_code,
            )),
            (Role::Called, Phase::AwaitsInitC) => self.emitting(Control::InitB(self.own.size_code)),
            _ => self.ignoring(),
        }
    }

    pub(crate) fn after_init_c(self, window: Seq) -> Reaction
        ensures strikes { result.strikes ≡ 0 }
        ensures effect { (ms : List (List ℕ)) →
            effect_of result ms
            ≡ on_init_c self.role self.phase (number_of window) (state_of self ms) }
    {
        let moved = Status {
            phase: Phase::Up,
            window: smaller(self.window, window),
            timeouts: Timeouts::none(),
            ..self
        };
        let emits = match (self.role, self.phase) {
            (Role::Caller, Phase::AwaitsInitC) => Emits::Nothing,
            (Role::Called, Phase::AwaitsInitC) => Emits::Control(Control::InitC(self.own.window)),
            (Role::Called, Phase::Up) => return self.emitting(Control::InitC(self.own.window)),
            _ => return self.ignoring(),
        };
        Reaction {
            status: moved,
            strikes: 0,
            emits,
            reply: Reply::Up,
        }
    }
}

fn smaller(a: Seq, b: Seq) -> Seq
    ensures { number_of result ≡ min (number_of a) (number_of b) }
{
    if a.value() < b.value() { a } else { b }
}
