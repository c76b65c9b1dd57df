//! The handling of packet numbers on a link that is up.

ghost use Rattle.std.specs.Prelude.{◌≡◌, ℕ, suc, pred, ◌≤◌, nat_lt, if◌then◌else◌, List, [], length, option_map};
ghost use Rattle.uug_packet.specs.Number.{number_of};
ghost use Rattle.uug_packet.specs.Packet.{shown_control};

use crate::outcome::Reply;
use crate::phase::Phase;
use crate::reaction::{Emits, Reaction};
use crate::status::Status;
use crate::timeouts::Timeouts;
use uug_packet::{Control, Seq};

impl Status {
    ghost use Rattle.uug_link.specs.Reactions.{state_of, effect_of};
    ghost use Rattle.uug_link.specs.Step.{on_data, on_number, on_other, on_repeat, acknowledged, quiet, rejecting, asks, begins_anew};

    /// Strikes the messages that have arrived, by an acknowledgement of the last of them.
    pub(crate) fn acknowledged(self, ack: Seq, outstanding: usize) -> Reaction
        ensures strikes { result.strikes ≤ outstanding }
        ensures effect { (ms : List (List ℕ)) → length ms ≡ outstanding →
            effect_of result ms ≡ quiet (acknowledged (number_of ack) (state_of self ms)) }
    {
        let strikes = usize::from(ack.next().ahead_of(self.oldest));
        if strikes == 0 || strikes > outstanding {
            return self.ignoring();
        }
        Reaction {
            status: Status {
                oldest: ack.next(),
                timeouts: Timeouts::none(),
                ..self
            },
            strikes,
            emits: Emits::Nothing,
            reply: Reply::Nothing,
        }
    }

    pub(crate) fn after_data(self, number: Seq, ack: Seq, outstanding: usize) -> Reaction
        ensures strikes { result.strikes ≤ outstanding }
        ensures effect { (ms : List (List ℕ)) → length ms ≡ outstanding →
            effect_of result ms
            ≡ on_data self.phase (number_of number) (number_of ack) (state_of self ms) }
    {
        let Phase::Up = self.phase else {
            return self.ignoring();
        };
        let acknowledged = self.acknowledged(ack, outstanding);
        Reaction {
            strikes: acknowledged.strikes,
            ..acknowledged.status.after_number(number)
        }
    }

    /// Handles the number of a data packet, on a link that is up.
    fn after_number(self, number: Seq) -> Reaction
        ensures strikes { result.strikes ≡ 0 }
        ensures effect { (ms : List (List ℕ))
            → effect_of result ms ≡ on_number (number_of number) (state_of self ms) }
    {
        if number == self.received.next() {
            let status = Status {
                received: number,
                reject_left: self.reject_left_after(),
                passed: None,
                timeouts: Timeouts::none(),
                ..self
            };
            Reaction {
                reply: Reply::Taken,
                ..status.emitting(Control::Rr(number))
            }
        } else if self.own.quiet {
            self.after_repeat(number)
        } else if self.reject_left != 0 {
            self.emitting(Control::Rr(self.received))
        } else {
            self.rejecting()
        }
    }

    /// Returns what is left of a reject after a packet is taken.
    fn reject_left_after(self) -> u8
        ensures { result ≡ (if self.own.quiet then pred self.reject_left else 0) }
    {
        if self.own.quiet {
            self.reject_left.saturating_sub(1)
        } else {
            0
        }
    }

    /// Handles the number of a data packet out of order, at an end that is quiet on repeats.
    fn after_repeat(self, number: Seq) -> Reaction
        ensures strikes { result.strikes ≡ 0 }
        ensures effect { (ms : List (List ℕ))
            → effect_of result ms ≡ on_repeat (number_of number) (state_of self ms) }
    {
        let rr = Control::Rr(self.received);
        if self.reject_left != 0 {
            if self.begins_anew(number) {
                return self.asking(number, rr);
            }
            let status = Status {
                passed: Some(number),
                ..self
            };
            return status.ignoring();
        }
        if number == self.received {
            self.asking(number, rr)
        } else {
            self.asking(number, Control::Rj(self.received))
        }
    }

    /// Returns whether a repeat has begun anew with a packet, and nothing was taken since the one before it.
    fn begins_anew(self, number: Seq) -> bool
        ensures { result ≡
            begins_anew (option_map number_of self.passed) (number_of number) (state_of self []) }
    {
        match self.passed {
            Some(passed) => self.received.ahead_of(passed) <= self.received.ahead_of(number),
            None => false,
        }
    }

    /// Asks for what follows the packet that was taken last, because of a packet out of order.
    fn asking(self, number: Seq, control: Control) -> Reaction
        ensures strikes { result.strikes ≡ 0 }
        ensures effect { (ms : List (List ℕ)) → effect_of result ms
            ≡ asks (number_of number) (state_of self ms) (shown_control control) }
    {
        let status = Status {
            reject_left: self.until_over(),
            passed: Some(number),
            ..self
        };
        status.emitting(control)
    }

    /// Returns whether the reject that has gone out is enough for a broken packet too.
    pub(crate) fn has_enough(self) -> bool
        ensures { result ≡
            (if self.own.quiet then nat_lt (number_of self.own.window) self.reject_left else nat_lt 0 self.reject_left) }
    {
        if self.own.quiet {
            self.reject_left > self.own.window.value()
        } else {
            self.reject_left != 0
        }
    }

    /// Returns how many packets have to be taken after a reject until everything repeated for it has passed.
    fn until_over(self) -> u8
        ensures { result ≡ suc (number_of self.own.window) }
    {
        self.own.window.value() + 1
    }

    /// Asks for the packet that is expected.
    pub(crate) fn rejecting(self) -> Reaction
        ensures strikes { result.strikes ≡ 0 }
        ensures effect { (ms : List (List ℕ)) → effect_of result ms ≡ rejecting (state_of self ms) }
    {
        let reject_left = self.until_over();
        let status = Status {
            reject_left,
            ..self
        };
        status.emitting(Control::Rj(self.received))
    }
}
