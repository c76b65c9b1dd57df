ghost use Rattle.std.specs.Prelude.{◌≡◌, ◌≢◌, ℕ, ◌+◌, ◌≤◌, [], ◌++◌, length, drop, map, OnOk, OnErr, IsOk, IsTrue, ◌↔◌};
ghost use Rattle.uug_link.specs.Announced.{announced};
ghost use Rattle.uug_link.specs.Follows.{Follows, answered, done, written};
ghost use Rattle.uug_link.specs.Reactions.{effect_of};
ghost use Rattle.uug_link.specs.Slots.{Keeps};
ghost use Rattle.uug_link.specs.State.{caller_state, called_state, HasRoom, IsClosing, IsFresh, IsSound, IsUp};
ghost use Rattle.uug_link.specs.Terms.{IsSize, IsWindow, size_of_code};
ghost use Rattle.uug_link.specs.declared.limits.TheConstants.{TIMEOUTS_MAX};
ghost use Rattle.uug_link.specs.Step.{step, taken, to_begin, packet_found, bad_found, timed_out, to_send, to_close};
ghost use Rattle.uug_packet.specs.Packet.{shown};

use crate::announce::Announce;
use crate::limits::{MESSAGE_MAX, SIZE_MIN, WINDOW_MAX};
use crate::number::plus;
use crate::outbox::Outbox;
use crate::outcome::{LinkFault, Outcome};
use crate::phase::{Phase, Role};
use crate::reaction::Reaction;
use crate::slots::Slots;
use crate::status::Status;
use std::alloc::{AllocError, Allocator};
use std::marker::Model;
use uug_packet::{Packet, field_size};

/// One end's link. It knows no time and reads no bytes. Its caller hands it the packets and the broken ones found, and
/// reports timeouts. It emits into an outbox.
#[derive(Drop)]
pub struct Link {
    status: Status,
    /// The packets that were sent and not acknowledged, oldest first.
    slots: Slots,
}

impl Model for Link {
    ghost use Rattle.uug_link.specs.State.{State};
    ghost use Rattle.uug_link.specs.Reactions.{state_of};
    ghost use Rattle.uug_link.specs.Slots.{messages_in, IsLinked};

    ghost Value = { State };

    ghost view = { λ link. state_of link.status (messages_in link.slots) };

    ghost invariant = { λ link. IsLinked link.status link.slots };
}

impl Link {
    /// Makes the link of the calling end.
    pub fn caller(own: Announce) -> Self
        ensures { result ≡ caller_state (announced own) }
    {
        Link {
            status: Status::first(Role::Caller, Phase::Fresh, own),
            slots: Slots::new(),
        }
    }

    /// Makes the link of the called end.
    pub fn called(own: Announce) -> Self
        ensures { result ≡ called_state (announced own) }
    {
        Link {
            status: Status::first(Role::Called, Phase::AwaitsInitA, own),
            slots: Slots::new(),
        }
    }

    /// Begins the start-up: emits INITA. It is for a caller's link that has not ended, and on which this has not yet
    /// returned Ok. Without memory for the packet, link and outbox are as before.
    pub fn begin<A: Allocator>(&mut self, out: &mut Outbox<A>) -> Result<(), AllocError>
        requires { IsFresh self.old }
        ensures { Follows (step self.old to_begin) self.old self.new out.old out.new (done result) }
    {
        let reaction = self.status.after_begin();
        self.apply(reaction, out)
    }

    /// Handles a packet that was found. Returns `Taken` if its message is the next one, `Up` if the link has come up,
    /// and `Closed` if CLOSE has ended it. It never returns `GaveUp`.
    pub fn on_packet<A: Allocator>(
        &mut self,
        packet: &Packet<'_>,
        out: &mut Outbox<A>,
    ) -> Result<Outcome, LinkFault>
        ensures { Follows (step self.old (packet_found (shown packet.now)))
            self.old self.new out.old out.new (answered result) }
    {
        let reaction = self.status.after_packet(packet, self.slots.len());
        self.react(reaction, out)
    }

    /// Handles a broken packet that was found, and asks for the expected one unless that was already done.
    pub fn on_bad<A: Allocator>(&mut self, out: &mut Outbox<A>) -> Result<Outcome, LinkFault>
        ensures { Follows (step self.old bad_found) self.old self.new out.old out.new
            (answered result) }
    {
        let reaction = self.status.after_bad();
        self.react(reaction, out)
    }

    /// Handles a timeout, and emits again what may be lost. The eighth timeout in a row without progress ends the
    /// link: CLOSE is emitted, and the answer is `GaveUp`.
    pub fn on_timeout<A: Allocator>(&mut self, out: &mut Outbox<A>) -> Result<Outcome, LinkFault>
        ensures { Follows (step self.old timed_out) self.old self.new out.old out.new
            (answered result) }
    {
        let reaction = self.status.after_timeout();
        self.react(reaction, out)
    }

    /// Returns whether `on_timeout` would emit anything, because something may be lost or the link ends.
    pub fn speaks_when_late(&self) -> bool
        ensures { IsTrue result ↔ ((step self.now timed_out).emitted ≢ []) }
    {
        self.status.speaks_when_late(self.slots.len())
    }

    /// Sends a message of at most `size` bytes, on a link that has room for one more. Without memory for the packet,
    /// link and outbox are as before.
    pub fn send<A: Allocator>(
        &mut self,
        message: &[u8],
        out: &mut Outbox<A>,
    ) -> Result<(), AllocError>
        requires room { HasRoom self.old }
        requires fits { length message.now ≤ size_of_code self.old.size_code }
        ensures { Follows (step self.old (to_send message.now)) self.old self.new out.old out.new
            (done result) }
    {
        let number = plus(self.status.oldest, self.slots.len());
        out.reserve(1)?;
        self.status
            .send_first(number, message, &mut self.slots, out);
        Ok(())
    }

    /// Closes a link that is up: emits CLOSE. Without memory for the packet, link and outbox are as before.
    pub fn close<A: Allocator>(&mut self, out: &mut Outbox<A>) -> Result<(), AllocError>
        requires { IsUp self.old }
        ensures { Follows (step self.old to_close) self.old self.new out.old out.new (done result) }
    {
        let reaction = self.status.after_shutdown();
        self.apply(reaction, out)
    }

    /// Returns whether messages may go both ways.
    pub fn is_up(&self) -> bool
        ensures up { IsTrue result ↔ IsUp self.now }
        ensures window { IsTrue result → IsWindow self.now.window }
    {
        matches!(self.status.phase, Phase::Up)
    }

    /// Returns whether this end has closed the link and waits for the other's CLOSE.
    pub fn is_closing(&self) -> bool
        ensures { IsTrue result ↔ IsClosing self.now }
    {
        matches!(self.status.phase, Phase::Closing)
    }

    /// Returns whether this end is quiet on repeats.
    pub fn is_quiet(&self) -> bool
        ensures { result ≡ self.now.own.quiet }
    {
        self.status.own.quiet
    }

    /// Returns whether the commands of this end are short.
    pub fn is_short(&self) -> bool
        ensures { result ≡ self.now.own.short }
    {
        self.status.own.short
    }

    /// Returns whether `on_packet` would return `Taken` for this packet, if it is not refused memory.
    pub fn takes(&self, packet: &Packet<'_>) -> bool
        ensures { IsTrue result ↔ ((step self.now (packet_found (shown packet.now))).outcome
            ≡ taken) }
    {
        match (self.status.phase, packet) {
            (Phase::Up, Packet::Carry { seq, .. }) => *seq == self.status.received.next(),
            _ => false,
        }
    }

    /// Returns whether one more message may go out: the link is up, and fewer are unacknowledged than the window
    /// allows.
    pub fn room(&self) -> bool
        ensures { IsTrue result ↔ HasRoom self.now }
    {
        self.is_up() && self.unacked() < self.window()
    }

    /// Returns the number of messages that were sent and not acknowledged.
    pub fn unacked(&self) -> usize
        ensures count { result ≡ length self.now.unacked }
        ensures within { result ≤ self.now.window }
        ensures most { result ≤ WINDOW_MAX }
    {
        self.slots.len()
    }

    /// Returns the number of the oldest message that was sent and not acknowledged, or of the next one to be sent.
    pub fn oldest(&self) -> u8
        ensures { result ≡ self.now.oldest }
    {
        self.status.oldest.value()
    }

    /// Returns the number of the data packet to be taken next.
    pub fn expected(&self) -> u8
        ensures { result ≡ self.now.expected }
    {
        self.status.received.next().value()
    }

    /// Returns the number of timeouts in a row without progress. At the eighth the link gives up.
    pub fn timeouts(&self) -> u8
        ensures count { result ≡ self.now.timeouts }
        ensures most { result ≤ TIMEOUTS_MAX }
    {
        self.status.timeouts.count()
    }

    /// Returns the greatest number of packets that may be unacknowledged, 1 to 7, on a link that is up. It is the
    /// smaller of the two windows that the other end has announced.
    pub fn window(&self) -> usize
        requires { IsUp self.now }
        ensures value { result ≡ self.now.window }
        ensures within { IsWindow result }
    {
        usize::from(self.status.window.value())
    }

    /// Returns the packet size in bytes, 32 to 4096, that the other end has announced, on a link that is up.
    pub fn size(&self) -> usize
        requires { IsUp self.now }
        ensures value { result ≡ size_of_code self.now.size_code }
        ensures one_of_eight { IsSize result }
        ensures within { (SIZE_MIN ≤ result) × (result ≤ MESSAGE_MAX) }
    {
        field_size(self.status.size_code.value() + 1)
    }

    fn react<A: Allocator>(
        &mut self,
        reaction: Reaction,
        out: &mut Outbox<A>,
    ) -> Result<Outcome, LinkFault>
        requires struck { reaction.strikes ≤ length self.old.unacked }
        requires sound { IsSound (effect_of reaction self.old.unacked).state }
        requires keeps { Keeps self.old (effect_of reaction self.old.unacked).state }
        ensures { Follows (effect_of reaction self.old.unacked)
            self.old self.new out.old out.new (answered result) }
    {
        if self.apply(reaction, out).is_err() {
            return Err(LinkFault::Memory);
        }
        reaction.reply.answer()
    }

    /// Applies a reaction. It makes room first, because that may be refused. The change of the link and its output
    /// can't fail.
    fn apply<A: Allocator>(
        &mut self,
        reaction: Reaction,
        out: &mut Outbox<A>,
    ) -> Result<(), AllocError>
        requires struck { reaction.strikes ≤ length self.old.unacked }
        requires sound { IsSound (effect_of reaction self.old.unacked).state }
        requires keeps { Keeps self.old (effect_of reaction self.old.unacked).state }
        ensures ok { OnOk result (self.new ≡ (effect_of reaction self.old.unacked).state) }
        ensures emitted { OnOk result
            (out.new.entries
            ≡ out.old.entries ++ map written (effect_of reaction self.old.unacked).emitted) }
        ensures unchanged { OnErr result (self.new ≡ self.old) }
        ensures kept { OnErr result (out.new.entries ≡ out.old.entries) }
        ensures spare_kept { OnErr result (out.old.spare ≤ out.new.spare) }
        ensures memory { length (effect_of reaction self.old.unacked).emitted ≤ out.old.spare
            → IsOk result }
        ensures spare { out.old.spare
            ≤ out.new.spare + length (effect_of reaction self.old.unacked).emitted }
        ensures few { length (effect_of reaction self.old.unacked).emitted ≤ WINDOW_MAX }
    {
        let left = self.slots.len() - reaction.strikes;
        out.reserve(reaction.status.emissions(reaction.emits, left))?;
        self.slots.strike(reaction.strikes);
        self.status = reaction.status;
        self.status.emit(reaction.emits, &mut self.slots, out);
        Ok(())
    }
}
