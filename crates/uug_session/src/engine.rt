ghost use Rattle.std.specs.Prelude.{◌≡◌, ◌≢◌, ℕ, suc, ◌+◌, ◌<◌, ◌≤◌, ◌↔◌, List, length, [], ◌++◌, map, true, false, OnOk, OnErr, IfOk, IsTrue, MatchOption, All, Some};
ghost use Rattle.std.specs.Bool.{OnTrue, OnFalse};
ghost use Rattle.uug_link.specs.Announced.{announced};
ghost use Rattle.uug_link.specs.State.{IsUp, IsFresh};
ghost use Rattle.uug_link.specs.Follows.{written};
ghost use Rattle.uug_link.specs.Step.{step, packet_found, timed_out, to_close, taken};
ghost use Rattle.uug_packet.specs.Packet.{shown};
ghost use Rattle.uug_session.specs.Engine.{BeginsSession, CountsFaults, Does, IsHailing, StandsStill, TakesUp, after_sends, after_speaking, all_ahead, bare, end_of, entry_of, hung_up, packet_effect, spoken_of, stage_late, stage_of, with_number, with_outbox, with_stage};
ghost use Rattle.uug_session.specs.EndStep.{bad_came, begins_link, ended, final_text, first_link, first_stage, first_words, greeted_so, hailing, hailing_step, how_it_ends, late, leave, linked, message_of, text_found, unmoved};
ghost use Rattle.uug_conversation.specs.Jobs.{pending};
ghost use Rattle.uug_conversation.specs.Party.{HasNames};
ghost use Rattle.uug_session.specs.Sending.{SaysWhatItCan};
ghost use Rattle.uug_conversation.specs.DialogueState.{end_keeper};
ghost use Rattle.uug_session.specs.Phases.{phase_at, timeouts_in};
ghost use Rattle.uug_conversation.specs.DialogueValue.{dialogue_of, dialogue_has_parted};
ghost use Rattle.uug_conversation.specs.Left.{left_of};
ghost use Rattle.uug_conversation.specs.MemoryHoldings.{held_by, holdings_of};
ghost use Rattle.uug_conversation.specs.Partials.{partials_then};
ghost use Rattle.uug_conversation.specs.PartialView.{shown_partial};

use crate::end::End;
use crate::greeting::{Greeted, Greeting, number_behind};
use crate::greeting_text::say;
use crate::phase::Phase;
use crate::place::Place;
use crate::stage::Stage;
use std::alloc::{AllocError, Allocator};
use std::marker::Model;
use uug_conversation::{
    Dialogue, FileFault, MemorySpool, PartialFile, Queue, SAYINGS_MAX, Side, Spool,
};
use uug_link::{Announce, Link, LinkFault, Outbox, Outcome, TIMEOUTS_MAX, WINDOW_MAX};
use uug_packet::Packet;
use uug_talk::{Message, Name};

/// A bound above the number of entries that one packet, broken packet or timeout can cause an end to emit: the link's
/// answer, as many new messages as a window has, CLOSE and the final text.
const EMITTED_MAX: usize = 16;

/// One end of a session, without its spool and the bytes it has not read yet.
#[derive(Drop)]
pub(crate) struct Engine<A: Allocator> {
    side: Side,
    place: Place,
    stage: Stage,
    link: Link,
    dialogue: Dialogue<A>,
    outbox: Outbox<A>,
    /// The buffer for an outgoing message. Its content means nothing between two calls.
    message: Message,
}

impl<A: Allocator> Model for Engine<A> {
    ghost use Rattle.uug_link.specs.Announced.{announced};
    ghost use Rattle.uug_session.specs.Engine.{EngineState, IsReady, stage_of};

    ghost Value = { EngineState };

    ghost view = { λ engine. record {
      identity = record {
        side = engine.side;
        me = engine.place.me;
        peer = engine.place.peer;
      };
      own = announced engine.place.announce;
      stage = stage_of engine.stage;
      link = engine.link;
      dialogue = engine.dialogue;
      outbox = engine.outbox;
      number = engine.place.number;
    } };

    ghost invariant = { λ engine. IsReady (stage_of engine.stage)
        (record { side = engine.side; me = engine.place.me; peer = engine.place.peer })
        (announced engine.place.announce) engine.link engine.dialogue };
}

impl<A: Allocator + Copy> Engine<A> {
    /// Sends the next message, if there is one and there is room for it. Returns whether it did.
    fn send_next<S: Spool>(&mut self, spool: &S) -> bool
        requires spare { 1 ≤ self.old.outbox.spare }
        ensures more { OnTrue result ((n : ℕ) →
            after_sends (suc n) (S.holdings spool.now) (S.kept spool.now) self.old
            ≡ after_sends n (S.holdings spool.now) (S.kept spool.now) self.new) }
        ensures done { OnFalse result ((n : ℕ) →
            after_sends n (S.holdings spool.now) (S.kept spool.now) self.old
            ≡ spoken_of (S.holdings spool.now) (S.kept spool.now) self.new) }
        ensures still { StandsStill self.old self.new }
        ensures up { IsUp self.old.link → IsUp self.new.link }
        ensures spare { self.old.outbox.spare ≤ self.new.outbox.spare + 1 }
    {
        if !self.link.room() {
            return false;
        }
        if !self.dialogue.take_message(spool, &mut self.message) {
            return false;
        }
        let Ok(()) = self.link.send(&self.message, &mut self.outbox) else {
            unreachable!();
        };
        true
    }

    /// Sends messages while there are any and there is room.
    fn send_all<S: Spool>(&mut self, spool: &S)
        requires spare { WINDOW_MAX ≤ self.old.outbox.spare }
        ensures sent { spoken_of (S.holdings spool.now) (S.kept spool.now) self.new
            ≡ after_sends WINDOW_MAX (S.holdings spool.now) (S.kept spool.now) self.old }
        ensures says { self.old.link.window ≤ WINDOW_MAX → SaysWhatItCan self.new }
        ensures still { StandsStill self.old self.new }
        ensures up { IsUp self.old.link → IsUp self.new.link }
        ensures spare { self.old.outbox.spare ≤ self.new.outbox.spare + WINDOW_MAX }
    {
        for _sent in 0..WINDOW_MAX {
            if !self.send_next(spool) {
                return;
            }
        }
    }

    /// Sends what there is to say if the link is up, and closes the link if all is over.
    fn speak<S: Spool>(&mut self, spool: &S)
        requires spare { WINDOW_MAX + 1 ≤ self.old.outbox.spare }
        ensures spoken { spoken_of (S.holdings spool.now) (S.kept spool.now) self.new
            ≡ after_speaking (S.holdings spool.now) (S.kept spool.now) self.old }
        ensures says { SaysWhatItCan self.new }
        ensures still { StandsStill self.old self.new }
    {
        if !self.link.is_up() {
            return;
        }
        self.send_all(spool);
        if self.dialogue.is_through() {
            self.close();
        }
    }

    /// Closes the link.
    fn close(&mut self)
        requires up { IsUp self.old.link }
        requires spare { 1 ≤ self.old.outbox.spare }
        ensures link { self.new.link ≡ (step self.old.link to_close).state }
        ensures emitted { self.new.outbox.entries
            ≡ self.old.outbox.entries ++ map written (step self.old.link to_close).emitted }
        ensures dialogue { self.new.dialogue ≡ self.old.dialogue }
        ensures still { StandsStill self.old self.new }
        ensures spare { self.old.outbox.spare ≤ self.new.outbox.spare + 1 }
    {
        let Ok(()) = self.link.close(&mut self.outbox) else {
            unreachable!();
        };
    }

    /// Ends the session. If the end had parted, the session is done, and the end sends its final text.
    fn finish(&mut self, has_parted: bool, how: End)
        requires spare { 1 ≤ self.old.outbox.spare }
        ensures stage { self.new.stage ≡ ended (how_it_ends has_parted how) }
        ensures emitted { self.new.outbox.entries
            ≡ self.old.outbox.entries ++ map entry_of (leave has_parted self.old.identity.side) }
        ensures link { self.new.link ≡ self.old.link }
        ensures dialogue { self.new.dialogue ≡ self.old.dialogue }
        ensures identity { self.new.identity ≡ self.old.identity }
        ensures own { self.new.own ≡ self.old.own }
        ensures number { self.new.number ≡ self.old.number }
    {
        if !has_parted {
            self.stage = Stage::Ended(how);
            return;
        }
        self.stage = Stage::Ended(End::Done);
        let Ok(()) = say(final_text(self.side), &mut self.outbox) else {
            unreachable!();
        };
    }

    /// Handles a packet whose message is not the next one.
    fn hear<S: Spool>(&mut self, spool: &S, packet: &Packet<'_>)
        requires linked { self.old.stage ≡ linked }
        requires spare { EMITTED_MAX ≤ self.old.outbox.spare }
        requires room { SAYINGS_MAX ≤ self.old.dialogue.outgoing.room }
        requires not_taken { (step self.old.link (packet_found (shown packet.now))).outcome
            ≢ taken }
        ensures does { Does (packet_effect (S.holdings spool.now) (S.kept spool.now) false
            (shown packet.now) self.old)
            (end_of (S.holdings spool.now) (S.kept spool.now) self.new) self.old self.new }
        ensures says { SaysWhatItCan self.new }
    {
        match self.link.on_packet(packet, &mut self.outbox) {
            Ok(Outcome::Nothing) => self.speak(spool),
            Err(LinkFault::Halted) => self.speak(spool),
            Ok(Outcome::Up) => {
                let size = self.link.size();
                let short = self.link.is_short();
                self.dialogue.open(self.side, spool, size, short);
                self.speak(spool);
            }
            Ok(Outcome::Closed) => {
                let has_parted = self.dialogue.has_parted();
                self.finish(has_parted, End::PeerClosed);
            }
            Ok(Outcome::Taken) | Err(LinkFault::Memory | LinkFault::GaveUp) => unreachable!(),
        }
    }

    /// Handles a packet whose message is the next one. If a file ends with it, the spool is asked first.
    fn take<S: Spool>(&mut self, spool: &mut S, packet: &Packet<'_>) -> Result<(), AllocError>
        requires linked { self.old.stage ≡ linked }
        requires spare { EMITTED_MAX ≤ self.old.outbox.spare }
        requires room { SAYINGS_MAX ≤ self.old.dialogue.outgoing.room }
        requires taken { (step self.old.link (packet_found (shown packet.now))).outcome ≡ taken }
        ensures ok { OnOk result (TakesUp (S.holdings spool.old) (S.kept spool.old)
            (S.kept spool.new)
            (CountsFaults u64.MAX (S.faults spool.old) (S.faults spool.new))
            (shown packet.now) self.old self.new true) }
        ensures says { OnOk result (SaysWhatItCan self.new) }
        ensures err { OnErr result (self.new ≡ self.old) }
        ensures none_kept { OnErr result (S.kept spool.new ≡ S.kept spool.old) }
        ensures faults { OnErr result (S.faults spool.new ≡ S.faults spool.old) }
        ensures holdings { S.holdings spool.new ≡ S.holdings spool.old }
        ensures count { S.faults spool.old ≤ S.faults spool.new }
    {
        let has_parted = self.dialogue.has_parted();
        match self.dialogue.take(spool, message_of(packet)) {
            Ok(()) => {
                self.answer(packet);
                if self.dialogue.is_bad() {
                    self.break_off(has_parted, End::BadTalk);
                } else {
                    self.speak(spool);
                }
            }
            Err(FileFault::Device) => {
                self.answer(packet);
                self.break_off(has_parted, End::SpoolFault);
            }
            Err(FileFault::Memory) => return Err(AllocError),
        }
        Ok(())
    }

    /// Lets the link answer a packet whose message is taken.
    fn answer(&mut self, packet: &Packet<'_>)
        requires spare { EMITTED_MAX ≤ self.old.outbox.spare }
        requires taken { (step self.old.link (packet_found (shown packet.now))).outcome ≡ taken }
        ensures link { self.new.link ≡ (step self.old.link
            (packet_found (shown packet.now))).state }
        ensures emitted { self.new.outbox.entries ≡ self.old.outbox.entries
            ++ map written (step self.old.link (packet_found (shown packet.now))).emitted }
        ensures up { IsUp self.new.link }
        ensures dialogue { self.new.dialogue ≡ self.old.dialogue }
        ensures still { StandsStill self.old self.new }
        ensures spare { EMITTED_MAX ≤ self.new.outbox.spare + WINDOW_MAX }
    {
        let Ok(_taken) = self.link.on_packet(packet, &mut self.outbox) else {
            unreachable!();
        };
    }

    /// Ends a session that can't go on: closes the link, and sends the final text if the end had parted.
    fn break_off(&mut self, has_parted: bool, how: End)
        requires up { IsUp self.old.link }
        requires spare { 2 ≤ self.old.outbox.spare }
        ensures stage { self.new.stage ≡ ended (how_it_ends has_parted how) }
        ensures link { self.new.link ≡ (step self.old.link to_close).state }
        ensures emitted { self.new.outbox.entries ≡ (self.old.outbox.entries
            ++ map written (step self.old.link to_close).emitted)
            ++ map entry_of (leave has_parted self.old.identity.side) }
        ensures dialogue { self.new.dialogue ≡ self.old.dialogue }
        ensures identity { self.new.identity ≡ self.old.identity }
        ensures own { self.new.own ≡ self.old.own }
        ensures number { self.new.number ≡ self.old.number }
    {
        self.close();
        self.finish(has_parted, how);
    }

    /// Handles a packet that was found, on a link that has begun. Returns whether its message was taken.
    pub(crate) fn on_packet<S: Spool>(
        &mut self,
        spool: &mut S,
        packet: &Packet<'_>,
    ) -> Result<bool, AllocError>
        requires linked { self.old.stage ≡ linked }
        ensures ok { IfOk result (λ took. TakesUp (S.holdings spool.old) (S.kept spool.old)
            (S.kept spool.new)
            (CountsFaults u64.MAX (S.faults spool.old) (S.faults spool.new))
            (shown packet.now) self.old self.new took) }
        ensures says { OnOk result (SaysWhatItCan self.new) }
        ensures err { OnErr result (Does (unmoved (end_of (S.holdings spool.old)
            (S.kept spool.old) self.old))
            (end_of (S.holdings spool.old) (S.kept spool.new) self.new) self.old self.new) }
        ensures faults { OnErr result (S.faults spool.new ≡ S.faults spool.old) }
        ensures holdings { S.holdings spool.new ≡ S.holdings spool.old }
        ensures count { S.faults spool.old ≤ S.faults spool.new }
    {
        self.outbox.reserve(EMITTED_MAX)?;
        self.dialogue.reserve()?;
        if self.link.takes(packet) {
            self.take(spool, packet)?;
            Ok(true)
        } else {
            self.hear(spool, packet);
            Ok(false)
        }
    }

    /// Handles a broken packet, on a link that has begun.
    pub(crate) fn on_bad<S: Spool>(&mut self, spool: &S) -> Result<(), AllocError>
        requires linked { self.old.stage ≡ linked }
        ensures ok { OnOk result (Does (bad_came self.old.number (end_keeper self.old.identity.side
            (S.holdings spool.now)) self.old.identity
            self.old.link (dialogue_of (S.holdings spool.now) (S.kept spool.now) self.old.dialogue))
            (end_of (S.holdings spool.now) (S.kept spool.now) self.new) self.old self.new) }
        ensures says { OnOk result (SaysWhatItCan self.new) }
        ensures err { OnErr result (Does (unmoved (bare self.old))
            (bare self.new) self.old self.new) }
        ensures nothing_taken { (bad_came self.old.number
            (end_keeper self.old.identity.side (S.holdings spool.now))
            self.old.identity
            self.old.link (dialogue_of (S.holdings spool.now) (S.kept spool.now) self.old.dialogue)).took
            ≡ false }
    {
        self.outbox.reserve(EMITTED_MAX)?;
        match self.link.on_bad(&mut self.outbox) {
            Ok(Outcome::Nothing) => self.speak(spool),
            Err(LinkFault::Halted) => self.speak(spool),
            Ok(Outcome::Up | Outcome::Taken | Outcome::Closed) => unreachable!(),
            Err(LinkFault::Memory | LinkFault::GaveUp) => unreachable!(),
        }
        Ok(())
    }

    /// Handles a timeout.
    pub(crate) fn on_timeout(&mut self) -> Result<(), AllocError>
        ensures ok { OnOk result (Does (stage_late self.old.number self.old.identity
            (dialogue_has_parted self.old.dialogue) self.old.stage
            self.old.link self.old.dialogue) (bare self.new) self.old self.new) }
        ensures err { OnErr result (Does (unmoved (bare self.old))
            (bare self.new) self.old self.new) }
        ensures only_linked { OnErr result (self.old.stage ≡ linked) }
        ensures only_speaking { OnErr result ((step self.old.link timed_out).emitted ≢ []) }
    {
        match self.stage {
            Stage::Hailing(greeting) => self.lead_to(greeting.on_timeout()),
            Stage::Linked => self.late()?,
            Stage::Ended(_) => {}
        }
        Ok(())
    }

    /// Handles a timeout on a link.
    fn late(&mut self) -> Result<(), AllocError>
        requires linked { self.old.stage ≡ linked }
        ensures ok { OnOk result (Does (late self.old.number self.old.identity
            (dialogue_has_parted self.old.dialogue)
            self.old.link self.old.dialogue) (bare self.new) self.old self.new) }
        ensures err { OnErr result (Does (unmoved (bare self.old))
            (bare self.new) self.old self.new) }
        ensures speaks { OnErr result ((step self.old.link timed_out).emitted ≢ []) }
    {
        if self.link.speaks_when_late() {
            return self.repeat();
        }
        self.stay_silent();
        Ok(())
    }

    /// Handles a timeout on a link that has something to repeat, or that ends.
    fn repeat(&mut self) -> Result<(), AllocError>
        requires linked { self.old.stage ≡ linked }
        ensures ok { OnOk result (Does (late self.old.number self.old.identity
            (dialogue_has_parted self.old.dialogue)
            self.old.link self.old.dialogue) (bare self.new) self.old self.new) }
        ensures err { OnErr result (Does (unmoved (bare self.old))
            (bare self.new) self.old self.new) }
    {
        self.outbox.reserve(EMITTED_MAX)?;
        match self.link.on_timeout(&mut self.outbox) {
            Ok(Outcome::Nothing) => {}
            Err(LinkFault::Halted) => {}
            Err(LinkFault::GaveUp) => {
                let has_parted = self.dialogue.has_parted();
                self.finish(has_parted, End::GaveUp);
            }
            Ok(Outcome::Up | Outcome::Taken | Outcome::Closed) => unreachable!(),
            Err(LinkFault::Memory) => unreachable!(),
        }
        Ok(())
    }

    /// Handles a timeout on a link that emits nothing. It takes no memory.
    fn stay_silent(&mut self)
        requires linked { self.old.stage ≡ linked }
        requires silent { (step self.old.link timed_out).emitted ≡ [] }
        ensures { Does (late self.old.number self.old.identity (dialogue_has_parted self.old.dialogue)
            self.old.link self.old.dialogue) (bare self.new) self.old self.new }
    {
        match self.link.on_timeout(&mut self.outbox) {
            Ok(Outcome::Nothing) => {}
            Err(LinkFault::Halted) => {}
            Ok(Outcome::Up | Outcome::Taken | Outcome::Closed) => unreachable!(),
            Err(LinkFault::Memory | LinkFault::GaveUp) => unreachable!(),
        }
    }

    /// Handles a text of the greeting.
    pub(crate) fn on_text(&mut self, greeting: Greeting, text: &[u8]) -> Result<(), AllocError>
        requires hailing { self.old.stage ≡ hailing greeting }
        ensures ok { OnOk result (Does (hailing_step self.old.identity greeting
            (text_found text.now) (bare self.old))
            (bare self.new) self.old self.new) }
        ensures says { OnOk result (SaysWhatItCan self.new) }
        ensures err { OnErr result (Does (unmoved (bare self.old))
            (bare self.new) self.old self.new) }
    {
        self.outbox.reserve(EMITTED_MAX)?;
        let led = greeting.on_text(&self.place, text, &mut self.outbox)?;
        self.place.number = number_behind(led.rises, self.place.number);
        self.lead_to(led.greeted);
        Ok(())
    }

    /// Ends the session because a text of the greeting is too long.
    pub(crate) fn on_long_text(&mut self)
        ensures { self.new ≡ with_stage (ended End.BadTalk) self.old }
    {
        self.stage = Stage::Ended(End::BadTalk);
    }

    /// Moves to the stage that the greeting has led to.
    fn lead_to(&mut self, greeted: Greeted)
        requires hailing { IsHailing self.old.stage }
        requires spare { greeted ≡ Greeted.LinkBegins → WINDOW_MAX ≤ self.old.outbox.spare }
        ensures does { Does (greeted_so self.old.number self.old.identity greeted []
            self.old.link self.old.dialogue)
            (bare self.new) self.old self.new }
        ensures says { SaysWhatItCan self.new }
    {
        match greeted {
            Greeted::GoesOn(greeting) => self.stage = Stage::Hailing(greeting),
            Greeted::LinkBegins => self.begin_link(),
            Greeted::Ended(how) => self.stage = Stage::Ended(how),
        }
    }

    /// Begins the link. The caller sends its first packet.
    fn begin_link(&mut self)
        requires hailing { IsHailing self.old.stage }
        requires spare { WINDOW_MAX ≤ self.old.outbox.spare }
        ensures does { Does (begins_link self.old.number self.old.identity.side
            self.old.link self.old.dialogue [])
            (bare self.new) self.old self.new }
        ensures says { SaysWhatItCan self.new }
    {
        self.stage = Stage::Linked;
        match self.side {
            Side::Called => {}
            Side::Caller => {
                let Ok(()) = self.link.begin(&mut self.outbox) else {
                    unreachable!();
                };
            }
        }
    }

    /// Handles the loss of the line.
    pub(crate) fn hang_up(&mut self)
        ensures { self.new ≡ with_stage (hung_up (dialogue_has_parted self.old.dialogue)
            self.old.stage) self.old }
    {
        match self.stage {
            Stage::Hailing(_) => self.stage = Stage::Ended(End::HungUp),
            Stage::Linked if self.dialogue.has_parted() => self.stage = Stage::Ended(End::Done),
            Stage::Linked => self.stage = Stage::Ended(End::HungUp),
            Stage::Ended(_) => {}
        }
    }

    /// Returns the stage of the session.
    pub(crate) fn stage(&self) -> Stage
        ensures { stage_of result ≡ self.now.stage }
    {
        self.stage
    }

    /// Returns the phase of the session, which also depends on the link.
    pub(crate) fn phase(&self) -> Phase
        ensures { result ≡ phase_at self.now.stage self.now.link.phase }
    {
        match self.stage {
            Stage::Hailing(_) => Phase::Hail,
            Stage::Linked if self.link.is_up() => Phase::Talking,
            Stage::Linked if self.link.is_closing() => Phase::Closing,
            Stage::Linked => Phase::Starting,
            Stage::Ended(how) => Phase::Ended(how),
        }
    }

    /// Returns the number of messages that were sent and not acknowledged. It is 0 in the greeting.
    pub(crate) fn unacked(&self) -> usize
        ensures count { result ≡ length self.now.link.unacked }
        ensures most { result ≤ WINDOW_MAX }
        ensures greeting { IsHailing self.now.stage → result ≡ 0 }
    {
        self.link.unacked()
    }

    /// Returns the number of the oldest message that was sent and not acknowledged, or of the next one to be sent.
    pub(crate) fn oldest(&self) -> u8
        ensures { result ≡ self.now.link.oldest }
    {
        self.link.oldest()
    }

    /// Returns the number of the data packet to be taken next.
    pub(crate) fn expected(&self) -> u8
        ensures { result ≡ self.now.link.expected }
    {
        self.link.expected()
    }

    /// Returns the number of timeouts in a row without progress, for an end that talks. For any other it is 0.
    pub(crate) fn timeouts(&self) -> u8
        ensures count { result ≡ timeouts_in
            (phase_at self.now.stage self.now.link.phase) self.now.link.timeouts }
        ensures most { result ≤ TIMEOUTS_MAX }
    {
        match self.phase() {
            Phase::Talking => self.link.timeouts(),
            _ => 0,
        }
    }

    /// Returns whether it is quiet on repeats.
    pub(crate) fn is_quiet(&self) -> bool
        ensures { result ≡ self.now.link.own.quiet }
    {
        self.link.is_quiet()
    }

    /// Returns the entries that were emitted and not yet cleared.
    pub(crate) fn outbox(&self) -> &Outbox<A>
        ensures { result.now ≡ self.now.outbox }
    {
        &self.outbox
    }

    /// Removes everything that was emitted.
    pub(crate) fn clear_outbox(&mut self)
        ensures entries { self.new.outbox.entries ≡ [] }
        ensures spare { self.old.outbox.spare ≤ self.new.outbox.spare }
        ensures rest { self.new ≡ with_outbox self.new.outbox self.old }
    {
        self.outbox.clear();
    }

    /// Returns the number of the next conversation, if one is kept.
    pub(crate) fn number(&self) -> Option<u32>
        ensures { result ≡ self.now.number }
    {
        self.place.number
    }

    /// Sets the number of the next conversation.
    pub(crate) fn set_number(&mut self, number: u32)
        ensures { self.new ≡ with_number (Some number) self.old }
    {
        self.place.number = Some(number);
    }

    /// Returns the jobs.
    pub(crate) fn queue(&self) -> &Queue<A>
        ensures jobs { result.now ≡ self.now.dialogue.machine.lists }
        ensures names { All HasNames (pending self.now.dialogue.machine.lists) }
    {
        self.dialogue.queue()
    }
}

impl<A: Allocator + Copy> Engine<A> {
    /// Makes an end whose first session begins. It takes no memory.
    pub(crate) fn new(
        alloc: A,
        side: Side,
        place: Place,
        queue: Queue<A>,
        mut outbox: Outbox<A>,
    ) -> Self
        requires spare { 1 ≤ outbox.spare }
        ensures { BeginsSession (record { side = side; me = place.me; peer = place.peer })
            (announced place.announce)
            place.number
            (all_ahead queue) outbox.entries result }
    {
        let greeting = first_greeting(side, &place.me, &mut outbox);
        Engine {
            side,
            place,
            stage: Stage::Hailing(greeting),
            link: first_link(side, place.announce),
            dialogue: Dialogue::new(alloc, queue),
            outbox,
            message: Message::new(),
        }
    }

    /// Makes room for what an end says first. All else stays, with and without memory for it.
    pub(crate) fn reserve_first_words(&mut self) -> Result<(), AllocError>
        ensures same { Does (unmoved (bare self.old)) (bare self.new) self.old self.new }
        ensures spare { OnOk result (1 ≤ self.new.outbox.spare) }
    {
        self.outbox.reserve(1)
    }

    /// Lets the spool hold what is left of a file.
    pub(crate) fn leave(&self, spool: &mut MemorySpool<A>) -> Result<(), AllocError>
        ensures ok { OnOk result (held_by spool.new ≡ record (held_by spool.old) {
          partials = partials_then (held_by spool.old).partials
              (left_of (holdings_of (held_by spool.old)) self.now.dialogue.machine);
        }) }
        ensures err { OnErr result (held_by spool.new ≡ held_by spool.old) }
    {
        self.dialogue.leave(spool)
    }

    /// Returns what is left of a file.
    pub(crate) fn left<S: Spool>(&self, spool: &S) -> Result<Option<PartialFile<A>>, AllocError>
        ensures { IfOk result (λ found.
            shown_partial found ≡ left_of (S.holdings spool.now) self.now.dialogue.machine) }
    {
        self.dialogue.left(spool)
    }

    /// Begins the next session: drops what was left of the last one. Every pending job is to be offered.
    pub(crate) fn restart(&mut self)
        requires spare { 1 ≤ self.old.outbox.spare }
        ensures { BeginsSession self.old.identity self.old.own self.old.number
            (all_ahead self.old.dialogue.machine.lists)
            self.old.outbox.entries self.new }
    {
        let greeting = first_greeting(self.side, &self.place.me, &mut self.outbox);
        self.stage = Stage::Hailing(greeting);
        self.link = first_link(self.side, self.place.announce);
        self.dialogue.restart();
    }
}

/// Returns the greeting of an end on this side. The called end says its name.
fn first_greeting<A: Allocator>(side: Side, me: &Name, out: &mut Outbox<A>) -> Greeting
    requires spare { 1 ≤ out.old.spare }
    ensures stage { hailing result ≡ first_stage side }
    ensures said { out.new.entries ≡ out.old.entries ++ map entry_of
        (first_words side me.now) }
{
    match side {
        Side::Caller => Greeting::caller(),
        Side::Called => {
            let Ok(greeting) = Greeting::called(me, out) else {
                unreachable!();
            };
            greeting
        }
    }
}

/// Returns the link of an end on this side, before it has begun.
fn first_link(side: Side, announce: Announce) -> Link
    ensures { result ≡ first_link side (announced announce) }
{
    match side {
        Side::Caller => Link::caller(announce),
        Side::Called => Link::called(announce),
    }
}

/// Returns the final text of an end that is done.
fn final_text(side: Side) -> &'static [u8]
    ensures text { result.now ≡ final_text side }
{
    match side {
        Side::Caller => b"OOOOOO",
        Side::Called => b"OOOOOOO",
    }
}

/// Returns the message of a data packet, or no bytes for a control packet.
fn message_of<'a>(packet: &Packet<'a>) -> &'a [u8]
    ensures { result.now ≡ message_of (shown packet.now) }
{
    match packet {
        Packet::Control(_) => &[],
        Packet::Carry { message, .. } => message,
    }
}
