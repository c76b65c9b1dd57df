ghost use Rattle.std.specs.Prelude.{◌≡◌, ◌≢◌, ◌↔◌, ◌<◌, ◌≤◌, ℕ, [], length, take, true, false, All};
ghost use Rattle.std.specs.Prelude.{OnOk, OnErr, IfOk, IfSome, IsNone, MatchOption, Some};
ghost use Rattle.uug_link.specs.Step.{step, timed_out};
ghost use Rattle.uug_session.specs.Engine.{CountsFaults, Does, IsEnded, IsHailing, bare, hung_up};
ghost use Rattle.uug_session.specs.Engine.{stage_late, with_number, with_outbox, with_stage};
ghost use Rattle.uug_conversation.specs.Jobs.{pending};
ghost use Rattle.uug_session.specs.Node.{node_of, spool_of, accepted, held_bytes, item_size};
ghost use Rattle.uug_session.specs.Node.{offered, searched, shown_item};
ghost use Rattle.uug_session.specs.Node.{HasRoom, IsAsBefore, LeavesRoom, TakesShown};
ghost use Rattle.uug_session.specs.ShownItems.{HoldsNoItem, IsFirstItem, IsShown};
ghost use Rattle.uug_session.specs.ShownItems.{PassesNoiseOnLink};
ghost use Rattle.uug_session.specs.NodeLoan.{EndsFound};
ghost use Rattle.uug_conversation.specs.Party.{HasNames};
ghost use Rattle.uug_session.specs.Phases.{phase_at, timeouts_in};
ghost use Rattle.uug_session.specs.Sending.{SaysWhatItCan};
ghost use Rattle.uug_conversation.specs.DialogueValue.{dialogue_has_parted};
ghost use Rattle.std.specs.Borrow.{sem};
ghost use Rattle.uug_session.specs.EndStep.{hailing, linked, unmoved};

use crate::engine::Engine;
use crate::greeting::Greeting;
use crate::item::Item;
use crate::phase::Phase;
use crate::stage::Stage;
use crate::texts::Texts;
use std::alloc::{AllocError, Allocator};
use uug_conversation::{Queue, Spool};
use uug_link::{Outbox, TIMEOUTS_MAX, WINDOW_MAX};
use uug_reader::{Found, READER_SIZE, Reader};

/// One whole end: its own name and the other's, its jobs, its files, and the state of its session. It reads bytes that
/// are offered to it, and emits into its outbox. It knows no time and no line.
#[derive(Drop)]
pub struct Node<S: Spool, A: Allocator> {
    pub(crate) engine: Engine<A>,
    /// The bytes that came in the greeting and were not read yet.
    pub(crate) texts: Texts<A>,
    /// The bytes that came on the link and were not read yet.
    pub(crate) packets: Reader<A>,
    pub(crate) spool: S,
}

impl<S: Spool, A: Allocator + Copy> Node<S, A> {
    /// Takes the first bytes of a piece that fit, and returns their number. An end whose session is over takes all
    /// bytes and drops them.
    pub fn offer(&mut self, piece: &[u8]) -> usize
        ensures count { result ≡ accepted (node_of self.old) piece.now }
        ensures bytes { node_of self.new ≡ offered (take result piece.now) (node_of self.old) }
        ensures spool { spool_of self.new ≡ spool_of self.old }
    {
        match self.engine.stage() {
            Stage::Hailing(_) => self.texts.push(piece),
            Stage::Linked => self.packets.push(piece),
            Stage::Ended(_) => piece.len(),
        }
    }

    /// Returns the number of held bytes not read yet, at most `READER_SIZE`. It is 0 if the session is over.
    pub fn waiting(&self) -> usize
        ensures len { result ≡ length (held_bytes (node_of self.now)) }
        ensures most { result ≤ READER_SIZE }
    {
        match self.engine.stage() {
            Stage::Hailing(_) => self.texts.waiting(),
            Stage::Linked => self.packets.waiting(),
            Stage::Ended(_) => 0,
        }
    }

    /// Returns the item shown, which is the first in the held bytes.
    pub(crate) fn showing(&self) -> Option<Item<'_>>
        ensures { MatchOption result (item_size (node_of self.now) ≡ 0)
            (λ item. IsShown (shown_item item) (node_of self.now)) }
    {
        match self.engine.stage() {
            Stage::Hailing(_) => Some(Item::Text(self.texts.showing()?)),
            Stage::Linked => match self.packets.showing()? {
                Found::Packet(packet) => Some(Item::Packet(packet)),
                Found::Bad => Some(Item::Bad),
            },
            Stage::Ended(_) => None,
        }
    }

    /// Drops the skipped bytes before the first item, which is then shown. A text that is too long ends the session.
    pub(crate) fn search(&mut self)
        ensures found { node_of self.new ≡ searched (node_of self.old) }
        ensures passes { PassesNoiseOnLink (node_of self.old) (node_of self.new) }
        ensures room { LeavesRoom (node_of self.new) }
        ensures spool { spool_of self.new ≡ spool_of self.old }
    {
        match self.engine.stage() {
            Stage::Hailing(_) => {
                if self.texts.search().is_err() {
                    self.engine.on_long_text();
                }
            }
            Stage::Linked => {
                self.packets.search();
            }
            Stage::Ended(_) => {}
        }
    }

    /// Shows the first item in the held bytes: a text in the greeting, a packet or a broken one on the link. The item
    /// stays until it is taken. Skipped bytes before it are removed. A text that is too long ends the session. After
    /// `None` at least one byte fits.
    pub fn next_found(&mut self) -> Option<Item<'_>>
        ensures none { IsNone result ↔ HoldsNoItem (node_of self.old) }
        ensures first { IfSome result (λ item. IsFirstItem (shown_item item) (node_of self.old)) }
        ensures room { IsNone result → HasRoom (searched (node_of self.old)) }
        ensures* after { sem 𝓛 (EndsFound S.row A.row A.Allocator self.entry result) }
    {
        self.search();
        self.showing()
    }

    /// Handles the item shown, and removes its bytes. Returns true exactly if its message was taken.
    pub fn take_found(&mut self) -> Result<bool, AllocError>
        requires shown { 0 < item_size (node_of self.old) }
        ensures taken { IfOk result (λ took. TakesShown (S.holdings (spool_of self.old))
            (S.kept (spool_of self.old)) (S.kept (spool_of self.new))
            (CountsFaults u64.MAX (S.faults (spool_of self.old)) (S.faults (spool_of self.new)))
            (node_of self.old) (node_of self.new) took) }
        ensures says { OnOk result (SaysWhatItCan (node_of self.new).engine) }
        ensures err { OnErr result (IsAsBefore (S.holdings (spool_of self.old))
            (S.kept (spool_of self.old)) (S.kept (spool_of self.new))
            (node_of self.old) (node_of self.new)) }
        ensures faults { OnErr result
            (S.faults (spool_of self.new) ≡ S.faults (spool_of self.old)) }
        ensures holdings { S.holdings (spool_of self.new) ≡ S.holdings (spool_of self.old) }
        ensures count { S.faults (spool_of self.old) ≤ S.faults (spool_of self.new) }
    {
        match self.engine.stage() {
            Stage::Hailing(greeting) => {
                self.take_text(greeting)?;
                Ok(false)
            }
            Stage::Linked => self.take_packet(),
            Stage::Ended(_) => Ok(false),
        }
    }

    /// Handles the text shown.
    fn take_text(&mut self, greeting: Greeting) -> Result<(), AllocError>
        requires hailing { (node_of self.old).engine.stage ≡ hailing greeting }
        requires shown { 0 < (node_of self.old).texts.shown_size }
        ensures ok { OnOk result (TakesShown (S.holdings (spool_of self.old))
            (S.kept (spool_of self.old)) (S.kept (spool_of self.new))
            (CountsFaults u64.MAX (S.faults (spool_of self.old)) (S.faults (spool_of self.new)))
            (node_of self.old) (node_of self.new) false) }
        ensures says { OnOk result (SaysWhatItCan (node_of self.new).engine) }
        ensures err { OnErr result (IsAsBefore (S.holdings (spool_of self.old))
            (S.kept (spool_of self.old)) (S.kept (spool_of self.new))
            (node_of self.old) (node_of self.new)) }
        ensures spool { spool_of self.new ≡ spool_of self.old }
    {
        let Some(text) = self.texts.showing() else {
            unreachable!();
        };
        self.engine.on_text(greeting, text)?;
        self.texts.drop_found();
        self.packets.clear();
        let rest = self.texts.bytes();
        self.packets.push(rest);
        Ok(())
    }

    /// Handles the packet or the broken one shown.
    fn take_packet(&mut self) -> Result<bool, AllocError>
        requires linked { (node_of self.old).engine.stage ≡ linked }
        requires shown { 0 < (node_of self.old).packets.shown_size }
        ensures ok { IfOk result (λ took. TakesShown (S.holdings (spool_of self.old))
            (S.kept (spool_of self.old)) (S.kept (spool_of self.new))
            (CountsFaults u64.MAX (S.faults (spool_of self.old)) (S.faults (spool_of self.new)))
            (node_of self.old) (node_of self.new) took) }
        ensures says { OnOk result (SaysWhatItCan (node_of self.new).engine) }
        ensures err { OnErr result (IsAsBefore (S.holdings (spool_of self.old))
            (S.kept (spool_of self.old)) (S.kept (spool_of self.new))
            (node_of self.old) (node_of self.new)) }
        ensures faults { OnErr result
            (S.faults (spool_of self.new) ≡ S.faults (spool_of self.old)) }
        ensures holdings { S.holdings (spool_of self.new) ≡ S.holdings (spool_of self.old) }
        ensures count { S.faults (spool_of self.old) ≤ S.faults (spool_of self.new) }
    {
        match self.packets.showing() {
            Some(Found::Packet(packet)) => {
                let took = self.engine.on_packet(&mut self.spool, &packet)?;
                self.packets.drop_found();
                Ok(took)
            }
            Some(Found::Bad) => {
                self.engine.on_bad(&self.spool)?;
                self.packets.drop_found();
                Ok(false)
            }
            None => unreachable!(),
        }
    }

    /// Handles a timeout. It needs memory only if the link has begun and emits something. In the greeting, and after
    /// the session's end, it always returns Ok.
    pub fn on_timeout(&mut self) -> Result<(), AllocError>
        ensures ok { OnOk result (Does (stage_late (node_of self.old).engine.number
            (node_of self.old).engine.identity
            (dialogue_has_parted (node_of self.old).engine.dialogue) (node_of self.old).engine.stage
            (node_of self.old).engine.link (node_of self.old).engine.dialogue)
            (bare (node_of self.new).engine) (node_of self.old).engine (node_of self.new).engine) }
        ensures err { OnErr result (Does (unmoved (bare (node_of self.old).engine))
            (bare (node_of self.new).engine) (node_of self.old).engine (node_of self.new).engine) }
        ensures says { SaysWhatItCan (node_of self.old).engine
            → SaysWhatItCan (node_of self.new).engine }
        ensures only_linked { OnErr result ((node_of self.old).engine.stage ≡ linked) }
        ensures only_speaking { OnErr result
            ((step (node_of self.old).engine.link timed_out).emitted ≢ []) }
        ensures bytes { ((node_of self.new).texts ≡ (node_of self.old).texts)
            × ((node_of self.new).packets ≡ (node_of self.old).packets) }
        ensures spool { spool_of self.new ≡ spool_of self.old }
    {
        self.engine.on_timeout()
    }

    /// Handles the loss of the line: the session is over. Nothing is emitted.
    pub fn hang_up(&mut self)
        ensures stage { (node_of self.new).engine
            ≡ with_stage (hung_up (dialogue_has_parted (node_of self.old).engine.dialogue)
            (node_of self.old).engine.stage) (node_of self.old).engine }
        ensures bytes { ((node_of self.new).texts ≡ (node_of self.old).texts)
            × ((node_of self.new).packets ≡ (node_of self.old).packets) }
        ensures spool { spool_of self.new ≡ spool_of self.old }
    {
        self.engine.hang_up();
    }

    /// Returns the phase of the session.
    pub fn phase(&self) -> Phase
        ensures { result
            ≡ phase_at (node_of self.now).engine.stage (node_of self.now).engine.link.phase }
    {
        self.engine.phase()
    }

    /// Returns the number of messages that were sent and not acknowledged, at most `WINDOW_MAX`. It is 0 in the
    /// greeting.
    pub fn unacked(&self) -> usize
        ensures count { result ≡ length (node_of self.now).engine.link.unacked }
        ensures most { result ≤ WINDOW_MAX }
        ensures greeting { IsHailing (node_of self.now).engine.stage → result ≡ 0 }
    {
        self.engine.unacked()
    }

    /// Returns the number of the oldest message that was sent and not acknowledged, or of the next one to be sent. It
    /// moves on when a message is acknowledged.
    pub fn oldest(&self) -> u8
        ensures { result ≡ (node_of self.now).engine.link.oldest }
    {
        self.engine.oldest()
    }

    /// Returns the number of the data packet to be taken next. It moves on when one is taken.
    pub fn expected(&self) -> u8
        ensures { result ≡ (node_of self.now).engine.link.expected }
    {
        self.engine.expected()
    }

    /// Returns the number of timeouts in a row without progress, for an end that talks, at most `TIMEOUTS_MAX`. For
    /// any other it is 0.
    pub fn timeouts(&self) -> u8
        ensures count { result ≡ timeouts_in (phase_at (node_of self.now).engine.stage
            (node_of self.now).engine.link.phase) (node_of self.now).engine.link.timeouts }
        ensures most { result ≤ TIMEOUTS_MAX }
    {
        self.engine.timeouts()
    }

    /// Returns whether it is quiet on repeats.
    pub fn is_quiet(&self) -> bool
        ensures { result ≡ (node_of self.now).engine.link.own.quiet }
    {
        self.engine.is_quiet()
    }

    /// Returns the entries that were emitted and not yet cleared.
    pub fn outbox(&self) -> &Outbox<A>
        ensures { result.now ≡ (node_of self.now).engine.outbox }
    {
        self.engine.outbox()
    }

    /// Removes everything that was emitted. The room that the outbox has without more memory does not shrink.
    pub fn clear_outbox(&mut self)
        ensures entries { (node_of self.new).engine.outbox.entries ≡ [] }
        ensures spare { (node_of self.old).engine.outbox.spare
            ≤ (node_of self.new).engine.outbox.spare }
        ensures rest { (node_of self.new).engine
            ≡ with_outbox (node_of self.new).engine.outbox (node_of self.old).engine }
        ensures bytes { ((node_of self.new).texts ≡ (node_of self.old).texts)
            × ((node_of self.new).packets ≡ (node_of self.old).packets) }
        ensures spool { spool_of self.new ≡ spool_of self.old }
    {
        self.engine.clear_outbox();
    }

    /// Returns the number of the next conversation with the other end, if one is kept.
    pub fn number(&self) -> Option<u32>
        ensures { result ≡ (node_of self.now).engine.number }
    {
        self.engine.number()
    }

    /// Sets the number of the next conversation, at an end whose session is over. All else stays.
    pub fn set_number(&mut self, number: u32)
        requires ended { IsEnded (node_of self.old).engine.stage }
        ensures number { (node_of self.new).engine
            ≡ with_number (Some number) (node_of self.old).engine }
        ensures bytes { ((node_of self.new).texts ≡ (node_of self.old).texts)
            × ((node_of self.new).packets ≡ (node_of self.old).packets) }
        ensures spool { spool_of self.new ≡ spool_of self.old }
    {
        self.engine.set_number(number);
    }

    /// Returns the jobs. The names of the pending ones are names.
    pub fn queue(&self) -> &Queue<A>
        ensures jobs { result.now ≡ (node_of self.now).engine.dialogue.machine.lists }
        ensures names { All HasNames
            (pending (node_of self.now).engine.dialogue.machine.lists) }
    {
        self.engine.queue()
    }

    /// Returns the files.
    pub fn spool(&self) -> &S
        ensures { result.now ≡ spool_of self.now }
    {
        &self.spool
    }
}
