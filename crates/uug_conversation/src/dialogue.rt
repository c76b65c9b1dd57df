ghost use Rattle.std.specs.Prelude.{◌≡◌, ◌≢◌, ◌≤◌, ◌<◌, ◌⊎◌, ◌++◌, [], length, true, false, All, OnOk, OnErr, IfOk, IfErr, IfSome, IfNone, Some, None};
ghost use Rattle.std.specs.Bool.{OnTrue, OnFalse};
ghost use Rattle.uug_talk.specs.Gathering.{OfFile, limit_of};
ghost use Rattle.uug_conversation.specs.Jobs.{Lists, at_start, pending};
ghost use Rattle.uug_conversation.specs.Left.{left_of};
ghost use Rattle.uug_conversation.specs.MemoryHoldings.{held_by, holdings_of};
ghost use Rattle.uug_conversation.specs.Partials.{partials_then};
ghost use Rattle.uug_conversation.specs.PartialView.{shown_partial};
ghost use Rattle.uug_conversation.specs.Machine.{between, kind_awaited, on_past_limit, opening, replies, reply_to, step};
ghost use Rattle.uug_conversation.specs.Outgoing.{IsSayable, sayings_of};
ghost use Rattle.uug_conversation.specs.Party.{HasNames};
ghost use Rattle.uug_conversation.specs.Reactions.{IsInRange, reply_of};
ghost use Rattle.uug_conversation.specs.Runs.{is_bad};
ghost use Rattle.uug_conversation.specs.DialogueState.{asks_spool, first_of, opened_with, taking, unmeasured, with_first_sent};
ghost use Rattle.uug_conversation.specs.DialogueValue.{IsPart, state_of, dialogue_of, told_as, dialogue_has_parted, dialogue_is_through};

use crate::awaits::Awaits;
use crate::choice::front_of;
use crate::machine::{go_on, on_text};
use crate::memory_spool::MemorySpool;
use crate::outgoing::{Outgoing, SAYINGS_MAX};
use crate::partial_file::PartialFile;
use crate::queue::Queue;
use crate::reaction::Reaction;
use crate::side::Side;
use crate::spool::Spool;
use crate::whole_file::{FileFault, joined, on_file};
use std::alloc::{AllocError, Allocator};
use std::marker::Model;
use uug_talk::{BadText, Gather, MESSAGE_MAX, Message, Progress};

/// One end's part of the conversation: its jobs, the awaited item, its part received until now, and what is still to
/// be said. The files belong to a separate spool.
#[derive(Drop)]
pub struct Dialogue<A: Allocator> {
    queue: Queue<A>,
    awaits: Awaits,
    /// The incoming text or file.
    gather: Gather<A>,
    /// True once the link is up in this session.
    opened: bool,
    /// The size of messages in bytes, once the link is up.
    size: usize,
    /// True if the last message of a command ends with its zero byte, once the link is up.
    short: bool,
    outgoing: Outgoing<A>,
    alloc: A,
}

impl<A: Allocator> Model for Dialogue<A> {
    ghost use Rattle.std.specs.Prelude.{◌≡◌, ◌≤◌, ◌<◌, true};
    ghost use Rattle.uug_talk.specs.declared.chunks.TheConstants.{MESSAGE_MAX};
    ghost use Rattle.uug_conversation.specs.Reactions.{IsInRange};
    ghost use Rattle.uug_conversation.specs.DialogueValue.{DialogueValue, IsPart, state_of};

    ghost Value = { DialogueValue };

    ghost view = { λ d. record {
      opened = d.opened;
      machine = state_of d.queue d.awaits d.gather;
      measure = record { size = d.size; short = d.short };
      outgoing = d.outgoing;
    } };

    ghost invariant = { λ d. IsInRange d.awaits × IsPart d.awaits d.gather
        × (d.size ≤ MESSAGE_MAX)
        × (d.opened ≡ true → 0 < d.size) };
}

impl<A: Allocator + Copy> Dialogue<A> {
    /// Makes the dialogue before the link is up, with every pending job ahead. It takes no memory.
    pub fn new(alloc: A, mut queue: Queue<A>) -> Self
        ensures machine { result.machine
            ≡ between (at_start (pending queue) queue.struck queue.failed) Awaits.Order }
        ensures opened { result.opened ≡ false }
        ensures measure { result.measure ≡ unmeasured }
        ensures sayings { result.outgoing.sayings ≡ [] }
        ensures offset { result.outgoing.offset ≡ 0 }
    {
        queue.restart();
        Dialogue {
            queue,
            awaits: Awaits::Order,
            gather: Gather::command(),
            opened: false,
            size: 0,
            short: false,
            outgoing: Outgoing::new(alloc),
            alloc,
        }
    }

    /// Starts a session: drops what was left of the last one, and puts every pending job ahead.
    pub fn restart(&mut self)
        ensures machine { self.new.machine ≡ between (at_start (pending self.old.machine.lists)
            self.old.machine.lists.struck self.old.machine.lists.failed) Awaits.Order }
        ensures opened { self.new.opened ≡ false }
        ensures measure { self.new.measure ≡ unmeasured }
        ensures sayings { self.new.outgoing.sayings ≡ [] }
        ensures offset { self.new.outgoing.offset ≡ 0 }
    {
        self.queue.restart();
        self.awaits = Awaits::Order;
        self.gather = Gather::command();
        self.opened = false;
        self.size = 0;
        self.short = false;
        self.outgoing.clear();
    }

    /// Makes room for everything that one message can cause to be said. All else stays as it was.
    pub fn reserve(&mut self) -> Result<(), AllocError>
        ensures opened { self.new.opened ≡ self.old.opened }
        ensures machine { self.new.machine ≡ self.old.machine }
        ensures measure { self.new.measure ≡ self.old.measure }
        ensures sayings { self.new.outgoing.sayings ≡ self.old.outgoing.sayings }
        ensures offset { self.new.outgoing.offset ≡ self.old.outgoing.offset }
        ensures room { OnOk result (SAYINGS_MAX ≤ self.new.outgoing.room) }
    {
        self.outgoing.reserve()
    }

    /// Opens the conversation after the link has come up. A message has at most `size` bytes. If `short` is set, the
    /// last message of a command or an answer ends with its zero byte.
    // A separate call, made once a session, so that a packet reserves no room for what this causes to be said.
    #[inline(never)]
    pub fn open<S: Spool>(&mut self, side: Side, spool: &S, size: usize, short: bool)
        requires room { SAYINGS_MAX ≤ self.old.outgoing.room }
        requires some { 0 < size }
        requires fits { size ≤ MESSAGE_MAX }
        ensures opened { dialogue_of (S.holdings spool.now) (S.kept spool.now) self.new
            ≡ opened_with side (S.holdings spool.now) (record { size = size; short = short })
            (dialogue_of (S.holdings spool.now) (S.kept spool.now) self.old) }
    {
        let reaction = opening(&mut self.queue, spool, side);
        self.opened = true;
        self.size = size;
        self.short = short;
        self.awaits = reaction.awaits;
        self.gather = gather_for(&reaction.awaits, self.alloc);
        self.outgoing.clear();
        self.outgoing.say(reaction.says);
    }

    /// Takes the other end's next message. `Memory` and `Device` leave everything as it was. They are the spool's if a
    /// file is to be kept. `Device` occurs only then.
    pub fn take<S: Spool>(&mut self, spool: &mut S, message: &[u8]) -> Result<(), FileFault>
        requires room { SAYINGS_MAX ≤ self.old.outgoing.room }
        requires opened { self.old.opened ≡ true }
        ensures holdings { S.holdings spool.new ≡ S.holdings spool.old }
        ensures taken { OnOk result (dialogue_of (S.holdings spool.old) (S.kept spool.new) self.new
            ≡ taking (S.holdings spool.old) message.now
            (dialogue_of (S.holdings spool.old) (S.kept spool.old) self.old)) }
        ensures same { OnErr result (self.new ≡ self.old) }
        ensures none_kept { OnErr result (S.kept spool.new ≡ S.kept spool.old) }
        ensures stands { result ≢ Err FileFault.Device → S.faults spool.new ≡ S.faults spool.old }
        ensures asked { result ≡ Err FileFault.Device
            → asks_spool (S.holdings spool.old) self.old.machine message.now ≡ true }
        ensures device { result ≡ Err FileFault.Device
            → (S.faults spool.old < S.faults spool.new) ⊎ (S.faults spool.old ≡ u64.MAX) }
        ensures count { S.faults spool.old ≤ S.faults spool.new }
    {
        if self.awaits.is_file() && !message.is_empty() {
            let taken = self.take_part(spool, message);
            self.note(spool);
            return taken;
        }
        self.take_and_say(spool, message)
    }

    /// Takes a part of a file. Nothing is said in reply, so this makes no reaction. A reaction has room for two
    /// commands, and takes longer to make than the part takes.
    fn take_part<S: Spool>(&mut self, spool: &S, message: &[u8]) -> Result<(), FileFault>
        requires opened { self.old.opened ≡ true }
        requires file { kind_awaited self.old.machine.awaits
            ≡ OfFile (limit_of (kind_awaited self.old.machine.awaits)) }
        requires some { message.now ≢ [] }
        ensures taken { OnOk result (dialogue_of (S.holdings spool.now) (S.kept spool.now) self.new
            ≡ taking (S.holdings spool.now) message.now
            (dialogue_of (S.holdings spool.now) (S.kept spool.now) self.old)) }
        ensures same { OnErr result (self.new ≡ self.old) }
        ensures memory { IfErr result (λ fault. fault ≡ FileFault.Memory) }
    {
        match self.gather.push(message) {
            Ok(_) => Ok(()),
            Err(BadText::Memory) => Err(FileFault::Memory),
            Err(_) => {
                self.pass_limit(spool);
                Ok(())
            }
        }
    }

    /// Lets the spool note what has come of the awaited file, if its digest was announced.
    fn note<S: Spool>(&self, spool: &mut S)
        ensures holdings { S.holdings spool.new ≡ S.holdings spool.old }
        ensures kept { S.kept spool.new ≡ S.kept spool.old }
        ensures faults { S.faults spool.new ≡ S.faults spool.old }
    {
        if let Awaits::SentFile {
            source,
            told: Some(told),
            ..
        } = &self.awaits
        {
            spool.note(source, told, self.gather.bytes());
        }
    }

    /// Handles a file that has passed its limit.
    #[inline(never)]
    fn pass_limit<S: Spool>(&mut self, spool: &S)
        ensures machine { on_past_limit (S.holdings spool.now).lenient
            (kind_awaited self.old.machine.awaits) self.old.machine.awaits self.old.machine.lists
            ≡ record { state = self.new.machine; says = []; keeps = [] } }
        ensures opened { self.new.opened ≡ self.old.opened }
        ensures measure { self.new.measure ≡ self.old.measure }
        ensures outgoing { self.new.outgoing ≡ self.old.outgoing }
    {
        self.awaits = awaits_past_limit(spool, &self.awaits);
        self.gather = gather_for(&self.awaits, self.alloc);
    }

    /// Takes a message that may have a reply. This is a separate call, to keep the reply's memory away from the parts
    /// of a file.
    #[inline(never)]
    fn take_and_say<S: Spool>(&mut self, spool: &mut S, message: &[u8]) -> Result<(), FileFault>
        requires room { SAYINGS_MAX ≤ self.old.outgoing.room }
        requires opened { self.old.opened ≡ true }
        ensures holdings { S.holdings spool.new ≡ S.holdings spool.old }
        ensures taken { OnOk result (dialogue_of (S.holdings spool.old) (S.kept spool.new) self.new
            ≡ taking (S.holdings spool.old) message.now
            (dialogue_of (S.holdings spool.old) (S.kept spool.old) self.old)) }
        ensures same { OnErr result (self.new ≡ self.old) }
        ensures none_kept { OnErr result (S.kept spool.new ≡ S.kept spool.old) }
        ensures stands { result ≢ Err FileFault.Device → S.faults spool.new ≡ S.faults spool.old }
        ensures asked { result ≡ Err FileFault.Device
            → asks_spool (S.holdings spool.old) self.old.machine message.now ≡ true }
        ensures device { result ≡ Err FileFault.Device
            → (S.faults spool.old < S.faults spool.new) ⊎ (S.faults spool.old ≡ u64.MAX) }
        ensures count { S.faults spool.old ≤ S.faults spool.new }
    {
        let told = reaction_unless_early(
            &mut self.queue,
            spool,
            &self.awaits,
            &mut self.gather,
            self.outgoing.is_silent(),
            message,
            self.alloc,
        )?;
        if let Some(reaction) = told {
            self.awaits = reaction.awaits;
            self.gather = gather_for(&reaction.awaits, self.alloc);
            self.outgoing.say(reaction.says);
        }
        Ok(())
    }

    /// Writes the next outgoing message into `message`, and returns whether there was one. The message counts as sent.
    pub fn take_message<S: Spool>(&mut self, spool: &S, message: &mut Message) -> bool
        requires { self.old.opened ≡ true }
        ensures first { OnTrue result (first_of (dialogue_of (S.holdings spool.now)
            (S.kept spool.now) self.old).waiting ≡ Some message.new.items) }
        ensures none { OnFalse result (first_of (dialogue_of (S.holdings spool.now)
            (S.kept spool.now) self.old).waiting ≡ None) }
        ensures sent { dialogue_of (S.holdings spool.now) (S.kept spool.now) self.new
            ≡ with_first_sent (dialogue_of (S.holdings spool.now) (S.kept spool.now) self.old) }
        ensures size { OnTrue result (length message.new.items ≤ self.old.measure.size) }
    {
        self.outgoing
            .take_message(spool, self.size, self.short, message)
    }

    /// Returns whether a message that was taken fitted no turn.
    pub fn is_bad(&self) -> bool
        ensures { result ≡ is_bad self.now.machine.awaits }
    {
        matches!(self.awaits, Awaits::Bad)
    }

    /// Returns whether everything is said and nothing more is to come.
    pub fn is_through(&self) -> bool
        ensures { result ≡ dialogue_is_through self.now }
    {
        matches!(self.awaits, Awaits::NothingMore) && self.outgoing.is_silent()
    }

    /// Returns whether HY was said or taken.
    pub fn has_parted(&self) -> bool
        ensures { result ≡ dialogue_has_parted self.now }
    {
        match self.awaits {
            Awaits::NothingMore => true,
            Awaits::LastHangUp => self.outgoing.is_silent(),
            _ => false,
        }
    }

    /// Lets the spool hold what is left of a file if the session has ended in its middle and the end resumes: what was
    /// held of it, and what came behind that. Without memory nothing changes.
    pub fn leave(&self, spool: &mut MemorySpool<A>) -> Result<(), AllocError>
        ensures ok { OnOk result (held_by spool.new ≡ record (held_by spool.old) {
          partials = partials_then (held_by spool.old).partials
              (left_of (holdings_of (held_by spool.old)) self.now.machine);
        }) }
        ensures err { OnErr result (held_by spool.new ≡ held_by spool.old) }
    {
        match self.left(spool)? {
            Some(file) => spool.hold(file),
            None => Ok(()),
        }
    }

    /// Returns what is left of a file if the session has ended in its middle: what the spool held of it, and what came
    /// behind that.
    pub fn left<S: Spool>(&self, spool: &S) -> Result<Option<PartialFile<A>>, AllocError>
        ensures { IfOk result (λ found.
            shown_partial found ≡ left_of (S.holdings spool.now) self.now.machine) }
    {
        match self.awaits {
            Awaits::SentFile {
                source,
                told: Some(told),
                ..
            } => {
                let front = front_of(spool, &source, &Some(told));
                let bytes = joined(front, self.gather.bytes(), self.alloc)?;
                Ok(Some(PartialFile {
                    source,
                    told,
                    bytes,
                }))
            }
            _ => Ok(None),
        }
    }

    /// Returns the jobs.
    pub fn queue(&self) -> &Queue<A>
        ensures jobs { result.now ≡ self.now.machine.lists }
        ensures names { All HasNames (pending self.now.machine.lists) }
    {
        self.queue.pending();
        &self.queue
    }
}

/// Returns the reaction of an end on this side when the link has come up.
fn opening<A: Allocator, S: Spool>(queue: &mut Queue<A>, spool: &S, side: Side) -> Reaction
    ensures reply { opening side (S.holdings spool.now) queue.old
        ≡ reply_of (S.holdings spool.now) queue.new result [] }
    ensures mode { IsInRange result.awaits }
    ensures sayable { All IsSayable (sayings_of result.says) }
{
    match side {
        Side::Caller => go_on(queue, spool, None),
        Side::Called => Reaction::quiet(Awaits::Order),
    }
}

/// Makes an empty gatherer for the awaited item.
fn gather_for<A: Allocator + Copy>(awaits: &Awaits, alloc: A) -> Gather<A>
    requires { IsInRange awaits.now }
    ensures kind { result.kind ≡ kind_awaited awaits.now }
    ensures bytes { result.bytes ≡ [] }
    ensures whole { result.whole ≡ false }
{
    match awaits {
        Awaits::SentFile { limit, .. }
        | Awaits::AskedFile { limit, .. }
        | Awaits::DroppedSentFile { limit }
        | Awaits::DroppedAskedFile { limit } => Gather::file_from(Vec::new(alloc), *limit),
        _ => Gather::command(),
    }
}

/// Returns the reaction to a message. A message fits no turn if it should give a file's result before that file was
/// sent whole. `none_waits` says whether everything said before was sent.
fn reaction_unless_early<A: Allocator, S: Spool>(
    queue: &mut Queue<A>,
    spool: &mut S,
    awaits: &Awaits,
    gather: &mut Gather<A>,
    none_waits: bool,
    message: &[u8],
    alloc: A,
) -> Result<Option<Reaction>, FileFault>
    requires mode { IsInRange awaits.now }
    requires part { IsPart awaits.now gather.old }
    ensures holdings { S.holdings spool.new ≡ S.holdings spool.old }
    ensures reply { IfOk result (λ told. reply_to (S.holdings spool.old) none_waits
        (state_of queue.old awaits.now gather.old) message.now
        ≡ told_as (S.holdings spool.old) (state_of queue.new awaits.now gather.new) told
        (reply_to (S.holdings spool.old) none_waits (state_of queue.old awaits.now gather.old)
        message.now).keeps) }
    ensures kept { OnOk result (S.kept spool.new ≡ S.kept spool.old
        ++ (reply_to (S.holdings spool.old) none_waits
        (state_of queue.old awaits.now gather.old) message.now).keeps) }
    ensures mode { IfOk result (λ told. IfSome told (λ reaction. IsInRange reaction.awaits)) }
    ensures sayable { IfOk result (λ told.
        IfSome told (λ reaction. All IsSayable (sayings_of reaction.says))) }
    ensures more { IfOk result (λ told. IfNone told (IsPart awaits.now gather.new)) }
    ensures jobs_stay { OnErr result (queue.new ≡ queue.old) }
    ensures none_gathered { OnErr result (gather.new ≡ gather.old) }
    ensures none_kept { OnErr result (S.kept spool.new ≡ S.kept spool.old) }
    ensures stands { result ≢ Err FileFault.Device → S.faults spool.new ≡ S.faults spool.old }
    ensures asked { result ≡ Err FileFault.Device → asks_spool (S.holdings spool.old)
        (state_of queue.old awaits.now gather.old) message.now ≡ true }
    ensures device { result ≡ Err FileFault.Device
        → (S.faults spool.old < S.faults spool.new) ⊎ (S.faults spool.old ≡ u64.MAX) }
    ensures count { S.faults spool.old ≤ S.faults spool.new }
{
    if awaits.comes_early(none_waits) {
        return Ok(Some(Reaction::out_of_turn()));
    }
    reaction_to(queue, spool, awaits, gather, message, alloc)
}

/// Returns the reaction to a message that belongs to the awaited item, or none if more of the item is to come.
/// `Memory` and `Device` leave everything as it was.
fn reaction_to<A: Allocator, S: Spool>(
    queue: &mut Queue<A>,
    spool: &mut S,
    awaits: &Awaits,
    gather: &mut Gather<A>,
    message: &[u8],
    alloc: A,
) -> Result<Option<Reaction>, FileFault>
    requires mode { IsInRange awaits.now }
    requires part { IsPart awaits.now gather.old }
    ensures holdings { S.holdings spool.new ≡ S.holdings spool.old }
    ensures reply { IfOk result (λ told. step (S.holdings spool.old)
        (state_of queue.old awaits.now gather.old) message.now
        ≡ told_as (S.holdings spool.old) (state_of queue.new awaits.now gather.new) told
        (step (S.holdings spool.old) (state_of queue.old awaits.now gather.old)
        message.now).keeps) }
    ensures kept { OnOk result (S.kept spool.new ≡ S.kept spool.old
        ++ (step (S.holdings spool.old) (state_of queue.old awaits.now gather.old)
        message.now).keeps) }
    ensures mode { IfOk result (λ told. IfSome told (λ reaction. IsInRange reaction.awaits)) }
    ensures sayable { IfOk result (λ told.
        IfSome told (λ reaction. All IsSayable (sayings_of reaction.says))) }
    ensures more { IfOk result (λ told. IfNone told (IsPart awaits.now gather.new)) }
    ensures jobs_stay { OnErr result (queue.new ≡ queue.old) }
    ensures none_gathered { OnErr result (gather.new ≡ gather.old) }
    ensures none_kept { OnErr result (S.kept spool.new ≡ S.kept spool.old) }
    ensures stands { result ≢ Err FileFault.Device → S.faults spool.new ≡ S.faults spool.old }
    ensures asked { result ≡ Err FileFault.Device → asks_spool (S.holdings spool.old)
        (state_of queue.old awaits.now gather.old) message.now ≡ true }
    ensures device { result ≡ Err FileFault.Device
        → (S.faults spool.old < S.faults spool.new) ⊎ (S.faults spool.old ≡ u64.MAX) }
    ensures count { S.faults spool.old ≤ S.faults spool.new }
{
    if awaits.is_file() && message.is_empty() {
        let reaction = on_file(queue, spool, *awaits, gather.bytes(), alloc)?;
        return Ok(Some(reaction));
    }
    reaction_to_part(queue, spool, awaits, gather, message)
}

/// Returns the reaction to a message that ends no file. The spool is not asked to keep a file, so the only error is
/// `Memory`.
fn reaction_to_part<A: Allocator, S: Spool>(
    queue: &mut Queue<A>,
    spool: &S,
    awaits: &Awaits,
    gather: &mut Gather<A>,
    message: &[u8],
) -> Result<Option<Reaction>, FileFault>
    requires range { IsInRange awaits.now }
    requires part { IsPart awaits.now gather.old }
    requires no_end { kind_awaited awaits.now ≡ OfFile (limit_of (kind_awaited awaits.now))
        → message.now ≢ [] }
    ensures reply { IfOk result (λ told. step (S.holdings spool.now)
        (state_of queue.old awaits.now gather.old) message.now
        ≡ told_as (S.holdings spool.now) (state_of queue.new awaits.now gather.new) told []) }
    ensures mode { IfOk result (λ told. IfSome told (λ reaction. IsInRange reaction.awaits)) }
    ensures sayable { IfOk result (λ told.
        IfSome told (λ reaction. All IsSayable (sayings_of reaction.says))) }
    ensures more { IfOk result (λ told. IfNone told (IsPart awaits.now gather.new)) }
    ensures jobs_stay { OnErr result (queue.new ≡ queue.old) }
    ensures none_gathered { OnErr result (gather.new ≡ gather.old) }
    ensures memory { IfErr result (λ fault. fault ≡ FileFault.Memory) }
{
    match gather.push(message) {
        Ok(Progress::More) => Ok(None),
        Ok(Progress::Whole) => Ok(Some(on_text(queue, spool, *awaits, gather.bytes()))),
        Err(BadText::Memory) => Err(FileFault::Memory),
        Err(_) => Ok(Some(Reaction::quiet(awaits_past_limit(spool, awaits)))),
    }
}

/// Returns what is awaited after a text or a file has passed its limit. A lenient end lets a file run to its end.
fn awaits_past_limit<S: Spool>(spool: &S, awaits: &Awaits) -> Awaits
    requires { IsInRange awaits.now }
    ensures reply { (l : Lists) → on_past_limit (S.holdings spool.now).lenient
        (kind_awaited awaits.now) awaits.now l ≡ replies l result [] }
    ensures mode { IsInRange result }
{
    if !spool.is_lenient() {
        return Awaits::Bad;
    }
    match awaits {
        Awaits::SentFile { limit, .. } | Awaits::DroppedSentFile { limit } => {
            Awaits::DroppedSentFile { limit: *limit }
        }
        Awaits::AskedFile { limit, .. } | Awaits::DroppedAskedFile { limit } => {
            Awaits::DroppedAskedFile { limit: *limit }
        }
        _ => Awaits::Bad,
    }
}
