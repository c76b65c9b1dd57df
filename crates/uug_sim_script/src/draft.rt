//! The statements of a script up to the present line.
ghost use Rattle.std.specs.Prelude.{◌≡◌, [], ◌∷◌, ◌++◌, OnOk, IfOk, IfErr, Some};
ghost use Rattle.uug_sim_script.specs.Fields.{hex_bytes};
ghost use Rattle.uug_sim_script.specs.Meaning.{place as placed_line, job as job_line, number as number_line, quiet as quiet_line, short as short_line, lenient as lenient_line, digest as digest_line, resume as resume_line, limit as limit_line};
ghost use Rattle.uug_link.specs.Announced.{announced};
ghost use Rattle.uug_sim_script.specs.Code.Refusals.{Refuses};
ghost use Rattle.uug_sim_script.specs.Script.{are_suited, end_added, flow_events, completed, end_completed, nothing_of_end, nothing_said};
ghost use Rattle.uug_sim_script.specs.ScriptOf.{file_added, end_line_added, line_added, text_added, said_of_end, said_by, place_by, end_said, end_said_by, script_said_by};

use crate::fault::LineFault;
use crate::fields::spells;
use crate::line::{BYTES_MAX, EndStatement, Statement, read_line};
use crate::mode::Mode;
use crate::script::Script;
use hex::FromHexError;
use std::alloc::{AllocError, Allocator};
use uug_line::{EndSetup, Event, Setup, Side};
use uug_link::Announce;
use uug_session::{FileLimit, Job, MemorySpool, Queue, QueueFault, Spool};
use uug_talk::Name;

/// The name of an end, and its announcement.
#[derive(Clone, Copy, Debug)]
pub(crate) struct EndPlace {
    name: Name,
    announce: Announce,
}

/// The statements about an end.
#[derive(Drop)]
pub(crate) struct EndDraft<A: Allocator> {
    place: Option<EndPlace>,
    queue: Queue<A>,
    spool: MemorySpool<A>,
    /// The number of its conversations.
    number: Option<u32>,
    /// True if it is quiet on repeats.
    quiet: bool,
    /// True if its commands are short.
    short: bool,
    /// True if the limit of its files was given.
    limited: bool,
}

/// The statements of a script.
#[derive(Drop)]
pub(crate) struct Draft<A: Allocator> {
    caller: EndDraft<A>,
    called: EndDraft<A>,
    events: Vec<Event, A>,
}

/// Decodes a word of hexadecimal digits; a dash stands for no bytes.
fn decode_bytes<A: Allocator>(alloc: A, hex: &[u8]) -> Result<Vec<u8, A>, LineFault>
    ensures bytes { IfOk result (λ bytes. hex_bytes hex.now ≡ Some bytes.items) }
    ensures fault { IfErr result (λ fault. Refuses fault (hex_bytes hex.now)) }
{
    if spells(hex, b"-") {
        return Ok(Vec::new(alloc));
    }
    match hex::decode(alloc, hex) {
        Ok(bytes) => Ok(bytes),
        Err(FromHexError::OutOfMemory) => Err(LineFault::Memory),
        Err(_) => Err(LineFault::Bad),
    }
}

impl<A: Allocator + Copy> EndDraft<A> {
    fn new(alloc: A) -> Self
        ensures { said_of_end result ≡ nothing_of_end }
    {
        EndDraft {
            place: None,
            queue: Queue::new(alloc),
            spool: MemorySpool::new(alloc),
            number: None,
            quiet: false,
            short: false,
            limited: false,
        }
    }

    fn set_place(&mut self, name: Name, announce: Announce) -> Result<(), LineFault>
        ensures ok { OnOk result
            (end_added (placed_line name (announced announce)) (said_of_end self.old)
            ≡ Some (said_of_end self.new)) }
        ensures fault { IfErr result (λ fault. Refuses fault
            (end_added (placed_line name (announced announce)) (said_of_end self.old))) }
    {
        if self.place.is_some() {
            return Err(LineFault::Bad);
        }
        self.place = Some(EndPlace { name, announce });
        Ok(())
    }

    fn set_number(&mut self, number: u32) -> Result<(), LineFault>
        ensures ok { OnOk result
            (end_added (number_line number) (said_of_end self.old) ≡ Some (said_of_end self.new)) }
        ensures fault { IfErr result (λ fault.
            Refuses fault (end_added (number_line number) (said_of_end self.old))) }
    {
        if self.number.is_some() {
            return Err(LineFault::Bad);
        }
        self.number = Some(number);
        Ok(())
    }

    fn set_quiet(&mut self) -> Result<(), LineFault>
        ensures ok { OnOk result
            (end_added quiet_line (said_of_end self.old) ≡ Some (said_of_end self.new)) }
        ensures fault { IfErr result (λ fault.
            Refuses fault (end_added quiet_line (said_of_end self.old))) }
    {
        if self.quiet {
            return Err(LineFault::Bad);
        }
        self.quiet = true;
        Ok(())
    }

    fn set_short(&mut self) -> Result<(), LineFault>
        ensures ok { OnOk result
            (end_added short_line (said_of_end self.old) ≡ Some (said_of_end self.new)) }
        ensures fault { IfErr result (λ fault.
            Refuses fault (end_added short_line (said_of_end self.old))) }
    {
        if self.short {
            return Err(LineFault::Bad);
        }
        self.short = true;
        Ok(())
    }

    fn set_lenient(&mut self) -> Result<(), LineFault>
        ensures ok { OnOk result
            (end_added lenient_line (said_of_end self.old) ≡ Some (said_of_end self.new)) }
        ensures fault { IfErr result (λ fault.
            Refuses fault (end_added lenient_line (said_of_end self.old))) }
    {
        if self.spool.is_lenient() {
            return Err(LineFault::Bad);
        }
        self.spool.set_lenient(true);
        Ok(())
    }

    fn set_digests(&mut self) -> Result<(), LineFault>
        ensures ok { OnOk result
            (end_added digest_line (said_of_end self.old) ≡ Some (said_of_end self.new)) }
        ensures fault { IfErr result (λ fault.
            Refuses fault (end_added digest_line (said_of_end self.old))) }
    {
        if self.spool.tells_digests() {
            return Err(LineFault::Bad);
        }
        self.spool.set_digests(true);
        Ok(())
    }

    fn set_resumes(&mut self) -> Result<(), LineFault>
        ensures ok { OnOk result
            (end_added resume_line (said_of_end self.old) ≡ Some (said_of_end self.new)) }
        ensures fault { IfErr result (λ fault.
            Refuses fault (end_added resume_line (said_of_end self.old))) }
    {
        if self.spool.resumes() {
            return Err(LineFault::Bad);
        }
        self.spool.set_digests(true);
        self.spool.set_resumes(true);
        Ok(())
    }

    fn set_limit(&mut self, limit: FileLimit) -> Result<(), LineFault>
        ensures ok { OnOk result
            (end_added (limit_line limit.bytes) (said_of_end self.old) ≡ Some (said_of_end self.new)) }
        ensures fault { IfErr result (λ fault.
            Refuses fault (end_added (limit_line limit.bytes) (said_of_end self.old))) }
    {
        if self.limited {
            return Err(LineFault::Bad);
        }
        self.spool.set_limit(limit);
        self.limited = true;
        Ok(())
    }

    fn add_file(&mut self, alloc: A, name: Name, mode: Mode, hex: &[u8]) -> Result<(), LineFault>
        ensures ok { OnOk result
            (file_added name mode.bits hex.now (said_of_end self.old)
            ≡ Some (said_of_end self.new)) }
        ensures fault { IfErr result (λ fault.
            Refuses fault (file_added name mode.bits hex.now (said_of_end self.old))) }
    {
        let bytes = decode_bytes(alloc, hex)?;
        self.spool.add_file(name, mode.bits, bytes.as_slice())?;
        Ok(())
    }

    fn add_job(&mut self, job: Job) -> Result<(), LineFault>
        ensures ok { OnOk result
            (end_added (job_line job) (said_of_end self.old) ≡ Some (said_of_end self.new)) }
        ensures fault { IfErr result (λ fault.
            Refuses fault (end_added (job_line job) (said_of_end self.old))) }
    {
        match self.queue.add(job) {
            Ok(()) => Ok(()),
            Err(QueueFault::Full) => Err(LineFault::Bad),
            Err(QueueFault::Memory) => Err(LineFault::Memory),
        }
    }

    /// Adds a statement about the end.
    fn add(&mut self, alloc: A, line: &EndStatement<'_>) -> Result<(), LineFault>
        ensures ok { OnOk result
            (end_line_added line.now (said_of_end self.old) ≡ Some (said_of_end self.new)) }
        ensures fault { IfErr result (λ fault.
            Refuses fault (end_line_added line.now (said_of_end self.old))) }
    {
        match line {
            EndStatement::Place(name, announce) => self.set_place(*name, *announce),
            EndStatement::File(name, mode, hex) => self.add_file(alloc, *name, *mode, hex),
            EndStatement::Job(job) => self.add_job(*job),
            EndStatement::Deny(name) => Ok(self.spool.deny(*name)?),
            EndStatement::Later(name) => Ok(self.spool.later(*name)?),
            EndStatement::Immovable(name) => Ok(self.spool.immovable(*name)?),
            EndStatement::Number(number) => self.set_number(*number),
            EndStatement::Quiet => self.set_quiet(),
            EndStatement::Short => self.set_short(),
            EndStatement::Lenient => self.set_lenient(),
            EndStatement::Digest => self.set_digests(),
            EndStatement::Resume => self.set_resumes(),
            EndStatement::Limit(limit) => self.set_limit(*limit),
        }
    }

    /// Returns the set-up of the end, or `None` if it is not placed.
    fn complete(self) -> Option<EndSetup<A>>
        ensures { end_said_by result ≡ end_completed (place_by self.place) (said_of_end self) }
    {
        let EndDraft {
            place,
            queue,
            spool,
            number,
            quiet,
            short,
            ..
        } = self;
        let EndPlace { name, announce } = place?;
        Some(EndSetup {
            name,
            announce: announce.with_quiet(quiet).with_short(short),
            queue,
            spool,
            number,
        })
    }
}

fn add_event<A: Allocator>(events: &mut Vec<Event, A>, event: Event) -> Result<(), AllocError>
    ensures { OnOk result (events.new.items ≡ events.old.items ++ event ∷ []) }
{
    events.push(event)?;
    Ok(())
}

/// Adds `turns` times two events: all bytes pass to the called end, then all to the caller.
fn add_flow<A: Allocator>(events: &mut Vec<Event, A>, turns: u32) -> Result<(), AllocError>
    ensures { OnOk result (events.new.items ≡ events.old.items ++ flow_events turns) }
{
    for _ in 0..turns {
        events.push(Event::Pass {
            side: Side::Called,
            n: BYTES_MAX,
        })?;
        events.push(Event::Pass {
            side: Side::Caller,
            n: BYTES_MAX,
        })?;
    }
    Ok(())
}

impl<A: Allocator + Copy> Draft<A> {
    /// Makes an empty draft. It takes no memory.
    pub(crate) fn new(alloc: A) -> Self
        ensures { said_by result ≡ nothing_said }
    {
        Draft {
            caller: EndDraft::new(alloc),
            called: EndDraft::new(alloc),
            events: Vec::new(alloc),
        }
    }

    /// Adds the statement of a line.
    fn add(&mut self, alloc: A, line: &Statement<'_>) -> Result<(), LineFault>
        ensures ok { OnOk result
            (line_added line.now (said_by self.old) ≡ Some (said_by self.new)) }
        ensures fault { IfErr result (λ fault.
            Refuses fault (line_added line.now (said_by self.old))) }
    {
        match line {
            Statement::Nothing => Ok(()),
            Statement::End(Side::Caller, line) => self.caller.add(alloc, line),
            Statement::End(Side::Called, line) => self.called.add(alloc, line),
            Statement::Event(event) => Ok(add_event(&mut self.events, *event)?),
            Statement::Flow(turns) => Ok(add_flow(&mut self.events, *turns)?),
        }
    }

    /// Adds the statement of a line of the script. A bad line is an error; the draft is of no more use then.
    pub(crate) fn add_text(&mut self, alloc: A, line: &[u8]) -> Result<(), LineFault>
        ensures ok { OnOk result
            (text_added line.now (said_by self.old) ≡ Some (said_by self.new)) }
        ensures fault { IfErr result (λ fault.
            Refuses fault (text_added line.now (said_by self.old))) }
    {
        match &read_line(line) {
            Ok(line) => self.add(alloc, line),
            Err(_) => Err(LineFault::Bad),
        }
    }

    /// Returns the script, or `None` if an end is not placed, or gives a file that is too large for the other.
    pub(crate) fn complete(self) -> Option<Script<A>>
        ensures { script_said_by result ≡ completed (said_by self) }
    {
        let Draft {
            caller,
            called,
            events,
        } = self;
        let setup = Setup {
            caller: caller.complete()?,
            called: called.complete()?,
        };
        if !are_suited(&setup) {
            return None;
        }
        Some(Script { setup, events })
    }
}

/// Returns whether no file that one end gives is too large for the other.
fn are_suited<A: Allocator + Copy>(setup: &Setup<A>) -> bool
    ensures { result ≡ are_suited (end_said setup.now.caller) (end_said setup.now.called) }
{
    let Setup { caller, called } = setup;
    caller.spool.gives_within(called.spool.limit())
        && called.spool.gives_within(caller.spool.limit())
}
