//! The session of one end at its line.
ghost use Rattle.std.specs.Prelude.{◌≡◌, ◌<◌, ◌↔◌, [], length, IsTrue, OnOk};
ghost use Rattle.uug_session.specs.Engine.{HasFailed, IsEnded};
ghost use Rattle.uug_session.specs.NumberStanding.{KeepsNumber};
ghost use Rattle.uug_store.specs.NumberText.{holding_number};
ghost use Rattle.uug_transfer.specs.BufferedNodes.{injector_in, node_in, spool_in, to_write};
ghost use Rattle.uug_transfer.specs.Ends.{number_of_end};
ghost use Rattle.uug_transfer.specs.Hosts.{AllSince, HasOnlyWritten, KeepsLine};
ghost use Rattle.uug_transfer.specs.LineSessions.{IsSession, SettlesJobs, WritesWhatIsOnDisk};
ghost use Rattle.uug_transfer.specs.Moments.{IsLed, disk_now, end_now, host_of, line_now, unsent};
ghost use Rattle.uug_transfer.specs.Patience.{HasPatience};
ghost use Rattle.uug_transfer.specs.ReadBudgets.{Lasts};
ghost use Rattle.uug_transfer.specs.ReadOutcomes.{IsWithin, TakesOutcome};
ghost use Rattle.uug_transfer.specs.SessionFaults.{UnlessNumber, UnlessRefused};
ghost use Rattle.uug_transfer.specs.Settling.{IsOnDisk, IsSomeNumber, kept_then};
ghost use Rattle.uug_transfer.specs.WriteSilences.{WritesUpTo};
ghost use Rattle.uug_transfer.specs.Writing.{also_taken};
ghost use Rattle.uug_transfer.specs.declared.read_budget.TheConstants.{STALLS_MAX};

use crate::buffered_node::BufferedNode;
use crate::end_host::EndHost;
use crate::end_line::EndLine;
use crate::host::Host;
use crate::patience::{Patience, PatienceLimits, Standing};
use crate::read_budget::{READ_MAX, ReadBudget, STALLS_MAX, stalls_left};
use crate::read_outcome::ReadOutcome;
use crate::session_fault::SessionFault;
use crate::settled::Settled;
use std::alloc::{AllocError, Allocator};
use uug_session::Spool;
use uug_store::{JobStore, TextFile};

/// Runs an end at its line until its session is over. In each turn the end writes all that it has, then reads once: it
/// gets the bytes, or a timeout for a silence. The line then gets the status of the session.
///
/// The end hangs up at the line's end, or if memory runs out. It also hangs up after `most` bytes were read, after
/// `SILENCES_MAX` silent reads in a row, after `STALLS_MAX` writes in a row that took nothing, and if bytes come
/// without progress for longer than `limits`.
///
/// Results are on the host's disk before the end writes about them (`on_disk`): whenever bytes were written, the session
/// could have ended there. A job that is done or has failed is removed from its store, which gets a notice of each failed
/// one. The number that the end keeps is in its file. If storing a result fails, the end hangs up, and nothing more is
/// written to the line.
pub fn run_session<S, H, A>(
    alloc: A,
    buffered: &mut BufferedNode<S, A>,
    host: &mut H,
    most: u64,
    limits: PatienceLimits,
) -> Result<(), SessionFault>
where
    S: Spool + Drop,
    H: Host,
    A: Allocator + Copy,
    ensures session { IsSession most result
        (end_now S.holdings S.kept buffered.old) (end_now S.holdings S.kept buffered.new)
        (unsent buffered.old) (H.now host.old) (H.now host.new) }
    ensures on_disk { WritesWhatIsOnDisk most
        (end_now S.holdings S.kept buffered.old) (unsent buffered.old)
        (H.now host.old) (H.after_writes host.old) (H.after_writes host.new) }
    ensures over { IsEnded (node_in buffered.new).engine.stage }
{
    let result = take_turns(alloc, buffered, host, most, limits);
    buffered.hang_up();
    host.note(buffered.status(true));
    result
}

/// Runs an end as `run_session` does, at this line, with this store of jobs and this file of its number.
pub fn run_at_line<S, J, N, L, A>(
    alloc: A,
    buffered: &mut BufferedNode<S, A>,
    jobs: &mut J,
    number: &mut N,
    line: &mut L,
    most: u64,
    limits: PatienceLimits,
) -> Result<(), SessionFault>
where
    S: Spool + Drop,
    J: JobStore,
    N: TextFile,
    L: EndLine,
    A: Allocator + Copy,
    ensures session { IsSession most result
        (end_now S.holdings S.kept buffered.old) (end_now S.holdings S.kept buffered.new)
        (unsent buffered.old)
        (host_of (line_now L.received L.taken L.writes line.old)
        (disk_now J.open_jobs J.told J.fault_count N.text N.fault_count jobs.old number.old))
        (host_of (line_now L.received L.taken L.writes line.new)
        (disk_now J.open_jobs J.told J.fault_count N.text N.fault_count jobs.new number.new)) }
    ensures over { IsEnded (node_in buffered.new).engine.stage }
{
    let mut host = EndHost { line, jobs, number };
    run_session(alloc, buffered, &mut host, most, limits)
}

/// Takes the turns of a session.
#[tactic(auto, using(crate::proofs::BudgetLemmas::fewer_then))]
fn take_turns<S, H, A>(
    alloc: A,
    buffered: &mut BufferedNode<S, A>,
    host: &mut H,
    most: u64,
    limits: PatienceLimits,
) -> Result<(), SessionFault>
where
    S: Spool + Drop,
    H: Host,
    A: Allocator + Copy,
    ensures session { IsSession most result
        (end_now S.holdings S.kept buffered.old) (end_now S.holdings S.kept buffered.new)
        (unsent buffered.old) (H.now host.old) (H.now host.new) }
    ensures on_disk { WritesWhatIsOnDisk most
        (end_now S.holdings S.kept buffered.old) (unsent buffered.old)
        (H.now host.old) (H.after_writes host.old) (H.after_writes host.new) }
{
    let mut buffer = [0; READ_MAX];
    let mut budget = ReadBudget::new(most);
    let node = buffered.node();
    let mut patience = Patience::new(limits, Standing::of(node), host.seconds());
    let mut settled = Settled::begin(node.queue(), node.number(), host)?;
    while stays(&budget, &patience) {
        let all_written = write_all(buffered, host);
        if !all_written {
            return Ok(());
        }
        if buffered.has_ended() {
            return Ok(());
        }
        let room = budget.room(buffer.len());
        let outcome = host.read(&mut buffer[..room]);
        take_and_settle(alloc, buffered, host, &mut settled, outcome, &buffer)?;
        budget.spend(outcome);
        patience.note(outcome, Standing::of(buffered.node()), host.seconds());
        host.note(buffered.status(false));
    }
    Ok(())
}

/// Returns whether an end stays at its line.
fn stays(budget: &ReadBudget, patience: &Patience) -> bool
    ensures lasts { IsTrue result → Lasts budget.now.bytes budget.now.silences }
    ensures patient { IsTrue result → HasPatience patience.now }
    ensures over { (IsTrue result → ⊥) → Lasts budget.now.bytes budget.now.silences
        → HasPatience patience.now → ⊥ }
{
    budget.lasts() && patience.holds()
}

/// Returns whether bytes are left to write, and the line may still stall.
fn may_write(left: u8, bytes: &[u8]) -> bool
    ensures { IsTrue result ↔ ((0 < left) × (0 < length bytes.now)) }
{
    left > 0 && !bytes.is_empty()
}

/// Writes all that there is to write. Returns false if the line took nothing for `STALLS_MAX` writes in a row: the rest
/// is then not written.
fn write_all<S: Spool + Drop, H: Host, A: Allocator + Copy>(
    buffered: &mut BufferedNode<S, A>,
    host: &mut H,
) -> bool
    ensures node { node_in buffered.new ≡ node_in buffered.old }
    ensures spool { spool_in buffered.new ≡ spool_in buffered.old }
    ensures injector { injector_in buffered.new ≡ injector_in buffered.old }
    ensures all { IsTrue result → to_write buffered.new ≡ [] }
    ensures taken { IsTrue result → (H.now host.new).line.taken
        ≡ also_taken (to_write buffered.old) (H.now host.old).line.taken }
    ensures no_wait { IsTrue result → WritesUpTo STALLS_MAX 0
        (H.now host.old).line.writes (H.now host.new).line.writes }
    ensures only { HasOnlyWritten (to_write buffered.old) (H.now host.old) (H.now host.new) }
    ensures writes { AllSince (HasOnlyWritten (to_write buffered.old) (H.now host.old))
        (H.after_writes host.old) (H.after_writes host.new) }
{
    let mut silences = STALLS_MAX;
    while may_write(silences, buffered.outgoing()) {
        let count = host.write(buffered.outgoing());
        buffered.written(count);
        silences = stalls_left(silences, count);
    }
    buffered.outgoing().is_empty()
}

/// Passes a read's outcome to an end whose session goes on, then stores the results on its disk. Nothing that the end
/// emitted in reply is written to its line before that. It tries to store them even if handling the outcome ran out of
/// memory: jobs may have been struck by then.
fn take_and_settle<S, H, A>(
    alloc: A,
    buffered: &mut BufferedNode<S, A>,
    host: &mut H,
    settled: &mut Settled,
    outcome: ReadOutcome,
    buffer: &[u8],
) -> Result<(), SessionFault>
where
    S: Spool + Drop,
    H: Host,
    A: Allocator + Copy,
    requires within { IsWithin (length buffer.now) outcome }
    requires goes_on { IsEnded (node_in buffered.old).engine.stage → ⊥ }
    requires on_disk { IsOnDisk settled.old (node_in buffered.old) (H.now host.old).disk.number }
    ensures led { IsLed (end_now S.holdings S.kept buffered.old)
        (end_now S.holdings S.kept buffered.new) }
    ensures number { UnlessRefused result
        (KeepsNumber (node_in buffered.old).engine (node_in buffered.new).engine) }
    ensures takes { UnlessRefused result
        (TakesOutcome (S.holdings (spool_in buffered.old)) (S.kept (spool_in buffered.old))
        (S.kept (spool_in buffered.new))
        (HasFailed u64.MAX (S.faults (spool_in buffered.old)) (S.faults (spool_in buffered.new)))
        outcome buffer.now (injector_in buffered.old) (injector_in buffered.new)
        (to_write buffered.old) (to_write buffered.new)
        (node_in buffered.old) (node_in buffered.new)) }
    ensures on_disk { OnOk result
        (IsOnDisk settled.new (node_in buffered.new) (H.now host.new).disk.number) }
    ensures kept { OnOk result (settled.new.number
        ≡ kept_then settled.old.number (number_of_end (node_in buffered.new))) }
    ensures holds { OnOk result ((H.now host.new).disk.number
        ≡ holding_number settled.new.number (H.now host.old).disk.number) }
    ensures whole { IsSomeNumber (H.now host.old).disk.number (H.now host.new).disk.number }
    ensures settles { SettlesJobs result
        (end_now S.holdings S.kept buffered.old) (end_now S.holdings S.kept buffered.new)
        (H.now host.old).disk (H.now host.new).disk }
    ensures number_calm { UnlessRefused result (UnlessNumber result
        ((H.now host.new).disk.number_faults ≡ (H.now host.old).disk.number_faults)) }
    ensures number_fault { result ≡ Err SessionFault.Number
        → HasFailed u64.MAX (H.now host.old).disk.number_faults (H.now host.new).disk.number_faults }
    ensures line { KeepsLine (H.now host.old) (H.now host.new) }
    ensures writes { H.after_writes host.new ≡ H.after_writes host.old }
{
    let taken = take_outcome(buffered, outcome, buffer);
    let on_disk = settled.put_on_disk(alloc, buffered.node(), buffered.spool(), host);
    taken?;
    on_disk
}

/// Passes a read's outcome to an end whose session goes on.
fn take_outcome<S: Spool + Drop, A: Allocator + Copy>(
    buffered: &mut BufferedNode<S, A>,
    outcome: ReadOutcome,
    buffer: &[u8],
) -> Result<(), AllocError>
    requires within { IsWithin (length buffer.now) outcome }
    requires goes_on { IsEnded (node_in buffered.old).engine.stage → ⊥ }
    ensures led { IsLed (end_now S.holdings S.kept buffered.old)
        (end_now S.holdings S.kept buffered.new) }
    ensures number { OnOk result
        (KeepsNumber (node_in buffered.old).engine (node_in buffered.new).engine) }
    ensures takes { OnOk result
        (TakesOutcome (S.holdings (spool_in buffered.old)) (S.kept (spool_in buffered.old))
        (S.kept (spool_in buffered.new))
        (HasFailed u64.MAX (S.faults (spool_in buffered.old)) (S.faults (spool_in buffered.new)))
        outcome buffer.now (injector_in buffered.old) (injector_in buffered.new)
        (to_write buffered.old) (to_write buffered.new)
        (node_in buffered.old) (node_in buffered.new)) }
{
    match outcome {
        ReadOutcome::Bytes(count) => buffered.arrive(&buffer[..count]),
        ReadOutcome::TimedOut => buffered.time_out(),
        ReadOutcome::Eof => Ok(()),
    }
}
