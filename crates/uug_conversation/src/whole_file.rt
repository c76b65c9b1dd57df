ghost use Rattle.std.specs.Prelude.{◌≡◌, ◌≢◌, ◌≤◌, ◌<◌, ◌⊎◌, ◌++◌, ℕ, List, [], ◌∷◌, true, Some, All, IfOk, IfSome, IfNone, OnOk, OnErr};
ghost use Rattle.uug_conversation.specs.Holdings.{Kept, kept_file};
ghost use Rattle.uug_conversation.specs.Machine.{on_file};
ghost use Rattle.uug_conversation.specs.Outgoing.{IsSayable, sayings_of};
ghost use Rattle.uug_conversation.specs.Jobs.{moved_once};
ghost use Rattle.uug_conversation.specs.Reactions.{reply_of, file_awaited, on_kept, on_none_kept, kept_on, done_answer, done_move, IsInRange, IsKept, MayBeKept};
ghost use Rattle.uug_conversation.specs.Resuming.{front_of};
ghost use Rattle.uug_conversation.specs.Told.{fits, outcome};
ghost use Rattle.uug_conversation.specs.declared.verdict.Verdict.TheVariants.{Yes};

use crate::awaits::Awaits;
use crate::choice::front_of;
use crate::job::Job;
use crate::machine::go_on;
use crate::queue::Queue;
use crate::reaction::Reaction;
use crate::spool::{KeepFault, Spool};
use crate::verdict::Verdict;
use std::alloc::{AllocError, Allocator};
use uug_talk::{Answer, FileDigest, MODE_MAX, Name};

/// The reason why a whole file was neither kept nor refused.
#[derive(Clone, Copy)]
pub enum FileFault {
    Device,
    Memory,
}

/// Returns whether the announced digest is that of these bytes. If none was announced, any bytes fit.
fn fits(told: &Option<FileDigest>, bytes: &[u8]) -> bool
    ensures { result ≡ fits told.now bytes.now }
{
    match told {
        Some(told) => told.is_of(bytes),
        None => true,
    }
}

/// Keeps a file, and returns whether it did. The digest is compared first: a file that doesn't fit it is `Later`. A
/// file that can't be put in its place is `Never`.
fn keep<S: Spool>(
    spool: &mut S,
    name: &Name,
    mode: u16,
    told: &Option<FileDigest>,
    bytes: &[u8],
) -> Result<Verdict, FileFault>
    requires { mode ≤ MODE_MAX }
    ensures holdings { S.holdings spool.new ≡ S.holdings spool.old }
    ensures verdict { IfOk result (λ verdict.
        outcome (fits told.now bytes.now) ((S.holdings spool.old).immovable name.now)
        ≡ verdict) }
    ensures kept { IfOk result (λ verdict.
        S.kept spool.new
        ≡ S.kept spool.old ++ kept_on verdict (kept_file name.now mode bytes.now)) }
    ensures err { OnErr result (S.kept spool.new ≡ S.kept spool.old) }
    ensures only { OnErr result
        (outcome (fits told.now bytes.now) ((S.holdings spool.old).immovable name.now) ≡ Yes) }
    ensures stands { result ≢ Err FileFault.Device → S.faults spool.new ≡ S.faults spool.old }
    ensures device { result ≡ Err FileFault.Device
        → (S.faults spool.old < S.faults spool.new) ⊎ (S.faults spool.old ≡ u64.MAX) }
    ensures count { S.faults spool.old ≤ S.faults spool.new }
{
    if !fits(told, bytes) {
        return Ok(Verdict::Later);
    }
    match spool.keep(name, mode, bytes) {
        Ok(()) => Ok(Verdict::Yes),
        Err(KeepFault::Refused) => Ok(Verdict::Never),
        Err(KeepFault::Device) => Err(FileFault::Device),
        Err(KeepFault::Memory) => Err(FileFault::Memory),
    }
}

/// Keeps a file that was sent, and returns whether it did. The bytes that are held of it stand before these. `Memory` is
/// also reported if there is no memory to join the two.
fn keep_sent<A: Allocator, S: Spool>(
    spool: &mut S,
    source: &Name,
    target: &Name,
    mode: u16,
    told: &Option<FileDigest>,
    bytes: &[u8],
    alloc: A,
) -> Result<Verdict, FileFault>
    requires { mode ≤ MODE_MAX }
    ensures holdings { S.holdings spool.new ≡ S.holdings spool.old }
    ensures verdict { IfOk result (λ verdict.
        outcome (fits told.now (front_of (S.holdings spool.old) source.now told.now ++ bytes.now))
        ((S.holdings spool.old).immovable target.now) ≡ verdict) }
    ensures kept { IfOk result (λ verdict.
        S.kept spool.new ≡ S.kept spool.old ++ kept_on verdict (kept_file target.now mode
        (front_of (S.holdings spool.old) source.now told.now ++ bytes.now))) }
    ensures err { OnErr result (S.kept spool.new ≡ S.kept spool.old) }
    ensures only { result ≡ Err FileFault.Device
        → outcome (fits told.now (front_of (S.holdings spool.old) source.now told.now ++ bytes.now))
        ((S.holdings spool.old).immovable target.now) ≡ Yes }
    ensures stands { result ≢ Err FileFault.Device → S.faults spool.new ≡ S.faults spool.old }
    ensures device { result ≡ Err FileFault.Device
        → (S.faults spool.old < S.faults spool.new) ⊎ (S.faults spool.old ≡ u64.MAX) }
    ensures count { S.faults spool.old ≤ S.faults spool.new }
{
    let Ok(whole) = behind_held(spool, source, told, bytes, alloc) else {
        return Err(FileFault::Memory);
    };
    // What is held on a disk makes room for the file itself.
    let_go(spool, told);
    match whole {
        Some(whole) => keep(spool, target, mode, told, whole.as_slice()),
        None => keep(spool, target, mode, told, bytes),
    }
}

/// Tells the spool that a file has come whole, if its digest was announced.
fn let_go<S: Spool>(spool: &mut S, told: &Option<FileDigest>)
    ensures holdings { S.holdings spool.new ≡ S.holdings spool.old }
    ensures kept { S.kept spool.new ≡ S.kept spool.old }
    ensures faults { S.faults spool.new ≡ S.faults spool.old }
{
    if let Some(told) = told {
        spool.let_go(told);
    }
}

/// Joins the bytes that are held of a file and those behind them. Returns none if nothing is held of it.
fn behind_held<A: Allocator, S: Spool>(
    spool: &S,
    source: &Name,
    told: &Option<FileDigest>,
    bytes: &[u8],
    alloc: A,
) -> Result<Option<Vec<u8, A>>, AllocError>
    ensures whole { IfOk result (λ found. IfSome found (λ whole.
        whole.items ≡ front_of (S.holdings spool.now) source.now told.now ++ bytes.now)) }
    ensures none { IfOk result (λ found. IfNone found
        (front_of (S.holdings spool.now) source.now told.now ≡ [])) }
{
    let front = front_of(spool, source, told);
    if front.is_empty() {
        return Ok(None);
    }
    Ok(Some(joined(front, bytes, alloc)?))
}

/// Joins two pieces.
pub(crate) fn joined<A: Allocator>(
    front: &[u8],
    rest: &[u8],
    alloc: A,
) -> Result<Vec<u8, A>, AllocError>
    ensures { IfOk result (λ whole. whole.items ≡ front.now ++ rest.now) }
{
    let mut whole = front.to_vec(alloc)?;
    whole.extend_from_slice(rest)?;
    Ok(whole)
}

/// Keeps the awaited file, and returns whether it did. Returns none if no file is awaited.
fn keep_awaited<A: Allocator, S: Spool>(
    queue: &Queue<A>,
    spool: &mut S,
    awaits: &Awaits,
    bytes: &[u8],
    alloc: A,
) -> Result<Option<Verdict>, FileFault>
    requires { IsInRange awaits.now }
    ensures holdings { S.holdings spool.new ≡ S.holdings spool.old }
    ensures kept { IfOk result (λ verdict.
        IsKept (S.holdings spool.old)
        (file_awaited (S.holdings spool.old) awaits.now queue.now.ahead) bytes.now
        verdict (S.kept spool.old) (S.kept spool.new)) }
    ensures err { OnErr result (S.kept spool.new ≡ S.kept spool.old) }
    ensures only { result ≡ Err FileFault.Device
        → MayBeKept (S.holdings spool.old)
        (file_awaited (S.holdings spool.old) awaits.now queue.now.ahead) bytes.now }
    ensures stands { result ≢ Err FileFault.Device → S.faults spool.new ≡ S.faults spool.old }
    ensures device { result ≡ Err FileFault.Device
        → (S.faults spool.old < S.faults spool.new) ⊎ (S.faults spool.old ≡ u64.MAX) }
    ensures count { S.faults spool.old ≤ S.faults spool.new }
{
    match awaits {
        Awaits::SentFile {
            source,
            target,
            mode,
            told,
            ..
        } => {
            let verdict = keep_sent(spool, source, target, *mode, told, bytes, alloc)?;
            Ok(Some(verdict))
        }
        Awaits::AskedFile { mode, told, .. } => match queue.first() {
            Some(Job::Request { source, target, .. }) => {
                let name = spool.landing(source, target);
                Ok(Some(keep(spool, &name, *mode, told, bytes)?))
            }
            _ => Ok(None),
        },
        _ => Ok(None),
    }
}

fn done_answer(verdict: Verdict) -> Answer
    ensures { result ≡ done_answer verdict }
{
    match verdict {
        Verdict::Yes => Answer::DoneYes,
        Verdict::Never => Answer::DoneNever,
        Verdict::Later => Answer::DoneLater,
    }
}

fn move_done<A: Allocator>(queue: &mut Queue<A>, verdict: Verdict)
    ensures { queue.new ≡ moved_once (done_move verdict) queue.old }
{
    match verdict {
        Verdict::Yes => queue.strike_first(),
        Verdict::Never => queue.fail_first(),
        Verdict::Later => queue.pass_first(),
    }
}

/// Returns the reaction of an end to whether the file was kept.
fn on_kept<A: Allocator, S: Spool>(
    queue: &mut Queue<A>,
    spool: &S,
    awaits: Awaits,
    verdict: Verdict,
) -> Reaction
    ensures reply { on_kept (S.holdings spool.now) awaits verdict queue.old
        ≡ reply_of (S.holdings spool.now) queue.new result [] }
    ensures mode { IsInRange result.awaits }
{
    let answer = done_answer(verdict);
    match awaits {
        Awaits::SentFile { .. } => Reaction::answers(Awaits::Order, answer),
        Awaits::AskedFile { .. } => {
            move_done(queue, verdict);
            go_on(queue, spool, Some(answer))
        }
        _ => Reaction::out_of_turn(),
    }
}

/// Returns the reaction if no awaited file could be kept: the rest of a file over the limit has come.
fn on_none_kept<A: Allocator, S: Spool>(
    queue: &mut Queue<A>,
    spool: &S,
    awaits: &Awaits,
) -> Reaction
    ensures reply { on_none_kept (S.holdings spool.now) awaits.now queue.old
        ≡ reply_of (S.holdings spool.now) queue.new result [] }
    ensures mode { IsInRange result.awaits }
{
    match awaits {
        Awaits::DroppedSentFile { .. } => Reaction::answers(Awaits::Order, Answer::DoneNever),
        Awaits::DroppedAskedFile { .. } => {
            queue.fail_first();
            go_on(queue, spool, Some(Answer::DoneNever))
        }
        _ => Reaction::out_of_turn(),
    }
}

/// Returns the reaction to a whole file, by what the end awaits. The file is kept if it may be. `Memory` and `Device`
/// leave nothing kept and no job moved. `Device` is the spool's.
pub(crate) fn on_file<A: Allocator, S: Spool>(
    queue: &mut Queue<A>,
    spool: &mut S,
    awaits: Awaits,
    bytes: &[u8],
    alloc: A,
) -> Result<Reaction, FileFault>
    requires { IsInRange awaits }
    ensures holdings { S.holdings spool.new ≡ S.holdings spool.old }
    ensures reply { IfOk result (λ r. on_file (S.holdings spool.old) awaits bytes.now queue.old
        ≡ reply_of (S.holdings spool.old) queue.new r
        (on_file (S.holdings spool.old) awaits bytes.now queue.old).keeps) }
    ensures mode { IfOk result (λ r. IsInRange r.awaits) }
    ensures sayable { IfOk result (λ r. All IsSayable (sayings_of r.says)) }
    ensures kept { OnOk result (S.kept spool.new
        ≡ S.kept spool.old ++ (on_file (S.holdings spool.old) awaits bytes.now queue.old).keeps) }
    ensures jobs_stay { OnErr result (queue.new ≡ queue.old) }
    ensures none_kept { OnErr result (S.kept spool.new ≡ S.kept spool.old) }
    // The device was asked only if a file is awaited, this one fits it, and it can be put in its place.
    ensures only { result ≡ Err FileFault.Device
        → MayBeKept (S.holdings spool.old)
        (file_awaited (S.holdings spool.old) awaits queue.old.ahead) bytes.now }
    ensures stands { result ≢ Err FileFault.Device → S.faults spool.new ≡ S.faults spool.old }
    ensures device { result ≡ Err FileFault.Device
        → (S.faults spool.old < S.faults spool.new) ⊎ (S.faults spool.old ≡ u64.MAX) }
    ensures count { S.faults spool.old ≤ S.faults spool.new }
{
    match keep_awaited(queue, spool, &awaits, bytes, alloc)? {
        Some(verdict) => Ok(on_kept(queue, spool, awaits, verdict)),
        None => Ok(on_none_kept(queue, spool, &awaits)),
    }
}
