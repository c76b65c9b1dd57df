ghost use Rattle.std.specs.Prelude.{◌≡◌, ◌≤◌, ◌&&◌, nat_le, length, IfSome};
ghost use Rattle.uug_conversation.specs.Choice.{choice, fetched_by};
ghost use Rattle.uug_conversation.specs.FileView.{shown_file};
ghost use Rattle.uug_conversation.specs.Holdings.{to_give};
ghost use Rattle.uug_conversation.specs.Jobs.{moved};
ghost use Rattle.uug_conversation.specs.Reactions.{offer, send_offer};
ghost use Rattle.uug_conversation.specs.Resuming.{front_of, front_where};
ghost use Rattle.uug_conversation.specs.Told.{told_of, told_with};
ghost use Rattle.uug_talk.specs.declared.gather.TheConstants.{FILE_LIMIT_MAX};

use crate::job::Job;
use crate::queue::Queue;
use crate::spool::{FileView, Spool};
use std::alloc::Allocator;
use uug_talk::{FileDigest, Name, Order};

/// Returns the file of this name that may be sent, if there is one.
pub(crate) fn to_give<'a, S: Spool>(spool: &'a S, name: &Name) -> Option<FileView<'a>>
    ensures file { shown_file result ≡ to_give (S.holdings spool.now) name.now }
    ensures limit { IfSome result (λ file. length file.bytes.now ≤ FILE_LIMIT_MAX) }
{
    let file = spool.fetch(name)?;
    if file.bytes.len() <= spool.limit() {
        Some(file)
    } else {
        None
    }
}

/// Returns the name by which the file of a Send job is fetched.
pub(crate) fn fetched_by<'a>(source: &'a Name, temp: &'a Option<Name>) -> &'a Name
    ensures { result.now ≡ fetched_by source.now temp.now }
{
    match temp {
        Some(temp) => temp,
        None => source,
    }
}

/// Returns the bytes that are held of the file with this name at its giver. They are none if no digest was announced,
/// or if more is held than was announced or than may be taken.
pub(crate) fn front_of<'a, S: Spool>(
    spool: &'a S,
    source: &Name,
    told: &Option<FileDigest>,
) -> &'a [u8]
    ensures front { result.now ≡ front_of (S.holdings spool.now) source.now told.now }
    ensures limit { length result.now ≤ FILE_LIMIT_MAX }
{
    match told {
        Some(told) => front_within(spool.held(source, told), told.size as usize, spool.limit()),
        None => &[],
    }
}

/// Returns these bytes if they may be the front of a file of this size, and such a file is taken.
fn front_within(bytes: &[u8], size: usize, limit: usize) -> &[u8]
    requires { limit ≤ FILE_LIMIT_MAX }
    ensures front { result.now
        ≡ front_where (nat_le (length bytes.now) size && nat_le size limit) bytes.now }
    ensures limit { length result.now ≤ FILE_LIMIT_MAX }
{
    if bytes.len() <= size && size <= limit {
        bytes
    } else {
        &[]
    }
}

/// Returns the digest to announce for the file of this name. Returns none if this end announces no digests.
pub(crate) fn told_of<S: Spool>(spool: &S, name: &Name) -> Option<FileDigest>
    ensures { result ≡ told_of (S.holdings spool.now).digests
        (to_give (S.holdings spool.now) name.now) }
{
    if !spool.tells_digests() {
        return None;
    }
    let file = to_give(spool, name)?;
    Some(FileDigest::of(file.bytes))
}

/// Returns the digest to announce with a command: that of the file it sends.
pub(crate) fn told_with<S: Spool>(spool: &S, order: &Order) -> Option<FileDigest>
    ensures { result ≡ told_with (S.holdings spool.now) order.now }
{
    match order {
        Order::Send { source, temp, .. } => told_of(spool, fetched_by(source, temp)),
        Order::Request { .. } | Order::HangUp => None,
    }
}

/// Returns the command for a job, if it can be offered.
fn offer<S: Spool>(job: &Job, spool: &S) -> Option<Order>
    ensures { result ≡ offer (S.holdings spool.now) job.now }
{
    match job {
        Job::Send {
            source,
            target,
            user,
            temp,
        } => {
            let file = to_give(spool, fetched_by(source, temp))?;
            Some(Order::Send {
                source: *source,
                target: *target,
                user: *user,
                temp: *temp,
                mode: file.mode,
            })
        }
        Job::Request {
            source,
            target,
            user,
        } => Some(Order::Request {
            source: *source,
            target: *target,
            user: *user,
        }),
    }
}

/// Chooses the next job and returns its command, if there is one. Jobs before it that can't be offered fail.
pub(crate) fn choose<A: Allocator, S: Spool>(queue: &mut Queue<A>, spool: &S) -> Option<Order>
    ensures next { result ≡ (choice (S.holdings spool.now) queue.old.ahead).next }
    ensures lists { queue.new
        ≡ moved (choice (S.holdings spool.now) queue.old.ahead).failing queue.old }
{
    while let Some(job) = queue.first() {
        if let Some(order) = offer(job, spool) {
            return Some(order);
        }
        queue.fail_first();
    }
    None
}
