//! The bytes that go out of what an end has emitted.
ghost use Rattle.std.specs.Prelude.{◌≡◌, ◌++◌, OnOk};
ghost use Rattle.uug_link.specs.Entries.{shown_entry};
ghost use Rattle.uug_transfer.specs.Outgoing.{count_behind, count_with, flipped, outgoing_from, outgoing_of, outgoing_of_entry};
ghost use Rattle.uug_transfer.specs.Thinning.{thinned};

use crate::fault_injector::FaultInjector;
use crate::packet_fate::PacketFate;
use crate::thinning::Thinning;
use crate::waiting::is_left_out;
use std::alloc::{AllocError, Allocator};
use uug_link::{Entry, Outbox};

/// Appends the bytes that go out of an outbox, except for the entries that the injector's thinning leaves out. Packets
/// that are not left out are counted, texts are not.
pub(crate) fn add_outgoing<A: Allocator>(
    outgoing: &mut Vec<u8, A>,
    outbox: &Outbox<A>,
    injector: &mut FaultInjector,
) -> Result<(), AllocError>
    ensures bytes { OnOk result (outgoing.new.items ≡ outgoing.old.items
        ++ outgoing_from injector.old.drop_every injector.old.flip_every injector.old.count
        (thinned injector.old.thinning outbox.now.entries)) }
    ensures count { OnOk result (injector.new.count
        ≡ count_behind injector.old.count (thinned injector.old.thinning outbox.now.entries)) }
    ensures drop_every { injector.new.drop_every ≡ injector.old.drop_every }
    ensures flip_every { injector.new.flip_every ≡ injector.old.flip_every }
    ensures thinning { injector.new.thinning ≡ injector.old.thinning }
{
    match injector.thinning {
        Thinning::Nothing => add_all(outgoing, outbox, injector),
        _ => add_thinned(outgoing, outbox, injector),
    }
}

/// Appends the bytes that go out of the entries that are not left out.
fn add_thinned<A: Allocator>(
    outgoing: &mut Vec<u8, A>,
    outbox: &Outbox<A>,
    injector: &mut FaultInjector,
) -> Result<(), AllocError>
    ensures bytes { OnOk result (outgoing.new.items ≡ outgoing.old.items
        ++ outgoing_from injector.old.drop_every injector.old.flip_every injector.old.count
        (thinned injector.old.thinning outbox.now.entries)) }
    ensures count { OnOk result (injector.new.count
        ≡ count_behind injector.old.count (thinned injector.old.thinning outbox.now.entries)) }
    ensures drop_every { injector.new.drop_every ≡ injector.old.drop_every }
    ensures flip_every { injector.new.flip_every ≡ injector.old.flip_every }
    ensures thinning { injector.new.thinning ≡ injector.old.thinning }
{
    for i in 0..outbox.len() {
        if is_left_out(injector.thinning, outbox, i) {
            continue;
        }
        add_entry(outgoing, outbox.entry(i), injector)?;
    }
    Ok(())
}

/// Appends the bytes that go out of all entries.
fn add_all<A: Allocator>(
    outgoing: &mut Vec<u8, A>,
    outbox: &Outbox<A>,
    injector: &mut FaultInjector,
) -> Result<(), AllocError>
    ensures bytes { OnOk result (outgoing.new.items ≡ outgoing.old.items
        ++ outgoing_from injector.old.drop_every injector.old.flip_every injector.old.count
        outbox.now.entries) }
    ensures count { OnOk result (injector.new.count
        ≡ count_behind injector.old.count outbox.now.entries) }
    ensures drop_every { injector.new.drop_every ≡ injector.old.drop_every }
    ensures flip_every { injector.new.flip_every ≡ injector.old.flip_every }
    ensures thinning { injector.new.thinning ≡ injector.old.thinning }
{
    for i in 0..outbox.len() {
        add_entry(outgoing, outbox.entry(i), injector)?;
    }
    Ok(())
}

/// Appends the bytes that go out of an entry.
fn add_entry<A: Allocator>(
    outgoing: &mut Vec<u8, A>,
    entry: Entry<'_>,
    injector: &mut FaultInjector,
) -> Result<(), AllocError>
    ensures bytes { OnOk result (outgoing.new.items ≡ outgoing.old.items
        ++ outgoing_of_entry injector.old.drop_every injector.old.flip_every injector.old.count
        (shown_entry entry.entry)) }
    ensures count { injector.new.count ≡ count_with injector.old.count (shown_entry entry.entry) }
    ensures drop_every { injector.new.drop_every ≡ injector.old.drop_every }
    ensures flip_every { injector.new.flip_every ≡ injector.old.flip_every }
    ensures thinning { injector.new.thinning ≡ injector.old.thinning }
{
    match entry {
        Entry::Text(bytes) => outgoing.extend_from_slice(bytes),
        Entry::Packet { bytes, .. } => add_packet(outgoing, bytes, injector.next()),
    }
}

/// Appends the bytes that go out of a packet.
fn add_packet<A: Allocator>(
    outgoing: &mut Vec<u8, A>,
    packet: &[u8],
    fate: PacketFate,
) -> Result<(), AllocError>
    ensures { OnOk result (outgoing.new.items ≡ outgoing.old.items ++ outgoing_of fate packet.now) }
{
    match fate {
        PacketFate::Goes => outgoing.extend_from_slice(packet),
        PacketFate::Lost => Ok(()),
        PacketFate::Changed => add_flipped(outgoing, packet),
    }
}

/// Appends a packet with the lowest bit of its last byte flipped.
fn add_flipped<A: Allocator>(outgoing: &mut Vec<u8, A>, packet: &[u8]) -> Result<(), AllocError>
    ensures { OnOk result (outgoing.new.items ≡ outgoing.old.items ++ flipped packet.now) }
{
    if let Some((last, front)) = packet.split_last() {
        outgoing.extend_from_slice(front)?;
        outgoing.push(*last ^ 1)?;
    }
    Ok(())
}
