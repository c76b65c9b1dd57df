//! The origin of each byte on the way from an end, and the fate of what was sent.
ghost use Rattle.std.specs.Prelude.{◌≡◌, ◌++◌, ◌∷◌, [], OnOk, take, true, false};
ghost use Rattle.uug_sim_ladder.specs.Way.{arrived, drops, flips, inserts, lost, passes, rest_of, sent_by, settled, settled_at, settled_by};

use crate::rung::Fate;
use std::alloc::{AllocError, Allocator};

/// A byte on its way.
#[derive(Clone, Copy, Debug, PartialEq, Eq)]
pub(crate) struct WayByte {
    /// The rung that sent it; `None` if it was inserted.
    pub(crate) of: Option<usize>,
    pub(crate) is_first: bool,
    pub(crate) is_last: bool,
}

/// Appends these bytes of the rung at this place.
pub(crate) fn add_bytes<A: Allocator>(
    way: &mut Vec<WayByte, A>,
    place: usize,
    bytes: &[u8],
) -> Result<(), AllocError>
    ensures { OnOk result (way.new.items ≡ way.old.items ++ sent_by place bytes.now) }
{
    let Some((_, rest)) = bytes.split_first() else {
        return Ok(());
    };
    way.push(WayByte {
        of: Some(place),
        is_first: true,
        is_last: rest.is_empty(),
    })?;
    add_rest(way, place, rest)
}

fn add_rest<A: Allocator>(
    way: &mut Vec<WayByte, A>,
    place: usize,
    bytes: &[u8],
) -> Result<(), AllocError>
    ensures { OnOk result (way.new.items ≡ way.old.items ++ rest_of place bytes.now) }
{
    for (i, _) in bytes.iter().enumerate() {
        way.push(WayByte {
            of: Some(place),
            is_first: false,
            is_last: bytes.len() - i == 1,
        })?;
    }
    Ok(())
}

fn settled(fate: Fate, before: Fate) -> Fate
    ensures { result ≡ settled fate before }
{
    match before {
        Fate::OnTheWay => fate,
        Fate::Arrives(_) | Fate::Lost(_) => before,
    }
}

/// Gives this fate to what the rung at this place sent, unless it has another one.
fn settle_at<A: Allocator>(fates: &mut Vec<Fate, A>, place: usize, fate: Fate)
    ensures { fates.new.items ≡ settled_at place fate fates.old.items }
{
    if place < fates.len() {
        fates[place] = settled(fate, fates[place]);
    }
}

fn settle<A: Allocator>(fates: &mut Vec<Fate, A>, of: Option<usize>, fate: Fate)
    ensures { fates.new.items ≡ settled_by of fate fates.old.items }
{
    if let Some(place) = of {
        settle_at(fates, place, fate);
    }
}

/// Notes that these bytes arrive at the other end.
fn arrive<A: Allocator>(fates: &mut Vec<Fate, A>, bytes: &[WayByte], event: usize)
    ensures { fates.new.items ≡ arrived event bytes.now fates.old.items }
{
    for byte in bytes {
        if byte.is_last {
            settle(fates, byte.of, Fate::Arrives(event));
        }
    }
}

/// Notes that these bytes are lost or changed.
fn lose<A: Allocator>(fates: &mut Vec<Fate, A>, bytes: &[WayByte], event: usize)
    ensures { fates.new.items ≡ lost event bytes.now fates.old.items }
{
    for byte in bytes {
        settle(fates, byte.of, Fate::Lost(event));
    }
}

/// Notes that the next `n` bytes, or all if there are fewer, arrive at the other end.
pub(crate) fn pass_next<A: Allocator, B: Allocator>(
    way: &mut Vec<WayByte, A>,
    fates: &mut Vec<Fate, B>,
    n: usize,
    event: usize,
)
    ensures { record { bytes = way.new.items; fates = fates.new.items }
        ≡ passes event n (record { bytes = way.old.items; fates = fates.old.items }) }
{
    let count = n.min(way.len());
    arrive(fates, &way[..count], event);
    way.drain(..count);
}

/// Notes that the next `n` bytes, or all if there are fewer, are lost.
pub(crate) fn drop_next<A: Allocator, B: Allocator>(
    way: &mut Vec<WayByte, A>,
    fates: &mut Vec<Fate, B>,
    n: usize,
    event: usize,
)
    ensures { record { bytes = way.new.items; fates = fates.new.items }
        ≡ drops event n (record { bytes = way.old.items; fates = fates.old.items }) }
{
    let count = n.min(way.len());
    lose(fates, &way[..count], event);
    way.drain(..count);
}

/// Notes that the next byte is changed, if there is one. A mask of 0 changes nothing.
pub(crate) fn flip_next<A: Allocator, B: Allocator>(
    way: &mut Vec<WayByte, A>,
    fates: &mut Vec<Fate, B>,
    mask: u8,
    event: usize,
)
    ensures { record { bytes = way.new.items; fates = fates.new.items }
        ≡ flips event mask (record { bytes = way.old.items; fates = fates.old.items }) }
{
    if mask == 0 {
        return;
    }
    let next = way.len().min(1);
    lose(fates, &way[..next], event);
}

/// Notes that a byte is inserted before the next one.
pub(crate) fn insert_next<A: Allocator, B: Allocator>(
    way: &mut Vec<WayByte, A>,
    fates: &mut Vec<Fate, B>,
    event: usize,
) -> Result<(), AllocError>
    ensures { OnOk result (record { bytes = way.new.items; fates = fates.new.items }
        ≡ inserts event (record { bytes = way.old.items; fates = fates.old.items })) }
{
    if !way.is_empty() && !way[0].is_first {
        lose(fates, &way[..1], event);
    }
    way.insert(
        0,
        WayByte {
            of: None,
            is_first: true,
            is_last: true,
        },
    )?;
    Ok(())
}
