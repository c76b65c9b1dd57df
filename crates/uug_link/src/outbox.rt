ghost use Rattle.std.specs.Prelude.{◌≡◌, ℕ, ◌+◌, ◌-◌, ◌≤◌, ◌<◌, List, [], ◌∷◌, ◌++◌, length, vec_len, vec_capacity, slice_get, Some, false, IsOk, OnOk, OnErr};
ghost use Rattle.uug_link.specs.Entries.{text, packet, entry_of, joined, shown_entry, AreCuts, entries_from, start_at};
ghost use Rattle.uug_packet.specs.Packet.{control, shown_control};
ghost use Rattle.uug_packet.specs.Spelling.{canonical};

use crate::entry::{Entry, EntryKind, Mark};
use crate::limits::ENTRIES_MAX;
use std::alloc::{AllocError, Allocator};
use std::marker::Model;
use uug_packet::{Control, PACKET_MAX, control_packet};

/// The entries that an end emitted and its caller has not yet cleared, in the order in which they were emitted.
#[derive(Drop)]
pub struct Outbox<A: Allocator> {
    bytes: Vec<u8, A>,
    marks: Vec<Mark, A>,
}

impl<A: Allocator> Model for Outbox<A> {
    ghost use Rattle.std.specs.Prelude.{◌-◌, length, vec_len, vec_capacity};
    ghost use Rattle.uug_link.specs.Entries.{Held, entries_from, AreCuts, spare_of};

    ghost Value = { Held };

    ghost view = { λ o. record {
      entries = entries_from 0 o.marks.items o.bytes.items;
      spare = spare_of (vec_capacity o.bytes - vec_len o.bytes)
          (vec_capacity o.marks - vec_len o.marks);
    } };

    ghost invariant = { λ o. AreCuts 0 o.marks.items (length o.bytes.items) };
}

impl<A: Allocator + Copy> Outbox<A> {
    /// Makes an empty outbox. It takes no memory.
    pub fn new(alloc: A) -> Self
        ensures { result.entries ≡ [] }
    {
        Outbox {
            bytes: Vec::new(alloc),
            marks: Vec::new(alloc),
        }
    }
}

impl<A: Allocator> Outbox<A> {
    /// Returns the number of entries.
    pub fn len(&self) -> usize
        ensures { result ≡ length self.now.entries }
    {
        self.marks.len()
    }

    /// Returns the entry at an index below `len`.
    pub fn entry(&self, i: usize) -> Entry<'_>
        requires { i < length self.now.entries }
        ensures { slice_get self.now.entries i ≡ Some (shown_entry result) }
    {
        entry_at(&self.marks, &self.bytes, i)
    }

    /// Returns the bytes of all entries, joined.
    pub fn bytes(&self) -> &[u8]
        ensures { result.now ≡ joined self.now.entries }
    {
        self.bytes.as_slice()
    }

    /// Removes all entries. The room that it has without more memory does not shrink.
    pub fn clear(&mut self)
        ensures entries { self.new.entries ≡ [] }
        ensures spare { self.old.spare ≤ self.new.spare }
    {
        self.bytes.clear();
        self.marks.clear();
    }

    /// Returns the number of entries of at most `PACKET_MAX` bytes that fit without more memory.
    pub fn spare(&self) -> usize
        ensures { result ≡ self.now.spare }
    {
        (unused(&self.bytes) / PACKET_MAX).min(unused(&self.marks))
    }

    /// Makes room for `n` more entries of at most `PACKET_MAX` bytes. `n` is at most `ENTRIES_MAX`. The entries stay,
    /// with and without memory for it.
    pub fn reserve(&mut self, n: usize) -> Result<(), AllocError>
        requires { n ≤ ENTRIES_MAX }
        ensures entries { self.new.entries ≡ self.old.entries }
        ensures spare { self.old.spare ≤ self.new.spare }
        ensures ok { OnOk result (n ≤ self.new.spare) }
        ensures memory { n ≤ self.old.spare → IsOk result }
    {
        self.bytes.reserve(n * PACKET_MAX)?;
        self.marks.reserve(n)
    }

    /// Appends a text. Without memory for it the entries stay.
    pub fn add_text(&mut self, bytes: &[u8]) -> Result<(), AllocError>
        ensures ok { OnOk result (self.new.entries ≡ self.old.entries ++ text bytes.now ∷ []) }
        ensures err { OnErr result (self.new.entries ≡ self.old.entries) }
        ensures kept { OnErr result (self.old.spare ≤ self.new.spare) }
        ensures memory { length bytes.now ≤ PACKET_MAX → 0 < self.old.spare → IsOk result }
        ensures spare { length bytes.now ≤ PACKET_MAX → self.old.spare ≤ self.new.spare + 1 }
    {
        self.add(EntryKind::Text, bytes)
    }

    /// Appends a control packet, for which there is room.
    pub(crate) fn add_control(&mut self, item: Control)
        requires { 0 < self.old.spare }
        ensures entries { self.new.entries ≡ self.old.entries
            ++ packet (canonical (control (shown_control item))) false ∷ [] }
        ensures spare { self.old.spare ≤ self.new.spare + 1 }
    {
        self.add_within(EntryKind::Packet { first: false }, &control_packet(item));
    }

    /// Appends an entry for which there is room.
    pub(crate) fn add_within(&mut self, kind: EntryKind, bytes: &[u8])
        requires short { length bytes.now ≤ PACKET_MAX }
        requires room { 0 < self.old.spare }
        ensures entries { self.new.entries ≡ self.old.entries ++ entry_of kind bytes.now ∷ [] }
        ensures spare { self.old.spare ≤ self.new.spare + 1 }
    {
        if self.add(kind, bytes).is_err() {
            unreachable!()
        }
    }

    fn add(&mut self, kind: EntryKind, bytes: &[u8]) -> Result<(), AllocError>
        ensures ok { OnOk result (self.new.entries
            ≡ self.old.entries ++ entry_of kind bytes.now ∷ []) }
        ensures err { OnErr result (self.new.entries ≡ self.old.entries) }
        ensures kept { OnErr result (self.old.spare ≤ self.new.spare) }
        ensures memory { length bytes.now ≤ PACKET_MAX → 0 < self.old.spare → IsOk result }
        ensures spare { length bytes.now ≤ PACKET_MAX → self.old.spare ≤ self.new.spare + 1 }
    {
        self.marks.reserve(1)?;
        self.bytes.extend_from_slice(bytes)?;
        self.marks.push_reserved(Mark {
            kind,
            end: self.bytes.len(),
        });
        Ok(())
    }
}

/// Returns the number of items for which a vector still has room.
fn unused<T, A: Allocator>(items: &Vec<T, A>) -> usize
    ensures { result ≡ vec_capacity items.now - vec_len items.now }
{
    items.capacity() - items.len()
}

fn entry_at<'a>(marks: &[Mark], bytes: &'a [u8], i: usize) -> Entry<'a>
    requires within { i < length marks.now }
    requires cut { AreCuts 0 marks.now (length bytes.now) }
    ensures { slice_get (entries_from 0 marks.now bytes.now) i ≡ Some (shown_entry result) }
{
    let start = start_of(marks, i);
    let mark = marks[i];
    let bytes = &bytes[start..mark.end];
    match mark.kind {
        EntryKind::Text => Entry::Text(bytes),
        EntryKind::Packet { first } => Entry::Packet { bytes, first },
    }
}

fn start_of(marks: &[Mark], i: usize) -> usize
    requires { i < length marks.now }
    ensures { result ≡ start_at 0 marks.now i }
{
    if i == 0 { 0 } else { marks[i - 1].end }
}
