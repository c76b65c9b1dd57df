//! The bytes of the greeting that were not read yet.
ghost use Rattle.std.specs.Prelude.{◌≡◌, ◌+◌, ◌-◌, ◌<◌, ◌≤◌, min, true, false, ◌++◌, length, take, drop, IfOk, IfSome, IsNone, MatchOption, MatchResult, vec_capacity};
ghost use Rattle.std.specs.Option.{is_some};
ghost use Rattle.uug_session.specs.TextsHeld.{nothing_held, ShowsText, ShowsFirst, held_as, search_text, text_too_long, search_left, after_text_search, shown_text};

use std::alloc::{AllocError, Allocator};
use std::marker::Model;
use uug_reader::READER_SIZE;
use uug_talk::{Hail, TextTooLong};

/// The number of bytes that a text takes beside its own: its start byte and its end byte.
const FRAME_SIZE: usize = 2;

/// The bytes of the greeting that were not read yet, and the first text in them, while it is shown. It holds as many
/// bytes as a `Reader`, which receives them when the link begins.
#[derive(Drop)]
pub(crate) struct Texts<A: Allocator> {
    bytes: Vec<u8, A>,
    /// The length of the text shown. It is the first one, after its start byte.
    shown: Option<usize>,
}

impl<A: Allocator> Model for Texts<A> {
    ghost use Rattle.std.specs.Prelude.{vec_capacity};
    ghost use Rattle.uug_session.specs.TextsHeld.{TextsHeld, held_as, KeepsTexts};

    ghost Value = { TextsHeld };

    ghost view = { λ t. held_as t.bytes.items t.shown };

    ghost invariant = { λ t. KeepsTexts t.bytes.items (vec_capacity t.bytes) t.shown };
}

/// The result of a search.
#[derive(Clone, Copy)]
struct Search {
    /// The number of skipped bytes at the front.
    passed: usize,
    /// The length of the text after them, or `None` if none is whole.
    shown: Option<usize>,
}

impl<A: Allocator> Texts<A> {
    /// Makes an empty buffer. No other call takes memory.
    pub(crate) fn new(alloc: A) -> Result<Self, AllocError>
        ensures { IfOk result (λ texts. texts ≡ nothing_held) }
    {
        Ok(Texts {
            bytes: Vec::with_capacity(alloc, READER_SIZE)?,
            shown: None,
        })
    }

    /// Appends the first bytes that fit, and returns their number. The text shown stays.
    pub(crate) fn push(&mut self, piece: &[u8]) -> usize
        ensures count { result ≡ min (READER_SIZE - length self.old.bytes) (length piece.now) }
        ensures bytes { self.new.bytes ≡ self.old.bytes ++ take result piece.now }
        ensures shown { self.new.shown_size ≡ self.old.shown_size }
    {
        let count = piece.len().min(READER_SIZE - self.bytes.len());
        append(&mut self.bytes, &piece[..count]);
        count
    }

    /// Drops the skipped bytes from the front, up to the first text, and returns whether one is whole. That text is
    /// shown until it is dropped. If there is none, at least one byte fits. After `TextTooLong` nothing is held.
    pub(crate) fn search(&mut self) -> Result<bool, TextTooLong>
        ensures exact { self.new ≡ after_text_search (search_text self.old.bytes) }
        ensures outcome { MatchResult result (λ found.
            search_text self.old.bytes ≡ search_left found self.new)
            (λ _. search_text self.old.bytes ≡ text_too_long) }
        ensures shows { IfOk result (λ found. found ≡ true
            → ShowsText (shown_text self.new) self.new) }
        ensures room { IfOk result (λ found. found ≡ false → length self.new.bytes < READER_SIZE) }
    {
        let Ok(found) = search_in(self.bytes.as_slice()) else {
            self.clear();
            return Err(TextTooLong);
        };
        self.bytes.drain(..found.passed);
        self.shown = found.shown;
        Ok(found.shown.is_some())
    }

    /// Returns the text shown, without its start byte and its end byte.
    pub(crate) fn showing(&self) -> Option<&[u8]>
        ensures shows { MatchOption result (self.now.shown_size ≡ 0) (λ text.
            ShowsText text.now self.now) }
        ensures exact { IfSome result (λ text. text.now ≡ shown_text self.now) }
    {
        let len = self.shown?;
        Some(&self.bytes[1..1 + len])
    }

    /// Removes the text shown, with its start byte and its end byte.
    pub(crate) fn drop_found(&mut self)
        requires { 0 < self.old.shown_size }
        ensures text { ShowsText (shown_text self.old) self.old }
        ensures bytes { self.new.bytes ≡ drop self.old.shown_size self.old.bytes }
        ensures shown { self.new.shown_size ≡ 0 }
    {
        if let Some(len) = self.shown.take() {
            self.bytes.drain(..len + FRAME_SIZE);
        }
    }

    /// Returns all held bytes.
    pub(crate) fn bytes(&self) -> &[u8]
        ensures bytes { result.now ≡ self.now.bytes }
        ensures most { length result.now ≤ READER_SIZE }
    {
        self.bytes.as_slice()
    }

    /// Returns the number of held bytes.
    pub(crate) fn waiting(&self) -> usize
        ensures len { result ≡ length self.now.bytes }
        ensures most { result ≤ READER_SIZE }
    {
        self.bytes.len()
    }

    /// Removes all bytes.
    pub(crate) fn clear(&mut self)
        ensures { self.new ≡ nothing_held }
    {
        self.bytes.clear();
        self.shown = None;
    }
}

/// Skips the bytes before the first text.
fn search_in(bytes: &[u8]) -> Result<Search, TextTooLong>
    ensures within { IfOk result (λ search. search.passed ≤ length bytes.now) }
    ensures exact { MatchResult result
        (λ search.
        search_text bytes.now
        ≡ search_left (is_some search.shown) (held_as (drop search.passed bytes.now) search.shown))
        (λ _. search_text bytes.now ≡ text_too_long) }
    ensures shows { IfOk result (λ search. ShowsFirst (drop search.passed bytes.now) search.shown) }
    ensures room { IfOk result (λ search. IsNone search.shown
        → length bytes.now - search.passed < READER_SIZE) }
{
    let mut hail = Hail::new();
    let (used, is_whole) = hail.push(bytes)?;
    if !is_whole {
        return Ok(Search {
            passed: used - hail.waiting(),
            shown: None,
        });
    }
    let len = hail.text().len();
    Ok(Search {
        passed: used - (len + FRAME_SIZE),
        shown: Some(len),
    })
}

/// Appends bytes that fit.
fn append<A: Allocator>(buffer: &mut Vec<u8, A>, bytes: &[u8])
    requires fits { length buffer.old.items + length bytes.now ≤ READER_SIZE }
    requires room { READER_SIZE ≤ vec_capacity buffer.old }
    ensures items { buffer.new.items ≡ buffer.old.items ++ bytes.now }
    ensures room { READER_SIZE ≤ vec_capacity buffer.new }
{
    if buffer.extend_from_slice(bytes).is_err() {
        unreachable!();
    }
}
