//! An observer of the bytes of both ends, which reports their jobs and losses. Its reports come from the bytes alone:
//! the ends neither know of it nor wait for it.
ghost use Rattle.std.specs.Prelude.{◌≡◌, ◌<◌, ◌++◌, length, IfOk};
ghost use Rattle.uug_packet.specs.Waits.{Waits};
ghost use Rattle.uug_reader.specs.Cut.{Item};
ghost use Rattle.uug_reader.specs.Reading.{Shows};
ghost use Rattle.uug_reader.specs.declared.reader.TheConstants.{READER_SIZE};
ghost use Rattle.uug_observe_log.specs.Losses.{AddsCounts, passed_after};
ghost use Rattle.uug_observe_log.specs.Watched.{Sees, nothing_yet, passing};

use crate::exchange::Exchange;
use crate::passed::{Counts, Passed};
use crate::transfer::{FileProgress, News};
use crate::way::Way;
use std::alloc::{AllocError, Allocator};
use std::marker::Model;
use uug_reader::Reader;
use uug_talk::{Gather, Progress};

/// A journal of what an observer reports.
pub trait Journal {
    /// Notes news of a job.
    fn note(&mut self, news: &News);
}

/// The bytes that go one way.
#[derive(Drop)]
struct Stream<A: Allocator> {
    reader: Reader<A>,
    passed: Passed,
    /// The command or answer that is being gathered.
    text: Gather<A>,
}

impl<A: Allocator> Stream<A> {
    fn new(alloc: A) -> Result<Self, AllocError>
        ensures held { IfOk result (λ stream. stream.reader.bytes ≡ nothing_yet.held) }
        ensures passed { IfOk result (λ stream. stream.passed ≡ nothing_yet.passed) }
    {
        Ok(Stream {
            reader: Reader::new(alloc)?,
            passed: Passed::new(),
            text: Gather::command(),
        })
    }
}

/// An observer that follows a session by the bytes that go both ways. Clauses see what has passed each way.
#[derive(Drop)]
pub struct Observer<A: Allocator> {
    outward: Stream<A>,
    inward: Stream<A>,
    exchange: Exchange,
}

impl<A: Allocator> Model for Observer<A> {
    ghost use Rattle.uug_observe_log.specs.Watched.{Watched};

    ghost Value = { Watched };

    ghost view = { λ o. record {
      outward = record { held = o.outward.reader.bytes; passed = o.outward.passed };
      inward = record { held = o.inward.reader.bytes; passed = o.inward.passed };
    } };
}

impl<A: Allocator + Copy> Observer<A> {
    /// Creates an observer of an end, which may be lenient and takes files of up to `limit` bytes. It has seen nothing
    /// of the session. The observer allocates in no other call.
    pub fn new(alloc: A, is_lenient: bool, limit: u32) -> Result<Self, AllocError>
        ensures outward { IfOk result (λ observer. observer.outward ≡ nothing_yet) }
        ensures inward { IfOk result (λ observer. observer.inward ≡ nothing_yet) }
    {
        Ok(Observer {
            outward: Stream::new(alloc)?,
            inward: Stream::new(alloc)?,
            exchange: Exchange::new(is_lenient, limit),
        })
    }

    /// Takes the next bytes that go this way.
    pub fn see<J: Journal>(&mut self, way: Way, piece: &[u8], journal: &mut J)
        ensures { Sees way piece.now self.old self.new }
    {
        match way {
            Way::Out => see_piece(&mut self.outward, &mut self.exchange, way, piece, journal),
            Way::In => see_piece(&mut self.inward, &mut self.exchange, way, piece, journal),
        }
    }

    /// Returns the counts of what has gone this way.
    pub fn counts(&self, way: Way) -> Counts
        ensures { result ≡ (passing way self.now).passed.counts }
    {
        match way {
            Way::Out => self.outward.passed.counts,
            Way::In => self.inward.passed.counts,
        }
    }

    /// Returns the progress of the current job's file, or `None` if there is no job.
    pub fn progress(&self) -> Option<FileProgress> {
        let job = self.exchange.job()?;
        let way = job.file_way();
        Some(FileProgress {
            job,
            position: self.exchange.position(),
            size: self.exchange.size(),
            repeats: self.counts(way).repeats,
        })
    }
}

/// Takes a piece that goes one way.
fn see_piece<A: Allocator, J: Journal>(
    stream: &mut Stream<A>,
    exchange: &mut Exchange,
    way: Way,
    piece: &[u8],
    journal: &mut J,
)
    ensures counts { AddsCounts (stream.old.reader.bytes ++ piece.now) stream.new.reader.bytes
        stream.old.passed stream.new.passed }
    ensures waits { Waits stream.new.reader.bytes }
{
    let mut rest = piece;
    take_found(stream, exchange, way, journal);
    while !rest.is_empty() {
        let count = stream.reader.push(rest);
        rest = &rest[count..];
        take_found(stream, exchange, way, journal);
    }
}

/// Takes all that is found in the held bytes.
fn take_found<A: Allocator, J: Journal>(
    stream: &mut Stream<A>,
    exchange: &mut Exchange,
    way: Way,
    journal: &mut J,
)
    ensures counts { AddsCounts stream.old.reader.bytes stream.new.reader.bytes
        stream.old.passed stream.new.passed }
    ensures waits { Waits stream.new.reader.bytes }
    ensures room { length stream.new.reader.bytes < READER_SIZE }
{
    while stream.reader.search() {
        if let Some(news) = take_shown(stream, exchange, way) {
            journal.note(&news);
        }
        stream.reader.drop_found();
    }
}

/// Takes the item that the reader shows.
fn take_shown<A: Allocator>(
    stream: &mut Stream<A>,
    exchange: &mut Exchange,
    way: Way,
) -> Option<News>
    requires { 0 < stream.old.reader.shown_size }
    ensures reader { stream.new.reader ≡ stream.old.reader }
    ensures passed { (item : Item) × Shows item stream.old.reader
        × (stream.new.passed ≡ passed_after stream.old.passed item) }
{
    let found = stream.reader.showing()?;
    let message = stream.passed.take(found)?;
    take_message(&mut stream.text, exchange, way, message)
}

/// Takes a message of a file, of a command or of an answer that goes one way.
fn take_message<A: Allocator>(
    text: &mut Gather<A>,
    exchange: &mut Exchange,
    way: Way,
    message: &[u8],
) -> Option<News> {
    if exchange.is_file(way) {
        exchange.take_part(message);
        return None;
    }
    if text.is_whole() {
        *text = Gather::command();
    }
    match text.push(message) {
        Ok(Progress::Whole) => exchange.take_text(way, text.bytes()),
        Ok(Progress::More) => None,
        Err(_) => {
            *text = Gather::command();
            None
        }
    }
}
