//! The conversation of two ends, followed by the messages of both.
ghost use Rattle.std.specs.Prelude.{◌≡◌, length};
ghost use Rattle.uug_observe_log.specs.Losses.{bytes_with};

use crate::transfer::{FileProgress, News, Outcome, Transfer};
use crate::way::Way;
use uug_talk::{
    Answer, BadText, FileDigest, Order, is_held, position_told, read_answer, read_order,
    read_wished, told_by_answer, told_by_order,
};

/// The size of the largest file that an end takes if no other limit is set.
const USUAL_LIMIT: u32 = 67_108_864;

/// The current job, and the progress of its file.
#[derive(Clone, Copy)]
pub(crate) struct Exchange {
    job: Option<Transfer>,
    /// The digest announced for its file.
    told: Option<FileDigest>,
    /// The direction of the file that is being sent, if one is.
    file: Option<Way>,
    /// The position from which its file is sent.
    start: u32,
    /// The number of bytes of the job's file that have passed in this session. It saturates.
    bytes: u64,
    /// Set if the end is lenient: its job is done if the other end has the file already, and it reads `RY 0644M`.
    is_lenient: bool,
    /// The size of the largest file that the end takes.
    limit: u32,
}

impl Exchange {
    /// Creates an exchange in which nothing was said yet.
    pub(crate) fn new(is_lenient: bool, limit: u32) -> Self {
        Exchange {
            job: None,
            told: None,
            file: None,
            start: 0,
            bytes: 0,
            is_lenient,
            limit,
        }
    }

    /// Returns the current job.
    pub(crate) fn job(&self) -> Option<Transfer> {
        self.job
    }

    /// Returns how many bytes of its file have passed, in this session and before.
    pub(crate) fn position(&self) -> u64 {
        self.bytes.saturating_add(u64::from(self.start))
    }

    /// Returns the announced size of its file.
    pub(crate) fn size(&self) -> Option<u32> {
        self.told.map(|told| told.size)
    }

    /// Returns whether a file is being sent this way: the next message is a part of it.
    pub(crate) fn is_file(&self, way: Way) -> bool {
        self.file == Some(way)
    }

    /// Takes a message of the file. An empty message ends it.
    pub(crate) fn take_part(&mut self, message: &[u8])
        ensures { self.new.bytes ≡ bytes_with self.old.bytes (length message.now) }
    {
        self.bytes = self.bytes.saturating_add(message.len() as u64);
        if message.is_empty() {
            self.file = None;
        }
    }

    /// Takes a complete text that went this way, and returns its news of a job.
    pub(crate) fn take_text(&mut self, way: Way, text: &[u8]) -> Option<News> {
        match read_order(text) {
            Ok(order) => self.begin(way, &order, told_by_order(text)),
            Err(_) => {
                let answer = self.read(text).ok()?;
                match answer {
                    Answer::GiveYes(_) => self.told = told_by_answer(text),
                    Answer::SendYes => self.start = position_told(text),
                    _ => {}
                }
                self.take_answer(way, answer, is_held(text) && self.is_lenient)
            }
        }
    }

    /// Reads an answer as the end does.
    fn read(&self, text: &[u8]) -> Result<Answer, BadText> {
        match read_answer(text) {
            Err(BadText::Mode) if self.is_lenient => read_wished(text),
            read => read,
        }
    }

    /// Begins the job of an order from either end, with the digest that the order announces for the file.
    fn begin(&mut self, way: Way, order: &Order, told: Option<FileDigest>) -> Option<News> {
        self.job = Transfer::of(way, order);
        self.told = told;
        self.start = 0;
        self.bytes = 0;
        let job = self.job?;
        Some(News::Begins(job))
    }

    /// Takes an answer from either end. `held` is set if that end has the file already, which counts as done. CN4
    /// reports a received file that differs from its digest, if one was announced.
    fn take_answer(&mut self, way: Way, answer: Answer, held: bool) -> Option<News> {
        match answer {
            Answer::SendYes | Answer::GiveYes(_) => self.begin_file(),
            Answer::DoneYes | Answer::DoneYesMaster => self.end(Outcome::Done),
            Answer::SendNever if self.is_too_large(way) => self.end(Outcome::TooLarge),
            Answer::SendNever | Answer::GiveNever | Answer::DoneNever => self.end(Outcome::Never),
            Answer::SendLater if held => self.end(Outcome::Done),
            Answer::DoneLater if self.told.is_some() => self.end(Outcome::Differs),
            Answer::SendLater | Answer::GiveLater | Answer::DoneLater => self.end(Outcome::Later),
            Answer::HangYes | Answer::HangNo => None,
        }
    }

    /// Begins the file of the current job, and returns the news if it resumes.
    fn begin_file(&mut self) -> Option<News> {
        let job = self.job?;
        self.file = Some(job.file_way());
        if self.start == 0 {
            return None;
        }
        Some(News::Resumes(job, self.size(), self.start))
    }

    /// Returns whether the announced size of the file exceeds the limit of the end whose answer went this way. The
    /// limit of the other end is not known, so `USUAL_LIMIT` is assumed.
    fn is_too_large(&self, way: Way) -> bool {
        let limit = match way {
            Way::Out => self.limit,
            Way::In => USUAL_LIMIT,
        };
        match &self.told {
            Some(told) => limit < told.size,
            None => false,
        }
    }

    /// Ends the current job.
    fn end(&mut self, outcome: Outcome) -> Option<News> {
        let job = self.job.take()?;
        Some(News::Ends(job, outcome, self.bytes))
    }
}
