//! The lines that report files that are not given.
ghost use Rattle.std.specs.Prelude.{◌≡◌, ◌<◌, ◌++◌, [], ◌∷◌, OnOk};
ghost use Rattle.uug_io_disk.specs.Delayed.{with_delayed};
ghost use Rattle.uug_error.specs.Passing.{may_pass};

use std::alloc::{AllocError, Allocator};
use uug_error::Cause;
use uug_talk::Name;

/// The number of reasons.
const LACKS: usize = 5;

/// The reason why a file in `send` is not given.
#[derive(Clone, Copy)]
pub(crate) enum Lack {
    /// Its name is not text.
    Text,
    /// Its name is not a `Name`.
    Name,
    /// It can't be read.
    Access,
    /// The maximum number of other files is given already.
    Room,
    /// With it, the other files would have too many bytes.
    Bytes,
}

impl Lack {
    /// Returns its index among the reasons.
    fn place(self) -> usize
        ensures { result < LACKS }
    {
        match self {
            Lack::Text => 0,
            Lack::Name => 1,
            Lack::Access => 2,
            Lack::Room => 3,
            Lack::Bytes => 4,
        }
    }

    /// Returns the text after the path. A name that is not text is unknown, and the path is then that of the folder.
    fn rest(self) -> &'static str {
        match self {
            Lack::Text => "/?",
            Lack::Name | Lack::Access | Lack::Room | Lack::Bytes => "",
        }
    }

    /// Returns the reason in words.
    fn words(self) -> &'static str {
        match self {
            Lack::Text => "its name is not text",
            Lack::Name => "its name is not 1 to 200 printable characters without spaces",
            Lack::Access => "it can't be read",
            Lack::Room => "there are more than 256 files that no job sends",
            Lack::Bytes => "the files that no job sends have more bytes than --most",
        }
    }
}

/// The report of files in `send` that are not given, and the names of those that may be given later. The report names
/// the first file for each reason, and counts the others. A line for which there is no memory is left out.
#[derive(Drop)]
pub(crate) struct PassedOver<'a, A: Allocator> {
    alloc: A,
    /// The path of the folder `send`.
    send: &'a str,
    /// The lines.
    pub(crate) lines: Vec<String<A>, A>,
    /// The number of files for each reason.
    counts: [u64; LACKS],
    /// The names of the files that may be given later.
    pub(crate) delayed: Vec<Name, A>,
}

impl<'a, A: Allocator + Copy> PassedOver<'a, A> {
    /// Creates an empty report for the folder at this path.
    pub(crate) fn none(alloc: A, send: &'a str) -> Self {
        PassedOver {
            alloc,
            send,
            lines: Vec::new(alloc),
            counts: [0; LACKS],
            delayed: Vec::new(alloc),
        }
    }

    /// Counts a file at this path that is not given, and adds a line for the first one of each reason. Characters of
    /// the path that don't print are escaped.
    pub(crate) fn note(&mut self, lack: Lack, path: &str)
        ensures { self.new.delayed ≡ self.old.delayed }
    {
        let place = lack.place();
        if self.counts[place] == 0 {
            let path = path.escape_debug();
            let rest = lack.rest();
            let words = lack.words();
            self.keep(format!(in self.alloc; "uucpair: {path}{rest} is not given: {words}\n"));
        }
        self.counts[place] = self.counts[place].saturating_add(1);
    }

    /// Notes that the file of this name at this path can't be read. It may be given later, if the cause may pass.
    pub(crate) fn note_unread(
        &mut self,
        name: Name,
        path: &str,
        cause: Cause,
    ) -> Result<(), AllocError>
        ensures { OnOk result (self.new.delayed.items
            ≡ with_delayed (may_pass cause) name self.old.delayed.items) }
    {
        self.note(Lack::Access, path);
        if cause.may_pass() {
            self.delayed.push(name)?;
        }
        Ok(())
    }

    /// Notes that there is no room for the file of this name at this path. It may be given later.
    pub(crate) fn note_large(&mut self, name: Name, path: &str) -> Result<(), AllocError>
        ensures { OnOk result (self.new.delayed.items ≡ self.old.delayed.items ++ name ∷ []) }
    {
        self.note(Lack::Bytes, path);
        self.delayed.push(name)?;
        Ok(())
    }

    /// Notes that a file is not given because its name is not text.
    pub(crate) fn note_no_text(&mut self) {
        let send = self.send;
        self.note(Lack::Text, send);
    }

    /// Adds a line, if there is memory for it.
    fn keep(&mut self, line: Result<String<A>, AllocError>)
        ensures { self.new.delayed ≡ self.old.delayed }
    {
        if let Ok(line) = line {
            let _ = self.lines.push(line);
        }
    }

    /// Adds a line with the number of further files that are not given, if there are any.
    pub(crate) fn count_rest(&mut self)
        ensures { self.new.delayed ≡ self.old.delayed }
    {
        let mut more: u64 = 0;
        for count in &self.counts {
            more = more.saturating_add(count.saturating_sub(1));
        }
        if more > 0 {
            let send = self.send.escape_debug();
            self.keep(format!(in self.alloc;
                "uucpair: {more} more files in {send} are not given\n"
            ));
        }
    }
}
