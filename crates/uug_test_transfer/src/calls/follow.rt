//! The news for an observer who sees the messages of two ends. The clauses say what is counted; these rows say what is
//! reported of jobs.

use crate::calls::assertions::{assert_same, assert_same_at};
use arrayvec::ArrayVec;
use std::alloc::Global;
use std::process::Abort;
use uug_observe_log::{
    FileProgress, Journal, Mark, News, Observer, Outcome, Pace, Way, news_line, progress_line,
};
use uug_packet::{PACKET_MAX, Packet, Seq, encode};

/// The number of jobs that began, and how they ended, with all bytes of their files.
#[derive(Clone, Copy, Debug, PartialEq, Eq)]
struct Notes {
    begun: u8,
    done: u8,
    refused: u8,
    put_off: u8,
    bytes: u64,
}

impl Journal for Notes {
    fn note(&mut self, news: &News) {
        match news {
            News::Begins(_) => self.begun = self.begun.saturating_add(1),
            News::Resumes(..) => {}
            News::Ends(_, outcome, bytes) => {
                self.bytes = self.bytes.saturating_add(*bytes);
                match outcome {
                    Outcome::Done => self.done = self.done.saturating_add(1),
                    Outcome::Never | Outcome::TooLarge => self.refused = self
                        .refused
                        .saturating_add(1),
                    Outcome::Later | Outcome::Differs => {
                        self.put_off = self.put_off.saturating_add(1);
                    }
                }
            }
        }
    }
}

/// The limit of files of the end.
const LIMIT: u32 = 0x10_0000;

/// A message in one direction.
type Said = (Way, &'static [u8]);

const SEND: Said = (Way::Out, b"S x y u - x 0644\0");

const REQUEST: Said = (Way::Out, b"R x y u -\0");

const OTHERS_REQUEST: Said = (Way::In, b"R x y u -\0");

const NOTHING: Notes = Notes {
    begun: 0,
    done: 0,
    refused: 0,
    put_off: 0,
    bytes: 0,
};

const REFUSED: Notes = Notes {
    begun: 1,
    done: 0,
    refused: 1,
    put_off: 0,
    bytes: 0,
};

const PUT_OFF: Notes = Notes {
    begun: 1,
    done: 0,
    refused: 0,
    put_off: 1,
    bytes: 0,
};

/// The notes of a job that is done, whose file has five bytes.
const DONE: Notes = Notes {
    begun: 1,
    done: 1,
    refused: 0,
    put_off: 0,
    bytes: 5,
};

const BEGUN: Notes = Notes {
    begun: 1,
    done: 0,
    refused: 0,
    put_off: 0,
    bytes: 0,
};

/// The messages on the line, and the notes after them.
type Row = (&'static [Said], Notes);

/// The other end has the file, which this one does not take as a reason to be done.
const HELD_AND_PUT_OFF: Row = (&[SEND, (Way::In, b"SN8\0")], PUT_OFF);

/// The same row for a lenient end.
const HELD: Row = (
    &[SEND, (Way::In, b"SN8\0")],
    Notes {
        begun: 1,
        done: 1,
        refused: 0,
        put_off: 0,
        bytes: 0,
    },
);

const ROWS: &[Row] = &[
    (&[], NOTHING),
    // the bytes of a file, and the empty message that ends it
    (
        &[
            SEND,
            (Way::In, b"SY\0"),
            (Way::Out, b"abc"),
            (Way::Out, b"CN"),
            (Way::Out, b""),
            (Way::In, b"CY\0"),
        ],
        DONE,
    ),
    // those of a request come the other way
    (
        &[
            REQUEST,
            (Way::In, b"RY 0644\0"),
            (Way::In, b"abcde"),
            (Way::In, b""),
            (Way::Out, b"CY\0"),
        ],
        DONE,
    ),
    (
        &[
            OTHERS_REQUEST,
            (Way::Out, b"RY 0644\0"),
            (Way::Out, b"abcde"),
            (Way::Out, b""),
            (Way::In, b"CYM\0"),
        ],
        DONE,
    ),
    (&[SEND, (Way::In, b"SN2\0")], REFUSED),
    (&[REQUEST, (Way::In, b"RN2\0")], REFUSED),
    (&[SEND, (Way::In, b"SN4\0")], PUT_OFF),
    HELD_AND_PUT_OFF,
    // what refuses another job
    (&[SEND, (Way::Out, b"XN\0"), (Way::Out, b"EN2\0")], BEGUN),
    // an answer to no job, and no text
    (&[(Way::In, b"CY\0")], NOTHING),
    (
        &[
            (Way::In, b"hello\0"),
            (Way::Out, b"H\0"),
            (Way::In, b"HY\0"),
        ],
        NOTHING,
    ),
];

/// The numbers of the next packets, one for each direction.
#[derive(Drop)]
struct Next {
    outward: u8,
    inward: u8,
}

impl Next {
    /// Returns the number of a packet in this direction.
    fn step(&mut self, way: Way) -> u8 {
        match way {
            Way::Out => step(&mut self.outward),
            Way::In => step(&mut self.inward),
        }
    }
}

/// The number of the first data packet of a link.
const FIRST: u8 = 1;

/// Returns the number, and goes on to the next one.
fn step(next: &mut u8) -> u8 {
    let seq = *next % 8;
    *next = (seq + 1) % 8;
    seq
}

fn number(rt: &impl Abort, value: u8) -> Seq {
    Seq::new(value).expect(rt, "a number")
}

/// Writes the packet of this number, with the smallest field. A longer message is cut.
fn write_packet(rt: &impl Abort, seq: u8, message: &[u8], out: &mut ArrayVec<u8, PACKET_MAX>) {
    let packet = Packet::Carry {
        seq: number(rt, seq),
        ack: number(rt, 0),
        k: 1,
        message: &message[..message.len().min(32)],
    };
    encode(&packet, out);
}

/// Shows these messages, each of them in a packet of its own.
fn show<J: Journal>(
    rt: &impl Abort,
    said: &[Said],
    observer: &mut Observer<Global>,
    notes: &mut J,
) {
    let mut next = Next {
        outward: FIRST,
        inward: FIRST,
    };
    let mut packet = ArrayVec::new();
    for (way, message) in said {
        write_packet(rt, next.step(*way), message, &mut packet);
        observer.see(*way, packet.as_slice(), notes);
    }
}

fn follow(rt: &impl Abort, alloc: Global, is_lenient: bool, said: &[Said]) -> Notes {
    let mut observer = Observer::new(alloc, is_lenient, LIMIT).expect(rt, "memory for both ways");
    let mut notes = NOTHING;
    show(rt, said, &mut observer, &mut notes);
    drop(observer);
    notes
}

#[test]
fn jobs_are_told_as_they_begin_and_end(rt: HostRuntime) {
    for (place, (said, notes)) in ROWS.iter().enumerate() {
        let seen = follow(&rt, rt.alloc(), false, said);
        assert_same_at(&rt, seen, *notes, place);
    }
    let (said, notes) = HELD;
    let seen = follow(&rt, rt.alloc(), true, said);
    assert_same_at(&rt, seen, notes, ROWS.len());
}

/// The lines of all news, in the order in which they came, of a session that takes no time.
#[derive(Drop)]
struct Lines {
    alloc: Global,
    text: Vec<u8>,
}

impl Journal for Lines {
    fn note(&mut self, news: &News) {
        if let Ok(line) = news_line(self.alloc, 0, 0, news) {
            let _ = self.text.extend_from_slice(line.as_bytes());
        }
    }
}

/// A second job of this end, and one of the other end.
const SEND_Q: Said = (Way::Out, b"S q z u - q 0644\0");

const OTHERS_SEND: Said = (Way::In, b"S p w u - p 0644\0");

/// The digest that is announced for a file, in pieces of one packet each.
const HASH: &[u8] = b"sha256:0123456789abcdef012345678";

const HASH_GOES_ON: &[u8] = b"9abcdef0123456789abcdef012345678";

const HASH_ENDS: &[u8] = b"9abcdef\0";

/// The messages on the line in a session with several jobs, and the lines about them.
const ORDERS: &[(&[Said], &str)] = &[
    // a job begins after another has ended, and its bytes are counted from none
    (
        &[
            SEND,
            (Way::In, b"SY\0"),
            (Way::Out, b"abc"),
            (Way::Out, b""),
            (Way::In, b"CY\0"),
            SEND_Q,
            (Way::In, b"SY\0"),
            (Way::Out, b"de"),
            (Way::Out, b"fgh"),
            (Way::Out, b""),
            (Way::In, b"CY\0"),
        ],
        "uucpair: 0 s: send x y\n\
        uucpair: 0 s: send x y: done 3 bytes in 0 s\n\
        uucpair: 0 s: send q z\n\
        uucpair: 0 s: send q z: done 5 bytes in 0 s\n",
    ),
    // one is refused before its file goes, and the next is put off after its file has gone
    (
        &[
            SEND,
            (Way::In, b"SN2\0"),
            SEND_Q,
            (Way::In, b"SY\0"),
            (Way::Out, b"de"),
            (Way::Out, b""),
            (Way::In, b"CN4\0"),
            REQUEST,
            (Way::In, b"RN4\0"),
        ],
        "uucpair: 0 s: send x y\n\
        uucpair: 0 s: send x y: refused 0 bytes in 0 s\n\
        uucpair: 0 s: send q z\n\
        uucpair: 0 s: send q z: put off 2 bytes in 0 s\n\
        uucpair: 0 s: request x y\n\
        uucpair: 0 s: request x y: put off 0 bytes in 0 s\n",
    ),
    // the other end's jobs come after this end's
    (
        &[
            REQUEST,
            (Way::In, b"RY 0644\0"),
            (Way::In, b"abcd"),
            (Way::In, b""),
            (Way::Out, b"CY\0"),
            (Way::Out, b"H\0"),
            (Way::In, b"HN\0"),
            OTHERS_SEND,
            (Way::Out, b"SY\0"),
            (Way::In, b"e"),
            (Way::In, b""),
            (Way::Out, b"CY\0"),
            OTHERS_REQUEST,
            (Way::Out, b"RY 0644\0"),
            (Way::Out, b""),
            (Way::In, b"CY\0"),
            (Way::In, b"H\0"),
            (Way::Out, b"HY\0"),
            (Way::In, b"HY\0"),
        ],
        "uucpair: 0 s: request x y\n\
        uucpair: 0 s: request x y: done 4 bytes in 0 s\n\
        uucpair: 0 s: peer's send p w\n\
        uucpair: 0 s: peer's send p w: done 1 bytes in 0 s\n\
        uucpair: 0 s: peer's request x y\n\
        uucpair: 0 s: peer's request x y: done 0 bytes in 0 s\n",
    ),
    // CN4 says that another file came than a digest announced: at the end that takes it ..
    (
        &[
            (Way::In, b"S p w u - p 0644 \"\" 0x2 "),
            (Way::In, HASH),
            (Way::In, HASH_GOES_ON),
            (Way::In, HASH_ENDS),
            (Way::Out, b"SY\0"),
            (Way::In, b"de"),
            (Way::In, b""),
            (Way::Out, b"CN4\0"),
        ],
        "uucpair: 0 s: peer's send p w\n\
        uucpair: 0 s: peer's send p w: wrong digest 2 bytes in 0 s\n",
    ),
    // .. and at the end whose job it is. Nothing of it is left at the next job
    (
        &[
            (Way::Out, b"S x y u - x 0644 \"\" 0x2 "),
            (Way::Out, HASH),
            (Way::Out, HASH_GOES_ON),
            (Way::Out, HASH_ENDS),
            (Way::In, b"SY\0"),
            (Way::Out, b"de"),
            (Way::Out, b""),
            (Way::In, b"CN4\0"),
            SEND_Q,
            (Way::In, b"SY\0"),
            (Way::Out, b""),
            (Way::In, b"CN4\0"),
        ],
        "uucpair: 0 s: send x y\n\
        uucpair: 0 s: send x y: wrong digest 2 bytes in 0 s\n\
        uucpair: 0 s: send q z\n\
        uucpair: 0 s: send q z: put off 0 bytes in 0 s\n",
    ),
    // RY announces a file that is asked for
    (
        &[
            REQUEST,
            (Way::In, b"RY 0644 \"\" 0x2 "),
            (Way::In, HASH),
            (Way::In, HASH_GOES_ON),
            (Way::In, HASH_ENDS),
            (Way::In, b"de"),
            (Way::In, b""),
            (Way::Out, b"CN4\0"),
        ],
        "uucpair: 0 s: request x y\n\
        uucpair: 0 s: request x y: wrong digest 2 bytes in 0 s\n",
    ),
    // a file goes on where an earlier session was cut off, and the bytes of this session are counted
    (
        &[
            SEND,
            (Way::In, b"SY 0x00000003\0"),
            (Way::Out, b"de"),
            (Way::Out, b""),
            (Way::In, b"CY\0"),
            SEND_Q,
            (Way::In, b"SY\0"),
            (Way::Out, b"fgh"),
            (Way::Out, b""),
            (Way::In, b"CY\0"),
            OTHERS_SEND,
            (Way::Out, b"SY 0x00000001\0"),
            (Way::In, b""),
            (Way::Out, b"CY\0"),
        ],
        "uucpair: 0 s: send x y\n\
        uucpair: 0 s: send x y: resumed at 3\n\
        uucpair: 0 s: send x y: done 2 bytes in 0 s\n\
        uucpair: 0 s: send q z\n\
        uucpair: 0 s: send q z: done 3 bytes in 0 s\n\
        uucpair: 0 s: peer's send p w\n\
        uucpair: 0 s: peer's send p w: resumed at 1\n\
        uucpair: 0 s: peer's send p w: done 0 bytes in 0 s\n",
    ),
    // the other end refuses a file of more bytes than an end usually takes, and then one of as many
    (
        &[
            (Way::Out, b"S x y u - x 0644 \"\" 0x4000001 "),
            (Way::Out, HASH),
            (Way::Out, HASH_GOES_ON),
            (Way::Out, HASH_ENDS),
            (Way::In, b"SN2\0"),
            (Way::Out, b"S x y u - x 0644 \"\" 0x4000000 "),
            (Way::Out, HASH),
            (Way::Out, HASH_GOES_ON),
            (Way::Out, HASH_ENDS),
            (Way::In, b"SN2\0"),
        ],
        "uucpair: 0 s: send x y\n\
        uucpair: 0 s: send x y: refused, maybe for its size 0 bytes in 0 s\n\
        uucpair: 0 s: send x y\n\
        uucpair: 0 s: send x y: refused 0 bytes in 0 s\n",
    ),
    // more bytes are announced than this end takes, and then as many as it takes
    (
        &[
            (Way::In, b"S p w u - p 0644 \"\" 0x100001 "),
            (Way::In, HASH),
            (Way::In, HASH_GOES_ON),
            (Way::In, HASH_ENDS),
            (Way::Out, b"SN2\0"),
            (Way::In, b"S p w u - p 0644 \"\" 0x100000 "),
            (Way::In, HASH),
            (Way::In, HASH_GOES_ON),
            (Way::In, HASH_ENDS),
            (Way::Out, b"SN2\0"),
        ],
        "uucpair: 0 s: peer's send p w\n\
        uucpair: 0 s: peer's send p w: refused, maybe for its size 0 bytes in 0 s\n\
        uucpair: 0 s: peer's send p w\n\
        uucpair: 0 s: peer's send p w: refused 0 bytes in 0 s\n",
    ),
    // a job that is followed by another before it is answered has no end reported
    (
        &[
            SEND,
            SEND_Q,
            (Way::In, b"SY\0"),
            (Way::Out, b"de"),
            (Way::Out, b""),
            (Way::In, b"CY\0"),
            (Way::In, b"CY\0"),
        ],
        "uucpair: 0 s: send x y\n\
        uucpair: 0 s: send q z\n\
        uucpair: 0 s: send q z: done 2 bytes in 0 s\n",
    ),
];

fn tell(rt: &impl Abort, alloc: Global, said: &[Said], lines: &mut Lines) {
    let mut observer = Observer::new(alloc, false, LIMIT).expect(rt, "memory for both ways");
    show(rt, said, &mut observer, lines);
    drop(observer);
}

fn assert_told(rt: &impl Abort, alloc: Global, said: &[Said], text: &str) {
    let mut lines = Lines {
        alloc,
        text: Vec::new(alloc),
    };
    tell(rt, alloc, said, &mut lines);
    assert_same(rt, lines.text.as_slice(), text.as_bytes());
}

// news that come late or twice, or that are of the wrong job; bytes of one job that are counted at the next
#[test]
fn news_of_several_jobs_come_in_order(rt: HostRuntime) {
    for (said, text) in ORDERS {
        assert_told(&rt, rt.alloc(), said, text);
    }
}

/// The announced size of the file that goes on, and where it does: 0 if none goes on.
#[derive(Clone, Copy, Debug, PartialEq, Eq)]
struct Rest {
    size: Option<u32>,
    position: u32,
}

impl Journal for Rest {
    fn note(&mut self, news: &News) {
        if let News::Resumes(_, size, position) = news {
            self.size = *size;
            self.position = *position;
        }
    }
}

const NO_REST: Rest = Rest {
    size: None,
    position: 0,
};

/// The messages on the line, and what goes on.
const RESTS: &[(&[Said], Rest)] = &[
    // this end's file, whose whole size its command announces
    (
        &[
            (Way::Out, b"S x y u - x 0644 \"\" 0x14 "),
            (Way::Out, HASH),
            (Way::Out, HASH_GOES_ON),
            (Way::Out, HASH_ENDS),
            (Way::In, b"SY 0x0000000a\0"),
        ],
        Rest {
            size: Some(20),
            position: 10,
        },
    ),
    // the other end's file
    (
        &[
            (Way::In, b"S p w u - p 0644 \"\" 0x14 "),
            (Way::In, HASH),
            (Way::In, HASH_GOES_ON),
            (Way::In, HASH_ENDS),
            (Way::Out, b"SY 0x00000013\0"),
        ],
        Rest {
            size: Some(20),
            position: 19,
        },
    ),
    // one whose size was not announced, after another that began with its size
    (
        &[
            (Way::Out, b"S x y u - x 0644 \"\" 0x14 "),
            (Way::Out, HASH),
            (Way::Out, HASH_GOES_ON),
            (Way::Out, HASH_ENDS),
            (Way::In, b"SN2\0"),
            SEND_Q,
            (Way::In, b"SY 0x00000003\0"),
        ],
        Rest {
            size: None,
            position: 3,
        },
    ),
    // one that is sent from its start
    (&[SEND, (Way::In, b"SY 0x00000000\0")], NO_REST),
];

fn assert_rest(rt: &impl Abort, alloc: Global, said: &[Said], expected: Rest, place: usize) {
    let mut observer = Observer::new(alloc, false, LIMIT).expect(rt, "memory for both ways");
    let mut seen = NO_REST;
    show(rt, said, &mut observer, &mut seen);
    drop(observer);
    assert_same_at(rt, seen, expected, place);
}

#[test]
fn a_file_that_goes_on_has_its_whole_size(rt: HostRuntime) {
    for (place, (said, rest)) in RESTS.iter().enumerate() {
        assert_rest(&rt, rt.alloc(), said, *rest, place);
    }
}

/// The messages on the line, and how far the file of the job is then: no line, or one of a rate of 1 byte a second.
const PARTS: &[(&[Said], &str)] = &[
    (&[], ""),
    (&[SEND], "uucpair: 9 s: send x: 0 bytes, 1 B/s"),
    (
        &[SEND, (Way::In, b"SY\0"), (Way::Out, b"abc")],
        "uucpair: 9 s: send x: 3 bytes, 1 B/s",
    ),
    // what came before counts, and the size is announced
    (
        &[
            (Way::In, b"S p w u - p 0644 \"\" 0x14 "),
            (Way::In, HASH),
            (Way::In, HASH_GOES_ON),
            (Way::In, HASH_ENDS),
            (Way::Out, b"SY 0x0000000a\0"),
            (Way::In, b"de"),
        ],
        "uucpair: 9 s: peer's send p: 12 of 20 bytes, 60%, 1 B/s, 8 s left",
    ),
    // a job that has ended has no file
    (&[SEND, (Way::In, b"SN2\0")], ""),
];

fn line_of(rt: &impl Abort, alloc: Global, progress: Option<FileProgress>) -> String {
    match progress {
        Some(progress) => { progress_line(alloc, 9, 1, &progress).expect(rt, "memory for a line") }
        None => String::new(alloc),
    }
}

fn assert_part(rt: &impl Abort, alloc: Global, said: &[Said], line: &str) {
    let mut observer = Observer::new(alloc, false, LIMIT).expect(rt, "memory for both ways");
    let mut notes = NOTHING;
    show(rt, said, &mut observer, &mut notes);
    let seen = line_of(rt, alloc, observer.progress());
    assert_same(rt, seen.as_bytes(), line.as_bytes());
    drop(observer);
}

#[test]
fn a_file_is_so_far(rt: HostRuntime) {
    for (said, line) in PARTS {
        assert_part(&rt, rt.alloc(), said, line);
    }
}

/// Marks of a file, one after the other, and the rate at each.
const MARKS: &[(u64, u64, u64)] = &[
    (3, 500, 0),
    (5, 700, 100),
    (13, 1500, 100),
    // the mark of 13 is the older one from 23 on
    (22, 1500, 52),
    (23, 1500, 0),
    (24, 1610, 10),
    // a clock that fails gives 0
    (0, 1700, 0),
];

#[test]
fn a_rate_is_of_the_last_seconds(rt: HostRuntime) {
    let mut pace = Pace::new(Mark {
        second: 3,
        position: 500,
    });
    for (second, position, rate) in MARKS {
        let now = Mark {
            second: *second,
            position: *position,
        };
        pace.take(now);
        assert_same(&rt, pace.rate(now), *rate);
    }
}
