//! The texts of a UUCP session: names, commands and their answers, handshake texts, and the messages in which commands
//! and files travel. Also the size and the SHA-256 digest that are announced before a file's bytes, in words after the
//! mode of a command or an answer, and the word after `SY` that says from which byte on a file is sent.
#![tactic(auto)]

mod answer;
mod call;
mod chunks;
mod error;
mod file_digest;
mod gather;
mod hail;
pub mod laws;
mod lenient;
mod lines;
mod mode;
mod name;
mod named_digest;
mod number;
mod order;
mod position;
mod telling;
mod told;
mod words;

pub use answer::{Answer, DEFAULT_MODE, read_answer, write_answer};
pub use call::{NUMBER_DIGITS_MAX, NUMBER_MAX, caller_number, write_call};
pub use chunks::{Chunks, MESSAGE_MAX, Message, is_command_text};
pub use error::BadText;
pub use file_digest::FileDigest;
pub use gather::{FILE_LIMIT_MAX, FILE_MAX, Gather, Progress};
pub use hail::{
    HAIL_MAX, HAIL_WRITTEN_MAX, Hail, TEXT_START, TextTooLong, is_hail_text, write_hail,
};
pub use lenient::{is_held, read_wished, refusal_text, refused_letter};
pub use lines::{LINE_MAX, split_line};
pub use mode::{MODE_MAX, mode_digits, read_mode};
pub use name::{NAME_MAX, Name};
pub use named_digest::NamedDigest;
pub use number::read_number;
pub use order::{Order, read_order, write_order};
pub use position::{position_told, write_consent};
pub use telling::{TELLING_MAX, give_telling, hash_text, order_telling};
pub use told::{told_by_answer, told_by_order};
pub use words::{
    COMMAND_MAX, WRITTEN_MAX, four_words, one_word, split_word, three_words, two_words,
};
