//! The last command or answer that an end has heard.

use std::alloc::{AllocError, Allocator};
use uug_packet::Packet;
use uug_reader::{Found, READER_SIZE, Reader};
use uug_talk::Gather;

/// The number of bytes to which a tail is shortened, once it has twice as many.
const KEPT: usize = READER_SIZE;

/// The bytes that came last.
#[derive(Drop)]
pub(crate) struct Tail<A: Allocator> {
    alloc: A,
    bytes: Vec<u8, A>,
}

impl<A: Allocator + Copy> Tail<A> {
    /// Creates an empty tail. Allocates nothing.
    pub(crate) fn new(alloc: A) -> Self {
        Tail {
            alloc,
            bytes: Vec::new(alloc),
        }
    }

    /// Takes bytes that came, or drops them if there is no memory for them.
    pub(crate) fn hear(&mut self, piece: &[u8]) {
        if self.bytes.len() >= 2 * KEPT {
            let old = self.bytes.len() - KEPT;
            self.bytes.drain(..old);
        }
        let _ = self.bytes.extend_from_slice(piece);
    }

    /// Forgets all bytes.
    pub(crate) fn clear(&mut self) {
        self.bytes.clear();
    }

    /// Returns the last text in these bytes, as far as it has arrived. A text is the data of the packets after the
    /// previous text or file, up to a zero byte.
    pub(crate) fn last_text(&self) -> Result<Gather<A>, AllocError> {
        let mut reader = Reader::new(self.alloc)?;
        let mut talk = Talk {
            before: None,
            text: Gather::command(),
        };
        for byte in &self.bytes {
            reader.push(&[*byte]);
            hear_found(&mut reader, &mut talk);
        }
        drop(reader);
        Ok(talk.text)
    }
}

/// Hears all packets that the reader finds in its bytes.
fn hear_found<A: Allocator>(reader: &mut Reader<A>, talk: &mut Talk<A>) {
    for _ in 0..READER_SIZE {
        if !reader.search() {
            return;
        }
        if let Some(Found::Packet(Packet::Carry { seq, message, .. })) = reader.showing() {
            talk.hear(seq.value(), message);
        }
        reader.drop_found();
    }
}

/// The texts of the messages in one direction.
#[derive(Drop)]
struct Talk<A: Allocator> {
    /// The number of the previous packet.
    before: Option<u8>,
    /// The current text, partial or complete.
    text: Gather<A>,
}

impl<A: Allocator> Talk<A> {
    /// Takes the message of the packet with this number. A repeat of the previous packet is skipped. An empty message
    /// ends a file. If the text would become too long, an empty one replaces it.
    fn hear(&mut self, number: u8, message: &[u8]) {
        if self.before == Some(number) {
            return;
        }
        self.before = Some(number);
        if self.text.is_whole() || message.is_empty() {
            self.text = Gather::command();
        }
        if self.text.push(message).is_err() {
            self.text = Gather::command();
        }
    }
}
