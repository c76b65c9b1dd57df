//! Saves the bytes of a file as they arrive, so that the next session can resume the file if the end is killed.

use crate::held_part::{HeldPart, STEP};
use crate::partial_folder::drop_partials;
use std::alloc::Allocator;
use std::fs::File;
use std::rt::Files;
use uug_store::Notebook;
use uug_talk::{FileDigest, Name, NamedDigest};

/// The notebook over an end's folder of partial files.
#[derive(Drop)]
pub struct PartialNotes<'a, R, A: Allocator> {
    alloc: A,
    rt: &'a R,
    path: String<A>,
    /// The file that is arriving, once there were bytes of it to save.
    growing: Option<Growing>,
}

/// A file that is arriving.
#[derive(Drop)]
struct Growing {
    told: FileDigest,
    /// Its partial file, unless writing that has failed.
    part: Option<HeldPart>,
}

impl<'a, R: Files<File = File>, A: Allocator + Copy> PartialNotes<'a, R, A> {
    /// Creates the notebook over the folder at `path`. Writes nothing yet.
    pub fn new(alloc: A, rt: &'a R, path: String<A>) -> Self {
        PartialNotes {
            alloc,
            rt,
            path,
            growing: None,
        }
    }

    /// Opens this file's partial file. `held` bytes of the file arrived before this session.
    fn growing(&self, source: &Name, told: &FileDigest, held: usize) -> Growing {
        let named = NamedDigest {
            name: *source,
            told: *told,
        };
        let part = HeldPart::open(self.alloc, self.rt, self.path.as_str(), &named, held);
        Growing {
            told: *told,
            part: part.ok(),
        }
    }
}

impl<R: Files<File = File>, A: Allocator + Copy> Notebook for PartialNotes<'_, R, A> {
    fn note(&mut self, source: &Name, told: &FileDigest, front: &[u8], bytes: &[u8]) {
        if bytes.len() < STEP {
            return;
        }
        match &mut self.growing {
            Some(growing) if growing.told.hash == told.hash => growing.append(front, bytes),
            _ => {
                let mut growing = self.growing(source, told, front.len());
                growing.append(front, bytes);
                self.growing = Some(growing);
            }
        }
    }

    fn let_go(&mut self, told: &FileDigest) {
        self.growing = None;
        drop_partials(self.alloc, self.rt, self.path.as_str(), &[*told]);
    }
}

impl Growing {
    /// Appends bytes that have arrived since. After a failure nothing more is written.
    fn append(&mut self, front: &[u8], bytes: &[u8]) {
        if let Some(part) = &mut self.part {
            if part.append(front, bytes).is_err() {
                self.part = None;
            }
        }
    }
}
