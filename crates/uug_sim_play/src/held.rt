//! Files that were cut off, and the bytes that an end holds of them.
ghost use Rattle.std.specs.Prelude.{◌≡◌, ◌++◌, IfOk, map};
ghost use Rattle.uug_conversation.specs.Partials.{put_left, without};
ghost use Rattle.uug_conversation.specs.PartialView.{partial_of, partials_of, shown_partial};
ghost use Rattle.uug_line.specs.Shown.{owned_by};
ghost use Rattle.uug_sim_play.specs.Numbers.{held_file, held_files};

use std::alloc::{AllocError, Allocator};
use uug_session::{MemorySpool, Node, PartialFile};
use uug_sim_script::HeldFile;

/// Returns the name and the size of what has come of a file.
fn held_file<A: Allocator>(file: &PartialFile<A>) -> HeldFile
    ensures { result ≡ held_file (partial_of file.now) }
{
    HeldFile {
        name: file.source,
        size: file.bytes.len(),
    }
}

/// Returns the files that were cut off, where this one takes the place of what was held of it.
fn files_without<A: Allocator>(
    alloc: A,
    files: &[PartialFile<A>],
    newer: &PartialFile<A>,
) -> Result<Vec<HeldFile, A>, AllocError>
    ensures { IfOk result (λ held. held.items
        ≡ map held_file (without (partial_of newer.now).key (partials_of files.now))) }
{
    let mut held = Vec::new(alloc);
    for file in files {
        if !file.is_of(&newer.source, &newer.told) {
            held.push(held_file(file))?;
        }
    }
    Ok(held)
}

/// Returns the files that were cut off.
fn all_files<A: Allocator>(
    alloc: A,
    files: &[PartialFile<A>],
) -> Result<Vec<HeldFile, A>, AllocError>
    ensures { IfOk result (λ held. held.items ≡ map held_file (partials_of files.now)) }
{
    let mut held = Vec::new(alloc);
    for file in files {
        held.push(held_file(file))?;
    }
    Ok(held)
}

/// Returns what is held of the files, with what is left of the last session.
fn files_then<A: Allocator>(
    alloc: A,
    files: &[PartialFile<A>],
    left: &Option<PartialFile<A>>,
) -> Result<Vec<HeldFile, A>, AllocError>
    ensures { IfOk result (λ held. held.items
        ≡ map held_file (put_left (shown_partial left.now) (partials_of files.now))) }
{
    let Some(newer) = left else {
        return all_files(alloc, files);
    };
    let mut held = files_without(alloc, files, newer)?;
    held.push(held_file(newer))?;
    Ok(held)
}

/// Returns what the end holds of files that were cut off, which is nothing if it doesn't resume. It takes memory for
/// what is left of the file in whose middle a session stands.
pub(crate) fn held_files<A: Allocator + Copy>(
    alloc: A,
    node: &Node<MemorySpool<A>, A>,
) -> Result<Vec<HeldFile, A>, AllocError>
    ensures { IfOk result (λ held. held.items ≡ held_files (owned_by node.now).partials) }
{
    let Some(partials) = node.spool().partials() else {
        return Ok(Vec::new(alloc));
    };
    let left = node.left()?;
    let held = files_then(alloc, partials.files(), &left);
    drop(left);
    held
}
