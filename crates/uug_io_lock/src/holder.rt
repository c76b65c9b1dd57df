//! The text of a device's lock file, and the holder that it names.
ghost use Rattle.std.specs.Prelude.{◌≡◌, ◌<◌, ◌≤◌, IfOk, string_bytes};
ghost use Rattle.uug_io_lock.specs.DeviceLocks.{holder_in, device_name, is_held, lock_named, lock_path, lock_text};

use std::alloc::{AllocError, Allocator};
use uug_talk::{NUMBER_MAX, read_number, split_line, split_word};

/// The number of columns of a process number.
const COLUMNS: usize = 10;

/// The holder of a device's lock file, by its text.
#[derive(Clone, Copy, Debug, PartialEq, Eq)]
pub enum Holder {
    /// The process of this number.
    Process(u32),
    /// No process.
    Nobody,
    /// The text, or the process number in it, can't be read.
    Unknown,
}

/// Returns the name of a device: the part of its path after the last slash.
fn device_name(path: &str) -> &str
    ensures { result.now ≡ device_name path.now }
{
    match path.rsplit_once('/') {
        Some((_, name)) => name,
        None => path,
    }
}

/// Returns the path of the lock file of a device, in the folder of the locks.
pub fn lock_path<A: Allocator>(
    alloc: A,
    folder: &str,
    device: &str,
) -> Result<String<A>, AllocError>
    ensures { IfOk result (λ path. string_bytes path ≡ lock_path folder.now device.now) }
{
    lock_named(alloc, folder, device_name(device))
}

/// Returns the path of the lock file of a device of this name.
fn lock_named<A: Allocator>(alloc: A, folder: &str, name: &str) -> Result<String<A>, AllocError>
    ensures { IfOk result (λ path. string_bytes path ≡ lock_named folder.now name.now) }
{
    format!(in alloc; "{folder}/LCK..{name}")
}

/// Returns the text of a lock file that this process holds.
pub fn lock_text<A: Allocator + Copy>(alloc: A, process: u32) -> Result<Vec<u8, A>, AllocError>
    ensures text { IfOk result (λ text. text.items ≡ lock_text process) }
    // It is read back as this process.
    ensures read_back { 0 < process → IfOk result (λ text.
        holder_in text.items ≡ Holder.Process process) }
{
    written_text(alloc, process)
}

/// Returns the number of a process, right-aligned in its columns, and a line feed.
fn written_text<A: Allocator + Copy>(alloc: A, process: u32) -> Result<Vec<u8, A>, AllocError>
    ensures text { IfOk result (λ text. text.items ≡ lock_text process) }
    ensures within { process ≤ u32.MAX }
{
    let digits = format!(in alloc; "{process}")?;
    let mut text = vec![in alloc; b' '; COLUMNS.saturating_sub(digits.len())]?;
    text.extend_from_slice(digits.as_bytes())?;
    text.push(b'\n')?;
    Ok(text)
}

/// Returns the holder of a lock file with this text: the process whose number is the first word of the first line.
/// Nobody holds it if there is no word, as in a file that was created but not written, or if the number is 0. The
/// holder is unknown if the word is not a number.
pub fn holder_of(text: &[u8]) -> Holder
    ensures { result ≡ holder_in text.now }
{
    let Some((line, _)) = split_line(text) else {
        return Holder::Nobody;
    };
    let Some((word, _)) = split_word(line) else {
        return Holder::Nobody;
    };
    match read_number(word, NUMBER_MAX) {
        Some(0) => Holder::Nobody,
        Some(process) => Holder::Process(process),
        None => Holder::Unknown,
    }
}

/// Returns whether a lock is held. `is_gone` is set if its process is gone. A lock whose holder is unknown counts as
/// held.
pub fn is_held(holder: Holder, is_gone: bool) -> bool
    ensures { result ≡ is_held holder is_gone }
{
    match holder {
        Holder::Process(_) => !is_gone,
        Holder::Nobody => false,
        Holder::Unknown => true,
    }
}
