//! The lock file of a device. It keeps programs from using the device at the same time.
ghost use Rattle.std.specs.Prelude.{◌≡◌, ◌≤◌, false, IfErr, IfOk};
ghost use Rattle.uug_io_disk.specs.Numbers.{is_own};
ghost use Rattle.uug_error.specs.Faults.{IsFolderFault};

use crate::part_path::{PartPath, process_text};
use std::alloc::{AllocError, Allocator};
use std::fs::{File, Permissions};
use std::io::{ErrorKind, Read, Write};
use std::os::unix::fs::PermissionsExt;
use std::rt::Files;
use std::{fs, io};
use uug_error::{Cause, Resource, RunFault, SystemFailure};
use uug_io_lock::{Holder, holder_of, is_held, lock_path, lock_text};
use uug_talk::{NUMBER_MAX, read_number};

/// The maximum number of bytes that are read from a lock file.
const READ_MAX: usize = 64;

/// The mode of a lock file, which everybody may read.
const LOCK_MODE: u32 = 0o644;

/// The lock file of a device that this run holds. `release` removes it.
#[derive(Drop)]
pub struct DeviceLock<A: Allocator> {
    path: String<A>,
    process: u32,
}

/// The outcome of an attempt to take a lock.
#[derive(Clone, Copy)]
enum Attempt {
    /// This run holds the lock.
    Taken,
    /// Another run holds it, or may be taking it.
    Held,
    /// Nobody holds it, but the system refused to create or replace it.
    Refused,
}

/// Takes the lock of a device: a file in the folder of the locks that is named after the device, and has the number of
/// the process that holds it. Takes over the lock of a process that is gone. Returns the failure `Cause::InUse` if
/// another run holds the lock. Returns `None`, without a lock, if the system refuses to create the file, or doesn't
/// report the number of this process.
pub fn lock_device<A: Allocator + Copy, R: Files<File = File>>(
    alloc: A,
    rt: &R,
    folder: &str,
    device: &str,
) -> Result<Option<DeviceLock<A>>, RunFault>
    ensures { IfErr result IsFolderFault }
{
    let path = lock_path(alloc, folder, device)?;
    let own = own_number(alloc, rt)?;
    if is_taken(alloc, rt, own, path.as_str())? {
        return Err(in_use());
    }
    let Some(process) = own else {
        return Ok(None);
    };
    match take(alloc, rt, process, folder, path.as_str())? {
        Attempt::Taken => Ok(Some(DeviceLock { path, process })),
        Attempt::Refused => Ok(None),
        Attempt::Held => Err(in_use()),
    }
}

/// Returns the holder of a device's lock, by its file in the folder of the locks.
pub fn lock_holder<A: Allocator, R: Files>(
    alloc: A,
    rt: &R,
    folder: &str,
    device: &str,
) -> Result<Holder, AllocError> {
    let path = lock_path(alloc, folder, device)?;
    Ok(holder_at(rt, path.as_str()))
}

impl<A: Allocator> DeviceLock<A> {
    /// Removes the lock, unless another process has it by now.
    pub fn release<R: Files>(self, rt: &R) {
        if holder_at(rt, self.path.as_str()) == Holder::Process(self.process) {
            let _ = fs::remove_file(rt, self.path.as_str());
        }
    }
}

/// Returns the fault of a line whose lock another run holds.
fn in_use() -> RunFault
    ensures { IsFolderFault result }
{
    RunFault::System(SystemFailure::on(Resource::Line, Cause::InUse))
}

/// Returns the number of this process, if the system reports it.
fn own_number<A: Allocator + Copy, R: Files>(alloc: A, rt: &R) -> Result<Option<u32>, AllocError> {
    let text = process_text(alloc, rt)?;
    Ok(read_number(text.as_bytes(), NUMBER_MAX))
}

/// Writes the complete lock file under another name, and then links it to its own. Nobody else sees a part of it.
fn take<A: Allocator + Copy, R: Files<File = File>>(
    alloc: A,
    rt: &R,
    process: u32,
    folder: &str,
    path: &str,
) -> Result<Attempt, AllocError> {
    let text = lock_text(alloc, process)?;
    let mut part = PartPath::new(alloc, rt, folder)?;
    let Ok(mut file) = part.create(rt) else {
        return Ok(Attempt::Refused);
    };
    let attempt = match write_lock(&mut file, text.as_slice()) {
        Ok(()) => place(alloc, rt, process, folder, part.as_str(), path),
        Err(_) => Ok(Attempt::Refused),
    };
    let _ = fs::remove_file(rt, part.as_str());
    attempt
}

/// Writes the text of a lock, and lets everybody read it.
fn write_lock(file: &mut File, text: &[u8]) -> io::Result<()> {
    file.set_permissions(Permissions::from_mode(LOCK_MODE))?;
    file.write_all(text)
}

/// Links the file at `part` to the name of the lock, if nobody holds the lock.
fn place<A: Allocator + Copy, R: Files<File = File>>(
    alloc: A,
    rt: &R,
    process: u32,
    folder: &str,
    part: &str,
    path: &str,
) -> Result<Attempt, AllocError> {
    match fs::hard_link(rt, part, path) {
        Ok(()) => Ok(Attempt::Taken),
        Err(error) if error.kind() == ErrorKind::AlreadyExists => {
            take_over(alloc, rt, process, folder, part, path)
        }
        Err(_) => Ok(Attempt::Refused),
    }
}

/// Replaces a lock that nobody holds with the file at `part`. The folder is locked meanwhile, since another run that
/// does the same would remove the lock that this one has just made.
fn take_over<A: Allocator + Copy, R: Files<File = File>>(
    alloc: A,
    rt: &R,
    process: u32,
    folder: &str,
    part: &str,
    path: &str,
) -> Result<Attempt, AllocError> {
    let Ok(locks) = File::open(rt, folder) else {
        return Ok(Attempt::Held);
    };
    if locks.try_lock().is_err() {
        return Ok(Attempt::Held);
    }
    let is_taken = is_taken(alloc, rt, Some(process), path)?;
    if is_taken {
        return Ok(Attempt::Held);
    }
    let attempt = replace(rt, part, path, is_taken);
    drop(locks);
    Ok(attempt)
}

/// Removes a lock that nobody holds, and links the file at `part` to its name.
fn replace<R: Files>(rt: &R, part: &str, path: &str, _is_taken: bool) -> Attempt
    requires { _is_taken ≡ false }
{
    match fs::remove_file(rt, path) {
        Err(error) if error.kind() != ErrorKind::NotFound => return Attempt::Refused,
        _ => (),
    }
    match fs::hard_link(rt, part, path) {
        Ok(()) => Attempt::Taken,
        Err(error) if error.kind() == ErrorKind::AlreadyExists => Attempt::Held,
        Err(_) => Attempt::Refused,
    }
}

/// Returns whether another process holds the lock at this path, or may hold it. A lock with the number of this process
/// was left by an earlier one of that number, since a run takes a lock once.
fn is_taken<A: Allocator + Copy, R: Files>(
    alloc: A,
    rt: &R,
    own: Option<u32>,
    path: &str,
) -> Result<bool, AllocError> {
    let holder = holder_at(rt, path);
    let is_gone = match holder {
        Holder::Process(process) => is_own(own, process) || is_gone(alloc, rt, process)?,
        _ => false,
    };
    Ok(is_held(holder, is_gone))
}

/// Returns whether a process is this one, as far as its number is known.
fn is_own(own: Option<u32>, process: u32) -> bool
    ensures { result ≡ is_own own process }
{
    own == Some(process)
}

/// Returns the holder of the lock at this path: `Unknown` if it can't be read, and `Nobody` if it is missing or would
/// be below a file.
fn holder_at<R: Files>(rt: &R, path: &str) -> Holder {
    let mut buffer = [0; READ_MAX];
    match read_lock(rt, path, &mut buffer) {
        Ok(count) => holder_of(&buffer[..count]),
        Err(error) => match error.kind() {
            ErrorKind::NotFound | ErrorKind::NotADirectory => Holder::Nobody,
            _ => Holder::Unknown,
        },
    }
}

/// Reads the first bytes of a lock file. Opens nothing but a regular file: a pipe would wait for a writer.
fn read_lock<R: Files>(rt: &R, path: &str, buffer: &mut [u8; READ_MAX]) -> io::Result<usize>
    ensures { IfOk result (λ count. count ≤ READ_MAX) }
{
    if !fs::symlink_metadata(rt, path)?.is_file() {
        return Err(io::Error::from(ErrorKind::InvalidInput));
    }
    File::open(rt, path)?.read(buffer)
}

/// Returns whether there is no process of this number. This is known only if `/proc` shows the processes of others, as
/// it does if process 1 is there.
fn is_gone<A: Allocator + Copy, R: Files>(
    alloc: A,
    rt: &R,
    process: u32,
) -> Result<bool, AllocError> {
    let path = format!(in alloc; "/proc/{process}")?;
    match fs::symlink_metadata(rt, path.as_str()) {
        Err(error) if error.kind() == ErrorKind::NotFound => {
            Ok(fs::symlink_metadata(rt, "/proc/1").is_ok())
        }
        _ => Ok(false),
    }
}
