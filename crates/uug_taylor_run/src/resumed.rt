//! The partial files of an end over a spool: the first bytes of files that were cut off, in a folder of the other
//! system.
ghost use Rattle.std.specs.Prelude.{◌≡◌, IfOk, is_some};

use crate::spool_call::SpoolCall;
use crate::spool_end::SpoolFiles;
use crate::telling::Teller;
use std::alloc::{AllocError, Allocator};
use std::fs::File;
use std::io::ErrorKind;
use std::rt::Files;
use std::time::Clock;
use uug_error::{Cause, Resource, SystemFailure};
use uug_error_text::reason_line;
use uug_io_disk::{drop_partials, hold_partial, read_partials};
use uug_observe_log::words_of;
use uug_session::{Node, PartialFile, Partials};
use uug_talk::FileDigest;
use uug_taylor_disk::SpoolPaths;
use uug_taylor_text::LogEvent;

/// Reads the partial files that an end holds, if it resumes.
pub(crate) fn read_held<A, R>(
    alloc: A,
    rt: &R,
    call: &SpoolCall<'_>,
    paths: &SpoolPaths<A>,
) -> Result<Option<Partials<A>>, AllocError>
where
    A: Allocator + Copy,
    R: Files + Clock + Alloc + Clone + Drop,
    ensures { IfOk result (λ held. is_some held ≡ call.now.settings.is_resuming) }
{
    if !call.settings.is_resuming {
        return Ok(None);
    }
    let path = paths.partial(alloc)?;
    let held = read_partials(alloc, rt, path.as_str(), call.allowance)?;
    Ok(Some(held))
}

/// Removes and saves partial files as `hold_left` does, if the end resumes. Logs why a file can't be saved.
pub(crate) fn hold_left_of<A, R>(
    teller: &Teller<'_, '_, A, R>,
    end: &Node<SpoolFiles<'_, '_, R, A>, A>,
)
where
    A: Allocator + Copy,
    R: Files<File = File> + Clock + Eprint,
{
    let Some(partials) = end.spool().partials() else {
        return;
    };
    let (alloc, rt) = (teller.alloc, teller.rt);
    if let Ok(path) = teller.paths.partial(alloc) {
        if let Some(line) = hold_left(alloc, rt, path.as_str(), partials.over(), end.left()) {
            teller.log(b"", &LogEvent::Fault(words_of(line.as_str()).as_bytes()));
        }
    }
}

/// Removes the partial files of the digests `over`, which are no longer needed, from the folder at `path`. Saves `left`
/// there: the first bytes of the file that was cut off. If that fails, prints a line on standard error, and returns it.
pub fn hold_left<A, R>(
    alloc: A,
    rt: &R,
    path: &str,
    over: &[FileDigest],
    left: Result<Option<PartialFile<A>>, AllocError>,
) -> Option<String<A>>
where
    A: Allocator + Copy,
    R: Files<File = File> + Eprint,
{
    drop_partials(alloc, rt, path, over);
    let held = match left {
        Ok(Some(file)) => hold_partial(alloc, rt, path, &file),
        Ok(None) => Ok(()),
        Err(AllocError) => Err(Cause::Refused(ErrorKind::OutOfMemory, None)),
    };
    match held {
        Ok(()) => None,
        Err(cause) => say_not_held(alloc, rt, path, cause),
    }
}

/// Prints on standard error why nothing can be saved in the folder at this path, and returns the line.
fn say_not_held<A: Allocator, R: Eprint>(
    alloc: A,
    rt: &R,
    path: &str,
    cause: Cause,
) -> Option<String<A>> {
    let failure = SystemFailure::on(Resource::Dir, cause);
    let line = reason_line(alloc, "", "", path, "", failure).ok()?;
    let said = line.as_str();
    let _ = eprint!(rt; "{said}");
    Some(line)
}
