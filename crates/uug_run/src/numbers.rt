//! The numbers of an end's conversations when its session begins.
ghost use Rattle.std.specs.Prelude.{◌≡◌, None, Ok, IfErr, MatchOption, MatchResult};
ghost use Rattle.uug_error.specs.Faults.{IsBadNumber, IsReadingFault};
ghost use Rattle.uug_store.specs.NumberText.{begins_with, number_in};

use std::alloc::{AllocError, Allocator};
use std::rt::Files;
use uug_config::{CallTask, SessionSettings, Station, make_node};
use uug_error::{Cause, EndDir, EndText, Resource, RunFault};
use uug_io_disk::{DirLock, read_text};
use uug_session::{MemorySpool, Place, Queue, Side};
use uug_store::{BadNumber, number_at_start, number_beside, read_number_text};
use uug_transfer::{BufferedNode, EndLine, FaultInjector, SessionLine, SessionObserver};

/// The numbers of an end's conversations when its session begins.
#[derive(Clone, Copy)]
pub(crate) struct Numbers {
    /// The number with which it begins, if it keeps one.
    pub(crate) begins: Option<u32>,
    /// The number in its file, if there is a file.
    pub(crate) held: Option<u32>,
    /// The number that the other end has sent already, if it has sent one.
    pub(crate) heard: Option<u32>,
}

/// Reads the number that the end keeps, and the one in its file.
pub(crate) fn read_numbers<A: Allocator + Copy, R: Files>(
    alloc: A,
    rt: &R,
    settings: &SessionSettings,
    lock: &DirLock<A>,
) -> Result<Numbers, RunFault>
    ensures { IfErr result IsReadingFault }
{
    let Some(text) = read_text(alloc, rt, lock.dir(), EndText::Number)? else {
        return numbers_of(lock.dir(), None, settings.is_numbered);
    };
    numbers_of(lock.dir(), Some(text.as_slice()), settings.is_numbered)
}

/// Returns the number that an end keeps, and the number in its file. `text` is the text of that file, if there is one.
/// A text that is not a number is a fault.
fn numbers_of(dir: EndDir<'_>, text: Option<&[u8]>, is_told: bool) -> Result<Numbers, RunFault>
    ensures numbers { MatchResult result
        (λ numbers. MatchOption text.entry
        ((numbers.held ≡ None) × (begins_with is_told ≡ Ok numbers.begins))
        (λ text. (numbers.held ≡ number_in text.now) × (numbers.begins ≡ numbers.held)))
        IsBadNumber }
{
    let held = match text {
        Some(text) => read_number_text(text),
        None => None,
    };
    match number_at_start(text, is_told) {
        Ok(begins) => Ok(Numbers {
            begins,
            held,
            heard: None,
        }),
        Err(BadNumber) => {
            let resource = Resource::Text(EndText::Number);
            Err(RunFault::System(dir.failure(resource, Cause::NotANumber)))
        }
    }
}

/// Returns the numbers with which the end begins. A called end that keeps a number first sends its first words, and
/// waits for its caller's number. If that is the number before its own, it begins with the caller's.
pub(crate) fn meet<A: Allocator + Copy, R: Files, L: EndLine, W: SessionObserver>(
    alloc: A,
    rt: &R,
    task: &CallTask<'_>,
    lock: &DirLock<A>,
    station: Station,
    line: &mut SessionLine<L, W, A>,
) -> Result<Numbers, RunFault>
    ensures { IfErr result IsReadingFault }
{
    let numbers = read_numbers(alloc, rt, &task.settings, lock)?;
    if task.side == Side::Caller || numbers.begins.is_none() {
        return Ok(numbers);
    }
    let said = meet_caller(alloc, &station.place, line, station.limits().greeting)?;
    Ok(Numbers {
        begins: number_beside(numbers.begins, said),
        held: numbers.held,
        heard: said,
    })
}

/// Sends the first words of a called end, and waits up to `seconds` for its caller's text. Returns the number in that
/// text, if it has one.
pub(crate) fn meet_caller<A: Allocator + Copy, L: EndLine, W: SessionObserver>(
    alloc: A,
    place: &Place,
    line: &mut SessionLine<L, W, A>,
    seconds: u64,
) -> Result<Option<u32>, AllocError> {
    let node = make_node(
        alloc,
        Side::Called,
        *place,
        Queue::new(alloc),
        MemorySpool::new(alloc),
    )?;
    let buffered = BufferedNode::new(alloc, node, FaultInjector::none())?;
    let said = line.meet(buffered.outgoing(), seconds);
    drop(buffered);
    said
}
