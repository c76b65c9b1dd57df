//! The session of an end over a spool.
ghost use Rattle.std.specs.Prelude.{◌≡◌, ◌≢◌, ◌≤◌, IfErr, IfOk, IsErr, OnOk, is_some, string_bytes};
ghost use Rattle.uug_error.specs.Faults.{IsFolderFault, IsSessionFault};
ghost use Rattle.uug_session.specs.Engine.{IsEnded};
ghost use Rattle.uug_session.specs.Node.{node_of};
ghost use Rattle.uug_transfer.specs.Reported.{HasRunSoundly, IsReported, status_with};
ghost use Rattle.uug_taylor_run.specs.CallAnswers.{AnswersCall, status_of};
ghost use Rattle.uug_taylor_run.specs.Stores.{store_now};
ghost use Rattle.uug_stream.specs.Fault.{StopsWriting};
ghost use Rattle.uug_stream.specs.Streams.{Appends, CountsFault};
ghost use Rattle.uug_transfer.specs.BufferedNodes.{node_in, spool_in};
ghost use Rattle.uug_transfer.specs.EndOver.{IsEndFault};
ghost use Rattle.uug_transfer.specs.Ends.{phase_of_end, report_of, status_of_phase};
ghost use Rattle.uug_transfer.specs.LineSessions.{SettlesJobs};
ghost use Rattle.uug_transfer.specs.Moments.{IsLed, end_now};

use crate::arrivals::{Arrivals, finish_arrivals};
use crate::notices::mail_failed;
use crate::public_files::{Giver, add_given, look_at_public};
use crate::resumed::{hold_left_of, read_held};
use crate::spool_call::{SpoolCall, paths_of};
use crate::spool_end::{SpoolEnd, SpoolFiles};
use crate::telling::{Teller, tell_fault};
use crate::work::{names_of, read_work};
use std::alloc::{AllocError, Allocator};
use std::fs::File;
use std::io::ErrorKind;
use std::rt::{Env, Files};
use std::time::Clock;
use uug_error::{Cause, Ended, Resource, RunFault};
use uug_io_disk::NoFile;
use uug_observe_log::{LocalClock, words_of};
use uug_session::{Node, Place, Side, Spool};
use uug_store::{add_failed, add_state};
use uug_stream::{Output, ToolFault, write_all};
use uug_taylor_disk::{PublicListing, SpoolPaths, is_known, linked_room};
use uug_taylor_queue::PublicFolder;
use uug_taylor_text::Room;
use uug_transfer::{BYTES_MAX, EndLine, PatienceLimits, SessionFault, run_at_line};

/// The words for standard error and the log if more jobs wait than a session offers.
const MORE: &str = "more jobs wait for the next session";

/// Runs the session of an end over a spool at its line. First moves the received files of interrupted sessions into
/// their places. A job that is over is removed from the disk before anything that acknowledges it is written.
pub fn talk_over_spool<A, R, L, O>(
    alloc: A,
    rt: &R,
    call: &SpoolCall<'_>,
    place: Place,
    limits: PatienceLimits,
    line: &mut L,
    output: &mut O,
) -> Result<Ended, RunFault>
where
    A: Allocator + Copy,
    R: Files<File = File> + Clock + Env + Eprint + AllocGlobal + Clone + Drop,
    L: EndLine,
    O: Output,
    // A report is printed whose session is done if the status is 0, and is not if it is 1, or jobs were put off. A call on
    // the spool that failed is named.
    ensures { AnswersCall IsSessionFault (IsReported call.now.side) (status_of result)
        (O.written output.old) (O.written output.new)
        (O.fault_count output.old) (O.fault_count output.new) }
{
    let paths = paths_of(alloc, call, place.peer)?;
    let paths = &paths;
    let mut end = begin(alloc, rt, call, place, paths)?;
    let clock = LocalClock::read(rt);
    let teller = Teller {
        alloc,
        rt,
        call,
        paths,
        clock: &clock,
    };
    let begun = teller.begin();
    teller.tell_unread(end.unread.as_slice(), "is put off");
    teller.tell_unread(end.ungiven.as_slice(), "is not given");
    teller.tell_unread(end.aside.as_slice(), "is set aside");
    let session = run_end(alloc, &mut end, line, limits);
    let is_left = !end.unread.is_empty();
    let answer = answer_of(
        alloc,
        call.side,
        session,
        end.buffered.node(),
        is_left,
        output,
    );
    let ended = Ended::of(answer, end.failure());
    let over = end.over();
    let spool = end.buffered.node().spool();
    teller.end(spool, &over, begun);
    mail_failed(&teller, &place.me, spool, &over);
    hold_left_of(&teller, end.buffered.node());
    drop(over);
    drop(teller);
    drop(clock);
    drop(end);
    ended
}

/// Runs the session of the end.
fn run_end<'a, 'p, A, R, L>(
    alloc: A,
    end: &mut SpoolEnd<'a, 'p, R, A>,
    line: &mut L,
    limits: PatienceLimits,
) -> Result<(), SessionFault>
where
    A: Allocator + Copy,
    R: Files<File = File>,
    L: EndLine,
    ensures led { IsLed
        (end_now ⟦<SpoolFiles<'a, 'p, R, A> as Spool>⟧.holdings
        ⟦<SpoolFiles<'a, 'p, R, A> as Spool>⟧.kept end.old.buffered)
        (end_now ⟦<SpoolFiles<'a, 'p, R, A> as Spool>⟧.holdings
        ⟦<SpoolFiles<'a, 'p, R, A> as Spool>⟧.kept end.new.buffered) }
    ensures over { IsEnded (node_in end.new.buffered).engine.stage }
    // Jobs that are over are removed from their C. files, and no others.
    ensures settles { SettlesJobs result
        (end_now ⟦<SpoolFiles<'a, 'p, R, A> as Spool>⟧.holdings
        ⟦<SpoolFiles<'a, 'p, R, A> as Spool>⟧.kept end.old.buffered)
        (end_now ⟦<SpoolFiles<'a, 'p, R, A> as Spool>⟧.holdings
        ⟦<SpoolFiles<'a, 'p, R, A> as Spool>⟧.kept end.new.buffered)
        (store_now end.old.store) (store_now end.new.store) }
    ensures no_number { result ≢ Err SessionFault.Number }
{
    let mut number = NoFile;
    run_at_line(
        alloc,
        &mut end.buffered,
        &mut end.store,
        &mut number,
        line,
        BYTES_MAX,
        limits,
    )
}

/// Creates the end over the spool as it is now.
fn begin<'a, 'p, A, R>(
    alloc: A,
    rt: &'a R,
    call: &SpoolCall<'_>,
    place: Place,
    paths: &'p SpoolPaths<A>,
) -> Result<SpoolEnd<'a, 'p, R, A>, RunFault>
where
    A: Allocator + Copy,
    R: Files<File = File> + Clock + Env + Eprint + AllocGlobal + Clone + Drop,
    ensures calm { IfOk result (λ end. end.store.disk.faults.count ≡ 0) }
    ensures ran { IfOk result (λ end. HasRunSoundly call.now.side
        (⟦<SpoolFiles<'a, 'p, R, A> as Spool>⟧.holdings (spool_in end.buffered))
        (⟦<SpoolFiles<'a, 'p, R, A> as Spool>⟧.kept (spool_in end.buffered))
        (node_in end.buffered)) }
    ensures resuming { IfOk result (λ end. is_some
        (⟦<SpoolFiles<'a, 'p, R, A> as Spool>⟧.holdings (spool_in end.buffered)).partials
        ≡ call.now.settings.is_resuming) }
    ensures no_other { IfErr result IsFolderFault }
{
    refuse_links(alloc, rt, call, paths)?;
    let taken = String::from_str(alloc, call.spool.rules.takes)?;
    let mut ungiven = Vec::new(alloc);
    let listing = look_at_public(&mut ungiven, alloc, rt, paths, call.spool.rules)?;
    let PublicListing {
        folders,
        others,
        barred,
        is_closed,
        is_unknown,
    } = listing;
    let mut public = PublicFolder {
        folders,
        others,
        barred,
        is_closed,
        delayed: Vec::new(alloc),
        is_unknown,
        taken,
    };
    let Arrivals { came, aside } = finish_arrivals(alloc, rt, paths, &mut public)?;
    let mut work = read_work(
        alloc,
        rt,
        paths,
        &place.me,
        call.allowance,
        call.spool.grade,
    )?;
    if work.is_more {
        tell_more(alloc, rt, call, paths);
    }
    work.came = came;
    work.aside = aside;
    // A caller that the spool does not know is given nothing.
    if call.side == Side::Caller || is_known(alloc, rt, paths)? {
        let giver = Giver::new(alloc, rt, paths, call);
        add_given(&mut work.files, &mut ungiven, &mut public, &giver)?;
    }
    public.delayed = names_of(alloc, ungiven.as_slice())?;
    work.ungiven = ungiven;
    work.partials = read_held(alloc, rt, call, paths)?;
    Ok(SpoolEnd::begin(alloc, rt, call, place, paths, work, public)?)
}

/// Reports, on standard error and in the log, that more jobs wait than the session offers.
fn tell_more<A, R>(alloc: A, rt: &R, call: &SpoolCall<'_>, paths: &SpoolPaths<A>)
where
    A: Allocator + Copy,
    R: Files<File = File> + Clock + Env + Eprint + AllocGlobal,
{
    let _ = eprint!(rt; "uucpair: {MORE}\n");
    tell_fault(alloc, rt, call, *paths.system(), MORE);
}

/// Refuses the session if one of the spool's own folders `.Received/SYSTEM` and `.Temp/SYSTEM` is a symbolic link,
/// which could lead anywhere. Reports which, on standard error and in the log.
fn refuse_links<A, R>(
    alloc: A,
    rt: &R,
    call: &SpoolCall<'_>,
    paths: &SpoolPaths<A>,
) -> Result<(), RunFault>
where
    A: Allocator + Copy,
    R: Files<File = File> + Clock + Env + Eprint + AllocGlobal,
    ensures { IfErr result IsFolderFault }
{
    let Some(room) = linked_room(alloc, rt, paths)? else {
        return Ok(());
    };
    let folder = match room {
        Room::Marked => ".Received",
        _ => ".Temp",
    };
    let system = paths.system().as_str();
    let line = format!(in alloc; "uucpair: {folder}/{system} is a link: remove it\n")?;
    let line = line.as_str();
    let _ = eprint!(rt; "{line}");
    tell_fault(alloc, rt, call, *paths.system(), words_of(line));
    let cause = Cause::Refused(ErrorKind::NotADirectory, None);
    Err(RunFault::System(paths.end_dir().failure(Resource::Dir, cause)))
}

/// Prints the report of an end, unless memory ran out in its session, and returns the program's status. `session` is
/// the result of its session. `is_left` is whether it put off jobs that could not be read: the status is then 1.
fn answer_of<S: Spool, A: Allocator + Copy, O: Output>(
    alloc: A,
    side: Side,
    session: Result<(), SessionFault>,
    end: &Node<S, A>,
    is_left: bool,
    output: &mut O,
) -> Result<u8, ToolFault>
    ensures within { IfOk result (λ status. status ≤ 1) }
    ensures status { IfOk result (λ status.
        status ≡ status_with is_left (status_of_phase (phase_of_end (node_of end.now)))) }
    ensures appends { OnOk result (Appends (report_of side (node_of end.now))
        (O.written output.old) (O.written output.new)) }
    ensures write { result ≡ Err ToolFault.Write
        → CountsFault (O.fault_count output.old) (O.fault_count output.new) }
    ensures no_other { IfErr result IsEndFault }
    ensures device { result ≡ Err ToolFault.Device → IsErr session }
    // A session whose results could not be stored on the disk has no status: it is a device fault.
    ensures jobs { session ≡ Err SessionFault.Jobs → result ≡ Err ToolFault.Device }
    ensures number { session ≡ Err SessionFault.Number → result ≡ Err ToolFault.Device }
    ensures memory { session ≡ Err SessionFault.Memory → result ≡ Err ToolFault.Memory }
{
    if let Err(SessionFault::Memory) = session {
        return Err(ToolFault::Memory);
    }
    let printed = print_report(alloc, side, end, output);
    let status = if end.phase().is_done() && !is_left {
        0
    } else {
        1
    };
    match (session, printed) {
        (Err(SessionFault::Jobs | SessionFault::Number), _) => Err(ToolFault::Device),
        (_, Err(fault)) => Err(fault),
        (_, Ok(())) => Ok(status),
    }
}

/// Prints the state of an end, and then the jobs that it has given up.
fn print_report<S: Spool, O: Output, A: Allocator + Copy>(
    alloc: A,
    side: Side,
    end: &Node<S, A>,
    output: &mut O,
) -> Result<(), ToolFault>
    ensures appends { OnOk result (Appends (report_of side (node_of end.now))
        (O.written output.old) (O.written output.new)) }
    ensures fault { IfErr result
        (StopsWriting (O.fault_count output.old) (O.fault_count output.new)) }
{
    let text = report(alloc, side, end)?;
    write_all(output, text.as_bytes())
}

/// Returns the report of an end: its state, and then the jobs that it has given up.
fn report<S: Spool, A: Allocator + Copy>(
    alloc: A,
    side: Side,
    end: &Node<S, A>,
) -> Result<String<A>, AllocError>
    ensures { IfOk result (λ text. string_bytes text ≡ report_of side (node_of end.now)) }
{
    let mut text = String::new(alloc);
    add_state(alloc, &mut text, side, end.phase(), end.queue())?;
    add_failed(alloc, &mut text, side, end.queue())?;
    Ok(text)
}
