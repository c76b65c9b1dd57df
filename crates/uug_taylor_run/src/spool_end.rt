//! An end over a spool, at the start of its session.
ghost use Rattle.std.specs.Prelude.{◌≡◌, ◌<◌, [], IfOk, IsSome, map, min, take};
ghost use Rattle.uug_conversation.specs.Jobs.{at_start};
ghost use Rattle.uug_conversation.specs.declared.queue.TheConstants.{JOBS_MAX};
ghost use Rattle.uug_conversation.specs.MemoryHoldings.{kept_of};
ghost use Rattle.uug_taylor_queue.specs.MailHoldings.{mail_holdings};
ghost use Rattle.uug_taylor_queue.specs.OpenLines.{jobs_of};
ghost use Rattle.uug_taylor_queue.specs.Places.{shown_public};
ghost use Rattle.uug_taylor_queue.specs.Placing.{came_of, marks_of, no_marks};
ghost use Rattle.uug_taylor_queue.specs.Rewriting.{shown_text};
ghost use Rattle.uug_taylor_queue.specs.WorkStores.{files_of, lines_of};
ghost use Rattle.uug_transfer.specs.Reported.{HasRunSoundly};
ghost use Rattle.uug_config.specs.Tasks.{HasBegunAt};
ghost use Rattle.uug_transfer.specs.BufferedNodes.{node_in, spool_in};

use crate::spool_call::SpoolCall;
use crate::telling::SessionOver;
use crate::work::{Unread, Work};
use std::alloc::{AllocError, Allocator};
use std::fs::File;
use std::rt::Files;
use uug_config::begin_end;
use uug_error::SystemFailure;
use uug_io_disk::PartialNotes;
use uug_session::{Partials, Place, Spool, Stored};
use uug_talk::Name;
use uug_taylor_disk::{SpoolDisk, SpoolPaths};
use uug_taylor_queue::{
    Came, Execution, MailSettings, MailSpool, PublicFolder, SpoolFolder, WorkStore, queue_of,
};
use uug_transfer::{BufferedNode, FaultInjector};

/// The files of an end over a spool.
pub(crate) type SpoolFiles<'a, 'p, R, A> = MailSpool<
    SpoolDisk<'a, 'p, R, A>,
    PartialNotes<'a, R, A>,
    A,
>;

/// An end over a spool.
#[derive(Drop)]
pub(crate) struct SpoolEnd<'a, 'p, R: Files<File = File>, A: Allocator + Copy> {
    /// The end at its line.
    pub(crate) buffered: BufferedNode<SpoolFiles<'a, 'p, R, A>, A>,
    /// The store of its jobs.
    pub(crate) store: WorkStore<SpoolDisk<'a, 'p, R, A>, A>,
    /// The names of the C. files that were read.
    pub(crate) names: Vec<Name, A>,
    /// The commands that the lines of these files run.
    pub(crate) executions: Vec<Execution, A>,
    /// The jobs that are put off because they can't be read.
    pub(crate) unread: Vec<Unread, A>,
    /// The files that are not given because they can't be read.
    pub(crate) ungiven: Vec<Unread, A>,
    /// The files that earlier sessions received, and that were set aside.
    pub(crate) aside: Vec<Unread, A>,
}

impl<'a, 'p, R: Files<File = File>, A: Allocator + Copy> SpoolEnd<'a, 'p, R, A> {
    /// Creates the end with this work. Its queue has the first jobs of the work's lines, as many as are offered, at
    /// most `JOBS_MAX`. All are still to be offered.
    pub(crate) fn begin(
        alloc: A,
        rt: &'a R,
        call: &SpoolCall<'_>,
        place: Place,
        paths: &'p SpoolPaths<A>,
        work: Work<A>,
        public: PublicFolder<A>,
    ) -> Result<Self, AllocError>
        ensures calm { IfOk result (λ end. end.store.disk.faults.count ≡ 0) }
        ensures lines { IfOk result (λ end. lines_of end.store ≡ work.lines.items) }
        ensures names { IfOk result (λ end. end.names ≡ work.names) }
        ensures executions { IfOk result (λ end. end.executions ≡ work.executions) }
        ensures unread { IfOk result (λ end. end.unread ≡ work.unread) }
        ensures ungiven { IfOk result (λ end. end.ungiven ≡ work.ungiven) }
        ensures aside { IfOk result (λ end. end.aside ≡ work.aside) }
        ensures texts { IfOk result (λ end. files_of end.store ≡ map shown_text work.texts.items) }
        // It gives the files of the work, resumes its partial files, and knows the files that earlier sessions
        // received.
        ensures holdings { IfOk result (λ end.
            ⟦<SpoolFiles<'a, 'p, R, A> as Spool>⟧.holdings (spool_in end.buffered)
            ≡ mail_holdings call.now.settings.is_lenient call.now.settings.tells_digests
            call.now.allowance.limit.bytes (shown_public public) work.partials (map kept_of work.files.items)) }
        ensures kept { IfOk result (λ end.
            ⟦<SpoolFiles<'a, 'p, R, A> as Spool>⟧.kept (spool_in end.buffered) ≡ []) }
        ensures came { IfOk result (λ end. came_of (spool_in end.buffered).folder ≡ work.came.items) }
        ensures marks { IfOk result (λ end.
            marks_of (spool_in end.buffered).folder ≡ no_marks) }
        ensures begun { IfOk result (λ end. HasBegunAt call.now.side place
            (at_start (take (min work.offered JOBS_MAX) (jobs_of work.lines.items)) [] []) (node_in end.buffered)) }
        // It began its session soundly, and has run it so far.
        ensures ran { IfOk result (λ end. HasRunSoundly call.now.side
            (⟦<SpoolFiles<'a, 'p, R, A> as Spool>⟧.holdings (spool_in end.buffered))
            (⟦<SpoolFiles<'a, 'p, R, A> as Spool>⟧.kept (spool_in end.buffered))
            (node_in end.buffered)) }
    {
        let queue = match queue_of(alloc, work.lines.as_slice(), work.offered) {
            Ok(queue) => queue,
            Err(AllocError) => {
                drop(public);
                drop(work);
                return Err(AllocError);
            }
        };
        let notes = match notes_of(alloc, rt, paths) {
            Ok(notes) => notes,
            Err(AllocError) => {
                drop(public);
                drop(work);
                drop(queue);
                return Err(AllocError);
            }
        };
        let Work {
            names,
            lines,
            texts,
            files,
            executions,
            unread,
            ungiven,
            came,
            aside,
            partials,
            ..
        } = work;
        let folder = SpoolFolder::new(SpoolDisk::new(alloc, rt, paths), came);
        let spool = files_over(alloc, call, folder, files, public, partials, notes);
        let injector = FaultInjector::without_faults(call.settings.thinning());
        match begin_end(alloc, call.side, place, queue, spool, injector) {
            Ok(buffered) => Ok(SpoolEnd {
                buffered,
                store: WorkStore::new(alloc, SpoolDisk::new(alloc, rt, paths), lines, texts),
                names,
                executions,
                unread,
                ungiven,
                aside,
            }),
            Err(AllocError) => {
                drop(lines);
                drop(texts);
                drop(names);
                drop(executions);
                drop(unread);
                drop(ungiven);
                drop(aside);
                Err(AllocError)
            }
        }
    }

    /// Returns its session, which is over, for reports and mail.
    pub(crate) fn over(&self) -> SessionOver<'_, A> {
        let node = self.buffered.node();
        let folder = &node.spool().folder;
        SessionOver {
            phase: node.phase(),
            struck: node.queue().struck(),
            failed: node.queue().failed(),
            names: self.names.as_slice(),
            lines: self.store.lines(),
            executions: self.executions.as_slice(),
            arrived: folder.disk.arrived(),
            marks: folder.marks(),
            preserved: self.store.disk.preserved(),
        }
    }

    /// Returns the first failed system call on the spool: on received files, or else on its jobs.
    pub(crate) fn failure(&self) -> Option<SystemFailure>
        ensures { 0 < self.now.store.disk.faults.count → IsSome result }
    {
        let folder = &self.buffered.node().spool().folder;
        folder.disk.failure().or(self.store.disk.failure())
    }
}

/// Returns the notebook over the end's folder of partial files.
fn notes_of<'a, R: Files<File = File>, A: Allocator + Copy>(
    alloc: A,
    rt: &'a R,
    paths: &SpoolPaths<A>,
) -> Result<PartialNotes<'a, R, A>, AllocError> {
    let path = paths.partial(alloc)?;
    Ok(PartialNotes::new(alloc, rt, path))
}

/// Returns the files of an end: those that it gives, and the folders into which it puts those that it receives.
fn files_over<'a, 'p, R: Files<File = File>, A: Allocator + Copy>(
    alloc: A,
    call: &SpoolCall<'_>,
    folder: SpoolFolder<SpoolDisk<'a, 'p, R, A>, A>,
    files: Vec<Stored<A>, A>,
    public: PublicFolder<A>,
    partials: Option<Partials<A>>,
    notes: PartialNotes<'a, R, A>,
) -> SpoolFiles<'a, 'p, R, A>
    ensures holdings { ⟦<SpoolFiles<'a, 'p, R, A> as Spool>⟧.holdings result
        ≡ mail_holdings call.now.settings.is_lenient call.now.settings.tells_digests
        call.now.allowance.limit.bytes (shown_public public) partials (map kept_of files.items) }
    ensures kept { ⟦<SpoolFiles<'a, 'p, R, A> as Spool>⟧.kept result ≡ [] }
    ensures folder { result.folder ≡ folder.entry }
{
    let settings = MailSettings {
        is_lenient: call.settings.is_lenient,
        tells_digests: call.settings.tells_digests,
        limit: call.allowance.limit,
    };
    MailSpool::new(alloc, files, public, folder, partials, notes, settings)
}
