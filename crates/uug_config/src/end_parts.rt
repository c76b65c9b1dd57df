//! One end from its beginning to the end of its session.
ghost use Rattle.std.specs.Prelude.{◌≡◌, ◌≤◌, ◌⊎◌, [], All, IfErr, IfOk};
ghost use Rattle.uug_conversation.specs.Jobs.{pending};
ghost use Rattle.uug_conversation.specs.Party.{HasNames};
ghost use Rattle.uug_session.specs.Beginnings.{IsSoundBeginning};
ghost use Rattle.uug_session.specs.NodeRuns.{HasRun};
ghost use Rattle.uug_link.specs.Announced.{announced};
ghost use Rattle.uug_link.specs.Terms.{IsWindow};
ghost use Rattle.uug_session.specs.Engine.{BeginsSession, HasFailed, all_ahead};
ghost use Rattle.uug_session.specs.Node.{node_of, spool_of};
ghost use Rattle.uug_session.specs.Sessions.{HoldsNothing};
ghost use Rattle.uug_stream.specs.Streams.{CountsFault};
ghost use Rattle.uug_config.specs.Tasks.{HasBegunAt, beginning_at, beginning_of, identity_at};
ghost use Rattle.uug_transfer.specs.BufferedNodes.{node_in, spool_in};
ghost use Rattle.uug_transfer.specs.EndOver.{IsEndFault};
ghost use Rattle.uug_transfer.specs.Reported.{IsReported};

use std::alloc::{AllocError, Allocator};
use uug_session::event_laws::{a_node_begins_as_an_end, events_follow_events};
use uug_session::{Node, Place, Queue, Side, Spool};
use uug_store::{JobTexts, JobsFile, TextFile};
use uug_stream::{Output, ToolFault};
use uug_transfer::{
    BYTES_MAX, BufferedNode, EndLine, FaultInjector, PatienceLimits, Thinning, TransferEnd,
    call_over,
};

/// The parts of an end: its place, its jobs, its files, and the texts that hold its state between sessions.
#[derive(Drop)]
pub struct EndParts<S: Spool, J, N, A: Allocator> {
    /// Its place: the names of both ends, what it announces, and its number.
    pub place: Place,
    /// Its jobs, all of which are to be offered.
    pub queue: Queue<A>,
    /// Its files.
    pub spool: S,
    /// The file of its jobs.
    pub jobs: JobsFile<J, A>,
    /// The file of its number, if it keeps one.
    pub number: N,
}

/// An end whose session is over, and the result of the program.
#[derive(Drop)]
pub struct FinishedEnd<S: Spool, J, N, A: Allocator> {
    /// The end after its session.
    pub end: TransferEnd<S, J, N, A>,
    /// The program's status, or the first fault.
    pub answer: Result<u8, ToolFault>,
}

impl<S: Spool + Drop, J: Drop, N: Drop, A: Allocator + Copy> EndParts<S, J, N, A> {
    /// Creates the end on this side, and begins its session. Its first bytes still have to be written.
    pub fn begin(
        self,
        alloc: A,
        side: Side,
        injector: FaultInjector,
    ) -> Result<TransferEnd<S, J, N, A>, AllocError>
        ensures begun { IfOk result (λ end.
            HasBegunAt side self.place self.queue (node_in end.buffered)) }
        ensures ran { IfOk result (λ end. HasRun side
            (beginning_of S.holdings S.kept self)
            (S.kept (spool_in end.buffered)) (node_in end.buffered)) }
        ensures holdings { IfOk result (λ end.
            S.holdings (spool_in end.buffered) ≡ S.holdings self.spool) }
        ensures sound { IfOk result (λ _.
            IsSoundBeginning (beginning_of S.holdings S.kept self)) }
        ensures jobs { IfOk result (λ end. end.jobs ≡ self.jobs) }
        ensures number { IfOk result (λ end. end.number ≡ self.number) }
    {
        let EndParts {
            place,
            queue,
            spool,
            jobs,
            number,
        } = self;
        let buffered = begin_end(alloc, side, place, queue, spool, injector)?;
        Ok(TransferEnd {
            buffered,
            jobs,
            number,
        })
    }
}

impl<S: Spool + Drop, J: JobTexts + Drop, N: TextFile + Drop, A: Allocator + Copy> EndParts<
    S,
    J,
    N,
    A,
> {
    /// Runs the session of the end on this side over its line, and returns the end. It has run the session that began
    /// here, up to that point.
    pub fn run<L: EndLine, O: Output>(
        self,
        alloc: A,
        side: Side,
        thinning: Thinning,
        line: &mut L,
        limits: PatienceLimits,
        output: &mut O,
    ) -> Result<FinishedEnd<S, J, N, A>, AllocError>
        ensures ran { IfOk result (λ finished. HasRun side
            (beginning_of S.holdings S.kept self)
            (S.kept (spool_in finished.end.buffered)) (node_in finished.end.buffered)) }
        ensures sound { IfOk result (λ _.
            IsSoundBeginning (beginning_of S.holdings S.kept self)) }
        ensures status { IfOk result (λ finished. IfOk finished.answer (λ status. status ≤ 1)) }
        // The report of the end is printed, and the status is that of its session.
        ensures reported { IfOk result (λ finished. IfOk finished.answer (λ status.
            IsReported side status (O.written output.old) (O.written output.new))) }
        ensures write { IfOk result (λ finished. finished.answer ≡ Err ToolFault.Write
            → CountsFault (O.fault_count output.old) (O.fault_count output.new)) }
        ensures no_other { IfOk result (λ finished. IfErr finished.answer IsEndFault) }
        ensures device { IfOk result (λ finished. finished.answer ≡ Err ToolFault.Device
            → HasFailed u64.MAX (J.fault_count self.jobs.file)
            (J.fault_count finished.end.jobs.file)
            ⊎ HasFailed u64.MAX (N.fault_count self.number)
            (N.fault_count finished.end.number)) }
    {
        events_follow_events();
        let injector = FaultInjector::without_faults(thinning);
        let mut end = self.begin(alloc, side, injector)?;
        let answer = call_over(alloc, side, &mut end, line, BYTES_MAX, limits, output);
        Ok(FinishedEnd { end, answer })
    }
}

/// Begins the session of an end with these jobs and files. Its first bytes still have to be written.
pub fn begin_end<S: Spool + Drop, A: Allocator + Copy>(
    alloc: A,
    side: Side,
    place: Place,
    queue: Queue<A>,
    spool: S,
    injector: FaultInjector,
) -> Result<BufferedNode<S, A>, AllocError>
    ensures begun { IfOk result (λ buffered. HasBegunAt side place queue (node_in buffered)) }
    ensures ran { IfOk result (λ buffered. HasRun side
        (beginning_at place queue (S.holdings spool) (S.kept spool))
        (S.kept (spool_in buffered)) (node_in buffered)) }
    ensures sound { IfOk result (λ _.
        IsSoundBeginning (beginning_at place queue (S.holdings spool) (S.kept spool))) }
    ensures spool { IfOk result (λ buffered. spool_in buffered ≡ spool) }
{
    a_node_begins_as_an_end();
    events_follow_events();
    note_types(&place, &queue);
    let node = make_node(alloc, side, place, queue, spool)?;
    let buffered = BufferedNode::new(alloc, node, injector)?;
    Ok(buffered)
}

/// Brings in the invariants of the types of an end's place and jobs.
fn note_types<A: Allocator>(place: &Place, queue: &Queue<A>)
    ensures window { IsWindow (announced place.now.announce).window }
    ensures names { All HasNames (pending queue.now) }
{
    let _window = place.announce.window();
    let _jobs = queue.pending();
}

/// Creates the node on this side, with these jobs.
pub fn make_node<S: Spool + Drop, A: Allocator + Copy>(
    alloc: A,
    side: Side,
    place: Place,
    jobs: Queue<A>,
    spool: S,
) -> Result<Node<S, A>, AllocError>
    ensures begins { IfOk result (λ node. BeginsSession (identity_at side place)
        (announced place.announce) place.number (all_ahead jobs) [] (node_of node).engine) }
    ensures nothing_held { IfOk result (λ node. HoldsNothing (node_of node)) }
    ensures spool { IfOk result (λ node. spool_of node ≡ spool) }
{
    let made = match side {
        Side::Caller => Node::caller(alloc, place, jobs, spool),
        Side::Called => Node::called(alloc, place, jobs, spool),
    };
    match made {
        Ok(node) => Ok(node),
        Err(refused) => {
            drop(refused);
            Err(AllocError)
        }
    }
}
