ghost use Rattle.std.specs.Prelude.{◌≡◌, ◌<◌, [], ◌∷◌, ◌++◌, length, MatchOption, OnOk, None, Some};
ghost use Rattle.uug_line.specs.JournalValue.{journal_value, journal_by, packet_noted, saying, taking_from, sending_from, with_most};
ghost use Rattle.uug_line.specs.Shown.{end_shown, lists_in};
ghost use Rattle.uug_line.specs.LineEndState.{found_at, nothing_done};
ghost use Rattle.uug_line.specs.Report.{told_by};
ghost use Rattle.uug_link.specs.Entries.{shown_entry};

use crate::report::EndReport;
use std::alloc::{AllocError, Allocator};
use uug_link::{Entry, Outbox};
use uug_packet::message_in;
use uug_session::Phase;

/// The record of an end's session.
#[derive(Drop)]
pub(crate) struct Journal<A: Allocator> {
    pub(crate) sent: Vec<Vec<u8, A>, A>,
    pub(crate) taken: Vec<Vec<u8, A>, A>,
    /// The packets in their encoded form.
    pub(crate) packets: Vec<Vec<u8, A>, A>,
    pub(crate) arrivals: Vec<usize, A>,
    /// The number of the other end's packets that were found or skipped.
    pub(crate) passed: usize,
    pub(crate) most: usize,
}

impl<A: Allocator + Copy> Journal<A> {
    /// Makes an empty journal.
    pub(crate) fn new(alloc: A) -> Self
        ensures { journal_value result ≡ nothing_done }
    {
        Journal {
            sent: Vec::new(alloc),
            taken: Vec::new(alloc),
            packets: Vec::new(alloc),
            arrivals: Vec::new(alloc),
            passed: 0,
            most: 0,
        }
    }

    /// Rebuilds the journal of an end from its report and the number of packets that it has found or skipped.
    pub(crate) fn from_report(report: EndReport<A>, passed: usize) -> Self
        ensures { journal_value result ≡ journal_by (end_shown report) passed }
    {
        Journal {
            sent: report.sent,
            taken: report.taken,
            packets: report.packets,
            arrivals: report.arrivals,
            passed,
            most: report.most,
        }
    }

    /// Turns the journal into the report of an end that is in this phase.
    pub(crate) fn into_report(self, phase: Phase) -> EndReport<A>
        ensures { end_shown result ≡ told_by (journal_value self) phase }
    {
        EndReport {
            sent: self.sent,
            taken: self.taken,
            packets: self.packets,
            arrivals: self.arrivals,
            most: self.most,
            phase,
        }
    }

    /// Notes that the other end's packet at this place was found, and its message if it was taken. `packet` is the
    /// encoded packet.
    pub(crate) fn add_found(
        &mut self,
        alloc: A,
        packet: &[u8],
        place: usize,
        took: bool,
    ) -> Result<(), AllocError>
        requires { place < usize.MAX }
        ensures { OnOk result (journal_value self.new
            ≡ packet_noted packet.now place (journal_value self.old) took) }
    {
        self.add_arrival(place)?;
        if took {
            self.add_taken(alloc, packet)?;
        }
        Ok(())
    }

    fn add_arrival(&mut self, place: usize) -> Result<(), AllocError>
        requires { place < usize.MAX }
        ensures { OnOk result (journal_value self.new ≡ found_at place (journal_value self.old)) }
    {
        self.arrivals.push(place)?;
        self.passed = place + 1;
        Ok(())
    }

    /// Notes that the message of the encoded packet was taken.
    fn add_taken(&mut self, alloc: A, packet: &[u8]) -> Result<(), AllocError>
        ensures { OnOk result (journal_value self.new ≡ taking_from packet.now (journal_value self.old)) }
    {
        let message = message_in(packet).unwrap_or(&[]);
        push_bytes(&mut self.taken, alloc, message)
    }

    /// Notes what a call emitted, and how many packets it left unacknowledged.
    pub(crate) fn add_emitted(
        &mut self,
        alloc: A,
        outbox: &Outbox<A>,
        unacked: usize,
    ) -> Result<(), AllocError>
        ensures { OnOk result (journal_value self.new
            ≡ with_most unacked (saying outbox.now.entries (journal_value self.old))) }
    {
        self.add_entries(alloc, outbox)?;
        self.most = self.most.max(unacked);
        Ok(())
    }

    fn add_entries(&mut self, alloc: A, outbox: &Outbox<A>) -> Result<(), AllocError>
        ensures { OnOk result (journal_value self.new ≡ saying outbox.now.entries (journal_value self.old)) }
    {
        for i in 0..outbox.len() {
            self.add_entry(alloc, outbox.entry(i))?;
        }
        Ok(())
    }

    fn add_entry(&mut self, alloc: A, entry: Entry<'_>) -> Result<(), AllocError>
        ensures { OnOk result (journal_value self.new
            ≡ saying (shown_entry entry.entry ∷ []) (journal_value self.old)) }
    {
        let Entry::Packet { bytes, first } = entry else {
            return Ok(());
        };
        if first {
            self.add_sent(alloc, bytes)?;
        }
        push_bytes(&mut self.packets, alloc, bytes)
    }

    /// Notes the message of an encoded packet that goes out for the first time. Only a data packet has a message.
    fn add_sent(&mut self, alloc: A, packet: &[u8]) -> Result<(), AllocError>
        ensures { OnOk result (journal_value self.new ≡ sending_from packet.now (journal_value self.old)) }
    {
        match message_in(packet) {
            Some(message) => push_bytes(&mut self.sent, alloc, message),
            None => Ok(()),
        }
    }
}

/// Appends a copy of these bytes.
fn push_bytes<A: Allocator + Copy>(
    lists: &mut Vec<Vec<u8, A>, A>,
    alloc: A,
    bytes: &[u8],
) -> Result<(), AllocError>
    ensures { OnOk result (lists_in lists.new.items ≡ lists_in lists.old.items ++ bytes.now ∷ []) }
{
    let copy = bytes.to_vec(alloc)?;
    lists.push(copy)?;
    Ok(())
}
